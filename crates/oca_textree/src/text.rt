//! A whole text.
ghost use Rattle.std.specs.Prelude.{◌≡◌, ◌≤◌, ◌⊎◌, Some, None, IfOk, IfErr, Ok as ok, Err as err};
ghost use Rattle.oca_tree.specs.Room.{room_size};
ghost use Rattle.oca_tree.specs.Building.{root};
ghost use Rattle.oca_textree.specs.PrivateStored.{root_view};
ghost use Rattle.oca_script.specs.Fields.{split_at, split_on};
ghost use Rattle.oca_textree.specs.Stored.{after_line};
ghost use Rattle.oca_textree.specs.PrivateLines.{IsReadAs, IsReadSoFar};
ghost use Rattle.oca_textree.specs.Texts.{objects_of_text, line_before, from_root, rooted_by, after_lines};
ghost use Rattle.oca_textree.specs.declared.fault.TreeFault.TheVariants.{NoMemory, Line};
ghost use Rattle.oca_script.specs.declared.object_fault.ObjectFault.{ObjectFault as Fault};

use super::fault::TreeFault;
use super::field::has_control;
use super::line::{add_line, behind};
use super::stored::start_of;
use oca_script::ObjectFault;
use oca_script::field::split_at_byte;
use oca_tree::{Room, Start, Tree, TreeBuilder};
use oca_types::Text;
use std::alloc::Global;

/// For how many objects there is room, the root counted.
const MOST_OBJECTS: u16 = 4096;

/// Reads the objects of a device from a text, and returns them as a tree. The root comes first, then the objects of the
/// lines, in the order of the lines. The call takes from `alloc` the memory for 4,096 objects, whatever the number of
/// lines is. The form of a line is the profile's, and [`crate`] describes its fields:
/// - `NUMBER CONTAINER CLASS .. LOCKABLE ROLE` lists an object.
/// - `object NUMBER CONTAINER CLASS .. LOCKABLE ROLE ENABLED LABEL` lists an object with its enabled flag and label, as
///   [`print_tree`](crate::print_tree) prints it.
/// - `root ENABLED LABEL` has the root's enabled flag and label. It can only be line 1 of the text: in a later line,
///   also behind a skipped line, it is a fault. The root needs no line: an empty text gives a tree of the root alone.
/// - Empty lines and lines that begin with `#` are skipped.
///
/// A line ends with a line feed, which the last line may lack. A role, label or name that is not UTF-8 is a fault.
/// A tree has at most 4,096 objects, the root counted. A line that lists one object more has the fault `Full` if all
/// its fields can be read.
///
/// Refusals, after which no tree is returned:
/// - `Line` with the number of the first line with a fault, counted from 1 with the skipped lines, and the first fault
///   in this line.
/// - `NoMemory` if the allocator refused the memory. If the first line begins with `root` and has a fault, the refusal
///   is `Line`, and no memory is taken.
#[tactic(auto, unfolding(crate::specs::Texts::objects_of_text))]
pub fn tree_from_text(alloc: Global, text: &[u8]) -> Result<Tree, TreeFault>
    ensures ok { IfOk result (λ tree. objects_of_text text.now ≡ ok tree) }
    ensures err { IfErr result (λ e. (e ≡ NoMemory) ⊎ (objects_of_text text.now ≡ err e)) }
{
    match behind(b"root", first_line(text)) {
        Some(fields) => rooted_tree(alloc, fields, text),
        None => plain_tree(alloc, text),
    }
}

/// The first line.
fn first_line(text: &[u8]) -> &[u8]
    ensures { result.now ≡ line_before (split_at 10 text.now) text.now }
{
    match split_at_byte(text, b'\n') {
        Some((line, _)) => line,
        None => text,
    }
}

/// The tree of a text of which no line says what was stored of the root.
fn plain_tree(alloc: Global, text: &[u8]) -> Result<Tree, TreeFault>
    ensures ok { IfOk result (λ tree. from_root None text.now ≡ ok tree) }
    ensures err { IfErr result (λ e. (e ≡ NoMemory) ⊎ (from_root None text.now ≡ err e)) }
{
    match TreeBuilder::with_room(alloc, most_room()) {
        Ok(builder) => finished(builder, 1, text),
        Err(_) => Err(TreeFault::NoMemory),
    }
}

/// The tree with the objects of further lines, of which the first has this number.
fn finished(builder: TreeBuilder, first: u64, text: &[u8]) -> Result<Tree, TreeFault>
    requires room { builder.room ≡ 4096 }
    requires first { first ≤ 2 }
    ensures ok { IfOk result (λ tree. after_lines first builder.list (split_on 10 text.now) ≡ ok tree) }
    ensures err { IfErr result (λ e. after_lines first builder.list (split_on 10 text.now) ≡ err e) }
{
    let mut builder = builder;
    add_lines(&mut builder, first, text)?;
    Ok(builder.finish())
}

/// The tree of a text of which the first line has these fields of the root.
fn rooted_tree(alloc: Global, fields: &[u8], text: &[u8]) -> Result<Tree, TreeFault>
    ensures ok { IfOk result (λ tree. from_root (Some fields.now) text.now ≡ ok tree) }
    ensures err { IfErr result (λ e. (e ≡ NoMemory) ⊎ (from_root (Some fields.now) text.now ≡ err e)) }
{
    let builder = rooted_builder(alloc, fields)?;
    match split_at_byte(text, b'\n') {
        Some((_, rest)) => finished(builder, 2, rest),
        None => Ok(builder.finish()),
    }
}

/// What the fields of the root's line say of it.
#[tactic(auto, unfolding(crate::specs::Texts::rooted_by, crate::specs::Stored::rooted))]
fn root_start(fields: &[u8]) -> Result<(bool, Text), ObjectFault>
    ensures { root_view result ≡ rooted_by fields.now }
{
    if has_control(fields) {
        return Err(ObjectFault::Form);
    }
    start_of(Some(fields))
}

/// A builder with the root that the fields of its line say.
fn rooted_builder(alloc: Global, fields: &[u8]) -> Result<TreeBuilder, TreeFault>
    ensures ok { IfOk result (λ builder. (builder.room ≡ 4096) × (rooted_by fields.now ≡ ok builder.list)) }
    ensures err { IfErr result (λ e. (e ≡ NoMemory) ⊎ ((f : Fault) × (e ≡ Line 1 f) × (rooted_by fields.now ≡ err f))) }
{
    let (enabled, label) = match root_start(fields) {
        Ok(start) => start,
        Err(fault) => return Err(TreeFault::Line(1, fault)),
    };
    let start = Start {
        label: label.as_str(),
        enabled,
        position_enableds: None,
    };
    match TreeBuilder::with_root(alloc, most_room(), &start) {
        Ok(builder) => Ok(builder),
        Err(_) => Err(TreeFault::NoMemory),
    }
}

/// The room of 4,096 objects.
fn most_room() -> Room
    ensures { room_size result ≡ 4096 }
{
    match Room::new(MOST_OBJECTS) {
        Some(room) => room,
        None => unreachable!(),
    }
}

/// Adds the objects of further lines, of which the first has this number.
fn add_lines(builder: &mut TreeBuilder, first: u64, text: &[u8]) -> Result<(), TreeFault>
    requires room { builder.old.room ≡ 4096 }
    requires first { first ≤ 2 }
    ensures { IsReadAs result builder.new.list (after_lines first builder.old.list (split_on 10 text.now)) }
{
    let mut rest = text;
    let mut number = first;
    while let Some((line, after)) = split_at_byte(rest, b'\n') {
        add_numbered(builder, number, line)?;
        rest = after;
        number += 1;
    }
    add_numbered(builder, number, rest)
}

/// Adds the object of the line of this number.
fn add_numbered(builder: &mut TreeBuilder, number: u64, line: &[u8]) -> Result<(), TreeFault>
    requires { builder.old.room ≡ 4096 }
    ensures { IsReadSoFar result builder.old builder.new number (after_line builder.old.list line.now) }
{
    match add_line(builder, line) {
        Ok(()) => Ok(()),
        Err(fault) => Err(TreeFault::Line(number, fault)),
    }
}
