//! A line of a text.
ghost use Rattle.std.specs.Prelude.{◌≡◌};
ghost use Rattle.std.specs.Option.{option_copied};
ghost use Rattle.oca_types.specs.declared.class.Class.TheVariants.{Switch};
ghost use Rattle.oca_textree.specs.Lines.{last_of, value_at, added_with, added_by, added_as};
ghost use Rattle.oca_textree.specs.Lines.{is_skipped_line as skipped_line};
ghost use Rattle.oca_textree.specs.Stored.{after_line, after_word as behind_word};
ghost use Rattle.oca_textree.specs.PrivateLines.{last_view, Became, kind_valued};

use super::fault::fault_of;
use super::field::{field, has_control, placed, text_of};
use super::stored::add_stored;
use super::value::{PositionNames, kind_at, lockable, positions};
use oca_script::ObjectFault;
use oca_script::field::split_at_byte;
use oca_tree::{Kind, Spec, TreeBuilder};
use oca_types::{Class, Ono};

/// The end of a line: whether the object can be locked, and its role.
#[tactic(auto, unfolding(crate::specs::Lines::last_of))]
fn last(rest: Option<&[u8]>) -> Result<(bool, &str), ObjectFault>
    ensures { last_view result ≡ last_of (option_copied rest.entry) }
{
    let (word, rest) = field(rest)?;
    let Some(lockable) = lockable(word) else {
        return Err(ObjectFault::Lockable);
    };
    let (role, rest) = field(rest)?;
    if rest.is_some() {
        return Err(ObjectFault::Form);
    }
    match text_of(role) {
        Some(role) => Ok((lockable, role)),
        None => Err(ObjectFault::Text),
    }
}

/// Adds the object of which all but the end of the line was read.
#[tactic(auto, unfolding(crate::specs::Lines::added_with, crate::specs::Lines::refusal, oca_tree::specs::Building::add_fault))]
fn add(
    builder: &mut TreeBuilder,
    container: u32,
    ono: u32,
    kind: Kind<'_>,
    rest: Option<&[u8]>,
) -> Result<(), ObjectFault>
    requires { builder.old.room ≡ 4096 }
    ensures { Became result builder.old builder.new
        (added_with builder.old.list container ono (kind_valued kind.entry rest.entry)) }
{
    let (lockable, role) = last(rest)?;
    let spec = Spec {
        role,
        lockable,
        kind,
    };
    match builder.add(Ono(container), Ono(ono), &spec) {
        Ok(()) => Ok(()),
        Err(fault) => Err(fault_of(fault)),
    }
}

/// Adds a switch of which the class was read last.
#[tactic(auto, unfolding(crate::specs::Lines::value_at, oca_tree::specs::Building::value_of))]
fn add_switch(
    builder: &mut TreeBuilder,
    container: u32,
    ono: u32,
    rest: Option<&[u8]>,
) -> Result<(), ObjectFault>
    requires { builder.old.room ≡ 4096 }
    ensures { Became result builder.old builder.new
        (added_as builder.old.list container ono Switch (option_copied rest.entry)) }
{
    let mut names = PositionNames::new();
    let (position, rest) = positions(rest, &mut names)?;
    let kind = Kind::Switch {
        names: names.as_slice(),
        position,
    };
    add(builder, container, ono, kind, rest)
}

/// Adds an object of which the class was read last.
fn add_of_class(
    builder: &mut TreeBuilder,
    container: u32,
    ono: u32,
    class: Class,
    rest: Option<&[u8]>,
) -> Result<(), ObjectFault>
    requires { builder.old.room ≡ 4096 }
    ensures { Became result builder.old builder.new
        (added_as builder.old.list container ono class (option_copied rest.entry)) }
{
    if class == Class::Switch {
        return add_switch(builder, container, ono, rest);
    }
    let (kind, rest) = kind_at(class, rest)?;
    add(builder, container, ono, kind, rest)
}

/// Adds the object that the fields of a line list.
#[tactic(auto, unfolding(crate::specs::Lines::added_by))]
fn add_listed(builder: &mut TreeBuilder, line: &[u8]) -> Result<(), ObjectFault>
    requires { builder.old.room ≡ 4096 }
    ensures { Became result builder.old builder.new (added_by builder.old.list line.now) }
{
    let (number, container, class, rest) = placed(Some(line))?;
    add_of_class(builder, container, number, class, rest)
}

/// Whether a line is empty or a comment.
fn is_skipped(line: &[u8]) -> bool
    ensures { result ≡ skipped_line line.now }
{
    match line {
        [] => true,
        [first, ..] => *first == b'#',
    }
}

/// Returns the part of a line after a word and one space. The word must have no space. The result is `None` if the line
/// does not begin with the word and a space.
pub fn behind<'a>(word: &[u8], line: &'a [u8]) -> Option<&'a [u8]>
    ensures { option_copied result ≡ behind_word word.now line.entry.now }
{
    match split_at_byte(line, b' ') {
        Some((first, rest)) => { if first == word { Some(rest) } else { None } }
        None => None,
    }
}

/// Adds the object that a line lists to the builder, after all others ([`crate`] describes a line). An empty line and a
/// line that begins with `#` add nothing. The builder must have room for 4,096 objects (a premise, which the caller
/// must prove). A refusal leaves the builder unchanged. It is the fault of the first field, from the left, that cannot
/// be read. If all fields can be read, it is the reason for which the tree refuses the object. [`ObjectFault`] says
/// when each fault comes. The call takes no memory.
#[tactic(auto, unfolding(crate::specs::Stored::after_line))]
pub fn add_line(builder: &mut TreeBuilder, line: &[u8]) -> Result<(), ObjectFault>
    requires { builder.old.room ≡ 4096 }
    ensures { Became result builder.old builder.new (after_line builder.old.list line.now) }
{
    if is_skipped(line) {
        return Ok(());
    }
    if has_control(line) {
        return Err(ObjectFault::Form);
    }
    match behind(b"object", line) {
        Some(fields) => add_stored(builder, fields),
        None => add_listed(builder, line),
    }
}
