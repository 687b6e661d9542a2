//! The line of an object with all that was stored of it.
ghost use Rattle.std.specs.Prelude.{◌≡◌, ◌≤◌, [], ◌∷◌, length, map, Some, None};
ghost use Rattle.std.specs.Option.{option_copied};
ghost use Rattle.oca_script.specs.Fields.{split_on};
ghost use Rattle.oca_types.specs.declared.class.Class.TheVariants.{Switch};
ghost use Rattle.oca_textree.specs.Stored.{field_text as field_text_of, flags_after, names_in_field, switch_at};
ghost use Rattle.oca_textree.specs.Stored.{start_at, ending_at, kept_by, switch_flagged, stored_with, stored_as, stored_by};
ghost use Rattle.oca_textree.specs.Lines.{names_by};
ghost use Rattle.oca_textree.specs.PrivateLines.{Became, names_view};
ghost use Rattle.oca_textree.specs.PrivateStored.{flags_view, names_rest_view, switch_view, ending_in};
ghost use Rattle.oca_textree.specs.PrivateStored.{ending_view, kind_flagged};
ghost use Rattle.oca_tree.specs.Building.{value_of, has_bad_name};

use super::fault::fault_of_stored;
use super::field::{field, placed};
use super::quoted::{field_text, is_quoted, text_at};
use super::value::{kind_at, lockable, truth};
use arrayvec::ArrayVec;
use oca_script::ObjectFault;
use oca_script::field::{number, split_at_byte};
use oca_tree::{Kind, Spec, Start, TreeBuilder};
use oca_types::{Class, Ono, Text};

/// Which positions of a switch are enabled.
type PositionEnableds = ArrayVec<bool, 16>;

/// The names of a switch's positions.
type StoredNames = ArrayVec<Text, 16>;

/// The last fields of a line: whether the object can be locked, its role, whether it is enabled, and its label.
#[derive(Drop)]
pub struct Ending {
    lockable: bool,
    role: Text,
    enabled: bool,
    label: Text,
}

/// Adds whether a position is enabled, by its digit, where there are less than 16.
fn add_flag(digit: u8, flags: &mut PositionEnableds) -> Option<()>
    ensures { flags_view result flags.new.items ≡ flags_after flags.old.items (digit ∷ []) }
{
    if flags.is_full() {
        return None;
    }
    match digit {
        b'1' => flags.push(true),
        b'0' => flags.push(false),
        _ => return None,
    }
    Some(())
}

/// Adds whether each position is enabled: a digit a position.
fn add_flags(digits: &[u8], flags: &mut PositionEnableds) -> Option<()>
    ensures { flags_view result flags.new.items ≡ flags_after flags.old.items digits.now }
{
    let mut rest = digits;
    while let Some((digit, more)) = rest.split_first() {
        add_flag(*digit, flags)?;
        rest = more;
    }
    Some(())
}

/// Adds a position's name.
fn add_name(name: &[u8], quoted: bool, names: &mut StoredNames) -> Result<(), ObjectFault>
    ensures { names_view result names.new.items ≡ names_by (field_text_of quoted) names.old.items (name.now ∷ []) }
{
    let Some(name) = field_text(quoted, name) else {
        return Err(ObjectFault::Text);
    };
    match names.try_push(name) {
        Ok(()) => Ok(()),
        Err(_) => Err(ObjectFault::Range),
    }
}

/// Adds the names of positions that stand between commas.
fn add_names(text: &[u8], quoted: bool, names: &mut StoredNames) -> Result<(), ObjectFault>
    ensures { names_view result names.new.items
        ≡ names_by (field_text_of quoted) names.old.items (split_on 44 text.now) }
{
    let mut rest = text;
    while let Some((name, after)) = split_at_byte(rest, b',') {
        add_name(name, quoted, names)?;
        rest = after;
    }
    add_name(rest, quoted, names)
}

/// Adds the names of positions of the next field. Returns what is left.
#[tactic(auto, unfolding(crate::specs::Stored::names_in_field))]
fn names_field<'a>(
    rest: Option<&'a [u8]>,
    names: &mut StoredNames,
) -> Result<Option<&'a [u8]>, ObjectFault>
    requires { names.old.items ≡ [] }
    ensures { names_rest_view result names.new.items ≡ names_in_field (option_copied rest.entry) }
{
    let quoted = is_quoted(rest);
    let (text, rest) = field(rest)?;
    add_names(text, quoted, names)?;
    Ok(rest)
}

/// The positions of a switch, put into `flags` and `names`, and the current one.
#[tactic(auto, unfolding(crate::specs::Stored::switch_at))]
fn positions<'a>(
    rest: Option<&'a [u8]>,
    flags: &mut PositionEnableds,
    names: &mut StoredNames,
) -> Result<(u16, Option<&'a [u8]>), ObjectFault>
    requires flags { flags.old.items ≡ [] }
    requires names { names.old.items ≡ [] }
    ensures { switch_view result flags.new.items names.new.items ≡ switch_at (option_copied rest.entry) }
{
    let (digits, rest) = field(rest)?;
    if add_flags(digits, flags).is_none() {
        return Err(ObjectFault::Value);
    }
    let rest = names_field(rest, names)?;
    let (text, rest) = field(rest)?;
    match number(text, 5, 65535) {
        Some(position) => Ok((position as u16, rest)),
        None => Err(ObjectFault::Number),
    }
}

/// Reads the last two fields of a line: whether the object is enabled (`on` or `off`), and its label. `rest` is the
/// rest of the line; `None` means that no field is left. Refusals, the first from the left:
/// - `Form` if no field is left, or a quote is not closed, or is not followed by a space or the line's end.
/// - `Value` if the word is neither `on` nor `off`.
/// - `Text` if the label is not a text of at most 64 bytes ([`text_at`](crate::quoted::text_at)).
/// - `Form` if anything is left after the label.
#[tactic(auto, unfolding(crate::specs::Stored::start_at))]
pub fn start_of(rest: Option<&[u8]>) -> Result<(bool, Text), ObjectFault>
    ensures { result ≡ start_at (option_copied rest.entry) }
{
    let (word, rest) = field(rest)?;
    let Some(enabled) = truth(word) else {
        return Err(ObjectFault::Value);
    };
    let (label, rest) = text_at(rest)?;
    if rest.is_some() {
        return Err(ObjectFault::Form);
    }
    Ok((enabled, label))
}

/// The end of a line: whether the object can be locked, its role, whether it is enabled, and its label.
#[tactic(auto, unfolding(crate::specs::Stored::ending_at))]
fn read_end(rest: Option<&[u8]>) -> Result<Ending, ObjectFault>
    ensures { ending_view result ≡ ending_at (option_copied rest.entry) }
{
    let (word, rest) = field(rest)?;
    let Some(lockable) = lockable(word) else {
        return Err(ObjectFault::Lockable);
    };
    let (role, rest) = text_at(rest)?;
    let (enabled, label) = start_of(rest)?;
    Ok(Ending {
        lockable,
        role,
        enabled,
        label,
    })
}

/// Adds the object of which the end of the line was read last.
#[tactic(auto, unfolding(crate::specs::Lines::refusal, oca_tree::specs::Building::add_fault, oca_tree::specs::Starts::start_fault))]
fn add_ended(
    builder: &mut TreeBuilder,
    container: u32,
    ono: u32,
    kind: Kind<'_>,
    flags: Option<&[bool]>,
    ending: &Ending,
) -> Result<(), ObjectFault>
    requires { builder.old.room ≡ 4096 }
    ensures { Became result builder.old builder.new
        (kept_by builder.old.list container ono (ending_in ending.now) (has_bad_name kind.entry) (value_of kind.entry)
        (option_copied flags.entry)) }
{
    let spec = Spec {
        role: ending.role.as_str(),
        lockable: ending.lockable,
        kind,
    };
    let start = Start {
        label: ending.label.as_str(),
        enabled: ending.enabled,
        position_enableds: flags,
    };
    match builder.add_with(Ono(container), Ono(ono), &spec, &start) {
        Ok(()) => Ok(()),
        Err(fault) => Err(fault_of_stored(fault)),
    }
}

/// Adds the object of which all but the end of the line was read.
#[tactic(auto, unfolding(crate::specs::Stored::stored_with))]
fn add(
    builder: &mut TreeBuilder,
    container: u32,
    ono: u32,
    kind: Kind<'_>,
    flags: Option<&[bool]>,
    rest: Option<&[u8]>,
) -> Result<(), ObjectFault>
    requires { builder.old.room ≡ 4096 }
    ensures { Became result builder.old builder.new
        (stored_with builder.old.list container ono (kind_flagged kind.entry flags.entry rest.entry)) }
{
    let ending = read_end(rest)?;
    add_ended(builder, container, ono, kind, flags, &ending)
}

/// These names.
fn names_of(texts: &[Text]) -> ArrayVec<&str, 16>
    requires { length texts.now ≤ 16 }
    ensures { map (λ n. n.now) result.items ≡ texts.now }
{
    let mut names = ArrayVec::new();
    for text in texts {
        names.push(text.as_str());
    }
    names
}

/// Adds a switch of which all but the end of the line was read.
fn add_positions(
    builder: &mut TreeBuilder,
    container: u32,
    ono: u32,
    flags: &PositionEnableds,
    names: &StoredNames,
    position: u16,
    rest: Option<&[u8]>,
) -> Result<(), ObjectFault>
    requires { builder.old.room ≡ 4096 }
    ensures { Became result builder.old builder.new
        (stored_with builder.old.list container ono
        (switch_flagged (record {
          flags = flags.now.items;
          names = names.now.items;
          position = position;
          rest = option_copied rest.entry;
        }))) }
{
    let names = names_of(names.as_slice());
    let kind = Kind::Switch {
        names: names.as_slice(),
        position,
    };
    add(builder, container, ono, kind, Some(flags.as_slice()), rest)
}

/// Adds a switch of which the class was read last.
#[tactic(auto, unfolding(crate::specs::Stored::flagged_at))]
fn add_switch(
    builder: &mut TreeBuilder,
    container: u32,
    ono: u32,
    rest: Option<&[u8]>,
) -> Result<(), ObjectFault>
    requires { builder.old.room ≡ 4096 }
    ensures { Became result builder.old builder.new
        (stored_as builder.old.list container ono Switch (option_copied rest.entry)) }
{
    let mut flags = PositionEnableds::new();
    let mut names = StoredNames::new();
    let (position, rest) = positions(rest, &mut flags, &mut names)?;
    add_positions(builder, container, ono, &flags, &names, position, rest)
}

/// Adds an object of which the class was read last.
#[tactic(auto, unfolding(crate::specs::Stored::flagged_at))]
fn add_of_class(
    builder: &mut TreeBuilder,
    container: u32,
    ono: u32,
    class: Class,
    rest: Option<&[u8]>,
) -> Result<(), ObjectFault>
    requires { builder.old.room ≡ 4096 }
    ensures { Became result builder.old builder.new
        (stored_as builder.old.list container ono class (option_copied rest.entry)) }
{
    if class == Class::Switch {
        return add_switch(builder, container, ono, rest);
    }
    let (kind, rest) = kind_at(class, rest)?;
    add(builder, container, ono, kind, None, rest)
}

/// Adds the object that the fields of a line list to the builder, with its stored label and flags, after all others
/// ([`crate`] describes the fields). The builder must have room for 4,096 objects (a premise, which the caller must
/// prove). A refusal leaves the builder unchanged. It is the fault of the first field, from the left, that cannot be
/// read. If all fields can be read, it is the reason for which the tree refuses the object. [`ObjectFault`] says when
/// each fault comes. The call takes no memory.
#[tactic(auto, unfolding(crate::specs::Stored::stored_by))]
pub fn add_stored(builder: &mut TreeBuilder, line: &[u8]) -> Result<(), ObjectFault>
    requires { builder.old.room ≡ 4096 }
    ensures { Became result builder.old builder.new (stored_by builder.old.list line.now) }
{
    let (number, container, class, rest) = placed(Some(line))?;
    add_of_class(builder, container, number, class, rest)
}
