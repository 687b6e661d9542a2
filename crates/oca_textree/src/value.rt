//! What the object of a line is set to.
ghost use Rattle.std.specs.Prelude.{◌≡◌, ◌≤◌, ◌<◌, ◌≤ℤ◌, [], ◌∷◌, IfOk, IfSome, map, length, codes, true, false};
ghost use Rattle.std.specs.Option.{option_copied};
ghost use Rattle.std.specs.List.{position};
ghost use Rattle.std.specs.Str.{bytes_eq};
ghost use Rattle.oca_script.specs.Fields.{split_on};
ghost use Rattle.oca_types.specs.declared.class.Class as classes;
ghost use Rattle.oca_model.specs.declared.value.MuteState.TheVariants.{Muted, Unmuted};
ghost use Rattle.oca_model.specs.declared.value.PolarityState.TheVariants.{NonInverted, Inverted};
ghost use Rattle.oca_textree.specs.Lines.{one_of, signed_of, integer_of, limits_of, checked, names_by, position_named};
ghost use Rattle.oca_textree.specs.Lines.{positions_of, value_at};
ghost use Rattle.oca_textree.specs.PrivateLines.{IsLimit, limits_view, IsWithin, names_view, positions_view, kind_view};

use super::field::{field, text_of};
use arrayvec::ArrayVec;
use oca_model::with_integers;
use oca_script::ObjectFault;
use oca_script::field::{number, split_at_byte};
use oca_tree::{Kind, MuteState, PolarityState};
use oca_types::Class;

/// The names of a switch's positions: from 0 to 16.
pub type PositionNames<'a> = ArrayVec<&'a str, 16>;

/// The limits and the setting of an integer, and the rest of the line.
#[derive(Clone, Copy)]
pub struct Limits<'a> {
    least: i128,
    greatest: i128,
    setting: i128,
    rest: Option<&'a [u8]>,
}

/// What the word says, where it is one of two.
macro_rules! one_of {
    ($word:expr, $first:literal => $one:expr, $second:literal => $other:expr) => {
        if $word == $first.as_slice() {
            Some($one)
        } else if $word == $second.as_slice() {
            Some($other)
        } else {
            None
        }
    };
}

/// A mute's state by its word.
#[tactic(auto, unfolding(crate::specs::Lines::one_of))]
fn mute(word: &[u8]) -> Option<MuteState>
    ensures { result ≡ one_of (codes "muted") Muted (codes "unmuted") Unmuted word.now }
{
    one_of!(word, b"muted" => MuteState::Muted, b"unmuted" => MuteState::Unmuted)
}

/// A polarity's state by its word.
#[tactic(auto, unfolding(crate::specs::Lines::one_of))]
fn polarity(word: &[u8]) -> Option<PolarityState>
    ensures { result ≡ one_of (codes "non-inverted") NonInverted (codes "inverted") Inverted word.now }
{
    one_of!(word, b"non-inverted" => PolarityState::NonInverted, b"inverted" => PolarityState::Inverted)
}

/// Returns the Boolean that a word means: true for `on`, false for `off`, and `None` for any other word.
#[tactic(auto, unfolding(crate::specs::Lines::one_of))]
pub fn truth(word: &[u8]) -> Option<bool>
    ensures { result ≡ one_of (codes "on") true (codes "off") false word.now }
{
    one_of!(word, b"on" => true, b"off" => false)
}

/// Returns whether an object can be locked, by a word: true for `lockable`, false for `no-lock`, and `None` for any
/// other word.
#[tactic(auto, unfolding(crate::specs::Lines::one_of))]
pub fn lockable(word: &[u8]) -> Option<bool>
    ensures { result ≡ one_of (codes "lockable") true (codes "no-lock") false word.now }
{
    one_of!(word, b"lockable" => true, b"no-lock" => false)
}

/// An integer of at most 20 digits, behind a minus where it is negative.
fn signed(text: &[u8]) -> Option<i128>
    ensures { result ≡ signed_of text.now }
{
    match text {
        [] => None,
        [first, digits @ ..] => {
            if *first == b'-' {
                Some(-i128::from(number(digits, 20, u64::MAX)?))
            } else {
                Some(i128::from(number(text, 20, u64::MAX)?))
            }
        }
    }
}

/// An integer from the one to the other.
#[tactic(auto, unfolding(crate::specs::Lines::integer_of))]
fn integer(text: &[u8], low: i128, high: i128) -> Option<i128>
    ensures value { result ≡ integer_of low high text.now }
    ensures within { IfSome result (λ z. (low ≤ℤ z) × (z ≤ℤ high)) }
{
    let value = signed(text)?;
    if low <= value && value <= high {
        Some(value)
    } else {
        None
    }
}

/// The integer that the next field says, from the one to the other, and what is left of the line.
fn limit(rest: Option<&[u8]>, low: i128, high: i128) -> Result<(i128, Option<&[u8]>), ObjectFault>
    ensures value { IsLimit low high (option_copied rest.entry) result }
    ensures within { IfOk result (λ p. (low ≤ℤ p.0) × (p.0 ≤ℤ high)) }
{
    let (text, rest) = field(rest)?;
    match integer(text, low, high) {
        Some(value) => Ok((value, rest)),
        None => Err(ObjectFault::Number),
    }
}

/// The least, the greatest and the setting of an integer, each from the one to the other.
#[tactic(auto, unfolding(crate::specs::Lines::limits_of))]
fn read_limits<'a>(rest: Option<&'a [u8]>, low: i128, high: i128) -> Result<Limits<'a>, ObjectFault>
    ensures value { limits_view result ≡ limits_of low high (option_copied rest.entry) }
    ensures within { IfOk result (IsWithin low high) }
{
    let (least, rest) = limit(rest, low, high)?;
    let (greatest, rest) = limit(rest, low, high)?;
    let (setting, rest) = limit(rest, low, high)?;
    Ok(Limits {
        least,
        greatest,
        setting,
        rest,
    })
}

/// Adds a position's name.
fn add_name<'a>(name: &'a [u8], names: &mut PositionNames<'a>) -> Result<(), ObjectFault>
    ensures { names_view result (map (λ n. n.now) names.new.items)
        ≡ names_by checked (map (λ n. n.now) names.old.items) (name.entry.now ∷ []) }
{
    let Some(name) = text_of(name) else {
        return Err(ObjectFault::Text);
    };
    match names.try_push(name) {
        Ok(()) => Ok(()),
        Err(_) => Err(ObjectFault::Range),
    }
}

/// Adds the names of positions that stand between commas.
fn add_names<'a>(text: &'a [u8], names: &mut PositionNames<'a>) -> Result<(), ObjectFault>
    ensures { names_view result (map (λ n. n.now) names.new.items)
        ≡ names_by checked (map (λ n. n.now) names.old.items) (split_on 44 text.entry.now) }
{
    let mut rest = text;
    while let Some((name, after)) = split_at_byte(rest, b',') {
        add_name(name, names)?;
        rest = after;
    }
    add_name(rest, names)
}

/// Where a name stands first.
fn first_place(name: &[u8], names: &[&str]) -> Option<usize>
    ensures value { result ≡ position (λ n. bytes_eq n.now name.now) names.now }
    ensures within { IfSome result (λ at. at < length names.now) }
{
    names.iter().position(|n| n.as_bytes() == name)
}

/// The same as a position's number.
fn place(name: &[u8], names: &[&str]) -> Option<u16>
    requires { length names.now ≤ 16 }
    ensures { result ≡ position_named name.now (map (λ n. n.now) names.now) }
{
    match first_place(name, names) {
        Some(at) => Some(at as u16),
        None => None,
    }
}

/// Reads the two fields of a switch's positions from a line; returns the index of the current position, counted from 0,
/// and the rest of the line. The first field has the names of the positions, separated by commas, which are written
/// into `names`. The second field is the name of the current position. `rest` is `None` if no field is left. `names`
/// must be empty before (a premise, which the caller must prove). Refusals, the first from the left; discard `names`
/// then:
/// - `Form` if a field is missing, or a quote is not closed, or is not followed by a space or the line's end.
/// - `Text` if a name is not UTF-8 or has a character that is printed as an escape.
/// - `Range` at a seventeenth name.
/// - `Value` if the current position is none of the names.
#[tactic(auto, unfolding(crate::specs::Lines::positions_of))]
pub fn positions<'a>(
    rest: Option<&'a [u8]>,
    names: &mut PositionNames<'a>,
) -> Result<(u16, Option<&'a [u8]>), ObjectFault>
    requires { names.old.items ≡ [] }
    ensures { positions_view result names.new.items ≡ positions_of (option_copied rest.entry) }
{
    let (text, rest) = field(rest)?;
    add_names(text, names)?;
    let (name, rest) = field(rest)?;
    let position = place(name, names.as_slice()).ok_or(ObjectFault::Value)?;
    Ok((position, rest))
}

/// What an object is, and what is left of its line.
type KindAndRest<'a> = Result<(Kind<'a>, Option<&'a [u8]>), ObjectFault>;

/// A mute.
#[tactic(auto, unfolding(crate::specs::Lines::value_at, crate::specs::Lines::by_word, crate::specs::Lines::one_of, oca_tree::specs::Building::value_of))]
fn mute_at(rest: Option<&[u8]>) -> KindAndRest<'_>
    ensures { kind_view result ≡ value_at Class.Mute (option_copied rest.entry) }
{
    let (word, rest) = field(rest)?;
    let Some(state) = mute(word) else {
        return Err(ObjectFault::Value);
    };
    Ok((Kind::Mute(state), rest))
}

/// A polarity.
#[tactic(auto, unfolding(crate::specs::Lines::value_at, crate::specs::Lines::by_word, crate::specs::Lines::one_of, oca_tree::specs::Building::value_of))]
fn polarity_at(rest: Option<&[u8]>) -> KindAndRest<'_>
    ensures { kind_view result ≡ value_at Class.Polarity (option_copied rest.entry) }
{
    let (word, rest) = field(rest)?;
    let Some(state) = polarity(word) else {
        return Err(ObjectFault::Value);
    };
    Ok((Kind::Polarity(state), rest))
}

/// A Boolean.
#[tactic(auto, unfolding(crate::specs::Lines::value_at, crate::specs::Lines::by_word, crate::specs::Lines::one_of, oca_tree::specs::Building::value_of))]
fn boolean_at(rest: Option<&[u8]>) -> KindAndRest<'_>
    ensures { kind_view result ≡ value_at Class.Boolean (option_copied rest.entry) }
{
    let (word, rest) = field(rest)?;
    let Some(state) = truth(word) else {
        return Err(ObjectFault::Value);
    };
    Ok((Kind::Boolean(state), rest))
}

/// Reads the value of an object of this class from the next fields of a line; returns the value and the rest of the
/// line. `rest` is `None` if no field is left. A mute, a polarity or a Boolean has one word. An integer has three
/// fields: the least, the greatest and the setting. The call does not check that the setting is between the limits. A
/// block has no value: nothing is read. The class must not be that of a switch (a premise, which the caller must
/// prove). Refusals, the first from the left:
/// - `Form` if a field is missing, or a quote is not closed, or is not followed by a space or the line's end.
/// - `Value` if the word is not one of the class's words.
/// - `Number` if a field is not a decimal integer of at most 20 digits, with `-` before it if it is negative, or does
///   not fit the class's type.
#[tactic(auto, unfolding(crate::specs::Lines::value_at, oca_tree::specs::Building::value_of))]
pub fn kind_at(class: Class, rest: Option<&[u8]>) -> KindAndRest<'_>
    requires { class ≡ Class.Switch → ⊥ }
    ensures { kind_view result ≡ value_at class (option_copied rest.entry) }
{
    macro_rules! kind {
        ($($integer:ident $type:ty),*) => {
            match class {
                Class::Block | Class::Switch => Ok((Kind::Block, rest)),
                Class::Mute => mute_at(rest),
                Class::Polarity => polarity_at(rest),
                Class::Boolean => boolean_at(rest),
                $(Class::$integer => {
                    let read = read_limits(rest, <$type>::MIN as i128, <$type>::MAX as i128)?;
                    let kind = Kind::$integer {
                        setting: read.setting as $type,
                        least: read.least as $type,
                        greatest: read.greatest as $type,
                    };
                    Ok((kind, read.rest))
                })*
            }
        };
    }
    with_integers!(kind)
}
