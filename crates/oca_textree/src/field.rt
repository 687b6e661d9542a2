//! The fields of a line, one after another.
ghost use Rattle.std.specs.Prelude.{◌≡◌, true, false, MatchOption};
ghost use Rattle.std.specs.Option.{option_copied};
ghost use Rattle.oca_script.specs.Fields.{split_at};
ghost use Rattle.oca_textree.specs.Lines.{field_at, plain as plain_field, quoted as quoted_field, ono_of};
ghost use Rattle.oca_textree.specs.Lines.{has_control as has_control_byte, is_text, ono_at, placed_at};
ghost use Rattle.oca_textree.specs.PrivateLines.{field_view, ono_view, placed_view};

use super::class_word::class;
use oca_script::ObjectFault;
use oca_script::escape::has_hidden;
use oca_script::field::{number, split_at_byte};
use oca_types::Class;
use std::str::from_utf8;

/// Reads the next field of a line, and returns the field and the rest of the line after it. `rest` is the rest of the
/// line before the call. `None` means that no field is left. The field is the first of these that applies:
/// - A field that begins with a quote (`"`) ends at the next quote, and is returned without its quotes.
/// - Any other field ends at the next space or at the line's end. An empty `rest` is one empty field.
///
/// The returned rest begins after the space. It is `None` if the field ends the line. The only refusal is `Form`, in
/// these cases:
/// - `rest` is `None`.
/// - A quote is not closed.
/// - A closing quote is not followed by a space or the line's end.
#[tactic(auto, unfolding(crate::specs::Lines::field_at))]
pub fn field<'a>(rest: Option<&'a [u8]>) -> Result<(&'a [u8], Option<&'a [u8]>), ObjectFault>
    ensures { field_view result ≡ field_at (option_copied rest.entry) }
{
    let Some(text) = rest else {
        return Err(ObjectFault::Form);
    };
    match text {
        [] => Ok((text, None)),
        [first, inside @ ..] => {
            if *first == b'"' {
                quoted(inside)
            } else {
                Ok(plain(text))
            }
        }
    }
}

/// A field up to the next space.
fn plain(text: &[u8]) -> (&[u8], Option<&[u8]>)
    ensures { (result.0.now, option_copied result.1) ≡ plain_field (split_at 32 text.now) text.now }
{
    match split_at_byte(text, b' ') {
        Some((field, rest)) => (field, Some(rest)),
        None => (text, None),
    }
}

/// A field up to the next quote, behind which a space stands or the line ends.
fn quoted(inside: &[u8]) -> Result<(&[u8], Option<&[u8]>), ObjectFault>
    ensures { field_view result ≡ quoted_field (split_at 34 inside.now) }
{
    let Some((field, after)) = split_at_byte(inside, b'"') else {
        return Err(ObjectFault::Form);
    };
    match after {
        [] => Ok((field, None)),
        [next, rest @ ..] => {
            if *next == b' ' {
                Ok((field, Some(rest)))
            } else {
                Err(ObjectFault::Form)
            }
        }
    }
}

/// Returns the bytes as a text. The result is `None` if they are not UTF-8, or have a character that the programs print
/// as an escape, such as a control character. A backslash is allowed. The text can be of any length.
pub fn text_of(bytes: &[u8]) -> Option<&str>
    ensures { MatchOption result (is_text bytes.now ≡ false) (λ t. (t.now ≡ bytes.now) × (is_text bytes.now ≡ true)) }
{
    match from_utf8(bytes) {
        Ok(text) => { if has_hidden(text) { None } else { Some(text) } }
        Err(_) => None,
    }
}

/// An object's number: 1 to 10 digits, in 32 bits.
fn ono(text: &[u8]) -> Option<u32>
    ensures { result ≡ ono_of text.now }
{
    match number(text, 10, 4294967295) {
        Some(ono) => Some(ono as u32),
        None => None,
    }
}

/// The number of an object that the next field says, and what is left of the line.
#[tactic(auto, unfolding(crate::specs::Lines::ono_at))]
fn next_ono(rest: Option<&[u8]>) -> Result<(u32, Option<&[u8]>), ObjectFault>
    ensures { ono_view result ≡ ono_at (option_copied rest.entry) }
{
    let (text, rest) = field(rest)?;
    match ono(text) {
        Some(ono) => Ok((ono, rest)),
        None => Err(ObjectFault::Number),
    }
}

/// Reads the next three fields of a line: the number of an object, the number of its container and its class. Returns
/// them and the rest of the line. `rest` is the rest of the line before; `None` means that no field is left. Refusals,
/// the first from the left:
/// - `Form` if no field is left, or a quote is not closed, or is not followed by a space or the line's end.
/// - `Number` if a number does not have 1 to 10 digits, or is above 4,294,967,295.
/// - `Class` if the word is not the name of a class.
#[tactic(auto, unfolding(crate::specs::Lines::placed_at))]
pub fn placed(rest: Option<&[u8]>) -> Result<(u32, u32, Class, Option<&[u8]>), ObjectFault>
    ensures { placed_view result ≡ placed_at (option_copied rest.entry) }
{
    let (ono, rest) = next_ono(rest)?;
    let (container, rest) = next_ono(rest)?;
    let (word, rest) = field(rest)?;
    match class(word) {
        Some(class) => Ok((ono, container, class, rest)),
        None => Err(ObjectFault::Class),
    }
}

/// Returns whether the line has a control character: a byte below 32. `false` for an empty line.
pub fn has_control(line: &[u8]) -> bool
    ensures { result ≡ has_control_byte line.now }
{
    line.iter().any(|byte| *byte < 32)
}
