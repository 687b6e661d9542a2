//! Texts of any characters: in quotes as they are, or in hexadecimal digits.
ghost use Rattle.std.specs.Prelude.{◌≡◌};
ghost use Rattle.std.specs.Option.{option_copied};
ghost use Rattle.oca_textree.specs.Stored.{short, short_utf8, digits_text, field_text as field_text_of};
ghost use Rattle.oca_textree.specs.Stored.{is_quoted as stands_quoted, text_in_field as next_text};
ghost use Rattle.oca_textree.specs.PrivateStored.{text_view};

use super::field::{field, text_of};
use oca_script::ObjectFault;
use oca_script::field::hex_bytes;
use oca_types::Text;
use std::str::from_utf8;

/// The most digits of a text of 64 bytes.
const MOST_DIGITS: usize = 128;

/// Returns whether the next field of a line begins with a quote. `rest` is the rest of the line. The result is `false`
/// if `rest` is empty, or is `None`, which means that no field is left.
pub fn is_quoted(rest: Option<&[u8]>) -> bool
    ensures { result ≡ stands_quoted (option_copied rest.entry) }
{
    let Some(text) = rest else {
        return false;
    };
    match text {
        [] => false,
        [first, ..] => *first == b'"',
    }
}

/// A text of at most 64 bytes.
fn short_text(text: &str) -> Option<Text>
    ensures { result ≡ short text.now }
{
    if text.len() > 64 {
        return None;
    }
    Text::new(text)
}

/// A text of at most 64 bytes, where the bytes are UTF-8.
fn short_text_of(bytes: &[u8]) -> Option<Text>
    ensures { result ≡ short_utf8 bytes.now }
{
    match from_utf8(bytes) {
        Ok(text) => short_text(text),
        Err(_) => None,
    }
}

/// The text that hexadecimal digits say, `-` for none.
fn text_of_digits(digits: &[u8]) -> Option<Text>
    ensures { result ≡ digits_text digits.now }
{
    if digits.len() > MOST_DIGITS {
        return None;
    }
    let mut room = [0u8; 64];
    let bytes = hex_bytes(digits, &mut room)?;
    short_text_of(bytes)
}

/// Returns the text that a field of a line gives. If the field was in quotes (`quoted`), `bytes` are the text itself,
/// without the quotes. Otherwise they are the text's bytes in hexadecimal digits, or `-` for the empty text. The result
/// is `None` if `bytes` should be such digits and are not, or the text is not UTF-8 of at most 64 bytes. It is `None`
/// also if a text in quotes has a character that is printed as an escape (a backslash is allowed).
pub fn field_text(quoted: bool, bytes: &[u8]) -> Option<Text>
    ensures { result ≡ field_text_of quoted bytes.now }
{
    if !quoted {
        return text_of_digits(bytes);
    }
    match text_of(bytes) {
        Some(text) => short_text(text),
        None => None,
    }
}

/// Reads the next field of a line as a text; returns the text and the rest of the line. `rest` is `None` if no field is
/// left. The field is the text in quotes, or its bytes in hexadecimal digits, or `-` for the empty text
/// ([`field_text`]). Refusals, the first that applies:
/// - `Form` if no field is left, or a quote is not closed, or is not followed by a space or the line's end.
/// - `Text` if the field has none of these forms, or the text is longer than 64 bytes or is not UTF-8, or a text in
///   quotes has a character that is printed as an escape (a backslash is allowed).
#[tactic(auto, unfolding(crate::specs::Stored::text_in_field))]
pub fn text_at(rest: Option<&[u8]>) -> Result<(Text, Option<&[u8]>), ObjectFault>
    ensures { text_view result ≡ next_text (option_copied rest.entry) }
{
    let quoted = is_quoted(rest);
    let (bytes, rest) = field(rest)?;
    match field_text(quoted, bytes) {
        Some(text) => Ok((text, rest)),
        None => Err(ObjectFault::Text),
    }
}
