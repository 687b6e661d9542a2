//! The words for values: `muted` and `unmuted`, `non-inverted` and `inverted`, `on` and `off`, and integers.
ghost use Rattle.std.specs.Prelude.{◌≡◌, ◌≤◌, length};
ghost use Rattle.std.specs.Fmt.{signed_decimal};
ghost use Rattle.oca_model.specs.Words.{class_word, word_of, IsRead};

use crate::value::{MuteState, PolarityState, Value, with_integers};
use itoa::Buffer;
use oca_types::{Class, Text};

/// A number in decimal digits, with a minus where it is negative.
fn number_word(number: i128) -> Text
    ensures { result ≡ signed_decimal number }
{
    let mut buffer = Buffer::new();
    text_of(buffer.format(number))
}

/// A short text.
fn text_of(text: &str) -> Text
    requires { length text.now ≤ 64 }
    ensures { result ≡ text.now }
{
    match Text::new(text) {
        Some(text) => text,
        None => unreachable!(),
    }
}

/// Returns the word for a value: from 1 to 20 bytes. The words are `muted` or `unmuted`, `non-inverted` or `inverted`,
/// and `on` or `off` for a Boolean. A position and an integer are decimal digits, with `-` in front of a negative
/// number.
#[tactic(auto, unfolding(crate::specs::Words::word_of))]
pub fn word_of(value: Value) -> Text
    ensures { result ≡ word_of value }
{
    macro_rules! word {
        ($($integer:ident $type:ty),*) => {
            match value {
                Value::Mute(MuteState::Muted) => text_of("muted"),
                Value::Mute(MuteState::Unmuted) => text_of("unmuted"),
                Value::Polarity(PolarityState::NonInverted) => text_of("non-inverted"),
                Value::Polarity(PolarityState::Inverted) => text_of("inverted"),
                Value::Boolean(true) => text_of("on"),
                Value::Boolean(false) => text_of("off"),
                Value::Switch(position) => number_word(i128::from(position)),
                $(Value::$integer(setting) => number_word(i128::from(setting)),)*
            }
        };
    }
    with_integers!(word)
}

/// Returns the value that a word names for an object of this class. The word is one of the class's words ([`word_of`]),
/// in exactly these letters. For an integer or a switch, the word is a number in decimal digits. A `+` can come first,
/// and a `-` for a signed integer. The result is `None` for any other word, for a number that does not fit the type of
/// the class (0 to 65,535 for a switch), and for OcaBlock. The limits of a single object are not checked.
#[tactic(auto, unfolding(crate::specs::Words::IsRead, crate::specs::Words::word_of))]
pub fn value_from_word(class: Class, word: &str) -> Option<Value>
    ensures { IsRead class word.now result }
{
    macro_rules! value {
        ($($integer:ident $type:ty),*) => {
            match class {
                Class::Block => None,
                Class::Mute => match word {
                    "muted" => Some(Value::Mute(MuteState::Muted)),
                    "unmuted" => Some(Value::Mute(MuteState::Unmuted)),
                    _ => None,
                },
                Class::Polarity => match word {
                    "non-inverted" => Some(Value::Polarity(PolarityState::NonInverted)),
                    "inverted" => Some(Value::Polarity(PolarityState::Inverted)),
                    _ => None,
                },
                Class::Boolean => match word {
                    "on" => Some(Value::Boolean(true)),
                    "off" => Some(Value::Boolean(false)),
                    _ => None,
                },
                Class::Switch => Some(Value::Switch(word.parse::<u16>().ok()?)),
                $(Class::$integer => Some(Value::$integer(word.parse::<$type>().ok()?)),)*
            }
        };
    }
    with_integers!(value)
}

/// Returns the word for a class, from 4 to 8 bytes: `block`, `mute`, `polarity`, `switch`, `boolean`, `int8`, `int16`,
/// `int32`, `int64`, `uint8`, `uint16`, `uint32` or `uint64`.
pub fn class_word(class: Class) -> &'static str
    ensures { result.now ≡ class_word class }
{
    match class {
        Class::Block => "block",
        Class::Mute => "mute",
        Class::Polarity => "polarity",
        Class::Switch => "switch",
        Class::Boolean => "boolean",
        Class::Int8 => "int8",
        Class::Int16 => "int16",
        Class::Int32 => "int32",
        Class::Int64 => "int64",
        Class::Uint8 => "uint8",
        Class::Uint16 => "uint16",
        Class::Uint32 => "uint32",
        Class::Uint64 => "uint64",
    }
}
