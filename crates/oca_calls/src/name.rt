//! The names of a switch's positions, as C hands them over.
ghost use Rattle.std.specs.Prelude.{◌≡◌, ◌≤◌, [], length, map, replicate, take, IfNone, IfSome};
ghost use Rattle.std.specs.List.{AllByRecursion};
ghost use Rattle.oca_calls.specs.Calls.{IsName, name_bytes, name_sizes};
ghost use Rattle.oca_calls.specs.Outputs.{put_words};

use crate::words::{put_front, put_words};
use arrayvec::ArrayVec;
use oca_types::Text;
use std::str;

/// The most positions of a switch: 16 (*profile*).
pub const MOST_POSITIONS: usize = 16;

/// A text for C (`struct oca_name`): how many bytes it has, at most 64, and the bytes at the front of `text`.
#[repr(C)]
#[derive(Clone, Copy)]
pub struct Name {
    pub size: u8,
    pub text: [u8; 64],
}

const _: () = prove!(std::mem::size_of::<Name>() == 65);

impl Default for Name {
    ghost is_default = { λ name. name_bytes name ≡ [] };

    /// The empty name.
    fn default() -> Self {
        Name {
            size: 0,
            text: [0; 64],
        }
    }
}

impl Name {
    /// Returns this text as a struct for C. The text must have at most 64 bytes (a premise).
    pub fn of(text: &str) -> Name
        requires { length text.now ≤ 64 }
        ensures text { name_bytes result ≡ text.now }
        ensures size { result.size ≡ length text.now }
    {
        let mut place = [0; 64];
        let size = put_front(text.as_bytes(), &mut place);
        Name {
            size: size as u8,
            text: place,
        }
    }
}

/// Returns these texts as structs for C, at the front of an array of 16; the others are empty. There must be at most 16
/// (a premise).
pub fn names_with(texts: &[Text]) -> [Name; MOST_POSITIONS]
    requires { length texts.now ≤ 16 }
    ensures texts { map name_bytes (take (length texts.now) result) ≡ texts.now }
    ensures sizes { name_sizes (take (length texts.now) result) ≡ map length texts.now }
    ensures others { map name_bytes result ≡ put_words texts.now (replicate 16 []) }
{
    let mut names: ArrayVec<Name, MOST_POSITIONS> = ArrayVec::new();
    for text in texts {
        names.push(Name::of(text.as_str()));
    }
    let mut place = [Name::default(); MOST_POSITIONS];
    put_words(names.as_slice(), &mut place);
    place
}

/// Returns the text of a struct of C. `None` if its size is above 64, or its bytes are not UTF-8.
pub fn text_of(name: &Name) -> Option<&str>
    ensures text { IfSome result (λ text. IsName name.now × (text.now ≡ name_bytes name.now)) }
    ensures none { IfNone result (IsName name.now → ⊥) }
{
    let bytes = name.text.get(..usize::from(name.size))?;
    str::from_utf8(bytes).ok()
}

/// Returns the texts of these structs of C, in their order. There must be at most 16 (a premise). `None` if the size of
/// one is above 64, or its bytes are not UTF-8.
pub fn texts_of(names: &[Name]) -> Option<ArrayVec<&str, MOST_POSITIONS>>
    requires { length names.now ≤ 16 }
    ensures texts { IfSome result (λ texts. AllByRecursion IsName names.now
        × (map (λ text. text.now) texts.items ≡ map name_bytes names.now)) }
    ensures none { IfNone result (AllByRecursion IsName names.now → ⊥) }
{
    let mut texts = ArrayVec::new();
    for name in names {
        texts.push(text_of(name)?);
    }
    Some(texts)
}
