//! Texts of a command that are read where they stand: nothing is copied before it is stored.
ghost use Rattle.std.specs.Prelude.{◌≡◌, length};
ghost use Rattle.std.specs.Option.{option_map};
ghost use Rattle.std.specs.Int.{w16};
ghost use Rattle.oca_types.specs.Reading.{text_at, unsigned_at};
ghost use Rattle.oca_model.specs.Lists.{list_of_most};
ghost use Rattle.oca_model.specs.Parameters.{whole, pair_at};

use crate::list::read_list;
use crate::request::Names;
use oca_types::{Cursor, Text};
use std::marker::Model;

/// A text of at most 64 bytes that is not copied: it refers to its encoding in the bytes of a command (OcaString,
/// AES70-3). Contracts see the text.
#[derive(Drop)]
pub struct HeldText<'a> {
    bytes: &'a [u8],
}

impl<'a> Model for HeldText<'a> {
    ghost use Rattle.std.specs.Prelude.{List, ℕ, ◌≡◌, Some};

    ghost Value = { List ℕ };

    ghost use Rattle.oca_types.specs.Reading.{text_at};
    ghost use Rattle.oca_model.specs.Parameters.{whole, or_empty};

    ghost view = { λ h. or_empty (whole (text_at h.bytes.now)) };

    ghost invariant = { λ h. whole (text_at h.bytes.now) ≡ Some (or_empty (whole (text_at h.bytes.now))) };
}

impl<'a> HeldText<'a> {
    /// The text that is all of the bytes; nothing where they are none.
    pub(crate) fn read(bytes: &'a [u8]) -> Option<HeldText<'a>>
        ensures { result ≡ whole (text_at bytes.now) }
    {
        let mut cursor = Cursor::new(bytes);
        let _text = cursor.take_text().ok()?;
        cursor.finish().ok()?;
        Some(HeldText { bytes })
    }

    /// Returns a copy of the text, which has from 0 to 64 bytes of UTF-8 (the limit is the profile's).
    pub fn text(&self) -> Text
        ensures { result ≡ self.now }
    {
        let mut cursor = Cursor::new(self.bytes);
        match cursor.take_text() {
            Ok(text) => text,
            Err(_) => unreachable!(),
        }
    }
}

/// A list of at most 16 texts that are not copied: it refers to their encoding in the bytes of a command (OcaList of
/// OcaString, AES70-3). Contracts see the list of the texts.
#[derive(Drop)]
pub struct HeldTexts<'a> {
    number: usize,
    bytes: &'a [u8],
}

impl<'a> Model for HeldTexts<'a> {
    ghost use Rattle.std.specs.Prelude.{List, ℕ, ◌≡◌, ◌≤◌, Some, length};

    ghost Value = { List (List ℕ) };

    ghost use Rattle.oca_types.specs.Reading.{text_at};
    ghost use Rattle.oca_model.specs.Lists.{list_of_most};
    ghost use Rattle.oca_model.specs.Parameters.{whole, or_empty};

    ghost view = { λ h. or_empty (whole (list_of_most 16 text_at h.bytes.now)) };

    ghost invariant = { λ h. (h.number ≡ length (or_empty (whole (list_of_most 16 text_at h.bytes.now))))
        × (whole (list_of_most 16 text_at h.bytes.now)
        ≡ Some (or_empty (whole (list_of_most 16 text_at h.bytes.now)))) };
}

impl<'a> HeldTexts<'a> {
    /// The list that is all of the bytes; nothing where they are none.
    pub(crate) fn read(bytes: &'a [u8]) -> Option<HeldTexts<'a>>
        ensures { result ≡ whole (list_of_most 16 text_at bytes.now) }
    {
        let texts: Names = read_list(bytes)?;
        Some(HeldTexts {
            number: texts.len(),
            bytes,
        })
    }

    /// Returns the number of texts in the list: from 0 to 16 (the limit is the profile's).
    pub fn len(&self) -> usize
        ensures { result ≡ length self.now }
    {
        self.number
    }

    /// Returns copies of the texts, in the order of the list: from 0 to 16 texts, each of at most 64 bytes (the limits
    /// are the profile's).
    pub fn texts(&self) -> Names
        ensures { result.items ≡ self.now }
    {
        match read_list(self.bytes) {
            Some(texts) => texts,
            None => unreachable!(),
        }
    }
}

/// A number of two bytes, and the bytes behind it.
fn split_u16(bytes: &[u8]) -> Option<(u16, &[u8])>
    ensures { option_map (λ x. (x.0, x.1.now)) result ≡ unsigned_at w16 bytes.now }
{
    let mut cursor = Cursor::new(bytes);
    let value = cursor.take_u16().ok()?;
    Some((value, &bytes[2..]))
}

/// The position and the text that are all of the bytes.
pub(crate) fn position_and_text(params: &[u8]) -> Option<(u16, HeldText<'_>)>
    ensures { result ≡ whole (pair_at (unsigned_at w16) text_at params.now) }
{
    let (position, after) = split_u16(params)?;
    let text = HeldText::read(after)?;
    Some((position, text))
}
