//! Texts: well-formed, cut short, too long and no UTF-8.
use crate::tests::{Row, Said};
use oca_types::ReadFault::{NotUtf8, Short, TooLong};
use oca_types::{Cursor, ReadFault, Text};

/// Bytes, and the text that is taken of them with the number of the bytes behind it, or the refusal.
pub struct Taken(&'static [u8], Result<(&'static str, u8), ReadFault>);

/// Whether so many bytes are left.
fn leaves(cursor: &mut Cursor<'_>, left: u8, said: &mut Said) -> bool {
    for _ in 0..left {
        if cursor.take_u8().is_err() {
            return false;
        }
    }
    said.same(cursor.finish(), Ok(()))
}

/// Whether the text is taken, and so many bytes are left.
fn is_text(bytes: &[u8], text: &str, left: u8, said: &mut Said) -> bool {
    let mut cursor = Cursor::new(bytes);
    match cursor.take_text() {
        Ok(found) => said.same(found.as_str(), text) && leaves(&mut cursor, left, said),
        Err(_) => false,
    }
}

/// Whether the first byte is still to come.
fn is_unchanged(cursor: &mut Cursor<'_>, bytes: &[u8], said: &mut Said) -> bool {
    match bytes.first() {
        Some(first) => said.same(cursor.take_u8(), Ok(*first)),
        None => said.same(cursor.take_u8(), Err(Short)),
    }
}

/// Whether `take_text` refuses so, and the cursor is unchanged.
fn is_no_text(bytes: &[u8], want: ReadFault, said: &mut Said) -> bool {
    let mut cursor = Cursor::new(bytes);
    match cursor.take_text() {
        Ok(_) => false,
        Err(fault) => said.same(fault, want) && is_unchanged(&mut cursor, bytes, said),
    }
}

impl Row for Taken {
    /// Whether the bytes are answered so.
    fn agrees(&self, said: &mut Said) -> bool {
        match self.1 {
            Ok((text, left)) => is_text(self.0, text, left, said),
            Err(fault) => is_no_text(self.0, fault, said),
        }
    }
}

/// A text of 64 bytes.
const A64: &str = "aaaaaaaaaaaaaaaaaaaaaaaaaaaaaaaaaaaaaaaaaaaaaaaaaaaaaaaaaaaaaaaa";

/// A text of 65 bytes.
const A65: &str = "aaaaaaaaaaaaaaaaaaaaaaaaaaaaaaaaaaaaaaaaaaaaaaaaaaaaaaaaaaaaaaaaa";

pub const WORKED_EXAMPLES: &[Taken] = rows! {
    Taken(&[0, 1, 0xC3], Err(Short)),
    Taken(&[0, 1, 0xFF], Err(NotUtf8)),
    Taken(&[0, 5, 0x42, 0xC3, 0xBC, 0x68, 0x6E, 0x65], Ok(("Bühne", 0))),
    Taken(&[0, 6, 0x42, 0xC3, 0xBC, 0x68, 0x6E, 0x65], Err(Short)),
    Taken(b"\x00\x40aaaaaaaaaaaaaaaaaaaaaaaaaaaaaaaaaaaaaaaaaaaaaaaaaaaaaaaaaaaaaaaa", Ok((A64, 0))),
    Taken(b"\x00\x41aaaaaaaaaaaaaaaaaaaaaaaaaaaaaaaaaaaaaaaaaaaaaaaaaaaaaaaaaaaaaaaa", Err(Short)),
    Taken(b"\x00\x41aaaaaaaaaaaaaaaaaaaaaaaaaaaaaaaaaaaaaaaaaaaaaaaaaaaaaaaaaaaaaaaaa", Err(TooLong)),
    Taken(b"\x00\x40aaaaaaaaaaaaaaaaaaaaaaaaaaaaaaaaaaaaaaaaaaaaaaaaaaaaaaaaaaaaaaaaa", Ok((A64, 1))),
    Taken(b"\x00\x41aaaaaaaaaa\xFF", Err(NotUtf8)),
};

pub const COUNTS: &[Taken] = &[
    // no text, and a count of which a part is missing
    Taken(&[], Err(Short)),
    Taken(&[0], Err(Short)),
    Taken(&[0, 0], Ok(("", 0))),
    Taken(&[0, 0, 0xFF], Ok(("", 1))),
    // NUL is a character
    Taken(&[0, 1, 0], Ok(("\0", 0))),
    // the count is of scalar values: too small, bytes are left; too large, Short
    Taken(&[0, 2, 0x61, 0x62, 0x63], Ok(("ab", 1))),
    Taken(&[0, 1, 0xC3, 0xBC, 0x6E], Ok(("ü", 1))),
    Taken(&[0, 3, 0x61, 0x62], Err(Short)),
    Taken(&[0xFF, 0xFF, 0x61], Err(Short)),
    // what is behind the text does not matter
    Taken(&[0, 1, 0x61, 0xFF], Ok(("a", 1))),
];

pub const EDGES: &[Taken] = &[
    // the largest scalar value, and above it
    Taken(&[0, 1, 0xF4, 0x8F, 0xBF, 0xBF], Ok(("\u{10FFFF}", 0))),
    Taken(&[0, 1, 0xF4, 0x90, 0x80, 0x80], Err(NotUtf8)),
    Taken(&[0, 1, 0xF4, 0x90], Err(NotUtf8)),
    Taken(&[0, 1, 0xF4], Err(Short)),
    Taken(&[0, 1, 0xF5], Err(NotUtf8)),
    // a surrogate
    Taken(&[0, 1, 0xED, 0xA0, 0x80], Err(NotUtf8)),
    Taken(&[0, 1, 0xED, 0xA0], Err(NotUtf8)),
    Taken(&[0, 1, 0xED], Err(Short)),
    Taken(&[0, 1, 0xED, 0x9F, 0xBF], Ok(("\u{D7FF}", 0))),
    Taken(&[0, 1, 0xEE, 0x80, 0x80], Ok(("\u{E000}", 0))),
    // longer than need be
    Taken(&[0, 1, 0xC0, 0x80], Err(NotUtf8)),
    Taken(&[0, 1, 0xC0], Err(NotUtf8)),
    Taken(&[0, 1, 0xE0, 0x80, 0x80], Err(NotUtf8)),
    Taken(&[0, 1, 0xE0, 0x80], Err(NotUtf8)),
    Taken(&[0, 1, 0xE0], Err(Short)),
    Taken(&[0, 1, 0xF0, 0x80, 0x80, 0x80], Err(NotUtf8)),
    // a byte that begins no character, and a character that is cut
    Taken(&[0, 1, 0x80], Err(NotUtf8)),
    Taken(&[0, 1, 0xF0, 0x9F, 0x98], Err(Short)),
    Taken(&[0, 2, 0xF0, 0x9F, 0x98, 0x61], Err(NotUtf8)),
    Taken(&[0, 1, 0xF0, 0x9F, 0x98, 0x80], Ok(("😀", 0))),
];

/// A text, and whether it has at most 64 bytes.
pub struct AtMost64(&'static str, bool);

pub const SHORT: &[AtMost64] = &[
    AtMost64(A64, true),
    AtMost64("Bühne", true),
    AtMost64(A65, false),
];

impl Row for AtMost64 {
    /// Whether it is a text, and the same once more, where it has at most 64 bytes.
    fn agrees(&self, said: &mut Said) -> bool {
        match Text::new(self.0) {
            Some(text) => {
                self.1
                    && said.same(text.as_str(), self.0)
                    && said.same(text.copied().as_str(), self.0)
            }
            None => !self.1,
        }
    }
}
