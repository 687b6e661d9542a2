//! Texts of peers as they are printed: no character of them ends a line, moves a cursor or changes the direction of
//! what stands beside it.
ghost use Rattle.std.specs.Prelude.{◌≡◌, ◌≤◌, ◌+◌, ◌++◌, length, encode_utf8_all, IsTrue};
ghost use Rattle.std.specs.Char.{digit_char};
ghost use Rattle.oca_script.specs.Escapes.{is_hidden as is_hidden_char, letter_for, two_digits, digits_of, escape};
ghost use Rattle.oca_script.specs.Escapes.{escaped, has_hidden as has_hidden_char, LawOfEscapes};

use super::buffer::Buffer;
use std::marker::Model;

/// The most bytes that are printed of a text of 64 bytes.
const MOST: usize = 512;

/// A text of at most 64 bytes as the programs print it. A line feed, a carriage return, a tab and a backslash are `\n`,
/// `\r`, `\t` and `\\`. Any other control character, U+061C, U+200E, U+200F, U+2028 to U+202E and U+2066 to U+2069 are
/// `\u{..}`, with two hexadecimal digits below U+0100 and otherwise four. Any other character is printed as it is.
/// Contracts see it as its bytes.
#[derive(Drop)]
pub struct Escaped {
    bytes: Buffer<MOST>,
}

impl Model for Escaped {
    ghost use Rattle.std.specs.Prelude.{List, ℕ};

    ghost Value = { List ℕ };

    ghost view = { λ e. e.bytes };
}

impl Escaped {
    /// Returns the text as the programs print it: 0 to 512 bytes. The bytes have no character that ends a line, moves a
    /// cursor or changes the direction of a text. `text` must have at most 64 bytes (a premise, which the caller must
    /// prove). The call prints nothing, refuses nothing and takes no memory.
    pub fn of(text: &str) -> Escaped
        requires { length text.now ≤ 64 }
        ensures { result ≡ escaped text.now }
    {
        Escaped {
            bytes: escapes_of(text),
        }
    }

    /// Returns the bytes to print, without copying them: from 0 to 512 bytes of UTF-8.
    pub fn as_bytes(&self) -> &[u8]
        ensures value { result.now ≡ self.now }
        ensures most { length self.now ≤ 512 }
    {
        self.bytes.as_slice()
    }
}

/// Returns whether a text has a character that the programs print as `\n`, `\r`, `\t` or `\u{..}`. A backslash does not
/// count, although it is printed as two. The text can have any length. The result is `false` for an empty text.
pub fn has_hidden(text: &str) -> bool
    ensures { result ≡ has_hidden_char text.now }
{
    text.chars().any(|c| is_hidden(c))
}

/// The escapes of the characters of a text.
fn escapes_of(text: &str) -> Buffer<MOST>
    requires { length text.now ≤ 64 }
    ensures { result ≡ escaped text.now }
{
    let mut bytes = Buffer::new();
    for c in text.chars() {
        put_escape(&mut bytes, c);
    }
    bytes
}

/// Whether a character is printed as another, a backslash left aside.
fn is_hidden(c: char) -> bool
    ensures value { result ≡ is_hidden_char c }
    ensures low { IsTrue result → c ≤ 65535 }
{
    matches!(
        c as u32,
        0..=0x1f | 0x7f..=0x9f | 0x61c | 0x200e..=0x200f | 0x2028..=0x202e | 0x2066..=0x2069
    )
}

/// What stands behind a backslash for a character, where that is one letter.
fn letter(c: char) -> Option<u8>
    ensures { result ≡ letter_for c }
{
    match c {
        '\n' => Some(b'n'),
        '\r' => Some(b'r'),
        '\t' => Some(b't'),
        '\\' => Some(b'\\'),
        _ => None,
    }
}

/// Appends what is printed for a character.
fn put_escape(bytes: &mut Buffer<MOST>, c: char)
    requires { length bytes.old + 8 ≤ 512 }
    ensures value { bytes.new ≡ bytes.old ++ encode_utf8_all (escape c) }
    ensures len { length bytes.new ≤ length bytes.old + 8 }
{
    if let Some(letter) = letter(c) {
        bytes.push(b'\\');
        bytes.push(letter);
    } else if is_hidden(c) {
        bytes.put(b"\\u{");
        put_number(bytes, c as u32 as u16);
        bytes.put(b"}");
    } else {
        let mut room = [0; 4];
        bytes.put(c.encode_utf8(&mut room).as_bytes());
    }
}

/// Appends the number of a character.
fn put_number(bytes: &mut Buffer<MOST>, number: u16)
    requires { length bytes.old + 5 ≤ 512 }
    ensures value { bytes.new ≡ bytes.old ++ digits_of number }
    ensures len { length bytes.new ≤ length bytes.old + 4 }
{
    if number < 256 {
        put_byte(bytes, number as u8);
    } else {
        put_byte(bytes, (number / 256) as u8);
        put_byte(bytes, (number % 256) as u8);
    }
}

/// Appends a byte in two hexadecimal digits of lower case.
fn put_byte(bytes: &mut Buffer<MOST>, byte: u8)
    requires { length bytes.old + 2 ≤ 512 }
    ensures { bytes.new ≡ bytes.old ++ two_digits byte }
{
    bytes.push(digit(byte / 16));
    bytes.push(digit(byte % 16));
}

/// A hexadecimal digit.
fn digit(value: u8) -> u8
    requires { value ≤ 15 }
    ensures { result ≡ digit_char value }
{
    if value < 10 {
        b'0' + value
    } else {
        b'a' - 10 + value
    }
}

/// Law: each text can be read back from what is printed of it. The function states this law as its contract, and does
/// nothing at run time.
pub fn law_of_escapes()
    ensures { LawOfEscapes }
{}
