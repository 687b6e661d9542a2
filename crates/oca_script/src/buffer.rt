//! Bytes that are put behind one another, in room of a fixed size.
ghost use Rattle.std.specs.Prelude.{◌≡◌, ◌==◌, ◌+◌, ◌*◌, ◌++◌, ◌≤◌, [], ◌∷◌, length};
ghost use Rattle.hex.specs.Hex.{encode_lower};

use std::marker::Model;

/// Bytes that are appended one after another, in room for `CAP` bytes. It takes no memory from the heap. Contracts see
/// it as its bytes.
#[derive(Drop)]
pub struct Buffer<const CAP: usize> {
    bytes: [u8; CAP],
    len: usize,
}

impl<const CAP: usize> Model for Buffer<CAP> {
    ghost use Rattle.std.specs.Prelude.{ℕ, List, ◌≤◌, take};

    ghost Value = { List ℕ };

    ghost view = { λ b. take b.len b.bytes };

    ghost invariant = { λ b. b.len ≤ CAP };
}

impl<const CAP: usize> Buffer<CAP> {
    /// Returns a buffer without bytes, with room for `CAP` bytes. The call takes no memory from the heap.
    pub fn new() -> Self
        ensures { result ≡ [] }
    {
        Buffer {
            bytes: [0; CAP],
            len: 0,
        }
    }

    /// Returns the number of bytes in the buffer: from 0, as at first, to `CAP`.
    pub fn len(&self) -> usize
        ensures len { result ≡ length self.now }
        ensures most { result ≤ CAP }
    {
        self.len
    }

    /// Returns whether there are no bytes in the buffer, as at first.
    pub fn is_empty(&self) -> bool
        ensures { result ≡ (length self.now == 0) }
    {
        self.len == 0
    }

    /// Returns the bytes in the buffer, in the order in which they were appended: from 0 to `CAP` bytes.
    pub fn as_slice(&self) -> &[u8]
        ensures value { result.now ≡ self.now }
        ensures most { length self.now ≤ CAP }
    {
        &self.bytes[..self.len]
    }

    /// Removes all bytes from the buffer; then there is room for `CAP` bytes again.
    pub fn clear(&mut self)
        ensures { self.new ≡ [] }
    {
        self.len = 0;
    }

    /// Appends the bytes to the buffer. There must be room for these bytes (a premise, which the caller must prove):
    /// all bytes together are at most `CAP`.
    #[inline]
    pub fn put(&mut self, bytes: &[u8])
        requires { length self.old + length bytes.now ≤ CAP }
        ensures { self.new ≡ self.old ++ bytes.now }
    {
        let start = self.len;
        let room = &mut self.bytes[..];
        room[start..start + bytes.len()].copy_from_slice(bytes);
        self.len = start + bytes.len();
    }

    /// Appends one byte to the buffer. There must be room for this byte (a premise, which the caller must prove): the
    /// buffer has fewer than `CAP` bytes.
    #[inline]
    pub fn push(&mut self, byte: u8)
        requires { length self.old + 1 ≤ CAP }
        ensures { self.new ≡ self.old ++ byte ∷ [] }
    {
        let start = self.len;
        let room = &mut self.bytes[..];
        room[start] = byte;
        self.len = start + 1;
    }

    /// Appends the bytes as lower-case hexadecimal digits, two for each byte. There must be room for the digits (a
    /// premise, which the caller must prove): all bytes together are at most `CAP`.
    #[inline]
    pub fn put_digits(&mut self, bytes: &[u8])
        requires { length self.old + 2 * length bytes.now ≤ CAP }
        ensures { self.new ≡ self.old ++ encode_lower bytes.now }
    {
        let start = self.len;
        let room = &mut self.bytes[..];
        let _ = hex::encode_to_slice(bytes, &mut room[start..start + 2 * bytes.len()]);
        self.len = start + 2 * bytes.len();
    }
}
