//! Reading values from the front of a slice.
ghost use Rattle.std.specs.Prelude.{◌≡◌, List, ◌++◌, ◌<◌, [], ◌↔◌, length, IfOk, OnErr, OnOk, IfErr, IsOk, IsOkAnd};
ghost use Rattle.std.specs.Prelude.{◌≤◌, ℕ};
ghost use Rattle.oca_types.specs.declared.fault.ReadFault.{ReadFault};
ghost use Rattle.oca_types.specs.declared.fault.ReadFault.TheVariants.{Short, Trailing};
ghost use Rattle.std.specs.Int.{w8, w16, w32, w64};
ghost use Rattle.oca_types.specs.Numbers.{IsBytes, IsUnsignedEncoding, IsSignedEncoding, IsBoolEncoding};
ghost use Rattle.oca_types.specs.Texts.{IsTextEncoding};
ghost use Rattle.oca_types.specs.Reading.{unsigned_at, signed_at, bool_at, text_at};
ghost use Rattle.oca_types.specs.Taking.{bytes_left, Takes, TakesEach, IsCutShort, IsTextRefusal, ReadsAs};

use crate::fault::ReadFault;
use crate::field::Field;
use crate::text::{Text, chars_at};
use std::alloc::AllocError;

/// The bytes of a slice that are not read yet. Each `take` call returns the value whose encoding comes first (AES70-3),
/// and removes exactly the bytes of this encoding. A call that refuses removes no byte. Values of several bytes have
/// their highest byte first. No call here takes memory.
///
/// ```
/// let mut cursor = Cursor::new(&[0x00, 0x02, 0x4f, 0x6e, 0x01]);
/// let label = cursor.take_text()?;
/// let enabled = cursor.take_bool()?;
/// cursor.finish()?;
/// assert_eq!(rt; (label.as_str(), enabled), ("On", true));
/// ```
#[derive(Debug)]
pub struct Cursor<'a> {
    rest: &'a [u8],
}

impl Clone for Cursor<'_> {
    ghost use Rattle.std.specs.Prelude.{◌≡◌};
    ghost use Rattle.oca_types.specs.Taking.{bytes_left};

    ghost is_clone = { λ c d. bytes_left d ≡ bytes_left c };

    /// Returns a cursor with the same bytes left.
    fn clone(&self) -> Result<Self, AllocError> {
        Ok(*self)
    }
}

impl Copy for Cursor<'_> {}

/// The first `n` bytes, and those after them.
fn split(bytes: &[u8], n: usize) -> Result<(&[u8], &[u8]), ReadFault>
    ensures ok { IfOk result (λ x. (bytes.now ≡ x.0.now ++ x.1.now) × (length x.0.now ≡ n) × IsBytes x.0.now) }
    ensures short { IfErr result (λ e. (e ≡ Short) × (length bytes.now < n) × IsBytes bytes.now) }
{
    bytes.split_at_checked(n).ok_or(ReadFault::Short)
}

impl<'a> Cursor<'a> {
    /// Returns a cursor at the first byte of `bytes`, with all these bytes left to read. An empty slice is allowed:
    /// each `take` call is then refused with `Short`, and `finish` returns `Ok`. The call copies no byte.
    pub fn new(bytes: &'a [u8]) -> Cursor<'a>
        ensures { bytes_left result ≡ bytes.now }
    {
        Cursor { rest: bytes }
    }

    /// The first `n` bytes. Refusal: `Short`, and the cursor is unchanged.
    fn take_bytes(&mut self, n: usize) -> Result<&'a [u8], ReadFault>
        ensures ok { IfOk result (λ front. (self.old.rest.now ≡ front.now ++ self.new.rest.now) × (length front.now ≡ n)
            × IsBytes front.now) }
        ensures err { OnErr result (self.new ≡ self.old) }
        ensures short { IfErr result (λ e. (e ≡ Short) × (length self.old.rest.now < n) × IsBytes self.old.rest.now) }
    {
        let (front, rest) = split(self.rest, n)?;
        self.rest = rest;
        Ok(front)
    }

    /// Reads the next value from the cursor, an integer of 8 to 64 bits or a Boolean, and moves the cursor past the
    /// value (AES70-3). The type `F` says which value: an integer has its highest byte first. A Boolean is false if its
    /// byte is 0, and true for any other byte (*profile*). The only refusal is `Short`, if fewer bytes are left than
    /// the value has (`F::SIZE`); the cursor is then unchanged.
    pub fn take<F: Field>(&mut self) -> Result<F, ReadFault>
        ensures found { IfOk result (λ v. Takes F.codec.IsEncoding v (bytes_left self.old) (bytes_left self.new)) }
        ensures only { TakesEach F.codec.IsEncoding (bytes_left self.old) result (bytes_left self.new) }
        ensures short { IfErr result (λ e. (e ≡ Short) × IsCutShort F.codec.IsEncoding (bytes_left self.old)) }
        ensures err { OnErr result (bytes_left self.new ≡ bytes_left self.old) }
        ensures reads { ReadsAs result (bytes_left self.new) (F.codec.read_at (bytes_left self.old)) }
    {
        let front = self.take_bytes(F::SIZE)?;
        Ok(F::from_front(front))
    }

    /// Reads a Uint8 (one byte, AES70-3) from the cursor, and moves the cursor past this byte. The only refusal is
    /// `Short`, if no byte is left; the cursor is then unchanged.
    pub fn take_u8(&mut self) -> Result<u8, ReadFault>
        ensures found { IfOk result (λ v. Takes (IsUnsignedEncoding w8) v (bytes_left self.old) (bytes_left self.new)) }
        ensures only { TakesEach (IsUnsignedEncoding w8) (bytes_left self.old) result (bytes_left self.new) }
        ensures short { IfErr result (λ e. (e ≡ Short) × IsCutShort (IsUnsignedEncoding w8) (bytes_left self.old)) }
        ensures err { OnErr result (bytes_left self.new ≡ bytes_left self.old) }
        ensures reads { ReadsAs result (bytes_left self.new) (unsigned_at w8 (bytes_left self.old)) }
    {
        self.take::<u8>()
    }

    /// Reads a Uint16 (2 bytes, the highest first, AES70-3) from the cursor, and moves the cursor past these bytes. The
    /// only refusal is `Short`, if fewer than 2 bytes are left; the cursor is then unchanged.
    pub fn take_u16(&mut self) -> Result<u16, ReadFault>
        ensures found { IfOk result
            (λ v. Takes (IsUnsignedEncoding w16) v (bytes_left self.old) (bytes_left self.new)) }
        ensures only { TakesEach (IsUnsignedEncoding w16) (bytes_left self.old) result (bytes_left self.new) }
        ensures short { IfErr result (λ e. (e ≡ Short) × IsCutShort (IsUnsignedEncoding w16) (bytes_left self.old)) }
        ensures err { OnErr result (bytes_left self.new ≡ bytes_left self.old) }
        ensures reads { ReadsAs result (bytes_left self.new) (unsigned_at w16 (bytes_left self.old)) }
    {
        self.take::<u16>()
    }

    /// Reads a Uint32 (4 bytes, the highest first, AES70-3) from the cursor, and moves the cursor past these bytes. The
    /// only refusal is `Short`, if fewer than 4 bytes are left; the cursor is then unchanged.
    pub fn take_u32(&mut self) -> Result<u32, ReadFault>
        ensures found { IfOk result
            (λ v. Takes (IsUnsignedEncoding w32) v (bytes_left self.old) (bytes_left self.new)) }
        ensures only { TakesEach (IsUnsignedEncoding w32) (bytes_left self.old) result (bytes_left self.new) }
        ensures short { IfErr result (λ e. (e ≡ Short) × IsCutShort (IsUnsignedEncoding w32) (bytes_left self.old)) }
        ensures err { OnErr result (bytes_left self.new ≡ bytes_left self.old) }
        ensures reads { ReadsAs result (bytes_left self.new) (unsigned_at w32 (bytes_left self.old)) }
    {
        self.take::<u32>()
    }

    /// Reads a Uint64 (8 bytes, the highest first, AES70-3) from the cursor, and moves the cursor past these bytes. The
    /// only refusal is `Short`, if fewer than 8 bytes are left; the cursor is then unchanged.
    pub fn take_u64(&mut self) -> Result<u64, ReadFault>
        ensures found { IfOk result
            (λ v. Takes (IsUnsignedEncoding w64) v (bytes_left self.old) (bytes_left self.new)) }
        ensures only { TakesEach (IsUnsignedEncoding w64) (bytes_left self.old) result (bytes_left self.new) }
        ensures short { IfErr result (λ e. (e ≡ Short) × IsCutShort (IsUnsignedEncoding w64) (bytes_left self.old)) }
        ensures err { OnErr result (bytes_left self.new ≡ bytes_left self.old) }
        ensures reads { ReadsAs result (bytes_left self.new) (unsigned_at w64 (bytes_left self.old)) }
    {
        self.take::<u64>()
    }

    /// Reads an Int8 (one byte in two's complement, AES70-3) from the cursor, and moves the cursor past this byte. The
    /// only refusal is `Short`, if no byte is left; the cursor is then unchanged.
    pub fn take_i8(&mut self) -> Result<i8, ReadFault>
        ensures found { IfOk result (λ v. Takes (IsSignedEncoding w8) v (bytes_left self.old) (bytes_left self.new)) }
        ensures only { TakesEach (IsSignedEncoding w8) (bytes_left self.old) result (bytes_left self.new) }
        ensures short { IfErr result (λ e. (e ≡ Short) × IsCutShort (IsSignedEncoding w8) (bytes_left self.old)) }
        ensures err { OnErr result (bytes_left self.new ≡ bytes_left self.old) }
        ensures reads { ReadsAs result (bytes_left self.new) (signed_at w8 (bytes_left self.old)) }
    {
        self.take::<i8>()
    }

    /// Reads an Int16 (2 bytes in two's complement, the highest first, AES70-3) from the cursor, and moves the cursor
    /// past these bytes. The only refusal is `Short`, if fewer than 2 bytes are left; the cursor is then unchanged.
    pub fn take_i16(&mut self) -> Result<i16, ReadFault>
        ensures found { IfOk result (λ v. Takes (IsSignedEncoding w16) v (bytes_left self.old) (bytes_left self.new)) }
        ensures only { TakesEach (IsSignedEncoding w16) (bytes_left self.old) result (bytes_left self.new) }
        ensures short { IfErr result (λ e. (e ≡ Short) × IsCutShort (IsSignedEncoding w16) (bytes_left self.old)) }
        ensures err { OnErr result (bytes_left self.new ≡ bytes_left self.old) }
        ensures reads { ReadsAs result (bytes_left self.new) (signed_at w16 (bytes_left self.old)) }
    {
        self.take::<i16>()
    }

    /// Reads an Int32 (4 bytes in two's complement, the highest first, AES70-3) from the cursor, and moves the cursor
    /// past these bytes. The only refusal is `Short`, if fewer than 4 bytes are left; the cursor is then unchanged.
    pub fn take_i32(&mut self) -> Result<i32, ReadFault>
        ensures found { IfOk result (λ v. Takes (IsSignedEncoding w32) v (bytes_left self.old) (bytes_left self.new)) }
        ensures only { TakesEach (IsSignedEncoding w32) (bytes_left self.old) result (bytes_left self.new) }
        ensures short { IfErr result (λ e. (e ≡ Short) × IsCutShort (IsSignedEncoding w32) (bytes_left self.old)) }
        ensures err { OnErr result (bytes_left self.new ≡ bytes_left self.old) }
        ensures reads { ReadsAs result (bytes_left self.new) (signed_at w32 (bytes_left self.old)) }
    {
        self.take::<i32>()
    }

    /// Reads an Int64 (8 bytes in two's complement, the highest first, AES70-3) from the cursor, and moves the cursor
    /// past these bytes. The only refusal is `Short`, if fewer than 8 bytes are left; the cursor is then unchanged.
    pub fn take_i64(&mut self) -> Result<i64, ReadFault>
        ensures found { IfOk result (λ v. Takes (IsSignedEncoding w64) v (bytes_left self.old) (bytes_left self.new)) }
        ensures only { TakesEach (IsSignedEncoding w64) (bytes_left self.old) result (bytes_left self.new) }
        ensures short { IfErr result (λ e. (e ≡ Short) × IsCutShort (IsSignedEncoding w64) (bytes_left self.old)) }
        ensures err { OnErr result (bytes_left self.new ≡ bytes_left self.old) }
        ensures reads { ReadsAs result (bytes_left self.new) (signed_at w64 (bytes_left self.old)) }
    {
        self.take::<i64>()
    }

    /// Reads an OcaBoolean (one byte, AES70-3) from the cursor, and moves the cursor past this byte. The result is
    /// false if the byte is 0, and true for any other byte (*profile*). The only refusal is `Short`, if no byte is
    /// left; the cursor is then unchanged.
    pub fn take_bool(&mut self) -> Result<bool, ReadFault>
        ensures found { IfOk result (λ v. Takes IsBoolEncoding v (bytes_left self.old) (bytes_left self.new)) }
        ensures only { TakesEach IsBoolEncoding (bytes_left self.old) result (bytes_left self.new) }
        ensures short { IfErr result (λ e. (e ≡ Short) × IsCutShort IsBoolEncoding (bytes_left self.old)) }
        ensures err { OnErr result (bytes_left self.new ≡ bytes_left self.old) }
        ensures reads { ReadsAs result (bytes_left self.new) (bool_at (bytes_left self.old)) }
    {
        self.take::<bool>()
    }

    /// Reads an OcaString of at most 64 bytes from the cursor, and moves the cursor past it (AES70-3). Its encoding is
    /// a Uint16 with the number of Unicode scalar values, and then these as UTF-8. Each scalar value counts as 1, also
    /// outside of ASCII (*profile*). An empty text is allowed. Refusals, of which at most one applies; the cursor is
    /// then unchanged:
    /// - `Short` if all the bytes that are left are the beginning of the encoding of a text, of whatever length, and
    ///   this encoding goes on. So it is if no byte is left.
    /// - `NotUtf8` if they are no such beginning, and do not begin with the encoding of a text, of whatever length.
    /// - `TooLong` if they begin with the encoding of a text of more than 64 bytes.
    pub fn take_text(&mut self) -> Result<Text, ReadFault>
        ensures found { IfOk result (λ text. Takes IsTextEncoding text (bytes_left self.old) (bytes_left self.new)) }
        ensures only { (text front rest : List ℕ) → IsTextEncoding text front → bytes_left self.old ≡ front ++ rest →
            length text ≤ 64 →
            (result ≡ Ok text) × (bytes_left self.new ≡ rest) }
        ensures within { IfOk result (λ text. length text ≤ 64) }
        ensures refusal { IfErr result (λ e. IsTextRefusal (bytes_left self.old) e) }
        ensures err { OnErr result (bytes_left self.new ≡ bytes_left self.old) }
        ensures reads { ReadsAs result (bytes_left self.new) (text_at (bytes_left self.old)) }
    {
        let mut after = *self;
        let count = after.take_u16()?;
        let (text, rest) = chars_at(after.rest, count)?;
        let Some(text) = Text::new(text) else {
            return Err(ReadFault::TooLong);
        };
        self.rest = rest;
        Ok(text)
    }

    /// Returns `Ok` if no byte is left in the cursor. The only refusal is `Trailing`, if at least one byte is left. The
    /// cursor is unchanged in both cases.
    pub fn finish(&self) -> Result<(), ReadFault>
        ensures variant { IsOk result ↔ (bytes_left self.now ≡ []) }
        ensures err { IfErr result (λ e. e ≡ Trailing) }
    {
        if self.rest.is_empty() {
            Ok(())
        } else {
            Err(ReadFault::Trailing)
        }
    }
}
