//! Values whose encodings have one length: integers of 8 to 64 bits, and the Boolean.
ghost use Rattle.std.specs.Prelude.{◌≡◌, ◌+◌, ◌<◌, ◌↔◌, ℕ, length, IsErr, OnErr};
ghost use Rattle.std.specs.Int.{w8, w16, w32, w64};
ghost use Rattle.oca_types.specs.Putting.{Puts};
ghost use Rattle.oca_types.specs.Sizes.{most_parameter_bytes};
ghost use Rattle.oca_types.specs.Fixed.{Codec, IsFixed, unsigned, signed, boolean};
ghost use Rattle.oca_types.specs.FixedNumbers.{fixed_u8, fixed_u16, fixed_u32, fixed_u64, fixed_i8, fixed_i16};
ghost use Rattle.oca_types.specs.FixedNumbers.{fixed_i32, fixed_i64, fixed_bool};

use crate::fault::PutFault;
use crate::put::put_bytes;
use crate::words::Params;

/// A type whose values all have encodings of the same length (AES70-3): an integer of 8 to 64 bits or a Boolean.
/// Integers have their highest byte first. [`Cursor::take`](crate::Cursor::take) reads such a value, and `put` writes
/// it.
pub trait Field: Copy {
    // How values of the type are encoded.
    ghost codec: { Codec Self };

    ghost SIZE: { ℕ };

    /// The number of bytes of each encoding: 1, 2, 4 or 8.
    const SIZE: usize;

    /// Returns the value that the bytes `front` encode (AES70-3). The caller must pass exactly `SIZE` bytes (a premise,
    /// which the caller must prove). Every `SIZE` bytes encode a value, so the call refuses nothing.
    fn from_front(front: &[u8]) -> Self
        requires { length front.now ≡ SIZE }
        ensures { result ≡ codec.value_in front.now };

    /// Appends the encoding of the value to `params` (AES70-3): `SIZE` bytes. The only refusal is `Full`, if the
    /// parameters would have more than 1,452 bytes; the parameters are then unchanged.
    fn put(self, params: &mut Params) -> Result<(), PutFault>
        ensures full { IsErr result ↔ (most_parameter_bytes < length params.old.items + SIZE) }
        ensures puts { Puts result params.old.items params.new.items (codec.encoding self) }
        ensures encodes { codec.IsEncoding self (codec.encoding self) }
        ensures err { OnErr result (params.new ≡ params.old) };

    // Every so many bytes encode one value, and reading gives it.
    ghost fixed: { IsFixed codec SIZE };
}

impl Field for u8 {
    ghost codec = { unsigned w8 };

    ghost SIZE = { 1 };

    ghost fixed = { fixed_u8 };

    const SIZE: usize = 1;

    /// Returns the Uint8 that the byte of `front` encodes (AES70-3).
    fn from_front(front: &[u8]) -> u8 {
        front[0]
    }

    /// Appends the Uint8 to the parameters: 1 byte (AES70-3). Refusal: `Full` if the parameters would have more than
    /// 1,452 bytes; the parameters are then unchanged.
    fn put(self, params: &mut Params) -> Result<(), PutFault> {
        put_bytes(params, &u8::to_be_bytes(self))
    }
}

impl Field for u16 {
    ghost codec = { unsigned w16 };

    ghost SIZE = { 2 };

    ghost fixed = { fixed_u16 };

    const SIZE: usize = 2;

    /// Returns the Uint16 that the 2 bytes of `front` encode, the highest first (AES70-3).
    fn from_front(front: &[u8]) -> u16 {
        u16::from_be_bytes([front[0], front[1]])
    }

    /// Appends the Uint16 to the parameters: 2 bytes, the highest first (AES70-3). Refusal: `Full` if the parameters
    /// would have more than 1,452 bytes; the parameters are then unchanged.
    fn put(self, params: &mut Params) -> Result<(), PutFault> {
        put_bytes(params, &u16::to_be_bytes(self))
    }
}

impl Field for u32 {
    ghost codec = { unsigned w32 };

    ghost SIZE = { 4 };

    ghost fixed = { fixed_u32 };

    const SIZE: usize = 4;

    /// Returns the Uint32 that the 4 bytes of `front` encode, the highest first (AES70-3).
    fn from_front(front: &[u8]) -> u32 {
        u32::from_be_bytes([front[0], front[1], front[2], front[3]])
    }

    /// Appends the Uint32 to the parameters: 4 bytes, the highest first (AES70-3). Refusal: `Full` if the parameters
    /// would have more than 1,452 bytes; the parameters are then unchanged.
    fn put(self, params: &mut Params) -> Result<(), PutFault> {
        put_bytes(params, &u32::to_be_bytes(self))
    }
}

impl Field for u64 {
    ghost codec = { unsigned w64 };

    ghost SIZE = { 8 };

    ghost fixed = { fixed_u64 };

    const SIZE: usize = 8;

    /// Returns the Uint64 that the 8 bytes of `front` encode, the highest first (AES70-3).
    fn from_front(front: &[u8]) -> u64 {
        u64::from_be_bytes([
            front[0], front[1], front[2], front[3], front[4], front[5], front[6], front[7],
        ])
    }

    /// Appends the Uint64 to the parameters: 8 bytes, the highest first (AES70-3). Refusal: `Full` if the parameters
    /// would have more than 1,452 bytes; the parameters are then unchanged.
    fn put(self, params: &mut Params) -> Result<(), PutFault> {
        put_bytes(params, &u64::to_be_bytes(self))
    }
}

impl Field for i8 {
    ghost codec = { signed w8 };

    ghost SIZE = { 1 };

    ghost fixed = { fixed_i8 };

    const SIZE: usize = 1;

    /// Returns the Int8 that the byte of `front` encodes in two's complement (AES70-3).
    fn from_front(front: &[u8]) -> i8 {
        i8::from_be_bytes([front[0]])
    }

    /// Appends the Int8 to the parameters: 1 byte in two's complement (AES70-3). Refusal: `Full` if the parameters
    /// would have more than 1,452 bytes; the parameters are then unchanged.
    fn put(self, params: &mut Params) -> Result<(), PutFault> {
        put_bytes(params, &i8::to_be_bytes(self))
    }
}

impl Field for i16 {
    ghost codec = { signed w16 };

    ghost SIZE = { 2 };

    ghost fixed = { fixed_i16 };

    const SIZE: usize = 2;

    /// Returns the Int16 that the 2 bytes of `front` encode in two's complement, the highest first (AES70-3).
    fn from_front(front: &[u8]) -> i16 {
        i16::from_be_bytes([front[0], front[1]])
    }

    /// Appends the Int16 to the parameters: 2 bytes in two's complement, the highest first (AES70-3). Refusal: `Full`
    /// if the parameters would have more than 1,452 bytes; the parameters are then unchanged.
    fn put(self, params: &mut Params) -> Result<(), PutFault> {
        put_bytes(params, &i16::to_be_bytes(self))
    }
}

impl Field for i32 {
    ghost codec = { signed w32 };

    ghost SIZE = { 4 };

    ghost fixed = { fixed_i32 };

    const SIZE: usize = 4;

    /// Returns the Int32 that the 4 bytes of `front` encode in two's complement, the highest first (AES70-3).
    fn from_front(front: &[u8]) -> i32 {
        i32::from_be_bytes([front[0], front[1], front[2], front[3]])
    }

    /// Appends the Int32 to the parameters: 4 bytes in two's complement, the highest first (AES70-3). Refusal: `Full`
    /// if the parameters would have more than 1,452 bytes; the parameters are then unchanged.
    fn put(self, params: &mut Params) -> Result<(), PutFault> {
        put_bytes(params, &i32::to_be_bytes(self))
    }
}

impl Field for i64 {
    ghost codec = { signed w64 };

    ghost SIZE = { 8 };

    ghost fixed = { fixed_i64 };

    const SIZE: usize = 8;

    /// Returns the Int64 that the 8 bytes of `front` encode in two's complement, the highest first (AES70-3).
    fn from_front(front: &[u8]) -> i64 {
        i64::from_be_bytes([
            front[0], front[1], front[2], front[3], front[4], front[5], front[6], front[7],
        ])
    }

    /// Appends the Int64 to the parameters: 8 bytes in two's complement, the highest first (AES70-3). Refusal: `Full`
    /// if the parameters would have more than 1,452 bytes; the parameters are then unchanged.
    fn put(self, params: &mut Params) -> Result<(), PutFault> {
        put_bytes(params, &i64::to_be_bytes(self))
    }
}

impl Field for bool {
    ghost codec = { boolean };

    ghost SIZE = { 1 };

    ghost fixed = { fixed_bool };

    const SIZE: usize = 1;

    /// Returns the Boolean that the byte of `front` encodes (AES70-3): 0 is false, any other byte is true (*profile*).
    fn from_front(front: &[u8]) -> bool {
        front[0] != 0
    }

    /// Appends the Boolean to the parameters as one byte, 0 or 1 (AES70-3). Refusal: `Full` if the parameters would
    /// have more than 1,452 bytes; the parameters are then unchanged.
    fn put(self, params: &mut Params) -> Result<(), PutFault> {
        put_bytes(params, &[u8::from(self)])
    }
}
