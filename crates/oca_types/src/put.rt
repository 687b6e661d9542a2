//! Appending values to parameters, which take at most 1,452 bytes.
ghost use Rattle.std.specs.Prelude.{◌≡◌, ◌+◌, ◌≤◌, ◌<◌, ◌↔◌, List, ◌++◌, length, IsOk, IsErr, OnOk, OnErr};
ghost use Rattle.std.specs.Str.{chars};
ghost use Rattle.std.specs.Int.{w8, w16, w32, w64};
ghost use Rattle.oca_types.specs.Numbers.{unsigned_encoding, signed_encoding, bool_encoding};
ghost use Rattle.oca_types.specs.Texts.{text_encoding};
ghost use Rattle.oca_types.specs.Putting.{Puts};
ghost use Rattle.oca_types.specs.Sizes.{most_parameter_bytes};
ghost use Rattle.oca_types.specs.Classes.{class_identification_encoding};

use crate::class::{Class, class_fields};
use crate::fault::PutFault;
use crate::field::Field;
use crate::text::Text;
use crate::words::{MOST_PARAMETER_BYTES, Params};

/// Appends bytes.
pub(crate) fn put_bytes(params: &mut Params, bytes: &[u8]) -> Result<(), PutFault>
    ensures full { IsErr result ↔ (most_parameter_bytes < length params.old.items + length bytes.now) }
    ensures puts { Puts result params.old.items params.new.items bytes.now }
    ensures err { OnErr result (params.new ≡ params.old) }
{
    params
        .try_extend_from_slice(bytes)
        .map_err(|_| PutFault::Full)
}

/// Appends a Uint8 to the parameters (one byte, AES70-3). The only refusal is `Full`, if the parameters would have more
/// than 1,452 bytes in all; the parameters are then unchanged.
pub fn put_u8(params: &mut Params, value: u8) -> Result<(), PutFault>
    ensures full { IsErr result ↔ (most_parameter_bytes < length params.old.items + 1) }
    ensures puts { Puts result params.old.items params.new.items (unsigned_encoding w8 value) }
    ensures err { OnErr result (params.new ≡ params.old) }
{
    u8::put(value, params)
}

/// Appends a Uint16 to the parameters (2 bytes, the highest first, AES70-3). The only refusal is `Full`, if the
/// parameters would have more than 1,452 bytes in all; the parameters are then unchanged.
pub fn put_u16(params: &mut Params, value: u16) -> Result<(), PutFault>
    ensures full { IsErr result ↔ (most_parameter_bytes < length params.old.items + 2) }
    ensures puts { Puts result params.old.items params.new.items (unsigned_encoding w16 value) }
    ensures err { OnErr result (params.new ≡ params.old) }
{
    u16::put(value, params)
}

/// Appends a Uint32 to the parameters (4 bytes, the highest first, AES70-3). The only refusal is `Full`, if the
/// parameters would have more than 1,452 bytes in all; the parameters are then unchanged.
pub fn put_u32(params: &mut Params, value: u32) -> Result<(), PutFault>
    ensures full { IsErr result ↔ (most_parameter_bytes < length params.old.items + 4) }
    ensures puts { Puts result params.old.items params.new.items (unsigned_encoding w32 value) }
    ensures err { OnErr result (params.new ≡ params.old) }
{
    u32::put(value, params)
}

/// Appends a Uint64 to the parameters (8 bytes, the highest first, AES70-3). The only refusal is `Full`, if the
/// parameters would have more than 1,452 bytes in all; the parameters are then unchanged.
pub fn put_u64(params: &mut Params, value: u64) -> Result<(), PutFault>
    ensures full { IsErr result ↔ (most_parameter_bytes < length params.old.items + 8) }
    ensures puts { Puts result params.old.items params.new.items (unsigned_encoding w64 value) }
    ensures err { OnErr result (params.new ≡ params.old) }
{
    u64::put(value, params)
}

/// Appends an Int8 to the parameters (one byte in two's complement, AES70-3). The only refusal is `Full`, if the
/// parameters would have more than 1,452 bytes in all; the parameters are then unchanged.
pub fn put_i8(params: &mut Params, value: i8) -> Result<(), PutFault>
    ensures full { IsErr result ↔ (most_parameter_bytes < length params.old.items + 1) }
    ensures puts { Puts result params.old.items params.new.items (signed_encoding w8 value) }
    ensures err { OnErr result (params.new ≡ params.old) }
{
    i8::put(value, params)
}

/// Appends an Int16 to the parameters (2 bytes in two's complement, the highest first, AES70-3). The only refusal is
/// `Full`, if the parameters would have more than 1,452 bytes in all; the parameters are then unchanged.
pub fn put_i16(params: &mut Params, value: i16) -> Result<(), PutFault>
    ensures full { IsErr result ↔ (most_parameter_bytes < length params.old.items + 2) }
    ensures puts { Puts result params.old.items params.new.items (signed_encoding w16 value) }
    ensures err { OnErr result (params.new ≡ params.old) }
{
    i16::put(value, params)
}

/// Appends an Int32 to the parameters (4 bytes in two's complement, the highest first, AES70-3). The only refusal is
/// `Full`, if the parameters would have more than 1,452 bytes in all; the parameters are then unchanged.
pub fn put_i32(params: &mut Params, value: i32) -> Result<(), PutFault>
    ensures full { IsErr result ↔ (most_parameter_bytes < length params.old.items + 4) }
    ensures puts { Puts result params.old.items params.new.items (signed_encoding w32 value) }
    ensures err { OnErr result (params.new ≡ params.old) }
{
    i32::put(value, params)
}

/// Appends an Int64 to the parameters (8 bytes in two's complement, the highest first, AES70-3). The only refusal is
/// `Full`, if the parameters would have more than 1,452 bytes in all; the parameters are then unchanged.
pub fn put_i64(params: &mut Params, value: i64) -> Result<(), PutFault>
    ensures full { IsErr result ↔ (most_parameter_bytes < length params.old.items + 8) }
    ensures puts { Puts result params.old.items params.new.items (signed_encoding w64 value) }
    ensures err { OnErr result (params.new ≡ params.old) }
{
    i64::put(value, params)
}

/// Appends an OcaBoolean to the parameters (one byte, AES70-3): 0 for false and 1 for true. The only refusal is `Full`,
/// if the parameters would have more than 1,452 bytes in all; the parameters are then unchanged.
pub fn put_bool(params: &mut Params, value: bool) -> Result<(), PutFault>
    ensures full { IsErr result ↔ (most_parameter_bytes < length params.old.items + 1) }
    ensures puts { Puts result params.old.items params.new.items (bool_encoding value) }
    ensures err { OnErr result (params.new ≡ params.old) }
{
    bool::put(value, params)
}

/// The number of Unicode scalar values in a short text.
fn scalar_count(text: &str) -> u16
    requires { length text.now ≤ 64 }
    ensures { result ≡ length (chars text.now) }
{
    text.chars().count() as u16
}

/// Appends an OcaString to the parameters (AES70-3): a Uint16 with the number of Unicode scalar values of the text, and
/// then the UTF-8 of the text. These are from 2 to 66 bytes. The only refusal is `Full`, if the parameters would have
/// more than 1,452 bytes in all; the parameters are then unchanged.
pub fn put_text(params: &mut Params, value: &Text) -> Result<(), PutFault>
    ensures full { IsErr result ↔ (most_parameter_bytes < length params.old.items + length (text_encoding value.now)) }
    ensures puts { Puts result params.old.items params.new.items (text_encoding value.now) }
    ensures err { OnErr result (params.new ≡ params.old) }
{
    let text = value.as_str();
    if MOST_PARAMETER_BYTES - params.len() < 2 + text.len() {
        return Err(PutFault::Full);
    }
    put_u16(params, scalar_count(text))?;
    put_bytes(params, text.as_bytes())
}

/// Appends the OcaClassIdentification of a class to the parameters (AES70-2): the number of fields of its class
/// identifier, these fields, and the class version. Each is a Uint16, so these are from 10 to 14 bytes. The version is
/// 2 for each class (*profile*). The only refusal is `Full`, if the parameters would have more than 1,452 bytes in all;
/// the parameters are then unchanged.
pub fn put_class_identification(params: &mut Params, class: Class) -> Result<(), PutFault>
    ensures full { IsErr result
        ↔ (most_parameter_bytes < length params.old.items + length (class_identification_encoding class)) }
    ensures puts { Puts result params.old.items params.new.items (class_identification_encoding class) }
    ensures err { OnErr result (params.new ≡ params.old) }
{
    let fields = class_fields(class);
    if MOST_PARAMETER_BYTES - params.len() < 4 + 2 * fields.len() {
        return Err(PutFault::Full);
    }
    put_u16(params, fields.len() as u16)?;
    for field in fields.as_slice() {
        put_u16(params, *field)?;
    }
    put_u16(params, 2)
}
