//! The fields that a line must have, or the fault that the line has.
ghost use Rattle.std.specs.Prelude.{◌≡◌};
ghost use Rattle.std.specs.Option.{ok_or};
ghost use Rattle.oca_script.specs.Fields.{moment_of};
ghost use Rattle.oca_script.specs.LineFields.{u32_of, u16_of, u8_of};

use super::fault::LineFault;
use super::field::{self, number};

/// Returns the moment, in milliseconds, that a text of 1 to 20 decimal digits gives. The only refusal is
/// [`LineFault::Moment`], if the text is anything else, or the number does not fit 64 bits.
pub fn moment(text: &[u8]) -> Result<u64, LineFault>
    ensures { result ≡ ok_or (moment_of text.now) LineFault.Moment }
{
    field::moment(text).ok_or(LineFault::Moment)
}

/// Returns the number that a text of 1 to 10 decimal digits gives, from 0 to 4,294,967,295. The only refusal is
/// [`LineFault::Number`], if the text is anything else, or the number is larger.
pub fn u32_in(text: &[u8]) -> Result<u32, LineFault>
    ensures { result ≡ ok_or (u32_of text.now) LineFault.Number }
{
    match number(text, 10, 4294967295) {
        Some(n) => Ok(n as u32),
        None => Err(LineFault::Number),
    }
}

/// Returns the number that a text of 1 to 5 decimal digits gives, from 0 to 65,535. The only refusal is
/// [`LineFault::Number`], if the text is anything else, or the number is larger.
pub fn u16_in(text: &[u8]) -> Result<u16, LineFault>
    ensures { result ≡ ok_or (u16_of text.now) LineFault.Number }
{
    match number(text, 5, 65535) {
        Some(n) => Ok(n as u16),
        None => Err(LineFault::Number),
    }
}

/// Returns the number that a text of 1 to 3 decimal digits gives, from 0 to 255. The only refusal is
/// [`LineFault::Number`], if the text is anything else, or the number is larger.
pub fn u8_in(text: &[u8]) -> Result<u8, LineFault>
    ensures { result ≡ ok_or (u8_of text.now) LineFault.Number }
{
    match number(text, 3, 255) {
        Some(n) => Ok(n as u8),
        None => Err(LineFault::Number),
    }
}
