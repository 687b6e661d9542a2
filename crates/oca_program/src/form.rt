//! The forms of options, and the note on an option whose value is not of its form.

use super::fault::{Failure, RunFault};
use super::table::OptionRow;
use clap::ArgMatches;
use oca_script::field::{address, hex_bytes, number, peer};
use oca_types::{MOST_COMMAND_PARAMETER_BYTES, Peer};
use std::alloc::Global;
use std::fmt::{self, Display, Formatter, Write};

/// The form that the value of an option must have.
#[derive(Clone, Copy, PartialEq, Eq, Debug)]
pub enum Form {
    /// A number of 1 to `digits` decimal digits, from `least` to `largest`.
    Number {
        digits: usize,
        least: u64,
        largest: u64,
    },
    /// The address and the port of one host as `a.b.c.d:port`: 1.0.0.0 to 223.255.255.255, and a port from 1 to 65535.
    Host,
    /// An address of this machine as `a.b.c.d`: 1.0.0.0 to 223.255.255.255, or 0.0.0.0.
    LocalIp,
    /// Any address and any port as `a.b.c.d:port`.
    Peer,
    /// At most 1,445 bytes, two hexadecimal digits for each, or `-` for none.
    Bytes,
    /// Any text.
    Text,
}

/// A number of 8 bits.
pub const NUMBER_8: Form = Form::Number {
    digits: 3,
    least: 0,
    largest: 255,
};

/// A number of 16 bits.
pub const NUMBER_16: Form = Form::Number {
    digits: 5,
    least: 0,
    largest: 65_535,
};

/// A number of 32 bits.
pub const NUMBER_32: Form = Form::Number {
    digits: 10,
    least: 0,
    largest: 4_294_967_295,
};

impl Form {
    ghost use Rattle.std.specs.Prelude.{IfSome};
    ghost use Rattle.oca_program.specs.Options.{IsInForm};

    /// Returns whether a text has this form.
    pub fn takes(self, text: &[u8]) -> bool {
        match self {
            Form::Number { .. } => self.number(text).is_some(),
            Form::Host => host(text).is_some(),
            Form::LocalIp => local_ip(text).is_some(),
            Form::Peer => peer(text).is_some(),
            Form::Bytes => {
                let mut room = [0u8; MOST_COMMAND_PARAMETER_BYTES];
                text.len() <= 2 * MOST_COMMAND_PARAMETER_BYTES
                    && hex_bytes(text, &mut room).is_some()
            }
            Form::Text => true,
        }
    }

    /// Returns the number that a text of this form gives. The result is `None` if the form is not `Number`,
    /// or the text does not have the form: it has not 1 to `digits` decimal digits, or the number is not from `least`
    /// to `largest`.
    pub fn number(self, text: &[u8]) -> Option<u64>
        ensures within { IfSome result (IsInForm self) }
    {
        let Form::Number {
            digits,
            least,
            largest,
        } = self
        else {
            return None;
        };
        number(text, digits, largest).filter(|said| least <= *said)
    }
}

impl Display for Form {
    /// Writes what a value must be.
    fn fmt<W: Write>(&self, f: &mut Formatter<W>) -> fmt::Result {
        match self {
            Form::Number {
                digits,
                least,
                largest,
            } => write!(
                f,
                "a number from {least} to {largest}, of 1 to {digits} digits"
            ),
            Form::Host => f.write_str(
                "A.B.C.D:PORT, the address of one host (1.0.0.0 to 223.255.255.255) and a port from 1 to 65535",
            ),
            Form::LocalIp => f.write_str(
                "A.B.C.D, the address of one host (1.0.0.0 to 223.255.255.255), or 0.0.0.0",
            ),
            Form::Peer => f.write_str("A.B.C.D:PORT"),
            Form::Bytes => f.write_str("an even number of hexadecimal digits, 2 to 2890, or -"),
            Form::Text => f.write_str("a text"),
        }
    }
}

/// Returns whether an IPv4 address, as a number with the first byte highest, is that of one host: from 1.0.0.0 to
/// 223.255.255.255.
pub fn is_host(ip: u32) -> bool {
    (0x0100_0000..0xe000_0000).contains(&ip)
}

/// The address and the port of one host that a text gives.
pub(crate) fn host(text: &[u8]) -> Option<Peer> {
    peer(text).filter(|at| is_host(at.ip) && at.port != 0)
}

/// The address of this machine that a text gives: of one host, or 0.0.0.0.
pub(crate) fn local_ip(text: &[u8]) -> Option<u32> {
    address(text).filter(|ip| *ip == 0 || is_host(*ip))
}

/// The most bytes of a value that a note repeats.
const MOST_SHOWN: usize = 200;

/// Checks the values of the options `rows` in the command line `words`: each that is given must have the form of its
/// option. The only failure is `BadWords`, if a value does not have its form. The note of the failure names the first
/// such option in the order of `rows`, its value if that has at most 200 bytes, and the form. There is no note if
/// memory for it was refused.
pub fn check_values(
    alloc: Global,
    words: &ArgMatches<'_>,
    rows: &[OptionRow],
) -> Result<(), Failure> {
    for row in rows {
        let (name, form) = (row.name, row.form);
        if let Some(value) = row.text(words)
            && !form.takes(value.as_bytes())
        {
            let note = if value.len() > MOST_SHOWN {
                format!(in alloc; "--{name} is not valid: it must be {form}")
            } else {
                format!(in alloc; "--{name} {value} is not valid: it must be {form}")
            };
            return Err(Failure::with_note(RunFault::BadWords, note));
        }
    }
    Ok(())
}
