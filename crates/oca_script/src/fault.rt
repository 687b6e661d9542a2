//! Why a line, or a replay, is refused.
ghost use Rattle.std.specs.Prelude.{◌≡◌};
ghost use Rattle.oca_script.specs.Faults.{fault_word, script_fault_number};

use std::fmt::{self, Display, Formatter};
use thiserror::Error;

/// What is wrong with a line of a script. Each fault is looked for in the whole line before the next.
#[derive(Clone, Copy, PartialEq, Eq, Debug)]
pub enum LineFault {
    /// The line has more than 4,096 bytes before its line feed.
    TooLong,
    /// The number of fields is wrong, a keyword is unknown, or a byte is not ASCII.
    Form,
    /// A moment does not have 1 to 20 digits, or does not fit 64 bits.
    Moment,
    /// Another number does not have its form, or is out of its range.
    Number,
    /// A peer does not have the form `a.b.c.d:port`.
    Peer,
    /// Bytes are neither `-` nor an even number, at least two, of hexadecimal digits.
    Hex,
}

impl LineFault {
    /// Returns the word that is printed for the fault, by the variant: `too long`, `form`, `moment`, `number`, `peer`
    /// or `hex`. The call refuses nothing.
    pub fn word(self) -> &'static str
        ensures { result.now ≡ fault_word self }
    {
        match self {
            LineFault::TooLong => "too long",
            LineFault::Form => "form",
            LineFault::Moment => "moment",
            LineFault::Number => "number",
            LineFault::Peer => "peer",
            LineFault::Hex => "hex",
        }
    }
}

impl Display for LineFault {
    /// Writes its word.
    fn fmt<W: fmt::Write>(&self, f: &mut Formatter<W>) -> fmt::Result {
        f.write_str(self.word())
    }
}

impl std::error::Error for LineFault {}

/// Why a replay ended before its script did.
#[derive(Clone, Copy, PartialEq, Eq, Debug, Error)]
pub enum ReplayFault {
    /// A line has a fault: its number, counted from 1 with the skipped lines, and the fault.
    #[error("line {0}: {1}")]
    Line(u64, LineFault),
    /// A read of the source failed.
    #[error("read failed")]
    Read,
    /// A write to the sink failed, or took no byte.
    #[error("write failed")]
    Write,
    /// The script has more than 16,777,216 bytes, and no line within these bytes has a fault.
    #[error("too much input")]
    TooMuch,
}

impl ReplayFault {
    /// Returns the number of the fault: 1 for a bad line, 2 for a failed read, 3 for a failed write, and 4 for too much
    /// input. The call refuses nothing.
    pub fn number(self) -> u8
        ensures { result ≡ script_fault_number self }
    {
        match self {
            ReplayFault::Line(_, _) => 1,
            ReplayFault::Read => 2,
            ReplayFault::Write => 3,
            ReplayFault::TooMuch => 4,
        }
    }
}

/// Why a line of a script was not served.
#[derive(Clone, Copy, PartialEq, Eq, Debug, Error)]
pub enum Stop {
    /// The line has this fault.
    #[error("{0}")]
    Line(LineFault),
    /// A write to the sink failed, or took no byte.
    #[error("write failed")]
    Write,
}

impl From<WriteFailed> for Stop {
    ghost use Rattle.std.specs.Prelude.{◌≡◌};
    ghost use Rattle.oca_script.specs.declared.fault.Stop.TheVariants.{Write};

    ghost from_gives = { λ _ r. r ≡ Write };

    /// The write that failed is why the line was not served.
    fn from(_failed: WriteFailed) -> Stop {
        Stop::Write
    }
}

/// A read of a source failed.
#[derive(Clone, Copy, PartialEq, Eq, Debug, Error)]
#[error("read failed")]
pub struct ReadFailed;

/// A write to a sink failed, or took no byte.
#[derive(Clone, Copy, PartialEq, Eq, Debug, Error)]
#[error("write failed")]
pub struct WriteFailed;
