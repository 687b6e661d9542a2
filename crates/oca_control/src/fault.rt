//! Why a command is not submitted.
ghost use Rattle.std.specs.Prelude.{◌≡◌};
ghost use Rattle.oca_control.specs.FaultWords.{control_fault_words};

use std::error::Error;
use std::fmt::{self, Display, Formatter};

/// Why a link refuses a command, in the order of the tests: the first that applies is returned. The numbers are
/// promised.
#[derive(Clone, Copy, Debug, PartialEq, Eq)]
pub enum ControlFault {
    /// The link is lost: a command got no answer to 20 transmissions. Calls over an end also return it for a link that
    /// is late.
    Lost = 1,
    /// A command has the handle 4294967295, the highest: no handle is left.
    HandlesSpent = 2,
    /// The next handle is not below the lowest handle whose answer was not taken yet, plus the span.
    SpanFull = 3,
    /// The parameters have more bytes than the link has room for: 1,445 in a `Link`.
    TooLong = 4,
}

const _: () = prove!(ControlFault::Lost as u8 == 1);

const _: () = prove!(ControlFault::HandlesSpent as u8 == 2);

const _: () = prove!(ControlFault::SpanFull as u8 == 3);

const _: () = prove!(ControlFault::TooLong as u8 == 4);

/// Why a command is not submitted, in words.
fn words_for(fault: ControlFault) -> &'static str
    ensures { result.now ≡ control_fault_words fault }
{
    match fault {
        ControlFault::Lost => "the link is lost",
        ControlFault::HandlesSpent => "no handle is left",
        ControlFault::SpanFull => {
            "the next handle is not below the lowest untaken one plus the span"
        }
        ControlFault::TooLong => "the parameters are too long",
    }
}

impl Display for ControlFault {
    ghost use Rattle.std.specs.Prelude.{Some};
    ghost use Rattle.oca_control.specs.FaultWords.{control_fault_words};

    ghost output = { λ fault. Some (control_fault_words fault) };

    /// Writes it in words.
    fn fmt<W: fmt::Write>(&self, f: &mut Formatter<W>) -> fmt::Result {
        Display::fmt(words_for(*self), f)
    }
}

impl Error for ControlFault {}
