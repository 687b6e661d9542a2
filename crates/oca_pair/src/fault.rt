//! Why a schedule does not run.
ghost use Rattle.std.specs.Prelude.{◌≡◌};
ghost use Rattle.oca_pair.specs.Transcripts.{pair_fault_number};

use std::error::Error;
use std::fmt;

/// Why a schedule does not run to its end. The numbers are promised.
#[derive(Clone, Copy, Debug, PartialEq, Eq)]
pub enum PairFault {
    /// Number 1: memory was refused.
    NoMemory,
    /// Number 2: the step with this number, from 0, is the first that names a link or a datagram that is not there, or
    /// is an `Other` from the peer of a link.
    BadStep(usize),
    /// Number 3: two starts have the same peer, or one has the device's, 127.0.0.1:65000.
    SamePeer,
}

impl PairFault {
    /// Returns the number of the fault, for a program that reports numbers: 1 for `NoMemory`, 2 for `BadStep`, 3 for
    /// `SamePeer`. The numbers are promised.
    pub fn number(&self) -> u8
        ensures { result ≡ pair_fault_number self.now }
    {
        match self {
            PairFault::NoMemory => 1,
            PairFault::BadStep(_) => 2,
            PairFault::SamePeer => 3,
        }
    }
}

impl fmt::Display for PairFault {
    /// Writes why the run was refused, in words.
    fn fmt<W: fmt::Write>(&self, f: &mut fmt::Formatter<W>) -> fmt::Result {
        match self {
            PairFault::NoMemory => write!(f, "no memory"),
            PairFault::BadStep(step) => write!(
                f,
                "step {step} names what is not there, or is from a link's peer"
            ),
            PairFault::SamePeer => write!(f, "two starts have one peer, or one has the device's"),
        }
    }
}

impl Error for PairFault {}
