//! What a device of C notes of the objects that are not stored.
ghost use Rattle.std.specs.Prelude.{◌≡◌, ◌==◌, not, length};
ghost use Rattle.oca_calls.specs.Storings.{all_stored};
ghost use Rattle.oca_calls.specs.WaitingAnswers.{duplicates_of, unstored_after};

use crate::any_device::AnyDevice;
use oca_device::Verdict;

/// Whether something that datagrams wrote is not stored, and whether the answers to the last datagram wait until it is.
#[derive(Clone, Copy)]
pub struct Unstored {
    pub is_behind: bool,
    pub waits: bool,
}

impl Unstored {
    /// Returns the state in which everything that was written is stored, and no answers wait.
    pub fn none() -> Unstored
        ensures { result ≡ all_stored }
    {
        Unstored {
            is_behind: false,
            waits: false,
        }
    }

    /// Returns the state after a datagram that wrote to an object or not (`wrote`), and that had `duplicates`
    /// duplicates.
    pub fn after(self, wrote: bool, duplicates: u32) -> Unstored
        ensures { result ≡ unstored_after self wrote duplicates }
    {
        Unstored {
            is_behind: wrote || self.is_behind,
            waits: wrote || (duplicates != 0 && self.is_behind),
        }
    }
}

/// Whether the last datagram wrote to an object. `false` before the first datagram.
pub fn has_written(device: &AnyDevice) -> bool
    ensures { result ≡ not (length device.now.device.written == 0) }
{
    !device.written().is_empty()
}

/// Returns how many duplicates the datagram with this verdict had. 0 if it was malformed or found no room.
pub fn duplicates_in(verdict: Verdict) -> u32
    ensures { result ≡ duplicates_of verdict }
{
    match verdict {
        Verdict::Served { kept, .. } => kept,
        Verdict::Malformed(_) | Verdict::NoRoom => 0,
    }
}
