//! What a run of the loop did.
use std::ops::Add;

/// How often [`serve`](crate::serve) did each thing. All numbers are 0 by default. Two reports are added number by
/// number: a sum above 2^64 - 1 stays at 2^64 - 1.
#[derive(Clone, Copy, Debug, PartialEq, Eq)]
pub struct Report {
    /// Receives that returned a datagram, an oversize one, silence or a failure. A closed end is no turn.
    pub turns: u64,
    /// Commands that were executed, whatever their status.
    pub executed: u64,
    /// Duplicates: commands that came again. They were not executed again. Those that ask for a response got the
    /// retained reply.
    pub kept: u64,
    /// Commands that were too old for the reply window, and were ignored.
    pub old: u64,
    /// Commands that asked something else under the handle of a retained command, and were ignored.
    pub reused: u64,
    /// Datagrams that are not well-formed (AES70-3).
    pub malformed: u64,
    /// Datagrams whose sender has no session, and for which there was no room for one.
    pub no_room: u64,
    /// Datagrams of more than 1,472 bytes, which were dropped.
    pub oversize: u64,
    /// Receives in which no datagram came.
    pub quiet: u64,
    /// Receives that failed.
    pub failed_receives: u64,
    /// Sends that failed.
    pub failed_sends: u64,
}

impl Default for Report {
    ghost use Rattle.std.specs.Prelude.{◌≡◌};
    ghost use Rattle.oca_device.specs.Reports.{no_turns};

    ghost is_default = { λ r. r ≡ no_turns };

    /// Nothing was done.
    fn default() -> Self {
        Report {
            turns: 0,
            executed: 0,
            kept: 0,
            old: 0,
            reused: 0,
            malformed: 0,
            no_room: 0,
            oversize: 0,
            quiet: 0,
            failed_receives: 0,
            failed_sends: 0,
        }
    }
}

impl Add for Report {
    ghost use Rattle.std.specs.Prelude.{◌≡◌};
    ghost use Rattle.oca_device.specs.Reports.{added, capped};

    type Output = Report;

    ghost add_gives = { λ a b r. r ≡ capped (added a b) };

    /// What both did.
    fn add(self, rhs: Report) -> Report {
        Report {
            turns: self.turns.saturating_add(rhs.turns),
            executed: self.executed.saturating_add(rhs.executed),
            kept: self.kept.saturating_add(rhs.kept),
            old: self.old.saturating_add(rhs.old),
            reused: self.reused.saturating_add(rhs.reused),
            malformed: self.malformed.saturating_add(rhs.malformed),
            no_room: self.no_room.saturating_add(rhs.no_room),
            oversize: self.oversize.saturating_add(rhs.oversize),
            quiet: self.quiet.saturating_add(rhs.quiet),
            failed_receives: self.failed_receives.saturating_add(rhs.failed_receives),
            failed_sends: self.failed_sends.saturating_add(rhs.failed_sends),
        }
    }
}
