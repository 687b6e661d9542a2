//! What a loop did with a link.
use std::ops::Add;

/// How often a turn, a loop or a sending did each thing, and whether it found the link lost. A *turn* receives once and
/// sends what is due. All numbers are 0 by default, and `lost` is `false`.
///
/// Two reports are added number by number: a sum above 2^64 - 1 stays at 2^64 - 1, and `lost` is `true` if it is in one
/// of the two.
#[derive(Clone, Copy, Debug, PartialEq, Eq)]
pub struct DriveReport {
    /// The turns: receives that returned a datagram, an oversize one, silence or a failure. A closed end is no turn.
    pub turns: u64,
    /// The commands that were given to the end to send, first transmissions and retransmissions, failed sends included.
    pub sent: u64,
    /// The keep-alives that were given to the end to send, failed sends included.
    pub keep_alives: u64,
    /// The commands that got their first answer.
    pub answered: u64,
    /// The receives that failed.
    pub failed_receives: u64,
    /// The sends that failed, of commands and of keep-alives.
    pub failed_sends: u64,
    /// Whether the link was found lost. In the calls that look at it ([`turn`](crate::turn),
    /// [`send_in_time`](crate::send_in_time)) also whether it was found late.
    pub lost: bool,
}

impl Default for DriveReport {
    ghost use Rattle.std.specs.Prelude.{◌≡◌, []};
    ghost use Rattle.oca_control.specs.Driving.{drive_report_of};

    ghost is_default = { λ r. r ≡ drive_report_of [] [] 0 0 };

    /// Nothing was done.
    fn default() -> Self {
        DriveReport {
            turns: 0,
            sent: 0,
            keep_alives: 0,
            answered: 0,
            failed_receives: 0,
            failed_sends: 0,
            lost: false,
        }
    }
}

impl Add for DriveReport {
    ghost use Rattle.std.specs.Prelude.{◌≡◌};
    ghost use Rattle.oca_control.specs.Driving.{drive_report_sum, drive_report_capped};

    type Output = DriveReport;

    ghost add_gives = { λ a b r. r ≡ drive_report_capped (drive_report_sum a b) };

    /// What both did.
    fn add(self, rhs: DriveReport) -> DriveReport {
        DriveReport {
            turns: self.turns.saturating_add(rhs.turns),
            sent: self.sent.saturating_add(rhs.sent),
            keep_alives: self.keep_alives.saturating_add(rhs.keep_alives),
            answered: self.answered.saturating_add(rhs.answered),
            failed_receives: self.failed_receives.saturating_add(rhs.failed_receives),
            failed_sends: self.failed_sends.saturating_add(rhs.failed_sends),
            lost: self.lost || rhs.lost,
        }
    }
}
