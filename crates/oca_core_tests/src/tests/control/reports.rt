//! Reports that are added, and outcomes as text.
use crate::tests::{Row, Said, all_agree};
use oca_control::{ControlFault, DriveReport, Outcome, refused};

/// The last number of 64 bits.
const LAST: u64 = u64::MAX;

/// Two reports, and what both did.
struct Sum(DriveReport, DriveReport, DriveReport);

impl Row for Sum {
    /// Whether both did that.
    fn agrees(&self, said: &mut Said) -> bool {
        said.same(self.0 + self.1, self.2)
    }
}

/// Sums of reports.
const SUMS: &[Sum] = rows! {
    Sum(drove!(1, 2, 3, 4, 5, 6, false), drove!(10, 20, 30, 40, 50, 60, true), drove!(11, 22, 33, 44, 55, 66, true)),
    Sum(
        drove!(LAST, LAST, LAST, LAST, LAST, LAST, false),
        drove!(1, 1, 1, 1, 1, 1, false),
        drove!(LAST, LAST, LAST, LAST, LAST, LAST, false),
    ),
};

/// Why a link refuses a command, and how that reads.
struct Refusal(ControlFault, &'static str);

impl Row for Refusal {
    /// Whether it reads so.
    fn agrees(&self, said: &mut Said) -> bool {
        said.prints(&refused(self.0), self.1)
    }
}

/// What a link refuses, as a text.
const TEXTS: &[Refusal] = rows! {
    Refusal(ControlFault::Lost, "the link is lost"),
    Refusal(ControlFault::HandlesSpent, "not sent: no handle is left"),
    Refusal(ControlFault::TooLong, "not sent: the parameters are too long"),
};

#[test]
fn reports_add_up_and_refusals_have_words(rt: HostRuntime) {
    all_agree(&rt, "sums of reports", SUMS);
    all_agree(&rt, "words of refusals", TEXTS);
    // A report that nobody made is that of nothing.
    assert!(rt; DriveReport::default() == drove!(0, 0, 0, 0, 0, 0, false));
    assert!(rt; Said::new(rt.alloc()).prints(&Outcome::Unanswered, "not answered yet"));
}
