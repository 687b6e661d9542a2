//! Reports that are added, and verdicts as text.
use super::NOTHING;
use crate::tests::{Row, Said, Words, all_agree};
use oca_device::{Report, Verdict};

/// A report of these numbers.
macro_rules! numbers {
    ($a:expr, $b:expr, $c:expr, $d:expr, $e:expr, $f:expr, $g:expr, $h:expr, $i:expr, $j:expr, $k:expr) => {
        Report {
            turns: $a,
            executed: $b,
            kept: $c,
            old: $d,
            reused: $e,
            malformed: $f,
            no_room: $g,
            oversize: $h,
            quiet: $i,
            failed_receives: $j,
            failed_sends: $k,
        }
    };
}

/// The last number of 64 bits.
const LAST: u64 = u64::MAX;

/// Two reports, and what both did.
struct Sum(Report, Report, Report);

impl Row for Sum {
    /// Whether both did this.
    fn agrees(&self, said: &mut Said) -> bool {
        said.same(self.0 + self.1, self.2)
    }
}

/// Reports, and their sums.
const SUMS: &[Sum] = rows! {
    Sum(
        numbers!(1, 2, 3, 4, 5, 6, 7, 8, 9, 10, 11),
        numbers!(100, 200, 300, 400, 500, 600, 700, 800, 900, 1000, 1100),
        numbers!(101, 202, 303, 404, 505, 606, 707, 808, 909, 1010, 1111),
    ),
    Sum(
        numbers!(LAST, LAST, LAST, LAST, LAST, LAST, LAST, LAST, LAST, LAST, LAST),
        numbers!(1, 1, 1, 1, 1, 1, 1, 1, 1, 1, 1),
        numbers!(LAST, LAST, LAST, LAST, LAST, LAST, LAST, LAST, LAST, LAST, LAST),
    ),
};

/// Verdicts, and how they read.
const TEXTS: &[Words<Verdict>] = rows! {
    Words(served!(1, 2, 3, 4), "1 executed, 2 duplicates, 3 too old, 4 under a handle that was used"),
    Words(Verdict::NoRoom, "no room for a session"),
};

#[test]
fn reports_add_up_and_verdicts_have_words(rt: HostRuntime) {
    all_agree(&rt, "sums of reports", SUMS);
    all_agree(&rt, "words of verdicts", TEXTS);
    // A report that nobody made is that of nothing.
    assert!(rt; Report::default() == NOTHING);
}
