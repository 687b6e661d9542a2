//! What the clauses leave open: commands that are sent over an end in memory, and readers and writers that give and
//! take a little at a time or fail. Whole runs of the program are rows of `tools/rows/ocactl.toml`.
use crate::tests::{Row, Said, all_agree, all_hold};
use oca_types::Peer;
use ocactl_cli::command::Arguments;

mod commands;
mod objects;
mod probes;
mod replay;

/// The device.
const DEVICE: Peer = Peer {
    ip: 0x7f00_0001,
    port: 65000,
};

/// A word behind `--hold`, and the time that it says, in milliseconds.
struct Holds(&'static str, Option<u64>);

impl Row for Holds {
    /// Whether it says this time.
    fn agrees(&self, said: &mut Said) -> bool {
        match Arguments::new(said.alloc, &["ocactl", "lock", "--hold", self.0, "4097"]) {
            Ok(given) => said.same(given.hold_ms, self.1),
            Err(_) => false,
        }
    }
}

const HOLDS: &[Holds] = &[
    Holds("30s", Some(30_000)),
    Holds("90m", Some(5_400_000)),
    Holds("1h", Some(3_600_000)),
    Holds("999999999h", Some(3_599_999_996_400_000)),
    Holds("0s", Some(0)),
    Holds("1234567890s", None),
    Holds("h", None),
    Holds("1d", None),
    Holds("4098", None),
];

/// Whatever a reader may give or a writer may take.
const NO_LIMIT: usize = usize::MAX;

#[test]
fn lines_are_answered_in_their_order(rt: HostRuntime) {
    all_agree(&rt, "lines, one at a time", commands::ONE_AT_A_TIME);
    all_agree(&rt, "lines, many at once", commands::AT_ONCE);
    all_agree(&rt, "lines behind which the end closes", commands::ENDING);
    all_agree(&rt, "lines that are cut off", commands::CUT_LINES);
}

#[test]
fn a_time_to_hold_is_read(rt: HostRuntime) {
    all_agree(&rt, "a time to hold is in seconds, minutes or hours", HOLDS);
}

#[test]
fn commands_go_on_while_no_line_comes(rt: HostRuntime) {
    all_agree(
        &rt,
        "what is in flight is driven while no line comes",
        commands::IDLE,
    );
    all_agree(&rt, "a read fails behind a pause", commands::IDLE_THEN_READ);
}

#[test]
fn a_command_ends_as_its_answer_says(rt: HostRuntime) {
    all_agree(&rt, "one command is asked", commands::ASKINGS);
    all_agree(
        &rt,
        "a command is driven whatever stands behind it",
        commands::BEHIND,
    );
    all_agree(&rt, "three mutes are set", objects::SETTINGS);
    all_agree(&rt, "what a probe finds", probes::FOUND);
    all_hold(
        &rt,
        "an answer without room is a failed write",
        &commands::Cut,
        0,
        14,
    );
}

#[test]
fn a_link_replays_wherever_it_is_cut(rt: HostRuntime) {
    all_agree(
        &rt,
        "a script is read and written in pieces",
        replay::PIECES,
    );
    all_agree(&rt, "a bad line ends a script", replay::FAULTS);
    all_hold(
        &rt,
        "wherever a reader fails",
        &replay::Reads,
        0,
        replay::EXCHANGE.len(),
    );
    all_hold(
        &rt,
        "wherever a writer fails",
        &replay::Writes,
        0,
        replay::EXCHANGED.len(),
    );
}
