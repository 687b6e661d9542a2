//! A panel to whose end strangers send.
use crate::tests::control::{DEVICE, GET_STATE, STRANGER};
use crate::tests::ending::{Ending, Entry, end_of};
use crate::tests::{Row, Said};
use oca_control::Outcome;
use oca_net::MemoryEnd;
use oca_panel::Panel;
use oca_types::{Handle, Span};

/// A stranger's datagram.
const JUNK: Entry = Entry::Datagram(STRANGER, &[0x3b], 10);

/// Strangers' datagrams, silence until the moment 300, and then the answer.
const FLOOD: Ending = delivers!(
    &[
        JUNK,
        JUNK,
        JUNK,
        JUNK,
        Entry::Quiet(300),
        Entry::Response(7, 400)
    ],
    32
);

/// For how many milliseconds a command waits, and whether it is answered.
pub struct Flooded(u32, bool);

/// A wait ends by its time alone.
pub const ROWS: &[Flooded] = &[
    Flooded(0, false),
    Flooded(300, false),
    Flooded(301, true),
    Flooded(10_500, true),
];

/// Whether a command is answered that waits for so many milliseconds.
fn is_answered(end: MemoryEnd, wait: u32) -> bool {
    let mut panel = Panel::open(DEVICE, end, Handle(7), Span::default(), wait);
    match panel.ask(GET_STATE) {
        Outcome::Answered(_) => true,
        _ => false,
    }
}

impl Row for Flooded {
    /// Whether the command is answered where it is to be.
    fn agrees(&self, said: &mut Said) -> bool {
        match end_of(said.alloc, FLOOD) {
            Some(end) => said.same(is_answered(end, self.0), self.1),
            None => false,
        }
    }
}
