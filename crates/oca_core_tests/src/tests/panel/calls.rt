//! A keep-alive beside a panel's link.
use super::{Answer, Asked, DEVICE, Over};
use crate::tests::Said;
use oca_net::{Heard, MemoryEnd};
use oca_panel::Panel;
use oca_types::{Packet, Peer};

/// A keep-alive of five seconds.
const KEEP_ALIVE: &[u8] = &[0x3b, 0, 1, 0, 0, 0, 11, 4, 0, 1, 0, 5];

/// The answer to a set: OK.
const DONE: &[Answer] = &[(0, 0, &[])];

/// What is heard behind a keep-alive.
pub struct Called(Heard);

impl Asked for Called {
    /// Whether a call sends a keep-alive and nothing else, and hears this, which the link does not take.
    fn comes_out(&self, panel: &mut Panel<MemoryEnd>, said: &mut Said) -> bool {
        let heard = panel.call(DEVICE);
        said.same(heard, self.0) && panel.answered().is_none() && is_one(panel.end().taken(), said)
    }
}

/// Whether this is a keep-alive for the device, and nothing else.
fn is_one(taken: &[(Peer, Packet)], said: &mut Said) -> bool {
    match taken {
        [(to, packet)] => said.same(*to, DEVICE) && said.same(packet.as_slice(), KEEP_ALIVE),
        _ => false,
    }
}

pub const ROWS: &[Over<Called>] = rows! {
    Over(DONE, 0, None, Called(Heard::Datagram { from: DEVICE, now: 10 })),
    Over(&[], 0, None, Called(Heard::Closed)),
};
