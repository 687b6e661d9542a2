//! Whether a device answers the commands of a port.
use super::DEVICE;
use crate::tests::coming::Coming::{self, Datagram};
use crate::tests::coming::end;
use crate::tests::{Row, Said};
use oca_panel::{Probed, Watched, probe};
use oca_types::{Handle, Peer};

const STRANGER: Peer = Peer {
    ip: 0x7f00_0001,
    port: 65009,
};

/// A keep-alive of five seconds.
const ALIVE: &[u8] = b"\x3b\x00\x01\x00\x00\x00\x0b\x04\x00\x01\x00\x05";

/// The answer to a command under handle 7.
const ANSWER: &[u8] =
    b"\x3b\x00\x01\x00\x00\x00\x13\x03\x00\x01\x00\x00\x00\x0a\x00\x00\x00\x07\x00\x00";

/// What comes from where, and what is found by it.
pub struct Finds(&'static [Coming], Probed);

pub const FOUND: &[Finds] = &[
    Finds(&[], Probed::NotHeard),
    Finds(&[Datagram(DEVICE, ALIVE, 10)], Probed::NotAnswering),
    Finds(
        &[Datagram(DEVICE, ALIVE, 10), Datagram(DEVICE, ANSWER, 10)],
        Probed::Answering,
    ),
    Finds(&[Datagram(DEVICE, ANSWER, 10)], Probed::Answering),
    Finds(
        &[
            Datagram(STRANGER, ANSWER, 10),
            Datagram(STRANGER, ALIVE, 10),
        ],
        Probed::NotHeard,
    ),
];

impl Row for Finds {
    /// Whether this is found of a device, by what comes from it.
    fn agrees(&self, said: &mut Said) -> bool {
        match end(said.alloc, self.0, 64, None) {
            Some(end) => probe(&mut Watched::new(end, DEVICE), DEVICE, Handle(7)) == self.1,
            None => false,
        }
    }
}
