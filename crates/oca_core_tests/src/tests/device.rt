//! Devices run alone, event by event. A script is a list of events with what must come of each. Expected bytes are
//! those of AES70-3's layouts, written out or put together here, and never the device's own. Scripts of which datagrams
//! and answers show all are rows of `tools/rows/ocadev.toml`.

/// The verdict on so many commands that are executed, duplicates, too old, and under a handle that was used.
macro_rules! served {
    ($executed:expr, $kept:expr, $old:expr, $reused:expr) => {
        Verdict::Served { executed: $executed, kept: $kept, old: $old, reused: $reused }
    };
}

/// The verdict on a datagram that is malformed in this way at this byte.
macro_rules! malformed {
    ($kind:ident, $at:expr) => { Verdict::Malformed(PduFault { kind: PduFaultKind::$kind, at: $at }) };
}

/// What is reported of so many turns, commands, duplicates and silences, and of what is named behind them.
macro_rules! report {
    ($turns:expr, $executed:expr, $kept:expr, $quiet:expr $(, $field:ident: $count:expr)*) => {
        Report { turns: $turns, executed: $executed, kept: $kept, quiet: $quiet $(, $field: $count)*, ..NOTHING }
    };
}

mod bounded;
mod events;
mod keeping;
mod order;
pub mod parts;
mod reports;
mod serving;
mod small;

use crate::tests::{Said, sizes};
use oca_device::{Device, Outbox, Report, Verdict};
use oca_pdu::{PduFault, PduFaultKind};
use oca_tree::bench;
use oca_types::{Peer, Window};
use parts::{Part, is_of};
use std::alloc::Global;

/// The first peer.
const A: Peer = peer!(9001);

/// The second.
const B: Peer = peer!(9002);

/// GetState of 4097 under handle 1.
const GET: Part = Part::Bytes(&[
    0x3b, 0, 1, 0, 0, 0, 0x1a, 1, 0, 1, 0, 0, 0, 0x11, 0, 0, 0, 1, 0, 0, 0x10, 1, 0, 4, 0, 1, 0,
]);

/// Its response, Muted.
const MUTED: Part = Part::Bytes(&[
    0x3b, 0, 1, 0, 0, 0, 0x14, 3, 0, 1, 0, 0, 0, 0x0b, 0, 0, 0, 1, 0, 1, 1,
]);

/// A keep-alive of 1 second.
const ONE_SECOND: Part = Part::Bytes(&[0x3b, 0, 1, 0, 0, 0, 0x0b, 4, 0, 1, 0, 1]);

const EXECUTED: Verdict = served!(1, 0, 0, 0);

const KEPT: Verdict = served!(0, 1, 0, 0);

/// The verdict on a datagram of no bytes.
const EMPTY: Verdict = malformed!(Empty, 0);

/// What is reported where nothing was done.
const NOTHING: Report = Report {
    turns: 0,
    executed: 0,
    kept: 0,
    old: 0,
    reused: 0,
    malformed: 0,
    no_room: 0,
    oversize: 0,
    quiet: 0,
    failed_receives: 0,
    failed_sends: 0,
};

/// What the device of a script is made of.
#[derive(Clone, Copy)]
pub enum Setup {
    /// The bench objects, with windows of so many commands.
    Window(u8),
    /// The bench objects, with windows of one command and sessions of at most so many peers.
    Peers(u8),
}

/// The device of this setup.
pub fn device_of(alloc: Global, setup: Setup) -> Option<Device> {
    match (bench(alloc), setup) {
        (Ok(tree), Setup::Window(size)) => Device::new(alloc, tree, Window::new(size)?).ok(),
        (Ok(tree), Setup::Peers(count)) => Device::with_sizes(alloc, tree, sizes(count)?).ok(),
        (Err(_), _) => None,
    }
}

/// Whether the outbox holds these packets.
fn holds(outbox: &Outbox, packets: &[&[Part]], said: &mut Said) -> bool {
    for (at, parts) in packets.iter().enumerate() {
        match outbox.get(at) {
            Some(packet) => {
                if !is_of(packet.as_slice(), parts, said) {
                    return false;
                }
            }
            None => return false,
        }
    }
    said.same(outbox.len(), packets.len())
}
