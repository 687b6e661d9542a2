//! The device at a socket.
use super::Trial;
use crate::tests::fakes::ShortWriter;
use crate::tests::{Row, Said};
use oca_device::{Device, Outbox, Report, serve};
use oca_net::{End, Heard, UdpEnd};
use oca_script::Printer;
use oca_types::{LOOPBACK, Packet, Peer};
use ocadev_cli::report::print_report;
use std::net::Net;
use std::rt::Clock;

// Each count stands behind its name.
const REPORT: Report = Report {
    turns: 18_446_744_073_709_551_615,
    executed: 2,
    kept: 3,
    old: 4,
    reused: 5,
    malformed: 6,
    no_room: 7,
    oversize: 8,
    quiet: 12_345_678_909,
    failed_receives: 10,
    failed_sends: 11,
};

const REPORTED: &[u8] =
    b"turns 18446744073709551615 executed 2 kept 3 old 4 reused 5 malformed 6 no-room 7 oversize 8 quiet 12345678909 \
    failed-receives 10 failed-sends 11\n";

/// A report, and as what it is printed.
pub struct Reported(Report, &'static [u8]);

pub const REPORTS: &[Reported] = &[Reported(REPORT, REPORTED)];

impl Row for Reported {
    /// Whether the report is printed so.
    fn agrees(&self, said: &mut Said) -> bool {
        let mut to = Printer::new(ShortWriter::new(1000, usize::MAX));
        said.same(print_report(&self.0, &mut to), Ok(()))
            && said.same_text(to.sink().taken.as_slice(), self.1)
    }
}

/// GetState of 4097 under handle 1.
const GET: &[u8; 27] =
    b"\x3b\x00\x01\x00\x00\x00\x1a\x01\x00\x01\x00\x00\x00\x11\x00\x00\x00\x01\x00\x00\x10\x01\x00\x04\x00\x01\x00";

/// What happens at a socket of a device and at one of an asker.
#[derive(Clone, Copy)]
enum Step {
    /// The asker sends the command under this handle.
    Asks(u8),
    /// The device is served for so many turns, and executes so many commands.
    Executes(u32, u64),
    /// The device is served for so many turns, and so many are quiet.
    IsQuiet(u32, u64),
    /// The asker hears the answer under this handle.
    Hears(u8),
}

use Step::*;

/// Sends the command under a handle.
fn asks<E: End>(asker: &mut E, to: Peer, handle: u8) -> bool {
    let mut get = *GET;
    get[17] = handle;
    asker.send(to, &get)
}

/// Hears an answer under a handle.
fn hears<E: End>(asker: &mut E, handle: u8, said: &mut Said) -> bool {
    let mut packet = Packet::new();
    let heard = asker.receive(&mut packet);
    matches!(heard, Heard::Datagram { .. })
        && said.same(packet.len(), 21)
        && said.same(packet.as_slice().get(17).copied(), Some(handle))
}

/// Whether a step of the device goes so at its end.
fn serves<E: End>(
    device: &mut Device,
    outbox: &mut Outbox,
    end: &mut E,
    step: Step,
    said: &mut Said,
) -> bool {
    match step {
        Executes(turns, count) => said.same(serve(device, end, outbox, turns).executed, count),
        IsQuiet(turns, count) => said.same(serve(device, end, outbox, turns).quiet, count),
        Asks(_) | Hears(_) => false,
    }
}

/// Whether a step of the asker goes so.
fn asks_or_hears<E: End>(asker: &mut E, at: Peer, step: Step, said: &mut Said) -> bool {
    match step {
        Asks(handle) => asks(asker, at, handle),
        Hears(handle) => hears(asker, handle, said),
        Executes(..) | IsQuiet(..) => false,
    }
}

/// Whether each step goes so between a device's end, which is at this peer, and an asker's.
fn go_so<E: End, F: End>(
    device: &mut Device,
    outbox: &mut Outbox,
    end: &mut E,
    asker: &mut F,
    at: Peer,
    said: &mut Said,
) -> bool {
    for step in TURNS {
        if !asks_or_hears(asker, at, *step, said) && !serves(device, outbox, end, *step, said) {
            return false;
        }
    }
    true
}

/// The same for an asker at a socket of its own.
fn go_so_at<N: Net + Clock, E: End>(
    system: &N,
    device: &mut Device,
    outbox: &mut Outbox,
    end: &mut E,
    at: Peer,
    said: &mut Said,
) -> bool {
    match UdpEnd::bind(said.alloc, system, LOOPBACK, 0) {
        Ok(mut asker) => go_so(device, outbox, end, &mut asker, at, said),
        Err(_) => false,
    }
}

/// A device and an asker, each at a socket.
#[derive(Drop)]
pub struct AtSockets<'a, N: Net + Clock> {
    pub system: &'a N,
}

impl<N: Net + Clock> Trial for AtSockets<'_, N> {
    /// Whether each step goes so between two sockets.
    fn goes(&mut self, device: &mut Device, outbox: &mut Outbox, said: &mut Said) -> bool {
        let system = self.system;
        match UdpEnd::bind(said.alloc, system, LOOPBACK, 0) {
            Ok(mut end) => {
                let at = end.local();
                go_so_at(system, device, outbox, &mut end, at, said)
            }
            Err(_) => false,
        }
    }
}

// Turn by turn: no thread, since what is sent lies at the socket.
const TURNS: &[Step] = &[
    Asks(1),
    Asks(2),
    Asks(3),
    Asks(4),
    Asks(5),
    Asks(6),
    Asks(7),
    Asks(8),
    Asks(9),
    Asks(10),
    Asks(11),
    Asks(12),
    Asks(13),
    Asks(14),
    Asks(15),
    Asks(16),
    Executes(16, 16),
    IsQuiet(1, 1),
    Hears(1),
    Hears(2),
    Hears(3),
    Hears(4),
    Hears(5),
    Hears(6),
    Hears(7),
    Hears(8),
    Hears(9),
    Hears(10),
    Hears(11),
    Hears(12),
    Hears(13),
    Hears(14),
    Hears(15),
    Hears(16),
];
