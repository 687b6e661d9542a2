//! Ends at UDP sockets, in one process: what is sent lies at the socket until it is received, so no thread is needed.
//! Each port is the system's choice. No clause says what goes through a socket, so these tests alone refuse an end that
//! always returns Quiet or Failed, that drops datagrams, or that sends nothing and returns true.
use super::{AtSockets, HELD, LARGEST, LOCALHOST, Machine, SocketEnd, hold, play, sends};
use crate::tests::{Agrees, Said};
use oca_net::{End, Heard};
use oca_types::{Packet, Peer};
use std::io::ErrorKind;
use std::net::{Ipv4Addr, UdpSocket};

/// The most bytes of a UDP datagram of IPv4.
const LONGEST: usize = 65507;

/// A socket of the script.
#[derive(Clone, Copy)]
pub enum Holder {
    /// An end.
    First,
    /// Another end.
    Second,
    /// A socket without an end.
    Plain,
    /// Port 0, at which there is none.
    Nobody,
    /// The address of every host, to which no one may send who does not ask for it.
    Everyone,
}

use Holder::*;

/// A call of a socket, and what it must answer.
#[derive(Clone, Copy)]
pub enum Step {
    /// The system granted the first end a send buffer of so many bytes at least.
    Granted(u32),
    /// The ends are bound to this machine, each to a port of its own.
    AreBound,
    /// A socket sends bytes to another: whether they are taken.
    Sends(Holder, Holder, &'static [u8], bool),
    /// A socket hears these bytes of another. Where it is an end the packet held a byte before.
    Hears(Holder, Holder, &'static [u8]),
    /// The first end hears a datagram as oversize, and the packet is empty.
    HearsOversize,
    /// Why the first end's last send failed, where one has. No receive has failed.
    LastFailure(Option<ErrorKind>),
}

use Step::*;

/// Where the socket is.
fn place(on: &Machine<'_>, who: Holder) -> Peer {
    match who {
        First => on.first.local(),
        Second => on.second.local(),
        Plain => peer!(on.plain_port),
        Nobody => peer!(0),
        Everyone => Peer {
            ip: 0xffff_ffff,
            port: 9,
        },
    }
}

/// Whether each end has an address of its own.
fn are_bound(first: Peer, second: Peer) -> bool {
    first.ip == LOCALHOST && first.port != 0 && first.port != second.port
}

/// Whether a send of a socket without an end takes all these bytes, or not.
fn plain_sends(plain: &UdpSocket, to: Peer, bytes: &[u8], taken: bool) -> bool {
    match plain.send_to(bytes, (Ipv4Addr::LOCALHOST, to.port)) {
        Ok(count) => (count == bytes.len()) == taken,
        Err(_) => false,
    }
}

/// Whether an end hears these bytes of this peer.
fn end_hears(
    end: &mut SocketEnd<'_>,
    packet: &mut Packet,
    peer: Peer,
    bytes: &[u8],
    said: &mut Said,
) -> bool {
    hold(packet, HELD);
    match end.receive(packet) {
        Heard::Datagram { from, .. } => said.same(from, peer)
            && said.same(packet.as_slice(), bytes),
        _ => false,
    }
}

/// Whether a socket without an end hears these bytes of this peer.
fn plain_hears(plain: &UdpSocket, peer: Peer, wanted: &[u8], said: &mut Said) -> bool {
    let mut bytes = [0; LARGEST + 1];
    match plain.recv_from(&mut bytes) {
        Ok((count, from)) => said.same(from.port(), peer.port)
            && said.same(bytes.get(..count), Some(wanted)),
        Err(_) => false,
    }
}

/// Whether an end hears a datagram as oversize, and the packet is empty.
fn hears_oversize(end: &mut SocketEnd<'_>, packet: &mut Packet) -> bool {
    hold(packet, HELD);
    match end.receive(packet) {
        Heard::Oversize { .. } => packet.is_empty(),
        _ => false,
    }
}

/// Whether the last send failed for this reason, or none has, and no receive has failed.
fn failed_for(end: &SocketEnd<'_>, wanted: Option<ErrorKind>, said: &mut Said) -> bool {
    let kind = match end.last_failed_send() {
        Some(reason) => Some(reason.kind()),
        None => None,
    };
    said.same(kind, wanted) && end.last_failed_receive().is_none()
}

/// Whether the socket sends these bytes there, and they are taken, or not.
fn is_sent(
    on: &mut Machine<'_>,
    who: Holder,
    to: Peer,
    bytes: &[u8],
    taken: bool,
    said: &mut Said,
) -> bool {
    match who {
        First => sends(&mut on.first, to, bytes, taken, said),
        Second => sends(&mut on.second, to, bytes, taken, said),
        Plain => plain_sends(&on.plain, to, bytes, taken),
        Nobody | Everyone => false,
    }
}

/// Whether the socket hears these bytes of this peer.
fn is_heard(on: &mut Machine<'_>, who: Holder, from: Peer, bytes: &[u8], said: &mut Said) -> bool {
    match who {
        First => end_hears(&mut on.first, &mut on.packet, from, bytes, said),
        Second => end_hears(&mut on.second, &mut on.packet, from, bytes, said),
        Plain => plain_hears(&on.plain, from, bytes, said),
        Nobody | Everyone => false,
    }
}

impl Agrees<Machine<'_>> for Step {
    /// Whether it is answered so.
    fn agrees(&self, on: &mut Machine<'_>, said: &mut Said) -> bool {
        match *self {
            Granted(least) => on.first.send_buffer() >= least,
            AreBound => are_bound(on.first.local(), on.second.local()),
            Sends(who, to, bytes, taken) => {
                let to = place(on, to);
                is_sent(on, who, to, bytes, taken, said)
            }
            Hears(who, from, bytes) => {
                let from = place(on, from);
                is_heard(on, who, from, bytes, said)
            }
            HearsOversize => hears_oversize(&mut on.first, &mut on.packet),
            LastFailure(reason) => failed_for(&on.first, reason, said),
        }
    }
}

// Datagrams wait at the socket, in order, while the other end is answered.
const EXCHANGE: &[Step] = &[
    AreBound,
    Sends(First, Second, &[1, 2, 3], true),
    Sends(First, Second, &[4], true),
    Hears(Second, First, &[1, 2, 3]),
    Sends(Second, First, &[5, 6], true),
    Hears(First, Second, &[5, 6]),
    Hears(Second, First, &[4]),
];

const AT_THE_LIMIT: &[Step] = &[
    Sends(Plain, First, &[9; LARGEST], true),
    Hears(First, Plain, &[9; LARGEST]),
    Sends(Plain, First, &[7; LARGEST + 1], true),
    HearsOversize,
];

const EMPTY_AND_LONGEST: &[Step] = &[
    Sends(Plain, First, &[], true),
    Hears(First, Plain, &[]),
    Sends(Plain, First, &[0; LONGEST], true),
    HearsOversize,
];

const WHOLE: &[Step] = &[
    Sends(First, Plain, &[3; LARGEST], true),
    Hears(Plain, First, &[3; LARGEST]),
];

// Of an empty datagram the system takes no byte, and the end sends it all the same.
const EMPTY: &[Step] = &[
    Sends(First, Plain, &[], true),
    Hears(Plain, First, &[]),
    LastFailure(None),
];

// A send to port 0 is refused, and one to every host, and the last one's reason is given. The end goes on.
const REFUSED: &[Step] = &[
    LastFailure(None),
    Sends(First, Nobody, &[1], false),
    LastFailure(Some(ErrorKind::InvalidInput)),
    Sends(First, Everyone, &[1], false),
    LastFailure(Some(ErrorKind::PermissionDenied)),
    Sends(First, First, &[1], true),
    Hears(First, First, &[1]),
];

// By default a system grants 212,992 bytes, as many as one neighbour that does not answer can hold, and doubles what is
// asked up to that.
const BUFFER: &[Step] = &[Granted(425_984)];

/// The scripts.
const SCRIPTS: &[AtSockets<'static, Step>] = &[
    AtSockets("two_ends_exchange_datagrams", EXCHANGE),
    AtSockets("hears_1472_bytes_whole_and_1473_as_oversize", AT_THE_LIMIT),
    AtSockets("hears_empty_and_longest_datagrams", EMPTY_AND_LONGEST),
    AtSockets("sends_1472_bytes_whole", WHOLE),
    AtSockets("sends_an_empty_datagram", EMPTY),
    AtSockets("a_send_that_the_system_refuses_is_false", REFUSED),
    AtSockets("a_send_buffer_is_asked_for", BUFFER),
];

#[test]
fn datagrams_come_whole_and_in_order(rt: HostRuntime) {
    play(&rt, &rt, SCRIPTS);
}
