//! What the clauses leave open: that a call succeeds, and what goes through a socket. A script is a list of calls with
//! what each must answer, and an assertion tells which of them was answered otherwise.
mod memory;
mod moments;
mod refusals;
mod sockets;
mod stale;

use crate::tests::{Agrees, Said, agree_in_turn, fail};
use oca_net::{End, Heard, UdpEnd};
use oca_types::{Packet, Peer};
use std::net::{Ipv4Addr, UdpSocket};
use std::process::Abort;
use std::time::Instant;

/// 127.0.0.1.
const LOCALHOST: u32 = 0x7f00_0001;

const A: Peer = peer!(9001);

const B: Peer = peer!(9002);

/// The most bytes of a datagram.
const LARGEST: usize = 1472;

/// What a packet holds before a receive.
const HELD: &[u8] = &[1];

/// A packet that holds these bytes alone.
fn hold(packet: &mut Packet, bytes: &[u8]) {
    packet.clear();
    let _ = packet.try_extend_from_slice(bytes);
}

/// An end at a socket of this machine.
pub type SocketEnd<'a> = UdpEnd<'a, HostRuntime>;

/// An end on this machine, at a port of the system's choice.
pub fn end_here(rt: &HostRuntime) -> Option<SocketEnd<'_>> {
    UdpEnd::bind(rt.alloc(), rt, LOCALHOST, 0).ok()
}

/// Whether a send of at most so many bytes as a datagram has is taken, or not.
fn sends<E: End>(end: &mut E, to: Peer, bytes: &[u8], taken: bool, said: &mut Said) -> bool {
    bytes.len() <= LARGEST && said.same(end.send(to, bytes), taken)
}

/// What loops ask of any end: its moment, what it hears until then, and its moment then.
fn heard_by_now<E: End>(end: &mut E, packet: &mut Packet) -> (u64, Heard, u64) {
    let before = end.now();
    let heard = end.receive_by(packet, before);
    (before, heard, end.now())
}

/// Two ends and a socket without one, the port of that, a packet, and the clock before they were bound, and after.
#[derive(Drop)]
pub struct Machine<'a> {
    rt: &'a HostRuntime,
    before: Instant,
    bound: Instant,
    first: SocketEnd<'a>,
    second: SocketEnd<'a>,
    plain: UdpSocket,
    plain_port: u16,
    packet: Packet,
}

/// The clock.
fn instant(rt: &HostRuntime) -> Option<Instant> {
    match Instant::now(rt) {
        Ok(now) => Some(now),
        Err(_) => None,
    }
}

/// The port of a socket without an end.
fn port_of(plain: &UdpSocket) -> Option<u16> {
    match plain.local_addr() {
        Ok(address) => Some(address.port()),
        Err(_) => None,
    }
}

/// New sockets; none where the system has none, or no clock.
fn bound(rt: &HostRuntime) -> Option<Machine<'_>> {
    let before = instant(rt)?;
    let (Some(first), Some(second), Ok(plain)) = (
        end_here(rt),
        end_here(rt),
        UdpSocket::bind(rt, (Ipv4Addr::LOCALHOST, 0u16)),
    ) else {
        return None;
    };
    let (Some(bound), Some(plain_port)) = (instant(rt), port_of(&plain)) else {
        return None;
    };
    Some(Machine {
        rt,
        before,
        bound,
        first,
        second,
        plain,
        plain_port,
        packet: Packet::new(),
    })
}

/// Calls of new sockets, by their name.
struct AtSockets<'s, C>(&'s str, &'s [C]);

/// The first call that is answered otherwise at new sockets; the last number where there are no sockets.
fn wrong_call<'a, C: Agrees<Machine<'a>>>(rt: &'a HostRuntime, calls: &[C]) -> Option<usize> {
    let mut said = Said::new(rt.alloc());
    match bound(rt) {
        Some(mut on) => {
            if agree_in_turn(&mut on, calls, &mut said) {
                None
            } else {
                Some(said.step)
            }
        }
        None => Some(usize::MAX),
    }
}

/// Plays scripts: each call is answered as they say.
fn play<'a, 's, C: Agrees<Machine<'a>>>(
    abort: &impl Abort,
    rt: &'a HostRuntime,
    scripts: &[AtSockets<'s, C>],
) {
    for script in scripts {
        if let Some(step) = wrong_call(rt, script.1) {
            let mut said = Said::new(rt.alloc());
            said.step = step;
            fail(abort, script.0, &said);
        }
    }
}
