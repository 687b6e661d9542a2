//! Whether a host refuses a port, and whether this machine has lost an address.
use crate::reason::{lacks_address, reason_of};
use oca_types::Peer;
use std::io;
use std::net::{Net, SocketAddrV4, UdpSocket};
use std::time::Duration;

/// How long a refusal is awaited, in milliseconds.
const WAIT_MS: u64 = 200;

/// Returns whether the host of the peer `peer` refuses datagrams to the peer's port, as it does if no program has the
/// port. `rt` is the program's access to the system's network. `ip` is an IPv4 address of this machine as a number, the
/// first byte highest. 0 means all addresses of the machine.
///
/// The call binds a socket of its own at `ip` and a port of the system's choice, and closes it at the end. It sends the
/// peer one empty datagram, which a device of this profile ignores as malformed, and waits for at most 200 ms. The
/// result is:
/// - `true` if the refusal came.
/// - `false` if none came within 200 ms, or a call of the system failed. Nothing is then known.
pub fn is_refused<R: Net>(rt: &R, ip: u32, peer: Peer) -> bool {
    match ask(rt, Peer { ip, port: 0 }, peer) {
        Ok(_) => false,
        Err(reason) => reason.kind() == io::ErrorKind::ConnectionRefused,
    }
}

/// Returns whether this machine no longer has the address `ip`, an IPv4 address as a number, the first byte highest.
/// `rt` is the program's access to the system's network. The call binds a socket at `ip` and a port of the system's
/// choice, closes it, and sends nothing. The result is:
/// - `true` if the system says that the address is not available. Each send of an end that was bound at this address
///   then fails.
/// - `false` if the socket can be bound, also at an address whose interface is down. The system may then send by
///   another interface.
/// - `false` if the system refuses the socket for another reason. Nothing is then known.
pub fn is_gone<R: Net>(rt: &R, ip: u32) -> bool {
    let bound = UdpSocket::bind(rt, SocketAddrV4::from(Peer { ip, port: 0 }));
    lacks_address(reason_of(&bound))
}

/// Sends the peer an empty datagram from this address, and receives, over a socket that is connected to the peer: only
/// such a socket is told of refusals.
fn ask<R: Net>(rt: &R, own: Peer, peer: Peer) -> io::Result<usize> {
    let socket = UdpSocket::bind(rt, SocketAddrV4::from(own))?;
    socket.connect(SocketAddrV4::from(peer))?;
    socket.set_read_timeout(Some(Duration::from_millis(WAIT_MS)))?;
    socket.send(&[])?;
    socket.recv(&mut [0])
}
