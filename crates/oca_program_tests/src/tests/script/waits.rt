//! Waiting for two descriptors, here of sockets. No clause says what the system's `poll` does, so these tests alone
//! refuse a wait that takes one descriptor for the other, that waits though there is something, or that does not wait.
use oca_wait::{Ready, is_terminal, wait_for};
use std::net::{Ipv4Addr, UdpSocket};
use std::os::fd::{AsRawFd, RawFd};
use std::time::Instant;

/// A socket that was sent a datagram or not, and whether it is waited for.
#[derive(Clone, Copy)]
struct Side {
    has: bool,
    is_asked: bool,
}

const EMPTY: Side = Side {
    has: false,
    is_asked: true,
};

const FULL: Side = Side {
    has: true,
    is_asked: true,
};

const UNASKED: Side = Side {
    has: true,
    is_asked: false,
};

/// Sends a datagram to a socket of its own, where the side says so.
fn is_filled(socket: &UdpSocket, side: Side) -> bool {
    if !side.has {
        return true;
    }
    match socket.local_addr() {
        Ok(own) => socket.send_to(&[1], own).is_ok(),
        Err(_) => false,
    }
}

/// A socket of this machine, which has a datagram where the side says so.
fn socket_of(rt: &HostRuntime, side: Side) -> Option<UdpSocket> {
    let socket = UdpSocket::bind(rt, (Ipv4Addr::LOCALHOST, 0u16)).ok()?;
    if is_filled(&socket, side) {
        Some(socket)
    } else {
        None
    }
}

/// The descriptor, where it is waited for.
fn asked(socket: &UdpSocket, side: Side) -> Option<RawFd> {
    if side.is_asked {
        Some(socket.as_raw_fd())
    } else {
        None
    }
}

/// Which descriptor has something within so many milliseconds, and whether less than those went by.
fn waited(
    rt: &HostRuntime,
    input: Option<RawFd>,
    beside: Option<RawFd>,
    time: u64,
) -> Option<(bool, bool, bool)> {
    let begun = Instant::now(rt).ok()?;
    let Ready { input, beside } = wait_for(input, beside, time).ok()?;
    let took = begun.elapsed(rt).ok()?.as_millis();
    Some((input, beside, took < u128::from(time)))
}

/// The sides of a row, how long is waited, and what that answers.
type Row = (Side, Side, u64, (bool, bool, bool));

/// Whether the row is answered so with this socket for its first side.
fn is_so_with(rt: &HostRuntime, first: &UdpSocket, row: Row) -> bool {
    let (input, beside, time, wanted) = row;
    match socket_of(rt, beside) {
        Some(second) => {
            waited(rt, asked(first, input), asked(&second, beside), time) == Some(wanted)
        }
        None => false,
    }
}

/// Whether the row is answered so.
fn is_so(rt: &HostRuntime, row: Row) -> bool {
    match socket_of(rt, row.0) {
        Some(first) => is_so_with(rt, &first, row),
        None => false,
    }
}

/// The first row that is answered otherwise.
fn first_wrong(rt: &HostRuntime, rows: &[Row]) -> Option<usize> {
    for (at, row) in rows.iter().enumerate() {
        if !is_so(rt, *row) {
            return Some(at);
        }
    }
    None
}

// Where one has something the wait ends long before its time; where none has, or none is asked for, it takes that.
const WAITS: &[Row] = &[
    (FULL, EMPTY, 20_000, (true, false, true)),
    (EMPTY, FULL, 20_000, (false, true, true)),
    (FULL, FULL, 20_000, (true, true, true)),
    (UNASKED, FULL, 20_000, (false, true, true)),
    (FULL, UNASKED, 20_000, (true, false, true)),
    (EMPTY, EMPTY, 60, (false, false, false)),
    (UNASKED, EMPTY, 60, (false, false, false)),
    (EMPTY, UNASKED, 60, (false, false, false)),
    (UNASKED, UNASKED, 60, (false, false, false)),
    (EMPTY, EMPTY, 0, (false, false, false)),
];

#[test]
fn two_descriptors_are_waited_for(rt: HostRuntime) {
    assert_eq!(rt; first_wrong(&rt, WAITS), None);
}

/// Whether a socket is no terminal.
fn is_no_terminal(rt: &HostRuntime) -> Option<bool> {
    Some(!is_terminal(socket_of(rt, EMPTY)?.as_raw_fd()))
}

#[test]
fn a_socket_is_no_terminal(rt: HostRuntime) {
    assert_eq!(rt; is_no_terminal(&rt), Some(true));
}
