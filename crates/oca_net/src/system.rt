//! Calls of the system whose doing no clause tells. Each function does one of them, and decides nothing.
ghost use Rattle.std.specs.Prelude.{◌≡◌, ◌≤◌, IfOk, IfErr, IsSome, None, Some, length};
ghost use Rattle.std.specs.IoError.{raw_os_error};
ghost use Rattle.oca_net.specs.Ends.{one_more};
ghost use Rattle.oca_net.specs.Moments.{milliseconds_of};
ghost use Rattle.oca_net.specs.PrivateMoments.{wait_of};
ghost use Rattle.oca_net.specs.Sockets.{reason_of, signals_after};

use crate::count::step;
use crate::reason::{is_interrupted, reason_of};
use libc::clock_gettime;
use libc::net::{
    AF_INET, MSG_DONTWAIT, MSG_NOSIGNAL, SO_SNDBUF, SOL_SOCKET, getsockopt, sendto, setsockopt,
};
use libc::types::timespec;
use std::net::{Ipv4Addr, Net, SocketAddr, SocketAddrV4, UdpSocket};
use std::os::fd::{AsFd, AsRawFd, BorrowedFd, RawFd};
use std::rt::Clock;
use std::time::{Duration, Instant};
use std::{io, thread};

/// Linux's CLOCK_BOOTTIME.
const SINCE_BOOT: i32 = 7;

/// The clock and the socket of an end. No one else writes its fields: its calls are numbered, a look at the clock, a
/// receive and a send each, and the fields say of the last of each kind what it was asked and what it gave.
#[derive(Drop)]
pub(crate) struct System<'a, C: Clock> {
    clock: &'a C,
    start: Instant,
    socket: UdpSocket,
    /// How many calls there were.
    calls: u64,
    /// The number of the last look at the clock.
    looked: u64,
    /// The time since the start that it gave; none where the clock could not be read.
    reading: Duration,
    /// The timeout that the socket was given last, in milliseconds; 0 before the first.
    timeout: u64,
    /// Whether the socket's calls wait.
    blocking: bool,
    /// The number of the last receive.
    received: u64,
    /// How long it was let wait, in milliseconds.
    waited: u64,
    /// How many bytes of the last datagram that was handed over were taken, where it was.
    taken: Option<usize>,
    /// The reason that the system gave where the last receive or send failed, or where the time to wait could not be
    /// set for the receive.
    refused: Option<io::Error>,
    /// How many receives and sends a signal interrupted.
    signals: u64,
}

impl<'a, C: Clock> System<'a, C> {
    /// A socket that is bound here, whose calls wait, and a start of the clock. No calls so far.
    pub(crate) fn open(rt: &'a C, address: SocketAddrV4) -> io::Result<System<'a, C>>
    where
        C: Net,
        ensures calls { IfOk result (λ s. s.calls ≡ 0) }
        ensures looked { IfOk result (λ s. s.looked ≡ 0) }
        ensures reading { IfOk result (λ s. milliseconds_of s.reading ≡ 0) }
        ensures received { IfOk result (λ s. s.received ≡ 0) }
        ensures taken { IfOk result (λ s. s.taken ≡ None) }
        ensures refused { IfOk result (λ s. s.refused ≡ None) }
        ensures signals { IfOk result (λ s. s.signals ≡ 0) }
    {
        let socket = UdpSocket::bind(rt, address)?;
        let start = Instant::now(rt)?;
        Ok(System {
            clock: rt,
            start,
            socket,
            calls: 0,
            looked: 0,
            reading: Duration::ZERO,
            timeout: 0,
            blocking: true,
            received: 0,
            waited: 0,
            taken: None,
            refused: None,
            signals: 0,
        })
    }

    /// The time since the start, which is not counted as a look.
    pub(crate) fn peek(&self) -> Duration {
        self.start.elapsed(self.clock).unwrap_or(Duration::ZERO)
    }

    /// Looks at the clock: the time since the start.
    pub(crate) fn look(&mut self) -> Duration
        ensures returned { result ≡ self.new.reading }
        ensures new { self.new ≡ record self.old {
          calls = one_more self.old.calls;
          looked = one_more self.old.calls;
          reading = self.new.reading;
        } }
    {
        self.reading = self.peek();
        step(&mut self.calls);
        self.looked = self.calls;
        self.reading
    }

    /// Sleeps for so long.
    pub(crate) fn sleep(&self, time: Duration) {
        thread::sleep(self.clock, time);
    }

    /// Where the socket is bound.
    pub(crate) fn local(&self) -> io::Result<SocketAddr> {
        self.socket.local_addr()
    }

    /// The timeout that the socket was given last, in milliseconds; 0 before the first.
    pub(crate) fn timeout(&self) -> u64
        ensures { result ≡ self.now.timeout }
    {
        self.timeout
    }

    /// Whether the socket's calls wait.
    pub(crate) fn is_blocking(&self) -> bool
        ensures { result ≡ self.now.blocking }
    {
        self.blocking
    }

    /// Gives the timeout of the socket's receives, in milliseconds. Notes the reason where that fails.
    pub(crate) fn set_timeout(&mut self, timeout: u64) -> io::Result<()>
        ensures ok { IfOk result (λ _. self.new ≡ record self.old { timeout = timeout }) }
        ensures err { IfErr result (λ e. self.new ≡ record self.old { refused = Some e }) }
    {
        let time = Duration::from_millis(timeout);
        match self.socket.set_read_timeout(Some(time)) {
            Ok(()) => {
                self.timeout = timeout;
                Ok(())
            }
            Err(reason) => {
                self.refused = Some(reason);
                Err(reason)
            }
        }
    }

    /// Lets the socket's calls wait, or not. Notes the reason where that fails.
    pub(crate) fn set_blocking(&mut self, blocking: bool) -> io::Result<()>
        ensures ok { IfOk result (λ _. self.new ≡ record self.old { blocking = blocking }) }
        ensures err { IfErr result (λ e. self.new ≡ record self.old { refused = Some e }) }
    {
        match self.socket.set_nonblocking(!blocking) {
            Ok(()) => {
                self.blocking = blocking;
                Ok(())
            }
            Err(reason) => {
                self.refused = Some(reason);
                Err(reason)
            }
        }
    }

    /// Receives a datagram: its length, cut to the buffer's, and its sender.
    pub(crate) fn receive(&mut self, buffer: &mut [u8]) -> io::Result<(usize, SocketAddr)>
        ensures new { self.new ≡ record self.old {
          calls = one_more self.old.calls;
          received = one_more self.old.calls;
          waited = wait_of self.old.blocking self.old.timeout;
          refused = self.new.refused;
          signals = signals_after self.new.refused self.old.signals;
        } }
        ensures length { IfOk result (λ d. d.0 ≤ length buffer.new) }
        ensures gave { IfOk result (λ d. self.new.refused ≡ None) }
        ensures refused { IfErr result (λ e. self.new.refused ≡ Some e) }
        ensures reason { self.new.refused ≡ reason_of result }
    {
        step(&mut self.calls);
        self.received = self.calls;
        self.waited = if self.blocking { self.timeout } else { 0 };
        let received = self.socket.recv_from(buffer);
        self.note(reason_of(&received));
        received
    }

    /// Hands a datagram over, and does not wait for room: how many of its bytes were taken.
    pub(crate) fn send(&mut self, bytes: &[u8], to: SocketAddrV4) -> io::Result<usize>
        ensures taken { IfOk result (λ n. self.new.taken ≡ Some n) }
        ensures failed { IfErr result (λ _. self.new.taken ≡ None) }
        ensures refused { IfErr result (λ e. self.new.refused ≡ Some e) }
        ensures gave { IfOk result (λ n. self.new.refused ≡ None) }
        ensures reason { self.new.refused ≡ reason_of result }
        ensures new { self.new ≡ record self.old {
          calls = one_more self.old.calls;
          taken = self.new.taken;
          refused = self.new.refused;
          signals = signals_after self.new.refused self.old.signals;
        } }
    {
        step(&mut self.calls);
        let sent = send_now(self.socket.as_raw_fd(), bytes, to);
        self.taken = match &sent {
            Ok(count) => Some(*count),
            Err(_) => None,
        };
        self.note(reason_of(&sent));
        sent
    }

    /// Notes why a receive or a send failed, where it did, and counts it where a signal interrupted it.
    fn note(&mut self, reason: Option<io::Error>)
        ensures { self.new ≡ record self.old { refused = reason; signals = signals_after reason self.old.signals } }
    {
        self.refused = reason;
        if is_interrupted(reason) {
            step(&mut self.signals);
        }
    }
}

impl<C: Clock> AsFd for System<'_, C> {
    /// The descriptor, borrowed.
    fn as_fd(&self) -> BorrowedFd<'_> {
        self.socket.as_fd()
    }
}

impl<C: Clock> AsRawFd for System<'_, C> {
    /// The number of the descriptor.
    fn as_raw_fd(&self) -> RawFd {
        self.socket.as_raw_fd()
    }
}

/// The address, with a port, from which the system reaches a peer: where a socket is that it connected to the peer. It
/// has sent nothing, and is closed.
pub(crate) fn local_towards<R: Net>(rt: &R, peer: SocketAddrV4) -> io::Result<SocketAddr> {
    let socket = UdpSocket::bind(rt, SocketAddrV4::new(Ipv4Addr::UNSPECIFIED, 0))?;
    socket.connect(peer)?;
    socket.local_addr()
}

/// Asks for a send buffer of so many bytes. What the system grants, `send_buffer` tells.
pub(crate) fn ask_send_buffer(socket: RawFd, bytes: u32) -> io::Result<()> {
    let mut value = [0u8; 16];
    value[..4].copy_from_slice(&bytes.to_ne_bytes());
    let status = unsafe { setsockopt(socket, SOL_SOCKET, SO_SNDBUF, &value, 4) };
    done(status)
}

/// How many bytes the system grants the send buffer.
pub(crate) fn send_buffer(socket: RawFd) -> io::Result<u32> {
    let mut value = [0u8; 16];
    let mut len = 4;
    let status = unsafe { getsockopt(socket, SOL_SOCKET, SO_SNDBUF, &mut value, &mut len) };
    done(status)?;
    Ok(u32::from_ne_bytes([value[0], value[1], value[2], value[3]]))
}

/// Hands a datagram to the system, and does not wait for room: how many of its bytes were taken.
fn send_now(socket: RawFd, bytes: &[u8], to: SocketAddrV4) -> io::Result<usize>
    ensures most { IfOk result (λ n. n ≤ length bytes.now) }
    ensures reason { IfErr result (λ e. IsSome (raw_os_error e)) }
{
    let address = address_for_c(to);
    let taken = unsafe { sendto(socket, bytes, MSG_NOSIGNAL | MSG_DONTWAIT, &address, 16) };
    if taken < 0 {
        return Err(io::Error::from_raw_os_error(os::errno()));
    }
    Ok(taken as usize)
}

/// The time since the machine was started, its sleep included.
pub(crate) fn time_since_boot() -> io::Result<Duration> {
    let mut time = timespec {
        tv_sec: 0,
        tv_nsec: 0,
    };
    done(clock_gettime(SINCE_BOOT, &mut time))?;
    Ok(Duration::from_secs(time.tv_sec.unsigned_abs()).saturating_add(Duration::from_nanos(
        time.tv_nsec.unsigned_abs(),
    )))
}

/// The reason of a call that failed.
fn done(status: i32) -> io::Result<()> {
    if status < 0 {
        return Err(io::Error::from_raw_os_error(os::errno()));
    }
    Ok(())
}

/// An address as C has it: the family in the machine's order, the port and the address in the network's.
fn address_for_c(address: SocketAddrV4) -> [u8; 128] {
    let mut raw = [0u8; 128];
    raw[..2].copy_from_slice(&(AF_INET as u16).to_ne_bytes());
    raw[2..4].copy_from_slice(&address.port().to_be_bytes());
    raw[4..8].copy_from_slice(&address.ip().octets());
    raw
}
