//! An end at a UDP socket.
ghost use Rattle.std.specs.Prelude.{◌≡◌, ◌≤◌, ◌<◌, ◌+◌, ◌-◌, [], IfOk, IfErr, IfNone, IfSome, None, Some, false, true};
ghost use Rattle.std.specs.Prelude.{length, max, min};
ghost use Rattle.oca_net.specs.Ends.{HoldsOnlyADatagram, is_closed, is_failed, largest_datagram, last_u64};
ghost use Rattle.oca_net.specs.Sockets.{IsBegunAgain, IsBoundAt, IsBoundAtOne, IsUnheardFor, IsUntakenFor};
ghost use Rattle.oca_net.specs.Sockets.{IsWhy, ReadsClockAfter, ReturnsMoment};
ghost use Rattle.oca_net.specs.Sockets.{after_heard, after_sent, fault_of, is_interrupted, is_taken, most_tries};
ghost use Rattle.oca_net.specs.Sockets.{new_socket, says_none, says_none_came, state_of_socket};
ghost use Rattle.oca_net.specs.Deliveries.{Datagram};
ghost use Rattle.oca_net.specs.Memory.{bytes_of, heard_of};
ghost use Rattle.oca_net.specs.Moments.{milliseconds_of, until_at_most};
ghost use Rattle.oca_net.specs.PrivateMoments.{IsFresh};

use crate::count::step;
use crate::end::{End, Heard};
use crate::reason::{is_interrupted, is_signal, reason_of, says_none_came};
use crate::socket::{Socket, address_towards, set_up};
use crate::system::System;
use oca_types::{MOST_BYTES, Packet, Peer};
use std::alloc::Global;
use std::marker::Model;
use std::net::{Net, SocketAddrV4};
use std::os::fd::{AsFd, AsRawFd, BorrowedFd, RawFd};
use std::rt::Clock;
use std::{fmt, io};
use thiserror::Error;

/// One more than the largest datagram, so that a larger one is seen to be larger.
const BUFFER: usize = MOST_BYTES + 1;

/// How long a receive waits, in milliseconds.
const WAIT_MS: u64 = 50;

/// How long a wait until a moment may be, in milliseconds: an hour.
const LONGEST_WAIT_MS: u64 = 3_600_000;

/// How often at most a call is begun again that signals interrupt, so that it ends even where the clock stops.
const TRIES: u32 = 65_536;

/// Why no end was bound. The numbers are promised.
#[derive(Clone, Copy, Debug, Drop, PartialEq, Eq, Error)]
pub enum BindFault {
    /// The system refused the socket: the address is not this machine's, or the port is in use or not open to the
    /// caller. Of [`UdpEnd::bind_towards`] also: the system has no route to the device.
    #[error("socket failed")]
    Io = 1,
    /// The memory for the receive buffer, 1,473 bytes, was refused.
    #[error("no memory")]
    NoMemory = 2,
}

const _: () = prove!(BindFault::Io as u8 == 1);

const _: () = prove!(BindFault::NoMemory as u8 == 2);

/// Why no end was bound, with the system's reason. As a text it is the system's words, or `no memory`.
#[derive(Clone, Copy, Debug, Drop, Error)]
pub enum BindError {
    /// The system refused the socket, or has no route to the device, for this reason.
    #[error("{0}")]
    Io(#[from] io::Error),
    /// The memory for the receive buffer, 1,473 bytes, was refused.
    #[error("no memory")]
    NoMemory,
}

impl BindError {
    /// Returns the fault without the system's reason: [`BindFault::Io`] or [`BindFault::NoMemory`], by the variant of
    /// the same name.
    pub fn fault(&self) -> BindFault
        ensures { result ≡ fault_of self.now }
    {
        match self {
            BindError::Io(_) => BindFault::Io,
            BindError::NoMemory => BindFault::NoMemory,
        }
    }
}

/// An end of a network at a UDP socket of IPv4.
///
/// A receive waits for at most 50 ms, and returns `Quiet` if no datagram has come by then; a signal does not end the
/// wait. Moments are the milliseconds since the end was bound, and never go back. A datagram of more than 1,472 bytes
/// is `Oversize`. Datagrams that come faster than they are received wait in the system's buffer; beyond that the system
/// drops them, and no call reports it. If the system returns an error, the receive is `Failed` after the 50 ms, and
/// counts as a failure.
///
/// A send does not wait, and a send that a signal interrupts is begun again. A send returns `false`, and counts as a
/// failure, if the network can't be reached, or the system's send buffer has no room: datagrams to hosts that do not
/// answer fill this buffer. `bind` asks for a send buffer of 4,000,000 bytes; `send_buffer` returns what the system
/// granted. Only the calls that bind take memory.
///
/// ```
/// let mut end = UdpEnd::bind(rt.alloc(), rt, LOOPBACK, port).map_err(|_| "socket failed")?;
/// let _ = eprintln!(rt; "listening 127.0.0.1:{}", end.local().port);
/// ```
#[derive(Drop)]
pub struct UdpEnd<'a, C: Clock> {
    socket: Socket<'a, C>,
    local: Peer,
    buffer: Vec<u8>,
    failures: u64,
    receives: u64,
    sends: u64,
    failed_receive: Option<io::Error>,
    failed_send: Option<io::Error>,
}

impl<'a, C: Clock> Model for UdpEnd<'a, C> {
    ghost use Rattle.oca_net.specs.Moments.{milliseconds_of};
    ghost use Rattle.oca_net.specs.Sockets.{SocketState};

    ghost Value = { SocketState };

    ghost view = { λ a. record {
      local = a.local;
      failures = a.failures;
      receives = a.receives;
      sends = a.sends;
      moment = a.socket.latest;
      system = record {
        calls = a.socket.system.calls;
        looked = a.socket.system.looked;
        reading = milliseconds_of a.socket.system.reading;
        received = a.socket.system.received;
        taken = a.socket.system.taken;
        refused = a.socket.system.refused;
        signals = a.socket.system.signals;
      };
      begun = a.socket.begun;
      until = a.socket.until;
      fault = a.socket.fault;
      receive_fault = a.failed_receive;
      send_fault = a.failed_send;
    } };
}

impl<'a, C: Clock> fmt::Debug for UdpEnd<'a, C> {
    /// The end's address, how many datagrams it took and how many receives there were, and how many of both failed.
    fn fmt<W: fmt::Write>(&self, f: &mut fmt::Formatter<W>) -> fmt::Result {
        f.debug_struct("UdpEnd")
            .field("local", &self.local)
            .field("sends", &self.sends)
            .field("receives", &self.receives)
            .field("failures", &self.failures)
            .finish()
    }
}

impl<'a, C: Clock> UdpEnd<'a, C> {
    /// Binds an end at the address `ip` and the port `port`. `rt` is the program's access to the system's network and
    /// clock. `ip` is an IPv4 address as a number, the first byte highest. At port 0 the system chooses a port
    /// ([`local`](UdpEnd::local) returns it). The end's clock is at 0. The call takes the memory for its receive
    /// buffer, 1,473 bytes, and sends nothing.
    ///
    /// Refusals, the first that applies, after which no socket is open: `NoMemory` if that memory was refused. `Io` if
    /// the system refused the socket, for example because the port is in use.
    ///
    /// Bind a device at the address to which its controllers send, and a controller by
    /// [`bind_towards`](UdpEnd::bind_towards). Address 0 means all addresses of the machine: the system then chooses
    /// for each datagram from which address it leaves. A device's answers may then leave from another address than the
    /// commands came to, and its controllers drop them. A controller's transmissions of one command may leave from two
    /// addresses: the device then takes them for two peers, and executes the command for each.
    pub fn bind(alloc: Global, rt: &'a C, ip: u32, port: u16) -> Result<UdpEnd<'a, C>, BindFault>
    where
        C: Net,
        ensures new { IfOk result (λ e. e ≡ new_socket e.local) }
        ensures bound { IfOk result (λ e. IsBoundAt ip port e.local) }
    {
        match UdpEnd::bind_with_reason(alloc, rt, ip, port) {
            Ok(end) => Ok(end),
            Err(error) => Err(error.fault()),
        }
    }

    /// Binds an end at the address `ip` and the port `port` as [`bind`](UdpEnd::bind) does, and returns the system's
    /// reason if it fails. `rt` is the program's access to the system's network and clock. `ip` is an IPv4 address as a
    /// number, the first byte highest; 0 means all addresses of the machine. At port 0 the system chooses a port. The
    /// end's clock is at 0. The call takes the memory for its receive buffer, 1,473 bytes, and sends nothing.
    ///
    /// Refusals, the first that applies, after which no socket is open: `NoMemory` if that memory was refused. `Io`
    /// with the system's reason if the system refused the socket, for example because the port is in use.
    pub fn bind_with_reason(
        alloc: Global,
        rt: &'a C,
        ip: u32,
        port: u16,
    ) -> Result<UdpEnd<'a, C>, BindError>
    where
        C: Net,
        ensures new { IfOk result (λ e. e ≡ new_socket e.local) }
        ensures bound { IfOk result (λ e. IsBoundAt ip port e.local) }
    {
        let buffer = vec![in alloc; 0u8; BUFFER].map_err(|_| BindError::NoMemory)?;
        let asked = Peer { ip, port };
        let mut system = System::open(rt, SocketAddrV4::from(asked))?;
        let local = set_up(&mut system, asked, WAIT_MS)?;
        Ok(UdpEnd {
            socket: Socket::over(system),
            local,
            buffer,
            failures: 0,
            receives: 0,
            sends: 0,
            failed_receive: None,
            failed_send: None,
        })
    }

    /// Binds an end for a controller of the device at the address `device`. The end is bound at the one local address
    /// from which the system reaches the device, and at the port `port`; at 0 the system chooses one. The local address
    /// comes from the system's routes: no datagram is sent. So all transmissions of a command leave from this address
    /// or not at all, and the device takes them as those of one peer. Datagrams of other hosts are received too. `rt`
    /// is the program's access to the system's network and clock. The call takes the memory for its receive buffer,
    /// 1,473 bytes.
    ///
    /// Refusals, the first that applies, after which no socket is open: `Io` if the system has no route to the device.
    /// `NoMemory` if that memory was refused. `Io` if the system refused the socket, for example because the port is in
    /// use.
    pub fn bind_towards(
        alloc: Global,
        rt: &'a C,
        device: Peer,
        port: u16,
    ) -> Result<UdpEnd<'a, C>, BindFault>
    where
        C: Net,
        ensures new { IfOk result (λ e. e ≡ new_socket e.local) }
        ensures bound { IfOk result (λ e. IsBoundAtOne port e.local) }
    {
        match UdpEnd::bind_towards_with_reason(alloc, rt, device, port) {
            Ok(end) => Ok(end),
            Err(error) => Err(error.fault()),
        }
    }

    /// Binds an end for a controller of the device at the address `device` as [`bind_towards`](UdpEnd::bind_towards)
    /// does, and returns the system's reason if it fails. The end is bound at the one local address from which the
    /// system reaches the device, and at the port `port`; at 0 the system chooses one. Datagrams of other hosts are
    /// received too. No datagram is sent. `rt` is the program's access to the system's network and clock. The call
    /// takes the memory for its receive buffer, 1,473 bytes.
    ///
    /// Refusals, the first that applies, after which no socket is open: `Io` with the reason if the system has no route
    /// to the device. `NoMemory` if that memory was refused. `Io` with the reason if the system refused the socket.
    pub fn bind_towards_with_reason(
        alloc: Global,
        rt: &'a C,
        device: Peer,
        port: u16,
    ) -> Result<UdpEnd<'a, C>, BindError>
    where
        C: Net,
        ensures new { IfOk result (λ e. e ≡ new_socket e.local) }
        ensures bound { IfOk result (λ e. IsBoundAtOne port e.local) }
    {
        match address_towards(rt, device) {
            Ok(ip) => UdpEnd::bind_with_reason(alloc, rt, ip, port),
            Err(reason) => Err(BindError::Io(reason)),
        }
    }

    /// The address and the port at which the end is bound. If it was bound at port 0, this is the port that the system
    /// chose. If it was bound at the address 0, the address is 0. They never change.
    pub fn local(&self) -> Peer
        ensures { result ≡ self.now.local }
    {
        self.local
    }

    /// The present moment of the end's clock: the milliseconds since the end was bound. It is never before a moment
    /// that a receive has returned. If the system's clock can't be read, it is the last of those moments, or 0 before
    /// the first of them. Nothing is received or sent.
    pub fn now(&self) -> u64
        ensures { self.now.moment ≤ result }
    {
        self.socket.now()
    }

    /// The system's reason why the last receive that returned `Failed` failed. `None` if none has failed so far. A
    /// receive that succeeds later does not change it.
    pub fn last_failed_receive(&self) -> Option<io::Error>
        ensures { result ≡ self.now.receive_fault }
    {
        self.failed_receive
    }

    /// The system's reason why the last send that returned `false` failed. `None` if none has failed so far. A send
    /// that succeeds later does not change it.
    pub fn last_failed_send(&self) -> Option<io::Error>
        ensures { result ≡ self.now.send_fault }
    {
        self.failed_send
    }

    /// How many bytes the system granted for datagrams that were sent and have not left yet, by the system's own count.
    /// 0 if the system does not say. It is set when the end is bound, and never changes. Datagrams to a neighbour that
    /// does not answer take up to some 213,000 of these bytes, so a larger grant leaves room for others.
    pub fn send_buffer(&self) -> u32 {
        self.socket.send_buffer
    }

    /// Receives once, and waits until the moment `moment` of the end's clock, in milliseconds, for at most an hour. If
    /// that moment is past, the call does not wait. `packet` is emptied first. A signal does not end the wait.
    ///
    /// `Datagram` with its sender if a datagram came: its bytes are in `packet`. `Quiet` if none came. `Oversize` if a
    /// datagram of more than 1,472 bytes came: it is dropped. `Failed` if the system returned an error
    /// ([`last_failed_receive`](UdpEnd::last_failed_receive)). That counts as a failure, and the call then waits until
    /// 50 ms after its beginning, or until `moment` if that is sooner. `Closed` never comes.
    #[tactic(auto, using(crate::proofs::Waiting::until_most, crate::proofs::Waiting::until_later))]
    pub fn receive_by(&mut self, packet: &mut Packet, moment: u64) -> Heard
        ensures packet { HoldsOnlyADatagram result packet.new.items }
        ensures open { is_closed result ≡ false }
        ensures said { ReturnsMoment result self.new.moment }
        ensures later { self.old.moment ≤ self.new.moment }
        ensures end { self.new ≡
            after_heard result self.new.system self.new.begun self.new.until self.new.fault self.old }
        ensures behind { ReadsClockAfter result self.new.system }
        ensures why { IsWhy result self.new.fault self.new.system.refused }
        ensures most { self.new.until ≤ moment }
        ensures least { until_at_most self.old.moment moment ≤ self.new.until }
        ensures begun { self.old.moment ≤ self.new.begun }
        ensures until { self.new.until ≡ until_at_most self.new.begun moment }
    {
        let now = self.socket.look();
        self.hear(packet, now, end_of_wait(now, moment))
    }

    /// Receives once, until this moment at most. The present moment is that of a look at the clock right before.
    #[tactic(auto, using(crate::proofs::Hearing::why_heard))]
    fn hear(&mut self, packet: &mut Packet, now: u64, until: u64) -> Heard
        requires fresh { IsFresh now self.old.moment self.old.system.reading self.old.system.looked
            self.old.system.calls }
        ensures packet { HoldsOnlyADatagram result packet.new.items }
        ensures open { is_closed result ≡ false }
        ensures said { ReturnsMoment result self.new.moment }
        ensures later { self.old.moment ≤ self.new.moment }
        ensures end { self.new ≡
            after_heard result self.new.system self.new.begun self.new.until self.new.fault self.old }
        ensures behind { ReadsClockAfter result self.new.system }
        ensures why { IsWhy result self.new.fault self.new.system.refused }
        ensures begun { self.new.begun ≡ now }
        ensures until { self.new.until ≡ until }
    {
        packet.clear();
        step(&mut self.receives);
        let buffer = self.buffer.as_mut_slice();
        match wait(&mut self.socket, buffer, now, until) {
            Ok(None) => Heard::Quiet {
                now: self.socket.note_moment(),
            },
            Ok(Some((n, from))) => {
                let now = self.socket.note_moment();
                fill(packet, &self.buffer[..n], from, now)
            }
            Err(reason) => {
                step(&mut self.failures);
                self.failed_receive = Some(reason);
                self.socket
                    .sleep_until(until.min(now.saturating_add(WAIT_MS)));
                Heard::Failed
            }
        }
    }

    /// Hands the datagram to the system: whether it took the whole of it. If not, notes a failure and the reason.
    fn hand_over(&mut self, to: Peer, bytes: &[u8]) -> bool
        requires { length bytes.now ≤ largest_datagram }
        ensures end { self.new
            ≡ record (after_sent result self.new.system self.new.fault self.old) { sends = self.old.sends } }
        ensures taken { result ≡ is_taken (length bytes.now) self.new.system.taken }
        ensures why { IsUntakenFor result self.new.fault self.new.system.refused }
        ensures again { IsBegunAgain self.new.system.refused self.old.system.calls self.new.system.calls
            self.old.system.signals self.new.system.signals }
    {
        match send_datagram(&mut self.socket, to, bytes) {
            Ok(()) => true,
            Err(reason) => {
                step(&mut self.failures);
                self.failed_send = Some(reason);
                false
            }
        }
    }
}

impl<'a, C: Clock> End for UdpEnd<'a, C> {
    ghost state = { state_of_socket };

    ghost waited = { λ old new moment. new.until ≡ until_at_most new.begun moment };

    /// Waits up to 50 ms for a datagram. It never returns `Closed`.
    #[tactic(auto, using(crate::proofs::Waiting::pause_later))]
    fn receive(&mut self, packet: &mut Packet) -> Heard
        ensures packet { HoldsOnlyADatagram result packet.new.items }
        ensures open { is_closed result ≡ false }
        ensures said { ReturnsMoment result self.new.moment }
        ensures later { self.old.moment ≤ self.new.moment }
        ensures end { self.new ≡
            after_heard result self.new.system self.new.begun self.new.until self.new.fault self.old }
        ensures behind { ReadsClockAfter result self.new.system }
        ensures why { IsWhy result self.new.fault self.new.system.refused }
        ensures least { min (self.old.moment + 50) last_u64 ≤ self.new.until }
        ensures begun { self.old.moment ≤ self.new.begun }
        ensures until { self.new.until ≡ min (self.new.begun + 50) last_u64 }
    {
        let now = self.socket.look();
        self.hear(packet, now, now.saturating_add(WAIT_MS))
    }

    /// Waits until this moment of its own, as [`UdpEnd::receive_by`].
    fn receive_by(&mut self, packet: &mut Packet, moment: u64) -> Heard
        ensures packet { HoldsOnlyADatagram result packet.new.items }
        ensures open { is_closed result ≡ false }
        ensures said { ReturnsMoment result self.new.moment }
        ensures later { self.old.moment ≤ self.new.moment }
        ensures end { self.new ≡
            after_heard result self.new.system self.new.begun self.new.until self.new.fault self.old }
        ensures behind { ReadsClockAfter result self.new.system }
        ensures why { IsWhy result self.new.fault self.new.system.refused }
        ensures most { self.new.until ≤ moment }
        ensures least { until_at_most self.old.moment moment ≤ self.new.until }
        ensures begun { self.old.moment ≤ self.new.begun }
        ensures until { self.new.until ≡ until_at_most self.new.begun moment }
    {
        UdpEnd::receive_by(self, packet, moment)
    }

    /// The milliseconds since `bind`, as [`UdpEnd::now`].
    fn now(&self) -> u64
        ensures later { self.now.moment ≤ result }
        ensures fits { result ≤ last_u64 }
    {
        UdpEnd::now(self)
    }

    /// Hands the datagram to the system, without waiting for room: whether it took the whole of it.
    fn send(&mut self, to: Peer, bytes: &[u8]) -> bool
        requires { length bytes.now ≤ largest_datagram }
        ensures end { self.new ≡ after_sent result self.new.system self.new.fault self.old }
        ensures taken { result ≡ is_taken (length bytes.now) self.new.system.taken }
        ensures why { IsUntakenFor result self.new.fault self.new.system.refused }
        ensures again { IsBegunAgain self.new.system.refused self.old.system.calls self.new.system.calls
            self.old.system.signals self.new.system.signals }
    {
        step(&mut self.sends);
        self.hand_over(to, bytes)
    }
}

impl<'a, C: Clock> AsFd for UdpEnd<'a, C> {
    /// The socket's descriptor, for a loop that waits for several.
    fn as_fd(&self) -> BorrowedFd<'_> {
        self.socket.as_fd()
    }
}

impl<'a, C: Clock> AsRawFd for UdpEnd<'a, C> {
    /// The number of the socket's descriptor.
    fn as_raw_fd(&self) -> RawFd {
        self.socket.as_raw_fd()
    }
}

/// Until when a receive waits that begins now and is to wait until this moment: an hour at most.
fn end_of_wait(now: u64, moment: u64) -> u64
    ensures { result ≡ until_at_most now moment }
{
    moment.min(now.saturating_add(LONGEST_WAIT_MS))
}

/// Waits for a datagram until this moment at most, and returns its length, cut to the buffer's, and its sender; nothing
/// where none has come. A wait that a signal interrupts goes on for what is left: before each receive of the system
/// there is a look at the clock, here the caller's before the first.
fn wait<C: Clock>(
    socket: &mut Socket<'_, C>,
    buffer: &mut [u8],
    begun: u64,
    until: u64,
) -> io::Result<Option<(usize, Peer)>>
    requires fresh { IsFresh begun socket.old.latest (milliseconds_of socket.old.system.reading)
        socket.old.system.looked socket.old.system.calls }
    ensures length { IfOk result (λ o. IfSome o (λ d. d.0 ≤ length buffer.new)) }
    ensures received { IfOk result (λ o. IfSome o (λ d. socket.new.system.received ≡ socket.new.system.calls)) }
    ensures waited { IfOk result (λ o. IfSome o
        (λ d. socket.new.system.waited ≡ until - max socket.new.latest (milliseconds_of socket.new.system.reading))) }
    ensures fault { IfErr result (λ e. socket.new.fault ≡ Some e) }
    ensures failed { IfErr result (λ e. says_none socket.new.fault ≡ false) }
    ensures none { IfOk result (λ o. IfNone o (says_none socket.new.fault ≡ true)) }
    ensures over { IfOk result (λ o. IfNone o (is_interrupted socket.new.fault ≡ true
        → max socket.new.latest (milliseconds_of socket.new.system.reading) < until
        → min (socket.old.system.calls + most_tries) last_u64 ≤ socket.new.system.calls)) }
    ensures why { IfErr result (λ _. IsUnheardFor socket.new.fault socket.new.system.refused) }
    ensures why_none { IfOk result (λ o. IfNone o (IsUnheardFor socket.new.fault socket.new.system.refused)) }
    ensures latest { socket.new.latest ≡ socket.old.latest }
    ensures begun { socket.new.begun ≡ begun }
    ensures until { socket.new.until ≡ until }
    ensures taken { socket.new.system.taken ≡ socket.old.system.taken }
{
    socket.begun = begun;
    socket.until = until;
    let mut now = begun;
    for _try in 0..TRIES {
        match socket.receive(buffer, now) {
            Ok(found) => return Ok(Some(found)),
            Err(reason) if is_signal(&reason) => {}
            Err(reason) if says_none_came(&reason) => return Ok(None),
            Err(reason) => return Err(reason),
        }
        now = socket.look();
        if until <= now {
            return Ok(None);
        }
    }
    Ok(None)
}

/// Puts a datagram in the empty packet.
fn fill(packet: &mut Packet, bytes: &[u8], from: Peer, now: u64) -> Heard
    requires { packet.old.items ≡ [] }
    ensures packet { HoldsOnlyADatagram result packet.new.items }
    ensures open { is_closed result ≡ false }
    ensures failed { is_failed result ≡ false }
    ensures said { ReturnsMoment result now }
    ensures why { IsWhy result None None }
    ensures heard { result ≡ heard_of (Datagram from bytes.now now) }
    ensures bytes { packet.new.items ≡ bytes_of (Datagram from bytes.now now) }
{
    match packet.try_extend_from_slice(bytes) {
        Ok(()) => Heard::Datagram { from, now },
        Err(_) => Heard::Oversize { now },
    }
}

/// Hands a datagram to the system, and once more where a signal interrupts it, and only there.
fn send_datagram<C: Clock>(socket: &mut Socket<'_, C>, to: Peer, bytes: &[u8]) -> io::Result<()>
    ensures ok { IfOk result (λ _. is_taken (length bytes.now) socket.new.system.taken ≡ true) }
    ensures err { IfErr result (λ e. is_taken (length bytes.now) socket.new.system.taken ≡ false) }
    ensures fault { IfErr result (λ e. socket.new.fault ≡ Some e) }
    ensures why { IfErr result (λ _. IsUntakenFor false socket.new.fault socket.new.system.refused) }
    ensures again { IsBegunAgain socket.new.system.refused socket.old.system.calls socket.new.system.calls
        socket.old.system.signals socket.new.system.signals }
    ensures latest { socket.new.latest ≡ socket.old.latest }
    ensures begun { socket.new.begun ≡ socket.old.begun }
    ensures until { socket.new.until ≡ socket.old.until }
{
    for _try in 1..TRIES {
        let sent = socket.send(to, bytes);
        if !is_interrupted(reason_of(&sent)) {
            return sent;
        }
    }
    socket.send(to, bytes)
}
