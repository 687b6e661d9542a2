//! A UDP socket of IPv4, and how long its calls wait.
ghost use Rattle.std.specs.Prelude.{◌≡◌, ◌≢◌, ◌≤◌, ◌+◌, ◌-◌, IfOk, IfErr, IsOk, OnOk, Some, None, length};
ghost use Rattle.std.specs.Prelude.{min, true, false};
ghost use Rattle.oca_net.specs.Ends.{last_u64, one_more};
ghost use Rattle.oca_net.specs.Moments.{milliseconds_of};
ghost use Rattle.oca_net.specs.PrivateMoments.{IsFresh, wait_of};
ghost use Rattle.oca_net.specs.Sockets.{IsBoundAt, IsUnheardFor, IsUntakenFor, is_interrupted};
ghost use Rattle.oca_net.specs.Sockets.{is_taken, reason_of, signals_after};

use crate::system;
use crate::system::System;
use oca_types::Peer;
use std::io;
use std::net::{Net, SocketAddr, SocketAddrV4};
use std::os::fd::{AsFd, AsRawFd, BorrowedFd, RawFd};
use std::rt::Clock;

/// How many bytes are asked for the send buffer, in which datagrams wait for hosts that do not answer.
const SEND_BUFFER: u32 = 4_000_000;

/// A socket and the clock beside it.
#[derive(Drop)]
pub(crate) struct Socket<'a, C: Clock> {
    pub(crate) system: System<'a, C>,
    /// The latest moment that was told, in milliseconds since the start of the clock.
    pub(crate) latest: u64,
    /// At which moment the last receive of an end began.
    pub(crate) begun: u64,
    /// Until which moment receives are to wait.
    pub(crate) until: u64,
    /// Why the last receive or send that failed did so.
    pub(crate) fault: Option<io::Error>,
    /// How many bytes the system grants the send buffer, or 0 where it does not tell.
    pub(crate) send_buffer: u32,
}

impl<'a, C: Clock> Socket<'a, C> {
    /// A socket over this clock and this socket of the system. It has told no moment, and no call of it has failed.
    pub(crate) fn over(system: System<'a, C>) -> Socket<'a, C>
        ensures system { result.system ≡ system.entry }
        ensures latest { result.latest ≡ 0 }
        ensures begun { result.begun ≡ 0 }
        ensures until { result.until ≡ 0 }
        ensures fault { result.fault ≡ None }
    {
        let send_buffer = granted(system.as_raw_fd());
        Socket {
            system,
            latest: 0,
            begun: 0,
            until: 0,
            fault: None,
            send_buffer,
        }
    }

    /// Lets a receive wait so many milliseconds.
    fn set_wait(&mut self, wait: u64) -> io::Result<()>
        ensures waits { IfOk result (λ _. wait_of self.new.system.blocking self.new.system.timeout ≡ wait) }
        ensures same { self.new ≡ record self.old {
          system = record self.old.system {
            blocking = self.new.system.blocking;
            timeout = self.new.system.timeout;
            refused = self.new.system.refused;
          };
        } }
        ensures refused { IfErr result (λ e. self.new.system.refused ≡ Some e) }
    {
        if wait == 0 {
            return self.set_blocking(false);
        }
        if self.system.timeout() != wait {
            self.system.set_timeout(wait)?;
        }
        self.set_blocking(true)
    }

    /// Lets a receive wait, or not.
    fn set_blocking(&mut self, blocking: bool) -> io::Result<()>
        ensures blocking { IfOk result (λ _. self.new.system.blocking ≡ blocking) }
        ensures same { self.new ≡ record self.old {
          system = record self.old.system {
            blocking = self.new.system.blocking;
            refused = self.new.system.refused;
          };
        } }
        ensures refused { IfErr result (λ e. self.new.system.refused ≡ Some e) }
    {
        if self.system.is_blocking() == blocking {
            return Ok(());
        }
        self.system.set_blocking(blocking)
    }

    /// Receives a datagram until the moment that receives are to wait for: its length, cut to the buffer's, and its
    /// sender. The present moment is that of a look at the clock right before.
    pub(crate) fn receive(&mut self, buffer: &mut [u8], now: u64) -> io::Result<(usize, Peer)>
        requires fresh { IsFresh now self.old.latest (milliseconds_of self.old.system.reading)
            self.old.system.looked self.old.system.calls }
        ensures length { IfOk result (λ d. d.0 ≤ length buffer.new) }
        ensures waited { IfOk result (λ d. self.new.system.waited ≡ self.old.until - now) }
        ensures received { IfOk result (λ d. self.new.system.received ≡ self.new.system.calls) }
        ensures behind { IfOk result (λ d. self.new.system.received ≡ one_more self.old.system.looked) }
        ensures once { self.new.system.calls ≤ self.old.system.calls + 1 }
        ensures fault { IfErr result (λ e. self.new.fault ≡ Some e) }
        ensures why { IfErr result (λ e. IsUnheardFor self.new.fault self.new.system.refused) }
        ensures latest { self.new.latest ≡ self.old.latest }
        ensures begun { self.new.begun ≡ self.old.begun }
        ensures until { self.new.until ≡ self.old.until }
        ensures reading { self.new.system.reading ≡ self.old.system.reading }
        ensures taken { self.new.system.taken ≡ self.old.system.taken }
        ensures calls { min self.old.system.calls last_u64 ≤ self.new.system.calls }
    {
        let received = self.try_receive(buffer, self.until.saturating_sub(now));
        if let Err(reason) = &received {
            self.fault = Some(*reason);
        }
        received
    }

    /// Receives a datagram within so many milliseconds, by one call of the system at most.
    #[tactic(auto, using(crate::proofs::Counting::kept, crate::proofs::Counting::kept_or_more, crate::proofs::Counting::once_none, crate::proofs::Counting::once_one))]
    fn try_receive(&mut self, buffer: &mut [u8], wait: u64) -> io::Result<(usize, Peer)>
        ensures length { IfOk result (λ d. d.0 ≤ length buffer.new) }
        ensures waited { IfOk result (λ d. self.new.system.waited ≡ wait) }
        ensures received { IfOk result (λ d. self.new.system.received ≡ self.new.system.calls) }
        ensures behind { IfOk result (λ d. self.new.system.received ≡ one_more self.old.system.calls) }
        ensures once { self.new.system.calls ≤ self.old.system.calls + 1 }
        ensures why { IfErr result (λ e. IsUnheardFor (Some e) self.new.system.refused) }
        ensures latest { self.new.latest ≡ self.old.latest }
        ensures begun { self.new.begun ≡ self.old.begun }
        ensures until { self.new.until ≡ self.old.until }
        ensures reading { self.new.system.reading ≡ self.old.system.reading }
        ensures taken { self.new.system.taken ≡ self.old.system.taken }
        ensures calls { min self.old.system.calls last_u64 ≤ self.new.system.calls }
    {
        self.set_wait(wait)?;
        from_peer(self.system.receive(buffer))
    }

    /// Hands a datagram to the system, which takes the whole of it, and does not wait for room.
    pub(crate) fn send(&mut self, to: Peer, bytes: &[u8]) -> io::Result<()>
        ensures ok { IfOk result (λ _. is_taken (length bytes.now) self.new.system.taken ≡ true) }
        ensures err { IfErr result (λ e. is_taken (length bytes.now) self.new.system.taken ≡ false) }
        ensures fault { IfErr result (λ e. self.new.fault ≡ Some e) }
        ensures why { IfErr result (λ _. IsUntakenFor false self.new.fault self.new.system.refused) }
        ensures reason { is_interrupted (reason_of result) ≡ is_interrupted self.new.system.refused }
        ensures calls { self.new.system
            ≡ record self.old.system {
              calls = one_more self.old.system.calls;
              taken = self.new.system.taken;
              refused = self.new.system.refused;
              signals = signals_after self.new.system.refused self.old.system.signals;
            } }
        ensures latest { self.new.latest ≡ self.old.latest }
        ensures begun { self.new.begun ≡ self.old.begun }
        ensures until { self.new.until ≡ self.old.until }
    {
        let sent = whole(self.system.send(bytes, SocketAddrV4::from(to)), bytes.len());
        if let Err(reason) = &sent {
            self.fault = Some(*reason);
        }
        sent
    }
}

impl<C: Clock> AsFd for Socket<'_, C> {
    /// The descriptor of the socket, borrowed.
    fn as_fd(&self) -> BorrowedFd<'_> {
        self.system.as_fd()
    }
}

impl<C: Clock> AsRawFd for Socket<'_, C> {
    /// The number of the descriptor.
    fn as_raw_fd(&self) -> RawFd {
        self.system.as_raw_fd()
    }
}

/// Whether all of so many bytes were taken.
fn whole(sent: io::Result<usize>, bytes: usize) -> io::Result<()>
    ensures ok { IfOk result (λ _. IfOk sent (λ n. n ≡ bytes)) }
    ensures sent { OnOk result (IsOk sent) }
    ensures err { IfErr result (λ e. IfOk sent (λ n. n ≢ bytes)) }
    ensures why { IfErr result (λ e. IsUntakenFor false (Some e) (reason_of sent)) }
    ensures reason { is_interrupted (reason_of result) ≡ is_interrupted (reason_of sent) }
{
    let n = sent?;
    if n == bytes {
        Ok(())
    } else {
        Err(io::Error::from(io::ErrorKind::WriteZero))
    }
}

/// Lets the receives of a new socket wait so many milliseconds, and says where it is bound. Err where that is not where
/// it was asked to be.
pub(crate) fn set_up<C: Clock>(
    system: &mut System<'_, C>,
    asked: Peer,
    wait: u64,
) -> io::Result<Peer>
    ensures bound { IfOk result (λ p. IsBoundAt asked.ip asked.port p) }
    ensures same { system.new
        ≡ record system.old { timeout = system.new.timeout; refused = system.new.refused } }
    ensures kept { IfOk result (λ _. system.new.refused ≡ system.old.refused) }
{
    system.set_timeout(wait)?;
    let local = peer_of(system.local()?)?;
    if local.ip != asked.ip || (asked.port != 0 && local.port != asked.port) {
        return Err(io::Error::from(io::ErrorKind::AddrNotAvailable));
    }
    Ok(local)
}

/// Asks for the send buffer: how many bytes the system grants, or 0 where it does not tell.
fn granted(socket: RawFd) -> u32 {
    let _ = system::ask_send_buffer(socket, SEND_BUFFER);
    system::send_buffer(socket).unwrap_or(0)
}

/// A received datagram's length and the peer that sent it; an address of IPv6 is no peer.
fn from_peer(received: io::Result<(usize, SocketAddr)>) -> io::Result<(usize, Peer)>
    ensures length { IfOk result (λ d. IfOk received (λ r. d.0 ≡ r.0)) }
    ensures received { OnOk result (IsOk received) }
    ensures why { IfErr result (λ e. IsUnheardFor (Some e) (reason_of received)) }
{
    let (n, from) = received?;
    Ok((n, peer_of(from)?))
}

/// The address of this machine from which the system reaches a peer, asked from the route. Nothing is sent. It is not
/// 0, so a socket that is bound there sends from there alone. Err where the system reaches the peer from nowhere.
pub(crate) fn address_towards<R: Net>(rt: &R, peer: Peer) -> io::Result<u32>
    ensures { IfOk result (λ ip. ip ≢ 0) }
{
    let local = peer_of(system::local_towards(rt, SocketAddrV4::from(peer))?)?;
    if local.ip == 0 {
        return Err(io::Error::from(io::ErrorKind::AddrNotAvailable));
    }
    Ok(local.ip)
}

/// The peer at an address; one of IPv6 is none.
fn peer_of(address: SocketAddr) -> io::Result<Peer>
    ensures why { IfErr result (λ e. IsUnheardFor (Some e) None) }
{
    match address {
        SocketAddr::V4(address) => Ok(Peer::from(address)),
        SocketAddr::V6(_) => Err(io::Error::from(io::ErrorKind::InvalidData)),
    }
}
