//! An end in memory, for tests and for running a link without a network.
ghost use Rattle.std.specs.Prelude.{◌≡◌, ◌+◌, ◌<◌, ◌≤◌, [], ◌∷◌, ◌++◌, length, IfOk, IsTrue, true, vec_len};
ghost use Rattle.std.specs.Prelude.{vec_capacity};
ghost use Rattle.oca_net.specs.Ends.{largest_datagram};
ghost use Rattle.oca_net.specs.Memory.{delivery_of, deliveries_of, heard_of, bytes_of, sent_packets, new_memory};
ghost use Rattle.oca_net.specs.Memory.{next_heard, next_bytes, after_receive, takes, after_send, is_number};
ghost use Rattle.oca_net.specs.Memory.{state_of_memory};

use crate::count::step;
use crate::end::{End, Heard};
use oca_types::{NoMemory, Packet, Peer};
use std::alloc::Global;
use std::fmt;
use std::marker::Model;

/// What one receive of a [`MemoryEnd`] returns: an entry of its script. `now` is a moment in milliseconds.
#[derive(Debug, Drop)]
pub enum Scripted {
    /// A datagram from the peer `from`. If it has more than 1,472 bytes, the receive returns `Oversize`.
    Datagram {
        from: Peer,
        bytes: Vec<u8>,
        now: u64,
    },
    /// No datagram comes: the receive returns `Quiet`.
    Quiet {
        now: u64,
    },
    /// The receive returns `Failed`, and counts as a failure.
    Failed,
}

/// An end of a network in memory, for tests: its receives return the entries of a script, and it stores what is sent.
/// It keeps no time: its moments are the script's.
#[derive(Drop)]
pub struct MemoryEnd {
    script: Vec<Scripted>,
    next: usize,
    taken: Vec<(Peer, Packet)>,
    room: usize,
    send_number: u64,
    fail_send: Option<u64>,
    closed: bool,
    failures: u64,
    receives: u64,
}

impl Model for MemoryEnd {
    ghost use Rattle.std.specs.Prelude.{◌≤◌, length, take, drop};
    ghost use Rattle.std.specs.Vec.{vec_capacity};
    ghost use Rattle.oca_net.specs.Memory.{MemoryState, deliveries_of, sent_packets};

    ghost Value = { MemoryState };

    ghost view = { λ a. record {
      delivered = deliveries_of (take a.next a.script.items);
      to_come = deliveries_of (drop a.next a.script.items);
      taken = sent_packets a.taken.items;
      room = a.room;
      send_number = a.send_number;
      fail_send = a.fail_send;
      closed = a.closed;
      failures = a.failures;
      receives = a.receives;
    } };

    ghost invariant = { λ a. (a.next ≤ length a.script.items) × (length a.taken.items ≤ a.room)
        × (a.room ≤ vec_capacity a.taken) };
}

impl fmt::Debug for MemoryEnd {
    /// How many receives of the script are done, and how many datagrams were taken.
    fn fmt<W: fmt::Write>(&self, f: &mut fmt::Formatter<W>) -> fmt::Result {
        f.debug_struct("MemoryEnd")
            .field("next", &self.next)
            .field("taken", &self.taken.len())
            .finish()
    }
}

impl MemoryEnd {
    /// Makes an end of a network in memory, for tests. The arguments:
    /// - `script` has what the receives return, in order. After the last entry each receive returns `Closed`.
    /// - `room` is the number of sent datagrams that the end can store. The call takes the memory for them from
    ///   `alloc`. Each send beyond the room fails.
    /// - `fail_send` is the number of the send that fails, counted from 0. With `None` no send is chosen to fail.
    ///
    /// The only refusal is `NoMemory` if memory was refused. The script is then lost.
    pub fn new(
        alloc: Global,
        script: Vec<Scripted>,
        room: usize,
        fail_send: Option<u64>,
    ) -> Result<MemoryEnd, NoMemory>
        ensures new { IfOk result (λ e. e ≡ new_memory (deliveries_of script.items) room fail_send) }
        ensures telling { IfOk result (λ e. IsTrue (⟦<MemoryEnd as End>⟧.state e).tells) }
    {
        let taken = Vec::with_capacity(alloc, room).map_err(|_| NoMemory)?;
        Ok(MemoryEnd {
            script,
            next: 0,
            taken,
            room,
            send_number: 0,
            fail_send,
            closed: false,
            failures: 0,
            receives: 0,
        })
    }

    /// The entries of the script that receives have returned, in order. Empty at first, and the whole script at the
    /// end.
    pub fn delivered(&self) -> &[Scripted]
        ensures { deliveries_of result.now ≡ self.now.delivered }
    {
        &self.script[..self.next]
    }

    /// The datagrams that were sent and stored, in order, each with the peer to which it was sent. Empty at first. At
    /// most as many as the room that [`new`](MemoryEnd::new) was given; a send that failed is not among them.
    pub fn taken(&self) -> &[(Peer, Packet)]
        ensures { sent_packets result.now ≡ self.now.taken }
    {
        &self.taken
    }

    /// How many receives and sends failed so far, together: 0 at first. A count of 2^64 - 1 stays. A receive that
    /// returns `Closed` or `Oversize` is no failure.
    pub fn failures(&self) -> u64
        ensures { result ≡ self.now.failures }
    {
        self.failures
    }
}

impl End for MemoryEnd {
    ghost state = { state_of_memory };

    /// Delivers the next entry of the script; behind the last it returns `Closed`.
    fn receive(&mut self, packet: &mut Packet) -> Heard
        ensures heard { result ≡ next_heard self.old.to_come }
        ensures packet { packet.new.items ≡ next_bytes self.old.to_come }
        ensures end { self.new ≡ after_receive self.old }
    {
        packet.clear();
        step(&mut self.receives);
        if self.next == self.script.len() {
            self.closed = true;
            return Heard::Closed;
        }
        let heard = hear(&self.script[self.next], packet);
        self.next += 1;
        if heard == Heard::Failed {
            step(&mut self.failures);
        }
        heard
    }

    /// As `receive`: it keeps no time.
    fn receive_by(&mut self, packet: &mut Packet, _moment: u64) -> Heard
        ensures heard { result ≡ next_heard self.old.to_come }
        ensures packet { packet.new.items ≡ next_bytes self.old.to_come }
        ensures end { self.new ≡ after_receive self.old }
    {
        self.receive(packet)
    }

    /// 0: it keeps no time.
    fn now(&self) -> u64
        ensures { result ≡ 0 }
    {
        0
    }

    /// Takes the datagram where there is room and this send is not the one that fails.
    fn send(&mut self, to: Peer, bytes: &[u8]) -> bool
        requires { length bytes.now ≤ largest_datagram }
        ensures taken { result ≡ takes self.old }
        ensures end { self.new ≡ after_send self.old to bytes.now }
    {
        let number = self.send_number;
        step(&mut self.send_number);
        if self.taken.len() < self.room && !is_number(self.fail_send, number) {
            put(&mut self.taken, to, bytes);
            true
        } else {
            step(&mut self.failures);
            false
        }
    }
}

/// Whether the send with this number, counted from 0, is the one that fails.
fn is_number(fail_send: Option<u64>, number: u64) -> bool
    ensures { result ≡ is_number fail_send number }
{
    fail_send == Some(number)
}

/// Puts an entry's datagram in the packet.
fn hear(entry: &Scripted, packet: &mut Packet) -> Heard
    requires { packet.old.items ≡ [] }
    ensures heard { result ≡ heard_of (delivery_of entry.now) }
    ensures packet { packet.new.items ≡ bytes_of (delivery_of entry.now) }
{
    match entry {
        Scripted::Datagram { from, bytes, now } => match packet.try_extend_from_slice(bytes) {
            Ok(()) => Heard::Datagram {
                from: *from,
                now: *now,
            },
            Err(_) => Heard::Oversize { now: *now },
        },
        Scripted::Quiet { now } => Heard::Quiet { now: *now },
        Scripted::Failed => Heard::Failed,
    }
}

/// Keeps a datagram.
fn put(taken: &mut Vec<(Peer, Packet)>, to: Peer, bytes: &[u8])
    requires size { length bytes.now ≤ largest_datagram }
    requires room { vec_len taken.old < vec_capacity taken.old }
    ensures items { sent_packets taken.new.items
        ≡ sent_packets taken.old.items ++ (record { to = to; bytes = bytes.now }) ∷ [] }
    ensures len { vec_len taken.new ≡ vec_len taken.old + 1 }
    ensures capacity { vec_capacity taken.old ≤ vec_capacity taken.new }
{
    let mut packet = Packet::new();
    match packet.try_extend_from_slice(bytes) {
        Ok(()) => {}
        Err(_) => unreachable!(),
    }
    match taken.push((to, packet)) {
        Ok(()) => {}
        Err(_) => unreachable!(),
    }
}
