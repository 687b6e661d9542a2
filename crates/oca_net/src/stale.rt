//! An end for a device that drops what waited while the device stood still.
ghost use Rattle.std.specs.Prelude.{◌≡◌, ◌+◌, ◌-◌, ◌≤◌, ◌<◌, max, min, false, if◌then◌else◌};
ghost use Rattle.oca_net.specs.Ends.{HoldsOnlyADatagram, IsHeardBy, failures_after, last_u64, one_more};
ghost use Rattle.oca_net.specs.Stale.{DropsAll, DropsFirst, HearsFresh, handed_on, is_standstill, latest_after};
ghost use Rattle.oca_net.specs.Stale.{left_out};

use crate::count::step;
use crate::end::{End, Heard};
use oca_types::{Packet, Peer};
use std::fmt;
use std::marker::Model;

/// A device that does not listen for longer stood still, in milliseconds.
const STANDSTILL_MS: u64 = 1_000;

/// The longest standstill that the clock does not count in full, in milliseconds.
const LONGEST_PARDONED_MS: u64 = 60_000;

/// So many receives at most drop what waits after a standstill: far more than a socket's buffer holds.
const MOST_DROPPED: u32 = 65_536;

/// For so long after a standstill the end collects what is sent again, in milliseconds: a controller sends a command
/// again within 250 ms.
const COLLECTING_MS: u64 = 300;

/// How long a receive waits, in milliseconds.
const WAIT_MS: u64 = 50;

/// An end for a device over another end, the *end inside*, usually a [`UdpEnd`](crate::UdpEnd). It drops what waited
/// while the device *stood still*: while its program was stopped, its machine slept, or its disk did not answer. A
/// command from before a standstill is so never executed late or a second time. A controller that still waits for an
/// answer sends its command again within 250 ms.
///
/// The device stood still if more than 1,000 ms passed in which it did not listen:
/// - Between two receives. Before the next one everything that waits in the end inside is dropped, by at most 65,536
///   receives, as if the network had lost it.
/// - Within a receive that returned more than 1,000 ms after the moment until which it was to wait. What it brought is
///   dropped, and the next receive drops the rest.
///
/// For 300 ms after a standstill a receive that would not wait waits for what is sent again, so a device that stores
/// its objects serves all of it together. The end has a clock of its own: of a standstill of at most a minute it counts
/// 1,000 ms, so that no controller with heartbeats of 1 s or more (this project's: 5 s) loses its lock for it. A longer
/// standstill counts in full.
///
/// An end that keeps no time never stands still.
#[derive(Drop)]
pub struct DropsStale<E: End> {
    end: E,
    failures: u64,
    receives: u64,
    latest: u64,
    behind: u64,
    listened: u64,
    asked: u64,
    until: u64,
    ended: u64,
    collects: u64,
}

impl<E: End> Model for DropsStale<E> {
    ghost use Rattle.oca_net.specs.Stale.{StaleState};

    ghost Value = { StaleState };

    ghost view = { λ e. record {
      end_state = E.state e.end;
      failures = e.failures;
      receives = e.receives;
      latest = e.latest;
      behind = e.behind;
      listened = e.listened;
      asked = e.asked;
      until = e.until;
      ended = e.ended;
      collects = e.collects;
    } };
}

impl<E: End> fmt::Debug for DropsStale<E> {
    /// Until when the device has listened, and by how much the clock is behind that of the end inside.
    fn fmt<W: fmt::Write>(&self, f: &mut fmt::Formatter<W>) -> fmt::Result {
        f.debug_struct("DropsStale")
            .field("listened", &self.listened)
            .field("behind", &self.behind)
            .finish()
    }
}

impl<E: End> DropsStale<E> {
    ghost use Rattle.std.specs.Prelude.{◌≡◌, ℕ};
    ghost use Rattle.oca_net.specs.EndStates.{IsPresent};
    ghost use Rattle.oca_net.specs.Stale.{new_stale};

    /// Makes an end over the end `end`, which becomes the end inside. The device has listened until the present moment.
    /// Nothing is received or sent, no memory is taken, and nothing is refused.
    pub fn new(end: E) -> DropsStale<E>
        ensures { (now : ℕ) × IsPresent now (E.state end) × (result ≡ new_stale (E.state end) now) }
    {
        let now = end.now();
        DropsStale {
            end,
            failures: 0,
            receives: 0,
            latest: 0,
            behind: 0,
            listened: now,
            asked: now,
            until: now,
            ended: now,
            collects: 0,
        }
    }

    /// The end inside, which [`new`](DropsStale::new) was given.
    pub fn inside(&self) -> &E
        ensures { E.state result.now ≡ self.now.end_state }
    {
        &self.end
    }

    /// Receives once, from this moment of the end inside until that one, and drops what waited over a standstill.
    fn hear(&mut self, packet: &mut Packet, asked: u64, until: u64) -> Heard
        ensures packet { HoldsOnlyADatagram result packet.new.items }
        ensures fresh { HearsFresh result self.old self.new }
        ensures asked { self.new.asked ≡ asked }
        ensures waits { min until (min (asked + 1000) last_u64) ≤ self.new.until }
        ensures failures { self.new.failures ≡ failures_after result self.old.failures }
        ensures receives { self.new.receives ≡ one_more self.old.receives }
        ensures later { self.old.latest ≤ self.new.latest }
        ensures said { IsHeardBy self.new.latest result }
    {
        step(&mut self.receives);
        self.asked = asked;
        let is_closed = self.drop_stale(packet);
        self.until = until
            .min(asked.saturating_add(STANDSTILL_MS))
            .max(self.collects);
        let brought = self.end.receive_by(packet, self.until);
        self.ended = self.end.now();
        let heard = self.hand_on(brought, packet, is_closed);
        if heard == Heard::Failed {
            step(&mut self.failures);
        }
        heard
    }

    /// Drops what waits, where the device stood still since it listened last. Returns whether the end inside was
    /// closed.
    fn drop_stale(&mut self, packet: &mut Packet) -> bool
        ensures first { DropsFirst (is_standstill self.old.listened self.old.asked) result self.old.end_state
            self.new.end_state }
        ensures same { self.new ≡ record self.old {
          end_state = self.new.end_state;
          behind = min (self.old.behind + left_out self.old.listened self.old.asked) last_u64;
          collects = self.new.collects;
        } }
    {
        self.behind = self
            .behind
            .saturating_add(left_out(self.listened, self.asked));
        if !is_standstill(self.listened, self.asked) {
            return false;
        }
        let last = drop_waiting(&mut self.end, packet);
        self.collects = self.end.now().saturating_add(COLLECTING_MS);
        last == Heard::Closed
    }

    /// Hands on what the end inside brought: no datagram where the device stood still within the receive, and Closed
    /// where that end was closed before.
    fn hand_on(&mut self, brought: Heard, packet: &mut Packet, is_closed: bool) -> Heard
        requires { HoldsOnlyADatagram brought packet.old.items }
        ensures packet { HoldsOnlyADatagram result packet.new.items }
        ensures handed { result ≡ handed_on (is_standstill self.old.until self.old.ended)
            is_closed self.new.latest brought }
        ensures clock { self.new.latest
            ≡ latest_after (is_standstill self.old.until self.old.ended) is_closed self.old.behind self.old.latest brought }
        ensures same { self.new ≡ record self.old {
          latest = self.new.latest;
          listened = if is_standstill self.old.until self.old.ended then self.old.until else self.old.ended;
        } }
        ensures later { self.old.latest ≤ self.new.latest }
        ensures said { IsHeardBy self.new.latest result }
    {
        let is_late = is_standstill(self.until, self.ended);
        self.listened = if is_late { self.until } else { self.ended };
        if is_closed || is_late {
            packet.clear();
        }
        match brought {
            _ if is_closed => Heard::Closed,
            Heard::Failed | Heard::Closed => brought,
            _ if is_late => Heard::Quiet { now: self.latest },
            Heard::Datagram { from, now } => {
                let now = self.say(now);
                Heard::Datagram { from, now }
            }
            Heard::Quiet { now } => {
                let now = self.say(now);
                Heard::Quiet { now }
            }
            Heard::Oversize { now } => {
                let now = self.say(now);
                Heard::Oversize { now }
            }
        }
    }

    /// The moment of the end's own clock at this one of the end inside, no earlier than the latest one. It is noted.
    fn say(&mut self, now: u64) -> u64
        ensures new { self.new ≡ record self.old { latest = max self.old.latest (now - self.old.behind) } }
        ensures said { result ≡ self.new.latest }
    {
        self.latest = self.latest.max(now.saturating_sub(self.behind));
        self.latest
    }
}

impl<E: End> End for DropsStale<E> {
    ghost use Rattle.std.specs.Prelude.{◌≡◌, ◌≤◌, ◌+◌, ◌-◌, ℕ, length, max, min};
    ghost use Rattle.oca_net.specs.Ends.{largest_datagram, last_u64};
    ghost use Rattle.oca_net.specs.EndStates.{IsPresent, Receives, Sends};
    ghost use Rattle.oca_net.specs.Stale.{HearsFresh, state_of_stale};

    ghost state = { state_of_stale };

    /// Waits up to 50 ms for a datagram, and drops what waited over a standstill.
    fn receive(&mut self, packet: &mut Packet) -> Heard
        ensures end { Receives result packet.new.items (state_of_stale self.old) (state_of_stale self.new) }
        ensures fresh { HearsFresh result self.old self.new }
        ensures waits { min (self.new.asked + 50) last_u64 ≤ self.new.until }
    {
        let now = self.end.now();
        self.hear(packet, now, now.saturating_add(WAIT_MS))
    }

    /// As `receive`, until this moment of its own clock, for at most 1,000 ms. For 300 ms after a standstill it waits
    /// until these are over, whatever the moment.
    fn receive_by(&mut self, packet: &mut Packet, moment: u64) -> Heard
        ensures end { Receives result packet.new.items (state_of_stale self.old) (state_of_stale self.new) }
        ensures fresh { HearsFresh result self.old self.new }
    {
        let now = self.end.now();
        let behind = self.behind;
        self.hear(packet, now, moment.saturating_add(behind))
    }

    /// The present moment of its own clock.
    fn now(&self) -> u64
        ensures clock { (inside : ℕ) × IsPresent inside self.now.end_state
            × (result ≡ max self.now.latest (inside - self.now.behind)) }
        ensures later { self.now.latest ≤ result }
        ensures fits { result ≤ last_u64 }
    {
        self.end.now().saturating_sub(self.behind).max(self.latest)
    }

    /// Sends through the end inside.
    fn send(&mut self, to: Peer, bytes: &[u8]) -> bool
        requires { length bytes.now ≤ largest_datagram }
        ensures end { Sends result to bytes.now (state_of_stale self.old) (state_of_stale self.new) }
        ensures inside { Sends result to bytes.now self.old.end_state self.new.end_state }
    {
        let was_taken = self.end.send(to, bytes);
        if !was_taken {
            step(&mut self.failures);
        }
        was_taken
    }
}

/// Whether the device stood still from the one moment to the other.
fn is_standstill(from: u64, to: u64) -> bool
    ensures { result ≡ is_standstill from to }
{
    STANDSTILL_MS < to.saturating_sub(from)
}

/// How much of the time between two moments the clock leaves out, in milliseconds.
fn left_out(from: u64, to: u64) -> u64
    ensures { result ≡ left_out from to }
{
    let between = to.saturating_sub(from);
    if is_standstill(from, to) && between <= LONGEST_PARDONED_MS {
        between - STANDSTILL_MS
    } else {
        0
    }
}

/// Drops what waits in an end, and returns what it said last.
fn drop_waiting<E: End>(end: &mut E, packet: &mut Packet) -> Heard
    ensures { DropsAll result (E.state end.old) (E.state end.new) }
{
    let mut last = Heard::Failed;
    for _received in 0..MOST_DROPPED {
        let now = end.now();
        last = end.receive_by(packet, now);
        if matches!(last, Heard::Quiet { .. } | Heard::Closed) {
            return last;
        }
    }
    last
}
