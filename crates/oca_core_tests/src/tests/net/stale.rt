//! A device that stands still, by a clock that the test sets.
use super::{A, B, LARGEST};
use oca_net::{DropsStale, End, Heard, MemoryEnd, Scripted};
use oca_types::{Packet, Peer};
use std::alloc::Global;
use std::cell::Cell;

/// An end beside a clock, which shows the next of these moments after each receive.
struct Clocked<'a, E> {
    end: E,
    clock: &'a Cell<u64>,
    moments: &'static [u64],
}

impl<E: Drop> Drop for Clocked<'_, E> {
    /// Lets the end go.
    fn drop(self) {
        let Clocked {
            end: _,
            clock: _,
            moments: _,
        } = self;
    }
}

impl<E: End> End for Clocked<'_, E> {
    ghost use Rattle.std.specs.Prelude.{◌≤◌, length, None};
    ghost use Rattle.oca_net.specs.Ends.{largest_datagram, last_u64};
    ghost use Rattle.oca_net.specs.EndStates.{Sends};

    // Its own moments are not the end's.
    ghost state = { λ c. record (E.state c.end) { moment = None; earliest = 0; latest = last_u64 } };

    /// Receives as the end does.
    fn receive(&mut self, packet: &mut Packet) -> Heard {
        if let Some((next, later)) = self.moments.split_first() {
            self.clock.set(*next);
            self.moments = later;
        }
        self.end.receive(packet)
    }

    /// As `receive`.
    fn receive_by(&mut self, packet: &mut Packet, _moment: u64) -> Heard {
        self.receive(packet)
    }

    /// The moment of the clock.
    fn now(&self) -> u64 {
        self.clock.get()
    }

    /// Sends as the end does.
    fn send(&mut self, to: Peer, bytes: &[u8]) -> bool
        requires { length bytes.now ≤ largest_datagram }
        ensures { Sends result to bytes.now
            (record (E.state self.old.end) { moment = None; earliest = 0; latest = last_u64 })
            (record (E.state self.new.end) { moment = None; earliest = 0; latest = last_u64 }) }
    {
        self.end.send(to, bytes)
    }
}

/// What the end inside brings, in order, and the moment of the clock after each receive.
const BRINGS: &[(Option<(Peer, usize)>, u64)] = &[
    // The device listens.
    (Some((A, 1)), 10),
    // It was not asked for exactly 1,000 ms: that is no standstill.
    (Some((B, 1)), 1_010),
    // A standstill of 1,990 ms: what waits is dropped, until nothing waits.
    (Some((A, 2)), 3_000),
    (Some((B, LARGEST + 1)), 3_000),
    (None, 3_000),
    (Some((A, 3)), 3_005),
    // The device stands still within a receive, which was to wait until 3,300 at most.
    (Some((A, 4)), 8_000),
    // So the next one drops what waits.
    (Some((B, 4)), 8_000),
    (None, 8_000),
    (Some((A, 5)), 8_001),
    // A standstill of more than a minute.
    (None, 100_000),
    (None, 100_050),
    // A standstill over an end that is closed: its script is over.
];

/// When the device asks, and what it hears.
const HEARS: &[(u64, Heard)] = rows! {
    (0, Heard::Datagram { from: A, now: 10 }),
    (1_010, Heard::Datagram { from: B, now: 1_010 }),
    // 990 ms of the standstill are not counted.
    (3_000, Heard::Datagram { from: A, now: 2_015 }),
    // What came after the standstill is dropped.
    (3_010, Heard::Quiet { now: 2_015 }),
    // It listened until 3,300: 3,700 ms more are not counted.
    (8_000, Heard::Datagram { from: A, now: 3_311 }),
    // A standstill of over a minute is counted in full.
    (100_000, Heard::Quiet { now: 95_360 }),
    (102_000, Heard::Closed),
};

/// A script of these receives; where memory is refused, none.
fn script(alloc: Global) -> Option<Vec<Scripted>> {
    let mut script = Vec::new(alloc);
    for (brought, now) in BRINGS {
        let entry = match brought {
            Some((from, size)) => Scripted::Datagram {
                from: *from,
                bytes: vec![in alloc; 0u8; *size].ok()?,
                now: *now,
            },
            None => Scripted::Quiet { now: *now },
        };
        script.push(entry).ok()?;
    }
    Some(script)
}

/// The moments of the clock.
const MOMENTS: &[u64] = &[
    10, 1_010, 3_000, 3_000, 3_000, 3_005, 8_000, 8_000, 8_000, 8_001, 100_000, 100_050, 102_000,
];

#[test]
fn what_waited_over_a_standstill_is_dropped(rt: HostRuntime) {
    let Some(script) = script(rt.alloc()) else {
        panic!(rt; "no memory for the script");
    };
    let Ok(end) = MemoryEnd::new(rt.alloc(), script, 1, None) else {
        panic!(rt; "no memory for the end");
    };
    let clock = Cell::new(0);
    let mut end = DropsStale::new(Clocked {
        end,
        clock: &clock,
        moments: MOMENTS,
    });
    let mut packet = Packet::new();
    for (asked, expected) in HEARS {
        clock.set(*asked);
        let heard = end.receive(&mut packet);
        assert_eq!(rt; heard, *expected, "asked at {asked}");
    }
    assert!(rt; end.send(A, &[1]));
    assert!(rt; !end.send(A, &[1]));
    assert_eq!(rt; end.inside().end.failures(), 1);
}
