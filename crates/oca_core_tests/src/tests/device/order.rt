//! In which order a turn sends the answers, tells the electronics and stores the objects: no clause says it, since an
//! end, electronics and a store know nothing of each other.
use super::{A, Setup, device_of};
use crate::tests::ending::{Ending, Entry, end_of};
use oca_device::{Electronics, Keeping, Outbox, Store, serve_keeping, serve_with};
use oca_net::{End, Heard, MemoryEnd};
use oca_tree::Tree;
use oca_types::{Ono, Packet, Peer};
use std::alloc::Global;
use std::cell::Cell;

/// A command that sets the mute 4097 to Unmuted, under handle 1.
const UNMUTES: [u8; 28] = [
    0x3b, 0, 1, 0, 0, 0, 0x1b, 1, 0, 1, 0, 0, 0, 0x12, 0, 0, 0, 1, 0, 0, 0x10, 1, 0, 4, 0, 2, 1, 2,
];

/// The next number.
fn next(count: &Cell<u32>) -> u32 {
    count.set(count.get().saturating_add(1));
    count.get()
}

/// An end over another one that notes when it sent last.
struct Sending<'a, E> {
    end: E,
    count: &'a Cell<u32>,
    sent: u32,
}

impl<E: Drop> Drop for Sending<'_, E> {
    /// Lets the end go.
    fn drop(self) {
        let Sending {
            end: _,
            count: _,
            sent: _,
        } = self;
    }
}

impl<E: End> End for Sending<'_, E> {
    ghost use Rattle.std.specs.Prelude.{◌≤◌, length};
    ghost use Rattle.oca_net.specs.Ends.{largest_datagram};
    ghost use Rattle.oca_net.specs.EndStates.{Receives, Sends};

    ghost state = { λ s. E.state s.end };

    /// Receives as the end does.
    fn receive(&mut self, packet: &mut Packet) -> Heard
        ensures { Receives result packet.new.items (E.state self.old.end) (E.state self.new.end) }
    {
        self.end.receive(packet)
    }

    /// As `receive`, until this moment of the end's at most.
    fn receive_by(&mut self, packet: &mut Packet, moment: u64) -> Heard
        ensures { Receives result packet.new.items (E.state self.old.end) (E.state self.new.end) }
    {
        self.end.receive_by(packet, moment)
    }

    /// The end's present moment.
    fn now(&self) -> u64 {
        self.end.now()
    }

    /// Sends as the end does.
    fn send(&mut self, to: Peer, bytes: &[u8]) -> bool
        requires { length bytes.now ≤ largest_datagram }
        ensures { Sends result to bytes.now (E.state self.old.end) (E.state self.new.end) }
    {
        self.sent = next(self.count);
        self.end.send(to, bytes)
    }
}

/// Electronics that note when they were told last.
#[derive(Drop)]
struct Told<'a> {
    count: &'a Cell<u32>,
    told: u32,
}

impl Electronics for Told<'_> {
    ghost use Rattle.std.specs.Prelude.{[], false};

    ghost state = { λ _. record { tells = false; followed = [] } };

    /// Notes when.
    fn follow(&mut self, _tree: &Tree, _written: &[Ono]) {
        self.told = next(self.count);
    }
}

/// A store that notes when it stored last.
#[derive(Drop)]
struct Stored<'a> {
    count: &'a Cell<u32>,
    stored: u32,
}

impl Store for Stored<'_> {
    ghost use Rattle.std.specs.Prelude.{[], false};

    ghost state = { λ _. record { tells = false; storings = [] } };

    /// Notes when.
    fn store(&mut self, _tree: &Tree) -> bool {
        self.stored = next(self.count);
        true
    }
}

const COMES: &[Entry] = &[Entry::Datagram(A, &UNMUTES, 0)];

/// An end that delivers the command; where memory is refused, none.
fn end(alloc: Global, count: &Cell<u32>) -> Option<Sending<'_, MemoryEnd>> {
    let end = end_of(alloc, delivers!(COMES, 1))?;
    Some(Sending {
        end,
        count,
        sent: 0,
    })
}

#[test]
fn answers_leave_before_the_electronics_are_told(rt: HostRuntime) {
    let count = Cell::new(0);
    let (Some(mut end), Some(mut device), Ok(mut outbox)) = (
        end(rt.alloc(), &count),
        device_of(rt.alloc(), Setup::Window(32)),
        Outbox::new(rt.alloc()),
    ) else {
        panic!(rt; "no memory");
    };
    let mut electronics = Told {
        count: &count,
        told: 0,
    };
    let report = serve_with(&mut device, &mut end, &mut outbox, &mut electronics, 1);
    assert_eq!(rt; (report.executed, end.sent, electronics.told), (1, 1, 2));
}

#[test]
fn a_change_is_told_then_stored_then_answered(rt: HostRuntime) {
    let count = Cell::new(0);
    let (Some(mut end), Some(mut device), Ok(mut outbox), Ok(mut keeping)) = (
        end(rt.alloc(), &count),
        device_of(rt.alloc(), Setup::Window(32)),
        Outbox::new(rt.alloc()),
        Keeping::new(rt.alloc()),
    ) else {
        panic!(rt; "no memory");
    };
    let mut electronics = Told {
        count: &count,
        told: 0,
    };
    let mut store = Stored {
        count: &count,
        stored: 0,
    };
    let report = serve_keeping(
        &mut device,
        &mut end,
        &mut outbox,
        &mut keeping,
        &mut store,
        &mut electronics,
        1,
    );
    assert_eq!(rt;
        (report.executed, electronics.told, store.stored, end.sent),
        (1, 1, 2, 3)
    );
}
