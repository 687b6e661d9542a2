//! Ends in memory.
use super::{A, B, LARGEST, heard_by_now, hold, sends};
use crate::tests::ending::{Ending, Entry, Took, end_of};
use crate::tests::{Agrees, Row, Said, all_agree, are_found, plays};
use oca_net::{End, Heard, MemoryEnd};
use oca_types::{Packet, Peer};

/// A call of an end, and what it must answer.
#[derive(Clone, Copy)]
enum Step {
    /// A receive returns this, and the packet then holds these bytes.
    Hears(Heard, &'static [u8]),
    /// The end's moment, what a receive by it returns, and its moment then.
    HearsByNow(u64, Heard, u64),
    /// A send of bytes to a peer is taken, or not.
    Sends(Peer, &'static [u8], bool),
    /// So many calls failed.
    Failures(u64),
    /// These entries were delivered.
    Delivered(&'static [Entry]),
    /// These datagrams were taken.
    Taken(&'static [Took]),
}

use Step::*;

/// An end, and the packet that it receives into.
#[derive(Drop)]
struct Bench {
    end: MemoryEnd,
    packet: Packet,
}

impl Agrees<Bench> for Step {
    /// Whether the call is answered so.
    fn agrees(&self, on: &mut Bench, said: &mut Said) -> bool {
        let (end, packet) = (&mut on.end, &mut on.packet);
        match *self {
            Hears(heard, bytes) => said.same(end.receive(packet), heard)
                && said.same(packet.as_slice(), bytes),
            HearsByNow(before, heard, after) => said.same(
                heard_by_now(end, packet),
                (before, heard, after),
            ),
            Sends(to, bytes, taken) => sends(end, to, bytes, taken, said),
            Failures(count) => said.same(end.failures(), count),
            Delivered(entries) => are_found(end.delivered(), entries, said),
            Taken(wanted) => are_found(end.taken(), wanted, said),
        }
    }
}

/// An end and its calls, by their name.
struct InMemory(&'static str, Ending, &'static [Step]);

impl Row for InMemory {
    /// Whether each call is answered so. The packet holds bytes before the first.
    fn agrees(&self, said: &mut Said) -> bool {
        let Some(end) = end_of(said.alloc, self.1) else {
            return false;
        };
        let mut on = Bench {
            end,
            packet: Packet::new(),
        };
        hold(&mut on.packet, &[1, 2, 3]);
        plays(&mut on, self.0, self.2, said)
    }
}

/// Datagrams of 2, 1,473 and 1,472 bytes, and between them silence and a receive that fails.
const ENTRIES: &[Entry] = &[
    Entry::Datagram(A, &[0x3b, 0x00], 5),
    Entry::Quiet(7),
    Entry::Datagram(B, &[0; LARGEST + 1], 8),
    Entry::Failed,
    Entry::Datagram(B, &[9; LARGEST], 6),
];

// The script is heard in order, and behind it the end is closed. The packet holds bytes at a datagram alone.
const IN_ORDER: &[Step] = &[
    Delivered(&[]),
    Hears(Heard::Datagram { from: A, now: 5 }, &[0x3b, 0x00]),
    Hears(Heard::Quiet { now: 7 }, &[]),
    Hears(Heard::Oversize { now: 8 }, &[]),
    Failures(0),
    Hears(Heard::Failed, &[]),
    Failures(1),
    Hears(Heard::Datagram { from: B, now: 6 }, &[9; LARGEST]),
    Hears(Heard::Closed, &[]),
    Hears(Heard::Closed, &[]),
    Failures(1),
    Delivered(ENTRIES),
];

// The send that fails takes no room, and beyond the room each send fails.
const TO_THE_ROOM: &[Step] = &[
    Sends(A, &[1], true),
    Sends(A, &[2], false),
    Sends(B, &[3, 4], true),
    Sends(B, &[5], false),
    Failures(2),
    Taken(&[Took(A, &[1]), Took(B, &[3, 4])]),
];

const NO_TIME: &[Step] = &[HearsByNow(0, Heard::Quiet { now: 7 }, 0)];

const SCRIPTS: &[InMemory] = rows! {
    InMemory("delivers_its_script_in_order", delivers!(ENTRIES, 0), IN_ORDER),
    InMemory("takes_up_to_its_room", delivers!(&[], 2, fail_send: Some(1)), TO_THE_ROOM),
    InMemory("an_end_in_memory_keeps_no_time", delivers!(&[Entry::Quiet(7)], 1), NO_TIME),
};

#[test]
fn an_end_in_memory_delivers_its_script(rt: HostRuntime) {
    all_agree(&rt, "ends in memory", SCRIPTS);
}
