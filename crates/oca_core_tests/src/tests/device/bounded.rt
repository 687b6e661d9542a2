//! Outboxes with room for some packets only.
use super::parts::bytes_of;
use super::*;
use crate::tests::{Agrees, Row, Said, all_agree, plays};
use Part::*;
use oca_device::BoundedOutbox;

/// A peer sends a datagram at 0: the verdict, the packets that are kept, and whether others are left out.
struct Hears(&'static [Part], Verdict, &'static [&'static [Part]], bool);

/// A device and its outbox.
#[derive(Drop)]
struct Bench {
    device: Device,
    outbox: BoundedOutbox,
}

/// Whether the outbox holds these packets.
fn keeps(outbox: &BoundedOutbox, packets: &[&[Part]], said: &mut Said) -> bool {
    for (at, parts) in packets.iter().enumerate() {
        match outbox.get(at) {
            Some(packet) => {
                if !is_of(packet.as_slice(), parts, said) {
                    return false;
                }
            }
            None => return false,
        }
    }
    said.same(outbox.packets().len(), packets.len())
}

impl Agrees<Bench> for Hears {
    /// Whether this comes of it.
    fn agrees(&self, on: &mut Bench, said: &mut Said) -> bool {
        let bytes = bytes_of(self.0);
        said.same(
            on.device
                .datagram_within(A, bytes.as_slice(), 0, &mut on.outbox),
            self.1,
        ) && keeps(&on.outbox, self.2, said)
            && said.same(on.outbox.is_cut(), self.3)
    }
}

/// GetState of 4097 and 4098 in one PDU.
const TWO_GETS: Part = Bytes(&[
    0x3b, 0, 1, 0, 0, 0, 0x2b, 1, 0, 2, 0, 0, 0, 0x11, 0, 0, 0, 1, 0, 0, 0x10, 1, 0, 4, 0, 1, 0, 0,
    0, 0, 0x11, 0, 0, 0, 2, 0, 0, 0x10, 2, 0, 4, 0, 1, 0,
]);

/// Its answer in one.
const TWO_STATES: Part = Bytes(&[
    0x3b, 0, 1, 0, 0, 0, 0x1f, 3, 0, 2, 0, 0, 0, 0x0b, 0, 0, 0, 1, 0, 1, 1, 0, 0, 0, 0x0b, 0, 0, 0,
    2, 0, 1, 1,
]);

/// GetState of 4097, a keep-alive, and GetState of 4098: each is answered in a packet of its own.
const THREE: &[Part] = &[GET, ONE_SECOND, SECOND];

/// GetState of 4098 under handle 2.
const SECOND: Part = Command(1, 2, 4098, (4, 1), &[]);

/// Where there is room for none, each answer is left out. What asks for none leaves none out.
const NONE: &[Hears] = rows! {
    Hears(&[GET], EXECUTED, &[], true),
    Hears(&[GET], KEPT, &[], true),
    Hears(&[Command(0, 3, 4097, (4, 1), &[])], EXECUTED, &[], false),
};

/// Where there is room for one, the first is kept, and what joins it. A response behind one that was left out joins no
/// packet before that; its command was executed, and gets the retained reply.
const ONE: &[Hears] = rows! {
    Hears(THREE, served!(2, 0, 0, 0), &[&[MUTED]], true),
    Hears(&[SECOND], KEPT, &[&[State(2, 1)]], false),
    Hears(&[TWO_GETS, ONE_SECOND], served!(0, 2, 0, 0), &[&[TWO_STATES]], true),
    Hears(&[], EMPTY, &[], false),
};

/// Where there is room for all, none is left out.
const ALL: &[Hears] = &[Hears(
    THREE,
    served!(2, 0, 0, 0),
    &[&[MUTED], &[ONE_SECOND], &[State(2, 1)]],
    false,
)];

/// A script by its name, and for how many packets its outbox has room.
struct Script(&'static str, usize, &'static [Hears]);

const SCRIPTS: &[Script] = rows! {
    Script("room_for_none", 0, NONE),
    Script("room_for_one", 1, ONE),
    Script("room_for_all", 3, ALL),
};

impl Row for Script {
    /// Whether each datagram comes out so, and the outbox can be emptied then.
    fn agrees(&self, said: &mut Said) -> bool {
        let outbox = BoundedOutbox::with_room(said.alloc, self.1);
        let (Some(device), Ok(outbox)) = (device_of(said.alloc, Setup::Window(32)), outbox) else {
            return false;
        };
        let mut on = Bench { device, outbox };
        let agrees = plays(&mut on, self.0, self.2, said);
        on.outbox.clear();
        agrees && on.outbox.packets().is_empty() && said.same(on.outbox.room(), self.1)
    }
}

#[test]
fn an_outbox_keeps_what_it_has_room_for(rt: HostRuntime) {
    all_agree(&rt, "outboxes with little room", SCRIPTS);
    // An outbox is refused that no memory has room for.
    assert!(rt; BoundedOutbox::with_room(rt.alloc(), usize::MAX).is_err());
}
