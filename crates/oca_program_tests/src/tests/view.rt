//! A view of a device goes on over another end once half of the handles are used, and tells when the device was heard,
//! in memory.
use super::coming::Coming::{self, Datagram, Quiet};
use super::coming::end;
use crate::tests::{Row, Said, all_agree};
use oca_net::MemoryEnd;
use oca_panel::Panel;
use oca_types::{Handle, Ono, Packet, Peer, Span};
use oca_web::{Action, Identity, NewOrder, View};
use std::alloc::Global;

const DEVICE: Peer = Peer {
    ip: 0x7f00_0001,
    port: 65000,
};

/// The first handle: behind three commands half of those above it are used.
const FIRST: u32 = 4_294_967_289;

/// The answers to the first three commands, and to those over the end after it.
const ANSWERS: &[Coming] = &[
    Datagram(
        DEVICE,
        b"\x3b\x00\x01\x00\x00\x00\x13\x03\x00\x01\x00\x00\x00\x0a\xff\xff\xff\xf9\x00\x00",
        10,
    ),
    Datagram(
        DEVICE,
        b"\x3b\x00\x01\x00\x00\x00\x13\x03\x00\x01\x00\x00\x00\x0a\xff\xff\xff\xfa\x00\x00",
        10,
    ),
    Datagram(
        DEVICE,
        b"\x3b\x00\x01\x00\x00\x00\x13\x03\x00\x01\x00\x00\x00\x0a\xff\xff\xff\xfb\x00\x00",
        10,
    ),
];

const ANSWERS_BEHIND: &[Coming] = &[
    Datagram(
        DEVICE,
        b"\x3b\x00\x01\x00\x00\x00\x13\x03\x00\x01\x00\x00\x00\x0a\x00\x00\x00\x01\x00\x00",
        10,
    ),
    Datagram(
        DEVICE,
        b"\x3b\x00\x01\x00\x00\x00\x13\x03\x00\x01\x00\x00\x00\x0a\x00\x00\x00\x02\x00\x00",
        10,
    ),
];

/// The commands that the first end took, and those that the second one took at first: the handle and the object of
/// each. An order of the root waits for its role, which no answer says. So the role is asked first, and again over the
/// second end.
const TAKEN: &[(u32, u32)] = &[(FIRST, 100), (FIRST + 1, 100), (FIRST + 2, 100)];

const TAKEN_BEHIND: &[(u32, u32)] = &[(1, 100), (2, 100)];

/// The last moment of the first end, and whether the program stood still until then: then the order waits no longer.
pub struct Changes {
    last: u64,
    stood_still: bool,
}

pub const CHANGES: &[Changes] = &[
    Changes {
        last: 2000,
        stood_still: false,
    },
    Changes {
        last: 2001,
        stood_still: true,
    },
];

/// The number of four bytes at this place of a datagram.
fn number_at(packet: &Packet, place: usize) -> Option<u32> {
    match packet.as_slice().get(place..place.saturating_add(4)) {
        Some([a, b, c, d]) => Some(u32::from_be_bytes([*a, *b, *c, *d])),
        _ => None,
    }
}

/// Whether a datagram has the command of this handle for this object.
fn is_command(packet: &Packet, wanted: (u32, u32), said: &mut Said) -> bool {
    said.same(number_at(packet, 14), Some(wanted.0))
        && said.same(number_at(packet, 18), Some(wanted.1))
}

/// Whether the first commands that an end took are these, each once.
fn took(end: &MemoryEnd, wanted: &[(u32, u32)], said: &mut Said) -> bool {
    let taken = end.taken();
    wanted.len() <= taken.len()
        && (0..wanted.len()).all(|at| is_command(&taken[at].1, wanted[at], said))
}

/// Takes an order.
fn takes_order(view: &mut View, said: &mut Said) -> bool {
    let wanted = NewOrder {
        ono: Ono(100),
        identity: Identity::default(),
        action: Action::Lock,
    };
    view.order_all(&[wanted], u64::MAX).is_some() && said.same(view.next_ticket(), 2)
}

/// Goes on, and takes so many turns. Whether there was memory.
fn goes_on(view: &mut View, panel: &mut Panel<MemoryEnd>, turns: usize, said: &mut Said) -> bool {
    if view.go_on(panel).is_err() {
        return false;
    }
    for _ in 0..turns {
        if view.take_turn(panel).is_err() {
            return false;
        }
    }
    view.go_on(panel).is_ok()
}

/// Whether these orders are submitted over an end that delivers this, by a link with this first handle.
fn runs(
    alloc: Global,
    view: &mut View,
    first: Handle,
    coming: &[Coming],
    wanted: &[(u32, u32)],
    said: &mut Said,
) -> bool {
    match end(alloc, coming, 64, None) {
        Some(end) => {
            let mut panel = Panel::open(DEVICE, end, first, Span::default(), 0);
            goes_on(view, &mut panel, coming.len(), said) && took(panel.end(), wanted, said)
        }
        None => false,
    }
}

impl Changes {
    /// Whether the view goes on as it must over both ends.
    fn goes_on(&self, alloc: Global, view: &mut View, said: &mut Said) -> bool {
        takes_order(view, said)
            && !view.wants_end()
            && runs(alloc, view, Handle(FIRST), ANSWERS, TAKEN, said)
            && view.wants_end()
            && self.changes(view, said)
            && runs(alloc, view, Handle(1), ANSWERS_BEHIND, TAKEN_BEHIND, said)
    }

    /// Whether the view keeps what it is to keep when it takes another end: the objects and the tickets, and the orders
    /// that wait where the program did not stand still.
    fn changes(&self, view: &mut View, said: &mut Said) -> bool {
        let objects = view.inventory().objects().as_slice().len();
        let stood_still = view.take_end(Handle(1), 500, self.last, 3);
        said.same(stood_still, self.stood_still)
            && said.same(view.orders().waits(), !stood_still)
            && !view.wants_end()
            && said.same(view.next_ticket(), 2)
            && said.same(view.moment(), self.last)
            && said.same(view.ahead(), self.last.saturating_sub(500))
            && said.same(view.inventory().objects().as_slice().len(), objects)
            && said.same(view.submitted(), 3)
    }
}

impl Row for Changes {
    /// Whether it does.
    fn agrees(&self, said: &mut Said) -> bool {
        match View::new(said.alloc, DEVICE, Span::default(), Handle(FIRST), 0) {
            Ok(mut view) => self.goes_on(said.alloc, &mut view, said),
            Err(_) => false,
        }
    }
}

#[test]
fn a_view_goes_on_over_another_end(rt: HostRuntime) {
    all_agree(&rt, "a view goes on over another end", CHANGES);
}

/// What comes in the first turn of a view's link, and when the view then tells that the device was heard.
pub struct Hearing {
    coming: &'static [Coming],
    heard: Option<u64>,
}

const HEARD: Coming = Datagram(
    DEVICE,
    b"\x3b\x00\x01\x00\x00\x00\x13\x03\x00\x01\x00\x00\x00\x0a\xff\xff\xff\xf9\x00\x00",
    20,
);

pub const HEARINGS: &[Hearing] = &[
    Hearing {
        coming: &[Quiet(20)],
        heard: None,
    },
    Hearing {
        coming: &[HEARD],
        heard: Some(20),
    },
];

impl Hearing {
    /// Whether a view that was made at 0 ms tells so behind a turn.
    fn is_told(&self, view: &mut View, end: MemoryEnd, said: &mut Said) -> bool {
        let mut panel = Panel::open(DEVICE, end, Handle(FIRST), Span::default(), 0);
        view.link().heard.is_none()
            && view.take_turn(&mut panel).is_ok()
            && said.same(view.link().heard, self.heard)
    }
}

impl Row for Hearing {
    /// Whether it does.
    fn agrees(&self, said: &mut Said) -> bool {
        match View::new(said.alloc, DEVICE, Span::default(), Handle(FIRST), 0) {
            Ok(mut view) => match end(said.alloc, self.coming, 64, None) {
                Some(end) => self.is_told(&mut view, end, said),
                None => false,
            },
            Err(_) => false,
        }
    }
}

#[test]
fn a_view_tells_when_it_heard_the_device(rt: HostRuntime) {
    all_agree(&rt, "a view tells when the device was heard", HEARINGS);
}
