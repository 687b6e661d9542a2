//! A small device: the longest datagram and the longest reply for which it has room.
use super::parts::bytes_of;
use super::*;
use crate::tests::{Agrees, Row, Said, all_agree, plays};
use oca_device::{DeviceOf, SmallDevice};
use oca_tree::{Kind, MuteState, Spec, Tree, TreeBuilder};
use oca_types::Ono;

/// The first peer sends these parts at 0: the verdict, and the packets, of one part or more each.
struct Hears(&'static [Part], Verdict, &'static [&'static [Part]]);

/// A name of 14 bytes.
const NAME: &str = "fourteen bytes";

/// As an OcaString.
const AS_STRING: &[u8] = &[
    0, 14, 0x66, 0x6f, 0x75, 0x72, 0x74, 0x65, 0x65, 0x6e, 0x20, 0x62, 0x79, 0x74, 0x65, 0x73,
];

/// Names of a switch, the last one of at least 20 bytes: its GetPositionNames has 2 bytes of the count, 15 times 16,
/// and 2 and the last one's.
macro_rules! names {
    ($last:literal) => {
        [NAME, NAME, NAME, NAME, NAME, NAME, NAME, NAME, NAME, NAME, NAME, NAME, NAME, NAME, NAME, $last]
    };
}

/// 264 bytes.
const FITS: [&str; 16] = names!("20 bytes, as counted");

/// One byte more.
const TOO_LONG: [&str; 16] = names!("21 bytes, so too long");

/// A switch with these names at its first position.
const fn switch<'a>(names: &'a [&'a str]) -> Spec<'a> {
    Spec {
        role: "switch",
        lockable: true,
        kind: Kind::Switch { names, position: 0 },
    }
}

/// Adds the mute 4097 and the switches 4098 and 4099.
fn added(builder: &mut TreeBuilder) -> bool {
    let mute = Spec {
        role: "mute",
        lockable: true,
        kind: Kind::Mute(MuteState::Muted),
    };
    builder.add(Ono(100), Ono(4097), &mute).is_ok()
        && builder.add(Ono(100), Ono(4098), &switch(&FITS)).is_ok()
        && builder.add(Ono(100), Ono(4099), &switch(&TOO_LONG)).is_ok()
}

/// The objects of the scripts.
fn objects(alloc: Global) -> Option<Tree> {
    let mut builder = TreeBuilder::new(alloc).ok()?;
    if !added(&mut builder) {
        return None;
    }
    Some(builder.finish())
}

/// A small device and its outbox.
#[derive(Drop)]
struct Bench {
    device: SmallDevice,
    outbox: Outbox,
}

impl Agrees<Bench> for Hears {
    /// Whether this comes of it.
    fn agrees(&self, on: &mut Bench, said: &mut Said) -> bool {
        let bytes = bytes_of(self.0);
        let verdict = on.device.datagram(A, bytes.as_slice(), 0, &mut on.outbox);
        said.same(verdict, self.1) && holds(&on.outbox, self.2, said)
    }
}

/// A script by its name.
struct Script(&'static str, &'static [Hears]);

impl Row for Script {
    /// Whether each datagram comes out so, at a small device.
    fn agrees(&self, said: &mut Said) -> bool {
        let Some(tree) = objects(said.alloc) else {
            return false;
        };
        let (Ok(device), Ok(outbox)) = (
            SmallDevice::new(said.alloc, tree, Window::default()),
            Outbox::new(said.alloc),
        ) else {
            return false;
        };
        plays(&mut Bench { device, outbox }, self.0, self.1, said)
    }
}

/// The fault of a datagram of more than 91 bytes.
const LONG: Verdict = malformed!(TooLong, 91);

/// Three keep-alives of 1 second, in 42 bytes.
const BEATS: Part = Part::Times(3, &[0x3b, 0, 1, 0, 0, 0, 0x0d, 4, 0, 1, 0, 0, 3, 232]);

/// SetLabel of 4097 under handle 2 to 62 times `a`, in 91 bytes.
const SET_LABEL: [Part; 2] = [
    Part::Bytes(&[
        0x3b, 0, 1, 0, 0, 0, 0x5a, 1, 0, 1, 0, 0, 0, 0x51, 0, 0, 0, 2, 0, 0, 0x10, 1, 0, 2, 0, 9,
        1, 0, 62,
    ]),
    Part::Times(62, &[97]),
];

// A datagram has at most 91 bytes, whatever it holds. One with more serves nothing: no session is opened, no handle is
// used, and of all its commands none is executed.
const DATAGRAMS: &[Hears] = rows! {
    Hears(&[Part::Times(92, &[0])], LONG, &[]),
    Hears(&[Part::SetState(1, 2), Part::SetState(2, 2), BEATS], LONG, &[]),
    Hears(&[GET], EXECUTED, &[&[MUTED]]),
    Hears(&SET_LABEL, EXECUTED, &[&[Part::Done(2)]]),
    Hears(&SET_LABEL, KEPT, &[&[Part::Done(2)]]),
    Hears(&[Part::Command(1, 2, 4097, (2, 9), &[0, 0])], served!(0, 0, 0, 1), &[]),
    Hears(&[Part::Times(91, &[0])], malformed!(Sync, 0), &[]),
};

/// The response to GetPositionNames under handle 1, with 264 bytes of parameters.
const NAMES: &[Part] = &[
    Part::Bytes(&[
        0x3b, 0, 1, 0, 0, 1, 0x1b, 3, 0, 1, 0, 0, 1, 0x12, 0, 0, 0, 1, 0, 1, 0, 16,
    ]),
    Part::Times(15, AS_STRING),
    Part::Bytes(b"\x00\x1420 bytes, as counted"),
];

// A reply has at most 264 bytes of parameters. A longer one becomes BufferOverflow, and the duplicates get the same.
const REPLIES: &[Hears] = rows! {
    Hears(&[Part::Command(1, 1, 4098, (4, 5), &[])], EXECUTED, &[NAMES]),
    Hears(&[Part::Command(1, 2, 4099, (4, 5), &[])], EXECUTED, &[&[Part::Response(2, 14, 0, &[])]]),
    Hears(&[Part::Command(1, 2, 4099, (4, 5), &[])], KEPT, &[&[Part::Response(2, 14, 0, &[])]]),
    Hears(&[Part::SetState(3, 2)], EXECUTED, &[&[Part::Done(3)]]),
};

/// Whether a device with this room is made.
fn is_made<const COMMAND: usize, const ANSWER: usize>(alloc: Global) -> bool {
    match objects(alloc) {
        Some(tree) => DeviceOf::<COMMAND, ANSWER>::new(alloc, tree, Window::default()).is_ok(),
        None => false,
    }
}

const SCRIPTS: &[Script] = &[
    Script("serves_no_long_datagram", DATAGRAMS),
    Script("gives_no_long_reply", REPLIES),
];

#[test]
fn a_small_device_has_short_datagrams_and_replies(rt: HostRuntime) {
    let alloc = rt.alloc();
    // Devices are made with as much room as there may be, and none with more.
    assert!(rt; is_made::<0, 0>(alloc) && is_made::<1445, 1>(alloc) && is_made::<2, 1452>(alloc));
    assert!(rt; !is_made::<1446, 1>(alloc) && !is_made::<2, 1453>(alloc));
    all_agree(&rt, "a small device", SCRIPTS);
}
