//! Objects that are set, over an end in memory.
use super::{DEVICE, NO_LIMIT};
use crate::tests::coming::Coming::{self, Datagram};
use crate::tests::coming::end;
use crate::tests::fakes::ShortWriter;
use crate::tests::{Row, Said};
use oca_control::Link;
use oca_net::MemoryEnd;
use oca_panel::Panel;
use oca_program::RunFault;
use oca_script::Printer;
use oca_types::{Handle, Ono, Span, Text};
use ocactl_cli::command::Pair;
use ocactl_cli::objects::set_all;
use std::alloc::Global;

/// Under handle 1 the object is a mute.
const CLASS_1: &[u8] =
    b"\x3b\x00\x01\x00\x00\x00\x1f\x03\x00\x01\x00\x00\x00\x16\x00\x00\x00\x01\x00\x01\x00\x04\x00\x01\x00\x01\x00\x01\
    \x00\x02\x00\x02";

/// Under handle 2 the object is a mute.
const CLASS_2: &[u8] =
    b"\x3b\x00\x01\x00\x00\x00\x1f\x03\x00\x01\x00\x00\x00\x16\x00\x00\x00\x02\x00\x01\x00\x04\x00\x01\x00\x01\x00\x01\
    \x00\x02\x00\x02";

/// Under handle 3 the object is a mute.
const CLASS_3: &[u8] =
    b"\x3b\x00\x01\x00\x00\x00\x1f\x03\x00\x01\x00\x00\x00\x16\x00\x00\x00\x03\x00\x01\x00\x04\x00\x01\x00\x01\x00\x01\
    \x00\x02\x00\x02";

/// Under handle 6 the object is set.
const DONE_6: &[u8] =
    b"\x3b\x00\x01\x00\x00\x00\x13\x03\x00\x01\x00\x00\x00\x0a\x00\x00\x00\x06\x00\x00";

/// Under handle 5 the object is set.
const DONE_5: &[u8] =
    b"\x3b\x00\x01\x00\x00\x00\x13\x03\x00\x01\x00\x00\x00\x0a\x00\x00\x00\x05\x00\x00";

/// Under handle 4 the object is set.
const DONE_4: &[u8] =
    b"\x3b\x00\x01\x00\x00\x00\x13\x03\x00\x01\x00\x00\x00\x0a\x00\x00\x00\x04\x00\x00";

/// Under handle 5 the object is locked.
const LOCKED_5: &[u8] =
    b"\x3b\x00\x01\x00\x00\x00\x13\x03\x00\x01\x00\x00\x00\x0a\x00\x00\x00\x05\x03\x00";

/// Under handle 4294967291 the object is a mute.
const CLASS_LAST_5: &[u8] =
    b"\x3b\x00\x01\x00\x00\x00\x1f\x03\x00\x01\x00\x00\x00\x16\xff\xff\xff\xfb\x00\x01\x00\x04\x00\x01\x00\x01\x00\x01\
    \x00\x02\x00\x02";

/// Under handle 4294967292 the object is a mute.
const CLASS_LAST_4: &[u8] =
    b"\x3b\x00\x01\x00\x00\x00\x1f\x03\x00\x01\x00\x00\x00\x16\xff\xff\xff\xfc\x00\x01\x00\x04\x00\x01\x00\x01\x00\x01\
    \x00\x02\x00\x02";

/// Under handle 4294967293 the object is a mute.
const CLASS_LAST_3: &[u8] =
    b"\x3b\x00\x01\x00\x00\x00\x1f\x03\x00\x01\x00\x00\x00\x16\xff\xff\xff\xfd\x00\x01\x00\x04\x00\x01\x00\x01\x00\x01\
    \x00\x02\x00\x02";

/// Under handle 4294967295 the object is locked.
const LOCKED_LAST_1: &[u8] =
    b"\x3b\x00\x01\x00\x00\x00\x13\x03\x00\x01\x00\x00\x00\x0a\xff\xff\xff\xff\x03\x00";

/// Under handle 4294967294 the object is set.
const DONE_LAST_2: &[u8] =
    b"\x3b\x00\x01\x00\x00\x00\x13\x03\x00\x01\x00\x00\x00\x0a\xff\xff\xff\xfe\x00\x00";

/// Three mutes are set, so many at once: the first handle; the answers to the commands that ask what they are, and then
/// to those that set them, in the order in which they come; for how many bytes of output there is room; the exit
/// status, or why the setting is given up; what is printed; and how many commands are sent, each once.
pub struct Setting {
    first: u32,
    coming: &'static [Coming],
    ahead: u8,
    room: usize,
    ended: Result<u8, RunFault>,
    output: &'static [u8],
    sent: usize,
}

/// The answers to all commands, in their order.
const IN_ORDER: &[Coming] = &[
    Datagram(DEVICE, CLASS_1, 10),
    Datagram(DEVICE, CLASS_2, 10),
    Datagram(DEVICE, CLASS_3, 10),
    Datagram(DEVICE, DONE_4, 10),
    Datagram(DEVICE, DONE_5, 10),
    Datagram(DEVICE, DONE_6, 10),
];

pub const SETTINGS: &[Setting] = &[
    // answers that come in another order are printed in the order of the words
    Setting {
        first: 1,
        coming: &[
            Datagram(DEVICE, CLASS_1, 10),
            Datagram(DEVICE, CLASS_2, 10),
            Datagram(DEVICE, CLASS_3, 10),
            Datagram(DEVICE, DONE_6, 10),
            Datagram(DEVICE, DONE_5, 10),
            Datagram(DEVICE, DONE_4, 10),
        ],
        ahead: 3,
        room: NO_LIMIT,
        ended: Ok(0),
        output: b"4097 muted\n4098 unmuted\n4099 muted\n",
        sent: 6,
    },
    Setting {
        first: 1,
        coming: &[
            Datagram(DEVICE, CLASS_1, 10),
            Datagram(DEVICE, CLASS_2, 10),
            Datagram(DEVICE, CLASS_3, 10),
            Datagram(DEVICE, DONE_6, 10),
            Datagram(DEVICE, DONE_5, 10),
            Datagram(DEVICE, DONE_4, 10),
        ],
        ahead: 32,
        room: NO_LIMIT,
        ended: Ok(0),
        output: b"4097 muted\n4098 unmuted\n4099 muted\n",
        sent: 6,
    },
    // what the device refuses has its line in its place
    Setting {
        first: 1,
        coming: &[
            Datagram(DEVICE, CLASS_1, 10),
            Datagram(DEVICE, CLASS_2, 10),
            Datagram(DEVICE, CLASS_3, 10),
            Datagram(DEVICE, DONE_6, 10),
            Datagram(DEVICE, LOCKED_5, 10),
            Datagram(DEVICE, DONE_4, 10),
        ],
        ahead: 3,
        room: NO_LIMIT,
        ended: Ok(4),
        output: b"4097 muted\n4098 Locked\n4099 muted\n",
        sent: 6,
    },
    // no handle is left for the last object: what the link refuses is printed behind those that are in flight
    Setting {
        first: 4_294_967_291,
        coming: &[
            Datagram(DEVICE, CLASS_LAST_5, 10),
            Datagram(DEVICE, CLASS_LAST_4, 10),
            Datagram(DEVICE, CLASS_LAST_3, 10),
            Datagram(DEVICE, LOCKED_LAST_1, 10),
            Datagram(DEVICE, DONE_LAST_2, 10),
        ],
        ahead: 3,
        room: NO_LIMIT,
        ended: Ok(3),
        output: b"4097 muted\n4098 Locked\n4099 refused 2 handles-spent\n",
        sent: 5,
    },
    // behind a line that can't be written nothing more is submitted
    Setting {
        first: 1,
        coming: IN_ORDER,
        ahead: 1,
        room: 10,
        ended: Err(RunFault::Write),
        output: b"4097 muted",
        sent: 4,
    },
    Setting {
        first: 1,
        coming: IN_ORDER,
        ahead: 1,
        room: 11,
        ended: Err(RunFault::Write),
        output: b"4097 muted\n",
        sent: 5,
    },
    // two are in flight as the first line can't be written
    Setting {
        first: 1,
        coming: IN_ORDER,
        ahead: 2,
        room: 0,
        ended: Err(RunFault::Write),
        output: b"",
        sent: 5,
    },
    // all are submitted by then
    Setting {
        first: 1,
        coming: IN_ORDER,
        ahead: 1,
        room: 24,
        ended: Err(RunFault::Write),
        output: b"4097 muted\n4098 unmuted\n",
        sent: 6,
    },
];

/// A panel over an end that delivers these answers.
fn panel(alloc: Global, setting: &Setting) -> Option<Panel<MemoryEnd>> {
    let link = Link::new(DEVICE, Handle(setting.first), 0, Span::default());
    match end(alloc, setting.coming, 30, None) {
        Some(end) => Some(Panel::new(link, end, 500)),
        None => None,
    }
}

/// A mute and the word for its value.
fn pair(ono: u32, word: &str) -> Option<Pair> {
    let word = Text::new(word)?;
    let ono = Ono(ono);
    Some(Pair { ono, word })
}

/// Three mutes and the words for their values.
fn pairs() -> Option<[Pair; 3]> {
    Some([
        pair(4097, "muted")?,
        pair(4098, "unmuted")?,
        pair(4099, "muted")?,
    ])
}

/// Whether the setting ends so over a panel, sends just so many commands, and prints just that.
fn sets_over(
    alloc: Global,
    panel: &mut Panel<MemoryEnd>,
    pairs: &[Pair],
    setting: &Setting,
    said: &mut Said,
) -> bool {
    let Some(ahead) = Span::new(setting.ahead) else {
        return false;
    };
    let mut to = Printer::new(ShortWriter::new(5000, setting.room));
    let ended = match set_all(alloc, panel, pairs, ahead, &mut to) {
        Ok(status) => Ok(status),
        Err(failure) => Err(failure.fault),
    };
    said.same(ended, setting.ended)
        && said.same_text(to.sink().taken.as_slice(), setting.output)
        && said.same(panel.end().taken().len(), setting.sent)
}

impl Row for Setting {
    /// Whether the setting ends so.
    fn agrees(&self, said: &mut Said) -> bool {
        let Some(pairs) = pairs() else {
            return false;
        };
        match panel(said.alloc, self) {
            Some(mut panel) => sets_over(said.alloc, &mut panel, &pairs, self, said),
            None => false,
        }
    }
}
