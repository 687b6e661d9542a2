//! Commands that are sent, over an end in memory.
use super::{DEVICE, NO_LIMIT};
use crate::tests::coming::Coming::{self, Datagram, Quiet};
use crate::tests::coming::end;
use crate::tests::fakes::{PausedReader, PieceReader, ShortWriter};
use crate::tests::{AtPlace, Row, Said};
use oca_control::Link;
use oca_net::MemoryEnd;
use oca_script::{LineFault, Printer, ReplayFault, WriteFailed};
use oca_types::{Handle, MethodId, Ono, Request, Span};
use ocactl_cli::commands::{ask_once, send_all};
use ocactl_cli::session::Session;
use std::alloc::Global;

/// GetState of 4097.
const GET: Request<'static> = Request {
    target: Ono(4097),
    method: MethodId { level: 4, index: 1 },
    count: 0,
    params: &[],
};

/// The answer of status 0 to the command under handle 1, with one parameter byte.
const ANSWER_1_0: &[u8] =
    b"\x3b\x00\x01\x00\x00\x00\x14\x03\x00\x01\x00\x00\x00\x0b\x00\x00\x00\x01\x00\x01\x01";

/// The answer of status 1 to the command under handle 1, with one parameter byte.
const ANSWER_1_1: &[u8] =
    b"\x3b\x00\x01\x00\x00\x00\x14\x03\x00\x01\x00\x00\x00\x0b\x00\x00\x00\x01\x01\x01\x01";

/// The answer of status 3 to the command under handle 1, with one parameter byte.
const ANSWER_1_3: &[u8] =
    b"\x3b\x00\x01\x00\x00\x00\x14\x03\x00\x01\x00\x00\x00\x0b\x00\x00\x00\x01\x03\x01\x01";

/// The answer of status 255 to the command under handle 1, with one parameter byte.
const ANSWER_1_255: &[u8] =
    b"\x3b\x00\x01\x00\x00\x00\x14\x03\x00\x01\x00\x00\x00\x0b\x00\x00\x00\x01\xff\x01\x01";

/// The answer of status 2 to the command under handle 2, with one parameter byte.
const ANSWER_2_2: &[u8] =
    b"\x3b\x00\x01\x00\x00\x00\x14\x03\x00\x01\x00\x00\x00\x0b\x00\x00\x00\x02\x02\x01\x01";

/// The answer of status 7 to the command under handle 2, with one parameter byte.
const ANSWER_2_7: &[u8] =
    b"\x3b\x00\x01\x00\x00\x00\x14\x03\x00\x01\x00\x00\x00\x0b\x00\x00\x00\x02\x07\x01\x01";

/// The answer of status 3 to the command under handle 3, with one parameter byte.
const ANSWER_3_3: &[u8] =
    b"\x3b\x00\x01\x00\x00\x00\x14\x03\x00\x01\x00\x00\x00\x0b\x00\x00\x00\x03\x03\x01\x01";

/// Nothing, 30 times, 250 ms apart from 0 on.
const SILENCE: &[Coming] = &[
    Quiet(0),
    Quiet(250),
    Quiet(500),
    Quiet(750),
    Quiet(1000),
    Quiet(1250),
    Quiet(1500),
    Quiet(1750),
    Quiet(2000),
    Quiet(2250),
    Quiet(2500),
    Quiet(2750),
    Quiet(3000),
    Quiet(3250),
    Quiet(3500),
    Quiet(3750),
    Quiet(4000),
    Quiet(4250),
    Quiet(4500),
    Quiet(4750),
    Quiet(5000),
    Quiet(5250),
    Quiet(5500),
    Quiet(5750),
    Quiet(6000),
    Quiet(6250),
    Quiet(6500),
    Quiet(6750),
    Quiet(7000),
    Quiet(7250),
];

/// Nothing for 5,000 ms, after which a command is lost, and then the answer to the next one.
const LOSS: &[Coming] = &[
    Quiet(0),
    Quiet(250),
    Quiet(500),
    Quiet(750),
    Quiet(1000),
    Quiet(1250),
    Quiet(1500),
    Quiet(1750),
    Quiet(2000),
    Quiet(2250),
    Quiet(2500),
    Quiet(2750),
    Quiet(3000),
    Quiet(3250),
    Quiet(3500),
    Quiet(3750),
    Quiet(4000),
    Quiet(4250),
    Quiet(4500),
    Quiet(4750),
    Quiet(5000),
    Datagram(DEVICE, ANSWER_2_7, 5100),
];

/// A new link, whose first handle is 1.
fn link() -> Link {
    Link::new(DEVICE, Handle(1), 0, Span::default())
}

/// One command: what comes, the turns, the exit status, and what is printed.
pub struct Asking {
    coming: &'static [Coming],
    turns: u32,
    exit: u8,
    output: &'static [u8],
}

pub const ASKINGS: &[Asking] = &[
    Asking {
        coming: &[Quiet(0), Datagram(DEVICE, ANSWER_1_0, 10)],
        turns: 2,
        exit: 0,
        output: b"answer 0 1 01\n",
    },
    Asking {
        coming: &[Quiet(0), Datagram(DEVICE, ANSWER_1_3, 10)],
        turns: 2,
        exit: 4,
        output: b"answer 3 1 01\n",
    },
    Asking {
        coming: &[Quiet(0), Datagram(DEVICE, ANSWER_1_255, 10)],
        turns: 2,
        exit: 4,
        output: b"answer 255 1 01\n",
    },
    Asking {
        coming: &[Quiet(0), Datagram(DEVICE, ANSWER_1_0, 10)],
        turns: 1,
        exit: 3,
        output: b"no answer\n",
    },
    Asking {
        coming: &[Quiet(0), Datagram(DEVICE, ANSWER_1_0, 10)],
        turns: 0,
        exit: 3,
        output: b"no answer\n",
    },
];

/// Whether the command ends so over an end: it leaves at once, and each turn receives once.
fn ends_over(end: &mut MemoryEnd, asking: &Asking, said: &mut Said) -> bool {
    let mut to = Printer::new(ShortWriter::new(5, NO_LIMIT));
    let exit = ask_once(&mut link(), end, GET, asking.turns, &mut to);
    said.same(exit, Ok(asking.exit))
        && said.same_text(to.sink().taken.as_slice(), asking.output)
        && said.same(end.delivered().len(), asking.turns as usize)
        && !end.taken().is_empty()
}

impl Row for Asking {
    /// Whether the command ends so.
    fn agrees(&self, said: &mut Said) -> bool {
        match end(said.alloc, self.coming, 30, None) {
            Some(mut end) => ends_over(&mut end, self, said),
            None => false,
        }
    }
}

/// Whether an answer over an end, for which there is only so much room, is a failed write.
fn is_cut_over(end: &mut MemoryEnd, room: usize, said: &mut Said) -> bool {
    let mut to = Printer::new(ShortWriter::new(5, room));
    let exit = ask_once(&mut link(), end, GET, 2, &mut to);
    let text = to.sink().taken.as_slice();
    said.same(exit, Err(WriteFailed))
        && said.same(text.len(), room)
        && b"answer 0 1 01\n".starts_with(text)
}

/// An answer for which there are fewer than 14 bytes of room: what can't be written is a failed write, whatever the
/// answer.
pub struct Cut;

impl AtPlace for Cut {
    /// Whether it is where there is only so much room.
    fn holds(&self, room: usize, said: &mut Said) -> bool {
        match end(said.alloc, &[Datagram(DEVICE, ANSWER_1_0, 10)], 30, None) {
            Some(mut end) => is_cut_over(&mut end, room, said),
            None => false,
        }
    }
}

/// Lines, so many in flight at once, over an end that delivers this; the reader gives pieces of at most `piece` bytes,
/// of which it says `pauses` times before each that it is not there, and fails behind `given` or behind all of them,
/// and the writer behind `room`. How it ends, whether a read failed and whether a command got no answer, and what is
/// printed.
#[derive(Clone, Copy)]
pub struct Lines {
    ahead: u8,
    deliveries: &'static [Coming],
    lines: &'static [u8],
    piece: usize,
    pauses: u32,
    given: usize,
    fails_at_end: bool,
    room: usize,
    ended: Result<(), ReplayFault>,
    read_failed: bool,
    unanswered: bool,
    output: &'static [u8],
}

/// No line, which is read to its end.
const NO_LINES: Lines = Lines {
    ahead: 16,
    deliveries: &[],
    lines: b"",
    piece: 4000,
    pauses: 0,
    given: NO_LIMIT,
    fails_at_end: false,
    room: NO_LIMIT,
    ended: Ok(()),
    read_failed: false,
    unanswered: false,
    output: b"",
};

/// Two commands, behind the first of which the reader fails.
const FIRST_OF_TWO: Lines = Lines {
    deliveries: &[Datagram(DEVICE, ANSWER_1_1, 10)],
    lines: TWO,
    piece: 13,
    given: 13,
    ended: Err(ReplayFault::Read),
    read_failed: true,
    output: b"answer 1 1 01\n",
    ..NO_LINES
};

/// Three commands at once, whose answers have no room.
const CUT: Lines = Lines {
    ahead: 3,
    deliveries: BACKWARDS,
    lines: THREE_CLOSE,
    room: 0,
    ended: Err(ReplayFault::Write),
    ..NO_LINES
};

/// While no more is there to be read the first answer is written, which fails.
const BEFORE_A_READ: Lines = Lines {
    deliveries: &[Datagram(DEVICE, ANSWER_1_1, 10)],
    pauses: 4,
    fails_at_end: true,
    room: 0,
    ended: Err(ReplayFault::Write),
    ..NO_LINES
};

/// All answers to two commands are written while no more is there, and then a read fails.
const THEN_A_READ: Lines = Lines {
    deliveries: TWO_BACKWARDS,
    pauses: 4,
    fails_at_end: true,
    ended: Err(ReplayFault::Read),
    read_failed: true,
    output: b"answer 1 1 01\nanswer 2 1 01\n",
    ..NO_LINES
};

/// A session with so many in flight at once, over an end that delivers this.
fn session(alloc: Global, ahead: u8, deliveries: &[Coming]) -> Option<Session<MemoryEnd>> {
    let ahead = Span::new(ahead)?;
    match end(alloc, deliveries, 30, None) {
        Some(end) => Some(Session::open(DEVICE, end, Handle(1), Span::default(), ahead, None)),
        None => None,
    }
}

/// Whether the lines end so in a session.
fn sends_over(session: &mut Session<MemoryEnd>, row: &Lines, said: &mut Said) -> bool {
    if row.piece == 0 {
        return false;
    }
    let given = if row.fails_at_end {
        row.lines.len()
    } else {
        row.given
    };
    let reader = PieceReader::new(row.lines, row.piece, given);
    let mut from = PausedReader::new(reader, row.pauses);
    let mut to = Printer::new(ShortWriter::new(5000, row.room));
    let ended = send_all(session, &mut from, &mut to);
    said.same(ended, row.ended)
        && said.same(from.reader.failed, row.read_failed)
        && said.same(session.unanswered(), row.unanswered)
        && said.same_text(to.sink().taken.as_slice(), row.output)
}

impl Row for Lines {
    /// Whether the lines end so.
    fn agrees(&self, said: &mut Said) -> bool {
        match session(said.alloc, self.ahead, self.deliveries) {
            Some(mut session) => sends_over(&mut session, self, said),
            None => false,
        }
    }
}

/// The answers to three commands, the last one's first.
const BACKWARDS: &[Coming] = &[
    Datagram(DEVICE, ANSWER_3_3, 10),
    Datagram(DEVICE, ANSWER_2_2, 20),
    Datagram(DEVICE, ANSWER_1_1, 30),
];

/// Two commands, three with an empty line between them, and three.
const TWO: &[u8] = b"4097 4 1 0 -\n4097 4 1 0 -\n";

const THREE: &[u8] = b"4097 4 1 0 -\n4097 4 1 0 -\n\n4097 4 1 0 -\n";

const THREE_CLOSE: &[u8] = b"4097 4 1 0 -\n4097 4 1 0 -\n4097 4 1 0 -\n";

/// The answers to three, in the order of their lines.
const IN_ORDER: &[u8] = b"answer 1 1 01\nanswer 2 1 01\nanswer 3 1 01\n";

pub const ONE_AT_A_TIME: &[Lines] = &[
    // one command at a time: the second is sent behind the answer to the first, and an answer that comes twice is taken
    // once
    Lines {
        ahead: 1,
        deliveries: &[
            Quiet(0),
            Datagram(DEVICE, ANSWER_1_0, 10),
            Quiet(20),
            Datagram(DEVICE, ANSWER_1_0, 25),
            Datagram(DEVICE, ANSWER_2_7, 30),
        ],
        lines: b"4097 4 1 0 -\n# another\n4097 4 2 1 02\n",
        output: b"answer 0 1 01\nanswer 7 1 01\n",
        ..NO_LINES
    },
    // a link that is lost: the next line is sent over a new one, at an end that is closed then
    Lines {
        ahead: 1,
        deliveries: SILENCE,
        lines: TWO,
        unanswered: true,
        output: b"lost\nno answer\n",
        ..NO_LINES
    },
    // and at one over which the answer comes
    Lines {
        ahead: 1,
        deliveries: LOSS,
        lines: TWO,
        unanswered: true,
        output: b"lost\nanswer 7 1 01\n",
        ..NO_LINES
    },
];

pub const AT_ONCE: &[Lines] = &[
    // three commands in flight at once: answers that come in another order are printed in the order of the lines
    Lines {
        ahead: 3,
        deliveries: BACKWARDS,
        lines: THREE,
        output: IN_ORDER,
        ..NO_LINES
    },
    Lines {
        ahead: 4,
        deliveries: BACKWARDS,
        lines: THREE,
        output: IN_ORDER,
        ..NO_LINES
    },
    Lines {
        ahead: 16,
        deliveries: BACKWARDS,
        lines: THREE,
        output: IN_ORDER,
        ..NO_LINES
    },
    Lines {
        ahead: 32,
        deliveries: BACKWARDS,
        lines: THREE,
        output: IN_ORDER,
        ..NO_LINES
    },
    // `wait` lets no command go before the answers to all before it are there
    Lines {
        ahead: 16,
        deliveries: &[
            Datagram(DEVICE, ANSWER_2_2, 10),
            Datagram(DEVICE, ANSWER_1_1, 20),
            Datagram(DEVICE, ANSWER_3_3, 30),
        ],
        lines: b"wait\n4097 4 1 0 -\n4097 4 1 0 -\nwait\n4097 4 1 0 -\nwait\nwait",
        output: IN_ORDER,
        ..NO_LINES
    },
];

pub const ENDING: &[Lines] = &[
    // a bad line ends it once the commands before it are answered
    Lines {
        deliveries: BACKWARDS,
        lines: b"4097 4 1 0 -\n4097 4 1 0 -\n4097 4 1 0 -\n4097 4 1 0\n4097 4 1 0 -\n",
        ended: Err(ReplayFault::Line(4, LineFault::Form)),
        output: IN_ORDER,
        ..NO_LINES
    },
    // the answer to a line is written before the next line is read, however many may be in flight
    Lines {
        ahead: 1,
        ..FIRST_OF_TWO
    },
    FIRST_OF_TWO,
];

pub const CUT_LINES: &[Lines] = &[
    // answers that can't be written end it with a failed write, wherever that is
    CUT,
    Lines {
        room: 1,
        output: b"a",
        ..CUT
    },
    Lines {
        room: 13,
        output: b"answer 1 1 01",
        ..CUT
    },
    Lines {
        room: 14,
        output: b"answer 1 1 01\n",
        ..CUT
    },
    Lines {
        room: 41,
        output: b"answer 1 1 01\nanswer 2 1 01\nanswer 3 1 01",
        ..CUT
    },
];

/// The answers to two commands, the last one's first.
const TWO_BACKWARDS: &[Coming] = &[
    Datagram(DEVICE, ANSWER_2_2, 10),
    Datagram(DEVICE, ANSWER_1_1, 20),
];

/// Lines, behind which no more is there to be read while the first answer is written, which fails.
pub struct BeforeARead(&'static [u8]);

impl Row for BeforeARead {
    /// Whether they end so.
    fn agrees(&self, said: &mut Said) -> bool {
        let row = Lines {
            lines: self.0,
            ..BEFORE_A_READ
        };
        row.agrees(said)
    }
}

// While no more is there to be read what is in flight is driven, whatever stands behind the last command: nothing, a
// comment, an empty line or a part of a line. Commands of one piece are in flight together.
pub const IDLE: &[BeforeARead] = &[
    BeforeARead(b"4097 4 2 1 01\n"),
    BeforeARead(b"4097 4 2 1 01\n# done\n"),
    BeforeARead(b"4097 4 2 1 01\n\n"),
    BeforeARead(b"4097 4 2 1 01\n4097 4"),
    BeforeARead(b"4097 4 2 1 01\n# a\n\n#"),
];

pub const IDLE_THEN_READ: &[Lines] = &[
    Lines {
        deliveries: TWO_BACKWARDS,
        lines: b"4097 4 1 0 -\n# a\n4097 4 1 0 -\n# done\n",
        ..BEFORE_A_READ
    },
    Lines {
        lines: b"4097 4 1 0 -\n4097 4 1 0 -\n# done\n",
        ..THEN_A_READ
    },
    Lines {
        lines: b"4097 4 1 0 -\n# a\n\n4097 4 1 0 -\n",
        ..THEN_A_READ
    },
];

/// A device that is silent for a while, answers, and then hears nothing for 2,500 ms.
const SLOW: &[Coming] = &[
    Quiet(0),
    Quiet(100),
    Quiet(250),
    Quiet(499),
    Quiet(500),
    Datagram(DEVICE, ANSWER_1_1, 600),
    Quiet(2999),
    Quiet(3000),
];

/// Whether a command in a session, behind which more comes in pieces of this size, is sent, sent again twice and
/// answered, and a keep-alive sent, while input is awaited: the reader pauses often before each piece.
fn is_driven_over(
    session: &mut Session<MemoryEnd>,
    behind: &[u8],
    piece: usize,
    said: &mut Said,
) -> bool {
    if piece == 0 {
        return false;
    }
    let mut from = PausedReader::new(PieceReader::new(behind, piece, NO_LIMIT), 9);
    let mut to = Printer::new(ShortWriter::new(5000, NO_LIMIT));
    let ended = send_all(session, &mut from, &mut to);
    said.same(ended, Ok(()))
        && said.same_text(to.sink().taken.as_slice(), b"answer 1 1 01\n".as_slice())
        && said.same(session.end().taken().len(), 4)
        && said.same(session.end().delivered().len(), SLOW.len())
}

/// Whether a command is driven so.
fn is_driven(alloc: Global, behind: &[u8], piece: usize, said: &mut Said) -> bool {
    match session(alloc, 16, SLOW) {
        Some(mut session) => is_driven_over(&mut session, behind, piece, said),
        None => false,
    }
}

/// A command, and what stands behind it: nothing, a comment, an empty line, or a part of one.
pub struct Behind(&'static [u8]);

pub const BEHIND: &[Behind] = &[
    Behind(b"4097 4 1 0 -\n"),
    Behind(b"4097 4 1 0 -\n# done\n"),
    Behind(b"4097 4 1 0 -\n\n"),
    Behind(b"4097 4 1 0 -\n# a\n\n#"),
];

impl Row for Behind {
    /// Whether the command is driven in pieces of each size.
    fn agrees(&self, said: &mut Said) -> bool {
        for piece in 1..24 {
            if !is_driven(said.alloc, self.0, piece, said) {
                return false;
            }
        }
        true
    }
}
