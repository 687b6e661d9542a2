//! What is printed: lines, faults, and more than is held.
use crate::tests::fakes::ShortWriter;
use crate::tests::{Row, Said, Words};
use oca_script::{LineFault, Printer, ReadFailed, ReplayFault, Stop, WriteFailed};

/// Whether the parts of a line are taken once they are handed on.
pub fn prints_a_line(said: &mut Said) -> bool {
    let mut line = Printer::new(ShortWriter::new(1000, usize::MAX));
    line.put(b"> ");
    line.put_hex(b"\x3b\xfA");
    if line.make_room(21) != Ok(()) {
        return false;
    }
    line.put_hex(b"");
    line.put_number(u64::MAX);
    said.same(line.flush(), Ok(()))
        && said.same_text(
            line.sink().taken.as_slice(),
            b"> 3bfa-18446744073709551615".as_slice(),
        )
}

/// A call of a printer, and what it must answer.
#[derive(Clone, Copy)]
pub enum Step {
    /// Prints bytes.
    Prints(&'static [u8], Result<(), WriteFailed>),
    /// Makes room for so many bytes.
    MakesRoom(usize, Result<(), WriteFailed>),
    /// So many bytes were taken.
    Taken(usize),
}

use Step::*;

/// Makes room for as much as may be asked.
fn make_room(to: &mut Printer<ShortWriter>, room: usize) -> Option<Result<(), WriteFailed>> {
    if room > 8192 {
        return None;
    }
    Some(to.make_room(room))
}

/// Whether the call is answered so.
fn is_answered(to: &mut Printer<ShortWriter>, step: Step, said: &mut Said) -> bool {
    match step {
        Prints(bytes, answer) => said.same(to.print(bytes), answer),
        MakesRoom(room, answer) => said.same(make_room(to, room), Some(answer)),
        Taken(count) => said.same(to.sink().taken.len(), count),
    }
}

/// Calls of a printer to a writer that takes at most so many bytes in a call.
pub struct Calls(usize, &'static [Step]);

impl Row for Calls {
    /// Whether each call is answered so.
    fn agrees(&self, said: &mut Said) -> bool {
        let mut to = Printer::new(ShortWriter::new(self.0, usize::MAX));
        for step in self.1 {
            if !is_answered(&mut to, *step, said) {
                return false;
            }
        }
        true
    }
}

// What is more than is held goes to the writer, which has room for 16,384 bytes.
const MORE: &[Step] = &[
    Prints(b"ab", Ok(())),
    Taken(0),
    Prints(&[b'x'; 9000], Ok(())),
    Taken(9002),
    Prints(&[b'x'; 7000], Ok(())),
    Prints(&[b'x'; 1300], Ok(())),
    Taken(9002 + 7000),
    MakesRoom(8192, Err(WriteFailed)),
];

pub const MORE_ROWS: &[Calls] = &[Calls(5000, MORE)];

/// A fault of a line, which displays its word.
pub struct OfLine(LineFault);

impl Row for OfLine {
    /// Whether it displays its word.
    fn agrees(&self, said: &mut Said) -> bool {
        said.displays(&self.0, self.0.word())
    }
}

/// A fault of a line, and its word.
pub struct HasWord(LineFault, &'static str);

impl Row for HasWord {
    /// Whether this is its word.
    fn agrees(&self, said: &mut Said) -> bool {
        said.same(self.0.word(), self.1)
    }
}

/// A fault of a replay, its text and its number.
pub struct OfReplay(ReplayFault, &'static str, u8);

impl Row for OfReplay {
    /// Whether it has this text and this number.
    fn agrees(&self, said: &mut Said) -> bool {
        said.displays(&self.0, self.1) && said.same(self.0.number(), self.2)
    }
}

pub const OF_LINES: &[OfLine] = &[
    OfLine(LineFault::TooLong),
    OfLine(LineFault::Form),
    OfLine(LineFault::Moment),
    OfLine(LineFault::Number),
    OfLine(LineFault::Peer),
    OfLine(LineFault::Hex),
];

pub const OF_REPLAYS: &[OfReplay] = &[
    OfReplay(ReplayFault::Line(7, LineFault::Hex), "line 7: hex", 1),
    OfReplay(ReplayFault::Read, "read failed", 2),
    OfReplay(ReplayFault::Write, "write failed", 3),
    OfReplay(ReplayFault::TooMuch, "too much input", 4),
];

pub const WORDS: &[HasWord] = &[HasWord(LineFault::TooLong, "too long")];

pub const OF_STOPS: &[Words<Stop>] = &[
    Words(Stop::Line(LineFault::Peer), "peer"),
    Words(Stop::Write, "write failed"),
];

pub const OF_READS: &[Words<ReadFailed>] = &[Words(ReadFailed, "read failed")];

pub const OF_WRITES: &[Words<WriteFailed>] = &[Words(WriteFailed, "write failed")];
