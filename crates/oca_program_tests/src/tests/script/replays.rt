//! Lines in, lines out: how a script is cut, where its reads and writes fail, and which lines are refused.
ghost use Rattle.std.specs.Prelude.{Ok};

use crate::tests::fakes::{Discard, PatternReader, PieceReader, ShortWriter};
use crate::tests::{AtPlace, Row, Said};
use oca_script::lines::serve_lines;
use oca_script::{
    FromReader, Language, LineFault, Printer, ReplayFault, Sink, Source, Stop, ToWriter,
    WriteFailed,
};

/// Prints each line as it is, with no line feed, and counts the lines.
struct Echo;

impl Language for Echo {
    type State = u64;

    type Room = u8;

    ghost Request = { Unit {0} };

    ghost asked = { λ _. Ok tt };

    ghost serves = { λ _ _ _ _. Unit {0} };

    /// Prints the line, and counts it.
    fn serve_line<W: Sink>(
        state: &mut u64,
        _room: &mut u8,
        line: &[u8],
        printer: &mut Printer<W>,
    ) -> Result<(), Stop> {
        *state = state.wrapping_add(1);
        printer.print(line)?;
        Ok(())
    }

    /// Does nothing: no line is under way.
    fn before_read<R: Source, W: Sink>(
        _state: &mut u64,
        _reader: &mut R,
        _printer: &mut Printer<W>,
    ) -> Result<(), WriteFailed> {
        Ok(())
    }
}

pub const SCRIPT: &[u8] = b"one\n# note\n\ntwo three\nfour";

pub const TEXT: &[u8] = b"onetwo threefour";

/// How a replay ends.
type Ended = Result<(), ReplayFault>;

/// How SCRIPT is read and written: in pieces of so many bytes, up to a fault; so many bytes in a write, up to a fault.
#[derive(Clone, Copy)]
struct Ends {
    piece: usize,
    before_fault: usize,
    most: usize,
    room: usize,
}

/// What came of a replay of SCRIPT.
#[derive(Clone, Copy)]
struct Outcome {
    ended: Ended,
    /// How many lines were served.
    lines: u64,
    /// How many bytes were taken: a front of TEXT.
    taken: usize,
    /// How many bytes of the script were not read.
    unread: usize,
}

/// How many bytes the writer took, where these are a front of TEXT.
fn front_taken(writer: &ShortWriter) -> Option<usize> {
    let taken = writer.taken.as_slice();
    if TEXT.starts_with(taken) {
        Some(taken.len())
    } else {
        None
    }
}

/// Replays SCRIPT. None where what was written is no front of TEXT.
fn replay(ends: Ends) -> Option<Outcome> {
    if ends.piece == 0 {
        return None;
    }
    let mut lines = 0;
    let mut from = PieceReader::new(SCRIPT, ends.piece, ends.before_fault);
    let mut to = Printer::new(ShortWriter::new(ends.most, ends.room));
    let ended = serve_lines::<Echo, PieceReader, ShortWriter>(
        &mut lines, &mut 0, &mut from, &mut to,
    );
    let taken = front_taken(to.sink())?;
    Some(Outcome {
        ended,
        lines,
        taken,
        unread: from.rest.len(),
    })
}

/// SCRIPT is replayed whole in pieces of each size.
pub struct Pieces;

impl AtPlace for Pieces {
    /// Whether it is in pieces of this size.
    fn holds(&self, piece: usize, said: &mut Said) -> bool {
        let ends = Ends {
            piece,
            before_fault: usize::MAX,
            most: piece,
            room: usize::MAX,
        };
        match replay(ends) {
            Some(outcome) => {
                said.same(outcome.ended, Ok(()))
                    && said.same(outcome.lines, 3)
                    && said.same(outcome.taken, TEXT.len())
                    && said.same(outcome.unread, 0)
            }
            None => false,
        }
    }
}

/// The lines that are served and the bytes that are taken of SCRIPT where a read fails behind so many bytes.
fn served_before(place: usize) -> (u64, usize) {
    if place < 4 {
        (0, 0)
    } else if place < 22 {
        (1, 3)
    } else {
        (2, 12)
    }
}

/// At each place of SCRIPT a failed read ends the replay.
pub struct Reads;

impl AtPlace for Reads {
    /// Whether it does behind so many bytes, with the lines served and the bytes taken that it must.
    fn holds(&self, place: usize, said: &mut Said) -> bool {
        let ends = Ends {
            piece: 7,
            before_fault: place,
            most: 1000,
            room: usize::MAX,
        };
        match replay(ends) {
            Some(outcome) => {
                said.same(outcome.ended, Err(ReplayFault::Read))
                    && said.same((outcome.lines, outcome.taken), served_before(place))
            }
            None => false,
        }
    }
}

/// At each place of TEXT a failed write ends the replay.
pub struct Writes;

impl AtPlace for Writes {
    /// Whether it does behind so many bytes, with those taken.
    fn holds(&self, place: usize, said: &mut Said) -> bool {
        let ends = Ends {
            piece: 1000,
            before_fault: usize::MAX,
            most: 3,
            room: place,
        };
        match replay(ends) {
            Some(outcome) => said.same(outcome.ended, Err(ReplayFault::Write))
                && said.same(outcome.taken, place),
            None => false,
        }
    }
}

/// How a replay of SCRIPT through a reader into this writer ends.
fn replay_into(short: &mut ShortWriter) -> Ended {
    let mut lines = 0;
    let mut from = FromReader::new(PieceReader::new(SCRIPT, 5, usize::MAX));
    let mut to = Printer::new(ToWriter::new(short));
    serve_lines::<Echo, FromReader<PieceReader>, ToWriter<&mut ShortWriter>>(
        &mut lines, &mut 0, &mut from, &mut to,
    )
}

/// A replay through a reader and a writer that takes nothing, or fails, beyond its room: a write that takes nothing is
/// a failed one.
pub struct ThroughWriter {
    takes_nothing: bool,
}

pub const FAILING: ThroughWriter = ThroughWriter {
    takes_nothing: false,
};

pub const FULL: ThroughWriter = ThroughWriter {
    takes_nothing: true,
};

impl AtPlace for ThroughWriter {
    /// Whether it ends as it must where there is room for so many bytes, and takes as many.
    fn holds(&self, place: usize, said: &mut Said) -> bool {
        let mut short = ShortWriter::new(3, place);
        short.takes_nothing = self.takes_nothing;
        let ended = if place == TEXT.len() {
            Ok(())
        } else {
            Err(ReplayFault::Write)
        };
        said.same(replay_into(&mut short), ended) && said.same(front_taken(&short), Some(place))
    }
}

/// Whether a replay through a reader that fails behind eight bytes ends with a failed read.
pub fn ends_through_reader(said: &mut Said) -> bool {
    let mut lines = 0;
    let mut from = FromReader::new(PieceReader::new(SCRIPT, 5, 8));
    let mut to = Printer::new(Discard);
    let ended = serve_lines::<Echo, FromReader<PieceReader>, Discard>(
        &mut lines, &mut 0, &mut from, &mut to,
    );
    said.same(ended, Err(ReplayFault::Read))
}

/// A replay in pieces of four in which nothing can be written.
const WITHOUT_ROOM: Ends = Ends {
    piece: 4,
    before_fault: usize::MAX,
    most: 1000,
    room: 0,
};

/// Whether the second read does not come where the first line's text can't be written.
pub fn is_written_before_a_read(said: &mut Said) -> bool {
    match replay(WITHOUT_ROOM) {
        Some(outcome) => {
            said.same(outcome.ended, Err(ReplayFault::Write))
                && said.same(outcome.unread, SCRIPT.len() - 4)
        }
        None => false,
    }
}

/// The lines that were served, and how the replay ended.
fn replayed(script: &[u8]) -> (u64, Ended) {
    let mut lines = 0;
    let mut from = PieceReader::new(script, 1000, usize::MAX);
    let mut to = Printer::new(ShortWriter::new(1000, usize::MAX));
    let ended = serve_lines::<Echo, PieceReader, ShortWriter>(
        &mut lines, &mut 0, &mut from, &mut to,
    );
    (lines, ended)
}

/// A script, how many of its lines are served, and how it ends.
pub struct Served(&'static [u8], u64, Ended);

impl Row for Served {
    /// Whether so many are served, and it ends so.
    fn agrees(&self, said: &mut Said) -> bool {
        said.same(replayed(self.0), (self.1, self.2))
    }
}

/// The first line is refused since it is too long.
const TOO_LONG: Ended = Err(ReplayFault::Line(1, LineFault::TooLong));

pub const FORMS: &[Served] = &[
    Served(b"", 0, Ok(())),
    Served(b"\n\n\n", 0, Ok(())),
    Served(b"\r\n", 1, Ok(())),
    Served(
        b"a\n#\xff\nb\x80",
        1,
        Err(ReplayFault::Line(3, LineFault::Form)),
    ),
    Served(b" #\n", 1, Ok(())),
];

pub const LENGTHS: &[Served] = &[
    Served(&[b'#'; 4096], 0, Ok(())),
    Served(&[b'#'; 4097], 0, TOO_LONG),
    Served(&[b'a'; 4096], 1, Ok(())),
    Served(&[b'a'; 4097], 0, TOO_LONG),
];

/// How a line of 4,096 bytes begins, how many lines are served of it and one of a single byte behind it, and how that
/// ends.
pub struct After(u8, u64, Ended);

impl Row for After {
    /// Whether so many are served, and it ends so.
    fn agrees(&self, said: &mut Said) -> bool {
        let mut lines = [b'a'; 4098];
        lines[4096] = b'\n';
        lines[0] = self.0;
        said.same(replayed(&lines), (self.1, self.2))
    }
}

/// A line of 4,096 bytes is served, and refused where it has no form of one.
pub const AFTER: &[After] = &[
    After(b'a', 2, Ok(())),
    After(0xff, 0, Err(ReplayFault::Line(1, LineFault::Form))),
];

/// The lines that were served of a pattern that is given again and again, and how the replay ended.
fn replayed_pattern(pattern: &[u8], count: usize) -> (u64, Ended) {
    let mut lines = 0;
    let mut from = PatternReader {
        pattern,
        at: 0,
        left: count,
    };
    let mut to = Printer::new(Discard);
    let ended = serve_lines::<Echo, PatternReader, Discard>(&mut lines, &mut 0, &mut from, &mut to);
    (lines, ended)
}

/// Of how many bytes in lines of 99 how many lines are served, and how that ends.
pub struct Lines(usize, u64, Ended);

impl Row for Lines {
    /// Whether so many are served, and it ends so.
    fn agrees(&self, said: &mut Said) -> bool {
        let mut lines = [b'a'; 4000];
        for i in 0..40usize {
            lines[100 * i + 99] = b'\n';
        }
        said.same(replayed_pattern(&lines, self.0), (self.1, self.2))
    }
}

/// A script of 16,777,216 bytes is served, and one of more is not.
pub const LINES: &[Lines] = &[
    Lines(16_777_216, 167_773, Ok(())),
    Lines(16_777_217, 167_772, Err(ReplayFault::TooMuch)),
];

/// Of a pattern that is given up to so many bytes how many lines are served, and how that ends.
pub struct Pattern(&'static [u8], usize, u64, Ended);

pub const PATTERNS: &[Pattern] = &[Pattern(b"#", 99_999_999, 0, TOO_LONG)];

impl Row for Pattern {
    /// Whether so many are served, and it ends so.
    fn agrees(&self, said: &mut Said) -> bool {
        said.same(replayed_pattern(self.0, self.1), (self.2, self.3))
    }
}
