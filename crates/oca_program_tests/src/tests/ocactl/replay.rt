//! A replay whose reader and writer give and take a little at a time, or fail.
use super::{DEVICE, NO_LIMIT};
use crate::tests::fakes::{PieceReader, ShortWriter, lines_in};
use crate::tests::{AtPlace, Row, Said};
use oca_control::Link;
use oca_script::{LineFault, Printer, ReplayFault};
use oca_types::{Handle, MethodId, Ono, Span};
use ocactl_replay::replay::replay;

/// A command, what is due, an answer from a stranger and from the device, and twice a take.
pub const EXCHANGE: &[u8] = b"0 submit 4097 4 1 0 -
0 due
10 due
15 from 127.0.0.1:65001 3b0001000000140300010000000b00000001000101
20 from 127.0.0.1:65000 3b0001000000140300010000000b00000001000101
take 1
take 1
";

pub const EXCHANGED: &[u8] = b"handle 1
send 3b00010000001a0100010000001100000001000010010004000100
nothing
stranger
answered 1
answer 0 1 01
none
";

/// A new link, whose first handle is 1.
fn link() -> Link {
    Link::new(DEVICE, Handle(1), 0, Span::default())
}

/// A script that is read in pieces of at most `piece` bytes by a reader that fails behind `given`, and whose text is
/// written in pieces of at most `most` by a writer that fails behind `room`; how it ends, and what is written.
pub struct Pieces {
    script: &'static [u8],
    piece: usize,
    given: usize,
    most: usize,
    room: usize,
    ended: Result<(), ReplayFault>,
    output: &'static [u8],
}

pub const PIECES: &[Pieces] = &[
    Pieces {
        script: EXCHANGE,
        piece: 1,
        given: NO_LIMIT,
        most: 1,
        room: NO_LIMIT,
        ended: Ok(()),
        output: EXCHANGED,
    },
    Pieces {
        script: EXCHANGE,
        piece: 2,
        given: NO_LIMIT,
        most: 2,
        room: NO_LIMIT,
        ended: Ok(()),
        output: EXCHANGED,
    },
    Pieces {
        script: EXCHANGE,
        piece: 7,
        given: NO_LIMIT,
        most: 7,
        room: NO_LIMIT,
        ended: Ok(()),
        output: EXCHANGED,
    },
    Pieces {
        script: EXCHANGE,
        piece: 4095,
        given: NO_LIMIT,
        most: 4095,
        room: NO_LIMIT,
        ended: Ok(()),
        output: EXCHANGED,
    },
];

pub const FAULTS: &[Pieces] = &[
    // the reader fails within the second line, the writer within the second text
    Pieces {
        script: EXCHANGE,
        piece: 4000,
        given: 24,
        most: 5000,
        room: NO_LIMIT,
        ended: Err(ReplayFault::Read),
        output: b"handle 1\n",
    },
    Pieces {
        script: EXCHANGE,
        piece: 4000,
        given: NO_LIMIT,
        most: 5000,
        room: 12,
        ended: Err(ReplayFault::Write),
        output: b"handle 1\nsen",
    },
    // a bad line, of which the end of the input is the end
    Pieces {
        script: b"0 due\n0 du",
        piece: 4000,
        given: NO_LIMIT,
        most: 5000,
        room: NO_LIMIT,
        ended: Err(ReplayFault::Line(2, LineFault::Form)),
        output: b"nothing\n",
    },
];

impl Row for Pieces {
    /// Whether the script ends so.
    fn agrees(&self, said: &mut Said) -> bool {
        if self.piece == 0 {
            return false;
        }
        let mut from = PieceReader::new(self.script, self.piece, self.given);
        let mut to = Printer::new(ShortWriter::new(self.most, self.room));
        let ended = replay(&mut link(), &mut from, &mut to);
        said.same(ended, self.ended) && said.same_text(to.sink().taken.as_slice(), self.output)
    }
}

/// Whether the next handle of the link is this, and the answer to 1 is held or not.
fn stands(link: &mut Link, next: u32, held: bool, said: &mut Said) -> bool {
    let mute = MethodId { level: 4, index: 1 };
    let submitted = link.submit(Ono(4097), mute, 0, &[], 20);
    said.same(submitted, Ok(Handle(next))) && said.same(link.take(Handle(1)).is_some(), held)
}

// How many bytes the first lines of the exchange print.
const PRINTED: [usize; 7] = [0, 9, 69, 77, 86, 97, 111];

/// Wherever a reader fails.
pub struct Reads;

impl AtPlace for Reads {
    /// Whether a reader that fails behind so many bytes of the exchange leaves what the whole lines before print, and
    /// the link as after them: each but the first has the handle 1 submitted, and the fifth alone its answer held.
    fn holds(&self, place: usize, said: &mut Said) -> bool {
        let mut link = link();
        let mut from = PieceReader::new(EXCHANGE, 50, place);
        let mut to = Printer::new(ShortWriter::new(1000, NO_LIMIT));
        let ended = replay(&mut link, &mut from, &mut to);
        let Some((front, _)) = EXCHANGE.split_at_checked(place) else {
            return false;
        };
        let lines = lines_in(front);
        let text = PRINTED[lines.min(6)];
        said.same(ended, Err(ReplayFault::Read))
            && said.same_text(to.sink().taken.as_slice(), &EXCHANGED[..text])
            && stands(&mut link, if lines == 0 { 1 } else { 2 }, lines == 5, said)
    }
}

/// Wherever a writer fails.
pub struct Writes;

impl AtPlace for Writes {
    /// The same of a writer. In pieces of 43 bytes the lines come in groups: the first three, the fourth, the fifth,
    /// and the last two.
    fn holds(&self, place: usize, said: &mut Said) -> bool {
        let mut link = link();
        let mut from = PieceReader::new(EXCHANGE, 43, NO_LIMIT);
        let mut to = Printer::new(ShortWriter::new(7, place));
        let ended = replay(&mut link, &mut from, &mut to);
        let text = to.sink().taken.as_slice();
        said.same(ended, Err(ReplayFault::Write))
            && said.same(text.len(), place)
            && EXCHANGED.starts_with(text)
            && stands(&mut link, 2, place >= 86 && place < 97, said)
    }
}
