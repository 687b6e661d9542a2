//! Ends that cut what they give and take, or fail.
use super::{Cuts, Trial, UNMUTED, UNMUTES, WHOLE, goes_on_bench};
use crate::tests::fakes::{PieceReader, ShortWriter, lines_in};
use crate::tests::{AtPlace, Said};
use oca_device::{Device, Outbox};
use oca_script::{Printer, ReplayFault};
use oca_tree::Setting;
use oca_types::Ono;
use ocadev_replay::replay::replay;

/// How a replay of the script on the bench device ends: what it returns, what is printed, and the state of 4097 behind
/// it. Muted is 1 and Unmuted is 2.
#[derive(Clone, Copy)]
struct Ended<'a> {
    end: Result<(), ReplayFault>,
    text: &'a [u8],
    state: u8,
}

/// The state of 4097.
fn state_of(device: &Device) -> Option<Setting> {
    device.tree().setting_of(Ono(4097))
}

/// A replay of the script between these ends, and how it ends.
#[derive(Drop)]
struct Replayed<'a> {
    ends: Cuts,
    wanted: Ended<'a>,
}

impl Trial for Replayed<'_> {
    /// Whether a device replays the script so.
    fn goes(&mut self, device: &mut Device, outbox: &mut Outbox, said: &mut Said) -> bool {
        let mut from = PieceReader::new(UNMUTES, self.ends.piece.max(1), self.ends.given);
        let mut printer = Printer::new(ShortWriter::new(self.ends.most, self.ends.taken));
        let ended = replay(device, outbox, &mut from, &mut printer);
        said.same(ended, self.wanted.end)
            && said.same_text(printer.sink().taken.as_slice(), self.wanted.text)
            && said.same(state_of(device), Some(Setting::State(self.wanted.state)))
    }
}

/// Whether the bench device replays it so.
fn replays(ends: Cuts, wanted: Ended<'_>, said: &mut Said) -> bool {
    goes_on_bench(&mut Replayed { ends, wanted }, said)
}

/// The script is replayed to its end through pieces of each size.
pub struct Pieces;

impl AtPlace for Pieces {
    /// Whether it is through pieces of this size.
    fn holds(&self, piece: usize, said: &mut Said) -> bool {
        let ends = Cuts {
            piece,
            most: piece,
            ..WHOLE
        };
        let wanted = Ended {
            end: Ok(()),
            text: UNMUTED,
            state: 2,
        };
        replays(ends, wanted, said)
    }
}

/// How many bytes of the text are printed, and in which state 4097 is, once so many line feeds of the script were read.
const BY_LINES: [(usize, u8); 5] = [(0, 1), (58, 1), (58, 1), (114, 2), (114, 2)];

/// How the replay ends where the reader fails behind this front of the script.
fn ended_behind(front: &[u8]) -> Option<Ended<'static>> {
    let (text, state) = *BY_LINES.get(lines_in(front))?;
    Some(Ended {
        end: Err(ReplayFault::Read),
        text: UNMUTED.get(..text)?,
        state,
    })
}

/// The replay ends as it must wherever the reader fails.
pub struct Reads;

impl AtPlace for Reads {
    /// Whether it does where the reader fails at this place.
    fn holds(&self, place: usize, said: &mut Said) -> bool {
        let ends = Cuts {
            piece: 50,
            given: place,
            most: 1000,
            ..WHOLE
        };
        match ended_behind(UNMUTES.get(..place).unwrap_or_default()) {
            Some(wanted) => replays(ends, wanted, said),
            None => false,
        }
    }
}

/// The replay ends as it must wherever the writer fails.
pub struct Writes;

impl AtPlace for Writes {
    /// Whether it does where the writer fails at this place.
    fn holds(&self, place: usize, said: &mut Said) -> bool {
        let ends = Cuts {
            piece: 30,
            most: 7,
            taken: place,
            ..WHOLE
        };
        let wanted = Ended {
            end: Err(ReplayFault::Write),
            text: UNMUTED.get(..place).unwrap_or_default(),
            state: if place < 58 { 1 } else { 2 },
        };
        replays(ends, wanted, said)
    }
}
