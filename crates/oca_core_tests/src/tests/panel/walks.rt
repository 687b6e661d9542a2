//! A walk through a device, some of whose objects refuse, and one of whose blocks lists its own container.
use super::{Answer, Asked, Over};
use crate::tests::Said;
use oca_net::MemoryEnd;
use oca_panel::{Found, Panel, Trouble, Walk};

/// The answers to GetClassIdentification of a block and of a mute.
const BLOCK: Answer = (0, 1, &[0, 3, 0, 1, 0, 1, 0, 3, 0, 2]);

const MUTE: Answer = (0, 1, &[0, 4, 0, 1, 0, 1, 0, 1, 0, 2, 0, 2]);

const ROLE: Answer = (0, 1, &[0, 1, b'A']);

/// A block's members: 4096, a block, and 4098, a mute.
const TWO: Answer = (
    0,
    1,
    &[
        0, 2, 0, 0, 0x10, 0, 0, 3, 0, 1, 0, 1, 0, 3, 0, 2, 0, 0, 0x10, 2, 0, 4, 0, 1, 0, 1, 0, 1,
        0, 2, 0, 2,
    ],
);

/// The root alone.
const ROOT: Answer = (0, 1, &[0, 1, 0, 0, 0, 100, 0, 3, 0, 1, 0, 1, 0, 3, 0, 2]);

/// What each object answers, in the order in which they are asked: the root, the block 4096, and the mute 4098, which
/// is locked.
const ANSWERS: &[Answer] = &[BLOCK, ROLE, TWO, BLOCK, ROLE, ROOT, (3, 0, &[])];

/// The same, where the inner block has too many members, and the mute says what it is.
const OTHERS: &[Answer] = &[BLOCK, ROLE, TWO, BLOCK, ROLE, (14, 0, &[]), MUTE, ROLE];

/// What is found: a letter for each place, and the numbers of the object and its container.
type Steps = &'static [(u8, u32, u32)];

const STEPS: Steps = &[
    (b'B', 100, 0),
    (b'B', 4096, 100),
    (b'A', 100, 4096),
    (b'U', 4098, 100),
];

const OTHER_STEPS: Steps = &[(b'B', 100, 0), (b'N', 4096, 100), (b'O', 4098, 100)];

/// A letter for what was found.
fn letter(found: &Found) -> u8 {
    match found {
        Found::Object(_) => b'O',
        Found::Block(_, Ok(())) => b'B',
        Found::Block(_, Err(Trouble::Refused(14))) => b'N',
        Found::Undescribed(Trouble::Refused(3)) => b'U',
        Found::Again => b'A',
        Found::Block(_, Err(_)) | Found::Undescribed(_) => b'?',
    }
}

/// What stands for the end of a walk.
const OVER: (u8, u32, u32) = (b'.', 0, 0);

/// What a walk finds next.
fn next_step(walk: &mut Walk, panel: &mut Panel<MemoryEnd>) -> (u8, u32, u32) {
    match walk.next(panel) {
        Ok(Some(visit)) => (
            letter(&visit.found),
            visit.place.ono.0,
            visit.place.container.0,
        ),
        Ok(None) => OVER,
        Err(_) => (b'?', 0, 0),
    }
}

/// Whether a walk finds just this.
fn finds_all(
    walk: &mut Walk,
    panel: &mut Panel<MemoryEnd>,
    steps: &[(u8, u32, u32)],
    said: &mut Said,
) -> bool {
    for step in steps {
        if !said.same(next_step(walk, panel), *step) {
            return false;
        }
    }
    said.same(next_step(walk, panel), OVER) && !walk.is_unfinished()
}

/// What a walk finds, and how many commands it asks.
pub struct Finds(Steps, usize);

impl Asked for Finds {
    /// Whether a walk finds just this, and asks so often.
    fn comes_out(&self, panel: &mut Panel<MemoryEnd>, said: &mut Said) -> bool {
        match Walk::new(said.alloc) {
            Ok(mut walk) => {
                finds_all(&mut walk, panel, self.0, said)
                    && said.same(panel.end().taken().len(), self.1)
            }
            Err(_) => false,
        }
    }
}

/// The walks ask each object once.
pub const WALKS: &[Over<Finds>] = rows! {
    Over(ANSWERS, 500, None, Finds(STEPS, ANSWERS.len())),
    Over(OTHERS, 500, None, Finds(OTHER_STEPS, OTHERS.len())),
};
