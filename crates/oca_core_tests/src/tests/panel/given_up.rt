//! A command that a call gave up, and where its answer is found.
use super::{Answer, Asked, Over};
use crate::tests::Said;
use oca_model::{MuteState, Value};
use oca_net::MemoryEnd;
use oca_panel::{Panel, Trouble};
use oca_types::{Handle, Ono};

/// The answer to a set: OK.
const DONE: &[Answer] = &[(0, 0, &[])];

/// How many turns are taken behind the call, and the lowest handle then whose answer is there.
pub struct GivenUp(u32, Option<Handle>);

impl Asked for GivenUp {
    /// Whether a panel whose calls do not wait gives up the handle 7, and after these turns finds its answer so.
    fn comes_out(&self, panel: &mut Panel<MemoryEnd>, said: &mut Said) -> bool {
        let first = panel.next_handle();
        let given_up = panel.set(Ono(4097), Value::Mute(MuteState::Muted));
        for _turn in 0..self.0 {
            let _goes_on = panel.turn();
        }
        said.same(first, Some(Handle(7)))
            && said.same(given_up, Err(Trouble::Unanswered))
            && said.same(panel.answered(), self.1)
            && said.same(panel.next_handle(), Some(Handle(8)))
            && said.same(panel.try_finish(Handle(7)).is_some(), self.1.is_some())
            && panel.answered().is_none()
    }
}

pub const ROWS: &[Over<GivenUp>] = rows! {
    Over(DONE, 0, None, GivenUp(0, None)),
    Over(DONE, 0, None, GivenUp(1, Some(Handle(7)))),
    Over(DONE, 0, None, GivenUp(2, Some(Handle(7)))),
};
