//! Several commands in flight, and how they come out in the order in which they were begun.
use super::{Answer, Asked, Over, panel};
use crate::tests::{Row, Said};
use oca_control::{ControlFault, Outcome};
use oca_model::{MuteState, Value, set_request};
use oca_net::MemoryEnd;
use oca_panel::{InFlight, Panel, done_in};
use oca_types::{Handle, Ono};

/// Whether it is this command, and its answer has this status.
fn is_answered(first: Option<(u8, Outcome)>, command: u8, status: u8, said: &mut Said) -> bool {
    match first {
        Some((item, Outcome::Answered(answer))) => said.same(item, command)
            && said.same(answer.status, status),
        _ => false,
    }
}

/// Begins two commands, as many as the panel's span has, and a third, which is refused.
fn begins(panel: &mut Panel<MemoryEnd>, in_flight: &mut InFlight<u8>, said: &mut Said) -> bool {
    let mute = Value::Mute(MuteState::Muted);
    let request = set_request(mute);
    let is_empty = in_flight.is_empty() && !in_flight.is_full();
    let first = in_flight.begin_behind(panel, request.of(Ono(4097)), 1);
    let Ok(second) = panel.begin_set(Ono(4098), mute) else {
        return false;
    };
    if in_flight.is_full() {
        return false;
    }
    in_flight.push(second, 2);
    let third = in_flight.begin_behind(panel, request.of(Ono(4099)), 3);
    is_empty
        && said.same(first, Ok(Handle(7)))
        && said.same(third, Err(ControlFault::SpanFull))
        && said.same(in_flight.len(), 2)
}

/// The first is waited for; the second comes out at the turn behind it.
fn finishes(
    panel: &mut Panel<MemoryEnd>,
    in_flight: &mut InFlight<u8>,
    statuses: [u8; 2],
    said: &mut Said,
) -> bool {
    let is_open = in_flight.try_finish_first(panel).is_none();
    let first = is_answered(in_flight.finish_first(panel), 1, statuses[0], said);
    let is_next_open = in_flight.try_finish_first(panel).is_none() && said.same(in_flight.len(), 1);
    let goes_on = panel.turn();
    let second = is_answered(in_flight.try_finish_first(panel), 2, statuses[1], said);
    is_open
        && first
        && is_next_open
        && goes_on
        && second
        && in_flight.is_empty()
        && in_flight.finish_first(panel).is_none()
}

/// The statuses with which two commands come out, OK or BadONo.
pub struct Statuses([u8; 2]);

impl Asked for Statuses {
    /// Whether both commands come out so.
    fn comes_out(&self, panel: &mut Panel<MemoryEnd>, said: &mut Said) -> bool {
        let mut in_flight = InFlight::new();
        begins(panel, &mut in_flight, said)
            && !panel.link().is_lost()
            && finishes(panel, &mut in_flight, self.0, said)
    }
}

/// What is answered to the first command and to the second over a panel with a span of 2.
pub const ROWS: &[Over<Statuses>] = rows! {
    Over(&[(0, 0, &[]), (0, 0, &[])], 500, Some(2), Statuses([0, 0])),
    Over(&[(0, 0, &[]), (5, 0, &[])], 500, Some(2), Statuses([0, 5])),
    Over(&[(5, 0, &[]), (0, 0, &[])], 500, Some(2), Statuses([5, 0])),
};

/// The example of the queue's doc comment: which of two mutes was refused last.
fn mutes(mut panel: Panel<MemoryEnd>) -> Result<Option<u32>, ControlFault> {
    let mut in_flight = InFlight::new();
    let mute = set_request(Value::Mute(MuteState::Muted));
    for channel in [4097, 4098] {
        in_flight.begin_behind(&mut panel, mute.of(Ono(channel)), channel)?;
    }
    let mut refused = None;
    while let Some((channel, outcome)) = in_flight.finish_first(&mut panel) {
        if done_in(&outcome).is_err() {
            refused = Some(channel);
        }
    }
    Ok(refused)
}

/// The answers to two commands, of which the second is refused.
const SECOND_REFUSED: &[Answer] = &[(0, 0, &[]), (5, 0, &[])];

/// Which of the mutes is refused last over a panel that gets these answers.
pub struct LastRefused(&'static [Answer], Option<u32>);

impl Row for LastRefused {
    /// Whether it is the one that its answer refuses.
    fn agrees(&self, said: &mut Said) -> bool {
        match panel(said.alloc, self.0, 10, None) {
            Some(panel) => said.same(mutes(panel), Ok(self.1)),
            None => false,
        }
    }
}

/// The second mute is refused where its answer says so.
pub const DOCUMENTED: &[LastRefused] = &[LastRefused(SECOND_REFUSED, Some(4098))];
