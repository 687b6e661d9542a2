//! What the clauses leave open: that calls succeed, and what is printed.
use crate::tests::{Row, Said, all_agree};
use oca_net::{MemoryEnd, Scripted};
use oca_panel::Panel;
use oca_types::{Handle, Peer, Span};
use std::alloc::Global;

mod calls;
mod floods;
mod given_up;
mod in_flight;
mod objects;
mod ports;
mod walks;

const DEVICE: Peer = peer!(65000);

/// An answer: its status, ParamCount and parameters.
type Answer = (u8, u8, &'static [u8]);

/// The head of the response to the command of this handle, with so many bytes of parameters.
fn head(handle: u8, answer: &Answer, size: u8) -> [u8; 20] {
    let pdu = size.saturating_add(19);
    let message = size.saturating_add(10);
    [
        0x3b, 0, 1, 0, 0, 0, pdu, 3, 0, 1, 0, 0, 0, message, 0, 0, 0, handle, answer.0, answer.1,
    ]
}

/// Adds the response to the command of this handle.
fn add(alloc: Global, script: &mut Vec<Scripted>, handle: u8, answer: &Answer) -> bool {
    let Ok(size) = u8::try_from(answer.2.len()) else {
        return false;
    };
    let mut bytes = Vec::new(alloc);
    bytes.extend_from_slice(&head(handle, answer, size)).is_ok()
        && bytes.extend_from_slice(answer.2).is_ok()
        && script
            .push(Scripted::Datagram {
                from: DEVICE,
                bytes,
                now: 10,
            })
            .is_ok()
}

/// Adds the responses to the commands from the handle 7 on.
fn add_all(alloc: Global, script: &mut Vec<Scripted>, answers: &[Answer]) -> bool {
    let mut handle = 7u8;
    for answer in answers {
        if !add(alloc, script, handle, answer) {
            return false;
        }
        handle = handle.saturating_add(1);
    }
    true
}

/// An end that delivers these answers in turn.
fn end(alloc: Global, answers: &[Answer]) -> Option<MemoryEnd> {
    let mut script = Vec::new(alloc);
    if add_all(alloc, &mut script, answers) {
        MemoryEnd::new(alloc, script, 64, None).ok()
    } else {
        None
    }
}

/// A panel whose first handle is 7, over an end that delivers these answers in turn. Each of its calls waits for so
/// many milliseconds, and so many commands are in flight at most, where that is chosen.
fn panel(
    alloc: Global,
    answers: &[Answer],
    wait: u32,
    span: Option<u8>,
) -> Option<Panel<MemoryEnd>> {
    let span = match span {
        Some(count) => Span::new(count)?,
        None => Span::default(),
    };
    match end(alloc, answers) {
        Some(end) => Some(Panel::open(DEVICE, end, Handle(7), span, wait)),
        None => None,
    }
}

/// What is asked of a panel, and what must come of it.
trait Asked {
    /// Whether it comes out so.
    fn comes_out(&self, panel: &mut Panel<MemoryEnd>, said: &mut Said) -> bool;
}

/// What is asked of a panel whose end delivers these answers, whose calls wait for so many milliseconds, and whose span
/// is chosen, or not.
struct Over<A>(&'static [Answer], u32, Option<u8>, A);

impl<A: Asked> Row for Over<A> {
    /// Whether it comes out so.
    fn agrees(&self, said: &mut Said) -> bool {
        match panel(said.alloc, self.0, self.1, self.2) {
            Some(mut panel) => self.3.comes_out(&mut panel, said),
            None => false,
        }
    }
}

#[test]
fn a_panel_waits_gives_up_and_walks(rt: HostRuntime) {
    all_agree(&rt, "the ports take turns", ports::TURNS);
    all_agree(&rt, "what was given up is not taken", given_up::ROWS);
    all_agree(&rt, "floods of strangers end no wait", floods::ROWS);
    all_agree(&rt, "keep-alives beside the link", calls::ROWS);
    all_agree(&rt, "walks ask each object once", walks::WALKS);
}

#[test]
fn commands_in_flight_come_out_in_order(rt: HostRuntime) {
    all_agree(&rt, "the statuses of two commands", in_flight::ROWS);
    all_agree(&rt, "the mute that was refused last", in_flight::DOCUMENTED);
}
