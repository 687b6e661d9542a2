//! Commands over an end in memory: asked, waited for and driven.
use super::links::Step::{IsLost, Submits, Takes};
use super::links::{agrees as link_agrees, is_answer};
use super::{ANSWER, COMMAND, DEVICE, GET_STATE, Gave, KEEP_ALIVE, STRANGER, links};
use crate::tests::ending::{Ending, Entry, end_of};
use crate::tests::{Agrees, Row, Said, all_agree, plays};
use oca_control::{
    ControlFault, DriveReport, Link, Outcome, ask, drive, send_due, send_in_time, wait_for,
    wait_until, wait_while,
};
use oca_net::MemoryEnd;
use oca_types::{Handle, Packet, Span};

/// How a command fared.
#[derive(Clone, Copy)]
pub enum Fared {
    Answered(Gave),
    Refused(ControlFault),
    Lost,
    Unanswered,
}

/// What is done with a link and an end, and what it must answer.
#[derive(Clone, Copy)]
pub enum Step {
    /// At the link alone.
    At(links::Step),
    /// A GetState of 4097 is asked for at most so many turns.
    Asks(u32, Fared),
    /// The answer under a handle is waited for at most so many turns.
    Waits(u32, u32, Fared),
    /// The answer under a handle is waited for until a moment.
    WaitsUntil(u32, u64, Fared),
    /// The answer under a handle is waited for, for so many milliseconds.
    WaitsWhile(u32, u32, Fared),
    /// So many commands and so many keep-alives are sent at a moment.
    SendsDue(u64, u64, u64),
    /// So many commands are sent in time at a moment; or none, since the link is late.
    SendsInTime(u64, u64, bool),
    /// The link is driven for at most so many turns.
    Drives(u32, DriveReport),
    /// How many entries of its script the end delivered.
    Delivered(usize),
    /// How many datagrams the end took.
    Taken(usize),
    /// The datagram of this number that the end took was to go to the device, with these bytes.
    Sent(usize, &'static [u8]),
}

use Step::*;

/// Whether a command fared so.
pub fn is_outcome(outcome: &Outcome, want: Fared, said: &mut Said) -> bool {
    match (outcome, want) {
        (Outcome::Answered(answer), Fared::Answered(want)) => is_answer(answer, want, said),
        (Outcome::Refused(fault), Fared::Refused(want)) => said.same(*fault, want),
        (Outcome::Lost, Fared::Lost) => true,
        (Outcome::Unanswered, Fared::Unanswered) => true,
        _ => false,
    }
}

/// Whether the answer to a command is asked for, or waited for, and the command fares so.
fn fares(link: &mut Link, end: &mut MemoryEnd, step: Step, said: &mut Said) -> bool {
    let (outcome, want) = match step {
        Asks(turns, want) => (ask(link, end, GET_STATE, turns), want),
        Waits(handle, turns, want) => (wait_for(link, end, Handle(handle), turns), want),
        WaitsUntil(handle, until, want) => (wait_until(link, end, Handle(handle), until), want),
        WaitsWhile(handle, ms, want) => (wait_while(link, end, Handle(handle), ms), want),
        _ => return false,
    };
    is_outcome(&outcome, want, said)
}

/// Whether the end took or delivered this.
fn shows(end: &MemoryEnd, step: Step, said: &mut Said) -> bool {
    match step {
        Delivered(count) => said.same(end.delivered().len(), count),
        Taken(count) => said.same(end.taken().len(), count),
        Sent(number, bytes) => match end.taken().get(number) {
            Some((to, packet)) => said.same(*to, DEVICE) && said.same(packet.as_slice(), bytes),
            None => false,
        },
        _ => false,
    }
}

/// A link, the packet that it gave last, and an end.
#[derive(Drop)]
struct Bench {
    link: Link,
    packet: Packet,
    end: MemoryEnd,
}

impl Agrees<Bench> for Step {
    /// Whether the step is answered so.
    fn agrees(&self, on: &mut Bench, said: &mut Said) -> bool {
        let (link, end) = (&mut on.link, &mut on.end);
        match *self {
            At(step) => link_agrees(link, &mut on.packet, step, said),
            SendsDue(now, sent, beats) => {
                said.same(
                    send_due(link, end, now),
                    drove!(0, sent, beats, 0, 0, 0, false),
                )
            }
            SendsInTime(now, sent, lost) => {
                said.same(
                    send_in_time(link, end, now),
                    drove!(0, sent, 0, 0, 0, 0, lost),
                )
            }
            Drives(turns, want) => said.same(drive(link, end, turns), want),
            other => shows(end, other, said) || fares(link, end, other, said),
        }
    }
}

// A command is sent once, and its answer is taken. Its link is then closed.
const ASKED: &[Step] = &[
    Asks(5, Fared::Answered(ANSWER)),
    Taken(1),
    Sent(0, COMMAND),
    At(Takes(1, None)),
    Asks(3, Fared::Unanswered),
];

// What the link refuses asks the end nothing. An answer that is there takes no turn.
const REFUSED: &[Step] = &[
    At(Submits(0, Ok(1))),
    Asks(5, Fared::Refused(ControlFault::SpanFull)),
    Taken(0),
    Delivered(0),
    Drives(1, drove!(1, 0, 0, 1, 0, 0, false)),
    Waits(1, 9, Fared::Answered(ANSWER)),
    Delivered(1),
];

// What is due is sent, and again after 250 ms.
const ALL: &[Step] = &[
    At(Submits(0, Ok(1))),
    At(Submits(0, Ok(2))),
    SendsDue(0, 2, 0),
    SendsDue(249, 0, 0),
    SendsDue(250, 2, 0),
    Taken(4),
];

// A send that fails and a receive that fails are counted, and the command is sent again.
const REPEATED: &[Step] = &[
    At(Submits(0, Ok(1))),
    Drives(3, drove!(3, 2, 0, 0, 1, 1, false)),
    Taken(1),
];

// A command is sent at 0 and then each 250 ms, 20 times; at 5,000 the link is lost, which ends the loop.
const LOST: &[Step] = &[
    At(Submits(0, Ok(1))),
    Drives(30, drove!(21, 20, 0, 0, 0, 0, true)),
    At(IsLost(true)),
    Delivered(21),
    Taken(20),
    Asks(30, Fared::Lost),
    Delivered(21),
];

// From 0 to 7,250 there are two times 2,500 ms of silence.
const KEEP_ALIVES: &[Step] = &[
    Drives(31, drove!(30, 0, 2, 0, 0, 0, false)),
    Taken(2),
    Sent(0, KEEP_ALIVE),
    Sent(1, KEEP_ALIVE),
];

/// A stranger's datagram.
const JUNK: Entry = Entry::Datagram(STRANGER, &[0x3b], 10);

const FLOOD: &[Entry] = &[
    JUNK,
    JUNK,
    JUNK,
    Entry::Failed,
    Entry::Response(1, 499),
    JUNK,
    Entry::Response(2, 1499),
];

// Strangers' datagrams end no wait.
const GOES_ON: &[Step] = &[
    Asks(0, Fared::Unanswered),
    WaitsUntil(1, 500, Fared::Answered(ANSWER)),
    Delivered(5),
    Asks(0, Fared::Unanswered),
    WaitsWhile(2, 1001, Fared::Answered(ANSWER)),
    Delivered(7),
];

const LATE: &[Entry] = &[
    Entry::Quiet(499),
    Entry::Quiet(500),
    Entry::Response(1, 501),
];

// A wait ends at its moment, and takes no turn from then on; an answer is taken at the next. It ends at a closed end.
const ENDS: &[Step] = &[
    Asks(0, Fared::Unanswered),
    WaitsUntil(1, 500, Fared::Unanswered),
    Delivered(2),
    WaitsWhile(1, 0, Fared::Unanswered),
    Delivered(2),
    WaitsWhile(1, 1, Fared::Answered(ANSWER)),
    Asks(0, Fared::Unanswered),
    WaitsUntil(2, 5_000, Fared::Unanswered),
];

// After 200 seconds without a turn a command is lost. An answer that comes all the same is taken.
const AFTER_A_STANDSTILL: &[Step] = &[
    Asks(9, Fared::Lost),
    Taken(1),
    Delivered(1),
    Waits(1, 9, Fared::Answered(ANSWER)),
    Taken(2),
    Sent(1, KEEP_ALIVE),
];

// Copies follow within 15 seconds of the submit alone.
const IN_TIME: &[Step] = &[
    Asks(0, Fared::Unanswered),
    SendsInTime(249, 0, false),
    SendsInTime(250, 1, false),
    SendsInTime(15_000, 1, false),
    SendsInTime(15_001, 0, true),
    Taken(3),
];

const OF_30_TURNS: Ending = delivers!(&[], 32, quiet: 30);

const OF_FAILURES: Ending =
    delivers!(&[Entry::Quiet(0), Entry::Failed, Entry::Quiet(250)], 4, fail_send: Some(0));

/// A script by its name, over a link at the moment 0 of this span, and an end.
struct OverEnd(&'static str, u8, Ending, &'static [Step]);

/// Commands that are asked and waited for.
const ASKING: &[OverEnd] = rows! {
    OverEnd("a_command_is_answered", 16, delivers!(&[Entry::Response(1, 10)], 4), ASKED),
    OverEnd("a_command_is_refused", 1, delivers!(&[Entry::Response(1, 10)], 4), REFUSED),
    OverEnd("strangers_end_no_wait", 16, delivers!(FLOOD, 32), GOES_ON),
    OverEnd("a_wait_ends_at_its_moment", 16, delivers!(LATE, 32), ENDS),
    OverEnd("a_command_is_lost_in_a_standstill", 16,
        delivers!(&[Entry::Quiet(200_000), Entry::Response(1, 200_001)], 32), AFTER_A_STANDSTILL),
};

/// What is sent, and links that are driven.
const DRIVING: &[OverEnd] = rows! {
    OverEnd("all_that_is_due_is_sent", 16, delivers!(&[], 32), ALL),
    OverEnd("nothing_is_sent_too_late", 16, delivers!(&[], 32), IN_TIME),
    OverEnd("a_send_that_fails_is_repeated", 16, OF_FAILURES, REPEATED),
    OverEnd("a_loop_ends_where_the_link_is_lost", 16, OF_30_TURNS, LOST),
    OverEnd("keep_alives_are_sent", 16, OF_30_TURNS, KEEP_ALIVES),
};

impl Row for OverEnd {
    /// Whether each step is answered so.
    fn agrees(&self, said: &mut Said) -> bool {
        let (Some(span), Some(end)) = (Span::new(self.1), end_of(said.alloc, self.2)) else {
            return false;
        };
        let mut on = Bench {
            link: Link::new(DEVICE, Handle(1), 0, span),
            packet: Packet::new(),
            end,
        };
        plays(&mut on, self.0, self.3, said)
    }
}

#[test]
fn commands_are_asked_waited_for_and_driven(rt: HostRuntime) {
    all_agree(&rt, "commands that are asked", ASKING);
    all_agree(&rt, "links that are driven", DRIVING);
}
