//! Sessions run alone, event by event. The type of a command, whether it asks for a response, is not seen here.

/// SetState of 4097 under a handle, with one parameter byte.
macro_rules! command {
    ($handle:expr) => {
        Command {
            handle: Handle($handle),
            target: Ono(4097),
            method: MethodId { level: 4, index: 2 },
            count: 1,
            params: &[1],
        }
    };
}

mod script;

use super::answers::Answer;
use crate::tests::all_agree;
use oca_session::Admission::{Known, NoRoom, Opened};
use oca_session::Sessions;
use oca_types::{Command, Handle, MethodId, NoMemory, Ono, Peer, Status, Window};
use script::Made::{Plain, RoomFor, WindowsOf};
use script::Served::{Executed, Kept, Old, Reused, Stranger};
use script::Step::*;
use script::{Script, Step};
use std::alloc::Global;

const A: Peer = peer!(9001);

const B: Peer = peer!(9002);

/// There is room for one session, and for no other until it is forgotten.
const ROOM_FOR_1: &[Step] = &[
    Hears(A, 0, Opened),
    Len(1),
    Hears(B, 60_000, NoRoom),
    IsKnown(B, false),
    Hears(A, 60_000, Known),
    Serves(A, command!(1), Executed),
    Silent(180_000, &[A]),
    Hears(B, 180_000, NoRoom),
    Silent(180_001, &[A]),
    Serves(A, command!(1), Stranger),
    Hears(B, 180_001, Opened),
];

/// SetState of 4098 under handle 6.
const OTHER: Command<'static> = Command {
    target: Ono(4098),
    ..command!(6)
};

/// A window of 1 holds the last command alone. What differs under its handle is told.
const OF_1: &[Step] = &[
    Hears(A, 0, Opened),
    Serves(A, command!(5), Executed),
    Serves(A, command!(6), Executed),
    Serves(A, command!(6), Kept(6)),
    Serves(A, OTHER, Reused),
    Serves(A, command!(6), Kept(6)),
    Serves(A, command!(5), Old),
    Serves(A, command!(4), Old),
    Serves(A, command!(7), Executed),
];

/// A reply with a status, a ParamCount and parameters of its own.
const LOCKED: Answer = Answer {
    status: Status::Locked,
    count: 7,
    params: &[1, 2, 3],
};

/// What is retained is the whole reply.
const WHOLE: &[Step] = &[
    Hears(A, 0, Opened),
    Executes(A, u32::MAX, LOCKED),
    IsKnown(A, true),
    Retains(A, u32::MAX, LOCKED),
];

/// A new session has the heartbeat 5,000; one of 0 counts as 250, and one of a minute as 30,000.
const LIMITS: &[Step] = &[
    Hears(A, 0, Opened),
    Silent(15_000, &[]),
    Silent(15_001, &[A]),
    Hears(A, 20_000, Known),
    Beats(A, 0),
    Silent(20_750, &[]),
    Silent(20_751, &[A]),
    Beats(A, 60_000),
    Silent(110_000, &[]),
    Silent(110_001, &[A]),
];

/// The list that `advance_into` is given holds those who are lapsed then: what it held before is gone.
const REPLACES: &[Step] = &[
    Hears(A, 0, Opened),
    Hears(B, 110_000, Opened),
    SilentInto(120_001, &[A]),
    Len(1),
    SilentInto(125_000, &[]),
    SilentInto(125_001, &[B]),
];

/// From which moments on a peer is silent for three heartbeats, and a session for 120,000 ms.
const MOMENTS: &[Step] = &[
    Moment(0),
    ForgottenFrom(None),
    LapsedFrom(A, None),
    Hears(A, 0, Opened),
    Beats(A, 1_000),
    LapsedFrom(A, Some(3_001)),
    Hears(B, 10_000, Opened),
    Moment(10_000),
    LapsedFrom(B, Some(25_001)),
    ForgottenFrom(Some(120_001)),
];

/// The scripts, by their names.
const SCRIPTS: &[Script] = rows! {
    Script("has_room_for_1", RoomFor(1), ROOM_FOR_1),
    Script("a_window_of_1_holds_the_last", WindowsOf(1), OF_1),
    Script("retains_the_reply", Plain, WHOLE),
    Script("keeps_heartbeats_within_their_limits", Plain, LIMITS),
    Script("replaces_the_list_of_the_lapsed", Plain, REPLACES),
    Script("tells_when_a_peer_is_silent", Plain, MOMENTS),
};

#[test]
fn sessions_answer_events_in_turn(rt: HostRuntime) {
    all_agree(&rt, "sessions", SCRIPTS);
}

/// Whether sessions are there and empty, or memory was refused.
fn are_empty_or_refused(alloc: Global) -> bool {
    match Sessions::new(alloc, Window::default()) {
        Ok(sessions) => sessions.is_empty(),
        Err(NoMemory) => true,
    }
}

// Refused memory is the answer. Run by `rt try --test --fail-alloc N` for N from 1 to 33, the requests of `new`.
#[test]
fn answers_refused_memory(rt: HostRuntime) {
    assert!(rt; are_empty_or_refused(rt.alloc()));
}
