//! Commands, datagrams that are no datagrams, hardware that refuses, and silence.
use super::parts::bytes_of;
use super::*;
use crate::tests::{Agrees, Row, Said, all_agree, plays};
use Part::*;
use Step::*;
use oca_device::{CommandOutcome, Effect, law_by_events, law_of_groups};
use oca_tree::FrontFault;
use oca_types::{MethodId, Ono, Status};

/// An event, and what must come of it.
#[derive(Clone, Copy)]
enum Step {
    /// A peer sends a datagram of one part at a moment, and gets the packet of one part.
    Answers(Peer, u64, Part, Verdict, Part),
    /// A peer sends a datagram at a moment, and gets nothing.
    Ignores(Peer, u64, &'static [Part], Verdict),
    /// A peer sends a datagram at a moment, and this becomes of its commands.
    Becomes(Peer, u64, &'static [Part], Verdict, &'static [Effect]),
    /// The clock is read at a moment.
    Tick(u64),
    /// The front says whether the hardware of an object refuses to be changed.
    Fails(u32, bool, Result<(), FrontFault>),
    /// Whether the hardware of an object refuses to be changed.
    Failing(u32, Option<bool>),
    /// There are so many sessions.
    Sessions(usize),
    /// There are so many objects.
    Objects(usize),
    /// 4097 is locked, or not.
    Locked(bool),
    /// The next moment at which a clock reading changes something.
    NextLapse(Option<u64>),
    /// This became of the commands of the last datagram.
    Effects(&'static [Effect]),
    /// The outbox is empty.
    NoPackets,
}

/// A device and its outbox.
#[derive(Drop)]
struct Bench {
    device: Device,
    outbox: Outbox,
}

/// Whether the device makes this of a datagram.
fn hears(
    on: &mut Bench,
    from: Peer,
    now: u64,
    parts: &[Part],
    verdict: Verdict,
    said: &mut Said,
) -> bool {
    let bytes = bytes_of(parts);
    said.same(
        on.device
            .datagram(from, bytes.as_slice(), now, &mut on.outbox),
        verdict,
    )
}

/// Whether the device stands as a step says that is no event.
fn stands(device: &Device, step: Step, said: &mut Said) -> bool {
    match step {
        Sessions(count) => said.same(device.sessions(), count),
        Objects(count) => said.same(device.tree().len(), count),
        Locked(locked) => said.same(device.tree().lock_of(Ono(4097)).is_some(), locked),
        NextLapse(moment) => said.same(device.next_lapse(), moment),
        Failing(ono, failing) => said.same(device.is_failing(Ono(ono)), failing),
        Effects(effects) => said.same(device.effects(), effects),
        _ => false,
    }
}

impl Agrees<Bench> for Step {
    /// Whether this comes of it.
    fn agrees(&self, on: &mut Bench, said: &mut Said) -> bool {
        match *self {
            Answers(from, now, part, verdict, reply) => {
                hears(on, from, now, &[part], verdict, said) && holds(&on.outbox, &[&[reply]], said)
            }
            Ignores(from, now, parts, verdict) => {
                hears(on, from, now, parts, verdict, said) && holds(&on.outbox, &[], said)
            }
            Becomes(from, now, parts, verdict, effects) => {
                hears(on, from, now, parts, verdict, said)
                    && said.same(on.device.effects(), effects)
            }
            Tick(now) => {
                on.device.tick(now);
                true
            }
            Fails(ono, failing, want) => said.same(on.device.set_failing(Ono(ono), failing), want),
            NoPackets => on.outbox.is_empty(),
            other => stands(&on.device, other, said),
        }
    }
}

/// SetState of 4097 to Muted under handle 2.
const MUTE: Part = Bytes(&[
    0x3b, 0, 1, 0, 0, 0, 0x1b, 1, 0, 1, 0, 0, 0, 0x12, 0, 0, 0, 2, 0, 0, 0x10, 1, 0, 4, 0, 2, 1, 1,
]);

/// Its response.
const MUTE_DONE: Part = Bytes(&[
    0x3b, 0, 1, 0, 0, 0, 0x13, 3, 0, 1, 0, 0, 0, 0x0a, 0, 0, 0, 2, 0, 0,
]);

/// A command is answered, and a repeated one gets its reply again, also after others.
const REPEATED: &[Step] = &[
    NoPackets,
    Answers(A, 0, GET, EXECUTED, MUTED),
    Answers(A, 0, GET, KEPT, MUTED),
    Answers(A, 0, MUTE, EXECUTED, MUTE_DONE),
    Answers(A, 0, SetState(3, 2), EXECUTED, Done(3)),
    Answers(A, 0, MUTE, KEPT, MUTE_DONE),
    Answers(A, 0, GetState(4), EXECUTED, State(4, 2)),
    Sessions(1),
    Objects(8),
];

/// The response with status ProcessingFailed to the command under handle 1.
const REFUSED: Part = Response(1, 10, 0, &[]);

/// Hardware that refuses: a set changes nothing and is answered ProcessingFailed, and so is its repetition, also when
/// the hardware refuses no longer; a reading is answered.
const HARDWARE: &[Step] = &[
    Failing(4097, Some(false)),
    Fails(4097, true, Ok(())),
    Failing(4097, Some(true)),
    Answers(A, 0, SetState(1, 2), EXECUTED, REFUSED),
    Answers(A, 0, GetState(2), EXECUTED, State(2, 1)),
    Fails(4097, false, Ok(())),
    Answers(A, 0, SetState(1, 2), KEPT, REFUSED),
    Fails(9, true, Err(FrontFault::NoObject)),
    Failing(9, None),
];

/// A keep-alive of 1 second whose last byte is missing.
const CUT_KEEP_ALIVE: Part = Bytes(&[0x3b, 0, 1, 0, 0, 0, 0x0b, 4, 0, 1, 0]);

/// The verdict on a datagram whose PDU at byte 27, and so with its size at byte 30, is cut short.
const CUT_AT_30: Verdict = malformed!(Truncated, 30);

/// A malformed datagram executes nothing, opens no session and gets nothing.
const MALFORMED: &[Step] = &[
    Ignores(A, 0, &[GET, CUT_KEEP_ALIVE], CUT_AT_30),
    Sessions(0),
    Answers(A, 0, GET, EXECUTED, MUTED),
    Ignores(A, 500, &[], EMPTY),
    Answers(A, 100, GET, KEPT, MUTED),
];

/// Commands in a window of one command: a reading and a lock are executed, then a duplicate, a command under the handle
/// of the lock, and one with a handle below the window. The last one asks for no response, of an object that is not
/// there.
const EACH_WAY: &[Part] = &[
    GetState(5),
    Lock(6),
    Lock(6),
    GetState(6),
    SetState(4, 2),
    Command(0, 7, 9, (2, 10), &[]),
];

/// What becomes of a command to an object, by DefLevel and MethodIndex.
macro_rules! effect {
    ($ono:expr, $level:expr, $index:expr, $respond:expr, $outcome:expr) => {
        Effect {
            target: Ono($ono),
            method: MethodId { level: $level, index: $index },
            respond: $respond,
            outcome: $outcome,
        }
    };
}

/// What becomes of them.
const EACH_EFFECT: &[Effect] = rows! {
    effect!(4097, 4, 1, true, CommandOutcome::Executed(Status::Ok)),
    effect!(4097, 1, 3, true, CommandOutcome::Executed(Status::Ok)),
    effect!(4097, 1, 3, true, CommandOutcome::Duplicate),
    effect!(4097, 4, 1, true, CommandOutcome::Reused),
    effect!(4097, 4, 2, true, CommandOutcome::Old),
    effect!(9, 2, 10, false, CommandOutcome::Executed(Status::BadOno)),
};

/// The device says what became of each command of the last datagram. A clock reading and the front leave that, and a
/// malformed datagram ends it.
const EFFECTS: &[Step] = &[
    Effects(&[]),
    Becomes(A, 0, EACH_WAY, served!(3, 1, 1, 1), EACH_EFFECT),
    Tick(10),
    Fails(4097, true, Ok(())),
    Effects(EACH_EFFECT),
    Becomes(A, 20, &[GET, CUT_KEEP_ALIVE], CUT_AT_30, &[]),
];

/// One peer: another finds no room until a session is forgotten.
const ONE_PEER: &[Step] = &[
    Answers(A, 0, GetState(1), EXECUTED, State(1, 1)),
    Sessions(1),
    Ignores(B, 120_000, &[GetState(1)], Verdict::NoRoom),
    Answers(B, 120_001, GetState(1), EXECUTED, State(1, 1)),
    Sessions(1),
];

/// The lock of a silent peer goes after three heartbeats, and its session later.
const LOCK_FIRST: &[Step] = &[
    NextLapse(None),
    Answers(A, 0, Lock(1), EXECUTED, Done(1)),
    NextLapse(Some(15_001)),
    Answers(A, 0, Beat(1000), served!(0, 0, 0, 0), Beat(1000)),
    NextLapse(Some(3001)),
    Tick(3000),
    Locked(true),
    Tick(3001),
    Locked(false),
    NextLapse(Some(120_001)),
    Tick(120_000),
    Sessions(1),
    Tick(120_001),
    Sessions(0),
];

/// A script by its name, and the device that it is played on.
struct Script(&'static str, Setup, &'static [Step]);

/// The scripts.
const SCRIPTS: &[Script] = rows! {
    Script("answers_and_repeats", Setup::Window(32), REPEATED),
    Script("hardware_refuses_a_set", Setup::Window(32), HARDWARE),
    Script("ignores_malformed_datagrams", Setup::Window(32), MALFORMED),
    Script("says_what_became_of_each_command", Setup::Window(1), EFFECTS),
    Script("has_sessions_of_as_few_as_one", Setup::Peers(1), ONE_PEER),
    Script("a_lock_lapses_before_its_session", Setup::Window(32), LOCK_FIRST),
};

impl Row for Script {
    /// Whether each event comes out so.
    fn agrees(&self, said: &mut Said) -> bool {
        let (Some(device), Ok(outbox)) = (device_of(said.alloc, self.1), Outbox::new(said.alloc))
        else {
            return false;
        };
        plays(&mut Bench { device, outbox }, self.0, self.2, said)
    }
}

#[test]
fn events_come_out_as_the_laws_say(rt: HostRuntime) {
    // The laws can be called.
    law_by_events();
    law_of_groups();
    all_agree(&rt, "events of a device", SCRIPTS);
}
