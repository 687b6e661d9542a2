//! The loop that keeps the objects in a store, over an end in memory.
use super::*;
use crate::tests::ending::Entry::{self, Parts, Quiet};
use crate::tests::ending::{Ending, end_of};
use crate::tests::{Agrees, Row, Said, all_agree, plays};
use arrayvec::ArrayVec;
use oca_device::{Keeping, NoElectronics, Store, serve_keeping};
use oca_net::{End, Heard, MemoryEnd};
use oca_tree::Tree;
use oca_types::{Packet, Peer};
use std::alloc::Global;

/// What a store is told of a turn: what it did, the moment, how many bytes its datagram and how many answers it has,
/// and to how many objects the last datagram wrote.
#[derive(Clone, Copy, Debug, Default, PartialEq, Eq)]
struct Told {
    report: Report,
    now: u64,
    bytes: usize,
    answers: usize,
    written: usize,
}

/// A store in memory that fails at first, and notes what it is told.
#[derive(Drop)]
struct FailsOnce {
    has_failed: bool,
    told: ArrayVec<Told, 8>,
}

/// The moment of what was heard; 0 where it has none.
fn moment_of(heard: Heard) -> u64 {
    match heard {
        Heard::Datagram { now, .. } | Heard::Quiet { now } | Heard::Oversize { now } => now,
        Heard::Failed | Heard::Closed => 0,
    }
}

impl Store for FailsOnce {
    ghost use Rattle.std.specs.Prelude.{[], false};

    ghost state = { λ _. record { tells = false; storings = [] } };

    /// Says that it holds the objects, but the first time.
    fn store(&mut self, _tree: &Tree) -> bool {
        let stored = self.has_failed;
        self.has_failed = true;
        stored
    }

    /// Notes what it is told.
    fn tell(
        &mut self,
        heard: Heard,
        bytes: &[u8],
        answers: &Outbox,
        turn: &Report,
        device: &Device,
    ) {
        let _ = self.told.try_push(Told {
            report: *turn,
            now: moment_of(heard),
            bytes: bytes.len(),
            answers: answers.len(),
            written: device.written().len(),
        });
    }
}

/// An end over another end that notes of each receive whether it may wait: one that is to end at a moment may not.
struct Noting<E> {
    end: E,
    waits: ArrayVec<bool, 8>,
}

impl<E: Drop> Drop for Noting<E> {
    /// Lets the end go.
    fn drop(self) {
        let Noting { end: _, waits: _ } = self;
    }
}

impl<E: End> End for Noting<E> {
    ghost use Rattle.std.specs.Prelude.{◌≤◌, length};
    ghost use Rattle.oca_net.specs.EndStates.{Receives, Sends};
    ghost use Rattle.oca_net.specs.Ends.{largest_datagram};

    ghost state = { λ n. E.state n.end };

    /// Receives as the end does.
    fn receive(&mut self, packet: &mut Packet) -> Heard
        ensures { Receives result packet.new.items (E.state self.old.end) (E.state self.new.end) }
    {
        let _ = self.waits.try_push(true);
        self.end.receive(packet)
    }

    /// As `receive`, until this moment of the end's at most.
    fn receive_by(&mut self, packet: &mut Packet, moment: u64) -> Heard
        ensures { Receives result packet.new.items (E.state self.old.end) (E.state self.new.end) }
    {
        let _ = self.waits.try_push(false);
        self.end.receive_by(packet, moment)
    }

    /// The end's present moment.
    fn now(&self) -> u64 {
        self.end.now()
    }

    /// Sends as the end does.
    fn send(&mut self, to: Peer, bytes: &[u8]) -> bool
        requires { length bytes.now ≤ largest_datagram }
        ensures { Sends result to bytes.now (E.state self.old.end) (E.state self.new.end) }
    {
        self.end.send(to, bytes)
    }
}

/// What the loop does in at most so many turns: what is reported, whether something written is then not stored, what
/// the end has then taken, all of it for the first peer, which receives so far might wait, of the first 8, and what the
/// store was told so far, of the first 8.
#[derive(Clone, Copy)]
struct Run(
    u64,
    Report,
    bool,
    &'static [Part],
    &'static [bool],
    &'static [Told],
);

/// A device and its outbox, the end, and the store with what waits for it.
#[derive(Drop)]
struct Bench {
    device: Device,
    outbox: Outbox,
    end: Noting<MemoryEnd>,
    keeping: Keeping,
    store: FailsOnce,
}

/// Whether the end has taken these datagrams for the first peer, and no others.
fn has_taken(end: &MemoryEnd, parts: &[Part], said: &mut Said) -> bool {
    for (at, part) in parts.iter().enumerate() {
        match end.taken().get(at) {
            Some((to, packet)) => {
                if *to != A || !is_of(packet.as_slice(), &[*part], said) {
                    return false;
                }
            }
            None => return false,
        }
    }
    said.same(end.taken().len(), parts.len())
}

/// The loop runs for at most so many turns.
fn served(on: &mut Bench, turns: u64) -> Report {
    let mut none = NoElectronics;
    serve_keeping(
        &mut on.device,
        &mut on.end,
        &mut on.outbox,
        &mut on.keeping,
        &mut on.store,
        &mut none,
        turns,
    )
}

impl Agrees<Bench> for Run {
    /// Whether the loop does what it must.
    fn agrees(&self, on: &mut Bench, said: &mut Said) -> bool {
        let Run(turns, report, is_behind, taken, waits, told) = *self;
        said.same(served(on, turns), report)
            && said.same(on.keeping.is_behind(), is_behind)
            && has_taken(&on.end.end, taken, said)
            && said.same(on.end.waits.as_slice(), waits)
            && said.same(on.store.told.as_slice(), told)
    }
}

/// What the store is told of one turn.
macro_rules! told {
    ($report:expr, $now:expr, $bytes:expr, $answers:expr, $written:expr) => {
        Told { report: $report, now: $now, bytes: $bytes, answers: $answers, written: $written }
    };
}

/// SetState was executed, and answered.
const SET: Told = told!(report!(1, 1, 0, 0), 0, 28, 1, 1);

/// Its duplicate came, and was answered.
const AGAIN: Told = told!(report!(1, 0, 1, 0), 0, 28, 1, 0);

/// GetState was executed, and answered.
const READ: Told = told!(report!(1, 1, 0, 0), 2, 27, 1, 0);

/// Nothing came, and the last datagram wrote to nothing.
const QUIET: Told = told!(report!(1, 0, 0, 1), 3, 0, 0, 0);

const SETS: &[Part] = &[Part::SetState(5, 2)];

const GETS: &[Part] = &[Part::GetState(6)];

/// The answer to SetState is dropped where the store fails. Its duplicate is answered once the store holds the objects,
/// behind the answer to GetState, which does not wait. While answers wait, no receive does.
const ANSWERS_WHAT_IS_STORED: Kept = Kept(
    "answers_what_is_stored",
    &[Parts(A, SETS, 0), Parts(A, SETS, 1), Parts(A, GETS, 2)],
    rows! {
        Run(1, report!(1, 1, 0, 0), true, &[], &[true], &[SET]),
        Run(9, report!(2, 1, 1, 0), false, &[Part::State(6, 2), Part::Done(5)], &[true, true, false, false],
            &[SET, Told { now: 1, ..AGAIN }, READ]),
    },
);

/// The objects are stored as soon as nothing comes: what comes behind that is answered behind it.
const STORES_WHERE_NOTHING_COMES: Kept = Kept(
    "stores_where_nothing_comes",
    &[
        Parts(A, SETS, 0),
        Quiet(1),
        Parts(A, SETS, 2),
        Quiet(3),
        Parts(A, GETS, 4),
    ],
    rows! {
        Run(9, report!(5, 2, 1, 2), false, &[Part::Done(5), Part::State(6, 2)], &[true, false, true, false, true, true],
            &[
                SET, Told { now: 1, written: 1, ..QUIET }, Told { now: 2, ..AGAIN }, QUIET, Told { now: 4, ..READ },
            ]),
    },
);

/// The objects are stored once for 64 datagrams, and then for what comes behind them.
const STORES_ONCE_FOR_64: Kept = Kept(
    "stores_once_for_64",
    &[Parts(A, SETS, 0); 65],
    rows! {
        Run(70, report!(65, 1, 64, 0), false, &[Part::Done(5)],
            &[true, false, false, false, false, false, false, false],
            &[SET, AGAIN, AGAIN, AGAIN, AGAIN, AGAIN, AGAIN, AGAIN]),
    },
);

/// A keep-alive.
const BEAT: &[u8] = &[0x3b, 0, 1, 0, 0, 0, 0x0b, 4, 0, 1, 0, 1];

/// While at most 244 packets wait, one datagram more is taken in before the objects are stored.
const STORES_BEFORE_IT_IS_FULL: Kept = Kept(
    "stores_before_it_is_full",
    rows! {
        Parts(A, &[Part::SetState(5, 2), Part::Times(119, BEAT)], 0),
        Parts(A, &[Part::SetState(5, 2), Part::Times(120, BEAT)], 0),
        Parts(A, &[Part::SetState(5, 2), Part::Times(2, BEAT)], 0),
        Parts(A, SETS, 0),
        Parts(A, SETS, 0),
    },
    rows! {
        Run(9, report!(5, 1, 4, 0), false, &[Part::Done(5)], &[true, false, false, false, true, false], &[
            Told { bytes: 1456, answers: 120, ..SET },
            Told { bytes: 1468, answers: 121, ..AGAIN },
            Told { bytes: 52, answers: 3, ..AGAIN },
            AGAIN,
            AGAIN,
        ]),
    },
);

/// An end whose loop keeps the objects in a store that fails at first: a name, what the end delivers, and what is done.
struct Kept(&'static str, &'static [Entry], &'static [Run]);

const PLAYS: &[Kept] = rows! {
    ANSWERS_WHAT_IS_STORED,
    STORES_WHERE_NOTHING_COMES,
    STORES_ONCE_FOR_64,
    STORES_BEFORE_IT_IS_FULL,
};

/// What a play is run on; none where memory is refused.
fn bench_of(alloc: Global, play: &Kept) -> Option<Bench> {
    let (Some(device), Ok(outbox), Some(end), Ok(keeping)) = (
        device_of(alloc, Setup::Window(32)),
        Outbox::new(alloc),
        end_of(alloc, delivers!(play.1, 4)),
        Keeping::new(alloc),
    ) else {
        return None;
    };
    Some(Bench {
        device,
        outbox,
        end: Noting {
            end,
            waits: ArrayVec::new(),
        },
        keeping,
        store: FailsOnce {
            has_failed: false,
            told: ArrayVec::new(),
        },
    })
}

impl Row for Kept {
    /// Whether the loop does what it must in each run.
    fn agrees(&self, said: &mut Said) -> bool {
        match bench_of(said.alloc, self) {
            Some(mut on) => plays(&mut on, self.0, self.2, said),
            None => false,
        }
    }
}

#[test]
fn answers_wait_until_the_objects_are_stored(rt: HostRuntime) {
    all_agree(&rt, "stores", PLAYS);
}
