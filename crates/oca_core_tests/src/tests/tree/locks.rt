//! Locks of two peers.
use super::script::Over::Bench;
use super::script::Row::{Calls, Locked, Releases};
use super::script::{At, Script};
use super::words::*;
use crate::tests::all_agree;
use oca_tree::{Lock, LockKind};
use oca_types::Status;

/// A ParamCount of 0 and no parameters.
const NONE: (u8, &[u8]) = (0, &[]);

/// An answer without parameters whose status is OK.
const DONE: (Status, u8, &[u8]) = (Status::Ok, 0, &[]);

/// The answer where the lock of another peer refuses.
const REFUSED: (Status, u8, &[u8]) = (Status::Locked, 0, &[]);

/// The answer where what is asked does not apply.
const INVALID: (Status, u8, &[u8]) = (Status::InvalidRequest, 0, &[]);

/// The answer where a method is left out.
const LEFT_OUT: (Status, u8, &[u8]) = (Status::NotImplemented, 0, &[]);

/// The setting of the trim with its limits.
const TRIM: (Status, u8, &[u8]) = (Status::Ok, 3, &[0, 0, 0xFD, 0xA8, 0x02, 0x58]);

/// The role of the mute.
const ROLE: (Status, u8, &[u8]) = (Status::Ok, 1, &[0, 4, 0x6D, 0x75, 0x74, 0x65]);

// What a lock of one peer keeps another from.
const TWO_PEERS: &[At] = rows! {
    At(4100, &[
        Calls(A, LOCK_READONLY, NONE, DONE),
        Calls(B, GET_SETTING, NONE, TRIM),
        Calls(B, SET_SETTING, (1, &[0, 1]), REFUSED),
        Calls(B, UNLOCK, NONE, REFUSED),
        Calls(A, SET_SETTING, (1, &[0, 0]), DONE),
        Calls(A, LOCK_TOTAL, NONE, DONE),
        Calls(B, GET_SETTING, NONE, REFUSED),
        Calls(A, UNLOCK, NONE, DONE),
        Calls(A, UNLOCK, NONE, INVALID),
    ]),
    At(4097, &[
        Calls(A, LOCK_TOTAL, NONE, DONE),
        Calls(B, GET_ROLE, NONE, REFUSED),
        // a left-out method of a locked object is left out
        Calls(B, (2, 3), NONE, LEFT_OUT),
        Calls(A, UNLOCK, NONE, DONE),
        Calls(B, GET_ROLE, NONE, ROLE),
    ]),
};

const TOTAL_OF_B: Option<Lock> = Some(Lock {
    kind: LockKind::Total,
    holder: B,
});

// A release takes one peer's locks off and leaves those of another.
const RELEASE: &[At] = &[
    At(4097, &[Calls(A, LOCK_TOTAL, NONE, DONE)]),
    At(
        4098,
        &[
            Calls(A, LOCK_READONLY, NONE, DONE),
            Locked(Some(Lock {
                kind: LockKind::Readonly,
                holder: A,
            })),
        ],
    ),
    At(4099, &[Calls(B, LOCK_TOTAL, NONE, DONE), Releases(A)]),
    At(4097, &[Locked(None)]),
    At(4098, &[Locked(None)]),
    At(4099, &[Locked(TOTAL_OF_B)]),
    At(5, &[Locked(None)]),
];

const SCRIPTS: &[Script] = rows! {
    Script("locks_of_two_peers", Bench, TWO_PEERS),
    Script("release_takes_the_peers_locks_off", Bench, RELEASE),
};

#[test]
fn a_lock_keeps_other_peers_out(rt: HostRuntime) {
    all_agree(&rt, "locks", SCRIPTS);
}
