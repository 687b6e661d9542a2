//! The methods of blocks, and what is listed of them.
use super::methods::{COMMON, LOCKABLE};
use super::script::Addition::{Many, One};
use super::script::Over::{Bench, Built};
use super::script::Row::{Does, Measures, Reads};
use super::script::{Addition, At, Row, Script};
use super::words::*;
use crate::tests::all_agree;
use oca_tree::{Kind, Spec};
use oca_types::Status;
use oca_types::Status::{BadMethod, BufferOverflow, NotImplemented};

/// What the root is.
const ROOT_IS: &[Row] = &[
    Reads(GET_CLASS_IDENTIFICATION, 1, &[0, 3, 0, 1, 0, 1, 0, 3, 0, 2]),
    Reads(GET_ROLE, 1, &[0, 4, 0x72, 0x6F, 0x6F, 0x74]),
    Reads(GET_OWNER, 1, &[0, 0, 0, 0]),
];

/// What the desk is.
const DESK_IS: &[Row] = &[
    Reads(GET_CLASS_IDENTIFICATION, 1, &[0, 3, 0, 1, 0, 1, 0, 3, 0, 2]),
    Reads(GET_ROLE, 1, &[0, 4, 0x64, 0x65, 0x73, 0x6B]),
    Reads(GET_OWNER, 1, &[0, 0, 0, 100]),
];

/// The member of the root.
const ROOT_MEMBERS: &[Row] = rows! {
    Reads(GET_MEMBERS, 1, &[0, 1, 0, 0, 0x10, 0, 0, 3, 0, 1, 0, 1, 0, 3, 0, 2]),
};

/// The methods of a block that are left out, and those that it does not have.
const NO_METHODS: &[Row] = &[
    Does((3, 1), NotImplemented),
    Does((3, 2), NotImplemented),
    Does((3, 3), NotImplemented),
    Does((3, 4), NotImplemented),
    Does((3, 7), NotImplemented),
    Does((3, 20), NotImplemented),
    Does((3, 0), BadMethod),
    Does((3, 21), BadMethod),
    Does(GET_STATE, BadMethod),
];

// Each method of a block.
const BLOCKS: &[At] = rows! {
    At(100, ROOT_IS),
    At(100, COMMON),
    At(4096, DESK_IS),
    At(4096, COMMON),
    At(100, LOCKABLE),
    At(4096, LOCKABLE),
    At(100, ROOT_MEMBERS),
    At(4096, NO_METHODS),
    At(4097, &[Does(GET_MEMBERS, BadMethod), Does((3, 1), BadMethod)]),
    At(100, &[Measures(GET_MEMBERS_RECURSIVE, Status::Ok, 1, 146)]),
};

// What is listed of a block: its members, and all that lies in it.
const TWO_MUTES: &[Addition] = &[
    One(100, 4096, BLOCK, Ok(())),
    One(100, 4097, MUTE, Ok(())),
    One(4096, 4098, MUTE, Ok(())),
];

const MEMBERS: &[u8] = &[
    0, 2, 0, 0, 0x10, 0, 0, 3, 0, 1, 0, 1, 0, 3, 0, 2, 0, 0, 0x10, 1, 0, 4, 0, 1, 0, 1, 0, 1, 0, 2,
    0, 2,
];

const DESCENDANTS: &[u8] = &[
    0, 3, 0, 0, 0x10, 0, 0, 3, 0, 1, 0, 1, 0, 3, 0, 2, 0, 0, 0, 100, 0, 0, 0x10, 1, 0, 4, 0, 1, 0,
    1, 0, 1, 0, 2, 0, 2, 0, 0, 0, 100, 0, 0, 0x10, 2, 0, 4, 0, 1, 0, 1, 0, 1, 0, 2, 0, 2, 0, 0,
    0x10, 0,
];

const INNER: &[u8] = &[
    0, 1, 0, 0, 0x10, 2, 0, 4, 0, 1, 0, 1, 0, 1, 0, 2, 0, 2, 0, 0, 0x10, 0,
];

const LISTS: &[At] = rows! {
    At(100, &[Reads(GET_MEMBERS, 1, MEMBERS), Reads(GET_MEMBERS_RECURSIVE, 1, DESCENDANTS)]),
    At(4096, &[Reads(GET_MEMBERS_RECURSIVE, 1, INNER)]),
};

/// An Int16 actuator.
const TRIM: Spec<'static> = Spec {
    role: "trim",
    lockable: true,
    kind: Kind::Int16 {
        setting: 0,
        least: 0,
        greatest: 0,
    },
};

// Answers of 1,432 and of 1,452 bytes fit, and one of 1,454 does not.
const OF_65: &[Addition] = &[Many(4096, 4161, TRIM)];

const OF_65_AND_A_MUTE: &[Addition] = &[Many(4096, 4161, TRIM), One(100, 5000, MUTE, Ok(()))];

const OF_66: &[Addition] = &[Many(4096, 4162, TRIM)];

const OF_1432_BYTES: &[At] = &[At(100, &[Measures(GET_MEMBERS_RECURSIVE, Status::Ok, 1, 1432)])];

const OF_1452_BYTES: &[At] = &[At(100, &[Measures(GET_MEMBERS_RECURSIVE, Status::Ok, 1, 1452)])];

const TOO_LONG: &[At] = &[At(
    100,
    &[Measures(GET_MEMBERS_RECURSIVE, BufferOverflow, 0, 0)],
)];

const SCRIPTS: &[Script] = rows! {
    Script("methods_of_blocks", Bench, BLOCKS),
    Script("members_and_descendants", Built(TWO_MUTES), LISTS),
    Script("an_answer_has_its_limit_1", Built(OF_65), OF_1432_BYTES),
    Script("an_answer_has_its_limit_2", Built(OF_65_AND_A_MUTE), OF_1452_BYTES),
    Script("an_answer_has_its_limit_3", Built(OF_66), TOO_LONG),
};

#[test]
fn blocks_answer_with_their_members(rt: HostRuntime) {
    all_agree(&rt, "blocks", SCRIPTS);
}
