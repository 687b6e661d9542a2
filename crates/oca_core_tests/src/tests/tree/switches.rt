//! Each method of a switch over the bench device.
use super::methods::{COMMON, DESK, LOCKABLE};
use super::script::Over::Bench;
use super::script::Row::{Calls, Does, Holds, Reads, Sends};
use super::script::{At, Row, Script};
use super::words::*;
use crate::tests::all_agree;
use oca_tree::Setting;
use oca_types::Status;
use oca_types::Status::{BadMethod, ParameterError, ParameterOutOfRange};

/// What the switch is.
const INPUT_IS: &[Row] = rows! {
    Reads(GET_CLASS_IDENTIFICATION, 1, &[0, 4, 0, 1, 0, 1, 0, 1, 0, 4, 0, 2]),
    Reads(GET_ROLE, 1, &[0, 5, 0x69, 0x6E, 0x70, 0x75, 0x74]),
    Reads(GET_OWNER, 1, DESK),
};

/// The position.
const POSITION: &[Row] = &[
    Reads(GET_POSITION, 3, &[0, 0, 0, 0, 0, 2]),
    Sends(SET_POSITION, 1, &[0, 1], Status::Ok),
    Reads(GET_POSITION, 3, &[0, 1, 0, 0, 0, 2]),
    Holds(Some(Setting::Position(1))),
];

/// The name of a position.
const NAME: &[Row] = rows! {
    Calls(A, GET_POSITION_NAME, (1, &[0, 1]), (Status::Ok, 1, &[0, 3, 0x4D, 0x69, 0x63])),
    Sends(GET_POSITION_NAME, 1, &[0, 3], ParameterOutOfRange),
    Sends(SET_POSITION_NAME, 2, &[0, 1, 0, 1, 0x61], Status::Ok),
    Sends(SET_POSITION_NAME, 2, &[0, 3, 0, 1, 0x61], ParameterOutOfRange),
};

const THREE_NAMES: &[u8] = &[0, 3, 0, 1, 0x61, 0, 0, 0, 1, 0x63];

/// The names of all positions.
const NAMES: &[Row] = rows! {
    Reads(GET_POSITION_NAMES, 1, &[0, 3, 0, 4, 0x4C, 0x69, 0x6E, 0x65, 0, 1, 0x61, 0, 3, 0x4F, 0x66, 0x66]),
    Sends(SET_POSITION_NAMES, 1, THREE_NAMES, Status::Ok),
    Reads(GET_POSITION_NAMES, 1, THREE_NAMES),
};

/// The flag of a position.
const FLAG: &[Row] = &[
    Calls(A, GET_POSITION_ENABLED, (1, &[0, 2]), (Status::Ok, 1, &[1])),
    Sends(GET_POSITION_ENABLED, 1, &[0, 3], ParameterOutOfRange),
    Sends(SET_POSITION_ENABLED, 2, &[0, 2, 0], Status::Ok),
    Sends(SET_POSITION_ENABLED, 2, &[0, 3, 0], ParameterOutOfRange),
    Calls(A, GET_POSITION_ENABLED, (1, &[0, 2]), (Status::Ok, 1, &[0])),
];

/// The flags of all positions.
const FLAGS: &[Row] = rows! {
    Reads(GET_POSITION_ENABLEDS, 1, &[0, 3, 1, 1, 0]),
    Sends(SET_POSITION_ENABLEDS, 1, &[0, 3, 0, 7, 1], Status::Ok),
    Reads(GET_POSITION_ENABLEDS, 1, &[0, 3, 0, 1, 1]),
    Sends(SET_POSITION_ENABLEDS, 1, &[0, 4, 0, 1, 1, 1], ParameterError),
    Sends(SET_POSITION_ENABLEDS, 1, &[0, 2, 0, 1], ParameterError),
};

// Each method of a switch.
const SWITCH: &[At] = &[
    At(4099, INPUT_IS),
    At(4099, COMMON),
    At(4099, LOCKABLE),
    At(4099, POSITION),
    At(4099, NAME),
    At(4099, NAMES),
    At(4099, FLAG),
    At(4099, FLAGS),
    At(4099, &[Does((4, 11), BadMethod)]),
];

const SCRIPTS: &[Script] = rows! {
    Script("methods_of_a_switch", Bench, SWITCH),
};

#[test]
fn each_method_of_a_switch_answers(rt: HostRuntime) {
    all_agree(&rt, "switches", SCRIPTS);
}
