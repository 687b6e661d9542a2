//! The table of methods once over the bench device: what every object has, mutes and polarities, and basic actuators.
use super::script::Over::Bench;
use super::script::Row::{Does, Holds, Reads, Sends};
use super::script::{At, Row, Script};
use super::words::*;
use crate::tests::all_agree;
use oca_tree::Setting;
use oca_types::Status;
use oca_types::Status::{
    BadMethod, InvalidRequest, NotImplemented, ParameterError, ParameterOutOfRange,
};

/// What every object answers as the bench device begins, and the methods that are left out.
pub const COMMON: &[Row] = &[
    Reads(GET_ENABLED, 1, &[1]),
    Sends(SET_ENABLED, 1, &[0], Status::Ok),
    Reads(GET_ENABLED, 1, &[0]),
    Sends(SET_ENABLED, 1, &[2], Status::Ok),
    Reads(GET_ENABLED, 1, &[1]),
    Reads(GET_LABEL, 1, &[0, 0]),
    Sends(SET_LABEL, 1, &[0, 1, 0x61], Status::Ok),
    Reads(GET_LABEL, 1, &[0, 1, 0x61]),
    Does((2, 3), NotImplemented),
    Does((2, 4), NotImplemented),
    Does((2, 5), NotImplemented),
    Does((2, 6), NotImplemented),
    Does((2, 7), NotImplemented),
    Does((2, 11), NotImplemented),
    Does((2, 12), NotImplemented),
    Does((2, 13), NotImplemented),
    Does((0, 1), BadMethod),
    Does((1, 0), BadMethod),
    Does((2, 14), BadMethod),
    Does((6, 1), BadMethod),
];

/// The methods of a lock at an object that is lockable.
pub const LOCKABLE: &[Row] = &[
    Reads(GET_LOCKABLE, 1, &[1]),
    Does(LOCK_TOTAL, Status::Ok),
    Does(UNLOCK, Status::Ok),
    Does(LOCK_READONLY, Status::Ok),
    Does(UNLOCK, Status::Ok),
];

/// The number of the desk, which contains the other objects of the bench device.
pub const DESK: &[u8] = &[0, 0, 0x10, 0];

/// What the mute is.
const MUTE_IS: &[Row] = rows! {
    Reads(GET_CLASS_IDENTIFICATION, 1, &[0, 4, 0, 1, 0, 1, 0, 1, 0, 2, 0, 2]),
    Reads(GET_ROLE, 1, &[0, 4, 0x6D, 0x75, 0x74, 0x65]),
    Reads(GET_OWNER, 1, DESK),
};

/// What the polarity is.
const POLARITY_IS: &[Row] = rows! {
    Reads(GET_CLASS_IDENTIFICATION, 1, &[0, 4, 0, 1, 0, 1, 0, 1, 0, 3, 0, 2]),
    Reads(GET_ROLE, 1, &[0, 8, 0x70, 0x6F, 0x6C, 0x61, 0x72, 0x69, 0x74, 0x79]),
    Reads(GET_OWNER, 1, DESK),
};

/// The state of a mute or a polarity.
const STATES: &[Row] = &[
    Reads(GET_STATE, 1, &[1]),
    Sends(SET_STATE, 1, &[2], Status::Ok),
    Reads(GET_STATE, 1, &[2]),
    Sends(SET_STATE, 1, &[0], ParameterOutOfRange),
    Sends(SET_STATE, 1, &[3], ParameterOutOfRange),
    Sends(SET_STATE, 0, &[1], ParameterError),
    Sends(SET_STATE, 1, &[], ParameterError),
    Sends(SET_STATE, 2, &[1], ParameterError),
    Reads(GET_STATE, 1, &[2]),
    Holds(Some(Setting::State(2))),
    Does(GET_POSITION_NAME, BadMethod),
    Does(GET_SETTING, BadMethod),
];

// Each method of a mute and of a polarity.
const MUTE_AND_POLARITY: &[At] = &[
    At(4097, MUTE_IS),
    At(4097, COMMON),
    At(4098, POLARITY_IS),
    At(4098, COMMON),
    At(4097, LOCKABLE),
    At(4097, STATES),
    At(4098, LOCKABLE),
    At(4098, STATES),
];

/// What the Int16 actuator is.
const TRIM_IS: &[Row] = rows! {
    Reads(GET_CLASS_IDENTIFICATION, 1, &[0, 5, 0, 1, 0, 1, 0, 1, 0, 1, 0, 3, 0, 2]),
    Reads(GET_ROLE, 1, &[0, 4, 0x74, 0x72, 0x69, 0x6D]),
    Reads(GET_OWNER, 1, DESK),
};

/// The setting of the Int16 actuator.
const TRIM_ROWS: &[Row] = rows! {
    Reads(GET_SETTING, 3, &[0, 0, 0xFD, 0xA8, 0x02, 0x58]),
    Sends(SET_SETTING, 1, &[0xFF, 0xFF], Status::Ok),
    Reads(GET_SETTING, 3, &[0xFF, 0xFF, 0xFD, 0xA8, 0x02, 0x58]),
    Holds(Some(Setting::Number { setting: -1, least: -600, greatest: 600 })),
};

/// What the Boolean actuator is.
const LAMP_IS: &[Row] = rows! {
    Reads(GET_CLASS_IDENTIFICATION, 1, &[0, 5, 0, 1, 0, 1, 0, 1, 0, 1, 0, 1, 0, 2]),
    Reads(GET_ROLE, 1, &[0, 4, 0x6C, 0x61, 0x6D, 0x70]),
    Reads(GET_OWNER, 1, DESK),
};

/// The setting of the Boolean actuator.
const LAMP_ROWS: &[Row] = &[
    Reads(GET_SETTING, 1, &[0]),
    Sends(SET_SETTING, 1, &[255], Status::Ok),
    Reads(GET_SETTING, 1, &[1]),
    Holds(Some(Setting::Truth(true))),
];

/// What the Uint8 actuator is.
const DIMMER_IS: &[Row] = rows! {
    Reads(GET_CLASS_IDENTIFICATION, 1, &[0, 5, 0, 1, 0, 1, 0, 1, 0, 1, 0, 6, 0, 2]),
    Reads(GET_ROLE, 1, &[0, 3, 0x64, 0x69, 0x6D]),
    Reads(GET_OWNER, 1, DESK),
};

/// The setting of the Uint8 actuator, which can't be locked.
const DIMMER_ROWS: &[Row] = &[
    Reads(GET_LOCKABLE, 1, &[0]),
    Does(LOCK_TOTAL, InvalidRequest),
    Does(UNLOCK, InvalidRequest),
    Does(LOCK_READONLY, InvalidRequest),
    Reads(GET_SETTING, 3, &[10, 0, 100]),
    Sends(SET_SETTING, 1, &[100], Status::Ok),
    Sends(SET_SETTING, 1, &[101], ParameterOutOfRange),
    Reads(GET_SETTING, 3, &[100, 0, 100]),
    Does((5, 3), BadMethod),
];

// Each method of a Boolean and of an integer actuator.
const BASIC_ACTUATORS: &[At] = &[
    At(4100, TRIM_IS),
    At(4100, COMMON),
    At(4100, LOCKABLE),
    At(4100, TRIM_ROWS),
    At(4101, LAMP_IS),
    At(4101, COMMON),
    At(4101, LOCKABLE),
    At(4101, LAMP_ROWS),
    At(4102, DIMMER_IS),
    At(4102, COMMON),
    At(4102, DIMMER_ROWS),
];

const SCRIPTS: &[Script] = rows! {
    Script("methods_of_mute_and_polarity", Bench, MUTE_AND_POLARITY),
    Script("methods_of_basic_actuators", Bench, BASIC_ACTUATORS),
};

#[test]
fn each_method_of_an_actuator_answers(rt: HostRuntime) {
    all_agree(&rt, "methods", SCRIPTS);
}
