//! Commands of the bench device and their refusals.
use super::script::Over::Bench;
use super::script::Row::{Does, Holds, Reads, Sends};
use super::script::{At, Script};
use super::words::*;
use crate::tests::all_agree;
use oca_tree::Setting;
use oca_types::Status;
use oca_types::Status::{
    BadMethod, BadOno, InvalidRequest, NotImplemented, ParameterError, ParameterOutOfRange,
};

// A mute answers the state that it was set to.
const MUTE_ROWS: &[At] = rows! {
    At(4097, &[
        Reads(GET_STATE, 1, &[1]),
        Sends(SET_STATE, 1, &[2], Status::Ok),
        Reads(GET_STATE, 1, &[2]),
        Holds(Some(Setting::State(2))),
        Sends(SET_STATE, 1, &[1], Status::Ok),
        Reads(GET_STATE, 1, &[1]),
    ]),
};

// A number takes its limits and refuses what is outside them.
const NUMBER_ROWS: &[At] = rows! {
    At(4100, &[
        Sends(SET_SETTING, 1, &[0x02, 0x58], Status::Ok),
        Sends(SET_SETTING, 1, &[0xFD, 0xA8], Status::Ok),
        Sends(SET_SETTING, 1, &[0x02, 0x59], ParameterOutOfRange),
        Reads(GET_SETTING, 3, &[0xFD, 0xA8, 0xFD, 0xA8, 0x02, 0x58]),
    ]),
};

// A command is refused by the first status that applies, and changes nothing.
const REFUSALS: &[At] = rows! {
    At(1, &[Does(GET_ROLE, BadOno)]),
    At(4100, &[Does((5, 3), BadMethod)]),
    At(4097, &[
        Does((2, 3), NotImplemented),
        Sends(SET_STATE, 1, &[1, 0], ParameterError),
        Sends(SET_STATE, 1, &[3], ParameterOutOfRange),
    ]),
    At(4102, &[Does(LOCK_TOTAL, InvalidRequest)]),
    At(4097, &[Does(UNLOCK, InvalidRequest)]),
};

// What comes first where more than one status applies.
const FIRST_STATUSES: &[At] = rows! {
    // the lock state is read by no method of the profile
    At(4097, &[Does((1, 7), BadMethod)]),
    // a wrong count of parameters comes before what cannot be locked or taken off
    At(4102, &[Sends(LOCK_TOTAL, 1, &[], ParameterError)]),
    At(4097, &[Sends(UNLOCK, 0, &[0], ParameterError)]),
    // a bad text comes before a bad position
    At(4099, &[
        Sends(SET_POSITION_NAME, 2, &[0, 3, 0, 1, 0xFF], ParameterError),
        Sends(SET_POSITION_NAME, 2, &[0, 3, 0, 1, 0x61], ParameterOutOfRange),
    ]),
};

// A text is counted in characters, and limited in bytes.
const FIVE_CHARACTERS: &[u8] = &[0, 5, 0x42, 0xC3, 0xBC, 0x68, 0x6E, 0x65];

const SIX_COUNTED: &[u8] = &[0, 6, 0x42, 0xC3, 0xBC, 0x68, 0x6E, 0x65];

const OF_64_BYTES: &[u8] =
    b"\x00\x40aaaaaaaaaaaaaaaaaaaaaaaaaaaaaaaaaaaaaaaaaaaaaaaaaaaaaaaaaaaaaaaa";

const OF_65_BYTES: &[u8] =
    b"\x00\x41aaaaaaaaaaaaaaaaaaaaaaaaaaaaaaaaaaaaaaaaaaaaaaaaaaaaaaaaaaaaaaaaa";

const LABELS: &[At] = rows! {
    At(4097, &[
        Sends(SET_LABEL, 1, FIVE_CHARACTERS, Status::Ok),
        Reads(GET_LABEL, 1, FIVE_CHARACTERS),
        Sends(SET_LABEL, 1, SIX_COUNTED, ParameterError),
        Sends(SET_LABEL, 1, OF_64_BYTES, Status::Ok),
        Reads(GET_LABEL, 1, OF_64_BYTES),
        Sends(SET_LABEL, 1, OF_65_BYTES, ParameterError),
        Reads(GET_LABEL, 1, OF_64_BYTES),
    ]),
};

// A position that is disabled does not become the current one.
const DISABLED: &[At] = rows! {
    At(4099, &[
        Sends(SET_POSITION_ENABLED, 2, &[0, 1, 0], Status::Ok),
        Sends(SET_POSITION, 1, &[0, 1], ParameterOutOfRange),
        Sends(SET_POSITION, 1, &[0, 3], ParameterOutOfRange),
        Sends(SET_POSITION, 1, &[0, 2], Status::Ok),
        Reads(GET_POSITION, 3, &[0, 2, 0, 0, 0, 2]),
        Sends(SET_POSITION_NAMES, 1, &[0, 2, 0, 1, 0x61, 0, 1, 0x62], ParameterError),
        // the current position may be disabled, and stays; it cannot be set again
        Sends(SET_POSITION_ENABLED, 2, &[0, 2, 0], Status::Ok),
        Reads(GET_POSITION, 3, &[0, 2, 0, 0, 0, 2]),
        Sends(SET_POSITION, 1, &[0, 2], ParameterOutOfRange),
    ]),
};

const SCRIPTS: &[Script] = rows! {
    Script("a_mute_is_set_and_read", Bench, MUTE_ROWS),
    Script("a_number_stays_in_its_range", Bench, NUMBER_ROWS),
    Script("refusals_of_the_worked_examples", Bench, REFUSALS),
    Script("the_first_status_that_applies", Bench, FIRST_STATUSES),
    Script("a_label_counts_characters", Bench, LABELS),
    Script("a_position_is_disabled", Bench, DISABLED),
};

#[test]
fn commands_are_refused_by_the_first_status(rt: HostRuntime) {
    all_agree(&rt, "commands", SCRIPTS);
}
