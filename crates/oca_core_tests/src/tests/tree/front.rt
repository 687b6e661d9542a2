//! Setting objects at the local front panel.
use super::script::Over::Bench;
use super::script::Row::{
    Calls, Does, Enables, Failing, Fails, Holds, Labels, Locked, Puts, Reads, Sends, Unlocks,
};
use super::script::{At, Script};
use super::words::*;
use crate::tests::{Row, Said, all_agree};
use oca_tree::{FrontFault, Lock, LockKind, MuteState, PolarityState, SetFault, Setting, Value};
use oca_types::{Class, Status};

const UNMUTE: Value = Value::Mute(MuteState::Unmuted);

const MUTED: Option<Setting> = Some(Setting::State(1));

const UNMUTED: Option<Setting> = Some(Setting::State(2));

const FIRST: Option<Setting> = Some(Setting::Position(0));

/// The Int16 actuator at this number, from -600 to 600.
macro_rules! trim {
    ($setting:expr) => { Some(Setting::Number { setting: $setting, least: -600, greatest: 600 }) };
}

// Each kind of object once over the bench device, whoever has locked it.
const SETTINGS: &[At] = rows! {
    At(4097, &[Puts(UNMUTE, Ok(())), Holds(UNMUTED)]),
    At(4098, &[Puts(Value::Polarity(PolarityState::Inverted), Ok(())), Holds(UNMUTED)]),
    At(4099, &[Puts(Value::Switch(1), Ok(())), Holds(Some(Setting::Position(1)))]),
    At(4101, &[Puts(Value::Boolean(true), Ok(())), Holds(Some(Setting::Truth(true)))]),
    At(4100, &[Calls(A, LOCK_TOTAL, (0, &[]), IS_DONE), Puts(Value::Int16(-600), Ok(())), Holds(trim!(-600))]),
    At(4100, &[Locked(OF_A)]),
};

/// The trim of the bench device as it begins.
const TRIM_OF_0: Option<Setting> = trim!(0);

// Each fault over the bench device, in the order in which they are looked for: nothing changes.
const REFUSALS: &[At] = rows! {
    At(9, &[Puts(UNMUTE, Err(SetFault::NoObject)), Holds(None)]),
    At(4096, &[Puts(UNMUTE, Err(SetFault::NoSetting)), Holds(None)]),
    At(4097, &[Puts(Value::Boolean(true), Err(SetFault::OtherKind)), Holds(MUTED)]),
    At(4099, &[Puts(Value::Switch(3), Err(SetFault::OutOfRange)), Holds(FIRST)]),
    At(4100, &[
        Puts(Value::Uint16(7), Err(SetFault::OtherKind)),
        Puts(Value::Int16(601), Err(SetFault::OutOfRange)),
        Puts(Value::Int16(-601), Err(SetFault::OutOfRange)),
        Holds(TRIM_OF_0),
    ]),
    // as a peer's command
    At(4099, &[
        Sends(SET_POSITION_ENABLED, 2, &[0, 2, 0], Status::Ok),
        Puts(Value::Switch(2), Err(SetFault::OutOfRange)),
        Holds(FIRST),
    ]),
};

/// The lock that A holds.
const OF_A: Option<Lock> = Some(Lock {
    kind: LockKind::Total,
    holder: A,
});

/// The answer to a peer that a lock keeps out.
const KEPT_OUT: (Status, u8, &[u8]) = (Status::Locked, 0, &[]);

/// What sets a state, a label, or locks, answers nothing more.
const IS_DONE: (Status, u8, &[u8]) = (Status::Ok, 0, &[]);

// A label and whether it is enabled, of an object that A has locked; and then the lock.
const CHANGES: &[At] = rows! {
    At(4097, &[
        Calls(A, LOCK_TOTAL, (0, &[]), IS_DONE),
        Labels("Bühne", Ok(())),
        Enables(false, Ok(())),
        Locked(OF_A),
        Reads(GET_LABEL, 1, &[0, 5, 66, 195, 188, 104, 110, 101]),
        Reads(GET_ENABLED, 1, &[0]),
        Calls(B, SET_STATE, (1, &[2]), KEPT_OUT),
        Unlocks(Ok(())),
        Locked(None),
        Calls(B, SET_STATE, (1, &[2]), IS_DONE),
        Holds(UNMUTED),
        Unlocks(Err(FrontFault::NotLocked)),
    ]),
};

/// The status of what the hardware refuses.
const REFUSED: Status = Status::ProcessingFailed;

/// A number of 16 bits that is in the range of the trim.
const SEVEN: &[u8] = &[0, 7];

/// A number of 16 bits that is above the range of the trim.
const ABOVE: &[u8] = &[2, 89];

// Hardware that refuses: each write of a peer, behind all other refusals, and neither what reads or locks nor the
// front.
const HARDWARE: &[At] = rows! {
    At(4100, &[
        Failing(Some(false)),
        Fails(true, Ok(())),
        Failing(Some(true)),
        Sends(SET_SETTING, 1, SEVEN, REFUSED),
        Holds(TRIM_OF_0),
        Sends(SET_LABEL, 1, &[0, 1, 97], REFUSED),
        Reads(GET_LABEL, 1, &[0, 0]),
        Sends(SET_ENABLED, 1, &[0], REFUSED),
        Does((5, 9), Status::BadMethod),
        Does((2, 3), Status::NotImplemented),
        Sends(SET_SETTING, 0, SEVEN, Status::ParameterError),
        Sends(SET_SETTING, 1, ABOVE, Status::ParameterOutOfRange),
        Does(UNLOCK, Status::InvalidRequest),
        Calls(A, LOCK_TOTAL, (0, &[]), IS_DONE),
        Calls(B, SET_SETTING, (1, SEVEN), KEPT_OUT),
        Does(UNLOCK, Status::Ok),
        Puts(Value::Int16(9), Ok(())),
        Holds(trim!(9)),
        Fails(false, Ok(())),
        Sends(SET_SETTING, 1, SEVEN, Status::Ok),
    ]),
    At(4099, &[
        Fails(true, Ok(())),
        Sends(SET_POSITION, 1, &[0, 1], REFUSED),
        Sends(SET_POSITION, 1, &[0, 3], Status::ParameterOutOfRange),
        Sends(SET_POSITION_NAME, 2, &[0, 1, 0, 1, 97], REFUSED),
        Sends(SET_POSITION_NAMES, 1, &[0, 3, 0, 1, 97, 0, 0, 0, 0], REFUSED),
        Sends(SET_POSITION_ENABLED, 2, &[0, 2, 0], REFUSED),
        Sends(SET_POSITION_ENABLEDS, 1, &[0, 3, 1, 0, 1], REFUSED),
        Reads(GET_POSITION_ENABLEDS, 1, &[0, 3, 1, 1, 1]),
        Holds(FIRST),
    ]),
    At(9, &[Fails(true, Err(FrontFault::NoObject)), Failing(None)]),
};

/// A text of 64 bytes.
const OF_64: &str = "0123456789012345678901234567890123456789012345678901234567890123";

/// A text of 65 bytes.
const OF_65: &str = "01234567890123456789012345678901234567890123456789012345678901234";

// Each fault of these changes, in the order in which they are looked for: nothing changes.
const CHANGES_REFUSED: &[At] = rows! {
    At(9, &[
        Labels(OF_65, Err(FrontFault::NoObject)),
        Enables(true, Err(FrontFault::NoObject)),
        Unlocks(Err(FrontFault::NoObject)),
    ]),
    At(100, &[
        Labels(OF_64, Ok(())),
        Labels("a", Ok(())),
        Labels(OF_65, Err(FrontFault::BadLabel)),
        Reads(GET_LABEL, 1, &[0, 1, 97]),
        Unlocks(Err(FrontFault::NotLocked)),
    ]),
};

const SCRIPTS: &[Script] = rows! {
    Script("the_front_sets", Bench, SETTINGS),
    Script("the_front_is_refused", Bench, REFUSALS),
    Script("the_front_labels_enables_and_unlocks", Bench, CHANGES),
    Script("the_front_is_refused_a_label_and_a_lock", Bench, CHANGES_REFUSED),
    Script("hardware_refuses_what_peers_write", Bench, HARDWARE),
};

/// The value of a class whose state has a number.
struct OfState(Class, u8, Option<Value>);

impl Row for OfState {
    /// Whether it is this.
    fn agrees(&self, said: &mut Said) -> bool {
        said.same(Value::of_state(self.0, self.1), self.2)
    }
}

const STATES: &[OfState] = rows! {
    OfState(Class::Mute, 0, None),
    OfState(Class::Mute, 1, Some(Value::Mute(MuteState::Muted))),
    OfState(Class::Mute, 2, Some(UNMUTE)),
    OfState(Class::Mute, 3, None),
    OfState(Class::Polarity, 1, Some(Value::Polarity(PolarityState::NonInverted))),
    OfState(Class::Switch, 1, None),
    OfState(Class::Block, 1, None),
};

/// The value of a class that is an integer.
struct OfInteger(Class, i128, Option<Value>);

impl Row for OfInteger {
    /// Whether it is this.
    fn agrees(&self, said: &mut Said) -> bool {
        said.same(Value::of_integer(self.0, self.1), self.2)
    }
}

const INTEGERS: &[OfInteger] = rows! {
    OfInteger(Class::Int8, -128, Some(Value::Int8(-128))),
    OfInteger(Class::Int8, -129, None),
    OfInteger(Class::Int16, 32767, Some(Value::Int16(32767))),
    OfInteger(Class::Uint8, -1, None),
    OfInteger(Class::Uint64, 18446744073709551615, Some(Value::Uint64(18446744073709551615))),
    OfInteger(Class::Int64, 18446744073709551615, None),
    OfInteger(Class::Boolean, 1, None),
};

#[test]
fn the_front_changes_whatever_is_locked(rt: HostRuntime) {
    all_agree(&rt, "front", SCRIPTS);
    all_agree(&rt, "values of states", STATES);
    all_agree(&rt, "values of integers", INTEGERS);
}
