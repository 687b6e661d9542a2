//! What a builder refuses.
use super::script::Addition::{Many, Nested, One};
use super::script::Over::Built;
use super::script::Row::{Holds, Len, Reads};
use super::script::{Addition, At, Script};
use super::words::*;
use crate::tests::{Words, all_agree};
use oca_tree::{AddFault, Kind, Room, Setting, Spec, TreeBuilder};
use oca_types::Ono;
use std::alloc::Global;

/// A block without a role.
const NAMELESS: Spec<'static> = Spec {
    role: "",
    lockable: true,
    kind: Kind::Block,
};

/// A number whose least setting is above the greatest.
const WRONG_RANGE: Spec<'static> = Spec {
    role: "block",
    lockable: true,
    kind: Kind::Int16 {
        setting: 5,
        least: 5,
        greatest: 4,
    },
};

// Each fault of an addition but want of memory, and what is added after it.
const FAULTS: &[Addition] = &[
    One(100, 4095, BLOCK, Err(AddFault::Reserved)),
    One(100, 100, BLOCK, Err(AddFault::Reserved)),
    One(100, 4096, BLOCK, Ok(())),
    One(100, 4096, BLOCK, Err(AddFault::Taken)),
    One(5000, 4097, BLOCK, Err(AddFault::NoSuchBlock)),
    Nested(4096, 4102),
    One(4102, 4103, BLOCK, Err(AddFault::TooDeep)),
    One(100, 4103, NAMELESS, Err(AddFault::BadText)),
    One(100, 4103, WRONG_RANGE, Err(AddFault::BadRange)),
    Many(4103, 4223, BLOCK),
    One(100, 4095, BLOCK, Err(AddFault::Full)),
];

const OF_128: &[At] = &[At(100, &[Len(128)])];

/// A switch with these names at this position.
macro_rules! switch {
    ($names:expr, $position:expr) => {
        Spec { role: "switch", lockable: true, kind: Kind::Switch { names: $names, position: $position } }
    };
}

/// A name of 65 bytes.
const LONG: &str = "aaaaaaaaaaaaaaaaaaaaaaaaaaaaaaaaaaaaaaaaaaaaaaaaaaaaaaaaaaaaaaaaa";

// The faults of a switch: its names, their number and the position.
const SWITCHES: &[Addition] = &[
    One(100, 4096, switch!(&[], 0), Err(AddFault::BadRange)),
    One(100, 4096, switch!(&["a"], 1), Err(AddFault::BadRange)),
    One(100, 4096, switch!(&["a"; 17], 0), Err(AddFault::BadRange)),
    One(100, 4096, switch!(&["a", LONG], 2), Err(AddFault::BadText)),
    One(100, 4096, switch!(&["", "a"], 1), Ok(())),
];

const SWITCH_ROWS: &[At] = rows! {
    At(4096, &[Reads(GET_POSITION_NAMES, 1, &[0, 2, 0, 0, 0, 1, 0x61]), Holds(Some(Setting::Position(1)))]),
};

// The words of each fault.
const WORDS: &[Words<AddFault>] = rows! {
    Words(AddFault::Full, "there is no room for another object"),
    Words(AddFault::Reserved, "the number is below 4096"),
    Words(AddFault::Taken, "the number is taken"),
    Words(AddFault::NoSuchBlock, "the container is no block of the tree"),
    Words(AddFault::TooDeep, "the object would stand at depth 9"),
    Words(AddFault::BadText, "a text is empty or has more than 64 bytes"),
    Words(AddFault::BadRange, "the setting is outside its range"),
    Words(AddFault::NoMemory, "no memory"),
};

/// Whether a tree has as many objects as there is room for, here two, the root counted.
fn is_filled(alloc: Global) -> bool {
    let (Some(room), None, None) = (Room::new(2), Room::new(0), Room::new(4097)) else {
        return false;
    };
    let Ok(mut builder) = TreeBuilder::with_room(alloc, room) else {
        return false;
    };
    builder.add(Ono(100), Ono(4096), &MUTE) == Ok(())
        && builder.add(Ono(100), Ono(4097), &MUTE) == Err(AddFault::Full)
        && builder.finish().len() == 2
}

const SCRIPTS: &[Script] = rows! {
    Script("a_builder_refuses", Built(FAULTS), OF_128),
    Script("a_switch_needs_its_positions", Built(SWITCHES), SWITCH_ROWS),
};

#[test]
fn a_builder_refuses_what_does_not_fit(rt: HostRuntime) {
    all_agree(&rt, "building", SCRIPTS);
    all_agree(&rt, "faults of an addition have words", WORDS);
    assert!(rt; is_filled(rt.alloc()));
    assert_eq!(rt; Room::default().get(), 128);
}
