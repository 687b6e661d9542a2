//! What was stored of an object is there when the device begins again.
use super::script::Addition::{One, Stored};
use super::script::Over::{Built, Root};
use super::script::Row::{Len, Reads};
use super::script::{Addition, At, Script, tree_of};
use super::words::*;
use crate::tests::{Said, Words, all_agree};
use oca_tree::{AddFault, Kind, Spec, Start, StartFault, Tree, bench};
use oca_types::{Class, Ono};
use std::alloc::Global;

/// What nothing stored stands for.
const NOTHING: Start<'static> = Start {
    label: "",
    enabled: true,
    position_enableds: None,
};

/// A switch with three positions, of which the last is the current one.
const INPUT: Spec<'static> = Spec {
    role: "input",
    lockable: true,
    kind: Kind::Switch {
        names: &["Line", "Mic", "Off"],
        position: 2,
    },
};

// The label, the flag and the flags of positions are what was stored; the current position may be disabled.
const DISABLED: Start<'static> = Start {
    label: "Hi",
    enabled: false,
    position_enableds: Some(&[true, false, false]),
};

const STORED: &[Addition] = &[
    One(100, 4096, BLOCK, Ok(())),
    Stored(4096, 4097, INPUT, DISABLED, Ok(())),
];

const STORED_ROWS: &[At] = rows! {
    At(4097, &[
        Reads(GET_LABEL, 1, &[0, 2, 0x48, 0x69]),
        Reads(GET_ENABLED, 1, &[0]),
        Reads(GET_POSITION_ENABLEDS, 1, &[0, 3, 1, 0, 0]),
        Reads(GET_POSITION, 3, &[0, 2, 0, 0, 0, 2]),
    ]),
};

// A label of 64 bytes is taken and one of 65 is not; behind it other flags than as many as the positions are refused.
const LONG: Start<'static> = Start {
    label: "aaaaaaaaaaaaaaaaaaaaaaaaaaaaaaaaaaaaaaaaaaaaaaaaaaaaaaaaaaaaaaaaa",
    enabled: true,
    position_enableds: Some(&[true]),
};

const FEW: Start<'static> = Start {
    label: "aaaaaaaaaaaaaaaaaaaaaaaaaaaaaaaaaaaaaaaaaaaaaaaaaaaaaaaaaaaaaaaa",
    enabled: true,
    position_enableds: Some(&[true, false]),
};

const FITS: Start<'static> = Start {
    position_enableds: Some(&[true, false, true]),
    ..FEW
};

const FITTING: &[Addition] = rows! {
    One(100, 4096, BLOCK, Ok(())),
    Stored(4096, 4097, INPUT, LONG, Err(StartFault::BadLabel)),
    Stored(4096, 4097, INPUT, FEW, Err(StartFault::BadFlags)),
    Stored(4096, 4097, INPUT, FITS, Ok(())),
    Stored(4096, 4097, INPUT, LONG, Err(StartFault::Add(AddFault::Taken))),
};

const OF_3: &[At] = &[At(100, &[Len(3)])];

// A mute has no positions: no flags fit it but none.
const FLAGS_OF_A_MUTE: &[Addition] = rows! {
    Stored(100, 4097, MUTE, Start { position_enableds: Some(&[true]), ..NOTHING }, Err(StartFault::BadFlags)),
    Stored(100, 4097, MUTE, Start { position_enableds: Some(&[]), ..NOTHING }, Ok(())),
};

// The root's label is there again too.
const GREETING: Start<'static> = Start {
    label: "Hi",
    ..NOTHING
};

const ROOT_ROWS: &[At] = rows! {
    At(100, &[Reads(GET_LABEL, 1, &[0, 2, 0x48, 0x69]), Reads(GET_ROLE, 1, &[0, 4, 0x72, 0x6F, 0x6F, 0x74])]),
};

// The words of each fault.
const WORDS: &[Words<StartFault>] = rows! {
    Words(StartFault::Add(AddFault::Taken), "the number is taken"),
    Words(StartFault::BadLabel, "the label has more than 64 bytes"),
    Words(StartFault::BadFlags, "the flags are not as many as the positions"),
};

/// The switch with what was stored of it, below a root with a label.
const STORED_SWITCH: &[Addition] = &[Stored(100, 4096, INPUT, DISABLED, Ok(()))];

/// Whether this is read of the switch.
fn is_read(tree: &Tree) -> bool {
    let Some(start) = tree.start_of(Ono(4096)) else {
        return false;
    };
    start.label == "Hi"
        && !start.enabled
        && start.position_enableds == DISABLED.position_enableds
        && tree.is_lockable(Ono(4096)) == Some(true)
        && tree.class_of(Ono(4096)) == Some(Class::Switch)
}

/// Whether these are the names of its positions.
fn has_names(tree: &Tree) -> bool {
    match tree.position_names_of(Ono(4096)) {
        [first, second, third] => {
            (first.as_str(), second.as_str(), third.as_str()) == ("Line", "Mic", "Off")
        }
        _ => false,
    }
}

/// Whether nothing is read of an object that is not there.
fn is_absent(tree: &Tree, ono: u32) -> bool {
    tree.start_of(Ono(ono)).is_none()
        && tree.is_lockable(Ono(ono)).is_none()
        && tree.class_of(Ono(ono)).is_none()
}

/// Whether this is read of what was stored, and the tree is the same but for locks as itself, and not as the bench.
fn is_so(alloc: Global, said: &mut Said) -> bool {
    let (Some(tree), Ok(other)) = (tree_of(Root(GREETING, STORED_SWITCH), said), bench(alloc))
    else {
        return false;
    };
    is_read(&tree)
        && has_names(&tree)
        && is_absent(&tree, 4098)
        && tree.is_but_for_locks(&tree)
        && !tree.is_but_for_locks(&other)
}

const SCRIPTS: &[Script] = rows! {
    Script("a_switch_begins_as_stored", Built(STORED), STORED_ROWS),
    Script("what_was_stored_must_fit", Built(FITTING), OF_3),
    Script("a_mute_takes_no_flags", Built(FLAGS_OF_A_MUTE), &[]),
    Script("the_root_begins_as_stored", Root(GREETING, &[]), ROOT_ROWS),
};

#[test]
fn what_was_stored_is_there_again(rt: HostRuntime) {
    all_agree(&rt, "starts", SCRIPTS);
    all_agree(&rt, "faults of what was stored have words", WORDS);
    assert!(rt; is_so(rt.alloc(), &mut Said::new(rt.alloc())));
    // Nothing stored is an object as added.
    let start = Start::default();
    assert!(rt; start.label == "" && start.enabled && start.position_enableds.is_none());
}
