//! What is read of each object.
use super::script::Over::{Bench, Channels};
use super::script::Row::{Ends, Holds, Len, Shows};
use super::script::{At, Script};
use crate::tests::all_agree;
use oca_tree::{bench, bench_with_channels};
use oca_types::Class;
use std::alloc::Global;

/// The fields of the class of blocks.
const BLOCK_FIELDS: &[u16] = &[1, 1, 3];

// The root and the desk of the bench device, and what is behind the last object and of no object.
const BENCH: &[At] = rows! {
    At(100, &[Len(8), Shows(0, Class::Block, BLOCK_FIELDS, 0, "root"), Holds(None)]),
    At(4096, &[Shows(1, Class::Block, BLOCK_FIELDS, 100, "desk")]),
    At(4095, &[Ends(8), Holds(None)]),
};

// What is read of each object on the desk of the bench device.
const ON_THE_DESK: &[At] = rows! {
    At(4097, &[Shows(2, Class::Mute, &[1, 1, 1, 2], 4096, "mute")]),
    At(4098, &[Shows(3, Class::Polarity, &[1, 1, 1, 3], 4096, "polarity")]),
    At(4099, &[Shows(4, Class::Switch, &[1, 1, 1, 4], 4096, "input")]),
    At(4100, &[Shows(5, Class::Int16, &[1, 1, 1, 1, 3], 4096, "trim")]),
    At(4101, &[Shows(6, Class::Boolean, &[1, 1, 1, 1, 1], 4096, "lamp")]),
    At(4102, &[Shows(7, Class::Uint8, &[1, 1, 1, 1, 6], 4096, "dim")]),
};

// The strips of channels stand behind the objects of the bench device.
const STRIPS: &[At] = rows! {
    At(100, &[Len(4096)]),
    At(4102, &[Shows(7, Class::Uint8, &[1, 1, 1, 1, 6], 4096, "dim")]),
    At(4103, &[Shows(8, Class::Block, BLOCK_FIELDS, 100, "strip")]),
    At(4104, &[Shows(9, Class::Mute, &[1, 1, 1, 2], 4103, "mute")]),
    At(4105, &[Shows(10, Class::Polarity, &[1, 1, 1, 3], 4103, "polarity")]),
    At(4106, &[Shows(11, Class::Int16, &[1, 1, 1, 1, 3], 4103, "trim")]),
    At(4107, &[Shows(12, Class::Block, BLOCK_FIELDS, 100, "strip")]),
    At(8190, &[Shows(4095, Class::Int16, &[1, 1, 1, 1, 3], 8187, "trim")]),
};

const SCRIPTS: &[Script] = rows! {
    Script("the_objects_of_the_bench_device", Bench, BENCH),
    Script("the_objects_on_the_desk", Bench, ON_THE_DESK),
    Script("the_bench_device_with_channels", Channels(1022), STRIPS),
};

/// Whether the objects of the bench device are given in the order of their places.
fn are_in_order(alloc: Global) -> bool {
    let Ok(tree) = bench(alloc) else {
        return false;
    };
    for (at, info) in tree.objects().enumerate() {
        match tree.object_at(at) {
            Some(same) if same.ono == info.ono && same.role.as_str() == info.role.as_str() => {}
            _ => return false,
        }
    }
    tree.objects().count() == 8
}

#[test]
fn objects_stand_in_the_order_of_their_places(rt: HostRuntime) {
    all_agree(&rt, "lists", SCRIPTS);
    assert!(rt; are_in_order(rt.alloc()));
    assert!(rt; bench_with_channels(rt.alloc(), 1023).is_err());
}
