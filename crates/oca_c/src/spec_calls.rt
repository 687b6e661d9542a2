//! What C calls with a struct that describes an object.
ghost use Rattle.std.specs.Prelude.{◌≡◌, ◌⊎◌, None, IsSome};
ghost use Rattle.oca_tree.specs.Objects.{Store};
ghost use Rattle.oca_tree.specs.Readers.{info_at, info_of_ono};
ghost use Rattle.oca_device.specs.States.{state_after};
ghost use Rattle.oca_calls.specs.Calls.{HandleBuilds, RefusesBuilding, RefusesClosed, RefusesRunning, WhateverHandleRuns};
ghost use Rattle.oca_calls.specs.CSpecs.{HandleAddsSpec, OpensWith, WritesSpec};
ghost use Rattle.oca_calls.specs.WrittenAgain.{WrittenMakesAgain};
ghost use Rattle.oca_calls.specs.Restoring.{RestoresSpec};

use oca_calls::answer::Answer;
use oca_calls::device_handle::DeviceHandle;
use oca_calls::laws::law_of_specs;
use oca_calls::name::text_of;
use oca_calls::opening::open_over;
use oca_calls::restoring::restore;
use oca_calls::spec_adding::start_with;
use oca_calls::spec_words::SpecWords;
use oca_tree::{Room, TreeBuilder};
use std::alloc::Global;

/// Opens a device as `oca_device_open` does, with what was stored of the root: its label, and whether it is enabled.
#[unsafe(no_mangle)]
pub extern "C" fn oca_device_open_with(
    alloc: Global,
    handle: &mut DeviceHandle,
    room: u16,
    root: &SpecWords,
) -> u32
    ensures open { IsSome handle.old.slot.inner → (result ≡ 10) × (handle.new.slot.inner ≡ handle.old.slot.inner) }
    ensures opens { handle.old.slot.inner ≡ None → OpensWith result handle.new.slot.inner room root.now }
{
    if handle.is_open {
        return Answer::Open.number();
    }
    let Some(room) = Room::new(room) else {
        return Answer::BadSize.number();
    };
    if !root.is_of_this_version() {
        return Answer::BadSize.number();
    }
    let Some(label) = text_of(&root.label) else {
        return Answer::BadText.number();
    };
    let start = start_with(label, root.enabled != 0, None);
    match TreeBuilder::with_root(alloc, room, &start) {
        Ok(builder) => open_over(alloc, handle, builder),
        Err(fault) => Answer::of_start(fault).number(),
    }
}

/// Adds the object that `spec` describes to the tree, before the start.
#[unsafe(no_mangle)]
pub extern "C" fn oca_device_add(
    alloc: Global,
    handle: &mut DeviceHandle,
    container: u32,
    ono: u32,
    spec: &SpecWords,
) -> u32
    ensures closed { RefusesClosed handle.old.slot.inner handle.new.slot.inner result }
    ensures started { RefusesRunning handle.old.slot.inner handle.new.slot.inner result }
    ensures adds { (B : Store) → HandleBuilds handle.old.slot.inner B →
        HandleAddsSpec result handle.new.slot.inner B container ono spec.now }
    ensures again { WrittenMakesAgain }
{
    law_of_specs();
    let Some(mut behind) = handle.take(alloc) else {
        return Answer::Closed.number();
    };
    let answer = behind.add_spec(container, ono, spec);
    handle.put(behind);
    answer.number()
}

/// Writes the description of an object as it is now into `spec`, by its index: from 0 for the root, in the order of
/// adding.
#[unsafe(no_mangle)]
pub extern "C" fn oca_device_spec(
    alloc: Global,
    handle: &mut DeviceHandle,
    index: usize,
    spec: &mut SpecWords,
) -> u32
    ensures closed { RefusesClosed handle.old.slot.inner handle.new.slot.inner result }
    ensures building { RefusesBuilding handle.old.slot.inner handle.new.slot.inner result }
    ensures kept { handle.new.slot.inner ≡ handle.old.slot.inner }
    ensures writes { WhateverHandleRuns handle.old.slot.inner (λ r w T E.
        WritesSpec (state_after w T E).tree (info_at (state_after w T E).tree index) spec.old spec.new result) }
    ensures again { WrittenMakesAgain }
    ensures unwritten { (result ≡ 0) ⊎ (spec.new ≡ spec.old) }
{
    law_of_specs();
    let Some(behind) = handle.take(alloc) else {
        return Answer::Closed.number();
    };
    let answer = behind.spec(index, spec);
    handle.put(behind);
    answer.number()
}

/// Writes the description of the object with the number `ono` as it is now to `spec`, as `oca_device_spec` does by an
/// index.
#[unsafe(no_mangle)]
pub extern "C" fn oca_device_spec_of(
    alloc: Global,
    handle: &mut DeviceHandle,
    ono: u32,
    spec: &mut SpecWords,
) -> u32
    ensures closed { RefusesClosed handle.old.slot.inner handle.new.slot.inner result }
    ensures building { RefusesBuilding handle.old.slot.inner handle.new.slot.inner result }
    ensures kept { handle.new.slot.inner ≡ handle.old.slot.inner }
    ensures writes { WhateverHandleRuns handle.old.slot.inner (λ r w T E.
        WritesSpec (state_after w T E).tree (info_of_ono (state_after w T E).tree ono) spec.old spec.new result) }
    ensures again { WrittenMakesAgain }
    ensures unwritten { (result ≡ 0) ⊎ (spec.new ≡ spec.old) }
{
    law_of_specs();
    let Some(behind) = handle.take(alloc) else {
        return Answer::Closed.number();
    };
    let answer = behind.spec_of(ono, spec);
    handle.put(behind);
    answer.number()
}

/// Changes `spec`, the description of an object, to what was stored of the object (`stored`): its value, its label, and
/// whether it is enabled.
#[unsafe(no_mangle)]
pub extern "C" fn oca_spec_restore(spec: &mut SpecWords, stored: &SpecWords) -> u32
    ensures { RestoresSpec result spec.old stored.now spec.new }
{
    restore(spec, stored).number()
}
