//! What C calls to set the objects of a device at its local front panel.
ghost use Rattle.oca_model.specs.declared.request.Request.TheVariants as asked;
ghost use Rattle.oca_tree.specs.LocalChanges.{ToEnabled, ToUnlocked, ToFailing};
ghost use Rattle.oca_calls.specs.Calls.{KeepsPackets, RefusesBuilding, RefusesClosed};
ghost use Rattle.oca_calls.specs.FrontCalls.{HandleChanges, HandleLabels, HandleSetsWords};
ghost use Rattle.oca_calls.specs.Storings.{KeepsUnstored};

use oca_calls::answer::Answer;
use oca_calls::device_handle::DeviceHandle;
use oca_calls::value_words::ValueWords;
use std::alloc::Global;

/// Sets the object `ono` at the local front panel to `value`, which must be of the object's class.
#[unsafe(no_mangle)]
pub extern "C" fn oca_device_set(
    alloc: Global,
    handle: &mut DeviceHandle,
    ono: u32,
    value: &ValueWords,
) -> u32
    ensures closed { RefusesClosed handle.old.slot.inner handle.new.slot.inner result }
    ensures building { RefusesBuilding handle.old.slot.inner handle.new.slot.inner result }
    ensures packets { KeepsPackets handle.old.slot.inner handle.new.slot.inner }
    ensures unstored { KeepsUnstored handle.old.slot.inner handle.new.slot.inner }
    ensures sets { HandleSetsWords result handle.old.slot.inner handle.new.slot.inner ono value.now }
{
    let Some(mut behind) = handle.take(alloc) else {
        return Answer::Closed.number();
    };
    let answer = behind.set(ono, *value);
    handle.put(behind);
    answer.number()
}

/// Gives an object the label `label`, 0 to 64 bytes of UTF-8, at the local front panel.
#[unsafe(no_mangle)]
pub extern "C" fn oca_device_set_label(
    alloc: Global,
    handle: &mut DeviceHandle,
    ono: u32,
    label: &[u8],
) -> u32
    ensures closed { RefusesClosed handle.old.slot.inner handle.new.slot.inner result }
    ensures building { RefusesBuilding handle.old.slot.inner handle.new.slot.inner result }
    ensures packets { KeepsPackets handle.old.slot.inner handle.new.slot.inner }
    ensures unstored { KeepsUnstored handle.old.slot.inner handle.new.slot.inner }
    ensures labels { HandleLabels result handle.old.slot.inner handle.new.slot.inner ono label.now }
{
    let Some(mut behind) = handle.take(alloc) else {
        return Answer::Closed.number();
    };
    let answer = behind.set_label(ono, label);
    handle.put(behind);
    answer.number()
}

/// Enables an object (`enabled` is true) or disables it at the local front panel, as SetEnabled of OcaWorker does
/// (AES70-2).
#[unsafe(no_mangle)]
pub extern "C" fn oca_device_set_enabled(
    alloc: Global,
    handle: &mut DeviceHandle,
    ono: u32,
    enabled: bool,
) -> u32
    ensures closed { RefusesClosed handle.old.slot.inner handle.new.slot.inner result }
    ensures building { RefusesBuilding handle.old.slot.inner handle.new.slot.inner result }
    ensures packets { KeepsPackets handle.old.slot.inner handle.new.slot.inner }
    ensures unstored { KeepsUnstored handle.old.slot.inner handle.new.slot.inner }
    ensures sets { HandleChanges result handle.old.slot.inner handle.new.slot.inner ono
        (ToEnabled enabled) (asked.SetEnabled enabled) }
{
    let Some(mut behind) = handle.take(alloc) else {
        return Answer::Closed.number();
    };
    let answer = behind.set_enabled(ono, enabled);
    handle.put(behind);
    answer.number()
}

/// Releases the lock of an object at the local front panel, whichever peer has it (`oca_device_lock` writes which).
#[unsafe(no_mangle)]
pub extern "C" fn oca_device_unlock(alloc: Global, handle: &mut DeviceHandle, ono: u32) -> u32
    ensures closed { RefusesClosed handle.old.slot.inner handle.new.slot.inner result }
    ensures building { RefusesBuilding handle.old.slot.inner handle.new.slot.inner result }
    ensures packets { KeepsPackets handle.old.slot.inner handle.new.slot.inner }
    ensures unstored { KeepsUnstored handle.old.slot.inner handle.new.slot.inner }
    ensures unlocks { HandleChanges result handle.old.slot.inner handle.new.slot.inner ono ToUnlocked asked.Unlock }
{
    let Some(mut behind) = handle.take(alloc) else {
        return Answer::Closed.number();
    };
    let answer = behind.unlock(ono);
    handle.put(behind);
    answer.number()
}

/// Sets whether the hardware of an object refuses changes (`failing`), until the next such call for the object.
#[unsafe(no_mangle)]
pub extern "C" fn oca_device_set_failing(
    alloc: Global,
    handle: &mut DeviceHandle,
    ono: u32,
    failing: bool,
) -> u32
    ensures closed { RefusesClosed handle.old.slot.inner handle.new.slot.inner result }
    ensures building { RefusesBuilding handle.old.slot.inner handle.new.slot.inner result }
    ensures packets { KeepsPackets handle.old.slot.inner handle.new.slot.inner }
    ensures unstored { KeepsUnstored handle.old.slot.inner handle.new.slot.inner }
    ensures tells { HandleChanges result handle.old.slot.inner handle.new.slot.inner ono
        (ToFailing failing) (asked.SetEnabled failing) }
{
    let Some(mut behind) = handle.take(alloc) else {
        return Answer::Closed.number();
    };
    let answer = behind.set_failing(ono, failing);
    handle.put(behind);
    answer.number()
}
