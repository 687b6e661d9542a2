//! What C calls to read the objects of a device.
ghost use Rattle.std.specs.Prelude.{◌≡◌, ◌⊎◌, length, slice_get};
ghost use Rattle.oca_tree.specs.Readers.{failing_at, info_at, lock_at, setting_at};
ghost use Rattle.oca_device.specs.States.{known_after, state_after};
ghost use Rattle.oca_calls.specs.Calls.{RefusesBuilding, RefusesClosed, WhateverHandleRuns};
ghost use Rattle.oca_calls.specs.Outputs.{WritesFailing, WritesLock, WritesObject, WritesPeer, WritesSetting};

use oca_calls::answer::Answer;
use oca_calls::device_handle::DeviceHandle;
use oca_calls::reading::Reading;
use std::alloc::Global;

/// Writes to `count` how many objects the device has, the root counted: 1 to 4,096.
#[unsafe(no_mangle)]
pub extern "C" fn oca_device_objects(
    alloc: Global,
    handle: &mut DeviceHandle,
    count: &mut usize,
) -> u32
    ensures closed { RefusesClosed handle.old.slot.inner handle.new.slot.inner result }
    ensures building { RefusesBuilding handle.old.slot.inner handle.new.slot.inner result }
    ensures kept { handle.new.slot.inner ≡ handle.old.slot.inner }
    ensures writes { WhateverHandleRuns handle.old.slot.inner (λ r w T E.
        (result ≡ 0) × (count.new ≡ length (state_after w T E).tree)) }
    ensures unwritten { (result ≡ 0) ⊎ (count.new ≡ count.old) }
{
    let Some(behind) = handle.take(alloc) else {
        return Answer::Closed.number();
    };
    let answer = behind.objects(count);
    handle.put(behind);
    answer.number()
}

/// Writes what the object with this index is.
#[unsafe(no_mangle)]
pub extern "C" fn oca_device_object_words(
    alloc: Global,
    handle: &mut DeviceHandle,
    index: usize,
    out: &mut [u32],
    role: &mut [u8],
) -> u32
    ensures closed { RefusesClosed handle.old.slot.inner handle.new.slot.inner result }
    ensures building { RefusesBuilding handle.old.slot.inner handle.new.slot.inner result }
    ensures kept { handle.new.slot.inner ≡ handle.old.slot.inner }
    ensures writes { WhateverHandleRuns handle.old.slot.inner (λ r w T E.
        WritesObject (info_at (state_after w T E).tree index) out.old out.new role.old role.new result) }
    ensures unwritten { (result ≡ 0) ⊎ ((out.new ≡ out.old) × (role.new ≡ role.old)) }
{
    let Some(behind) = handle.take(alloc) else {
        return Answer::Closed.number();
    };
    let answer = behind.object(index, out, role);
    handle.put(behind);
    answer.number()
}

/// Writes what lock an object has, and the address and the port of the peer that has it.
#[unsafe(no_mangle)]
pub extern "C" fn oca_device_lock(
    alloc: Global,
    handle: &mut DeviceHandle,
    ono: u32,
    kind: &mut u32,
    ip: &mut u32,
    port: &mut u16,
) -> u32
    ensures closed { RefusesClosed handle.old.slot.inner handle.new.slot.inner result }
    ensures building { RefusesBuilding handle.old.slot.inner handle.new.slot.inner result }
    ensures kept { handle.new.slot.inner ≡ handle.old.slot.inner }
    ensures writes { WhateverHandleRuns handle.old.slot.inner (λ r w T E.
        WritesLock (lock_at (state_after w T E).tree ono) kind.new ip.new port.new result) }
    ensures unwritten { (result ≡ 0) ⊎ ((kind.new ≡ kind.old) × (ip.new ≡ ip.old) × (port.new ≡ port.old)) }
{
    let Some(behind) = handle.take(alloc) else {
        return Answer::Closed.number();
    };
    let answer = behind.lock(ono, kind, ip, port);
    handle.put(behind);
    answer.number()
}

/// Writes to `failing` whether the hardware of an object refuses changes, as `oca_device_set_failing` last set it.
#[unsafe(no_mangle)]
pub extern "C" fn oca_device_is_failing(
    alloc: Global,
    handle: &mut DeviceHandle,
    ono: u32,
    failing: &mut bool,
) -> u32
    ensures closed { RefusesClosed handle.old.slot.inner handle.new.slot.inner result }
    ensures building { RefusesBuilding handle.old.slot.inner handle.new.slot.inner result }
    ensures kept { handle.new.slot.inner ≡ handle.old.slot.inner }
    ensures writes { WhateverHandleRuns handle.old.slot.inner (λ r w T E.
        WritesFailing (failing_at (state_after w T E).tree ono) failing.new result) }
    ensures unwritten { (result ≡ 0) ⊎ (failing.new ≡ failing.old) }
{
    let Some(behind) = handle.take(alloc) else {
        return Answer::Closed.number();
    };
    let answer = behind.is_failing(ono, failing);
    handle.put(behind);
    answer.number()
}

/// Writes to `reading` how an object is set.
#[unsafe(no_mangle)]
pub extern "C" fn oca_device_setting(
    alloc: Global,
    handle: &mut DeviceHandle,
    ono: u32,
    reading: &mut Reading,
) -> u32
    ensures closed { RefusesClosed handle.old.slot.inner handle.new.slot.inner result }
    ensures building { RefusesBuilding handle.old.slot.inner handle.new.slot.inner result }
    ensures kept { handle.new.slot.inner ≡ handle.old.slot.inner }
    ensures writes { WhateverHandleRuns handle.old.slot.inner (λ r w T E.
        WritesSetting (setting_at (state_after w T E).tree ono) reading.new result) }
    ensures unwritten { (result ≡ 0) ⊎ (reading.new ≡ reading.old) }
{
    let Some(behind) = handle.take(alloc) else {
        return Answer::Closed.number();
    };
    let answer = behind.reading(ono, reading);
    handle.put(behind);
    answer.number()
}

/// Writes to `count` how many peers have a session at the device's present moment: 0 to 64.
#[unsafe(no_mangle)]
pub extern "C" fn oca_device_peers(
    alloc: Global,
    handle: &mut DeviceHandle,
    count: &mut usize,
) -> u32
    ensures closed { RefusesClosed handle.old.slot.inner handle.new.slot.inner result }
    ensures building { RefusesBuilding handle.old.slot.inner handle.new.slot.inner result }
    ensures kept { handle.new.slot.inner ≡ handle.old.slot.inner }
    ensures writes { WhateverHandleRuns handle.old.slot.inner (λ r w T E.
        (result ≡ 0) × (count.new ≡ length (known_after (state_after w T E)))) }
    ensures unwritten { (result ≡ 0) ⊎ (count.new ≡ count.old) }
{
    let Some(behind) = handle.take(alloc) else {
        return Answer::Closed.number();
    };
    let answer = behind.peers(count);
    handle.put(behind);
    answer.number()
}

/// Writes the address and the port of a peer that has a session.
#[unsafe(no_mangle)]
pub extern "C" fn oca_device_peer(
    alloc: Global,
    handle: &mut DeviceHandle,
    index: usize,
    ip: &mut u32,
    port: &mut u16,
) -> u32
    ensures closed { RefusesClosed handle.old.slot.inner handle.new.slot.inner result }
    ensures building { RefusesBuilding handle.old.slot.inner handle.new.slot.inner result }
    ensures kept { handle.new.slot.inner ≡ handle.old.slot.inner }
    ensures writes { WhateverHandleRuns handle.old.slot.inner (λ r w T E.
        WritesPeer (slice_get (known_after (state_after w T E)) index) ip.new port.new result) }
    ensures unwritten { (result ≡ 0) ⊎ ((ip.new ≡ ip.old) × (port.new ≡ port.old)) }
{
    let Some(behind) = handle.take(alloc) else {
        return Answer::Closed.number();
    };
    let answer = behind.peer(index, ip, port);
    handle.put(behind);
    answer.number()
}
