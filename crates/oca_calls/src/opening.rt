//! Opening a device.
ghost use Rattle.std.specs.Prelude.{◌≡◌, None, Some, IfSome, MatchOption};
ghost use Rattle.oca_calls.specs.CSpecs.{OpensOver};

use crate::answer::Answer;
use crate::device::{DeviceBehind, room_for};
use crate::device_handle::DeviceHandle;
use oca_tree::TreeBuilder;
use std::alloc::Global;

/// Opens the struct `handle`, which must be closed (a premise), over a device that is not started, with the objects of
/// this builder. The call takes memory for the device; if that was refused the struct stays closed.
pub fn open_over(alloc: Global, handle: &mut DeviceHandle, builder: TreeBuilder) -> u32
    requires { handle.old.slot.inner ≡ None }
    ensures { OpensOver result handle.new.slot.inner builder }
{
    match room_for(alloc, 0) {
        Some(outbox) => put(handle, boxed(alloc, DeviceBehind::over(builder, outbox))),
        None => Answer::NoMemory.number(),
    }
}

/// Moves this into memory of its own, where there is some.
fn boxed(alloc: Global, behind: DeviceBehind) -> Option<Box<DeviceBehind>>
    ensures { IfSome result (λ b. b.value ≡ behind) }
{
    Box::new(alloc, behind).ok()
}

/// Puts this behind a closed handle, where there was memory for it.
fn put(handle: &mut DeviceHandle, behind: Option<Box<DeviceBehind>>) -> u32
    requires { handle.old.slot.inner ≡ None }
    ensures { MatchOption behind ((result ≡ 8) × (handle.new.slot.inner ≡ None))
        (λ b. (result ≡ 0) × (handle.new.slot.inner ≡ Some b.value)) }
{
    match behind {
        Some(behind) => {
            handle.put(behind);
            Answer::Done.number()
        }
        None => Answer::NoMemory.number(),
    }
}
