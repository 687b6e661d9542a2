//! What C holds of a device.
ghost use Rattle.std.specs.Prelude.{◌≡◌, None, Some, is_some, MatchOption};
ghost use Rattle.oca_calls.specs.Calls.{left_by_start};

use crate::answer::Answer;
use crate::device::DeviceBehind;
use crate::device_slot::DeviceSlot;
use crate::parts::Parts;
use std::alloc::Global;

/// The struct of a device that C owns (`struct oca_device`): open with a device, or closed. Zeroed, it is closed.
#[repr(C)]
#[derive(Drop)]
pub struct DeviceHandle {
    pub slot: DeviceSlot,
    pub is_open: bool,
    ghost known: { is_open ≡ is_some slot.inner },
}

const _: () = prove!(std::mem::size_of::<DeviceHandle>() == 16);

impl DeviceHandle {
    /// Takes the device out of the struct, which is then closed. `None` if it was closed already. No memory is taken or
    /// freed. [`put`](DeviceHandle::put) puts the device back.
    pub fn take(&mut self, alloc: Global) -> Option<Box<DeviceBehind>>
        ensures closed { self.new.slot.inner ≡ None }
        ensures was { MatchOption result (self.old.slot.inner ≡ None) (λ b. self.old.slot.inner ≡ Some b.value) }
    {
        let closed = DeviceHandle {
            slot: DeviceSlot::empty(alloc),
            is_open: false,
        };
        let DeviceHandle { slot, is_open } = std::mem::replace(self, closed);
        if is_open {
            Some(slot.into_parts().into_box())
        } else {
            None
        }
    }

    /// Closes the struct, and frees the memory of its device. A closed struct stays closed.
    pub fn close(&mut self, alloc: Global)
        ensures { self.new.slot.inner ≡ None }
    {
        drop(self.take(alloc));
    }

    /// Puts back a device after a try to start it, which ended with `answer`, into a closed struct (a premise). After
    /// `NoMemory` the objects are lost: the device is dropped, and the struct stays closed.
    pub fn put_started(&mut self, behind: Box<DeviceBehind>, answer: Answer)
        requires { self.old.slot.inner ≡ None }
        ensures { self.new.slot.inner ≡ left_by_start answer behind.value }
    {
        match answer {
            Answer::NoMemory => drop(behind),
            _ => self.put(behind),
        }
    }

    /// Makes `behind` the device of the struct, which is then open. A device that was in the struct is dropped.
    pub fn put(&mut self, behind: Box<DeviceBehind>)
        ensures { self.new.slot.inner ≡ Some behind.value }
    {
        *self = DeviceHandle {
            slot: DeviceSlot::of_parts(Parts::of(behind)),
            is_open: true,
        };
    }
}
