//! A place for what is behind a handle, as C holds it: empty, or the owner of one.
ghost use Rattle.std.specs.Prelude.{◌≡◌, Option, None, Some, is_some, true};
ghost use Rattle.oca_calls.specs.declared.device.DeviceBehind.{DeviceBehind};
ghost use Rattle.oca_calls.specs.DeviceSlots.{inner_coded, slot_owns};

use crate::device::DeviceBehind;
use crate::parts::Parts;
use std::alloc::Global;
use std::marker::Model;

/// The owner of the device of a struct of C, or of nothing.
#[repr(C)]
#[derive(Drop)]
pub struct DeviceSlot {
    at: *mut (),
    alloc: Global,
    pub ghost inner: { Option DeviceBehind } by { inner_coded },
}

impl Model for DeviceSlot {
    ghost also_owns = { λ s. slot_owns s.alloc s.at s.inner };
}

impl DeviceSlot {
    /// Makes a slot that owns nothing. No memory is taken.
    pub fn empty(alloc: Global) -> DeviceSlot
        ensures { result.inner ≡ None }
    {
        DeviceSlot {
            at: std::ptr::null_mut(),
            alloc,
        }
    }

    /// Makes a slot that owns the device of the box with these parts. No memory is taken.
    pub fn of_parts(parts: Parts<DeviceBehind, Global>) -> DeviceSlot
        ensures { result.inner ≡ Some parts.value }
    {
        let Parts { ptr, alloc } = parts;
        DeviceSlot {
            at: ptr as *mut (),
            alloc,
        }
    }

    /// Returns the parts of the box that the slot owns. The slot must own one (a premise).
    pub fn into_parts(self) -> Parts<DeviceBehind, Global>
        requires { is_some self.inner ≡ true }
        ensures { self.inner ≡ Some result.value }
    {
        let DeviceSlot { at, alloc } = self;
        Parts {
            ptr: at as *mut DeviceBehind,
            alloc,
        }
    }
}

unsafe impl Send for DeviceSlot {}
