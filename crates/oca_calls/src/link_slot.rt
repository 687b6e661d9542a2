//! A place for what is behind a handle, as C holds it: empty, or the owner of one.
ghost use Rattle.std.specs.Prelude.{◌≡◌, Option, None, Some, is_some, true};
ghost use Rattle.oca_calls.specs.LinkRooms.{RoomedLink};
ghost use Rattle.oca_calls.specs.LinkSlots.{link_coded, link_owns};

use crate::link::LinkBehind;
use crate::parts::Parts;
use std::alloc::Global;
use std::marker::Model;

/// The owner of the link of a struct of C, or of nothing.
#[repr(C)]
#[derive(Drop)]
pub struct LinkSlot {
    at: *mut (),
    alloc: Global,
    pub ghost inner: { Option RoomedLink } by { link_coded },
}

impl Model for LinkSlot {
    ghost also_owns = { λ s. link_owns s.alloc s.at s.inner };
}

impl LinkSlot {
    /// Makes a slot that owns nothing. No memory is taken.
    pub fn empty(alloc: Global) -> LinkSlot
        ensures { result.inner ≡ None }
    {
        LinkSlot {
            at: std::ptr::null_mut(),
            alloc,
        }
    }

    /// Makes a slot that owns the link of the box with these parts. No memory is taken.
    pub fn of_parts(parts: Parts<LinkBehind, Global>) -> LinkSlot
        ensures { result.inner ≡ Some parts.value }
    {
        let Parts { ptr, alloc } = parts;
        LinkSlot {
            at: ptr as *mut (),
            alloc,
        }
    }

    /// Returns the parts of the box that the slot owns. The slot must own one (a premise).
    pub fn into_parts(self) -> Parts<LinkBehind, Global>
        requires { is_some self.inner ≡ true }
        ensures { self.inner ≡ Some result.value }
    {
        let LinkSlot { at, alloc } = self;
        Parts {
            ptr: at as *mut LinkBehind,
            alloc,
        }
    }
}

unsafe impl Send for LinkSlot {}
