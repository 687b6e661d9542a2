//! What C holds of a link.
ghost use Rattle.std.specs.Prelude.{◌≡◌, None, Some, IfSome, IsSome, is_some, MatchOption};
ghost use Rattle.oca_control.specs.Links.{new_link};
ghost use Rattle.oca_calls.specs.LinkCalls.{OpensLink};
ghost use Rattle.oca_calls.specs.LinkRooms.{rooms_of};

use crate::answer::Answer;
use crate::link::LinkBehind;
use crate::link_slot::LinkSlot;
use crate::parts::Parts;
use oca_types::{Handle, Peer, Span};
use std::alloc::Global;

/// The struct of a link that C owns (`struct oca_link`): open with a link, or closed. Zeroed, it is closed.
#[repr(C)]
#[derive(Drop)]
pub struct LinkHandle {
    pub slot: LinkSlot,
    pub is_open: bool,
    ghost known: { is_open ≡ is_some slot.inner },
}

const _: () = prove!(std::mem::size_of::<LinkHandle>() == 16);

impl LinkHandle {
    /// Opens the struct over a link to the device at the address `device`: a small one if `is_small` is true
    /// ([`SmallLink`](oca_control::SmallLink)), and otherwise one with room for each command and each answer.
    pub fn open(
        &mut self,
        alloc: Global,
        device: Peer,
        first_handle: Handle,
        now: u64,
        span: u8,
        is_small: bool,
    ) -> u32
        ensures open { IsSome self.old.slot.inner → (result ≡ 10) × (self.new.slot.inner ≡ self.old.slot.inner) }
        ensures opens { self.old.slot.inner ≡ None → OpensLink result self.new.slot.inner span (record {
          link = new_link device first_handle.0 now span;
          rooms = rooms_of is_small;
        }) }
    {
        if self.is_open {
            return Answer::Open.number();
        }
        let Some(span) = Span::new(span) else {
            return Answer::BadSize.number();
        };
        let made = if is_small {
            LinkBehind::small(alloc, device, first_handle, now, span)
        } else {
            LinkBehind::full(alloc, device, first_handle, now, span)
        };
        match boxed(alloc, made) {
            Some(behind) => {
                self.put(behind);
                Answer::Done.number()
            }
            None => Answer::NoMemory.number(),
        }
    }

    /// Takes the link out of the struct, which is then closed. `None` if it was closed already. No memory is taken or
    /// freed. [`put`](LinkHandle::put) puts the link back.
    pub fn take(&mut self, alloc: Global) -> Option<Box<LinkBehind>>
        ensures closed { self.new.slot.inner ≡ None }
        ensures was { MatchOption result (self.old.slot.inner ≡ None) (λ b. self.old.slot.inner ≡ Some b.value) }
    {
        let closed = LinkHandle {
            slot: LinkSlot::empty(alloc),
            is_open: false,
        };
        let LinkHandle { slot, is_open } = std::mem::replace(self, closed);
        if is_open {
            Some(slot.into_parts().into_box())
        } else {
            None
        }
    }

    /// Closes the struct, and frees the memory of its link. A closed struct stays closed.
    pub fn close(&mut self, alloc: Global)
        ensures { self.new.slot.inner ≡ None }
    {
        drop(self.take(alloc));
    }

    /// Makes `behind` the link of the struct, which is then open. A link that was in the struct is dropped.
    pub fn put(&mut self, behind: Box<LinkBehind>)
        ensures { self.new.slot.inner ≡ Some behind.value }
    {
        *self = LinkHandle {
            slot: LinkSlot::of_parts(Parts::of(behind)),
            is_open: true,
        };
    }
}

/// Moves a link that was made into memory of its own, where there is some.
fn boxed(alloc: Global, made: Option<LinkBehind>) -> Option<Box<LinkBehind>>
    ensures { IfSome result (λ b. made ≡ Some b.value) }
{
    match made {
        Some(behind) => Box::new(alloc, behind).ok(),
        None => None,
    }
}
