//! Starting the device behind a handle.
ghost use Rattle.oca_tree.specs.Objects.{Store};
ghost use Rattle.oca_calls.specs.Calls.{HandleBuilds, HandleStarts, RefusesClosed, RefusesRunning};
ghost use Rattle.oca_calls.specs.LinkRooms.{rooms_of};

use crate::answer::Answer;
use crate::device_handle::DeviceHandle;
use std::alloc::Global;

/// Starts the device of the struct `handle`: a small one if `is_small` is true
/// ([`SmallDevice`](oca_device::SmallDevice)), and otherwise one with room for each command and each reply.
pub fn start(
    alloc: Global,
    handle: &mut DeviceHandle,
    window: u8,
    peers: u8,
    packets: usize,
    is_small: bool,
) -> u32
    ensures closed { RefusesClosed handle.old.slot.inner handle.new.slot.inner result }
    ensures started { RefusesRunning handle.old.slot.inner handle.new.slot.inner result }
    ensures starts { (B : Store) → HandleBuilds handle.old.slot.inner B →
        HandleStarts result handle.old.slot.inner handle.new.slot.inner (rooms_of is_small) window peers packets
        B.list }
{
    let Some(mut behind) = handle.take(alloc) else {
        return Answer::Closed.number();
    };
    let answer = behind.start(alloc, window, peers, packets, is_small);
    handle.put_started(behind, answer);
    answer.number()
}
