//! What C calls of a device.
ghost use Rattle.std.specs.Prelude.{◌≡◌, ◌⊎◌, ◌∷◌, ℕ, None, IfSome, IfNone, IsSome, slice_get, length};
ghost use Rattle.oca_tree.specs.Objects.{Store};
ghost use Rattle.oca_device.specs.Effects.{effects};
ghost use Rattle.oca_device.specs.Events.{Datagram as DatagramEvent, Tick};
ghost use Rattle.oca_device.specs.States.{state_after};
ghost use Rattle.oca_device.specs.Rooms.{packets_within, told, verdict_within};
ghost use Rattle.oca_device.specs.Outboxes.{KeptPackets};
ghost use Rattle.oca_device.specs.Written.{written};
ghost use Rattle.oca_calls.specs.Calls.{HandleBuilds, HandleRuns, HandleStarts, AnsweredWith, KeepsFirst, KeepsPackets};
ghost use Rattle.oca_calls.specs.Calls.{Opens, RefusesBuilding, RefusesClosed, RefusesRunning, WhateverHandleRuns};
ghost use Rattle.oca_calls.specs.LinkRooms.{full_rooms, small_rooms};
ghost use Rattle.oca_calls.specs.Outputs.{WritesEffect, WritesNextLapse, WritesToBuffer, WritesWords, put_words};
ghost use Rattle.oca_calls.specs.Outputs.{verdict_words};
ghost use Rattle.oca_calls.specs.Storings.{HasUnstored, KeepsUnstored, RunsUnstored, all_stored};
ghost use Rattle.oca_calls.specs.WaitingAnswers.{unstored_behind};
ghost use Rattle.oca_calls.specs.declared.unstored.Unstored.{Unstored};

use oca_calls::answer::Answer;
use oca_calls::device::MOST_PACKETS;
use oca_calls::device_handle::DeviceHandle;
use oca_calls::opening::open_over;
use oca_calls::starting::start;
use oca_tree::{Room, TreeBuilder};
use oca_types::Peer;
use std::alloc::Global;

/// Opens a device that has its root alone (the block 100), with room for `room` objects, the root counted: 1 to 4,096.
#[unsafe(no_mangle)]
pub extern "C" fn oca_device_open(alloc: Global, handle: &mut DeviceHandle, room: u16) -> u32
    ensures open { IsSome handle.old.slot.inner → (result ≡ 10) × (handle.new.slot.inner ≡ handle.old.slot.inner) }
    ensures opens { handle.old.slot.inner ≡ None → Opens result handle.new.slot.inner room }
{
    if handle.is_open {
        return Answer::Open.number();
    }
    let Some(room) = Room::new(room) else {
        return Answer::BadSize.number();
    };
    match TreeBuilder::with_room(alloc, room) {
        Ok(builder) => open_over(alloc, handle, builder),
        Err(_) => Answer::NoMemory.number(),
    }
}

/// Closes a device and frees its memory.
#[unsafe(no_mangle)]
pub extern "C" fn oca_device_shut(alloc: Global, handle: &mut DeviceHandle)
    ensures { handle.new.slot.inner ≡ None }
{
    handle.close(alloc);
}

/// Starts the device: from then on datagrams are handled, and no object can be added.
#[unsafe(no_mangle)]
pub extern "C" fn oca_device_start(
    alloc: Global,
    handle: &mut DeviceHandle,
    window: u8,
    peers: u8,
) -> u32
    ensures closed { RefusesClosed handle.old.slot.inner handle.new.slot.inner result }
    ensures started { RefusesRunning handle.old.slot.inner handle.new.slot.inner result }
    ensures starts { (B : Store) → HandleBuilds handle.old.slot.inner B →
        HandleStarts result handle.old.slot.inner handle.new.slot.inner full_rooms window peers 122 B.list }
{
    oca_device_start_within(alloc, handle, window, peers, MOST_PACKETS)
}

/// Starts the device as `oca_device_start` does, but with room for `packets` packets that answer a datagram: 1 to 122,
/// of some 1,480 bytes each.
#[unsafe(no_mangle)]
pub extern "C" fn oca_device_start_within(
    alloc: Global,
    handle: &mut DeviceHandle,
    window: u8,
    peers: u8,
    packets: usize,
) -> u32
    ensures closed { RefusesClosed handle.old.slot.inner handle.new.slot.inner result }
    ensures started { RefusesRunning handle.old.slot.inner handle.new.slot.inner result }
    ensures starts { (B : Store) → HandleBuilds handle.old.slot.inner B →
        HandleStarts result handle.old.slot.inner handle.new.slot.inner full_rooms window peers packets B.list }
{
    start(alloc, handle, window, peers, packets, false)
}

/// Starts a small device, with the arguments of `oca_device_start_within`.
#[unsafe(no_mangle)]
pub extern "C" fn oca_device_start_small(
    alloc: Global,
    handle: &mut DeviceHandle,
    window: u8,
    peers: u8,
    packets: usize,
) -> u32
    ensures closed { RefusesClosed handle.old.slot.inner handle.new.slot.inner result }
    ensures started { RefusesRunning handle.old.slot.inner handle.new.slot.inner result }
    ensures starts { (B : Store) → HandleBuilds handle.old.slot.inner B →
        HandleStarts result handle.old.slot.inner handle.new.slot.inner small_rooms window peers packets B.list }
{
    start(alloc, handle, window, peers, packets, true)
}

/// Handles a datagram that came from the address `ip` and the port `port` at the moment `now`, in milliseconds, and
/// writes what became of it to `out`.
#[unsafe(no_mangle)]
pub extern "C" fn oca_device_datagram_words(
    alloc: Global,
    handle: &mut DeviceHandle,
    ip: u32,
    port: u16,
    bytes: &[u8],
    now: u64,
    out: &mut [u32],
) -> u32
    ensures closed { RefusesClosed handle.old.slot.inner handle.new.slot.inner result }
    ensures building { RefusesBuilding handle.old.slot.inner handle.new.slot.inner result }
    ensures serves { WhateverHandleRuns handle.old.slot.inner (λ r w T E.
        HandleRuns r w handle.new.slot.inner T (DatagramEvent (record {
          ip = ip;
          port = port;
        }) (told r.command bytes.now) now ∷ E)
        × KeepsFirst handle.old.slot.inner handle.new.slot.inner (packets_within r.answer w T E (DatagramEvent (record {
          ip = ip;
          port = port;
        }) (told r.command bytes.now) now))
        × (out.new ≡ put_words (verdict_words (verdict_within r.command w T E (record {
          ip = ip;
          port = port;
        }) bytes.now now)) out.old)
        × (result ≡ 0)) }
    ensures unstored { WhateverHandleRuns handle.old.slot.inner (λ r w T E.
        (noted : Unstored) → HasUnstored handle.old.slot.inner noted →
        HasUnstored handle.new.slot.inner (unstored_behind noted r.command w T E (record {
          ip = ip;
          port = port;
        }) bytes.now now)) }
    ensures unwritten { (result ≡ 0) ⊎ (out.new ≡ out.old) }
{
    let Some(mut behind) = handle.take(alloc) else {
        return Answer::Closed.number();
    };
    let answer = behind.datagram(Peer { ip, port }, bytes, now, out);
    handle.put(behind);
    answer.number()
}

/// Moves the device's clock on to `now`, in milliseconds, when no datagram comes: sessions and locks lapse by it.
#[unsafe(no_mangle)]
pub extern "C" fn oca_device_tick(alloc: Global, handle: &mut DeviceHandle, now: u64) -> u32
    ensures closed { RefusesClosed handle.old.slot.inner handle.new.slot.inner result }
    ensures building { RefusesBuilding handle.old.slot.inner handle.new.slot.inner result }
    ensures packets { KeepsPackets handle.old.slot.inner handle.new.slot.inner }
    ensures unstored { KeepsUnstored handle.old.slot.inner handle.new.slot.inner }
    ensures serves { WhateverHandleRuns handle.old.slot.inner (λ r w T E.
        HandleRuns r w handle.new.slot.inner T (Tick now ∷ E) × (result ≡ 0)) }
{
    let Some(mut behind) = handle.take(alloc) else {
        return Answer::Closed.number();
    };
    let answer = behind.tick(now);
    handle.put(behind);
    answer.number()
}

/// Writes to `moment` the earliest moment, in milliseconds, at which `oca_device_tick` releases a lock or forgets a
/// session.
#[unsafe(no_mangle)]
pub extern "C" fn oca_device_next_lapse(
    alloc: Global,
    handle: &mut DeviceHandle,
    moment: &mut u64,
) -> u32
    ensures closed { RefusesClosed handle.old.slot.inner handle.new.slot.inner result }
    ensures building { RefusesBuilding handle.old.slot.inner handle.new.slot.inner result }
    ensures kept { handle.new.slot.inner ≡ handle.old.slot.inner }
    ensures writes { WhateverHandleRuns handle.old.slot.inner (λ r w T E.
        WritesNextLapse w (state_after w T E) moment.new result) }
    ensures unwritten { (result ≡ 0) ⊎ (moment.new ≡ moment.old) }
{
    let Some(behind) = handle.take(alloc) else {
        return Answer::Closed.number();
    };
    let answer = behind.next_lapse(moment);
    handle.put(behind);
    answer.number()
}

/// Writes to `count` how many packets answer the last datagram: 0 to 122, and 0 before the first datagram.
#[unsafe(no_mangle)]
pub extern "C" fn oca_device_packets(
    alloc: Global,
    handle: &mut DeviceHandle,
    count: &mut usize,
) -> u32
    ensures closed { RefusesClosed handle.old.slot.inner handle.new.slot.inner result }
    ensures kept { handle.new.slot.inner ≡ handle.old.slot.inner }
    ensures building { RefusesBuilding handle.old.slot.inner handle.new.slot.inner result }
    ensures count { (K : KeptPackets) → AnsweredWith handle.old.slot.inner K →
        (result ≡ 0) × (count.new ≡ length K.packets) }
    ensures unwritten { (result ≡ 0) ⊎ (count.new ≡ count.old) }
{
    let Some(behind) = handle.take(alloc) else {
        return Answer::Closed.number();
    };
    let answer = behind.packets(count);
    handle.put(behind);
    answer.number()
}

/// Writes to `left_out` whether answers to the last datagram were left out because the device had no room for them
/// (`oca_device_start_within`, `oca_device_start_small`).
#[unsafe(no_mangle)]
pub extern "C" fn oca_device_left_out(
    alloc: Global,
    handle: &mut DeviceHandle,
    left_out: &mut bool,
) -> u32
    ensures closed { RefusesClosed handle.old.slot.inner handle.new.slot.inner result }
    ensures kept { handle.new.slot.inner ≡ handle.old.slot.inner }
    ensures building { RefusesBuilding handle.old.slot.inner handle.new.slot.inner result }
    ensures writes { (K : KeptPackets) → AnsweredWith handle.old.slot.inner K →
        (result ≡ 0) × (left_out.new ≡ K.is_cut) }
    ensures unwritten { (result ≡ 0) ⊎ (left_out.new ≡ left_out.old) }
{
    let Some(behind) = handle.take(alloc) else {
        return Answer::Closed.number();
    };
    let answer = behind.left_out(left_out);
    handle.put(behind);
    answer.number()
}

/// Writes the bytes of a packet that answers the last datagram to the front of `out`, and their number, at most 1,472,
/// to `len`.
#[unsafe(no_mangle)]
pub extern "C" fn oca_device_packet(
    alloc: Global,
    handle: &mut DeviceHandle,
    i: usize,
    out: &mut [u8],
    len: &mut usize,
) -> u32
    ensures closed { RefusesClosed handle.old.slot.inner handle.new.slot.inner result }
    ensures kept { handle.new.slot.inner ≡ handle.old.slot.inner }
    ensures building { RefusesBuilding handle.old.slot.inner handle.new.slot.inner result }
    ensures nothing { (K : KeptPackets) → AnsweredWith handle.old.slot.inner K →
        IfNone (slice_get K.packets i) (result ≡ 13) }
    ensures packet { (K : KeptPackets) → AnsweredWith handle.old.slot.inner K →
        IfSome (slice_get K.packets i) (λ p. WritesToBuffer p out.old out.new len.new result) }
    ensures unwritten { (result ≡ 0) ⊎ (out.new ≡ out.old) }
    ensures untold { (result ≡ 0) ⊎ ((result ≡ 14) ⊎ (len.new ≡ len.old)) }
{
    let Some(behind) = handle.take(alloc) else {
        return Answer::Closed.number();
    };
    let answer = behind.packet(i, out, len);
    handle.put(behind);
    answer.number()
}

/// Copies the numbers of the objects that the last datagram wrote to to the front of `out`, in order, each as often as
/// it was written.
#[unsafe(no_mangle)]
pub extern "C" fn oca_device_written(
    alloc: Global,
    handle: &mut DeviceHandle,
    out: &mut [u32],
    count: &mut usize,
) -> u32
    ensures closed { RefusesClosed handle.old.slot.inner handle.new.slot.inner result }
    ensures building { RefusesBuilding handle.old.slot.inner handle.new.slot.inner result }
    ensures kept { handle.new.slot.inner ≡ handle.old.slot.inner }
    ensures writes { WhateverHandleRuns handle.old.slot.inner (λ r w T E.
        WritesWords (written w T E) out.old out.new count.new result) }
    ensures unwritten { (result ≡ 0) ⊎ ((result ≡ 14) ⊎ ((out.new ≡ out.old) × (count.new ≡ count.old))) }
{
    let Some(behind) = handle.take(alloc) else {
        return Answer::Closed.number();
    };
    let answer = behind.written(out, count);
    handle.put(behind);
    answer.number()
}

/// Writes what the device did with the command of the last datagram that has this index, counted from 0 in the order of
/// the commands.
#[unsafe(no_mangle)]
pub extern "C" fn oca_device_effect_words(
    alloc: Global,
    handle: &mut DeviceHandle,
    index: usize,
    out: &mut [u32],
) -> u32
    ensures closed { RefusesClosed handle.old.slot.inner handle.new.slot.inner result }
    ensures building { RefusesBuilding handle.old.slot.inner handle.new.slot.inner result }
    ensures kept { handle.new.slot.inner ≡ handle.old.slot.inner }
    ensures writes { WhateverHandleRuns handle.old.slot.inner (λ r w T E.
        WritesEffect (slice_get (effects w T E) index) out.old out.new result) }
    ensures unwritten { (result ≡ 0) ⊎ (out.new ≡ out.old) }
{
    let Some(behind) = handle.take(alloc) else {
        return Answer::Closed.number();
    };
    let answer = behind.effect(index, out);
    handle.put(behind);
    answer.number()
}

/// Writes to `waits` whether the answers to the last datagram must wait until the objects are stored.
#[unsafe(no_mangle)]
pub extern "C" fn oca_device_waits(
    alloc: Global,
    handle: &mut DeviceHandle,
    waits: &mut bool,
) -> u32
    ensures closed { RefusesClosed handle.old.slot.inner handle.new.slot.inner result }
    ensures building { RefusesBuilding handle.old.slot.inner handle.new.slot.inner result }
    ensures kept { handle.new.slot.inner ≡ handle.old.slot.inner }
    ensures writes { (noted : Unstored) → RunsUnstored handle.old.slot.inner noted →
        (result ≡ 0) × (waits.new ≡ noted.waits) }
    ensures unwritten { (result ≡ 0) ⊎ (waits.new ≡ waits.old) }
{
    let Some(behind) = handle.take(alloc) else {
        return Answer::Closed.number();
    };
    let answer = behind.waits(waits);
    handle.put(behind);
    answer.number()
}

/// Notes that the objects are stored as they are now: `oca_device_waits` is then false.
#[unsafe(no_mangle)]
pub extern "C" fn oca_device_stored(alloc: Global, handle: &mut DeviceHandle) -> u32
    ensures closed { RefusesClosed handle.old.slot.inner handle.new.slot.inner result }
    ensures building { RefusesBuilding handle.old.slot.inner handle.new.slot.inner result }
    ensures packets { KeepsPackets handle.old.slot.inner handle.new.slot.inner }
    ensures notes { WhateverHandleRuns handle.old.slot.inner (λ r w T E.
        HandleRuns r w handle.new.slot.inner T E × HasUnstored handle.new.slot.inner all_stored × (result ≡ 0)) }
{
    let Some(mut behind) = handle.take(alloc) else {
        return Answer::Closed.number();
    };
    let answer = behind.stored();
    handle.put(behind);
    answer.number()
}
