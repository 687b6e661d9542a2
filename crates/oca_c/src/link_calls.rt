//! What C calls of a link.
ghost use Rattle.std.specs.Prelude.{◌≡◌, ◌⊎◌, ◌≤◌, ◌<◌, List, Option, None, IfSome, IsSome, length};
ghost use Rattle.oca_types.specs.Peers.{RequestFields};
ghost use Rattle.oca_types.specs.declared.words.Peer.{Peer};
ghost use Rattle.oca_types.specs.Sizes.{largest_datagram, most_parameter_bytes};
ghost use Rattle.oca_pdu.specs.Messages.{Msg};
ghost use Rattle.oca_control.specs.Contents.{IsContent};
ghost use Rattle.oca_control.specs.Links.{decision, due_answer, due_bytes, gone_on, late_at, new_link, received};
ghost use Rattle.oca_control.specs.Links.{reception, submission_within, submitted_within, taken};
ghost use Rattle.oca_control.specs.Shortening.{shortened};
ghost use Rattle.oca_control.specs.Untaken.{answer_under, first_answered, waits};
ghost use Rattle.std.specs.List.{list_any};
ghost use Rattle.oca_calls.specs.Calls.{RefusesClosed};
ghost use Rattle.oca_calls.specs.LinkCalls.{HoldsLink, LiesIn, OpensLink, WritesNextDue, WritesNumber, WritesAnswer};
ghost use Rattle.oca_calls.specs.LinkCalls.{WritesSubmission, answered_count, due_handle, due_kind, reception_kind};
ghost use Rattle.oca_calls.specs.LinkRooms.{full_rooms, small_rooms};

use oca_calls::answer::Answer;
use oca_calls::link_handle::LinkHandle;
use oca_types::{Handle, MethodId, Ono, Peer};
use std::alloc::Global;

/// Opens a link to the device at the address `ip` (an IPv4 address as a number, the first byte highest) and the port
/// `port`, and takes the memory for the link.
#[unsafe(no_mangle)]
pub extern "C" fn oca_link_open(
    alloc: Global,
    handle: &mut LinkHandle,
    ip: u32,
    port: u16,
    first_handle: u32,
    now: u64,
    span: u8,
) -> u32
    ensures open { IsSome handle.old.slot.inner → (result ≡ 10) × (handle.new.slot.inner ≡ handle.old.slot.inner) }
    ensures opens { handle.old.slot.inner ≡ None → OpensLink result handle.new.slot.inner span (record {
      link = new_link (record { ip = ip; port = port }) first_handle now span;
      rooms = full_rooms;
    }) }
{
    handle.open(
        alloc,
        Peer { ip, port },
        Handle(first_handle),
        now,
        span,
        false,
    )
}

/// Opens a small link, with the arguments of `oca_link_open`.
#[unsafe(no_mangle)]
pub extern "C" fn oca_link_open_small(
    alloc: Global,
    handle: &mut LinkHandle,
    ip: u32,
    port: u16,
    first_handle: u32,
    now: u64,
    span: u8,
) -> u32
    ensures open { IsSome handle.old.slot.inner → (result ≡ 10) × (handle.new.slot.inner ≡ handle.old.slot.inner) }
    ensures opens { handle.old.slot.inner ≡ None → OpensLink result handle.new.slot.inner span (record {
      link = new_link (record { ip = ip; port = port }) first_handle now span;
      rooms = small_rooms;
    }) }
{
    handle.open(
        alloc,
        Peer { ip, port },
        Handle(first_handle),
        now,
        span,
        true,
    )
}

/// Closes a link and frees its memory.
#[unsafe(no_mangle)]
pub extern "C" fn oca_link_shut(alloc: Global, handle: &mut LinkHandle)
    ensures { handle.new.slot.inner ≡ None }
{
    handle.close(alloc);
}

/// Submits a command at the moment `now`, in milliseconds, and writes its handle to `command`.
#[unsafe(no_mangle)]
pub extern "C" fn oca_link_submit(
    alloc: Global,
    handle: &mut LinkHandle,
    target: u32,
    level: u16,
    index: u16,
    count: u8,
    params: &[u8],
    now: u64,
    command: &mut u32,
) -> u32
    ensures closed { RefusesClosed handle.old.slot.inner handle.new.slot.inner result }
    ensures submits { let request : RequestFields = record {
      target = target;
      level = level;
      index = index;
      count = count;
      params = params.now;
    } in
        IfSome handle.old.slot.inner (λ b.
        HoldsLink handle.new.slot.inner b (submitted_within b.rooms.command request now b.link)
        × WritesSubmission result command.new (submission_within b.rooms.command request b.link)) }
    ensures unwritten { (result ≡ 0) ⊎ (command.new ≡ command.old) }
{
    let Some(mut behind) = handle.take(alloc) else {
        return Answer::Closed.number();
    };
    let method = MethodId { level, index };
    let number = behind.submit(Ono(target), method, count, params, now, command);
    handle.put(behind);
    number
}

/// Puts what is due at the moment `now`, in milliseconds, to the front of `out`, for the caller to send to the device.
#[unsafe(no_mangle)]
pub extern "C" fn oca_link_due(
    alloc: Global,
    handle: &mut LinkHandle,
    now: u64,
    out: &mut [u8],
    len: &mut usize,
    kind: &mut u32,
    command: &mut u32,
) -> u32
    ensures closed { RefusesClosed handle.old.slot.inner handle.new.slot.inner result }
    ensures small { IfSome handle.old.slot.inner (λ b. length out.old < largest_datagram →
        HoldsLink handle.new.slot.inner b b.link × (result ≡ 14)) }
    ensures gives { IfSome handle.old.slot.inner (λ b. largest_datagram ≤ length out.old →
        HoldsLink handle.new.slot.inner b (gone_on now b.link) × (result ≡ 0)
        × (kind.new ≡ due_kind (due_answer (decision now b.link)))
        × (command.new ≡ due_handle (due_answer (decision now b.link)))
        × LiesIn (due_bytes (decision now b.link)) out.new len.new) }
    ensures unwritten { (result ≡ 0) ⊎ ((out.new ≡ out.old) × (len.new ≡ len.old)
        × (kind.new ≡ kind.old) × (command.new ≡ command.old)) }
{
    let Some(mut behind) = handle.take(alloc) else {
        return Answer::Closed.number();
    };
    let number = behind.due(now, out, len, kind, command);
    handle.put(behind);
    number
}

/// Handles a datagram that came from the address `ip` and the port `port` at the moment `now`, in milliseconds.
#[unsafe(no_mangle)]
pub extern "C" fn oca_link_datagram(
    alloc: Global,
    handle: &mut LinkHandle,
    ip: u32,
    port: u16,
    bytes: &[u8],
    now: u64,
    kind: &mut u32,
    answered: &mut u32,
) -> u32
    ensures closed { RefusesClosed handle.old.slot.inner handle.new.slot.inner result }
    ensures receives { IfSome handle.old.slot.inner (λ b. (content : Option (List Msg)) → IsContent content bytes.now →
        let from : Peer = record { ip = ip; port = port } in
        let kept : Option (List Msg) = shortened b.rooms.answer content in
        HoldsLink handle.new.slot.inner b (received from kept now b.link) × (result ≡ 0)
        × (kind.new ≡ reception_kind (reception from kept b.link))
        × (answered.new ≡ answered_count (reception from kept b.link))) }
    ensures unwritten { (result ≡ 0) ⊎ ((kind.new ≡ kind.old) × (answered.new ≡ answered.old)) }
{
    let Some(mut behind) = handle.take(alloc) else {
        return Answer::Closed.number();
    };
    let number = behind.datagram(Peer { ip, port }, bytes, now, kind, answered);
    handle.put(behind);
    number
}

/// Takes the answer to the command under the handle `command`, and removes the command.
#[unsafe(no_mangle)]
pub extern "C" fn oca_link_take(
    alloc: Global,
    handle: &mut LinkHandle,
    command: u32,
    status: &mut u32,
    count: &mut u32,
    out: &mut [u8],
    len: &mut usize,
) -> u32
    ensures closed { RefusesClosed handle.old.slot.inner handle.new.slot.inner result }
    ensures small { IfSome handle.old.slot.inner (λ b. length out.old < most_parameter_bytes →
        HoldsLink handle.new.slot.inner b b.link × (result ≡ 14)) }
    ensures takes { IfSome handle.old.slot.inner (λ b. most_parameter_bytes ≤ length out.old →
        HoldsLink handle.new.slot.inner b (taken command b.link)
        × WritesAnswer result status.new count.new out.new len.new (answer_under command b.link.untaken)) }
    ensures unwritten { (result ≡ 0) ⊎ ((status.new ≡ status.old) × (count.new ≡ count.old)
        × (out.new ≡ out.old) × (len.new ≡ len.old)) }
{
    let Some(mut behind) = handle.take(alloc) else {
        return Answer::Closed.number();
    };
    let number = behind.take(command, status, count, out, len);
    handle.put(behind);
    number
}

/// Writes to `moment` the earliest moment, in milliseconds, at which `oca_link_due` has something to send or finds the
/// link lost.
#[unsafe(no_mangle)]
pub extern "C" fn oca_link_next_due(alloc: Global, handle: &mut LinkHandle, moment: &mut u64) -> u32
    ensures closed { RefusesClosed handle.old.slot.inner handle.new.slot.inner result }
    ensures kept { handle.new.slot.inner ≡ handle.old.slot.inner }
    ensures writes { IfSome handle.old.slot.inner (λ b. WritesNextDue result moment.new b.link) }
    ensures unwritten { (result ≡ 0) ⊎ (moment.new ≡ moment.old) }
{
    let Some(behind) = handle.take(alloc) else {
        return Answer::Closed.number();
    };
    let number = behind.next_due(moment);
    handle.put(behind);
    number
}

/// Writes to `command` the lowest handle whose answer came and was not taken yet.
#[unsafe(no_mangle)]
pub extern "C" fn oca_link_answered(
    alloc: Global,
    handle: &mut LinkHandle,
    command: &mut u32,
) -> u32
    ensures closed { RefusesClosed handle.old.slot.inner handle.new.slot.inner result }
    ensures kept { handle.new.slot.inner ≡ handle.old.slot.inner }
    ensures writes { IfSome handle.old.slot.inner (λ b.
        WritesNumber result command.new (first_answered b.link.untaken)) }
    ensures unwritten { (result ≡ 0) ⊎ (command.new ≡ command.old) }
{
    let Some(behind) = handle.take(alloc) else {
        return Answer::Closed.number();
    };
    let number = behind.answered(command);
    handle.put(behind);
    number
}

/// Writes into `in_flight` whether the command under the handle `command` was submitted and has no answer yet.
#[unsafe(no_mangle)]
pub extern "C" fn oca_link_in_flight(
    alloc: Global,
    handle: &mut LinkHandle,
    command: u32,
    in_flight: &mut bool,
) -> u32
    ensures closed { RefusesClosed handle.old.slot.inner handle.new.slot.inner result }
    ensures kept { handle.new.slot.inner ≡ handle.old.slot.inner }
    ensures writes { IfSome handle.old.slot.inner (λ b.
        (result ≡ 0) × (in_flight.new ≡ list_any (waits command) b.link.untaken)) }
    ensures unwritten { (result ≡ 0) ⊎ (in_flight.new ≡ in_flight.old) }
{
    let Some(behind) = handle.take(alloc) else {
        return Answer::Closed.number();
    };
    let number = behind.is_in_flight(command, in_flight);
    handle.put(behind);
    number
}

/// Writes to `command` the handle that the next command gets: at first the handle that the link was opened with.
#[unsafe(no_mangle)]
pub extern "C" fn oca_link_next_handle(
    alloc: Global,
    handle: &mut LinkHandle,
    command: &mut u32,
) -> u32
    ensures closed { RefusesClosed handle.old.slot.inner handle.new.slot.inner result }
    ensures kept { handle.new.slot.inner ≡ handle.old.slot.inner }
    ensures writes { IfSome handle.old.slot.inner (λ b. WritesNumber result command.new b.link.next) }
    ensures unwritten { (result ≡ 0) ⊎ (command.new ≡ command.old) }
{
    let Some(behind) = handle.take(alloc) else {
        return Answer::Closed.number();
    };
    let number = behind.next_handle(command);
    handle.put(behind);
    number
}

/// Writes to `moment` the moment, in milliseconds, at which the last well-formed datagram came from the device.
#[unsafe(no_mangle)]
pub extern "C" fn oca_link_last_heard(
    alloc: Global,
    handle: &mut LinkHandle,
    moment: &mut u64,
) -> u32
    ensures closed { RefusesClosed handle.old.slot.inner handle.new.slot.inner result }
    ensures kept { handle.new.slot.inner ≡ handle.old.slot.inner }
    ensures writes { IfSome handle.old.slot.inner (λ b. (result ≡ 0) × (moment.new ≡ b.link.heard)) }
    ensures unwritten { (result ≡ 0) ⊎ (moment.new ≡ moment.old) }
{
    let Some(behind) = handle.take(alloc) else {
        return Answer::Closed.number();
    };
    let number = behind.last_heard(moment);
    handle.put(behind);
    number
}

/// Writes to `lost` whether the link is lost: a command got no answer to 20 transmissions, and `oca_link_due` found
/// that.
#[unsafe(no_mangle)]
pub extern "C" fn oca_link_is_lost(alloc: Global, handle: &mut LinkHandle, lost: &mut bool) -> u32
    ensures closed { RefusesClosed handle.old.slot.inner handle.new.slot.inner result }
    ensures kept { handle.new.slot.inner ≡ handle.old.slot.inner }
    ensures writes { IfSome handle.old.slot.inner (λ b. (result ≡ 0) × (lost.new ≡ b.link.lost)) }
    ensures unwritten { (result ≡ 0) ⊎ (lost.new ≡ lost.old) }
{
    let Some(behind) = handle.take(alloc) else {
        return Answer::Closed.number();
    };
    let number = behind.is_lost(lost);
    handle.put(behind);
    number
}

/// Writes to `late` whether the link is late at the moment `now`, in milliseconds: a command was submitted more than
/// 15,000 ms ago and has no answer, whether it was sent or not (a rule of the profile).
#[unsafe(no_mangle)]
pub extern "C" fn oca_link_is_late(
    alloc: Global,
    handle: &mut LinkHandle,
    now: u64,
    late: &mut bool,
) -> u32
    ensures closed { RefusesClosed handle.old.slot.inner handle.new.slot.inner result }
    ensures kept { handle.new.slot.inner ≡ handle.old.slot.inner }
    ensures writes { IfSome handle.old.slot.inner (λ b. (result ≡ 0) × (late.new ≡ late_at now b.link)) }
    ensures unwritten { (result ≡ 0) ⊎ (late.new ≡ late.old) }
{
    let Some(behind) = handle.take(alloc) else {
        return Answer::Closed.number();
    };
    let number = behind.is_late(now, late);
    handle.put(behind);
    number
}
