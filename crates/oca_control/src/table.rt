//! The commands in flight of a link, each in the place that its handle names.
ghost use Rattle.std.specs.Prelude.{◌≡◌, ◌+◌, ◌-◌, ◌%◌, ◌<◌, ◌≤◌, [], ◌∷◌, ◌++◌, map, length, Option, Some, None, true};
ghost use Rattle.std.specs.Prelude.{is_some, IfSome, IsTrue, if◌then◌else◌, slice_index_or, min};
ghost use Rattle.std.specs.List.{list_any};
ghost use Rattle.std.specs.Option.{option_map};
ghost use Rattle.oca_types.specs.Peers.{request_of};
ghost use Rattle.oca_types.specs.Sizes.{most_command_parameter_bytes, most_parameter_bytes};
ghost use Rattle.oca_types.specs.Moments.{HoldsFrom};
ghost use Rattle.oca_control.specs.Answers.{answer_fields};
ghost use Rattle.oca_control.specs.Untaken.{new_untaken, span_has_room, is_late, first_due, waits, answered};
ghost use Rattle.oca_control.specs.Untaken.{first_answered, answer_under, without_handle};
ghost use Rattle.oca_control.specs.Links.{command_under, due_answer};
ghost use Rattle.oca_control.specs.Shortening.{shortened_answer};
ghost use Rattle.oca_control.specs.PrivateSlots.{IsSlotTable, untaken_from, untaken_at, held_at, held_is_due, some_due};
ghost use Rattle.oca_control.specs.PrivateSlots.{handle_left, first_decided, after_decision, bytes_decided};
ghost use Rattle.oca_control.specs.PrivateSlots.{IsLowestDueSlot, IsPlaceOf};

use crate::answer::Answer;
use crate::due::Due;
use crate::slot::CommandSlot;
use oca_types::{Handle, Packet, Request, sooner};
use std::marker::Model;

/// The commands in flight of a link, at most 32. Their handles are from `low` on and below `next`, which is the handle
/// of the next command. The command under a handle is in the slot whose index is the handle modulo 32. `next` is
/// 4294967296 if no handle is left. Each slot has room for `COMMAND` bytes of parameters of a command, and for `ANSWER`
/// bytes of parameters of an answer.
#[derive(Drop)]
pub struct Table<const COMMAND: usize, const ANSWER: usize> {
    low: u64,
    next: u64,
    slots: [CommandSlot<COMMAND, ANSWER>; 32],
}

impl<const COMMAND: usize, const ANSWER: usize> Model for Table<COMMAND, ANSWER> {
    ghost use Rattle.std.specs.Prelude.{◌-◌};
    ghost use Rattle.oca_control.specs.PrivateSlots.{TableState, IsSlotTable, untaken_from};

    ghost Value = { TableState };

    ghost view = { λ t. record { next = t.next; untaken = untaken_from t.low (t.next - t.low) t.slots } };

    ghost invariant = { λ t. IsSlotTable t.low t.next t.slots };
}

impl<const COMMAND: usize, const ANSWER: usize> Table<COMMAND, ANSWER> {
    /// A table without commands. The first command gets the handle `first`.
    pub fn new(first: Handle) -> Self
        ensures { result ≡ record { next = first.0; untaken = [] } }
    {
        Table {
            low: u64::from(first.0),
            next: u64::from(first.0),
            slots: Default::default(),
        }
    }

    /// The handle of the next command. `None` after the last one, 4294967295.
    pub fn next(&self) -> Option<Handle>
        ensures { option_map (λ h. h.0) result ≡ handle_left self.now.next }
    {
        u32::try_from(self.next).ok().map(Handle)
    }

    /// Whether the next handle lies below the lowest handle in flight plus the span; `true` if no command is in flight.
    pub fn has_room(&self, span: u8) -> bool
        ensures room { result ≡ span_has_room span self.now.next self.now.untaken }
        ensures few { IsTrue result → 0 < span → length self.now.untaken < span }
    {
        self.low == self.next || self.next < self.low + u64::from(span)
    }

    /// Adds a command after the others, under the next handle, as submitted at the moment `now`, in milliseconds of the
    /// link's clock.
    pub fn submit(&mut self, request: Request<'_>, now: u64)
        requires left { self.old.next < 4294967296 }
        requires room { span_has_room 32 self.old.next self.old.untaken ≡ true }
        requires short { length request.params.now ≤ min COMMAND most_command_parameter_bytes }
        ensures { self.new ≡ record {
          next = self.old.next + 1;
          untaken = self.old.untaken ++ new_untaken now (command_under self.old.next (request_of request.entry)) ∷ [];
        } }
    {
        self.slots[place(self.next)].put(request, now);
        self.next += 1;
    }

    /// Puts the due command with the lowest handle into the packet, counts a transmission at the moment `now`, in
    /// milliseconds of the link's clock, and returns `Send` with the handle.
    /// `Lost` if that command was sent 20 times: then the packet stays empty, and nothing is changed. `None` if no
    /// command is due: then nothing is changed.
    pub fn give_first(&mut self, now: u64, packet: &mut Packet) -> Option<Due>
        requires { packet.old.items ≡ [] }
        ensures answer { result ≡ option_map due_answer (first_decided now self.old.untaken) }
        ensures packet { packet.new.items ≡ bytes_decided (first_decided now self.old.untaken) }
        ensures state { self.new ≡ record {
          next = self.old.next;
          untaken = after_decision now (first_decided now self.old.untaken) self.old.untaken;
        } }
    {
        let Some(at) = lowest_due(&self.slots, self.low, self.next, now) else {
            return None;
        };
        let handle = Handle(at as u32);
        let slot = &mut self.slots[place(at)];
        if !slot.may_repeat() {
            return Some(Due::Lost);
        }
        slot.send_due(handle, now, packet);
        Some(Due::Send(handle))
    }

    /// Whether a command of the table is late at the moment `now`, in milliseconds of the link's clock.
    pub fn is_late(&self, now: u64) -> bool
        ensures { result ≡ list_any (is_late now) self.now.untaken }
    {
        some_late(&self.slots, self.low, self.next, now)
    }

    /// The earliest moment, in milliseconds of the link's clock, from which on some command is due. It may be past.
    /// `None` if no command waits for an answer, or the moment does not fit 64 bits.
    pub fn due_from(&self) -> Option<u64>
        ensures { HoldsFrom (some_due self.now.untaken) result }
    {
        due_from(&self.slots, self.low, self.next)
    }

    /// The lowest handle whose command has its answer. `None` if no command has.
    pub fn answered(&self) -> Option<Handle>
        ensures { option_map (λ h. h.0) result ≡ first_answered self.now.untaken }
    {
        match lowest_answered(&self.slots, self.low, self.next) {
            Some(handle) => Some(Handle(handle as u32)),
            None => None,
        }
    }

    /// Whether a command with this handle waits for its answer.
    pub fn waits(&self, handle: Handle) -> bool
        ensures { result ≡ list_any (waits handle.0) self.now.untaken }
    {
        let Some(at) = place_of(handle, self.low, self.next) else {
            return false;
        };
        self.slots[at].waits()
    }

    /// Stores an answer, as [`CommandSlot::store`] does, and returns whether a command with this handle waited for it.
    /// If none did, nothing is changed.
    pub fn answer(&mut self, handle: Handle, status: u8, count: u8, params: &[u8]) -> bool
        requires { length params.now ≤ most_parameter_bytes }
        ensures new { result ≡ list_any (waits handle.0) self.old.untaken }
        ensures state { self.new ≡ record {
          next = self.old.next;
          untaken = map (answered handle.0
              (shortened_answer ANSWER (record { status = status; count = count; params = params.now })))
              self.old.untaken;
        } }
    {
        let Some(at) = place_of(handle, self.low, self.next) else {
            return false;
        };
        let slot = &mut self.slots[at];
        if !slot.waits() {
            return false;
        }
        slot.store(status, count, params);
        true
    }

    /// Takes the answer under this handle, and removes the command. `None` if there is no answer under the handle: then
    /// nothing is changed.
    pub fn take(&mut self, handle: Handle) -> Option<Answer>
        ensures answer { option_map answer_fields result ≡ answer_under handle.0 self.old.untaken }
        ensures state { self.new
            ≡ record {
              next = self.old.next;
              untaken = if is_some (answer_under handle.0 self.old.untaken)
                  then without_handle handle.0 self.old.untaken else self.old.untaken;
            } }
    {
        let Some(at) = place_of(handle, self.low, self.next) else {
            return None;
        };
        let answer = self.slots[at].take();
        self.low = lowest_held(&self.slots, self.low, self.next);
        answer
    }
}

/// The earliest moment from which on some command is due of those from `low` on and below `next`.
fn due_from<const COMMAND: usize, const ANSWER: usize>(
    slots: &[CommandSlot<COMMAND, ANSWER>; 32],
    low: u64,
    next: u64,
) -> Option<u64>
    requires { low ≤ next }
    ensures { HoldsFrom (some_due (untaken_from low (next - low) slots.now)) result }
{
    let mut first = None;
    for handle in low..next {
        first = sooner(first, slots[place(handle)].due_from());
    }
    first
}

/// Whether a command is late of those from `low` on and below `next`.
fn some_late<const COMMAND: usize, const ANSWER: usize>(
    slots: &[CommandSlot<COMMAND, ANSWER>; 32],
    low: u64,
    next: u64,
    now: u64,
) -> bool
    requires { low ≤ next }
    ensures { result ≡ list_any (is_late now) (untaken_from low (next - low) slots.now) }
{
    for handle in low..next {
        if slots[place(handle)].is_late(now) {
            return true;
        }
    }
    false
}

/// The lowest handle from `low` on and below `next` that has its answer.
fn lowest_answered<const COMMAND: usize, const ANSWER: usize>(
    slots: &[CommandSlot<COMMAND, ANSWER>; 32],
    low: u64,
    next: u64,
) -> Option<u64>
    requires { low ≤ next }
    ensures value { result ≡ first_answered (untaken_from low (next - low) slots.now) }
    ensures below { IfSome result (λ h. h < next) }
{
    for handle in low..next {
        if slots[place(handle)].is_answered() {
            return Some(handle);
        }
    }
    None
}

/// The slot of a handle.
fn place(handle: u64) -> usize
    ensures value { result ≡ handle % 32 }
    ensures within { result < 32 }
{
    (handle % 32) as usize
}

/// The slot of a handle from `low` on and below `next`; of others none.
fn place_of(handle: Handle, low: u64, next: u64) -> Option<usize>
    ensures { IsPlaceOf handle.0 low next result }
{
    let handle = u64::from(handle.0);
    if low <= handle && handle < next {
        Some(place(handle))
    } else {
        None
    }
}

/// The lowest due handle from `low` on and below `next`.
fn lowest_due<const COMMAND: usize, const ANSWER: usize>(
    slots: &[CommandSlot<COMMAND, ANSWER>; 32],
    low: u64,
    next: u64,
    now: u64,
) -> Option<u64>
    requires { low ≤ next }
    ensures { IsLowestDueSlot now slots.now low next result }
{
    for handle in low..next {
        if slots[place(handle)].is_due(now) {
            return Some(handle);
        }
    }
    None
}

/// The lowest held handle from `low` on and below `next`, or `next`.
fn lowest_held<const COMMAND: usize, const ANSWER: usize>(
    slots: &[CommandSlot<COMMAND, ANSWER>; 32],
    low: u64,
    next: u64,
) -> u64
    requires { low ≤ next }
    ensures above { low ≤ result }
    ensures below { result ≤ next }
    ensures held { result < next → held_at result slots.now ≡ None → ⊥ }
    ensures same { untaken_from result (next - result) slots.now ≡ untaken_from low (next - low) slots.now }
{
    for handle in low..next {
        if slots[place(handle)].is_held() {
            return handle;
        }
    }
    next
}
