//! The reply window of one session.
ghost use Rattle.std.specs.Prelude.{◌≡◌, ℕ, ◌+◌, ◌<◌, ◌≤◌, max, vec_len, vec_capacity, List, [], ◌∷◌, ◌++◌, length};
ghost use Rattle.std.specs.Prelude.{option_map, option_copied, IfOk, MatchOption, AllPairs, find};
ghost use Rattle.circular_buffer.specs.Buffer.{buffer};
ghost use Rattle.oca_types.specs.Peers.{CommandFields, fields_of};
ghost use Rattle.oca_types.specs.Sizes.{most_command_parameter_bytes, most_parameter_bytes};
ghost use Rattle.oca_session.specs.Accepted.{Entry, entry_of, retained_of, AgreesWithAccepted, judgement};
ghost use Rattle.oca_session.specs.Accepted.{Fresh, entry_under, duplicate_or_reused};
ghost use Rattle.oca_session.specs.Judging.{as_judgement, judgement_by_window, retained_after};
ghost use Rattle.oca_session.specs.PrivateCells.{is_under, held_in, AreApart, IsCellOfOldest, AddsCell};

use crate::cell::Cell;
use circular_buffer::HeapCircularBuffer;
use oca_types::{Command, Handle, Reply, ReplyOf, ReplyParts};
use std::alloc::{AllocError, Global};
use std::marker::Model;

/// What the reply window of a session says of a command. The window contains the last accepted commands of the session,
/// each with its reply, of type `R`: a [`ReplyOf`] with the room that the table of sessions has for it.
#[derive(Debug)]
pub enum JudgedOf<'a, R: 'a> {
    /// No command in the window has this handle, and the handle is above all handles that the window pushed out:
    /// execute the command.
    Fresh,
    /// The command is a duplicate of a command in the window, which got this reply: send the reply again.
    Kept(&'a R),
    /// A command in the window has this handle, but asks something else.
    Reused,
    /// No command in the window has this handle, and the handle is not above a handle that the window pushed out.
    Old,
}

impl<'a, R: 'a> Clone for JudgedOf<'a, R> {
    /// The same: a reply is not copied.
    fn clone(&self) -> Result<Self, AllocError> {
        Ok(*self)
    }
}

impl<'a, R: 'a> Copy for JudgedOf<'a, R> {}

/// What the reply window of a session of [`Sessions`](crate::Sessions) says of a command: the replies have room for
/// 1,452 bytes of parameters ([`JudgedOf`]).
pub type Judged<'a> = JudgedOf<'a, Reply>;

/// A command in a window: its handle, and the index of the cell with the rest of the command and its reply.
#[derive(Clone, Copy)]
pub struct Held {
    handle: Handle,
    cell: u32,
}

/// A command in the window of a device for short commands and replies.
const _: () = prove!(std::mem::size_of::<Held>() + std::mem::size_of::<Cell<64, 264>>() == 376);

/// A command in the window of a `Device`.
const _: () = prove!(
    std::mem::size_of::<Held>() + std::mem::size_of::<Cell<1445, 1452>>() == 2_952
);

impl Held {
    /// Whether this is its handle.
    fn is_under(&self, handle: Handle) -> bool
        ensures { result ≡ is_under handle.0 self.now }
    {
        self.handle == handle
    }
}

/// The last accepted commands of a session with their replies, and the *floor*: the greatest handle that was pushed out
/// of the window. Each command has room for `COMMAND` bytes of parameters, and each reply for `ANSWER`.
#[derive(Drop)]
pub struct ReplyWindow<const COMMAND: usize, const ANSWER: usize> {
    /// The commands, oldest first. A command that is pushed to it when it is full pushes the oldest out.
    held: HeapCircularBuffer<Held>,
    /// The rest of each command and its reply. The cell of a command that is pushed out is that of the next.
    cells: Vec<Cell<COMMAND, ANSWER>>,
    /// The number after the floor; 0 where there is no floor.
    floor_end: u64,
    /// Above each handle that was accepted.
    above: u64,
}

impl<const COMMAND: usize, const ANSWER: usize> Model for ReplyWindow<COMMAND, ANSWER> {
    ghost use Rattle.std.specs.Prelude.{◌<◌, ◌≤◌, length, vec_capacity};
    ghost use Rattle.oca_types.specs.Sizes.{most_command_parameter_bytes, most_parameter_bytes};
    ghost use Rattle.oca_session.specs.Accepted.{Retained};
    ghost use Rattle.oca_session.specs.PrivateCells.{AreHeld, entries_of, floor_before};

    ghost Value = { Retained };

    ghost view = { λ a. record {
      size = a.held.capacity;
      entries = entries_of a.held.items a.cells.items;
      floor = floor_before a.floor_end;
    } };

    ghost invariant = { λ a. AreHeld a.held.items a.cells.items a.above × (a.floor_end ≤ a.above)
        × (length a.held.items ≤ a.held.capacity) × (0 < a.held.capacity) × (a.held.capacity ≤ 64)
        × (a.held.capacity ≤ vec_capacity a.cells) × (COMMAND ≤ most_command_parameter_bytes)
        × (ANSWER ≤ most_parameter_bytes) };
}

impl<const COMMAND: usize, const ANSWER: usize> ReplyWindow<COMMAND, ANSWER> {
    /// Returns an empty reply window of `size` commands, 1 to 64 (a premise, which the caller must prove). `COMMAND`
    /// must be at most 1,445, and `ANSWER` at most 1,452 (premises, too). The call takes from `alloc` the memory for
    /// all that the window will contain. The only refusal is `AllocError`, if the allocator refused memory.
    pub fn new(alloc: Global, size: usize) -> Result<Self, AllocError>
        requires size { (0 < size) × (size ≤ 64) }
        requires rooms { (COMMAND ≤ most_command_parameter_bytes) × (ANSWER ≤ most_parameter_bytes) }
        ensures { IfOk result (λ k. k ≡ retained_of size []) }
    {
        let held = HeapCircularBuffer::with_capacity(alloc, size)?;
        let cells = Vec::with_capacity(alloc, size)?;
        Ok(ReplyWindow {
            held,
            cells,
            floor_end: 0,
            above: 0,
        })
    }

    /// Empties the window for another session: it then contains no command, and no handle is old. Its size stays. The
    /// call refuses nothing.
    pub fn clear(&mut self)
        ensures { self.new ≡ retained_of self.old.size [] }
    {
        self.held.clear();
        self.cells.clear();
        self.floor_end = 0;
        self.above = 0;
    }

    /// Judges a command by the window: [`SessionsOf::judge`](crate::SessionsOf::judge) lists the results. Nothing is
    /// changed.
    pub fn judge(&self, command: &Command<'_>) -> JudgedOf<'_, ReplyOf<ANSWER>>
        ensures exact { as_judgement result ≡ judgement_by_window self.now (fields_of command.now) }
        ensures accepted { (w : ℕ) (A : List Entry) → AgreesWithAccepted w A self.now →
            as_judgement result ≡ judgement w A (fields_of command.now) }
    {
        self.judge_retained(command)
    }

    /// Apart from `judge`, which says beside it what the accepted commands do: what the retained ones say of a command.
    fn judge_retained(&self, command: &Command<'_>) -> JudgedOf<'_, ReplyOf<ANSWER>>
        ensures { as_judgement result ≡ judgement_by_window self.now (fields_of command.now) }
    {
        if u64::from(command.handle.0) >= self.above {
            return JudgedOf::Fresh;
        }
        self.judge_accepted(command)
    }

    /// Apart from `judge_retained`, since most commands are above each handle that was accepted: what the retained
    /// commands say of a command, by the one under its handle and by the floor.
    #[inline(never)]
    fn judge_accepted(&self, command: &Command<'_>) -> JudgedOf<'_, ReplyOf<ANSWER>>
        ensures { as_judgement result ≡ judgement_by_window self.now (fields_of command.now) }
    {
        if let Some(held) = held_under(&self.held, command.handle) {
            let cell = &self.cells[held.cell as usize];
            if cell.asks_the_same(command) {
                return JudgedOf::Kept(cell.reply());
            }
            return JudgedOf::Reused;
        }
        if u64::from(command.handle.0) < self.floor_end {
            return JudgedOf::Old;
        }
        JudgedOf::Fresh
    }

    /// Stores a fresh command, with its reply, in the window. A full window pushes its oldest command out. Handles up
    /// to the handle of that command, which are not in the window, then count as `Old`. The command must be fresh
    /// ([`judge`](ReplyWindow::judge)) and have at most `COMMAND` bytes of parameters, and the reply at most `ANSWER`
    /// (premises, which the caller must prove). The call refuses nothing and takes no memory.
    pub fn keep(&mut self, command: &Command<'_>, reply: ReplyParts<'_>)
        requires fresh { judgement_by_window self.old (fields_of command.now) ≡ Fresh }
        requires room { length command.now.params.now ≤ COMMAND }
        requires short { length reply.params.now ≤ ANSWER }
        ensures exact { self.new ≡ retained_after self.old (entry_of command.now reply.entry) }
        ensures accepted { (w : ℕ) (A : List Entry) → AgreesWithAccepted w A self.old →
            AgreesWithAccepted w (A ++ entry_of command.now reply.entry ∷ []) self.new }
    {
        self.put(command, reply);
    }

    /// Apart from `keep`, which says beside it of which accepted commands the window is then: retains a fresh command
    /// with its reply.
    fn put(&mut self, command: &Command<'_>, reply: ReplyParts<'_>)
        requires fresh { judgement_by_window self.old (fields_of command.now) ≡ Fresh }
        requires room { length command.now.params.now ≤ COMMAND }
        requires short { length reply.params.now ≤ ANSWER }
        ensures { self.new ≡ retained_after self.old (entry_of command.now reply.entry) }
    {
        raise(&mut self.above, command.handle);
        let Some(cell) = cell_of_oldest(&self.held) else {
            add(&mut self.held, &mut self.cells, command, reply);
            return;
        };
        let held = Held {
            handle: command.handle,
            cell,
        };
        let Some(oldest) = self.held.push_back(held) else {
            unreachable!()
        };
        raise(&mut self.floor_end, oldest.handle);
        self.cells[cell as usize].set(command, reply);
    }
}

/// Raises a number above a handle, where it is not.
fn raise(end: &mut u64, handle: Handle)
    ensures { end.new ≡ max end.old (handle.0 + 1) }
{
    if u64::from(handle.0) >= *end {
        *end = u64::from(handle.0) + 1;
    }
}

/// The cell of the oldest command, where the window is full: that of the next, which pushes it out.
fn cell_of_oldest(held: &HeapCircularBuffer<Held>) -> Option<u32>
    requires { (0 < held.now.capacity) × (length held.now.items ≤ held.now.capacity) }
    ensures { MatchOption result (length held.now.items < held.now.capacity)
        (IsCellOfOldest held.now.items held.now.capacity) }
{
    if !held.is_full() {
        return None;
    }
    Some(held.front()?.cell)
}

/// Apart from `put`, since a local of a cell's size would be cleared at each call there: adds a command and its reply
/// while there is room, with a cell of its own.
#[inline(never)]
fn add<const COMMAND: usize, const ANSWER: usize>(
    held: &mut HeapCircularBuffer<Held>,
    cells: &mut Vec<Cell<COMMAND, ANSWER>>,
    command: &Command<'_>,
    reply: ReplyParts<'_>,
)
    requires params { length command.now.params.now ≤ COMMAND }
    requires short { length reply.params.now ≤ ANSWER }
    requires room { (length held.old.items < held.old.capacity) × (held.old.capacity ≤ 64)
        × (vec_len cells.old < vec_capacity cells.old) }
    ensures capacity { vec_capacity cells.new ≡ vec_capacity cells.old }
    ensures held { held.new
        ≡ buffer (held.old.items ++ held_in command.now.handle (length held.old.items) ∷ []) held.old.capacity }
    ensures items { AddsCell command.now.handle (entry_of command.now reply.entry) cells.old.items cells.new.items }
{
    let cell = held.len() as u32;
    held.push_back(Held {
        handle: command.handle,
        cell,
    });
    cells.push_reserved(Cell::new(command, reply));
}

/// What is held under a handle, or none. The latest is looked at first, since duplicates are mostly of it.
fn held_under(held: &HeapCircularBuffer<Held>, handle: Handle) -> Option<Held>
    requires { AllPairs AreApart held.now.items }
    ensures { result ≡ find (is_under handle.0) held.now.items }
{
    if let Some(latest) = held.back()
        && latest.handle == handle
    {
        return Some(*latest);
    }
    let (front, back) = held.as_slices();
    match first_under(front, handle) {
        Some(found) => Some(*found),
        None => first_under(back, handle).copied(),
    }
}

/// The first of these under a handle, or none.
fn first_under(all: &[Held], handle: Handle) -> Option<&Held>
    ensures { option_copied result ≡ find (is_under handle.0) all.now }
{
    all.iter().find(|held| held.is_under(handle))
}
