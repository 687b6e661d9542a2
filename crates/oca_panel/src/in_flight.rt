//! Commands in flight on a panel, in the order in which they were begun.
ghost use Rattle.std.specs.Prelude.{◌≡◌};

use crate::panel::Panel;
use arrayvec::ArrayVec;
use oca_control::{ControlFault, Outcome};
use oca_net::End;
use oca_types::{Handle, Request};
use std::fmt;
use std::marker::Model;

/// The most commands that can be in flight: the largest span.
const MOST_IN_FLIGHT: usize = 32;

/// A command that was begun, and what its caller says of it.
#[derive(Clone, Copy)]
struct Begun<T: Copy + Default> {
    handle: Handle,
    item: T,
}

impl<T: Copy + Default> Default for Begun<T> {
    ghost use Rattle.std.specs.Prelude.{◌≡◌};

    ghost is_default = { λ b. b.handle.0 ≡ 0 };

    /// What a place holds where no command is.
    fn default() -> Self {
        Begun {
            handle: Handle(0),
            item: T::default(),
        }
    }
}

/// A queue of commands in flight on a panel, at most 32, in the order in which they were begun. Each command has an
/// item of the caller's, which comes back with its outcome. The span of the panel's link limits how many can be in
/// flight at once ([`Panel`]).
///
/// ```
/// let mut in_flight = InFlight::new();
/// let mute = set_request(Value::Mute(MuteState::Muted));
/// for channel in [4097, 4098] {
///     in_flight.begin_behind(&mut panel, mute.of(Ono(channel)), channel)?;
/// }
/// let mut refused = None;
/// while let Some((channel, outcome)) = in_flight.finish_first(&mut panel) {
///     if done_in(&outcome).is_err() {
///         refused = Some(channel);
///     }
/// }
/// ```
///
/// Give all calls the panel on which the commands were begun. If the panel's link is lost, each command that is waited
/// for has the outcome `Lost`, unless its answer is there. After [`Panel::renew`] begin with a new queue. No call takes
/// memory.
pub struct InFlight<T: Copy + Default> {
    commands: ArrayVec<Begun<T>, MOST_IN_FLIGHT>,
}

impl<T: Copy + Default> Model for InFlight<T> {
    ghost use Rattle.std.specs.Prelude.{List, ℕ, map};

    ghost Value = { List (ℕ × T) };

    ghost view = { λ q. map (λ c. (c.handle.0, c.item)) q.commands.items };
}

impl<T: Copy + Default> Drop for InFlight<T> {
    /// Forgets the commands; the panel goes on with them.
    fn drop(self) {
        let InFlight { commands: _ } = self;
    }
}

impl<T: Copy + Default> fmt::Debug for InFlight<T> {
    /// How many commands are in flight.
    fn fmt<W: fmt::Write>(&self, f: &mut fmt::Formatter<W>) -> fmt::Result {
        f.debug_struct("InFlight")
            .field("commands", &self.commands.len())
            .finish()
    }
}

impl<T: Copy + Default> InFlight<T> {
    ghost use Rattle.std.specs.Prelude.{◌≡◌, ◌<◌, ◌≤◌, ◌==◌, [], ◌∷◌, ◌++◌, length, false};
    ghost use Rattle.oca_types.specs.Peers.{request_of};
    ghost use Rattle.oca_panel.specs.InFlight.{BeginsBehind, FinishesFirst, SettlesFirst, is_full};
    ghost use Rattle.oca_panel.specs.PrivateInFlight.{IsFirst, TakesOff};

    /// Makes an empty queue: no command is in flight, which means that none waits for its answer to be taken. The queue
    /// has room for 32 commands. It takes no memory beside itself, and nothing is refused.
    pub fn new() -> InFlight<T>
        ensures { result ≡ [] }
    {
        InFlight {
            commands: ArrayVec::new(),
        }
    }

    /// How many commands are in the queue: 0 to 32. 0 at first. A command leaves the queue when
    /// [`finish_first`](InFlight::finish_first) or [`try_finish_first`](InFlight::try_finish_first) returns its
    /// outcome.
    pub fn len(&self) -> usize
        ensures value { result ≡ length self.now }
        ensures most { result ≤ 32 }
    {
        self.commands.len()
    }

    /// Whether the queue has no command. `true` at first. The call looks at the queue alone, not at the panel.
    pub fn is_empty(&self) -> bool
        ensures { result ≡ (length self.now == 0) }
    {
        self.commands.is_empty()
    }

    /// Whether the queue has 32 commands. Then [`begin_behind`](InFlight::begin_behind) refuses with `SpanFull`, and
    /// [`push`](InFlight::push) must not be called. `false` at first.
    pub fn is_full(&self) -> bool
        ensures value { result ≡ is_full self.now }
        ensures room { result ≡ false → length self.now < 32 }
    {
        self.commands.is_full()
    }

    /// Adds a command at the end of the queue, with `item`, which the caller gets back when the command is finished.
    /// `handle` is what [`Panel::begin`], [`Panel::begin_set`] or [`Panel::begin_request`] returned for it. The queue
    /// must have fewer than 32 commands: this is a premise, so ask [`is_full`](InFlight::is_full) before. Nothing is
    /// sent.
    pub fn push(&mut self, handle: Handle, item: T)
        requires { length self.old < 32 }
        ensures { self.new ≡ self.old ++ (handle.0, item) ∷ [] }
    {
        self.commands.push(Begun { handle, item });
    }

    /// Begins the command `request` as [`Panel::begin`] does, adds it at the end of the queue with `item`, and returns
    /// its handle. The item comes back when the command is finished. `request` has the object, the method, ParamCount
    /// and the encoded parameters (AES70-3). If the link becomes lost in this call, the handle is returned and the
    /// command is not sent.
    ///
    /// Refusals, the first that applies, which change neither the queue nor the panel and send nothing:
    /// - `SpanFull` if the queue has 32 commands.
    /// - `Lost` if the link is lost or late.
    /// - `HandlesSpent` if a command has the handle 4294967295 already.
    /// - `SpanFull` if the next handle is not below the lowest handle whose answer was not taken yet, plus the span.
    /// - `TooLong` if the parameters have more than 1,445 bytes.
    pub fn begin_behind<E: End>(
        &mut self,
        panel: &mut Panel<E>,
        request: Request<'_>,
        item: T,
    ) -> Result<Handle, ControlFault>
        ensures { BeginsBehind (request_of request.entry) item result self.old self.new panel.old panel.new }
    {
        if self.is_full() {
            return Err(ControlFault::SpanFull);
        }
        let handle = panel.begin(request)?;
        self.push(handle, item);
        Ok(handle)
    }

    /// Takes the first command out of the queue and waits for its answer, for at most the panel's `wait` milliseconds.
    /// Returns the command's item and its outcome. `None` if the queue is empty: then nothing is changed.
    ///
    /// The outcome is that of [`Panel::finish`]: `Answered` with the answer, whatever its status. `Lost` if the link is
    /// lost or late and no answer is there. `Unanswered` if no answer comes in time. The command leaves the queue with
    /// every outcome. After `Unanswered` it stays in flight at the panel, and keeps its place in the span:
    /// [`Panel::answered`] returns its handle once its answer has come. After `Lost` and `Unanswered` the device may
    /// have carried out the command.
    pub fn finish_first<E: End>(&mut self, panel: &mut Panel<E>) -> Option<(T, Outcome)>
        ensures { FinishesFirst result self.old self.new panel.old panel.new }
    {
        let Some((handle, item)) = self.take_first() else {
            return None;
        };
        Some((item, panel.finish(handle)))
    }

    /// Takes the first command out of the queue if its outcome is known already, and does not wait. Returns the
    /// command's item and its outcome: `Answered` with the answer, whatever its status, or `Lost` if the link is lost
    /// and no answer is there. After `Lost` the device may have carried out the command. The call does not look whether
    /// the link is late.
    ///
    /// `None` if the outcome is not known, or the queue is empty: then nothing is changed. Commands behind the first
    /// are not looked at, even if their answers came. Nothing is received or sent.
    pub fn try_finish_first<E: End>(&mut self, panel: &mut Panel<E>) -> Option<(T, Outcome)>
        ensures { SettlesFirst result self.old self.new panel.old panel.new }
    {
        let Some((handle, item)) = self.first() else {
            return None;
        };
        match panel.try_finish(handle) {
            Some(outcome) => {
                self.take_first();
                Some((item, outcome))
            }
            None => None,
        }
    }

    /// The first command in flight.
    fn first(&self) -> Option<(Handle, T)>
        ensures { IsFirst result self.now }
    {
        match self.commands.first() {
            Some(command) => Some((command.handle, command.item)),
            None => None,
        }
    }

    /// Takes the first command in flight off the queue.
    fn take_first(&mut self) -> Option<(Handle, T)>
        ensures { TakesOff result self.old self.new }
    {
        if self.commands.is_empty() {
            return None;
        }
        let command = self.commands.remove(0);
        Some((command.handle, command.item))
    }
}
