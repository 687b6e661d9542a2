//! The place of one command and its answer.
ghost use Rattle.std.specs.Prelude.{◌≡◌, ◌<◌, ◌≤◌, [], ◌∷◌, length, Some, None, true, is_some, IsSomeAnd, IfSome};
ghost use Rattle.std.specs.Prelude.{IsTrue, if◌then◌else◌, nat_lt, min};
ghost use Rattle.std.specs.Option.{option_map};
ghost use Rattle.oca_types.specs.Peers.{request_of};
ghost use Rattle.oca_types.specs.Sizes.{most_command_parameter_bytes, most_parameter_bytes};
ghost use Rattle.oca_types.specs.Moments.{HoldsFrom};
ghost use Rattle.oca_pdu.specs.Messages.{Commands};
ghost use Rattle.oca_pdu.specs.Encoding.{pdu_encoding};
ghost use Rattle.oca_control.specs.Limits.{most_sendings};
ghost use Rattle.oca_control.specs.Answers.{answer_fields};
ghost use Rattle.oca_control.specs.Links.{command_under};
ghost use Rattle.oca_control.specs.Shortening.{shortened_answer};
ghost use Rattle.oca_control.specs.PrivateSlots.{new_held, held_is_due, held_is_late, held_waits, held_answer};
ghost use Rattle.oca_control.specs.PrivateSlots.{held_given, held_answered};

use crate::answer::Answer;
use crate::moments::later;
use arrayvec::ArrayVec;
use oca_pdu::write_command;
use oca_types::{Command, Handle, MethodId, Ono, Packet, Params, Request, Status};
use std::marker::Model;

/// A command is sent again after so many milliseconds without an answer.
const REPEAT_MS: u64 = 250;

/// The longest time, in milliseconds, between the submit of a command and its last transmission (*profile*): 15,000. A
/// command without an answer after that makes its link late ([`is_late`](crate::is_late)).
pub const LONGEST_LIFE_MS: u64 = 15_000;

/// A command is sent at most so often.
const MOST_SENDINGS: u8 = 20;

/// A slot of a link's table: it has one command and its answer, or is empty. It has room for a command with `COMMAND`
/// bytes of parameters, and for an answer with `ANSWER` bytes of parameters. A slot is never copied: its calls write
/// into it.
#[derive(Drop)]
pub struct CommandSlot<const COMMAND: usize, const ANSWER: usize> {
    held: bool,
    answered: bool,
    times: u8,
    count: u8,
    answer_status: u8,
    answer_count: u8,
    submitted: u64,
    last: u64,
    target: Ono,
    method: MethodId,
    params: ArrayVec<u8, COMMAND>,
    answer_params: ArrayVec<u8, ANSWER>,
}

impl<const COMMAND: usize, const ANSWER: usize> Model for CommandSlot<COMMAND, ANSWER> {
    ghost use Rattle.std.specs.Prelude.{◌≤◌, length, Option, Some, None, if◌then◌else◌};
    ghost use Rattle.oca_types.specs.Sizes.{most_command_parameter_bytes, most_parameter_bytes};
    ghost use Rattle.oca_control.specs.PrivateSlots.{Held};

    ghost Value = { Option Held };

    ghost view = { λ s. if s.held then Some (record {
      request = record {
        target = s.target.0;
        level = s.method.level;
        index = s.method.index;
        count = s.count;
        params = s.params.items;
      };
      submitted = s.submitted;
      times = s.times;
      last = s.last;
      answer = if s.answered then Some (record {
        status = s.answer_status;
        count = s.answer_count;
        params = s.answer_params.items;
      }) else None;
    }) else None };

    ghost invariant = { λ s. record {
      command : length s.params.items ≤ most_command_parameter_bytes;
      answer : length s.answer_params.items ≤ most_parameter_bytes;
    } };
}

impl<const COMMAND: usize, const ANSWER: usize> Default for CommandSlot<COMMAND, ANSWER> {
    /// A place that holds no command.
    fn default() -> Self {
        CommandSlot {
            held: false,
            answered: false,
            times: 0,
            count: 0,
            answer_status: 0,
            answer_count: 0,
            submitted: 0,
            last: 0,
            target: Ono(0),
            method: MethodId { level: 0, index: 0 },
            params: ArrayVec::new(),
            answer_params: ArrayVec::new(),
        }
    }
}

impl<const COMMAND: usize, const ANSWER: usize> CommandSlot<COMMAND, ANSWER> {
    /// Whether the slot holds a command.
    pub fn is_held(&self) -> bool
        ensures { result ≡ is_some self.now }
    {
        self.held
    }

    /// Whether the slot holds a command that is due at the moment `now`, in milliseconds of the link's clock. It is due
    /// if it has no answer, and was never sent or was sent 250 ms ago or earlier.
    pub fn is_due(&self, now: u64) -> bool
        ensures { result ≡ held_is_due now self.now }
    {
        self.held
            && !self.answered
            && (self.times == 0 || now.saturating_sub(self.last) >= REPEAT_MS)
    }

    /// Whether the slot has a command that is late at the moment `now`, in milliseconds of the link's clock: it is
    /// unanswered, and was submitted more than 15,000 ms before.
    pub fn is_late(&self, now: u64) -> bool
        ensures { result ≡ held_is_late now self.now }
    {
        self.waits() && now.saturating_sub(self.submitted) > LONGEST_LIFE_MS
    }

    /// The earliest moment, in milliseconds of the link's clock, from which on the command is due: 0 if it was never
    /// sent, otherwise 250 ms after its last transmission. So the moment may be past. `None` if the slot holds no
    /// command without an answer, or the moment does not fit 64 bits.
    pub fn due_from(&self) -> Option<u64>
        ensures { HoldsFrom (λ s. held_is_due s self.now) result }
    {
        if !self.waits() {
            return None;
        }
        if self.times == 0 {
            return Some(0);
        }
        later(self.last, REPEAT_MS)
    }

    /// Whether the slot holds a command that has its answer.
    pub fn is_answered(&self) -> bool
        ensures { result ≡ is_some (held_answer self.now) }
    {
        self.held && self.answered
    }

    /// Whether the slot holds a command that has no answer.
    pub fn waits(&self) -> bool
        ensures { result ≡ held_waits self.now }
    {
        self.held && !self.answered
    }

    /// Whether the command in the slot was sent fewer than 20 times. If the slot holds no command, the result means
    /// nothing.
    pub fn may_repeat(&self) -> bool
        ensures { IfSome self.now (λ k. result ≡ nat_lt k.times most_sendings) }
    {
        self.times < MOST_SENDINGS
    }

    /// Puts a command into the slot, as submitted at the moment `now`, in milliseconds of the link's clock, and not
    /// sent yet. What the slot held before is lost.
    pub fn put(&mut self, request: Request<'_>, now: u64)
        requires { length request.params.now ≤ min COMMAND most_command_parameter_bytes }
        ensures { self.new ≡ Some (new_held now (request_of request.entry)) }
    {
        self.held = true;
        self.answered = false;
        self.times = 0;
        self.submitted = now;
        self.last = 0;
        self.target = request.target;
        self.method = request.method;
        self.count = request.count;
        self.params.clear();
        let _ = self.params.try_extend_from_slice(request.params);
    }

    /// Writes a PDU with the slot's command under the handle `handle` into the packet (AES70-3), and counts a
    /// transmission at the moment `now`, in milliseconds of the link's clock. The call sends nothing.
    pub fn send_due(&mut self, handle: Handle, now: u64, packet: &mut Packet)
        requires few { IsSomeAnd self.old (λ k. k.times < most_sendings) }
        requires empty { packet.old.items ≡ [] }
        ensures packet { IfSome self.old
            (λ k. packet.new.items ≡ pdu_encoding (Commands true (command_under handle.0 k.request ∷ []))) }
        ensures slot { self.new ≡ option_map (held_given now) self.old }
    {
        let command = Command {
            handle,
            target: self.target,
            method: self.method,
            count: self.count,
            params: self.params.as_slice(),
        };
        let _ = write_command(packet, true, &command);
        self.times += 1;
        self.last = now;
    }

    /// Stores the answer to the command in the slot: its status, its ParamCount (`count`) and its parameters
    /// (`params`). If these have more than `ANSWER` bytes, the answer is stored with the status BufferOverflow, and
    /// without parameters. An earlier answer is lost.
    pub fn store(&mut self, status: u8, count: u8, params: &[u8])
        requires { length params.now ≤ most_parameter_bytes }
        ensures { self.new
            ≡ option_map (held_answered (shortened_answer ANSWER
            (record { status = status; count = count; params = params.now }))) self.old }
    {
        self.answered = true;
        self.answer_params.clear();
        if params.len() > ANSWER {
            self.answer_status = Status::BufferOverflow.number();
            self.answer_count = 0;
            return;
        }
        self.answer_status = status;
        self.answer_count = count;
        let _ = self.answer_params.try_extend_from_slice(params);
    }

    /// Takes the answer, and removes the command. `None` if the slot has no answer: then nothing is changed.
    pub fn take(&mut self) -> Option<Answer>
        ensures answer { option_map answer_fields result ≡ held_answer self.old }
        ensures slot { self.new ≡ (if is_some (held_answer self.old) then None else self.old) }
    {
        if !self.is_answered() {
            return None;
        }
        self.held = false;
        let mut params = Params::new();
        let _ = params.try_extend_from_slice(self.answer_params.as_slice());
        Some(Answer {
            status: self.answer_status,
            count: self.answer_count,
            params,
        })
    }
}
