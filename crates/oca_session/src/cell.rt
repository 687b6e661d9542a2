//! What a reply window retains of one command.
ghost use Rattle.std.specs.Prelude.{◌≡◌, ◌≤◌, length, nat_eq};
ghost use Rattle.std.specs.Cmp.Lexicographic.{pointwise};
ghost use Rattle.oca_types.specs.Peers.{fields_of};
ghost use Rattle.oca_session.specs.Accepted.{asks_the_same, entry_of};
ghost use Rattle.oca_session.specs.PrivateCells.{entry_in};

use arrayvec::ArrayVec;
use oca_types::{Command, MethodId, Ono, ReplyOf, ReplyParts, write_over};
use std::marker::Model;

/// A command in a reply window, without its handle, and the reply that the command got: with room for `COMMAND` bytes
/// of parameters of the command, and for `ANSWER` bytes of parameters of the reply.
#[derive(Drop)]
pub struct Cell<const COMMAND: usize, const ANSWER: usize> {
    target: Ono,
    method: MethodId,
    count: u8,
    params: ArrayVec<u8, COMMAND>,
    reply: ReplyOf<ANSWER>,
}

impl<const COMMAND: usize, const ANSWER: usize> Model for Cell<COMMAND, ANSWER> {
    ghost use Rattle.oca_session.specs.PrivateCells.{CellState};

    ghost Value = { CellState };

    ghost view = { λ a. record {
      target = a.target.0;
      level = a.method.level;
      index = a.method.index;
      count = a.count;
      params = a.params.items;
      reply = a.reply;
    } };
}

impl<const COMMAND: usize, const ANSWER: usize> Cell<COMMAND, ANSWER> {
    /// Returns a cell with copies of this command, without its handle, and of its reply. The command must have at most
    /// `COMMAND` bytes of parameters, and the reply at most `ANSWER` (premises, which the caller must prove). The call
    /// refuses nothing and takes no memory.
    pub fn new(command: &Command<'_>, reply: ReplyParts<'_>) -> Self
        requires command { length command.now.params.now ≤ COMMAND }
        requires reply { length reply.params.now ≤ ANSWER }
        ensures { entry_in command.now.handle result ≡ entry_of command.now reply.entry }
    {
        let mut cell = Cell {
            target: command.target,
            method: command.method,
            count: command.count,
            params: ArrayVec::new(),
            reply: ReplyOf {
                status: reply.status,
                count: reply.count,
                params: ArrayVec::new(),
            },
        };
        copy_bytes(&mut cell.params, command.params);
        copy_bytes(&mut cell.reply.params, reply.params);
        cell
    }

    /// Replaces the command and the reply in the cell by copies of these. The handle is not stored. The command must
    /// have at most `COMMAND` bytes of parameters, and the reply at most `ANSWER` (premises, which the caller must
    /// prove). The call refuses nothing and takes no memory.
    pub fn set(&mut self, command: &Command<'_>, reply: ReplyParts<'_>)
        requires command { length command.now.params.now ≤ COMMAND }
        requires reply { length reply.params.now ≤ ANSWER }
        ensures { entry_in command.now.handle self.new ≡ entry_of command.now reply.entry }
    {
        let params = reply.params;
        if self.reply.params.len() != params.len() || self.params.len() != command.params.len() {
            self.set_other(command, reply);
            return;
        }
        self.target = command.target;
        self.method = command.method;
        self.count = command.count;
        self.reply.status = reply.status;
        self.reply.count = reply.count;
        write_over(self.reply.params.as_mut_slice(), params);
        write_over(self.params.as_mut_slice(), command.params);
    }

    /// Apart from `set`, since its calls would leave the callers of `set` few registers: writes a command and its reply
    /// over those that the cell held, whatever their lengths.
    #[inline(never)]
    fn set_other(&mut self, command: &Command<'_>, reply: ReplyParts<'_>)
        requires command { length command.now.params.now ≤ COMMAND }
        requires reply { length reply.params.now ≤ ANSWER }
        ensures { entry_in command.now.handle self.new ≡ entry_of command.now reply.entry }
    {
        self.target = command.target;
        self.method = command.method;
        self.count = command.count;
        copy_bytes(&mut self.params, command.params);
        self.reply.status = reply.status;
        self.reply.count = reply.count;
        copy_bytes(&mut self.reply.params, reply.params);
    }

    /// Returns whether this command and the command in the cell ask the same: the same target, DefLevel, MethodIndex,
    /// ParamCount and parameter bytes. The handle is not compared.
    pub fn asks_the_same(&self, command: &Command<'_>) -> bool
        ensures { result ≡ asks_the_same (entry_in command.now.handle self.now).command (fields_of command.now) }
    {
        self.target == command.target
            && self.method.level == command.method.level
            && self.method.index == command.method.index
            && self.count == command.count
            && are_same(self.params.as_slice(), command.params)
    }

    /// Returns the reply in the cell, without copying it.
    pub fn reply(&self) -> &ReplyOf<ANSWER>
        ensures { result.now ≡ self.now.reply }
    {
        &self.reply
    }
}

/// Whether the bytes are the same. None beside none are so without a call.
fn are_same(bytes: &[u8], others: &[u8]) -> bool
    ensures { result ≡ pointwise nat_eq bytes.now others.now }
{
    (bytes.is_empty() && others.is_empty()) || *bytes == *others
}

/// Writes bytes over others. Only the cells of others that were more are cleared.
fn copy_bytes<const N: usize>(room: &mut ArrayVec<u8, N>, bytes: &[u8])
    requires { length bytes.now ≤ N }
    ensures { room.new.items ≡ bytes.now }
{
    if room.len() > bytes.len() {
        room.truncate(bytes.len());
    }
    let (front, rest) = bytes.split_at(room.len());
    write_over(room.as_mut_slice(), front);
    if !rest.is_empty() {
        let _ = room.try_extend_from_slice(rest);
    }
}
