//! The messages that are read.
ghost use Rattle.std.specs.Prelude.{◌≡◌, count_by};
ghost use Rattle.oca_pdu.specs.Limits.{is_command};
ghost use Rattle.oca_pdu.specs.Datagrams.{datagram_messages};

use super::examples::*;
use crate::tests::{Row, Said};
use oca_pdu::{Datagram, Form, Message, check};
use oca_types::{Command, MethodId};

/// A message, in numbers.
#[derive(Clone, Copy)]
pub enum Read {
    /// Whether a command asks for a response, its handle, its target, DefLevel and MethodIndex, ParamCount and
    /// parameters.
    Command(bool, u32, u32, (u16, u16), u8, &'static [u8]),
    /// The handle of a response, its status, ParamCount and parameters.
    Response(u32, u8, u8, &'static [u8]),
    /// The time of a keep-alive.
    KeepAlive(Form),
}

/// The datagram of a worked example, and its messages in order.
pub struct Messages(&'static [u8], &'static [Read]);

pub const MESSAGES: &[Messages] = rows! {
    Messages(GET_STATE, &[Read::Command(true, 1, 4097, (4, 1), 0, &[])]),
    Messages(MUTED, &[Read::Response(1, 0, 1, &[1])]),
    Messages(SET_STATE, &[Read::Command(true, 2, 4097, (4, 2), 1, &[1])]),
    Messages(DONE, &[Read::Response(2, 0, 0, &[])]),
    Messages(SET_SETTING, &[Read::Command(true, 7, 4100, (5, 2), 1, &[0xFD, 0xA8])]),
    Messages(SETTING, &[Read::Response(9, 0, 3, &[0xFD, 0xA8, 0xFD, 0xA8, 2, 0x58])]),
    Messages(GET_MEMBERS, &[Read::Command(true, 5, 100, (3, 5), 0, &[])]),
    Messages(MEMBERS, &[Read::Response(5, 0, 1, &[0, 1, 0, 0, 0x10, 0, 0, 3, 0, 1, 0, 1, 0, 3, 0, 2])]),
    Messages(LOCKED, &[Read::Response(1, 3, 0, &[])]),
    Messages(ROLE, &[Read::Response(2, 0, 1, &[0, 4, 0x6D, 0x75, 0x74, 0x65])]),
    Messages(SET_LABEL, &[Read::Command(true, 1, 4097, (2, 9), 1, &[0, 5, 0x42, 0xC3, 0xBC, 0x68, 0x6E, 0x65])]),
    Messages(LABEL, &[Read::Response(2, 0, 1, &[0, 5, 0x42, 0xC3, 0xBC, 0x68, 0x6E, 0x65])]),
    Messages(ONE_SECOND, &[Read::KeepAlive(Form::Seconds(1))]),
    Messages(MILLISECONDS, &[Read::KeepAlive(Form::Millis(1500))]),
    Messages(FIVE_SECONDS, &[Read::KeepAlive(Form::Seconds(5))]),
    Messages(
        TWO_COMMANDS,
        &[Read::Command(true, 1, 4097, (4, 1), 0, &[]), Read::Command(true, 2, 4098, (4, 1), 0, &[])],
    ),
};

/// Whether a command has these numbers.
fn is_command_of(
    command: &Command<'_>,
    handle: u32,
    target: u32,
    method: (u16, u16),
    said: &mut Said,
) -> bool {
    let id = MethodId {
        level: method.0,
        index: method.1,
    };
    said.same(command.handle.0, handle)
        && said.same(command.target.0, target)
        && said.same(command.method, id)
}

/// Whether a message is this one.
fn is_read(message: &Message<'_>, read: Read, said: &mut Said) -> bool {
    match (*message, read) {
        (Message::Command { respond, command }, Read::Command(asks, of, target, id, n, bytes)) => {
            said.same(respond, asks)
                && is_command_of(&command, of, target, id, said)
                && said.same(command.count, n)
                && said.same(command.params, bytes)
        }
        (
            Message::Response {
                handle,
                status,
                count,
                params,
            },
            Read::Response(of, number, n, bytes),
        ) => said.same(handle.0, of)
            && said.same(status, number)
            && said.same(count, n)
            && said.same(params, bytes),
        (Message::KeepAlive { form }, Read::KeepAlive(time)) => said.same(form, time),
        _ => false,
    }
}

/// Whether the messages are these, in order.
fn are_read(datagram: &Datagram<'_>, reads: &[Read], said: &mut Said) -> bool {
    let mut rest = reads;
    for message in datagram.messages() {
        let Some((read, others)) = rest.split_first() else {
            return false;
        };
        if !is_read(&message, *read, said) {
            return false;
        }
        rest = others;
    }
    rest.is_empty()
}

impl Row for Messages {
    /// Whether the bytes are a datagram of these messages.
    fn agrees(&self, said: &mut Said) -> bool {
        match check(self.0) {
            Ok(datagram) => are_read(&datagram, self.1, said),
            Err(_) => false,
        }
    }
}

/// How many of the messages are commands: a loop over them whose invariant speaks of those that are left.
fn commands_in(datagram: &Datagram) -> usize
    ensures { result ≡ count_by is_command (datagram_messages datagram.now) }
{
    let mut count: usize = 0;
    for message in datagram.messages() {
        if let Message::Command {
            respond: _,
            command: _,
        } = message
        {
            count += 1;
        }
    }
    count
}

/// A datagram, and how many commands it has.
pub struct Commands(&'static [u8], usize);

pub const COMMANDS: &[Commands] = &[Commands(TWO_COMMANDS, 2)];

impl Row for Commands {
    /// Whether it has so many.
    fn agrees(&self, said: &mut Said) -> bool {
        match check(self.0) {
            Ok(datagram) => said.same(commands_in(&datagram), self.1),
            Err(_) => false,
        }
    }
}
