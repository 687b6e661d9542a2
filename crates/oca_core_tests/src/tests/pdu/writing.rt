//! Packets that are full, and packets that are written over.
use super::checking::messages_in;
use super::examples::{GET_STATE, MUTED, ONE_SECOND, SETTING};
use crate::tests::answers::{Answer, reply};
use crate::tests::{Agrees, Row, Said, plays};
use oca_pdu::{
    Form, WriteFault, holds_responses, replace_response, write_command, write_keepalive,
    write_response,
};
use oca_types::{Command, Handle, MethodId, Ono, Packet, Status};

/// What is done to a packet, and what that answers.
#[derive(Clone, Copy)]
pub enum Step {
    /// Bytes are put behind the packet as they are.
    Bytes(&'static [u8]),
    /// GetState of 4097 is written so many times.
    Commands(u16, Result<(), WriteFault>),
    /// A response is written under a handle.
    Response(u32, Answer, Result<(), WriteFault>),
    /// A keep-alive is written.
    KeepAlive(Form, Result<(), WriteFault>),
    /// A response under a handle takes the place of what there is.
    Replace(u32, Answer),
    /// The packet has these bytes.
    Holds(&'static [u8]),
    /// The packet has so many bytes.
    Len(usize),
    /// The packet is a datagram of so many messages.
    Messages(usize),
    /// The packet's PDU is of responses, or not.
    OfResponses(bool),
}

use Step::*;

/// GetState of 4097, handle 1.
const COMMAND: Command<'static> = Command {
    handle: Handle(1),
    target: Ono(4097),
    method: MethodId { level: 4, index: 1 },
    count: 0,
    params: &[],
};

/// Whether each of so many commands is answered so.
fn writes_commands(
    packet: &mut Packet,
    times: u16,
    answer: Result<(), WriteFault>,
    said: &mut Said,
) -> bool {
    for _ in 0..times {
        if !said.same(write_command(packet, true, &COMMAND), answer) {
            return false;
        }
    }
    true
}

/// Writes a response of these parts.
fn write_answer(packet: &mut Packet, handle: u32, answer: Answer) -> Result<(), WriteFault> {
    write_response(
        packet,
        Handle(handle),
        &reply(answer.status, answer.count, answer.params),
    )
}

/// Replaces by a response of these parts.
fn replace(packet: &mut Packet, handle: u32, answer: Answer) -> bool {
    replace_response(
        packet,
        Handle(handle),
        &reply(answer.status, answer.count, answer.params),
    );
    true
}

impl Agrees<Packet> for Step {
    /// Whether the step is answered so.
    fn agrees(&self, packet: &mut Packet, said: &mut Said) -> bool {
        match *self {
            Bytes(bytes) => packet.try_extend_from_slice(bytes).is_ok(),
            Commands(times, answer) => writes_commands(packet, times, answer, said),
            Response(handle, parts, answer) => {
                said.same(write_answer(packet, handle, parts), answer)
            }
            KeepAlive(form, answer) => said.same(write_keepalive(packet, form), answer),
            Replace(handle, parts) => replace(packet, handle, parts),
            Holds(bytes) => said.same(packet.as_slice(), bytes),
            Len(length) => said.same(packet.len(), length),
            Messages(count) => said.same(messages_in(packet.as_slice()), count),
            OfResponses(answer) => said.same(holds_responses(packet), answer),
        }
    }
}

/// What is done to a packet, step by step, by its name.
pub struct Script(&'static str, &'static [Step]);

impl Row for Script {
    /// Whether each step is answered so.
    fn agrees(&self, said: &mut Said) -> bool {
        plays(&mut Packet::new(), self.0, self.1, said)
    }
}

/// A reply without parameters.
const EMPTY: Answer = Answer {
    status: Status::Ok,
    count: 0,
    params: &[],
};

/// A packet without room is refused and unchanged.
const FULL: &[Step] = &[
    Commands(54, Ok(())),
    Len(1458),
    Commands(1, Err(WriteFault::TooLong)),
    Response(1, EMPTY, Err(WriteFault::TooLong)),
    Len(1458),
    KeepAlive(Form::Millis(1500), Ok(())),
    KeepAlive(Form::Seconds(1), Err(WriteFault::TooLong)),
    Len(1472),
    Messages(55),
];

/// The role `mute`.
const ROLE: Answer = Answer {
    status: Status::Ok,
    count: 1,
    params: &[0, 4, 0x6D, 0x75, 0x74, 0x65],
};

/// The state 1, Muted.
const STATE_1: Answer = Answer {
    params: &[1],
    ..ROLE
};

/// The state 2, Unmuted.
const STATE_2: Answer = Answer {
    params: &[2],
    ..ROLE
};

/// A response takes the place of a packet's bytes, where they are as many and where they are not.
const REPLACED: &[Step] = rows! {
    Bytes(SETTING),
    Replace(0x01020304, ROLE),
    Holds(&[0x3B, 0, 1, 0, 0, 0, 0x19, 3, 0, 1, 0, 0, 0, 0x10, 1, 2, 3, 4, 0, 1, 0, 4, 0x6D, 0x75, 0x74, 0x65]),
    Replace(1, STATE_1),
    Holds(MUTED),
    Replace(1, STATE_2),
    Holds(&[0x3B, 0, 1, 0, 0, 0, 0x14, 3, 0, 1, 0, 0, 0, 0x0B, 0, 0, 0, 1, 0, 1, 2]),
};

/// What is written is the worked example, and only the PDU of a response is of responses.
const OF_COMMANDS: &[Step] = &[
    OfResponses(false),
    Commands(1, Ok(())),
    Holds(GET_STATE),
    OfResponses(false),
    Replace(1, STATE_1),
    OfResponses(true),
];

const OF_RESPONSES: &[Step] = &[
    Response(1, STATE_1, Ok(())),
    Holds(MUTED),
    OfResponses(true),
];

const OF_KEEP_ALIVE: &[Step] = &[
    KeepAlive(Form::Seconds(1), Ok(())),
    Holds(ONE_SECOND),
    OfResponses(false),
];

/// The scripts.
pub const SCRIPTS: &[Script] = &[
    Script("a_full_packet_stays_as_it_is", FULL),
    Script("a_response_takes_the_place_of_a_packet", REPLACED),
    Script("a_command_is_the_worked_example", OF_COMMANDS),
    Script("a_response_is_the_worked_example", OF_RESPONSES),
    Script("a_keep_alive_is_the_worked_example", OF_KEEP_ALIVE),
];
