//! The fields of messages and of a PDU's header, read from bytes that are long enough.
ghost use Rattle.std.specs.Prelude.{◌≡◌, ◌≤◌, ◌∷◌, [], IsTrue, is_ok, Ok, length};
ghost use Rattle.std.specs.Int.{w16, w32, from_be_bytes};
ghost use Rattle.oca_pdu.specs.Messages.{msg_of};
ghost use Rattle.oca_pdu.specs.Reading.{least_size, message_in, content_of, keep_alive_at};

use crate::message::{COMMAND_BYTES, Content, Form, Kind, Message, RESPONSE_BYTES};
use oca_types::{Command, Handle, MethodId, Ono};

/// Returns the Uint16 that two bytes encode, the highest byte first (AES70-3). There must be exactly two bytes (a
/// premise, which the caller must prove).
pub fn u16_in(bytes: &[u8]) -> u16
    requires { length bytes.now ≡ 2 }
    ensures { result ≡ from_be_bytes w16 bytes.now }
{
    u16::from_be_bytes([bytes[0], bytes[1]])
}

/// Returns the Uint32 that four bytes encode, the highest byte first (AES70-3). There must be exactly four bytes (a
/// premise, which the caller must prove).
pub fn u32_in(bytes: &[u8]) -> u32
    requires { length bytes.now ≡ 4 }
    ensures { result ≡ from_be_bytes w32 bytes.now }
{
    u32::from_be_bytes([bytes[0], bytes[1], bytes[2], bytes[3]])
}

/// Returns the least size of a message of this kind, in bytes (AES70-3): 17 for a command, and 10 for a response.
pub fn least(kind: Kind) -> usize
    ensures { result ≡ least_size kind }
{
    match kind {
        Kind::Command | Kind::CommandWithResponse => COMMAND_BYTES,
        Kind::Response => RESPONSE_BYTES,
    }
}

/// Returns what kind of messages a PDU of this PduType has (AES70-3): commands for 0 and 1, responses for 3, and a
/// keep-alive for 4. The result is `None` for any other type, also for notifications (2).
pub fn content(pdu_type: u8) -> Option<Content>
    ensures { result ≡ content_of pdu_type }
{
    match pdu_type {
        0 => Some(Content::Messages(Kind::Command)),
        1 => Some(Content::Messages(Kind::CommandWithResponse)),
        3 => Some(Content::Messages(Kind::Response)),
        4 => Some(Content::KeepAlive),
        _ => None,
    }
}

/// Returns the message that all of these bytes encode, a command or a response as `kind` says (AES70-3). There must be
/// at least as many bytes as [`least`] says (a premise, which the caller must prove). The parameters of the message are
/// a slice of the bytes. The size in the first four bytes is not read.
pub fn read_message(kind: Kind, bytes: &[u8]) -> Message<'_>
    requires { least_size kind ≤ length bytes.now }
    ensures { msg_of result ≡ message_in kind bytes.now }
{
    let handle = Handle(u32_in(&bytes[4..8]));
    if let Kind::Response = kind {
        return Message::Response {
            handle,
            status: bytes[8],
            count: bytes[9],
            params: &bytes[10..],
        };
    }
    let target = Ono(u32_in(&bytes[8..12]));
    let method = MethodId {
        level: u16_in(&bytes[12..14]),
        index: u16_in(&bytes[14..16]),
    };
    let command = Command {
        handle,
        target,
        method,
        count: bytes[16],
        params: &bytes[17..],
    };
    Message::Command {
        respond: matches!(kind, Kind::CommandWithResponse),
        command,
    }
}

/// Returns the heartbeat of a keep-alive from all of its bytes (AES70-3): two bytes are seconds, and four bytes are
/// milliseconds. The bytes must be those of a well-formed keep-alive (a premise, which the caller must prove).
pub fn read_form(bytes: &[u8]) -> Form
    requires { IsTrue (is_ok (keep_alive_at 0 bytes.now)) }
    ensures { keep_alive_at 0 bytes.now ≡ Ok (msg_of (Message.KeepAlive result) ∷ []) }
{
    if bytes.len() == 2 {
        Form::Seconds(u16_in(bytes))
    } else {
        Form::Millis(u32_in(bytes))
    }
}
