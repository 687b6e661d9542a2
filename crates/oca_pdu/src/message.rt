//! Messages of a datagram.
use oca_types::{Command, Handle};

/// The heartbeat in a keep-alive (AES70-3): in seconds as a Uint16, or in milliseconds as a Uint32. The heartbeat is
/// the interval at which the sender says that it sends. The number can be 0.
#[derive(Clone, Copy, Debug, PartialEq, Eq)]
pub enum Form {
    /// Seconds, from 0 to 65,535, in 2 bytes.
    Seconds(u16),
    /// Milliseconds, from 0 to 4,294,967,295, in 4 bytes.
    Millis(u32),
}

/// A message of a datagram: a command, a response or a keep-alive (AES70-3). Its parameters are a slice of the
/// datagram.
#[derive(Clone, Copy, Debug)]
pub enum Message<'a> {
    /// A command, and whether it asks for a response.
    Command {
        /// Whether the command asks for a response (PduType 1), or not (PduType 0).
        respond: bool,
        /// The command.
        command: Command<'a>,
    },
    /// A response: the handle of its command, the number of its status, its ParamCount and its parameters.
    Response {
        /// The handle of the command that is answered.
        handle: Handle,
        /// The number of the status; any number is well-formed, also one that OcaStatus does not have.
        status: u8,
        /// ParamCount: the number of parameters; any number is well-formed.
        count: u8,
        /// The bytes of the parameters.
        params: &'a [u8],
    },
    /// A keep-alive, with its heartbeat.
    KeepAlive {
        /// The heartbeat.
        form: Form,
    },
}

/// The byte with which a PDU begins (AES70-3): 3B in hexadecimal.
pub const SYNC: u8 = 0x3B;

/// The number of bytes of a PDU before its messages: sync, ProtocolVersion, PduSize, PduType and MessageCount
/// (AES70-3).
pub const HEADER_BYTES: usize = 10;

/// The number of bytes of a command before its parameters (AES70-3).
pub const COMMAND_BYTES: usize = 17;

/// The number of bytes of a response before its parameters (AES70-3).
pub const RESPONSE_BYTES: usize = 10;

/// The kind of the messages of a PDU, if they are not a keep-alive (AES70-3).
#[derive(Clone, Copy, Debug)]
pub enum Kind {
    /// Commands that ask for no response, PduType 0.
    Command,
    /// Commands that ask for a response, PduType 1.
    CommandWithResponse,
    /// Responses, PduType 3.
    Response,
}

/// What a PDU contains, by its PduType (AES70-3).
#[derive(Clone, Copy)]
pub enum Content {
    /// Messages of one kind, one or more.
    Messages(Kind),
    /// One keep-alive, PduType 4.
    KeepAlive,
}
