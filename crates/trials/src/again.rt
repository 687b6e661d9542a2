//! Datagrams that are read, and written again.
use crate::fields::bytes_of;
use crate::lines::Told;
use oca_pdu::{Message, Messages, PduFault, check, write_command, write_keepalive};
use oca_types::Packet;
use std::alloc::Global;

/// The line of a datagram with this text: its fault, or what the writer writes for its only message.
pub fn put_again(alloc: Global, out: &mut Told, text: &[u8]) {
    let Some(bytes) = bytes_of(alloc, text) else {
        return out.refuse();
    };
    let again = written_again(bytes.as_slice());
    drop(bytes);
    match again {
        Ok(packet) => {
            out.put("again ");
            out.put_bytes(alloc, packet.as_slice());
        }
        Err(fault) => out.put_malformed(fault),
    }
}

/// What the writer writes for the only message of a datagram, or nothing where it has several or a response.
fn written_again(bytes: &[u8]) -> Result<Packet, PduFault> {
    match check(bytes) {
        Ok(datagram) => Ok(only_message(datagram.messages())),
        Err(fault) => Err(fault),
    }
}

/// What the writer writes for the only one of these messages.
fn only_message(messages: Messages<'_>) -> Packet {
    let mut messages = messages;
    let mut packet = Packet::new();
    let first = messages.next();
    if messages.next().is_none() {
        write(&mut packet, first);
    }
    packet
}

/// Writes a message that is a command or a keep-alive.
fn write(packet: &mut Packet, message: Option<Message<'_>>) {
    match message {
        Some(Message::Command { respond, command }) => {
            let _ = write_command(packet, respond, &command);
        }
        Some(Message::KeepAlive { form }) => {
            let _ = write_keepalive(packet, form);
        }
        _ => {}
    }
}
