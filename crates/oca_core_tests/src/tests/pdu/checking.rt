//! What `check` says of bytes.
use oca_pdu::check;

/// The number and the place of the fault, or zeros.
pub fn refusal(bytes: &[u8]) -> (u8, u16) {
    match check(bytes) {
        Ok(_) => (0, 0),
        Err(fault) => (fault.kind.number(), fault.at),
    }
}

/// How many messages a datagram has, or none where it is refused.
pub fn messages_in(bytes: &[u8]) -> usize {
    match check(bytes) {
        Ok(datagram) => datagram.messages().count(),
        Err(_) => 0,
    }
}
