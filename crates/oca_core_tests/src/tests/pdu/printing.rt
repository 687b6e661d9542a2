//! What a fault prints.
use crate::tests::{Row, Said, Words};
use oca_pdu::{PduFaultKind, WriteFault, check};

/// A check that fails, its number and its words.
pub struct Kind(PduFaultKind, u8, &'static str);

impl Row for Kind {
    /// Whether it has the number, and prints the words.
    fn agrees(&self, said: &mut Said) -> bool {
        said.same(self.0.number(), self.1) && said.prints(&self.0, self.2)
    }
}

pub const KINDS: &[Kind] = rows! {
    Kind(PduFaultKind::Empty, 1, "no bytes"),
    Kind(PduFaultKind::TooLong, 2, "too many bytes"),
    Kind(PduFaultKind::Sync, 3, "no sync byte 3B"),
    Kind(PduFaultKind::Version, 4, "ProtocolVersion is not 1"),
    Kind(PduFaultKind::PduSize, 5, "PduSize is below 11"),
    Kind(PduFaultKind::PduType, 6, "PduType is not 0, 1, 3 or 4"),
    Kind(PduFaultKind::Count, 7, "MessageCount is wrong"),
    Kind(PduFaultKind::MessageSize, 8, "a message has a wrong size"),
    Kind(PduFaultKind::Truncated, 9, "the datagram ends within a field or a PDU"),
};

/// Bytes that are refused, and the words.
pub struct Told(&'static [u8], &'static str);

impl Row for Told {
    /// Whether they are refused with these words.
    fn agrees(&self, said: &mut Said) -> bool {
        match check(self.0) {
            Ok(_) => false,
            Err(fault) => said.prints(&fault, self.1),
        }
    }
}

/// A fault is printed with its place.
pub const PLACES: &[Told] = rows! {
    Told(&[0x3B, 0], "the datagram ends within a field or a PDU, at offset 1"),
};

pub const OF_WRITES: &[Words<WriteFault>] = rows! {
    Words(WriteFault::TooLong, "the packet would pass 1,472 bytes"),
};
