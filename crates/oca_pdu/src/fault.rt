//! Why a datagram is refused, and why a PDU could not be written.
ghost use Rattle.std.specs.Prelude.{◌≡◌};
ghost use Rattle.oca_pdu.specs.Faults.{fault_number};

use std::fmt::{self, Display, Formatter};
use thiserror::Error;

/// The check at which a datagram failed.
#[derive(Clone, Copy, Debug, PartialEq, Eq)]
pub enum PduFaultKind {
    /// The datagram has no bytes.
    Empty = 1,
    /// The datagram has more than 1,472 bytes, or more than a device takes that has little room.
    TooLong = 2,
    /// A PDU does not begin with the byte 3B (hexadecimal).
    Sync = 3,
    /// ProtocolVersion of a PDU is not 1.
    Version = 4,
    /// PduSize of a PDU is below 11.
    PduSize = 5,
    /// PduType of a PDU is not 0, 1, 3 or 4.
    PduType = 6,
    /// MessageCount is 0, or is not 1 in a PDU of a keep-alive, or is not the number of messages of its PDU.
    Count = 7,
    /// The size of a message is below 17 (command) or 10 (response), or the message ends after its PDU. Or a keep-alive
    /// has not 2 or 4 bytes.
    MessageSize = 8,
    /// The datagram ends within a field of a PDU's header, or before the end of a PDU.
    Truncated = 9,
}

impl PduFaultKind {
    /// Returns the number of the fault: from 1 for `Empty` to 9 for `Truncated`. Each kind has a number of its own.
    pub fn number(self) -> u8
        ensures { result ≡ fault_number self }
    {
        self as u8
    }

    /// This fault at an offset.
    pub(crate) fn at(self, at: u16) -> PduFault
        ensures { result ≡ record { kind = self; at = at } }
    {
        PduFault { kind: self, at }
    }
}

impl Display for PduFaultKind {
    /// Writes the fault in words.
    fn fmt<W: fmt::Write>(&self, f: &mut Formatter<W>) -> fmt::Result {
        f.write_str(match self {
            PduFaultKind::Empty => "no bytes",
            PduFaultKind::TooLong => "too many bytes",
            PduFaultKind::Sync => "no sync byte 3B",
            PduFaultKind::Version => "ProtocolVersion is not 1",
            PduFaultKind::PduSize => "PduSize is below 11",
            PduFaultKind::PduType => "PduType is not 0, 1, 3 or 4",
            PduFaultKind::Count => "MessageCount is wrong",
            PduFaultKind::MessageSize => "a message has a wrong size",
            PduFaultKind::Truncated => "the datagram ends within a field or a PDU",
        })
    }
}

impl std::error::Error for PduFaultKind {}

/// Why a datagram is refused: the first check that fails, and the offset in bytes where it fails.
#[derive(Clone, Copy, Debug, PartialEq, Eq, Error)]
#[error("{kind}, at offset {at}")]
pub struct PduFault {
    /// The check that failed.
    pub kind: PduFaultKind,
    /// The offset in bytes from the start of the datagram: 0 to 1,472.
    pub at: u16,
}

/// Why a PDU was not appended to a packet, which is then unchanged. The number is promised.
#[derive(Clone, Copy, Debug, PartialEq, Eq, Error)]
pub enum WriteFault {
    /// The packet would have more than 1,472 bytes.
    #[error("the packet would pass 1,472 bytes")]
    TooLong = 1,
}

const _: () = prove!(WriteFault::TooLong as u8 == 1);
