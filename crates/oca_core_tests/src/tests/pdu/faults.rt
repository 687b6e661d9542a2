//! What is refused, and where; and the most messages that a datagram has.
use super::checking::{messages_in, refusal};
use super::examples::{GET_STATE, MUTED, ONE_SECOND, TWO_COMMANDS};
use crate::tests::device::parts::Part::{Bytes, Changed, Front, Times};
use crate::tests::device::parts::{Part, bytes_of};
use crate::tests::{Row, Said};

/// The parts of bytes that are refused, and the number and the place of the first fault.
pub struct Refused(&'static [Part], u8, u16);

impl Row for Refused {
    /// Whether they are refused so.
    fn agrees(&self, said: &mut Said) -> bool {
        said.same(refusal(bytes_of(self.0).as_slice()), (self.1, self.2))
    }
}

/// Each malformed example has its first fault at its place.
pub const WORKED_EXAMPLES: &[Refused] = &[
    Refused(&[], 1, 0),
    Refused(&[Changed(GET_STATE, 0, &[0x3A])], 3, 0),
    Refused(&[Bytes(GET_STATE), Bytes(&[0])], 3, 27),
    Refused(&[Changed(GET_STATE, 1, &[0, 2])], 4, 1),
    Refused(&[Bytes(&[0x3B, 0])], 9, 1),
    Refused(&[Changed(GET_STATE, 3, &[0, 0, 0, 10])], 5, 3),
    Refused(&[Changed(GET_STATE, 3, &[0, 0, 0, 27])], 9, 3),
    Refused(&[Front(GET_STATE, 26)], 9, 3),
    Refused(&[Changed(GET_STATE, 7, &[2])], 6, 7),
    Refused(&[Changed(GET_STATE, 8, &[0, 0])], 7, 8),
    Refused(&[Changed(GET_STATE, 8, &[0, 2])], 7, 8),
    Refused(&[Changed(GET_STATE, 3, &[0, 0, 0, 27]), Bytes(&[0])], 7, 8),
    Refused(&[Changed(GET_STATE, 10, &[0, 0, 0, 16])], 8, 10),
    Refused(&[Changed(GET_STATE, 10, &[0, 0, 0, 18])], 8, 10),
    Refused(&[Changed(GET_STATE, 7, &[4])], 8, 10),
    Refused(&[Changed(ONE_SECOND, 8, &[0, 2])], 7, 8),
    Refused(
        &[Changed(ONE_SECOND, 3, &[0, 0, 0, 12]), Bytes(&[0])],
        8,
        10,
    ),
];

/// The largest number in each field of a command that is refused there.
pub const LARGEST: &[Refused] = &[
    Refused(&[Changed(GET_STATE, 8, &[0xFF, 0xFF])], 7, 8),
    Refused(&[Changed(GET_STATE, 3, &[0xFF, 0xFF, 0xFF, 0xFF])], 9, 3),
    Refused(&[Changed(GET_STATE, 10, &[0xFF, 0xFF, 0xFF, 0xFF])], 8, 10),
    // a second PDU that is cut off, and a byte more than a datagram may have
    Refused(&[Bytes(GET_STATE), Front(ONE_SECOND, 11)], 9, 30),
    Refused(
        &[Bytes(COMMANDS_HEAD), Times(86, ONE_COMMAND), Bytes(&[0])],
        2,
        1472,
    ),
];

/// A header of 86 commands, and they.
const COMMANDS_HEAD: &[u8] = &[0x3B, 0, 1, 0, 0, 0x05, 0xBF, 1, 0, 86];

const ONE_COMMAND: &[u8] = &[0, 0, 0, 17, 0, 0, 0, 9, 0, 0, 0x10, 1, 0, 4, 0, 1, 0];

/// The parts of bytes, how many bytes they are, and how many messages these have.
pub struct Accepted(&'static [Part], usize, usize);

impl Row for Accepted {
    /// Whether they are so many, with so many messages.
    fn agrees(&self, said: &mut Said) -> bool {
        let bytes = bytes_of(self.0);
        said.same(bytes.len(), self.1) && said.same(messages_in(bytes.as_slice()), self.2)
    }
}

pub const ACCEPTED: &[Accepted] = &[
    Accepted(&[Changed(GET_STATE, 26, &[5])], 27, 1),
    Accepted(&[Bytes(TWO_COMMANDS)], 44, 2),
    Accepted(&[Bytes(COMMANDS_HEAD), Times(86, ONE_COMMAND)], 1472, 86),
    Accepted(&[Bytes(GET_STATE), Bytes(ONE_SECOND), Bytes(MUTED)], 60, 3),
];
