//! Responses that join the PDU before them.
ghost use Rattle.std.specs.Prelude.{IfSome};
ghost use Rattle.oca_pdu.specs.Writing.{HoldsResponses};

use super::checking::messages_in;
use crate::tests::answers::{Answer, reply};
use crate::tests::{Row, Said};
use oca_pdu::{WriteFault, extend_response, write_response};
use oca_types::{Handle, Packet, Reply, Status};

/// A packet with a PDU of one response, where it has room.
fn one_response(handle: Handle, reply: &Reply) -> Option<Packet>
    ensures { IfSome result (λ p. HoldsResponses p.items) }
{
    let mut packet = Packet::new();
    match write_response(&mut packet, handle, reply) {
        Ok(()) => Some(packet),
        Err(_) => None,
    }
}

/// One response more, where it has room.
fn one_more(packet: &mut Packet, handle: u32, reply: &Reply) -> Result<(), WriteFault>
    requires { HoldsResponses packet.old.items }
    ensures { HoldsResponses packet.new.items }
{
    extend_response(packet, Handle(handle), reply)
}

/// A PDU of one response under handle 1, another one under handle 2 and what adding it answers, the first bytes of the
/// packet then, how many they are, and how many messages.
pub struct Joins(
    Answer,
    Answer,
    Result<(), WriteFault>,
    &'static [u8],
    usize,
    usize,
);

impl Row for Joins {
    /// Whether it is answered so, and the packet is so.
    fn agrees(&self, said: &mut Said) -> bool {
        let (one, two) = (self.0, self.1);
        let first = reply(one.status, one.count, one.params);
        let second = reply(two.status, two.count, two.params);
        let Some(mut packet) = one_response(Handle(1), &first) else {
            return false;
        };
        said.same(one_more(&mut packet, 2, &second), self.2)
            && packet.as_slice().starts_with(self.3)
            && said.same(packet.len(), self.4)
            && said.same(messages_in(packet.as_slice()), self.5)
    }
}

/// A reply of one parameter, these bytes.
macro_rules! one {
    ($params:expr) => { Answer { status: Status::Ok, count: 1, params: $params } };
}

/// The PDU of two answers, each of one byte.
const TWO: &[u8] = &[
    0x3B, 0, 1, 0, 0, 0, 0x1F, 3, 0, 2, 0, 0, 0, 0x0B, 0, 0, 0, 1, 0, 1, 1, 0, 0, 0, 0x0B, 0, 0, 0,
    2, 0, 1, 1,
];

/// A response joins the PDU before it, up to exactly 1,472 bytes.
pub const JOINED: &[Joins] = rows! {
    Joins(one!(&[1]), one!(&[1]), Ok(()), TWO, 32, 2),
    Joins(one!(&[7; 700]), one!(&[8; 743]), Err(WriteFault::TooLong), &[0x3B, 0, 1, 0, 0, 0x02, 0xCF, 3, 0, 1], 720, 1),
    Joins(one!(&[7; 700]), one!(&[8; 742]), Ok(()), &[0x3B, 0, 1, 0, 0, 0x05, 0xBF, 3, 0, 2], 1472, 2),
};
