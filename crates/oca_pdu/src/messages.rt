//! Going through the messages of a datagram.
ghost use Rattle.std.specs.Prelude.{IsTrue, is_ok, length};
ghost use Rattle.oca_pdu.specs.Reading.{messages_at, pdus_at};

use crate::fields;
use crate::message::{Content, Form, Kind, Message};

/// An iterator over the messages of a datagram that are not returned yet, in their order (AES70-3). It makes no check
/// again.
#[derive(Debug, Drop)]
pub struct Messages<'a> {
    kind: Kind,
    left: u16,
    inside: &'a [u8],
    rest: &'a [u8],
    ghost messages: { IsTrue (is_ok (messages_at kind left 0 0 inside.now)) },
    ghost pdus: { IsTrue (is_ok (pdus_at (length rest.now) 0 rest.now)) },
}

impl<'a> Messages<'a> {
    ghost use Rattle.std.specs.Prelude.{◌≡◌, ◌<◌, ◌∷◌, IfNone, IfSome, IsTrue, is_ok, length};
    ghost use Rattle.oca_pdu.specs.Messages.{msg_of};
    ghost use Rattle.oca_pdu.specs.Reading.{pdus_at, read_datagram};
    ghost use Rattle.oca_pdu.specs.Datagrams.{messages_left, read_or_none};
    ghost use Rattle.oca_pdu.specs.Limits.{IsWithinLimits};

    /// At the first message of a well-formed datagram.
    #[tactic(auto, unfolding(crate::specs::Reading::read_datagram, crate::specs::Reading::messages_at))]
    pub(crate) fn start(bytes: &'a [u8]) -> Messages<'a>
        requires { IsTrue (is_ok (read_datagram bytes.now)) }
        ensures all { messages_left result ≡ read_or_none (read_datagram bytes.now) }
        ensures limits { IsWithinLimits (read_or_none (read_datagram bytes.now)) }
    {
        Messages {
            kind: Kind::Command,
            left: 0,
            inside: &[],
            rest: bytes,
        }
    }

    /// Begins the next PDU. Of messages none is taken yet; a keep-alive is passed, and its time is returned.
    fn begin(&mut self) -> Option<Form>
        requires ended { self.old.left ≡ 0 }
        requires some { 0 < length self.old.rest.now }
        ensures begun { IfNone result (0 < self.new.left) }
        ensures messages { IfNone result (messages_left self.old ≡ messages_left self.new) }
        ensures keep_alive { IfSome result
            (λ form. messages_left self.old ≡ msg_of (Message.KeepAlive form) ∷ messages_left self.new) }
    {
        let size = fields::u32_in(&self.rest[3..7]) as usize;
        let (pdu, rest) = self.rest.split_at(1 + size);
        let Some(content) = fields::content(pdu[7]) else {
            unreachable!()
        };
        self.rest = rest;
        match content {
            Content::Messages(kind) => {
                self.kind = kind;
                self.left = fields::u16_in(&pdu[8..10]);
                self.inside = &pdu[10..];
                None
            }
            Content::KeepAlive => Some(fields::read_form(&pdu[10..])),
        }
    }

    /// Takes the first message of the PDU that was begun.
    fn take_first(&mut self) -> Message<'a>
        requires some { 0 < self.old.left }
        ensures { messages_left self.old ≡ msg_of result ∷ messages_left self.new }
    {
        let size = fields::u32_in(&self.inside[..4]) as usize;
        let (first, others) = self.inside.split_at(size);
        self.left -= 1;
        self.inside = others;
        fields::read_message(self.kind, first)
    }
}

impl<'a> Iterator for Messages<'a> {
    ghost use Rattle.std.specs.Iterator.{YieldsFirstBy, item_count};
    ghost use Rattle.oca_pdu.specs.Messages.{msg_of};
    ghost use Rattle.oca_pdu.specs.Datagrams.{messages_left};

    type Item = Message<'a>;

    ghost next_gives = { YieldsFirstBy msg_of messages_left };

    ghost remaining = { item_count messages_left };

    /// Returns the next message, and `None` after the last message.
    #[inline(always)]
    fn next(&mut self) -> Option<Message<'a>> {
        if self.left == 0 {
            if self.rest.is_empty() {
                return None;
            }
            if let Some(form) = self.begin() {
                return Some(Message::KeepAlive { form });
            }
        }
        Some(self.take_first())
    }
}
