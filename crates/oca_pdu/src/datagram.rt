//! A datagram whose bytes have been checked.
ghost use Rattle.std.specs.Prelude.{IsTrue, is_ok};
ghost use Rattle.oca_pdu.specs.Reading.{read_datagram};

use crate::messages::Messages;

/// A datagram of OCP.1 that [`check`](crate::check) found well-formed: a list of messages (AES70-3). It borrows the
/// bytes.
#[derive(Clone, Copy, Debug)]
pub struct Datagram<'a> {
    pub(crate) bytes: &'a [u8],
    ghost well_formed: { IsTrue (is_ok (read_datagram bytes.now)) },
}

impl<'a> Datagram<'a> {
    ghost use Rattle.std.specs.Prelude.{◌≡◌};
    ghost use Rattle.oca_pdu.specs.Datagrams.{datagram_messages, messages_left};
    ghost use Rattle.oca_pdu.specs.Limits.{IsWithinLimits};

    /// Returns an iterator over the messages of the datagram, in their order (AES70-3). Their parameters are slices of
    /// the datagram, so nothing is copied. There are from 1 to 146 messages. At most 86 of them are commands, and at
    /// most 122 are commands or keep-alives.
    pub fn messages(&self) -> Messages<'a>
        ensures all { messages_left result ≡ datagram_messages self.now }
        ensures limits { IsWithinLimits (messages_left result) }
    {
        Messages::start(self.bytes)
    }
}
