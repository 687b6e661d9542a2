//! Datagrams on their way.
use oca_types::{Packet, Peer};
use std::marker::Model;

/// A datagram that was sent, from a link to the device or from the device to a link.
#[derive(Debug, Drop)]
pub struct Sent {
    /// The address and port of the link: the sender of a datagram to the device, and the receiver of a datagram to a
    /// link.
    pub peer: Peer,
    /// The bytes of the datagram: at most 1,472.
    pub bytes: Packet,
}

impl Model for Sent {
    ghost use Rattle.oca_pair.specs.Networks.{SentDatagram};

    ghost Value = { SentDatagram };

    ghost view = { λ s. record { peer = s.peer; bytes = s.bytes.items } };
}

impl Sent {
    ghost use Rattle.std.specs.Prelude.{◌≡◌, length, ◌≤◌};
    ghost use Rattle.oca_types.specs.Sizes.{largest_datagram};

    /// A datagram of these bytes, with the link of this peer at one end.
    pub(crate) fn new(peer: Peer, bytes: &[u8]) -> Sent
        requires { length bytes.now ≤ largest_datagram }
        ensures { result ≡ record { peer = peer; bytes = bytes.now } }
    {
        let mut packet = Packet::new();
        let _ = packet.try_extend_from_slice(bytes);
        Sent {
            peer,
            bytes: packet,
        }
    }

    /// The peer of the link.
    pub(crate) fn peer(&self) -> Peer
        ensures { result ≡ self.now.peer }
    {
        self.peer
    }

    /// Its bytes.
    pub(crate) fn bytes(&self) -> &[u8]
        ensures { result.now ≡ self.now.bytes }
    {
        self.bytes.as_slice()
    }
}
