//! Peers as text.
use crate::tests::{Row, Said};
use oca_types::Peer;
use std::net::SocketAddrV4;

/// A peer, its address as four numbers, and its text.
pub struct IsPeer(Peer, [u8; 4], &'static str);

pub const PEERS: &[IsPeer] = rows! {
    IsPeer(Peer { ip: 0x7F00_0001, port: 65_000 }, [127, 0, 0, 1], "127.0.0.1:65000"),
    IsPeer(Peer { ip: 0xC0A8_0A02, port: 9 }, [192, 168, 10, 2], "192.168.10.2:9"),
    IsPeer(Peer { ip: 0, port: 0 }, [0, 0, 0, 0], "0.0.0.0:0"),
    IsPeer(Peer { ip: 0xFFFF_FFFF, port: 0xFFFF }, [255, 255, 255, 255], "255.255.255.255:65535"),
};

/// Whether the text names this peer.
fn reads(text: &str, peer: Peer, said: &mut Said) -> bool {
    match text.parse::<Peer>() {
        Ok(read) => said.same(read, peer),
        Err(_) => false,
    }
}

/// Whether a peer is that of these four numbers and its port, and of its own address.
fn is_at(peer: Peer, numbers: [u8; 4], said: &mut Said) -> bool {
    let address = SocketAddrV4::from(peer);
    said.same(Peer::from((numbers, peer.port)), peer) && said.same(Peer::from(address), peer)
}

impl Row for IsPeer {
    /// Whether the peer has these numbers, and this text.
    fn agrees(&self, said: &mut Said) -> bool {
        is_at(self.0, self.1, said) && said.prints(&self.0, self.2) && reads(self.2, self.0, said)
    }
}

/// A text that names no peer.
pub struct NoPeer(&'static str);

pub const NO_PEERS: &[NoPeer] = &[
    NoPeer(""),
    NoPeer("127.0.0.1"),
    NoPeer("127.0.0.1:"),
    NoPeer("127.0.0.1:65536"),
    NoPeer("127.0.0:1"),
    NoPeer("127.0.0.01:1"),
];

impl Row for NoPeer {
    /// Whether the text is not read.
    fn agrees(&self, said: &mut Said) -> bool {
        self.0.parse::<Peer>().is_err()
    }
}
