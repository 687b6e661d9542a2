//! The fields of a line.
use crate::tests::{Row, Said};
use oca_script::field::{
    address, first_field, hex_bytes, moment, number, number_before, peer, peer_before,
};
use oca_types::Peer;

const LOCAL: Peer = Peer {
    ip: 0x7f00_0001,
    port: 9001,
};

const LAST: Peer = Peer {
    ip: u32::MAX,
    port: 65_535,
};

/// A text, and the number of so many digits, at most so large, that it gives.
pub struct Number(&'static [u8], usize, u64, Option<u64>);

impl Row for Number {
    /// Whether it gives this.
    fn agrees(&self, said: &mut Said) -> bool {
        said.same(number(self.0, self.1, self.2), self.3)
    }
}

/// A text, and the moment that it gives.
pub struct Moment(&'static [u8], Option<u64>);

impl Row for Moment {
    /// Whether it gives this.
    fn agrees(&self, said: &mut Said) -> bool {
        said.same(moment(self.0), self.1)
    }
}

/// A text, and the peer that it gives.
pub struct OfPeer(&'static [u8], Option<Peer>);

impl Row for OfPeer {
    /// Whether it gives this.
    fn agrees(&self, said: &mut Said) -> bool {
        said.same(peer(self.0), self.1)
    }
}

/// A text, and the address that it gives.
pub struct Address(&'static [u8], Option<u32>);

impl Row for Address {
    /// Whether it gives this.
    fn agrees(&self, said: &mut Said) -> bool {
        said.same(address(self.0), self.1)
    }
}

/// A text, and the number of so many digits, at most so large, before a byte that is no digit, and what stands behind
/// that.
pub struct NumberBefore(&'static [u8], u8, usize, u64, Option<(u64, &'static [u8])>);

impl Row for NumberBefore {
    /// Whether such a number stands before the byte.
    fn agrees(&self, said: &mut Said) -> bool {
        let end = self.1;
        if end >= b'0' && end <= b'9' {
            return false;
        }
        said.same(number_before(self.0, end, self.2, self.3), self.4)
    }
}

/// A text, and the peer before a space in it, and what stands behind that.
pub struct PeerBefore(&'static [u8], Option<(Peer, &'static [u8])>);

impl Row for PeerBefore {
    /// Whether such a peer stands before the space.
    fn agrees(&self, said: &mut Said) -> bool {
        said.same(peer_before(self.0), self.1)
    }
}

/// A text, and the bytes that it stands for.
pub struct Hex(&'static [u8], Option<&'static [u8]>);

impl Row for Hex {
    /// Whether the text stands for these bytes, or for none.
    fn agrees(&self, said: &mut Said) -> bool {
        let mut room = [0u8; 2048];
        if self.0.len() > 4096 {
            return false;
        }
        match (hex_bytes(self.0, &mut room), self.1) {
            (Some(bytes), Some(wanted)) => said.same_text(bytes, wanted),
            (found, wanted) => said.same(found.is_some(), wanted.is_some()),
        }
    }
}

/// A line, and its fields.
pub struct Fields(&'static [u8], &'static [&'static [u8]]);

impl Row for Fields {
    /// Whether these are the fields of the line.
    fn agrees(&self, said: &mut Said) -> bool {
        let mut rest = Some(self.0);
        for field in self.1 {
            let Some(text) = rest else {
                return false;
            };
            let (first, behind) = first_field(text);
            if !said.same_text(first, field) {
                return false;
            }
            rest = behind;
        }
        rest.is_none()
    }
}

pub const NUMBERS: &[Number] = &[
    Number(b"0", 1, 255, Some(0)),
    Number(b"007", 3, 255, Some(7)),
    Number(b"255", 3, 255, Some(255)),
    Number(b"256", 3, 255, None),
    Number(b"0007", 3, 255, None),
    Number(b"", 3, 255, None),
    Number(b"+1", 3, 255, None),
    Number(b"1 ", 3, 255, None),
    Number(b"1:", 3, 255, None),
    Number(b"1/", 3, 255, None),
];

pub const MOMENTS: &[Moment] = &[
    Moment(b"18446744073709551615", Some(u64::MAX)),
    Moment(b"18446744073709551616", None),
    Moment(b"99999999999999999999", None),
    Moment(b"00000000000000000001", Some(1)),
    Moment(b"000000000000000000001", None),
];

pub const PEERS: &[OfPeer] = &[
    OfPeer(b"127.0.0.1:9001", Some(LOCAL)),
    OfPeer(b"127.000.0.001:09001", Some(LOCAL)),
    OfPeer(b"255.255.255.255:65535", Some(LAST)),
    OfPeer(b"127.0.0.256:9001", None),
    OfPeer(b"127.0.0.1:65536", None),
    OfPeer(b"127.0.0.1:009001", None),
    OfPeer(b"127.0.0.0001:9001", None),
    OfPeer(b"127.0.0.1", None),
    OfPeer(b"127.0.0.1:", None),
    OfPeer(b"127.0.1:9001", None),
    OfPeer(b"127.0.0.0.1:9001", None),
    OfPeer(b"127..0.1:9001", None),
    OfPeer(b"127.0.0.1:9001:1", None),
    OfPeer(b"", None),
];

pub const ADDRESSES: &[Address] = &[
    Address(b"127.0.0.1", Some(0x7f00_0001)),
    Address(b"255.1.002.3", Some(0xff01_0203)),
    Address(b"127.0.0.256", None),
    Address(b"127.0.0", None),
    Address(b"127.0.0.1.1", None),
    Address(b"127.0.0.1:1", None),
    Address(b"127.0.0.", None),
    Address(b"", None),
];

// A number and a peer with what stands after their separator.
pub const BEFORE: &[NumberBefore] = &[
    NumberBefore(b"07 x y", b' ', 2, 9, Some((7, b"x y"))),
    NumberBefore(
        b"18446744073709551615 ",
        b' ',
        20,
        u64::MAX,
        Some((u64::MAX, b"")),
    ),
    NumberBefore(b"18446744073709551616 ", b' ', 20, u64::MAX, None),
    NumberBefore(b" ", b' ', 20, u64::MAX, None),
    NumberBefore(b"1", b' ', 20, u64::MAX, None),
    NumberBefore(b"-1 ", b' ', 20, u64::MAX, None),
    NumberBefore(b"000000000000000000001 ", b' ', 20, u64::MAX, None),
    NumberBefore(b"256.", b'.', 3, 255, None),
];

pub const PEERS_BEFORE: &[PeerBefore] = &[
    PeerBefore(b"127.0.0.1:9001 3b 00", Some((LOCAL, b"3b 00"))),
    PeerBefore(b"127.0.0.1:9001", None),
    PeerBefore(b"127.0.0.1:65536 ", None),
    PeerBefore(b"127.0.0:1 ", None),
    PeerBefore(b"quiet ", None),
];

pub const HEXADECIMAL: &[Hex] = &[
    Hex(b"-", Some(b"")),
    Hex(b"3b00", Some(b"\x3b\x00")),
    Hex(b"fFAa", Some(b"\xff\xaa")),
    Hex(b"", None),
    Hex(b"3", None),
    Hex(b"3b0", None),
    Hex(b"--", None),
    Hex(b"3g", None),
    Hex(b" 3", None),
    Hex(b"3b-", None),
];

pub const FIELDS: &[Fields] = &[Fields(b"a  b", &[b"a", b"", b"b"])];
