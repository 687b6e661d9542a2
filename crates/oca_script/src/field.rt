//! The fields of a line.
ghost use Rattle.std.specs.Prelude.{◌≡◌, ◌+◌, ◌*◌, ◌≤◌, IfSome, OnSome, [], ◌∷◌, length};
ghost use Rattle.std.specs.Option.{option_copied};
ghost use Rattle.oca_script.specs.Fields.{number_of, moment_of, split_at, read_before, address_of, peer_of};
ghost use Rattle.oca_script.specs.Fields.{fields, fields_after, hex_of};
ghost use Rattle.oca_script.specs.FieldAnswers.{split_view, read_view, given_bytes};

use oca_types::Peer;

/// Returns the number that a text of 1 to `most` decimal digits gives. Leading zeros count as digits. The result is
/// `None` if the text is empty, has more than `most` bytes or a byte that is not a digit, or if the number is above
/// `largest`. The call takes no memory.
#[tactic(auto, unfolding(crate::specs::Fields::number_of, crate::specs::Fields::at_most), using(crate::proofs::FieldLemmas::number_rules))]
pub fn number(digits: &[u8], most: usize, largest: u64) -> Option<u64>
    ensures value { result ≡ number_of most largest digits.now }
    ensures bound { IfSome result (λ n. n ≤ largest) }
{
    if digits.is_empty() || digits.len() > most {
        return None;
    }
    let mut value: u64 = 0;
    for digit in digits {
        let digit = *digit;
        if digit < b'0' || digit > b'9' {
            return None;
        }
        let add = (digit - b'0') as u64;
        if value > (u64::MAX - add) / 10 {
            return None;
        }
        value = value * 10 + add;
    }
    if value <= largest { Some(value) } else { None }
}

/// Returns the number before the first byte `end` of a text, and the text after that byte. The number has 1 to `most`
/// decimal digits. The result is `None` if the text has no byte `end`, or the text before it is not such a number, or
/// the number is above `largest`. The call takes no memory.
pub fn number_before(text: &[u8], end: u8, most: usize, largest: u64) -> Option<(u64, &[u8])>
    ensures value { read_view result ≡ read_before (number_of most largest) end text.now }
    ensures bound { IfSome result (λ p. p.0 ≤ largest) }
    ensures within { IfSome result (λ p. length p.1.now ≤ length text.now) }
{
    let (digits, rest) = split_at_byte(text, end)?;
    Some((number(digits, most, largest)?, rest))
}

/// Returns the moment, in milliseconds, that a text of 1 to 20 decimal digits gives. The result is `None` if the text
/// is anything else, or the number does not fit 64 bits. The call takes no memory.
pub fn moment(text: &[u8]) -> Option<u64>
    ensures { result ≡ moment_of text.now }
{
    number(text, 20, u64::MAX)
}

/// Returns the text before the first byte `separator`, and the text after that byte. Both can be empty. The result is
/// `None` if the text has no such byte. Nothing is copied, and no memory is taken.
pub fn split_at_byte(text: &[u8], separator: u8) -> Option<(&[u8], &[u8])>
    ensures value { split_view result ≡ split_at separator text.now }
    ensures within { IfSome result (λ p. length p.0.now + length p.1.now + 1 ≡ length text.now) }
{
    match memchr::memchr(separator, text) {
        Some(i) => Some((&text[..i], &text[i + 1..])),
        None => None,
    }
}

/// Returns the text before its first space, and the text after that space. If the text has no space, the whole text is
/// the first part, and the second part is `None`. Both can be empty. Nothing is copied, and no memory is taken.
#[tactic(auto, using(crate::proofs::FieldLemmas::field_rules))]
pub fn first_field(text: &[u8]) -> (&[u8], Option<&[u8]>)
    ensures value { fields text.now ≡ result.0.now ∷ fields_after (option_copied result.1) }
    ensures first_within { length result.0.now ≤ length text.now }
    ensures rest_within { IfSome result.1 (λ rest. length rest.now ≤ length text.now) }
{
    match split_at_byte(text, b' ') {
        Some((field, rest)) => (field, Some(rest)),
        None => (text, None),
    }
}

/// Returns the IPv4 address that a text `a.b.c.d` gives, as a number with `a` in the highest byte. The four decimal
/// numbers have 1 to 3 digits each, and are at most 255. The result is `None` if the text is anything else. The call
/// takes no memory.
#[tactic(auto, unfolding(crate::specs::Fields::address_of))]
pub fn address(text: &[u8]) -> Option<u32>
    ensures { result ≡ address_of text.now }
{
    let (a, rest) = number_before(text, b'.', 3, 255)?;
    let (b, rest) = number_before(rest, b'.', 3, 255)?;
    let (c, rest) = number_before(rest, b'.', 3, 255)?;
    let d = number(rest, 3, 255)?;
    Some((((a * 256 + b) * 256 + c) * 256 + d) as u32)
}

/// Returns the peer that a text `a.b.c.d:port` gives. The four decimal numbers have 1 to 3 digits each, and are at most
/// 255. The port has 1 to 5 digits, and is at most 65,535. The result is `None` if the text is anything else. The call
/// takes no memory.
#[tactic(auto, unfolding(crate::specs::Fields::peer_of))]
pub fn peer(text: &[u8]) -> Option<Peer>
    ensures { result ≡ peer_of text.now }
{
    let (ip, port) = split_at_byte(text, b':')?;
    Some(Peer {
        ip: address(ip)?,
        port: number(port, 5, 65535)? as u16,
    })
}

/// Returns the peer `a.b.c.d:port` before the first space of a text, and the text after that space. The numbers are as
/// in [`peer`]. The result is `None` if the text has no space, or the text before it is not such a peer. The call takes
/// no memory.
pub fn peer_before(text: &[u8]) -> Option<(Peer, &[u8])>
    ensures value { read_view result ≡ read_before peer_of 32 text.now }
    ensures within { IfSome result (λ p. length p.1.now ≤ length text.now) }
{
    let (first, rest) = split_at_byte(text, b' ')?;
    Some((peer(first)?, rest))
}

/// Returns the bytes that a field of a line gives: none for `-`, otherwise one byte for each two hexadecimal digits, of
/// either case. The bytes are written to the front of `room`, which must have at least half as many bytes as the text
/// (a premise, which the caller must prove). The result is `None` if the text is anything else, also if it is empty;
/// discard what `room` contains then. The call takes no memory.
#[tactic(auto, unfolding(crate::specs::Fields::hex_of), using(crate::proofs::HexLemmas::hex_field_rules))]
pub fn hex_bytes<'a>(text: &[u8], room: &'a mut [u8]) -> Option<&'a [u8]>
    requires { length text.now ≤ 2 * length room.old }
    ensures value { given_bytes result ≡ hex_of text.now }
    ensures within { IfSome result (λ bytes. length bytes.now ≤ length room.old) }
    ensures field { OnSome result (fields text.now ≡ text.now ∷ []) }
{
    if text == b"-".as_slice() {
        return Some(&room[..0]);
    }
    if text.is_empty() {
        return None;
    }
    let count = text.len() / 2;
    if hex::decode_to_slice(text, &mut room[..count]).is_err() {
        return None;
    }
    Some(&room[..count])
}
