//! Checking a datagram from left to right.
ghost use Rattle.std.specs.Prelude.{◌≡◌, ◌+◌, ◌≤◌, ◌<◌, List, length, IfOk, IfErr, IsOkAnd, MatchResult, Ok, Err};
ghost use Rattle.std.specs.List.{flat_map};
ghost use Rattle.oca_types.specs.Sizes.{largest_datagram};
ghost use Rattle.oca_pdu.specs.Messages.{Pdu, messages_of};
ghost use Rattle.oca_pdu.specs.Encoding.{IsDatagram};
ghost use Rattle.oca_pdu.specs.FirstFault.{IsFirstFault};
ghost use Rattle.oca_pdu.specs.Reading.{read_datagram, pdus_at, pdu_at, inside_at, keep_alive_at, messages_at};
ghost use Rattle.oca_pdu.specs.Reading.{message_at};
ghost use Rattle.oca_pdu.specs.Datagrams.{datagram_messages};
ghost use Rattle.oca_pdu.specs.Checking.{Agrees, Leaves};

use crate::datagram::Datagram;
use crate::fault::{PduFault, PduFaultKind};
use crate::fields;
use crate::message::{Content, HEADER_BYTES, Kind, SYNC};
use oca_types::MOST_BYTES;

/// What is after the message at `at`, with which the bytes begin. Refusal: `MessageSize`.
#[tactic(auto, unfolding(crate::specs::Reading::message_at))]
fn check_message(kind: Kind, at: u16, bytes: &[u8]) -> Result<&[u8], PduFault>
    ensures exact { Leaves (λ x. x.now) result (message_at kind at bytes.now) }
    ensures shorter { IfOk result (λ x. length x.now < length bytes.now) }
{
    let wrong_size = PduFaultKind::MessageSize.at(at);
    if bytes.len() < 4 {
        return Err(wrong_size);
    }
    let size = fields::u32_in(&bytes[..4]) as usize;
    if size < fields::least(kind) || bytes.len() < size {
        return Err(wrong_size);
    }
    Ok(&bytes[size..])
}

/// Checks the messages of the PDU at `pdu`, which are to be `count` and all of the bytes. Refusals: `Count`,
/// `MessageSize`.
fn check_messages(kind: Kind, count: u16, pdu: u16, bytes: &[u8]) -> Result<(), PduFault>
    requires { pdu + 10 + length bytes.now ≤ largest_datagram }
    ensures { Agrees result (messages_at kind count pdu (pdu + 10) bytes.now) }
{
    let wrong_count = PduFaultKind::Count.at(pdu + 8);
    let mut rest = bytes;
    for _ in 0..count {
        if rest.is_empty() {
            return Err(wrong_count);
        }
        let at = pdu + 10 + (bytes.len() - rest.len()) as u16;
        rest = check_message(kind, at, rest)?;
    }
    if rest.is_empty() {
        Ok(())
    } else {
        Err(wrong_count)
    }
}

/// Checks the keep-alive of the PDU at `pdu`, which is all of the bytes. Refusal: `MessageSize`.
#[tactic(auto, unfolding(crate::specs::Reading::keep_alive_at))]
fn check_keep_alive(pdu: u16, bytes: &[u8]) -> Result<(), PduFault>
    requires { pdu + 10 ≤ largest_datagram }
    ensures { Agrees result (keep_alive_at pdu bytes.now) }
{
    match bytes.len() {
        2 | 4 => Ok(()),
        _ => Err(PduFaultKind::MessageSize.at(pdu + 10)),
    }
}

/// Checks PduType, MessageCount and the messages of the PDU at `pdu`, which is all of the bytes.
#[tactic(auto, unfolding(crate::specs::Reading::inside_at, crate::specs::Reading::content_at))]
fn check_inside(pdu: u16, bytes: &[u8]) -> Result<(), PduFault>
    requires least { 12 ≤ length bytes.now }
    requires fits { pdu + length bytes.now ≤ largest_datagram }
    ensures { Agrees result (inside_at pdu bytes.now) }
{
    let Some(content) = fields::content(bytes[7]) else {
        return Err(PduFaultKind::PduType.at(pdu + 7));
    };
    let count = fields::u16_in(&bytes[8..10]);
    let body = &bytes[HEADER_BYTES..];
    let wrong_count = PduFaultKind::Count.at(pdu + 8);
    match content {
        Content::Messages(_) if count == 0 => Err(wrong_count),
        Content::Messages(kind) => check_messages(kind, count, pdu, body),
        Content::KeepAlive if count != 1 => Err(wrong_count),
        Content::KeepAlive => check_keep_alive(pdu, body),
    }
}

/// What is after the PDU at `pdu`, with which the bytes begin. Refuses it at the first check that fails.
#[tactic(auto, unfolding(crate::specs::Reading::pdu_at), using(crate::proofs::Agreeing::passes_on))]
fn check_pdu(pdu: u16, bytes: &[u8]) -> Result<&[u8], PduFault>
    requires some { 0 < length bytes.now }
    requires fits { pdu + length bytes.now ≤ largest_datagram }
    ensures exact { Leaves (λ x. x.now) result (pdu_at pdu bytes.now) }
    ensures shorter { IfOk result (λ x. length x.now < length bytes.now) }
{
    if bytes[0] != SYNC {
        return Err(PduFaultKind::Sync.at(pdu));
    }
    if bytes.len() < 3 {
        return Err(PduFaultKind::Truncated.at(pdu + 1));
    }
    if fields::u16_in(&bytes[1..3]) != 1 {
        return Err(PduFaultKind::Version.at(pdu + 1));
    }
    if bytes.len() < 7 {
        return Err(PduFaultKind::Truncated.at(pdu + 3));
    }
    let size = fields::u32_in(&bytes[3..7]) as usize;
    if size < 11 {
        return Err(PduFaultKind::PduSize.at(pdu + 3));
    }
    if bytes.len() < 1 + size {
        return Err(PduFaultKind::Truncated.at(pdu + 3));
    }
    let (inside, rest) = bytes.split_at(1 + size);
    check_inside(pdu, inside)?;
    Ok(rest)
}

/// Checks the PDUs that are all of the bytes, from left to right. Each has a byte at least, so that they end before the
/// loop does.
fn check_pdus(bytes: &[u8]) -> Result<(), PduFault>
    requires { length bytes.now ≤ largest_datagram }
    ensures { Agrees result (pdus_at (length bytes.now) 0 bytes.now) }
{
    let mut rest = bytes;
    for _ in 0..bytes.len() {
        if rest.is_empty() {
            return Ok(());
        }
        let at = (bytes.len() - rest.len()) as u16;
        rest = check_pdu(at, rest)?;
    }
    Ok(())
}

/// Checks the number of bytes, and then the PDUs.
#[tactic(auto, unfolding(crate::specs::Reading::read_datagram))]
fn check_all(bytes: &[u8]) -> Result<(), PduFault>
    ensures { Agrees result (read_datagram bytes.now) }
{
    if bytes.is_empty() {
        return Err(PduFaultKind::Empty.at(0));
    }
    if bytes.len() > MOST_BYTES {
        return Err(PduFaultKind::TooLong.at(MOST_BYTES as u16));
    }
    check_pdus(bytes)
}

/// Checks that the bytes are a well-formed datagram of OCP.1, and returns them as its messages. A datagram is one or
/// more PDUs (AES70-3), together at most 1,472 bytes (*profile*). Nothing is copied: the result borrows `bytes`, and no
/// memory is taken. A refusal is a [`PduFault`]: the first check that fails, and the offset in bytes where it fails.
/// The checks come in this order (*profile*):
/// - The number of bytes: `Empty` for 0, `TooLong` above 1,472.
/// - For each PDU the fields of its header, in this order: sync (`Sync`), ProtocolVersion (`Version`), PduSize
///   (`PduSize`), PduType (`PduType`) and MessageCount (`Count`). The fault is `Truncated` if the bytes end within a
///   field of the header or before the end of the PDU.
/// - For each message of the PDU its size (`MessageSize`). `Count` if the messages are not as many as MessageCount
///   says.
pub fn check(bytes: &[u8]) -> Result<Datagram<'_>, PduFault>
    ensures found { IfOk result
        (λ d. (ps : List Pdu) × IsDatagram ps bytes.now × (datagram_messages d ≡ flat_map messages_of ps)) }
    ensures only { (ps : List Pdu) → IsDatagram ps bytes.now →
        IsOkAnd result (λ d. datagram_messages d ≡ flat_map messages_of ps) }
    ensures fault { IfErr result (λ f. IsFirstFault bytes.now f) }
    ensures reads { MatchResult result (λ d. read_datagram bytes.now ≡ Ok (datagram_messages d))
        (λ f. read_datagram bytes.now ≡ Err f) }
{
    check_all(bytes)?;
    Ok(Datagram { bytes })
}
