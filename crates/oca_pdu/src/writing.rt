//! Writing PDUs to a packet: behind what it holds, or in its place.
ghost use Rattle.std.specs.Prelude.{◌≡◌, ◌+◌, ◌^◌, ◌≤◌, ◌<◌, List, ◌∷◌, ◌++◌, ◌↔◌, [], length, take, drop, slice_index};
ghost use Rattle.std.specs.Prelude.{IsOk, OnOk, OnErr};
ghost use Rattle.std.specs.Int.{w16, w32};
ghost use Rattle.arrayvec.specs.ArrayVec.{array_vec_len};
ghost use Rattle.oca_types.specs.Numbers.{unsigned_encoding};
ghost use Rattle.oca_types.specs.Peers.{fields_of};
ghost use Rattle.oca_types.specs.Replies.{reply_in};
ghost use Rattle.oca_types.specs.Sizes.{largest_datagram, most_parameter_bytes};
ghost use Rattle.oca_pdu.specs.Messages.{ResponseFields, Pdu, Commands, Responses, OneKeepAlive, response_with};
ghost use Rattle.oca_pdu.specs.Encoding.{response_encoding, pdu_encoding, CommandFits, ResponseFits, FormFits};
ghost use Rattle.oca_pdu.specs.Encoding.{IsDatagram};
ghost use Rattle.oca_pdu.specs.Reading.{number_at};
ghost use Rattle.oca_pdu.specs.Writing.{AddsPdu, IsResponses, HoldsResponses, is_of_responses, responses_size};

use crate::fault::WriteFault;
use crate::fields;
use crate::message::{COMMAND_BYTES, Form, HEADER_BYTES, RESPONSE_BYTES, SYNC};
use oca_types::{Command, Handle, MOST_BYTES, Packet, Reply, ReplyParts, write_over};

/// Where a PDU has its PduType (AES70-3).
const PDU_TYPE_AT: usize = 7;

/// The PduType of a PDU of responses (AES70-3).
const RESPONSES: u8 = 3;

/// Appends bytes for which there is room. A single one is written without a call.
fn put(packet: &mut Packet, bytes: &[u8])
    requires { array_vec_len packet.old + length bytes.now ≤ largest_datagram }
    ensures { packet.new.items ≡ packet.old.items ++ bytes.now }
{
    if bytes.len() == 1 {
        packet.push(bytes[0]);
    } else {
        let _ = packet.try_extend_from_slice(bytes);
    }
}

/// Appends a PDU with one command to the packet (AES70-3). `respond` says whether the command asks for a response:
/// PduType is 1 if `respond` is true, and 0 if `respond` is false. The PDU has 27 bytes and the bytes of the
/// parameters. The only refusal is `TooLong`, if the packet would have more than 1,472 bytes; the packet is then
/// unchanged. The call sends nothing.
pub fn write_command(
    packet: &mut Packet,
    respond: bool,
    command: &Command,
) -> Result<(), WriteFault>
    ensures room { let pdu = Commands respond (fields_of command.now ∷ []) in
        IsOk result ↔ (length packet.old.items + length (pdu_encoding pdu) ≤ largest_datagram) }
    ensures ok { let pdu = Commands respond (fields_of command.now ∷ []) in
        OnOk result (packet.new.items ≡ packet.old.items ++ pdu_encoding pdu) }
    ensures adds { let pdu = Commands respond (fields_of command.now ∷ []) in
        OnOk result (AddsPdu pdu packet.old.items packet.new.items) }
    ensures err { OnErr result (packet.new ≡ packet.old) }
{
    let params = command.params;
    let room = MOST_BYTES - packet.len();
    if room < HEADER_BYTES + COMMAND_BYTES || room - (HEADER_BYTES + COMMAND_BYTES) < params.len() {
        return Err(WriteFault::TooLong);
    }
    put(packet, &command_front(respond, command));
    put(packet, params);
    Ok(())
}

/// The header of a PDU of this command, and the command up to its parameters.
fn command_front(respond: bool, command: &Command) -> [u8; 27]
    requires { length command.now.params.now ≤ largest_datagram }
    ensures bytes { result ++ command.now.params.now ≡ pdu_encoding (Commands respond (fields_of command.now ∷ [])) }
    ensures fits { CommandFits (fields_of command.now) }
{
    let size = COMMAND_BYTES as u32 + command.params.len() as u32;
    let [p0, p1, p2, p3] = (9 + size).to_be_bytes();
    let [s0, s1, s2, s3] = size.to_be_bytes();
    let [h0, h1, h2, h3] = command.handle.0.to_be_bytes();
    let [t0, t1, t2, t3] = command.target.0.to_be_bytes();
    let [l0, l1] = command.method.level.to_be_bytes();
    let [i0, i1] = command.method.index.to_be_bytes();
    let (pdu_type, count) = (respond as u8, command.count);
    [
        SYNC, 0, 1, p0, p1, p2, p3, pdu_type, 0, 1, s0, s1, s2, s3, h0, h1, h2, h3, t0, t1, t2, t3,
        l0, l1, i0, i1, count,
    ]
}

/// Appends a PDU with one response to the packet (AES70-3). `handle` is the handle of the command, and `reply` its
/// status, ParamCount and parameters. The PDU has 20 bytes and the bytes of the parameters. The only refusal is
/// `TooLong`, if the packet would have more than 1,472 bytes; the packet is then unchanged. The call sends nothing.
pub fn write_response(packet: &mut Packet, handle: Handle, reply: &Reply) -> Result<(), WriteFault>
    ensures room { let pdu = Responses (response_with handle reply.now ∷ []) in
        IsOk result ↔ (length packet.old.items + length (pdu_encoding pdu) ≤ largest_datagram) }
    ensures ok { let pdu = Responses (response_with handle reply.now ∷ []) in
        OnOk result (packet.new.items ≡ packet.old.items ++ pdu_encoding pdu) }
    ensures adds { let pdu = Responses (response_with handle reply.now ∷ []) in
        OnOk result (AddsPdu pdu packet.old.items packet.new.items) }
    ensures err { OnErr result (packet.new ≡ packet.old) }
{
    let reply = reply.parts();
    let params = reply.params;
    let room = MOST_BYTES - packet.len();
    let needed = HEADER_BYTES + RESPONSE_BYTES + params.len();
    if room < needed {
        return Err(WriteFault::TooLong);
    }
    put(packet, &response_front(handle, reply));
    put(packet, params);
    Ok(())
}

/// Replaces all bytes of the packet by a PDU with one response (AES70-3). `handle` is the handle of the command, and
/// `reply` its status, ParamCount and parameters. The packet then has 20 bytes and the bytes of the parameters, and is
/// a well-formed datagram. There is always room, since a reply has at most 1,452 bytes of parameters. The call sends
/// nothing.
#[inline(always)]
pub fn replace_response(packet: &mut Packet, handle: Handle, reply: &Reply)
    ensures bytes { packet.new.items ≡ pdu_encoding (Responses (response_with handle reply.now ∷ [])) }
    ensures datagram { IsDatagram (Responses (response_with handle reply.now ∷ []) ∷ []) packet.new.items }
{
    replace_response_of(packet, handle, reply.parts());
}

/// Replaces all bytes of the packet by a PDU with one response, as [`replace_response`] does, where the bytes of the
/// parameters lie elsewhere (AES70-3). They must be at most 1,452 (a premise, which the caller must prove). The call
/// sends nothing.
#[inline(always)]
pub fn replace_response_of(packet: &mut Packet, handle: Handle, reply: ReplyParts<'_>)
    requires { length reply.params.now ≤ most_parameter_bytes }
    ensures bytes { packet.new.items ≡ pdu_encoding (Responses (response_with handle (reply_in reply.entry) ∷ [])) }
    ensures datagram { IsDatagram (Responses (response_with handle (reply_in reply.entry) ∷ []) ∷ []) packet.new.items }
{
    if packet.len() == HEADER_BYTES + RESPONSE_BYTES + reply.params.len() {
        write_over_response(packet.as_mut_slice(), handle, reply);
    } else {
        write_anew(packet, handle, reply);
    }
}

/// Apart from `replace_response`, since `clear` overwrites what there was by a call: writes a PDU of one response in
/// the place of more bytes, or of fewer.
#[inline(never)]
fn write_anew(packet: &mut Packet, handle: Handle, reply: ReplyParts<'_>)
    requires { length reply.params.now ≤ most_parameter_bytes }
    ensures fits { ResponseFits (response_with handle (reply_in reply.entry)) }
    ensures bytes { packet.new.items ≡ pdu_encoding (Responses (response_with handle (reply_in reply.entry) ∷ [])) }
{
    packet.clear();
    put(packet, &response_front(handle, reply));
    put(packet, reply.params);
}

/// Writes a PDU of one response over as many bytes.
fn write_over_response(pdu: &mut [u8], handle: Handle, reply: ReplyParts<'_>)
    requires short { length reply.params.now ≤ most_parameter_bytes }
    requires length { length pdu.old ≡ 20 + length reply.params.now }
    ensures fits { ResponseFits (response_with handle (reply_in reply.entry)) }
    ensures bytes { pdu.new ≡ pdu_encoding (Responses (response_with handle (reply_in reply.entry) ∷ [])) }
{
    let (front, params) = pdu.split_at_mut(HEADER_BYTES + RESPONSE_BYTES);
    front.copy_from_slice(&response_front(handle, reply));
    write_over(params, reply.params);
}

/// A response up to its parameters.
fn response_head(handle: Handle, reply: ReplyParts<'_>) -> [u8; 10]
    requires { length reply.params.now ≤ most_parameter_bytes }
    ensures bytes { result ++ reply.entry.params.now ≡ response_encoding (response_with handle (reply_in reply.entry)) }
    ensures fits { ResponseFits (response_with handle (reply_in reply.entry)) }
{
    let (status, count) = (reply.status.number(), reply.count);
    let size = RESPONSE_BYTES as u32 + reply.params.len() as u32;
    let mut head = [0u8; 10];
    head[..4].copy_from_slice(&size.to_be_bytes());
    head[4..8].copy_from_slice(&handle.0.to_be_bytes());
    head[8] = status;
    head[9] = count;
    head
}

/// The header of a PDU of this response, and the response up to its parameters.
fn response_front(handle: Handle, reply: ReplyParts<'_>) -> [u8; 20]
    requires { length reply.params.now ≤ most_parameter_bytes }
    ensures bytes { result ++ reply.entry.params.now
        ≡ pdu_encoding (Responses (response_with handle (reply_in reply.entry) ∷ [])) }
    ensures fits { ResponseFits (response_with handle (reply_in reply.entry)) }
{
    let size = 19 + reply.params.len() as u32;
    let mut front = [
        SYNC, 0, 1, 0, 0, 0, 0, 3, 0, 1, 0, 0, 0, 0, 0, 0, 0, 0, 0, 0,
    ];
    front[3..7].copy_from_slice(&size.to_be_bytes());
    front[10..].copy_from_slice(&response_head(handle, reply));
    front
}

/// Sets PduSize in the header of a PDU, and raises its MessageCount by one.
fn raise_header(pdu: &mut [u8], size: u32)
    requires long { 10 ≤ length pdu.old }
    requires count { number_at w16 8 pdu.old + 1 < 2 ^ 16 }
    ensures { pdu.new ≡ take 3 pdu.old ++ unsigned_encoding w32 size
        ++ slice_index pdu.old 7 ∷ unsigned_encoding w16 (number_at w16 8 pdu.old + 1) ++ drop 10 pdu.old }
{
    let count = fields::u16_in(&pdu[8..10]) + 1;
    pdu[3..7].copy_from_slice(&size.to_be_bytes());
    pdu[8..10].copy_from_slice(&count.to_be_bytes());
}

/// Returns whether a packet that is exactly one PDU contains responses (PduType 3, AES70-3). [`extend_response`] can
/// then add a response. For any other packet, also an empty one, the result says nothing. The call does not check that
/// the packet is one PDU, and changes nothing.
#[inline(always)]
pub fn holds_responses(packet: &Packet) -> bool
    ensures { (p : Pdu) → packet.now.items ≡ pdu_encoding p → result ≡ is_of_responses p }
{
    packet.as_slice().get(PDU_TYPE_AT) == Some(&RESPONSES)
}

/// Adds a response to the packet, which must be exactly one PDU of responses (AES70-3; a premise, which the caller must
/// prove). [`holds_responses`] says whether a PDU is one of responses. Afterwards the packet is one PDU with all these
/// responses, the new one last. `handle` is the handle of the command, and `reply` its status, ParamCount and
/// parameters. The packet grows by 10 bytes and the bytes of the parameters. The only refusal is `TooLong`, if the
/// packet would have more than 1,472 bytes; the packet is then unchanged. The call sends nothing.
#[inline(always)]
pub fn extend_response(packet: &mut Packet, handle: Handle, reply: &Reply) -> Result<(), WriteFault>
    requires { HoldsResponses packet.old.items }
    ensures room { IsOk result
        ↔ (length packet.old.items + length (response_encoding (response_with handle reply.now)) ≤ largest_datagram) }
    ensures size { (rs : List ResponseFields) → IsResponses rs packet.old.items →
        (IsOk result ↔ (responses_size (rs ++ response_with handle reply.now ∷ []) ≤ largest_datagram)) }
    ensures ok { (rs : List ResponseFields) → IsResponses rs packet.old.items →
        OnOk result (IsResponses (rs ++ response_with handle reply.now ∷ []) packet.new.items) }
    ensures adds { (rs : List ResponseFields) → IsDatagram (Responses rs ∷ []) packet.old.items →
        OnOk result (IsDatagram (Responses (rs ++ response_with handle reply.now ∷ []) ∷ []) packet.new.items) }
    ensures err { OnErr result (packet.new ≡ packet.old) }
{
    extend_response_of(packet, handle, reply.parts())
}

/// Adds a response to the packet, as [`extend_response`] does, where the bytes of the parameters lie elsewhere
/// (AES70-3). The packet must be exactly one PDU of responses, and the reply must have at most 1,452 bytes of
/// parameters (premises, which the caller must prove). The only refusal is `TooLong`, if the packet would have more
/// than 1,472 bytes; the packet is then unchanged. The call sends nothing.
#[inline(always)]
pub fn extend_response_of(
    packet: &mut Packet,
    handle: Handle,
    reply: ReplyParts<'_>,
) -> Result<(), WriteFault>
    requires short { length reply.params.now ≤ most_parameter_bytes }
    requires holds { HoldsResponses packet.old.items }
    ensures room { IsOk result
        ↔ (length packet.old.items + length (response_encoding (response_with handle
        (reply_in reply.entry))) ≤ largest_datagram) }
    ensures size { (rs : List ResponseFields) → IsResponses rs packet.old.items →
        (IsOk result ↔ (responses_size (rs ++ response_with handle (reply_in reply.entry) ∷ []) ≤ largest_datagram)) }
    ensures ok { (rs : List ResponseFields) → IsResponses rs packet.old.items →
        OnOk result (IsResponses (rs ++ response_with handle (reply_in reply.entry) ∷ []) packet.new.items) }
    ensures adds { (rs : List ResponseFields) → IsDatagram (Responses rs ∷ []) packet.old.items →
        OnOk result (IsDatagram (Responses (rs ++ response_with handle
        (reply_in reply.entry) ∷ []) ∷ []) packet.new.items) }
    ensures err { OnErr result (packet.new ≡ packet.old) }
{
    let params = reply.params;
    let room = MOST_BYTES - packet.len();
    if room < RESPONSE_BYTES + params.len() {
        return Err(WriteFault::TooLong);
    }
    let size = packet.len() + 9 + params.len();
    raise_header(packet.as_mut_slice(), size as u32);
    put(packet, &response_head(handle, reply));
    put(packet, params);
    Ok(())
}

/// Appends a PDU with one keep-alive to the packet (AES70-3). `form` is the heartbeat in seconds (a PDU of 12 bytes) or
/// in milliseconds (14 bytes); 0 is allowed. The only refusal is `TooLong`, if the packet would have more than 1,472
/// bytes; the packet is then unchanged. The call sends nothing.
pub fn write_keepalive(packet: &mut Packet, form: Form) -> Result<(), WriteFault>
    ensures room { IsOk result
        ↔ (length packet.old.items + length (pdu_encoding (OneKeepAlive form)) ≤ largest_datagram) }
    ensures ok { OnOk result (packet.new.items ≡ packet.old.items ++ pdu_encoding (OneKeepAlive form)) }
    ensures adds { OnOk result (AddsPdu (OneKeepAlive form) packet.old.items packet.new.items) }
    ensures err { OnErr result (packet.new ≡ packet.old) }
{
    match form {
        Form::Seconds(seconds) => append(packet, &seconds_pdu(seconds)),
        Form::Millis(millis) => append(packet, &millis_pdu(millis)),
    }
}

/// Appends bytes. Refusal: `TooLong` where the packet would pass 1,472 bytes, and the packet is unchanged.
fn append(packet: &mut Packet, bytes: &[u8]) -> Result<(), WriteFault>
    ensures room { IsOk result ↔ (length packet.old.items + length bytes.now ≤ largest_datagram) }
    ensures ok { OnOk result (packet.new.items ≡ packet.old.items ++ bytes.now) }
    ensures err { OnErr result (packet.new ≡ packet.old) }
{
    packet
        .try_extend_from_slice(bytes)
        .map_err(|_| WriteFault::TooLong)
}

/// A PDU of one keep-alive in seconds.
fn seconds_pdu(seconds: u16) -> [u8; 12]
    ensures bytes { result ≡ pdu_encoding (OneKeepAlive (Form.Seconds seconds)) }
    ensures fits { FormFits (Form.Seconds seconds) }
{
    let [a, b] = seconds.to_be_bytes();
    [SYNC, 0, 1, 0, 0, 0, 11, 4, 0, 1, a, b]
}

/// A PDU of one keep-alive in milliseconds.
fn millis_pdu(millis: u32) -> [u8; 14]
    ensures bytes { result ≡ pdu_encoding (OneKeepAlive (Form.Millis millis)) }
    ensures fits { FormFits (Form.Millis millis) }
{
    let [a, b, c, d] = millis.to_be_bytes();
    [SYNC, 0, 1, 0, 0, 0, 13, 4, 0, 1, a, b, c, d]
}
