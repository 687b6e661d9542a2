//! The bytes of datagrams, as data.
use crate::tests::Said;
use arrayvec::ArrayVec;

/// The bytes of a datagram, with room for one byte more than a datagram may have.
pub type Bytes = ArrayVec<u8, 1_473>;

/// A part of a datagram: mostly one PDU.
#[derive(Clone, Copy)]
pub enum Part {
    /// These bytes.
    Bytes(&'static [u8]),
    /// These bytes so many times.
    Times(u32, &'static [u8]),
    /// So many of the first bytes.
    Front(&'static [u8], usize),
    /// These bytes, with others in place of those from an index on.
    Changed(&'static [u8], usize, &'static [u8]),
    /// A command PDU of this type: its handle, target, DefLevel and MethodIndex, and the bytes of at most one
    /// parameter.
    Command(u8, u32, u32, (u8, u8), &'static [u8]),
    /// A response PDU: its handle, status, ParamCount, and the bytes of the parameters.
    Response(u32, u8, u8, &'static [u8]),
    /// A keep-alive PDU of so many milliseconds.
    Beat(u32),
    /// The command GetState of 4097 under a handle.
    GetState(u32),
    /// The response to it, with this state.
    State(u32, u8),
    /// The command SetState of 4097 under a handle, with this state.
    SetState(u32, u8),
    /// The command LockTotal of 4097 under a handle.
    Lock(u32),
    /// The response with status OK to a command that answers no parameter.
    Done(u32),
}

/// Adds bytes at the end, where there is room for them.
fn put(bytes: &mut Bytes, more: &[u8]) {
    let _ = bytes.try_extend_from_slice(more);
}

/// Adds bytes so many times.
fn put_times(bytes: &mut Bytes, count: u32, more: &[u8]) {
    for _at in 0..count {
        put(bytes, more);
    }
}

/// Adds bytes, with others in place of those from `at` on.
fn put_changed(bytes: &mut Bytes, more: &[u8], at: usize, with: &[u8]) {
    for (i, byte) in more.iter().enumerate() {
        let other = if i < at { None } else { with.get(i - at) };
        let _ = bytes.try_push(*other.unwrap_or(byte));
    }
}

/// Adds a command PDU with at most one parameter.
fn put_command(
    bytes: &mut Bytes,
    kind: u8,
    handle: u32,
    target: u32,
    method: (u8, u8),
    params: &[u8],
) {
    let len = params.len().min(64) as u8;
    put(
        bytes,
        &[0x3b, 0, 1, 0, 0, 0, 26 + len, kind, 0, 1, 0, 0, 0, 17 + len],
    );
    put(bytes, &handle.to_be_bytes());
    put(bytes, &target.to_be_bytes());
    put(bytes, &[0, method.0, 0, method.1, len.min(1)]);
    put(bytes, params);
}

/// Adds a response PDU.
fn put_response(bytes: &mut Bytes, handle: u32, status: u8, count: u8, params: &[u8]) {
    let len = params.len().min(64) as u8;
    put(
        bytes,
        &[0x3b, 0, 1, 0, 0, 0, 19 + len, 3, 0, 1, 0, 0, 0, 10 + len],
    );
    put(bytes, &handle.to_be_bytes());
    put(bytes, &[status, count]);
    put(bytes, params);
}

/// Adds a keep-alive PDU.
fn put_beat(bytes: &mut Bytes, ms: u32) {
    put(bytes, &[0x3b, 0, 1, 0, 0, 0, 0x0d, 4, 0, 1]);
    put(bytes, &ms.to_be_bytes());
}

/// Adds the command or the response that a short part stands for.
fn put_short(bytes: &mut Bytes, part: Part) {
    match part {
        Part::GetState(handle) => put_command(bytes, 1, handle, 4097, (4, 1), &[]),
        Part::State(handle, state) => put_response(bytes, handle, 0, 1, &[state]),
        Part::SetState(handle, state) => put_command(bytes, 1, handle, 4097, (4, 2), &[state]),
        Part::Lock(handle) => put_command(bytes, 1, handle, 4097, (1, 3), &[]),
        Part::Done(handle) => put_response(bytes, handle, 0, 0, &[]),
        _ => {}
    }
}

/// Adds a part that is no bytes.
fn put_pdu(bytes: &mut Bytes, part: Part) {
    match part {
        Part::Command(kind, handle, target, method, params) => {
            put_command(bytes, kind, handle, target, method, params);
        }
        Part::Response(handle, status, count, params) => {
            put_response(bytes, handle, status, count, params);
        }
        Part::Beat(ms) => put_beat(bytes, ms),
        other => put_short(bytes, other),
    }
}

/// Adds a part.
fn put_part(bytes: &mut Bytes, part: Part) {
    match part {
        Part::Bytes(more) => put(bytes, more),
        Part::Times(count, more) => put_times(bytes, count, more),
        Part::Front(more, length) => put(bytes, more.get(..length).unwrap_or_default()),
        Part::Changed(more, at, with) => put_changed(bytes, more, at, with),
        other => put_pdu(bytes, other),
    }
}

/// The bytes of these parts, one after another.
pub fn bytes_of(parts: &[Part]) -> Bytes {
    let mut bytes = Bytes::new();
    for part in parts {
        put_part(&mut bytes, *part);
    }
    bytes
}

/// Whether these are the bytes of the parts.
pub fn is_of(bytes: &[u8], parts: &[Part], said: &mut Said) -> bool {
    said.same(bytes_of(parts).as_slice(), bytes)
}
