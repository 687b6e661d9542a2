//! What a line of a script asks the device for.
ghost use Rattle.std.specs.Prelude.{◌≡◌, ◌≤◌, ◌*◌, IfSome, length};
ghost use Rattle.oca_script.specs.Fields.{fields};
ghost use Rattle.oca_script.specs.Script.{longest_line};
ghost use Rattle.ocadev_replay.specs.Requests.{is_quiet as quiet_word, tick_of, datagram_of, asked_event};
ghost use Rattle.ocadev_replay.specs.PrivateRequests.{AreFields, FieldsWithin, begun, moment_and_peer_of};
ghost use Rattle.ocadev_replay.specs.PrivateRequests.{datagram_after, event_asked};

use oca_script::LineFault;
use oca_script::field::{first_field, hex_bytes, number_before, peer, peer_before, split_at_byte};
use oca_script::line_field::moment;
use oca_types::Peer;

/// The greatest number of bytes of a datagram in a script: 2,048. A line has no more, since it has at most 4,096 bytes.
pub const DATAGRAM_ROOM: usize = 2048;

/// What a line of a device's script asks for. Moments are in milliseconds.
#[derive(Clone, Copy)]
pub enum ScriptEvent<'a> {
    /// The clock moves to this moment.
    Tick {
        now: u64,
    },
    /// The device receives a datagram of a peer at this moment.
    Datagram {
        now: u64,
        from: Peer,
        bytes: &'a [u8],
    },
}

/// The fields of a line, if there are two or three of them.
#[derive(Clone, Copy)]
pub enum Fields<'a> {
    Two(&'a [u8], &'a [u8]),
    Three(&'a [u8], &'a [u8], &'a [u8]),
    Other,
}

/// The fields of a line.
fn fields_of(line: &[u8]) -> Fields<'_>
    ensures value { AreFields result (fields line.now) }
    ensures within { FieldsWithin result (length line.now) }
{
    let (first, rest) = first_field(line);
    let Some(rest) = rest else {
        return Fields::Other;
    };
    let (second, rest) = first_field(rest);
    let Some(rest) = rest else {
        return Fields::Two(first, second);
    };
    let (third, rest) = first_field(rest);
    match rest {
        None => Fields::Three(first, second, third),
        Some(_) => Fields::Other,
    }
}

/// Whether the word is `quiet`, which makes a line a clock reading.
fn is_quiet(word: &[u8]) -> bool
    ensures { result ≡ quiet_word word.now }
{
    word == b"quiet".as_slice()
}

/// A datagram: its moment, its sender and its bytes, looked at in this order.
#[tactic(auto, unfolding(crate::specs::Requests::datagram_of))]
fn parse_datagram<'a>(
    now: &[u8],
    sender: &[u8],
    text: &[u8],
    room: &'a mut [u8],
) -> Result<ScriptEvent<'a>, LineFault>
    requires { length text.now ≤ 2 * length room.old }
    ensures { event_asked result ≡ datagram_of now.now sender.now text.now }
{
    let now = moment(now)?;
    let from = peer(sender).ok_or(LineFault::Peer)?;
    let Some(bytes) = hex_bytes(text, room) else {
        return Err(LineFault::Hex);
    };
    Ok(ScriptEvent::Datagram { now, from, bytes })
}

/// The moment and the peer at the beginning of a datagram's line, and what stands after them. `None` where the line does
/// not begin with both, each before a space.
fn moment_and_peer(line: &[u8]) -> Option<(u64, Peer, &[u8])>
    ensures read { begun result ≡ moment_and_peer_of line.now }
    ensures value { IfSome result (λ p. asked_event (fields line.now) ≡ datagram_after p.0 p.1 (fields p.2.now)) }
    ensures within { IfSome result (λ p. length p.2.now ≤ length line.now) }
{
    let (now, rest) = number_before(line, b' ', 20, u64::MAX)?;
    let (from, rest) = peer_before(rest)?;
    Some((now, from, rest))
}

/// Reads what a line of a device's script asks for: `N P HEX` is a datagram of the
/// peer P at the moment N, and `N quiet` a reading of the clock. Moments are in milliseconds. The line has at most
/// 4,096 bytes (a premise, which the caller must prove). The bytes of a datagram are written to the front of `room`,
/// and the result refers to them. The call takes no memory. Refusals, the first that applies; discard what `room`
/// contains then:
/// - `Form` if the line does not have these fields.
/// - `Moment`, `Peer` or `Hex` for the first field, from the left, that does not have its form.
#[tactic(auto, using(crate::proofs::RequestLemmas::left_rules))]
pub fn parse_event<'a>(
    line: &[u8],
    room: &'a mut [u8; DATAGRAM_ROOM],
) -> Result<ScriptEvent<'a>, LineFault>
    requires { length line.now ≤ longest_line }
    ensures { event_asked result ≡ asked_event (fields line.now) }
{
    match moment_and_peer(line) {
        Some((now, from, rest)) => match hex_bytes(rest, room) {
            Some(bytes) => Ok(ScriptEvent::Datagram { now, from, bytes }),
            // Bytes that can be read are one field, so only a line with a fault is searched for a space.
            None => match split_at_byte(rest, b' ') {
                Some(_) => Err(LineFault::Form),
                None => Err(LineFault::Hex),
            },
        },
        None => parse_fields(line, room),
    }
}

/// The same field by field, for clock readings and for lines with a fault.
#[inline(never)]
#[tactic(auto, unfolding(crate::specs::Requests::tick_of))]
fn parse_fields<'a>(
    line: &[u8],
    room: &'a mut [u8; DATAGRAM_ROOM],
) -> Result<ScriptEvent<'a>, LineFault>
    requires { length line.now ≤ longest_line }
    ensures { event_asked result ≡ asked_event (fields line.now) }
{
    match fields_of(line) {
        Fields::Two(now, second) => {
            if !is_quiet(second) {
                return Err(LineFault::Form);
            }
            let now = moment(now)?;
            Ok(ScriptEvent::Tick { now })
        }
        Fields::Three(now, second, third) => {
            if is_quiet(second) {
                Err(LineFault::Form)
            } else {
                parse_datagram(now, second, third, room)
            }
        }
        Fields::Other => Err(LineFault::Form),
    }
}
