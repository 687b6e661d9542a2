//! What a line of a script asks the link for.
ghost use Rattle.std.specs.Prelude.{◌≡◌, ◌≤◌, ◌*◌, IfSome, length};
ghost use Rattle.std.specs.Option.{option_copied};
ghost use Rattle.oca_script.specs.Fields.{fields, fields_after};
ghost use Rattle.ocactl_replay.specs.Requests.{one_text, two_texts, command_texts, command_of, submit_of, due_of};
ghost use Rattle.ocactl_replay.specs.Requests.{asked_call, asked_command, from_of, take_of};
ghost use Rattle.ocactl_replay.specs.PrivateRequests.{call_asked, pair_given, request_read, text_given, texts_given};
ghost use Rattle.ocactl_replay.specs.PrivateRequests.{texts_in};

use oca_script::LineFault;
use oca_script::field::{first_field, hex_bytes, peer};
use oca_script::line_field::{moment, u8_in, u16_in, u32_in};
use oca_types::{Handle, MethodId, Ono, Peer, Request};

/// The greatest number of bytes of the last field of a line: 2,048. A line has no more, since it has at most 4,096
/// bytes.
pub const PARAMS_ROOM: usize = 2048;

/// Room for these bytes.
pub type Room = [u8; PARAMS_ROOM];

/// The call of a link that a line of a script asks for. Moments are in milliseconds.
#[derive(Clone, Copy)]
pub enum Call<'a> {
    /// A command is submitted at this moment.
    Submit(u64, Request<'a>),
    /// What is due at this moment is sent.
    Due(u64),
    /// The link receives at this moment a datagram of this peer, with these bytes.
    Datagram(u64, Peer, &'a [u8]),
    /// The answer to the command with this handle is taken.
    Take(Handle),
}

/// The five fields of a command in a line, as texts: the object number, DefLevel and MethodIndex of the method,
/// ParamCount, and the bytes of the parameters in hexadecimal, or `-` for none.
#[derive(Clone, Copy)]
pub struct Texts<'a> {
    pub target: &'a [u8],
    pub level: &'a [u8],
    pub index: &'a [u8],
    pub count: &'a [u8],
    pub params: &'a [u8],
}

/// The one field that is left.
fn one_field(rest: Option<&[u8]>) -> Option<&[u8]>
    ensures { text_given result ≡ one_text (fields_after (option_copied rest.entry)) }
{
    let (text, rest) = first_field(rest?);
    match rest {
        None => Some(text),
        Some(_) => None,
    }
}

/// The two fields that are left.
fn two_fields(rest: Option<&[u8]>) -> Option<(&[u8], &[u8])>
    ensures value { pair_given result ≡ two_texts (fields_after (option_copied rest.entry)) }
    ensures within { IfSome result (λ p. IfSome rest.entry (λ text. length p.1.now ≤ length text.now)) }
{
    let (first, rest) = first_field(rest?);
    let (second, rest) = first_field(rest?);
    match rest {
        None => Some((first, second)),
        Some(_) => None,
    }
}

/// The five fields of a command that are left.
fn command_fields(rest: Option<&[u8]>) -> Option<Texts<'_>>
    ensures value { texts_given result ≡ command_texts (fields_after (option_copied rest.entry)) }
    ensures within { IfSome result (λ t. IfSome rest.entry (λ text. length t.params.now ≤ length text.now)) }
{
    let (target, rest) = first_field(rest?);
    let (level, rest) = first_field(rest?);
    let (index, rest) = first_field(rest?);
    let (count, rest) = first_field(rest?);
    let (params, rest) = first_field(rest?);
    match rest {
        None => Some(Texts {
            target,
            level,
            index,
            count,
            params,
        }),
        Some(_) => None,
    }
}

/// The command of these fields. The bytes of its parameters are put into `room`.
#[tactic(auto, unfolding(crate::specs::Requests::command_of))]
fn command_in<'a>(texts: Texts<'_>, room: &'a mut [u8]) -> Result<Request<'a>, LineFault>
    requires { length texts.params.now ≤ 2 * length room.old }
    ensures { request_read result ≡ command_of (texts_in texts.entry) }
{
    let target = Ono(u32_in(texts.target)?);
    let level = u16_in(texts.level)?;
    let index = u16_in(texts.index)?;
    let count = u8_in(texts.count)?;
    let params = hex_bytes(texts.params, room).ok_or(LineFault::Hex)?;
    Ok(Request {
        target,
        method: MethodId { level, index },
        count,
        params,
    })
}

/// A command that is submitted: its moment, and the fields after the keyword.
fn parse_submit<'a>(
    now: &[u8],
    rest: Option<&[u8]>,
    room: &'a mut Room,
) -> Result<Call<'a>, LineFault>
    requires { IfSome rest (λ text. length text.now ≤ 4096) }
    ensures { call_asked result ≡ submit_of now.now (fields_after (option_copied rest.entry)) }
{
    let Some(texts) = command_fields(rest) else {
        return Err(LineFault::Form);
    };
    let now = moment(now)?;
    let command = command_in(texts, room)?;
    Ok(Call::Submit(now, command))
}

/// A moment at which what is due is sent.
fn parse_due<'a>(now: &[u8], rest: Option<&[u8]>) -> Result<Call<'a>, LineFault>
    ensures { call_asked result ≡ due_of now.now (fields_after (option_copied rest.entry)) }
{
    match rest {
        Some(_) => Err(LineFault::Form),
        None => Ok(Call::Due(moment(now)?)),
    }
}

/// A datagram that came: its moment, and the fields after the keyword.
#[tactic(auto, unfolding(crate::specs::Requests::datagram_call_of))]
fn parse_from<'a>(
    now: &[u8],
    rest: Option<&[u8]>,
    room: &'a mut Room,
) -> Result<Call<'a>, LineFault>
    requires { IfSome rest (λ text. length text.now ≤ 4096) }
    ensures { call_asked result ≡ from_of now.now (fields_after (option_copied rest.entry)) }
{
    let Some((sender, text)) = two_fields(rest) else {
        return Err(LineFault::Form);
    };
    let now = moment(now)?;
    let from = peer(sender).ok_or(LineFault::Peer)?;
    let bytes = hex_bytes(text, room).ok_or(LineFault::Hex)?;
    Ok(Call::Datagram(now, from, bytes))
}

/// The handle whose answer is taken.
fn parse_take<'a>(rest: Option<&[u8]>) -> Result<Call<'a>, LineFault>
    ensures { call_asked result ≡ take_of (fields_after (option_copied rest.entry)) }
{
    let Some(text) = one_field(rest) else {
        return Err(LineFault::Form);
    };
    let handle = u32_in(text)?;
    Ok(Call::Take(Handle(handle)))
}

/// Reads which call of the link a line of a script asks for: one of the four lines that
/// [`replay`](crate::replay::replay) lists. The line has at most 4,096 bytes (a premise, which the caller must prove).
/// The bytes of its last field are written to the front of `room`, and the result refers to them. The call takes no
/// memory, and makes no call of the link. Refusals, the first that applies; discard what `room` contains then:
/// - `Form` if the keyword is unknown, or the number of fields is wrong.
/// - `Moment`, `Number`, `Peer` or `Hex` for the first field, from the left, that does not have its form.
pub fn parse_call<'a>(line: &[u8], room: &'a mut Room) -> Result<Call<'a>, LineFault>
    requires { length line.now ≤ 4096 }
    ensures { call_asked result ≡ asked_call (fields line.now) }
{
    let (first, rest) = first_field(line);
    if first == b"take".as_slice() {
        return parse_take(rest);
    }
    let Some(rest) = rest else {
        return Err(LineFault::Form);
    };
    let (word, rest) = first_field(rest);
    if word == b"submit".as_slice() {
        return parse_submit(first, rest, room);
    }
    if word == b"due".as_slice() {
        return parse_due(first, rest);
    }
    if word == b"from".as_slice() {
        return parse_from(first, rest, room);
    }
    Err(LineFault::Form)
}

/// Reads the command that a line `ONO LEVEL INDEX COUNT HEX` asks for (AES70-3; the form of the line is the profile's).
/// The line has at most 4,096 bytes (a premise, which the caller must prove). The bytes of the command's parameters are
/// written to the front of `room`, and the result refers to them. The call takes no memory and sends nothing. Refusals,
/// the first that applies; discard what `room` contains then:
/// - `Form` if the line does not have exactly these five fields.
/// - `Number` or `Hex` for the first field, from the left, that does not have its form.
pub fn parse_command<'a>(line: &[u8], room: &'a mut Room) -> Result<Request<'a>, LineFault>
    requires { length line.now ≤ 4096 }
    ensures { request_read result ≡ asked_command (fields line.now) }
{
    let Some(texts) = command_fields(Some(line)) else {
        return Err(LineFault::Form);
    };
    command_in(texts, room)
}
