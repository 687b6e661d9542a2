//! A link alone, of either size: what is sent and when, handles and spans, datagrams of any bytes, and what it tells.
use super::{ANSWER, COMMAND, DEVICE, Gave, KEEP_ALIVE, STRANGER, response};
use crate::tests::{Row, Said, all_agree};
use oca_control::{
    Answer, ControlFault, Due, Link, LinkOf, Reception, SmallLink, is_late, law_of_answering,
    law_of_histories, law_of_sending,
};
use oca_types::{Handle, MethodId, Ono, Packet, Peer, Span};

/// What happens to a link, and what it must answer. Moments are in milliseconds.
#[derive(Clone, Copy)]
pub enum Step {
    /// A GetState of 4097 is submitted at a moment: its handle, or why it is refused.
    Submits(u64, Result<u32, ControlFault>),
    /// A SetState of 4097 with so many parameter bytes, at most 1,446, is submitted at 0.
    SubmitsLong(usize, Result<u32, ControlFault>),
    /// What is due at a moment.
    Gives(u64, Due),
    /// From the first to below the second of the moments that are multiples of 250 ms, the command of the handle 1 is
    /// due, with the bytes that it had at first.
    Repeats(u64, u64),
    /// The bytes that were sent last.
    Gave(&'static [u8]),
    /// How many bytes were sent last.
    GaveLen(usize),
    /// A datagram comes from an address at a moment.
    Hears(Peer, &'static [u8], u64, Reception),
    /// The device's response to the command of a handle comes at a moment.
    HearsResponse(u8, u64, Reception),
    /// A response to the command of a handle comes at a moment, with the status 0, ParamCount 1 and so many parameter
    /// bytes, at most 1,446.
    HearsLong(u8, u16, u64, Reception),
    /// The answer under a handle is taken.
    Takes(u32, Option<Gave>),
    /// When something is due next.
    NextDue(Option<u64>),
    /// The lowest handle whose answer came.
    Answered(Option<u32>),
    /// Whether the command of a handle has no answer.
    InFlight(u32, bool),
    /// The handle of the next command.
    Next(Option<u32>),
    /// When the device was heard last.
    LastHeard(u64),
    /// Whether the link is lost.
    IsLost(bool),
    /// Whether the link is late at a moment.
    IsLate(u64, bool),
}

use Step::*;

/// Parameter bytes, more than a command may have.
const BYTES: &[u8] = &[7; 1446];

/// Whether a command is submitted so, with method 4.2 where it has so many parameter bytes.
fn submits<const C: usize, const A: usize>(
    link: &mut LinkOf<C, A>,
    size: Option<usize>,
    now: u64,
    want: Result<u32, ControlFault>,
    said: &mut Said,
) -> bool {
    let (index, count, size) = match size {
        Some(size) => (2, 1, size),
        None => (1, 0, 0),
    };
    let params = BYTES.get(..size).unwrap_or_default();
    match link.submit(Ono(4097), MethodId { level: 4, index }, count, params, now) {
        Ok(handle) => said.same(want, Ok(handle.0)),
        Err(fault) => said.same(want, Err(fault)),
    }
}

/// Whether the command of the handle 1 is due at each of these multiples of 250 ms, with the bytes that it had at
/// first.
fn repeats<const C: usize, const A: usize>(
    link: &mut LinkOf<C, A>,
    moments: (u64, u64),
    packet: &mut Packet,
    said: &mut Said,
) -> bool {
    for count in moments.0..moments.1 {
        let due = link.due(count.saturating_mul(250), packet);
        if due != Due::Send(Handle(1)) || packet.as_slice() != COMMAND {
            return false;
        }
    }
    true
}

/// A response with so many parameter bytes. The numbers are the sizes of the PDU and of the message.
fn long_response(handle: u8, size: u16) -> Packet {
    let params = BYTES.get(..usize::from(size)).unwrap_or_default();
    let pdu = u32::from(size).saturating_add(19).to_be_bytes();
    let message = u32::from(size).saturating_add(10).to_be_bytes();
    let mut packet = Packet::new();
    let _ = packet.try_extend_from_slice(&[0x3b, 0, 1]);
    let _ = packet.try_extend_from_slice(&pdu);
    let _ = packet.try_extend_from_slice(&[3, 0, 1]);
    let _ = packet.try_extend_from_slice(&message);
    let _ = packet.try_extend_from_slice(&[0, 0, 0, handle, 0, 1]);
    let _ = packet.try_extend_from_slice(params);
    packet
}

/// Whether an answer is this one.
pub fn is_answer(answer: &Answer, want: Gave, said: &mut Said) -> bool {
    said.same(answer.status, want.0)
        && said.same(answer.count, want.1)
        && said.same(answer.params.as_slice(), want.2)
}

/// Whether this is taken under the handle.
fn takes<const C: usize, const A: usize>(
    link: &mut LinkOf<C, A>,
    handle: u32,
    want: Option<Gave>,
    said: &mut Said,
) -> bool {
    match (link.take(Handle(handle)), want) {
        (Some(answer), Some(want)) => is_answer(&answer, want, said),
        (found, wanted) => said.same(found.is_some(), wanted.is_some()),
    }
}

/// Whether this is the handle, or there is none.
fn is_number(found: Option<Handle>, want: Option<u32>, said: &mut Said) -> bool {
    match found {
        Some(handle) => said.same(want, Some(handle.0)),
        None => want.is_none(),
    }
}

/// Whether the link tells this of itself.
fn tells<const C: usize, const A: usize>(link: &LinkOf<C, A>, step: Step, said: &mut Said) -> bool {
    match step {
        NextDue(want) => said.same(link.next_due(), want),
        Answered(want) => is_number(link.answered(), want, said),
        InFlight(handle, want) => said.same(link.is_in_flight(Handle(handle)), want),
        Next(want) => is_number(link.next_handle(), want, said),
        LastHeard(want) => said.same(link.last_heard(), want),
        IsLost(want) => said.same(link.is_lost(), want),
        IsLate(now, want) => said.same(is_late(link, now), want),
        _ => false,
    }
}

/// Whether the step is answered so.
pub fn agrees<const C: usize, const A: usize>(
    link: &mut LinkOf<C, A>,
    packet: &mut Packet,
    step: Step,
    said: &mut Said,
) -> bool {
    match step {
        Submits(now, want) => submits(link, None, now, want, said),
        SubmitsLong(size, want) => submits(link, Some(size), 0, want, said),
        Gives(now, want) => said.same(link.due(now, packet), want),
        Repeats(first, end) => repeats(link, (first, end), packet, said),
        Gave(want) => said.same(packet.as_slice(), want),
        GaveLen(want) => said.same(packet.len(), want),
        Hears(from, bytes, now, want) => said.same(link.datagram(from, bytes, now), want),
        HearsResponse(handle, now, want) => said.same(
            link.datagram(DEVICE, &response(handle), now),
            want,
        ),
        HearsLong(handle, size, now, want) => {
            said.same(
                link.datagram(DEVICE, long_response(handle, size).as_slice(), now),
                want,
            )
        }
        Takes(handle, want) => takes(link, handle, want, said),
        other => tells(link, other, said),
    }
}

// Silence of 2,500 ms gives a keep-alive of 5 seconds.
const SILENCE: &[Step] = &[
    Gives(2_499, Due::Nothing),
    Gave(&[]),
    NextDue(Some(2_500)),
    Gives(2_500, Due::KeepAlive),
    Gave(KEEP_ALIVE),
];

// A command is sent 20 times, 250 ms apart. A lost link still hands answers on.
const TWENTY: &[Step] = &[
    Submits(0, Ok(1)),
    Repeats(0, 1),
    Gives(249, Due::Nothing),
    Repeats(1, 20),
    IsLost(false),
    NextDue(Some(5_000)),
    Gives(5_000, Due::Lost),
    Gave(&[]),
    IsLost(true),
    Submits(5_000, Err(ControlFault::Lost)),
    HearsResponse(1, 5_001, Reception::Answered(1)),
    Takes(1, Some(ANSWER)),
    Takes(1, None),
];

// A command has at most 1,445 bytes of parameters, and its datagram 1,472.
const LONG: &[Step] = &[
    SubmitsLong(1_446, Err(ControlFault::TooLong)),
    SubmitsLong(1_445, Ok(1)),
    Gives(0, Due::Send(Handle(1))),
    GaveLen(1_472),
];

// No handle follows 4294967295.
const LAST: &[Step] = &[
    Next(Some(4_294_967_294)),
    Submits(0, Ok(4_294_967_294)),
    Submits(0, Ok(4_294_967_295)),
    Next(None),
    Submits(0, Err(ControlFault::HandlesSpent)),
];

// The next handle stays below the lowest one in flight plus the span.
const SPAN_OF_ONE: &[Step] = &[Submits(0, Ok(1)), Submits(0, Err(ControlFault::SpanFull))];

/// Two responses in one PDU, to the commands of the handles 1 and 2.
const TWO: &[u8] = &[
    0x3b, 0, 1, 0, 0, 0, 0x1f, 3, 0, 2, 0, 0, 0, 0x0b, 0, 0, 0, 1, 0, 1, 1, 0, 0, 0, 0x0b, 0, 0, 0,
    2, 0, 1, 1,
];

// Each response counts once. Of the answers that came and were not taken, the one with the lowest handle is named.
const BOTH: &[Step] = &[
    Submits(0, Ok(1)),
    Submits(0, Ok(2)),
    Answered(None),
    Hears(DEVICE, TWO, 5, Reception::Answered(2)),
    Hears(DEVICE, TWO, 6, Reception::NothingNew),
    Answered(Some(1)),
    Takes(1, Some(ANSWER)),
    Answered(Some(2)),
];

// The address is looked at first, then the grammar; commands and answers to nothing are ignored. A well-formed datagram
// of the device alone moves the moment at which it was heard last.
const OTHERS: &[Step] = &[
    Submits(0, Ok(1)),
    Hears(STRANGER, KEEP_ALIVE, 1, Reception::Stranger),
    Hears(STRANGER, &[], 1, Reception::Stranger),
    Hears(DEVICE, &[], 1, Reception::Malformed),
    Hears(DEVICE, &[0x3b; 1473], 1, Reception::Malformed),
    LastHeard(0),
    Hears(DEVICE, COMMAND, 1, Reception::NothingNew),
    HearsResponse(9, 1, Reception::NothingNew),
    LastHeard(1),
];

// At a small link a command has at most 64 bytes of parameters.
const SMALL_COMMANDS: &[Step] = &[
    SubmitsLong(65, Err(ControlFault::TooLong)),
    SubmitsLong(64, Ok(1)),
    Gives(0, Due::Send(Handle(1))),
    GaveLen(91),
    IsLate(15_000, false),
    IsLate(15_001, true),
];

// There an answer with 264 bytes of parameters is stored as it came. One with more becomes BufferOverflow without
// parameters, and its command is not sent again.
const SMALL_ANSWERS: &[Step] = &[
    Submits(0, Ok(1)),
    Submits(0, Ok(2)),
    Gives(0, Due::Send(Handle(1))),
    Gives(0, Due::Send(Handle(2))),
    HearsLong(1, 264, 10, Reception::Answered(1)),
    InFlight(2, true),
    HearsLong(2, 265, 20, Reception::Answered(1)),
    InFlight(2, false),
    Gives(250, Due::Nothing),
    Takes(2, Some((14, 0, &[]))),
    Takes(1, Some((0, 1, &[7; 264]))),
];

/// A script by its name, over a link at the moment 0 of this span, whose first command gets this handle.
struct OverLink(&'static str, u32, u8, &'static [Step]);

/// The scripts.
const SCRIPTS: &[OverLink] = rows! {
    OverLink("a_keep_alive_after_2500_ms", 1, 16, SILENCE),
    OverLink("twenty_sendings_lose_the_link", 1, 16, TWENTY),
    OverLink("the_most_parameters", 1, 16, LONG),
    OverLink("the_last_handle_is_used", 4_294_967_294, 16, LAST),
    OverLink("a_span_of_one", 1, 1, SPAN_OF_ONE),
    OverLink("two_answers_in_one_datagram", 1, 16, BOTH),
    OverLink("other_senders_and_other_bytes", 1, 16, OTHERS),
};

/// A script over a small link.
struct OverSmallLink(OverLink);

/// Scripts over a small link.
const OF_SMALL: &[OverSmallLink] = rows! {
    OverSmallLink(OverLink("a_command_has_at_most_64_bytes", 1, 16, SMALL_COMMANDS)),
    OverSmallLink(OverLink("an_answer_of_more_than_264_bytes_is_shortened", 1, 16, SMALL_ANSWERS)),
};

/// Whether each step of a script is answered so over this link.
fn plays_over<const C: usize, const A: usize>(
    link: &mut LinkOf<C, A>,
    script: &OverLink,
    said: &mut Said,
) -> bool {
    let mut packet = Packet::new();
    said.script = script.0;
    for (at, step) in script.3.iter().enumerate() {
        said.step = at;
        if !agrees(link, &mut packet, *step, said) {
            return false;
        }
    }
    true
}

/// The span of a script; that which nobody chose where it has none.
fn span_of(script: &OverLink) -> Span {
    Span::new(script.2).unwrap_or(Span::default())
}

impl Row for OverLink {
    /// Whether each step is answered so over a link.
    fn agrees(&self, said: &mut Said) -> bool {
        let mut link = Link::new(DEVICE, Handle(self.1), 0, span_of(self));
        plays_over(&mut link, self, said)
    }
}

impl Row for OverSmallLink {
    /// Whether each step is answered so over a small link.
    fn agrees(&self, said: &mut Said) -> bool {
        let mut link = SmallLink::new(DEVICE, Handle(self.0.1), 0, span_of(&self.0));
        plays_over(&mut link, &self.0, said)
    }
}

#[test]
fn a_link_sends_and_hears(rt: HostRuntime) {
    // The laws of a link can be called.
    law_of_histories();
    law_of_answering();
    law_of_sending();
    all_agree(&rt, "links", SCRIPTS);
}

#[test]
fn a_small_link_has_short_commands_and_answers(rt: HostRuntime) {
    all_agree(&rt, "small links", OF_SMALL);
}
