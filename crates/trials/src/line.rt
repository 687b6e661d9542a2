//! The lines of histories and schedules, of which each begins with one that says so.
//!
//! `history W PEERS CHANNELS` begins a history of a device over the bench objects, with reply windows of size W, room
//! for PEERS sessions and CHANNELS channel strips behind the bench's own objects. `schedule W S P/H ..` begins a
//! schedule over such a device, with room for 16 peers, and links of span S, one for each `P/H`: the link of the peer P
//! whose first handle is H. Between S and the links a number of peers may stand, for which there is room then.
//!
//! The lines after it are its events, in order, with N a moment, P a peer, LINK the number of a link and K that of a
//! datagram, both from 0; the other fields are those of the scripts.
//!
//!     N P HEX                     a datagram of a peer, in a schedule of one without a link
//!     N quiet                     the clock is read
//!     set ONO CLASS VALUE         a change at the local front panel
//!     label ONO HEX
//!     enabled ONO 0|1
//!     unlock ONO
//!     failing ONO 0|1
//!
//! CLASS is `mute`, `polarity`, `switch`, `boolean`, `int8` and so on to `uint64`, and VALUE the number of a state, a
//! position, 0 or 1, or an integer of the type. The HEX of a label are the bytes of a text in UTF-8. Of a history alone:
//!
//!     again HEX                   a datagram that is only read, and written again
//!     then N P HEX                an entry of the script of an end in memory
//!     then N quiet
//!     then failed                 a receive that fails
//!     serve K, drive K            the device serves that end, or a link is driven over it; the send of the number K fails,
//!                                 and the script ends
//!
//! Of a schedule alone; `renew` puts a new link of first handle H and span S in the place of a link, and `beside` sends
//! a keep-alive beside a link:
//!
//!     N submit LINK ONO LEVEL INDEX COUNT HEX
//!     N due LINK
//!     N to-device K
//!     N to-link K
//!     take LINK H
//!     N renew LINK H S
//!     N beside LINK
use crate::fields::{Fields, Front, LARGEST_32, LineFault, text_of};
use oca_pair::{Start, Step};
use oca_script::field::split_at_byte;
use oca_types::{Handle, Ono, Peer, Peers, Sizes, Span};

/// The text of no bytes.
const NO_BYTES: &[u8] = b"-";

/// What happens at a moment.
#[derive(Clone, Copy)]
pub enum Timed<'a> {
    /// A datagram comes.
    Datagram(Peer, &'a [u8], u64),
    /// The clock is read.
    Quiet(u64),
}

/// What happens to a device, or to links beside it.
#[derive(Clone, Copy)]
pub enum Event<'a> {
    /// Something at a moment.
    Timed(Timed<'a>),
    /// A change at the local front panel.
    Front(Front<'a>),
    /// A datagram is read and written again.
    Again(&'a [u8]),
    /// An entry of the script, or a receive that fails.
    Then(Option<Timed<'a>>),
    /// The device serves the script, of which the send of this number fails.
    Serve(u64),
    /// A link is driven over the script, of which the send of this number fails.
    Drive(u64),
    /// A step of a schedule, and the text of its bytes.
    Step(Step<'static>, &'a [u8]),
}

/// A line.
#[derive(Clone, Copy)]
pub enum Line<'a> {
    /// A history begins, of a device of these sizes with so many channel strips.
    History(Sizes, u16),
    /// A schedule begins, of a device of these sizes and links of this span.
    Schedule(Sizes, Span),
    /// An event of what began last.
    Happens(Event<'a>),
}

/// What a line says, where it has no fault. The links of a schedule that begins are put behind `starts`.
pub fn read_line<'a>(fields: &mut Fields<'a>, starts: &mut Vec<Start>) -> Line<'a> {
    let first = fields.next();
    match text_of(first) {
        "history" => history(fields),
        "schedule" => schedule(fields, starts),
        _ => {
            let event = read_event(first, fields);
            fields.end();
            Line::Happens(event)
        }
    }
}

/// What begins a history.
fn history<'a>(fields: &mut Fields<'_>) -> Line<'a> {
    let window = fields.byte();
    let peers = fields.byte();
    let channels = fields.short_number();
    fields.end();
    let window = fields.window(window);
    let peers = fields.peers(peers);
    Line::History(Sizes { window, peers }, channels)
}

/// What begins a schedule.
fn schedule<'a>(fields: &mut Fields<'_>, starts: &mut Vec<Start>) -> Line<'a> {
    let window = fields.byte();
    let span = fields.span();
    let window = fields.window(window);
    let peers = peers_and_starts(fields, starts);
    Line::Schedule(Sizes { window, peers }, span)
}

/// How many peers have room, where that is said, and the links, which are put behind `starts`.
fn peers_and_starts(fields: &mut Fields<'_>, starts: &mut Vec<Start>) -> Peers {
    let mut peers = Peers::default();
    for place in 0..66 {
        if fields.is_at_end() || fields.fault().is_some() {
            return peers;
        }
        let text = fields.next();
        if place == 0 && is_count(text) {
            let count = fields.number_of(text, 3, 255) as u8;
            peers = fields.peers(count);
        } else {
            add_start(fields, starts, text);
        }
    }
    fields.refuse(LineFault::Form);
    peers
}

/// Whether a text is neither empty nor of a link or a peer.
fn is_count(text: &[u8]) -> bool {
    !text.is_empty() && !text.contains(&b'/') && !text.contains(&b':')
}

/// Adds a link: `P/H`.
fn add_start(fields: &mut Fields<'_>, starts: &mut Vec<Start>, text: &[u8]) {
    match split_at_byte(text, b'/') {
        Some((from, first)) => {
            let start = start_of(fields, from, first);
            push_start(fields, starts, start);
        }
        None => fields.refuse(LineFault::Form),
    }
}

/// A link of the peer and the first handle with these texts.
fn start_of(fields: &mut Fields<'_>, from: &[u8], first: &[u8]) -> Start {
    let peer = fields.peer(from);
    let first_handle = Handle(fields.number_of(first, 10, LARGEST_32) as u32);
    Start { peer, first_handle }
}

/// Puts a link behind the others.
fn push_start(fields: &mut Fields<'_>, starts: &mut Vec<Start>, start: Start) {
    match starts.push(start) {
        Ok(()) => {}
        Err(_) => fields.refuse(LineFault::NoMemory),
    }
}

/// The event of a line of which the first field was read.
fn read_event<'a>(first: &[u8], fields: &mut Fields<'a>) -> Event<'a> {
    let word = text_of(first);
    if let Some(front) = fields.front(word) {
        return Event::Front(front);
    }
    match word {
        "again" => Event::Again(fields.hex()),
        "then" => Event::Then(entry(fields)),
        "serve" => Event::Serve(u64::from(fields.number())),
        "drive" => Event::Drive(u64::from(fields.number())),
        "take" => Event::Step(taken(fields), NO_BYTES),
        _ => {
            let now = fields.moment(first);
            at_moment(now, fields)
        }
    }
}

/// An entry of the script, or a receive that fails.
fn entry<'a>(fields: &mut Fields<'a>) -> Option<Timed<'a>> {
    let first = fields.next();
    if first == b"failed".as_slice() {
        return None;
    }
    let now = fields.moment(first);
    let second = fields.next();
    Some(timed_event(now, second, fields))
}

/// What happens at this moment, of which this field and others tell.
fn timed_event<'a>(now: u64, second: &[u8], fields: &mut Fields<'a>) -> Timed<'a> {
    if second == b"quiet".as_slice() {
        return Timed::Quiet(now);
    }
    let from = fields.peer(second);
    Timed::Datagram(from, fields.hex(), now)
}

/// The event at this moment.
fn at_moment<'a>(now: u64, fields: &mut Fields<'a>) -> Event<'a> {
    let word = fields.next();
    match text_of(word) {
        "submit" => submitted(now, fields),
        "renew" => Event::Step(renewed(now, fields), NO_BYTES),
        "due" | "beside" | "to-device" | "to-link" => {
            let place = fields.place();
            Event::Step(placed(now, text_of(word), place), NO_BYTES)
        }
        _ if word.contains(&b':') || word == b"quiet".as_slice() => {
            Event::Timed(timed_event(now, word, fields))
        }
        _ => {
            fields.refuse(LineFault::Form);
            Event::Timed(Timed::Quiet(now))
        }
    }
}

/// An answer that is taken.
fn taken(fields: &mut Fields<'_>) -> Step<'static> {
    let link = fields.place();
    let handle = Handle(fields.number());
    Step::Take { link, handle }
}

/// A step that names a link or a datagram by its number.
fn placed(now: u64, word: &str, place: usize) -> Step<'static> {
    match word {
        "due" => Step::Due { link: place, now },
        "beside" => Step::Beside { link: place, now },
        "to-device" => Step::ToDevice { k: place, now },
        _ => Step::ToLink { k: place, now },
    }
}

/// A link that is renewed.
fn renewed(now: u64, fields: &mut Fields<'_>) -> Step<'static> {
    let link = fields.place();
    let first = Handle(fields.number());
    let span = fields.span();
    Step::Renew {
        link,
        first,
        span,
        now,
    }
}

/// A command that is submitted, and the text of its parameters.
fn submitted<'a>(now: u64, fields: &mut Fields<'a>) -> Event<'a> {
    let link = fields.place();
    let target = Ono(fields.number());
    let method = fields.method();
    let count = fields.byte();
    let text = fields.hex();
    let step = Step::Submit {
        link,
        target,
        method,
        count,
        params: &[],
        now,
    };
    Event::Step(step, text)
}
