//! What is behind an open handle of a link.
ghost use Rattle.std.specs.Prelude.{◌≡◌, ◌⊎◌, ◌≤◌, ◌<◌, List, Option, IfSome, length};
ghost use Rattle.std.specs.Option.{option_map};
ghost use Rattle.oca_types.specs.Peers.{RequestFields};
ghost use Rattle.oca_types.specs.Sizes.{largest_datagram, most_parameter_bytes, span_size};
ghost use Rattle.oca_pdu.specs.Messages.{Msg};
ghost use Rattle.oca_control.specs.Answers.{answer_fields};
ghost use Rattle.oca_control.specs.Contents.{IsContent};
ghost use Rattle.oca_control.specs.Links.{decision, due_answer, due_bytes, gone_on, late_at, new_link, received};
ghost use Rattle.oca_control.specs.Links.{reception, submission_within, submitted_within, taken};
ghost use Rattle.oca_control.specs.Shortening.{shortened};
ghost use Rattle.oca_control.specs.Untaken.{answer_under, first_answered, waits};
ghost use Rattle.std.specs.List.{list_any};
ghost use Rattle.oca_calls.specs.LinkCalls.{LiesIn, WritesNextDue, WritesNumber, WritesAnswer, WritesSubmission};
ghost use Rattle.oca_calls.specs.LinkCalls.{answered_count, due_handle, due_kind, reception_kind};
ghost use Rattle.oca_calls.specs.LinkRooms.{full_rooms, roomed_link, small_rooms};

use crate::answer::Answer;
use crate::words::put_front;
use oca_control::{
    Answer as CommandAnswer, ControlFault, Due, Link, Reception, SmallLink, is_late,
};
use oca_types::{Handle, MOST_BYTES, MOST_PARAMETER_BYTES, MethodId, Ono, Packet, Peer, Span};
use std::alloc::Global;
use std::marker::Model;

/// A link in memory of its own, of the full size or small.
#[derive(Drop)]
enum AnyLink {
    Full(Box<Link>),
    Small(Box<SmallLink>),
}

impl AnyLink {
    /// Submits a command, as [`LinkBehind::submit`] says: its handle, or why it is refused.
    fn submit(
        &mut self,
        target: Ono,
        method: MethodId,
        count: u8,
        params: &[u8],
        now: u64,
    ) -> Result<Handle, ControlFault>
        ensures link { let request : RequestFields = record {
          target = target.0;
          level = method.level;
          index = method.index;
          count = count;
          params = params.now;
        } in
            roomed_link self.new ≡ record (roomed_link self.old) {
              link = submitted_within (roomed_link self.old).rooms.command request now (roomed_link self.old).link;
            } }
        ensures answer { let request : RequestFields = record {
          target = target.0;
          level = method.level;
          index = method.index;
          count = count;
          params = params.now;
        } in
            result ≡ submission_within (roomed_link self.old).rooms.command request (roomed_link self.old).link }
    {
        match self {
            AnyLink::Full(link) => link.submit(target, method, count, params, now),
            AnyLink::Small(link) => link.submit(target, method, count, params, now),
        }
    }

    /// Takes the answer under a handle, and removes its command; nothing where no answer is there.
    fn take(&mut self, handle: u32) -> Option<CommandAnswer>
        ensures link { roomed_link self.new
            ≡ record (roomed_link self.old) { link = taken handle (roomed_link self.old).link } }
        ensures answer { option_map answer_fields result ≡ answer_under handle (roomed_link self.old).link.untaken }
    {
        match self {
            AnyLink::Full(link) => link.take(Handle(handle)),
            AnyLink::Small(link) => link.take(Handle(handle)),
        }
    }
}

/// A link as the calls for C have it. It has room for each command and each answer of a datagram ([`Link`]), or it is
/// small ([`SmallLink`]): for commands with 64 bytes of parameters and answers with 264 bytes. What its functions take
/// and answer is said of the calls of C in `include/oca.h` (`submit` is that of `oca_link_submit`).
#[derive(Drop)]
pub struct LinkBehind {
    link: AnyLink,
}

const _: () = prove!(std::mem::size_of::<LinkBehind>() == 16);

impl Model for LinkBehind {
    ghost use Rattle.oca_calls.specs.LinkRooms.{RoomedLink, roomed_link};

    ghost Value = { RoomedLink };

    ghost view = { λ b. roomed_link b.link };
}

impl LinkBehind {
    /// Makes a link to the device at the address `device`, with room for each command and each answer. `first_handle`
    /// is the handle of its first command, `now` the moment in milliseconds of the caller's clock, and `span` its span.
    /// The call takes memory for the link: 94,520 bytes. `None` if memory was refused: then none is kept.
    #[inline(never)]
    pub(crate) fn full(
        alloc: Global,
        device: Peer,
        first_handle: Handle,
        now: u64,
        span: Span,
    ) -> Option<LinkBehind>
        ensures { IfSome result (λ b. b ≡ record {
          link = new_link device first_handle.0 now (span_size span);
          rooms = full_rooms;
        }) }
    {
        match Box::new(alloc, Link::new(device, first_handle, now, span)) {
            Ok(link) => Some(LinkBehind {
                link: AnyLink::Full(link),
            }),
            Err(_) => None,
        }
    }

    /// Makes a small link ([`SmallLink`]), with the same arguments. The call takes memory for the link, at most 12,288
    /// bytes. `None` if memory was refused: then none is kept.
    #[inline(never)]
    pub(crate) fn small(
        alloc: Global,
        device: Peer,
        first_handle: Handle,
        now: u64,
        span: Span,
    ) -> Option<LinkBehind>
        ensures { IfSome result (λ b. b ≡ record {
          link = new_link device first_handle.0 now (span_size span);
          rooms = small_rooms;
        }) }
    {
        match Box::new(alloc, SmallLink::new(device, first_handle, now, span)) {
            Ok(link) => Some(LinkBehind {
                link: AnyLink::Small(link),
            }),
            Err(_) => None,
        }
    }

    /// Submits a command at the moment `now`, in milliseconds of the caller's clock, and writes its handle to `handle`.
    pub fn submit(
        &mut self,
        target: Ono,
        method: MethodId,
        count: u8,
        params: &[u8],
        now: u64,
        handle: &mut u32,
    ) -> u32
        ensures link { let request : RequestFields = record {
          target = target.0;
          level = method.level;
          index = method.index;
          count = count;
          params = params.now;
        } in
            self.new ≡ record self.old {
              link = submitted_within self.old.rooms.command request now self.old.link;
            } }
        ensures writes { let request : RequestFields = record {
          target = target.0;
          level = method.level;
          index = method.index;
          count = count;
          params = params.now;
        } in
            WritesSubmission result handle.new (submission_within self.old.rooms.command request self.old.link) }
        ensures unwritten { (result ≡ 0) ⊎ (handle.new ≡ handle.old) }
    {
        match self.link.submit(target, method, count, params, now) {
            Ok(given) => {
                *handle = given.0;
                Answer::Done.number()
            }
            Err(fault) => Answer::of_submission(fault).number(),
        }
    }

    /// Puts the next packet that is due at the moment `now`, in milliseconds of the caller's clock, to the front of
    /// `out`, for the caller to send.
    pub fn due(
        &mut self,
        now: u64,
        out: &mut [u8],
        len: &mut usize,
        kind: &mut u32,
        handle: &mut u32,
    ) -> u32
        ensures small { length out.old < largest_datagram → (result ≡ 14) × (self.new ≡ self.old) }
        ensures link { largest_datagram ≤ length out.old →
            (result ≡ 0) × (self.new ≡ record self.old { link = gone_on now self.old.link }) }
        ensures writes { largest_datagram ≤ length out.old →
            (kind.new ≡ due_kind (due_answer (decision now self.old.link)))
            × (handle.new ≡ due_handle (due_answer (decision now self.old.link))) }
        ensures bytes { largest_datagram ≤ length out.old →
            LiesIn (due_bytes (decision now self.old.link)) out.new len.new }
        ensures unwritten { (result ≡ 0) ⊎ ((out.new ≡ out.old) × (len.new ≡ len.old)
            × (kind.new ≡ kind.old) × (handle.new ≡ handle.old)) }
    {
        if out.len() < MOST_BYTES {
            return Answer::TooSmall.number();
        }
        let mut packet = Packet::new();
        let due = match &mut self.link {
            AnyLink::Full(link) => link.due(now, &mut packet),
            AnyLink::Small(link) => link.due(now, &mut packet),
        };
        *len = put_front(packet.as_slice(), out);
        (*kind, *handle) = due_words(due);
        Answer::Done.number()
    }

    /// Handles a datagram that came from a peer at the moment `now`, in milliseconds of the caller's clock.
    pub fn datagram(
        &mut self,
        from: Peer,
        bytes: &[u8],
        now: u64,
        kind: &mut u32,
        answered: &mut u32,
    ) -> u32
        ensures done { result ≡ 0 }
        ensures link { (content : Option (List Msg)) → IsContent content bytes.now →
            let kept : Option (List Msg) = shortened self.old.rooms.answer content in
            self.new ≡ record self.old { link = received from kept now self.old.link } }
        ensures writes { (content : Option (List Msg)) → IsContent content bytes.now →
            let kept : Option (List Msg) = shortened self.old.rooms.answer content in
            (kind.new ≡ reception_kind (reception from kept self.old.link))
            × (answered.new ≡ answered_count (reception from kept self.old.link)) }
    {
        let reception = match &mut self.link {
            AnyLink::Full(link) => link.datagram(from, bytes, now),
            AnyLink::Small(link) => link.datagram(from, bytes, now),
        };
        (*kind, *answered) = reception_words(reception);
        Answer::Done.number()
    }

    /// Takes the answer under the handle `handle`, and removes the command.
    pub fn take(
        &mut self,
        handle: u32,
        status: &mut u32,
        count: &mut u32,
        out: &mut [u8],
        len: &mut usize,
    ) -> u32
        ensures small { length out.old < most_parameter_bytes → (result ≡ 14) × (self.new ≡ self.old) }
        ensures link { most_parameter_bytes ≤ length out.old →
            self.new ≡ record self.old { link = taken handle self.old.link } }
        ensures writes { most_parameter_bytes ≤ length out.old →
            WritesAnswer result status.new count.new out.new len.new (answer_under handle self.old.link.untaken) }
        ensures unwritten { (result ≡ 0) ⊎ ((status.new ≡ status.old) × (count.new ≡ count.old)
            × (out.new ≡ out.old) × (len.new ≡ len.old)) }
    {
        if out.len() < MOST_PARAMETER_BYTES {
            return Answer::TooSmall.number();
        }
        match self.link.take(handle) {
            Some(answer) => {
                *status = u32::from(answer.status);
                *count = u32::from(answer.count);
                *len = put_front(answer.params.as_slice(), out);
                Answer::Done.number()
            }
            None => Answer::Nothing.number(),
        }
    }

    /// Writes to `moment` the earliest moment at which something is due or the link is lost, in milliseconds of the
    /// caller's clock.
    pub fn next_due(&self, moment: &mut u64) -> u32
        ensures writes { WritesNextDue result moment.new self.now.link }
        ensures unwritten { (result ≡ 0) ⊎ (moment.new ≡ moment.old) }
    {
        let found = match &self.link {
            AnyLink::Full(link) => link.next_due(),
            AnyLink::Small(link) => link.next_due(),
        };
        match found {
            Some(due) => {
                *moment = due;
                Answer::Done.number()
            }
            None => Answer::Nothing.number(),
        }
    }

    /// Writes to `handle` the lowest handle whose answer came and was not taken yet.
    pub fn answered(&self, handle: &mut u32) -> u32
        ensures writes { WritesNumber result handle.new (first_answered self.now.link.untaken) }
        ensures unwritten { (result ≡ 0) ⊎ (handle.new ≡ handle.old) }
    {
        let found = match &self.link {
            AnyLink::Full(link) => link.answered(),
            AnyLink::Small(link) => link.answered(),
        };
        match found {
            Some(answered) => {
                *handle = answered.0;
                Answer::Done.number()
            }
            None => Answer::Nothing.number(),
        }
    }

    /// Writes to `in_flight` whether the command under the handle `handle` was submitted and has no answer yet.
    pub fn is_in_flight(&self, handle: u32, in_flight: &mut bool) -> u32
        ensures { (result ≡ 0) × (in_flight.new ≡ list_any (waits handle) self.now.link.untaken) }
    {
        *in_flight = match &self.link {
            AnyLink::Full(link) => link.is_in_flight(Handle(handle)),
            AnyLink::Small(link) => link.is_in_flight(Handle(handle)),
        };
        Answer::Done.number()
    }

    /// Writes to `handle` the handle that the next command gets.
    pub fn next_handle(&self, handle: &mut u32) -> u32
        ensures writes { WritesNumber result handle.new self.now.link.next }
        ensures unwritten { (result ≡ 0) ⊎ (handle.new ≡ handle.old) }
    {
        let found = match &self.link {
            AnyLink::Full(link) => link.next_handle(),
            AnyLink::Small(link) => link.next_handle(),
        };
        match found {
            Some(next) => {
                *handle = next.0;
                Answer::Done.number()
            }
            None => Answer::Nothing.number(),
        }
    }

    /// Writes to `moment` the moment, in milliseconds of the caller's clock, at which the last well-formed datagram
    /// came from the device.
    pub fn last_heard(&self, moment: &mut u64) -> u32
        ensures { (result ≡ 0) × (moment.new ≡ self.now.link.heard) }
    {
        *moment = match &self.link {
            AnyLink::Full(link) => link.last_heard(),
            AnyLink::Small(link) => link.last_heard(),
        };
        Answer::Done.number()
    }

    /// Writes to `lost` whether the link is lost: a command got no answer to 20 transmissions.
    pub fn is_lost(&self, lost: &mut bool) -> u32
        ensures { (result ≡ 0) × (lost.new ≡ self.now.link.lost) }
    {
        *lost = match &self.link {
            AnyLink::Full(link) => link.is_lost(),
            AnyLink::Small(link) => link.is_lost(),
        };
        Answer::Done.number()
    }

    /// Writes to `late` whether the link is late at the moment `now`, in milliseconds of the caller's clock: a command
    /// was submitted more than 15,000 ms ago and has no answer, whether it was sent or not.
    pub fn is_late(&self, now: u64, late: &mut bool) -> u32
        ensures { (result ≡ 0) × (late.new ≡ late_at now self.now.link) }
    {
        *late = match &self.link {
            AnyLink::Full(link) => is_late(link, now),
            AnyLink::Small(link) => is_late(link, now),
        };
        Answer::Done.number()
    }
}

/// The number of what is due.
fn due_words(due: Due) -> (u32, u32)
    ensures kind { result.0 ≡ due_kind due }
    ensures handle { result.1 ≡ due_handle due }
{
    match due {
        Due::Nothing => (0, 0),
        Due::Send(handle) => (1, handle.0),
        Due::KeepAlive => (2, 0),
        Due::Lost => (3, 0),
    }
}

/// The number of what a datagram was.
fn reception_words(reception: Reception) -> (u32, u32)
    ensures kind { result.0 ≡ reception_kind reception }
    ensures answered { result.1 ≡ answered_count reception }
{
    match reception {
        Reception::NothingNew => (0, 0),
        Reception::Answered(count) => (1, count),
        Reception::Stranger => (2, 0),
        Reception::Malformed => (3, 0),
    }
}
