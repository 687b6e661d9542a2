//! The link of a controller to a device.
ghost use Rattle.std.specs.Prelude.{◌≡◌, ◌≤◌, ◌<◌, ℕ, max, if◌then◌else◌, length, List, Option, Some, None};
ghost use Rattle.std.specs.Prelude.{MatchOption, min, map, option_map};
ghost use Rattle.oca_types.specs.Sizes.{span_size};
ghost use Rattle.oca_control.specs.Answers.{answer_fields};
ghost use Rattle.oca_control.specs.Contents.{IsContent};
ghost use Rattle.oca_control.specs.Untaken.{hears, answers_by, hears_all, answers_by_all, first_answered};
ghost use Rattle.oca_control.specs.Untaken.{answer_under, waits};
ghost use Rattle.std.specs.List.{list_any};
ghost use Rattle.oca_control.specs.Links.{reception_counted, late_at, new_link, submission_within, submitted_within};
ghost use Rattle.oca_control.specs.Links.{decision, due_answer, due_bytes, gone_on, IsNextDue, NeverIsDue, reception};
ghost use Rattle.oca_control.specs.Links.{present_moment, received, request_with, taken, most_command_parameter_bytes};
ghost use Rattle.oca_control.specs.Steps.{ReceivesWithin};
ghost use Rattle.oca_control.specs.Shortening.{shortened, shortened_message};
ghost use Rattle.oca_control.specs.PrivateSlots.{AreShortResponses, IsShortResponse};
ghost use Rattle.oca_control.specs.PrivateSlots.{Msg, msg_of, most_messages, messages_left};

use crate::answer::Answer;
use crate::due::Due;
use crate::fault::ControlFault;
use crate::moments::{later, latest};
use crate::reception::Reception;
use crate::table::Table;
use oca_pdu::{Form, Message, Messages, check, write_keepalive};
use oca_types::{
    Handle, MOST_COMMAND_PARAMETER_BYTES, MethodId, Ono, Packet, Peer, Request, Span, sooner,
};
use std::fmt;
use std::marker::Model;

/// A keep-alive is sent after so many milliseconds without anything.
const KEEP_ALIVE_MS: u64 = 2500;

/// A controller's link to one device: it decides what is sent and when, and stores the answers. No call takes memory.
/// The commands, at most 32, lie in the link itself, each with its answer. So what the link takes in bytes follows from
/// the longest command and the longest answer:
/// - `COMMAND` is the number of bytes of parameters that a command may have, and at most 1,445 count. A longer command
///   is refused.
/// - `ANSWER` is the number of bytes of parameters that an answer may have. An answer with more is stored with the
///   status BufferOverflow (14, AES70-2), ParamCount 0 and no parameters. The device executed the command or refused
///   it, and what it said is not known. The command is answered, so it is not sent again. With 1,452 or more bytes each
///   answer is stored as it came.
///
/// [`Link`] has room for each command and answer of a datagram, and [`SmallLink`] takes 12 kB.
///
/// The words of its calls:
/// - The *handle* of a command is a 32-bit number (AES70-3), which the link gives the command at its submit.
/// - A command is *in flight* from its submit until its answer is taken. A call *takes* an answer if the call returns
///   the answer and removes the command from the link.
/// - The *span* limits the commands in flight: a new handle is lower than the lowest handle in flight plus the span
///   ([`Span`]).
/// - A command is *due* if it has no answer, and was never sent or was last sent 250 ms ago or earlier. A keep-alive is
///   due if no command is due and nothing was sent for 2,500 ms.
/// - The link is *lost* once a command got no answer to 20 transmissions. A lost link sends nothing more and refuses
///   each command. It still stores answers.
/// - The link is *late* while a command that was submitted more than 15,000 ms ago has no answer
///   ([`is_late`](crate::is_late)).
/// - The *link's clock* is the latest moment that the link was given, in milliseconds of a clock of the caller. An
///   earlier moment is treated as that latest moment. The caller gives the link each datagram with its moment.
#[derive(Drop)]
pub struct LinkOf<const COMMAND: usize, const ANSWER: usize> {
    device: Peer,
    moment: u64,
    sent: u64,
    heard: u64,
    lost: bool,
    span: Span,
    table: Table<COMMAND, ANSWER>,
}

/// A link with room for each command and each answer that a datagram holds: commands with 1,445 bytes of parameters,
/// and answers with 1,452 bytes. It takes 94,520 bytes. [`LinkOf`] has its calls, and explains their words.
pub type Link = LinkOf<1445, 1452>;

/// A link in at most 12,288 bytes, for a panel that sets and reads single values: commands with 64 bytes of parameters,
/// and answers with 264 bytes. A longer answer becomes the status BufferOverflow without parameters ([`LinkOf`]). It
/// has the calls of [`LinkOf`], and [`send_in_time`](crate::send_in_time), [`send_due`](crate::send_due) and
/// [`is_late`](crate::is_late) work with it. The other calls over an end take a [`Link`].
pub type SmallLink = LinkOf<64, 264>;

const _: () = prove!(std::mem::size_of::<Link>() == 94_520);

const _: () = prove!(std::mem::size_of::<SmallLink>() <= 12_288);

impl<const COMMAND: usize, const ANSWER: usize> Model for LinkOf<COMMAND, ANSWER> {
    ghost use Rattle.std.specs.Prelude.{◌≤◌, length};
    ghost use Rattle.oca_types.specs.Sizes.{span_size};
    ghost use Rattle.oca_control.specs.Links.{LinkState};
    ghost use Rattle.oca_control.specs.PrivateSlots.{handle_left};

    ghost Value = { LinkState };

    ghost view = { λ l. record {
      device = l.device;
      moment = l.moment;
      next = handle_left l.table.next;
      sent = l.sent;
      heard = l.heard;
      lost = l.lost;
      span = span_size l.span;
      untaken = l.table.untaken;
    } };

    ghost invariant = { λ l. length l.table.untaken ≤ span_size l.span };
}

impl<const COMMAND: usize, const ANSWER: usize> LinkOf<COMMAND, ANSWER> {
    /// Makes a link to the device at the address `device`. Nothing is sent, no memory is taken, and nothing is refused.
    /// The arguments:
    /// - `first_handle` is the handle of the first command, 0 to 4294967295. Each later handle is one higher.
    /// - `now` is the present moment, in milliseconds of the caller's clock, and any 64-bit number.
    /// - `span` is the span, 1 to 32 with the default 16 (*profile*). A new handle is lower than the lowest handle in
    ///   flight plus `span`. A command is in flight from its submit until its answer is taken.
    ///
    /// A device remembers what it executed for an address and port until it has heard nothing from there for 120
    /// seconds. The first handle must be above all handles that an earlier link used from this address and port in that
    /// time. Otherwise:
    /// - The device may leave a command unanswered, as an old one or as another command under a used handle.
    /// - A late answer to a command of the earlier link is treated as the answer to this link's command under that
    ///   handle.
    pub fn new(device: Peer, first_handle: Handle, now: u64, span: Span) -> Self
        ensures { result ≡ new_link device first_handle.0 now (span_size span) }
    {
        LinkOf {
            device,
            moment: now,
            sent: now,
            heard: now,
            lost: false,
            span,
            table: Table::new(first_handle),
        }
    }

    /// Submits a command, to be sent when it is due, and returns its handle (AES70-3). `target` is the number of the
    /// object, `method` has the method's DefLevel and MethodIndex, and `count` is ParamCount. `params` are the encoded
    /// parameters, which are copied and not checked. `now` is the moment in milliseconds of the caller's clock. Nothing
    /// is sent: [`due`](Link::due) gives the bytes. No memory is taken.
    ///
    /// Refusals, the first that applies, which change nothing, not even the link's clock:
    /// - `Lost` if the link is lost.
    /// - `HandlesSpent` if a command has the handle 4294967295 already.
    /// - `SpanFull` if the next handle is not below the lowest handle whose answer was not taken yet, plus the span.
    /// - `TooLong` if the parameters have more than `COMMAND` bytes or more than 1,445: for a [`Link`] more than 1,445.
    pub fn submit(
        &mut self,
        target: Ono,
        method: MethodId,
        count: u8,
        params: &[u8],
        now: u64,
    ) -> Result<Handle, ControlFault>
        ensures answer { let request = request_with target method count params.now in
            result ≡ submission_within (min COMMAND most_command_parameter_bytes) request self.old }
        ensures link { let request = request_with target method count params.now in
            self.new ≡ submitted_within (min COMMAND most_command_parameter_bytes) request now self.old }
    {
        if self.lost {
            return Err(ControlFault::Lost);
        }
        let Some(handle) = self.table.next() else {
            return Err(ControlFault::HandlesSpent);
        };
        if !self.table.has_room(self.span.get()) {
            return Err(ControlFault::SpanFull);
        }
        if params.len() > COMMAND.min(MOST_COMMAND_PARAMETER_BYTES) {
            return Err(ControlFault::TooLong);
        }
        self.moment = self.moment.max(now);
        let request = Request {
            target,
            method,
            count,
            params,
        };
        self.table.submit(request, self.moment);
        Ok(handle)
    }

    /// Puts what is due at the moment `now` into `packet`, for the caller to send to the device. `now` is in
    /// milliseconds of the caller's clock. `packet` is emptied first. Call it until it returns `Nothing` or `Lost`.
    ///
    /// The first that applies (the numbers are the profile's):
    /// - `Lost`, with an empty packet, if the link is lost, or becomes lost now: of the commands that are due, the one
    ///   with the lowest handle was sent 20 times. A command is due if it has no answer, and was never sent or was last
    ///   sent 250 ms ago or earlier.
    /// - `Send` with the lowest handle of the commands that are due. Its bytes are the same at each transmission.
    /// - `KeepAlive` if nothing was sent for 2,500 ms: a keep-alive with a heartbeat of 5 seconds (AES70-3).
    /// - `Nothing`, with an empty packet.
    pub fn due(&mut self, now: u64, packet: &mut Packet) -> Due
        ensures answer { result ≡ due_answer (decision now self.old) }
        ensures packet { packet.new.items ≡ due_bytes (decision now self.old) }
        ensures link { self.new ≡ gone_on now self.old }
    {
        packet.clear();
        self.moment = self.moment.max(now);
        if self.lost {
            return Due::Lost;
        }
        match self.table.give_first(self.moment, packet) {
            Some(Due::Lost) => {
                self.lost = true;
                Due::Lost
            }
            Some(due) => {
                self.sent = self.moment;
                due
            }
            None => {
                if self.moment.saturating_sub(self.sent) < KEEP_ALIVE_MS {
                    return Due::Nothing;
                }
                self.sent = self.moment;
                let _ = write_keepalive(packet, Form::Seconds(5));
                Due::KeepAlive
            }
        }
    }

    /// Handles the datagram `bytes` that came from the address `from` at the moment `now`, in milliseconds of the
    /// caller's clock, and returns what became of it. In all cases the link's clock moves on to `now`, and never back.
    /// No memory is taken.
    ///
    /// The first that applies:
    /// - `Stranger` if the address or the port is not the device's: nothing else is changed.
    /// - `Malformed` if the bytes are no well-formed datagram (AES70-3): nothing else is changed.
    /// - `Answered` with the number of commands that got their first answer in it, 1 or more. Each such answer is
    ///   stored. If its parameters have more than `ANSWER` bytes, it is stored with the status BufferOverflow and
    ///   without parameters ([`LinkOf`]). A [`Link`] has room for each answer.
    /// - `NothingNew` if no command got its first answer.
    ///
    /// After the last two [`last_heard`](Link::last_heard) is this moment. Commands and keep-alives in the datagram do
    /// nothing else. A lost link stores answers too.
    pub fn datagram(&mut self, from: Peer, bytes: &[u8], now: u64) -> Reception
        ensures receives { ReceivesWithin ANSWER from bytes.now now self.old result self.new }
        ensures answer { (content : Option (List Msg)) → IsContent content bytes.now →
            result ≡ reception from (shortened ANSWER content) self.old }
        ensures link { (content : Option (List Msg)) → IsContent content bytes.now →
            self.new ≡ received from (shortened ANSWER content) now self.old }
    {
        self.moment = self.moment.max(now);
        if from != self.device {
            return Reception::Stranger;
        }
        match check(bytes) {
            Ok(datagram) => {
                self.heard = self.moment;
                counted(hear_all(&mut self.table, datagram.messages()))
            }
            Err(_) => Reception::Malformed,
        }
    }

    /// Takes the answer to the command with this handle, and removes the command from the link. The answer has the
    /// status and the parameters as the device sent them, or BufferOverflow and none if they were too long
    /// ([`LinkOf`]). `None` if no answer is there, as for a handle that no command
    /// has: then nothing is changed. A lost link gives its answers too.
    pub fn take(&mut self, handle: Handle) -> Option<Answer>
        ensures answer { option_map answer_fields result ≡ answer_under handle.0 self.old.untaken }
        ensures link { self.new ≡ taken handle.0 self.old }
    {
        self.table.take(handle)
    }

    /// The earliest moment at which [`due`](Link::due) does not return `Nothing`: a loop may wait until then. The
    /// moment is in milliseconds of the caller's clock, and not before the latest moment that the link was given. For a
    /// new link it is 2,500 ms after the link was made, when a keep-alive is due. For a lost link it is the latest
    /// moment that the link was given. `None` if the moment does not fit 64 bits. Nothing is changed.
    pub fn next_due(&self) -> Option<u64>
        ensures { MatchOption result (NeverIsDue self.now) (λ t. IsNextDue self.now t) }
    {
        if self.lost {
            return Some(self.moment);
        }
        match sooner(self.table.due_from(), later(self.sent, KEEP_ALIVE_MS)) {
            Some(first) => Some(latest(first, self.moment)),
            None => None,
        }
    }

    /// The lowest handle whose answer came and was not taken yet. `None` if no answer waits, as in a new link. The
    /// answer stays: [`take`](Link::take) takes it.
    pub fn answered(&self) -> Option<Handle>
        ensures { option_map (λ h. h.0) result ≡ first_answered self.now.untaken }
    {
        self.table.answered()
    }

    /// Whether a command with this handle was submitted and has no answer yet. `false` for a command whose answer came
    /// and was not taken: that command is still *in flight* in the sense of [`Link`], and keeps its place in the span.
    /// `false` too for a command whose answer was taken, and for a handle that no command has. In a lost link the
    /// commands without an answer stay `true`. So a wait can end at once if the result is `false` and
    /// [`take`](Link::take) returns `None`. Nothing is changed.
    pub fn is_in_flight(&self, handle: Handle) -> bool
        ensures { result ≡ list_any (waits handle.0) self.now.untaken }
    {
        self.table.waits(handle)
    }

    /// The handle that the next command gets. At first it is the first handle that the link was given, and each command
    /// moves it up by one. `None` once a command has the handle 4294967295: [`submit`](Link::submit) then refuses.
    pub fn next_handle(&self) -> Option<Handle>
        ensures { option_map (λ h. h.0) result ≡ self.now.next }
    {
        self.table.next()
    }

    /// The moment, in milliseconds of the caller's clock, at which the last well-formed datagram from the device came.
    /// Before the first one it is the moment at which the link was made. A datagram from another address, and one that
    /// is not well-formed (AES70-3), do not move it.
    ///
    /// A device that is there and has room for a session returns each keep-alive. So the moment is little more than
    /// 2,500 ms old while the link is driven and no command waits. While a command waits, it is sent again and no
    /// keep-alive is sent. A device that ignores that command, because another command had its handle on this address
    /// and port, is then not heard.
    pub fn last_heard(&self) -> u64
        ensures { result ≡ self.now.heard }
    {
        self.heard
    }

    /// Whether the link is lost: a command got no answer to 20 transmissions, and [`due`](Link::due) found that.
    /// `false` at first. A lost link stays lost, sends nothing more and takes no command; answers that still come are
    /// stored and can be taken. A link that is late is not lost: see [`is_late`](crate::is_late).
    pub fn is_lost(&self) -> bool
        ensures { result ≡ self.now.lost }
    {
        self.lost
    }
}

impl<const COMMAND: usize, const ANSWER: usize> LinkOf<COMMAND, ANSWER> {
    /// The device's address.
    pub(crate) fn device(&self) -> Peer
        ensures { result ≡ self.now.device }
    {
        self.device
    }

    /// Whether a command is late at this moment.
    pub(crate) fn late_at(&self, now: u64) -> bool
        ensures { result ≡ late_at now self.now }
    {
        self.table.is_late(latest(self.moment, now))
    }

    /// The present moment where an end says this one: the link's own, where that is later.
    pub(crate) fn moment_at(&self, now: u64) -> u64
        ensures { result ≡ present_moment now self.now }
    {
        latest(self.moment, now)
    }

    /// The span, at most 32: at most as many commands are in flight.
    pub(crate) fn span(&self) -> u8
        ensures span { result ≡ self.now.span }
        ensures most { result ≤ 32 }
        ensures few { length self.now.untaken ≤ self.now.span }
    {
        self.span.get()
    }
}

impl<const COMMAND: usize, const ANSWER: usize> fmt::Debug for LinkOf<COMMAND, ANSWER> {
    /// The device's address, the span, the present moment, that of the last datagram from the device, and whether the
    /// link is lost.
    fn fmt<W: fmt::Write>(&self, f: &mut fmt::Formatter<W>) -> fmt::Result {
        f.debug_struct("Link")
            .field("device", &self.device)
            .field("span", &self.span.get())
            .field("moment", &self.moment)
            .field("heard", &self.heard)
            .field("lost", &self.lost)
            .finish()
    }
}

/// What is answered where so many commands were.
fn counted(answered: u32) -> Reception
    ensures { result ≡ reception_counted answered }
{
    match answered {
        0 => Reception::NothingNew,
        _ => Reception::Answered(answered),
    }
}

/// Takes the responses among the messages in, and returns how many commands they answer.
fn hear_all<const COMMAND: usize, const ANSWER: usize>(
    table: &mut Table<COMMAND, ANSWER>,
    messages: Messages<'_>,
) -> u32
    requires few { length (messages_left messages) ≤ most_messages }
    requires short { AreShortResponses (messages_left messages) }
    ensures answered { let all = map (shortened_message ANSWER) (messages_left messages.entry) in
        result ≡ answers_by_all all table.old.untaken }
    ensures table { let all = map (shortened_message ANSWER) (messages_left messages.entry) in
        table.new ≡ record { next = table.old.next; untaken = hears_all all table.old.untaken } }
{
    let mut answered = 0;
    for message in messages {
        if hear(table, message) {
            answered += 1;
        }
    }
    answered
}

/// Takes a message in, and returns whether it is a response that a command waited for.
fn hear<const COMMAND: usize, const ANSWER: usize>(
    table: &mut Table<COMMAND, ANSWER>,
    message: Message<'_>,
) -> bool
    requires { IsShortResponse (msg_of message) }
    ensures answered { let heard = shortened_message ANSWER (msg_of message.entry) in
        (if result then 1 else 0) ≡ answers_by heard table.old.untaken }
    ensures table { let heard = shortened_message ANSWER (msg_of message.entry) in
        table.new ≡ record { next = table.old.next; untaken = hears heard table.old.untaken } }
{
    match message {
        Message::Response {
            handle,
            status,
            count,
            params,
        } => table.answer(handle, status, count, params),
        Message::Command { .. } => false,
        Message::KeepAlive { .. } => false,
    }
}
