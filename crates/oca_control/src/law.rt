//! The law of a link, over whole histories. Nothing here runs: the contracts are the law.
ghost use Rattle.oca_control.specs.Answering.{EveryAnswerIsKept, EveryDueCommandIsSent, EveryCommandIsSentInTime};
ghost use Rattle.oca_control.specs.Copies.{EveryCopyIsInTime, EveryStepIsInTime, EveryLateLinkStaysLate};
ghost use Rattle.oca_control.specs.Copies.{EveryCallInTimeGoesOn};
ghost use Rattle.oca_control.specs.Running.{EveryCallRuns, EveryRunGoesOn, EveryRunIsAsked, EveryEndInTimeServes};
ghost use Rattle.oca_control.specs.Running.{EveryOwnReceiveRuns, EveryBegunCommandIsInTime, EveryBegunCommandHasTime};
ghost use Rattle.oca_control.specs.Running.{EveryCommandHasTimeSoon, EveryScriptIsKept};
ghost use Rattle.oca_control.specs.Receptions.{EveryDatagramIsCounted};
ghost use Rattle.oca_control.specs.Histories.{EveryHistoryIsLawful, EveryLinkAgreesWithItsCalls, BytesHaveOneContent};

use oca_pdu::law_one_list_of_messages;

/// Law: what a link returns follows from the list of its calls alone, whatever this list is. The premises are a span of
/// at least 1 and, for the refusals, a first handle of 32 bits: each link has both. The clauses of
/// [`Link`](crate::Link) make the law a promise of every run of a link.
/// [`Link`](crate::Link) explains the words *handle*, *in flight*, *span*, *take*, *due*, *lost* and *link's clock*.
/// The function does nothing at run time.
///
/// - Handles: each accepted command gets its own handle. The handles rise by one from the first. The next handle is
///   above each handle in flight by at most the span.
/// - Refusals: a submit is refused in exactly four cases. The link is lost. No handle of 32 bits is left. The next
///   handle is not below each handle in flight plus the span. The parameters have more than 1,445 bytes.
/// - Transmissions: what is sent for a handle has the same bytes each time, a PDU of type 1 with its command alone
///   (AES70-3). It is sent at most 20 times, at least 250 ms apart by the link's clock.
/// - [`due`](crate::Link::due) returns the lowest handle that is unanswered and was not sent for 250 ms. If no handle
///   is, it returns a keep-alive if nothing was sent for 2,500 ms, and otherwise nothing. The link is lost exactly if
///   `due` finds a handle that was sent 20 times.
/// - [`take`](crate::Link::take) of a handle in flight returns the first answer to the handle that came in a
///   well-formed datagram of the device since the submit. It returns `None` if no answer came. The link cannot know
///   whether the answer is to a command that an earlier link of this address and port had under this handle.
/// - [`datagram`](crate::Link::datagram) returns `Stranger` if the sender is not the device, and otherwise `Malformed`
///   if the bytes are not well-formed. Otherwise it returns `Answered` with the number of commands in flight that got
///   their first answer, or `NothingNew` if none did. The same bytes always contain the same messages.
/// - `last_heard` is the clock at the last well-formed datagram of the device, and before the first one the moment of
///   the opening. `is_lost` is `true` if `due` has returned `Lost`. `answered` is the lowest handle in flight with an
///   answer.
pub fn law_of_histories()
    ensures law { EveryHistoryIsLawful }
    ensures datagrams { EveryDatagramIsCounted }
    ensures telling { EveryLinkAgreesWithItsCalls }
    ensures content { BytesHaveOneContent }
{
    law_one_list_of_messages();
}

/// Law: once an answer to a command has come, the link stores an answer to it until the answer is taken. The function
/// does nothing at run time.
///
/// - The words: a command is *in flight* from its submit until its answer is taken. [`take`](crate::Link::take) returns
///   an answer and removes its command from the link.
/// - The premise: a well-formed datagram of the device comes with a response to a command in flight. Anything else can
///   be in the datagram too.
/// - The conclusion: from then on the link stores an answer to this command until a take of its handle. This take
///   returns the first answer that came, as [`law_of_histories`] says.
pub fn law_of_answering()
    ensures { EveryAnswerIsKept }
{}

/// Law: a link that is asked often enough sends each command again until the command has its answer or the link is
/// lost. A link is *asked* if its [`due`](crate::Link::due) is called. A command is *due* while it is unanswered, and
/// was never sent or was last sent 250 ms ago or earlier. A link is *lost* once a command got no answer to 20
/// transmissions. The function does nothing at run time.
///
/// - If k commands are due at a moment, each of them is sent within k calls of `due` at that moment, or the link is
///   lost.
///
/// The other conclusions have one premise. From the submit of a command on, `due` is called at least every `ms`
/// milliseconds, and each time again as long as it returns `Send`:
/// - The link sends the command within `ms` of its submit, and again less than `250 + ms` after each transmission.
/// - The link does so until an answer came, the command was taken from the link, or the link is lost. One of these
///   comes within `ms + 20 * (250 + ms)` of the submit.
/// - With `ms` of 250 the link sends the command again in less than 500 ms. It has its answer or is lost after at most
///   10,250 ms.
pub fn law_of_sending()
    ensures due { EveryDueCommandIsSent }
    ensures in_time { EveryCommandIsSentInTime }
{}

/// Law: a link that runs over an end is asked often enough, which is the premise of [`law_of_sending`]. The function
/// does nothing at run time. The words:
/// - A link is *asked* if its [`due`](crate::Link::due) is called. [`Link`](crate::Link) explains *lost*, *late* and
///   *in flight*.
/// - A *run* is what [`drive`](crate::drive), [`turn`](crate::turn), [`send_due`](crate::send_due),
///   [`send_in_time`](crate::send_in_time), [`begin`](crate::begin), [`ask`](crate::ask), the waits and
///   [`take`](crate::Link::take) do with a link. Its *moments* are those of what the end delivered, and those at which
///   commands were begun, or `send_due` or `send_in_time` was called. If a program receives by itself,
///   [`datagram`](crate::Link::datagram) and then `send_in_time` at the same moment are a run with this moment. No
///   other call of [`submit`](crate::Link::submit), `due` or `datagram` that a program makes itself is part of a run.
/// - `ms` is a number of milliseconds, at most 500. A run is *steady* if each of its moments is at most `ms` after the
///   latest one before it, and the first one at most `ms` after the link's clock at the start of the run.
/// - *Nothing is left to send* if `due` returns `Nothing` at the moment of the link's clock.
/// - A command *waits* while it is in flight and has no answer. It *has time left* if it is answered, or if the
///   transmissions that are left to it, `250 + ms` apart, end at most 15,000 ms after its submit.
///
/// The conclusions, each with its premises:
/// - A run is steady, and when it began nothing was left to send and each command had time left: then the link is asked
///   every `ms` milliseconds, or it is lost. Each command that is begun in this run has time left, however many others
///   are in flight.
/// - No other command waited when a command was begun: then this command has time left, whatever the link did
///   before, unless the link is lost.
/// - A command was begun, each command had time left then, and the run that follows is steady: then the command is sent
///   at once, nothing is left to send, and the command is sent in time as long as it waits, unless the link is lost. If
///   `ms` is 50, it is sent again less than 300 ms after each transmission.
///
/// A run is steady over a recording end ([`End`](oca_net::End)) whose receives return within `ms` of one another. An
/// end in memory ([`MemoryEnd`](oca_net::MemoryEnd)) is such an end if the moments in its list of deliveries are. An
/// end at a socket is not a recording end. Its run is steady if the program comes back to receive in time, which no law
/// says.
pub fn law_of_running()
    ensures calls { EveryCallRuns }
    ensures own_receives { EveryOwnReceiveRuns }
    ensures goes_on { EveryRunGoesOn }
    ensures asked { EveryRunIsAsked }
    ensures over_an_end { EveryEndInTimeServes }
    ensures begun { EveryBegunCommandIsInTime }
    ensures others { EveryBegunCommandHasTime }
    ensures soon { EveryCommandHasTimeSoon }
    ensures in_memory { EveryScriptIsKept }
{}

/// Law: no transmission of a command leaves more than 15,000 ms after its submit if the link is never asked while it is
/// late. A link is *asked* if its [`due`](crate::Link::due) is called. A link is *late* while a command that was
/// submitted more than 15,000 ms ago has no answer ([`is_late`](crate::is_late)). The function does nothing at run
/// time.
///
/// - The premise: a list has all calls of a link from some moment on, and `due` is never called at a moment at which
///   the link is late. The other calls can be any. For the conclusion the link was new when the list begins.
/// - The conclusion: each transmission of a command leaves at most 15,000 ms after the submit of the command, by the
///   link's clock. This clock is the latest moment that the link was given.
/// - [`send_in_time`](crate::send_in_time), [`turn`](crate::turn), [`begin`](crate::begin), [`ask`](crate::ask) and the
///   waits ask the link only while it is not late. For what such a call does there is a list of calls of the link that
///   meets the premise and makes the same link. A recording end ([`End`](oca_net::End)) took just what these calls
///   send, for the link's device and in this order, except for the sends that failed. They receive just the datagrams
///   of at most 1,472 bytes that it delivered. They ask the link at moments of what it delivered, at the moment given
///   to `send_in_time`, or at that of the begin. Of an end that does not record, the law says how often was sent.
/// - Two lists that meet the premise, the second from where the first ends, meet it together. So the conclusion holds
///   of all that these calls hand to a recording end, one call after another, from a new link on.
/// - A link that is late at a moment is late at each later moment, if nothing is called between.
pub fn law_copies_in_time()
    ensures copies { EveryCopyIsInTime }
    ensures steps { EveryStepIsInTime }
    ensures goes_on { EveryCallInTimeGoesOn }
    ensures late { EveryLateLinkStaysLate }
{}
