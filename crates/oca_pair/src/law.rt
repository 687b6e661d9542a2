//! The laws of networks. The functions run nothing: their contracts are the laws.
//!
//! A schedule begins with a device that has heard nothing, and with links that gave nothing out. A step of a schedule
//! can *renew* a link: a new link with the same address and port takes its place, with any span and a clock of its own.
//! This happens if a panel goes on with a new link, or if its program is started again. The first handle of the new
//! link must not be lower than the handle that the next command of the old link would get. So it is above all handles
//! that the old link and the links before it gave. The laws say nothing of a link with a lower first handle at an
//! address and port that another link used before. Another step sends a keep-alive *beside* a link: from its address
//! and port, and without the link. [`run_pair`](crate::run_pair) makes both steps, with one clock for all
//! ([`Step`](crate::Step)).
ghost use Rattle.oca_pair.specs.Happenings.{TheseHappened};
ghost use Rattle.oca_pair.specs.Premises.{FewFindRoom};
ghost use Rattle.oca_pair.specs.Laws.{EveryFirstLinkIsAsSetUp, EveryScheduleAnswersItsCommands};
ghost use Rattle.oca_pair.specs.Laws.{NoUntakenCommandIsTooOld, EveryCommandIsExecutedOnce, OnlyRenewalsRenew};
ghost use Rattle.oca_pair.specs.RoundTrip.{EveryRoundTripBringsTheAnswer};
ghost use Rattle.oca_pair.specs.GettingThrough.{EveryCommandGetsThrough};
ghost use Rattle.oca_pair.specs.InTime.{EveryCommandInTimeIsExecutedOnce, EveryAnswerInTimeIsOfOneExecution};
ghost use Rattle.oca_pair.specs.InTime.{NoCopyInTimeFindsItsSessionForgotten, EveryRenewalIsInTime};
ghost use Rattle.oca_pair.specs.InTime.{EverySendingBesideIsInTime};
ghost use Rattle.oca_pair.specs.AnsweredInTime.{EveryUntakenCommandInTimeIsAnswered, FewerMayStillCome};
ghost use Rattle.oca_pair.specs.AnsweredInTime.{EveryRenewalIsNoted, EveryRoundTripInTimeBringsTheAnswer};
ghost use Rattle.oca_pair.specs.AnsweredInTime.{EveryCommandInTimeGetsThrough};
ghost use Rattle.oca_pair.specs.Saying.{OfEachAnswer, IsOfOneExecutionSince, RefusalsChangeNothing, OksSayWhatIsHeld};
ghost use Rattle.oca_pair.specs.Saying.{ReadingsWereHeld, SettingsWereMade, ClassesStay, ClassesMetAreThoseAtFirst};

use oca_model::{law_of_answers, law_of_requests};
use oca_pdu::{law_reading, law_written_is_read_back};
use oca_tree::law_of_typed_requests;

/// Law: over every schedule, each answer that a link gets is the answer to its own command. The device executed this
/// command exactly once for the link's peer if the peer kept its session. The law holds for all sizes of a device
/// ([`Sizes`](oca_types::Sizes)) and all spans of links ([`Span`](oca_types::Span)). The function does nothing at run
/// time. The words:
/// - A *schedule* is a list of steps of one device and some links ([`Step`](crate::Step)). No two links have the same
///   address and port, and no link has the device's. The device has any address, and each link was made at any moment.
/// - The *peer* of a link is its address and port.
/// - The device *executes* a command if it carries the command out on its objects, which gives the reply.
///   [`law_by_events`](oca_device::law_by_events) says which commands a device executes.
/// - The device *admits* a well-formed datagram if its peer has a session, or if there is room for a new session.
/// - A peer *keeps its session* if each of its admitted datagrams came at most 120,000 ms after the one before it.
///
/// The conclusions, for each answer that a link has, or that was taken from the link, under a handle:
/// - The link submitted a command under this handle.
/// - The device executed this very command for the link's peer. A datagram of the peer had brought this command alone.
/// - The answer is the reply of this execution.
/// - If the peer kept its session, this is the only execution for the peer under this handle.
///
/// The handle of each command that a link submitted is above the one before it, and by one if the link was never
/// renewed. A link is *renewed* if a new link of the same peer takes its place, with a first handle no lower than the
/// handle that the next command of the old link would get.
///
/// The clause `happened` says what happens at a device by its events: for any list of events whose datagrams are bytes,
/// that is what [`law_by_events`](oca_device::law_by_events) calls so.
pub fn law_answers()
    ensures answers { EveryScheduleAnswersItsCommands }
    ensures happened { TheseHappened }
{
    law_written_is_read_back();
    law_reading();
}

/// Laws: over every schedule and under the premises below, a datagram with a command in flight is answered, and no
/// command is executed twice. The function does nothing at run time. The words:
/// - [`law_answers`] explains *schedule*, *peer* and *keeps its session*.
/// - A command is *in flight* from its submit until its answer is taken from the link.
/// - A peer is *known* for 120,000 ms after each of its admitted datagrams. A datagram *finds room* if its peer is
///   known when it comes, or fewer peers are known than there is room for. A well-formed datagram that finds room is
///   *admitted*.
///
/// The first law has these premises:
/// - The link's *span fits the window*: the span `s` ([`Span`](oca_types::Span)) is at least 1, and the reply window
///   has `w` commands ([`Window`](oca_types::Window)), with `2 * s + k <= w + 1`. Here `k` is 0 if the link was never
///   *renewed*. If a new link took the place of another one, once or many times, `k` is how many commands the earlier
///   links of the peer left unanswered, all together.
/// - A datagram with a command that is still in flight at its link is delivered to the device.
/// - The datagram finds room, and the link's peer kept its session, this datagram counted.
///
/// The device then answers the datagram: it executes the command now, or finds the command's reply in the reply window.
/// It never rejects the command as old, and never treats it as another command under its handle.
///
/// The second law holds for all sizes: no command of a link is executed twice if its peer kept its session.
///
/// The clause `never`: a schedule without a step that renews a link renews none. The clause `set_up`: if a link was
/// never renewed, `k` is 0, and the link has the span that it was set up with. Renewals of other links do not matter.
///
/// The third law holds for all sizes: a datagram finds room if at most as many peers as there is room for sent
/// well-formed datagrams in the last 120,000 ms, its own peer counted.
pub fn law_never_old()
    ensures answered { NoUntakenCommandIsTooOld }
    ensures once { EveryCommandIsExecutedOnce }
    ensures room { FewFindRoom }
    ensures never { OnlyRenewalsRenew }
    ensures set_up { EveryFirstLinkIsAsSetUp }
{
    law_written_is_read_back();
}

/// Law: over every schedule, one delivered command and the delivered response bring the answer to the link. The
/// function does nothing at run time. [`law_never_old`] explains the words.
///
/// The premises:
/// - The link's span fits the reply window, as in [`law_never_old`]. So the link may have been renewed before.
/// - The link is not renewed from this delivery on until that response is delivered: no new link takes its place.
/// - A datagram with a command that is still in flight at its link is delivered to the device.
/// - The datagram finds room, and the link's peer kept its session, this datagram counted.
///
/// The device then sends one datagram to the link. Any steps but a renewal of this link may follow until this datagram
/// is delivered to the link: no further premise is needed. The conclusions:
/// - If the command was still in flight just before that delivery, the link then has the command's answer.
/// - Otherwise the answer was taken earlier.
/// - The answer is the reply of an execution of that very command for the link's peer.
/// - If the peer kept its session until that delivery, the answer is the reply that this datagram carried.
pub fn law_round_trip()
    ensures { EveryRoundTripBringsTheAnswer }
{
    law_written_is_read_back();
}

/// Law: over every schedule ([`law_answers`]), a command of a link that is asked often enough is answered, or the link
/// is lost, or the command still waits and was sent in time. A link is *asked* if its [`due`](oca_control::Link::due)
/// is called, and *lost* once a command got no answer to 20 transmissions. The function does nothing at run time.
///
/// The premises:
/// - The link's span fits the reply window at the submit of the command, as in [`law_never_old`]. So the link may have
///   been renewed before.
/// - The link is not renewed from the submit on: no new link takes its place.
/// - The link is asked at least every `ms` milliseconds from the submit of the command on, each time until `due`
///   returns no command.
///
/// One of these then holds of each command that the link submitted:
/// - The link has the command's answer, or the answer was taken from the link.
/// - The link is lost.
/// - The command still waits, and was sent in time: within `ms` of its submit, and again less than `250 + ms` after
///   each transmission, with the same bytes. It waits no longer than `ms + 20 * (250 + ms)` after its submit.
///
/// While the command waits, one transmission that arrives at the device and the one response that comes back are
/// enough, as [`law_round_trip`] says under its premises. What the device, the other links and the network do is left
/// open: datagrams may be lost, duplicated or reordered.
pub fn law_getting_through()
    ensures { EveryCommandGetsThrough }
{
    law_written_is_read_back();
}

/// Laws: over every schedule, no command of a link is executed twice if the link and the network are in time. The laws
/// hold for all sizes, whatever sessions the device forgot meanwhile, and whatever happened to the other links. They
/// hold too if the link is *renewed*, once or many times: a new link with the same address and port takes its place,
/// with any span and a clock of its own, and with a first handle no lower than the handle that the next command of the
/// old link would get. The premises must then hold for the links before it too. A *schedule* is a list of steps of one
/// device and some links with different addresses and ports ([`Step`](crate::Step)). The function does nothing at run
/// time.
///
/// The premises, which are what *in time* means:
/// - The link is never asked what is due while it is late. It is *asked* if its [`due`](oca_control::Link::due) is
///   called. It is *late* while a command that was submitted more than 15,000 ms ago has no answer.
/// - Each of the link's datagrams that comes to the device comes no earlier than it left, and at most 100,000 ms later.
///   The moment of leaving is by the link's clock. That of coming is by the device's clock and the time that this clock
///   has left out: before each event it may leave out any time, such as a standstill. So the premise says that the
///   network holds nothing longer than 100,000 ms, and that the device's clock is never faster than the link's. The
///   clocks may have counted from different moments. A datagram that never comes does not matter. A keep-alive that was
///   sent beside the link, from its address and port, counts as one of its datagrams.
///
/// The conclusions:
/// - No two executions for the link's peer, which is its address and port, are of one handle.
/// - Each answer that the link has or returned is the reply of the only execution under its handle.
/// - If a transmission of a command that was executed comes to the device, the device has not forgotten the session in
///   which the command was executed. This coming is in time, too.
///
/// The clauses `renewal` and `beside` say how little *in time* asks: nothing of a renewal, at any moment, and nothing
/// of the sending of a keep-alive beside the link, which must be in time when it comes. They hold by the definition of
/// *in time*, and are stated so that no narrower definition can take its place.
///
/// A schedule has one device from its beginning to its end. Nothing is proved of a device that is started again.
pub fn law_once_in_time()
    ensures once { EveryCommandInTimeIsExecutedOnce }
    ensures answers { EveryAnswerInTimeIsOfOneExecution }
    ensures session { NoCopyInTimeFindsItsSessionForgotten }
    ensures renewal { EveryRenewalIsInTime }
    ensures beside { EverySendingBesideIsInTime }
{
    law_written_is_read_back();
}

/// Laws: over every schedule, a command in flight is answered if the link and the network are in time, whatever the
/// device forgot meanwhile. A *schedule* is a list of steps of one device and some links with different addresses and
/// ports ([`Step`](crate::Step)). [`law_once_in_time`] explains *in time*. It is a premise of all laws below except
/// `fewer` and `noted`, and must hold of the earlier links at the same address and port too. The function does nothing
/// at run time.
///
/// Another premise is that the link's *span fits the window* from the submit of the command on: the span `s`
/// ([`Span`](oca_types::Span)) is at least 1, and the reply window has `w` commands ([`Window`](oca_types::Window)),
/// with `2 * s + k <= w + 1`. Here `k` is 0 if the link was never *renewed* (a new link takes its place). Otherwise `k`
/// is how many commands the earlier links of the peer left unanswered, but without those of a link that left off more
/// than 100,000 ms before the submit. A link *leaves off* when its clock was read last by a call that keeps the moment.
/// A refused submit keeps no moment, and a keep-alive beside the link is no call of it.
///
/// The conclusions:
/// - Answered: if a datagram with a command in flight is delivered and finds room ([`law_never_old`] explains these
///   words), the device answers it: it executes the command now, or finds the command's reply in the reply window.
/// - Round trip: if the datagram with this answer is delivered to the link, the link then has the command's answer, or
///   the answer was taken earlier, as in [`law_round_trip`]. The link is not renewed in between.
/// - Getting through: if the link is not renewed from the submit on, and is asked at least every `ms` milliseconds,
///   then it has or gave the answer, or is lost, or the command waits and was sent in time, as in
///   [`law_getting_through`]. While the command waits, one transmission that arrives and finds room, and the one
///   response that comes back, are enough.
/// - Fewer: `k` is at most that of [`law_never_old`].
/// - Noted: a renewal adds nothing to `k` if the old link left off more than 100,000 ms before the submit, or if all
///   its commands had answers. So `k` is 0 if all earlier links left off so long before.
///
/// [`law_never_old`], [`law_round_trip`] and [`law_getting_through`] ask that the peer kept its session. Here it does
/// not matter how long the peer was silent before.
pub fn law_answered_in_time()
    ensures answered { EveryUntakenCommandInTimeIsAnswered }
    ensures round_trip { EveryRoundTripInTimeBringsTheAnswer }
    ensures getting_through { EveryCommandInTimeGetsThrough }
    ensures fewer { FewerMayStillCome }
    ensures noted { EveryRenewalIsNoted }
{
    law_written_is_read_back();
}

/// Laws: over every schedule and for all sizes, the answer to a command is true of the device if the link and the
/// network are in time. A *schedule* is a list of steps of one device and some links with different addresses and ports
/// ([`Step`](crate::Step)). [`law_once_in_time`] explains *in time*, which is a premise of all laws below except Class.
/// The function does nothing at run time.
///
/// The laws hold of each answer that a link has at the end, or returned before, to a command that it submitted in a
/// step. The *execution* is that of this command by the device.
/// - Between: the answer is the reply of the only execution. This happened in a step after the submit, which delivered
///   a transmission of the command to the device. The execution began with the objects that the device had then by
///   [`law_by_events`](oca_device::law_by_events). Afterwards the device had the objects that the execution left.
/// - Refused: if the status is not OK, the execution changed nothing, and the status is the first that applies.
/// - OK: if the status is OK, what is read is what the object with the command's number answered. The execution left
///   this object as the request makes it, and the other objects as they were.
/// - Reads: what is read of an OK answer to a get method is the object's value, with its limits, at a moment between
///   the submit and the answer.
/// - Sets: if a set method is answered OK, the execution set the object to the value, once. The object's value was then
///   this value, with the limits that the object had.
/// - Class: the class of the object with a number never changes in a schedule. So the answer to GetClassIdentification
///   stays true.
/// - Met: each object with which the execution began has the class that the object with its number had at first, and
///   there are no other numbers. So a caller that knows the class at first can read the answer by it, as OK and Reads
///   ask: the laws of `oca_promise` do.
///
/// OK, Reads and Sets have two more premises. The device's objects were a tree at first, with texts and numbers of
/// their types; [`Tree::len`](oca_tree::Tree::len) ensures both of each tree. The answer is read by the object's class,
/// and a value that is set is of this class. OK also holds of an answer to a method of OcaRoot or OcaWorker (AES70-2),
/// read by any class. A command without an answer was executed at most once ([`law_once_in_time`]).
pub fn law_of_what_is_said()
    ensures between { OfEachAnswer IsOfOneExecutionSince }
    ensures refused { OfEachAnswer RefusalsChangeNothing }
    ensures ok { OfEachAnswer OksSayWhatIsHeld }
    ensures reads { OfEachAnswer ReadingsWereHeld }
    ensures sets { OfEachAnswer SettingsWereMade }
    ensures class { ClassesStay }
    ensures met { OfEachAnswer ClassesMetAreThoseAtFirst }
{
    law_written_is_read_back();
    law_of_requests();
    law_of_answers();
    law_of_typed_requests();
}
