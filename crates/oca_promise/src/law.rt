//! The laws of a panel's calls and of its commands in flight. The functions run nothing: their contracts are the laws.
ghost use Rattle.oca_pair.specs.Saying.{IsOfOneExecutionSince, RefusalsChangeNothing};
ghost use Rattle.oca_promise.specs.Calls.{EveryAnsweredCallKeeps, EveryCallIsInTime};
ghost use Rattle.oca_promise.specs.Promises.{EverySetKeeps, EveryRefusedSetKeeps, EveryReadingKeeps, EveryGetKeeps};
ghost use Rattle.oca_promise.specs.Promises.{EveryLockKeeps, EveryUnlockKeeps, EveryClassKeeps, EveryRoleKeeps};
ghost use Rattle.oca_promise.specs.Promises.{EveryLabelKeeps, EveryMembersKeep, EveryDescriptionKeeps};
ghost use Rattle.oca_promise.specs.Renewals.{EveryCallBesideIsAStep, EveryKeepAliveIsAStep, EveryRenewalIsAStep};
ghost use Rattle.oca_promise.specs.Flights.{EveryAnsweredFlightKeeps, EveryFlightIsInTime, EverySetInFlightKeeps};
ghost use Rattle.oca_promise.specs.Flights.{EveryReadingInFlightKeeps, EveryAnswerInFlightKeeps};

use oca_pair::law_of_what_is_said;
use oca_pdu::law_reading;

/// Laws: what a panel's calls return is true of the device if the link and the network are in time. The laws hold in
/// every network in which the calls are made. The calls are those of [`Panel`](oca_panel::Panel). The function does
/// nothing at run time. The words and the premises:
/// - A *network* is a schedule of `oca_pair` ([`Step`](oca_pair::Step)), which is a list of steps of one device and
///   some links. The panel's end delivered what the device of the network sent to the panel's link.
/// - *In time*: the premises of [`law_of_what_is_said`](oca_pair::law_of_what_is_said) hold. The link is never asked
///   what is due while a command that was submitted more than 15,000 ms ago has no answer (the link is then *late*).
///   Each of its datagrams that comes to the device comes no earlier than it left, and at most 100,000 ms later.
/// - From "Set" on: the device's objects were a tree at first, with texts and numbers of their types.
///   [`Tree::len`](oca_tree::Tree::len) ensures both of each tree.
///
/// The conclusions:
/// - Once: each answer is the reply of the only execution of the call's command. The execution lies between the call
///   and its return.
/// - In time: no call sends while its link is late, if no datagram of another sender was delivered.
/// - Refused: a call that was refused with a status changed no object.
/// - Set: if `set` returns Ok, the object was set to the value, if it is of the value's class.
/// - Get: what `get` returns is the object's value at a moment during the call.
/// - Reading: what `reading_of` returns is the object's value with its limits at a moment during the call, if the
///   object is of the class that was given.
/// - Members: the numbers are those of the block's members when the device executed the question, which lies between
///   the call and its return, if the object is a block.
/// - Lock and unlock: the object was locked for this peer, or its lock was released.
/// - Class: the class is the object's. So it is of the class that a walk returns of an object.
/// - Role and label: the text is the object's when the device executed the question, which lies between the call and
///   its return. So it is of the role that a walk returns of an object.
/// - Renewal: after [`renew`](oca_panel::Panel::renew) the panel's link is the link of the same network after a step
///   that renews it, so all this holds of its later calls too. The new link must be to the same device, with a first
///   handle no lower than the handle that the next command of the old link would get.
/// - Beside: [`call`](oca_panel::Panel::call) to the link's device sends what a step of the network sends beside the
///   link, and the panel's link is the link of the same network after that step. So all this holds of its later calls
///   too.
/// - Keep-alive: [`keep_alive`](oca_panel::keep_alive) to a link's device sends what that step of the network sends,
///   and the link is the same afterwards. So does each keep-alive of [`probe`](oca_panel::probe).
///
/// If the end does not record what it delivers, all this holds of some deliveries and an answer that fit the call.
pub fn law_of_calls()
    ensures once { EveryAnsweredCallKeeps IsOfOneExecutionSince }
    ensures in_time { EveryCallIsInTime }
    ensures refused { EveryAnsweredCallKeeps RefusalsChangeNothing }
    ensures set { EverySetKeeps }
    ensures set_refused { EveryRefusedSetKeeps }
    ensures reading { EveryReadingKeeps }
    ensures get { EveryGetKeeps }
    ensures lock { EveryLockKeeps }
    ensures unlock { EveryUnlockKeeps }
    ensures class { EveryClassKeeps }
    ensures role { EveryRoleKeeps }
    ensures label { EveryLabelKeeps }
    ensures members { EveryMembersKeep }
    ensures describes { EveryDescriptionKeeps }
    ensures renewal { EveryRenewalIsAStep }
    ensures beside { EveryCallBesideIsAStep }
    ensures keep_alive { EveryKeepAliveIsAStep }
{
    law_of_what_is_said();
    law_reading();
}

/// Laws: what a panel returns of commands in flight is true of the device if the link and the network are in time. The
/// laws hold in every network in which the panel's calls are made. A *network*, *in time* and *late* are what
/// [`law_of_calls`] explains, and its premises are the premises here. The function does nothing at run time.
///
/// A command is *in flight* from the call that begins it until a call takes its answer. One call begins a command and
/// returns its handle, which is the command's number. Other calls follow: they begin commands, wait for them, look them
/// up, or take turns. A later call takes the answer under that handle.
///
/// The conclusions:
/// - Once: each answer is the reply of the only execution of the command that was begun under this handle. The
///   execution lies between the begin and the taking of the answer. If no datagram of another sender was delivered, no
///   call between takes this answer.
/// - In time: if no datagram of another sender was delivered, none of these calls sends while the link is late.
/// - Refused: a command that was refused with a status changed no object.
/// - Set: if the command to set is answered OK, the object was set to the value, if it is of the value's class.
/// - Reading: what was read is the object's value with its limits at a moment between the begin and the taking, if the
///   object is of the class that was given.
/// - Answer: what is read of the answer to any method is what the object answered, and the execution left the object as
///   the request makes it. The premise is that the object is of the class that was given, or that every class answers
///   the method alike.
pub fn law_of_flights()
    ensures once { EveryAnsweredFlightKeeps IsOfOneExecutionSince }
    ensures in_time { EveryFlightIsInTime }
    ensures refused { EveryAnsweredFlightKeeps RefusalsChangeNothing }
    ensures set { EverySetInFlightKeeps }
    ensures reading { EveryReadingInFlightKeeps }
    ensures answer { EveryAnswerInFlightKeeps }
{
    law_of_what_is_said();
    law_reading();
}
