//! A command and its answer, over an end.
ghost use Rattle.std.specs.Prelude.{◌≡◌, ◌<◌, ◌+◌};
ghost use Rattle.oca_types.specs.Peers.{request_of};
ghost use Rattle.oca_net.specs.Ends.{last_u64};
ghost use Rattle.oca_control.specs.Asking.{TakesATurn, Waits, ReceivesSoOften, Begins, Asks, refused_by};
ghost use Rattle.oca_control.specs.PrivateAsking.{EndsWait, IsWaitOver, Settles};
ghost use Rattle.oca_control.specs.Waiting.{IsPresentOf, ReceivesInAWait, TakesATurnAndSees, WaitsUntil, WaitsWhile};

use crate::driving::send_due;
use crate::fault::ControlFault;
use crate::link::Link;
use crate::outcome::Outcome;
use crate::turning::turn;
use oca_net::End;
use oca_types::{Handle, Request};

/// Sends one command over an end and waits for its answer, for at most `turns` turns. A turn receives once, at a socket
/// for at most 50 ms, and sends what is due ([`turn`]). `request` has the object, the method, ParamCount and the
/// encoded parameters, which the call does not check (AES70-3). [`Link`] explains the words *lost* and *late*.
///
/// The link refuses the command in these cases, and nothing is changed or sent:
/// - `Lost` if the link is lost or late at the start of the call.
/// - `Refused` with `HandlesSpent`, `SpanFull` or `TooLong`, in the cases of [`Link::submit`].
///
/// Otherwise the command is in the link, with the handle that [`Link::next_handle`] returned before the call:
/// - `Answered` with the answer if the answer comes, whatever its status is. The command is then removed from the link.
/// - `Lost` if the link becomes lost, or a turn finds the link late, before the answer comes. The command stays in the
///   link. No turn sends the command while the link is lost or late. An answer that still comes is stored, and
///   [`Link::take`] takes it.
/// - `Unanswered` if no answer comes in `turns` turns. The command stays in the link, and later turns send it again.
///   With 0 turns the command is sent and not waited for.
///
/// After `Unanswered`, or `Lost` with the command in the link, the device may have carried out the command. A later
/// wait under the same handle may return the answer ([`wait_for`]).
pub fn ask<E: End>(link: &mut Link, end: &mut E, request: Request<'_>, turns: u32) -> Outcome
    ensures asks { Asks (request_of request.entry) turns link.old result link.new (E.state end.old) (E.state end.new) }
    ensures receives { (E.state end.new).receives < last_u64 →
        ReceivesSoOften turns result (E.state end.old).receives (E.state end.new).receives }
{
    match begin(link, end, request) {
        Ok(handle) => wait_for(link, end, handle, turns),
        Err(fault) => refused(fault),
    }
}

/// Submits a command, sends it at once, and returns its handle without waiting for the answer. `request` has the
/// object, the method, ParamCount and the encoded parameters, which the call does not check (AES70-3). The moment of
/// the submit is what [`now`](End::now) of the end returns, or the link's clock if that is later or the end keeps no
/// time. The *link's clock* is the latest moment that the link was given. [`Link`] explains the words *lost*, *late*
/// and *due*.
///
/// What is due at this moment is sent, older commands first:
/// - If an older command that is due was sent 20 times already, the link becomes lost. The call returns the handle, but
///   does not send this command. The command stays in the link.
/// - Otherwise the command is sent, and nothing is left to send at this moment
///   ([`law_of_running`](crate::law_of_running)).
/// - A send that fails is not reported: the command is due again after 250 ms.
///
/// Refusals, the first that applies, which change and send nothing:
/// - `Lost` if the link is late at this moment, or is lost.
/// - `HandlesSpent`, `SpanFull` or `TooLong`, in the cases of [`Link::submit`].
pub fn begin<E: End>(
    link: &mut Link,
    end: &mut E,
    request: Request<'_>,
) -> Result<Handle, ControlFault>
    ensures { Begins (request_of request.entry) result link.old link.new (E.state end.old) (E.state end.new) }
{
    let now = end.now();
    if link.late_at(now) {
        return Err(ControlFault::Lost);
    }
    let handle = link.submit(
        request.target,
        request.method,
        request.count,
        request.params,
        now,
    )?;
    send_due(link, end, now);
    Ok(handle)
}

/// Waits for the answer to the command with the handle `handle`, for at most `turns` turns, and takes the answer. A
/// turn receives once, at a socket for at most 50 ms, and sends what is due ([`turn`]). To take an answer is to return
/// it and to remove its command from the link. [`Link`] explains the words *lost* and *late*.
///
/// Before each turn and after the last turn, the first that applies:
/// - `Answered` with the answer if the answer is in the link, whatever its status is. The command is then removed from
///   the link.
/// - `Lost` if the link is lost, or the last turn found the link late. The command stays in the link. An answer that
///   still comes can be taken later.
///
/// The result is `Unanswered` if neither applies after `turns` turns. The command stays in the link: later turns send
/// it again, and a later wait may take its answer.
///
/// A handle that no command has is treated like that of a command without an answer. With 0 turns the call only looks
/// whether an answer is there. A closed end does not end the wait. The call never returns `Refused`.
pub fn wait_for<E: End>(link: &mut Link, end: &mut E, handle: Handle, turns: u32) -> Outcome
    ensures waits { Waits handle.0 turns link.old result link.new (E.state end.old) (E.state end.new) }
    ensures receives { (E.state end.new).receives < last_u64 →
        ReceivesSoOften turns result (E.state end.old).receives (E.state end.new).receives }
{
    let mut late = false;
    for _turn in 0..turns {
        if let Some(outcome) = settled(link, handle, late) {
            return outcome;
        }
        late = take_one(link, end);
    }
    match settled(link, handle, late) {
        Some(outcome) => outcome,
        None => Outcome::Unanswered,
    }
}

/// Waits for the answer to the command with the handle `handle` until the moment `until`, and takes the answer. `until`
/// is in milliseconds of the end's clock. The *present moment* is what [`now`](End::now) of the end returns, or the
/// latest moment that the link was given, if that is later. To take an answer is to return it and to remove its command
/// from the link. [`Link`] explains the words *lost* and *late*.
///
/// The call takes turns. A turn receives once, for at most 50 ms at a socket, and sends what is due ([`turn`]). A turn
/// begins only before `until`. Datagrams of other senders do not end the wait. Before each turn the first that applies:
/// - `Answered` with the answer if the answer is in the link, even if `until` is past. The command is then removed from
///   the link.
/// - `Lost` if the link is lost, or the last turn found the link late. The command stays in the link. An answer that
///   still comes can be taken later.
/// - `Unanswered` if the last turn found the end closed, or the present moment is `until` or later. The command stays
///   in the link: later turns send it again, and a later wait may take its answer.
///
/// A handle that no command has is treated like that of a command without an answer. If the clock stands still, the
/// wait ends after 4,294,967,295 turns, with the outcome `Unanswered` if neither of the first two applies. The call
/// never returns `Refused`.
pub fn wait_until<E: End>(link: &mut Link, end: &mut E, handle: Handle, until: u64) -> Outcome
    ensures waits { WaitsUntil handle.0 until link.old result link.new (E.state end.old) (E.state end.new) }
    ensures receives { ReceivesInAWait (E.state end.old).receives (E.state end.new).receives }
{
    let mut seen = Seen {
        lost: false,
        closed: false,
    };
    for _turn in 0..u32::MAX {
        if let Some(outcome) = ended(link, end, handle, seen, until) {
            return outcome;
        }
        seen = take_further(link, end);
    }
    match settled(link, handle, seen.lost) {
        Some(outcome) => outcome,
        None => Outcome::Unanswered,
    }
}

/// Waits for the answer to the command with the handle `handle` as [`wait_until`] does, with the same outcomes, until
/// `milliseconds` after the present moment, and takes the answer. The last turn may end later, at a socket by at most
/// 50 ms. With 0 milliseconds the call looks once and takes no turn.
pub fn wait_while<E: End>(
    link: &mut Link,
    end: &mut E,
    handle: Handle,
    milliseconds: u32,
) -> Outcome
    ensures waits { WaitsWhile handle.0 milliseconds link.old result link.new (E.state end.old) (E.state end.new) }
    ensures receives { ReceivesInAWait (E.state end.old).receives (E.state end.new).receives }
{
    let until = present(link, end).saturating_add(u64::from(milliseconds));
    wait_until(link, end, handle, until)
}

/// What a turn found: whether the link is lost, or late, and whether the end is closed.
#[derive(Clone, Copy)]
struct Seen {
    lost: bool,
    closed: bool,
}

/// The present moment: the end's, or the link's own where that is later.
fn present<E: End>(link: &Link, end: &E) -> u64
    ensures { IsPresentOf result link.now (E.state end.now) }
{
    link.moment_at(end.now())
}

/// What is known without a turn, by what the last one found and by the present moment: the answer under the handle,
/// which is taken, that the link is lost, or that no answer came in time.
fn ended<E: End>(
    link: &mut Link,
    end: &E,
    handle: Handle,
    seen: Seen,
    until: u64,
) -> Option<Outcome>
    ensures { EndsWait handle.0 until seen.lost seen.closed (E.state end.now) link.old result link.new }
{
    match settled(link, handle, seen.lost) {
        Some(outcome) => Some(outcome),
        None => over(link, end, seen.closed, until),
    }
}

/// That no answer came in time, where the end is closed or the present moment is this one or later.
fn over<E: End>(link: &Link, end: &E, closed: bool, until: u64) -> Option<Outcome>
    ensures { IsWaitOver until closed (E.state end.now) link.now result }
{
    if closed {
        return Some(Outcome::Unanswered);
    }
    let now = present(link, end);
    if until <= now {
        return Some(Outcome::Unanswered);
    }
    None
}

/// Takes a turn, and returns what it found.
fn take_further<E: End>(link: &mut Link, end: &mut E) -> Seen
    ensures { TakesATurnAndSees result.lost result.closed link.old link.new (E.state end.old) (E.state end.new) }
{
    let report = turn(link, end);
    Seen {
        lost: report.lost,
        closed: report.turns == 0,
    }
}

/// What is known without a turn: the answer under the handle, which is taken, or that the link is lost, or was found
/// late.
fn settled(link: &mut Link, handle: Handle, late: bool) -> Option<Outcome>
    ensures { Settles handle.0 late link.old result link.new }
{
    match link.take(handle) {
        Some(answer) => Some(Outcome::Answered(answer)),
        None => {
            if late || link.is_lost() {
                Some(Outcome::Lost)
            } else {
                None
            }
        }
    }
}

/// Takes a turn, and returns whether the link was found lost, or late, in it.
fn take_one<E: End>(link: &mut Link, end: &mut E) -> bool
    ensures { TakesATurn result link.old link.new (E.state end.old) (E.state end.new) }
{
    turn(link, end).lost
}

/// Returns the outcome of a command that the link refused for the reason `fault`. Nothing is changed or sent. The
/// outcome is:
/// - [`Outcome::Lost`] for `ControlFault::Lost`: the link was lost or late ([`Link`] explains these words).
/// - [`Outcome::Refused`] with the reason for `HandlesSpent`, `SpanFull` and `TooLong`.
pub fn refused(fault: ControlFault) -> Outcome
    ensures { result ≡ refused_by fault }
{
    match fault {
        ControlFault::Lost => Outcome::Lost,
        ControlFault::HandlesSpent => Outcome::Refused(ControlFault::HandlesSpent),
        ControlFault::SpanFull => Outcome::Refused(ControlFault::SpanFull),
        ControlFault::TooLong => Outcome::Refused(ControlFault::TooLong),
    }
}
