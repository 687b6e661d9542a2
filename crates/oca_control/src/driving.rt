//! The loop that drives a link over an end.
ghost use Rattle.std.specs.Prelude.{◌≡◌, ◌+◌, ◌-◌, ◌<◌, ◌≤◌, ◌^◌, ℕ, [], ◌∷◌, IsTrue, IfSome, false, length};
ghost use Rattle.oca_net.specs.Ends.{last_u64};
ghost use Rattle.oca_net.specs.EndStates.{SendsAllBut};
ghost use Rattle.oca_control.specs.Driving.{DrivesEnd, SendsDue, drive_report_sum, answered_by, receives_driven};
ghost use Rattle.oca_control.specs.Running.{NothingIsLeft};
ghost use Rattle.oca_control.specs.PrivateDriving.{IsReportWithin, given_report, GivesOne, TakesDriveTurn};

use crate::due::Due;
use crate::link::{Link, LinkOf};
use crate::reception::Reception;
use crate::report::DriveReport;
use oca_net::{End, Heard};
use oca_types::{Packet, Peer};

/// Drives a link over an end for at most `turns` turns, and returns what the turns did
/// ([`DriveReport`](crate::DriveReport)). A turn receives once, at a socket for at most 50 ms, and then sends what is
/// due. A command is *due* if it has no answer, and was never sent or was last sent 250 ms ago or earlier. A keep-alive
/// is due if no command is due and nothing was sent for 2,500 ms.
///
/// Each turn is one of these:
/// - A datagram came: the link stores the answers in it ([`Link::datagram`]). Then everything that is due is sent.
/// - An oversize datagram (more than 1,472 bytes) or none came: everything that is due is sent.
/// - The receive failed: nothing is sent, the failure is counted, and the loop goes on.
///
/// A send that fails is counted as sent and as failed. The loop goes on, and the command is due again after 250 ms.
///
/// The loop ends:
/// - After `turns` turns. With 0 turns nothing is done.
/// - After a turn that finds the link lost, because a command got no answer to 20 transmissions: then `lost` is `true`.
/// - If the end is closed, which does not count as a turn.
///
/// The call does not check whether the link is late: after a pause of the program it may send a command more than
/// 15,000 ms after its submit. Use [`turn`](crate::turn) unless the program checks that itself
/// ([`is_late`](crate::is_late)).
pub fn drive<E: End>(link: &mut Link, end: &mut E, turns: u32) -> DriveReport
    ensures driven { DrivesEnd link.old link.new (E.state end.old) (E.state end.new) result }
    ensures turns { result.turns ≤ turns }
    ensures early { result.turns < turns → result.lost ≡ false → IsTrue (E.state end.new).closed }
    ensures receives { (E.state end.new).receives < last_u64 →
        (E.state end.new).receives ≡ (E.state end.old).receives + receives_driven result turns }
{
    let mut report = nothing();
    let mut packet = Packet::new();
    for _turn in 0..turns {
        match take_turn(link, end, &mut packet) {
            Some(turn) => {
                report = sum(report, turn);
                if report.lost {
                    return report;
                }
            }
            None => return report,
        }
    }
    report
}

/// Sends the device everything that is due at the moment `now`, and receives nothing. `now` is in milliseconds of the
/// link's clock. An earlier moment than the latest one that the link was given is treated as that latest one. A command
/// is *due* if it has no answer, and was never sent or was last sent 250 ms ago or earlier. A keep-alive is due if no
/// command is due and nothing was sent for 2,500 ms.
///
/// The report has the numbers `sent`, `keep_alives` and `failed_sends` ([`DriveReport`](crate::DriveReport)), and
/// `lost`; all others are 0. After a send that fails the next is made. Its command is due again after 250 ms.
///
/// Afterwards nothing is left to send at that moment, or the link is lost and `lost` is `true`
/// ([`law_of_sending`](crate::law_of_sending)). A link that was lost before sends nothing. The call does not check
/// whether a command was submitted more than 15,000 ms ago. [`send_in_time`](crate::send_in_time) checks that.
pub fn send_due<E: End, const COMMAND: usize, const ANSWER: usize>(
    link: &mut LinkOf<COMMAND, ANSWER>,
    end: &mut E,
    now: u64,
) -> DriveReport
    ensures gives { SendsDue now (link.old.span + 1) link.old link.new (E.state end.old) (E.state end.new) result }
    ensures lost { result.lost ≡ link.new.lost }
    ensures left { result.lost ≡ false → NothingIsLeft link.new }
{
    let mut packet = Packet::new();
    give_all(link, end, &mut packet, now)
}

/// Receives once, and does what there is to do. Returns what it did, or nothing at Closed.
fn take_turn<E: End>(link: &mut Link, end: &mut E, packet: &mut Packet) -> Option<DriveReport>
    ensures turn { TakesDriveTurn link.old link.new (E.state end.old) (E.state end.new) result }
    ensures fits { IfSome result (IsReportWithin 4294967295) }
{
    match end.receive(packet) {
        Heard::Datagram { from, now } => {
            let answered = count_of(link.datagram(from, packet.as_slice(), now));
            let given = give_all(link, end, packet, now);
            Some(DriveReport {
                turns: 1,
                answered,
                ..given
            })
        }
        Heard::Quiet { now } => Some(DriveReport {
            turns: 1,
            ..give_all(link, end, packet, now)
        }),
        Heard::Oversize { now } => Some(DriveReport {
            turns: 1,
            ..give_all(link, end, packet, now)
        }),
        Heard::Failed => Some(DriveReport {
            turns: 1,
            failed_receives: 1,
            ..nothing()
        }),
        Heard::Closed => None,
    }
}

/// How many commands were answered.
pub(crate) fn count_of(reception: Reception) -> u64
    ensures count { result ≡ answered_by reception }
    ensures fits { result ≤ 4294967295 }
{
    match reception {
        Reception::Answered(answered) => u64::from(answered),
        Reception::Stranger | Reception::Malformed | Reception::NothingNew => 0,
    }
}

/// Hands what is due at this moment to the end, for the device, and returns what was handed over.
fn give_all<E: End, const COMMAND: usize, const ANSWER: usize>(
    link: &mut LinkOf<COMMAND, ANSWER>,
    end: &mut E,
    packet: &mut Packet,
    now: u64,
) -> DriveReport
    ensures gives { SendsDue now (link.old.span + 1) link.old link.new (E.state end.old) (E.state end.new) result }
    ensures few { length link.old.untaken ≤ link.old.span }
    ensures fits { IsReportWithin 4294967295 result }
{
    let mut report = nothing();
    let most = u32::from(link.span()) + 1;
    for _call in 0..most {
        let (goes_on, given) = give_one(link, end, packet, now);
        report = sum(report, given);
        if !goes_on {
            return report;
        }
    }
    report
}

/// Calls `due` once, and hands what it gives to the end, for the device. Returns whether it gave anything, and what was
/// handed over.
fn give_one<E: End, const COMMAND: usize, const ANSWER: usize>(
    link: &mut LinkOf<COMMAND, ANSWER>,
    end: &mut E,
    packet: &mut Packet,
    now: u64,
) -> (bool, DriveReport)
    ensures gives { GivesOne now link.old link.new (E.state end.old) (E.state end.new) result.0 result.1 }
    ensures fits { IsReportWithin 1 result.1 }
{
    let device = link.device();
    match link.due(now, packet) {
        Due::Send(_) => (
            true,
            DriveReport {
                sent: 1,
                failed_sends: send(end, device, packet),
                ..nothing()
            },
        ),
        Due::KeepAlive => (
            true,
            DriveReport {
                keep_alives: 1,
                failed_sends: send(end, device, packet),
                ..nothing()
            },
        ),
        Due::Nothing => (false, nothing()),
        Due::Lost => (
            false,
            DriveReport {
                lost: true,
                ..nothing()
            },
        ),
    }
}

/// Sends a datagram, and returns how many sends failed.
fn send<E: End>(end: &mut E, to: Peer, packet: &Packet) -> u64
    ensures sends { SendsAllBut result (E.state end.old) (E.state end.new)
        ((record { to = to; bytes = packet.now.items }) ∷ []) }
    ensures few { result ≤ 1 }
{
    if end.send(to, packet.as_slice()) {
        0
    } else {
        1
    }
}

/// What both did, where the numbers fit.
fn sum(a: DriveReport, b: DriveReport) -> DriveReport
    requires a { IsReportWithin (2 ^ 64 - 2 ^ 32) a }
    requires b { IsReportWithin (2 ^ 32 - 1) b }
    ensures { result ≡ drive_report_sum a b }
{
    a + b
}

/// Nothing was done.
pub(crate) fn nothing() -> DriveReport
    ensures { result ≡ given_report [] 0 }
{
    DriveReport::default()
}
