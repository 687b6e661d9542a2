//! A turn of a link over an end, in which no command is sent too late.
ghost use Rattle.std.specs.Prelude.{◌≡◌, false};
ghost use Rattle.oca_net.specs.Ends.{one_more};
ghost use Rattle.oca_control.specs.Links.{late_at};
ghost use Rattle.oca_control.specs.Turning.{IsEndOfTurn, ReceivesInTurn, SendsInTime, Turns};
ghost use Rattle.oca_control.specs.Running.{NothingIsLeft, LeavesNothing};
ghost use Rattle.oca_control.specs.PrivateTurning.{lost_report};

use crate::driving::{count_of, nothing, send_due};
use crate::link::{Link, LinkOf};
use crate::report::DriveReport;
use oca_net::{End, Heard};
use oca_types::Packet;

/// How long a turn receives at most, in milliseconds.
const WAIT_MS: u64 = 50;

/// Returns whether a link is late at the moment `now`: a command was submitted more than 15,000 ms before and has no
/// answer. `now` is in milliseconds of the link's clock. A moment earlier than the latest one that the link was given
/// is treated as that latest one. Whether the command was sent does not matter. The result is `false` for a link
/// without commands. Nothing is changed.
///
/// A link becomes late only if the program paused. A link that is asked in time has its answer by then, or is lost. A
/// late link must send nothing, for these reasons:
/// - A command must not act so long after it was submitted.
/// - After 120 seconds without a datagram a device forgets what it executed. It would then execute a command a second
///   time.
/// - The network may hold a datagram for up to 100 seconds.
///
/// The link stays late until the answer comes.
pub fn is_late<const COMMAND: usize, const ANSWER: usize>(
    link: &LinkOf<COMMAND, ANSWER>,
    now: u64,
) -> bool
    ensures { result ≡ late_at now link.now }
{
    link.late_at(now)
}

/// Sends the device everything that is due at the moment `now` if the link is not late at that moment, and receives
/// nothing. `now` is in milliseconds of the link's clock. [`Link`] explains the words *due*, *lost* and *late*.
///
/// - If the link is late ([`is_late`]), nothing is changed or sent, and `lost` is `true` in the report.
/// - Otherwise the call does what [`send_due`] does. `lost` is `true` if the link is lost or becomes lost. If `lost` is
///   `false`, nothing is left to send at that moment. The report has the numbers of [`send_due`].
pub fn send_in_time<E: End, const COMMAND: usize, const ANSWER: usize>(
    link: &mut LinkOf<COMMAND, ANSWER>,
    end: &mut E,
    now: u64,
) -> DriveReport
    ensures gives { SendsInTime now link.old link.new (E.state end.old) (E.state end.new) result }
    ensures left { result.lost ≡ false → NothingIsLeft link.new }
{
    if link.late_at(now) {
        return late_report();
    }
    send_due(link, end, now)
}

/// Takes one turn of a link over an end: it receives once, and then sends what is due in time. An end that keeps time
/// ([`End`]) receives until something is due ([`Link::next_due`]), and for at most 50 ms. [`Link`] explains the words
/// *due*, *lost* and *late*. The turn is one of these:
/// - A datagram came: the link stores the answers in it ([`Link::datagram`]), even if the link is late. Then
///   [`send_in_time`] sends what is due.
/// - An oversize datagram (more than 1,472 bytes) or none came: [`send_in_time`] sends what is due.
/// - The receive failed: nothing is sent, `failed_receives` is 1, and `lost` is `false`.
/// - The end is closed: the link is unchanged, nothing is sent, and `turns` is 0. In all other cases `turns` is 1.
///
/// The report has the number `answered` too, and those of [`send_due`] ([`DriveReport`](crate::DriveReport)). `lost` is
/// `true` if [`send_in_time`] finds the link lost or late. If it is `false` and the receive did not fail, nothing is
/// left to send at the moment of the link's clock.
pub fn turn<E: End>(link: &mut Link, end: &mut E) -> DriveReport
    ensures turns { Turns link.old link.new (E.state end.old) (E.state end.new) result }
    ensures left { LeavesNothing result link.new }
    ensures waits { (behind : E) × ((E.state behind).receives ≡ one_more (E.state end.old).receives)
        × ReceivesInTurn link.old (E.state end.old) (E.waited end.old behind) }
{
    let mut packet = Packet::new();
    let until = end_of_turn(link, end.now());
    match end.receive_by(&mut packet, until) {
        Heard::Datagram { from, now } => {
            let answered = count_of(link.datagram(from, packet.as_slice(), now));
            let given = send_in_time(link, end, now);
            DriveReport {
                turns: 1,
                answered,
                ..given
            }
        }
        Heard::Quiet { now } => DriveReport {
            turns: 1,
            ..send_in_time(link, end, now)
        },
        Heard::Oversize { now } => DriveReport {
            turns: 1,
            ..send_in_time(link, end, now)
        },
        Heard::Failed => DriveReport {
            turns: 1,
            failed_receives: 1,
            ..nothing()
        },
        Heard::Closed => nothing(),
    }
}

/// Until when a turn receives that begins now: 50 ms from now on, or until something is due.
fn end_of_turn(link: &Link, now: u64) -> u64
    ensures { IsEndOfTurn link.now now result }
{
    let most = now.saturating_add(WAIT_MS);
    match link.next_due() {
        Some(due) => most.min(due),
        None => most,
    }
}

/// Nothing was sent, since the link is late.
fn late_report() -> DriveReport
    ensures { result ≡ lost_report }
{
    DriveReport {
        lost: true,
        ..nothing()
    }
}
