//! The loop that serves an end of a link.
ghost use Rattle.std.specs.Prelude.{◌≡◌, ◌+◌, ◌<◌, ◌≤◌, ◌^◌, [], IsTrue, IfSome, ◌-◌};
ghost use Rattle.oca_pdu.specs.Limits.{most_answered};
ghost use Rattle.oca_net.specs.Ends.{last_u64};
ghost use Rattle.oca_net.specs.EndStates.{SendsAllBut};
ghost use Rattle.oca_device.specs.Reports.{no_turns, one_turn, verdict_turn, receives_of};
ghost use Rattle.oca_device.specs.Replies.{ServesEnd, sent_to};
ghost use Rattle.oca_device.specs.Following.{ServesEndWith, ServesLongWith};
ghost use Rattle.oca_device.specs.PrivateTotals.{IsAtMostEach, TakesTurn};

use crate::device::Device;
use crate::electronics::{Electronics, NoElectronics};
use crate::outbox::Outbox;
use crate::report::Report;
use crate::verdict::Verdict;
use oca_net::{End, Heard};
use oca_types::{Packet, Peer};

/// Serves an end for at most `turns` turns, and returns how often each thing was done ([`Report`]). A turn receives
/// once, at a socket for at most 50 ms. `outbox` is memory for the answers to one datagram. The call empties it at the
/// start and after each turn. The call takes no memory.
///
/// Each turn is one of these:
/// - A datagram came: it goes to [`Device::datagram`], and its answers are sent to its sender, in order. A send that
///   fails is counted, and the next packet is sent.
/// - No datagram came, or one of more than 1,472 bytes: the device's clock moves on.
/// - The receive failed: the failure is counted, and nothing else is done.
///
/// The loop ends after `turns` turns. It ends earlier if the end is closed, which does not count as a turn. With 0
/// turns nothing is received.
///
/// [`Report`] explains its numbers.
pub fn serve<E: End>(device: &mut Device, end: &mut E, outbox: &mut Outbox, turns: u32) -> Report
    ensures served { ServesEnd device.old device.new (E.state end.old) (E.state end.new) result }
    ensures turns { result.turns ≤ turns }
    ensures closed { result.turns < turns → IsTrue (E.state end.new).closed }
    ensures receives { (E.state end.new).receives < last_u64 →
        (E.state end.new).receives ≡ (E.state end.old).receives + receives_of result.turns turns }
    ensures outbox { outbox.new ≡ [] }
{
    let mut none = NoElectronics;
    serve_with(device, end, outbox, &mut none, u64::from(turns))
}

/// Serves an end for at most `turns` turns, and calls `electronics` after each datagram. *Electronics* are the
/// program's code that makes the hardware do what the objects say ([`Electronics`]). `outbox` is memory for the answers
/// to one datagram, and is empty at the end. The call returns the numbers that [`serve`] returns: of turns, of commands
/// and datagrams that were handled in each way, and of failed receives and sends ([`Report`]).
///
/// A turn receives once, at a socket for at most 50 ms. Each turn is one of these:
/// - A datagram came: the device handles it, and its answers are sent to its sender, in order. Then
///   [`Electronics::follow`] gets the objects and the numbers of the objects that the datagram wrote to. These may be
///   none. The call is made even if a send failed.
/// - No datagram came, or one of more than 1,472 bytes: the device's clock moves on. The electronics are not called.
/// - The receive failed: the failure is counted. The electronics are not called.
///
/// At its end a turn is told to the electronics ([`Electronics::tell`]). The loop ends after `turns` turns. It ends
/// earlier if the end is closed, which does not count as a turn. With 0 turns nothing is received.
///
/// All sends come first. Failed sends delay the electronics, each for as long as the end takes. At a `UdpEnd` that is
/// up to a millisecond a packet, and there are at most 122 packets.
pub fn serve_with<E: End, L: Electronics>(
    device: &mut Device,
    end: &mut E,
    outbox: &mut Outbox,
    electronics: &mut L,
    turns: u64,
) -> Report
    ensures served { ServesLongWith device.old device.new (E.state end.old) (E.state end.new) (L.state electronics.old)
        (L.state electronics.new) result }
    ensures exact { turns < 4294967296 → ServesEndWith device.old device.new (E.state end.old) (E.state end.new)
        (L.state electronics.old) (L.state electronics.new) result }
    ensures turns { result.turns ≤ turns }
    ensures closed { result.turns < turns → IsTrue (E.state end.new).closed }
    ensures receives { (E.state end.new).receives < last_u64 →
        (E.state end.new).receives ≡ (E.state end.old).receives + receives_of result.turns turns }
    ensures outbox { outbox.new ≡ [] }
{
    outbox.clear();
    let mut report = nothing();
    let mut packet = Packet::new();
    for _turn in 0..turns {
        match take_turn(device, end, outbox, electronics, &mut packet) {
            Some(turn) => report = report + turn,
            None => return report,
        }
    }
    report
}

/// Receives once, and does what there is to do. Returns what it did, or nothing at Closed.
fn take_turn<E: End, L: Electronics>(
    device: &mut Device,
    end: &mut E,
    outbox: &mut Outbox,
    electronics: &mut L,
    packet: &mut Packet,
) -> Option<Report>
    requires { outbox.old ≡ [] }
    ensures turn { TakesTurn device.old device.new (E.state end.old) (E.state end.new) (L.state electronics.old)
        (L.state electronics.new) result }
    ensures fits { IfSome result (IsAtMostEach 4294967295) }
    ensures outbox { outbox.new ≡ [] }
{
    match end.receive(packet) {
        Heard::Datagram { from, now } => {
            let verdict = device.datagram(from, packet.as_slice(), now, outbox);
            let failed_sends = send_all(end, from, outbox);
            electronics.follow(device.tree(), device.written());
            let turn = Report {
                failed_sends,
                ..of_verdict(verdict)
            };
            let heard = Heard::Datagram { from, now };
            electronics.tell(heard, packet.as_slice(), outbox, &turn, device);
            outbox.clear();
            Some(turn)
        }
        Heard::Quiet { now } => {
            device.tick(now);
            let turn = quiet_turn();
            electronics.tell(Heard::Quiet { now }, &[], outbox, &turn, device);
            Some(turn)
        }
        Heard::Oversize { now } => {
            device.tick(now);
            let turn = oversize_turn();
            electronics.tell(Heard::Oversize { now }, &[], outbox, &turn, device);
            Some(turn)
        }
        Heard::Failed => {
            let turn = failed_turn();
            electronics.tell(Heard::Failed, &[], outbox, &turn, device);
            Some(turn)
        }
        Heard::Closed => None,
    }
}

/// Sends the packets to a peer, in order, and returns how many sends failed.
pub(crate) fn send_all<E: End>(end: &mut E, to: Peer, outbox: &Outbox) -> u64
    ensures sends { SendsAllBut result (E.state end.old) (E.state end.new) (sent_to to outbox.now) }
    ensures few { result ≤ most_answered }
{
    let mut failed = 0;
    for packet in outbox.packets() {
        if !end.send(to, packet.as_slice()) {
            failed += 1;
        }
    }
    failed
}

/// No turns.
pub(crate) fn nothing() -> Report
    ensures { result ≡ no_turns }
{
    Report::default()
}

/// One turn.
fn a_turn() -> Report
    ensures { result ≡ one_turn }
{
    Report {
        turns: 1,
        ..nothing()
    }
}

/// A turn in which no datagram came.
pub(crate) fn quiet_turn() -> Report
    ensures { result ≡ (record one_turn { quiet = 1 }) }
{
    Report {
        quiet: 1,
        ..a_turn()
    }
}

/// A turn with an oversize datagram.
pub(crate) fn oversize_turn() -> Report
    ensures { result ≡ (record one_turn { oversize = 1 }) }
{
    Report {
        oversize: 1,
        ..a_turn()
    }
}

/// A turn in which the end failed.
pub(crate) fn failed_turn() -> Report
    ensures { result ≡ (record one_turn { failed_receives = 1 }) }
{
    Report {
        failed_receives: 1,
        ..a_turn()
    }
}

/// A turn with this verdict.
pub(crate) fn of_verdict(verdict: Verdict) -> Report
    ensures { result ≡ verdict_turn verdict }
{
    match verdict {
        Verdict::Served {
            executed,
            kept,
            old,
            reused,
        } => Report {
            executed: u64::from(executed),
            kept: u64::from(kept),
            old: u64::from(old),
            reused: u64::from(reused),
            ..a_turn()
        },
        Verdict::Malformed(_) => Report {
            malformed: 1,
            ..a_turn()
        },
        Verdict::NoRoom => Report {
            no_room: 1,
            ..a_turn()
        },
    }
}
