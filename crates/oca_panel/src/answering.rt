//! Whether a device answers the commands of a port.
//!
//! A device may leave a command unanswered whose handle is not above those that it has heard from the same port: then
//! nothing but its keep-alives comes back. This is found out before a command is sent that does something, by one that
//! reads.
ghost use Rattle.std.specs.Prelude.{◌≡◌};
ghost use Rattle.oca_net.specs.EndStates.{IsPresent};
ghost use Rattle.oca_control.specs.Links.{new_link, submission, submitted};
ghost use Rattle.oca_panel.specs.Probes.{AsksQuestion, AsksRound, AsksRounds, KeepsAlive, Probes, handle_in};
ghost use Rattle.oca_panel.specs.Probes.{has_answer, question};
ghost use Rattle.oca_panel.specs.Watching.{WatchesOn, found_by};

use crate::walk::ROOT;
use crate::watched::Watched;
use oca_control::{Link, Outcome, send_due, wait_for};
use oca_net::End;
use oca_pdu::{Form, write_keepalive};
use oca_types::{Handle, MethodId, Packet, Peer, Span};

/// How often a keep-alive is sent.
const ROUNDS: u32 = 4;

/// How many turns are taken behind each.
const TURNS: u32 = 5;

/// GetClassIdentification of OcaRoot, which changes nothing.
const GET_CLASS: MethodId = MethodId { level: 1, index: 1 };

/// Whether a device answers the commands of a port, as [`probe`] finds it.
#[derive(Clone, Copy, PartialEq)]
pub enum Probed {
    /// The device answered the command.
    Answering,
    /// The end has heard the device, and no answer came: use another port.
    NotAnswering,
    /// The end has not heard the device.
    NotHeard,
}

/// Finds out whether a device answers commands from the end's port. The call sends a command that reads the class of
/// the root, again each 250 ms, and up to four keep-alives. After each keep-alive it receives five times, until the
/// answer comes. At a socket the call takes at most a second. The command changes no object. The arguments:
/// - `end` sends and receives, and stores when its *watched* peer was last heard ([`Watched`]).
/// - `device` is the device's address, and must be the peer that the end watches.
/// - `handle` is the handle of the command, 0 to 4294967295. The handle is used afterwards: a link over the same end
///   must begin above it. A device may leave the command unanswered if it heard this or a higher handle from the end's
///   address and port before.
///
/// The result is the first that applies:
/// - `Answering` if the command is answered, whatever the status is.
/// - `NotAnswering` if the end has heard its peer, even before this call. Then use another port.
/// - `NotHeard` in all other cases.
///
/// The end watches the same peer after the call. If the peer was heard before, [`Watched::heard`] still returns a
/// moment. A send or receive that fails is not reported, and the call goes on.
pub fn probe<E: End>(end: &mut Watched<E>, device: Peer, handle: Handle) -> Probed
    ensures finds { Probes device handle.0 end.old.end_state end.new result }
    ensures watches { WatchesOn end.old end.new }
{
    let now = end.now();
    let peer = end.peer();
    let before = end.heard();
    let mut link = Link::new(device, handle, now, Span::default());
    let answered = asks(&mut link, end, device, handle, now);
    end.watch_on(peer, before);
    by_answer(answered, end.heard())
}

/// What was found, by whether a command was answered, and when the device was heard.
fn by_answer(answered: bool, heard: Option<u64>) -> Probed
    ensures { result ≡ found_by answered heard }
{
    if answered {
        return Probed::Answering;
    }
    match heard {
        Some(_) => Probed::NotAnswering,
        None => Probed::NotHeard,
    }
}

/// Asks for the class of the root at the present moment, and beside it for keep-alives: whether the command was
/// answered.
fn asks<E: End>(
    link: &mut Link,
    end: &mut Watched<E>,
    device: Peer,
    first: Handle,
    now: u64,
) -> bool
    requires new { link.old ≡ new_link device first.0 now 16 }
    requires present { IsPresent now end.old.end_state }
    ensures { AsksQuestion device first.0 result end.old.end_state end.new.end_state }
{
    let Some(handle) = submit(link, now) else {
        return false;
    };
    send_due(link, end, now);
    asks_rounds(link, end, device, handle)
}

/// Waits for the answer, and asks for keep-alives beside it: whether it came.
fn asks_rounds<E: End>(link: &mut Link, end: &mut Watched<E>, device: Peer, handle: Handle) -> bool
    ensures { AsksRounds device handle.0 result link.old link.new end.old.end_state end.new.end_state }
{
    for round in 0..ROUNDS {
        if asks_round(link, end, device, handle) {
            return true;
        }
    }
    false
}

/// Sends a keep-alive, and waits for the answer: whether it came.
fn asks_round<E: End>(link: &mut Link, end: &mut Watched<E>, device: Peer, handle: Handle) -> bool
    ensures { AsksRound device handle.0 result link.old link.new end.old.end_state end.new.end_state }
{
    keep_alive(end, device);
    let outcome = wait_for(link, end, handle, TURNS);
    is_answer(&outcome)
}

/// Whether an answer came.
fn is_answer(outcome: &Outcome) -> bool
    ensures { result ≡ has_answer outcome.now }
{
    match outcome {
        Outcome::Answered(_) => true,
        _ => false,
    }
}

/// Submits the command that asks for the class of the root, at this moment.
fn submit(link: &mut Link, now: u64) -> Option<Handle>
    ensures handle { result ≡ handle_in (submission question link.old) }
    ensures link { link.new ≡ submitted question now link.old }
{
    match link.submit(ROOT, GET_CLASS, 0, &[], now) {
        Ok(handle) => Some(handle),
        Err(_) => None,
    }
}

/// Sends the device at the address `device` one keep-alive with a heartbeat of five seconds (AES70-3), over `end`. A
/// device returns each keep-alive. The call receives nothing, and takes no memory. The result is:
/// - `true` if the end sent the datagram, which does not say that it arrives.
/// - `false` if the send failed.
pub fn keep_alive<E: End>(end: &mut E, device: Peer) -> bool
    ensures { KeepsAlive result device (E.state end.old) (E.state end.new) }
{
    let mut packet = Packet::new();
    let _ = write_keepalive(&mut packet, Form::Seconds(5));
    end.send(device, packet.as_slice())
}
