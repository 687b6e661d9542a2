//! Why no answer came, as far as it is known.
ghost use Rattle.std.specs.Prelude.{◌≡◌};
ghost use Rattle.ocactl_cli.specs.Exchanges.{IsSameBeside};

use oca_net::{End, Heard, UdpEnd, is_gone, is_refused};
use oca_panel::{Panel, Watched};
use oca_program::print_made_note;
use oca_script::{Printer, Sink};
use oca_types::Peer;
use std::alloc::{AllocError, Global};
use std::net::{Ipv4Addr, Net};
use std::rt::Clock;

/// How often a keep-alive is sent.
const ROUNDS: u32 = 4;

/// An end at a socket that remembers when the device was heard.
pub type DeviceEnd<'a, N> = Watched<UdpEnd<'a, N>>;

/// The line of a note, if there was memory for it.
type Note = Result<String, AllocError>;

/// Prints to `faults` what is known of a device from which a command over a panel got no answer. First comes why a send
/// failed, if one has. Then comes when the device was last heard, or that the machine has lost the address of the
/// socket. A device that was never heard is first asked once more by keep-alives. If it is still not heard, its host is
/// asked whether a program has its port.
pub fn note_no_answer<N: Net + Clock, F: Sink>(
    alloc: Global,
    system: &N,
    panel: &mut Panel<DeviceEnd<'_, N>>,
    device: Peer,
    faults: &mut Printer<F>,
)
    ensures { IsSameBeside panel.old panel.new }
{
    note_failed_send(alloc, panel.end(), faults);
    match known_reason(alloc, system, panel.end(), device) {
        Some(note) => print_made_note(note, faults),
        None => print_made_note(reason_asked_for(alloc, system, panel, device), faults),
    }
}

/// Prints to `faults` what is known of a device from which a command over an end got no answer. The device and its host
/// are not asked.
pub fn note_unanswered<N: Net + Clock, F: Sink>(
    alloc: Global,
    system: &N,
    end: &DeviceEnd<'_, N>,
    device: Peer,
    faults: &mut Printer<F>,
) {
    note_failed_send(alloc, end, faults);
    let note = match known_reason(alloc, system, end, device) {
        Some(note) => note,
        None => format!(in alloc; "nothing was heard from {device}"),
    };
    print_made_note(note, faults);
}

/// What is known without a question: that the machine has lost the address of the socket, or when the device was heard.
fn known_reason<N: Net + Clock>(
    alloc: Global,
    system: &N,
    end: &DeviceEnd<'_, N>,
    device: Peer,
) -> Option<Note> {
    let ip = end.end().local().ip;
    if is_gone(system, ip) {
        let ip = Ipv4Addr::from(ip);
        return Some(format!(in alloc; "the address {ip} is gone"));
    }
    let age = end.now().saturating_sub(end.heard()?);
    Some(format!(in alloc; "{device} was last heard {age} ms ago"))
}

/// Prints why a send failed, where one has and there is memory for the line.
fn note_failed_send<N: Clock, F: Sink>(
    alloc: Global,
    end: &DeviceEnd<'_, N>,
    faults: &mut Printer<F>,
) {
    if let Some(reason) = end.end().last_failed_send() {
        print_made_note(format!(in alloc; "a send failed: {reason}"), faults);
    }
}

/// What a device that was never heard, and its host, say of it when they are asked.
fn reason_asked_for<N: Net + Clock>(
    alloc: Global,
    system: &N,
    panel: &mut Panel<DeviceEnd<'_, N>>,
    device: Peer,
) -> Note
    ensures { IsSameBeside panel.old panel.new }
{
    let own = panel.end().end().local();
    if is_there(panel, device) {
        let port = own.port;
        return format!(in alloc;
            "{device} is heard, but answers no command from port {port}: wait two minutes, or give another --port"
        );
    }
    if is_refused(system, own.ip, device) {
        return format!(in alloc;
            "nothing was heard from {device}: its host says that no program has this port"
        );
    }
    format!(in alloc; "nothing was heard from {device}")
}

/// Whether a device is heard when it is sent keep-alives.
fn is_there<E: End>(panel: &mut Panel<Watched<E>>, device: Peer) -> bool
    ensures { IsSameBeside panel.old panel.new }
{
    for round in 0..ROUNDS {
        let heard = panel.call(device);
        if matches!(heard, Heard::Datagram { from, .. } if from == device) {
            return true;
        }
    }
    false
}
