//! The socket of a program, and what is printed of its port and of sends that failed.

use super::fault::{Failure, RunFault, io_failure, print_made_note};
use oca_net::{BindError, UdpEnd};
use oca_panel::{Reached, Unreached, Way};
use oca_script::{Printer, Sink};
use std::alloc::Global;
use std::io;
use std::net::Net;
use std::rt::Clock;

/// Binds a UDP socket at the address `ip` and the port `port`, and returns it as an end. `ip` is an IPv4
/// address as a number, the first byte highest; 0 is 0.0.0.0. At port 0 the system chooses a port. The call takes
/// memory from `alloc` for the end. The failure has the system's reason as its note, if there is a reason and memory
/// for it. Failures:
/// - `NoMemory` if memory was refused, to the program or by the system.
/// - `Socket` if the system refused the socket for another reason, such as a port in use.
pub fn bind<N: Net + Clock>(
    alloc: Global,
    system: &N,
    ip: u32,
    port: u16,
) -> Result<UdpEnd<'_, N>, Failure> {
    UdpEnd::bind_with_reason(alloc, system, ip, port).map_err(|error| refused(alloc, &error, 0))
}

/// Opens a socket from which a device is reached ([`Way::reach`]). If the device answers no command from the port that
/// was to be used, the port that is used instead is printed to `faults`. The failures are those of [`bind`]; the note
/// of a failure begins with the port if `names_port` is true and the system was not to choose one.
pub fn reach_device<'a, N: Net + Clock, F: Sink>(
    alloc: Global,
    system: &'a N,
    way: Way,
    names_port: bool,
    faults: &mut Printer<F>,
) -> Result<Reached<'a, N>, Failure> {
    let reached = match way.reach(alloc, system) {
        Ok(reached) => reached,
        Err(Unreached { port, error }) => {
            return Err(refused(alloc, &error, if names_port { port } else { 0 }));
        }
    };
    if let Some(port) = reached.instead_of {
        let (device, other) = (way.device, reached.end.end().local().port);
        let note = format!(in alloc;
            "{device} answers no command from port {port}: port {other} is used instead"
        );
        print_made_note(note, faults);
    }
    Ok(reached)
}

/// The failure of a run that got no socket, as `error` says. Its note names the port `port`, unless that is 0.
fn refused(alloc: Global, error: &BindError, port: u16) -> Failure {
    let BindError::Io(reason) = error else {
        return Failure::from(RunFault::NoMemory);
    };
    let note = if port == 0 {
        format!(in alloc; "{reason}")
    } else {
        format!(in alloc; "port {port}: {reason}")
    };
    io_failure(RunFault::Socket, reason, note)
}

/// Prints to `faults` the note of how many sends failed (`failed`), and why the last of them did, unless `last` is
/// `None` ([`print_made_note`]).
pub fn note_failed_sends<F: Sink>(
    alloc: Global,
    failed: u64,
    last: Option<io::Error>,
    faults: &mut Printer<F>,
) {
    if let Some(reason) = last {
        let note = format!(in alloc; "failed sends: {failed}, the last: {reason}");
        print_made_note(note, faults);
    }
}
