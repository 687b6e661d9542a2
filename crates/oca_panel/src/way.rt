//! The way to a device: a socket at one of this machine's ports, and the first handle over it.
ghost use Rattle.std.specs.Prelude.{◌≡◌, IfOk};

use crate::answering::{Probed, probe};
use crate::own_port::OwnPort;
use crate::watched::Watched;
use oca_net::{BindError, End, UdpEnd};
use oca_types::{Handle, Packet, Peer};
use std::alloc::Global;
use std::net::Net;
use std::rt::Clock;

/// How often the device is asked whether it answers commands from a port, while each question but no command is
/// answered. Each time takes at most a second.
const PROBES: u32 = 5;

/// How often a port that is in use is tried again.
const TRIES: u32 = 100;

/// How many milliseconds pass between two tries.
const BETWEEN_TRIES_MS: u64 = 20;

/// The port of this machine from which a device is reached.
#[derive(Clone, Copy, PartialEq, Eq, Debug)]
pub enum LocalPort {
    /// This port. At 0 the system chooses one.
    Given(u16),
    /// This port. If the device leaves commands from it unanswered, the system chooses another one. At 0 the system
    /// chooses one at once.
    Checked(u16),
    /// The port of [`OwnPort`]. If it is in use for longer than two seconds, the system chooses another one. If the
    /// device leaves commands from it unanswered, it is the other port of `OwnPort`, if that one is not in use.
    Own,
    /// The same, but the call is refused if one of the two ports of [`OwnPort`] is in use.
    OwnAlone,
}

/// A device, and how a controller reaches it.
#[derive(Clone, Copy, PartialEq, Eq, Debug)]
pub struct Way {
    /// The device's address and port.
    pub device: Peer,
    /// The local address, the first byte highest. At 0 it is the one from which the system reaches the device.
    pub ip: u32,
    /// The local port.
    pub port: LocalPort,
    /// The first handle. If it is `None`, [`OwnPort`] gives it, and the device is asked whether it answers commands
    /// from the port, unless the port is `Given`.
    pub first: Option<Handle>,
}

/// An end at a socket from which a device is reached. It remembers when the device was heard.
#[derive(Drop)]
pub struct Reached<'a, C: Clock> {
    /// The end.
    pub end: Watched<UdpEnd<'a, C>>,
    /// The handle of the first command over the end.
    pub first: Handle,
    /// The port that was to be used, if the device leaves commands from it unanswered. The end is at another port.
    pub instead_of: Option<u16>,
}

/// Why the system refused a socket.
#[derive(Drop)]
pub struct Unreached {
    /// The port at which the socket was to be bound; 0 if the system was to choose one.
    pub port: u16,
    /// The reason.
    pub error: BindError,
}

impl Way {
    ghost use Rattle.std.specs.Prelude.{◌≡◌, IfOk};

    /// Binds a socket from which the device is reached, and chooses the first handle over it.
    ///
    /// A device leaves a command unanswered if its handle is not above those that it heard before from the same port.
    /// So the device is asked, as [`LocalPort`] says, whether it answers commands from the port. A question that gets
    /// no answer does not show that the port can't be used, since datagrams can be lost. The port is left only if the
    /// device returned keep-alives in each of five seconds, and answered none of the some twenty questions meanwhile.
    ///
    /// Refused with the system's reason if it refuses the socket, for example since the port is in use, or has no route
    /// to the device; or if memory was refused.
    pub fn reach<'a, C: Net + Clock>(
        self,
        alloc: Global,
        system: &'a C,
    ) -> Result<Reached<'a, C>, Unreached>
        ensures { IfOk result (λ r. r.end.peer ≡ self.device) }
    {
        match self.port {
            LocalPort::Given(port) | LocalPort::Checked(port @ 0) => {
                let end = self.bind(alloc, system, port)?;
                Ok(self.reached(system, end))
            }
            LocalPort::Checked(port) => {
                let end = self.bind(alloc, system, port)?;
                self.checked(alloc, system, end, port, 0)
            }
            LocalPort::Own => {
                let own = OwnPort::now(system);
                let end = self.bind_patiently(alloc, system, own.port)?;
                if end.end().local().port != own.port {
                    return Ok(self.reached(system, end));
                }
                self.checked(alloc, system, end, own.port, own.other)
            }
            LocalPort::OwnAlone => {
                let own = OwnPort::now(system);
                drop(self.bind(alloc, system, own.other)?);
                let end = self.bind(alloc, system, own.port)?;
                self.checked(alloc, system, end, own.port, own.other)
            }
        }
    }

    /// An end at this port.
    fn bind<'a, C: Net + Clock>(
        self,
        alloc: Global,
        system: &'a C,
        port: u16,
    ) -> Result<Watched<UdpEnd<'a, C>>, Unreached>
        ensures { IfOk result (λ end. end.peer ≡ self.device) }
    {
        let bound = if self.ip == 0 {
            UdpEnd::bind_towards_with_reason(alloc, system, self.device, port)
        } else {
            UdpEnd::bind_with_reason(alloc, system, self.ip, port)
        };
        match bound {
            Ok(end) => Ok(Watched::new(end, self.device)),
            Err(error) => Err(Unreached { port, error }),
        }
    }

    /// An end at this port, or at one of the system's choice where this one is in use for longer than two seconds.
    fn bind_patiently<'a, C: Net + Clock>(
        self,
        alloc: Global,
        system: &'a C,
        port: u16,
    ) -> Result<Watched<UdpEnd<'a, C>>, Unreached>
        ensures { IfOk result (λ end. end.peer ≡ self.device) }
    {
        if let Ok(end) = self.bind(alloc, system, port) {
            return Ok(end);
        }
        let mut waiting = self.bind(alloc, system, 0)?;
        for attempt in 0..TRIES {
            wait_at(&mut waiting);
            if let Ok(end) = self.bind(alloc, system, port) {
                return Ok(end);
            }
        }
        Ok(waiting)
    }

    /// This end, which was not used, and the first handle over it. The clock is read behind the bind: an earlier user
    /// of the port has used lower handles.
    fn reached<'a, C: Net + Clock>(
        self,
        system: &'a C,
        end: Watched<UdpEnd<'a, C>>,
    ) -> Reached<'a, C>
        ensures { result.end.peer ≡ end.entry.peer }
    {
        let first = self.first.unwrap_or(OwnPort::now(system).first_handle);
        Reached {
            end,
            first,
            instead_of: None,
        }
    }

    /// This end at this port, where the device answers commands from there, else one at the port `other`, if it can be
    /// bound.
    fn checked<'a, C: Net + Clock>(
        self,
        alloc: Global,
        system: &'a C,
        end: Watched<UdpEnd<'a, C>>,
        port: u16,
        other: u16,
    ) -> Result<Reached<'a, C>, Unreached>
        requires { end.peer ≡ self.device }
        ensures { IfOk result (λ r. r.end.peer ≡ self.device) }
    {
        let mut here = self.reached(system, end);
        if self.first.is_some() || !leaves_unanswered(&mut here, self.device) {
            return Ok(here);
        }
        match self.bind(alloc, system, other) {
            Ok(end) => {
                let mut there = self.reached(system, end);
                there.instead_of = Some(port);
                Ok(there)
            }
            Err(_) if other != 0 => {
                here.end.forget();
                Ok(here)
            }
            Err(refused) => Err(refused),
        }
    }
}

/// Waits for a while at an end, at which nothing comes since nothing was sent from it.
fn wait_at<C: Net + Clock>(end: &mut Watched<UdpEnd<'_, C>>)
    ensures { end.new.peer ≡ end.old.peer }
{
    let until = end.now().saturating_add(BETWEEN_TRIES_MS);
    let mut packet = Packet::new();
    end.receive_by(&mut packet, until);
}

/// Whether the device returns keep-alives to this end, and answers no command from it. Moves the first handle behind
/// those of the questions. The link of the questions, some 94 kB, lies below this function alone.
#[inline(never)]
fn leaves_unanswered<C: Net + Clock>(reached: &mut Reached<'_, C>, device: Peer) -> bool
    ensures { reached.new.end.peer ≡ reached.old.end.peer }
{
    for round in 0..PROBES {
        reached.end.forget();
        let found = probe(&mut reached.end, device, reached.first);
        reached.first = Handle(reached.first.0.saturating_add(1));
        match found {
            Probed::NotAnswering => {}
            Probed::Answering | Probed::NotHeard => return false,
        }
    }
    true
}
