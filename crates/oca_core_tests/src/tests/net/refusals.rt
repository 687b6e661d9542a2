//! Where no end is bound, why, and the words of that; and the descriptor of one that is.
use super::{AtSockets, LOCALHOST, Machine, SocketEnd, play};
use crate::tests::{Agrees, Said, Words, all_agree};
use oca_net::{
    BindError, BindFault, UdpEnd, fill_standard_descriptors, is_gone, is_refused as host_refuses,
};
use oca_types::Peer;
use std::io::ErrorKind;
use std::os::fd::{AsFd, AsRawFd};

/// 192.0.2.1, an address of no machine, at a port of the system's choice.
const NO_MACHINE: Peer = Peer {
    ip: 0xc000_0201,
    port: 0,
};

/// Where an end is that is asked for there, or why there is none.
fn bound(rt: &HostRuntime, at: Peer) -> Result<Peer, BindFault> {
    match UdpEnd::bind(rt.alloc(), rt, at.ip, at.port) {
        Ok(end) => Ok(end.local()),
        Err(fault) => Err(fault),
    }
}

/// Whether no end is bound there for a reason of this kind with these words.
fn is_refused_for(
    rt: &HostRuntime,
    at: Peer,
    kind: ErrorKind,
    text: &str,
    said: &mut Said,
) -> bool {
    match UdpEnd::bind_with_reason(rt.alloc(), rt, at.ip, at.port) {
        Err(BindError::Io(reason)) => {
            said.same(reason.kind(), kind) && said.prints(&BindError::Io(reason), text)
        }
        _ => false,
    }
}

/// Whether an end for this device is at the address from which this machine reaches itself, and at this port.
fn is_towards(rt: &HostRuntime, device: Peer, port: u16) -> bool {
    match UdpEnd::bind_towards(rt.alloc(), rt, device, port) {
        Ok(end) => end.local().ip == LOCALHOST && (port == 0 || end.local().port == port),
        Err(_) => false,
    }
}

/// A port that was free just now.
fn free_port(rt: &HostRuntime) -> u16 {
    match bound(rt, HERE) {
        Ok(local) => local.port,
        Err(_) => 0,
    }
}

/// Why no end for this device is bound at this port.
fn is_towards_nowhere(
    rt: &HostRuntime,
    device: Peer,
    port: u16,
    kind: ErrorKind,
    said: &mut Said,
) -> bool {
    match UdpEnd::bind_towards_with_reason(rt.alloc(), rt, device, port) {
        Err(BindError::Io(reason)) => said.same(reason.kind(), kind),
        _ => false,
    }
}

/// Whether an end has a descriptor behind the standard ones, the same both ways.
fn has_a_descriptor(end: &SocketEnd<'_>) -> bool {
    let number = end.as_raw_fd();
    number > 2 && end.as_fd().as_raw_fd() == number
}

/// Where an end is asked for.
#[derive(Clone, Copy)]
pub enum Place {
    /// Where the first end is bound.
    InUse,
    /// At an address of no machine.
    Nowhere,
}

/// Where it is.
fn peer(on: &Machine<'_>, place: Place) -> Peer {
    match place {
        Place::InUse => on.first.local(),
        Place::Nowhere => NO_MACHINE,
    }
}

/// What is refused while an end is bound.
#[derive(Clone, Copy)]
pub enum Step {
    /// The system refuses an end there.
    IsRefused(Place),
    /// It does for a reason of this kind with these words.
    IsRefusedFor(Place, ErrorKind, &'static str),
    /// A host does not refuse the port of the end.
    HasAProgram,
    /// An end for the first one as a device is at the address of this machine, at a port of the system's choice and at
    /// one that was asked for; and there is none at the port of the first.
    IsTowards,
    /// The machine has the address of the first end, and not that of no machine.
    HasItsAddress,
    /// The end has a descriptor.
    HasADescriptor,
}

use Step::*;

impl Agrees<Machine<'_>> for Step {
    /// Whether it is answered so.
    fn agrees(&self, on: &mut Machine<'_>, said: &mut Said) -> bool {
        let (rt, first) = (on.rt, on.first.local());
        match *self {
            IsRefused(at) => matches!(bound(rt, peer(on, at)), Err(BindFault::Io)),
            IsRefusedFor(at, kind, text) => is_refused_for(rt, peer(on, at), kind, text, said),
            HasAProgram => !host_refuses(rt, LOCALHOST, first),
            IsTowards => {
                is_towards(rt, first, 0)
                    && is_towards(rt, first, free_port(rt))
                    && is_towards_nowhere(rt, first, first.port, ErrorKind::AddrInUse, said)
            }
            HasItsAddress => !is_gone(rt, first.ip) && is_gone(rt, NO_MACHINE.ip),
            HasADescriptor => has_a_descriptor(&on.first),
        }
    }
}

const REASONS: &[Step] = rows! {
    IsRefusedFor(Place::InUse, ErrorKind::AddrInUse, "Address already in use (os error 98)"),
    IsRefusedFor(Place::Nowhere, ErrorKind::AddrNotAvailable, "Cannot assign requested address (os error 99)"),
};

/// The scripts.
const SCRIPTS: &[AtSockets<'static, Step>] = rows! {
    AtSockets("a_port_in_use_is_refused", &[IsRefused(Place::InUse), IsRefused(Place::Nowhere)]),
    AtSockets("a_refused_socket_has_the_systems_reason", REASONS),
    AtSockets("a_host_refuses_a_port_that_no_program_has", &[HasAProgram]),
    AtSockets("an_end_for_a_device_is_at_one_address_and_the_port", &[IsTowards]),
    AtSockets("an_address_that_is_there_is_not_gone", &[HasItsAddress]),
    AtSockets("an_end_has_a_descriptor", &[HasADescriptor]),
};

/// A port of this machine of the system's choice.
const HERE: Peer = Peer {
    ip: LOCALHOST,
    port: 0,
};

/// Whether a port is free, and a host refuses it.
fn is_free(rt: &HostRuntime, at: Peer) -> bool {
    matches!(bound(rt, at), Ok(local) if local == at)
        && host_refuses(rt, LOCALHOST, at)
        && !host_refuses(rt, NO_MACHINE.ip, at)
}

/// Whether a port is free once its end is gone.
fn is_free_again(rt: &HostRuntime) -> bool {
    match bound(rt, HERE) {
        Ok(local) => is_free(rt, local),
        Err(_) => false,
    }
}

/// The faults in words.
const FAULTS: &[Words<BindFault>] = &[
    Words(BindFault::Io, "socket failed"),
    Words(BindFault::NoMemory, "no memory"),
];

#[test]
fn an_end_is_refused_where_the_system_has_none(rt: HostRuntime) {
    assert!(rt; fill_standard_descriptors(&rt).is_ok());
    play(&rt, &rt, SCRIPTS);
}

#[test]
fn a_port_is_free_behind_its_end(rt: HostRuntime) {
    // A port is free once its end is gone.
    assert!(rt; is_free_again(&rt));
    all_agree(&rt, "faults of a bind have words", FAULTS);
    assert!(rt; Said::new(rt.alloc()).prints(&BindError::NoMemory, "no memory"));
}
