//! Calls that take memory, one at a time, for a run in which memory is refused.
use oca_device::{Device, Outbox};
use oca_net::{BindFault, MemoryEnd, Scripted, UdpEnd};
use oca_pair::{PairFault, Start, Step, Transcript, run_pair};
use oca_session::Sessions;
use oca_tree::{Room, TreeBuilder, bench};
use oca_types::{Handle, LOOPBACK, MethodId, NoMemory, Ono, Peer, Peers, Sizes, Span, Window};
use std::alloc::Global;
use std::net::Net;
use std::rt::Clock;

/// The names of the calls, a line each.
pub const NAMES: &str =
    "tree-builder-new\ntree-builder-with-room\nbench\nsessions-new\ndevice-new\ndevice-with-sizes\noutbox-new\n\
     memory-end-new\nudp-end-bind\nrun-pair";

/// What a call answered.
#[derive(Clone, Copy)]
pub enum Answered {
    Done,
    NoMemory,
    /// Something that no want of memory explains.
    Wrong,
    /// No call has that name.
    Unknown,
}

/// Makes the call of this name.
pub fn call<R: Net + Clock>(alloc: Global, rt: &R, name: &str) -> Answered {
    match name {
        "nothing" => Answered::Done,
        "tree-builder-new" => made(TreeBuilder::new(alloc)),
        "tree-builder-with-room" => with_room(alloc),
        "bench" => made(bench(alloc)),
        "sessions-new" => made(Sessions::new(alloc, Window::default())),
        "device-new" => made(bench_device(alloc)),
        "device-with-sizes" => device_with_sizes(alloc),
        "outbox-new" => made(Outbox::new(alloc)),
        "memory-end-new" => made(memory_end(alloc)),
        "udp-end-bind" => udp_end_bind(alloc, rt),
        "run-pair" => paired(alloc),
        _ => Answered::Unknown,
    }
}

/// Whether it was made, or memory was refused.
fn made<T: Drop, E: Drop>(what: Result<T, E>) -> Answered {
    match what {
        Ok(_) => Answered::Done,
        Err(_) => Answered::NoMemory,
    }
}

/// Room for as many objects as there can be.
fn with_room(alloc: Global) -> Answered {
    match Room::new(4096) {
        Some(room) => made(TreeBuilder::with_room(alloc, room)),
        None => Answered::Wrong,
    }
}

/// A device over the bench objects, for 64 peers.
fn device_with_sizes(alloc: Global) -> Answered {
    let Some(peers) = Peers::new(64) else {
        return Answered::Wrong;
    };
    let sizes = Sizes {
        window: Window::default(),
        peers,
    };
    match bench(alloc) {
        Ok(tree) => made(Device::with_sizes(alloc, tree, sizes)),
        Err(_) => Answered::NoMemory,
    }
}

/// A bench device.
fn bench_device(alloc: Global) -> Result<Device, NoMemory> {
    match bench(alloc) {
        Ok(tree) => Device::new(alloc, tree, Window::default()),
        Err(_) => Err(NoMemory),
    }
}

/// An end with one scripted datagram, a keep-alive.
fn memory_end(alloc: Global) -> Result<MemoryEnd, NoMemory> {
    let Ok(bytes) = b"\x3b\x00\x01\x00\x00\x00\x0b\x04\x00\x01\x00\x01".to_vec(alloc) else {
        return Err(NoMemory);
    };
    let datagram = Scripted::Datagram {
        from: STARTS[0].peer,
        bytes,
        now: 0,
    };
    let mut script = Vec::new(alloc);
    match script.push(datagram) {
        Ok(()) => MemoryEnd::new(alloc, script, 4, None),
        Err(_) => Err(NoMemory),
    }
}

/// An end at 127.0.0.1 and a port of the system's choice.
fn udp_end_bind<R: Net + Clock>(alloc: Global, rt: &R) -> Answered {
    match UdpEnd::bind(alloc, rt, LOOPBACK, 0) {
        Ok(_) => Answered::Done,
        Err(BindFault::NoMemory) => Answered::NoMemory,
        Err(BindFault::Io) => Answered::Wrong,
    }
}

/// How many steps the schedule of `run-pair` has: four times the same eight.
const STEPS: usize = 32;

/// The step of this number: each of two links submits GetState of 4097, gives it out, it is delivered, and so is the
/// answer. So each list of a network grows past its first room.
fn paired_step(number: usize) -> Step<'static> {
    let link = number / 4 % 2;
    let k = number / 4;
    let now = number as u64;
    match number % 4 {
        0 => Step::Submit {
            link,
            target: Ono(4097),
            method: MethodId { level: 4, index: 1 },
            count: 0,
            params: &[],
            now,
        },
        1 => Step::Due { link, now },
        2 => Step::ToDevice { k, now },
        _ => Step::ToLink { k, now },
    }
}

/// Two links of different peers.
const STARTS: [Start; 2] = [
    Start {
        peer: Peer {
            ip: LOOPBACK,
            port: 9001,
        },
        first_handle: Handle(1),
    },
    Start {
        peer: Peer {
            ip: LOOPBACK,
            port: 9002,
        },
        first_handle: Handle(1),
    },
];

/// The steps of the schedule.
fn paired_steps() -> [Step<'static>; STEPS] {
    let mut steps = [Step::Tick { now: 0 }; STEPS];
    for number in 0..STEPS {
        steps[number] = paired_step(number);
    }
    steps
}

/// The schedule over the bench device.
fn paired(alloc: Global) -> Answered {
    let steps = paired_steps();
    match bench(alloc) {
        Ok(tree) => ran(run_pair(
            alloc,
            tree,
            Window::default(),
            Span::default(),
            &STARTS,
            &steps,
        )),
        Err(_) => Answered::NoMemory,
    }
}

/// Whether a schedule ran with all that it asks for, or memory was refused.
fn ran(what: Result<Transcript, PairFault>) -> Answered {
    match what {
        Ok(transcript) => {
            let is_whole = transcript.log.len() == STEPS && transcript.to_links.len() == STEPS / 4;
            drop(transcript);
            if is_whole {
                Answered::Done
            } else {
                Answered::Wrong
            }
        }
        Err(PairFault::NoMemory) => Answered::NoMemory,
        Err(_) => Answered::Wrong,
    }
}
