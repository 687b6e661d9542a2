//! A device and a link at two sockets of one process, turn by turn: what is sent lies at the socket until it is
//! received.
use crate::tests::device::{Setup, device_of};
use crate::tests::net::end_here;
use crate::tests::{Agrees, Said, plays};
use oca_control::{Link, drive};
use oca_device::{Device, Outbox, serve};
use oca_net::UdpEnd;
use oca_types::{Handle, MethodId, Ono, Span};

/// No parameters.
const NONE: &[u8] = &[];

/// The parameter of Muted.
const MUTED: &[u8] = &[1];

const GET_STATE: MethodId = MethodId { level: 4, index: 1 };

/// What is done at one of the ends, and comes out so.
#[derive(Clone, Copy)]
enum Step {
    /// The link takes GetState of 4097 under each of these handles, from the first up to the one before the last.
    Submits(u32, u32),
    /// The link sends so many in a turn.
    Sends(u64),
    /// The device executes so many in as many turns.
    Executes(u32),
    /// The link hears so many answers in as many turns.
    Hears(u32),
    /// Each of these handles has an answer, which says Muted.
    Takes(u32, u32),
}

use Step::*;

const STEPS: &[Step] = &[
    Submits(1, 2),
    Sends(1),
    Executes(1),
    Hears(1),
    Takes(1, 2),
    Submits(2, 18),
    Sends(16),
    Executes(16),
    Hears(16),
    Takes(2, 18),
];

/// Whether GetState of 4097 gets each of these handles.
fn submits(link: &mut Link, first: u32, end: u32, said: &mut Said) -> bool {
    for handle in first..end {
        if !said.same(
            link.submit(Ono(4097), GET_STATE, 0, NONE, 0),
            Ok(Handle(handle)),
        ) {
            return false;
        }
    }
    true
}

/// Whether each of these handles has an answer, which says Muted.
fn takes(link: &mut Link, first: u32, end: u32, said: &mut Said) -> bool {
    for handle in first..end {
        match link.take(Handle(handle)) {
            Some(answer)
                if answer.status == 0 && answer.count == 1 && answer.params.as_slice() == MUTED =>
                {}
            _ => return false,
        }
    }
    true
}

/// A device and a link, each at a socket of this machine.
#[derive(Drop)]
struct Bench<'a> {
    device: Device,
    outbox: Outbox,
    device_end: UdpEnd<'a, HostRuntime>,
    link: Link,
    link_end: UdpEnd<'a, HostRuntime>,
}

impl Agrees<Bench<'_>> for Step {
    /// Whether the step comes out so.
    fn agrees(&self, on: &mut Bench<'_>, said: &mut Said) -> bool {
        match *self {
            Submits(first, end) => submits(&mut on.link, first, end, said),
            Sends(count) => said.same(drive(&mut on.link, &mut on.link_end, 1).sent, count),
            Executes(count) => {
                let report = serve(&mut on.device, &mut on.device_end, &mut on.outbox, count);
                said.same(report.executed, u64::from(count))
            }
            Hears(count) => {
                said.same(
                    drive(&mut on.link, &mut on.link_end, count).answered,
                    u64::from(count),
                )
            }
            Takes(first, end) => takes(&mut on.link, first, end, said),
        }
    }
}

/// Whether each step comes out so.
pub fn agree(rt: &HostRuntime, said: &mut Said) -> bool {
    let alloc = rt.alloc();
    let (Some(device), Ok(outbox)) = (device_of(alloc, Setup::Window(32)), Outbox::new(alloc))
    else {
        return false;
    };
    let (Some(device_end), Some(link_end)) = (end_here(rt), end_here(rt)) else {
        return false;
    };
    let link = Link::new(device_end.local(), Handle(1), 0, Span::default());
    let mut on = Bench {
        device,
        outbox,
        device_end,
        link,
        link_end,
    };
    plays(&mut on, "turns", STEPS, said)
}
