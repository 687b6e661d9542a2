//! The loop over an end in memory.
use super::*;
use crate::tests::ending::Entry::{Failed, Parts, Quiet};
use crate::tests::ending::{Ending, Entry, end_of};
use crate::tests::{Agrees, Row, Said, all_agree, plays};
use oca_device::serve;
use oca_net::MemoryEnd;

/// A run of the loop, or a look at the end, with what it must tell.
#[derive(Clone, Copy)]
enum Turn {
    /// The loop serves for at most so many turns.
    Serves(u32, Report),
    /// The end has taken so many datagrams.
    Taken(usize),
    /// The first datagram that the end has taken went to this peer and is of these parts.
    First(Peer, &'static [Part]),
    /// So many receives and sends failed.
    Failures(u64),
}

use Turn::*;

/// A device, its outbox, and the end that it serves.
#[derive(Drop)]
struct Bench {
    device: Device,
    outbox: Outbox,
    end: MemoryEnd,
}

impl Agrees<Bench> for Turn {
    /// Whether the turn tells what it must.
    fn agrees(&self, on: &mut Bench, said: &mut Said) -> bool {
        match *self {
            Serves(turns, report) => {
                said.same(
                    serve(&mut on.device, &mut on.end, &mut on.outbox, turns),
                    report,
                )
            }
            Taken(count) => said.same(on.end.taken().len(), count),
            First(peer, parts) => match on.end.taken().first() {
                Some((to, packet)) => said.same(*to, peer) && is_of(packet.as_slice(), parts, said),
                None => false,
            },
            Failures(count) => said.same(on.end.failures(), count),
        }
    }
}

/// GetState at 0, a failure, silence at 10, and GetState again. Behind the last entry the end is closed.
const DELIVERIES: &[Entry] = &[Parts(A, &[GET], 0), Failed, Quiet(10), Parts(A, &[GET], 20)];

/// A turn with a command, one that failed, and one of silence.
const THREE_TURNS: Report = report!(3, 1, 0, 1, failed_receives: 1);

/// Three turns and then the rest, each reply to its sender.
const SERVED: &[Turn] = &[
    Serves(3, THREE_TURNS),
    Taken(1),
    First(A, &[MUTED]),
    Serves(9, report!(1, 0, 1, 0)),
    Taken(2),
    Failures(1),
];

/// GetState at 0 and again at 1, where the first send fails.
const REPLY_IS_LOST: Ending =
    delivers!(&[Parts(A, &[GET], 0), Parts(A, &[GET], 1)], 4, fail_send: Some(0));

/// What is reported of a command whose reply is lost, and its duplicate.
const ONE_LOST: Report = report!(2, 1, 1, 0, failed_sends: 1);

/// The second gets the reply that the first was to get.
const LOST: &[Turn] = &[Serves(5, ONE_LOST), Taken(1), First(A, &[MUTED])];

/// Two commands of A, the first again, another under the second's handle, no bytes, too many bytes, silence, and a
/// peer for whom there is no room.
const ALL_THAT_COMES: &[Entry] = &[
    Parts(A, &[Part::GetState(5)], 0),
    Parts(A, &[Part::GetState(6)], 0),
    Parts(A, &[Part::GetState(5)], 0),
    Parts(A, &[Part::SetState(6, 2)], 0),
    Parts(A, &[], 0),
    Parts(A, &[Part::Times(1_473, &[0])], 0),
    Quiet(0),
    Parts(B, &[GET], 0),
];

/// What is reported of them.
const ALL_COUNTED: Report =
    report!(8, 2, 0, 1, old: 1, reused: 1, malformed: 1, no_room: 1, oversize: 1);

/// A play by its name: the device, what its end delivers, and what is done with it.
struct Play(&'static str, Setup, Ending, &'static [Turn]);

const PLAYS: &[Play] = rows! {
    Play("serves_an_end", Setup::Window(32), delivers!(DELIVERIES, 4), SERVED),
    Play("a_duplicate_gets_the_reply_that_was_lost", Setup::Window(32), REPLY_IS_LOST, LOST),
    Play("counts_all_that_comes", Setup::Peers(1), delivers!(ALL_THAT_COMES, 4), &[Serves(100, ALL_COUNTED), Taken(2)]),
};

impl Row for Play {
    /// Whether each turn tells what it must.
    fn agrees(&self, said: &mut Said) -> bool {
        let (Some(device), Ok(outbox), Some(end)) = (
            device_of(said.alloc, self.1),
            Outbox::new(said.alloc),
            end_of(said.alloc, self.2),
        ) else {
            return false;
        };
        let mut on = Bench {
            device,
            outbox,
            end,
        };
        plays(&mut on, self.0, self.3, said)
    }
}

#[test]
fn the_loop_answers_and_reports(rt: HostRuntime) {
    all_agree(&rt, "turns of the loop", PLAYS);
}
