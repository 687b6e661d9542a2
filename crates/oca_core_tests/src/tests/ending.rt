//! What ends in memory deliver, and what they took.
ghost use Rattle.std.specs.Prelude.{IsTrue};

use super::control::{DEVICE, response};
use super::device::parts::{Part, bytes_of};
use crate::tests::{Said, Wanted};
use oca_net::{End, MemoryEnd, Scripted};
use oca_types::{Packet, Peer};
use std::alloc::Global;

/// An entry of what an end delivers.
#[derive(Clone, Copy)]
pub enum Entry {
    /// Bytes of a peer at a moment.
    Datagram(Peer, &'static [u8], u64),
    /// A datagram of these parts of a peer at a moment.
    Parts(Peer, &'static [Part], u64),
    /// The device's response to the command of a handle, at a moment.
    Response(u8, u64),
    /// Silence at a moment.
    Quiet(u64),
    /// A receive that fails.
    Failed,
}

/// An end in memory.
#[derive(Clone, Copy)]
pub struct Ending {
    /// It is quiet so often before all else, each 250 ms from 0 on.
    pub quiet: u64,
    /// What it delivers then.
    pub entries: &'static [Entry],
    /// How many datagrams it takes.
    pub room: usize,
    /// The number of a send that fails.
    pub fail_send: Option<u64>,
}

/// The bytes of a peer at a moment, as an end takes them.
fn datagram(alloc: Global, from: Peer, bytes: &[u8], now: u64) -> Option<Scripted> {
    match bytes.to_vec(alloc) {
        Ok(bytes) => Some(Scripted::Datagram { from, bytes, now }),
        Err(_) => None,
    }
}

/// The entry as an end takes it.
fn scripted(alloc: Global, entry: Entry) -> Option<Scripted> {
    match entry {
        Entry::Datagram(from, bytes, now) => datagram(alloc, from, bytes, now),
        Entry::Parts(from, parts, now) => datagram(alloc, from, bytes_of(parts).as_slice(), now),
        Entry::Response(handle, now) => datagram(alloc, DEVICE, &response(handle), now),
        Entry::Quiet(now) => Some(Scripted::Quiet { now }),
        Entry::Failed => Some(Scripted::Failed),
    }
}

/// Asks for an end that tells.
fn is_given<E: End>(_end: &E) -> bool
    requires { IsTrue (E.state _end.now).tells }
{
    true
}

/// So many silences, each 250 ms, and then the entries.
fn script_of(alloc: Global, ending: Ending) -> Option<Vec<Scripted>> {
    let mut script = Vec::new(alloc);
    for turn in 0..ending.quiet {
        let now = turn.saturating_mul(250);
        script.push(Scripted::Quiet { now }).ok()?;
    }
    for entry in ending.entries {
        script.push(scripted(alloc, *entry)?).ok()?;
    }
    Some(script)
}

/// The end. It tells.
pub fn end_of(alloc: Global, ending: Ending) -> Option<MemoryEnd> {
    let script = script_of(alloc, ending)?;
    match MemoryEnd::new(alloc, script, ending.room, ending.fail_send) {
        Ok(end) if is_given(&end) => Some(end),
        _ => None,
    }
}

impl Wanted<Scripted> for Entry {
    /// Whether this was delivered for the entry.
    fn is(&self, found: &Scripted, said: &mut Said) -> bool {
        match (found, *self) {
            (Scripted::Datagram { from, bytes, now }, Entry::Datagram(sender, wanted, moment)) => {
                said.same(*from, sender)
                    && said.same(bytes.as_slice(), wanted)
                    && said.same(*now, moment)
            }
            (Scripted::Quiet { now }, Entry::Quiet(moment)) => said.same(*now, moment),
            (Scripted::Failed, Entry::Failed) => true,
            _ => false,
        }
    }
}

/// A datagram that an end took: its receiver, and its bytes.
#[derive(Clone, Copy)]
pub struct Took(pub Peer, pub &'static [u8]);

impl Wanted<(Peer, Packet)> for Took {
    /// Whether this was taken.
    fn is(&self, found: &(Peer, Packet), said: &mut Said) -> bool {
        said.same(found.0, self.0) && said.same(found.1.as_slice(), self.1)
    }
}
