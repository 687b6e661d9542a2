//! Ends in memory at which datagrams come, for both programs.
use oca_net::{MemoryEnd, Scripted};
use oca_types::Peer;
use std::alloc::Global;

/// What a receive gives, and at which moment.
#[derive(Clone, Copy)]
pub enum Coming {
    /// A datagram of a peer.
    Datagram(Peer, &'static [u8], u64),
    /// Nothing.
    Quiet(u64),
    /// It fails.
    Failed,
}

/// Adds a datagram of a peer.
fn put_datagram(
    alloc: Global,
    script: &mut Vec<Scripted>,
    from: Peer,
    bytes: &[u8],
    now: u64,
) -> bool {
    match bytes.to_vec(alloc) {
        Ok(bytes) => script.push(Scripted::Datagram { from, bytes, now }).is_ok(),
        Err(_) => false,
    }
}

/// Adds what a receive gives.
fn put(alloc: Global, script: &mut Vec<Scripted>, coming: Coming) -> bool {
    match coming {
        Coming::Datagram(from, bytes, now) => put_datagram(alloc, script, from, bytes, now),
        Coming::Quiet(now) => script.push(Scripted::Quiet { now }).is_ok(),
        Coming::Failed => script.push(Scripted::Failed).is_ok(),
    }
}

/// Adds what all receives give.
fn put_all(alloc: Global, script: &mut Vec<Scripted>, coming: &[Coming]) -> bool {
    for one in coming {
        if !put(alloc, script, *one) {
            return false;
        }
    }
    true
}

/// An end whose receives give this, and which takes so many datagrams; the send behind so many of them fails.
pub fn end(
    alloc: Global,
    coming: &[Coming],
    room: usize,
    fail_send: Option<u64>,
) -> Option<MemoryEnd> {
    let mut script = Vec::new(alloc);
    if put_all(alloc, &mut script, coming) {
        MemoryEnd::new(alloc, script, room, fail_send).ok()
    } else {
        None
    }
}
