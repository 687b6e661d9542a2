//! From which moment on locks are released.
ghost use Rattle.oca_types.specs.Moments.{HoldsFrom};
ghost use Rattle.oca_device.specs.PrivateLapses.{releases};

use oca_session::SessionsOf;
use oca_tree::Tree;
use oca_types::sooner;

/// The first moment, in milliseconds of the device's clock, at which the holder of some lock was silent for more than
/// three of its heartbeats, if no peer is heard before. `sessions` say when each peer was heard. The moment may be
/// past. `None` if no holder of a lock has a session, or if that moment lies beyond 64 bits. If no object is locked, no
/// object is looked at.
pub fn released_from<const COMMAND: usize, const ANSWER: usize>(
    tree: &Tree,
    sessions: &SessionsOf<COMMAND, ANSWER>,
) -> Option<u64>
    ensures { HoldsFrom (releases tree.now sessions.now.sessions) result }
{
    if tree.lock_count() == 0 {
        return None;
    }
    let mut first = None;
    for at in 0..tree.len() {
        if let Some(lock) = tree.lock_at(at) {
            first = sooner(first, sessions.lapsed_from(lock.holder));
        }
    }
    first
}
