//! The moments of an end: milliseconds since the start of its clock. None that is told is before one that was told
//! earlier; where the clock can't be read, the latest one is told again.
ghost use Rattle.std.specs.Prelude.{◌≡◌, ◌≤◌, max};
ghost use Rattle.oca_net.specs.Ends.{one_more};
ghost use Rattle.oca_net.specs.Moments.{milliseconds_of};
ghost use Rattle.oca_net.specs.PrivateMoments.{IsFresh};

use crate::socket::Socket;
use std::rt::Clock;
use std::time::Duration;

impl<'a, C: Clock> Socket<'a, C> {
    /// The present moment, which is not noted: no earlier one than was told.
    pub(crate) fn now(&self) -> u64
        ensures { self.now.latest ≤ result }
    {
        milliseconds(self.system.peek()).max(self.latest)
    }

    /// Looks at the clock: the present moment, which is not noted.
    pub(crate) fn look(&mut self) -> u64
        ensures fresh { IsFresh result self.new.latest (milliseconds_of self.new.system.reading)
            self.new.system.looked self.new.system.calls }
        ensures later { self.old.latest ≤ result }
        ensures latest { self.new.latest ≡ self.old.latest }
        ensures until { self.new.until ≡ self.old.until }
        ensures taken { self.new.system.taken ≡ self.old.system.taken }
        ensures fault { self.new.fault ≡ self.old.fault }
        ensures refused { self.new.system.refused ≡ self.old.system.refused }
        ensures begun { self.new.begun ≡ self.old.begun }
        ensures calls { self.new.system.calls ≡ one_more self.old.system.calls }
    {
        milliseconds(self.system.look()).max(self.latest)
    }

    /// Looks at the clock, returns the present moment and notes it, so that no later call returns an earlier one.
    pub(crate) fn note_moment(&mut self) -> u64
        ensures moment { result ≡ self.new.latest }
        ensures later { self.new.latest ≡ max self.old.latest (milliseconds_of self.new.system.reading) }
        ensures looked { self.new.system.looked ≡ self.new.system.calls }
        ensures behind { self.new.system.looked ≡ one_more self.old.system.calls }
        ensures received { self.new.system.received ≡ self.old.system.received }
        ensures waited { self.new.system.waited ≡ self.old.system.waited }
        ensures taken { self.new.system.taken ≡ self.old.system.taken }
        ensures fault { self.new.fault ≡ self.old.fault }
        ensures refused { self.new.system.refused ≡ self.old.system.refused }
        ensures begun { self.new.begun ≡ self.old.begun }
        ensures until { self.new.until ≡ self.old.until }
    {
        self.latest = self.latest.max(milliseconds(self.system.look()));
        self.latest
    }

    /// Waits until this moment.
    pub(crate) fn sleep_until(&self, moment: u64) {
        let left = moment.saturating_sub(self.now());
        self.system.sleep(Duration::from_millis(left));
    }
}

/// Whole milliseconds, up to the last value.
fn milliseconds(time: Duration) -> u64
    ensures { result ≡ milliseconds_of time }
{
    match u64::try_from(time.as_millis()) {
        Ok(count) => count,
        Err(_) => u64::MAX,
    }
}
