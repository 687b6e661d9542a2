//! Moments from which on something is due, in milliseconds.
ghost use Rattle.std.specs.Prelude.{◌≡◌, ◌-◌, ◌<◌, ◌^◌, max, nat_le};
ghost use Rattle.oca_types.specs.Moments.{HoldsFrom};

/// The moment `by` milliseconds after `moment`; `by` must be at least 1 (a premise). `None` if it lies beyond 64 bits.
pub fn later(moment: u64, by: u64) -> Option<u64>
    requires { 0 < by }
    ensures { HoldsFrom (λ s. nat_le by (s - moment)) result }
{
    moment.checked_add(by)
}

/// The later of two moments, both in milliseconds of the same clock.
pub fn latest(a: u64, b: u64) -> u64
    ensures value { result ≡ max a b }
    ensures fits { result < 2 ^ 64 }
{
    a.max(b)
}
