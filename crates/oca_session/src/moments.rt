//! Moments from which on something holds, in milliseconds.
ghost use Rattle.std.specs.Prelude.{◌-◌, ◌<◌, ◌^◌, nat_lt};
ghost use Rattle.oca_types.specs.Moments.{HoldsFrom};

/// From which moment on silence passes a limit, where a peer was heard at a moment; nothing where that lies
/// beyond 64 bits.
pub(crate) fn passes_from(heard: u64, limit: u64) -> Option<u64>
    requires { limit < 2 ^ 40 }
    ensures { HoldsFrom (λ t. nat_lt limit (t - heard)) result }
{
    heard.checked_add(limit + 1)
}
