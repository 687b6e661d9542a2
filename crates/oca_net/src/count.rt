//! The counts that an end keeps.
ghost use Rattle.std.specs.Prelude.{◌≡◌};
ghost use Rattle.oca_net.specs.Ends.{one_more};

/// Counts one more, up to the last value.
pub(crate) fn step(count: &mut u64)
    ensures { count.new ≡ one_more count.old }
{
    *count = count.saturating_add(1);
}
