//! The names of statuses.
ghost use Rattle.std.specs.Prelude.{◌≡◌};
ghost use Rattle.std.specs.Option.{option_map};
ghost use Rattle.oca_model.specs.Statuses.{status_name_of};

use oca_types::Status;

/// Returns the name of the status with this number (OcaStatus, AES70-2), such as `OK` for 0 or `BadONo` for 5. The
/// result is `None` for the numbers 15 to 255, which no status has.
pub fn status_name(number: u8) -> Option<&'static str>
    ensures { option_map (λ name. name.now) result ≡ status_name_of number }
{
    Status::with_number(number).map(Status::name)
}
