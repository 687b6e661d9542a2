//! What C reads of a setting.
ghost use Rattle.std.specs.Prelude.{◌≡◌, IfSome, IsSome};
ghost use Rattle.oca_calls.specs.Outputs.{FitsReading, reading_of};

use oca_tree::Setting;

/// How an object is set, for C (`struct oca_setting`): `kind` is 1 for a state, 2 for a position, 3 for a Boolean and 4
/// for an integer. `negative` is 1 if the number is below 0, and otherwise 0. `magnitude` is the number without its
/// sign.
#[repr(C)]
#[derive(Clone, Copy)]
pub struct Reading {
    pub kind: u32,
    pub negative: u32,
    pub magnitude: u64,
}

impl Reading {
    /// Returns this setting as a struct for C. `None` if its number needs more than 64 bits, which no setting of an
    /// object does.
    pub fn of(setting: Setting) -> Option<Reading>
        ensures writes { IfSome result (λ reading. reading ≡ reading_of setting) }
        ensures fits { FitsReading setting → IsSome result }
    {
        let (kind, negative, magnitude) = match setting {
            Setting::State(state) => (1, 0, u64::from(state)),
            Setting::Position(position) => (2, 0, u64::from(position)),
            Setting::Truth(truth) => (3, 0, u64::from(truth)),
            Setting::Number { setting, .. } => {
                let magnitude = u64::try_from(setting.unsigned_abs()).ok()?;
                (4, u32::from(setting < 0), magnitude)
            }
        };
        Some(Reading {
            kind,
            negative,
            magnitude,
        })
    }
}
