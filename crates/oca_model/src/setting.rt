//! Setting a reading to a value: the limits stay.
ghost use Rattle.std.specs.Prelude.{◌≡◌};
ghost use Rattle.oca_model.specs.Settings.{class_of_reading, is_within, with_value, set_to};

use crate::reading::{Ranged, Reading};
use crate::value::{Value, with_integers};
use oca_types::Class;

/// Why a reading cannot be set to a value: the first fault in this order that applies.
#[derive(Clone, Copy, Debug, PartialEq, Eq)]
pub enum SettingFault {
    /// The value is not of the reading's class.
    OtherClass,
    /// The value is below the least or above the greatest.
    OutOfRange,
}

impl Reading {
    /// Returns the class of the objects that answer such a reading (AES70-2). It is never OcaBlock, which has no
    /// setting.
    #[inline(always)]
    pub fn class(self) -> Class
        ensures { result ≡ class_of_reading self }
    {
        self.value().class()
    }

    /// Returns whether the setting is at least the least and at most the greatest of the reading (AES70-2). The result
    /// is always `true` for a mute, a polarity and a Boolean, which have no limits. It is `false` for each setting if
    /// the least is above the greatest.
    #[tactic(auto, unfolding(crate::specs::Settings::is_within))]
    pub fn is_within(self) -> bool
        ensures { result ≡ is_within self }
    {
        macro_rules! lies {
            ($($integer:ident $type:ty),*) => {
                match self {
                    Reading::Switch(r) => r.least <= r.setting && r.setting <= r.greatest,
                    $(Reading::$integer(r) => r.least <= r.setting && r.setting <= r.greatest,)*
                    _ => true,
                }
            };
        }
        with_integers!(lies)
    }

    /// Returns the reading with another value and the same limits (AES70-2). The value can be outside the limits;
    /// [`Reading::set_to`] refuses such a value. The result is `None` if the value is not of the reading's class.
    #[tactic(auto, unfolding(crate::specs::Settings::with_value))]
    pub fn with_value(self, value: Value) -> Option<Reading>
        ensures { result ≡ with_value self value }
    {
        macro_rules! set {
            ($($integer:ident $type:ty),*) => {
                match (self, value) {
                    (Reading::Mute(_), Value::Mute(state)) => Some(Reading::Mute(state)),
                    (Reading::Polarity(_), Value::Polarity(state)) => Some(Reading::Polarity(state)),
                    (Reading::Switch(r), Value::Switch(n)) => Some(Reading::Switch(set_in_limits(r, n))),
                    (Reading::Boolean(_), Value::Boolean(truth)) => Some(Reading::Boolean(truth)),
                    $((Reading::$integer(r), Value::$integer(n)) => {
                        Some(Reading::$integer(set_in_limits(r, n)))
                    })*
                    _ => None,
                }
            };
        }
        with_integers!(set)
    }

    /// Returns the reading that an object has after it is set to this value: the value, with the same limits (AES70-2).
    /// The call sends nothing and changes no object. Refusals, the first that applies: `OtherClass` if the value is not
    /// of the reading's class. `OutOfRange` if the value is below the least or above the greatest. A mute, a polarity
    /// and a Boolean have no limits.
    pub fn set_to(self, value: Value) -> Result<Reading, SettingFault>
        ensures { result ≡ set_to self value }
    {
        match self.with_value(value) {
            None => Err(SettingFault::OtherClass),
            Some(reading) => {
                if reading.is_within() {
                    Ok(reading)
                } else {
                    Err(SettingFault::OutOfRange)
                }
            }
        }
    }
}

/// The same limits with another setting.
fn set_in_limits<N: Copy>(ranged: Ranged<N>, setting: N) -> Ranged<N>
    ensures { result ≡ Rattle.oca_model.specs.Settings.set_in_limits ranged setting }
{
    Ranged { setting, ..ranged }
}
