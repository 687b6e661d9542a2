//! Reading the words of a reading: a value, and limits of its class.
ghost use Rattle.std.specs.Prelude.{◌≡◌};
ghost use Rattle.oca_calls.specs.CSpecs.{AreReadingOf, ranged, reading_of_values};

use crate::value_words::ReadingWords;
use oca_model::{Ranged, Reading, Value, with_integers};

/// A setting within its limits.
fn ranged<N: Copy>(setting: N, least: N, greatest: N) -> Ranged<N>
    ensures { result ≡ ranged setting least greatest }
{
    Ranged {
        setting,
        least,
        greatest,
    }
}

/// Returns the reading that the words of a struct for C hold: a value, and of an integer a least and a greatest of its
/// class. `None` if they hold none. Whether an integer lies within its limits is not checked.
pub fn reading_of(words: &ReadingWords) -> Option<Reading>
    ensures { AreReadingOf words.now result }
{
    reading_of_values(
        words.value.value(),
        words.least.value(),
        words.greatest.value(),
    )
}

/// The reading that a value and its limits make.
fn reading_of_values(
    value: Option<Value>,
    low: Option<Value>,
    high: Option<Value>,
) -> Option<Reading>
    ensures { result ≡ reading_of_values value low high }
{
    macro_rules! reading {
        ($($integer:ident $type:ty),*) => {
            match value? {
                Value::Mute(state) => Some(Reading::Mute(state)),
                Value::Polarity(state) => Some(Reading::Polarity(state)),
                Value::Switch(n) => Some(Reading::Switch(ranged(n, n, n))),
                Value::Boolean(truth) => Some(Reading::Boolean(truth)),
                $(Value::$integer(setting) => match (low, high) {
                    (Some(Value::$integer(low)), Some(Value::$integer(high))) => {
                        Some(Reading::$integer(ranged(setting, low, high)))
                    }
                    _ => None,
                })*
            }
        };
    }
    with_integers!(reading)
}
