//! Bringing what was stored of an object into the struct that says what the object is to be.
ghost use Rattle.std.specs.Prelude.{◌≡◌, ◌≤◌, ◌↔◌, IsTrue};
ghost use Rattle.oca_calls.specs.Numbers.{answer_number};
ghost use Rattle.oca_calls.specs.Restoring.{AlikeRestore, HasSetTexts, IsPossible, PossibleRestores, RestoresSpec};
ghost use Rattle.oca_calls.specs.Restoring.{with_stored, with_stored_value};

use crate::answer::Answer;
use crate::limits::reading_of;
use crate::name::{MOST_POSITIONS, text_of, texts_of};
use crate::spec_words::SpecWords;
use crate::value_words::{ReadingWords, ValueWords};
use oca_model::Reading;

/// Changes `spec`, the description of an object, to what was stored of the object (`stored`): the value, the label, and
/// whether it is enabled.
pub fn restore(spec: &mut SpecWords, stored: &SpecWords) -> Answer
    ensures { RestoresSpec (answer_number result) spec.old stored.now spec.new }
{
    if !spec.is_of_this_version() || !stored.is_of_this_version() {
        return Answer::BadSize;
    }
    let class_number = stored.reading.value.class_number;
    if class_number != spec.reading.value.class_number || stored.positions != spec.positions {
        return Answer::OtherKind;
    }
    restore_alike(spec, stored)
}

/// The same, once both are of this version, of one class, and have as many positions.
fn restore_alike(spec: &mut SpecWords, stored: &SpecWords) -> Answer
    requires { stored.now.positions ≡ spec.old.positions }
    ensures { AlikeRestore (answer_number result) spec.old stored.now spec.new }
{
    if usize::from(spec.positions) > MOST_POSITIONS {
        return Answer::BadRange;
    }
    if !has_set_texts(stored) {
        return Answer::BadText;
    }
    if spec.reading.value.class_number == 1 {
        bring(spec, stored);
        return Answer::Done;
    }
    let reading = reading_of(&with_value(&spec.reading, stored.reading.value));
    restore_possible(reading, spec, stored)
}

/// The same, once the stored value is read within the limits of the struct.
fn restore_possible(reading: Option<Reading>, spec: &mut SpecWords, stored: &SpecWords) -> Answer
    ensures { PossibleRestores reading (answer_number result) spec.old stored.now spec.new }
{
    match reading {
        Some(reading) if is_possible(reading, spec.positions) => {
            bring(spec, stored);
            Answer::Done
        }
        _ => Answer::OutOfRange,
    }
}

/// Whether the label and the names of the positions are texts.
fn has_set_texts(words: &SpecWords) -> bool
    requires { words.now.positions ≤ 16 }
    ensures { IsTrue result ↔ HasSetTexts words.now }
{
    text_of(&words.label).is_some()
        && texts_of(&words.names[..usize::from(words.positions)]).is_some()
}

/// The same limits with another value.
fn with_value(reading: &ReadingWords, value: ValueWords) -> ReadingWords
    ensures { result ≡ with_stored_value reading.now value }
{
    ReadingWords {
        value,
        least: reading.least,
        greatest: reading.greatest,
    }
}

/// Whether an object with these limits and so many positions can be set so.
fn is_possible(reading: Reading, positions: u16) -> bool
    ensures { IsTrue result ↔ IsPossible reading positions }
{
    match reading {
        Reading::Switch(r) => r.setting < positions,
        _ => reading.is_within(),
    }
}

/// Puts what was stored into the struct.
fn bring(spec: &mut SpecWords, stored: &SpecWords)
    ensures { spec.new ≡ with_stored spec.old stored.now }
{
    spec.reading.value = stored.reading.value;
    spec.label = stored.label;
    spec.enabled = stored.enabled;
    spec.names = stored.names;
    spec.enableds = stored.enableds;
}
