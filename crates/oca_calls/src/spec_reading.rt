//! Telling of an object all that an addition makes of it.
ghost use Rattle.std.specs.Prelude.{◌≡◌, ◌⊎◌, ◌≤◌, length, map, take, Some, IfSome, IsSome};
ghost use Rattle.std.specs.Option.{option_copied};
ghost use Rattle.oca_tree.specs.Readers.{info_at, info_of_ono};
ghost use Rattle.oca_calls.specs.CSpecs.{AreSettingWords, FitsBits, FitsSetting, FitsSpec, HasBits, IsNumberWords};
ghost use Rattle.oca_calls.specs.CSpecs.{IsSpecOf, WritesSpec, alone, is_yes};
ghost use Rattle.oca_calls.specs.Numbers.{answer_number};
ghost use Rattle.oca_calls.specs.declared.answer.Answer.TheVariants.{Done};
ghost use Rattle.oca_calls.specs.Outputs.{class_number};

use crate::answer::Answer;
use crate::name::{MOST_POSITIONS, Name, names_with};
use crate::spec_words::{SPEC_SIZE, SpecWords, bytes_of};
use crate::value_words::{ReadingWords, ValueWords};
use crate::words::class_number;
use oca_tree::{ObjectInfo, Setting, Tree};
use oca_types::Ono;

/// A number in 64 bits, one below 0 in two's complement; nothing of a number beyond, which no object has.
fn bits_of(number: i128) -> Option<u64>
    ensures bits { IfSome result (λ bits. HasBits number bits) }
    ensures fits { FitsBits number → IsSome result }
{
    match i64::try_from(number) {
        Ok(signed) => Some(signed.cast_unsigned()),
        Err(_) => u64::try_from(number).ok(),
    }
}

/// The words of a number of a class.
fn number_words(class_number: u32, number: i128) -> Option<ValueWords>
    ensures words { IfSome result (λ w. IsNumberWords class_number number w) }
    ensures fits { FitsBits number → IsSome result }
{
    let bits = bits_of(number)?;
    Some(ValueWords {
        class_number,
        zero: 0,
        bits,
    })
}

/// The words of a value without limits.
fn alone(class_number: u32, bits: u64) -> ReadingWords
    ensures { result ≡ alone class_number bits }
{
    let value = ValueWords {
        class_number,
        zero: 0,
        bits,
    };
    ReadingWords {
        value,
        least: value,
        greatest: value,
    }
}

/// The words of how an object of a class with so many positions is set; nothing of a number that has no room.
fn setting_words(
    class_number: u32,
    positions: usize,
    setting: Option<Setting>,
) -> Option<ReadingWords>
    ensures words { IfSome result (λ w. AreSettingWords class_number positions setting w) }
    ensures fits { FitsSetting setting → IsSome result }
{
    match setting {
        None => Some(alone(class_number, 0)),
        Some(Setting::State(state)) => Some(alone(class_number, u64::from(state))),
        Some(Setting::Position(position)) => Some(ReadingWords {
            value: ValueWords {
                class_number,
                zero: 0,
                bits: u64::from(position),
            },
            least: ValueWords {
                class_number,
                zero: 0,
                bits: 0,
            },
            greatest: ValueWords {
                class_number,
                zero: 0,
                bits: positions.saturating_sub(1) as u64,
            },
        }),
        Some(Setting::Truth(truth)) => Some(alone(class_number, u64::from(truth))),
        Some(
            Setting::Number {
                setting,
                least,
                greatest,
            },
        ) => number_limits(class_number, setting, least, greatest),
    }
}

/// The words of a number within its limits.
fn number_limits(
    class_number: u32,
    setting: i128,
    least: i128,
    greatest: i128,
) -> Option<ReadingWords>
    ensures value { IfSome result (λ w. IsNumberWords class_number setting w.value) }
    ensures least { IfSome result (λ w. IsNumberWords class_number least w.least) }
    ensures greatest { IfSome result (λ w. IsNumberWords class_number greatest w.greatest) }
    ensures fits { FitsBits setting → FitsBits least → FitsBits greatest → IsSome result }
{
    all_three(
        number_words(class_number, setting),
        number_words(class_number, least),
        number_words(class_number, greatest),
    )
}

/// A value with its limits, where all three are there.
fn all_three(
    value: Option<ValueWords>,
    least: Option<ValueWords>,
    greatest: Option<ValueWords>,
) -> Option<ReadingWords>
    ensures words { IfSome result
        (λ w. (value ≡ Some w.value) × (least ≡ Some w.least) × (greatest ≡ Some w.greatest)) }
    ensures some { IsSome value → IsSome least → IsSome greatest → IsSome result }
{
    Some(ReadingWords {
        value: value?,
        least: least?,
        greatest: greatest?,
    })
}

/// The bytes that say which positions are enabled, where there are any and as many as positions.
fn enableds_of(flags: Option<&[bool]>, positions: usize) -> Option<[u8; MOST_POSITIONS]>
    requires { positions ≤ 16 }
    ensures bytes { IfSome result (λ bytes. IfSome (option_copied flags.entry) (λ them. (length them ≡ positions)
        × (map is_yes (take positions bytes) ≡ them))) }
    ensures fits { IfSome (option_copied flags.entry) (λ them. length them ≡ positions) → IsSome result }
{
    match flags {
        None => Some([0; MOST_POSITIONS]),
        Some(flags) if flags.len() == positions => Some(bytes_of(flags)),
        Some(_) => None,
    }
}

/// What an object is; nothing where it has no room in the struct.
fn spec_of(tree: &Tree, object: &ObjectInfo) -> Option<SpecWords>
    ensures writes { IfSome result (λ w. IsSpecOf tree.now object.now w) }
    ensures fits { FitsSpec tree.now object.now.ono.0 → IsSome result }
{
    let names = tree.position_names_of(object.ono);
    if names.len() > MOST_POSITIONS {
        return None;
    }
    let lockable = tree.is_lockable(object.ono)?;
    let start = tree.start_of(object.ono)?;
    if start.label.len() > 64 {
        return None;
    }
    let reading = setting_words(
        class_number(object.class),
        names.len(),
        tree.setting_of(object.ono),
    )?;
    let enableds = enableds_of(start.position_enableds, names.len())?;
    Some(SpecWords {
        size: SPEC_SIZE,
        lockable: u8::from(lockable),
        enabled: u8::from(start.enabled),
        positions: names.len() as u16,
        reading,
        role: Name::of(object.role.as_str()),
        label: Name::of(start.label),
        names: names_with(names),
        enableds,
        zeros: [0; 6],
    })
}

/// Writes to `out` the description of the object with this index, by which it can be added again.
pub fn read_spec(tree: &Tree, index: usize, out: &mut SpecWords) -> Answer
    ensures writes { WritesSpec tree.now (info_at tree.now index) out.old out.new (answer_number result) }
    ensures unwritten { (result ≡ Done) ⊎ (out.new ≡ out.old) }
{
    write_spec(tree, tree.object_at(index), out)
}

/// Writes to `out` the description of the object with the number `ono`, by which it can be added again.
pub fn read_spec_of(tree: &Tree, ono: Ono, out: &mut SpecWords) -> Answer
    ensures writes { WritesSpec tree.now (info_of_ono tree.now ono.0) out.old out.new (answer_number result) }
    ensures unwritten { (result ≡ Done) ⊎ (out.new ≡ out.old) }
{
    write_spec(tree, tree.object_of(ono), out)
}

/// Tells what this object is; nothing is written to a struct of another size, or where there is no object or it has no
/// room.
fn write_spec(tree: &Tree, found: Option<ObjectInfo>, out: &mut SpecWords) -> Answer
    ensures writes { WritesSpec tree.now found out.old out.new (answer_number result) }
    ensures unwritten { (result ≡ Done) ⊎ (out.new ≡ out.old) }
{
    if out.size != SPEC_SIZE {
        return Answer::BadSize;
    }
    let Some(object) = found else {
        return Answer::Nothing;
    };
    match spec_of(tree, &object) {
        Some(words) => {
            *out = words;
            Answer::Done
        }
        None => Answer::TooSmall,
    }
}
