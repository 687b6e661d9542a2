//! A value in words of fixed size, as C has it.
ghost use Rattle.std.specs.Prelude.{◌≡◌, ◌≤ℤ◌, ◌<ℤ◌, ◌++◌, ◌^◌, if◌then◌else◌, drop, length, neg_ℤ, pos, replicate};
ghost use Rattle.std.specs.Int.{w64, cast_signed, cast_unsigned};
ghost use Rattle.oca_calls.specs.CValues.{AreWordsOf, HasClass, HasRequestWords};

use crate::words::{class_number, put_front};
use oca_model::{MuteState, PolarityState, Reading, Value, ValueRequest, with_integers};
use oca_types::Class;

/// A value for C (`struct oca_value`): the number of its class, 2 for a mute to 13 for a Uint64, and its number in 64
/// bits. That is a state (1 or 2), a position, a Boolean (0 or 1) or an integer, a signed one in two's complement.
/// `zero` is not looked at.
#[repr(C)]
#[derive(Clone, Copy)]
pub struct ValueWords {
    pub class_number: u32,
    pub zero: u32,
    pub bits: u64,
}

/// A value for C with the least and the greatest to which the object can be set (`struct oca_reading`). For a class
/// without limits both are the value.
#[repr(C)]
#[derive(Clone, Copy)]
pub struct ReadingWords {
    pub value: ValueWords,
    pub least: ValueWords,
    pub greatest: ValueWords,
}

/// The number that these bits are, with a sign or without.
fn number_of(bits: u64, is_signed: bool) -> i128
    ensures { result ≡ (if is_signed then cast_signed w64 bits else pos bits) }
{
    if is_signed {
        i128::from(bits.cast_signed())
    } else {
        i128::from(bits)
    }
}

/// A number in 64 bits, one below 0 in two's complement.
fn bits_of(number: i128) -> u64
    requires low { neg_ℤ (pos (2 ^ 63)) ≤ℤ number }
    requires high { number <ℤ pos (2 ^ 64) }
    ensures { result ≡ cast_unsigned w64 number }
{
    if number < 0 {
        (number as i64).cast_unsigned()
    } else {
        number as u64
    }
}

impl ValueWords {
    /// Returns this value as a struct for C: the number of its class, 0, and its number in 64 bits.
    pub fn of(value: Value) -> ValueWords
        ensures { result ≡ Rattle.oca_calls.specs.CValues.words_of value }
    {
        macro_rules! bits {
            ($($integer:ident $type:ty),*) => {
                match value {
                    Value::Mute(state) => state as u64,
                    Value::Polarity(state) => state as u64,
                    Value::Switch(position) => u64::from(position),
                    Value::Boolean(truth) => u64::from(truth),
                    $(Value::$integer(setting) => bits_of(i128::from(setting)),)*
                }
            };
        }
        ValueWords {
            class_number: class_number(value.class()),
            zero: 0,
            bits: with_integers!(bits),
        }
    }

    /// Returns the value that these words hold. `None` if `class_number` is not 2 to 13, or the bits are no number of
    /// such a value. They must be 1 or 2 for a state, 0 or 1 for a Boolean, and within the class's type for a position
    /// or an integer.
    pub fn value(self) -> Option<Value>
        ensures { AreWordsOf self result }
    {
        macro_rules! value {
            ($($integer:ident $type:ty),*) => {
                match class_with(self.class_number)? {
                    Class::Block => None,
                    Class::Mute => match self.bits {
                        1 => Some(Value::Mute(MuteState::Muted)),
                        2 => Some(Value::Mute(MuteState::Unmuted)),
                        _ => None,
                    },
                    Class::Polarity => match self.bits {
                        1 => Some(Value::Polarity(PolarityState::NonInverted)),
                        2 => Some(Value::Polarity(PolarityState::Inverted)),
                        _ => None,
                    },
                    Class::Switch => u16::try_from(self.bits).ok().map(Value::Switch),
                    Class::Boolean => match self.bits {
                        0 => Some(Value::Boolean(false)),
                        1 => Some(Value::Boolean(true)),
                        _ => None,
                    },
                    $(Class::$integer => {
                        let number = number_of(self.bits, <$type>::MIN != 0);
                        <$type>::try_from(number).ok().map(Value::$integer)
                    })*
                }
            };
        }
        with_integers!(value)
    }
}

/// Three values of a class with limits.
fn within(value: Value, least: Value, greatest: Value) -> ReadingWords
    ensures { result ≡ Rattle.oca_calls.specs.CValues.three value least greatest }
{
    ReadingWords {
        value: ValueWords::of(value),
        least: ValueWords::of(least),
        greatest: ValueWords::of(greatest),
    }
}

impl ReadingWords {
    /// Returns this reading as a struct for C: the value, its least and its greatest. For a class without limits both
    /// limits are the value.
    pub fn of(reading: Reading) -> ReadingWords
        ensures { result ≡ Rattle.oca_calls.specs.CValues.reading_words reading }
    {
        let value = reading.value();
        macro_rules! words {
            ($($integer:ident $type:ty),*) => {
                match reading {
                    Reading::Switch(r) => within(value, Value::Switch(r.least), Value::Switch(r.greatest)),
                    $(Reading::$integer(r) => within(value, Value::$integer(r.least), Value::$integer(r.greatest)),)*
                    _ => within(value, value, value),
                }
            };
        }
        with_integers!(words)
    }
}

/// A request that sets or reads a value, for C (`struct oca_request`): the method by its level and index (AES70-2),
/// ParamCount, and how many bytes of parameters there are, 0 to 8, at the front of `params`.
#[repr(C)]
#[derive(Clone, Copy)]
pub struct RequestWords {
    pub level: u16,
    pub index: u16,
    pub count: u8,
    pub size: u8,
    pub params: [u8; 8],
}

impl RequestWords {
    /// Returns this request as a struct for C: its method, ParamCount, and its parameters, at most 8 bytes. The other
    /// bytes of `params` are 0.
    pub fn of(request: &ValueRequest) -> RequestWords
        ensures words { HasRequestWords request.now result }
        ensures others { result.params ≡ request.now.params.items ++
            drop (length request.now.params.items) (replicate 8 0) }
    {
        let bytes = request.params.as_slice();
        let mut params = [0; 8];
        let size = put_front(bytes, &mut params);
        RequestWords {
            level: request.method.level,
            index: request.method.index,
            count: request.count,
            size: size as u8,
            params,
        }
    }
}

/// Returns the class with this number: 1 for OcaBlock to 13 for OcaUint64Actuator. `None` for any other number.
pub fn class_with(number: u32) -> Option<Class>
    ensures { HasClass number result }
{
    macro_rules! class {
        ($($integer:ident $type:ty),*) => {
            match number {
                1 => Some(Class::Block),
                2 => Some(Class::Mute),
                3 => Some(Class::Polarity),
                4 => Some(Class::Switch),
                5 => Some(Class::Boolean),
                $(_ if number == class_number(Class::$integer) => Some(Class::$integer),)*
                _ => None,
            }
        };
    }
    with_integers!(class)
}
