//! What an object is set to, in the terms of its class.
ghost use Rattle.std.specs.Prelude.{◌≡◌, ◌≤◌, length, OnErr};
ghost use Rattle.std.specs.Int.{w8};
ghost use Rattle.oca_types.specs.Putting.{Puts};
ghost use Rattle.oca_types.specs.Reading.{unsigned_at};
ghost use Rattle.oca_model.specs.Values.{class_of_value, value_encoding, value_in, mute_of, polarity_of};
ghost use Rattle.oca_model.specs.Values.{then_find, or_fault};
ghost use Rattle.oca_model.specs.declared.value.ValueFault.TheVariants.{Unlisted};

use crate::parameters::whole_field;
use arrayvec::ArrayVec;
use oca_types::{Class, Field, Params, PutFault};

/// Calls the macro `$each` with the name and the type of each class of integers. `Class`, `Value` and `Reading` have
/// variants of these names. A new class of integers is added here.
#[doc(hidden)]
#[macro_export]
macro_rules! with_integers {
    ($each:ident) => {
        $each!(Int8 i8, Int16 i16, Int32 i32, Int64 i64, Uint8 u8, Uint16 u16, Uint32 u32, Uint64 u64)
    };
}

pub(crate) use with_integers;

/// The state of an OcaMute, with its number in AES70-2.
#[derive(Clone, Copy, Debug, PartialEq, Eq)]
pub enum MuteState {
    /// Muted, 1.
    Muted = 1,
    /// Not muted, 2.
    Unmuted = 2,
}

/// The state of an OcaPolarity, with its number in AES70-2.
#[derive(Clone, Copy, Debug, PartialEq, Eq)]
pub enum PolarityState {
    /// Not inverted, 1.
    NonInverted = 1,
    /// Inverted, 2.
    Inverted = 2,
}

/// The value of an object, which a set method sets: one variant for each class that has a set method (AES70-2).
/// OcaBlock has no value. An integer is a number without a unit; what it stands for, the device's maker chooses.
#[derive(Clone, Copy, Debug, PartialEq, Eq)]
pub enum Value {
    /// The state of an OcaMute.
    Mute(MuteState),
    /// The state of an OcaPolarity.
    Polarity(PolarityState),
    /// The position of an OcaSwitch, counted from 0.
    Switch(u16),
    /// The setting of an OcaBooleanActuator.
    Boolean(bool),
    /// The setting of an OcaInt8Actuator.
    Int8(i8),
    /// The setting of an OcaInt16Actuator.
    Int16(i16),
    /// The setting of an OcaInt32Actuator.
    Int32(i32),
    /// The setting of an OcaInt64Actuator.
    Int64(i64),
    /// The setting of an OcaUint8Actuator.
    Uint8(u8),
    /// The setting of an OcaUint16Actuator.
    Uint16(u16),
    /// The setting of an OcaUint32Actuator.
    Uint32(u32),
    /// The setting of an OcaUint64Actuator.
    Uint64(u64),
}

/// Why bytes are not a value of a class, or not the parameters of a method.
#[derive(Clone, Copy, Debug, PartialEq, Eq)]
pub enum ValueFault {
    /// The bytes are not exactly the parameters, or their number is wrong, or the class is OcaBlock, which has no
    /// value.
    Malformed,
    /// The bytes are the number of a state, but the class has no state with this number.
    Unlisted,
}

/// The mute's state with this number.
pub(crate) fn mute_of(number: u8) -> Option<MuteState>
    ensures { result ≡ mute_of number }
{
    match number {
        1 => Some(MuteState::Muted),
        2 => Some(MuteState::Unmuted),
        _ => None,
    }
}

/// The polarity's state with this number.
pub(crate) fn polarity_of(number: u8) -> Option<PolarityState>
    ensures { result ≡ polarity_of number }
{
    match number {
        1 => Some(PolarityState::NonInverted),
        2 => Some(PolarityState::Inverted),
        _ => None,
    }
}

/// The value of one field, which is all of the bytes.
fn all<F: Field>(params: &[u8]) -> Result<F, ValueFault>
    ensures { result ≡ Rattle.oca_model.specs.Values.all F.codec.read_at params.now }
{
    whole_field(params).ok_or(ValueFault::Malformed)
}

/// The listed state of a mute whose number is all of the bytes.
fn mute_in(params: &[u8]) -> Result<MuteState, ValueFault>
    ensures { result ≡ then_find (λ n. or_fault Unlisted (mute_of n))
        (Rattle.oca_model.specs.Values.all (unsigned_at w8) params.now) }
{
    mute_of(all(params)?).ok_or(ValueFault::Unlisted)
}

/// The listed state of a polarity whose number is all of the bytes.
fn polarity_in(params: &[u8]) -> Result<PolarityState, ValueFault>
    ensures { result ≡ then_find (λ n. or_fault Unlisted (polarity_of n))
        (Rattle.oca_model.specs.Values.all (unsigned_at w8) params.now) }
{
    polarity_of(all(params)?).ok_or(ValueFault::Unlisted)
}

/// These bytes, of which there are at most 8.
fn bytes(bytes: &[u8]) -> ArrayVec<u8, 8>
    requires { length bytes.now ≤ 8 }
    ensures { result.items ≡ bytes.now }
{
    let mut items = ArrayVec::new();
    let _ = items.try_extend_from_slice(bytes);
    items
}

impl Value {
    /// Returns the class of the objects that can be set to this value (AES70-2). It is never OcaBlock.
    pub fn class(self) -> Class
        ensures { result ≡ class_of_value self }
    {
        macro_rules! class {
            ($($integer:ident $type:ty),*) => {
                match self {
                    Value::Mute(_) => Class::Mute,
                    Value::Polarity(_) => Class::Polarity,
                    Value::Switch(_) => Class::Switch,
                    Value::Boolean(_) => Class::Boolean,
                    $(Value::$integer(_) => Class::$integer,)*
                }
            };
        }
        with_integers!(class)
    }

    /// The encoding of the value (AES70-3).
    #[tactic(auto, unfolding(crate::specs::Values::value_encoding))]
    pub(crate) fn encoding(self) -> ArrayVec<u8, 8>
        ensures { result.items ≡ value_encoding self }
    {
        macro_rules! bytes_of {
            ($($integer:ident $type:ty),*) => {
                match self {
                    Value::Mute(state) => bytes(&[state as u8]),
                    Value::Polarity(state) => bytes(&[state as u8]),
                    Value::Switch(position) => bytes(&position.to_be_bytes()),
                    Value::Boolean(truth) => bytes(&[u8::from(truth)]),
                    $(Value::$integer(setting) => bytes(&setting.to_be_bytes()),)*
                }
            };
        }
        with_integers!(bytes_of)
    }

    /// Appends the encoding of the value to the parameters (AES70-3): from 1 to 8 bytes. A mute or a polarity has the
    /// number of its state as one byte, 1 or 2. The only refusal is `Full`, if the parameters would have more than
    /// 1,452 bytes in all; the parameters are then unchanged.
    pub fn put(self, params: &mut Params) -> Result<(), PutFault>
        ensures puts { Puts result params.old.items params.new.items (value_encoding self) }
        ensures err { OnErr result (params.new ≡ params.old) }
    {
        params
            .try_extend_from_slice(self.encoding().as_slice())
            .map_err(|_| PutFault::Full)
    }

    /// Reads the value of an object of this class from `params`, the one parameter of a set method (AES70-2). It does
    /// not check the limits of an object. Refusals, the first that applies: `Malformed` if the class is OcaBlock, or
    /// `params` is not exactly one value of the class. `Unlisted` if the number of a mute's or a polarity's state is
    /// not 1 or 2.
    #[tactic(auto, unfolding(crate::specs::Values::value_in))]
    pub fn read(class: Class, params: &[u8]) -> Result<Value, ValueFault>
        ensures { result ≡ value_in class params.now }
    {
        macro_rules! read {
            ($($integer:ident $type:ty),*) => {
                match class {
                    Class::Block => Err(ValueFault::Malformed),
                    Class::Mute => mute_in(params).map(Value::Mute),
                    Class::Polarity => polarity_in(params).map(Value::Polarity),
                    Class::Switch => all(params).map(Value::Switch),
                    Class::Boolean => all(params).map(Value::Boolean),
                    $(Class::$integer => all(params).map(Value::$integer),)*
                }
            };
        }
        with_integers!(read)
    }
}
