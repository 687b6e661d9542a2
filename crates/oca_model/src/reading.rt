//! What reading an object gives: its value, with the limits of a position and of a number.
ghost use Rattle.std.specs.Prelude.{◌≡◌};
ghost use Rattle.oca_types.specs.Putting.{Puts};
ghost use Rattle.oca_model.specs.Readings.{ranged_in, ranged_encoding, value_without_limits, reading_count};
ghost use Rattle.oca_model.specs.Readings.{reading_encoding, reading_in, value_read};

use crate::parameters::whole_field;
use crate::value::{MuteState, PolarityState, Value, mute_of, polarity_of, with_integers};
use oca_types::{Class, Cursor, Field, Params, PutFault};

/// A setting with its limits, as a device answers them: the least and the greatest setting.
#[derive(Clone, Copy, Debug, PartialEq, Eq)]
pub struct Ranged<N> {
    /// The setting, which a device answers as the first parameter.
    pub setting: N,
    /// The least setting that the object can have.
    pub least: N,
    /// The greatest setting that the object can have.
    pub greatest: N,
}

/// The value of an object as a device answers it, with its limits (AES70-2): one variant for each class whose objects
/// have a value. OcaBlock has none. The value is also called the *setting*. The *limits* are the least and the greatest
/// setting that the object can have: a switch and an integer have limits. A mute, a polarity and a Boolean have none.
#[derive(Clone, Copy, Debug, PartialEq, Eq)]
pub enum Reading {
    /// The state of an OcaMute.
    Mute(MuteState),
    /// The state of an OcaPolarity.
    Polarity(PolarityState),
    /// The position of an OcaSwitch, counted from 0, with the first and the last position.
    Switch(Ranged<u16>),
    /// The setting of an OcaBooleanActuator.
    Boolean(bool),
    /// The setting of an OcaInt8Actuator.
    Int8(Ranged<i8>),
    /// The setting of an OcaInt16Actuator.
    Int16(Ranged<i16>),
    /// The setting of an OcaInt32Actuator.
    Int32(Ranged<i32>),
    /// The setting of an OcaInt64Actuator.
    Int64(Ranged<i64>),
    /// The setting of an OcaUint8Actuator.
    Uint8(Ranged<u8>),
    /// The setting of an OcaUint16Actuator.
    Uint16(Ranged<u16>),
    /// The setting of an OcaUint32Actuator.
    Uint32(Ranged<u32>),
    /// The setting of an OcaUint64Actuator.
    Uint64(Ranged<u64>),
}

/// A setting and its limits, which are all of the bytes.
fn read_ranged<F: Field>(params: &[u8]) -> Option<Ranged<F>>
    ensures { result ≡ ranged_in F.codec.read_at params.now }
{
    let mut cursor = Cursor::new(params);
    let setting = cursor.take::<F>().ok()?;
    let least = cursor.take::<F>().ok()?;
    let greatest = cursor.take::<F>().ok()?;
    cursor.finish().ok()?;
    Some(Ranged {
        setting,
        least,
        greatest,
    })
}

/// Appends a setting, its least and its greatest.
fn put_ranged<F: Field>(params: &mut Params, ranged: &Ranged<F>) -> Result<(), PutFault>
    ensures { Puts result params.old.items params.new.items (ranged_encoding F.codec.encoding ranged.now) }
{
    ranged.setting.put(params)?;
    ranged.least.put(params)?;
    ranged.greatest.put(params)
}

impl Reading {
    /// Returns the value of the reading without its limits (AES70-2). The value is of the class of the reading, and the
    /// call does not check the limits.
    pub fn value(self) -> Value
        ensures { result ≡ value_without_limits self }
    {
        macro_rules! value {
            ($($integer:ident $type:ty),*) => {
                match self {
                    Reading::Mute(state) => Value::Mute(state),
                    Reading::Polarity(state) => Value::Polarity(state),
                    Reading::Switch(ranged) => Value::Switch(ranged.setting),
                    Reading::Boolean(truth) => Value::Boolean(truth),
                    $(Reading::$integer(ranged) => Value::$integer(ranged.setting),)*
                }
            };
        }
        with_integers!(value)
    }

    /// Returns the number of parameters of the reading, which is ParamCount of the response (AES70-3). The result is 3
    /// for a switch and an integer: the setting, the least and the greatest. It is 1 for a mute, a polarity and a
    /// Boolean.
    pub fn count(self) -> u8
        ensures { result ≡ reading_count self }
    {
        match self {
            Reading::Mute(_) | Reading::Polarity(_) | Reading::Boolean(_) => 1,
            _ => 3,
        }
    }

    /// Appends the parameters of an answer to the get method of the class to `params` (AES70-2): the setting, and for a
    /// switch or an integer the least and the greatest after it. A mute or a polarity has the number of its state, 1 or
    /// 2. The only refusal is `Full`, if the parameters would have more than 1,452 bytes in all. Then a part of the
    /// reading may have been appended, so discard the parameters.
    #[tactic(auto, unfolding(crate::specs::Readings::reading_encoding))]
    pub fn put(self, params: &mut Params) -> Result<(), PutFault>
        ensures { Puts result params.old.items params.new.items (reading_encoding self) }
    {
        macro_rules! put {
            ($($integer:ident $type:ty),*) => {
                match self {
                    Reading::Mute(state) => (state as u8).put(params),
                    Reading::Polarity(state) => (state as u8).put(params),
                    Reading::Switch(ranged) => put_ranged(params, &ranged),
                    Reading::Boolean(truth) => truth.put(params),
                    $(Reading::$integer(ranged) => put_ranged(params, &ranged),)*
                }
            };
        }
        with_integers!(put)
    }

    /// Reads the answer to the get method of an object of this class from `params` (AES70-2): the setting, and for a
    /// switch or an integer the least and the greatest after it. The result is `None` if the class is OcaBlock, or
    /// `params` is not exactly such an answer, or the number of a state is not 1 or 2. The call does not check that the
    /// setting is within its limits ([`Reading::is_within`]).
    #[tactic(auto, unfolding(crate::specs::Readings::reading_in))]
    pub fn read(class: Class, params: &[u8]) -> Option<Reading>
        ensures { result ≡ reading_in class params.now }
    {
        macro_rules! read {
            ($($integer:ident $type:ty),*) => {
                match class {
                    Class::Block => None,
                    Class::Mute => whole_field(params).and_then(mute_of).map(Reading::Mute),
                    Class::Polarity => whole_field(params).and_then(polarity_of).map(Reading::Polarity),
                    Class::Switch => read_ranged(params).map(Reading::Switch),
                    Class::Boolean => whole_field(params).map(Reading::Boolean),
                    $(Class::$integer => read_ranged(params).map(Reading::$integer),)*
                }
            };
        }
        with_integers!(read)
    }
}

/// Reads the setting in the answer to [`get_request`](crate::get_request) of an object of this class (AES70-2), without
/// its limits. [`Reading::read`] returns the limits too. `params` are the parameters of the answer: the setting, and
/// for a switch or an integer the least and the greatest after it. The result is `None` if the class is OcaBlock, or
/// `params` is not exactly such an answer, or the number of a state is not 1 or 2.
pub fn read_value(class: Class, params: &[u8]) -> Option<Value>
    ensures { result ≡ value_read class params.now }
{
    let reading = Reading::read(class, params)?;
    Some(reading.value())
}
