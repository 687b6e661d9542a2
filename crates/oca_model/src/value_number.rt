//! The value of a class that has a number.
ghost use Rattle.oca_model.specs.ValueNumbers.{integer_in, state_in, IsValueWith};

use crate::value::{Value, mute_of, polarity_of, with_integers};
use oca_types::Class;

impl Value {
    /// Returns the state of a mute or a polarity with this number (AES70-2): 1 is `Muted` and 2 is `Unmuted`, or 1 is
    /// `NonInverted` and 2 is `Inverted`. The result is `None` if the class is not OcaMute or OcaPolarity, or the
    /// number is not 1 or 2.
    pub fn of_state(class: Class, number: u8) -> Option<Value>
        ensures { IsValueWith state_in class number result }
    {
        match class {
            Class::Mute => mute_of(number).map(Value::Mute),
            Class::Polarity => polarity_of(number).map(Value::Polarity),
            _ => None,
        }
    }

    /// Returns the value of an integer actuator of this class with this number (AES70-2). The result is `None` if the
    /// class is not one of the eight integer actuators. It is `None` also if the number does not fit the integer type
    /// of the class, such as -128 to 127 for OcaInt8Actuator. The limits of a single object are not checked.
    pub fn of_integer(class: Class, number: i128) -> Option<Value>
        ensures { IsValueWith integer_in class number result }
    {
        macro_rules! value {
            ($($integer:ident $type:ty),*) => {
                match class {
                    $(Class::$integer => <$type>::try_from(number).ok().map(Value::$integer),)*
                    _ => None,
                }
            };
        }
        with_integers!(value)
    }
}
