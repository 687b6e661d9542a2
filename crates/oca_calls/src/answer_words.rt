//! What answers give, as C has it.
ghost use Rattle.std.specs.Prelude.{◌≡◌, ◌≤◌, [], length, map, replicate, take};
ghost use Rattle.oca_model.specs.Members.{class_with};
ghost use Rattle.oca_calls.specs.AnswerCalls.{number_of_class};
ghost use Rattle.oca_calls.specs.Calls.{name_bytes, name_sizes};
ghost use Rattle.oca_calls.specs.Outputs.{put_words};

use crate::name::{Name, names_with};
use crate::words::{class_number, put_words};
use oca_model::{MOST_FIELDS, MOST_MEMBERS, class_with};
use oca_types::Text;

/// The names of a switch's positions, as `struct oca_names` of C: how many there are, at most 16, and the names at the
/// front of the array.
#[repr(C)]
#[derive(Clone, Copy)]
pub struct Names {
    pub count: u32,
    pub names: [Name; 16],
}

/// The numbers of a block's members, as `struct oca_members` of C: how many there are, at most 181, and the numbers at
/// the front of the array.
#[repr(C)]
#[derive(Clone, Copy)]
pub struct Members {
    pub count: u32,
    pub onos: [u32; 181],
}

/// The identifier of a class (OcaClassID, AES70-2), as `struct oca_class_id` of C: how many fields it has, at most 16,
/// the fields at the front of the array, and the number of the class, 0 for a class that is not of this profile.
#[repr(C)]
#[derive(Clone, Copy)]
pub struct ClassId {
    pub count: u16,
    pub fields: [u16; 16],
    pub class_number: u32,
}

impl Names {
    /// Returns these names as a struct for C, in their order. There must be at most 16 (a premise). The other places
    /// are empty names.
    pub fn of(texts: &[Text]) -> Names
        requires { length texts.now ≤ 16 }
        ensures count { result.count ≡ length texts.now }
        ensures names { map name_bytes (take (length texts.now) result.names) ≡ texts.now }
        ensures sizes { name_sizes (take (length texts.now) result.names) ≡ map length texts.now }
        ensures others { map name_bytes result.names ≡ put_words texts.now (replicate 16 []) }
    {
        Names {
            count: texts.len() as u32,
            names: names_with(texts),
        }
    }
}

impl Members {
    /// Returns the numbers of these members as a struct for C, in their order. There must be at most 181 (a premise).
    /// The other places are 0.
    pub fn of(onos: &[u32]) -> Members
        requires { length onos.now ≤ 181 }
        ensures count { result.count ≡ length onos.now }
        ensures onos { take (length onos.now) result.onos ≡ onos.now }
        ensures others { result.onos ≡ put_words onos.now (replicate 181 0) }
    {
        let mut place = [0; MOST_MEMBERS];
        put_words(onos, &mut place);
        Members {
            count: onos.len() as u32,
            onos: place,
        }
    }
}

impl ClassId {
    /// Returns the class identifier with these fields as a struct for C, with the number of the class
    /// ([`number_with`]). There must be at most 16 fields (a premise). The other places are 0.
    pub fn of(fields: &[u16]) -> ClassId
        requires { length fields.now ≤ 16 }
        ensures count { result.count ≡ length fields.now }
        ensures fields { take (length fields.now) result.fields ≡ fields.now }
        ensures others { result.fields ≡ put_words fields.now (replicate 16 0) }
        ensures class { result.class_number ≡ number_of_class (class_with fields.now) }
    {
        let mut place = [0; MOST_FIELDS];
        put_words(fields, &mut place);
        ClassId {
            count: fields.len() as u16,
            fields: place,
            class_number: number_with(fields),
        }
    }
}

/// Returns the number in C of the class whose identifier (OcaClassID, AES70-2) has these fields: 1 for OcaBlock to 13
/// for OcaUint64Actuator ([`class_number`](crate::words::class_number) lists them). 0 if no class of this profile has
/// these fields.
pub fn number_with(fields: &[u16]) -> u32
    ensures { result ≡ number_of_class (class_with fields.now) }
{
    match class_with(fields) {
        Some(class) => class_number(class),
        None => 0,
    }
}
