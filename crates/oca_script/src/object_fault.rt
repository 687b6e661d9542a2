//! Why a line lists no object.
ghost use Rattle.std.specs.Prelude.{◌≡◌};
ghost use Rattle.oca_script.specs.ObjectFaults.{object_fault_word};

use std::fmt::{self, Display, Formatter};

/// What is wrong with a line that lists an object. It is the first fault of the line from the left. If all fields can
/// be read, it is the reason for which the object is not added.
#[derive(Clone, Copy, PartialEq, Eq, Debug)]
pub enum ObjectFault {
    /// A field is missing, there are too many fields, a quote is left open, or there is a control character.
    Form,
    /// A number does not have its form, or does not fit its type: the object's, its container's or an integer.
    Number,
    /// The word is not the name of a class.
    Class,
    /// The word is not a value of the class, or not a position of the switch. Or there is not exactly one flag for each
    /// position.
    Value,
    /// The word is neither `lockable` nor `no-lock`.
    Lockable,
    /// The role is empty. Or the role, the label or a position's name has more than 64 bytes, is not UTF-8, or has a
    /// character that is printed as an escape (a backslash is allowed).
    Text,
    /// There are already 4,096 objects, the root counted.
    Full,
    /// The object's number is below 4096.
    Reserved,
    /// Another object has the number.
    Taken,
    /// The container is not a block of an earlier line.
    Container,
    /// The object would be at depth 9; the root is at depth 1.
    Depth,
    /// The setting is not between the least and the greatest, or there are more than 16 positions.
    Range,
    /// The allocator refused memory.
    NoMemory,
}

impl ObjectFault {
    /// Returns the word that is printed for the fault, as PROTOCOL.md lists it: `form`, `number`, `class`, `value`,
    /// `lockable`, `text`, `full`, `reserved`, `taken`, `container`, `depth`, `range` or `no memory`. The call refuses
    /// nothing.
    pub fn word(self) -> &'static str
        ensures { result.now ≡ object_fault_word self }
    {
        match self {
            ObjectFault::Form => "form",
            ObjectFault::Number => "number",
            ObjectFault::Class => "class",
            ObjectFault::Value => "value",
            ObjectFault::Lockable => "lockable",
            ObjectFault::Text => "text",
            ObjectFault::Full => "full",
            ObjectFault::Reserved => "reserved",
            ObjectFault::Taken => "taken",
            ObjectFault::Container => "container",
            ObjectFault::Depth => "depth",
            ObjectFault::Range => "range",
            ObjectFault::NoMemory => "no memory",
        }
    }
}

impl Display for ObjectFault {
    /// Writes its word.
    fn fmt<W: fmt::Write>(&self, f: &mut Formatter<W>) -> fmt::Result {
        f.write_str(self.word())
    }
}

impl std::error::Error for ObjectFault {}
