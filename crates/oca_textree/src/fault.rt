//! Why a line or a text lists no object.
ghost use Rattle.std.specs.Prelude.{◌≡◌};
ghost use Rattle.oca_textree.specs.Faults.{object_fault_of, stored_fault_of};

use oca_script::ObjectFault;
use oca_tree::{AddFault, StartFault};
use thiserror::Error;

/// Returns the fault of a line whose object the tree refuses. `NoSuchBlock` becomes `Container`, `TooDeep` becomes
/// `Depth`, `BadText` becomes `Text`, and `BadRange` becomes `Range`. The other faults keep their names. The call
/// refuses nothing.
pub fn fault_of(fault: AddFault) -> ObjectFault
    ensures { result ≡ object_fault_of fault }
{
    match fault {
        AddFault::Full => ObjectFault::Full,
        AddFault::Reserved => ObjectFault::Reserved,
        AddFault::Taken => ObjectFault::Taken,
        AddFault::NoSuchBlock => ObjectFault::Container,
        AddFault::TooDeep => ObjectFault::Depth,
        AddFault::BadText => ObjectFault::Text,
        AddFault::BadRange => ObjectFault::Range,
        AddFault::NoMemory => ObjectFault::NoMemory,
    }
}

/// Returns the fault of a line whose object the tree refuses together with its stored label and flags. `BadLabel`
/// becomes `Text`, `BadFlags` becomes `Value`, and a fault in `Add` becomes what [`fault_of`] returns for it. The call
/// refuses nothing.
pub fn fault_of_stored(fault: StartFault) -> ObjectFault
    ensures { result ≡ stored_fault_of fault }
{
    match fault {
        StartFault::Add(fault) => fault_of(fault),
        StartFault::BadLabel => ObjectFault::Text,
        StartFault::BadFlags => ObjectFault::Value,
    }
}

/// Why a text is not a tree of objects. No tree is returned.
#[derive(Clone, Copy, PartialEq, Eq, Debug, Error)]
pub enum TreeFault {
    /// The first line with a fault: its number, counted from 1 with the skipped lines, and the fault.
    #[error("line {0}: {1}")]
    Line(u64, ObjectFault),
    /// The allocator refused the memory for 4,096 objects.
    #[error("no memory")]
    NoMemory,
}
