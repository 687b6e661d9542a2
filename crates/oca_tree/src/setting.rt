//! Setting an object at the local front panel: as the set method of its class, and refused by no lock.
ghost use Rattle.std.specs.Prelude.{◌≡◌};
ghost use Rattle.std.specs.Result.{result_err};
ghost use Rattle.oca_tree.specs.Trees.{IsSoundValue};
ghost use Rattle.oca_tree.specs.Settings.{fault_at, is_of_its_class};

use crate::object::Value as Held;
use crate::request::cannot_be;
use oca_model::Value;
use oca_types::Peer;
use thiserror::Error;

/// Why an object was not set at the device's local front panel: the first fault in this order that applies. No object
/// is then changed. The numbers are promised.
#[derive(Clone, Copy, Debug, PartialEq, Eq, Error)]
pub enum SetFault {
    /// No object has the number.
    #[error("there is no such object")]
    NoObject = 1,
    /// The object is a block, which has no setting.
    #[error("a block has no setting")]
    NoSetting = 2,
    /// The value is not of the object's class.
    #[error("the object is set by another kind of value")]
    OtherKind = 3,
    /// The switch does not have the position, or the position is disabled. Or the number is outside its limits.
    #[error("the value is out of range")]
    OutOfRange = 4,
}

const _: () = prove!(SetFault::NoObject as u8 == 1);

const _: () = prove!(SetFault::NoSetting as u8 == 2);

const _: () = prove!(SetFault::OtherKind as u8 == 3);

const _: () = prove!(SetFault::OutOfRange as u8 == 4);

/// The peer in whose name the local front panel asks: what is set is the same for each peer.
pub(crate) const FRONT: Peer = Peer { ip: 0, port: 0 };

/// Whether the value is one of the class of what is held.
fn is_of_its_class(held: &Held, value: Value) -> bool
    ensures { result ≡ is_of_its_class held.now value }
{
    match held {
        Held::Block => false,
        Held::Switch(_) => matches!(value, Value::Switch(_)),
        Held::Reads(reading) => reading.with_value(value).is_some(),
    }
}

/// That an object that holds this can be set to the value, or why not.
pub(crate) fn check_setting(held: &Held, value: Value) -> Result<(), SetFault>
    requires { IsSoundValue held.now }
    ensures { result_err result ≡ fault_at held.now value }
{
    if held.is_block() {
        return Err(SetFault::NoSetting);
    }
    if !is_of_its_class(held, value) {
        return Err(SetFault::OtherKind);
    }
    if cannot_be(held, value) {
        return Err(SetFault::OutOfRange);
    }
    Ok(())
}
