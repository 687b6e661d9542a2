//! What was stored of an object, for a device that begins as it ended.
ghost use Rattle.std.specs.Prelude.{◌≡◌, ◌≤◌, length, Some};
ghost use Rattle.oca_tree.specs.Trees.{IsSoundValue};
ghost use Rattle.oca_tree.specs.PrivateSteps.{Restores, RestoresFlags};

use crate::builder::{AddFault, text_of};
use crate::object::{Object, Value};
use crate::request::positions;
use arrayvec::ArrayVec;
use thiserror::Error;

/// What was stored of an object besides its [`Spec`](crate::Spec): its label, and what is enabled. Peers can change
/// these by commands. The setting and the names of positions are part of `Spec`. Locks are not stored, since they end
/// with the sessions of their holders. The default is an empty label, enabled, and all positions enabled.
#[derive(Clone, Copy, Debug)]
pub struct Start<'a> {
    /// The label (OcaWorker, AES70-2): at most 64 bytes, possibly none.
    pub label: &'a str,
    /// Whether the object is enabled (OcaWorker, AES70-2).
    pub enabled: bool,
    /// For a switch, whether each of its positions is enabled, in order. There must be as many flags as positions.
    /// `None` if all are enabled. The current position can be disabled, since a peer can disable it.
    pub position_enableds: Option<&'a [bool]>,
}

impl Default for Start<'_> {
    ghost use Rattle.oca_tree.specs.Starts.{IsPlain};

    ghost is_default = { λ start. IsPlain start };

    /// Returns an empty label, enabled, and no flags.
    fn default() -> Self {
        Start {
            label: "",
            enabled: true,
            position_enableds: None,
        }
    }
}

/// Why an object was not added with its stored label and flags: the first fault in this order that applies. The builder
/// is then unchanged.
#[derive(Clone, Copy, Debug, PartialEq, Eq, Error)]
pub enum StartFault {
    /// The object would be refused without its stored label and flags too.
    #[error("{0}")]
    Add(AddFault),
    /// The stored label has more than 64 bytes.
    #[error("the label has more than 64 bytes")]
    BadLabel,
    /// The number of stored flags is not the number of positions. An object that is no switch has no positions.
    #[error("the flags are not as many as the positions")]
    BadFlags,
}

impl From<AddFault> for StartFault {
    ghost use Rattle.std.specs.Prelude.{◌≡◌};
    ghost use Rattle.oca_tree.specs.declared.start.StartFault.TheVariants.{Add};

    ghost from_gives = { λ fault r. r ≡ Add fault };

    /// Returns `Add` with this fault.
    fn from(fault: AddFault) -> StartFault {
        StartFault::Add(fault)
    }
}

/// These flags, of which there are at most 16.
fn bools(flags: &[bool]) -> ArrayVec<bool, 16>
    requires { length flags.now ≤ 16 }
    ensures { result.items ≡ flags.now }
{
    let mut bools = ArrayVec::new();
    let _ = bools.try_extend_from_slice(flags);
    bools
}

/// Puts the flags of its positions into a value, where they are as many as it has.
#[tactic(auto, unfolding(crate::specs::Trees::IsSoundValue))]
fn restore_flags(value: &mut Value, flags: &[bool]) -> Result<(), StartFault>
    requires { IsSoundValue value.old }
    ensures { RestoresFlags result value.old value.new flags.now }
{
    if flags.len() != positions(value) {
        return Err(StartFault::BadFlags);
    }
    match value {
        Value::Switch(switch) => switch.enableds = bools(flags),
        _ => {}
    }
    Ok(())
}

/// Puts what was stored into an object.
#[tactic(auto, unfolding(crate::specs::Starts::start_fault))]
pub(crate) fn restore(object: &mut Object, start: &Start<'_>) -> Result<(), StartFault>
    requires { IsSoundValue object.old.value }
    ensures { Restores result object.old object.new start.now }
{
    let Some(label) = text_of(start.label) else {
        return Err(StartFault::BadLabel);
    };
    if let Some(flags) = start.position_enableds {
        restore_flags(&mut object.value, flags)?;
    }
    object.label = label;
    object.enabled = start.enabled;
    Ok(())
}
