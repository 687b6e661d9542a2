//! What is read of an object so that the same object can be added again.
ghost use Rattle.std.specs.Prelude.{◌≡◌};
ghost use Rattle.std.specs.Option.{option_copied};
ghost use Rattle.oca_tree.specs.Copies.{stored_in, stored_of, flags_in, names_in};

use crate::object::{Object, Value};
use crate::start::Start;
use oca_types::Text;

/// The flags of its positions, of a switch.
#[tactic(auto, unfolding(crate::specs::Copies::flags_in))]
fn flags_in(value: &Value) -> Option<&[bool]>
    ensures { option_copied result ≡ flags_in value.now }
{
    match value {
        Value::Switch(switch) => Some(switch.enableds.as_slice()),
        _ => None,
    }
}

/// The names of its positions, of a switch.
#[tactic(auto, unfolding(crate::specs::Copies::names_in))]
pub(crate) fn names_in(value: &Value) -> &[Text]
    ensures { result.now ≡ names_in value.now }
{
    match value {
        Value::Switch(switch) => switch.names.as_slice(),
        _ => &[],
    }
}

/// What of an object a `Start` restores.
pub(crate) fn start_of(object: &Object) -> Start<'_>
    ensures { stored_in result ≡ stored_of object.now }
{
    Start {
        label: object.label.as_str(),
        enabled: object.enabled,
        position_enableds: flags_in(&object.value),
    }
}
