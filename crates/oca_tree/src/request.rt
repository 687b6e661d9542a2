//! What is asked of an object: what answers it at once, and what refuses it.
ghost use Rattle.std.specs.Prelude.{◌≡◌, ◌≤◌, length};
ghost use Rattle.std.specs.Option.{option_map};
ghost use Rattle.oca_model.specs.HeldRequests.{asked_by};
ghost use Rattle.oca_model.specs.Settings.{is_beyond};
ghost use Rattle.oca_tree.specs.Requests.{asks_invalid, asks_out_of_range, cannot_be, fits_positions, lacks_position};
ghost use Rattle.oca_tree.specs.PrivateSteps.{plain_request, refusal_of};
ghost use Rattle.oca_tree.specs.Trees.{IsSound, IsSoundValue};

use crate::object::{Object, Switch, Value};
use oca_model::{Asked, Reading, Value as Setting};
use oca_types::{Method, Status};

/// What a method asks that only reads and has no parameters; nothing for any other.
#[tactic(auto, unfolding(oca_model::specs::HeldRequests::asked_by, oca_model::specs::Requests::request_in))]
pub(crate) fn plain<'a>(method: Method) -> Option<Asked<'a>>
    ensures { option_map asked_by result ≡ plain_request method }
{
    match method {
        Method::GetClassIdentification => Some(Asked::GetClassIdentification),
        Method::GetLockable => Some(Asked::GetLockable),
        Method::GetRole => Some(Asked::GetRole),
        Method::GetEnabled => Some(Asked::GetEnabled),
        Method::GetLabel => Some(Asked::GetLabel),
        Method::GetOwner => Some(Asked::GetOwner),
        Method::GetMembers => Some(Asked::GetMembers),
        Method::GetMembersRecursive => Some(Asked::GetMembersRecursive),
        Method::GetState | Method::GetPosition | Method::GetSetting => Some(Asked::Get),
        Method::GetPositionNames => Some(Asked::GetPositionNames),
        Method::GetPositionEnableds => Some(Asked::GetPositionEnableds),
        _ => None,
    }
}

/// Whether a list has as many items as there are positions.
#[tactic(auto, unfolding(oca_model::specs::HeldRequests::asked_by))]
fn fits_positions(value: &Value, request: &Asked<'_>) -> bool
    ensures { result ≡ fits_positions value.now (asked_by request.now) }
{
    match request {
        Asked::SetPositionNames(names) => names.len() == positions(value),
        Asked::SetPositionEnableds(flags) => flags.len() == positions(value),
        _ => true,
    }
}

/// How many positions there are.
pub(crate) fn positions(value: &Value) -> usize
    ensures positions { result ≡ Rattle.oca_tree.specs.Requests.positions value.now }
    ensures few { result ≤ 16 }
{
    match value {
        Value::Switch(switch) => switch.names.len(),
        _ => 0,
    }
}

/// Whether it is a position that the switch does not have.
fn lacks_position(value: &Value, position: u16) -> bool
    ensures { result ≡ lacks_position value.now position }
{
    match value {
        Value::Switch(switch) => usize::from(position) >= switch.names.len(),
        _ => false,
    }
}

/// Whether the position can be the current one.
fn can_be_current(switch: &Switch, position: u16) -> bool
    requires { length switch.now.enableds.items ≡ length switch.now.names.items }
    ensures { result ≡ Rattle.oca_tree.specs.Requests.can_be_current switch.now position }
{
    let at = usize::from(position);
    at < switch.names.len() && switch.enableds[at]
}

/// Whether the setting is one of the reading's class that its limits do not allow.
#[inline(never)]
fn is_beyond(reading: Reading, setting: Setting) -> bool
    ensures { result ≡ is_beyond reading setting }
{
    match reading.with_value(setting) {
        Some(new) => !new.is_within(),
        None => false,
    }
}

/// Whether an object that holds this value cannot be set to the other one.
#[tactic(auto, unfolding(crate::specs::Trees::IsSoundValue, oca_model::specs::Settings::with_value, oca_model::specs::Settings::is_within))]
pub(crate) fn cannot_be(value: &Value, setting: Setting) -> bool
    requires { IsSoundValue value.now }
    ensures { result ≡ cannot_be value.now setting }
{
    match value {
        Value::Switch(switch) => match setting {
            Setting::Switch(position) => !can_be_current(switch, position),
            _ => false,
        },
        Value::Reads(reading) => match (reading, setting) {
            (Reading::Mute(_), Setting::Mute(_)) => false,
            (Reading::Polarity(_), Setting::Polarity(_)) => false,
            _ => is_beyond(*reading, setting),
        },
        Value::Block => false,
    }
}

/// Whether it asks for a value that the object cannot take or a position that is not there.
#[tactic(auto, unfolding(oca_model::specs::HeldRequests::asked_by, crate::specs::Requests::asks_out_of_range))]
fn is_out_of_range(value: &Value, request: &Asked<'_>) -> bool
    requires { IsSoundValue value.now }
    ensures { result ≡ asks_out_of_range value.now (asked_by request.now) }
{
    match request {
        Asked::Set(setting) => cannot_be(value, *setting),
        Asked::GetPositionName(position)
        | Asked::SetPositionName(position, _)
        | Asked::GetPositionEnabled(position)
        | Asked::SetPositionEnabled(position, _) => lacks_position(value, *position),
        _ => false,
    }
}

/// Whether it asks for a lock that cannot be taken, or to take off one that is not there.
#[tactic(auto, unfolding(oca_model::specs::HeldRequests::asked_by, crate::specs::Requests::asks_invalid))]
fn is_invalid(object: &Object, request: &Asked<'_>) -> bool
    ensures { result ≡ asks_invalid object.now (asked_by request.now) }
{
    match request {
        Asked::LockTotal | Asked::LockReadonly => !object.lockable,
        Asked::Unlock => object.lock.is_none(),
        _ => false,
    }
}

/// The status that refuses it, whatever its answer is.
pub(crate) fn refusal(object: &Object, request: &Asked<'_>) -> Option<Status>
    requires { IsSound object.now }
    ensures { result ≡ refusal_of object.now (asked_by request.now) }
{
    if !fits_positions(&object.value, request) {
        return Some(Status::ParameterError);
    }
    if is_out_of_range(&object.value, request) {
        return Some(Status::ParameterOutOfRange);
    }
    if is_invalid(object, request) {
        return Some(Status::InvalidRequest);
    }
    None
}
