//! What is asked of an object, as a device reads it.
ghost use Rattle.std.specs.Prelude.{◌≡◌};
ghost use Rattle.std.specs.Int.{w16};
ghost use Rattle.std.specs.Option.{option_map};
ghost use Rattle.std.specs.Result.{result_map_both};
ghost use Rattle.oca_types.specs.Reading.{unsigned_at, bool_at};
ghost use Rattle.oca_model.specs.HeldRequests.{asked_by};
ghost use Rattle.oca_model.specs.Lists.{list_of_most};
ghost use Rattle.oca_model.specs.Parameters.{pair_at};
ghost use Rattle.oca_model.specs.Requests.{bare, counted, request_in, set_in};
ghost use Rattle.oca_model.specs.Values.{or_fault};
ghost use Rattle.oca_model.specs.declared.value.ValueFault.TheVariants.{Malformed};

use crate::held::{HeldText, HeldTexts, position_and_text};
use crate::list::read_list;
use crate::parameters::whole;
use crate::request::{Flags, Request};
use crate::value::{Value, ValueFault};
use oca_types::{Class, Cursor, Method};

/// A command as a device reads it: which request it makes of an object (AES70-2). It is a [`Request`] whose texts are
/// not copied out of the bytes of the command.
#[derive(Drop)]
pub enum Asked<'a> {
    /// Asks for the class identifier and the class version.
    GetClassIdentification,
    /// Asks whether the object can be locked.
    GetLockable,
    /// Locks the object: other peers can then neither read nor write.
    LockTotal,
    /// Locks the object: other peers can then only read.
    LockReadonly,
    /// Releases the lock of the object.
    Unlock,
    /// Asks for the role.
    GetRole,
    /// Asks whether the object is enabled.
    GetEnabled,
    /// Enables the object (true) or disables it (false).
    SetEnabled(bool),
    /// Asks for the label.
    GetLabel,
    /// Sets the label.
    SetLabel(HeldText<'a>),
    /// Asks for the number of the block that contains the object.
    GetOwner,
    /// Asks for the members of a block.
    GetMembers,
    /// Asks for the members of a block, their members, and so on.
    GetMembersRecursive,
    /// Asks for the setting, by the get method of the object's class.
    Get,
    /// Sets the object to this value, by the set method of the object's class.
    Set(Value),
    /// Asks for the name of this position of a switch, counted from 0.
    GetPositionName(u16),
    /// Sets the name of this position of a switch, counted from 0.
    SetPositionName(u16, HeldText<'a>),
    /// Asks for the names of all positions of a switch.
    GetPositionNames,
    /// Sets the names of all positions of a switch.
    SetPositionNames(HeldTexts<'a>),
    /// Asks whether this position of a switch is enabled, counted from 0.
    GetPositionEnabled(u16),
    /// Enables (true) or disables (false) this position of a switch, counted from 0.
    SetPositionEnabled(u16, bool),
    /// Asks for each position of a switch whether the position is enabled.
    GetPositionEnableds,
    /// Enables or disables each position of a switch.
    SetPositionEnableds(Flags),
}

/// The request, where there are no parameters.
fn bare<'a>(request: Asked<'a>, count: u8, params: &[u8]) -> Result<Asked<'a>, ValueFault>
    ensures { result_map_both asked_by (λ e. e) result ≡ bare (asked_by request.entry) count params.now }
{
    if count == 0 && params.is_empty() {
        Ok(request)
    } else {
        Err(ValueFault::Malformed)
    }
}

/// What was read, where there are so many parameters.
fn counted<X: Drop>(number: u8, count: u8, read: Option<X>) -> Result<X, ValueFault>
    ensures { result ≡ counted number count (or_fault Malformed read) }
{
    if count != number {
        return Err(ValueFault::Malformed);
    }
    read.ok_or(ValueFault::Malformed)
}

/// The position and the Boolean that are all of the bytes.
fn position_and_truth(params: &[u8]) -> Option<(u16, bool)>
    ensures { result ≡ Rattle.oca_model.specs.Parameters.whole (pair_at (unsigned_at w16) bool_at params.now) }
{
    let mut cursor = Cursor::new(params);
    let position = cursor.take_u16().ok()?;
    let truth = cursor.take_bool().ok()?;
    cursor.finish().ok()?;
    Some((position, truth))
}

/// The list of Booleans that is all of the bytes.
fn flag_list(params: &[u8]) -> Option<Flags>
    ensures { option_map (λ v. v.items) result
        ≡ Rattle.oca_model.specs.Parameters.whole (list_of_most 16 bool_at params.now) }
{
    read_list(params)
}

/// What a set method asks of an object of the class.
#[tactic(auto, unfolding(crate::specs::HeldRequests::asked_by))]
fn set_in<'a>(class: Class, count: u8, params: &[u8]) -> Result<Asked<'a>, ValueFault>
    ensures { result_map_both asked_by (λ e. e) result ≡ set_in class count params.now }
{
    if count != 1 {
        return Err(ValueFault::Malformed);
    }
    Ok(Asked::Set(Value::read(class, params)?))
}

impl<'a> Asked<'a> {
    /// Reads the request of a command from its method and its parameters, as a device does (AES70-2). `count` is
    /// ParamCount and `params` the bytes of the parameters. `class` is the class of the object; only the value of a set
    /// method depends on the class. Texts are not copied. The call checks neither that the class has the method, nor
    /// that a switch has the position. Refusals, the first that applies:
    /// - `Malformed` (the status ParameterError) if `count` is not the number of parameters of the method, or the class
    ///   of a set method is OcaBlock.
    /// - `Malformed` also if `params` is not exactly these parameters: a text has at most 64 bytes, and a list of names
    ///   or flags at most 16 items.
    /// - `Unlisted` (the status ParameterOutOfRange) if a set method of a mute or a polarity has a number that is not 1
    ///   or 2.
    #[tactic(auto, unfolding(crate::specs::Requests::request_in, crate::specs::HeldRequests::asked_by))]
    pub fn read(
        class: Class,
        method: Method,
        count: u8,
        params: &'a [u8],
    ) -> Result<Asked<'a>, ValueFault>
        ensures { result_map_both asked_by (λ e. e) result ≡ request_in class method count params.now }
    {
        match method {
            Method::GetClassIdentification => bare(Asked::GetClassIdentification, count, params),
            Method::GetLockable => bare(Asked::GetLockable, count, params),
            Method::LockTotal => bare(Asked::LockTotal, count, params),
            Method::LockReadonly => bare(Asked::LockReadonly, count, params),
            Method::Unlock => bare(Asked::Unlock, count, params),
            Method::GetRole => bare(Asked::GetRole, count, params),
            Method::GetEnabled => bare(Asked::GetEnabled, count, params),
            Method::SetEnabled => Ok(Asked::SetEnabled(counted(1, count, whole(params))?)),
            Method::GetLabel => bare(Asked::GetLabel, count, params),
            Method::SetLabel => Ok(Asked::SetLabel(counted(1, count, HeldText::read(params))?)),
            Method::GetOwner => bare(Asked::GetOwner, count, params),
            Method::GetMembers => bare(Asked::GetMembers, count, params),
            Method::GetMembersRecursive => bare(Asked::GetMembersRecursive, count, params),
            Method::GetState | Method::GetPosition | Method::GetSetting => {
                bare(Asked::Get, count, params)
            }
            Method::SetState | Method::SetPosition | Method::SetSetting => {
                set_in(class, count, params)
            }
            Method::GetPositionName => Ok(Asked::GetPositionName(counted(
                1,
                count,
                whole(params),
            )?)),
            Method::SetPositionName => {
                let (position, name) = counted(2, count, position_and_text(params))?;
                Ok(Asked::SetPositionName(position, name))
            }
            Method::GetPositionNames => bare(Asked::GetPositionNames, count, params),
            Method::GetPositionEnabled => Ok(Asked::GetPositionEnabled(counted(
                1,
                count,
                whole(params),
            )?)),
            Method::SetPositionEnabled => {
                let (position, truth) = counted(2, count, position_and_truth(params))?;
                Ok(Asked::SetPositionEnabled(position, truth))
            }
            Method::GetPositionEnableds => bare(Asked::GetPositionEnableds, count, params),
            Method::SetPositionNames => Ok(Asked::SetPositionNames(counted(
                1,
                count,
                HeldTexts::read(params),
            )?)),
            Method::SetPositionEnableds => {
                Ok(Asked::SetPositionEnableds(counted(1, count, flag_list(params))?))
            }
        }
    }

    /// Returns the same request as a [`Request`], which contains copies of the texts (AES70-2). A text has at most 64
    /// bytes. `self` is consumed.
    #[tactic(auto, unfolding(crate::specs::HeldRequests::asked_by))]
    pub fn request(self) -> Request
        ensures { result ≡ asked_by self.entry }
    {
        match self {
            Asked::GetClassIdentification => Request::GetClassIdentification,
            Asked::GetLockable => Request::GetLockable,
            Asked::LockTotal => Request::LockTotal,
            Asked::LockReadonly => Request::LockReadonly,
            Asked::Unlock => Request::Unlock,
            Asked::GetRole => Request::GetRole,
            Asked::GetEnabled => Request::GetEnabled,
            Asked::SetEnabled(truth) => Request::SetEnabled(truth),
            Asked::GetLabel => Request::GetLabel,
            Asked::SetLabel(label) => Request::SetLabel(label.text()),
            Asked::GetOwner => Request::GetOwner,
            Asked::GetMembers => Request::GetMembers,
            Asked::GetMembersRecursive => Request::GetMembersRecursive,
            Asked::Get => Request::Get,
            Asked::Set(value) => Request::Set(value),
            Asked::GetPositionName(position) => Request::GetPositionName(position),
            Asked::SetPositionName(position, name) => Request::SetPositionName(
                position,
                name.text(),
            ),
            Asked::GetPositionNames => Request::GetPositionNames,
            Asked::SetPositionNames(names) => Request::SetPositionNames(names.texts()),
            Asked::GetPositionEnabled(position) => Request::GetPositionEnabled(position),
            Asked::SetPositionEnabled(position, truth) => Request::SetPositionEnabled(
                position, truth,
            ),
            Asked::GetPositionEnableds => Request::GetPositionEnableds,
            Asked::SetPositionEnableds(flags) => Request::SetPositionEnableds(flags),
        }
    }
}
