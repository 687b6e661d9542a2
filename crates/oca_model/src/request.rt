//! What is asked of an object: for a panel to put, for a device to read.
ghost use Rattle.std.specs.Prelude.{◌≡◌, ◌<◌, length, IfOk, IfErr, IfSome, IfNone};
ghost use Rattle.oca_types.specs.Methods.{method_kind, access};
ghost use Rattle.oca_types.specs.Putting.{Puts};
ghost use Rattle.oca_types.specs.Sizes.{most_parameter_bytes};
ghost use Rattle.oca_types.specs.declared.class.Method.{Method};
ghost use Rattle.oca_types.specs.declared.words.MethodId.{MethodId};
ghost use Rattle.oca_model.specs.Requests.{AskedBy, IsCallFor, IsRefusedCall, count_of, parameters_of, request_in};
ghost use Rattle.oca_model.specs.declared.request.RequestFault.TheVariants.{OtherClass};

use crate::asked::Asked;
use crate::item::Item;
use crate::list::put_list;
use crate::value::{Value, ValueFault};
use crate::value_request::{get_method, set_method};
use arrayvec::ArrayVec;
use oca_types::{Class, Method, MethodId, Params, PutFault, Text, method_id, put_text};

/// The names of the positions of a switch, in order: from 0 to 16 texts, each of at most 64 bytes.
pub type Names = ArrayVec<Text, 16>;

/// For each position of a switch, in order, whether the position is enabled: from 0 to 16 flags.
pub type Flags = ArrayVec<bool, 16>;

/// What a command asks of an object (AES70-2): a method with its parameters. `Get` and `Set` are the get and the set
/// method of the object's class. Each other variant has the name of its method.
#[derive(Debug, Drop)]
pub enum Request {
    /// Asks for the class identifier and the class version.
    GetClassIdentification,
    /// Asks whether the object can be locked.
    GetLockable,
    /// Locks the object: other peers can then neither read nor write.
    LockTotal,
    /// Locks the object: other peers can then only read.
    LockReadonly,
    /// Releases the lock of the object.
    Unlock,
    /// Asks for the role.
    GetRole,
    /// Asks whether the object is enabled.
    GetEnabled,
    /// Enables the object (true) or disables it (false).
    SetEnabled(bool),
    /// Asks for the label.
    GetLabel,
    /// Sets the label.
    SetLabel(Text),
    /// Asks for the number of the block that contains the object.
    GetOwner,
    /// Asks for the members of a block.
    GetMembers,
    /// Asks for the members of a block, their members, and so on.
    GetMembersRecursive,
    /// Asks for the setting, by the get method of the object's class.
    Get,
    /// Sets the object to this value, by the set method of the object's class.
    Set(Value),
    /// Asks for the name of this position of a switch, counted from 0.
    GetPositionName(u16),
    /// Sets the name of this position of a switch, counted from 0.
    SetPositionName(u16, Text),
    /// Asks for the names of all positions of a switch.
    GetPositionNames,
    /// Sets the names of all positions of a switch, in order.
    SetPositionNames(Names),
    /// Asks whether this position of a switch is enabled, counted from 0.
    GetPositionEnabled(u16),
    /// Enables (true) or disables (false) this position of a switch, counted from 0.
    SetPositionEnabled(u16, bool),
    /// Asks for each position of a switch whether the position is enabled.
    GetPositionEnableds,
    /// Enables or disables each position of a switch, in order.
    SetPositionEnableds(Flags),
}

/// How a request is sent: the numbers of its method, and its ParamCount. [`Request::call`] returns it, and writes the
/// parameters beside it.
#[derive(Clone, Copy, Debug, PartialEq, Eq)]
pub struct Call {
    /// The DefLevel and MethodIndex of the method.
    pub method: MethodId,
    /// ParamCount: the number of parameters, 0 to 2.
    pub count: u8,
}

/// Why a request cannot be sent to an object of a class. Nothing is sent.
#[derive(Clone, Copy, Debug, PartialEq, Eq)]
pub enum RequestFault {
    /// The class does not have such a method, or the value is of another class.
    OtherClass,
    /// The parameters would have more than 1,452 bytes.
    Full,
}

impl Request {
    /// The method by which it is asked of an object of the class; nothing where the class is set by other values.
    fn method(&self, class: Class) -> Option<Method>
        ensures known { IfSome result (λ method. AskedBy class self.now method) }
        ensures other { IfNone result ((method : Method) → AskedBy class self.now method → ⊥) }
    {
        Some(match self {
            Request::GetClassIdentification => Method::GetClassIdentification,
            Request::GetLockable => Method::GetLockable,
            Request::LockTotal => Method::LockTotal,
            Request::LockReadonly => Method::LockReadonly,
            Request::Unlock => Method::Unlock,
            Request::GetRole => Method::GetRole,
            Request::GetEnabled => Method::GetEnabled,
            Request::SetEnabled(_) => Method::SetEnabled,
            Request::GetLabel => Method::GetLabel,
            Request::SetLabel(_) => Method::SetLabel,
            Request::GetOwner => Method::GetOwner,
            Request::GetMembers => Method::GetMembers,
            Request::GetMembersRecursive => Method::GetMembersRecursive,
            Request::Get => get_method(class)?,
            Request::Set(value) if value.class() == class => set_method(*value),
            Request::Set(_) => return None,
            Request::GetPositionName(_) => Method::GetPositionName,
            Request::SetPositionName(_, _) => Method::SetPositionName,
            Request::GetPositionNames => Method::GetPositionNames,
            Request::GetPositionEnabled(_) => Method::GetPositionEnabled,
            Request::SetPositionEnabled(_, _) => Method::SetPositionEnabled,
            Request::GetPositionEnableds => Method::GetPositionEnableds,
            Request::SetPositionNames(_) => Method::SetPositionNames,
            Request::SetPositionEnableds(_) => Method::SetPositionEnableds,
        })
    }

    /// How many parameters it has.
    fn count(&self) -> u8
        ensures { result ≡ count_of self.now }
    {
        match self {
            Request::SetEnabled(_)
            | Request::SetLabel(_)
            | Request::Set(_)
            | Request::GetPositionName(_)
            | Request::SetPositionNames(_)
            | Request::GetPositionEnabled(_)
            | Request::SetPositionEnableds(_) => 1,
            Request::SetPositionName(_, _) | Request::SetPositionEnabled(_, _) => 2,
            _ => 0,
        }
    }

    /// Appends its parameters. Refusal: `Full`.
    #[tactic(auto, unfolding(crate::specs::Requests::parameters_of))]
    fn put(&self, params: &mut Params) -> Result<(), PutFault>
        ensures { Puts result params.old.items params.new.items (parameters_of self.now) }
    {
        match self {
            Request::SetEnabled(truth) => truth.put_item(params),
            Request::SetLabel(label) => put_text(params, label),
            Request::Set(value) => value.put(params),
            Request::GetPositionName(position) | Request::GetPositionEnabled(position) => {
                position.put_item(params)
            }
            Request::SetPositionName(position, name) => {
                position.put_item(params)?;
                put_text(params, name)
            }
            Request::SetPositionEnabled(position, truth) => {
                position.put_item(params)?;
                truth.put_item(params)
            }
            Request::SetPositionNames(names) => put_list(params, names.as_slice()),
            Request::SetPositionEnableds(flags) => put_list(params, flags.as_slice()),
            _ => Ok(()),
        }
    }

    /// Encodes the request for an object of this class (AES70-2, AES70-3): returns the DefLevel, MethodIndex and
    /// ParamCount, and writes the bytes of the parameters into `params`. The old bytes of `params` are lost. The call
    /// sends nothing. It checks no limits of the object. Refusals, the first that applies:
    /// - `OtherClass` if the class has no method for the request, or the value to set is of another class; `params` is
    ///   then unchanged.
    /// - `Full` if the parameters would have more than 1,452 bytes; discard `params` then.
    pub fn call(&self, class: Class, params: &mut Params) -> Result<Call, RequestFault>
        ensures call { IfOk result (λ call. IsCallFor class self.now call params.new.items) }
        ensures refused { IfErr result (λ fault. IsRefusedCall class self.now fault) }
        ensures unchanged { IfErr result (λ fault. fault ≡ OtherClass → params.new ≡ params.old) }
    {
        let Some(method) = self.method(class) else {
            return Err(RequestFault::OtherClass);
        };
        let Some(id) = method_id(class, method) else {
            return Err(RequestFault::OtherClass);
        };
        params.clear();
        self.put(params).map_err(|_| RequestFault::Full)?;
        Ok(Call {
            method: id,
            count: self.count(),
        })
    }

    /// Reads the request of a command as [`Asked::read`] does, with the same refusals, and copies its texts (AES70-2).
    pub fn read(
        class: Class,
        method: Method,
        count: u8,
        params: &[u8],
    ) -> Result<Request, ValueFault>
        ensures { result ≡ request_in class method count params.now }
    {
        Asked::read(class, method, count, params).map(Asked::request)
    }
}
