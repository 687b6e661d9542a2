//! The requests that set a value and that read it.
ghost use Rattle.std.specs.Prelude.{◌≡◌};
ghost use Rattle.oca_model.specs.Values.{class_of_value, set_method, get_method, value_encoding};
ghost use Rattle.oca_model.specs.ValueRequests.{CallsMethod, CallsMethodIfAny};

use crate::value::Value;
use arrayvec::ArrayVec;
use oca_types::{Class, Method, MethodId, Ono, method_id};

/// A request that sets or reads the value of an object: a command without its handle and its target (AES70-2).
/// [`ValueRequest::of`] adds the target.
#[derive(Debug, Drop)]
pub struct ValueRequest {
    /// The DefLevel and MethodIndex of the get or set method.
    pub method: MethodId,
    /// ParamCount: 1 to set, 0 to read.
    pub count: u8,
    /// The bytes of the parameters: 0 to 8.
    pub params: ArrayVec<u8, 8>,
}

impl ValueRequest {
    ghost use Rattle.std.specs.Prelude.{◌≡◌};
    ghost use Rattle.oca_types.specs.Peers.{request_of};
    ghost use Rattle.oca_model.specs.ValueRequests.{request_to};

    /// Returns the same request for the object with the number `target`, as `oca_types::Request` (AES70-3). A
    /// controller can then send the request as a command. The call does not check that a device has the object, and
    /// borrows the parameters from `self`.
    pub fn of(&self, target: Ono) -> oca_types::Request<'_>
        ensures { request_of result ≡ request_to target.0 self.now }
    {
        oca_types::Request {
            target,
            method: self.method,
            count: self.count,
            params: self.params.as_slice(),
        }
    }
}

/// The method that sets such a value.
pub(crate) fn set_method(value: Value) -> Method
    ensures { result ≡ set_method value }
{
    match value {
        Value::Mute(_) | Value::Polarity(_) => Method::SetState,
        Value::Switch(_) => Method::SetPosition,
        _ => Method::SetSetting,
    }
}

/// The method that reads how an object of the class is set; nothing for a block.
pub(crate) fn get_method(class: Class) -> Option<Method>
    ensures { result ≡ get_method class }
{
    match class {
        Class::Block => None,
        Class::Mute | Class::Polarity => Some(Method::GetState),
        Class::Switch => Some(Method::GetPosition),
        _ => Some(Method::GetSetting),
    }
}

/// Returns the request that sets an object of the value's class to the value (AES70-2): SetState of a mute or a
/// polarity, SetPosition of a switch, or SetSetting of an actuator, with the value as its one parameter. The call sends
/// nothing and checks no limits of an object.
pub fn set_request(value: Value) -> ValueRequest
    ensures { CallsMethod (class_of_value value) (set_method value) result 1 (value_encoding value) }
{
    let Some(method) = method_id(value.class(), set_method(value)) else {
        unreachable!()
    };
    ValueRequest {
        method,
        count: 1,
        params: value.encoding(),
    }
}

/// Returns the request that reads the setting of an object of the class (AES70-2): GetState of a mute or a polarity,
/// GetPosition of a switch, or GetSetting of an actuator, without parameters. The result is `None` for OcaBlock, which
/// has no setting. The call sends nothing.
pub fn get_request(class: Class) -> Option<ValueRequest>
    ensures { CallsMethodIfAny (get_method class) class result }
{
    let Some(method) = method_id(class, get_method(class)?) else {
        unreachable!()
    };
    Some(ValueRequest {
        method,
        count: 0,
        params: ArrayVec::new(),
    })
}
