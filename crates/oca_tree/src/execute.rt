//! Executing a command: whether it is refused, what it answers and what it changes.
ghost use Rattle.std.specs.Prelude.{◌≡◌, [], slice_index_or, length, Some, None, Ok, OnOk, IfSome, IsTrue, true, false};
ghost use Rattle.std.specs.List.{position};
ghost use Rattle.oca_types.specs.Peers.{fields_of};
ghost use Rattle.oca_tree.specs.Objects.{class_of, has_number};
ghost use Rattle.oca_tree.specs.Locks.{lock_count};
ghost use Rattle.oca_tree.specs.Trees.{IsTree, IsSound};
ghost use Rattle.oca_tree.specs.PrivateSteps.{MayCall, IsMethodFor, IsRequestFor, Executes, status_of_fault};
ghost use Rattle.oca_tree.specs.PrivateSteps.{setting_in, sets_value, has_state, MaySet, IsSettingFor};
ghost use Rattle.oca_types.specs.declared.class.MethodKind.TheVariants.{Known};
ghost use Rattle.oca_types.specs.Methods.{access};
ghost use Rattle.oca_tree.specs.Execution.{is_write, is_failing};
ghost use Rattle.oca_tree.specs.Written.{calls_a_write};
ghost use Rattle.oca_tree.specs.declared.object.Object.{Object as AnObject};

use crate::answer::{put_answer, put_number, state_number};
use crate::marks::Marks;
use crate::object::{Object, Value as Held};
use crate::objects::Objects;
use crate::place::index_from;
use crate::request::{cannot_be, plain, refusal};
use oca_model::{Asked, Reading, Value, ValueFault};
use oca_types::{
    Access, Class, Command, Method, MethodKind, Params, Peer, Status, access_of, method_of,
};

/// The method that a command calls, or why the peer cannot call it.
fn method_for(object: &Object, peer: Peer, command: &Command<'_>) -> Result<Method, Status>
    ensures { IsMethodFor result object.now peer (fields_of command.now) }
{
    match method_of(object.class(), command.method) {
        MethodKind::Known(method, access) => {
            if object.is_locked_for(peer, access) {
                return Err(Status::Locked);
            }
            Ok(method)
        }
        MethodKind::LeftOut => Err(Status::NotImplemented),
        MethodKind::Unknown => Err(Status::BadMethod),
    }
}

/// The status of what is not understood.
fn status_of_fault(fault: ValueFault) -> Status
    ensures { result ≡ status_of_fault fault }
{
    match fault {
        ValueFault::Malformed => Status::ParameterError,
        ValueFault::Unlisted => Status::ParameterOutOfRange,
    }
}

/// What a command asks by this method of an object, or why it is refused.
fn check_request<'a>(
    object: &Object,
    command: &Command<'a>,
    method: Method,
) -> Result<Asked<'a>, Status>
    requires { IsSound object.now }
    ensures { (peer : Peer) → MayCall method object.now peer (fields_of command.now) →
        IsRequestFor result object.now peer (fields_of command.now) }
{
    match Asked::read(object.class(), method, command.count, command.params) {
        Ok(request) => match refusal(object, &request) {
            Some(status) => Err(status),
            None => Ok(request),
        },
        Err(fault) => Err(status_of_fault(fault)),
    }
}

/// Whether a method writes.
fn is_write(method: Method) -> bool
    ensures { result ≡ is_write (Known method (access method)) }
{
    matches!(access_of(method), Access::Write)
}

/// Whether the object's hardware refuses what the method writes.
fn is_failing(object: &Object, method: Method) -> bool
    ensures { result ≡ is_failing (Some object.now) (Known method (access method)) }
{
    object.failing && is_write(method)
}

/// Carries out any method of the object at this index, which the peer may call. It stands apart, so that
/// `Tree::execute` is short enough to be inlined.
#[inline(never)]
fn carry_out_at(
    objects: &mut Objects,
    at: usize,
    method: Method,
    marks: &mut Marks,
    peer: Peer,
    command: &Command<'_>,
    out: &mut Params,
) -> Result<u8, Status>
    requires place { position (has_number command.now.target.0) objects.old.list ≡ Some at }
    requires method { (d : AnObject) →
        MayCall method (slice_index_or objects.old.list at d) peer (fields_of command.now) }
    requires empty { out.old.items ≡ [] }
    requires tree { IsTree objects.old.list }
    requires count { marks.old.locks ≡ lock_count objects.old.list }
    ensures done { Executes result objects.old.list objects.new.list out.new.items peer (fields_of command.now) }
    ensures tree { IsTree objects.new.list }
    ensures count { marks.new.locks ≡ lock_count objects.new.list }
{
    let object = objects.object_at(at);
    let request = check_request(object, command, method)?;
    let count = put_answer(out, objects, object, at, &request)?;
    // The proof needs that it is within its room; a `prove!` of it would be tested.
    let _length = out.len();
    if is_failing(object, method) {
        return Err(Status::ProcessingFailed);
    }
    objects.change_at(at, marks, peer, request);
    Ok(count)
}

/// What an object of the class is set to by a set method with these parameters.
fn setting_in(class: Class, count: u8, params: &[u8]) -> Result<Value, ValueFault>
    ensures { result ≡ setting_in class count params.now }
{
    if count != 1 {
        return Err(ValueFault::Malformed);
    }
    Value::read(class, params)
}

/// What a command sets an object to, whose set method it calls, or why it is refused.
fn check_setting(object: &Object, command: &Command<'_>) -> Result<Value, Status>
    requires { IsSound object.now }
    ensures { (peer : Peer) → MaySet object.now peer (fields_of command.now) →
        IsSettingFor result object.now peer (fields_of command.now) }
{
    match setting_in(object.class(), command.count, command.params) {
        Ok(value) => {
            if cannot_be(&object.value, value) {
                Err(Status::ParameterOutOfRange)
            } else {
                Ok(value)
            }
        }
        Err(fault) => Err(status_of_fault(fault)),
    }
}

/// Carries out the set method of the object at this index, which the peer may call: it answers nothing. It needs no
/// room for any other request.
#[inline(never)]
fn set_at(
    objects: &mut Objects,
    at: usize,
    marks: &mut Marks,
    peer: Peer,
    command: &Command<'_>,
) -> Result<u8, Status>
    requires place { position (has_number command.now.target.0) objects.old.list ≡ Some at }
    requires method { (d : AnObject) → MaySet (slice_index_or objects.old.list at d) peer (fields_of command.now) }
    requires tree { IsTree objects.old.list }
    requires count { marks.old.locks ≡ lock_count objects.old.list }
    ensures done { Executes result objects.old.list objects.new.list [] peer (fields_of command.now) }
    ensures tree { IsTree objects.new.list }
    ensures count { marks.new.locks ≡ lock_count objects.new.list }
{
    let object = objects.object_at(at);
    let value = check_setting(object, command)?;
    if object.failing {
        return Err(Status::ProcessingFailed);
    }
    objects.change_at(at, marks, peer, Asked::Set(value));
    Ok(0)
}

/// Whether a method sets a value: the set method of some class.
fn sets_value(method: Method) -> bool
    ensures { result ≡ sets_value method }
{
    matches!(
        method,
        Method::SetState | Method::SetPosition | Method::SetSetting
    )
}

/// Whether a command has no parameters.
fn is_bare(command: &Command<'_>) -> bool
    ensures { IsTrue result → (command.now.count ≡ 0) × (length command.now.params.now ≡ 0) }
{
    command.params.len() + usize::from(command.count) == 0
}

/// Whether a command calls the method of DefLevel 4 with this MethodIndex, and the object is not locked.
fn calls_unlocked(object: &Object, command: &Command<'_>, index: u16) -> bool
    ensures { IsTrue result → (command.now.method.level ≡ 4) × (command.now.method.index ≡ index)
        × (object.now.lock ≡ None) }
{
    command.method.level == 4 && command.method.index == index && object.lock.is_none()
}

/// What a command sets an object of the class to, if its parameters are those of a set method; it tells no fault.
fn readable_setting(class: Class, command: &Command<'_>) -> Option<Value>
    ensures { IfSome result (λ value. setting_in class command.now.count command.now.params.now ≡ Ok value) }
{
    match setting_in(class, command.count, command.params) {
        Ok(value) => Some(value),
        Err(_) => None,
    }
}

/// The listed state that a command's parameters are, where the object is a mute or a polarity and its hardware works.
#[tactic(auto, unfolding(crate::specs::Objects::class_of))]
fn state_to_set(object: &Object, command: &Command<'_>) -> Option<Value>
    ensures state { IfSome result (λ value. has_state object.now.value ≡ true) }
    ensures works { IfSome result (λ value. object.now.failing ≡ false) }
    ensures asked { IfSome result (λ value.
        setting_in (class_of object.now.value) command.now.count command.now.params.now ≡ Ok value) }
{
    if !object.failing {
        match object.value {
            Held::Reads(Reading::Mute(_)) => readable_setting(Class::Mute, command),
            Held::Reads(Reading::Polarity(_)) => readable_setting(Class::Polarity, command),
            _ => None,
        }
    } else {
        None
    }
}

/// Carries out a command, if it is not refused, and puts the answer into empty parameters. `marks` count the locks that
/// are held and say where an object was found last, and `writes` is then whether the method of a command that was not
/// refused writes. What only reads and has no parameters is answered at once.
pub(crate) fn carry_out(
    objects: &mut Objects,
    marks: &mut Marks,
    peer: Peer,
    command: &Command<'_>,
    out: &mut Params,
    writes: &mut bool,
) -> Result<u8, Status>
    requires empty { out.old.items ≡ [] }
    requires tree { IsTree objects.old.list }
    requires count { marks.old.locks ≡ lock_count objects.old.list }
    ensures done { Executes result objects.old.list objects.new.list out.new.items peer (fields_of command.now) }
    ensures writes { OnOk result (writes.new ≡ calls_a_write objects.old.list (fields_of command.now)) }
    ensures tree { IsTree objects.new.list }
    ensures count { marks.new.locks ≡ lock_count objects.new.list }
{
    let Some(at) = index_from(objects, marks, command.target) else {
        return Err(Status::BadOno);
    };
    let object = objects.object_at(at);
    if calls_unlocked(object, command, 1)
        && is_bare(command)
        && let Some(number) = state_number(&object.value)
    {
        let answered = put_number(out, &object.value, number);
        // As in `carry_out_at`.
        let _length = out.len();
        *writes = false;
        return answered;
    }
    if calls_unlocked(object, command, 2)
        && let Some(state) = state_to_set(object, command)
    {
        objects.change_at(at, marks, peer, Asked::Set(state));
        *writes = true;
        return Ok(0);
    }
    let method = method_for(object, peer, command)?;
    if is_bare(command)
        && let Some(request) = plain(method)
    {
        let answered = put_answer(out, objects, object, at, &request);
        // As in `carry_out_at`.
        let _length = out.len();
        *writes = false;
        return answered;
    }
    *writes = is_write(method);
    if sets_value(method) {
        return set_at(objects, at, marks, peer, command);
    }
    carry_out_at(objects, at, method, marks, peer, command, out)
}
