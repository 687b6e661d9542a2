//! Writing the parameters of an answer.
ghost use Rattle.std.specs.Prelude.{◌≡◌, ◌≤◌, ◌<◌, ◌+◌, ◌++◌, length, take, drop, slice_index_or, true};
ghost use Rattle.std.specs.Prelude.{false, IfOk, IfSome};
ghost use Rattle.std.specs.List.{flat_map, filter};
ghost use Rattle.std.specs.Int.{w8, w16};
ghost use Rattle.oca_types.specs.Numbers.{unsigned_encoding};
ghost use Rattle.oca_types.specs.Putting.{Puts};
ghost use Rattle.oca_model.specs.Answers.{answer_count, answer_encoding};
ghost use Rattle.oca_model.specs.HeldRequests.{asked_by};
ghost use Rattle.oca_model.specs.Lists.{list_encoding};
ghost use Rattle.oca_model.specs.Readings.{reading_encoding};
ghost use Rattle.oca_tree.specs.PrivateSteps.{is_listed, item_encoding, listed_answer, counted_as, PutsAnswer};
ghost use Rattle.oca_tree.specs.PrivateSteps.{has_state, reading_answer};
ghost use Rattle.oca_tree.specs.Requests.{asks_out_of_range};
ghost use Rattle.oca_tree.specs.Trees.{IsTree, IsSoundValue, IsSoundSwitch};
ghost use Rattle.oca_tree.specs.Typed.{answer_given, position_reading, positions_answer};
ghost use Rattle.oca_tree.specs.declared.object.Object.{Object as AnObject};

use crate::object::{Object, Switch, Value};
use crate::objects::Objects;
use oca_model::{Asked, Reading, put_flags, put_names};
use oca_types::{
    MOST_PARAMETER_BYTES, Params, PutFault, Status, put_bool, put_class_identification, put_text,
    put_u8, put_u16, put_u32,
};

/// An object's number and class, and where all descendants are listed its container too.
fn put_item(out: &mut Params, object: &Object, deep: bool) -> Result<(), PutFault>
    ensures { Puts result out.old.items out.new.items (item_encoding deep object.now) }
{
    put_u32(out, object.ono.0)?;
    put_class_identification(out, object.class())?;
    if deep {
        put_u32(out, object.container.0)?;
    }
    Ok(())
}

/// Whether the object at index `at` is a member of the block at index `place`.
fn is_member(objects: &Objects, at: usize, place: usize) -> bool
    requires tree { IsTree objects.now.list }
    requires within { at < length objects.now.list }
    requires block { place < length objects.now.list }
    ensures { (d : AnObject) →
        result ≡ is_listed objects.now.list (slice_index_or objects.now.list place d).ono.0 false
        (slice_index_or objects.now.list at d) }
{
    match objects.container_at(at) {
        Some(container) => container == place,
        None => false,
    }
}

/// Whether the object at index `at` lies in the block at index `place`, however deep: the block is among the containers
/// above it. Since a container stands before what it contains, none above the first that stands before the block is it.
fn lies_in(objects: &Objects, at: usize, place: usize) -> bool
    requires tree { IsTree objects.now.list }
    requires within { at < length objects.now.list }
    requires block { place < length objects.now.list }
    ensures { (d : AnObject) →
        result ≡ is_listed objects.now.list (slice_index_or objects.now.list place d).ono.0 true
        (slice_index_or objects.now.list at d) }
{
    let mut current = at;
    for _ in 0..objects.len() {
        let Some(container) = objects.container_at(current) else {
            return false;
        };
        if container <= place {
            return container == place;
        }
        current = container;
    }
    false
}

/// Whether the object at index `at` is listed for the block at index `place`: as a member of it, or where all are
/// listed as one that lies in it.
fn is_listed(objects: &Objects, at: usize, place: usize, deep: bool) -> bool
    requires tree { IsTree objects.now.list }
    requires within { at < length objects.now.list }
    requires block { place < length objects.now.list }
    ensures { (d : AnObject) →
        result ≡ is_listed objects.now.list (slice_index_or objects.now.list place d).ono.0 deep
        (slice_index_or objects.now.list at d) }
{
    if deep {
        lies_in(objects, at, place)
    } else {
        is_member(objects, at, place)
    }
}

/// What is listed of each object that is, and how many there are; the block is the object at index `place`. All that is
/// listed stands behind it, and is found by the indices of containers. It stops at the first that does not fit.
fn put_items(
    out: &mut Params,
    objects: &Objects,
    block: &Object,
    place: usize,
    deep: bool,
) -> Result<u16, PutFault>
    requires tree { IsTree objects.now.list }
    requires within { place < length objects.now.list }
    requires here { block.now ≡ slice_index_or objects.now.list place block.now }
    ensures puts { Puts result out.old.items out.new.items
        (flat_map (item_encoding deep) (filter (is_listed objects.now.list block.now.ono.0 deep) objects.now.list)) }
    ensures count { IfOk result (λ n. n
        ≡ length (filter (is_listed objects.now.list block.now.ono.0 deep) objects.now.list)) }
{
    let mut count = 0u16;
    for at in place + 1..objects.len() {
        let object = objects.object_at(at);
        if is_listed(objects, at, place, deep) {
            put_item(out, object, deep)?;
            count += 1;
        }
    }
    Ok(count)
}

/// Writes a Uint16 over the two bytes at this index.
fn write_u16(bytes: &mut [u8], at: usize, value: u16)
    requires { at + 2 ≤ length bytes.old }
    ensures { bytes.new ≡ take at bytes.old ++ unsigned_encoding w16 value ++ drop (at + 2) bytes.old }
{
    bytes[at..at + 2].copy_from_slice(&value.to_be_bytes());
}

/// The members of a block, or all that lie in it however deep. Where they are too long for the room, that is answered
/// before any is looked for. Their number is written once they are put.
#[inline(never)]
fn put_members(
    out: &mut Params,
    objects: &Objects,
    block: &Object,
    place: usize,
    deep: bool,
) -> Result<(), PutFault>
    requires tree { IsTree objects.now.list }
    requires within { place < length objects.now.list }
    requires here { block.now ≡ slice_index_or objects.now.list place block.now }
    ensures { Puts result out.old.items out.new.items
        (list_encoding (item_encoding deep)
        (filter (is_listed objects.now.list block.now.ono.0 deep) objects.now.list)) }
{
    let start = out.len();
    if MOST_PARAMETER_BYTES - start < 2 + objects.listed_bytes_at(place, deep) as usize {
        return Err(PutFault::Full);
    }
    put_u16(out, 0)?;
    let count = put_items(out, objects, block, place, deep)?;
    write_u16(out.as_mut_slice(), start, count);
    Ok(())
}

/// The position, the least and the greatest.
#[tactic(auto, unfolding(oca_model::specs::Readings::reading_encoding))]
fn put_position(out: &mut Params, switch: &Switch) -> Result<(), PutFault>
    requires { IsSoundSwitch switch.now }
    ensures { Puts result out.old.items out.new.items (reading_encoding (position_reading switch.now)) }
{
    put_u16(out, switch.position)?;
    put_u16(out, 0)?;
    put_u16(out, (switch.names.len() - 1) as u16)
}

/// What a put of so many parameters gives: their number, or that the answer is too long.
fn counted(count: u8, put: Result<(), PutFault>) -> Result<u8, Status>
    ensures { result ≡ counted_as count put }
{
    match put {
        Ok(()) => Ok(count),
        Err(_) => Err(Status::BufferOverflow),
    }
}

/// What a value reads as, with its limits; a block has nothing to read. It stands apart, so that a state is put in
/// place.
#[inline(never)]
#[tactic(auto, unfolding(crate::specs::Trees::IsSoundValue, crate::specs::Typed::reading_held, oca_model::specs::Answers::answer_encoding))]
fn put_any_reading(out: &mut Params, value: &Value) -> Result<u8, Status>
    requires { IsSoundValue value.now }
    ensures { PutsAnswer result out.old.items out.new.items (reading_answer value.now) }
{
    match value {
        Value::Block => Ok(0),
        Value::Switch(switch) => counted(3, put_position(out, switch)),
        Value::Reads(reading) => counted(reading.count(), reading.put(out)),
    }
}

/// The number of a mute's or a polarity's state, which is then all that is answered.
#[tactic(auto, unfolding(crate::specs::Typed::reading_held, oca_model::specs::Answers::answer_encoding, oca_model::specs::Readings::reading_encoding))]
pub(crate) fn state_number(value: &Value) -> Option<u8>
    ensures state { IfSome result (λ number. has_state value.now ≡ true) }
    ensures number { IfSome result (λ number. (answer_encoding (reading_answer value.now) ≡ unsigned_encoding w8 number)
        × (answer_count (reading_answer value.now) ≡ 1)) }
{
    match value {
        Value::Reads(Reading::Mute(mute)) => Some(*mute as u8),
        Value::Reads(Reading::Polarity(polarity)) => Some(*polarity as u8),
        _ => None,
    }
}

/// Answers the number of a state, which is what the value reads as.
pub(crate) fn put_number(out: &mut Params, value: &Value, number: u8) -> Result<u8, Status>
    requires encoding { answer_encoding (reading_answer value.now) ≡ unsigned_encoding w8 number }
    requires count { answer_count (reading_answer value.now) ≡ 1 }
    ensures { PutsAnswer result out.old.items out.new.items (reading_answer value.now) }
{
    counted(1, put_u8(out, number))
}

/// What a value reads as: at once where it is a state.
#[inline(always)]
fn put_reading(out: &mut Params, value: &Value) -> Result<u8, Status>
    requires { IsSoundValue value.now }
    ensures { PutsAnswer result out.old.items out.new.items (reading_answer value.now) }
{
    match state_number(value) {
        Some(number) => put_number(out, value, number),
        None => put_any_reading(out, value),
    }
}

/// What is answered that lists the members of a block, or all that lies in it.
#[tactic(auto, using(crate::proofs::Listing::listed_encoding, crate::proofs::Listing::listed_count))]
fn put_listed(
    out: &mut Params,
    objects: &Objects,
    block: &Object,
    place: usize,
    deep: bool,
) -> Result<u8, Status>
    requires tree { IsTree objects.now.list }
    requires within { place < length objects.now.list }
    requires here { block.now ≡ slice_index_or objects.now.list place block.now }
    ensures { PutsAnswer result out.old.items out.new.items
        (listed_answer deep objects.now.list block.now.ono.0) }
{
    counted(1, put_members(out, objects, block, place, deep))
}

/// What is answered of the positions of a switch; any other value has none.
#[tactic(auto, unfolding(oca_model::specs::HeldRequests::asked_by, oca_model::specs::Answers::answer_encoding, crate::specs::Requests::asks_out_of_range, crate::specs::Trees::IsSoundValue))]
fn put_positions(out: &mut Params, value: &Value, request: &Asked<'_>) -> Result<u8, Status>
    requires sound { IsSoundValue value.now }
    requires there { asks_out_of_range value.now (asked_by request.now) ≡ false }
    ensures { PutsAnswer result out.old.items out.new.items (positions_answer value.now (asked_by request.now)) }
{
    let Value::Switch(switch) = value else {
        return Ok(0);
    };
    match request {
        Asked::GetPositionName(position) => {
            counted(1, put_text(out, &switch.names[usize::from(*position)]))
        }
        Asked::GetPositionNames => counted(1, put_names(out, &switch.names)),
        Asked::GetPositionEnabled(position) => {
            counted(1, put_bool(out, switch.enableds[usize::from(*position)]))
        }
        Asked::GetPositionEnableds => counted(1, put_flags(out, &switch.enableds)),
        _ => Ok(0),
    }
}

/// Appends the parameters of the answer of the object, which stands at index `place`, and says how many they are,
/// unless it is too long. Inlined, it is one jump table with the one that made the request.
#[inline(always)]
#[tactic(auto, unfolding(oca_model::specs::HeldRequests::asked_by, oca_model::specs::Answers::answer_encoding, crate::specs::Typed::answer_given))]
pub(crate) fn put_answer(
    out: &mut Params,
    objects: &Objects,
    object: &Object,
    place: usize,
    request: &Asked<'_>,
) -> Result<u8, Status>
    requires within { place < length objects.now.list }
    requires here { object.now ≡ slice_index_or objects.now.list place object.now }
    requires sound { IsSoundValue object.now.value }
    requires range { asks_out_of_range object.now.value (asked_by request.now) ≡ false }
    requires tree { IsTree objects.now.list }
    ensures { PutsAnswer result out.old.items out.new.items
        (answer_given objects.now.list object.now (asked_by request.now)) }
{
    match request {
        Asked::GetClassIdentification => counted(1, put_class_identification(out, object.class())),
        Asked::GetLockable => counted(1, put_bool(out, object.lockable)),
        Asked::GetRole => counted(1, put_text(out, &object.role)),
        Asked::GetEnabled => counted(1, put_bool(out, object.enabled)),
        Asked::GetLabel => counted(1, put_text(out, &object.label)),
        Asked::GetOwner => counted(1, put_u32(out, object.container.0)),
        Asked::GetMembers => put_listed(out, objects, object, place, false),
        Asked::GetMembersRecursive => put_listed(out, objects, object, place, true),
        Asked::Get => put_reading(out, &object.value),
        Asked::GetPositionName(_)
        | Asked::GetPositionNames
        | Asked::GetPositionEnabled(_)
        | Asked::GetPositionEnableds => put_positions(out, &object.value, request),
        _ => Ok(0),
    }
}
