//! What a request changes in its object.
ghost use Rattle.std.specs.Prelude.{◌≡◌, ◌≤◌, ◌+◌, false};
ghost use Rattle.oca_model.specs.HeldRequests.{asked_by};
ghost use Rattle.oca_model.specs.Settings.{reading_set_to};
ghost use Rattle.oca_model.specs.declared.request.Request.TheVariants as asked;
ghost use Rattle.oca_tree.specs.Locks.{lock_of_one};
ghost use Rattle.oca_tree.specs.Requests.{asks_out_of_range};
ghost use Rattle.oca_tree.specs.Settings.{front};
ghost use Rattle.oca_tree.specs.Trees.{IsSoundValue};
ghost use Rattle.oca_tree.specs.Typed.{changed_by, held_set_to, value_changed_by};

use crate::marks::Marks;
use crate::object::{LockKind, Object, Value};
use oca_model::{Asked, Reading, Value as Setting};
use oca_types::{Peer, Text};

/// Sets what reads so to another value of its class; a value of another class sets nothing. It stands apart, so that a
/// state is set in place.
#[inline(never)]
fn set_any_reading(reading: &mut Reading, setting: Setting)
    ensures { reading.new ≡ reading_set_to reading.old setting }
{
    if let Some(new) = reading.with_value(setting) {
        *reading = new;
    }
}

/// Sets the value to another one of its class; a value of another class sets nothing.
#[inline(always)]
#[tactic(auto, unfolding(oca_model::specs::Settings::with_value))]
fn set_value(value: &mut Value, setting: Setting)
    ensures { value.new ≡ held_set_to value.old setting }
{
    match value {
        Value::Block => {}
        Value::Switch(switch) => {
            if let Setting::Switch(position) = setting {
                switch.position = position;
            }
        }
        Value::Reads(Reading::Mute(state)) => {
            if let Setting::Mute(new) = setting {
                *state = new;
            }
        }
        Value::Reads(Reading::Polarity(state)) => {
            if let Setting::Polarity(new) = setting {
                *state = new;
            }
        }
        Value::Reads(reading) => set_any_reading(reading, setting),
    }
}

/// Sets what a request sets of a value; any other leaves it. It stands apart, since names take 1 kB.
#[inline(never)]
#[tactic(auto, unfolding(oca_model::specs::HeldRequests::asked_by, crate::specs::Requests::asks_out_of_range, crate::specs::Trees::IsSoundValue))]
fn change_any_value(value: &mut Value, request: Asked<'_>)
    requires sound { IsSoundValue value.old }
    requires there { asks_out_of_range value.old (asked_by request) ≡ false }
    ensures { value.new ≡ value_changed_by value.old (asked_by request.entry) }
{
    match request {
        Asked::Set(setting) => set_value(value, setting),
        Asked::SetPositionName(position, name) => {
            if let Value::Switch(switch) = value {
                switch.names[usize::from(position)] = name.text();
            }
        }
        Asked::SetPositionNames(names) => {
            if let Value::Switch(switch) = value {
                switch.names = names.texts();
            }
        }
        Asked::SetPositionEnabled(position, truth) => {
            if let Value::Switch(switch) = value {
                switch.enableds[usize::from(position)] = truth;
            }
        }
        Asked::SetPositionEnableds(truths) => {
            if let Value::Switch(switch) = value {
                switch.enableds = truths;
            }
        }
        _ => {}
    }
}

/// Sets what a request sets of a value: at once where that is a value of its class.
#[inline(always)]
#[tactic(auto, unfolding(oca_model::specs::HeldRequests::asked_by, crate::specs::Requests::asks_out_of_range, crate::specs::Trees::IsSoundValue))]
fn change_value(value: &mut Value, request: Asked<'_>)
    requires sound { IsSoundValue value.old }
    requires there { asks_out_of_range value.old (asked_by request) ≡ false }
    ensures { value.new ≡ value_changed_by value.old (asked_by request.entry) }
{
    match request {
        Asked::Set(setting) => set_value(value, setting),
        other => change_any_value(value, other),
    }
}

/// Carries out what a request changes. `marks` count the locks of the tree that are held.
#[inline(always)]
#[tactic(auto, unfolding(oca_model::specs::HeldRequests::asked_by, crate::specs::Typed::changed_by))]
pub(crate) fn change(object: &mut Object, marks: &mut Marks, peer: Peer, request: Asked<'_>)
    requires sound { IsSoundValue object.old.value }
    requires range { asks_out_of_range object.old.value (asked_by request) ≡ false }
    requires room { marks.old.locks ≤ 4096 }
    requires counted { lock_of_one object.old ≤ marks.old.locks }
    ensures object { object.new ≡ changed_by object.old peer (asked_by request.entry) }
    ensures count { marks.new.locks + lock_of_one object.old ≡ marks.old.locks + lock_of_one object.new }
{
    match request {
        Asked::LockTotal => object.lock(marks, LockKind::Total, peer),
        Asked::LockReadonly => object.lock(marks, LockKind::Readonly, peer),
        Asked::Unlock => object.unlock(marks),
        Asked::SetEnabled(enabled) => object.enabled = enabled,
        Asked::SetLabel(label) => object.label = label.text(),
        other => change_value(&mut object.value, other),
    }
}

/// Says whether the object's hardware refuses to be changed.
pub(crate) fn fail(object: &mut Object, failing: bool)
    ensures { object.new ≡ record object.old { failing = failing } }
{
    object.failing = failing;
}

/// Gives the object a label.
#[tactic(auto, unfolding(crate::specs::Typed::changed_by))]
pub(crate) fn relabel(object: &mut Object, label: Text)
    ensures object { object.new ≡ changed_by object.old front (asked.SetLabel label) }
    ensures lock { lock_of_one object.new ≡ lock_of_one object.old }
{
    object.label = label;
}
