//! Whether objects are the same but for their locks and for whose hardware refuses.
ghost use Rattle.std.specs.Prelude.{◌≡◌, IsTrue};
ghost use Rattle.oca_tree.specs.Copies.{unlocked, all_unlocked};

use crate::object::{Object, Switch, Value};
use arrayvec::ArrayVec;
use oca_model::{Reading, with_integers};
use oca_types::Text;

/// Whether two texts are the same.
fn same_text(a: &Text, b: &Text) -> bool
    ensures { IsTrue result → (a.now ≡ b.now) }
{
    a.as_str().as_bytes() == b.as_str().as_bytes()
}

/// Whether texts are the same, in order.
fn same_texts(a: &[Text], b: &[Text]) -> bool
    ensures { IsTrue result → (a.now ≡ b.now) }
{
    let mut left = a;
    let mut right = b;
    while let Some((first, more)) = left.split_first() {
        let Some((other, rest)) = right.split_first() else {
            return false;
        };
        if !same_text(first, other) {
            return false;
        }
        left = more;
        right = rest;
    }
    right.is_empty()
}

/// Whether two truths are the same.
fn same_truth(a: bool, b: bool) -> bool
    ensures { IsTrue result → a ≡ b }
{
    match (a, b) {
        (true, true) | (false, false) => true,
        _ => false,
    }
}

/// Whether truths are the same, in order.
fn same_truths(a: &[bool], b: &[bool]) -> bool
    ensures { IsTrue result → (a.now ≡ b.now) }
{
    let mut left = a;
    let mut right = b;
    while let Some((first, more)) = left.split_first() {
        let Some((other, rest)) = right.split_first() else {
            return false;
        };
        if !same_truth(*first, *other) {
            return false;
        }
        left = more;
        right = rest;
    }
    right.is_empty()
}

/// Whether the names of positions are the same.
#[tactic(auto, using(crate::proofs::Copying::same_lists))]
fn same_names(a: &ArrayVec<Text, 16>, b: &ArrayVec<Text, 16>) -> bool
    ensures { IsTrue result → a.now ≡ b.now }
{
    same_texts(a.as_slice(), b.as_slice())
}

/// Whether the flags of positions are the same.
#[tactic(auto, using(crate::proofs::Copying::same_bools))]
fn same_flags(a: &ArrayVec<bool, 16>, b: &ArrayVec<bool, 16>) -> bool
    ensures { IsTrue result → a.now ≡ b.now }
{
    same_truths(a.as_slice(), b.as_slice())
}

/// Whether two switches have the same positions and stand at the same one.
fn same_switch(a: &Switch, b: &Switch) -> bool
    ensures { IsTrue result → (a.now ≡ b.now) }
{
    a.position == b.position
        && same_flags(&a.enableds, &b.enableds)
        && same_names(&a.names, &b.names)
}

/// Whether two readings are the same.
fn same_reading(a: Reading, b: Reading) -> bool
    ensures { IsTrue result → a ≡ b }
{
    macro_rules! same {
        ($($integer:ident $type:ty),*) => {
            match (a, b) {
                (Reading::Mute(state), Reading::Mute(other)) => state == other,
                (Reading::Polarity(state), Reading::Polarity(other)) => state == other,
                (Reading::Switch(ranged), Reading::Switch(other)) => ranged == other,
                (Reading::Boolean(truth), Reading::Boolean(other)) => truth == other,
                $((Reading::$integer(ranged), Reading::$integer(other)) => ranged == other,)*
                _ => false,
            }
        };
    }
    with_integers!(same)
}

/// Whether two values are the same.
fn same_value(a: &Value, b: &Value) -> bool
    ensures { IsTrue result → (a.now ≡ b.now) }
{
    match (a, b) {
        (Value::Block, Value::Block) => true,
        (Value::Switch(switch), Value::Switch(other)) => same_switch(switch, other),
        (Value::Reads(reading), Value::Reads(other)) => same_reading(*reading, *other),
        _ => false,
    }
}

/// Whether two objects are the same but for their locks and for whether their hardware refuses.
fn same_object(a: &Object, b: &Object) -> bool
    ensures { IsTrue result → (unlocked a.now ≡ unlocked b.now) }
{
    a.ono == b.ono
        && a.container == b.container
        && a.lockable == b.lockable
        && a.enabled == b.enabled
        && same_text(&a.role, &b.role)
        && same_text(&a.label, &b.label)
        && same_value(&a.value, &b.value)
}

/// Whether objects are the same but for their locks and for whose hardware refuses, in order.
pub(crate) fn same_objects(a: &[Object], b: &[Object]) -> bool
    ensures { IsTrue result → (all_unlocked a.now ≡ all_unlocked b.now) }
{
    let mut left = a;
    let mut right = b;
    while let Some((first, more)) = left.split_first() {
        let Some((other, rest)) = right.split_first() else {
            return false;
        };
        if !same_object(first, other) {
            return false;
        }
        left = more;
        right = rest;
    }
    right.is_empty()
}
