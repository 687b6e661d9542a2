//! How many bytes the items take of answers that list what is in a block, so that an answer that is too long is refused
//! at once.
ghost use Rattle.std.specs.Prelude.{◌≡◌, ◌<◌, ◌≤◌, ◌+◌, ℕ, [], ◌∷◌, ◌++◌, length, vec_len, vec_capacity};
ghost use Rattle.std.specs.Int.{w32};
ghost use Rattle.oca_types.specs.Numbers.{unsigned_encoding};
ghost use Rattle.oca_types.specs.Classes.{class_identification_encoding};
ghost use Rattle.oca_tree.specs.Places.{places};
ghost use Rattle.oca_tree.specs.Trees.{IsTree};
ghost use Rattle.oca_tree.specs.PrivateObjects.{containers as containers_of};
ghost use Rattle.oca_tree.specs.PrivateSteps.{lengths as lengths_of, length_in, nothing_listed, LastIsNew};

use crate::object::Object;
use oca_types::Class;

/// How many bytes the items take that are listed of an object: of its members, and of all that lie in it however deep.
#[derive(Clone, Copy)]
pub(crate) struct Lengths {
    members: u32,
    descendants: u32,
}

impl Lengths {
    /// Those of its members, or of all that lie in it.
    pub(crate) fn of(self, deep: bool) -> u32
        ensures { result ≡ length_in self deep }
    {
        if deep { self.descendants } else { self.members }
    }
}

/// Nothing is listed yet of an object that was added; there is room for that.
pub(crate) fn push_none(lengths: &mut Vec<Lengths>)
    requires { vec_len lengths.old < vec_capacity lengths.old }
    ensures items { lengths.new.items ≡ lengths.old.items ++ nothing_listed ∷ [] }
    ensures len { vec_len lengths.new ≡ vec_len lengths.old + 1 }
    ensures capacity { vec_capacity lengths.old ≤ vec_capacity lengths.new }
{
    let none = Lengths {
        members: 0,
        descendants: 0,
    };
    match lengths.push(none) {
        Ok(()) => {}
        Err(_) => unreachable!(),
    }
}

/// How many bytes an object's number and class take.
fn item_bytes(class: Class) -> u32
    ensures value { (n : ℕ) → result ≡ length (unsigned_encoding w32 n ++ class_identification_encoding class) }
    ensures few { result ≤ 18 }
{
    match class {
        Class::Block => 14,
        Class::Mute | Class::Polarity | Class::Switch => 16,
        _ => 18,
    }
}

/// Adds the last object to what is listed of its container, and of all blocks that it lies in.
pub(crate) fn add_last(objects: &[Object], containers: &[Option<usize>], lengths: &mut Vec<Lengths>)
    requires tree { IsTree objects.now }
    requires containers { containers.now ≡ containers_of (places objects.now) }
    requires new { LastIsNew objects.now lengths.old.items }
    ensures items { lengths.new.items ≡ lengths_of objects.now }
    ensures len { vec_len lengths.new ≡ vec_len lengths.old }
    ensures capacity { vec_capacity lengths.new ≡ vec_capacity lengths.old }
{
    let last = objects.len() - 1;
    let bytes = item_bytes(objects[last].class());
    if let Some(container) = containers[last] {
        lengths[container].members += bytes;
    }
    let mut current = last;
    for _ in 0..objects.len() {
        let Some(above) = containers[current] else {
            return;
        };
        lengths[above].descendants += bytes + 4;
        current = above;
    }
}
