//! Where objects stand: found by their number, and the chain of containers above them.
ghost use Rattle.std.specs.Prelude.{◌≡◌, ◌<◌, ◌≤◌, length, slice_index_or, is_some, IfNone, IfSome, IsTrue, Some, None};
ghost use Rattle.std.specs.List.{position};
ghost use Rattle.oca_tree.specs.Objects.{has_number, object_of};
ghost use Rattle.oca_tree.specs.declared.object.Object.{Object};
ghost use Rattle.oca_tree.specs.Places.{places, is_block, depth};
ghost use Rattle.oca_tree.specs.Trees.{IsTree};

use crate::marks::Marks;
use crate::objects::Objects;
use oca_types::Ono;

/// As `index_of` of `Objects`, with what follows for the object there: the index of the object with this number,
/// counted from 0 in order of adding.
pub(crate) fn index_of(objects: &Objects, ono: Ono) -> Option<usize>
    ensures index { result ≡ position (has_number ono.0) objects.now.list }
    ensures within { IfSome result (λ at. at < length objects.now.list) }
    ensures absent { IfNone result (object_of objects.now.list ono.0 ≡ None) }
    ensures found { IfSome result (λ at. (d : Object) →
        object_of objects.now.list ono.0 ≡ Some (slice_index_or objects.now.list at d)) }
{
    objects.index_of(ono)
}

/// As `index_of`. The object that was found last is looked at first, since commands often come in runs for one object;
/// the index that is found is marked.
pub(crate) fn index_from(objects: &Objects, marks: &mut Marks, ono: Ono) -> Option<usize>
    requires { IsTree objects.now.list }
    ensures index { result ≡ position (has_number ono.0) objects.now.list }
    ensures within { IfSome result (λ at. at < length objects.now.list) }
    ensures absent { IfNone result (object_of objects.now.list ono.0 ≡ None) }
    ensures found { IfSome result (λ at. (d : Object) →
        object_of objects.now.list ono.0 ≡ Some (slice_index_or objects.now.list at d)) }
    ensures locks { marks.new.locks ≡ marks.old.locks }
{
    search_from(objects, marks, ono)
}

/// Looks for the number where one was found last, and then among all, and marks where it was found: an index that is
/// read in one place is not tested again.
fn search_from(objects: &Objects, marks: &mut Marks, ono: Ono) -> Option<usize>
    requires { IsTree objects.now.list }
    ensures index { result ≡ position (has_number ono.0) objects.now.list }
    ensures locks { marks.new.locks ≡ marks.old.locks }
{
    if !is_at(objects, marks.recent, ono) {
        marks.recent = objects.index_of(ono)?;
    }
    Some(marks.recent)
}

/// Whether the object at this index has the number. If so, it is the first that has it.
#[tactic(auto, using(crate::proofs::Containers::index_itself))]
fn is_at(objects: &Objects, at: usize, ono: Ono) -> bool
    requires { IsTree objects.now.list }
    ensures { IsTrue result → position (has_number ono.0) objects.now.list ≡ Some at }
{
    at < objects.len() && objects.object_at(at).ono == ono
}

/// Whether there is an object with this number.
pub(crate) fn contains(objects: &Objects, ono: Ono) -> bool
    ensures { result ≡ is_some (object_of objects.now.list ono.0) }
{
    objects.find(ono).is_some()
}

/// How deep the object at this index stands, the root at depth 1.
fn depth(objects: &Objects, at: usize) -> usize
    requires tree { IsTree objects.now.list }
    requires within { at < length objects.now.list }
    ensures { (d : Object) → result ≡ depth (places objects.now.list) (slice_index_or objects.now.list at d).ono.0 }
{
    let mut depth = 1;
    let mut current = at;
    for _ in 0..objects.len() {
        let Some(container) = objects.container_at(current) else {
            return depth;
        };
        depth += 1;
        current = container;
    }
    depth
}

/// How deep the block with this number stands; nothing where it is not there.
pub(crate) fn block_depth(objects: &Objects, ono: Ono) -> Option<usize>
    requires { IsTree objects.now.list }
    ensures block { is_some result ≡ is_block (places objects.now.list) ono.0 }
    ensures depth { IfSome result (λ n. n ≡ depth (places objects.now.list) ono.0) }
{
    let Some(at) = index_of(objects, ono) else {
        return None;
    };
    let object = objects.object_at(at);
    if object.value.is_block() {
        Some(depth(objects, at))
    } else {
        None
    }
}
