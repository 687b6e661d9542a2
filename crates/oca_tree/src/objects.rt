//! The objects of a tree: in order of adding, and found by their numbers.
ghost use Rattle.std.specs.Prelude.{◌≡◌, ◌<◌, ◌≤◌, ◌+◌, [], ◌∷◌, ◌++◌, length, slice_index_or, slice_set, is_some};
ghost use Rattle.std.specs.Prelude.{false, None, Some, IfOk, IfNone, IfSome, option_copied, vec_len, vec_capacity};
ghost use Rattle.std.specs.List.{position};
ghost use Rattle.indexmap.specs.IndexMap.{values, spare, index_map_len};
ghost use Rattle.oca_tree.specs.Objects.{has_number, object_of};
ghost use Rattle.oca_tree.specs.Locks.{released, lock_count};
ghost use Rattle.oca_model.specs.HeldRequests.{asked_by};
ghost use Rattle.oca_model.specs.declared.request.Request.TheVariants as asked;
ghost use Rattle.oca_tree.specs.Requests.{asks_out_of_range};
ghost use Rattle.oca_tree.specs.Settings.{front};
ghost use Rattle.oca_tree.specs.Typed.{changed_by};
ghost use Rattle.oca_tree.specs.Places.{places};
ghost use Rattle.oca_tree.specs.Trees.{IsTree};
ghost use Rattle.oca_tree.specs.PrivateObjects.{IsKeyed, IsMap, containers};
ghost use Rattle.oca_tree.specs.PrivateSteps.{listed_bytes};
ghost use Rattle.oca_tree.specs.declared.object.Object.{Object as Item};

use crate::change::{change, fail, relabel};
use crate::lengths::{Lengths, add_last, push_none};
use crate::marks::Marks;
use crate::object::Object;
use indexmap::IndexMap;
use oca_model::Asked;
use oca_types::{Ono, Peer, Text};
use std::alloc::{AllocError, Global};
use std::marker::Model;

/// Objects, each with the index of its container and with how many bytes the items take that are listed of it.
/// Contracts see the list of them in order of adding, and for how many there is room.
#[derive(Drop)]
pub(crate) struct Objects {
    map: IndexMap<Ono, Object>,
    /// Where the container of each object stands in the map; nothing for the root.
    containers: Vec<Option<usize>>,
    /// How many bytes are listed of what is in each object.
    lengths: Vec<Lengths>,
    /// How many objects fit without more memory.
    room: usize,
}

impl Model for Objects {
    ghost use Rattle.std.specs.Prelude.{◌≡◌, vec_len, vec_capacity};
    ghost use Rattle.indexmap.specs.IndexMap.{values};
    ghost use Rattle.oca_tree.specs.Objects.{Store};
    ghost use Rattle.oca_tree.specs.Places.{places};
    ghost use Rattle.oca_tree.specs.PrivateObjects.{IsMap, HasRoom, containers as containers_of};
    ghost use Rattle.oca_tree.specs.PrivateSteps.{lengths as lengths_of};

    ghost Value = { Store };

    ghost view = { λ o. record { room = o.room; list = values o.map } };

    ghost invariant = { λ o. IsMap o.map × HasRoom o.map (vec_len o.containers) (vec_capacity o.containers) o.room
        × (o.containers.items ≡ containers_of (places (values o.map)))
        × HasRoom o.map (vec_len o.lengths) (vec_capacity o.lengths) o.room
        × (o.lengths.items ≡ lengths_of (values o.map)) };
}

impl Objects {
    /// No objects yet, with the memory for so many. Refusal: where memory was refused.
    pub(crate) fn new(alloc: Global, room: usize) -> Result<Objects, AllocError>
        ensures { IfOk result (λ objects. objects ≡ record { room = room; list = [] }) }
    {
        let containers = Vec::with_capacity(alloc, room)?;
        let lengths = Vec::with_capacity(alloc, room)?;
        // A map makes room by the sizes of its table, up to twice what was asked for: an object takes 1.4 kB.
        let mut map = IndexMap::with_capacity(alloc, room)?;
        map.shrink_to(room);
        Ok(Objects {
            map,
            containers,
            lengths,
            room,
        })
    }

    /// The objects in order of adding.
    pub(crate) fn as_slice(&self) -> &[Object]
        ensures { result.now ≡ self.now.list }
    {
        self.map.values().as_slice()
    }

    /// How many objects there are.
    pub(crate) fn len(&self) -> usize
        ensures { result ≡ length self.now.list }
    {
        self.as_slice().len()
    }

    /// For how many objects there is room.
    pub(crate) fn room(&self) -> usize
        ensures { result ≡ self.now.room }
    {
        self.room
    }

    /// The object at this index, counted from 0 in order of adding.
    pub(crate) fn object_at(&self, index: usize) -> &Object
        requires { index < length self.now.list }
        ensures { result.now ≡ slice_index_or self.now.list index result.now }
    {
        let objects = self.as_slice();
        &objects[index]
    }

    /// The index of the container of the object at this index; nothing for the root.
    pub(crate) fn container_at(&self, index: usize) -> Option<usize>
        requires { index < length self.now.list }
        ensures { result ≡ slice_index_or (containers (places self.now.list)) index None }
    {
        let containers = self.containers.as_slice();
        containers[index]
    }

    /// How many bytes the items take that are listed of the object at this index: its members, or all that lie in it.
    pub(crate) fn listed_bytes_at(&self, index: usize, deep: bool) -> u32
        requires { index < length self.now.list }
        ensures { (d : Item) → result ≡ listed_bytes deep self.now.list (slice_index_or self.now.list index d).ono.0 }
    {
        let lengths = self.lengths.as_slice();
        lengths[index].of(deep)
    }

    /// The object with this number.
    pub(crate) fn find(&self, ono: Ono) -> Option<&Object>
        ensures { option_copied result ≡ object_of self.now.list ono.0 }
    {
        self.map.get(&ono)
    }

    /// The index of the object with this number, counted from 0 in order of adding.
    pub(crate) fn index_of(&self, ono: Ono) -> Option<usize>
        ensures { result ≡ position (has_number ono.0) self.now.list }
    {
        self.map.get_index_of(&ono)
    }

    /// Adds an object at the end.
    pub(crate) fn push(&mut self, object: Object)
        requires room { length self.old.list < self.old.room }
        requires free { object_of self.old.list object.ono.0 ≡ None }
        requires tree { IsTree (self.old.list ++ object ∷ []) }
        ensures { self.new ≡ record { room = self.old.room; list = self.old.list ++ object ∷ [] } }
    {
        let container = self.map.get_index_of(&object.container);
        push_index(&mut self.containers, container);
        push_none(&mut self.lengths);
        match self.map.insert(object.ono, object) {
            Ok(_) => {}
            Err(_) => unreachable!(),
        }
        add_last(
            self.map.values().as_slice(),
            self.containers.as_slice(),
            &mut self.lengths,
        );
    }

    /// Carries out what a request changes in the object at this index. `marks` count the locks that are held.
    #[inline(always)]
    pub(crate) fn change_at(&mut self, at: usize, marks: &mut Marks, peer: Peer, request: Asked<'_>)
        requires within { at < length self.old.list }
        requires tree { IsTree self.old.list }
        requires range { (d : Item) →
            asks_out_of_range (slice_index_or self.old.list at d).value (asked_by request) ≡ false }
        requires count { marks.old.locks ≡ lock_count self.old.list }
        ensures objects { (d : Item) →
            self.new.list
            ≡ slice_set self.old.list at
            (changed_by (slice_index_or self.old.list at d) peer (asked_by request.entry)) }
        ensures count { marks.new.locks ≡ lock_count self.new.list }
    {
        change(&mut self.map[at], marks, peer, request);
    }

    /// Gives the object at this index a label.
    pub(crate) fn relabel_at(&mut self, at: usize, label: Text)
        requires { at < length self.old.list }
        ensures objects { (d : Item) →
            self.new.list
            ≡ slice_set self.old.list at (changed_by (slice_index_or self.old.list at d) front (asked.SetLabel label)) }
        ensures count { lock_count self.new.list ≡ lock_count self.old.list }
    {
        relabel(&mut self.map[at], label);
    }

    /// Says whether the hardware of the object at this index refuses to be changed.
    pub(crate) fn fail_at(&mut self, at: usize, failing: bool)
        requires { at < length self.old.list }
        ensures objects { (d : Item) →
            self.new.list
            ≡ slice_set self.old.list at (record (slice_index_or self.old.list at d) { failing = failing }) }
        ensures count { lock_count self.new.list ≡ lock_count self.old.list }
    {
        fail(&mut self.map[at], failing);
    }

    /// Takes every lock of the peer off, and counts them no longer.
    pub(crate) fn release(&mut self, marks: &mut Marks, peer: Peer)
        requires { marks.old.locks ≡ lock_count self.old.list }
        ensures objects { self.new.list ≡ released self.old.list peer }
        ensures count { marks.new.locks ≡ lock_count self.new.list }
    {
        release_all(&mut self.map, marks, peer);
    }
}

/// Adds the index of a container, for which there is room.
fn push_index(containers: &mut Vec<Option<usize>>, container: Option<usize>)
    requires { vec_len containers.old < vec_capacity containers.old }
    ensures items { containers.new.items ≡ containers.old.items ++ container ∷ [] }
    ensures len { vec_len containers.new ≡ vec_len containers.old + 1 }
    ensures capacity { vec_capacity containers.old ≤ vec_capacity containers.new }
{
    match containers.push(container) {
        Ok(()) => {}
        Err(_) => unreachable!(),
    }
}

/// Takes every lock of the peer off, and counts them no longer.
fn release_all(map: &mut IndexMap<Ono, Object>, marks: &mut Marks, peer: Peer)
    requires map { IsMap map.old }
    requires count { marks.old.locks ≡ lock_count (values map.old) }
    ensures map { IsMap map.new }
    ensures spare { spare map.new ≡ spare map.old }
    ensures len { index_map_len map.new ≡ index_map_len map.old }
    ensures objects { values map.new ≡ released (values map.old) peer }
    ensures count { marks.new.locks ≡ lock_count (values map.new) }
{
    for at in 0..map.len() {
        map[at].release(marks, peer);
    }
}
