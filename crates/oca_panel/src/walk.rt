//! A walk through the objects of a device.
ghost use Rattle.std.specs.Prelude.{◌≡◌, ◌++◌, IfErr, IfOk};
ghost use Rattle.oca_model.specs.Members.{class_with};
ghost use Rattle.oca_panel.specs.Outcomes.{on_ok};
ghost use Rattle.oca_panel.specs.Walks.{Describes, Finds, FindsObject, FindsRefused, ListsRefused, PutsLastMembers};
ghost use Rattle.oca_panel.specs.Walks.{RefusedNext, RefusedPlace, is_block_class, is_visited, parts_of, places_of};

use crate::panel::Panel;
use crate::trouble::Trouble;
use oca_model::{ClassFields, class_with};
use oca_net::End;
use oca_types::{Class, NoMemory, Ono, Text};
use std::alloc::Global;
use std::fmt;
use std::marker::Model;

mod apart;

/// The number of the root block, 100 (AES70-2). Every device has this object.
pub const ROOT: Ono = Ono(100);

/// The most places that a [`Walk`] visits: 4,096, the most objects that a device of this profile has.
pub const MOST_PLACES: usize = 4096;

/// A place of a walk: an object that a block lists, and that block.
#[derive(Clone, Copy, Debug, Default, PartialEq, Eq)]
pub struct Place {
    /// The number of the object.
    pub ono: Ono,
    /// The number of the block that lists it; 0 for the root.
    pub container: Ono,
}

/// What a device answered about an object: its class and its role.
#[derive(Debug, Drop)]
pub struct Description {
    /// The fields of its class identifier: at most 16 (AES70-2, OcaClassID).
    pub fields: ClassFields,
    /// Its role: 0 to 64 bytes of UTF-8 (AES70-2, GetRole of OcaRoot).
    pub role: Text,
}

/// What a walk found at a place.
#[derive(Debug, Drop)]
pub enum Found {
    /// An object that is no block of this profile.
    Object(Description),
    /// A block. `Ok` if its members are visited next, otherwise the reason why they were not read.
    Block(Description, Result<(), Trouble>),
    /// An object whose class or role was not read, and why.
    Undescribed(Trouble),
    /// An object that was visited before: nothing was asked.
    Again,
}

/// A place that a walk visited, and what was found there.
#[derive(Debug, Drop)]
pub struct Visit {
    /// The object, and the block that lists it.
    pub place: Place,
    /// What the device answered about the object.
    pub found: Found,
}

/// A walk through the objects of a device, from the root block on: after each block its members, in their order. A
/// *place* is an object and the block that lists it as a member ([`Place`]): an object that two blocks list has two
/// places. The walk asks for the class and the role of each object and the members of each block, once, and sets
/// nothing. It visits at most 4,096 places.
///
/// ```
/// let mut walk = Walk::new(rt.alloc())?;
/// // ...
/// for _place in 0..MOST_PLACES {
///     let Some(visit) = walk.next(panel)? else {
///         return Ok(());
///     };
///     print_found(rt, panel, visit.place.ono, &visit.found)?;
/// }
/// ```
#[derive(Drop)]
pub struct Walk {
    waiting: Vec<Place>,
    visited: Vec<Ono>,
}

impl Model for Walk {
    ghost use Rattle.oca_panel.specs.Walks.{WalkState};

    ghost Value = { WalkState };

    ghost view = { λ w. record { waiting = w.waiting.items; visited = w.visited.items } };
}

impl fmt::Debug for Walk {
    /// How many objects were asked, and how many are waiting to be.
    fn fmt<W: fmt::Write>(&self, f: &mut fmt::Formatter<W>) -> fmt::Result {
        f.debug_struct("Walk")
            .field("visited", &self.visited.len())
            .field("waiting", &self.waiting.len())
            .finish()
    }
}

impl Walk {
    ghost use Rattle.std.specs.Prelude.{◌≡◌, length, nat_lt, IfOk};
    ghost use Rattle.oca_panel.specs.Walks.{StepsTo, StepsToPlace, begun_walk};

    /// Makes a walk whose first place is the root block (number 100). A *place* is an object and the block that lists
    /// it. Nothing is asked of the device. The call takes from `alloc` memory for one place. The only refusal is
    /// `NoMemory` if that memory is refused.
    pub fn new(alloc: Global) -> Result<Walk, NoMemory>
        ensures { IfOk result (λ walk. walk ≡ begun_walk) }
    {
        let mut waiting = Vec::new(alloc);
        let root = Place {
            ono: ROOT,
            container: Ono(0),
        };
        if waiting.push(root).is_err() {
            return Err(NoMemory);
        }
        Ok(Walk {
            waiting,
            visited: Vec::new(alloc),
        })
    }

    /// Visits the next place of the walk: asks its object for its class, then for its role, and a block then for its
    /// members. The members are visited next. Returns what was found. The call waits for each answer for at most the
    /// panel's `wait` milliseconds. The commands change no object. If a question gets no usable answer, the [`Visit`]
    /// has the reason instead: the object's other questions are not asked then, and members that were not read are not
    /// visited from this place. The next call goes on with the next place. An object that was visited before is not
    /// asked ([`Found::Again`]).
    ///
    /// `None` if no place is left, or 4,096 places were visited: then nothing is asked or changed. The call takes
    /// memory for the places.
    ///
    /// Refusal: `NoMemory` if memory is refused. The place is then left out. If memory for the place was refused,
    /// nothing was asked, and its object does not count as visited. If memory for a member of a block was refused, the
    /// block was asked, and counts as visited. Only the members behind that one are visited next. All other places
    /// still wait.
    pub fn next<E: End>(&mut self, panel: &mut Panel<E>) -> Result<Option<Visit>, NoMemory>
        ensures steps { IfOk result (λ found. StepsTo self.old panel.old panel.new found self.new) }
        ensures refused { IfErr result (λ why. RefusedNext self.old panel.old panel.new self.new) }
    {
        let Some((place, again)) = self.take_place()? else {
            return Ok(None);
        };
        let found = find(panel, place.ono, again, &mut self.waiting)?;
        Ok(Some(Visit { place, found }))
    }

    /// Visits the next place of the walk as [`next`](Walk::next) does, with the same commands, results and refusal, but
    /// asks its object even if it was visited before. A block that contains itself is visited until 4,096 places were
    /// visited.
    pub fn next_place<E: End>(&mut self, panel: &mut Panel<E>) -> Result<Option<Visit>, NoMemory>
        ensures steps { IfOk result (λ found. StepsToPlace self.old panel.old panel.new found self.new) }
        ensures refused { IfErr result (λ why. RefusedPlace self.old panel.old panel.new self.new) }
    {
        let Some((place, _)) = self.take_place()? else {
            return Ok(None);
        };
        let found = find(panel, place.ono, false, &mut self.waiting)?;
        Ok(Some(Visit { place, found }))
    }

    /// Whether places are left to visit. `true` for a new walk, whose root is not visited yet. `false` once all were
    /// visited. It stays `true` after a walk that ended at 4,096 places and had more.
    pub fn is_unfinished(&self) -> bool
        ensures { result ≡ nat_lt 0 (length self.now.waiting) }
    {
        !self.waiting.is_empty()
    }
}

/// Whether the object is one of these.
fn is_in(visited: &[Ono], ono: Ono) -> bool
    ensures { result ≡ is_visited ono visited.now }
{
    visited.iter().any(|other| other.0 == ono.0)
}

/// Asks an object what it is, and a block for its members, which are put before all that wait; one that was visited
/// before is asked nothing.
fn find<E: End>(
    panel: &mut Panel<E>,
    ono: Ono,
    again: bool,
    waiting: &mut Vec<Place>,
) -> Result<Found, NoMemory>
    ensures finds { IfOk result
        (λ found. Finds again ono waiting.old.items panel.old panel.new found waiting.new.items) }
    ensures refused { IfErr result
        (λ why. FindsRefused again ono waiting.old.items panel.old panel.new waiting.new.items) }
{
    if again {
        return Ok(Found::Again);
    }
    match describe(panel, ono) {
        Ok(description) => find_in(panel, ono, description, waiting),
        Err(trouble) => Ok(Found::Undescribed(trouble)),
    }
}

/// Asks an object for its class and its role.
fn describe<E: End>(panel: &mut Panel<E>, ono: Ono) -> Result<Description, Trouble>
    ensures { Describes ono.0 panel.old panel.new (on_ok parts_of result) }
{
    match panel.class_fields(ono) {
        Ok(fields) => match panel.role(ono) {
            Ok(role) => Ok(Description { fields, role }),
            Err(trouble) => Err(trouble),
        },
        Err(trouble) => Err(trouble),
    }
}

/// Whether these are the fields of a block's class identifier.
fn are_of_block(fields: &[u16]) -> bool
    ensures { result ≡ is_block_class (class_with fields.now) }
{
    match class_with(fields) {
        Some(Class::Block) => true,
        _ => false,
    }
}

/// Asks a block for its members, which are put before all that wait.
fn find_in<E: End>(
    panel: &mut Panel<E>,
    ono: Ono,
    description: Description,
    waiting: &mut Vec<Place>,
) -> Result<Found, NoMemory>
    ensures finds { IfOk result
        (λ found. FindsObject (is_block_class (class_with description.fields.items)) description ono waiting.old.items
        panel.old panel.new found waiting.new.items) }
    ensures refused { IfErr result
        (λ why. ListsRefused description ono waiting.old.items panel.old panel.new waiting.new.items) }
{
    if !are_of_block(description.fields.as_slice()) {
        return Ok(Found::Object(description));
    }
    match panel.members(ono) {
        Ok(members) => match put_first(ono, members.as_slice(), waiting) {
            Ok(()) => Ok(Found::Block(description, Ok(()))),
            Err(NoMemory) => Err(NoMemory),
        },
        Err(trouble) => Ok(Found::Block(description, Err(trouble))),
    }
}

/// Puts members before all that wait, in their order: the last place is visited first.
fn put_first(container: Ono, members: &[u32], waiting: &mut Vec<Place>) -> Result<(), NoMemory>
    ensures puts { IfOk result (λ u. waiting.new.items ≡ waiting.old.items ++ places_of container members.now) }
    ensures refused { IfErr result (λ why. PutsLastMembers container members.now waiting.old.items waiting.new.items) }
{
    let [first, rest @ ..] = members else {
        return Ok(());
    };
    put_first(container, rest, waiting)?;
    let place = Place {
        ono: Ono(*first),
        container,
    };
    match waiting.push(place) {
        Ok(()) => Ok(()),
        Err(_) => Err(NoMemory),
    }
}
