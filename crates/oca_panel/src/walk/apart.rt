//! The places of a walk one by one, for a walk whose commands are in flight beside one another.
use super::{MOST_PLACES, Place, Walk, is_in, put_first};
use oca_types::{NoMemory, Ono};

impl Walk {
    ghost use Rattle.std.specs.Prelude.{◌≡◌, ◌++◌, IfErr, IfOk};
    ghost use Rattle.oca_panel.specs.Walks.{places_of};
    ghost use Rattle.oca_panel.specs.WalksApart.{LosesNext, PutsLast, TakesPlace};

    /// Takes the next place of the walk, for a program that asks the objects itself. Returns the place, and `true` if
    /// its object was visited before. The object counts as visited from then on. Nothing is asked of the device. The
    /// program asks the object, and gives the members of a block to [`put_members`](Walk::put_members) before it takes
    /// the next place.
    ///
    /// `None` if no place is left, or 4,096 places were visited: then nothing is changed. The call takes memory for the
    /// place. Refusal: `NoMemory` if that memory is refused. The place is then left out, and its object does not count
    /// as visited. All other places still wait.
    pub fn take_place(&mut self) -> Result<Option<(Place, bool)>, NoMemory>
        ensures takes { IfOk result (λ taken. TakesPlace self.old taken self.new) }
        ensures refused { IfErr result (λ why. LosesNext self.old self.new) }
    {
        if self.visited.len() >= MOST_PLACES {
            return Ok(None);
        }
        let Some(place) = self.waiting.pop() else {
            return Ok(None);
        };
        let again = is_in(self.visited.as_slice(), place.ono);
        match self.visited.push(place.ono) {
            Ok(()) => Ok(Some((place, again))),
            Err(_) => Err(NoMemory),
        }
    }

    /// Adds the members of the block `container` to the places of the walk, before all others and in their order.
    /// `members` are the object numbers that the block listed, any number of them. Nothing is asked of the device, and
    /// the call does not check that the walk visited the block. [`take_place`](Walk::take_place) returns these places
    /// next.
    ///
    /// The call takes memory for each place. Refusal: `NoMemory` if memory is refused for one of the members. Then only
    /// the members behind that one are added, before all other places. What was visited stays.
    pub fn put_members(&mut self, container: Ono, members: &[u32]) -> Result<(), NoMemory>
        ensures puts { IfOk result
            (λ u. self.new ≡ record self.old { waiting = self.old.waiting ++ places_of container members.now }) }
        ensures refused { IfErr result (λ why. PutsLast container members.now self.old self.new) }
    {
        put_first(container, members, &mut self.waiting)
    }
}
