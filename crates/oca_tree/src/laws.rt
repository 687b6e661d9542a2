//! What the definitions of a tree say of one another.
ghost use Rattle.oca_tree.specs.Copies.{DescriptionMakesAgain};
ghost use Rattle.oca_tree.specs.SetRequests.{IsUnderstood, IsCarriedOut};
ghost use Rattle.oca_tree.specs.Settings.{AnyPeerSetsTheSame, EachSettingIsAValue, FrontSetsAsPeersDo};
ghost use Rattle.oca_tree.specs.Starts.{PlainAddsTheSame};
ghost use Rattle.oca_tree.specs.Trees.{DescendantsFollowChains};
ghost use Rattle.oca_tree.specs.TypedLaws.{AnswersAreRight, CommandsAreTyped, FailingRefusesWrites};
ghost use Rattle.oca_tree.specs.TypedLaws.{RefusedKeepsTree, SettingsAreRead};

use crate::tree::Tree;

/// Law: the descendants of a block, which GetMembersRecursive lists (OcaBlock, AES70-2), are exactly the objects from
/// which a chain of containers leads to this block. The *container* of an object is the block that contains the object.
/// A *chain* goes from an object to its container, from there to the next container, and so on. The law holds for the
/// tree `tree`, which can be any tree. The function states this law as its contract, and does nothing at run time.
pub fn law_of_descendants(tree: &Tree)
    ensures { DescendantsFollowChains tree.now }
{
    let _sound = tree.len();
}

/// Laws: a value that is set at the device's local front panel changes an object as a command of a peer does, for all
/// objects and commands. The *local front panel* is the device's own: [`Tree::set`](Tree::set) sets an object there.
/// The function states these laws as its contract, and does nothing at run time.
/// - A value changes an object in the same way, whichever peer sets the value.
/// - Each command that sets an object sets it to a value of the object's class.
///
/// The third law has these premises: a peer's command sets an object to a value of its class, no lock refuses the
/// command, and the object's hardware does not refuse changes. The conclusions are:
/// - The command changes the tree as `Tree::set` does with this value.
/// - `Tree::set` refuses the value exactly if the status of the command is not OK.
pub fn law_of_settings()
    ensures any_peer { AnyPeerSetsTheSame }
    ensures as_peers { FrontSetsAsPeersDo }
    ensures each { EachSettingIsAValue }
{}

/// Laws: a device carries out the request of [`set_request`](oca_model::set_request) for a value as its local front
/// panel would set this value (AES70-2). The *local front panel* is the device's own: [`Tree::set`](Tree::set) sets an
/// object there. The premise is that the request is sent to an object of the value's class. The function states these
/// laws as its contract, and does nothing at run time.
/// - The device understands the request as setting the object to exactly this value.
/// - The objects afterwards are those after `Tree::set` with this value, if no lock refuses the command and the
///   object's hardware does not refuse changes. If the value is out of range, the object is unchanged.
pub fn law_of_set_requests()
    ensures understood { IsUnderstood }
    ensures carried_out { IsCarriedOut }
{
    law_of_settings();
}

/// Law: adding an object with a plain [`Start`](crate::Start) is the same as adding the object without a `Start`. A
/// `Start` has the label and the enabled flags that were stored of an object. It is *plain* if the label is empty, the
/// object is enabled, and no flags of positions are given. The default of `Start` is plain. The function states this
/// law as its contract, and does nothing at run time. The same means two things:
/// - The added objects are the same.
/// - The refusals are the same.
pub fn law_of_starts()
    ensures { PlainAddsTheSame }
{}

/// Law: a copy of an object is the same object, except for two things. A *copy* is made by reading all that is listed
/// below of an object in one tree, and adding an object with it to another tree
/// ([`TreeBuilder::add_with`](crate::TreeBuilder::add_with)). The copy is not locked, and it is not marked as an object
/// whose hardware refuses changes ([`Tree::set_failing`](Tree::set_failing)), even if the original is. The function
/// states this law as its contract, and does nothing at run time. What must be read:
/// - The number, the container, the role and the class ([`Tree::object_at`](Tree::object_at)). The container is the
///   block that contains the object.
/// - Whether the object can be locked ([`is_lockable`](Tree::is_lockable)).
/// - The setting ([`setting_of`](Tree::setting_of)). An integer also needs its least and its greatest value, which the
///   same call returns. A switch also needs the names of its positions
///   ([`position_names_of`](Tree::position_names_of)).
/// - The label, whether the object is enabled, and the flags of a switch's positions ([`start_of`](Tree::start_of)).
pub fn law_of_copies()
    ensures { DescriptionMakesAgain }
{}

/// Laws: a command that a tree executes with the status OK does what its request says, and a command with another
/// status changes nothing (AES70-2). The laws hold for each tree, peer and command. A *request* is what a command asks
/// of one object: a method with its parameters ([`Request`](oca_model::Request)). The function states these laws as its
/// contract, and does nothing at run time.
/// - A command with the status OK made one request of one object. The object changed as the request says, and the
///   parameters of the response are the object's answer.
/// - A command with any other status changed nothing.
/// - A command that writes to an object whose hardware refuses changes ([`Tree::set_failing`](Tree::set_failing)) does
///   not get the status OK, and changed nothing.
/// - After a value of the object's class was set, reading returns this value, with the limits that the object had.
/// - An answer that fits into a response is an answer of the object's class and of the kind of its method. The premise
///   is that texts and numbers are of their types, since a contract has them of any size. [`Tree::len`](Tree::len)
///   ensures this of each tree.
pub fn law_of_typed_requests()
    ensures did { CommandsAreTyped }
    ensures refused { RefusedKeepsTree }
    ensures failing { FailingRefusesWrites }
    ensures settings { SettingsAreRead }
    ensures right { AnswersAreRight }
{}
