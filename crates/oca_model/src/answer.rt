//! What is answered to a request: for a device to put, for a panel to read.
ghost use Rattle.std.specs.Prelude.{◌≡◌};
ghost use Rattle.std.specs.Option.{option_map};
ghost use Rattle.oca_types.specs.Numbers.{bool_encoding};
ghost use Rattle.oca_types.specs.Putting.{Puts};
ghost use Rattle.oca_types.specs.Reading.{text_at};
ghost use Rattle.oca_types.specs.Texts.{text_encoding};
ghost use Rattle.oca_model.specs.Lists.{list_encoding};
ghost use Rattle.oca_model.specs.Parameters.{whole};
ghost use Rattle.oca_model.specs.Answers.{shape_of, answer_count, answer_encoding, answer_in, switch_names_in};
ghost use Rattle.oca_model.specs.Answers.{shaped_in};

use crate::item::Item;
use crate::list::{put_list, read_list};
use crate::member::{Descendant, Member, whole_class};
use crate::parameters::{whole, whole_field};
use crate::reading::Reading;
use crate::request::{Flags, Names};
use arrayvec::ArrayVec;
use oca_types::{
    Class, Method, Ono, Params, PutFault, Text, put_class_identification, put_text, put_u32,
};

/// The members of a block, in the block's order: from 0 to 181. A response has no room for more.
pub type Members = ArrayVec<Member, 181>;

/// The members of a block, their members, and so on: from 0 to 120 objects. A response has no room for more.
pub type Descendants = ArrayVec<Descendant, 120>;

/// The answer to a request that a device carried out (AES70-2): the parameters of the response, with one variant for
/// each kind of answer.
#[derive(Debug, Drop)]
pub enum Answer {
    /// No parameters: the answer of each method that sets, locks or unlocks.
    Done,
    /// A Boolean: whether the object can be locked, or whether the object or a position is enabled.
    Truth(bool),
    /// A text of at most 64 bytes: a role, a label or a position's name.
    Text(Text),
    /// The number of the block that contains the object, 0 for the root.
    Owner(Ono),
    /// The setting of the object. A switch or an integer has its limits too.
    Reading(Reading),
    /// The names of all positions of a switch, in order.
    Names(Names),
    /// For each position of a switch, in order, whether the position is enabled.
    Flags(Flags),
    /// The class of the object.
    Class(Class),
    /// The members of a block, in order.
    Members(Members),
    /// The members of a block, their members, and so on, in order.
    Descendants(Descendants),
}

/// The kind of answer that a method has: one variant for each variant of [`Answer`].
#[derive(Clone, Copy, Debug, PartialEq, Eq)]
pub enum Shape {
    /// [`Answer::Done`].
    Done,
    /// [`Answer::Truth`].
    Truth,
    /// [`Answer::Text`].
    Text,
    /// [`Answer::Owner`].
    Owner,
    /// [`Answer::Reading`].
    Reading,
    /// [`Answer::Names`].
    Names,
    /// [`Answer::Flags`].
    Flags,
    /// [`Answer::Class`].
    Class,
    /// [`Answer::Members`].
    Members,
    /// [`Answer::Descendants`].
    Descendants,
}

/// Returns the kind of answer that the method has, by which [`Answer::read`] reads an answer (AES70-2). The result is:
/// - `Truth` for GetLockable, GetEnabled and GetPositionEnabled, and `Text` for GetRole, GetLabel and GetPositionName.
/// - `Reading` for GetState, GetPosition and GetSetting, and `Owner` for GetOwner.
/// - `Names` for GetPositionNames, `Flags` for GetPositionEnableds, and `Class` for GetClassIdentification.
/// - `Members` for GetMembers, and `Descendants` for GetMembersRecursive.
/// - `Done` for all other methods, which set, lock or unlock: their answer has no parameters.
pub fn shape_of(method: Method) -> Shape
    ensures { result ≡ shape_of method }
{
    match method {
        Method::GetLockable | Method::GetEnabled | Method::GetPositionEnabled => Shape::Truth,
        Method::GetRole | Method::GetLabel | Method::GetPositionName => Shape::Text,
        Method::GetOwner => Shape::Owner,
        Method::GetState | Method::GetPosition | Method::GetSetting => Shape::Reading,
        Method::GetPositionNames => Shape::Names,
        Method::GetPositionEnableds => Shape::Flags,
        Method::GetClassIdentification => Shape::Class,
        Method::GetMembers => Shape::Members,
        Method::GetMembersRecursive => Shape::Descendants,
        _ => Shape::Done,
    }
}

/// Reads the text in `params`, the parameters of an answer to GetRole, GetLabel or GetPositionName (AES70-2). The text
/// has from 0 to 64 bytes. The result is `None` if `params` is not exactly one OcaString of at most 64 bytes of UTF-8.
pub fn read_text(params: &[u8]) -> Option<Text>
    ensures { result ≡ whole (text_at params.now) }
{
    whole(params)
}

/// Reads the position names in `params`, the parameters of an answer to GetPositionNames (OcaSwitch, AES70-2). The
/// names are in the order of the positions: from 0 to 16 names, each of at most 64 bytes. The result is `None` if
/// `params` is not exactly such an answer, or has more than 16 names, or has a name of more than 64 bytes.
pub fn read_names(params: &[u8]) -> Option<Names>
    ensures { option_map (λ v. v.items) result ≡ switch_names_in params.now }
{
    read_list(params)
}

/// Appends the names of a switch's positions to the parameters, as an OcaList of OcaStrings (AES70-3): the number of
/// names as a Uint16, then each name. There are from 0 to 16 names, each of at most 64 bytes. The only refusal is
/// `Full`, if the parameters would have more than 1,452 bytes in all. Then a part of the names may have been appended,
/// so discard the parameters.
pub fn put_names(params: &mut Params, names: &Names) -> Result<(), PutFault>
    ensures { Puts result params.old.items params.new.items (list_encoding text_encoding names.now.items) }
{
    put_list(params, names.as_slice())
}

/// Appends the enabled flags of a switch's positions to the parameters, as an OcaList of OcaBooleans (AES70-3): the
/// number of flags as a Uint16, then each flag as a byte 0 or 1. There are from 0 to 16 flags, in the order of the
/// positions. The only refusal is `Full`, if the parameters would have more than 1,452 bytes in all. Then a part of the
/// flags may have been appended, so discard the parameters.
pub fn put_flags(params: &mut Params, flags: &Flags) -> Result<(), PutFault>
    ensures { Puts result params.old.items params.new.items (list_encoding bool_encoding flags.now.items) }
{
    put_list(params, flags.as_slice())
}

/// The answer of this kind that the parameters are. Nothing where they are no such answer.
fn shaped(shape: Shape, class: Class, params: &[u8]) -> Option<Answer>
    ensures { result ≡ shaped_in shape class params.now }
{
    match shape {
        Shape::Done if params.is_empty() => Some(Answer::Done),
        Shape::Truth => whole(params).map(Answer::Truth),
        Shape::Text => read_text(params).map(Answer::Text),
        Shape::Owner => Some(Answer::Owner(Ono(whole_field(params)?))),
        Shape::Reading => Reading::read(class, params).map(Answer::Reading),
        Shape::Names => Some(Answer::Names(read_list(params)?)),
        Shape::Flags => Some(Answer::Flags(read_list(params)?)),
        Shape::Class => whole_class(params).map(Answer::Class),
        Shape::Members => Some(Answer::Members(read_list(params)?)),
        Shape::Descendants => Some(Answer::Descendants(read_list(params)?)),
        Shape::Done => None,
    }
}

impl Answer {
    /// Returns the number of parameters of the answer, which is ParamCount of the response (AES70-3). The result is 0
    /// for `Done`, 3 for the reading of a switch or of an integer, and 1 for any other answer.
    pub fn count(&self) -> u8
        ensures { result ≡ answer_count self.now }
    {
        match self {
            Answer::Done => 0,
            Answer::Truth(_)
            | Answer::Text(_)
            | Answer::Owner(_)
            | Answer::Names(_)
            | Answer::Flags(_)
            | Answer::Class(_)
            | Answer::Members(_)
            | Answer::Descendants(_) => 1,
            Answer::Reading(reading) => reading.count(),
        }
    }

    /// Appends the parameters of the answer to `params` (AES70-3). [`Answer::count`] returns how many they are; `Done`
    /// appends nothing. The only refusal is `Full`, if the parameters would have more than 1,452 bytes in all. Then a
    /// part of the answer may have been appended, so discard the parameters. Of a member whose class is `None` only the
    /// numbers are appended, which is no encoding of AES70-3.
    #[tactic(auto, unfolding(crate::specs::Answers::answer_encoding))]
    pub fn put(&self, params: &mut Params) -> Result<(), PutFault>
        ensures { Puts result params.old.items params.new.items (answer_encoding self.now) }
    {
        match self {
            Answer::Done => Ok(()),
            Answer::Truth(truth) => truth.put_item(params),
            Answer::Text(text) => put_text(params, text),
            Answer::Owner(ono) => put_u32(params, ono.0),
            Answer::Reading(reading) => reading.put(params),
            Answer::Names(names) => put_names(params, names),
            Answer::Flags(flags) => put_flags(params, flags),
            Answer::Class(class) => put_class_identification(params, *class),
            Answer::Members(members) => put_list(params, members.as_slice()),
            Answer::Descendants(all) => put_list(params, all.as_slice()),
        }
    }

    /// Reads an answer from the parameters of a response to a method (AES70-2). `count` is ParamCount and `params` the
    /// bytes of the parameters. `class` is the class of the object; only the answer to the get method of a value
    /// depends on the class. The call does not check that the class has the method. The result is `None` in each of
    /// these cases:
    /// - `count` is not the number of parameters that this answer has.
    /// - `params` is not exactly such an answer.
    /// - A text has more than 64 bytes, or there are more than 16 positions, 181 members or 120 descendants.
    /// - The answer to GetClassIdentification names a class that this profile does not have.
    /// - `class` is OcaBlock and `method` reads a value: a block has none.
    #[tactic(auto, unfolding(crate::specs::Answers::answer_in))]
    pub fn read(class: Class, method: Method, count: u8, params: &[u8]) -> Option<Answer>
        ensures { result ≡ answer_in class method count params.now }
    {
        let answer = shaped(shape_of(method), class, params)?;
        if count == answer.count() {
            Some(answer)
        } else {
            None
        }
    }
}
