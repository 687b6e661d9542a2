//! Classes as they are listed, and the members of a block.
ghost use Rattle.std.specs.Prelude.{◌≡◌, ◌≤◌, length, map};
ghost use Rattle.std.specs.Option.{option_map, option_and_then};
ghost use Rattle.std.specs.Str.{bytes_eq};
ghost use Rattle.oca_types.specs.Classes.{class_fields_of};
ghost use Rattle.oca_types.specs.Putting.{Puts};
ghost use Rattle.oca_types.specs.Taking.{bytes_left, ReadsAs};
ghost use Rattle.oca_model.specs.Parameters.{whole};
ghost use Rattle.oca_model.specs.Members.{class_with, class_id_at, class_id_in, class_at, class_in, members_in};

use crate::list::{read_list, take_items};
use crate::value::with_integers;
use arrayvec::ArrayVec;
use oca_types::{Class, Cursor, Ono, ReadFault, class_fields};

/// The greatest number of fields of a class identifier that is read: 16 (*profile*).
pub const MOST_FIELDS: usize = 16;

/// The greatest number of members of a block that is read: 181. A response has no room for more.
pub const MOST_MEMBERS: usize = 181;

/// The fields of a class identifier (OcaClassID, AES70-2), from 0 to 16: those of a mute are 1, 1, 1, 2.
pub type ClassFields = ArrayVec<u16, MOST_FIELDS>;

/// The object numbers of the members of a block, from 0 to 181, in the block's order.
pub type MemberNumbers = ArrayVec<u32, MOST_MEMBERS>;

/// A member of a block: its number and its class.
#[derive(Clone, Copy, Debug, Default, PartialEq, Eq)]
pub struct Member {
    /// The number of the object.
    pub ono: Ono,
    /// The class of the object, and `None` if this profile does not have the class.
    pub class: Option<Class>,
}

/// An object in a block, directly or in a block within it.
#[derive(Clone, Copy, Debug, Default, PartialEq, Eq)]
pub struct Descendant {
    /// The number and the class of the object.
    pub member: Member,
    /// The number of the block that directly contains the object.
    pub container: Ono,
}

/// Whether these are the fields of the class's identifier.
fn has_fields(class: Class, fields: &[u16]) -> bool
    ensures { result ≡ bytes_eq (class_fields_of class) fields.now }
{
    class_fields(class).as_slice() == fields
}

/// The first of these classes whose identifier has these fields.
macro_rules! first_of {
    ($fields:expr, $($class:ident)*) => {
        $(if has_fields(Class::$class, $fields) {
            Some(Class::$class)
        } else)* {
            None
        }
    };
}

/// Returns the class whose identifier has these fields (OcaClassID, AES70-2), such as `Mute` for 1, 1, 1, 2. The fields
/// and their number must match exactly. The result is `None` if none of the 13 classes of this profile has these
/// fields.
#[tactic(auto, unfolding(crate::specs::Members::class_with))]
pub fn class_with(fields: &[u16]) -> Option<Class>
    ensures { result ≡ class_with fields.now }
{
    macro_rules! first_with {
        ($($integer:ident $type:ty),*) => {
            first_of!(fields, Block Mute Polarity Switch Boolean $($integer)*)
        };
    }
    with_integers!(first_with)
}

/// An OcaClassIdentification: the fields of its identifier. Its version may be any.
#[tactic(auto, unfolding(crate::specs::Members::class_id_at))]
fn take_class_id(cursor: &mut Cursor<'_>) -> Option<ClassFields>
    ensures { option_map (λ v. (v.items, bytes_left cursor.new)) result ≡ class_id_at (bytes_left cursor.old) }
{
    let number = usize::from(cursor.take_u16().ok()?);
    if number > MOST_FIELDS {
        return None;
    }
    let fields = take_items::<u16, MOST_FIELDS>(cursor, number)?;
    let _version = cursor.take_u16().ok()?;
    Some(fields)
}

/// An OcaClassIdentification: the class, where it is one of this profile.
#[tactic(auto, unfolding(crate::specs::Members::class_at))]
pub(crate) fn take_class(cursor: &mut Cursor<'_>) -> Result<Option<Class>, ReadFault>
    ensures { ReadsAs result (bytes_left cursor.new) (class_at (bytes_left cursor.old)) }
{
    let Some(fields) = take_class_id(cursor) else {
        return Err(ReadFault::Short);
    };
    Ok(class_with(fields.as_slice()))
}

/// Reads the fields of a class identifier in `params`, the parameters of an answer to GetClassIdentification (OcaRoot,
/// AES70-2). The class can be any class, also one that this profile does not have. The class version is ignored. The
/// result has from 0 to 16 fields. It is `None` if `params` is not exactly such an answer, or has more than 16 fields.
pub fn read_class_fields(params: &[u8]) -> Option<ClassFields>
    ensures { option_map (λ v. v.items) result ≡ class_id_in params.now }
{
    let mut cursor = Cursor::new(params);
    let fields = take_class_id(&mut cursor)?;
    cursor.finish().ok()?;
    Some(fields)
}

/// The class of this profile that is all of the parameters.
pub(crate) fn whole_class(params: &[u8]) -> Option<Class>
    ensures { result ≡ class_in params.now }
{
    let mut cursor = Cursor::new(params);
    let class = take_class(&mut cursor).ok()?;
    cursor.finish().ok()?;
    class
}

/// The numbers of these members.
fn numbers_of(members: &[Member]) -> MemberNumbers
    requires { length members.now ≤ 181 }
    ensures { result.items ≡ map (λ m. m.ono.0) members.now }
{
    let mut numbers = ArrayVec::new();
    for member in members {
        numbers.push(member.ono.0);
    }
    numbers
}

/// Reads the object numbers of the members in `params`, the parameters of an answer to GetMembers (OcaBlock, AES70-2).
/// The result has from 0 to 181 numbers, in the order of the answer; a response has no room for more. Members can be of
/// any class. The result is `None` if `params` is not exactly such an answer, or a class identifier has more than 16
/// fields.
pub fn read_members(params: &[u8]) -> Option<MemberNumbers>
    ensures { option_map (λ v. v.items) result ≡ members_in params.now }
{
    let members = read_list::<Member, MOST_MEMBERS>(params)?;
    Some(numbers_of(members.as_slice()))
}
