//! What a parameter or an item of a list is: positions, Booleans, texts and members, each with its codec.
ghost use Rattle.std.specs.Prelude.{◌≡◌, ℕ, ◌++◌, ◌<◌, ◌^◌, List, Option, Some};
ghost use Rattle.std.specs.Int.{w16, byte_len};
ghost use Rattle.oca_types.specs.Numbers.{unsigned_encoding, bool_encoding};
ghost use Rattle.oca_types.specs.Putting.{Puts};
ghost use Rattle.oca_types.specs.Reading.{unsigned_at, bool_at, text_at};
ghost use Rattle.oca_types.specs.Taking.{bytes_left, ReadsAs};
ghost use Rattle.oca_types.specs.Texts.{text_encoding};
ghost use Rattle.oca_model.specs.Lists.{IsText};
ghost use Rattle.oca_model.specs.Members.{member_at, member_encoding, IsMember, descendant_at, descendant_encoding};
ghost use Rattle.oca_model.specs.Members.{IsDescendant};
ghost use Rattle.oca_model.specs.MemberFronts.{member_front, descendant_front};
ghost use Rattle.oca_model.specs.Fronts.{u16_front, bool_front, front_of_text};

use crate::member::{Descendant, Member, take_class};
use oca_types::{
    Cursor, Ono, Params, PutFault, ReadFault, Text, put_bool, put_class_identification, put_text,
    put_u16, put_u32,
};

/// A value that can be an item of a list, of whatever length its encoding is.
pub(crate) trait Item: Default + Drop {
    // The value is one of its type.
    ghost IsItem: { Self → Type 0 };

    ghost encoding: { Self → List ℕ };

    // The value at the front of bytes and those behind it, or nothing.
    ghost read_at: { List ℕ → Option (Self × List ℕ) };

    /// Takes an item.
    fn take_item(cursor: &mut Cursor<'_>) -> Result<Self, ReadFault>
        ensures { ReadsAs result (bytes_left cursor.new) (read_at (bytes_left cursor.old)) };

    /// Appends the item. Refusal: `Full`.
    fn put_item(&self, params: &mut Params) -> Result<(), PutFault>
        ensures { Puts result params.old.items params.new.items (encoding self.now) };

    // What was encoded is read, whatever stands behind it.
    ghost read_back: { (v : Self) (rest : List ℕ) → IsItem v → read_at (encoding v ++ rest) ≡ Some (v, rest) };
}

impl Item for u16 {
    ghost IsItem = { λ n. n < 256 ^ byte_len w16 };

    ghost encoding = { unsigned_encoding w16 };

    ghost read_at = { unsigned_at w16 };

    ghost read_back = { u16_front };

    /// Takes an unsigned number of 16 bits.
    fn take_item(cursor: &mut Cursor<'_>) -> Result<u16, ReadFault> {
        cursor.take_u16()
    }

    /// Appends the unsigned number of 16 bits. Refusal: `Full`.
    fn put_item(&self, params: &mut Params) -> Result<(), PutFault> {
        put_u16(params, *self)
    }
}

impl Item for bool {
    ghost IsItem = { λ _. Unit {0} };

    ghost encoding = { bool_encoding };

    ghost read_at = { bool_at };

    ghost read_back = { bool_front };

    /// Takes a Boolean.
    fn take_item(cursor: &mut Cursor<'_>) -> Result<bool, ReadFault> {
        cursor.take_bool()
    }

    /// Appends the Boolean. Refusal: `Full`.
    fn put_item(&self, params: &mut Params) -> Result<(), PutFault> {
        put_bool(params, *self)
    }
}

impl Item for Text {
    ghost IsItem = { IsText };

    ghost encoding = { text_encoding };

    ghost read_at = { text_at };

    ghost read_back = { front_of_text };

    /// Takes a text.
    fn take_item(cursor: &mut Cursor<'_>) -> Result<Text, ReadFault> {
        cursor.take_text()
    }

    /// Appends the text. Refusal: `Full`.
    fn put_item(&self, params: &mut Params) -> Result<(), PutFault> {
        put_text(params, self)
    }
}

impl Item for Member {
    ghost IsItem = { IsMember };

    ghost encoding = { member_encoding };

    ghost read_at = { member_at };

    ghost read_back = { member_front };

    #[tactic(auto, unfolding(crate::specs::Members::member_at))]
    /// Takes a member: its number and its class.
    fn take_item(cursor: &mut Cursor<'_>) -> Result<Member, ReadFault> {
        let ono = Ono(cursor.take_u32()?);
        let class = take_class(cursor)?;
        Ok(Member { ono, class })
    }

    /// Appends the member: its number and its class. Refusal: `Full`.
    fn put_item(&self, params: &mut Params) -> Result<(), PutFault> {
        put_u32(params, self.ono.0)?;
        match self.class {
            Some(class) => put_class_identification(params, class),
            None => Ok(()),
        }
    }
}

impl Item for Descendant {
    ghost IsItem = { IsDescendant };

    ghost encoding = { descendant_encoding };

    ghost read_at = { descendant_at };

    ghost read_back = { descendant_front };

    #[tactic(auto, unfolding(crate::specs::Members::descendant_at))]
    /// Takes a descendant: its number, its class and the number of its container.
    fn take_item(cursor: &mut Cursor<'_>) -> Result<Descendant, ReadFault> {
        let member = Member::take_item(cursor)?;
        let container = Ono(cursor.take_u32()?);
        Ok(Descendant { member, container })
    }

    /// Appends the descendant: its number, its class and the number of its container. Refusal: `Full`.
    fn put_item(&self, params: &mut Params) -> Result<(), PutFault> {
        self.member.put_item(params)?;
        put_u32(params, self.container.0)
    }
}
