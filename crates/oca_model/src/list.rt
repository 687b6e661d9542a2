//! An OcaList: the number of its items in two bytes, then the items.
ghost use Rattle.std.specs.Prelude.{◌≡◌, ◌≤◌, ◌<◌, ◌^◌, length};
ghost use Rattle.std.specs.List.{flat_map};
ghost use Rattle.std.specs.Option.{option_map};
ghost use Rattle.oca_types.specs.Putting.{Puts};
ghost use Rattle.oca_types.specs.Taking.{bytes_left};
ghost use Rattle.oca_model.specs.Parameters.{items_at, whole};
ghost use Rattle.oca_model.specs.Lists.{list_of_most, list_encoding};

use crate::item::Item;
use arrayvec::ArrayVec;
use oca_types::{Cursor, Params, PutFault, put_u16};

/// So many items.
pub(crate) fn take_items<I: Item, const N: usize>(
    cursor: &mut Cursor<'_>,
    number: usize,
) -> Option<ArrayVec<I, N>>
    requires { number ≤ N }
    ensures { option_map (λ v. (v.items, bytes_left cursor.new)) result
        ≡ items_at I.read_at number (bytes_left cursor.old) }
{
    let mut items = ArrayVec::new();
    for _ in 0..number {
        let Ok(item) = I::take_item(cursor) else {
            return None;
        };
        items.push(item);
    }
    Some(items)
}

/// The list of at most `N` items that is all of the bytes. Nothing where they are no such list.
pub(crate) fn read_list<I: Item, const N: usize>(params: &[u8]) -> Option<ArrayVec<I, N>>
    ensures { option_map (λ v. v.items) result ≡ whole (list_of_most N I.read_at params.now) }
{
    let mut cursor = Cursor::new(params);
    let number = usize::from(cursor.take_u16().ok()?);
    if number > N {
        return None;
    }
    let items = take_items(&mut cursor, number)?;
    cursor.finish().ok()?;
    Some(items)
}

/// Appends items, one after another.
fn put_items<I: Item>(params: &mut Params, items: &[I]) -> Result<(), PutFault>
    ensures { Puts result params.old.items params.new.items (flat_map I.encoding items.now) }
{
    for item in items {
        item.put_item(params)?;
    }
    Ok(())
}

/// Appends a list. Refusal: `Full`.
pub(crate) fn put_list<I: Item>(params: &mut Params, items: &[I]) -> Result<(), PutFault>
    requires { length items.now < 2 ^ 16 }
    ensures { Puts result params.old.items params.new.items (list_encoding I.encoding items.now) }
{
    put_u16(params, items.len() as u16)?;
    put_items(params, items)
}
