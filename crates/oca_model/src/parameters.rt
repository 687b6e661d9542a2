//! Parameters that are all of the bytes.
ghost use Rattle.std.specs.Prelude.{◌≡◌};
ghost use Rattle.oca_model.specs.Parameters.{whole};

use crate::item::Item;
use oca_types::{Cursor, Field};

/// The value that is all of the bytes.
pub(crate) fn whole<I: Item>(params: &[u8]) -> Option<I>
    ensures { result ≡ whole (I.read_at params.now) }
{
    let mut cursor = Cursor::new(params);
    let value = I::take_item(&mut cursor).ok()?;
    cursor.finish().ok()?;
    Some(value)
}

/// The integer or the Boolean that is all of the bytes.
pub(crate) fn whole_field<F: Field>(params: &[u8]) -> Option<F>
    ensures { result ≡ whole (F.codec.read_at params.now) }
{
    let mut cursor = Cursor::new(params);
    let value = cursor.take::<F>().ok()?;
    cursor.finish().ok()?;
    Some(value)
}
