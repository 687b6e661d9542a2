//! What the definitions of a text say of one another.
ghost use Rattle.oca_textree.specs.Written.{IsReadBack};
ghost use Rattle.oca_textree.specs.Made.{MadeIsReadBack, ListedIsReadBack};

use oca_tree::Tree;

/// Laws: the text that [`print_tree`](crate::print_tree) prints of the objects of `tree` is read back by
/// [`tree_from_text`](crate::tree_from_text) as the same objects. The function states these laws as its contract, and
/// does nothing at run time. Each law is about trees that were made in one way:
/// - Calls of a builder or a text added the objects. Commands, the local front panel (the device's own controls) and
///   the release of locks may have changed the objects since. Reading gives the same objects, with two differences: no
///   object is locked, and no hardware refuses changes.
/// - A text listed the objects, and nothing changed them since. Reading gives exactly these objects.
/// - The objects are any others whose first is a lockable block with the role `root`. Each object has a role. Texts and
///   numbers are of their types, which is always true in Rust. Reading gives the same objects, with the two differences
///   of the first law.
pub fn law_of_texts(tree: &Tree)
    ensures made { MadeIsReadBack tree.now }
    ensures listed { ListedIsReadBack tree.now }
    ensures named { IsReadBack tree.now }
{
    let _sound = tree.len();
}
