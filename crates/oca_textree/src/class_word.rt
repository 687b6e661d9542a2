//! The words for classes.
ghost use Rattle.std.specs.Prelude.{◌≡◌, ◌≤◌, length};
ghost use Rattle.std.specs.Str.{bytes_eq};
ghost use Rattle.oca_model.specs.Words.{class_word};
ghost use Rattle.oca_textree.specs.Lines.{class_of_word};
ghost use Rattle.oca_textree.specs.Written.{space_behind};

use oca_model::{class_word, with_integers};
use oca_types::Class;

/// The word of a class.
pub fn word(class: Class) -> &'static [u8]
    ensures value { result.now ≡ class_word class }
    ensures short { length result.now ≤ 8 }
{
    class_word(class).as_bytes()
}

/// A space where something stands behind the word of a class.
pub fn space_behind(class: Class) -> &'static [u8]
    ensures value { result.now ≡ space_behind class }
    ensures short { length result.now ≤ 1 }
{
    match class {
        Class::Block => b"",
        _ => b" ",
    }
}

/// Whether it is the word of the class.
fn is_word(class: Class, text: &[u8]) -> bool
    ensures { result ≡ bytes_eq text.now (class_word class) }
{
    text == word(class)
}

/// The first of these classes whose word it is.
macro_rules! first_of {
    ($word:expr, $($class:ident)*) => {
        $(if is_word(Class::$class, $word) {
            Some(Class::$class)
        } else)* {
            None
        }
    };
}

/// A class by its word.
#[tactic(auto, unfolding(crate::specs::Lines::class_of_word))]
pub fn class(word: &[u8]) -> Option<Class>
    ensures { result ≡ class_of_word word.now }
{
    macro_rules! named {
        ($($integer:ident $type:ty),*) => {
            first_of!(word, Block Mute Polarity Switch Boolean $($integer)*)
        };
    }
    with_integers!(named)
}
