//! The words for values, as C reads and writes them.
ghost use Rattle.std.specs.Prelude.{◌≡◌, ◌⊎◌};
ghost use Rattle.oca_calls.specs.CWords.{IsNamedBy, WritesNamed, WritesWordOf};
ghost use Rattle.oca_calls.specs.Numbers.{answer_number};
ghost use Rattle.oca_calls.specs.declared.answer.Answer.TheVariants.{Done, NoValue};

use crate::answer::Answer;
use crate::value_words::{ValueWords, class_with};
use crate::words::put_bytes;
use oca_model::{Value, value_from_word, word_of};
use oca_types::Class;
use std::str;

/// Writes the word for a value, such as `muted` or `-60`, to the front of `out`, and its size, 1 to 20 bytes, to `len`.
pub fn put_word(words: ValueWords, out: &mut [u8], len: &mut usize) -> Answer
    ensures writes { WritesWordOf words out.old out.new len.new (answer_number result) }
    ensures untold { (result ≡ NoValue) → (len.new ≡ len.old) }
{
    let Some(value) = words.value() else {
        return Answer::NoValue;
    };
    put_bytes(word_of(value).as_str().as_bytes(), out, len)
}

/// Writes to `out` the value that a word such as `muted` or `-60` means for an object of the class with the number
/// `class_number`.
pub fn read_word(class_number: u32, word: &[u8], out: &mut ValueWords) -> Answer
    ensures { WritesNamed class_number word.now out.old out.new (answer_number result) }
{
    let Some(value) = value_named(class_with(class_number), word) else {
        return Answer::NoValue;
    };
    *out = ValueWords::of(value);
    Answer::Done
}

/// The value of an object of this class that a word names; nothing where there is no class, or it names none.
fn value_named(class: Option<Class>, word: &[u8]) -> Option<Value>
    ensures { IsNamedBy class word.now result }
{
    let class = class?;
    let Ok(word) = str::from_utf8(word) else {
        return None;
    };
    value_from_word(class, word)
}
