//! What C calls to encode a value, to ask for one and to read what came back. Nothing here has a handle.
ghost use Rattle.std.specs.Prelude.{◌≡◌, ◌⊎◌};
ghost use Rattle.oca_calls.specs.CValues.{PutsWords, ReadsAnswer, WritesGetOf, WritesSetOf};
ghost use Rattle.oca_calls.specs.CWords.{WordsAreReadBack, WritesNamed, WritesWordOf};

use oca_calls::answer::Answer;
use oca_calls::laws::law_of_words;
use oca_calls::value_texts::{put_word, read_word};
use oca_calls::value_words::{ReadingWords, RequestWords, ValueWords, class_with};
use oca_calls::words::put_bytes;
use oca_model::{Reading, get_request, set_request};

/// Encodes `value` as the one parameter of a set method (AES70-3): writes its bytes to the front of `out`, and their
/// number, 1 to 8, to `len`.
#[unsafe(no_mangle)]
pub extern "C" fn oca_value_put(value: &ValueWords, out: &mut [u8], len: &mut usize) -> u32
    ensures writes { PutsWords value.now out.old out.new len.new result }
    ensures untold { (result ≡ 24) → (len.new ≡ len.old) }
{
    let Some(value) = value.value() else {
        return Answer::NoValue.number();
    };
    let request = set_request(value);
    put_bytes(request.params.as_slice(), out, len).number()
}

/// Reads the value and its limits from the answer to a get method (AES70-2), and writes them to `reading`.
#[unsafe(no_mangle)]
pub extern "C" fn oca_value_read(
    class_number: u32,
    params: &[u8],
    reading: &mut ReadingWords,
) -> u32
    ensures writes { ReadsAnswer class_number params.now reading.new result }
    ensures unwritten { (result ≡ 0) ⊎ (reading.new ≡ reading.old) }
{
    let Some(class) = class_with(class_number) else {
        return Answer::NoValue.number();
    };
    let Some(found) = Reading::read(class, params) else {
        return Answer::NoValue.number();
    };
    *reading = ReadingWords::of(found);
    Answer::Done.number()
}

/// Writes to `request` the request that sets an object to `value`: the set method of the value's class (AES70-2) with
/// the value as its parameter.
#[unsafe(no_mangle)]
pub extern "C" fn oca_set_request(value: &ValueWords, request: &mut RequestWords) -> u32
    ensures writes { WritesSetOf value.now request.new result }
    ensures unwritten { (result ≡ 0) ⊎ (request.new ≡ request.old) }
{
    let Some(value) = value.value() else {
        return Answer::NoValue.number();
    };
    *request = RequestWords::of(&set_request(value));
    Answer::Done.number()
}

/// Writes to `request` the request that reads how an object is set: the get method of the class with the number
/// `class_number` (`enum oca_class`, AES70-2), without parameters.
#[unsafe(no_mangle)]
pub extern "C" fn oca_get_request(class_number: u32, request: &mut RequestWords) -> u32
    ensures writes { WritesGetOf class_number request.new result }
    ensures unwritten { (result ≡ 0) ⊎ (request.new ≡ request.old) }
{
    let Some(class) = class_with(class_number) else {
        return Answer::NoValue.number();
    };
    let Some(found) = get_request(class) else {
        return Answer::NoValue.number();
    };
    *request = RequestWords::of(&found);
    Answer::Done.number()
}

/// Writes the word for `value` to the front of `out`, without a 0 after it, and the number of its bytes, 1 to 20, to
/// `len`.
#[unsafe(no_mangle)]
pub extern "C" fn oca_value_text(value: &ValueWords, out: &mut [u8], len: &mut usize) -> u32
    ensures writes { WritesWordOf value.now out.old out.new len.new result }
    ensures untold { (result ≡ 24) → (len.new ≡ len.old) }
    ensures again { WordsAreReadBack }
{
    law_of_words();
    put_word(*value, out, len).number()
}

/// Writes to `value` the value that a word means for an object of the class with the number `class_number` (`enum
/// oca_class`).
#[unsafe(no_mangle)]
pub extern "C" fn oca_value_from_text(class_number: u32, text: &[u8], value: &mut ValueWords) -> u32
    ensures writes { WritesNamed class_number text.now value.old value.new result }
    ensures again { WordsAreReadBack }
{
    law_of_words();
    read_word(class_number, text, value).number()
}
