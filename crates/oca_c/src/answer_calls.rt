//! What C calls to read the parameters of answers, and to encode a text. Nothing here has a handle.
ghost use Rattle.std.specs.Prelude.{◌≡◌, ◌⊎◌};
ghost use Rattle.oca_types.specs.Reading.{text_at};
ghost use Rattle.oca_model.specs.Answers.{switch_names_in};
ghost use Rattle.oca_model.specs.Members.{class_id_in, class_with, members_in};
ghost use Rattle.oca_model.specs.Parameters.{whole};
ghost use Rattle.oca_calls.specs.AnswerCalls.{WritesClass, WritesEncoding, WritesMembers, WritesNames, WritesText};
ghost use Rattle.oca_calls.specs.AnswerCalls.{number_of_class};

use oca_calls::answer::Answer;
use oca_calls::answer_words::{ClassId, Members, Names, number_with};
use oca_calls::name::{Name, text_of};
use oca_calls::words::put_bytes;
use oca_model::{read_class_fields, read_members, read_names, read_text};
use oca_types::{Params, Text, put_text};

/// Reads the text from the answer to GetRole, GetLabel or GetPositionName (AES70-2), and writes it to `text`.
#[unsafe(no_mangle)]
pub extern "C" fn oca_text_read(params: &[u8], text: &mut Name) -> u32
    ensures { WritesText (whole (text_at params.now)) text.old text.new result }
{
    let Some(found) = read_text(params) else {
        return Answer::NoValue.number();
    };
    *text = Name::of(found.as_str());
    Answer::Done.number()
}

/// Reads the names of a switch's positions from the answer to GetPositionNames of OcaSwitch (AES70-2), and writes them
/// to `names`, in the order of the positions.
#[unsafe(no_mangle)]
pub extern "C" fn oca_names_read(params: &[u8], names: &mut Names) -> u32
    ensures { WritesNames (switch_names_in params.now) names.old names.new result }
{
    let Some(found) = read_names(params) else {
        return Answer::NoValue.number();
    };
    *names = Names::of(found.as_slice());
    Answer::Done.number()
}

/// Reads the numbers of a block's members from the answer to GetMembers of OcaBlock (AES70-2), and writes them to
/// `members`, in their order: 0 to 181, since an answer has room for no more.
#[unsafe(no_mangle)]
pub extern "C" fn oca_members_read(params: &[u8], members: &mut Members) -> u32
    ensures { WritesMembers (members_in params.now) members.old members.new result }
{
    let Some(found) = read_members(params) else {
        return Answer::NoValue.number();
    };
    *members = Members::of(found.as_slice());
    Answer::Done.number()
}

/// Reads the class from the answer to GetClassIdentification of OcaRoot (AES70-2), and writes it to `id`: its fields,
/// and its number in `enum oca_class`, 0 for a class that is not of this profile.
#[unsafe(no_mangle)]
pub extern "C" fn oca_class_read(params: &[u8], id: &mut ClassId) -> u32
    ensures { WritesClass (class_id_in params.now) id.old id.new result }
{
    let Some(found) = read_class_fields(params) else {
        return Answer::NoValue.number();
    };
    *id = ClassId::of(found.as_slice());
    Answer::Done.number()
}

/// The number of the class whose identifier (OcaClassID, AES70-2) has these fields: 1 to 13 (`enum oca_class`). 0 if no
/// class of this profile has them.
#[unsafe(no_mangle)]
pub extern "C" fn oca_class_with(fields: &[u16]) -> u32
    ensures { result ≡ number_of_class (class_with fields.now) }
{
    number_with(fields)
}

/// Encodes `text` as the one parameter of SetLabel of OcaWorker (AES70-2): writes its bytes to the front of `out`, and
/// their number, 2 to 66, to `len`.
#[unsafe(no_mangle)]
pub extern "C" fn oca_text_put(text: &Name, out: &mut [u8], len: &mut usize) -> u32
    ensures writes { WritesEncoding text.now out.old out.new len.new result }
    ensures untold { (result ≡ 0) ⊎ ((result ≡ 14) ⊎ (len.new ≡ len.old)) }
{
    let Some(text) = text_of(text) else {
        return Answer::NoValue.number();
    };
    let Some(text) = Text::new(text) else {
        return Answer::NoValue.number();
    };
    let mut params = Params::new();
    match put_text(&mut params, &text) {
        Ok(()) => put_bytes(params.as_slice(), out, len).number(),
        Err(_) => unreachable!(),
    }
}
