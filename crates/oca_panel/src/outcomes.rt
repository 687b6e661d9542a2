//! What the answer to a command says.
ghost use Rattle.std.specs.Prelude.{◌≡◌, Ok};
ghost use Rattle.oca_panel.specs.Outcomes.{on_ok, answered_with, parameters_answered, done_answered, fields_answered};
ghost use Rattle.oca_panel.specs.Outcomes.{class_answered, reading_answered, text_answered, members_answered};
ghost use Rattle.oca_panel.specs.Outcomes.{names_answered, truth_answered, model_answered};

use crate::trouble::Trouble;
use oca_control::Outcome;
use oca_model::{
    Answer, ClassFields, MemberNumbers, Names, Reading, class_with, read_class_fields,
    read_members, read_names, read_text,
};
use oca_types::{Class, Method, Text};

/// The answer with the status OK, or why there is none.
fn ok_answer(outcome: &Outcome) -> Result<&oca_control::Answer, Trouble>
    ensures { on_ok (λ answer. answer.now) result ≡ answered_with (λ answer. Ok answer) outcome.now }
{
    match outcome {
        Outcome::Answered(answer) => {
            if answer.status == 0 {
                Ok(answer)
            } else {
                Err(Trouble::Refused(answer.status))
            }
        }
        Outcome::Refused(fault) => Err(Trouble::NotSubmitted(*fault)),
        Outcome::Lost => Err(Trouble::Lost),
        Outcome::Unanswered => Err(Trouble::Unanswered),
    }
}

/// The parameters of an answer with status OK.
fn parameters_in(outcome: &Outcome) -> Result<&[u8], Trouble>
    ensures { on_ok (λ params. params.now) result ≡ parameters_answered outcome.now }
{
    Ok(ok_answer(outcome)?.params.as_slice())
}

/// Returns Ok if `outcome` says that a command was answered with the status OK (AES70-2), whatever the parameters of
/// the answer are. Nothing is changed or sent.
///
/// Faults ([`Trouble`]):
/// - `Refused` with the status, 1 to 255, if the status of the answer is not OK.
/// - `NotSubmitted` with the reason if the link refused the command: it was never sent.
/// - `Lost` if the link was lost or late before an answer came. A link is *lost* once a command got no answer to 20
///   transmissions. It is *late* while a command that was submitted more than 15,000 ms ago has no answer.
/// - `Unanswered` if no answer came in the time of the wait.
///
/// After `Lost` and `Unanswered` the device may have carried out the command, or may still do that.
pub fn done_in(outcome: &Outcome) -> Result<(), Trouble>
    ensures { result ≡ done_answered outcome.now }
{
    parameters_in(outcome)?;
    Ok(())
}

/// The fields of a class's identifier that the answer to GetClassIdentification gives.
pub(crate) fn fields_in(outcome: &Outcome) -> Result<ClassFields, Trouble>
    ensures { on_ok (λ fields. fields.items) result ≡ fields_answered outcome.now }
{
    read_class_fields(parameters_in(outcome)?).ok_or(Trouble::Unreadable)
}

/// The class that the answer to GetClassIdentification gives.
pub(crate) fn class_in(outcome: &Outcome) -> Result<Class, Trouble>
    ensures { result ≡ class_answered outcome.now }
{
    class_with(fields_in(outcome)?.as_slice()).ok_or(Trouble::NoValue)
}

/// The reading that the answer to a class's get method gives.
pub(crate) fn reading_in(class: Class, outcome: &Outcome) -> Result<Reading, Trouble>
    ensures { result ≡ reading_answered class outcome.now }
{
    Reading::read(class, parameters_in(outcome)?).ok_or(Trouble::Unreadable)
}

/// The text that the answer to GetRole, GetLabel or GetPositionName gives.
pub(crate) fn text_in(outcome: &Outcome) -> Result<Text, Trouble>
    ensures { result ≡ text_answered outcome.now }
{
    read_text(parameters_in(outcome)?).ok_or(Trouble::Unreadable)
}

/// The numbers of the members that the answer to GetMembers gives.
pub(crate) fn members_in(outcome: &Outcome) -> Result<MemberNumbers, Trouble>
    ensures { on_ok (λ members. members.items) result ≡ members_answered outcome.now }
{
    read_members(parameters_in(outcome)?).ok_or(Trouble::Unreadable)
}

/// The names of a switch's positions that the answer to GetPositionNames gives.
pub(crate) fn names_in(outcome: &Outcome) -> Result<Names, Trouble>
    ensures { on_ok (λ names. names.items) result ≡ names_answered outcome.now }
{
    read_names(parameters_in(outcome)?).ok_or(Trouble::Unreadable)
}

/// Reads the answer to a command from the command's outcome `outcome`: what an object of the class `class` answers to
/// the method `method` (AES70-2). The class matters only for the get method of a value. Nothing is changed or sent.
///
/// Faults ([`Trouble`]): those of [`done_in`]; and `Unreadable` if the status is OK, and ParamCount or the parameters
/// are not those of an answer to the method.
pub fn answer_of(class: Class, method: Method, outcome: &Outcome) -> Result<Answer, Trouble>
    ensures { result ≡ model_answered class method outcome.now }
{
    let answer = ok_answer(outcome)?;
    Answer::read(class, method, answer.count, answer.params.as_slice()).ok_or(Trouble::Unreadable)
}

/// The Boolean that the answer to GetEnabled gives.
pub(crate) fn truth_in(outcome: &Outcome) -> Result<bool, Trouble>
    ensures { result ≡ truth_answered outcome.now }
{
    match answer_of(Class::Block, Method::GetEnabled, outcome)? {
        Answer::Truth(truth) => Ok(truth),
        _ => Err(Trouble::Unreadable),
    }
}
