//! Why something asked of an object is not done.
use oca_control::ControlFault;
use oca_model::status_name;
use std::error::Error;
use std::fmt::{self, Display, Formatter};

/// Why something asked of an object is not done. As a text, a refusal is the name of the device's status (AES70-2).
#[derive(Clone, Copy, Debug, PartialEq, Eq, Drop)]
pub enum Trouble {
    /// The device answered with another status than OK: the number of the status, 1 to 255 (AES70-2, OcaStatus).
    Refused(u8),
    /// The status is OK, but the parameters of the answer are not those that the command's method has.
    Unreadable,
    /// The object's class has no value that is known here: a block, a class outside this profile, or a class that has
    /// no method for the request.
    NoValue,
    /// A word is for no value of the object. No call of this crate returns it: it is for programs that read values from
    /// words.
    NoSuchWord,
    /// The link refused the command, for this reason: the command was not sent, and has no handle.
    NotSubmitted(ControlFault),
    /// The link was lost or late before an answer came. The device may have carried out the command, or not.
    Lost,
    /// No answer came within the milliseconds that the panel waits for a command. The command stays in flight: it is
    /// sent again, may still be carried out, and keeps its place in the span. Its answer is taken by
    /// [`Panel::try_finish`](crate::Panel::try_finish) or by a later wait.
    Unanswered,
}

impl Display for Trouble {
    ghost use Rattle.std.specs.Prelude.{Some};
    ghost use Rattle.oca_panel.specs.TroubleWords.{trouble_words};

    ghost output = { λ trouble. Some (trouble_words trouble) };

    /// Writes it in words: a refusal as the name of its status, or as `status` and its number, 0 to 255, if it has no
    /// name (AES70-2). Fails only if the writer fails.
    fn fmt<W: fmt::Write>(&self, f: &mut Formatter<W>) -> fmt::Result {
        match self {
            Trouble::Refused(status) => match status_name(*status) {
                Some(name) => f.write_str(name),
                None => write!(f, "status {status}"),
            },
            Trouble::Unreadable => f.write_str("unreadable answer"),
            Trouble::NoValue => f.write_str("no value"),
            Trouble::NoSuchWord => f.write_str("no such value"),
            Trouble::NotSubmitted(fault) => write!(f, "not sent: {fault}"),
            Trouble::Lost => f.write_str("lost"),
            Trouble::Unanswered => f.write_str("no answer"),
        }
    }
}

impl Error for Trouble {}
