//! The outcome of a command.
use crate::answer::Answer;
use crate::fault::ControlFault;
use std::fmt;

/// How a command ended that was sent over an end of a network. After `Lost` and `Unanswered` the command may still be
/// in the link ([`ask`](crate::ask) says when), and the device may have carried out the command, or not.
#[derive(Debug, Drop)]
pub enum Outcome {
    /// The device answered it, with any status.
    Answered(Answer),
    /// The link refused it, for this reason: it was never sent.
    Refused(ControlFault),
    /// The link is lost, or it is late ([`is_late`](crate::is_late)), and no answer is there. The device may have
    /// carried out the command, or not.
    Lost,
    /// No answer came in the turns or the time that were allowed. The command stays in flight.
    Unanswered,
}

impl fmt::Display for Outcome {
    /// Writes how the command came out, in words.
    fn fmt<W: fmt::Write>(&self, f: &mut fmt::Formatter<W>) -> fmt::Result {
        match self {
            Outcome::Answered(answer) => write!(f, "answered with status {}", answer.status),
            Outcome::Refused(fault) => write!(f, "not sent: {fault}"),
            Outcome::Lost => write!(f, "the link is lost"),
            Outcome::Unanswered => write!(f, "not answered yet"),
        }
    }
}
