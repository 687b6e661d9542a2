//! The controller's link to a device: commands with their handles, their repeats and their answers, and keep-alives,
//! over the datagrams of OCP.1 (AES70-3).
//!
//! Begin with [`Link`], which opens no socket and reads no clock: it is given datagrams and moments, and sends
//! datagrams. Over an end of a network [`ask`] sends a command and waits for its answer; with several in flight
//! [`begin`] sends each, and [`turn`] runs the link. These, [`wait_for`] and [`send_in_time`] send no copy of a command
//! too late ([`is_late`]); [`send_due`] and [`drive`] do not look at that. Nothing here takes memory.
#![tactic(auto)]

mod answer;
mod asking;
mod driving;
mod due;
mod fault;
mod law;
mod link;
mod moments;
mod outcome;
mod reception;
mod report;
mod slot;
mod table;
mod turning;

pub use answer::Answer;
pub use asking::{ask, begin, refused, wait_for, wait_until, wait_while};
pub use driving::{drive, send_due};
pub use due::Due;
pub use fault::ControlFault;
pub use law::{
    law_copies_in_time, law_of_answering, law_of_histories, law_of_running, law_of_sending,
};
pub use link::{Link, LinkOf, SmallLink};
pub use outcome::Outcome;
pub use reception::Reception;
pub use report::DriveReport;
pub use slot::LONGEST_LIFE_MS;
pub use turning::{is_late, send_in_time, turn};
