//! What the programs over the two ends have in common: why a run fails, with its exit status and what is printed of it,
//! and the words of a command line.
//!
//! A program's `main` takes its words by [`words_of`], and prints a [`Failure`] by [`report`]. [`table`] has the rows
//! of a command line; [`options`] reads the values of the options that `clap` has found; [`run`] begins and ends a run;
//! [`socket`] opens the socket of a device or of a controller.
#![tactic(auto)]

pub mod fault;
pub mod form;
pub mod options;
pub mod run;
pub mod socket;
pub mod table;
mod version;

pub use fault::{
    Failure, FmtWriter, RunFault, io_failure, print_line, print_made_note, print_note, report,
};
pub use form::Form;
pub use run::{exit_status, help_or_failure, words_of};
pub use table::{CommandRow, Kind, OptionRow};
pub use version::VERSION;
