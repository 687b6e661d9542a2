//! The replay of a controller's script on a link, and the lines of commands that `ocactl` reads and prints.
//!
//! [`replay::replay`] makes a call of the link for each line that a source has to give, and prints what it returns.
//! [`request`] reads the fields of a line; [`line`] prints what a call of a link returned.
#![tactic(auto)]

pub mod line;
pub mod replay;
pub mod request;
