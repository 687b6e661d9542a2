//! The replay of a script on a device: what its lines ask for, and what is printed for each event.
//!
//! [`replay`](replay::replay) runs a device over the script that a source has to give, and writes what that prints.
#![tactic(auto)]

mod answer;
pub mod replay;
mod request;
