//! The controller's program, without its `main`: what the words of the command line ask for, and what is done and
//! printed.
//!
//! [`console::Console`] is where the program runs, and its `run` is the whole program on its words. `command.rt` makes
//! a [`command::Command`] of the words, and `console.rt` does it: `tree`, `get`, `set`, `lock` and `unlock` speak of a
//! device's objects in words, `send` sends one command and prints its answer, and `run` sends the commands that a
//! source has to give. `replay` is the library `ocactl_replay`.
#![tactic(auto)]

pub mod command;
pub mod commands;
pub mod console;
mod holding;
mod object_line;
pub mod objects;
mod reason;
pub mod session;
