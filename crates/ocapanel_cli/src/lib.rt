//! The panel's program, without its `main`: what the words of the command line ask for, and the loop over the device's
//! socket, the listener and the browsers' connections.
//!
//! [`Console::run`](console::Console::run) is the whole program on its words.
#![tactic(auto)]

pub mod clients;
pub mod command;
pub mod console;
pub mod ready;
pub mod serving;
pub mod terms;
