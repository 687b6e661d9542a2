//! Lines of text that are read in any pieces, each asking for one thing, and the lines that are printed in return.
//!
//! [`lines::serve_lines`] reads lines from a [`Source`] and serves what they ask for one after another. What a line
//! asks for, and what that does, is a [`Language`]: the device's program has one and the controller's two. What is
//! printed goes through a [`Printer`] to a [`Sink`]. [`field`] reads the fields of a line, and [`line_field`] those
//! that a line must have, or says their fault. Nothing here takes memory.
#![tactic(auto)]

mod buffer;
pub mod ends;
pub mod escape;
pub mod fault;
pub mod field;
pub mod language;
pub mod line_field;
pub mod lines;
mod object_fault;
pub mod printer;
mod progress;

pub use ends::{FromReader, Sink, Source, ToWriter};
pub use escape::Escaped;
pub use fault::{LineFault, ReadFailed, ReplayFault, Stop, WriteFailed};
pub use language::Language;
pub use object_fault::ObjectFault;
pub use printer::Printer;
