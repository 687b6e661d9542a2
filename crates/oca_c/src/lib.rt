//! Both ends for C: `liboca_c.a`, with `include/oca.h`, which says what a caller promises, and of each call what it takes
//! and answers, the first answer that applies.
//!
//! C gives the storage of a handle (16 bytes, zeroed at first) and one handle to a call. Everything behind it is taken
//! by the calls that open and start; no other call takes memory.
//!
//! A call returns a number of [`Answer`](oca_calls::answer::Answer), which says why it was refused; 0 is `Done`.
//!
//! The calls stand here alone, since a static library is proved wherever it is built; all that they stand on is in
//! `oca_calls`.
#![tactic(auto)]

mod answer_calls;
mod device_calls;
mod front_calls;
mod link_calls;
mod object_calls;
mod spec_calls;
mod value_calls;
mod version;
