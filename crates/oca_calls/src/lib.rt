//! What the calls of the library for C stand on, but for the calls themselves (`oca_c`): handles with what is behind
//! them, the numbers that a call returns, and structs as C has them. `specs/` says what each call promises.
#![tactic(auto)]

pub mod answer;
pub mod answer_words;
pub mod any_device;
pub mod device;
pub mod device_handle;
pub mod device_slot;
pub mod laws;
pub mod limits;
pub mod link;
pub mod link_handle;
pub mod link_slot;
pub mod name;
pub mod opening;
pub mod parts;
pub mod reading;
pub mod restoring;
pub mod spec_adding;
pub mod spec_reading;
pub mod spec_words;
pub mod starting;
pub mod unstored;
pub mod value_texts;
pub mod value_words;
pub mod words;
