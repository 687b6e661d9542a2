//! What the calls of a panel promise over a network.
#![tactic(auto)]

mod law;

pub use law::{law_of_calls, law_of_flights};
