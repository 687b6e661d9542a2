//! Tests of what both ends stand on, numbers, texts, datagrams, values and words; of the device, its objects and its
//! sessions; and of the ends of a network, of the controller and the library of a panel, and of both ends together: on
//! the public interfaces of their crates.
#![tactic(auto)]

#[cfg(test)]
mod tests;
