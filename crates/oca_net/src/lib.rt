//! Ends of a network: where datagrams come from and go to.
//!
//! The device and the controller receive and send through the trait [`End`] alone. An end may tell what
//! it delivered and what it took; then a proof about a loop over it can say what that loop did.
//! [`MemoryEnd`] tells: it delivers a script and keeps what it took. [`UdpEnd`] is a UDP socket, and tells nothing.
//! [`DropsStale`] is for a device: it drops what waited while the device stood still.
#![tactic(auto)]

mod count;
mod descriptors;
mod end;
mod memory;
mod moments;
mod reason;
mod refusal;
mod sleep;
mod socket;
mod stale;
mod system;
mod udp;

pub use descriptors::fill_standard_descriptors;
pub use end::{End, Heard};
pub use memory::{MemoryEnd, Scripted};
pub use refusal::{is_gone, is_refused};
pub use sleep::CountsSleep;
pub use stale::DropsStale;
pub use udp::{BindError, BindFault, UdpEnd};
