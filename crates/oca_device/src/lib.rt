//! The core of an OCA device: what it answers to datagrams and clock readings, how its local front panel changes it,
//! and the loop that serves an end of a link.
//!
//! Begin with [`Device`]. It opens no socket and reads no clock: the caller hands it each datagram with its sender and
//! its moment, and finds the answers in an [`Outbox`]. [`serve`] does so for any end, and [`serve_with`] for a device
//! with electronics, which follow what is written. What a device is after a list of events is a function of its opening
//! tree and of these, and [`law_by_events`] says it by the events alone.
//!
//! Only the calls with an `alloc` take memory, which is tested and not proved. Each takes all that its result will ever
//! need, and returns `NoMemory` if that is refused:
//! - [`Device::new`] and [`Device::with_sizes`] take the memory of the sessions: 2,952 bytes for each command of each
//!   reply window, and 376 in a [`SmallDevice`]. So a device of 16 peers with windows of 32 commands takes 1.5 MB. The
//!   memory of the objects was taken when they were built.
//! - [`Outbox::new`] takes some 180 kB, for 122 packets.
//! - [`BoundedOutbox::with_room`] takes some 1,480 bytes for each packet.
//! - [`Keeping::new`] takes some 540 kB, for 366 packets.
#![tactic(auto)]

mod bounded;
mod counts;
mod device;
mod effect;
mod electronics;
mod keeping;
mod lapse;
mod law;
mod made;
mod outbox;
mod report;
mod serving;
mod store;
mod verdict;

pub use bounded::BoundedOutbox;
pub use device::{Device, DeviceOf, SmallDevice};
pub use effect::{CommandOutcome, Effect};
pub use electronics::{Electronics, NoElectronics};
pub use keeping::{Keeping, serve_keeping};
pub use law::{law_by_events, law_of_groups};
pub use outbox::Outbox;
pub use report::Report;
pub use serving::{serve, serve_with};
pub use store::Store;
pub use verdict::Verdict;
