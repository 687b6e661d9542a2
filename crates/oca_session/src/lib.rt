//! Sessions of peers over UDP, 1 to 64 as chosen (*profile*): who was heard when, and which heartbeat each set. Each
//! session has a reply window, which distinguishes a fresh command from a duplicate, from another command under a
//! handle that it retains, and from one that is too old.
//!
//! Begin with [`Sessions`]. No call reads a clock: moments are `u64` milliseconds that the caller hands
//! in, and one that is earlier than a moment already seen counts as the one already seen.
//!
//! All memory is taken in [`Sessions::new`] and [`Sessions::with_sizes`]. That no other call takes any is checked by
//! inspection; no clause says it: after them the vectors and buffers are written by index, and pushed to within their
//! capacity, which is as large as a window. A window of w commands takes 2,952 w bytes in each session, which are
//! touched as commands come; in [`SessionsOf`] less, by the room for a command and for a reply.
#![tactic(auto)]

mod cell;
mod moments;
mod sessions;
mod slot;
mod window;

pub use oca_types::sooner;
pub use sessions::{Admission, Sessions, SessionsOf};
pub use window::{Judged, JudgedOf};
