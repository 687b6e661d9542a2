//! Where a link of a network begins.
use oca_types::{Handle, Peer};

/// A link of the network at its beginning: its address, and the handle of its first command.
#[derive(Clone, Copy, Debug, PartialEq, Eq)]
pub struct Start {
    /// The address and port from which its datagrams come to the device. `run_pair` refuses two starts with the same
    /// peer, and a start with the device's, 127.0.0.1:65000.
    pub peer: Peer,
    /// The handle of the first command that is submitted to the link: 0 to 4294967295.
    pub first_handle: Handle,
}
