//! What a link sends.
use oca_types::Handle;

/// What [`Link::due`](crate::Link::due) puts into the packet, for the caller to send to the device.
#[derive(Clone, Copy, Debug, PartialEq, Eq)]
pub enum Due {
    /// The command of this handle, for the first time or again.
    Send(Handle),
    /// A keep-alive with a heartbeat of 5 seconds (AES70-3).
    KeepAlive,
    /// Nothing is due: the packet is empty.
    Nothing,
    /// The link is lost, since a command got no answer to 20 transmissions. It stays lost. The packet is empty.
    Lost,
}
