//! What became of a datagram.

/// What became of a datagram that a link was given ([`Link::datagram`](crate::Link::datagram)).
#[derive(Clone, Copy, Debug, PartialEq, Eq)]
pub enum Reception {
    /// So many commands got their first answer in it, at least one.
    Answered(u32),
    /// It came from another address or port than the device's. Only the link's clock moved.
    Stranger,
    /// It came from the device, and is no well-formed datagram (AES70-3). Only the link's clock moved.
    Malformed,
    /// It is well-formed and came from the device, and no command got its first answer.
    NothingNew,
}
