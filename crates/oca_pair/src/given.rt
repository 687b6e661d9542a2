//! What a link sends.
use oca_types::Packet;

/// What a link sends, when it is asked what is due.
#[derive(Drop)]
pub(crate) enum Given {
    /// A datagram of a command or a keep-alive.
    Datagram(Packet),
    /// Nothing is due.
    Nothing,
    /// The link is lost.
    Lost,
}
