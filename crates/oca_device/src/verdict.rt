//! What a datagram led to.
use oca_pdu::PduFault;
use std::fmt;

/// What a device made of a datagram ([`Device::datagram`](crate::Device::datagram)). In all cases the clock moved
/// first: locks of peers that are silent for more than three heartbeats are released, and sessions that are silent for
/// more than 120,000 ms are forgotten.
#[derive(Clone, Copy, Debug, PartialEq, Eq)]
pub enum Verdict {
    /// The datagram is well-formed and its sender has a session. The numbers say how many of its commands, with and
    /// without response, were served in each way.
    Served {
        /// Commands that were executed, whatever their status.
        executed: u32,
        /// Duplicates: commands that came again. They were not executed again. Those that ask for a response got the
        /// retained reply.
        kept: u32,
        /// Commands that were too old for the reply window, and were ignored.
        old: u32,
        /// Commands that asked something else under the handle of a retained command, and were ignored.
        reused: u32,
    },
    /// The bytes are no well-formed datagram (AES70-3), and this is their first fault; or they are more than the device
    /// takes ([`DeviceOf`](crate::DeviceOf)). Nothing but the clock's move changed an object or a session, and nothing
    /// is answered.
    Malformed(PduFault),
    /// The sender has no session, and all sessions that the device was made for are in use. Nothing but the clock's
    /// move changed an object or a session, and nothing is answered.
    NoRoom,
}

impl fmt::Display for Verdict {
    /// Writes what became of the datagram, in words.
    fn fmt<W: fmt::Write>(&self, f: &mut fmt::Formatter<W>) -> fmt::Result {
        match self {
            Verdict::Served {
                executed,
                kept,
                old,
                reused,
            } => write!(
                f,
                "{executed} executed, {kept} duplicates, {old} too old, {reused} under a handle that was used"
            ),
            Verdict::Malformed(fault) => write!(f, "malformed: {fault}"),
            Verdict::NoRoom => write!(f, "no room for a session"),
        }
    }
}
