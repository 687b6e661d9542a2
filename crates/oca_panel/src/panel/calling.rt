//! A keep-alive beside a panel's link.
use super::Panel;
use crate::answering::keep_alive;
use oca_net::{End, Heard};
use oca_types::{Packet, Peer};

impl<E: End> Panel<E> {
    ghost use Rattle.oca_panel.specs.Calls.{CallsBeside};

    /// Sends a device a keep-alive over the panel's end, without the panel's link, receives once, and returns what was
    /// received. The keep-alive has a heartbeat of five seconds (AES70-3). The receive lasts at most 50 ms at a socket.
    /// `device` is the address that gets the keep-alive. A send that fails is not reported, and the receive follows
    /// then too.
    ///
    /// The result is `Datagram` with its sender, `Quiet` if none came, `Oversize`, `Failed` or `Closed`
    /// ([`Heard`](oca_net::Heard)). The sender may be any. The link does not get the datagram, even if the datagram has
    /// an answer: that answer is lost unless the device sends it again. So the call finds a device that returns
    /// keep-alives and answers no command. The link and [`unanswered`](Panel::unanswered) stay as they are.
    pub fn call(&mut self, device: Peer) -> Heard
        ensures { CallsBeside device result self.old self.new }
    {
        let mut packet = Packet::new();
        keep_alive(&mut self.end, device);
        self.end.receive(&mut packet)
    }
}
