//! What the loops of device and controller ask of an end.
ghost use Rattle.std.specs.Prelude.{ℕ, ⊤, ◌≤◌, length};
ghost use Rattle.oca_net.specs.Ends.{largest_datagram};
ghost use Rattle.oca_net.specs.EndStates.{EndState, IsPresent, Receives, Sends};

use oca_types::{Packet, Peer};

/// What a receive returns. `now` is the moment of the end's clock, in milliseconds.
#[derive(Clone, Copy, Debug, PartialEq, Eq)]
pub enum Heard {
    /// A datagram of at most 1,472 bytes came from the peer `from`: the packet has its bytes.
    Datagram { from: Peer, now: u64 },
    /// No datagram came. The packet is empty.
    Quiet { now: u64 },
    /// A datagram of more than 1,472 bytes came, and is dropped. The packet is empty.
    Oversize { now: u64 },
    /// The receive failed. The packet is empty. A later receive may succeed.
    Failed,
    /// The end is closed: nothing more will come. The packet is empty.
    Closed,
}

/// An end of a network: it receives and sends datagrams, such as a socket does. The loops of the device and of the
/// controller run over it. A program may implement this trait for a network of its own. The kinds of ends:
/// - An end that *keeps time* has a clock of its own, in milliseconds: [`now`](End::now) reads it. An end that keeps no
///   time returns 0 there.
/// - A *closed* end returns `Closed` from a receive: nothing more will come.
/// - A *recording end* has a state that only contracts see. It lists what the receives delivered (`delivered`), and the
///   datagrams that the end accepted for sending (`taken`). The field `tells` of its state is true. Of other ends the
///   contracts say nothing about these two lists.
///
/// The contracts say of every end whether it has returned `Closed`, how often it received and sent, and how many of
/// these calls failed. They say the earliest and the latest moment that it may return as its present one. Of an end
/// that keeps time they also say the latest moment that it has returned.
pub trait End {
    /// What the end says of itself.
    ghost state: { Self → EndState };

    /// What the end says of a receive that was to wait until a moment: of the end before it, and after it. An end that
    /// does not define it says nothing.
    ghost waited: { Self → Self → ℕ → Type 0 } = { λ _ _ _. ⊤ };

    /// Receives once, and waits for as long as the end chooses: a socket waits for at most 50 ms. `packet` is emptied
    /// first.
    ///
    /// `Datagram` with its sender if a datagram came: its bytes are in `packet`. `Quiet` if none came. `Oversize` if a
    /// datagram of more than 1,472 bytes came: it is dropped. `Failed` if receiving failed. `Closed` if nothing more
    /// will come.
    fn receive(&mut self, packet: &mut Packet) -> Heard
        ensures { Receives result packet.new.items (state self.old) (state self.new) };

    /// Receives once, and waits until the moment `moment` at most, in milliseconds of the end's own clock. An end that
    /// keeps no time ignores `moment`, and receives as [`receive`](End::receive) does. `packet` is emptied first.
    ///
    /// `Datagram` with its sender if a datagram came: its bytes are in `packet`. `Quiet` if none came. `Oversize` if a
    /// datagram of more than 1,472 bytes came: it is dropped. `Failed` if receiving failed. `Closed` if nothing more
    /// will come.
    fn receive_by(&mut self, packet: &mut Packet, moment: u64) -> Heard
        ensures heard { Receives result packet.new.items (state self.old) (state self.new) }
        ensures waits { waited self.old self.new moment };

    /// The present moment of the end's clock, in milliseconds. It is not before any moment that a receive has returned.
    /// 0 if the end keeps no time. Nothing is received or sent.
    fn now(&self) -> u64
        ensures { IsPresent result (state self.now) };

    /// Sends a datagram to the peer `to`. `bytes` must have at most 1,472 bytes (a premise). `true` if the end took the
    /// whole datagram, which does not say that it arrives. `false` if sending failed: the datagram is then not sent.
    fn send(&mut self, to: Peer, bytes: &[u8]) -> bool
        requires { length bytes.now ≤ largest_datagram }
        ensures { Sends result to bytes.now (state self.old) (state self.new) };
}
