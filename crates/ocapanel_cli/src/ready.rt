//! An end that never waits, and counts what it sends.
use oca_net::{End, Heard};
use oca_types::{Packet, Peer};
use std::marker::Model;

/// An end that never waits, and counts what it sends: for a loop that waits for other things too.
#[derive(Drop)]
pub struct Ready<E: End> {
    end: E,
    /// How many datagrams were handed to the end inside to be sent, failed sends included.
    pub sent: u64,
    /// Whether the last receive brought no datagram; `false` before the first one.
    pub is_quiet: bool,
    /// Whether the last receive failed; `false` before the first one. A turn whose receive fails sends nothing.
    pub has_failed: bool,
}

impl<E: End> Model for Ready<E> {
    ghost use Rattle.oca_net.specs.EndStates.{EndState};

    ghost Value = { EndState };

    ghost view = { λ r. E.state r.end };
}

impl<E: End> Ready<E> {
    ghost use Rattle.std.specs.Prelude.{◌≡◌};

    /// An end over another end, which never waits. It has sent and received no datagram so far.
    pub fn new(end: E) -> Ready<E>
        ensures { result ≡ E.state end }
    {
        Ready {
            end,
            sent: 0,
            is_quiet: false,
            has_failed: false,
        }
    }

    /// A reference to the end inside.
    pub fn end(&self) -> &E
        ensures { E.state result.now ≡ self.now }
    {
        &self.end
    }
}

impl<E: End> End for Ready<E> {
    ghost use Rattle.std.specs.Prelude.{◌≤◌, length};
    ghost use Rattle.oca_net.specs.Ends.{largest_datagram};
    ghost use Rattle.oca_net.specs.EndStates.{EndState, IsPresent, Receives, Sends};

    ghost state = { λ (s : EndState). s };

    /// Receives what is there.
    fn receive(&mut self, packet: &mut Packet) -> Heard
        ensures { Receives result packet.new.items self.old self.new }
    {
        let heard = self.end.receive_by(packet, 0);
        self.is_quiet = !matches!(heard, Heard::Datagram { .. } | Heard::Oversize { .. });
        self.has_failed = matches!(heard, Heard::Failed);
        heard
    }

    /// Receives what is there, whatever the moment.
    fn receive_by(&mut self, packet: &mut Packet, _moment: u64) -> Heard
        ensures { Receives result packet.new.items self.old self.new }
    {
        self.receive(packet)
    }

    /// The end's present moment.
    fn now(&self) -> u64
        ensures { IsPresent result self.now }
    {
        self.end.now()
    }

    /// Sends a datagram, and counts it.
    fn send(&mut self, to: Peer, bytes: &[u8]) -> bool
        requires { length bytes.now ≤ largest_datagram }
        ensures { Sends result to bytes.now self.old self.new }
    {
        self.sent = self.sent.saturating_add(1);
        self.end.send(to, bytes)
    }
}
