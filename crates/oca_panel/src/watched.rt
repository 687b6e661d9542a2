//! An end that remembers when a peer was last heard.
ghost use Rattle.std.specs.Prelude.{◌≡◌};
ghost use Rattle.oca_panel.specs.Watching.{heard_after};

use oca_net::{End, Heard};
use oca_types::{Packet, Peer};
use std::fmt;
use std::marker::Model;

/// An end of a network over another end, the *end inside*. It stores the moment of the last datagram that came from one
/// peer, the *watched* peer, in milliseconds of the end's clock. Sending and receiving are those of the end inside.
pub struct Watched<E: End> {
    end: E,
    peer: Peer,
    heard: Option<u64>,
}

impl<E: End> Model for Watched<E> {
    ghost use Rattle.oca_panel.specs.Watching.{WatchState};

    ghost Value = { WatchState };

    ghost view = { λ w. record { end_state = E.state w.end; peer = w.peer; heard = w.heard } };
}

impl<E: End + Drop> Drop for Watched<E> {
    /// Lets the end go.
    fn drop(self) {
        let Watched {
            end: _,
            peer: _,
            heard: _,
        } = self;
    }
}

impl<E: End> fmt::Debug for Watched<E> {
    /// The peer that is watched, and when it was last heard.
    fn fmt<W: fmt::Write>(&self, f: &mut fmt::Formatter<W>) -> fmt::Result {
        f.debug_struct("Watched")
            .field("peer", &self.peer)
            .field("heard", &self.heard)
            .finish()
    }
}

impl<E: End> Watched<E> {
    ghost use Rattle.std.specs.Prelude.{◌≡◌, None};
    ghost use Rattle.std.specs.Option.{option_or};

    /// Makes an end of a network over the end `end`, which becomes the end inside, and watches the peer `peer`. To
    /// *watch* a peer is to store the moment of the last datagram from its address and port. [`heard`](Watched::heard)
    /// returns this moment, and is `None` at first. Nothing is sent or received, no memory is taken, and nothing is
    /// refused.
    pub fn new(end: E, peer: Peer) -> Watched<E>
        ensures { result ≡ record { end_state = E.state end; peer = peer; heard = None } }
    {
        Watched {
            end,
            peer,
            heard: None,
        }
    }

    /// Returns a reference to the end inside, which [`new`](Watched::new) was given. Nothing is changed.
    pub fn end(&self) -> &E
        ensures { E.state result.now ≡ self.now.end_state }
    {
        &self.end
    }

    /// The moment, in milliseconds of the end's clock, at which the last datagram came from the peer, well-formed or
    /// not. `None` if none came since the end was made, or since the last [`forget`](Watched::forget). An oversize
    /// datagram does not change it.
    pub fn heard(&self) -> Option<u64>
        ensures { result ≡ self.now.heard }
    {
        self.heard
    }

    /// Forgets when the peer was heard: [`heard`](Watched::heard) is then `None` until the next datagram from the peer.
    /// The end inside stays as it is. Nothing is sent or received.
    pub fn forget(&mut self)
        ensures { self.new ≡ record self.old { heard = None } }
    {
        self.heard = None;
    }

    /// Goes on with the watch of a peer that was last heard at this moment, unless it was heard since.
    pub(crate) fn watch_on(&mut self, peer: Peer, before: Option<u64>)
        ensures { self.new ≡ record self.old { peer = peer; heard = option_or self.old.heard before } }
    {
        self.peer = peer;
        self.heard = self.heard.or(before);
    }

    /// The peer that is watched.
    pub(crate) fn peer(&self) -> Peer
        ensures { result ≡ self.now.peer }
    {
        self.peer
    }
}

impl<E: End> End for Watched<E> {
    ghost use Rattle.std.specs.Prelude.{◌≡◌, ◌≤◌, length};
    ghost use Rattle.oca_net.specs.Ends.{largest_datagram};
    ghost use Rattle.oca_net.specs.EndStates.{IsPresent, Receives, Sends};
    ghost use Rattle.oca_panel.specs.Watching.{heard_after, state_watched};

    ghost state = { state_watched };

    /// Receives once, and remembers the moment of a datagram from the peer.
    fn receive(&mut self, packet: &mut Packet) -> Heard
        ensures end { Receives result packet.new.items self.old.end_state self.new.end_state }
        ensures peer { self.new.peer ≡ self.old.peer }
        ensures heard { self.new.heard ≡ heard_after result self.old.peer self.old.heard }
    {
        let heard = self.end.receive(packet);
        self.heard = heard_behind(heard, self.peer, self.heard);
        heard
    }

    /// As `receive`, until this moment of the end's at most.
    fn receive_by(&mut self, packet: &mut Packet, moment: u64) -> Heard
        ensures end { Receives result packet.new.items self.old.end_state self.new.end_state }
        ensures peer { self.new.peer ≡ self.old.peer }
        ensures heard { self.new.heard ≡ heard_after result self.old.peer self.old.heard }
    {
        let heard = self.end.receive_by(packet, moment);
        self.heard = heard_behind(heard, self.peer, self.heard);
        heard
    }

    /// The end's present moment.
    fn now(&self) -> u64
        ensures { IsPresent result self.now.end_state }
    {
        self.end.now()
    }

    /// Sends a datagram.
    fn send(&mut self, to: Peer, bytes: &[u8]) -> bool
        requires { length bytes.now ≤ largest_datagram }
        ensures end { Sends result to bytes.now self.old.end_state self.new.end_state }
        ensures peer { self.new.peer ≡ self.old.peer }
        ensures heard { self.new.heard ≡ self.old.heard }
    {
        self.end.send(to, bytes)
    }
}

/// The moment of the last datagram from the peer, behind a receive.
fn heard_behind(heard: Heard, peer: Peer, before: Option<u64>) -> Option<u64>
    ensures { result ≡ heard_after heard peer before }
{
    match heard {
        Heard::Datagram { from, now } => { if from == peer { Some(now) } else { before } }
        Heard::Quiet { .. } | Heard::Oversize { .. } | Heard::Failed | Heard::Closed => before,
    }
}
