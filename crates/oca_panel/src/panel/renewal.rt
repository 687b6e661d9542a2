//! A panel that goes on with a new link, and turns that say what was done.
use super::Panel;
use oca_control::{DriveReport, Link, turn};
use oca_net::End;
use oca_types::{Handle, Peer, Span};

impl<E: End> Panel<E> {
    ghost use Rattle.std.specs.Prelude.{◌≡◌};
    ghost use Rattle.oca_types.specs.Sizes.{span_size};
    ghost use Rattle.oca_panel.specs.Renewals.{IsFoundLost, IsRenewed, TurnsWith};

    /// Replaces the panel's link by a new link to the device at the address `device`, over the same end. The new link
    /// begins at the end's present moment, as in [`Panel::open`]. Call it if the link is lost or late. Nothing is sent,
    /// no memory is taken, and nothing is refused.
    ///
    /// `first` is the handle of the first command of the new link. It must not be lower than
    /// [`next_handle`](Panel::next_handle): if it is, a command may get no answer, or the answer to a command of an
    /// earlier link. `span` is the new span. Commands of the old link are not sent again, and their answers are lost.
    /// Those that it left unanswered can still arrive for 100 s after the old link's clock was read last, if the
    /// network is in time, and then take places of the device's reply window. So that the device never rejects a
    /// command in flight of the new link as too old, the window needs one place more for each of them
    /// (`law_answered_in_time` of `oca_pair` has all premises). The panel's `wait` and
    /// [`unanswered`](Panel::unanswered) stay.
    pub fn renew(&mut self, device: Peer, first: Handle, span: Span)
        ensures { IsRenewed device first.0 (span_size span) self.old self.new }
    {
        self.link = Link::new(device, first, self.end.now(), span);
    }

    /// Takes one turn as [`Panel::turn`] does, and returns what was done. The turn receives once, at a socket for at
    /// most 50 ms, and sends what is due.
    ///
    /// [`DriveReport`] explains the numbers. `turns` is 1 in the report. It is 0 if the end is closed: then the link is
    /// unchanged. `failed_receives` is 1 if the receive failed: then nothing is sent, and `lost` is `false`. After any
    /// other turn `lost` says whether the link is lost or late.
    pub fn turn_with_report(&mut self) -> DriveReport
        ensures { TurnsWith result self.old self.new }
    {
        turn(&mut self.link, &mut self.end)
    }

    /// Whether the panel's link is lost, or is late at the end's present moment: the same as [`Panel::is_lost`].
    pub fn finds_lost(&self) -> bool
        ensures { IsFoundLost self.now result }
    {
        self.is_lost()
    }
}
