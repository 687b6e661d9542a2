//! A panel: a link to a device, driven over an end, and commands one at a time or several in flight.
ghost use Rattle.std.specs.Prelude.{◌≡◌};
ghost use Rattle.std.specs.Option.{option_map};
ghost use Rattle.oca_control.specs.Untaken.{first_answered};
ghost use Rattle.oca_panel.specs.Panels.{is_lost_or_unanswered};

use oca_control::{ControlFault, Link, Outcome, begin, is_late, turn, wait_for, wait_while};
use oca_net::End;
use oca_types::{Handle, Peer, Request, Span};
use std::fmt;
use std::marker::Model;

mod calling;
mod renewal;

/// A panel controls one device: it has a link to the device and the end of a network over which the link sends.
///
/// The words of its calls:
/// - The *link* gives each command its handle, sends it again each 250 ms until its answer comes, and stores the answer
///   ([`Link`]). The *span* says how far apart the handles in flight can be, 1 to 32 ([`Span`]).
/// - A command is *in flight* from its submit until its answer is taken. Its *handle* is its 32-bit number (AES70-3).
/// - `wait`: how many milliseconds a call that asks or sets an object waits for each answer at most. At a socket the
///   last turn may end up to 50 ms later.
/// - A *turn* receives once and sends what is due ([`turn`](oca_control::turn)).
/// - The link is *lost* once a command got no answer to 20 transmissions. The link is *late* while a command that was
///   submitted more than 15,000 ms ago has no answer. A lost or late link takes no new command.
/// - The *faults of a command* are these of [`Trouble`](crate::Trouble): `NotSubmitted` with the reason if the link
///   refuses the command ([`begin`](Panel::begin)), which is then not sent. `Lost` if the link becomes lost or late
///   before an answer comes, and `Unanswered` if no answer comes in time: after both the command stays in flight, and
///   the device may have carried it out, or may still do that. `Refused` with the status if the status of the answer is
///   not OK.
///
/// ```
/// let end = UdpEnd::bind_towards(rt.alloc(), rt, device, 0)?;
/// let first = OwnPort::now(rt).first_handle;
/// let mut panel = Panel::open(device, end, first, Span::default(), 10_500);
/// // ...
/// match panel.get(gain) {
///     Ok(value) => println!(rt; "gain: {} dB/10", word_of(value).as_str())?,
///     // ...
/// }
/// ```
///
/// No call takes memory. A panel is some 94 kB, which is its link: do not move it, pass `&mut`.
pub struct Panel<E: End> {
    link: Link,
    end: E,
    wait: u32,
    unanswered: bool,
}

impl<E: End> Model for Panel<E> {
    ghost use Rattle.oca_panel.specs.Panels.{PanelState};

    ghost Value = { PanelState };

    ghost view = { λ p. record {
      link = p.link;
      end_state = E.state p.end;
      wait = p.wait;
      unanswered = p.unanswered;
    } };
}

impl<E: End + Drop> Drop for Panel<E> {
    /// Lets the link and the end go.
    fn drop(self) {
        let Panel {
            link: _,
            end: _,
            wait: _,
            unanswered: _,
        } = self;
    }
}

impl<E: End> fmt::Debug for Panel<E> {
    /// The link, for how many milliseconds a command waits for its answer, and whether one got none.
    fn fmt<W: fmt::Write>(&self, f: &mut fmt::Formatter<W>) -> fmt::Result {
        f.debug_struct("Panel")
            .field("link", &self.link)
            .field("wait", &self.wait)
            .field("unanswered", &self.unanswered)
            .finish()
    }
}

impl<E: End> Panel<E> {
    ghost use Rattle.std.specs.Prelude.{◌≡◌, false, MatchOption};
    ghost use Rattle.oca_types.specs.Peers.{request_of};
    ghost use Rattle.oca_types.specs.Sizes.{span_size};
    ghost use Rattle.oca_control.specs.Links.{IsNextDue, NeverIsDue};
    ghost use Rattle.oca_panel.specs.Panels.{AsksIn, BeginsIn, FinishesIn, IsOpened, MaySettle, TurnsOnce};
    ghost use Rattle.oca_panel.specs.Renewals.{IsFoundLost};

    /// Makes a panel for the device at the address `device`, over `end`, with a new link. Nothing is sent, no memory is
    /// taken, and nothing is refused. The link begins at the end's present moment. The other arguments:
    /// - `first` is the handle of the first command, 0 to 4294967295. If the device has heard the end's port before,
    ///   `first` must be above all handles that were used there, or the device may leave commands unanswered. Handles
    ///   from before a pause of more than two minutes, in which nothing was sent from the port and the device did not
    ///   stand still, do not count. [`OwnPort`](crate::OwnPort) chooses a handle.
    /// - `span` is the span, 1 to 32 with the default 16. At most `span` commands are in flight: each new handle is
    ///   below the lowest handle in flight plus `span`.
    /// - `wait` is for how many milliseconds a call waits for an answer at most, 0 to 4294967295, whatever else comes
    ///   to the end meanwhile ([`wait_while`](oca_control::wait_while)).
    ///
    /// If the device does not answer a command, the link is lost 5 to 10.25 seconds after the submit, as long as a call
    /// waits or turns are taken.
    pub fn open(device: Peer, end: E, first: Handle, span: Span, wait: u32) -> Panel<E>
        ensures { IsOpened device first.0 (span_size span) wait (E.state end) result }
    {
        let link = Link::new(device, first, end.now(), span);
        Panel::new(link, end, wait)
    }

    /// Makes a panel over the link `link`, which exists already, and over `end`. Nothing is sent, no memory is taken,
    /// and nothing is refused.
    /// - `link` stays as it is, with its commands, answers, clock and span.
    /// - `end` sends and receives for the link.
    /// - `wait` is for how many milliseconds a call waits for an answer at most, 0 to 4294967295.
    ///
    /// [`unanswered`](Panel::unanswered) is `false` at first.
    pub fn new(link: Link, end: E, wait: u32) -> Panel<E>
        ensures { result ≡ record { link = link; end_state = E.state end; wait = wait; unanswered = false } }
    {
        Panel {
            link,
            end,
            wait,
            unanswered: false,
        }
    }

    /// Returns a reference to the panel's end, which [`open`](Panel::open) or [`new`](Panel::new) was given. Nothing is
    /// received, sent or changed.
    pub fn end(&self) -> &E
        ensures { E.state result.now ≡ self.now.end_state }
    {
        &self.end
    }

    /// Returns a reference to the panel's link: the one that [`open`](Panel::open) or [`renew`](Panel::renew) made, or
    /// that [`new`](Panel::new) was given. Nothing is changed.
    pub fn link(&self) -> &Link
        ensures { result.now ≡ self.now.link }
    {
        &self.link
    }

    /// Returns the panel's end, and drops the panel with its link. Commands in flight are not sent again, and their
    /// answers are lost. The device may still carry out a command that was sent. Nothing is sent by this call.
    pub fn into_end(self) -> E
        ensures { E.state result ≡ self.end_state }
    {
        let Panel {
            link: _,
            end,
            wait: _,
            unanswered: _,
        } = self;
        end
    }

    /// Takes one turn of the panel's link ([`turn`](oca_control::turn)): receives once, and sends what is due,
    /// keep-alives included. At a socket the receive lasts until something is due, and at most 50 ms. A send that fails
    /// is not reported.
    ///
    /// Returns `true` if the loop may go on. `false` if the end is closed: then the link is unchanged. `false` too if
    /// the link is lost or late: a datagram that came is still handled, and after the link was found lost or late the
    /// turn sends nothing. After a receive that failed the result is `true`, nothing is sent, and the call does not
    /// look whether the link is lost or late. [`turn_with_report`](Panel::turn_with_report) returns the numbers of
    /// failed receives and sends.
    pub fn turn(&mut self) -> bool
        ensures { TurnsOnce self.old self.new result }
    {
        let report = turn(&mut self.link, &mut self.end);
        report.turns == 1 && !report.lost
    }

    /// The earliest moment at which a turn has something to send, a keep-alive included: a loop may wait until then.
    /// The moment is in milliseconds of the end's clock. It is never before the latest moment that the link was given.
    ///
    /// `None` if that moment does not fit 64 bits. For a lost link the result is the latest moment that the link was
    /// given, though nothing is sent any more. So end the loop once [`is_lost`](Panel::is_lost) is `true`. Nothing is
    /// changed.
    pub fn next_due(&self) -> Option<u64>
        ensures { MatchOption result (NeverIsDue self.now.link) (λ t. IsNextDue self.now.link t) }
    {
        self.link.next_due()
    }

    /// The moment, in milliseconds of the end's clock, at which the last well-formed datagram came from the device.
    /// Before the first such datagram it is the moment at which the link was made. A datagram from another address, and
    /// one that is not a well-formed datagram of AES70-3, do not move it.
    pub fn last_heard(&self) -> u64
        ensures { result ≡ self.now.link.heard }
    {
        self.link.last_heard()
    }

    /// Whether the panel's link is lost, or is late at the end's present moment. A link is *lost* once a command got no
    /// answer to 20 transmissions. A link is *late* while a command that was submitted more than 15,000 ms ago has no
    /// answer. `false` for a new link.
    ///
    /// While the result is `true`, the panel takes no command. Then open a new panel, or call [`renew`](Panel::renew).
    /// A lost link stays lost. A late link is late until the answer comes. The call changes and sends nothing.
    pub fn is_lost(&self) -> bool
        ensures { IsFoundLost self.now result }
    {
        let now = self.end.now();
        self.link.is_lost() || is_late(&self.link, now)
    }

    /// The lowest handle whose answer came and was not taken yet. `None` if no answer waits, as in a new panel. The
    /// call takes nothing: [`try_finish`](Panel::try_finish) takes the answer. So a program finds the answer to a
    /// command for which it stopped waiting.
    pub fn answered(&self) -> Option<Handle>
        ensures { option_map (λ h. h.0) result ≡ first_answered self.now.link.untaken }
    {
        self.link.answered()
    }

    /// The handle that the next command gets. At first it is the first handle that the link was given, and each command
    /// moves it up by one. `None` once a command has the handle 4294967295: then no command is taken any more.
    pub fn next_handle(&self) -> Option<Handle>
        ensures { option_map (λ h. h.0) result ≡ self.now.link.next }
    {
        self.link.next_handle()
    }

    /// Whether a wait for a command of this panel ended with `Lost` or `Unanswered`, at any time since the panel was
    /// made. `false` at first. Once `true` the result stays `true`, also if the answer comes later, and after
    /// [`renew`](Panel::renew). A command that the link refused does not set it.
    pub fn unanswered(&self) -> bool
        ensures { result ≡ self.now.unanswered }
    {
        self.unanswered
    }

    /// Submits one command, sends it at once, and waits for its answer for at most the panel's `wait` milliseconds.
    /// `request` has the object, the method, ParamCount and the encoded parameters, which are not checked (AES70-3).
    ///
    /// - `Answered` with the answer, whatever its status. The command is then removed from the link.
    /// - `Refused` with the reason if the link refuses the command, in the cases of [`begin`](Panel::begin). Nothing is
    ///   changed or sent. `Refused(Lost)` is a link that was lost or late before.
    /// - `Lost` if the link becomes lost in this call, or is found late, and no answer came.
    /// - `Unanswered` if no answer comes in time, or the end is closed. The command stays in flight, under the handle
    ///   that [`next_handle`](Panel::next_handle) returned before. It keeps its place in the span until its answer is
    ///   taken.
    ///
    /// After `Lost` and `Unanswered` the device may have carried out the command, or may still do that.
    pub fn ask(&mut self, request: Request<'_>) -> Outcome
        ensures { AsksIn (request_of request.entry) self.old self.new result }
    {
        match self.begin(request) {
            Ok(handle) => self.finish(handle),
            Err(fault) => Outcome::Refused(fault),
        }
    }

    /// Submits a command, sends it at once, and returns its handle, for [`finish`](Panel::finish) or
    /// [`InFlight::push`](crate::InFlight::push). `request` has the object, the method, ParamCount and the encoded
    /// parameters, which are not checked (AES70-3). What else is due is sent too, older commands first. If the link
    /// becomes lost in this call, the handle is returned and the command is not sent. A send that fails is not
    /// reported: the link sends the command again after 250 ms.
    ///
    /// Refusals, the first that applies, which change and send nothing:
    /// - `Lost` if the link is lost or late.
    /// - `HandlesSpent` if a command has the handle 4294967295 already.
    /// - `SpanFull` if the next handle is not below the lowest handle whose answer was not taken yet, plus the span.
    /// - `TooLong` if the parameters have more than 1,445 bytes.
    pub fn begin(&mut self, request: Request<'_>) -> Result<Handle, ControlFault>
        ensures { BeginsIn (request_of request.entry) result self.old self.new }
    {
        begin(&mut self.link, &mut self.end, request)
    }

    /// Waits for the answer under this handle, for at most the panel's `wait` milliseconds, and takes it.
    ///
    /// - `Answered` with the answer, whatever its status. The command is then removed from the link.
    /// - `Lost` as soon as the link is lost or found late, and no answer is there.
    /// - `Unanswered` if no answer comes in time, if the end is closed, and for a handle that no command has. The
    ///   command stays in flight, is sent again, and can be waited for again.
    ///
    /// After `Lost` and `Unanswered` the device may have carried out the command, or may still do that, and
    /// [`unanswered`](Panel::unanswered) is `true` from then on. `Refused` does not come.
    pub fn finish(&mut self, handle: Handle) -> Outcome
        ensures { FinishesIn handle.0 self.old self.new result }
    {
        let outcome = wait_while(&mut self.link, &mut self.end, handle, self.wait);
        self.unanswered = self.unanswered || is_nothing(&outcome);
        outcome
    }

    /// Returns the outcome of the command under this handle if the outcome is known already, and does not wait. Nothing
    /// is received or sent.
    ///
    /// `Answered` with the answer, whatever its status: the answer is taken, and its command is removed from the link.
    /// `Lost` if the link is lost and no answer is there: [`unanswered`](Panel::unanswered) is then `true`. `None` if
    /// no answer is there and the link is not lost, also for a handle that no command has: then nothing is changed. The
    /// call does not look whether the link is late.
    pub fn try_finish(&mut self, handle: Handle) -> Option<Outcome>
        ensures { MaySettle result handle.0 self.old self.new }
    {
        match wait_for(&mut self.link, &mut self.end, handle, 0) {
            Outcome::Unanswered => None,
            outcome => {
                self.unanswered = self.unanswered || is_nothing(&outcome);
                Some(outcome)
            }
        }
    }
}

/// Whether no answer came.
fn is_nothing(outcome: &Outcome) -> bool
    ensures { result ≡ is_lost_or_unanswered outcome.now }
{
    match outcome {
        Outcome::Answered(_) | Outcome::Refused(_) => false,
        Outcome::Lost | Outcome::Unanswered => true,
    }
}
