//! A panel, and the commands in flight on it.
ghost use Rattle.std.specs.Prelude.{◌≡◌, ◌<◌, ◌≤◌, ◌+◌, length, true, false};
ghost use Rattle.oca_types.specs.Peers.{request_of};
ghost use Rattle.oca_types.specs.Sizes.{span_size};
ghost use Rattle.oca_control.specs.Limits.{longest_life};
ghost use Rattle.ocactl_cli.specs.Exchanges.{AwaitsFirst, NoneInFlight, RenewsPanel, TakesOne, TakesUp, since};
ghost use Rattle.ocactl_cli.specs.PrivateExchanges.{Submitted, TakesFirst};

use super::objects::present;
use super::reason::{DeviceEnd, note_no_answer};
use oca_control::{ControlFault, LONGEST_LIFE_MS, Outcome};
use oca_net::End;
use oca_panel::{InFlight, Panel};
use oca_script::{Printer, Sink};
use oca_types::{Handle, Peer, Request, Span};
use std::alloc::Global;
use std::marker::Model;
use std::net::Net;
use std::os::fd::RawFd;
use std::rt::Clock;

/// For how many milliseconds a command of a line waits for its answer: where not every receive fails, the link is lost
/// long before.
const WAIT_MS: u32 = u32::MAX;

/// The longest wait for input, in milliseconds: an hour.
const LONGEST_WAIT_MS: u64 = 3_600_000;

/// A panel, and the commands in flight on it, in the order of their lines.
#[derive(Drop)]
pub struct Session<E: End> {
    panel: Panel<E>,
    device: Peer,
    span: Span,
    in_flight: InFlight<()>,
    /// How many commands may be in flight.
    ahead: usize,
    /// Whether a command was refused so far.
    refused: bool,
    /// The end's descriptor, if it has one.
    socket: Option<RawFd>,
    /// Whether a command was submitted so far.
    is_open: bool,
    /// Since when the next line is at hand, if it was read.
    at_hand: Option<u64>,
}

impl<E: End> Model for Session<E> {
    ghost use Rattle.std.specs.Prelude.{◌≡◌, ◌≤◌, ◌||◌, map};
    ghost use Rattle.oca_types.specs.Sizes.{span_size};
    ghost use Rattle.ocactl_cli.specs.Exchanges.{SessionState, line_wait};

    ghost Value = { SessionState };

    ghost view = { λ s. record {
      device = s.device;
      span = span_size s.span;
      link = s.panel.link;
      end_state = s.panel.end_state;
      in_flight = map (λ c. c.0) s.in_flight;
      ahead = s.ahead;
      unanswered = s.refused || s.panel.unanswered;
      socket = s.socket;
      is_open = s.is_open;
      at_hand = s.at_hand;
    } };

    ghost invariant = { λ s. (1 ≤ s.ahead) × (s.ahead ≤ 32) × (s.panel.wait ≡ line_wait) };
}

impl<E: End> Session<E> {
    ghost use Rattle.std.specs.Prelude.{◌≡◌, ◌-◌, ◌<◌, ℕ, [], true, false, length};
    ghost use Rattle.oca_types.specs.Sizes.{span_size};
    ghost use Rattle.oca_control.specs.Links.{new_link};

    /// A session over a new panel ([`Panel::open`]), with no command in flight. At most `ahead` commands (1 to 32) may
    /// be in flight at once. `socket` is the end's descriptor: a wait for input also ends when a datagram comes there.
    /// If `socket` is `None`, the session does not wait for input at all.
    #[tactic(auto, using(crate::proofs::ExchangeLemmas::opened_link))]
    pub fn open(
        device: Peer,
        end: E,
        first: Handle,
        span: Span,
        ahead: Span,
        socket: Option<RawFd>,
    ) -> Session<E>
        ensures first { (now : ℕ) × (result.link ≡ new_link device first.0 now (span_size span)) }
        ensures later { (result.device ≡ device) × (result.span ≡ span_size span) }
    {
        Session {
            panel: Panel::open(device, end, first, span, WAIT_MS),
            device,
            span,
            in_flight: InFlight::new(),
            ahead: usize::from(ahead.get()),
            refused: false,
            socket,
            is_open: false,
            at_hand: None,
        }
    }

    /// How many commands are in flight: 0 to 32.
    pub fn in_flight(&self) -> usize
        ensures { result ≡ length self.now.in_flight }
    {
        self.in_flight.len()
    }

    /// How many commands may be in flight at most when one more is submitted: 0 to 31.
    pub fn left(&self) -> usize
        ensures value { result ≡ self.now.ahead - 1 }
        ensures most { result < 32 }
        ensures less { result < self.now.ahead }
    {
        self.ahead - 1
    }

    /// The end over which the session sends.
    pub fn end(&self) -> &E {
        self.panel.end()
    }

    /// Whether a command got no answer, at any time since the session was made.
    pub fn unanswered(&self) -> bool {
        self.refused || self.panel.unanswered()
    }

    /// Notes that a command got no answer: [`unanswered`](Session::unanswered) is then `true`.
    pub fn refuse(&mut self)
        ensures { self.new ≡ record self.old { unanswered = true } }
    {
        self.refused = true;
    }

    /// Notes that a read follows: all lines that were read before were handled.
    pub fn await_line(&mut self)
        ensures { self.new ≡ record self.old { at_hand = None } }
    {
        self.at_hand = None;
    }

    /// Notes that a line is now handled, and at which moment it counts as read. The first line after a read counts as
    /// read at the end's present moment. A later line counts as read at the moment of the last submit since that read,
    /// or together with the first line if nothing was submitted since.
    ///
    /// If the link is lost or late, and no command is in flight, a new link takes its place, so that commands can be
    /// sent again. Handles go on behind those of the old link; if these are used up, the link stays.
    pub fn take_up(&mut self)
        ensures { TakesUp self.old self.new }
    {
        let now = present(&self.panel);
        self.at_hand = Some(since(self.at_hand, now));
        if !self.in_flight.is_empty() {
            return;
        }
        renew_if_lost(&mut self.panel, self.device, self.span);
    }

    /// Submits the command of a line and sends it at once, and returns its handle. Fewer than 32 commands must be in
    /// flight (a premise). Refusals, which change nothing: `Lost` if the line was read more than 15,000 ms ago, by the
    /// end's clock ([`take_up`](Session::take_up)). Otherwise those of [`Panel::begin`].
    pub fn submit(&mut self, request: Request<'_>) -> Result<Handle, ControlFault>
        requires { length self.old.in_flight < 32 }
        ensures { Submitted (request_of request.entry) result self.old self.new }
    {
        let now = present(&self.panel);
        if comes_late(self.at_hand, now) {
            return Err(ControlFault::Lost);
        }
        match self.in_flight.begin_behind(&mut self.panel, request, ()) {
            Ok(handle) => {
                self.is_open = true;
                self.at_hand = Some(now);
                Ok(handle)
            }
            Err(fault) => Err(fault),
        }
    }

    /// Whether there is nothing to do: no command is in flight, and either none was submitted yet or the link is lost.
    pub fn is_over(&self) -> bool
        ensures { result ≡ true → NoneInFlight self.now }
    {
        self.in_flight.is_empty() && (!self.is_open || self.panel.link().is_lost())
    }

    /// The end's descriptor; `None` if it has none.
    pub fn socket(&self) -> Option<RawFd> {
        self.socket
    }

    /// How many milliseconds the program may wait before the next turn, at most an hour. 0 if the end has no
    /// descriptor.
    pub fn wait_time(&self) -> u64 {
        let due = self.panel.next_due().unwrap_or(u64::MAX);
        let wait = due
            .saturating_sub(present(&self.panel))
            .min(LONGEST_WAIT_MS);
        self.socket.map_or(0, |_| wait)
    }

    /// Takes one turn, and returns whether the link is lost or late: receives once, at a socket for at most 50 ms, and
    /// sends what is due.
    pub fn turn(&mut self) -> bool
        ensures { TakesOne self.old self.new }
    {
        self.panel.turn_with_report().lost
    }

    /// Takes the outcome of the first command in flight, if it is known without a turn: that command is then no longer
    /// in flight. `None` if it is not known, or no command is in flight: then nothing is changed.
    pub fn take_first(&mut self) -> Option<Outcome>
        ensures { TakesFirst result self.old self.new }
    {
        let Some((_, outcome)) = self.in_flight.try_finish_first(&mut self.panel) else {
            return None;
        };
        Some(outcome)
    }

    /// Waits for the outcome of the first command in flight, as long as the panel waits for a command. That command is
    /// then no longer one of the session's. At least one command must be in flight (a premise). After `Unanswered` the
    /// link still sends it; after `Lost` it does not.
    pub fn await_first(&mut self) -> Outcome
        requires { 0 < length self.old.in_flight }
        ensures { AwaitsFirst self.old self.new result }
    {
        let Some((_, outcome)) = self.in_flight.finish_first(&mut self.panel) else {
            unreachable!()
        };
        outcome
    }
}

impl<N: Net + Clock> Session<DeviceEnd<'_, N>> {
    /// If the link is lost or late now, prints to `faults` what is known of the reason, as [`note_no_answer`] does. A
    /// device that was never heard is first asked whether it is there. If the link is neither, nothing is done.
    #[tactic(auto, using(crate::proofs::ExchangeLemmas::still_waits))]
    pub fn note_silence<F: Sink>(&mut self, alloc: Global, system: &N, faults: &mut Printer<F>) {
        if self.panel.is_lost() {
            note_no_answer(alloc, system, &mut self.panel, self.device, faults);
        }
    }
}

/// If the link of a panel is lost or late, goes on with a new link to the device at the address `device`. Handles go on
/// behind those of the old link; if these are used up, the link stays.
fn renew_if_lost<E: End>(panel: &mut Panel<E>, device: Peer, span: Span)
    ensures { RenewsPanel device (span_size span) panel.old panel.new }
{
    if !panel.is_lost() {
        return;
    }
    if let Some(next) = panel.next_handle() {
        panel.renew(device, next, span);
    }
}

/// Since when a line is at hand; now, where it is the first one behind a read.
fn since(at_hand: Option<u64>, now: u64) -> u64
    ensures { result ≡ since at_hand now }
{
    at_hand.unwrap_or(now)
}

/// Whether a line was at hand for longer than a command may take to leave: while the program is awake no answer is
/// awaited for so long.
fn comes_late(at_hand: Option<u64>, now: u64) -> bool
    ensures late { result ≡ true → since at_hand now + longest_life < now }
    ensures in_time { result ≡ false → now ≤ since at_hand now + longest_life }
{
    now.saturating_sub(since(at_hand, now)) > LONGEST_LIFE_MS
}
