//! A program that stands still with a command in flight, and an end that keeps time.
ghost use Rattle.std.specs.Prelude.{[], false, None};

use super::ends::{Fared, is_outcome};
use super::{DEVICE, GET_STATE};
use crate::tests::{Row, Said, all_agree};
use arrayvec::ArrayVec;
use oca_control::{Link, ask};
use oca_net::{End, Heard};
use oca_panel::{Probed, Watched, probe};
use oca_types::{Handle, Packet, Peer, Span};

/// An end that keeps time: it is quiet until the moment of each receive, stands still once, and notes when it sends.
#[derive(Drop)]
struct Timed {
    now: u64,
    /// The number of the receive, counted from 1, in which it stands still, and for how many milliseconds.
    still: (u64, u64),
    sends: ArrayVec<u64, 32>,
    sent: u64,
    receives: u64,
}

impl End for Timed {
    ghost state = { λ e. record {
      tells = false;
      delivered = [];
      taken = [];
      closed = false;
      failures = 0;
      receives = e.receives;
      sends = e.sent;
      moment = None;
      earliest = e.now;
      latest = e.now;
    } };

    /// Waits 50 ms.
    fn receive(&mut self, packet: &mut Packet) -> Heard {
        let until = self.now.saturating_add(50);
        self.receive_by(packet, until)
    }

    /// Waits until this moment.
    fn receive_by(&mut self, packet: &mut Packet, moment: u64) -> Heard {
        packet.clear();
        self.receives = self.receives.saturating_add(1);
        self.now = self.now.max(moment);
        if self.receives == self.still.0 {
            self.now = self.now.saturating_add(self.still.1);
        }
        Heard::Quiet { now: self.now }
    }

    /// The moment.
    fn now(&self) -> u64 {
        self.now
    }

    /// Notes the moment.
    fn send(&mut self, to: Peer, _bytes: &[u8]) -> bool {
        let _ = self.sends.try_push(self.now);
        self.sent = self.sent.saturating_add(1);
        true
    }
}

/// An end that begins at this moment, and stands still so.
fn quiet_until(now: u64, still: (u64, u64)) -> Timed {
    Timed {
        now,
        still,
        sends: ArrayVec::new(),
        sent: 0,
        receives: 0,
    }
}

/// A command at an end that begins at a moment and stands still so: for how many turns it is asked, how it fares, and
/// when the end sends.
struct Standstill(u64, (u64, u64), u32, Fared, &'static [u64]);

impl Row for Standstill {
    /// Whether it fares so over a new link, and asked once more sends nothing where the link is lost.
    fn agrees(&self, said: &mut Said) -> bool {
        let mut link = Link::new(DEVICE, Handle(1), 0, Span::default());
        let mut end = quiet_until(self.0, self.1);
        let fares = is_outcome(&ask(&mut link, &mut end, GET_STATE, self.2), self.3, said);
        let is_over = match self.3 {
            Fared::Lost => is_outcome(
                &ask(&mut link, &mut end, GET_STATE, self.2),
                Fared::Lost,
                said,
            ),
            _ => true,
        };
        fares && is_over && said.same(end.sends.as_slice(), self.4)
    }
}

/// Standstills, and what follows them.
const ROWS: &[Standstill] = rows! {
    // five turns of 50 ms go by between two copies
    Standstill(0, (0, 0), 15, Fared::Unanswered, &[0, 250, 500, 750]),
    // after an hour without a command the first copy is no repeat
    Standstill(3_600_000, (0, 0), 5, Fared::Unanswered, &[3_600_000, 3_600_250]),
    // a command that comes behind a standstill is not begun while another is in flight
    Standstill(0, (2, 14_900), 2, Fared::Unanswered, &[0, 15_000]),
    Standstill(0, (2, 14_901), 9, Fared::Lost, &[0]),
};

/// At which moment the end begins over which a device is asked that is silent, and when the end sends.
struct Silence(u64, &'static [u64]);

impl Row for Silence {
    /// Whether the device is not heard, and the end sends then.
    fn agrees(&self, said: &mut Said) -> bool {
        let mut end = Watched::new(quiet_until(self.0, (0, 0)), DEVICE);
        let found = probe(&mut end, DEVICE, Handle(7));
        found == Probed::NotHeard && said.same(end.end().sends.as_slice(), self.1)
    }
}

/// A device is asked for a second, however old the end is.
const SILENCES: &[Silence] = rows! {
    Silence(0, &[0, 0, 250, 250, 500, 500, 750, 750, 1000]),
    Silence(20_000, &[20_000, 20_000, 20_250, 20_250, 20_500, 20_500, 20_750, 20_750, 21_000]),
};

#[test]
fn nothing_is_sent_behind_a_long_standstill(rt: HostRuntime) {
    all_agree(&rt, "a command behind a standstill", ROWS);
    all_agree(&rt, "a probe of a silent device", SILENCES);
}
