//! How long a receive waits, and what its moments are. No clause says what a clock tells, so these tests alone refuse
//! an end whose moments lag or stand still, or that waits longer or shorter than it says.
use super::{
    AtSockets, HELD, LOCALHOST, Machine, SocketEnd, heard_by_now, hold, instant, play, sends,
};
use crate::tests::{Agrees, Said};
use oca_net::{CountsSleep, End, Heard, UdpEnd};
use oca_types::Packet;
use std::cell::Cell;
use std::net::{Net, SocketAddr, TcpListener, TcpStream, UdpSocket};
use std::rt::Clock;
use std::time::{Duration, Instant};
use std::{io, thread};

/// The moment of a receive in which no datagram comes.
fn quiet(heard: Heard) -> Option<u64> {
    match heard {
        Heard::Quiet { now } => Some(now),
        _ => None,
    }
}

/// The moment of a receive by this moment in which no datagram comes.
fn quiet_by<E: End>(end: &mut E, packet: &mut Packet, moment: u64) -> Option<u64> {
    quiet(end.receive_by(packet, moment))
}

/// The milliseconds since then.
fn since(rt: &HostRuntime, then: Instant) -> Option<u64> {
    match then.elapsed(rt) {
        Ok(time) => u64::try_from(time.as_millis()).ok(),
        Err(_) => None,
    }
}

/// Until when a receive waits.
#[derive(Clone, Copy)]
pub enum Until {
    /// For 50 ms, as a receive does that is given no moment.
    NoMoment,
    /// For so many milliseconds.
    After(u64),
    /// Until a moment that is past.
    Past,
}

use Until::*;

/// Calls of one end, and what they must answer.
#[derive(Clone, Copy)]
pub enum Step {
    /// After a pause of so many milliseconds no moment is before the one that stands before it: the milliseconds since
    /// the end was bound, what it says of them, what a receive says, and the milliseconds since before it was bound.
    Follows(u64),
    /// The end's moment does not go back from before a receive by it, in which no datagram comes, to behind it.
    IsTimed,
    /// Receives in which no datagram comes: each waits to its end, and the shortest takes less than so many
    /// milliseconds.
    Quiet(&'static [Until], u64),
    /// 20 receives by a moment that is past, in which no datagram comes, take together less than so many
    /// milliseconds.
    TwentyPast(u64),
    /// The end hears by this moment what it sends to itself.
    Echoes(&'static [u8], u64),
}

use Step::*;

/// The fewest milliseconds that a receive takes in which no datagram comes.
fn least(until: Until) -> u64 {
    match until {
        NoMoment => 49,
        After(wait) => wait.saturating_sub(1),
        Past => 0,
    }
}

// So many waits may be too short one behind another: the system counts ticks, and on a busy machine they come late and
// then at once.
const WAITS: usize = 5;

/// What a receive hears that begins at a moment and waits so.
fn receive_until(end: &mut SocketEnd<'_>, packet: &mut Packet, begun: u64, until: Until) -> Heard {
    match until {
        NoMoment => end.receive(packet),
        After(wait) => end.receive_by(packet, begun.saturating_add(wait)),
        Past => end.receive_by(packet, 0),
    }
}

/// How long one receive takes in which no datagram comes. The packet is empty then.
fn time_once(end: &mut SocketEnd<'_>, packet: &mut Packet, until: Until) -> Option<u64> {
    hold(packet, HELD);
    let begun = end.now();
    match quiet(receive_until(end, packet, begun, until)) {
        Some(now) if packet.is_empty() => Some(now.saturating_sub(begun)),
        _ => None,
    }
}

/// How long a receive takes in which no datagram comes, where the wait was not cut short.
fn time_quiet(end: &mut SocketEnd<'_>, packet: &mut Packet, until: Until) -> Option<u64> {
    for _wait in 0..WAITS {
        let took = time_once(end, packet, until)?;
        if took >= least(until) {
            return Some(took);
        }
    }
    None
}

/// The least of the times of these receives; the last number where a datagram came.
fn shortest_quiet(end: &mut SocketEnd<'_>, packet: &mut Packet, receives: &[Until]) -> u64 {
    let mut shortest = u64::MAX;
    for until in receives {
        match time_quiet(end, packet, *until) {
            Some(took) => shortest = shortest.min(took),
            None => return u64::MAX,
        }
    }
    shortest
}

/// What an end says of the moment, and what a receive says then.
fn told(end: &mut SocketEnd<'_>, packet: &mut Packet) -> (u64, Option<u64>) {
    let asked = end.now();
    (asked, quiet_by(end, packet, 0))
}

/// Whether the moments follow one another after a pause.
fn follows(on: &mut Machine<'_>, pause: u64) -> bool {
    thread::sleep(on.rt, Duration::from_millis(pause));
    let least = since(on.rt, on.bound);
    let (asked, heard) = told(&mut on.first, &mut on.packet);
    match (least, heard, since(on.rt, on.before)) {
        (Some(least), Some(heard), Some(most)) => {
            least <= asked && asked <= heard && heard <= most
        }
        _ => false,
    }
}

/// Whether the end hears nothing, at a moment no earlier than it said before and no later than it says then.
fn is_timed(end: &mut SocketEnd<'_>, packet: &mut Packet) -> bool {
    match heard_by_now(end, packet) {
        (before, Heard::Quiet { now }, after) => before <= now && now <= after,
        _ => false,
    }
}

/// Whether 20 receives by a moment that is past are as short together as the step says, by the clock.
fn are_past(rt: &HostRuntime, end: &mut SocketEnd<'_>, packet: &mut Packet, most: u64) -> bool {
    let Some(begun) = instant(rt) else {
        return false;
    };
    let shortest = shortest_quiet(end, packet, &[Past; 20]);
    match since(rt, begun) {
        Some(took) => shortest < u64::MAX && took < most,
        None => false,
    }
}

/// Whether a receive by this moment hears these bytes.
fn hears_by(
    end: &mut SocketEnd<'_>,
    packet: &mut Packet,
    bytes: &[u8],
    moment: u64,
    said: &mut Said,
) -> bool {
    match end.receive_by(packet, moment) {
        Heard::Datagram { .. } => said.same(packet.as_slice(), bytes),
        _ => false,
    }
}

impl Agrees<Machine<'_>> for Step {
    /// Whether it is answered so by the first end.
    fn agrees(&self, on: &mut Machine<'_>, said: &mut Said) -> bool {
        if let Follows(pause) = *self {
            return follows(on, pause);
        }
        let (first, packet) = (&mut on.first, &mut on.packet);
        match *self {
            Quiet(receives, most) => shortest_quiet(first, packet, receives) < most,
            TwentyPast(most) => are_past(on.rt, first, packet, most),
            Echoes(bytes, moment) => {
                let here = first.local();
                sends(first, here, bytes, true, said)
                    && hears_by(first, packet, bytes, moment, said)
            }
            IsTimed | Follows(_) => is_timed(first, packet),
        }
    }
}

// After each of these pauses the moments are asked for.
const PAUSES: &[Step] = &[
    Follows(0),
    Follows(3),
    Follows(40),
    Follows(400),
    Follows(800),
];

// A receive that is given no moment waits 50 ms.
const NO_MOMENT: &[Step] = &[Quiet(&[NoMoment; 6], 80)];

// A wait ends with its moment, and before it where a datagram comes.
const BY_A_MOMENT: &[Step] = &[
    Quiet(&[After(1)], u64::MAX),
    Quiet(&[After(200), After(201), After(202)], 240),
    Echoes(&[1], u64::MAX),
];

// A receive by a moment that is past does not wait, and hears a datagram that is there. The next receive waits again.
const BY_THE_PAST: &[Step] = &[
    TwentyPast(200),
    Echoes(&[1, 2], 0),
    Quiet(&[NoMoment], u64::MAX),
];

// Each wait has its own time, whatever those before it had: far, near and none in turn.
const IN_TURN: &[Step] = &[
    Quiet(&[After(400)], u64::MAX),
    Quiet(&[After(20), After(20), After(20)], 60),
    TwentyPast(200),
    Quiet(&[NoMoment, NoMoment, NoMoment], 90),
    Quiet(&[After(20), After(20), After(20)], 60),
    Quiet(&[After(400)], u64::MAX),
    TwentyPast(200),
    Quiet(&[After(400)], u64::MAX),
];

/// The scripts.
const SCRIPTS: &[AtSockets<'static, Step>] = rows! {
    AtSockets("moments_are_milliseconds_since_bind", PAUSES),
    AtSockets("an_end_at_a_socket_keeps_time", &[IsTimed]),
    AtSockets("a_quiet_receive_takes_50_milliseconds", NO_MOMENT),
    AtSockets("a_receive_waits_until_its_moment", BY_A_MOMENT),
    AtSockets("a_receive_by_a_moment_that_is_past_does_not_wait", BY_THE_PAST),
    AtSockets("each_wait_has_its_own_time", IN_TURN),
};

/// A system whose clock gives the milliseconds that it is set to, and nothing where it is not set.
#[derive(Drop)]
struct SetClock<'a> {
    system: &'a HostRuntime,
    time: Cell<Option<u64>>,
}

impl Clock for SetClock<'_> {
    /// What the clock is set to.
    fn monotonic(&self) -> io::Result<Duration> {
        match self.time.get() {
            Some(time) => Ok(Duration::from_millis(time)),
            None => Err(io::Error::other("no clock")),
        }
    }

    /// The same.
    fn since_1970(&self) -> io::Result<Duration> {
        self.monotonic()
    }
}

impl Net for SetClock<'_> {
    /// The system's.
    type Stream = TcpStream;

    /// The system's.
    type Listener = TcpListener;

    /// Listens as the system does.
    fn bind(&self, address: SocketAddr) -> io::Result<TcpListener> {
        self.system.bind(address)
    }

    /// Connects as the system does.
    fn connect(&self, address: SocketAddr) -> io::Result<TcpStream> {
        self.system.connect(address)
    }

    /// Binds as the system does.
    fn bind_udp(&self, address: SocketAddr) -> io::Result<UdpSocket> {
        self.system.bind_udp(address)
    }
}

/// Whether the end gives this moment, asked and in a receive, where the clock gives so many milliseconds or nothing.
fn is_moment(
    end: &mut UdpEnd<'_, SetClock<'_>>,
    net: &SetClock<'_>,
    packet: &mut Packet,
    clock: Option<u64>,
    moment: u64,
) -> bool {
    net.time.set(clock);
    end.now() == moment && quiet_by(end, packet, 0) == Some(moment)
}

// Where the clock goes back, and where it can't be read, the latest moment is given again.
const READINGS: &[(Option<u64>, u64)] = &[
    (Some(1_000), 0),
    (Some(3_007), 2_007),
    (Some(3_006), 2_007),
    (None, 2_007),
    (Some(0), 2_007),
    (Some(3_009), 2_009),
];

/// The first reading of the clock for which the end gives another moment.
fn first_wrong_reading(
    end: &mut UdpEnd<'_, SetClock<'_>>,
    net: &SetClock<'_>,
    packet: &mut Packet,
) -> Option<usize> {
    for (at, (clock, moment)) in READINGS.iter().enumerate() {
        if !is_moment(end, net, packet, *clock, *moment) {
            return Some(at);
        }
    }
    None
}

/// The same of an end that is bound when the clock gives 1,000 ms; the last number where there is none.
fn wrong_reading(rt: &HostRuntime, packet: &mut Packet) -> Option<usize> {
    let net = SetClock {
        system: rt,
        time: Cell::new(Some(1_000)),
    };
    match UdpEnd::bind(rt.alloc(), &net, LOCALHOST, 0) {
        Ok(mut end) => first_wrong_reading(&mut end, &net, packet),
        Err(_) => Some(usize::MAX),
    }
}

/// Whether an end at this clock hears nothing up to the moment 40, and then gives moments that are no earlier.
fn is_quiet_until(end: &mut UdpEnd<'_, CountsSleep<'_, HostRuntime>>, packet: &mut Packet) -> bool {
    for _wait in 0..WAITS {
        match quiet_by(end, packet, 40) {
            Some(now) if now < 40 => {}
            Some(now) => return end.now() >= now,
            None => return false,
        }
    }
    false
}

/// Whether the clock is not behind this moment.
fn is_not_before(clock: &CountsSleep<'_, HostRuntime>, before: Duration) -> bool {
    match clock.monotonic() {
        Ok(now) => now >= before,
        Err(_) => false,
    }
}

/// The date of a clock.
fn date<C: Clock>(clock: &C) -> Option<Duration> {
    match clock.since_1970() {
        Ok(date) => Some(date),
        Err(_) => None,
    }
}

/// Whether the clock's date is the system's.
fn has_the_date(rt: &HostRuntime, clock: &CountsSleep<'_, HostRuntime>) -> bool {
    match (date(rt), date(clock), date(rt)) {
        (Some(before), Some(date), Some(behind)) => before <= date && date <= behind,
        _ => false,
    }
}

/// Whether an end over a clock that counts sleep gives moments that rise with it, and it is not behind this moment
/// then.
fn goes_on(
    rt: &HostRuntime,
    packet: &mut Packet,
    clock: &CountsSleep<'_, HostRuntime>,
    before: Duration,
) -> bool {
    match UdpEnd::bind(rt.alloc(), clock, LOCALHOST, 0) {
        Ok(mut end) => is_quiet_until(&mut end, packet) && is_not_before(clock, before),
        Err(_) => false,
    }
}

/// Whether a clock that counts sleep has the system's date, and is not behind the system's.
fn counts_sleep(rt: &HostRuntime, packet: &mut Packet) -> bool {
    let clock = CountsSleep(rt);
    match rt.monotonic() {
        Ok(before) => has_the_date(rt, &clock) && goes_on(rt, packet, &clock, before),
        Err(_) => false,
    }
}

#[test]
fn a_receive_waits_until_its_moment(rt: HostRuntime) {
    play(&rt, &rt, SCRIPTS);
}

#[test]
fn moments_do_not_go_back(rt: HostRuntime) {
    assert_eq!(rt; wrong_reading(&rt, &mut Packet::new()), None);
}

#[test]
fn a_clock_that_counts_sleep_goes_on(rt: HostRuntime) {
    assert!(rt; counts_sleep(&rt, &mut Packet::new()));
}
