//! A port of a panel's own and a first handle, by the time of day.
ghost use Rattle.std.specs.Prelude.{◌≡◌, ◌<◌};
ghost use Rattle.std.specs.Time.{system_time_nanos};
ghost use Rattle.oca_panel.specs.OwnPorts.{HandlesRiseOrRest, IsPortAt, handles_since};

use oca_types::Handle;
use std::rt::Clock;
use std::time::{SystemTime, UNIX_EPOCH};

/// The ports that take turns.
const PORTS: [u16; 2] = [65001, 65002];

/// How many handles a turn has.
const HANDLES: u128 = 2_147_483_648;

/// A UDP port to bind, another port, and a first handle that is safe on the port to bind. One of the two ports is 65001
/// and the other 65002. This library chooses the ports and the handle, not AES70.
///
/// A handle is safe if it is above all that were used from the same address and port since the last pause of more than
/// two minutes in which nothing was sent from there and the device did not stand still. This one is, unless the time of
/// day was set back. Under a handle that is not safe a command may get no answer, or the answer to an earlier command.
#[derive(Clone, Copy, Debug, PartialEq, Eq)]
pub struct OwnPort {
    /// The port to bind at this time of day: 65001 or 65002.
    pub port: u16,
    /// The other of the two ports.
    pub other: u16,
    /// The first handle: below 2,147,483,648, so one link has at least as many handles left.
    pub first_handle: Handle,
}

impl OwnPort {
    ghost use Rattle.oca_panel.specs.OwnPorts.{IsPortByClock, first_handle_at, other_port, port_at};

    /// Returns the ports and the first handle for the present time of day, by the system's clock. If the clock can't be
    /// read, they are those for the beginning of 1970. Nothing is refused. The rule is this library's, not AES70's.
    ///
    /// The handle rises by 100,000 a second, faster than commands are answered, so a session that is used again goes on
    /// with higher handles. It starts again from 0 when it reaches 2,147,483,648, about every six hours. The port is
    /// then the other one. The session of that port is forgotten by then, unless a link is open there since then, or a
    /// program used that port as the other one.
    pub fn now<C: Clock>(clock: &C) -> OwnPort
        ensures clock { IsPortByClock result }
        ensures below { result.first_handle.0 < 2147483648 }
    {
        match SystemTime::now(clock) {
            Ok(now) => port_at_moment(now),
            Err(_) => port_at_moment(UNIX_EPOCH),
        }
    }

    /// Returns the ports and the first handle for the time of day that is `seconds` and `microseconds` after the
    /// beginning of 1970. Both numbers may be any: a million microseconds are a second. Nothing is refused. The rule is
    /// this library's, not AES70's.
    ///
    /// `port` is 65001 or 65002, and `other` is the other of the two. `first_handle` is below 2,147,483,648. It rises
    /// by 100,000 a second, and starts again from 0 about every six hours, when `port` changes.
    pub fn at(seconds: u64, microseconds: u32) -> OwnPort
        ensures handle { result.first_handle.0 ≡ first_handle_at seconds microseconds }
        ensures below { result.first_handle.0 < 2147483648 }
        ensures port { result.port ≡ port_at seconds microseconds }
        ensures other { result.other ≡ other_port result.port }
    {
        let since = handles_in(seconds, microseconds);
        let [even, odd] = PORTS;
        let (port, other) = if (since / HANDLES) % 2 == 0 {
            (even, odd)
        } else {
            (odd, even)
        };
        OwnPort {
            port,
            other,
            first_handle: Handle((since % HANDLES) as u32),
        }
    }
}

/// The port and the first handle of a moment.
fn port_at_moment(moment: SystemTime) -> OwnPort
    ensures moment { IsPortAt (system_time_nanos moment) result }
    ensures below { result.first_handle.0 < 2147483648 }
{
    match moment.duration_since(UNIX_EPOCH) {
        Ok(since) => OwnPort::at(since.as_secs(), since.subsec_micros()),
        Err(_) => OwnPort::at(0, 0),
    }
}

/// How many handles the clock gave in this time.
fn handles_in(seconds: u64, microseconds: u32) -> u128
    ensures { result ≡ handles_since seconds microseconds }
{
    u128::from(seconds) * 100_000 + u128::from(microseconds / 10)
}

/// Law: of two times of day with the same port, the later has the higher first handle, or is more than 21,474 seconds
/// after the other. [`OwnPort::at`] returns the port and the first handle of a time of day: a program that starts then
/// binds this port and gives its first command this handle. The rule is this library's, not AES70's. The function does
/// nothing at run time.
///
/// The premises are two moments for which [`OwnPort::at`] returns the same port, the later at least 10 microseconds
/// after the other. One of these then holds:
/// - The first handle of the later moment is higher.
/// - The later moment is more than 21,474 seconds after the other. A device forgets what it stored of an address and
///   port after 120 seconds without a datagram from there.
pub fn law_of_turns()
    ensures { HandlesRiseOrRest }
{}
