//! A clock that counts the time for which the machine sleeps.
use crate::system;
use std::io;
use std::net::{Net, SocketAddr, UdpSocket};
use std::rt::Clock;
use std::time::Duration;

/// The same system with another clock: its monotonic time goes on while the machine sleeps (Linux's CLOCK_BOOTTIME). If
/// the system has no such clock, its own clock is used. An end that is bound over it returns moments that count sleep.
#[derive(Clone, Copy, Debug)]
pub struct CountsSleep<'a, S>(pub &'a S);

impl<S: Clock> Clock for CountsSleep<'_, S> {
    /// The time since the machine was started, its sleep included.
    fn monotonic(&self) -> io::Result<Duration> {
        match system::time_since_boot() {
            Ok(time) => Ok(time),
            Err(_) => self.0.monotonic(),
        }
    }

    /// The system's own.
    fn since_1970(&self) -> io::Result<Duration> {
        self.0.since_1970()
    }

    /// The system's own.
    fn sleep(&self, duration: Duration) {
        self.0.sleep(duration)
    }
}

impl<S: Net> Net for CountsSleep<'_, S> {
    type Stream = S::Stream;

    type Listener = S::Listener;

    /// The system's own.
    fn bind(&self, address: SocketAddr) -> io::Result<S::Listener> {
        self.0.bind(address)
    }

    /// The system's own.
    fn connect(&self, address: SocketAddr) -> io::Result<S::Stream> {
        self.0.connect(address)
    }

    /// The system's own.
    fn bind_udp(&self, address: SocketAddr) -> io::Result<UdpSocket> {
        self.0.bind_udp(address)
    }
}
