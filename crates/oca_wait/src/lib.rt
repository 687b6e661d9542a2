//! Waiting for two descriptors at once: for bytes of an input, and for whatever comes in beside it.
//!
//! A program that is to act while it awaits input waits by [`wait_for`], and reads only where that says that there is
//! something. What the system's `poll` does is trusted: that it waits no longer than it is asked to, and that a read
//! of a descriptor of which it says so does not wait. No clause speaks of either.
#![tactic(auto)]

ghost use Rattle.std.specs.Prelude.{◌≡◌, ◌≢◌, IfOk, IfErr, None, false};
ghost use Rattle.std.specs.IoError.{error_kind};
ghost use Rattle.std.specs.declared.io.ErrorKind.TheVariants.{Interrupted};

use libc::net::{POLLIN, poll};
use libc::types::pollfd;
use std::io;
use std::os::fd::RawFd;

/// A descriptor that the system does not look at.
const NO_DESCRIPTOR: RawFd = -1;

/// Which of two descriptors is ready: a read of it would not wait. A read then gives bytes, the end, or an error at
/// once.
#[derive(Clone, Copy, Debug, PartialEq, Eq)]
pub struct Ready {
    /// Whether the first descriptor is ready.
    pub input: bool,
    /// Whether the second descriptor is ready.
    pub beside: bool,
}

/// Waits for at most `milliseconds` until the descriptor `input` or `beside` is ready, and returns which of them are.
/// More than 2,147,483,647 ms (some 24 days) waits for 2,147,483,647 ms. A descriptor is ready if a read of it would
/// not wait, or the system reports its end or an error. A descriptor of a file or of the null device is always ready. A
/// descriptor that is `None` is not waited for, and is never ready; if both are `None`, the call waits for the whole
/// time. If a signal ends the wait early, or the time is over, neither is ready. The call reads nothing. The only
/// refusal is the error of the operating system, for example if the limit on open descriptors (RLIMIT_NOFILE) is below
/// 2.
pub fn wait_for(input: Option<RawFd>, beside: Option<RawFd>, milliseconds: u64) -> io::Result<Ready>
    ensures input { IfOk result (λ ready. input ≡ None → ready.input ≡ false) }
    ensures beside { IfOk result (λ ready. beside ≡ None → ready.beside ≡ false) }
    ensures signal { IfErr result (λ e. error_kind e ≢ Interrupted) }
{
    let mut asked = [question(input), question(beside)];
    let most = i32::try_from(milliseconds).unwrap_or(i32::MAX);
    if poll(&mut asked, most) < 0 {
        return unless_interrupted(io::Error::from_raw_os_error(os::errno()));
    }
    Ok(Ready {
        input: has_something(input, asked[0].revents),
        beside: has_something(beside, asked[1].revents),
    })
}

/// Returns whether this descriptor is a terminal, as the operating system says. The result is `false` also if the
/// descriptor is not open. The call refuses nothing and waits for nothing.
pub fn is_terminal(descriptor: RawFd) -> bool {
    libc::isatty(descriptor) == 1
}

/// Returns whether the program is in the foreground of this terminal, as the operating system says. The system stops a
/// program in the background when it reads from the terminal. The result is `false` also if the descriptor is not a
/// terminal or not open. The call refuses nothing and waits for nothing.
pub fn is_in_foreground(terminal: RawFd) -> bool {
    libc::tcgetpgrp(terminal) == libc::getpgrp()
}

/// Asks for bytes that can be read.
fn question(descriptor: Option<RawFd>) -> pollfd {
    pollfd {
        fd: descriptor.unwrap_or(NO_DESCRIPTOR),
        events: POLLIN,
        revents: 0,
    }
}

/// Whether this descriptor, where there is one, has something by what the system answers of it.
fn has_something(descriptor: Option<RawFd>, answered: i16) -> bool
    ensures { descriptor ≡ None → result ≡ false }
{
    descriptor.is_some() && answered != 0
}

/// What a wait that fails with this error gives: neither has anything where a signal ended it.
fn unless_interrupted(error: io::Error) -> io::Result<Ready>
    ensures neither { IfOk result (λ ready. (ready.input ≡ false) × (ready.beside ≡ false)) }
    ensures signal { IfErr result (λ e. error_kind e ≢ Interrupted) }
{
    if error.kind() == io::ErrorKind::Interrupted {
        return Ok(Ready {
            input: false,
            beside: false,
        });
    }
    Err(error)
}
