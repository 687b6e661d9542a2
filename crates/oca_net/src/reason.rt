//! Why calls of the system fail.
ghost use Rattle.std.specs.Prelude.{◌≡◌};
ghost use Rattle.std.specs.IoError.{error_kind};
ghost use Rattle.oca_net.specs.Sockets.{is_interrupted, is_signal, lacks_address, reason_of, says_none_came};

use std::io;

/// Why a call failed, where it did.
pub(crate) fn reason_of<T>(done: &io::Result<T>) -> Option<io::Error>
    ensures { result ≡ reason_of done.now }
{
    match done {
        Ok(_) => None,
        Err(reason) => Some(*reason),
    }
}

/// Whether a call failed since a signal interrupted it.
pub(crate) fn is_interrupted(reason: Option<io::Error>) -> bool
    ensures { result ≡ is_interrupted reason }
{
    match reason {
        Some(reason) => is_signal(&reason),
        None => false,
    }
}

/// Whether a signal interrupted the call that failed so.
pub(crate) fn is_signal(reason: &io::Error) -> bool
    ensures { result ≡ is_signal (error_kind reason.now) }
{
    matches!(reason.kind(), io::ErrorKind::Interrupted)
}

/// Whether a socket was not bound since the machine does not have the address.
pub(crate) fn lacks_address(reason: Option<io::Error>) -> bool
    ensures { result ≡ lacks_address reason }
{
    match reason {
        Some(reason) => matches!(reason.kind(), io::ErrorKind::AddrNotAvailable),
        None => false,
    }
}

/// Whether the reason is that no datagram has come: the time of the wait is over, or a signal interrupted it.
pub(crate) fn says_none_came(reason: &io::Error) -> bool
    ensures { result ≡ says_none_came (error_kind reason.now) }
{
    matches!(
        reason.kind(),
        io::ErrorKind::WouldBlock | io::ErrorKind::TimedOut | io::ErrorKind::Interrupted
    )
}
