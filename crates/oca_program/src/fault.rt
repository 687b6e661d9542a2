//! Why a run of a program fails.

use oca_script::{LineFault, ObjectFault, Printer, ReplayFault, Sink, WriteFailed};
use oca_types::NoMemory;
use std::alloc::{AllocError, Global};
use std::fmt::{self, Display, Write};
use std::io;
use thiserror::Error;

/// The most bytes of a note that is printed.
const MOST_NOTED: usize = 1000;

/// Why a run of a program fails. It is printed as one line, and gives the exit status.
#[derive(Clone, Copy, PartialEq, Eq, Debug, Error)]
pub enum RunFault {
    /// The command line does not match, or the value of an option does not have its form.
    #[error("bad words")]
    BadWords,
    /// The line of a script with this number, counted from 1, has this fault.
    #[error("line {0}: {1}")]
    Line(u64, LineFault),
    /// The line with this number, counted from 1, of the text that lists the objects has this fault.
    #[error("line {0}: {1}")]
    Object(u64, ObjectFault),
    /// The allocator or the system refused memory.
    #[error("no memory")]
    NoMemory,
    /// The input could not be read.
    #[error("read failed")]
    Read,
    /// The output could not be written.
    #[error("write failed")]
    Write,
    /// The input has more than 16,777,216 bytes.
    #[error("too much input")]
    TooMuch,
    /// The system refused the socket.
    #[error("socket failed")]
    Socket,
}

impl RunFault {
    /// Returns the exit status of the fault: 2 for what was asked wrongly (`BadWords`, `Line` and `Object`), and 1 for
    /// what could not be done.
    pub fn status(self) -> u8 {
        match self {
            RunFault::BadWords | RunFault::Line(_, _) | RunFault::Object(_, _) => 2,
            _ => 1,
        }
    }
}

/// Why a run of a program fails, with an optional note, a text that says more. The first line of the note
/// is printed before the line of the fault.
#[derive(Drop)]
pub struct Failure {
    /// The fault, which gives the exit status.
    pub fault: RunFault,
    /// The note, and `None` if nothing more is known.
    pub note: Option<String>,
}

impl Failure {
    /// Returns a failure with this fault, and with this note if there was memory to make it.
    pub fn with_note(fault: RunFault, note: Result<String, AllocError>) -> Failure {
        Failure {
            fault,
            note: note.ok(),
        }
    }

    /// Returns a failure with this fault and a copy of this note, or without a note if memory for it is refused.
    pub fn with_text(alloc: Global, fault: RunFault, note: &str) -> Failure {
        Failure::with_note(fault, String::from_str(alloc, note))
    }
}

/// Returns the failure of a run in which a call of the system failed for this reason: `NoMemory` if it refused memory,
/// and `fault` otherwise, with this note if there was memory to make it.
pub fn io_failure(
    fault: RunFault,
    reason: &io::Error,
    note: Result<String, AllocError>,
) -> Failure {
    match reason.kind() {
        io::ErrorKind::OutOfMemory => Failure::with_note(RunFault::NoMemory, note),
        _ => Failure::with_note(fault, note),
    }
}

/// Prints why a run failed, and writes all that waits in the printer. If the failure has a note whose first
/// line has at most 1,000 bytes, a line `note: ` with it comes first. The last line is that of the fault. Returns the
/// exit status of the fault. A failed write is ignored. The call takes no memory.
pub fn report<F: Sink>(failure: &Failure, faults: &mut Printer<F>) -> u8 {
    let noted = match &failure.note {
        Some(note) => write_note(note.as_str(), faults),
        None => Ok(()),
    };
    if noted.is_ok() {
        let _ = print_line(&failure.fault, faults);
    }
    failure.fault.status()
}

/// Prints to `faults` a line `note: ` with the first line of the text, and writes all that waits in the printer. If
/// that first line has more than 1,000 bytes, it is not printed. A failed write is ignored. The call takes no memory.
pub fn print_note<F: Sink>(note: &str, faults: &mut Printer<F>) {
    if write_note(note, faults).is_ok() {
        let _ = faults.flush();
    }
}

/// Prints to `faults` the line of this note, as [`print_note`] does, if there was memory to make the note.
pub fn print_made_note<F: Sink>(note: Result<String, AllocError>, faults: &mut Printer<F>) {
    if let Ok(note) = note {
        print_note(note.as_str(), faults);
    }
}

/// Writes the line of a note, unless it has more than 1,000 bytes.
fn write_note<F: Sink>(note: &str, faults: &mut Printer<F>) -> fmt::Result {
    let line = note.split('\n').next().unwrap_or(note);
    if line.len() > MOST_NOTED {
        return Ok(());
    }
    writeln!(FmtWriter(faults), "note: {line}")
}

/// Prints this as one line, and writes all that waits in the printer. Err if a write failed; then perhaps only the
/// beginning of the line was written.
pub fn print_line<D: Display, W: Sink>(line: &D, printer: &mut Printer<W>) -> fmt::Result {
    writeln!(FmtWriter(printer), "{line}")?;
    printer.flush().map_err(|_| fmt::Error)
}

/// A printer as a `fmt::Write`, to which `write!` writes.
#[derive(Drop)]
pub struct FmtWriter<'p, W: Sink>(pub &'p mut Printer<W>);

impl<W: Sink> Write for FmtWriter<'_, W> {
    /// Prints the text.
    fn write_str(&mut self, text: &str) -> fmt::Result {
        self.0.print(text.as_bytes()).map_err(|_| fmt::Error)
    }
}

impl From<RunFault> for Failure {
    /// Returns a failure with this fault and without a note.
    fn from(fault: RunFault) -> Failure {
        Failure { fault, note: None }
    }
}

impl From<ReplayFault> for Failure {
    /// Returns the failure, without a note, of a run whose script was not replayed to its end: the fault of the same
    /// name.
    fn from(fault: ReplayFault) -> Failure {
        Failure::from(match fault {
            ReplayFault::Line(number, fault) => RunFault::Line(number, fault),
            ReplayFault::Read => RunFault::Read,
            ReplayFault::Write => RunFault::Write,
            ReplayFault::TooMuch => RunFault::TooMuch,
        })
    }
}

impl From<WriteFailed> for Failure {
    /// Returns a failure with the fault `Write` and without a note.
    fn from(_fault: WriteFailed) -> Failure {
        Failure::from(RunFault::Write)
    }
}

impl From<fmt::Error> for Failure {
    /// Returns a failure with the fault `Write` and without a note.
    fn from(_fault: fmt::Error) -> Failure {
        Failure::from(RunFault::Write)
    }
}

impl From<NoMemory> for Failure {
    /// Returns a failure with the fault `NoMemory` and without a note.
    fn from(_fault: NoMemory) -> Failure {
        Failure::from(RunFault::NoMemory)
    }
}

impl From<AllocError> for Failure {
    /// Returns a failure with the fault `NoMemory` and without a note.
    fn from(_fault: AllocError) -> Failure {
        Failure::from(RunFault::NoMemory)
    }
}
