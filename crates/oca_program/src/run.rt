//! How a run of a program begins and how it ends.

use super::fault::{Failure, RunFault, report};
use clap::Error;
use clap::error::ErrorKind;
use oca_script::{Printer, Sink};
use std::alloc::{AllocError, Global};
use std::env::{self, Env};
use std::io;

/// Returns the arguments of the command line, the program's name first. The call takes memory for them.
/// Failures: `NoMemory` if memory was refused. `BadWords` if an argument is not UTF-8; a note says so, if there is
/// memory for it.
pub fn words_of<R: Env + AllocGlobal>(rt: &R) -> Result<Vec<String>, Failure> {
    match env::args(rt) {
        Ok(args) => Ok(args.collect::<Vec<String>>(rt.alloc())?),
        Err(error) if error.kind() == io::ErrorKind::OutOfMemory => {
            Err(Failure::from(RunFault::NoMemory))
        }
        Err(_) => Err(Failure::with_text(
            rt.alloc(),
            RunFault::BadWords,
            "an argument is not UTF-8",
        )),
    }
}

/// Returns the exit status of a run: the status in `ended`, or that of the failure in it, which is then printed to
/// `faults` ([`report`]).
pub fn exit_status<F: Sink>(ended: Result<u8, Failure>, faults: &mut Printer<F>) -> u8 {
    match ended {
        Ok(status) => status,
        Err(failure) => report(&failure, faults),
    }
}

/// Ends a run whose command line `clap` did not match, for the reason `error`. If the command line asks for `--help` or
/// `--version`, their text is printed, and the result is the exit status 0. The call takes memory for the text or the
/// note. Failures, the first that applies:
/// - `NoMemory` if `error` says that `clap` was refused memory, or if memory for the text was refused; nothing is
///   printed.
/// - `BadWords` if the command line asks for neither text; nothing is printed. The note is the first paragraph of
///   `clap`'s text, if there is memory for it.
/// - `Write` if a write failed; perhaps only the beginning of the text was written.
pub fn help_or_failure<W: Sink>(
    alloc: Global,
    error: &Error,
    printer: &mut Printer<W>,
) -> Result<u8, Failure> {
    match error.kind() {
        ErrorKind::DisplayHelp | ErrorKind::DisplayVersion => {
            printer.print(error.to_string(alloc)?.as_bytes())?;
            printer.flush()?;
            Ok(0)
        }
        ErrorKind::OutOfMemory => Err(Failure::from(RunFault::NoMemory)),
        _ => Err(Failure::with_note(RunFault::BadWords, first_paragraph(alloc, error))),
    }
}

/// `clap`'s text up to the first empty line, as one line: `clap` gives each missing option a line of its own.
fn first_paragraph(alloc: Global, error: &Error) -> Result<String, AllocError> {
    let text = error.to_string(alloc)?;
    let mut note = String::new(alloc);
    for line in text.as_str().lines().take_while(|line| !line.is_empty()) {
        if !note.is_empty() {
            note.push(' ')?;
        }
        note.push_str(line.trim())?;
    }
    Ok(note)
}
