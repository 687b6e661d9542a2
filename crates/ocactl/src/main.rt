//! The controller as a program: `ocactl tree`, `get`, `set`, `lock` and `unlock` speak of a device's objects in words,
//! `ocactl send` sends a command to a device over UDP and prints its answer, `ocactl run` sends the commands on
//! standard input, and `ocactl replay` runs a link over the script there.
#![tactic(auto)]

use oca_net::{CountsSleep, fill_standard_descriptors};
use oca_program::{report, words_of};
use oca_script::{FromReader, Printer, ToWriter};
use ocactl_cli::console::Console;
use std::io;
use std::process::ExitCode;

/// Runs the program on its command line and the standard streams.
fn main(rt: HostRuntime) -> ExitCode {
    let _ = fill_standard_descriptors(&rt);
    let mut faults = Printer::new(ToWriter::new(rt.stderr()));
    let status = match words_of(&rt) {
        Ok(words) => Console {
            alloc: rt.alloc(),
            system: &CountsSleep(&rt),
            reader: &mut FromReader::awaited(rt.stdin()),
            printer: &mut Printer::new(ToWriter::new(io::writer(&rt))),
            faults: &mut faults,
        }
        .run(words.as_slice()),
        Err(failure) => report(&failure, &mut faults),
    };
    ExitCode::from(status)
}
