//! A panel in the browser as a program: `ocapanel --device A.B.C.D:PORT`, and a page at http://127.0.0.1:8080/.
#![tactic(auto)]

use oca_net::{CountsSleep, fill_standard_descriptors};
use oca_program::{report, words_of};
use oca_script::{Printer, ToWriter};
use ocapanel_cli::console::Console;
use std::io;
use std::process::ExitCode;

/// Runs the program on its command line and the standard streams.
fn main(rt: HostRuntime) -> ExitCode {
    let _ = fill_standard_descriptors(&rt);
    let mut faults = Printer::new(ToWriter::new(rt.stderr()));
    let status = match words_of(&rt) {
        Ok(words) => Console {
            alloc: rt.alloc(),
            host: &rt,
            system: &CountsSleep(&rt),
            printer: &mut Printer::new(ToWriter::new(io::writer(&rt))),
            faults: &mut faults,
        }
        .run(words.as_slice()),
        Err(failure) => report(&failure, &mut faults),
    };
    ExitCode::from(status)
}
