//! What each command does, with the allocator, the system and the standard streams.

use super::command::{Command, ServeOptions, command_of, matches_of};
use super::disk::{Claim, Disk};
use super::log::Log;
use super::objects::Objects;
use super::report::{print_objects, print_report};
use super::serving::{Served, serve};
use super::store::Kept;
use oca_device::Report;
use oca_net::{CountsSleep, DropsStale, UdpEnd};
use oca_program::socket::{bind, note_failed_sends};
use oca_program::{Failure, exit_status, help_or_failure, print_line, print_made_note, print_note};
use oca_script::{Printer, Sink, Source};
use oca_textree::print_tree;
use oca_types::Sizes;
use ocadev_replay::replay::replay;
use std::alloc::Global;
use std::convert::AsStr;
use std::fs::{self, File};
use std::net::Net;
use std::rt::{Clock, Files};

/// The note where a device is bound to every address of the machine.
const EVERY_ADDRESS: &str =
    "0.0.0.0 is every address of this machine: a reply may leave from a different address than the one that the \
    controller sent to, and the controller then drops it";

/// Of how many bytes for datagrams that have not left a host that does not answer holds less than half.
const ENOUGH_GRANTED: u32 = 500_000;

/// The allocator, the system and the standard streams of a run.
#[derive(Drop)]
pub struct Console<'c, N, R, W: Sink, F: Sink> {
    pub alloc: Global,
    pub system: &'c N,
    pub reader: &'c mut R,
    pub printer: &'c mut Printer<W>,
    pub faults: &'c mut Printer<F>,
}

impl<N: Net + Clock + Files<File = File>, R: Source, W: Sink, F: Sink> Console<'_, N, R, W, F> {
    /// Runs the program `ocadev` on the words of its command line, its name first, and returns its exit status: 0 if
    /// all was done, 2 if the command line or a line of a script or of a file of objects is wrong, and 1 if something
    /// else could not be done. A fault is printed on `faults` as one line, after a line that begins with `note: ` if
    /// more is known.
    pub fn run<S: AsStr>(&mut self, words: &[S]) -> u8 {
        let ended = self.try_run(words);
        exit_status(ended, self.faults)
    }

    /// Does what the words ask for, and returns the exit status.
    fn try_run<S: AsStr>(&mut self, words: &[S]) -> Result<u8, Failure> {
        let matches = match matches_of(self.alloc, words) {
            Ok(matches) => matches,
            Err(error) => return help_or_failure(self.alloc, &error, self.printer),
        };
        match command_of(self.alloc, &matches)? {
            Command::Replay { objects, sizes } => {
                let Served { device, outbox } = &mut self.new_device(objects, sizes)?;
                replay(device, outbox, self.reader, self.printer)?;
                Ok(0)
            }
            Command::Serve(options) => self.serve(&options),
            Command::Show { objects, as_text } => self.show(objects, as_text),
        }
    }

    /// Prints the objects of a device: as a text that `--tree` reads, or a line each.
    fn show(&mut self, objects: Objects<'_>, as_text: bool) -> Result<u8, Failure> {
        let tree = objects.load(self.alloc, self.system)?;
        if as_text {
            print_tree(&tree, self.printer)?;
        } else {
            print_objects(&tree, self.printer)?;
        }
        self.printer.flush()?;
        Ok(0)
    }

    /// Serves a device at a socket, and prints what was done.
    fn serve(&mut self, options: &ServeOptions<'_>) -> Result<u8, Failure> {
        let (mut kept, mut objects) = (None, options.objects);
        if let Some(path) = options.keep {
            let claim = Claim::new(self.alloc, self.system, path)?;
            kept = Some(Kept::new(self.alloc, self.system, path, claim)?);
            if fs::exists(self.system, path).unwrap_or(true) {
                objects = Objects::Kept(path);
            }
        }
        let mut served = self.new_device(objects, options.sizes)?;
        let report = self.serve_at_socket(options, objects, &mut served, kept)?;
        print_report(&report, self.printer)?;
        Ok(0)
    }

    /// A device with these objects and sizes, before any event.
    fn new_device(&mut self, objects: Objects<'_>, sizes: Sizes) -> Result<Served, Failure> {
        let tree = objects.load(self.alloc, self.system)?;
        Ok(Served::new(self.alloc, tree, sizes)?)
    }

    /// Binds a socket, and serves the device there until its turns are over. If it keeps its objects in a file, they are
    /// stored there before the first turn. Prints where it listens, and at the end how many sends failed.
    /// Failures: those of [`bind`], and `Write` if the objects can't be stored.
    fn serve_at_socket<D: Disk + Drop>(
        &mut self,
        options: &ServeOptions<'_>,
        objects: Objects<'_>,
        served: &mut Served,
        mut kept: Option<Kept<'_, D>>,
    ) -> Result<Report, Failure> {
        let clock = CountsSleep(self.system);
        let mut end = DropsStale::new(bind(self.alloc, &clock, options.ip, options.port)?);
        if let Some(kept) = &mut kept {
            kept.try_store(self.alloc, served.device.tree())?;
        }
        self.print_listening(end.inside());
        if let Some(path) = options.keep {
            self.note_origin(path, objects);
        }
        let mut log = Log::new(self.alloc, options.verbose, options.stats, self.faults);
        let report = serve(served, &mut end, kept, &mut log, options.turns);
        let last = end.inside().last_failed_send();
        note_failed_sends(self.alloc, report.failed_sends, last, self.faults);
        Ok(report)
    }

    /// Prints where the device listens. A note says if that is at every address of the machine, and another one if the
    /// system grants little room for datagrams that have not left. A failed write is ignored.
    fn print_listening<C: Clock>(&mut self, end: &UdpEnd<'_, C>) {
        let (local, granted) = (end.local(), end.send_buffer());
        let _ = print_line(&format_args!("listening {local}"), self.faults);
        if local.ip == 0 {
            print_note(EVERY_ADDRESS, self.faults);
        }
        if 0 < granted && granted < ENOUGH_GRANTED {
            let note = format!(in self.alloc;
                "the system grants a send buffer of {granted} bytes: datagrams to a host that does not answer may \
                fill it, and replies to other hosts are then lost"
            );
            print_made_note(note, self.faults);
        }
    }

    /// Prints with which objects a device began that keeps them in the file at the path `keep`.
    fn note_origin(&mut self, keep: &str, objects: Objects<'_>) {
        let alloc = self.alloc;
        let note = match objects {
            Objects::Kept(path) => format!(in alloc; "began with the objects of {path}"),
            Objects::Listed(path) => format!(in alloc;
                "{keep} was missing: began with the objects of {path}"
            ),
            Objects::Bench(_) => format!(in alloc;
                "{keep} was missing: began with the bench device"
            ),
        };
        print_made_note(note, self.faults);
    }
}
