//! What the program does at its start, and where it runs.

use crate::clients::Clients;
use crate::command::{Access, Options, matches_of, options_of};
use crate::ready::Ready;
use crate::serving::EventLoop;
use crate::terms::{terms_of, token_of, units_of};
use oca_net::End;
use oca_panel::{LocalPort, Panel, Reached};
use oca_program::socket::reach_device;
use oca_program::{Failure, exit_status, help_or_failure, print_line};
use oca_script::{Printer, Sink};
use oca_types::Peer;
use oca_web::{Site, Terms, View};
use std::alloc::Global;
use std::convert::AsStr;
use std::net::Net;
use std::os::fd::AsRawFd;
use std::random::RandomSource;
use std::rt::{Clock, Files};

/// The allocator, the system and the standard streams of a run.
#[derive(Drop)]
pub struct Console<'c, R, N, W: Sink, F: Sink> {
    pub alloc: Global,
    /// The system's files and random numbers, and the network of browsers.
    pub host: &'c R,
    /// The clock, and the network of the device.
    pub system: &'c N,
    pub printer: &'c mut Printer<W>,
    pub faults: &'c mut Printer<F>,
}

impl<'c, R: Net + RandomSource + Files, N: Net + Clock, W: Sink, F: Sink> Console<'c, R, N, W, F> {
    /// Runs the program `ocapanel` on the words of its command line, its name first, and returns its exit status. It is
    /// 0 after a help text, 2 if the words are bad, and 1 if something could not be done. A fault is printed on
    /// `faults` as one line, after a line that begins with `note: ` if more is known.
    pub fn run<S: AsStr>(&mut self, words: &[S]) -> u8 {
        let ended = self.try_run(words);
        exit_status(ended, self.faults)
    }

    /// Does what the words ask for, and returns the exit status.
    fn try_run<S: AsStr>(&mut self, words: &[S]) -> Result<u8, Failure> {
        match matches_of(self.alloc, words) {
            Ok(matches) => self.serve(&options_of(self.alloc, &matches)?),
            Err(error) => help_or_failure(self.alloc, &error, self.printer),
        }
    }

    /// Reads the files that the options name, binds the sockets, and then serves until a call of the system fails or
    /// memory is refused. Ok only after 2^64 - 1 waits, which no run reaches. Failures: `Read` if a file can't be read.
    /// `BadWords` if a file has something that is refused. `Socket` if the system refused a socket, a wait or random
    /// numbers. `NoMemory` if memory was refused.
    fn serve(&mut self, options: &Options<'_>) -> Result<u8, Failure> {
        let token = token_of(self.alloc, self.host, options.access)?;
        let units = units_of(self.alloc, self.host, options.units)?;
        let way = options.way(LocalPort::Checked(options.port));
        let Reached { end, first, .. } = reach_device(
            self.alloc,
            self.system,
            way,
            false,
            self.faults,
        )?;
        let (made, socket, ip) = (end.now(), end.end().as_raw_fd(), end.end().local().ip);
        let clients = Clients::listen(self.alloc, self.host, options.listen, socket)?;
        let local = clients.local(options.listen);
        let terms = terms_of(self.alloc, self.host, options, local, token, units)?;
        self.print_listening(options.access, local, &terms);
        let view = View::new(self.alloc, options.device, options.span, first, made)?;
        let mut panel = Panel::open(options.device, Ready::new(end), first, options.span, 0);
        let mut events = EventLoop {
            site: Site::new(self.alloc, view, terms),
            console: self,
            options,
            panel: &mut panel,
            clients,
            ip,
            losses: 0,
            was_lost: false,
            ticket: 1,
            held_until: 0,
        };
        events.run()?;
        Ok(0)
    }

    /// Prints the address of the page, with the token if it was made for this run: one of a file is in no log.
    fn print_listening(&mut self, access: Access<'_>, local: Peer, terms: &Terms) {
        let _ = match (access, terms.key.as_ref()) {
            (Access::MadeToken, Some(key)) => {
                let query = key.query.as_str();
                print_line(
                    &format_args!("listening http://{local}/?{query}"),
                    self.faults,
                )
            }
            _ => print_line(&format_args!("listening http://{local}/"), self.faults),
        };
    }
}
