//! Where the program runs, and what each command does there.

use super::command::{Arguments, Command, Hold, Remote, Sending, Task, command_of, matches_of};
use super::commands::{ask_once, send_all};
use super::holding::{Keeper, Witness};
use super::objects::{LockAction, get_all, lock_all, set_all, walk};
use super::reason::{DeviceEnd, note_no_answer, note_unanswered};
use super::session::Session;
use oca_control::Link;
use oca_net::End;
use oca_panel::{LocalPort, Panel, Reached, Way};
use oca_program::socket::reach_device;
use oca_program::{Failure, exit_status, help_or_failure, print_made_note};
use oca_script::{Printer, Sink, Source};
use oca_types::{Handle, Ono, Peer, Request, Span};
use ocactl_replay::replay::replay;
use std::alloc::Global;
use std::convert::AsStr;
use std::net::Net;
use std::os::fd::AsRawFd;
use std::rt::Clock;

/// The largest span that a device's window of 32 commands bears, which it has unless it is given another.
const SPAN_OF_A_DEFAULT: u8 = 16;

/// The allocator, the system and the standard streams of a run.
#[derive(Drop)]
pub struct Console<'c, N, R, W: Sink, F: Sink> {
    pub alloc: Global,
    pub system: &'c N,
    pub reader: &'c mut R,
    pub printer: &'c mut Printer<W>,
    pub faults: &'c mut Printer<F>,
}

impl<'c, N: Net + Clock, R: Source, W: Sink, F: Sink> Console<'c, N, R, W, F> {
    /// Runs the program `ocactl` on the words of its command line, its name first, and returns its exit status. It is 0
    /// if all was done, also for a help text or the version. It is 2 if the words or a line are invalid, and 1 if
    /// something could not be done. It is 3 if an answer did not come or a command was not sent, 4 if an answer refuses
    /// or can't be used, and 5 if a lock was lost that `lock --hold` was to keep. If several apply, the first of 5, 3,
    /// 2 and 4 is returned.
    ///
    /// A fault is printed on `faults` as one line, after a line that begins with `note: ` if more is known. If no
    /// answer came, such a line also says why a send failed.
    pub fn run<S: AsStr>(&mut self, words: &[S]) -> u8 {
        let ended = self.try_run(words);
        exit_status(ended, self.faults)
    }

    /// Does what the words ask for, and returns the exit status.
    fn try_run<S: AsStr>(&mut self, words: &[S]) -> Result<u8, Failure> {
        let arguments = Arguments::new(self.alloc, words)?;
        let matches = match matches_of(self.alloc, &arguments) {
            Ok(matches) => matches,
            Err(error) => return help_or_failure(self.alloc, &error, self.printer),
        };
        match command_of(self.alloc, &arguments, &matches)? {
            Command::Replay(device, first, span) => self.replay(device, first, span),
            Command::Send(remote, sending) => {
                let reached = self.reach(remote, LocalPort::Given(0), false)?;
                self.send(reached, remote, &sending)
            }
            Command::Run(remote, ahead) => {
                let reached = self.reach(remote, LocalPort::Own, true)?;
                self.send_lines(reached, remote, ahead)
            }
            Command::Do(remote, turns, task) => {
                let reached = self.reach(remote, task.local_port(), true)?;
                self.do_task(reached, remote, turns, &task)
            }
        }
    }

    /// Replays the script of the input on a link of this device, first handle and span. The link, some 94 kB, lies in
    /// this function alone.
    #[inline(never)]
    fn replay(&mut self, device: Peer, first: Handle, span: Span) -> Result<u8, Failure> {
        let mut link = Link::new(device, first, 0, span);
        replay(&mut link, self.reader, self.printer)?;
        Ok(0)
    }

    /// Opens a socket to a device, at the port `otherwise` if the command line gives none. The note of a failure names
    /// the port if `names_port`. The search for the way has a link, some 94 kB, which lies in this function alone.
    #[inline(never)]
    fn reach(
        &mut self,
        remote: Remote,
        otherwise: LocalPort,
        names_port: bool,
    ) -> Result<Reached<'c, N>, Failure> {
        self.note_span(remote.span);
        let way = remote.way(otherwise);
        reach_device(self.alloc, self.system, way, names_port, self.faults)
    }

    /// Sends a command over an end, and prints its outcome. The link, some 94 kB, lies in this function alone.
    #[inline(never)]
    fn send(
        &mut self,
        mut reached: Reached<'c, N>,
        remote: Remote,
        sending: &Sending,
    ) -> Result<u8, Failure> {
        let mut link = Link::new(remote.device, reached.first, 0, remote.span);
        let request = Request {
            target: sending.target,
            method: sending.method,
            count: sending.count,
            params: sending.params.as_slice(),
        };
        let end = &mut reached.end;
        let status = ask_once(&mut link, end, request, sending.turns, self.printer)?;
        if status == 3 {
            let end = &reached.end;
            note_unanswered(self.alloc, self.system, end, remote.device, self.faults);
        }
        Ok(status)
    }

    /// Sends the commands of the input over an end, and prints the outcome of each. The session, some 94 kB, lies in this
    /// function alone.
    #[inline(never)]
    fn send_lines(
        &mut self,
        reached: Reached<'c, N>,
        remote: Remote,
        ahead: Span,
    ) -> Result<u8, Failure> {
        let socket = Some(reached.end.end().as_raw_fd());
        let Reached { end, first, .. } = reached;
        let mut session = Session::open(remote.device, end, first, remote.span, ahead, socket);
        send_all(&mut session, self.reader, self.printer)?;
        let status = if session.unanswered() { 3 } else { 0 };
        session.note_silence(self.alloc, self.system, self.faults);
        Ok(status)
    }

    /// Does something with objects over an end, and prints it. The panel, some 94 kB, lies in this function alone.
    #[inline(never)]
    fn do_task(
        &mut self,
        reached: Reached<'c, N>,
        remote: Remote,
        turns: u32,
        task: &Task,
    ) -> Result<u8, Failure> {
        let wait = turns.saturating_mul(50);
        let mut panel = Panel::open(remote.device, reached.end, reached.first, remote.span, wait);
        let ended = self.do_on_panel(&mut panel, remote, task);
        if panel.unanswered() && matches!(ended, Ok(3 | 5)) {
            let panel = &mut panel;
            note_no_answer(self.alloc, self.system, panel, remote.device, self.faults);
        }
        ended
    }

    /// Does something with objects over a panel, and prints it.
    fn do_on_panel(
        &mut self,
        panel: &mut Panel<DeviceEnd<'c, N>>,
        remote: Remote,
        task: &Task,
    ) -> Result<u8, Failure> {
        match task {
            Task::Tree => walk(self.alloc, panel, self.printer),
            Task::Get(onos) => Ok(get_all(panel, onos.as_slice(), self.printer)?),
            Task::Set(ahead, pairs) => {
                set_all(self.alloc, panel, pairs.as_slice(), *ahead, self.printer)
            }
            Task::Lock(onos) => {
                Ok(lock_all(panel, onos.as_slice(), LockAction::Lock, self.printer)?)
            }
            Task::Hold(onos, hold) => self.hold(panel, remote, onos.as_slice(), *hold),
            Task::Unlock(onos) => {
                Ok(lock_all(panel, onos.as_slice(), LockAction::Unlock, self.printer)?)
            }
        }
    }

    /// Locks objects, and keeps the locks. A second socket is the one of a controller that the locks shut out.
    fn hold(
        &mut self,
        panel: &mut Panel<DeviceEnd<'c, N>>,
        remote: Remote,
        onos: &[Ono],
        hold: Hold,
    ) -> Result<u8, Failure> {
        let other = Way {
            port: LocalPort::Given(0),
            first: None,
            ..remote.way(LocalPort::Own)
        };
        let reached = reach_device(self.alloc, self.system, other, true, self.faults)?;
        let witness = Witness {
            end: reached.end,
            device: remote.device,
            next: reached.first,
        };
        let mut keeper = Keeper { panel, witness };
        keeper.hold(self.alloc, onos, hold, self.reader, self.printer)
    }

    /// Prints which window the device needs, if the span is above 16 and there is memory for the line.
    fn note_span(&mut self, span: Span) {
        let size = span.get();
        if size <= SPAN_OF_A_DEFAULT {
            return;
        }
        let window = 2 * u32::from(size) - 1;
        let note = format!(in self.alloc;
            "--span {size}: the device needs a window of {window} commands or more; its default of 32 is enough for \
            a span of 16"
        );
        print_made_note(note, self.faults);
    }
}
