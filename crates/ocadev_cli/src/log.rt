//! What is printed while a device is served: a line for each datagram, and the counts so far.

use super::report::print_progress;
use oca_device::{CommandOutcome, Device, Effect, Electronics, Outbox, Report};
use oca_net::Heard;
use oca_pdu::check;
use oca_program::{FmtWriter, print_line, print_made_note};
use oca_script::{Printer, Sink};
use oca_tree::Tree;
use oca_types::{Ono, Status};
use std::alloc::{AllocError, Global};
use std::fmt::{self, Write};

/// How long a receive that fails lasts, in milliseconds.
const FAILED_MS: u64 = 50;

/// What is printed on standard error behind each turn, as far as it is asked for, and notes. A failed write is ignored.
#[derive(Drop)]
pub struct Log<'f, F: Sink> {
    pub alloc: Global,
    /// Whether a line is printed for each datagram.
    verbose: bool,
    /// The moment of the last turn; a receive that failed says none, and counts as long as it lasts.
    pub now: u64,
    /// How many milliseconds apart the counts so far are printed.
    every: u64,
    /// The moment from which they are printed next.
    next: u64,
    /// The counts so far.
    report: Report,
    faults: &'f mut Printer<F>,
}

impl<'f, F: Sink> Log<'f, F> {
    /// A log on `faults`, with a line for each datagram if `verbose`, and the counts so far every `seconds` seconds if
    /// these are given.
    pub fn new(
        alloc: Global,
        verbose: bool,
        seconds: Option<u64>,
        faults: &'f mut Printer<F>,
    ) -> Log<'f, F> {
        let every = seconds.map_or(u64::MAX, |seconds| seconds.saturating_mul(1000));
        Log {
            alloc,
            verbose,
            now: 0,
            every,
            next: every,
            report: Report::default(),
            faults,
        }
    }

    /// Prints a note, if there was memory to make it.
    pub fn note(&mut self, note: Result<String, AllocError>) {
        print_made_note(note, self.faults);
    }
}

impl<'f, F: Sink> Electronics for Log<'f, F> {
    ghost use Rattle.ocadev_cli.specs.Serving.{no_electronics};

    ghost state = { λ _. no_electronics };

    /// Does nothing.
    fn follow(&mut self, _tree: &Tree, _written: &[Ono]) {}

    /// Prints what is asked for at the end of a turn. A failed write is ignored.
    fn tell(
        &mut self,
        heard: Heard,
        bytes: &[u8],
        _answers: &Outbox,
        turn: &Report,
        device: &Device,
    ) {
        self.report = self.report + *turn;
        self.now = match heard {
            Heard::Datagram { now, .. } | Heard::Quiet { now } | Heard::Oversize { now } => now,
            Heard::Failed | Heard::Closed => self.now.saturating_add(FAILED_MS),
        };
        if self.verbose {
            let _ = print_heard(heard, bytes, turn, device, self.faults);
        }
        if self.next <= self.now {
            let locks = device.tree().lock_count();
            let _ = print_progress(&self.report, device.sessions(), locks, self.faults);
            self.next = self.now.saturating_add(self.every);
        }
    }
}

/// Prints the line of the datagram that was heard in a turn, and writes all that the printer holds: its sender, what
/// became of it, the objects that it wrote to, how many answers could not be sent, and what its commands did. Of a
/// datagram that is too large the line says only that. Nothing is printed of a turn in which no datagram came.
fn print_heard<F: Sink>(
    heard: Heard,
    bytes: &[u8],
    turn: &Report,
    device: &Device,
    faults: &mut Printer<F>,
) -> fmt::Result {
    let line = &mut FmtWriter(faults);
    match heard {
        Heard::Datagram { from, .. } => {
            write!(line, "{from}")?;
            print_outcome(turn, bytes, line)?;
            let mut word = " wrote";
            for ono in device.written() {
                write!(line, "{word} {}", ono.0)?;
                word = "";
            }
            if turn.failed_sends != 0 {
                write!(line, " failed-sends {}", turn.failed_sends)?;
            }
            print_effects(device.effects(), line)?;
        }
        Heard::Oversize { .. } => line.write_str("oversize")?,
        _ => return Ok(()),
    }
    print_line(&"", faults)
}

/// Prints what became of the datagram of a turn, in the words of `replay`.
fn print_outcome<F: Sink>(turn: &Report, bytes: &[u8], line: &mut FmtWriter<'_, F>) -> fmt::Result {
    if turn.no_room != 0 {
        return line.write_str(" no-room");
    }
    if turn.malformed != 0 {
        return match check(bytes) {
            Err(fault) => write!(line, " malformed {} at {}", fault.kind.number(), fault.at),
            Ok(_) => line.write_str(" malformed"),
        };
    }
    write!(line, " served {} {} {}", turn.executed, turn.kept, turn.old)?;
    if turn.reused != 0 {
        write!(line, " reused {}", turn.reused)?;
    }
    Ok(())
}

/// Prints which objects the commands of a datagram locked and unlocked, and which commands were refused. Nothing is
/// printed if any command was not executed, nor of a command that asks for no response.
fn print_effects<F: Sink>(effects: &[Effect], line: &mut FmtWriter<'_, F>) -> fmt::Result {
    if effects.iter().any(|effect| !matches!(effect.outcome, CommandOutcome::Executed(_))) {
        return Ok(());
    }
    for effect in effects.iter().filter(|effect| effect.respond) {
        let target = effect.target.0;
        match (effect.outcome, effect.method.level, effect.method.index) {
            (CommandOutcome::Executed(Status::Ok), 1, 3 | 6) => write!(line, " locked {target}")?,
            (CommandOutcome::Executed(Status::Ok), 1, 4) => write!(line, " unlocked {target}")?,
            (CommandOutcome::Executed(Status::Ok), _, _) => {}
            (CommandOutcome::Executed(status), _, _) => {
                write!(line, " refused {target} {}", status.name())?;
            }
            _ => {}
        }
    }
    Ok(())
}
