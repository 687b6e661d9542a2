//! Commands that are sent: one, or those of lines, so many at once as may be in flight.
ghost use Rattle.std.specs.Prelude.{◌≡◌, ◌≤◌, ◌<◌, [], codes, length, OnOk, true, false, Ok as ok};
ghost use Rattle.std.specs.Str.{bytes_eq};
ghost use Rattle.oca_script.specs.Ends.{input};
ghost use Rattle.oca_script.specs.Fields.{fields};
ghost use Rattle.oca_script.specs.Printing.{Prints};
ghost use Rattle.oca_types.specs.Peers.{request_of};
ghost use Rattle.ocactl_cli.specs.Requests.{LineAsked, asked_line, is_wait as wait_line};
ghost use Rattle.ocactl_cli.specs.Exchanges.{AwaitsLine, AwaitsUntil, FirstIsOpen, Idles, NoneInFlight, DoesLine};
ghost use Rattle.ocactl_cli.specs.Exchanges.{SendsLines, is_write_failure, outcome_line};
ghost use Rattle.ocactl_cli.specs.PrivateExchanges.{AndPrints, FlushesWhereAwaited, PrintsUnlessFailed, SendsOrRefuses};
ghost use Rattle.ocactl_cli.specs.PrivateExchanges.{line_in, line_asked};

use super::object_line::status_of;
use super::session::Session;
use oca_control::{Link, Outcome, ask, refused};
use oca_net::End;
use oca_panel::done_in;
use oca_script::field::first_field;
use oca_script::lines::serve_lines;
use oca_script::{Language, LineFault, Printer, ReplayFault, Sink, Source, Stop, WriteFailed};
use oca_types::Request;
use ocactl_replay::line::{Line, print_line};
use ocactl_replay::request::{PARAMS_ROOM, parse_command};
use std::marker::PhantomData;

/// Sends one command over the end and waits for its answer, for at most `turns` turns of up to 50 ms each. Prints its
/// outcome, and writes all that the printer holds. Returns the exit status: 0 if it was answered with OK, 4
/// with another status, 3 if no answer came, or the link is lost or refuses the command. If the link is lost or
/// late, or refuses the command, nothing is sent. A command without an answer stays in flight. Refusal: `WriteFailed`
/// if a write failed; the command may have been carried out all the same.
pub fn ask_once<E: End, W: Sink>(
    link: &mut Link,
    end: &mut E,
    request: Request<'_>,
    turns: u32,
    printer: &mut Printer<W>,
) -> Result<u8, WriteFailed> {
    let outcome = ask(link, end, request, turns);
    print_outcome(&outcome, printer)?;
    printer.flush()?;
    match done_in(&outcome) {
        Ok(()) => Ok(0),
        Err(trouble) => Ok(status_of(trouble)),
    }
}

/// Prints the outcome of a command as one line. Refusal: `WriteFailed` if a write failed; then only the beginning of
/// the line may have been written.
fn print_outcome<W: Sink>(outcome: &Outcome, printer: &mut Printer<W>) -> Result<(), WriteFailed>
    ensures { Prints result printer.old printer.new (outcome_line outcome.now) }
{
    match outcome {
        Outcome::Answered(answer) => print_line(printer, Line::Answer(answer)),
        Outcome::Refused(fault) => print_line(printer, Line::Submission(Err(*fault))),
        Outcome::Lost => printer.print(b"lost\n"),
        Outcome::Unanswered => printer.print(b"no answer\n"),
    }
}

/// What a line asks for: to send a command, or that all before it are answered first.
#[derive(Clone, Copy)]
pub enum Instruction<'a> {
    Send(Request<'a>),
    Wait,
}

/// The language of lines of commands.
pub struct Commands<E>(PhantomData<E>);

impl<E: End> Language for Commands<E> {
    type State = Session<E>;

    type Room = [u8; PARAMS_ROOM];

    ghost Request = { LineAsked };

    ghost asked = { asked_line };

    ghost rests = { NoneInFlight };

    ghost idles = { AwaitsLine };

    ghost serves = { DoesLine };

    /// Reads what the line asks for, does it, and prints the outcomes of commands.
    fn serve_line<W: Sink>(
        session: &mut Session<E>,
        room: &mut [u8; PARAMS_ROOM],
        line: &[u8],
        printer: &mut Printer<W>,
    ) -> Result<(), Stop> {
        let asked = parse_line(line, room).map_err(Stop::Line)?;
        Ok(serve(session, asked, printer)?)
    }

    /// Drives the commands in flight until there is input, and prints their outcomes as soon as they are known.
    fn before_read<R: Source, W: Sink>(
        session: &mut Session<E>,
        reader: &mut R,
        printer: &mut Printer<W>,
    ) -> Result<(), WriteFailed> {
        session.await_line();
        idle(session, reader, printer)
    }
}

/// Whether the word is `wait`.
fn says_wait(word: &[u8]) -> bool
    ensures { result ≡ bytes_eq word.now (codes "wait") }
{
    word == b"wait".as_slice()
}

/// Whether the line is `wait` alone.
fn is_wait(line: &[u8]) -> bool
    ensures { result ≡ wait_line (fields line.now) }
{
    let (first, rest) = first_field(line);
    match rest {
        None => says_wait(first),
        Some(_) => false,
    }
}

/// What the line asks for. The bytes of a command's parameters are put into `room`.
#[tactic(auto, unfolding(crate::specs::Requests::asked_line))]
fn parse_line<'a>(
    line: &[u8],
    room: &'a mut [u8; PARAMS_ROOM],
) -> Result<Instruction<'a>, LineFault>
    requires { length line.now ≤ 4096 }
    ensures { line_asked result ≡ asked_line (fields line.now) }
{
    if is_wait(line) {
        return Ok(Instruction::Wait);
    }
    match parse_command(line, room) {
        Ok(request) => Ok(Instruction::Send(request)),
        Err(fault) => Err(fault),
    }
}

/// Does what a line asks for, and prints the outcomes of commands.
fn serve<E: End, W: Sink>(
    session: &mut Session<E>,
    asked: Instruction<'_>,
    printer: &mut Printer<W>,
) -> Result<(), WriteFailed>
    ensures { AndPrints (DoesLine session.old (line_in asked.entry) session.new) (ok tt) result printer.old printer.new }
{
    session.take_up();
    match asked {
        Instruction::Send(request) => {
            let left = session.left();
            let written = await_until(session, left, Ok(()), printer);
            send(session, request, written, printer)
        }
        Instruction::Wait => await_until(session, 0, Ok(()), printer),
    }
}

/// Submits a command; then so many are waited for that one more may be in flight.
fn send<E: End, W: Sink>(
    session: &mut Session<E>,
    request: Request<'_>,
    written: Result<(), WriteFailed>,
    printer: &mut Printer<W>,
) -> Result<(), WriteFailed>
    requires { length session.old.in_flight < 32 }
    ensures { AndPrints (SendsOrRefuses (request_of request.entry) session.old session.new) written result printer.old
        printer.new }
{
    match session.submit(request) {
        Ok(_) => {
            let left = session.left();
            await_until(session, left, written, printer)
        }
        Err(fault) => {
            let written = await_until(session, 0, written, printer);
            session.refuse();
            write_unless_failed(&refused(fault), written, printer)
        }
    }
}

/// Waits for commands in flight, in the order of their lines, until at most so many are. The outcome of each is printed
/// and flushed, unless a write has failed. Where no more are in flight, the printer is left as it is.
fn await_until<E: End, W: Sink>(
    session: &mut Session<E>,
    left: usize,
    written: Result<(), WriteFailed>,
    printer: &mut Printer<W>,
) -> Result<(), WriteFailed>
    ensures awaits { AndPrints (AwaitsUntil left session.old session.new) written result printer.old printer.new }
    ensures flushes { FlushesWhereAwaited left session.old result printer.old printer.new }
{
    let mut so_far = written;
    while session.in_flight() > left {
        let outcome = session.await_first();
        so_far = write_unless_failed(&outcome, so_far, printer);
    }
    so_far
}

/// Prints a command's outcome, and flushes it, unless a write has failed.
#[tactic(auto, using(crate::proofs::ExchangeLemmas::goes_flushed))]
fn write_unless_failed<W: Sink>(
    outcome: &Outcome,
    written: Result<(), WriteFailed>,
    printer: &mut Printer<W>,
) -> Result<(), WriteFailed>
    ensures prints { PrintsUnlessFailed written result printer.old printer.new (outcome_line outcome.now) }
    ensures empty { OnOk result (printer.new.held ≡ []) }
{
    let printed = print_unless_failed(outcome, written, printer);
    flush_unless_failed(printed, printer)
}

/// Takes turns while there is no input, and prints the outcomes of commands as soon as they are known: until a read
/// does not wait, or nothing is to be done any more.
fn idle<E: End, R: Source, W: Sink>(
    session: &mut Session<E>,
    reader: &mut R,
    printer: &mut Printer<W>,
) -> Result<(), WriteFailed>
    requires { printer.old.held ≡ [] }
    ensures idles { AndPrints (Idles session.old session.new) (ok tt) result printer.old printer.new }
    ensures empty { OnOk result (printer.new.held ≡ []) }
    ensures source { input (R.remaining reader.new) (R.failed reader.new)
        ≡ input (R.remaining reader.old) (R.failed reader.old) }
    ensures rests { OnOk result (R.ready reader.new ≡ false → NoneInFlight session.new) }
{
    for _turn in 0..u64::MAX {
        print_settled(session, printer)?;
        if session.is_over() {
            return Ok(());
        }
        if reader.await_input(session.socket(), session.wait_time()) {
            return Ok(());
        }
        if session.turn() {
            return await_rest(session, printer);
        }
    }
    await_rest(session, printer)
}

/// Prints the outcomes of the first commands in flight, where they are known without a turn, and flushes them.
fn print_settled<E: End, W: Sink>(
    session: &mut Session<E>,
    printer: &mut Printer<W>,
) -> Result<(), WriteFailed>
    ensures idles { AndPrints (Idles session.old session.new) (ok tt) result printer.old printer.new }
    ensures empty { OnOk result (printer.new.held ≡ []) }
    ensures first { FirstIsOpen session.new.link session.new.in_flight }
{
    let mut so_far = Ok(());
    while let Some(outcome) = session.take_first() {
        so_far = print_unless_failed(&outcome, so_far, printer);
    }
    flush_unless_failed(so_far, printer)
}

/// Waits for all commands in flight, and prints the outcome of each.
#[tactic(auto, using(crate::proofs::ExchangeLemmas::idles_rest))]
fn await_rest<E: End, W: Sink>(
    session: &mut Session<E>,
    printer: &mut Printer<W>,
) -> Result<(), WriteFailed>
    ensures idles { AndPrints (Idles session.old session.new) (ok tt) result printer.old printer.new }
    ensures empty { OnOk result (printer.new.held ≡ []) }
    ensures none { NoneInFlight session.new }
{
    let written = await_until(session, 0, Ok(()), printer);
    flush_unless_failed(written, printer)
}

/// Prints a command's outcome, unless a write has failed.
fn print_unless_failed<W: Sink>(
    outcome: &Outcome,
    written: Result<(), WriteFailed>,
    printer: &mut Printer<W>,
) -> Result<(), WriteFailed>
    ensures { PrintsUnlessFailed written result printer.old printer.new (outcome_line outcome.now) }
{
    match written {
        Ok(()) => print_outcome(outcome, printer),
        Err(WriteFailed) => Err(WriteFailed),
    }
}

/// Sends the commands that the lines of the source ask for over the session. Prints the outcome of each, in the order
/// of their lines. While no input has come, it drives the commands in flight; at the end it waits for their outcomes.
///
/// Faults: `Line` if a line is bad, with the number of the first such line, counted from 1, and its fault. `TooMuch` if
/// the source has more than 16,777,216 bytes. After these two the commands of the lines before were handled, and their
/// outcomes are printed. `Read` if a read failed, `Write` if a write failed. After `Write` commands in flight may be
/// carried out or not.
pub fn send_all<E: End, R: Source, W: Sink>(
    session: &mut Session<E>,
    reader: &mut R,
    printer: &mut Printer<W>,
) -> Result<(), ReplayFault>
    ensures { SendsLines session.old session.new printer.old printer.new
        (input (R.remaining reader.old) (R.failed reader.old)) (input (R.remaining reader.new) (R.failed reader.new))
        result }
{
    let mut room = [0; PARAMS_ROOM];
    let ended = serve_lines::<Commands<E>, R, W>(session, &mut room, reader, printer);
    if is_unwritten(ended) {
        return ended;
    }
    let written = await_until(session, 0, Ok(()), printer);
    match flush_unless_failed(written, printer) {
        Ok(()) => ended,
        Err(WriteFailed) => Err(ReplayFault::Write),
    }
}

/// Whether a write failed.
fn is_unwritten(ended: Result<(), ReplayFault>) -> bool
    ensures { result ≡ is_write_failure ended }
{
    matches!(ended, Err(ReplayFault::Write))
}

/// Flushes what is held, unless a write has failed.
fn flush_unless_failed<W: Sink>(
    written: Result<(), WriteFailed>,
    printer: &mut Printer<W>,
) -> Result<(), WriteFailed>
    ensures goes_on { PrintsUnlessFailed written result printer.old printer.new [] }
    ensures empty { OnOk result (printer.new.held ≡ []) }
{
    match written {
        Ok(()) => printer.flush(),
        Err(WriteFailed) => Err(WriteFailed),
    }
}
