//! Lines in, lines out: the lines of a source are read in any pieces, served one after another, and what they print is
//! written.
ghost use Rattle.std.specs.Prelude.{◌≡◌, ◌+◌, ◌<◌, ◌≤◌, ◌++◌, [], ℕ, List, length, IsTrue, OnOk, OnErr, IfOk, IfErr};
ghost use Rattle.std.specs.Prelude.{IfSome, true, false, Ok as ok};
ghost use Rattle.std.specs.Io.KnownBytes.{Consumes, Keeps, IsAtEnd};
ghost use Rattle.oca_script.specs.Ends.{input, Remembers};
ghost use Rattle.oca_script.specs.Fields.{fields};
ghost use Rattle.oca_script.specs.Script.{longest_line, Script, is_skipped as skipped_line, is_ascii as ascii_line};
ghost use Rattle.oca_script.specs.Script.{asks, parsed, parsed_by, line_then};
ghost use Rattle.oca_script.specs.PrivateScript.{script_from};
ghost use Rattle.oca_script.specs.Replaying.{Awaited, Outcome, Replays};
ghost use Rattle.oca_script.specs.PrivateSteps.{ReplayStep, Performance, is_end_failure};

use super::ends::{Sink, Source};
use super::fault::{LineFault, ReplayFault, Stop, WriteFailed};
use super::field::split_at_byte;
use super::language::Language;
use super::printer::Printer;
use super::progress::{LONGEST_LINE, Progress};

/// The most bytes of a script that count.
const LONGEST_SCRIPT: u64 = 16_777_216;

/// The most bytes that are read at a time.
const PIECE: usize = 4096;

/// Empty, or a comment.
fn is_skipped(line: &[u8]) -> bool
    ensures { result ≡ skipped_line line.now }
{
    match line {
        [] => true,
        [first, ..] => *first == b'#',
    }
}

/// Whether each byte is below 128.
fn is_ascii(bytes: &[u8]) -> bool
    ensures { result ≡ ascii_line bytes.now }
{
    bytes.is_ascii()
}

/// Whether the line asks for something, or its fault where that does not depend on its fields. `ascii` tells that each
/// byte is known to be below 128.
#[tactic(auto, unfolding(crate::specs::Script::asks))]
fn line_asks(line: &[u8], ascii: bool) -> Result<bool, LineFault>
    requires { IsTrue ascii → ascii_line line.now ≡ true }
    ensures value { result ≡ asks line.now }
    ensures within { OnOk result (length line.now ≤ longest_line) }
{
    if line.len() > LONGEST_LINE {
        return Err(LineFault::TooLong);
    }
    if is_skipped(line) {
        return Ok(false);
    }
    if ascii || is_ascii(line) {
        Ok(true)
    } else {
        Err(LineFault::Form)
    }
}

/// Serves a line that asks for something.
fn serve_asking<L: Language, W: Sink>(
    state: &mut L::State,
    room: &mut L::Room,
    number: u64,
    line: &[u8],
    printer: &mut Printer<W>,
) -> Result<(), ReplayFault>
    requires { length line.now ≤ longest_line }
    ensures { ReplayStep L.serves L.idles state.old state.new printer.old printer.new result
        (λ (s : Script L.Request). line_then number (parsed_by (ok true) (L.asked (fields line.now))) s) (λ s. s) }
{
    match L::serve_line(state, room, line, printer) {
        Ok(()) => Ok(()),
        Err(Stop::Line(fault)) => Err(ReplayFault::Line(number, fault)),
        Err(Stop::Write) => Err(ReplayFault::Write),
    }
}

/// Serves a line. `ascii` tells that each of its bytes is known to be below 128.
fn serve_line<L: Language, W: Sink>(
    state: &mut L::State,
    room: &mut L::Room,
    number: u64,
    line: &[u8],
    ascii: bool,
    printer: &mut Printer<W>,
) -> Result<(), ReplayFault>
    requires { IsTrue ascii → ascii_line line.now ≡ true }
    ensures { ReplayStep L.serves L.idles state.old state.new printer.old printer.new result
        (λ (s : Script L.Request). line_then number (parsed L.asked line.now) s) (λ s. s) }
{
    match line_asks(line, ascii) {
        Err(fault) => Err(ReplayFault::Line(number, fault)),
        Ok(false) => Ok(()),
        Ok(true) => serve_asking::<L, W>(state, room, number, line, printer),
    }
}

/// Adds bytes without a line feed to the line.
fn keep(progress: &mut Progress, bytes: &[u8]) -> Result<(), ReplayFault>
    ensures number { progress.new.number ≡ progress.old.number }
    ensures ok { OnOk result (progress.new.line ≡ progress.old.line ++ bytes.now) }
    ensures err { OnErr result (longest_line < length (progress.old.line ++ bytes.now)) }
    ensures fault { IfErr result (λ e. e ≡ ReplayFault.Line progress.old.number LineFault.TooLong) }
{
    if bytes.len() > LONGEST_LINE - progress.line.len() {
        return Err(ReplayFault::Line(progress.number, LineFault::TooLong));
    }
    progress.line.put(bytes);
    Ok(())
}

/// Serves the line whose last bytes these are. `ascii` tells that each of them is known to be below 128, `more` whether
/// a further line that asks for something is at hand.
fn serve_ended<L: Language, W: Sink>(
    state: &mut L::State,
    room: &mut L::Room,
    progress: &mut Progress,
    end: &[u8],
    ascii: bool,
    printer: &mut Printer<W>,
) -> Result<(), ReplayFault>
    requires { IsTrue ascii → ascii_line end.now ≡ true }
    ensures step { ReplayStep L.serves L.idles state.old state.new printer.old printer.new result
        (λ (s : Script L.Request). line_then progress.old.number (parsed L.asked (progress.old.line ++ end.now)) s)
        (λ s. s) }
    ensures number { progress.new.number ≡ progress.old.number }
{
    if progress.line.is_empty() {
        return serve_line::<L, W>(state, room, progress.number, end, ascii, printer);
    }
    keep(progress, end)?;
    let line = progress.line.as_slice();
    serve_line::<L, W>(state, room, progress.number, line, false, printer)
}

/// Serves the lines that end in a piece of the script, and keeps what stands behind the last.
fn serve_piece<L: Language, W: Sink>(
    state: &mut L::State,
    room: &mut L::Room,
    progress: &mut Progress,
    piece: &[u8],
    printer: &mut Printer<W>,
) -> Result<(), ReplayFault>
    requires number { progress.old.number + length piece.now ≤ 16777217 }
    ensures step { ReplayStep L.serves L.idles state.old state.new printer.old printer.new result
        (λ (m : ℕ × List ℕ). script_from L.asked progress.old.number progress.old.line (length piece.now + m.0)
        (piece.now ++ m.1))
        (λ m. script_from L.asked progress.new.number progress.new.line m.0 m.1) }
    ensures number { progress.new.number ≤ progress.old.number + length piece.now }
{
    let ascii = is_ascii(piece);
    let mut rest = piece;
    while let Some((end, after)) = split_at_byte(rest, b'\n') {
        serve_ended::<L, W>(state, room, progress, end, ascii, printer)?;
        progress.line.clear();
        progress.number += 1;
        rest = after;
    }
    keep(progress, rest)
}

/// Serves the lines of a script by the rules of the language `L`, until the end of the source `reader` or a fault (the
/// form of a script is the profile's). `state` is what the requests act on. `room` is memory for serving them, whose
/// old content does not matter. What waits in `printer` is written first, then the text of the requests. Before each
/// read [`Language::before_read`] is called, so that a read that can wait begins only if nothing is in flight. The call
/// itself takes no memory. Refusals:
/// - `Line` if a line is bad, with the number of the first such line, counted from 1, and its fault.
/// - `TooMuch` if the script has more than 16,777,216 bytes, and no line within them is bad. After `Line` and
///   `TooMuch`, all requests before were served, and their text was written.
/// - `Read` if a read failed in this call, of a source that had not failed before. Some first requests were served, and
///   all their text was written.
/// - `Write` if a write failed in this call, to a sink that had not failed before. Some first requests were served, and
///   perhaps only the beginning of their text was written.
pub fn serve_lines<L: Language, R: Source, W: Sink>(
    state: &mut L::State,
    room: &mut L::Room,
    reader: &mut R,
    printer: &mut Printer<W>,
) -> Result<(), ReplayFault>
    // Whatever source: there are bytes, those that it gave where it tells them, and the rest of what it had, and their
    // script was replayed.
    ensures reads { Outcome L.asked L.serves L.idles state.old state.new printer.old printer.new
        (input (R.remaining reader.old) (R.failed reader.old))
        (input (R.remaining reader.new) (R.failed reader.new)) result }
    // Where the bytes that it had are known, their script was.
    ensures known { IfSome (R.remaining reader.old) (λ given.
        Replays L.asked L.serves L.idles state.old state.new printer.old printer.new result given) }
{
    serve_script::<L, R, W>(state, room, reader, printer)
}

/// Serves the script, and writes what is held at the end; [`serve_lines`] says the same where the bytes are known.
fn serve_script<L: Language, R: Source, W: Sink>(
    state: &mut L::State,
    room: &mut L::Room,
    reader: &mut R,
    printer: &mut Printer<W>,
) -> Result<(), ReplayFault>
    ensures { Outcome L.asked L.serves L.idles state.old state.new printer.old printer.new
        (input (R.remaining reader.old) (R.failed reader.old))
        (input (R.remaining reader.new) (R.failed reader.new)) result }
{
    let ended = read_script::<L, R, W>(state, room, reader, printer);
    if failed_at_an_end(ended) {
        return ended;
    }
    let Ok(()) = printer.flush() else {
        return Err(ReplayFault::Write);
    };
    ended
}

/// Whether a read or a write failed.
fn failed_at_an_end(ended: Result<(), ReplayFault>) -> bool
    ensures { result ≡ is_end_failure ended }
{
    matches!(ended, Err(ReplayFault::Read | ReplayFault::Write))
}

/// Reads and serves the script. What is printed and not yet written is held.
fn read_script<L: Language, R: Source, W: Sink>(
    state: &mut L::State,
    room: &mut L::Room,
    reader: &mut R,
    printer: &mut Printer<W>,
) -> Result<(), ReplayFault>
    ensures { Performance L.asked L.serves L.idles state.old state.new printer.old printer.new
        (input (R.remaining reader.old) (R.failed reader.old))
        (input (R.remaining reader.new) (R.failed reader.new)) result }
{
    let mut progress = Progress::new();
    let mut left = LONGEST_SCRIPT;
    let mut buffer = [0u8; PIECE];
    while left > 0 {
        let most = left.min(PIECE as u64) as usize;
        let Ok(()) = await_read::<L, R, W>(state, reader, printer) else {
            return Err(ReplayFault::Write);
        };
        let piece = read_piece::<L, R>(state, reader, &mut buffer, most)?;
        if piece.is_empty() {
            let line = progress.line.as_slice();
            return serve_line::<L, W>(state, room, progress.number, line, false, printer);
        }
        left -= piece.len() as u64;
        serve_piece::<L, W>(state, room, &mut progress, piece, printer)?;
    }
    let Ok(()) = await_read::<L, R, W>(state, reader, printer) else {
        return Err(ReplayFault::Write);
    };
    let last = progress.line.as_slice();
    let over = read_piece::<L, R>(state, reader, &mut buffer, 1)?;
    if !over.is_empty() {
        return Err(ReplayFault::TooMuch);
    }
    serve_line::<L, W>(state, room, progress.number, last, false, printer)
}

/// Hands on what is held, and lets the state go on by itself until a read does not wait or nothing is in flight.
fn await_read<L: Language, R: Source, W: Sink>(
    state: &mut L::State,
    reader: &mut R,
    printer: &mut Printer<W>,
) -> Result<(), WriteFailed>
    ensures awaited { Awaited L.idles state.old state.new result printer.old printer.new }
    ensures empty { OnOk result (printer.new.held ≡ []) }
    ensures source { input (R.remaining reader.new) (R.failed reader.new)
        ≡ input (R.remaining reader.old) (R.failed reader.old) }
    ensures rests { OnOk result (R.ready reader.new ≡ false → L.rests state.new) }
{
    printer.flush()?;
    L::before_read(state, reader, printer)
}

/// The next bytes, and none only at the end. It may take as long as it will only where nothing is in flight.
fn read_piece<'a, L: Language, R: Source>(
    _state: &L::State,
    reader: &mut R,
    buffer: &'a mut [u8],
    most: usize,
) -> Result<&'a [u8], ReplayFault>
    requires rests { R.ready reader.old ≡ false → L.rests _state.now }
    requires some { 0 < most }
    requires within { most ≤ length buffer.old }
    ensures consumes { IfOk result (λ piece. Consumes (R.remaining reader.old) (R.remaining reader.new) piece.now) }
    ensures within { IfOk result (λ piece. length piece.now ≤ most) }
    ensures end { IfOk result (λ piece. length piece.now ≡ 0 → IsAtEnd (R.remaining reader.new)) }
    ensures err { OnErr result (Keeps (R.remaining reader.old) (R.remaining reader.new)) }
    ensures fault { IfErr result (λ e. e ≡ ReplayFault.Read) }
    ensures failed { Remembers result (R.failed reader.old) (R.failed reader.new) }
{
    match reader.read(&mut buffer[..most]) {
        Ok(count) => Ok(&buffer[..count]),
        Err(_) => Err(ReplayFault::Read),
    }
}
