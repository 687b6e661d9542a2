//! The lines that are printed.
ghost use Rattle.std.specs.Prelude.{◌≡◌, ◌+◌, ◌++◌, ◌≤◌, codes, length, decimal};
ghost use Rattle.oca_script.specs.Fields.{hex_text};
ghost use Rattle.oca_script.specs.Ends.{output};
ghost use Rattle.oca_script.specs.Printing.{Prints};
ghost use Rattle.ocactl_replay.specs.Printing.{refusal_text};
ghost use Rattle.ocactl_replay.specs.PrivateLines.{reply_line_text, LineWithin};

use oca_control::{Answer, ControlFault, Due, Reception};
use oca_script::{Printer, Sink, WriteFailed};
use oca_types::Handle;

/// Room for a line.
const LINE_ROOM: usize = 3000;

/// A line that is printed for a call of a link.
#[derive(Clone, Copy)]
pub enum Line<'a> {
    /// The result of the submission of a command.
    Submission(Result<Handle, ControlFault>),
    /// What was due, with the bytes of the packet.
    Due(Due, &'a [u8]),
    /// What the link did with a datagram.
    Reception(Reception),
    /// The answer that was taken.
    Answer(&'a Answer),
    /// There was no answer to take.
    NoAnswer,
}

/// Prints one line that says what a call of a link returned, as PROTOCOL.md lists it. A packet that is due must have at
/// most 1,472 bytes (a premise, which the caller must prove). The line can wait in the printer. The only refusal is
/// `WriteFailed`, if a write failed; then perhaps only the beginning of the text was written. The call takes no memory.
#[tactic(auto, using(oca_script::proofs::PrintLemmas::printing))]
pub fn print_line<W: Sink>(printer: &mut Printer<W>, line: Line<'_>) -> Result<(), WriteFailed>
    requires { LineWithin line }
    ensures { Prints result printer.old printer.new (reply_line_text line.entry) }
{
    printer.make_room(LINE_ROOM)?;
    put_line(printer, line);
    Ok(())
}

/// Holds a line.
fn put_line<W: Sink>(printer: &mut Printer<W>, line: Line<'_>)
    requires bytes { LineWithin line }
    requires room { length printer.old.held + 3000 ≤ 8192 }
    ensures { printer.new ≡ output printer.old.contents (printer.old.held ++ reply_line_text line.entry)
        printer.old.failed }
{
    match line {
        Line::Submission(Ok(handle)) => put_number(printer, b"handle ", handle.0 as u64),
        Line::Submission(Err(fault)) => printer.put(refusal(fault)),
        Line::Due(Due::Send(_), bytes) => put_bytes(printer, b"send ", bytes),
        Line::Due(Due::KeepAlive, bytes) => put_bytes(printer, b"keep-alive ", bytes),
        Line::Due(Due::Nothing, _) => printer.put(b"nothing\n"),
        Line::Due(Due::Lost, _) => printer.put(b"lost\n"),
        Line::Reception(Reception::Answered(count)) => put_number(
            printer,
            b"answered ",
            count as u64,
        ),
        Line::Reception(Reception::Stranger) => printer.put(b"stranger\n"),
        Line::Reception(Reception::Malformed) => printer.put(b"malformed\n"),
        Line::Reception(Reception::NothingNew) => printer.put(b"nothing new\n"),
        Line::Answer(answer) => {
            printer.put(b"answer ");
            printer.put_number(answer.status as u64);
            printer.put(b" ");
            printer.put_number(answer.count as u64);
            printer.put(b" ");
            printer.put_hex(answer.params.as_slice());
            printer.put(b"\n");
        }
        Line::NoAnswer => printer.put(b"none\n"),
    }
}

/// Why a command is not submitted.
fn refusal(fault: ControlFault) -> &'static [u8]
    ensures { result.now ≡ refusal_text fault }
{
    match fault {
        ControlFault::Lost => b"refused 1 lost\n",
        ControlFault::HandlesSpent => b"refused 2 handles-spent\n",
        ControlFault::SpanFull => b"refused 3 span-full\n",
        ControlFault::TooLong => b"refused 4 too-long\n",
    }
}

/// Holds a word, a number in decimal digits, and the end of the line.
fn put_number<W: Sink>(printer: &mut Printer<W>, word: &[u8], number: u64)
    requires short { length word.now ≤ 20 }
    requires room { length printer.old.held + 3000 ≤ 8192 }
    ensures { printer.new ≡ output printer.old.contents (printer.old.held ++ (word.now ++ decimal number ++ codes "\n"))
        printer.old.failed }
{
    printer.put(word);
    printer.put_number(number);
    printer.put(b"\n");
}

/// Holds a word, bytes in hexadecimal, and the end of the line.
fn put_bytes<W: Sink>(printer: &mut Printer<W>, word: &[u8], bytes: &[u8])
    requires short { length word.now ≤ 20 }
    requires few { length bytes.now ≤ 1472 }
    requires room { length printer.old.held + 3000 ≤ 8192 }
    ensures { printer.new ≡ output printer.old.contents (printer.old.held
        ++ (word.now ++ hex_text bytes.now ++ codes "\n")) printer.old.failed }
{
    printer.put(word);
    printer.put_hex(bytes);
    printer.put(b"\n");
}
