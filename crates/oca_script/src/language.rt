//! What the lines of a script ask for.
ghost use Rattle.std.specs.Prelude.{◌≡◌, ◌≤◌, ℕ, List, [], Result, length, OnOk, false};
ghost use Rattle.oca_script.specs.Ends.{input};
ghost use Rattle.oca_script.specs.Fields.{fields};
ghost use Rattle.oca_script.specs.Script.{longest_line};
ghost use Rattle.oca_script.specs.Replaying.{Awaited, NeverIdles, ServesLine};
ghost use Rattle.oca_script.specs.declared.fault.LineFault.{LineFault};

use super::ends::{Sink, Source};
use super::fault::{LineFault, Stop, WriteFailed};
use super::printer::Printer;

/// The rules of a kind of script: what the fields of a line ask for, and what serving a line changes and prints.
/// [`serve_lines`](crate::lines::serve_lines) reads a script by these rules.
pub trait Language {
    /// What the requests act on.
    type State;
    /// Room for serving a request. What it holds between requests does not matter.
    type Room;

    // What a line can ask for: an event of a device, a call of a link or a command.
    ghost Request: { Type 0 };

    // What the fields of a line ask for, or their fault.
    ghost asked: { List (List ℕ) → Result Self.Request LineFault };

    // A state in which nothing is in flight, so that it may be left for as long as a read takes.
    ghost rests: { Self.State → Type 0 } = { λ _. Unit {0} };

    // By itself, between requests, a state leads to a state, and prints a text.
    ghost idles: { Self.State → Self.State → List ℕ → Type 0 } = { NeverIdles };

    // From a state a request leads to a state, and prints a text.
    ghost serves: { Self.State → Self.Request → Self.State → List ℕ → Type 0 };

    /// Serves one line of a script, and prints its text to `printer`. `state` is what the request acts on. `room` is
    /// memory for serving, whose old content does not matter. The line has at most 4,096 bytes (a premise, which the
    /// caller must prove). The call is made for no line that is empty, begins with `#` or is not ASCII. Refusals, the
    /// first that applies:
    /// - `Line` with the fault of the line's fields; then nothing is done or printed.
    /// - `Write` if a write failed; then the request was carried out, and perhaps only the beginning of the text was
    ///   written.
    fn serve_line<W: Sink>(
        state: &mut Self::State,
        room: &mut Self::Room,
        line: &[u8],
        printer: &mut Printer<W>,
    ) -> Result<(), Stop>
        requires { length line.now ≤ longest_line }
        ensures { ServesLine (asked (fields line.now)) serves state.old state.new result printer.old printer.new };

    /// Prepares for the next read of the source; [`serve_lines`](crate::lines::serve_lines) calls it before each read,
    /// when the printer has no bytes waiting (a premise, which the caller must prove). It sends and receives for the
    /// commands in flight, and prints what becomes of them. It stops as soon as a read would not wait, or no command is
    /// in flight. All that was printed is then written. If nothing is in flight, it does nothing. It reads nothing from
    /// the source. The only refusal is `WriteFailed`, if a write failed.
    fn before_read<R: Source, W: Sink>(
        state: &mut Self::State,
        reader: &mut R,
        printer: &mut Printer<W>,
    ) -> Result<(), WriteFailed>
        requires { printer.old.held ≡ [] }
        ensures awaited { Awaited idles state.old state.new result printer.old printer.new }
        ensures empty { OnOk result (printer.new.held ≡ []) }
        ensures source { input (R.remaining reader.new) (R.failed reader.new)
            ≡ input (R.remaining reader.old) (R.failed reader.old) }
        ensures rests { OnOk result (R.ready reader.new ≡ false → rests state.new) };
}
