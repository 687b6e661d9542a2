//! The replay of a script on a link.
ghost use Rattle.std.specs.Prelude.{IfSome};
ghost use Rattle.oca_script.specs.Ends.{input};
ghost use Rattle.oca_script.specs.Replaying.{NeverIdles, Outcome, Replays};
ghost use Rattle.ocactl_replay.specs.Requests.{LinkCall, asked_call};
ghost use Rattle.ocactl_replay.specs.Replaying.{ServesCall, ServesCallAndPrints};
ghost use Rattle.ocactl_replay.specs.PrivateRequests.{link_call_in};

use super::line::{Line, print_line};
use super::request::{Call, PARAMS_ROOM, parse_call};
use oca_control::Link;
use oca_script::lines::serve_lines;
use oca_script::{Language, Printer, ReplayFault, Sink, Source, Stop, WriteFailed};
use oca_types::{Packet, Request};

/// The rules of a controller's scripts, in which a line is a call of a link.
pub struct LinkScript;

/// The memory for serving a line: for one packet, and for the bytes of one field.
#[derive(Drop)]
pub struct LinkRoom {
    packet: Packet,
    bytes: [u8; PARAMS_ROOM],
}

impl Language for LinkScript {
    type State = Link;

    type Room = LinkRoom;

    ghost Request = { LinkCall };

    ghost asked = { asked_call };

    ghost serves = { ServesCall };

    /// Reads the call of the line, makes it, and prints what it returns.
    fn serve_line<W: Sink>(
        link: &mut Link,
        room: &mut LinkRoom,
        line: &[u8],
        printer: &mut Printer<W>,
    ) -> Result<(), Stop> {
        let call = parse_call(line, &mut room.bytes).map_err(Stop::Line)?;
        Ok(serve(link, &mut room.packet, call, printer)?)
    }

    /// Does nothing: no request is in flight behind its line.
    fn before_read<R: Source, W: Sink>(
        _link: &mut Link,
        _reader: &mut R,
        _printer: &mut Printer<W>,
    ) -> Result<(), WriteFailed> {
        Ok(())
    }
}

/// Calls the link, and prints what it returns.
fn serve<W: Sink>(
    link: &mut Link,
    packet: &mut Packet,
    call: Call<'_>,
    printer: &mut Printer<W>,
) -> Result<(), WriteFailed>
    ensures { ServesCallAndPrints link.old (link_call_in call.entry) link.new result printer.old printer.new }
{
    match call {
        Call::Submit(now, command) => {
            let Request {
                target,
                method,
                count,
                params,
            } = command;
            let answer = link.submit(target, method, count, params, now);
            print_line(printer, Line::Submission(answer))
        }
        Call::Due(now) => {
            let due = link.due(now, packet);
            print_line(printer, Line::Due(due, packet.as_slice()))
        }
        Call::Datagram(now, from, bytes) => {
            let reception = link.datagram(from, bytes, now);
            print_line(printer, Line::Reception(reception))
        }
        Call::Take(handle) => match link.take(handle) {
            Some(answer) => print_line(printer, Line::Answer(&answer)),
            None => print_line(printer, Line::NoAnswer),
        },
    }
}

/// Replays a script on the link: reads the source to its end, makes the call of the link that each line asks for, and
/// prints its result after what waits in the printer (the form of a script is the profile's). Moments N are in
/// milliseconds, and bytes HEX in hexadecimal. The call takes no memory. The lines are:
/// - `N submit ONO LEVEL INDEX COUNT HEX` submits a command, and prints its handle or why it is refused.
/// - `N due` prints what is to be sent.
/// - `N from P HEX` is a datagram of the peer P, and prints what the link did with it.
/// - `take H` takes the answer to the command with the handle H, and prints it.
///
/// The faults are:
/// - `Line` if a line is bad, with the number of the first such line, counted from 1, and its fault.
/// - `TooMuch` if the script has more than 16,777,216 bytes, and no line within them is bad. After `Line` and
///   `TooMuch`, all lines before were replayed, and their text was written.
/// - `Read` if a read failed in this call, of a source that had not failed before. Some first lines were replayed, and
///   all their text was written.
/// - `Write` if a write failed in this call, to a sink that had not failed before. Some first lines were replayed, and
///   perhaps only the beginning of their text was written.
pub fn replay<R: Source, W: Sink>(
    link: &mut Link,
    reader: &mut R,
    printer: &mut Printer<W>,
) -> Result<(), ReplayFault>
    // Where the bytes that the source had are known, their script was replayed: each line is a call of the link, and
    // its answer was printed.
    ensures known { IfSome (R.remaining reader.old) (λ given.
        Replays asked_call ServesCall NeverIdles link.old link.new printer.old printer.new result given) }
    // Whatever source: there are bytes, those that it gave where it is known which, and the rest of what it had, and
    // their script was replayed.
    ensures reads { Outcome asked_call ServesCall NeverIdles link.old link.new printer.old printer.new
        (input (R.remaining reader.old) (R.failed reader.old))
        (input (R.remaining reader.new) (R.failed reader.new)) result }
{
    let mut room = LinkRoom {
        packet: Packet::new(),
        bytes: [0; PARAMS_ROOM],
    };
    serve_lines::<LinkScript, R, W>(link, &mut room, reader, printer)
}
