//! The replay of a script on a device.
ghost use Rattle.std.specs.Prelude.{◌≡◌, ℕ, List, [], IfSome, OnOk, false};
ghost use Rattle.oca_types.specs.Sizes.{DeviceSizes};
ghost use Rattle.oca_tree.specs.declared.object.Object.{Object};
ghost use Rattle.oca_device.specs.Devices.{Represents};
ghost use Rattle.oca_device.specs.Events.{Event, Datagram as DatagramEvent};
ghost use Rattle.oca_script.specs.Ends.{input};
ghost use Rattle.oca_script.specs.Replaying.{Awaited, NeverIdles};
ghost use Rattle.ocadev_replay.specs.Requests.{asked_event};
ghost use Rattle.ocadev_replay.specs.Replaying.{ServesEvent, ServesEventAndPrints, ReplayOutcome, ReplaysEvents};
ghost use Rattle.ocadev_replay.specs.PrivateRequests.{event_of};

use super::answer::{print_packets, print_verdict};
use super::request::{DATAGRAM_ROOM, ScriptEvent, parse_event};
use oca_device::{Device, Outbox};
use oca_script::lines::serve_lines;
use oca_script::{Language, Printer, ReplayFault, Sink, Source, Stop, WriteFailed};
use oca_types::Peer;

/// The rules of a device's scripts, in which a line is a datagram or a reading of the clock, and the memory for serving
/// a line.
#[derive(Drop)]
pub struct DeviceScript<'a> {
    outbox: &'a mut Outbox,
    bytes: [u8; DATAGRAM_ROOM],
}

impl<'a> Language for DeviceScript<'a> {
    type State = Device;

    type Room = DeviceScript<'a>;

    ghost Request = { Event };

    ghost asked = { asked_event };

    ghost serves = { ServesEvent };

    /// Reads what the line asks for, serves it, and prints what that gives.
    fn serve_line<W: Sink>(
        device: &mut Device,
        room: &mut DeviceScript<'a>,
        line: &[u8],
        printer: &mut Printer<W>,
    ) -> Result<(), Stop> {
        match parse_event(line, &mut room.bytes) {
            Err(fault) => Err(Stop::Line(fault)),
            Ok(request) => match serve(device, room.outbox, request, printer) {
                Ok(()) => Ok(()),
                Err(WriteFailed) => Err(Stop::Write),
            },
        }
    }

    /// Does nothing: no request is in flight behind its line.
    fn before_read<R: Source, W: Sink>(
        _device: &mut Device,
        _reader: &mut R,
        _printer: &mut Printer<W>,
    ) -> Result<(), WriteFailed>
        requires { _printer.old.held ≡ [] }
        ensures awaited { Awaited NeverIdles _device.old _device.new result _printer.old _printer.new }
        ensures empty { OnOk result (_printer.new.held ≡ []) }
        ensures source { input (R.remaining _reader.new) (R.failed _reader.new)
            ≡ input (R.remaining _reader.old) (R.failed _reader.old) }
        ensures rests { OnOk result (R.ready _reader.new ≡ false → Unit {0}) }
    {
        Ok(())
    }
}

/// Serves a request, and prints what that gives.
fn serve<W: Sink>(
    device: &mut Device,
    outbox: &mut Outbox,
    request: ScriptEvent<'_>,
    printer: &mut Printer<W>,
) -> Result<(), WriteFailed>
    ensures { ServesEventAndPrints device.old (event_of request.entry) device.new result printer.old printer.new }
{
    match request {
        ScriptEvent::Tick { now } => {
            device.tick(now);
            printer.print(b"quiet\n")
        }
        ScriptEvent::Datagram { now, from, bytes } => {
            datagram(device, outbox, from, bytes, now, printer)
        }
    }
}

/// Hands a datagram to the device, and prints what became of it and the packets that answer it.
fn datagram<W: Sink>(
    device: &mut Device,
    outbox: &mut Outbox,
    from: Peer,
    bytes: &[u8],
    now: u64,
    printer: &mut Printer<W>,
) -> Result<(), WriteFailed>
    ensures { ServesEventAndPrints device.old (DatagramEvent from bytes.now now) device.new result printer.old
        printer.new }
{
    outbox.clear();
    let verdict = device.datagram(from, bytes, now, outbox);
    print_verdict(verdict, printer)?;
    print_packets(outbox, printer)
}

/// Replays a script on the device: reads the source to its end, does what each line asks, and prints the answers after
/// what waits in the printer (the form of a script is the profile's). A line `N P HEX` is a datagram of the peer P at
/// the moment N in milliseconds; a line `N quiet` is a reading of the clock at the moment N. The outbox is emptied
/// before each datagram, and its old content does not matter. The call takes no memory. Faults:
/// - `Line` if a line is bad, with the number of the first such line, counted from 1, and its fault.
/// - `TooMuch` if the script has more than 16,777,216 bytes, and no line within them is bad. After `Line` and
///   `TooMuch`, all lines before were replayed, and their text was written.
/// - `Read` if a read failed in this call, of a source that had not failed before. Some first lines were replayed, and
///   all their text was written.
/// - `Write` if a write failed in this call, to a sink that had not failed before. Some first lines were replayed, and
///   perhaps only the beginning of their text was written.
pub fn replay<R: Source, W: Sink>(
    device: &mut Device,
    outbox: &mut Outbox,
    reader: &mut R,
    printer: &mut Printer<W>,
) -> Result<(), ReplayFault>
    // Where the bytes that the source had are known, their script was replayed, from whatever the device represented.
    ensures known { (w : DeviceSizes) (tree : List Object) (events : List Event) → Represents w device.old tree events →
        IfSome (R.remaining reader.old) (λ given.
        ReplaysEvents w tree events device.new printer.old printer.new result given) }
    // Whatever source: there are bytes, those that it gave where they are known, and the rest of what it had, and their
    // script was replayed.
    ensures reads { (w : DeviceSizes) (tree : List Object) (events : List Event) → Represents w device.old tree events →
        ReplayOutcome w tree events device.new printer.old printer.new
        (input (R.remaining reader.old) (R.failed reader.old)) (input (R.remaining reader.new) (R.failed reader.new))
        result }
{
    let mut room = DeviceScript {
        outbox,
        bytes: [0; DATAGRAM_ROOM],
    };
    serve_lines::<DeviceScript<'_>, R, W>(device, &mut room, reader, printer)
}
