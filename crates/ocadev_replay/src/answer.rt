//! The lines that are printed for an event.
ghost use Rattle.std.specs.Prelude.{◌≡◌, ◌+◌, ◌++◌, ◌≤◌, length};
ghost use Rattle.std.specs.List.{flat_map};
ghost use Rattle.oca_types.specs.Sizes.{largest_datagram};
ghost use Rattle.oca_script.specs.Ends.{output};
ghost use Rattle.oca_script.specs.Printing.{Prints};
ghost use Rattle.ocadev_replay.specs.Printing.{verdict_text, reused_text, packet_text as line_text};

use oca_device::{Outbox, Verdict};
use oca_script::{Printer, Sink, WriteFailed};

/// Room for the line of what became of a datagram.
const VERDICT_ROOM: usize = 128;

/// Room for the line of a packet.
const PACKET_ROOM: usize = 2960;

/// Prints a line that says what a device did with a datagram, as PROTOCOL.md lists it. The line can wait in the
/// printer. The only refusal is `WriteFailed`, if a write failed; then perhaps only the beginning of the text was
/// written. The call takes no memory.
#[tactic(auto, using(oca_script::proofs::PrintLemmas::printing))]
pub fn print_verdict<W: Sink>(verdict: Verdict, printer: &mut Printer<W>) -> Result<(), WriteFailed>
    ensures { Prints result printer.old printer.new (verdict_text verdict) }
{
    printer.make_room(VERDICT_ROOM)?;
    put_verdict(printer, verdict);
    Ok(())
}

/// Prints a line for each packet of the outbox, in order: `> ` and the bytes in hexadecimal. An empty outbox prints
/// nothing. The lines can wait in the printer. The only refusal is `WriteFailed`, if a write failed; then perhaps only
/// the beginning of the text was written. The call takes no memory, and the outbox is unchanged.
pub fn print_packets<W: Sink>(outbox: &Outbox, printer: &mut Printer<W>) -> Result<(), WriteFailed>
    ensures { Prints result printer.old printer.new (flat_map line_text outbox.now) }
{
    for i in 0..outbox.len() {
        let Some(packet) = outbox.get(i) else {
            return Ok(());
        };
        print_packet(packet.as_slice(), printer)?;
    }
    Ok(())
}

/// Prints a packet.
#[tactic(auto, using(oca_script::proofs::PrintLemmas::printing))]
fn print_packet<W: Sink>(packet: &[u8], printer: &mut Printer<W>) -> Result<(), WriteFailed>
    requires { length packet.now ≤ largest_datagram }
    ensures { Prints result printer.old printer.new (line_text packet.now) }
{
    printer.make_room(PACKET_ROOM)?;
    printer.put(b"> ");
    printer.put_hex(packet);
    printer.put(b"\n");
    Ok(())
}

/// Holds the line of what became of a datagram.
fn put_verdict<W: Sink>(printer: &mut Printer<W>, verdict: Verdict)
    requires { length printer.old.held + 128 ≤ 8192 }
    ensures { printer.new ≡ output printer.old.contents (printer.old.held ++ verdict_text verdict) printer.old.failed }
{
    match verdict {
        Verdict::Served {
            executed,
            kept,
            old,
            reused,
        } => {
            printer.put(b"served ");
            printer.put_number(executed as u64);
            printer.put(b" ");
            printer.put_number(kept as u64);
            printer.put(b" ");
            printer.put_number(old as u64);
            put_reused(printer, reused);
        }
        Verdict::Malformed(fault) => {
            printer.put(b"malformed ");
            printer.put_number(fault.kind.number() as u64);
            printer.put(b" at ");
            printer.put_number(fault.at as u64);
        }
        Verdict::NoRoom => printer.put(b"no-room"),
    }
    printer.put(b"\n");
}

/// Holds how many commands asked something else under a kept handle, where there are any.
fn put_reused<W: Sink>(printer: &mut Printer<W>, reused: u32)
    requires { length printer.old.held + 28 ≤ 8192 }
    ensures value { printer.new ≡ output printer.old.contents (printer.old.held ++ reused_text reused)
        printer.old.failed }
    ensures len { length printer.new.held ≤ length printer.old.held + 28 }
{
    if reused != 0 {
        printer.put(b" reused ");
        printer.put_number(reused as u64);
    }
}
