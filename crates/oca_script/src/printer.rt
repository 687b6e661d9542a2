//! What is printed is held, and given to the sink in larger pieces.
ghost use Rattle.std.specs.Prelude.{◌≡◌, ◌+◌, ◌*◌, ◌++◌, ◌≤◌, [], OnOk, decimal, length};
ghost use Rattle.oca_script.specs.Ends.{output};
ghost use Rattle.oca_script.specs.Fields.{hex_text};
ghost use Rattle.oca_script.specs.Printing.{Prints, WritesBytes};

use super::buffer::Buffer;
use super::ends::Sink;
use super::fault::WriteFailed;
use std::marker::Model;

/// The most bytes that are held.
const CAPACITY: usize = 8192;

/// A printer over a sink: it stores up to 8,192 bytes that are printed and wait to be written to the sink. If a printer
/// is dropped, the bytes that wait are lost; call [`flush`](Printer::flush) before. After a write that failed use the
/// printer no longer: a later call may write bytes a second time.
#[derive(Drop)]
pub struct Printer<W: Sink> {
    sink: W,
    held: Buffer<CAPACITY>,
}

impl<W: Sink> Model for Printer<W> {
    ghost use Rattle.oca_script.specs.Ends.{Output, output};

    ghost Value = { Output };

    ghost view = { λ p. output (W.contents p.sink) p.held (W.failed p.sink) };
}

impl<W: Sink> Printer<W> {
    /// Returns a printer over the sink `sink`, in which no bytes wait. A printer stores up to 8,192 bytes before it
    /// writes them to its sink. The call writes nothing and takes no memory from the heap.
    pub fn new(sink: W) -> Printer<W>
        ensures { result ≡ output (W.contents sink) [] (W.failed sink) }
    {
        Printer {
            sink,
            held: Buffer::new(),
        }
    }

    /// Returns the sink of the printer. Bytes that still wait in the printer are not yet written to it
    /// ([`flush`](Printer::flush)).
    pub fn sink(&self) -> &W
        ensures contents { W.contents result.now ≡ self.now.contents }
        ensures failed { W.failed result.now ≡ self.now.failed }
    {
        &self.sink
    }

    /// Writes all bytes that wait in the printer to the sink; then no bytes wait. If none wait, nothing is written. The
    /// only refusal is `WriteFailed`, if a write failed. Then perhaps only the beginning of the bytes was written, and
    /// what still waits is not known.
    pub fn flush(&mut self) -> Result<(), WriteFailed>
        ensures prints { Prints result self.old self.new [] }
        ensures empty { OnOk result (self.new.held ≡ []) }
    {
        write_held(&mut self.sink, &mut self.held)
    }

    /// Makes room for `room` more bytes, from 0 to 8,192 (a premise, which the caller must prove): if fewer are free,
    /// all bytes that wait are written to the sink. The only refusal is `WriteFailed`, if a write failed. Then perhaps
    /// only the beginning of the bytes was written, and what still waits is not known.
    pub fn make_room(&mut self, room: usize) -> Result<(), WriteFailed>
        requires { room ≤ 8192 }
        ensures prints { Prints result self.old self.new [] }
        ensures room { OnOk result (length self.new.held + room ≤ 8192) }
    {
        free(&mut self.sink, &mut self.held, room)
    }

    /// Prints the bytes, of any number. They wait in the printer, or are written to the sink after the bytes that
    /// waited before. The only refusal is `WriteFailed`, if a write failed. Then perhaps only the beginning of all
    /// these bytes was written, and what still waits is not known.
    pub fn print(&mut self, bytes: &[u8]) -> Result<(), WriteFailed>
        ensures { Prints result self.old self.new bytes.now }
    {
        hold_or_write(&mut self.sink, &mut self.held, bytes)
    }

    /// Adds the bytes to those that wait in the printer, and writes nothing to the sink. There must be room for these
    /// bytes: with those that wait already they are at most 8,192 bytes. That is a premise, which the caller must
    /// prove; [`make_room`](Printer::make_room) makes room. The call refuses nothing.
    #[inline]
    pub fn put(&mut self, bytes: &[u8])
        requires { length self.old.held + length bytes.now ≤ 8192 }
        ensures { self.new ≡ output self.old.contents (self.old.held ++ bytes.now) self.old.failed }
    {
        self.held.put(bytes);
    }

    /// Adds the number in decimal digits, from 1 to 20 of them, to the bytes that wait in the printer, and writes
    /// nothing to the sink. There must be room for 20 bytes (a premise, which the caller must prove;
    /// [`make_room`](Printer::make_room)). The call refuses nothing.
    pub fn put_number(&mut self, n: u64)
        requires { length self.old.held ≤ 8172 }
        ensures value { self.new ≡ output self.old.contents (self.old.held ++ decimal n) self.old.failed }
        ensures len { length self.new.held ≤ length self.old.held + 20 }
    {
        put_decimal(&mut self.held, n);
    }

    /// Adds the bytes as lower-case hexadecimal digits, two for each byte, or `-` for no bytes, to the bytes that wait
    /// in the printer. It writes nothing to the sink. There must be room for the digits and one byte more (a premise,
    /// which the caller must prove; [`make_room`](Printer::make_room)). The call refuses nothing.
    pub fn put_hex(&mut self, bytes: &[u8])
        requires { length self.old.held + 2 * length bytes.now + 1 ≤ 8192 }
        ensures value { self.new ≡ output self.old.contents (self.old.held ++ hex_text bytes.now) self.old.failed }
        ensures len { length self.new.held ≤ length self.old.held + 2 * length bytes.now + 1 }
    {
        put_digits(&mut self.held, bytes);
    }
}

/// Writes all of the bytes to the sink, with as many writes as needed. If there are none, nothing is written. The only
/// refusal is `WriteFailed`, if a write failed; then perhaps only the beginning of the bytes was written. The call
/// takes no memory.
pub fn write_bytes<W: Sink>(sink: &mut W, bytes: &[u8]) -> Result<(), WriteFailed>
    ensures { WritesBytes result (output (W.contents sink.old) [] (W.failed sink.old))
        (output (W.contents sink.new) [] (W.failed sink.new)) bytes.now }
{
    let mut done = 0;
    while done < bytes.len() {
        done += sink.write(&bytes[done..])?;
    }
    Ok(())
}

/// `flush` over the fields, whose goals are then ordinary ones: writes what is held to the sink.
fn write_held<W: Sink>(sink: &mut W, held: &mut Buffer<CAPACITY>) -> Result<(), WriteFailed>
    ensures prints { Prints result (output (W.contents sink.old) held.old (W.failed sink.old))
        (output (W.contents sink.new) held.new (W.failed sink.new)) [] }
    ensures empty { OnOk result (held.new ≡ []) }
{
    write_bytes(sink, held.as_slice())?;
    held.clear();
    Ok(())
}

/// `make_room` over the fields, likewise: makes room for so many bytes.
fn free<W: Sink>(sink: &mut W, held: &mut Buffer<CAPACITY>, room: usize) -> Result<(), WriteFailed>
    requires { room ≤ 8192 }
    ensures prints { Prints result (output (W.contents sink.old) held.old (W.failed sink.old))
        (output (W.contents sink.new) held.new (W.failed sink.new)) [] }
    ensures room { OnOk result (length held.new + room ≤ 8192) }
{
    if CAPACITY - held.len() < room {
        return write_held(sink, held);
    }
    Ok(())
}

/// `print` over the fields, likewise: holds the bytes, or hands them to the sink where they are too many.
#[tactic(auto, using(crate::proofs::PrintLemmas::print_rules))]
fn hold_or_write<W: Sink>(
    sink: &mut W,
    held: &mut Buffer<CAPACITY>,
    bytes: &[u8],
) -> Result<(), WriteFailed>
    ensures { Prints result (output (W.contents sink.old) held.old (W.failed sink.old))
        (output (W.contents sink.new) held.new (W.failed sink.new)) bytes.now }
{
    if bytes.len() <= CAPACITY - held.len() {
        held.put(bytes);
        return Ok(());
    }
    write_held(sink, held)?;
    if bytes.len() <= CAPACITY {
        held.put(bytes);
        return Ok(());
    }
    write_bytes(sink, bytes)
}

/// `put_number` over the buffer, likewise: appends the number in decimal digits.
#[tactic(auto, using(crate::proofs::TextLemmas::digit_rules))]
fn put_decimal(held: &mut Buffer<CAPACITY>, n: u64)
    requires { length held.old ≤ 8172 }
    ensures value { held.new ≡ held.old ++ decimal n }
    ensures len { length held.new ≤ length held.old + 20 }
{
    if n < 10 {
        held.push(b'0' + n as u8);
        return;
    }
    let mut digits = itoa::Buffer::new();
    held.put(digits.format(n).as_bytes());
}

/// `put_hex` over the buffer, likewise: appends the bytes in lower case hexadecimal, `-` for none.
#[tactic(auto, using(crate::proofs::TextLemmas::hex_rules))]
fn put_digits(held: &mut Buffer<CAPACITY>, bytes: &[u8])
    requires { length held.old + 2 * length bytes.now + 1 ≤ 8192 }
    ensures value { held.new ≡ held.old ++ hex_text bytes.now }
    ensures len { length held.new ≤ length held.old + 2 * length bytes.now + 1 }
{
    if bytes.is_empty() {
        held.put(b"-");
        return;
    }
    held.put_digits(bytes);
}
