//! Where a script comes from, and where what it prints goes.
ghost use Rattle.std.specs.Prelude.{◌≡◌, ◌<◌, ℕ, List, Option, Bool, IfOk, IsFalse, OnErr, Some, false, true, length};
ghost use Rattle.std.specs.Io.{ReadsAtMost, WritesAtMost};
ghost use Rattle.std.specs.Io.KnownBytes.{ReadConsumes, WriteAppends};
ghost use Rattle.oca_script.specs.Ends.{Remembers, input};

use super::fault::{ReadFailed, WriteFailed};
use oca_wait::{Ready, is_in_foreground, is_terminal, wait_for};
use std::io;
use std::io::{Read, Write};
use std::os::fd::{AsRawFd, RawFd};

/// Something from which a script is read, such as a file or the standard input.
pub trait Source {
    // The bytes that reads will give from here on, where they are known.
    ghost remaining: { Self → Option (List ℕ) };

    // Whether a read has failed.
    ghost failed: { Self → Bool };

    // Whether it is known that a read does not wait: since there are bytes, or the end is reached, or it never waits.
    ghost ready: { Self → Bool } = { λ _. true };

    /// Waits for at most `milliseconds` until a read would not wait, or until the descriptor `beside` can be read. If
    /// `beside` is `None`, there is no such descriptor. The call reads nothing. Returns `true` if a read would not
    /// wait: there are bytes, or the end is reached. Returns `false` otherwise.
    fn await_input(&mut self, beside: Option<RawFd>, milliseconds: u64) -> bool
        ensures ready { ready self.new ≡ result }
        ensures source { input (remaining self.new) (failed self.new) ≡ input (remaining self.old) (failed self.old) };

    /// Reads the next bytes into the front of `buf`, and returns how many they are: at most the length of `buf`. 0
    /// means that the end is reached, or that `buf` has no room. The only refusal is `ReadFailed`, if reading failed;
    /// what `buf` then contains is not known.
    fn read(&mut self, buf: &mut [u8]) -> Result<usize, ReadFailed>
        ensures within { ReadsAtMost result buf.new }
        ensures bytes { ReadConsumes (remaining self.old) (remaining self.new) result buf.new }
        ensures failed { Remembers result (failed self.old) (failed self.new) };
}

/// Something to which the text that a script prints is written, such as a file or the standard output.
pub trait Sink {
    // The bytes that it has taken, where they are known.
    ghost contents: { Self → Option (List ℕ) };

    // Whether a write has failed.
    ghost failed: { Self → Bool };

    /// Writes some bytes from the beginning of `bytes`, and returns how many: at least one, and 0 only if `bytes` is
    /// empty. The caller writes the rest. The only refusal is `WriteFailed`, if writing failed; then no byte was
    /// written.
    fn write(&mut self, bytes: &[u8]) -> Result<usize, WriteFailed>
        ensures within { WritesAtMost result bytes.now }
        ensures some { IfOk result (λ n. 0 < length bytes.now → 0 < n) }
        ensures bytes { WriteAppends (contents self.old) (contents self.new) result bytes.now }
        ensures failed { Remembers result (failed self.old) (failed self.new) };
}

/// A [`Source`] over any reader of the standard library. It has a flag for whether a read has failed. That the flag is
/// set only if the reader failed is shown by tests, not proved.
#[derive(Drop)]
pub struct FromReader<R> {
    reader: R,
    failed: bool,
    descriptor: Option<RawFd>,
    is_terminal: bool,
    ready: bool,
}

impl<R: Read> FromReader<R> {
    /// Returns a source over the reader `reader`, of which no read has failed yet. A source gives a script its text.
    /// The source assumes that no read waits, as is true for files and memory. The call reads nothing and takes no
    /// memory.
    pub fn new(reader: R) -> FromReader<R>
        ensures reader { result.reader ≡ reader }
        ensures unfailed { result.failed ≡ false }
        ensures ready { result.ready ≡ true }
    {
        FromReader {
            reader,
            failed: false,
            descriptor: None,
            is_terminal: false,
            ready: true,
        }
    }

    /// Returns a source over this reader, of which no read has failed yet. A read of it may wait, so
    /// [`await_input`](Source::await_input) asks the operating system whether the reader's descriptor is ready. If the
    /// system cannot answer, the source assumes that a read would not wait. The call itself reads nothing and takes no
    /// memory.
    pub fn awaited(reader: R) -> FromReader<R>
    where
        R: AsRawFd,
        ensures reader { result.reader ≡ reader }
        ensures unfailed { result.failed ≡ false }
        ensures unready { result.ready ≡ false }
    {
        let descriptor = reader.as_raw_fd();
        FromReader {
            reader,
            failed: false,
            descriptor: Some(descriptor),
            is_terminal: is_terminal(descriptor),
            ready: false,
        }
    }
}

impl<R: Read> Source for FromReader<R> {
    ghost remaining = { λ s. R.remaining s.reader };

    ghost failed = { λ s. s.failed };

    ghost ready = { λ s. s.ready };

    /// Waits as [`Source::await_input`] says, by asking the operating system, if the descriptor is known. If the system
    /// cannot answer, the call assumes that a read would not wait. If the reader is a terminal and the program is in
    /// its background, the reader has nothing to read.
    fn await_input(&mut self, beside: Option<RawFd>, milliseconds: u64) -> bool {
        if let Some(descriptor) = self.descriptor {
            let asked = readable(descriptor, self.is_terminal);
            self.ready = is_ready(wait_for(asked, beside, milliseconds));
        }
        self.ready
    }

    /// Reads once from the reader, and stores whether this failed.
    fn read(&mut self, buf: &mut [u8]) -> Result<usize, ReadFailed> {
        self.ready = self.descriptor.is_none();
        match self.reader.read(buf) {
            Ok(count) => Ok(count),
            Err(_) => {
                self.failed = true;
                Err(ReadFailed)
            }
        }
    }
}

/// Whether a read does not wait, by what the system said.
fn is_ready(answer: io::Result<Ready>) -> bool
    ensures known { IfOk answer (λ ready. result ≡ ready.input) }
    ensures unknown { OnErr answer (result ≡ true) }
{
    match answer {
        Ok(ready) => ready.input,
        Err(_) => true,
    }
}

/// The descriptor, where a read of it does not stop the program.
fn readable(descriptor: RawFd, is_terminal: bool) -> Option<RawFd>
    ensures { IsFalse is_terminal → result ≡ Some descriptor }
{
    if is_terminal && !is_in_foreground(descriptor) {
        return None;
    }
    Some(descriptor)
}

/// A [`Sink`] over any writer of the standard library. It has a flag for whether a write has failed. A write of at
/// least one byte that takes no byte has failed too. That the flag is set only after such a write is shown by tests,
/// not proved.
#[derive(Drop)]
pub struct ToWriter<W> {
    writer: W,
    failed: bool,
}

impl<W: Write> ToWriter<W> {
    /// Returns a sink over the writer `writer`, to which no write has failed yet. A sink gets the text that a script
    /// prints. The call writes nothing and takes no memory.
    pub fn new(writer: W) -> ToWriter<W>
        ensures writer { result.writer ≡ writer }
        ensures unfailed { result.failed ≡ false }
    {
        ToWriter {
            writer,
            failed: false,
        }
    }
}

impl<W: Write> Sink for ToWriter<W> {
    ghost contents = { λ s. W.contents s.writer };

    ghost failed = { λ s. s.failed };

    /// Writes once to the writer, and stores whether this failed. A write that takes no byte of some has failed.
    fn write(&mut self, bytes: &[u8]) -> Result<usize, WriteFailed> {
        match self.writer.write(bytes) {
            Ok(count) => {
                if count == 0 && !bytes.is_empty() {
                    self.failed = true;
                    return Err(WriteFailed);
                }
                Ok(count)
            }
            Err(_) => {
                self.failed = true;
                Err(WriteFailed)
            }
        }
    }
}
