//! Readers and writers in memory for tests, which cut their bytes and fail where they are told to. Each is also a
//! source or a sink of a script.
ghost use Rattle.std.specs.Prelude.{◌<◌, Some, None, false};

use arrayvec::ArrayVec;
use oca_script::{ReadFailed, Sink, Source, WriteFailed};
use std::io;
use std::io::{ErrorKind, Read, Write};
use std::os::fd::RawFd;

/// Gives its bytes in pieces of at most `piece`, and fails once `before_fault` of them were given.
#[derive(Drop)]
pub struct PieceReader<'a> {
    pub rest: &'a [u8],
    pub piece: usize,
    pub before_fault: usize,
    pub failed: bool,
    ghost some: { 0 < piece },
}

impl<'a> PieceReader<'a> {
    /// A reader that fails once `before_fault` bytes were given.
    pub fn new(bytes: &'a [u8], piece: usize, before_fault: usize) -> PieceReader<'a>
        requires { 0 < piece }
    {
        PieceReader {
            rest: bytes,
            piece,
            before_fault,
            failed: false,
        }
    }
}

impl Source for PieceReader<'_> {
    ghost remaining = { λ r. Some r.rest.now };

    ghost failed = { λ r. r.failed };

    /// No read waits.
    fn await_input(&mut self, _beside: Option<RawFd>, _milliseconds: u64) -> bool {
        true
    }

    /// Gives the next piece, or fails where all that comes before the fault was given.
    fn read(&mut self, buf: &mut [u8]) -> Result<usize, ReadFailed> {
        if self.before_fault == 0 {
            self.failed = true;
            return Err(ReadFailed);
        }
        let count = self
            .piece
            .min(self.before_fault)
            .min(self.rest.len())
            .min(buf.len());
        let (front, rest) = self.rest.split_at(count);
        buf[..count].copy_from_slice(front);
        self.rest = rest;
        self.before_fault -= count;
        Ok(count)
    }
}

impl Read for PieceReader<'_> {
    ghost remaining = { λ r. Some r.rest.now };

    /// The same as a source.
    fn read(&mut self, buf: &mut [u8]) -> io::Result<usize> {
        match Source::read(self, buf) {
            Ok(count) => Ok(count),
            Err(ReadFailed) => Err(io::Error::new(ErrorKind::Other, "fault")),
        }
    }
}

/// A piece reader whose reads would wait: before each one it says so `pauses` times.
#[derive(Drop)]
pub struct PausedReader<'a> {
    pub reader: PieceReader<'a>,
    pub pauses: u32,
    pub left: u32,
    pub ready: bool,
}

impl<'a> PausedReader<'a> {
    /// The reader, which pauses so often before each read.
    pub fn new(reader: PieceReader<'a>, pauses: u32) -> PausedReader<'a> {
        PausedReader {
            reader,
            pauses,
            left: pauses,
            ready: false,
        }
    }
}

impl Source for PausedReader<'_> {
    ghost remaining = { λ r. Some r.reader.rest.now };

    ghost failed = { λ r. r.reader.failed };

    ghost ready = { λ r. r.ready };

    /// Is ready once it has said often enough that it is not.
    fn await_input(&mut self, _beside: Option<RawFd>, _milliseconds: u64) -> bool {
        if self.left == 0 {
            self.ready = true;
        } else {
            self.left -= 1;
        }
        self.ready
    }

    /// Reads, and is then not ready.
    fn read(&mut self, buf: &mut [u8]) -> Result<usize, ReadFailed> {
        self.ready = false;
        self.left = self.pauses;
        Source::read(&mut self.reader, buf)
    }
}

/// Gives its pattern again and again, `left` bytes in all.
#[derive(Drop)]
pub struct PatternReader<'a> {
    pub pattern: &'a [u8],
    pub at: usize,
    pub left: usize,
}

impl Source for PatternReader<'_> {
    ghost remaining = { λ _. None };

    ghost failed = { λ _. false };

    /// No read waits.
    fn await_input(&mut self, _beside: Option<RawFd>, _milliseconds: u64) -> bool {
        true
    }

    /// Gives what is left of the pattern, from its front again behind its end.
    fn read(&mut self, buf: &mut [u8]) -> Result<usize, ReadFailed> {
        if self.at >= self.pattern.len() {
            self.at = 0;
        }
        let rest = &self.pattern[self.at..];
        let count = self.left.min(rest.len()).min(buf.len());
        buf[..count].copy_from_slice(&rest[..count]);
        self.at += count;
        self.left -= count;
        Ok(count)
    }
}

/// Takes at most `most` bytes in a call, and `room` in all. Beyond that it fails; as a writer it takes nothing where
/// `takes_nothing` says so.
#[derive(Drop)]
pub struct ShortWriter {
    pub taken: ArrayVec<u8, 16384>,
    pub most: usize,
    pub room: usize,
    pub takes_nothing: bool,
    pub failed: bool,
}

impl ShortWriter {
    /// A writer that has taken nothing, and fails beyond its room.
    pub fn new(most: usize, room: usize) -> ShortWriter {
        ShortWriter {
            taken: ArrayVec::new(),
            most,
            room,
            takes_nothing: false,
            failed: false,
        }
    }
}

impl Sink for ShortWriter {
    ghost contents = { λ w. Some w.taken.items };

    ghost failed = { λ w. w.failed };

    /// Takes a front of the bytes, or fails where there is no room for one.
    fn write(&mut self, bytes: &[u8]) -> Result<usize, WriteFailed> {
        let count = self.most.min(self.room).min(bytes.len());
        if count == 0 && !bytes.is_empty() {
            self.failed = true;
            return Err(WriteFailed);
        }
        if self.taken.try_extend_from_slice(&bytes[..count]).is_err() {
            self.failed = true;
            return Err(WriteFailed);
        }
        self.room -= count;
        Ok(count)
    }
}

impl Write for ShortWriter {
    ghost contents = { λ w. Some w.taken.items };

    /// The same as a sink, but for a writer that takes nothing where a sink fails.
    fn write(&mut self, buf: &[u8]) -> io::Result<usize> {
        match Sink::write(self, buf) {
            Ok(count) => Ok(count),
            Err(WriteFailed) => {
                if self.takes_nothing {
                    return Ok(0);
                }
                Err(io::Error::new(ErrorKind::Other, "fault"))
            }
        }
    }

    /// Does nothing: what was taken is kept at once.
    fn flush(&mut self) -> io::Result<()> {
        Ok(())
    }
}

/// Takes everything, and keeps nothing of it.
#[derive(Drop)]
pub struct Discard;

impl Sink for Discard {
    ghost contents = { λ _. None };

    ghost failed = { λ _. false };

    /// Takes all of the bytes.
    fn write(&mut self, bytes: &[u8]) -> Result<usize, WriteFailed> {
        Ok(bytes.len())
    }
}

/// How many line feeds there are.
pub fn lines_in(text: &[u8]) -> usize {
    let mut count: usize = 0;
    for byte in text {
        if *byte == b'\n' {
            count = count.saturating_add(1);
        }
    }
    count
}
