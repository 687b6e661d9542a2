//! The lines of an input, as they come.
use arrayvec::ArrayVec;
use oca_wait::wait_for;
use std::io::Read;
use std::os::fd::{AsRawFd, RawFd};

/// The most bytes of a line; a longer one is cut.
const LONGEST: usize = 80;

/// A line, without its end.
pub type Line = ArrayVec<u8, LONGEST>;

/// The lines of an input, which is read only where that does not wait.
#[derive(Drop)]
pub struct Lines<I: Read + AsRawFd + Drop> {
    input: I,
    begun: Line,
    is_ended: bool,
}

impl<I: Read + AsRawFd + Drop> Lines<I> {
    /// The lines of this input, of which nothing was read so far.
    pub fn new(input: I) -> Lines<I> {
        Lines {
            input,
            begun: Line::new(),
            is_ended: false,
        }
    }

    /// The next line, without its end and cut to 80 bytes. The call does not wait. `None` if no whole line is there
    /// yet, the line is empty, or the input is at its end. A last line without an end counts. Err with a text if a read
    /// failed.
    pub fn next(&mut self) -> Result<Option<Line>, &'static str> {
        for _ in 0..=LONGEST {
            if self.is_ended || !is_ready(self.input.as_raw_fd()) {
                return Ok(None);
            }
            let mut byte = [0u8];
            match self.input.read(&mut byte) {
                Ok(count) => self.is_ended = count == 0,
                Err(_) => return Err("read failed"),
            }
            if self.is_ended || byte[0] == b'\n' {
                return Ok(self.take());
            }
            let _ = self.begun.try_push(byte[0]);
        }
        Ok(None)
    }

    /// The line that was begun, where it is not empty.
    fn take(&mut self) -> Option<Line> {
        if self.begun.is_empty() {
            return None;
        }
        Some(std::mem::replace(&mut self.begun, Line::new()))
    }
}

/// Whether a read of the descriptor would not wait: there are bytes, the end, or an error, which the read tells.
fn is_ready(descriptor: RawFd) -> bool {
    match wait_for(Some(descriptor), None, 0) {
        Ok(ready) => ready.input,
        Err(_) => false,
    }
}
