//! How far a script was read.
ghost use Rattle.std.specs.Prelude.{◌≡◌, []};

use super::buffer::Buffer;

/// The greatest number of bytes of a line, its line feed not counted: 4,096.
pub const LONGEST_LINE: usize = 4096;

/// How far a script was read: the bytes of the line that has not ended yet, and its number, counted from 1.
#[derive(Drop)]
pub struct Progress {
    pub line: Buffer<LONGEST_LINE>,
    pub number: u64,
}

impl Progress {
    /// Returns the progress at the start of a script: no byte was read, and the first line has the number 1. The call
    /// takes no memory from the heap.
    pub fn new() -> Progress
        ensures line { result.line ≡ [] }
        ensures number { result.number ≡ 1 }
    {
        Progress {
            line: Buffer::new(),
            number: 1,
        }
    }
}
