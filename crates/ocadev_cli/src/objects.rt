//! The objects that a device begins with.

use oca_program::{Failure, RunFault};
use oca_script::ObjectFault;
use oca_textree::{TreeFault, tree_from_text};
use oca_tree::{Tree, bench_with_channels};
use std::alloc::Global;
use std::fmt::{self, Display, Formatter, Write};
use std::fs;
use std::io::{ErrorKind, Read};
use std::rt::Files;

/// The most bytes of a file that lists objects.
const LARGEST_TEXT: u64 = 16_777_216;

/// Where the objects of a device come from.
#[derive(Clone, Copy)]
pub enum Objects<'a> {
    /// They are the bench's, with so many channel strips behind them.
    Bench(u16),
    /// The file at this path lists them.
    Listed(&'a str),
    /// The file at this path has them, in which a device kept them.
    Kept(&'a str),
}

impl Objects<'_> {
    /// The objects. Failures: `NoMemory` if memory was refused. Of a file `Read` if it can't be read, `TooMuch` if it
    /// has more than 16,777,216 bytes, and `Object` with its first line that has a fault. Of a file in which a device
    /// kept them also `Object` with its last line, if that does not say how many objects it has.
    pub fn load<N: Files>(self, alloc: Global, system: &N) -> Result<Tree, Failure> {
        match self {
            Objects::Bench(channels) => {
                bench_with_channels(alloc, channels).map_err(|_| Failure::from(RunFault::NoMemory))
            }
            Objects::Listed(path) => {
                let text = text_of(alloc, system, path)?;
                tree_of(alloc, path, text.as_slice())
            }
            Objects::Kept(path) => {
                let text = text_of(alloc, system, path)?;
                let tree = tree_of(alloc, path, text.as_slice())?;
                check_end(alloc, path, text.as_slice(), tree.len())?;
                Ok(tree)
            }
        }
    }
}

/// The last line of a file in which a device keeps so many objects.
#[derive(Clone, Copy)]
pub struct EndLine(pub usize);

impl Display for EndLine {
    /// Writes the line without its line feed.
    fn fmt<W: Write>(&self, f: &mut Formatter<W>) -> fmt::Result {
        write!(f, "# end of {} objects", self.0)
    }
}

/// The failure of a run that can't read or write the file at a path. The note names the path and the reason `why`, if
/// there is memory for it.
pub fn file_failure<D: Display + Drop>(
    alloc: Global,
    fault: RunFault,
    path: &str,
    why: D,
) -> Failure {
    Failure::with_note(fault, format!(in alloc; "{path}: {why}"))
}

/// The objects that the text of the file at a path lists.
fn tree_of(alloc: Global, path: &str, text: &[u8]) -> Result<Tree, Failure> {
    match tree_from_text(alloc, text) {
        Ok(tree) => Ok(tree),
        Err(TreeFault::Line(number, fault)) => {
            let note = format!(in alloc; "{path}: line {number} is wrong");
            Err(Failure::with_note(RunFault::Object(number, fault), note))
        }
        Err(TreeFault::NoMemory) => Err(Failure::from(RunFault::NoMemory)),
    }
}

/// Refuses the text of the file at a path if it does not end with an [`EndLine`] of so many objects.
fn check_end(alloc: Global, path: &str, text: &[u8], count: usize) -> Result<(), Failure> {
    let line = format!(in alloc; "{}\n", EndLine(count))?;
    if text.ends_with(line.as_bytes()) {
        return Ok(());
    }
    let lines = text
        .strip_suffix(b"\n")
        .unwrap_or(text)
        .split(|byte| *byte == b'\n');
    let fault = RunFault::Object(lines.count() as u64, ObjectFault::Form);
    let why =
        "its last line does not say how many objects it has: it is cut off, or not of this program";
    Err(file_failure(alloc, fault, path, why))
}

/// The text of the file at a path.
fn text_of<N: Files>(alloc: Global, system: &N, path: &str) -> Result<Vec<u8>, Failure> {
    let mut text = Vec::new(alloc);
    let read = fs::open(system, path).and_then(|file| file
        .take(LARGEST_TEXT + 1)
        .read_to_end(&mut text));
    match read {
        Ok(count) if count as u64 <= LARGEST_TEXT => Ok(text),
        Ok(_) => {
            let why = "it has more than 16777216 bytes";
            Err(file_failure(alloc, RunFault::TooMuch, path, why))
        }
        Err(reason) if reason.kind() == ErrorKind::OutOfMemory => {
            Err(Failure::from(RunFault::NoMemory))
        }
        Err(reason) => Err(file_failure(alloc, RunFault::Read, path, reason)),
    }
}
