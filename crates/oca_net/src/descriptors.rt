//! The descriptors of a program's standard input, output and errors.
use std::fs::{File, Files};
use std::io;
use std::os::fd::{AsRawFd, IntoRawFd};

/// The last descriptor of the three.
const LAST: i32 = 2;

/// Opens the null device, for reading, at each of the descriptors 0 to 2 that is closed. No socket and no file that is
/// opened later then gets one of these numbers. Call it before anything else is opened. `rt` is the program's access to
/// the system's files. The call takes no memory.
///
/// A standard input that was closed is then at its end. A write to a standard output that was closed fails as before.
/// The result is:
/// - `Ok` if the three descriptors are then open.
/// - `Err` with the system's reason if the null device can't be opened. Descriptors that were opened before stay open.
pub fn fill_standard_descriptors<R: Files<File = File>>(rt: &R) -> io::Result<()> {
    for _ in 0..=LAST {
        let null = File::open(rt, "/dev/null")?;
        if null.as_raw_fd() > LAST {
            return Ok(());
        }
        let _ = null.into_raw_fd();
    }
    Ok(())
}
