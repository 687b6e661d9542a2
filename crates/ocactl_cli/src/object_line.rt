//! The lines of objects.

use oca_control::ControlFault;
use oca_model::{Value, status_name, word_of};
use oca_panel::{Description, Place, Trouble};
use oca_script::{Escaped, Printer, Sink, WriteFailed};
use oca_types::{Ono, Text};

/// What an object's line says behind its number.
#[derive(Drop)]
pub enum ObjectLine {
    /// Its value.
    Value(Value),
    /// The position of a switch, and the position's name.
    Position(u16, Text),
    /// It is locked.
    Locked,
    /// It is not locked any more.
    Unlocked,
    /// Why it is not locked or unlocked as it was asked for.
    LockFailed(Trouble),
    /// A lock of it that was to be kept is gone, or may be.
    LockLost,
    /// Why it is not as it was asked for.
    Failed(Trouble),
}

impl ObjectLine {
    /// The exit status for what the line shows.
    fn status(&self) -> u8 {
        match self {
            ObjectLine::Failed(trouble) | ObjectLine::LockFailed(trouble) => status_of(*trouble),
            ObjectLine::LockLost => 5,
            _ => 0,
        }
    }
}

/// Prints the line of an object, and writes all that the printer holds. Returns the exit status for what the line
/// shows: 0 for a value, a position, `locked` or `unlocked`, 5 for a lost lock, otherwise that of [`status_of`].
/// Refusal: `WriteFailed` if a write failed; then only the beginning of the text may have been written.
pub fn report_object<W: Sink>(
    ono: Ono,
    line: &ObjectLine,
    printer: &mut Printer<W>,
) -> Result<u8, WriteFailed> {
    print_count("", u64::from(ono.0), printer)?;
    printer.print(b" ")?;
    match line {
        ObjectLine::Value(value) => print_value(*value, printer)?,
        ObjectLine::Position(position, name) => {
            print_value(Value::Switch(*position), printer)?;
            printer.print(b" ")?;
            printer.print(Escaped::of(name.as_str()).as_bytes())?;
        }
        ObjectLine::Locked => printer.print(b"locked")?,
        ObjectLine::Unlocked => printer.print(b"unlocked")?,
        ObjectLine::LockLost => printer.print(b"lock lost")?,
        ObjectLine::LockFailed(trouble) => {
            if matches!(trouble, Trouble::Refused(_)) {
                printer.print(b"refused ")?;
            }
            print_trouble(*trouble, printer)?;
        }
        ObjectLine::Failed(trouble) => print_trouble(*trouble, printer)?,
    }
    printer.print(b"\n")?;
    printer.flush()?;
    Ok(line.status())
}

/// Prints the line of an object in a tree: its number, the fields of its class's identifier, the number of its
/// container, and its role. Refusal: `WriteFailed` if a write failed.
pub fn print_place<W: Sink>(
    place: Place,
    description: &Description,
    printer: &mut Printer<W>,
) -> Result<(), WriteFailed> {
    print_count("", u64::from(place.ono.0), printer)?;
    let mut mark = " ";
    for field in description.fields.as_slice() {
        print_count(mark, u64::from(*field), printer)?;
        mark = ".";
    }
    print_count(" ", u64::from(place.container.0), printer)?;
    printer.print(b" ")?;
    printer.print(Escaped::of(description.role.as_str()).as_bytes())?;
    printer.print(b"\n")
}

/// Prints a value.
fn print_value<W: Sink>(value: Value, printer: &mut Printer<W>) -> Result<(), WriteFailed> {
    printer.print(word_of(value).as_str().as_bytes())
}

/// Prints why an object is not as it was asked for.
fn print_trouble<W: Sink>(trouble: Trouble, printer: &mut Printer<W>) -> Result<(), WriteFailed> {
    let text = match trouble {
        Trouble::Refused(status) => match status_name(status) {
            Some(name) => name,
            None => return print_count("status ", u64::from(status), printer),
        },
        Trouble::Unreadable => "unreadable answer",
        Trouble::NoValue => "no value",
        Trouble::NoSuchWord => "no such value",
        Trouble::NotSubmitted(ControlFault::Lost) => "not sent",
        Trouble::NotSubmitted(ControlFault::HandlesSpent) => "refused 2 handles-spent",
        Trouble::NotSubmitted(ControlFault::SpanFull) => "refused 3 span-full",
        Trouble::NotSubmitted(ControlFault::TooLong) => "refused 4 too-long",
        Trouble::Lost => "lost",
        Trouble::Unanswered => "no answer",
    };
    printer.print(text.as_bytes())
}

/// Prints a word and a number in decimal digits, with nothing between them.
fn print_count<W: Sink>(
    word: &str,
    count: u64,
    printer: &mut Printer<W>,
) -> Result<(), WriteFailed> {
    printer.print(word.as_bytes())?;
    printer.make_room(20)?;
    printer.put_number(count);
    Ok(())
}

/// The exit status for an object with which something failed. 4 if the device refused, the answer is not readable, or
/// the object has no value. 2 if a word means no value. 3 if the command was not submitted, the link is lost, or no
/// answer came.
pub fn status_of(trouble: Trouble) -> u8 {
    match trouble {
        Trouble::Refused(_) | Trouble::Unreadable | Trouble::NoValue => 4,
        Trouble::NoSuchWord => 2,
        Trouble::NotSubmitted(_) | Trouble::Lost | Trouble::Unanswered => 3,
    }
}

/// The more severe of two exit statuses. 5 is the most severe, then 3, then 2, then 4, then 0.
pub fn max_severity(a: u8, b: u8) -> u8 {
    for status in [5, 3, 2, 4] {
        if a == status || b == status {
            return status;
        }
    }
    0
}
