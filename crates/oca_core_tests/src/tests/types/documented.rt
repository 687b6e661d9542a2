//! The examples of the doc comments, as they stand there.
use oca_types::{Cursor, ReadFault, Status};
use std::process::Abort;

/// A text and a Boolean are taken.
pub fn take(rt: &impl Abort) -> Result<(), ReadFault> {
    let mut cursor = Cursor::new(&[0x00, 0x02, 0x4f, 0x6e, 0x01]);
    let label = cursor.take_text()?;
    let enabled = cursor.take_bool()?;
    cursor.finish()?;
    assert_eq!(rt; (label.as_str(), enabled), ("On", true));
    Ok(())
}

/// A status has a number and a name.
pub fn name_a_status(rt: &impl Abort) {
    let status = Status::with_number(5);
    assert_eq!(rt; status, Some(Status::BadOno));
    assert_eq!(rt; Status::BadOno.name(), "BadONo");
}
