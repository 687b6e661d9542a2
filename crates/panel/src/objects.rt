//! The objects of a device, as a walk finds them.
use anyhow::Error;
use oca_model::{class_with, word_of};
use oca_net::End;
use oca_panel::{Description, Found, MOST_PLACES, Panel, Walk};
use oca_types::Ono;
use std::fmt::Display;
use std::io;
use std::rt::Runtime;

/// Prints the objects of the device, a line for each, with its value or why it could not be read. Err if memory was
/// refused or a write failed; the lines before were printed.
pub fn print_objects<R: Runtime + AllocGlobal, E: End>(
    rt: &R,
    panel: &mut Panel<E>,
) -> Result<(), Error> {
    let mut walk = Walk::new(rt.alloc())?;
    print_places(rt, panel, &mut walk)
}

/// Prints what the walk has yet to find.
fn print_places<R: Runtime, E: End>(
    rt: &R,
    panel: &mut Panel<E>,
    walk: &mut Walk,
) -> Result<(), Error> {
    for _place in 0..MOST_PLACES {
        let Some(visit) = walk.next(panel)? else {
            return Ok(());
        };
        print_found(rt, panel, visit.place.ono, &visit.found)?;
    }
    Ok(())
}

/// Prints what was found: an object with its value, a block, or why there is neither.
fn print_found<R: Runtime, E: End>(
    rt: &R,
    panel: &mut Panel<E>,
    ono: Ono,
    found: &Found,
) -> io::Result<()> {
    match found {
        Found::Object(object) => match panel.get(ono) {
            Ok(value) => print_line(rt, ono, object, &word_of(value).as_str()),
            Err(trouble) => print_line(rt, ono, object, &trouble),
        },
        Found::Block(block, Ok(())) => print_line(rt, ono, block, &"its members follow"),
        Found::Block(block, Err(trouble)) => print_line(rt, ono, block, trouble),
        Found::Undescribed(trouble) => println!(rt; "{}: {trouble}", ono.0),
        Found::Again => Ok(()),
    }
}

/// Prints the line of an object: its number, its class, its role, and what its value is.
fn print_line<R: Runtime, T: Display>(
    rt: &R,
    ono: Ono,
    object: &Description,
    value: &T,
) -> io::Result<()> {
    let class = match class_with(object.fields.as_slice()) {
        Some(class) => class.name(),
        None => "of another class",
    };
    println!(rt; "{} {class} {:?}: {value}", ono.0, object.role.as_str())
}
