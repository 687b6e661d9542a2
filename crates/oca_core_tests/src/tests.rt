//! A module for each crate, and what they share.

/// A table that is laid out by hand: a row a line, however long.
macro_rules! rows { ($($row:tt)*) => { &[$($row)*] }; }

/// The peer at this port of 127.0.0.1.
macro_rules! peer { ($port:expr) => { Peer { ip: 0x7f00_0001, port: $port } }; }

/// An end that delivers this and takes at most so many datagrams, and what else is said of it.
macro_rules! delivers {
    ($entries:expr, $room:expr $(, $field:ident: $value:expr)*) => {
        Ending {
            entries: $entries,
            room: $room,
            $($field: $value,)*
            ..Ending { quiet: 0, entries: &[], room: 0, fail_send: None }
        }
    };
}

mod answers;
mod control;
mod device;
mod ending;
mod model;
mod net;
mod pair;
mod panel;
mod pdu;
mod session;
mod tree;
mod types;

use oca_types::{Peers, Sizes, Window};
use std::alloc::Global;
use std::fmt::{Debug, Display, Write};
use std::process::Abort;

/// What is said of a row that comes out otherwise: the script that is played and its step, or the number of the row, and
/// what was found in place of what must be.
#[derive(Drop)]
struct Said {
    alloc: Global,
    script: &'static str,
    step: usize,
    text: String,
}

impl Said {
    /// Nothing yet.
    fn new(alloc: Global) -> Said {
        Said {
            alloc,
            script: "row",
            step: 0,
            text: String::new(alloc),
        }
    }

    /// Whether what was found is what must be. Where it is not, both are noted.
    fn same<T: PartialEq + Debug + Copy>(&mut self, found: T, wanted: T) -> bool {
        let is_same = found == wanted;
        if !is_same {
            self.text.clear();
            let _ = write!(self.text, "found {found:?} in place of {wanted:?}");
        }
        is_same
    }

    /// Whether a value prints these words.
    fn prints<T: Display>(&mut self, value: &T, words: &str) -> bool {
        match value.to_string(self.alloc) {
            Ok(text) => self.same(text.as_str(), words),
            Err(_) => false,
        }
    }
}

/// A row of a table: what goes in, and what must come of it.
trait Row {
    /// Whether it comes out as the row says.
    fn agrees(&self, said: &mut Said) -> bool;
}

/// Each row of the table of this name comes out as it says.
fn all_agree<A: Abort + AllocGlobal, R: Row>(rt: &A, table: &str, rows: &[R]) {
    let mut said = Said::new(rt.alloc());
    for (at, row) in rows.iter().enumerate() {
        said.step = at;
        said.text.clear();
        if !row.agrees(&mut said) {
            fail(rt, table, &said);
        }
    }
}

/// Something came out otherwise in the table of this name.
fn fail(rt: &impl Abort, table: &str, said: &Said) {
    let (script, step) = (said.script, said.step);
    let text = if said.text.is_empty() {
        "something else comes of it"
    } else {
        said.text.as_str()
    };
    panic!(rt; "{table}: {script} {step}: {text}");
}

/// A step of a script: what is done with something, or is seen of it, and what must come of that.
trait Agrees<T> {
    /// Whether that comes of it.
    fn agrees(&self, on: &mut T, said: &mut Said) -> bool;
}

/// Whether each step comes out as it says.
fn agree_in_turn<T, S: Agrees<T>>(on: &mut T, steps: &[S], said: &mut Said) -> bool {
    for (at, step) in steps.iter().enumerate() {
        said.step = at;
        if !step.agrees(on, said) {
            return false;
        }
    }
    true
}

/// The same of the script of this name.
fn plays<T, S: Agrees<T>>(on: &mut T, script: &'static str, steps: &[S], said: &mut Said) -> bool {
    said.script = script;
    agree_in_turn(on, steps, said)
}

/// A value, and the words that it prints.
struct Words<T>(T, &'static str);

impl<T: Display> Row for Words<T> {
    /// Whether it prints them.
    fn agrees(&self, said: &mut Said) -> bool {
        said.prints(&self.0, self.1)
    }
}

/// What must be found at a place of a list.
trait Wanted<T> {
    /// Whether it is this.
    fn is(&self, found: &T, said: &mut Said) -> bool;
}

/// Whether at each place of a list that is found which is wanted, and nothing behind it.
fn are_found<T, W: Wanted<T>>(found: &[T], wanted: &[W], said: &mut Said) -> bool {
    for (one, want) in found.iter().zip(wanted.iter()) {
        if !want.is(one, said) {
            return false;
        }
    }
    said.same(found.len(), wanted.len())
}

/// Windows of one command, and sessions of at most so many peers.
fn sizes(count: u8) -> Option<Sizes> {
    match (Window::new(1), Peers::new(count)) {
        (Some(window), Some(peers)) => Some(Sizes { window, peers }),
        _ => None,
    }
}
