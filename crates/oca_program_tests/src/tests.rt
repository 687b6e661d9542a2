//! A module for each crate or program, readers and writers in memory for them, and what they share.
mod coming;
mod fakes;
mod ocactl;
mod ocadev;
mod program;
mod script;
mod textree;
mod view;

use std::alloc::Global;
use std::fmt::{self, Debug, Display, Write};
use std::process::Abort;
use std::str::from_utf8;

/// What is said of a row that comes out otherwise: what was found in place of what must be.
#[derive(Drop)]
struct Said {
    alloc: Global,
    text: String,
}

impl Said {
    /// Nothing yet.
    fn new(alloc: Global) -> Said {
        Said {
            alloc,
            text: String::new(alloc),
        }
    }

    /// Whether what was found is what must be. Where it is not, both are noted.
    fn same<T: PartialEq + Debug + Copy>(&mut self, found: T, wanted: T) -> bool {
        let is_same = found == wanted;
        if !is_same {
            self.text.clear();
            let _ = write!(self.text, "found {found:?} in place of {wanted:?}");
        }
        is_same
    }

    /// The same of bytes that are mostly a text, and told as one where both are.
    fn same_text(&mut self, found: &[u8], wanted: &[u8]) -> bool {
        match (from_utf8(found), from_utf8(wanted)) {
            (Ok(found), Ok(wanted)) => self.same(found, wanted),
            _ => self.same(found, wanted),
        }
    }

    /// Whether a value displays these words.
    fn displays<T: Display>(&mut self, value: &T, words: &str) -> bool {
        match format!(in self.alloc; "{value}") {
            Ok(text) => self.same(text.as_str(), words),
            Err(_) => false,
        }
    }
}

impl Display for Said {
    /// What was found in place of what, where that was compared.
    fn fmt<W: fmt::Write>(&self, f: &mut fmt::Formatter<W>) -> fmt::Result {
        f.write_str(if self.text.is_empty() {
            "something else comes of it"
        } else {
            self.text.as_str()
        })
    }
}

/// A row of a table: what goes in, and what must come of it.
trait Row {
    /// Whether it comes out as the row says.
    fn agrees(&self, said: &mut Said) -> bool;
}

/// Each row of the table of this name comes out as it says.
fn all_agree<A: Abort + AllocGlobal, R: Row>(rt: &A, table: &str, rows: &[R]) {
    let mut said = Said::new(rt.alloc());
    for (at, row) in rows.iter().enumerate() {
        said.text.clear();
        if !row.agrees(&mut said) {
            fail(rt, table, at, &said);
        }
    }
}

/// The row of this number, or what is at this place, came out otherwise.
fn fail(rt: &impl Abort, table: &str, row: usize, said: &Said) {
    panic!(rt; "{table}: at {row}: {said}");
}

/// What must hold at each of many places.
trait AtPlace {
    /// Whether it holds at this one.
    fn holds(&self, place: usize, said: &mut Said) -> bool;
}

/// At each place from the first one on, and before the end, holds what this name says.
fn all_hold<A: Abort + AllocGlobal, P: AtPlace>(
    rt: &A,
    name: &str,
    at: &P,
    first: usize,
    end: usize,
) {
    let mut said = Said::new(rt.alloc());
    for place in first..end {
        said.text.clear();
        if !at.holds(place, &mut said) {
            fail(rt, name, place, &said);
        }
    }
}

/// A value, and the words that it displays.
struct Words<T>(T, &'static str);

impl<T: Display> Row for Words<T> {
    /// Whether it displays them.
    fn agrees(&self, said: &mut Said) -> bool {
        said.displays(&self.0, self.1)
    }
}
