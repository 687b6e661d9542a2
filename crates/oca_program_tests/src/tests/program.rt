//! What the clauses leave open: printed texts, and faults where memory or the writer refuses.
use crate::tests::fakes::ShortWriter;
use crate::tests::{AtPlace, Row, Said, all_agree, all_hold};
use oca_program::{Failure, Form, RunFault, exit_status, report};
use oca_script::{LineFault, Printer, ReplayFault, WriteFailed};
use oca_textree::ObjectFault;
use oca_types::NoMemory;
use std::alloc::{AllocError, Global};
use std::str::from_utf8;

/// Where a run's failure comes from.
#[derive(Clone, Copy)]
enum Cause {
    Run(RunFault),
    Replay(ReplayFault),
    Writing,
    Memory,
    Allocating,
}

use Cause::*;

/// The failure of a cause.
fn failure(cause: Cause) -> Failure {
    match cause {
        Run(fault) => Failure::from(fault),
        Replay(fault) => Failure::from(fault),
        Writing => Failure::from(WriteFailed),
        Memory => Failure::from(NoMemory),
        Allocating => Failure::from(AllocError),
    }
}

/// Whether the failure ends a run with this status, and prints just that.
fn reports_as(failure: &Failure, status: u8, text: &[u8], said: &mut Said) -> bool {
    let mut faults = Printer::new(ShortWriter::new(3, usize::MAX));
    said.same(report(failure, &mut faults), status)
        && said.same_text(faults.sink().taken.as_slice(), text)
}

/// Whether a fault displays this text but for its line feed.
fn displays_line(fault: &RunFault, text: &str, said: &mut Said) -> bool {
    match text.strip_suffix('\n') {
        Some(line) => said.displays(fault, line),
        None => false,
    }
}

/// A cause, and the status and the text with which it ends a run.
struct Reported(Cause, u8, &'static str);

impl Row for Reported {
    /// Whether it ends a run so; a fault of a run also displays the text.
    fn agrees(&self, said: &mut Said) -> bool {
        let is_displayed = match self.0 {
            Run(fault) => displays_line(&fault, self.2, said),
            Replay(_) | Writing | Memory | Allocating => true,
        };
        is_displayed && reports_as(&failure(self.0), self.1, self.2.as_bytes(), said)
    }
}

// Each fault's status and text; the text is also what it displays.
const FAULTS: &[Reported] = &[
    Reported(Run(RunFault::BadWords), 2, "bad words\n"),
    Reported(
        Run(RunFault::Line(18_446_744_073_709_551_615, LineFault::TooLong)),
        2,
        "line 18446744073709551615: too long\n",
    ),
    Reported(
        Run(RunFault::Line(7, LineFault::Number)),
        2,
        "line 7: number\n",
    ),
    Reported(
        Run(RunFault::Object(7, ObjectFault::Class)),
        2,
        "line 7: class\n",
    ),
    Reported(Run(RunFault::NoMemory), 1, "no memory\n"),
    Reported(Run(RunFault::Read), 1, "read failed\n"),
    Reported(Run(RunFault::Write), 1, "write failed\n"),
    Reported(Run(RunFault::TooMuch), 1, "too much input\n"),
    Reported(Run(RunFault::Socket), 1, "socket failed\n"),
];

/// A form, a text, and whether the text is of the form.
struct IsOf(Form, &'static str, bool);

impl Row for IsOf {
    /// Whether that is so.
    fn agrees(&self, said: &mut Said) -> bool {
        said.same(self.0.takes(self.1.as_bytes()), self.2)
    }
}

const SPAN: Form = Form::Number {
    digits: 3,
    least: 1,
    largest: 32,
};

const FORMS: &[IsOf] = &[
    IsOf(SPAN, "1", true),
    IsOf(SPAN, "032", true),
    IsOf(SPAN, "0", false),
    IsOf(SPAN, "33", false),
    IsOf(SPAN, "0001", false),
    IsOf(SPAN, "", false),
    IsOf(SPAN, "x", false),
    IsOf(Form::Host, "1.0.0.0:1", true),
    IsOf(Form::Host, "223.255.255.255:65535", true),
    IsOf(Form::Host, "0.255.255.255:1", false),
    IsOf(Form::Host, "224.0.0.0:1", false),
    IsOf(Form::Host, "255.255.255.255:1", false),
    IsOf(Form::Host, "127.0.0.1:0", false),
    IsOf(Form::Host, "127.0.0.1", false),
    IsOf(Form::LocalIp, "0.0.0.0", true),
    IsOf(Form::LocalIp, "192.0.2.1", true),
    IsOf(Form::LocalIp, "0.0.0.1", false),
    IsOf(Form::LocalIp, "239.0.0.1", false),
    IsOf(Form::Peer, "0.0.0.0:0", true),
    IsOf(Form::Peer, "0.0.0.0", false),
    IsOf(Form::Bytes, "-", true),
    IsOf(Form::Bytes, "00fF", true),
    IsOf(Form::Bytes, "", false),
    IsOf(Form::Bytes, "0", false),
    IsOf(Form::Text, "", true),
    IsOf(Form::Text, "a file", true),
];

const LINES: &[Reported] = &[
    Reported(
        Replay(ReplayFault::Line(7, LineFault::Hex)),
        2,
        "line 7: hex\n",
    ),
    Reported(Replay(ReplayFault::Read), 1, "read failed\n"),
    Reported(Replay(ReplayFault::Write), 1, "write failed\n"),
    Reported(Replay(ReplayFault::TooMuch), 1, "too much input\n"),
    Reported(Writing, 1, "write failed\n"),
    Reported(Memory, 1, "no memory\n"),
    Reported(Allocating, 1, "no memory\n"),
];

/// Whether a run that ended so has this exit status.
fn ends_with(ended: Result<u8, Failure>, status: u8, said: &mut Said) -> bool {
    let mut faults = Printer::new(ShortWriter::new(9, usize::MAX));
    said.same(exit_status(ended, &mut faults), status)
}

/// A fault with a note of these bytes; the status with which it ends a run, how what is printed begins, and of how many
/// bytes it is.
struct Noted(RunFault, &'static [u8], u8, &'static [u8], usize);

/// Whether the failure ends a run so.
fn is_told(failure: &Failure, row: &Noted, said: &mut Said) -> bool {
    let mut faults = Printer::new(ShortWriter::new(9, usize::MAX));
    said.same(report(failure, &mut faults), row.2)
        && faults.sink().taken.starts_with(row.3)
        && said.same(faults.sink().taken.len(), row.4)
}

impl Row for Noted {
    /// Whether the fault with this note ends a run so.
    fn agrees(&self, said: &mut Said) -> bool {
        let Ok(note) = from_utf8(self.1) else {
            return false;
        };
        is_told(&Failure::with_text(said.alloc, self.0, note), self, said)
    }
}

// A note is one line behind its word, and stands before the fault's line, and one of more than 1,000 bytes is left out.
const NOTES: &[Noted] = &[
    Noted(
        RunFault::BadWords,
        b"error: no\n\nmore",
        2,
        b"note: error: no\nbad words\n",
        26,
    ),
    Noted(
        RunFault::Socket,
        &[b'x'; 1000],
        1,
        b"note: xxxxxxxx",
        6 + 1000 + 1 + 14,
    ),
    Noted(RunFault::Socket, &[b'x'; 1001], 1, b"socket failed\n", 14),
];

/// A fault that can't be written ends the run with its status all the same.
struct Filled;

impl AtPlace for Filled {
    /// Whether a writer with so much room is filled by a fault, where the status is 2.
    fn holds(&self, room: usize, said: &mut Said) -> bool {
        let mut faults = Printer::new(ShortWriter::new(3, room));
        said.same(report(&Failure::from(RunFault::BadWords), &mut faults), 2)
            && said.same(faults.sink().taken.len(), room)
    }
}

#[test]
fn faults_have_their_status_and_words(rt: HostRuntime) {
    let mut said = Said::new(rt.alloc());
    all_agree(&rt, "faults have a status and a text", FAULTS);
    all_agree(&rt, "faults of lines have a status and a text", LINES);
    all_agree(&rt, "texts are of their forms", FORMS);
    all_hold(&rt, "a fault fills its room", &Filled, 0, 10);
    all_agree(&rt, "a note is one line before its fault", NOTES);
    assert!(rt;
        ends_with(Ok(3), 3, &mut said),
        "a status is handed on: {said}"
    );
    assert!(rt;
        ends_with(Err(Failure::from(RunFault::BadWords)), 2, &mut said),
        "a failure has its status: {said}"
    );
}
