//! The lines that tell what schedules and histories led to.
use crate::fields::LineFault;
use oca_device::Verdict;
use oca_pdu::PduFault;
use oca_tree::{FrontFault, SetFault};
use oca_types::Peer;
use std::alloc::Global;
use std::fmt::Write;

/// Why a run over lines ends.
#[derive(Clone, Copy)]
pub enum RunFault {
    /// Memory was refused.
    NoMemory,
    /// The line of this number, from 1, is refused.
    Line(u64, LineFault),
    /// Standard output takes no more.
    Write,
}

/// Lines that are still to be printed. Where memory is refused for a part of them, the rest may be there; none is
/// printed then.
#[derive(Drop)]
pub struct Told {
    text: String,
    is_refused: bool,
}

impl Told {
    /// No lines.
    pub fn new(alloc: Global) -> Told {
        Told {
            text: String::new(alloc),
            is_refused: false,
        }
    }

    /// Memory was refused.
    pub fn refuse(&mut self) {
        self.is_refused = true;
    }

    /// A text.
    pub fn put(&mut self, text: &str) {
        if self.text.push_str(text).is_err() {
            self.is_refused = true;
        }
    }

    /// An integer behind a text.
    pub fn put_integer(&mut self, text: &str, integer: i128) {
        self.put(text);
        if write!(self.text, "{integer}").is_err() {
            self.is_refused = true;
        }
    }

    /// A number behind a text.
    pub fn put_number(&mut self, text: &str, number: u64) {
        self.put_integer(text, i128::from(number));
    }

    /// The line of a text and a number.
    pub fn put_counted(&mut self, text: &str, number: u64) {
        self.put_number(text, number);
        self.put("\n");
    }

    /// The line of a text and some numbers.
    pub fn put_numbers(&mut self, text: &str, numbers: &[u64]) {
        self.put(text);
        for number in numbers {
            self.put_number(" ", *number);
        }
        self.put("\n");
    }

    /// Bytes in hexadecimal, `-` for none, and the end of the line.
    pub fn put_bytes(&mut self, alloc: Global, bytes: &[u8]) {
        match hex::encode(alloc, bytes) {
            Ok(text) => {
                self.put(if bytes.is_empty() { "-" } else { text.as_str() });
                self.put("\n");
                drop(text);
            }
            Err(_) => self.is_refused = true,
        }
    }

    /// A peer.
    pub fn put_peer(&mut self, peer: Peer) {
        let [a, b, c, d] = peer.ip.to_be_bytes();
        self.put_number("", u64::from(a));
        self.put_number(".", u64::from(b));
        self.put_number(".", u64::from(c));
        self.put_number(".", u64::from(d));
        self.put_number(":", u64::from(peer.port));
    }

    /// The line of what a device made of a datagram.
    pub fn put_verdict(&mut self, verdict: Verdict) {
        match verdict {
            Verdict::Served {
                executed,
                kept,
                old,
                reused,
            } => self.put_served(&[executed, kept, old], reused),
            Verdict::Malformed(fault) => self.put_malformed(fault),
            Verdict::NoRoom => self.put("no-room\n"),
        }
    }

    /// How many commands a device executed, answered again and found too old, and how many asked something else under
    /// a kept handle, where there are any.
    fn put_served(&mut self, counts: &[u32], reused: u32) {
        self.put("served");
        for count in counts {
            self.put_number(" ", u64::from(*count));
        }
        if reused != 0 {
            self.put_number(" reused ", u64::from(reused));
        }
        self.put("\n");
    }

    /// The fault of a datagram.
    pub fn put_malformed(&mut self, fault: PduFault) {
        self.put_number("malformed ", u64::from(fault.kind.number()));
        self.put_counted(" at ", u64::from(fault.at));
    }

    /// The line of a change at the local front panel that was refused.
    pub fn put_set_fault(&mut self, fault: SetFault) {
        self.put_counted("refused ", fault as u64);
    }

    /// The line of a change of a label, of whether an object is enabled or of its lock that was refused.
    pub fn put_front_fault(&mut self, fault: FrontFault) {
        self.put_counted("refused ", fault as u64);
    }

    /// Prints the lines, of which then none are left.
    pub fn print<R: Print>(&mut self, rt: &R) -> Result<(), RunFault> {
        if self.is_refused {
            return Err(RunFault::NoMemory);
        }
        let printed = print_text(rt, self.text.as_str());
        self.text.clear();
        printed
    }
}

/// Prints a text.
fn print_text<R: Print>(rt: &R, text: &str) -> Result<(), RunFault> {
    match print!(rt; "{text}") {
        Ok(()) => Ok(()),
        Err(_) => Err(RunFault::Write),
    }
}
