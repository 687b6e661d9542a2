//! The fields of the lines of histories and schedules.
ghost use Rattle.std.specs.Prelude.{◌≤◌};

use oca_script::field::{first_field, moment, number, peer};
use oca_tree::Value;
use oca_types::{Class, MethodId, Ono, Peer, Peers, Span, Window};
use std::alloc::Global;
use std::str;

/// Why a line is refused.
#[derive(Clone, Copy)]
pub enum LineFault {
    /// Memory was refused.
    NoMemory,
    /// A wrong number of fields or an unknown word, or a step before the first schedule or history.
    Form,
    /// A moment that is none.
    Moment,
    /// A number that is none or too large, a size that nothing has included.
    Number,
    /// A peer that is none.
    Peer,
    /// Bytes that are none.
    Hex,
}

impl LineFault {
    /// The word for it.
    pub fn word(self) -> &'static str {
        match self {
            LineFault::NoMemory => "no memory",
            LineFault::Form => "form",
            LineFault::Moment => "moment",
            LineFault::Number => "number",
            LineFault::Peer => "peer",
            LineFault::Hex => "hex",
        }
    }
}

/// A change at the local front panel: of the object of this number.
#[derive(Clone, Copy)]
pub enum Front<'a> {
    /// It is set.
    Set(Ono, Value),
    /// It gets a label of these bytes.
    Label(Ono, &'a [u8]),
    /// It is enabled or disabled.
    Enabled(Ono, bool),
    /// The lock is taken off it.
    Unlocked(Ono),
    /// Whether its hardware refuses to be changed.
    Failing(Ono, bool),
}

/// The largest number of 32 bits.
pub const LARGEST_32: u64 = 4_294_967_295;

/// A peer in place of one that is none.
const NOBODY: Peer = Peer { ip: 0, port: 0 };

/// The fields of a line that were not read yet, and the first fault of those that were. What is read of a line with a
/// fault is not to be used.
#[derive(Drop)]
pub struct Fields<'a> {
    rest: Option<&'a [u8]>,
    fault: Option<LineFault>,
}

impl<'a> Fields<'a> {
    /// All fields of a line.
    pub fn new(line: &'a [u8]) -> Fields<'a> {
        Fields {
            rest: Some(line),
            fault: None,
        }
    }

    /// The first fault.
    pub fn fault(&self) -> Option<LineFault> {
        self.fault
    }

    /// Notes a fault, where it is the first.
    pub fn refuse(&mut self, fault: LineFault) {
        if self.fault.is_none() {
            self.fault = Some(fault);
        }
    }

    /// The next field.
    pub fn next(&mut self) -> &'a [u8] {
        match self.rest {
            Some(text) => {
                let (field, rest) = first_field(text);
                self.rest = rest;
                field
            }
            None => {
                self.refuse(LineFault::Form);
                &[]
            }
        }
    }

    /// Whether nothing is left.
    pub fn is_at_end(&self) -> bool {
        self.rest.is_none()
    }

    /// Nothing is left.
    pub fn end(&mut self) {
        if self.rest.is_some() {
            self.refuse(LineFault::Form);
        }
    }

    /// The number of these digits, of which there are not too many, up to the largest.
    pub fn number_of(&mut self, digits: &[u8], most: usize, largest: u64) -> u64
        ensures { result ≤ largest }
    {
        match number(digits, most, largest) {
            Some(value) => value,
            None => {
                self.refuse(LineFault::Number);
                0
            }
        }
    }

    /// A number of 32 bits.
    pub fn number(&mut self) -> u32 {
        let digits = self.next();
        self.number_of(digits, 10, LARGEST_32) as u32
    }

    /// The number of a link or of a datagram.
    pub fn place(&mut self) -> usize {
        self.number() as usize
    }

    /// A number of 16 bits.
    pub fn short_number(&mut self) -> u16 {
        let digits = self.next();
        self.number_of(digits, 5, 65535) as u16
    }

    /// A number of 8 bits.
    pub fn byte(&mut self) -> u8 {
        let digits = self.next();
        self.number_of(digits, 3, 255) as u8
    }

    /// A method: its level and its index.
    pub fn method(&mut self) -> MethodId {
        let level = self.short_number();
        let index = self.short_number();
        MethodId { level, index }
    }

    /// A moment that this field tells.
    pub fn moment(&mut self, text: &[u8]) -> u64 {
        match moment(text) {
            Some(now) => now,
            None => {
                self.refuse(LineFault::Moment);
                0
            }
        }
    }

    /// A peer that this field tells.
    pub fn peer(&mut self, text: &[u8]) -> Peer {
        match peer(text) {
            Some(peer) => peer,
            None => {
                self.refuse(LineFault::Peer);
                NOBODY
            }
        }
    }

    /// Bytes, as their text.
    pub fn hex(&mut self) -> &'a [u8] {
        let text = self.next();
        if text != b"-".as_slice() && !is_hex(text) {
            self.refuse(LineFault::Hex);
        }
        text
    }

    /// The window of this size.
    pub fn window(&mut self, size: u8) -> Window {
        match Window::new(size) {
            Some(window) => window,
            None => {
                self.refuse(LineFault::Number);
                Window::default()
            }
        }
    }

    /// The span that this number is.
    pub fn span(&mut self) -> Span {
        let size = self.byte();
        match Span::new(size) {
            Some(span) => span,
            None => {
                self.refuse(LineFault::Number);
                Span::default()
            }
        }
    }

    /// Room for so many peers.
    pub fn peers(&mut self, count: u8) -> Peers {
        match Peers::new(count) {
            Some(peers) => peers,
            None => {
                self.refuse(LineFault::Number);
                Peers::default()
            }
        }
    }

    /// The change at the local front panel that begins with this word, where one does.
    pub fn front(&mut self, word: &str) -> Option<Front<'a>> {
        match word {
            "set" => Some(self.local()),
            "label" => Some(Front::Label(Ono(self.number()), self.hex())),
            "enabled" => Some(Front::Enabled(Ono(self.number()), self.truth())),
            "unlock" => Some(Front::Unlocked(Ono(self.number()))),
            "failing" => Some(Front::Failing(Ono(self.number()), self.truth())),
            _ => None,
        }
    }

    /// What is set at the local front panel, and to what: `ONO CLASS VALUE`.
    fn local(&mut self) -> Front<'a> {
        let ono = Ono(self.number());
        let word = self.next();
        let class = self.class(word);
        Front::Set(ono, self.value(class))
    }

    /// The class with this word.
    fn class(&mut self, word: &[u8]) -> Class {
        for (its, class) in CLASSES {
            if its.as_bytes() == word {
                return *class;
            }
        }
        self.refuse(LineFault::Form);
        Class::Block
    }

    /// A value of the class.
    fn value(&mut self, class: Class) -> Value {
        let found = match class {
            Class::Mute | Class::Polarity => Value::of_state(class, self.byte()),
            Class::Switch => Some(Value::Switch(self.short_number())),
            Class::Boolean => Some(Value::Boolean(self.truth())),
            _ => Value::of_integer(class, self.integer()),
        };
        match found {
            Some(value) => value,
            None => {
                self.refuse(LineFault::Number);
                Value::Boolean(false)
            }
        }
    }

    /// A truth: 0 or 1.
    pub fn truth(&mut self) -> bool {
        let digit = self.next();
        self.number_of(digit, 1, 1) == 1
    }

    /// An integer that a value may have: decimal digits, behind a `-` where it is negative.
    fn integer(&mut self) -> i128 {
        let text = self.next();
        match text {
            [b'-', digits @ ..] => {
                i128::from(self.number_of(digits, 1000, u64::MAX)).wrapping_neg()
            }
            _ => i128::from(self.number_of(text, 1000, u64::MAX)),
        }
    }
}

/// Whether a text is of bytes: two digits each, and not none.
fn is_hex(text: &[u8]) -> bool {
    for byte in text {
        match *byte {
            b'0'..=b'9' | b'a'..=b'f' | b'A'..=b'F' => {}
            _ => return false,
        }
    }
    !text.is_empty() && text.len() % 2 == 0
}

/// The bytes of a text that was found to be of bytes, where there is memory for them.
pub fn bytes_of(alloc: Global, text: &[u8]) -> Option<Vec<u8>> {
    let digits: &[u8] = if text == b"-".as_slice() { &[] } else { text };
    match hex::decode(alloc, digits) {
        Ok(bytes) => Some(bytes),
        Err(_) => None,
    }
}

/// The text of these bytes, and the empty one where they are none.
pub fn text_of(bytes: &[u8]) -> &str {
    match str::from_utf8(bytes) {
        Ok(text) => text,
        Err(_) => "",
    }
}

/// The words for the classes that are set.
const CLASSES: &[(&str, Class)] = &[
    ("mute", Class::Mute),
    ("polarity", Class::Polarity),
    ("switch", Class::Switch),
    ("boolean", Class::Boolean),
    ("int8", Class::Int8),
    ("int16", Class::Int16),
    ("int32", Class::Int32),
    ("int64", Class::Int64),
    ("uint8", Class::Uint8),
    ("uint16", Class::Uint16),
    ("uint32", Class::Uint32),
    ("uint64", Class::Uint64),
];
