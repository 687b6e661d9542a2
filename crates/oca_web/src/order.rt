//! An order: what a page wants done with an object, and how it ended.
ghost use Rattle.std.specs.Prelude.{◌≡◌};
ghost use Rattle.oca_web.specs.Labels.{is_shown};

use oca_model::{Request, Value};
use oca_panel::Trouble;
use oca_types::{Class, Handle, Ono, Text};
use std::str;

/// The greatest number of orders that wait: 256.
pub const MOST_WAITING: usize = 256;

/// The greatest number of orders in flight: 32, as many as the greatest span has handles.
pub const MOST_IN_FLIGHT: usize = 32;

/// The greatest number of ended orders whose results are stored: 512.
pub const MOST_RESULTS: usize = 512;

/// An order may be submitted for so many milliseconds after its request was read: 5,000.
pub const ORDER_MS: u64 = 5000;

/// An order is submitted only if the device confirmed what its page showed at most so many milliseconds ago: 2,000.
pub const CONFIRMED_MS: u64 = 2000;

/// The most bytes of a label.
const MOST_BYTES: usize = 64;

/// A text of at most 64 bytes of UTF-8, which can be copied: a label that a page gives an object (OcaWorker, AES70-2),
/// or a role, or the name of a switch's position.
#[derive(Clone, Copy, PartialEq, Eq)]
pub struct Label {
    bytes: [u8; MOST_BYTES],
    count: u8,
}

impl Default for Label {
    /// The empty text.
    fn default() -> Self {
        Label {
            bytes: [0; MOST_BYTES],
            count: 0,
        }
    }
}

impl Label {
    ghost use Rattle.std.specs.Prelude.{◌≡◌, ◌↔◌, ◌≤◌, true, IsSome, IfSome, length};
    ghost use Rattle.std.specs.Str.{bytes_eq};
    ghost use Rattle.oca_web.specs.Labels.{IsTextOf, is_label, label_bytes};

    /// Returns the label with this text, which can be empty. The result is `None` if the text has more than 64 bytes,
    /// or a control character of ASCII (below 32, or 127).
    pub fn new(text: &str) -> Option<Label>
        ensures some { IsSome result ↔ (is_label text.now ≡ true) }
        ensures same { IfSome result (λ label. label_bytes label ≡ text.now) }
    {
        if !is_shown(text.as_bytes()) {
            return None;
        }
        Label::given(text)
    }

    /// Returns a copy of a text that the device gave, such as a role. It may have control characters. The result is
    /// `None` if the text has more than 64 bytes.
    pub fn given(text: &str) -> Option<Label>
        ensures some { IsSome result ↔ (length text.now ≤ 64) }
        ensures same { IfSome result (λ label. label_bytes label ≡ text.now) }
    {
        let count = text.len();
        if count > MOST_BYTES {
            return None;
        }
        let mut bytes = [0u8; MOST_BYTES];
        bytes[..count].copy_from_slice(text.as_bytes());
        Some(Label {
            bytes,
            count: count as u8,
        })
    }

    /// Returns a copy of the label's text: from 0 to 64 bytes of UTF-8.
    pub fn text(&self) -> Text
        ensures { IsTextOf self.now result }
    {
        let count = usize::from(self.count).min(MOST_BYTES);
        match str::from_utf8(&self.bytes[..count]) {
            Ok(text) => Text::new(text).unwrap_or_default(),
            Err(_) => Text::default(),
        }
    }

    /// Returns whether this is the text, byte for byte.
    pub fn is(&self, text: &str) -> bool
        ensures { result ≡ bytes_eq text.now (label_bytes self.now) }
    {
        let count = usize::from(self.count).min(MOST_BYTES);
        let bytes = &self.bytes[..count];
        text.as_bytes() == bytes
    }
}

/// Whether none of the bytes is a control character of ASCII.
fn is_shown(bytes: &[u8]) -> bool
    ensures { result ≡ is_shown bytes.now }
{
    bytes.iter().all(|byte| 32 <= *byte && *byte != 127)
}

/// What a page wants done with an object.
#[derive(Clone, Copy, PartialEq, Eq, Default)]
pub enum Action {
    /// Set the object to this value.
    Set(Value),
    /// Lock the object, so that other peers can neither read nor write (LockTotal of OcaRoot, AES70-2).
    Lock,
    /// Release this panel's lock (Unlock of OcaRoot, AES70-2).
    #[default]
    Unlock,
    /// Give the object this label (SetLabel of OcaWorker, AES70-2).
    Rename(Label),
}

impl Action {
    ghost use Rattle.std.specs.Prelude.{◌≡◌};
    ghost use Rattle.oca_web.specs.Orders.{AsksOrdered, class_asked};

    /// Returns the class whose methods carry out this action (AES70-2): the class of the value to set, and OcaBlock for
    /// a lock and a label. OcaBlock has the methods of OcaRoot and OcaWorker, as all classes here have.
    pub fn class(self) -> Class
        ensures { result ≡ class_asked self }
    {
        match self {
            Action::Set(value) => value.class(),
            Action::Lock | Action::Unlock | Action::Rename(_) => Class::Block,
        }
    }

    /// Returns the request that carries out this action (AES70-2): the set method of the value's class, LockTotal,
    /// Unlock or SetLabel.
    pub fn request(self) -> Request
        ensures { AsksOrdered self result }
    {
        match self {
            Action::Set(value) => Request::Set(value),
            Action::Lock => Request::LockTotal,
            Action::Unlock => Request::Unlock,
            Action::Rename(label) => Request::SetLabel(label.text()),
        }
    }
}

/// What the page showed of an object when a person ordered something of it. The order is for that object, and for no
/// other that has its number by now.
#[derive(Clone, Copy, PartialEq, Eq, Default)]
pub struct Identity {
    /// The role of the object.
    pub role: Label,
    /// The role of the block that lists the object, empty where none does.
    pub block: Label,
    /// The name of the position to which a switch is set, otherwise empty.
    pub position: Label,
}

/// An order as a page gives it, without a ticket.
#[derive(Clone, Copy, PartialEq, Eq)]
pub struct NewOrder {
    /// The number of the object.
    pub ono: Ono,
    /// What the page showed of the object.
    pub identity: Identity,
    /// What is done with the object.
    pub action: Action,
}

/// An order: what a page wants done with an object, with its ticket.
#[derive(Clone, Copy, PartialEq, Eq, Default)]
pub struct Order {
    /// The ticket: the number by which the page knows the order, from 1 on.
    pub ticket: u64,
    /// The number of the object.
    pub ono: Ono,
    /// What the page showed of the object.
    pub identity: Identity,
    /// What is done with the object.
    pub action: Action,
    /// The moment, in milliseconds of the program's clock, after which the order must not be submitted.
    pub last: u64,
}

/// An order in flight: its command was submitted, and the outcome was not taken yet.
#[derive(Clone, Copy, PartialEq, Eq)]
pub struct OrderInFlight {
    /// The handle of the order's command.
    pub handle: Handle,
    /// The order.
    pub order: Order,
}

impl Default for OrderInFlight {
    /// An order that nobody gave.
    fn default() -> Self {
        OrderInFlight {
            handle: Handle(0),
            order: Order::default(),
        }
    }
}

/// Why an order was not carried out.
#[derive(Clone, Copy, PartialEq, Eq)]
pub enum NotDone {
    /// What became of the order's command, or why it had no command.
    Trouble(Trouble),
    /// The order was never sent: the moment after which it must not be submitted had passed.
    TooLate,
    /// The order was never sent: the object is another one than the page showed.
    Changed,
}

/// How an order ended.
#[derive(Clone, Copy, PartialEq, Eq)]
pub struct OrderResult {
    /// The ticket: the number by which the page knows the order.
    pub ticket: u64,
    /// The number of the object.
    pub ono: Ono,
    /// `Ok` if the order was carried out, otherwise why not.
    pub done: Result<(), NotDone>,
}

impl Default for OrderResult {
    /// An order that nobody gave.
    fn default() -> Self {
        OrderResult {
            ticket: 0,
            ono: Ono(0),
            done: Err(NotDone::Trouble(Trouble::Unanswered)),
        }
    }
}
