//! The numbers that calls return.
ghost use Rattle.std.specs.Prelude.{◌≡◌};
ghost use Rattle.oca_calls.specs.Numbers.{add_answer, answer_number, front_answer, set_answer, start_answer};
ghost use Rattle.oca_calls.specs.Numbers.{submission_answer};

use oca_control::ControlFault;
use oca_tree::{AddFault, FrontFault, SetFault, StartFault};

/// What a call for C returns, as `enum oca_result` of `oca.h`. The numbers are promised; 1 to 8 are those of
/// `AddFault`.
#[derive(Clone, Copy)]
pub enum Answer {
    /// The call did what was asked.
    Done = 0,
    /// There is no room for another object.
    Full = 1,
    /// The number of the object is below 4,096.
    Reserved = 2,
    /// An object has the number.
    Taken = 3,
    /// No block has the number of the container.
    NoSuchBlock = 4,
    /// The object would be at depth 9.
    TooDeep = 5,
    /// A text is empty, has more than 64 bytes, or is not UTF-8.
    BadText = 6,
    /// A setting is outside its limits, or a switch has no position or more than 16.
    BadRange = 7,
    /// Memory was refused.
    NoMemory = 8,
    /// The struct of the device or of the link is closed.
    Closed = 9,
    /// The struct of the device or of the link is open.
    Open = 10,
    /// The device is not started.
    NotStarted = 11,
    /// The device is started: no object can be added.
    Started = 12,
    /// There is no such packet, object, setting, lock, moment or answer.
    Nothing = 13,
    /// The place of the caller's has no room for all that was to be written.
    TooSmall = 14,
    /// A size is outside its range, or a struct is of another size.
    BadSize = 15,
    /// No object has the number.
    NoObject = 16,
    /// The object is a block, which has no setting.
    NoSetting = 17,
    /// The value is of another class than the object.
    OtherKind = 18,
    /// The position is not there or disabled, or the number is outside its limits.
    OutOfRange = 19,
    /// The link is lost: a command got no answer to 20 transmissions.
    Lost = 20,
    /// A command has the handle 4294967295 already.
    HandlesSpent = 21,
    /// The next handle is not below the lowest handle whose answer was not taken yet, plus the span.
    SpanFull = 22,
    /// The parameters have more than 1,445 bytes, or for a small link more than 64.
    TooLong = 23,
    /// The struct holds no value, or an answer gives no value of the class.
    NoValue = 24,
}

impl Answer {
    /// Returns the number of the answer in C (`enum oca_result`): 0 for `Done` to 24 for `NoValue`.
    pub fn number(self) -> u32
        ensures { result ≡ answer_number self }
    {
        self as u32
    }

    /// Returns the answer for an addition that was refused with this fault: the answer of the same name.
    pub fn of_add(fault: AddFault) -> Answer
        ensures { result ≡ add_answer fault }
    {
        match fault {
            AddFault::Full => Answer::Full,
            AddFault::Reserved => Answer::Reserved,
            AddFault::Taken => Answer::Taken,
            AddFault::NoSuchBlock => Answer::NoSuchBlock,
            AddFault::TooDeep => Answer::TooDeep,
            AddFault::BadText => Answer::BadText,
            AddFault::BadRange => Answer::BadRange,
            AddFault::NoMemory => Answer::NoMemory,
        }
    }

    /// Returns the answer for an object or a root that was to be made with what was stored of it, and was refused so.
    pub fn of_start(fault: StartFault) -> Answer
        ensures { result ≡ start_answer fault }
    {
        match fault {
            StartFault::Add(fault) => Answer::of_add(fault),
            StartFault::BadLabel => Answer::BadText,
            StartFault::BadFlags => Answer::BadRange,
        }
    }

    /// Returns the answer for a setting at the local front panel that was refused with this fault: of the same name.
    pub fn of_set(fault: SetFault) -> Answer
        ensures { result ≡ set_answer fault }
    {
        match fault {
            SetFault::NoObject => Answer::NoObject,
            SetFault::NoSetting => Answer::NoSetting,
            SetFault::OtherKind => Answer::OtherKind,
            SetFault::OutOfRange => Answer::OutOfRange,
        }
    }

    /// Returns the answer for a label, or for whether an object is enabled or locked, that was refused with this fault.
    pub fn of_front(fault: FrontFault) -> Answer
        ensures { result ≡ front_answer fault }
    {
        match fault {
            FrontFault::NoObject => Answer::NoObject,
            FrontFault::BadLabel => Answer::BadText,
            FrontFault::NotLocked => Answer::Nothing,
        }
    }

    /// Returns the answer for a command that the link refused with this fault: the answer of the same name.
    pub fn of_submission(fault: ControlFault) -> Answer
        ensures { result ≡ submission_answer fault }
    {
        match fault {
            ControlFault::Lost => Answer::Lost,
            ControlFault::HandlesSpent => Answer::HandlesSpent,
            ControlFault::SpanFull => Answer::SpanFull,
            ControlFault::TooLong => Answer::TooLong,
        }
    }
}
