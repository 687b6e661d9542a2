//! Questions about the objects of a device: commands that only read.
ghost use Rattle.std.specs.Prelude.{◌≡◌};
ghost use Rattle.oca_web.specs.Asking.{AsksOne, class_for, request_for};

use oca_model::Request;
use oca_net::End;
use oca_panel::Panel;
use oca_types::{Class, Handle, Method, Ono};

/// A property of an object that the panel reads.
#[derive(Clone, Copy, PartialEq, Eq, Default)]
pub enum Property {
    /// The objects that a block contains directly.
    Members,
    /// The role of the object.
    #[default]
    Role,
    /// The label of the object.
    Label,
    /// Whether the object can be locked.
    Lockable,
    /// Whether the object is enabled.
    Enabled,
    /// The names of all positions of a switch.
    Names,
    /// For each position of a switch, whether the position is enabled.
    Flags,
    /// The setting of the object.
    Value,
}

impl Property {
    /// Returns the request that reads this property (AES70-2).
    pub fn request(self) -> Request
        ensures { result ≡ request_for self }
    {
        match self {
            Property::Members => Request::GetMembers,
            Property::Role => Request::GetRole,
            Property::Label => Request::GetLabel,
            Property::Lockable => Request::GetLockable,
            Property::Enabled => Request::GetEnabled,
            Property::Names => Request::GetPositionNames,
            Property::Flags => Request::GetPositionEnableds,
            Property::Value => Request::Get,
        }
    }

    /// Whether objects of this class have this property, as far as the panel reads it.
    pub(crate) fn is_of(self, class: Option<Class>) -> bool {
        match self {
            Property::Role | Property::Label | Property::Lockable | Property::Enabled => true,
            Property::Members => class == Some(Class::Block),
            Property::Names | Property::Flags => class == Some(Class::Switch),
            Property::Value => !matches!(class, None | Some(Class::Block)),
        }
    }

    /// Returns the method whose answer has this property (AES70-2). For the value it is `GetSetting` for each class,
    /// since the answers of all get methods of a value are read in the same way.
    pub fn method(self) -> Method {
        match self {
            Property::Members => Method::GetMembers,
            Property::Role => Method::GetRole,
            Property::Label => Method::GetLabel,
            Property::Lockable => Method::GetLockable,
            Property::Enabled => Method::GetEnabled,
            Property::Names => Method::GetPositionNames,
            Property::Flags => Method::GetPositionEnableds,
            Property::Value => Method::GetSetting,
        }
    }
}

/// Returns the class whose methods are used to ask an object: its own. Where this profile does not have the class
/// (`None`), it is OcaBlock, whose methods of OcaRoot all classes have (AES70-2).
pub fn class_for(class: Option<Class>) -> Class
    ensures { result ≡ class_for class }
{
    class.unwrap_or(Class::Block)
}

/// The properties that a walk reads of each object: what the object is.
pub(crate) const WALK_PROPERTIES: [Property; 4] = [
    Property::Members,
    Property::Role,
    Property::Lockable,
    Property::Names,
];

/// The properties that are read of each object once the walk is over: the state of the object.
pub(crate) const STATE_PROPERTIES: [Property; 4] = [
    Property::Label,
    Property::Value,
    Property::Enabled,
    Property::Flags,
];

/// A question about one object of the list of objects.
#[derive(Clone, Copy, PartialEq, Eq, Default)]
pub struct Question {
    /// The place of the object in the list of objects, counted from 0.
    pub place: usize,
    /// The property that is asked for.
    pub property: Property,
    /// The number of the walk in which the object was found ([`Inventory`](crate::Inventory)).
    pub epoch: u64,
}

/// The greatest number of questions in flight: 32, as many as the greatest span has handles.
pub(crate) const MOST_QUESTIONS: usize = 32;

/// A question whose command is in flight: it was submitted, and its answer was not taken yet.
#[derive(Clone, Copy, PartialEq, Eq)]
pub struct PendingQuestion {
    /// The handle of the command that asks.
    pub handle: Handle,
    /// The question.
    pub question: Question,
    /// The moment when the command was submitted, in milliseconds of the program's clock.
    pub moment: u64,
}

impl Default for PendingQuestion {
    /// A question that nobody asked.
    fn default() -> Self {
        PendingQuestion {
            handle: Handle(0),
            question: Question::default(),
            moment: 0,
        }
    }
}

/// Asks the object `ono` one question over the panel, and returns the handle of its command (AES70-2). The command only
/// reads, and is sent at once. `class` is the class of the object, and `None` if this profile does not have it. The
/// result is `None` if the panel refuses the command; then nothing is changed or sent.
pub fn ask_one<E: End>(
    panel: &mut Panel<E>,
    ono: Ono,
    class: Option<Class>,
    property: Property,
) -> Option<Handle>
    ensures { AsksOne ono.0 class property result panel.old panel.new }
{
    panel
        .begin_request(ono, class_for(class), &property.request())
        .ok()
}
