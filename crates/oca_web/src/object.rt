//! What is known of the objects of a device.
ghost use Rattle.std.specs.Prelude.{◌≡◌};
ghost use Rattle.std.specs.Option.{option_copied};
ghost use Rattle.oca_web.specs.Known.{counts_for, is_asked_after, is_confirmed, names_it, object_numbered};

use crate::order::{Action, CONFIRMED_MS, NotDone, ORDER_MS, Order};
use crate::question::{Property, Question};
use oca_model::{Answer, Flags, Names, Reading, Value, class_word, with_integers};
use oca_panel::Trouble;
use oca_types::{Class, NoMemory, Ono, Text};
use std::alloc::Global;

/// Whose lock is on an object, as far as the device's answers say.
#[derive(Clone, Copy, PartialEq, Eq)]
pub enum Lock {
    /// No lock is known.
    Free,
    /// The lock of this panel.
    Own,
    /// The lock of a different controller.
    Other,
}

impl Lock {
    /// Returns the name of this state in the answers to the page: `free`, `own` or `other`.
    pub fn name(self) -> &'static str {
        match self {
            Lock::Free => "free",
            Lock::Own => "own",
            Lock::Other => "other",
        }
    }
}

/// What changes of an object: its setting, its lock and why it could not be read.
#[derive(Clone, Copy, PartialEq, Eq)]
pub struct ObjectState {
    /// The setting with its limits, and `None` before it was read.
    pub reading: Option<Reading>,
    /// A moment, in milliseconds of the program's clock: after this moment the device had this setting. 0 before the
    /// first reading.
    pub confirmed: u64,
    /// Why the object could not be read, or the members of a block could not be listed.
    pub trouble: Option<Trouble>,
    /// Whose lock is on the object.
    pub lock: Lock,
    /// Whether the object is enabled.
    pub enabled: bool,
}

impl ObjectState {
    ghost use Rattle.std.specs.Prelude.{◌≡◌, ◌⊎◌, ◌-◌, Some};

    /// Returns the state with this reading, by a question that was submitted at `moment` or later. So there is no
    /// trouble, and no lock of a different controller.
    pub(crate) fn with_reading(self, reading: Reading, moment: u64) -> ObjectState
        ensures reading { result.reading ≡ Some reading }
        ensures moment { result.confirmed ≡ moment }
    {
        ObjectState {
            reading: Some(reading),
            confirmed: moment,
            ..self.readable()
        }
    }

    /// Returns the state of an object that could be read: without trouble, and without a lock of a different controller.
    pub(crate) fn readable(self) -> ObjectState
        ensures { result.confirmed ≡ self.confirmed }
    {
        let lock = match self.lock {
            Lock::Own => Lock::Own,
            Lock::Free | Lock::Other => Lock::Free,
        };
        ObjectState {
            trouble: None,
            lock,
            ..self
        }
    }

    /// Returns the state after an order that ended so. What it set is confirmed as of the moment when its request was
    /// read, if the object was read before.
    pub(crate) fn after_order(self, order: Order, done: Result<(), Trouble>) -> ObjectState
        ensures { (result.confirmed ≡ self.confirmed) ⊎ (result.confirmed ≡ order.last - 5000) }
    {
        match (done, order.action, self.reading) {
            (Ok(()), Action::Set(value), Some(reading)) => ObjectState {
                reading: Some(reading.with_value(value).unwrap_or(reading)),
                confirmed: order.last.saturating_sub(ORDER_MS),
                ..self
            },
            (Ok(()), Action::Lock, _) => self.with_lock(Lock::Own),
            (Ok(()), Action::Unlock, _) => self.with_lock(Lock::Free),
            (Err(Trouble::Refused(LOCKED)), _, _) => self.with_lock(Lock::Other),
            _ => self,
        }
    }

    fn with_lock(self, lock: Lock) -> ObjectState
        ensures { result.confirmed ≡ self.confirmed }
    {
        ObjectState { lock, ..self }
    }

    /// Returns the state after this property could not be read: with a different controller's lock, or with the reason
    /// why the value or the members are missing.
    pub(crate) fn with_trouble(self, property: Property, trouble: Trouble) -> ObjectState
        ensures { result.confirmed ≡ self.confirmed }
    {
        match (property, trouble) {
            (_, Trouble::Refused(LOCKED)) => self.with_lock(Lock::Other),
            (Property::Members | Property::Value, _) => ObjectState {
                trouble: Some(trouble),
                ..self
            },
            _ => self,
        }
    }
}

/// The status of a command that a different controller's lock refuses (AES70-2, OcaStatus).
const LOCKED: u8 = 3;

/// An object of the device, as far as it is known.
#[derive(Drop)]
pub struct Object {
    /// The object number.
    pub ono: Ono,
    /// The number of the block that lists the object.
    pub container: Ono,
    /// The class, and `None` if this profile does not have the class.
    pub class: Option<Class>,
    /// The role, empty before it was read.
    pub role: Text,
    /// A moment, in milliseconds of the program's clock: after this moment the device had this role. `None` where the
    /// device may be another one by now.
    pub role_read: Option<u64>,
    /// The label, empty before it was read.
    pub label: Text,
    /// Whether the object can be locked, false before it was read.
    pub lockable: bool,
    /// The names of a switch's positions, in order.
    pub names: Names,
    /// A moment after which the device had these names, as `role_read` is one.
    pub names_read: Option<u64>,
    /// Whether the link was lost since the device said the role, or refused to: it may be another device.
    pub may_be_other: bool,
    /// Why the role or these names were last refused, and the moment when that question was submitted.
    pub refused: Option<(Trouble, u64)>,
    /// For each position of a switch, whether the position is enabled.
    pub flags: Flags,
    /// What changes of the object.
    pub state: ObjectState,
    /// The number of the last change of this object ([`Objects`]).
    pub changed: u64,
    /// The moment when the object was read again last, in milliseconds of the program's clock.
    pub last_asked: u64,
    /// How often the object was read again.
    pub readings: u32,
}

impl Object {
    ghost use Rattle.std.specs.Prelude.{◌≡◌, ◌⊎◌, Some};
    ghost use Rattle.oca_web.specs.Known.{name_at};

    /// Returns an object of which only the number, the container and the class are known. `class` is `None` if this
    /// profile does not have the class. Texts are empty, the object counts as not lockable and as enabled, and nothing
    /// of it was read.
    pub fn new(ono: Ono, container: Ono, class: Option<Class>) -> Object {
        Object {
            ono,
            container,
            class,
            role: Text::default(),
            role_read: None,
            label: Text::default(),
            lockable: false,
            names: Names::new(),
            names_read: None,
            may_be_other: false,
            refused: None,
            flags: Flags::new(),
            state: ObjectState {
                reading: None,
                confirmed: 0,
                trouble: None,
                lock: Lock::Free,
                enabled: true,
            },
            changed: 0,
            last_asked: 0,
            readings: 0,
        }
    }

    /// Notes that the device had this role after the moment `read`, if there is one.
    pub(crate) fn confirm_role(&mut self, role: Text, read: Option<u64>)
        ensures { self.new ≡ record self.old { role = role; role_read = read } }
    {
        self.role = role;
        self.role_read = read;
    }

    /// Notes that the device had these names of positions after the moment `read`, if there is one.
    pub(crate) fn confirm_names(&mut self, names: Names, read: Option<u64>)
        ensures { self.new ≡ record self.old { names = names; names_read = read } }
    {
        self.names = names;
        self.names_read = read;
    }

    /// Replaces the state, and returns whether anything else differs than the moment of the reading.
    fn set_state(&mut self, state: ObjectState) -> bool
        ensures { self.new ≡ record self.old { state = state } }
    {
        let old = ObjectState {
            confirmed: state.confirmed,
            ..self.state
        };
        self.state = state;
        old != state
    }

    /// Notes the answer to a question that was submitted at `moment` or later, and returns whether it changes the
    /// object. The answer confirms a role, or names of positions, as of the moment `read`, if there is one. An answer
    /// of another kind than the question asks for changes nothing.
    fn learn(&mut self, property: Property, answer: Answer, moment: u64, read: Option<u64>) -> bool
        ensures role { ((self.new.role ≡ self.old.role) × (self.new.role_read ≡ self.old.role_read))
            ⊎ (self.new.role_read ≡ read) }
        ensures names { ((self.new.names ≡ self.old.names) × (self.new.names_read ≡ self.old.names_read))
            ⊎ (self.new.names_read ≡ read) }
    {
        let state = self.state;
        match (property, answer) {
            (Property::Role, Answer::Text(role)) => {
                let is_same = self.role.as_str() == role.as_str();
                self.may_be_other = false;
                self.confirm_role(role, read);
                !is_same
            }
            (Property::Names, Answer::Names(names)) => {
                let is_same = are_same(&self.names, &names);
                self.confirm_names(names, read);
                !is_same
            }
            (Property::Label, Answer::Text(label)) => {
                let is_same = self.label.as_str() == label.as_str();
                self.label = label;
                !is_same
            }
            (Property::Flags, Answer::Flags(flags)) => {
                let is_same = self.flags.as_slice() == flags.as_slice();
                self.flags = flags;
                !is_same
            }
            (Property::Lockable, Answer::Truth(lockable)) => {
                self.lockable = lockable;
                true
            }
            (Property::Enabled, Answer::Truth(enabled)) => self.set_state(ObjectState {
                enabled,
                ..state
            }),
            (Property::Value, Answer::Reading(reading)) => {
                let confirmed = if self.may_be_other {
                    state.confirmed
                } else {
                    moment
                };
                self.set_state(state.with_reading(reading, confirmed))
            }
            _ => false,
        }
    }

    /// Whether an answer shows that this is another object: one with another role or other names of positions, or one
    /// that can be locked if this one can't, or the other way round.
    pub(crate) fn differs_from(&self, property: Property, answer: &Answer) -> bool {
        match (property, answer) {
            (Property::Role, Answer::Text(role)) => self.role.as_str() != role.as_str(),
            (Property::Names, Answer::Names(names)) => !are_same(&self.names, names),
            (Property::Lockable, Answer::Truth(lockable)) => self.lockable != *lockable,
            _ => false,
        }
    }

    /// The name of this position of a switch, empty if there is none.
    pub(crate) fn position(&self, at: u16) -> &str
        ensures { result.now ≡ name_at at self.now.names.items }
    {
        match self.names.as_slice().get(usize::from(at)) {
            Some(name) => name.as_str(),
            None => "",
        }
    }
}

/// The objects of a device in the order in which they were found. The *place* of an object is its index, counted from
/// 0. Each change of what pages see of an object gets the next number, which the object then stores: the objects that
/// changed after a number are those with a greater one. A call that names a place where no object is changes nothing.
#[derive(Drop)]
pub struct Objects {
    list: Vec<Object>,
    changes: u64,
}

impl Objects {
    ghost use Rattle.std.specs.Prelude.{◌≡◌};

    /// Returns a list without objects, whose last change has the number 0.
    pub(crate) fn new(alloc: Global) -> Objects {
        Objects {
            list: Vec::new(alloc),
            changes: 0,
        }
    }

    /// Removes all objects, which counts as one change.
    pub(crate) fn clear(&mut self) {
        self.list.clear();
        self.changes = self.changes.saturating_add(1);
    }

    /// Returns the objects, in the order in which they were found.
    pub fn as_slice(&self) -> &[Object]
        ensures { result.now ≡ self.now.list.items }
    {
        self.list.as_slice()
    }

    /// Returns the number of the last change: 0 before the first.
    pub fn changes(&self) -> u64 {
        self.changes
    }

    /// Adds an object at the end, which counts as a change. The only refusal is `NoMemory`: then it is not added.
    pub(crate) fn add(&mut self, mut object: Object) -> Result<(), NoMemory> {
        self.changes = self.changes.saturating_add(1);
        object.changed = self.changes;
        self.list.push(object).map_err(|_| NoMemory)
    }

    /// Notes the answer to a question about an object ([`Object::learn`]), which counts as a change if it changes
    /// the object.
    pub(crate) fn learn(
        &mut self,
        question: Question,
        answer: Answer,
        moment: u64,
        read: Option<u64>,
    ) {
        if let Some(object) = self.list.get_mut(question.place)
            && object.learn(question.property, answer, moment, read)
        {
            self.changes = self.changes.saturating_add(1);
            object.changed = self.changes;
        }
    }

    /// Notes that the device refused to say the role, or the names of the positions, of the object at this place, when it
    /// was asked at this moment.
    pub(crate) fn note_refused(&mut self, place: usize, trouble: Trouble, moment: u64) {
        if let Some(object) = self.list.get_mut(place) {
            object.may_be_other = false;
            object.refused = Some((trouble, moment));
        }
    }

    /// Notes that the device may be another one by now: no role and no name of a position is confirmed any longer.
    pub(crate) fn doubt_names(&mut self) {
        for object in self.list.as_mut_slice() {
            object.role_read = None;
            object.names_read = None;
        }
    }

    /// Notes that the link was lost. The device may be another one by now, or have forgotten the locks of this panel: no
    /// role and no name of a position is confirmed any longer, a value is confirmed only after its object's role, and no
    /// lock of this panel is known.
    pub(crate) fn note_lost(&mut self) {
        self.doubt_names();
        for object in self.list.as_mut_slice() {
            object.may_be_other = true;
            if object.state.lock == Lock::Own {
                object.state.lock = Lock::Free;
                self.changes = self.changes.saturating_add(1);
                object.changed = self.changes;
            }
        }
    }

    /// Returns the state of the object at `place`, and `None` where none is.
    pub(crate) fn state(&self, place: usize) -> Option<ObjectState> {
        Some(self.list.as_slice().get(place)?.state)
    }

    /// Replaces the state of the object at `place`, which counts as a change if anything else differs than the moment of
    /// the reading.
    pub(crate) fn set_state(&mut self, place: usize, state: ObjectState) {
        if let Some(object) = self.list.get_mut(place)
            && object.set_state(state)
        {
            self.changes = self.changes.saturating_add(1);
            object.changed = self.changes;
        }
    }

    /// Notes that the object at this place is read again at this moment.
    pub(crate) fn note_read_again(&mut self, place: usize, now: u64) {
        if let Some(object) = self.list.get_mut(place) {
            object.last_asked = now;
            object.readings = object.readings.wrapping_add(1);
        }
    }

    /// The first object with this number and its place, and `None` where none has it.
    pub(crate) fn find(&self, ono: Ono) -> Option<(usize, &Object)> {
        let objects = self.list.as_slice();
        let place = objects.iter().position(|object| object.ono == ono)?;
        Some((place, objects.get(place)?))
    }
}

/// Whether the names of positions are the same, in order.
fn are_same(names: &Names, others: &Names) -> bool {
    let mut pairs = names.as_slice().iter().zip(others.as_slice().iter());
    names.len() == others.len() && pairs.all(|(one, other)| one.as_str() == other.as_str())
}

/// The first object with this number.
fn find(objects: &[Object], ono: Ono) -> Option<&Object>
    ensures { option_copied result ≡ object_numbered ono.0 objects.now }
{
    objects.iter().find(|object| object.ono.0 == ono.0)
}

/// Whether the object of an order is the one that its page showed, as far as is known: it has that role, is in a block
/// of that role (an empty role means none), and if a switch is set, the position has that name.
pub(crate) fn names_it(objects: &[Object], order: &Order) -> bool
    ensures { result ≡ names_it order.now objects.now }
{
    let Some(object) = find(objects, order.ono) else {
        return false;
    };
    let is_block = match find(objects, object.container) {
        Some(block) => order.identity.block.is(block.role.as_str()),
        None => order.identity.block.is(""),
    };
    let is_position = match order.action {
        Action::Set(Value::Switch(at)) => order.identity.position.is(object.position(at)),
        _ => true,
    };
    order.identity.role.is(object.role.as_str()) && is_block && is_position
}

/// Whether the question that was submitted at this moment was asked after the order's request was read. An earlier one
/// may have been answered by a device that was replaced since.
fn is_asked_after(order: &Order, moment: u64) -> bool
    ensures { result ≡ is_asked_after order.now moment }
{
    order.last.saturating_sub(ORDER_MS) <= moment
}

/// Whether a confirmation as of this moment counts for the order now: at most 2,000 ms passed since then, and it was
/// asked for after the order.
pub(crate) fn counts_for(order: &Order, read: Option<u64>, now: u64) -> bool
    ensures { result ≡ counts_for order.now now read }
{
    match read {
        Some(moment) => now.saturating_sub(moment) <= CONFIRMED_MS && is_asked_after(order, moment),
        None => false,
    }
}

/// Whether the object of an order is the one that its page showed ([`names_it`]), and the device confirmed this for the
/// order ([`counts_for`]): its role, the role of its block, if there is one, and if a switch is set, the names of its
/// positions.
pub(crate) fn is_confirmed(objects: &[Object], order: &Order, now: u64) -> bool
    ensures { result ≡ is_confirmed now order.now objects.now }
{
    let Some(object) = find(objects, order.ono) else {
        return false;
    };
    let is_block_confirmed = match find(objects, object.container) {
        Some(block) => counts_for(order, block.role_read, now),
        None => true,
    };
    let is_position_confirmed = match order.action {
        Action::Set(Value::Switch(_)) => counts_for(order, object.names_read, now),
        _ => true,
    };
    names_it(objects, order)
        && counts_for(order, object.role_read, now)
        && is_block_confirmed
        && is_position_confirmed
}

/// Why an order must not be sent, if the device refused to say this object's role, or the names of its positions, when
/// it was asked after the order.
pub(crate) fn refusal_for(order: &Order, object: &Object) -> Option<NotDone> {
    match object.refused {
        Some((trouble, moment)) if is_asked_after(order, moment) => Some(NotDone::Trouble(trouble)),
        _ => None,
    }
}

/// Returns the least and the greatest value of a reading (AES70-2). The result is `None` for a mute, a polarity and a
/// Boolean, which have no limits.
pub fn limits_of(reading: Reading) -> Option<(Value, Value)> {
    macro_rules! limits {
        ($($integer:ident $type:ty),*) => {
            match reading {
                Reading::Mute(_) | Reading::Polarity(_) | Reading::Boolean(_) => None,
                Reading::Switch(r) => Some((Value::Switch(r.least), Value::Switch(r.greatest))),
                $(Reading::$integer(r) => Some((Value::$integer(r.least), Value::$integer(r.greatest))),)*
            }
        };
    }
    with_integers!(limits)
}

/// Returns the name of a class in the answers to the page: the class's word, such as `block` or `int16`
/// ([`class_word`]). The result is `unknown` for `None`, a class that this profile does not have.
pub fn class_name(class: Option<Class>) -> &'static str {
    match class {
        None => "unknown",
        Some(class) => class_word(class),
    }
}

/// Returns whether a text is the word of a class of this profile ([`class_word`]), which is its name in the answers to
/// the page. The result is `false` for any other text, also for `unknown`.
pub fn is_class_name(name: &str) -> bool {
    macro_rules! is_word {
        ($($integer:ident $type:ty),*) => {
            [Class::Block, Class::Mute, Class::Polarity, Class::Switch, Class::Boolean, $(Class::$integer),*]
                .iter()
                .any(|class| class_word(*class) == name)
        };
    }
    with_integers!(is_word)
}
