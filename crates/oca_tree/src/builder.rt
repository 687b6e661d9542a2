//! Building a tree, object by object.
ghost use Rattle.std.specs.Prelude.{◌≡◌, ◌≤◌, ◌<◌, [], ◌∷◌, length, map, replicate, true, false, Some, None, IfOk};
ghost use Rattle.std.specs.Prelude.{IfErr, OnOk, IfSome, IsSome, ◌↔◌};
ghost use Rattle.std.specs.List.{All, list_any};
ghost use Rattle.oca_model.specs.Lists.{IsText, Each};
ghost use Rattle.oca_tree.specs.TypedLaws.{IsOfItsTypes};
ghost use Rattle.oca_tree.specs.Building.{Adds, value_of, switch, has_bad_name, is_long, root};
ghost use Rattle.oca_tree.specs.Objects.{object_of};
ghost use Rattle.oca_tree.specs.Room.{room_size};
ghost use Rattle.oca_tree.specs.Starts.{AddsWith, BeginsWith};
ghost use Rattle.oca_tree.specs.Places.{place_of};
ghost use Rattle.oca_model.specs.Readings.{IsReading};
ghost use Rattle.oca_tree.specs.Trees.{IsTree, IsSound, IsSoundValue, is_position_reading};
ghost use Rattle.oca_tree.specs.PrivateSteps.{Makes, MakesValue, holds_reading, HoldsReading};
ghost use Rattle.oca_tree.specs.declared.object.Value.TheVariants.{Reads};
ghost use Rattle.oca_tree.specs.declared.builder.AddFault.TheVariants.{NoMemory};

use crate::object::{Object, Switch, Value};
use crate::objects::Objects;
use crate::place::{block_depth, contains};
use crate::room::Room;
use crate::start::{Start, StartFault, restore};
use crate::tree::Tree;
use arrayvec::ArrayVec;
use oca_model::{MuteState, PolarityState, Ranged, Reading, with_integers};
use oca_types::{Ono, Text};
use std::alloc::Global;
use std::fmt;
use std::marker::Model;
use thiserror::Error;

/// Why an object was not added to a tree: the first fault in this order that applies. The builder is then unchanged.
/// The numbers are promised.
#[derive(Clone, Copy, Debug, PartialEq, Eq, Error)]
pub enum AddFault {
    /// The tree already has as many objects as it has room for, the root counted.
    #[error("there is no room for another object")]
    Full = 1,
    /// The object number is below 4096.
    #[error("the number is below 4096")]
    Reserved = 2,
    /// Another object of the tree has the number.
    #[error("the number is taken")]
    Taken = 3,
    /// No block of the tree has the container's number.
    #[error("the container is no block of the tree")]
    NoSuchBlock = 4,
    /// The object would be at depth 9; the root is at depth 1, and the greatest depth is 8.
    #[error("the object would stand at depth 9")]
    TooDeep = 5,
    /// The role is empty, or the role or the name of a position has more than 64 bytes.
    #[error("a text is empty or has more than 64 bytes")]
    BadText = 6,
    /// The setting is not between its limits (the least can be above the greatest). Or a switch does not have 1 to 16
    /// positions, or its position is not one of them.
    #[error("the setting is outside its range")]
    BadRange = 7,
    /// The allocator refused memory.
    #[error("no memory")]
    NoMemory = 8,
}

const _: () = prove!(AddFault::Full as u8 == 1);

const _: () = prove!(AddFault::Reserved as u8 == 2);

const _: () = prove!(AddFault::Taken as u8 == 3);

const _: () = prove!(AddFault::NoSuchBlock as u8 == 4);

const _: () = prove!(AddFault::TooDeep as u8 == 5);

const _: () = prove!(AddFault::BadText as u8 == 6);

const _: () = prove!(AddFault::BadRange as u8 == 7);

const _: () = prove!(AddFault::NoMemory as u8 == 8);

/// What an object is when it is added to a tree: its role, whether it can be locked, its class and its setting.
#[derive(Clone, Copy, Debug)]
pub struct Spec<'a> {
    /// The role (OcaRoot, AES70-2): 1 to 64 bytes.
    pub role: &'a str,
    /// Whether peers can lock the object (OcaRoot, AES70-2).
    pub lockable: bool,
    /// The class and the setting.
    pub kind: Kind<'a>,
}

/// The class of an object, and the setting that the object has when it is added (AES70-2).
#[derive(Clone, Copy, Debug)]
pub enum Kind<'a> {
    /// OcaBlock. It has no setting.
    Block,
    /// OcaMute, with its state.
    Mute(MuteState),
    /// OcaPolarity, with its state.
    Polarity(PolarityState),
    /// OcaSwitch, with all its positions enabled.
    Switch {
        /// The names of its positions, 1 to 16, each of at most 64 bytes.
        names: &'a [&'a str],
        /// The current position, counted from 0.
        position: u16,
    },
    /// OcaBooleanActuator, with its setting.
    Boolean(bool),
    /// OcaInt8Actuator, with its setting and its limits.
    Int8 {
        /// The setting, from `least` to `greatest`.
        setting: i8,
        /// The least that it can be set to.
        least: i8,
        /// The greatest that it can be set to.
        greatest: i8,
    },
    /// OcaInt16Actuator, with its setting and its limits.
    Int16 {
        /// The setting, from `least` to `greatest`.
        setting: i16,
        /// The least that it can be set to.
        least: i16,
        /// The greatest that it can be set to.
        greatest: i16,
    },
    /// OcaInt32Actuator, with its setting and its limits.
    Int32 {
        /// The setting, from `least` to `greatest`.
        setting: i32,
        /// The least that it can be set to.
        least: i32,
        /// The greatest that it can be set to.
        greatest: i32,
    },
    /// OcaInt64Actuator, with its setting and its limits.
    Int64 {
        /// The setting, from `least` to `greatest`.
        setting: i64,
        /// The least that it can be set to.
        least: i64,
        /// The greatest that it can be set to.
        greatest: i64,
    },
    /// OcaUint8Actuator, with its setting and its limits.
    Uint8 {
        /// The setting, from `least` to `greatest`.
        setting: u8,
        /// The least that it can be set to.
        least: u8,
        /// The greatest that it can be set to.
        greatest: u8,
    },
    /// OcaUint16Actuator, with its setting and its limits.
    Uint16 {
        /// The setting, from `least` to `greatest`.
        setting: u16,
        /// The least that it can be set to.
        least: u16,
        /// The greatest that it can be set to.
        greatest: u16,
    },
    /// OcaUint32Actuator, with its setting and its limits.
    Uint32 {
        /// The setting, from `least` to `greatest`.
        setting: u32,
        /// The least that it can be set to.
        least: u32,
        /// The greatest that it can be set to.
        greatest: u32,
    },
    /// OcaUint64Actuator, with its setting and its limits.
    Uint64 {
        /// The setting, from `least` to `greatest`.
        setting: u64,
        /// The least that it can be set to.
        least: u64,
        /// The greatest that it can be set to.
        greatest: u64,
    },
}

/// Whether a name has more than 64 bytes.
fn has_long(names: &[&str]) -> bool
    ensures { result ≡ list_any (λ name. is_long name.now) names.now }
{
    names.iter().any(|name| name.len() > 64)
}

/// Whether a position name has more than 64 bytes.
fn has_bad_name(kind: &Kind<'_>) -> bool
    ensures { result ≡ has_bad_name kind.now }
{
    match kind {
        Kind::Switch { names, .. } => has_long(names),
        _ => false,
    }
}

/// The text with these bytes, where they are not too many.
pub(crate) fn text_of(text: &str) -> Option<Text>
    ensures variant { IsSome result ↔ (length text.now ≤ 64) }
    ensures value { IfSome result (λ t. t ≡ text.now) }
    ensures typed { IfSome result IsText }
{
    Text::new(text)
}

/// The texts of these names.
fn texts_of(names: &[&str]) -> ArrayVec<Text, 16>
    requires few { length names.now ≤ 16 }
    requires short { list_any (λ name. is_long name.now) names.now ≡ false }
    ensures texts { result.items ≡ map (λ name. name.now) names.now }
    ensures typed { Each IsText result.items }
{
    let mut texts = ArrayVec::new();
    for name in names {
        match text_of(name) {
            Some(text) => texts.push(text),
            None => unreachable!(),
        }
    }
    texts
}

/// So many times true.
fn truths(number: usize) -> ArrayVec<bool, 16>
    requires { number ≤ 16 }
    ensures { result.items ≡ replicate number true }
{
    let mut truths = ArrayVec::new();
    for _ in 0..number {
        truths.push(true);
    }
    truths
}

/// A switch with these positions, all enabled.
#[tactic(auto, unfolding(crate::specs::Building::is_bad_value, crate::specs::Trees::IsSoundValue, crate::specs::Copies::names_in))]
fn switch_of(names: &[&str], position: u16) -> Option<Value>
    requires { list_any (λ name. is_long name.now) names.now ≡ false }
    ensures { MakesValue result (switch (map (λ name. name.now) names.now) position) }
{
    if names.is_empty() || names.len() > 16 || usize::from(position) >= names.len() {
        return None;
    }
    Some(Value::Switch(Switch {
        names: texts_of(names),
        enableds: truths(names.len()),
        position,
    }))
}

/// A setting with its limits.
fn ranged<N: Copy>(setting: N, least: N, greatest: N) -> Ranged<N>
    ensures { result ≡ record { setting = setting; least = least; greatest = greatest } }
{
    Ranged {
        setting,
        least,
        greatest,
    }
}

/// What an object of a kind reads as that is no block and no switch.
#[tactic(auto, unfolding(crate::specs::Building::value_of))]
fn reading_of(kind: &Kind<'_>) -> Reading
    requires { holds_reading kind.now ≡ true }
    ensures { HoldsReading kind.now result }
{
    macro_rules! reading {
        ($($integer:ident $type:ty),*) => {
            match kind {
                Kind::Mute(state) => Reading::Mute(*state),
                Kind::Polarity(state) => Reading::Polarity(*state),
                Kind::Boolean(truth) => Reading::Boolean(*truth),
                $(Kind::$integer { setting, least, greatest } => {
                    Reading::$integer(ranged(*setting, *least, *greatest))
                })*
                _ => unreachable!(),
            }
        };
    }
    with_integers!(reading)
}

/// What reads so, where it is within its limits.
#[tactic(auto, unfolding(crate::specs::Building::is_bad_value, crate::specs::Trees::IsSoundValue, crate::specs::Copies::names_in))]
fn value_reading(reading: Reading) -> Option<Value>
    requires typed { IsReading reading }
    requires other { is_position_reading reading ≡ false }
    ensures { MakesValue result (Reads reading) }
{
    if reading.is_within() {
        Some(Value::Reads(reading))
    } else {
        None
    }
}

/// The value of a kind, where it is in range.
#[tactic(auto, unfolding(crate::specs::Building::value_of, crate::specs::Building::is_bad_value, crate::specs::Trees::IsSoundValue, crate::specs::Copies::names_in))]
fn value_of(kind: &Kind<'_>) -> Option<Value>
    requires { has_bad_name kind.now ≡ false }
    ensures { MakesValue result (value_of kind.now) }
{
    match kind {
        Kind::Block => Some(Value::Block),
        Kind::Switch { names, position } => switch_of(names, *position),
        _ => value_reading(reading_of(kind)),
    }
}

/// The object to be added, or the first fault that applies.
#[tactic(auto, unfolding(crate::specs::Building::add_fault))]
fn object_for(
    objects: &Objects,
    container: Ono,
    ono: Ono,
    spec: &Spec<'_>,
) -> Result<Object, AddFault>
    requires tree { IsTree objects.now.list }
    requires most { objects.now.room ≤ 4096 }
    ensures makes { Makes result objects.now container.0 ono.0 spec.now }
    ensures room { OnOk result (length objects.now.list < objects.now.room) }
    ensures free { IfOk result (λ o. object_of objects.now.list o.ono.0 ≡ None) }
    ensures typed { IfOk result IsOfItsTypes }
{
    if objects.len() >= objects.room() {
        return Err(AddFault::Full);
    }
    if ono.0 < 4096 {
        return Err(AddFault::Reserved);
    }
    if contains(objects, ono) {
        return Err(AddFault::Taken);
    }
    let Some(depth) = block_depth(objects, container) else {
        return Err(AddFault::NoSuchBlock);
    };
    if depth >= 8 {
        return Err(AddFault::TooDeep);
    }
    if spec.role.is_empty() || has_bad_name(&spec.kind) {
        return Err(AddFault::BadText);
    }
    let Some(role) = text_of(spec.role) else {
        return Err(AddFault::BadText);
    };
    let Some(value) = value_of(&spec.kind) else {
        return Err(AddFault::BadRange);
    };
    Ok(Object {
        ono,
        container,
        lockable: spec.lockable,
        role,
        label: Text::default(),
        enabled: true,
        value,
        lock: None,
        failing: false,
    })
}

/// The root: a block of the number 100 with the role `root`, lockable.
fn root_object() -> Object
    ensures root { result ≡ root }
    ensures typed { IsOfItsTypes result }
{
    let Some(role) = text_of("root") else {
        unreachable!()
    };
    Object {
        ono: Ono(100),
        container: Ono(0),
        lockable: true,
        role,
        label: Text::default(),
        enabled: true,
        value: Value::Block,
        lock: None,
        failing: false,
    }
}

/// A tree to which objects are still added, with the memory for a fixed number of objects. Contracts see the list of
/// the objects in order of adding, and for how many objects there is room.
///
/// ```
/// let mut builder = TreeBuilder::new(alloc)?;
/// // ...
/// let block = Spec {
///     role,
///     lockable: true,
///     kind: Kind::Block,
/// };
/// // ...
/// builder.add(ROOT, channel.block(), &block)?;
/// ```
#[derive(Drop)]
pub struct TreeBuilder {
    objects: Objects,
}

impl Model for TreeBuilder {
    ghost use Rattle.std.specs.Prelude.{◌≤◌};
    ghost use Rattle.std.specs.List.{All};
    ghost use Rattle.oca_tree.specs.Objects.{Store};
    ghost use Rattle.oca_tree.specs.Trees.{IsTree};
    ghost use Rattle.oca_tree.specs.TypedLaws.{IsOfItsTypes};

    ghost Value = { Store };

    ghost view = { λ t. t.objects };

    ghost invariant = { λ t. IsTree t.objects.list × (t.objects.room ≤ 4096) × All IsOfItsTypes t.objects.list };
}

impl fmt::Debug for TreeBuilder {
    /// How many objects were added, the root block counted.
    fn fmt<W: fmt::Write>(&self, f: &mut fmt::Formatter<W>) -> fmt::Result {
        f.debug_struct("TreeBuilder")
            .field("objects", &self.objects.len())
            .finish()
    }
}

impl TreeBuilder {
    /// Returns a builder that contains only the root block, and has room for 128 objects with the root counted. The
    /// root is a lockable OcaBlock (AES70-2) with the number 100 and the role `root`. Its label is empty, and it is
    /// enabled. The call takes the memory for all 128 objects from `alloc`. The only refusal is `NoMemory` if the
    /// allocator refused that memory. No builder is then returned.
    pub fn new(alloc: Global) -> Result<TreeBuilder, AddFault>
        ensures ok { IfOk result (λ builder. builder ≡ record { room = 128; list = root ∷ [] }) }
        ensures err { IfErr result (λ e. e ≡ NoMemory) }
    {
        TreeBuilder::with_room(alloc, Room::default())
    }

    /// Returns a builder that contains only the root block, and has room for `room` objects with the root counted: 1 to
    /// 4,096, with the default 128. The root is a lockable OcaBlock (AES70-2) with the number 100 and the role `root`.
    /// Its label is empty, and it is enabled. The call takes the memory for all `room` objects from `alloc`. The only
    /// refusal is `NoMemory` if the allocator refused that memory. No builder is then returned.
    pub fn with_room(alloc: Global, room: Room) -> Result<TreeBuilder, AddFault>
        ensures ok { IfOk result (λ builder. builder ≡ record { room = room_size room; list = root ∷ [] }) }
        ensures err { IfErr result (λ e. e ≡ NoMemory) }
    {
        TreeBuilder::holding(alloc, room, root_object())
    }

    /// Returns a builder that contains only the root block, with the stored label and enabled flag in `start`. The root
    /// is a lockable OcaBlock (AES70-2) with the number 100 and the role `root`. `start` has what was stored of the
    /// root: its label, and whether it is enabled. The builder has room for `room` objects with the root counted: 1 to
    /// 4,096. The call takes the memory for all of them from `alloc`. Refusals, the first that applies, after which no
    /// builder is returned:
    /// - `BadLabel` if the label has more than 64 bytes. No memory is then taken.
    /// - `BadFlags` if `start` has at least one flag of a position, since a block has no positions. No memory is then
    ///   taken.
    /// - `Add(NoMemory)` if the allocator refused memory.
    pub fn with_root(
        alloc: Global,
        room: Room,
        start: &Start<'_>,
    ) -> Result<TreeBuilder, StartFault>
        ensures { BeginsWith result (room_size room) start.now }
    {
        let mut restored = root_object();
        restore(&mut restored, start)?;
        Ok(TreeBuilder::holding(alloc, room, restored)?)
    }

    /// A builder that holds this root alone.
    fn holding(alloc: Global, room: Room, object: Object) -> Result<TreeBuilder, AddFault>
        requires place { place_of object ≡ place_of root }
        requires sound { IsSound object }
        requires typed { IsOfItsTypes object }
        ensures ok { IfOk result (λ builder. builder ≡ record { room = room_size room; list = object ∷ [] }) }
        ensures err { IfErr result (λ e. e ≡ NoMemory) }
    {
        let Ok(mut objects) = Objects::new(alloc, usize::from(room.get())) else {
            return Err(AddFault::NoMemory);
        };
        objects.push(object);
        Ok(TreeBuilder { objects })
    }

    /// Adds an object with the number `ono` to the block `container`, after all objects of the tree (AES70-2; limits
    /// are the profile's). `spec` has the object's role, whether it can be locked, and its class with its setting and
    /// limits. The new object is enabled and not locked, and has an empty label. The call takes no memory. Refusals,
    /// the first that applies; the builder is then unchanged:
    /// - `Full` if there is no room for another object.
    /// - `Reserved` if `ono` is below 4096, and `Taken` if another object has this number.
    /// - `NoSuchBlock` if the container is no block of the tree.
    /// - `TooDeep` if the object would be at depth 9; the root is at depth 1.
    /// - `BadText` if the role is empty, or the role or the name of a position has more than 64 bytes.
    /// - `BadRange` if the setting is outside its limits, a switch does not have 1 to 16 positions, or its position is
    ///   not one of them.
    pub fn add(&mut self, container: Ono, ono: Ono, spec: &Spec<'_>) -> Result<(), AddFault>
        ensures { Adds result self.old self.new container.0 ono.0 spec.now }
    {
        let object = object_for(&self.objects, container, ono, spec)?;
        self.objects.push(object);
        Ok(())
    }

    /// Adds an object as [`add`](TreeBuilder::add) does, with its stored label and flags in `start`. `ono` is the
    /// number, `container` the block, and `spec` has the role, the class and the setting. The object comes after all
    /// objects of the tree. `start` says whether the object is enabled, and which positions of a switch are enabled.
    /// The object is not locked. The call takes no memory. Refusals, the first that applies; the builder is then
    /// unchanged:
    /// - `Add` with the fault with which [`add`](TreeBuilder::add) refuses this object.
    /// - `BadLabel` if the label has more than 64 bytes.
    /// - `BadFlags` if `start` has flags of positions, and their number is not the number of the object's positions. An
    ///   object that is no switch has 0 positions.
    pub fn add_with(
        &mut self,
        container: Ono,
        ono: Ono,
        spec: &Spec<'_>,
        start: &Start<'_>,
    ) -> Result<(), StartFault>
        ensures { AddsWith result self.old self.new container.0 ono.0 spec.now start.now }
    {
        let mut restored = object_for(&self.objects, container, ono, spec)?;
        restore(&mut restored, start)?;
        self.objects.push(restored);
        Ok(())
    }

    /// Returns the tree of all objects that were added, in order of adding, with the root first. No object is locked.
    /// The builder is consumed, and its memory becomes the memory of the tree. The call refuses nothing and takes no
    /// memory. A tree of the root alone is allowed.
    pub fn finish(self) -> Tree
        ensures { result ≡ self.list }
    {
        Tree::of(self.objects)
    }
}
