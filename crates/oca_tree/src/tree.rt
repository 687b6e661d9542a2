//! The tree: executing commands, taking locks off, and reading its objects.
ghost use Rattle.std.specs.Prelude.{◌≡◌, [], length, OnErr, map, slice_get, IsTrue, Some};
ghost use Rattle.std.specs.List.{All};
ghost use Rattle.std.specs.Option.{option_and_then, option_map};
ghost use Rattle.oca_types.specs.Peers.{fields_of};
ghost use Rattle.std.specs.Result.{result_err};
ghost use Rattle.oca_tree.specs.Locks.{released, lock_count};
ghost use Rattle.oca_tree.specs.Trees.{IsTree};
ghost use Rattle.oca_tree.specs.TypedLaws.{IsOfItsTypes};
ghost use Rattle.oca_tree.specs.Execution.{execution};
ghost use Rattle.oca_tree.specs.Written.{wrote};
ghost use Rattle.oca_tree.specs.Settings.{after_set, set_fault};
ghost use Rattle.oca_tree.specs.LocalChanges.{front_fault, after_change, ToLabel, ToEnabled, ToUnlocked, ToFailing};
ghost use Rattle.oca_model.specs.declared.request.Request.TheVariants as asked;
ghost use Rattle.oca_tree.specs.Readers.{info_of, info_at, infos_left, class_of_ono, lock_at, failing_at};
ghost use Rattle.oca_tree.specs.Readers.{reading_setting, value_setting, setting_at, info_of_ono};
ghost use Rattle.oca_tree.specs.declared.tree.Setting.TheVariants.{Number};
ghost use Rattle.oca_tree.specs.Copies.{stored_in, stored_at, names_of_ono, lockable_at, all_unlocked};

use crate::description::{names_in, start_of};
use crate::execute::carry_out;
use crate::front::FrontFault;
use crate::infos::ObjectInfos;
use crate::marks::Marks;
use crate::object::{Lock, Object, Value as Held};
use crate::objects::Objects;
use crate::place::index_from;
use crate::same::same_objects;
use crate::setting::{FRONT, SetFault, check_setting};
use crate::start::Start;
use oca_model::{Asked, Reading, Value, with_integers};
use oca_types::{Class, Command, Ono, Params, Peer, Status, Text};
use std::fmt;
use std::marker::Model;

/// What [`Tree::execute`] did with a command: the status and the ParamCount of the response, and whether the command
/// wrote to its object.
#[derive(Clone, Copy, Debug, PartialEq, Eq)]
pub struct Done {
    /// How the command went (OcaStatus, AES70-2).
    pub status: Status,
    /// ParamCount: the number of parameters of the response, 0 if the status is not OK.
    pub count: u8,
    /// Whether the command wrote to its object: the status is OK, and the method writes. Taking or releasing a lock is
    /// no writing.
    pub wrote: bool,
}

/// What an object is: its number, its class, its container and its role.
#[derive(Debug, Drop)]
pub struct ObjectInfo {
    /// The number of the object.
    pub ono: Ono,
    /// The class of the object.
    pub class: Class,
    /// The number of the block that directly contains the object, 0 for the root.
    pub container: Ono,
    /// The role of the object, 1 to 64 bytes.
    pub role: Text,
}

/// How an object is set, without the names of its class: the number of a state, a position, a Boolean, or a number with
/// its limits.
#[derive(Clone, Copy, Debug, PartialEq, Eq)]
pub enum Setting {
    /// The number of the state of a mute (1 Muted, 2 Unmuted) or a polarity (1 NonInverted, 2 Inverted).
    State(u8),
    /// The current position of a switch, counted from 0.
    Position(u16),
    /// The setting of a Boolean actuator.
    Truth(bool),
    /// The setting of an integer actuator with its limits.
    Number {
        /// The setting, from `least` to `greatest`.
        setting: i128,
        /// The least that it can be set to.
        least: i128,
        /// The greatest that it can be set to.
        greatest: i128,
    },
}

/// The objects of a device (AES70-2), with their settings and their locks. They are in order of adding, and the first
/// is the root. The *container* of an object is the block that contains it. A lock belongs to one peer, and limits what
/// the other peers can do with the object ([`LockKind`](crate::LockKind)). Contracts see the list of the objects in
/// order of adding.
#[derive(Drop)]
pub struct Tree {
    objects: Objects,
    /// How many of them are locked, and where one was found last.
    marks: Marks,
}

impl Model for Tree {
    ghost use Rattle.std.specs.Prelude.{List, ◌≡◌};
    ghost use Rattle.std.specs.List.{All};
    ghost use Rattle.oca_tree.specs.declared.object.Object.{Object as Item};
    ghost use Rattle.oca_tree.specs.Locks.{lock_count};
    ghost use Rattle.oca_tree.specs.Trees.{IsTree};
    ghost use Rattle.oca_tree.specs.TypedLaws.{IsOfItsTypes};

    ghost Value = { List Item };

    ghost view = { λ t. t.objects.list };

    ghost invariant = { λ t. IsTree t.objects.list × (t.marks.locks ≡ lock_count t.objects.list)
        × All IsOfItsTypes t.objects.list };
}

impl fmt::Debug for Tree {
    /// How many objects there are, and how many of them are locked.
    fn fmt<W: fmt::Write>(&self, f: &mut fmt::Formatter<W>) -> fmt::Result {
        f.debug_struct("Tree")
            .field("objects", &self.objects.len())
            .field("locked", &self.marks.locks)
            .finish()
    }
}

impl Tree {
    /// The tree of these objects.
    pub(crate) fn of(objects: Objects) -> Tree
        requires tree { IsTree objects.list }
        requires typed { All IsOfItsTypes objects.list }
        ensures { result ≡ objects.list }
    {
        let locks = count_locks(objects.as_slice());
        Tree {
            objects,
            marks: Marks { locks, recent: 0 },
        }
    }

    /// Executes a command of a peer: calls the method on the object and writes the answer's parameters into `out`
    /// (AES70-2). What `out` contained before is lost. Returns the status and ParamCount, and whether the command wrote
    /// to its object. With each status except OK no object is changed, `out` is empty, and ParamCount is 0. The status
    /// is the first of this list that applies (*profile*), and OK if none does:
    /// - `BadOno` if no object has the number.
    /// - `BadMethod` if its class has no such method; `NotImplemented` if the device leaves the method out
    ///   ([`method_of`](oca_types::method_of)).
    /// - `Locked` if another peer's lock forbids the access ([`LockKind`](crate::LockKind)).
    /// - `ParameterError` if ParamCount or the bytes are not the method's parameters, or a list has not one item for
    ///   each position.
    /// - `ParameterOutOfRange` if the number of a state is not 1 or 2, a setting is outside its limits, the switch does
    ///   not have the position, or the command sets it to a position that is disabled.
    /// - `InvalidRequest` if the command locks an object that cannot be locked, or unlocks one that is not locked.
    /// - `BufferOverflow` if the answer would have more than 1,452 bytes.
    /// - `ProcessingFailed` if the command writes and the object's hardware refuses
    ///   ([`set_failing`](Tree::set_failing)).
    #[inline(always)]
    pub fn execute(&mut self, peer: Peer, command: &Command<'_>, out: &mut Params) -> Done
        ensures tree { self.new ≡ (execution self.old peer (fields_of command.now)).tree }
        ensures status { result.status ≡ (execution self.old peer (fields_of command.now)).status }
        ensures count { result.count ≡ (execution self.old peer (fields_of command.now)).count }
        ensures wrote { result.wrote ≡ wrote self.old peer (fields_of command.now) }
        ensures parameters { out.new.items ≡ (execution self.old peer (fields_of command.now)).parameters }
    {
        empty(out);
        let mut writes = false;
        match carry_out(
            &mut self.objects,
            &mut self.marks,
            peer,
            command,
            out,
            &mut writes,
        ) {
            Ok(count) => Done {
                status: Status::Ok,
                count,
                wrote: writes,
            },
            Err(status) => {
                empty(out);
                Done {
                    status,
                    count: 0,
                    wrote: false,
                }
            }
        }
    }

    /// Sets the object with the number `ono` to a value, as a user does at the device's local front panel (*profile*).
    /// The call acts as the set method of the object's class (AES70-2). Neither a lock nor the object's hardware
    /// refuses this call. Refusals, the first that applies; no object is then changed:
    /// - `NoObject` if no object has the number.
    /// - `NoSetting` if the object is a block.
    /// - `OtherKind` if the value is not of the object's class.
    /// - `OutOfRange` if a switch does not have the position or the position is disabled, or if a number is outside its
    ///   limits.
    pub fn set(&mut self, ono: Ono, value: Value) -> Result<(), SetFault>
        ensures tree { self.new ≡ after_set self.old ono.0 value }
        ensures refused { OnErr result (self.new ≡ self.old) }
        ensures fault { result_err result ≡ set_fault self.old ono.0 value }
    {
        let Some(at) = index_from(&self.objects, &mut self.marks, ono) else {
            return Err(SetFault::NoObject);
        };
        check_setting(&self.objects.object_at(at).value, value)?;
        self.objects
            .change_at(at, &mut self.marks, FRONT, Asked::Set(value));
        Ok(())
    }

    /// Sets the label of the object with the number `ono`, as a user does at the device's local front panel
    /// (*profile*). The label has from 0 to 64 bytes. The call acts as SetLabel of OcaWorker (AES70-2). Neither a lock
    /// nor the object's hardware refuses this call. Refusals, the first that applies; no object is then changed:
    /// `NoObject` if no object has the number. `BadLabel` if the label has more than 64 bytes.
    pub fn set_label(&mut self, ono: Ono, label: &str) -> Result<(), FrontFault>
        ensures tree { self.new ≡ after_change self.old ono.0 (ToLabel label.now) }
        ensures refused { OnErr result (self.new ≡ self.old) }
        ensures fault { result_err result ≡ front_fault self.old ono.0 (asked.SetLabel label.now) }
    {
        let Some(at) = index_from(&self.objects, &mut self.marks, ono) else {
            return Err(FrontFault::NoObject);
        };
        let Some(text) = Text::new(label) else {
            return Err(FrontFault::BadLabel);
        };
        self.objects.relabel_at(at, text);
        Ok(())
    }

    /// Enables or disables the object with the number `ono`, as a user does at the device's local front panel
    /// (*profile*). The call acts as SetEnabled of OcaWorker (AES70-2). Neither a lock nor the object's hardware
    /// refuses this call. The only refusal is `NoObject`, if no object has the number; no object is then changed.
    pub fn set_enabled(&mut self, ono: Ono, enabled: bool) -> Result<(), FrontFault>
        ensures tree { self.new ≡ after_change self.old ono.0 (ToEnabled enabled) }
        ensures refused { OnErr result (self.new ≡ self.old) }
        ensures fault { result_err result ≡ front_fault self.old ono.0 (asked.SetEnabled enabled) }
    {
        let Some(at) = index_from(&self.objects, &mut self.marks, ono) else {
            return Err(FrontFault::NoObject);
        };
        self.objects
            .change_at(at, &mut self.marks, FRONT, Asked::SetEnabled(enabled));
        Ok(())
    }

    /// Releases the lock of the object with the number `ono`, as a user does at the device's local front panel
    /// (*profile*), whichever peer has the lock. Refusals, the first that applies; no object is then changed:
    /// `NoObject` if no object has the number. `NotLocked` if the object is not locked.
    pub fn unlock(&mut self, ono: Ono) -> Result<(), FrontFault>
        ensures tree { self.new ≡ after_change self.old ono.0 ToUnlocked }
        ensures refused { OnErr result (self.new ≡ self.old) }
        ensures fault { result_err result ≡ front_fault self.old ono.0 asked.Unlock }
    {
        let Some(at) = index_from(&self.objects, &mut self.marks, ono) else {
            return Err(FrontFault::NoObject);
        };
        if self.objects.object_at(at).lock.is_none() {
            return Err(FrontFault::NotLocked);
        }
        self.objects
            .change_at(at, &mut self.marks, FRONT, Asked::Unlock);
        Ok(())
    }

    /// Sets whether the hardware of the object with the number `ono` refuses changes (*profile*). At first no hardware
    /// refuses changes. If `failing` is true, a command that writes to the object gets the status `ProcessingFailed`
    /// and changes nothing. If the command is refused for another reason too, it gets the status of that reason
    /// instead. Changes at the local front panel are not refused. The only refusal of this call is `NoObject`, if no
    /// object has the number; nothing is then changed.
    pub fn set_failing(&mut self, ono: Ono, failing: bool) -> Result<(), FrontFault>
        ensures tree { self.new ≡ after_change self.old ono.0 (ToFailing failing) }
        ensures refused { OnErr result (self.new ≡ self.old) }
        ensures fault { result_err result ≡ front_fault self.old ono.0 (asked.SetEnabled failing) }
    {
        let Some(at) = index_from(&self.objects, &mut self.marks, ono) else {
            return Err(FrontFault::NoObject);
        };
        self.objects.fail_at(at, failing);
        Ok(())
    }

    /// Releases all locks of the peer `peer` in the tree (OcaRoot, AES70-2). If the peer has no lock, nothing is
    /// changed. Locks of other peers remain.
    pub fn release(&mut self, peer: Peer)
        ensures { self.new ≡ released self.old peer }
    {
        if self.marks.locks > 0 {
            self.objects.release(&mut self.marks, peer);
        }
    }

    /// Returns the number of objects of the tree, the root counted: from 1 to 4,096. The contract also states what
    /// holds for every tree. The object numbers are distinct, blocks come before the objects in them, settings are
    /// within their limits, and only lockable objects are locked (`sound`). Roles, labels and names of positions are
    /// UTF-8 of at most 64 bytes, and object numbers have 32 bits (`typed`).
    pub fn len(&self) -> usize
        ensures len { result ≡ length self.now }
        ensures sound { IsTree self.now }
        ensures typed { All IsOfItsTypes self.now }
    {
        self.objects.len()
    }

    /// Returns what the object at an index is: its number, class, container and role (AES70-2). The index counts from
    /// 0, the root, in order of adding. The result is `None` if `index` is the number of objects or above. The role is
    /// copied.
    pub fn object_at(&self, index: usize) -> Option<ObjectInfo>
        ensures { result ≡ info_at self.now index }
    {
        Some(info_of(self.objects.as_slice().get(index)?))
    }

    /// Returns what the object with the number `ono` is: its number, class, container and role (AES70-2). The result is
    /// `None` if no object has the number. The role is copied.
    pub fn object_of(&self, ono: Ono) -> Option<ObjectInfo>
        ensures { result ≡ info_of_ono self.now ono.0 }
    {
        Some(info_of(self.objects.find(ono)?))
    }

    /// Returns an iterator over the objects of the tree, in order of adding, with the root first (AES70-2). Its items
    /// are the results of [`object_at`](Tree::object_at) for 0, 1 and so on. There is at least the root.
    pub fn objects(&self) -> ObjectInfos<'_>
        ensures { infos_left result ≡ map info_of self.now }
    {
        ObjectInfos::new(self.objects.as_slice())
    }

    /// Returns the lock of the object with the number `ono`: its kind and the peer that has the lock (OcaRoot,
    /// AES70-2). The result is `None` if no object has the number, or the object is not locked.
    pub fn lock_of(&self, ono: Ono) -> Option<Lock>
        ensures { result ≡ lock_at self.now ono.0 }
    {
        self.objects.find(ono)?.lock
    }

    /// Returns the lock of the object at an index: its kind and the peer that has the lock (OcaRoot, AES70-2). The
    /// index counts from 0, the root, in order of adding. The result is `None` if the object is not locked, or if
    /// `index` is the number of objects or above.
    pub fn lock_at(&self, index: usize) -> Option<Lock>
        ensures { result ≡ option_and_then (λ o. o.lock) (slice_get self.now index) }
    {
        self.objects.as_slice().get(index)?.lock
    }

    /// Returns whether the hardware of the object with the number `ono` refuses changes. The result is what
    /// [`set_failing`](Tree::set_failing) last set, and `Some(false)` before its first call. It is `None` if no object
    /// has the number.
    pub fn is_failing(&self, ono: Ono) -> Option<bool>
        ensures { result ≡ failing_at self.now ono.0 }
    {
        Some(self.objects.find(ono)?.failing)
    }

    /// Returns how many objects are locked: from 0 to the number of objects, at most 4,096 (OcaRoot, AES70-2). The tree
    /// stores this count, so the call looks at no object. It refuses nothing.
    pub fn lock_count(&self) -> usize
        ensures { result ≡ lock_count self.now }
    {
        self.marks.locks
    }

    /// Returns the class of the object with the number `ono` (AES70-2). [`set`](Tree::set) needs a value of this class,
    /// and refuses each value if the class is OcaBlock. The result is `None` if no object has the number.
    pub fn class_of(&self, ono: Ono) -> Option<Class>
        ensures { result ≡ class_of_ono self.now ono.0 }
    {
        Some(self.objects.find(ono)?.class())
    }

    /// Returns the setting of the object with the number `ono`: a state, a position, a Boolean, or an integer with its
    /// least and greatest (AES70-2). The result is `None` if no object has the number, or the object is a block.
    pub fn setting_of(&self, ono: Ono) -> Option<Setting>
        ensures { result ≡ setting_at self.now ono.0 }
    {
        value_setting(&self.objects.find(ono)?.value)
    }

    /// Returns the label and the flags of the object with the number `ono`, for storing them: its label, whether it is
    /// enabled, and for a switch which of its positions are enabled.
    /// [`TreeBuilder::add_with`](crate::TreeBuilder::add_with) and [`with_root`](crate::TreeBuilder::with_root) take
    /// the result. It is `None` if no object has the number. The result borrows from the tree.
    pub fn start_of(&self, ono: Ono) -> Option<Start<'_>>
        ensures { option_map stored_in result ≡ stored_at self.now ono.0 }
    {
        Some(start_of(self.objects.find(ono)?))
    }

    /// Returns the names of the positions of the switch with the number `ono`, in order: 1 to 16 names, each of at most
    /// 64 bytes (OcaSwitch, AES70-2). The result is empty if no object has the number, or the object is no switch. The
    /// result borrows from the tree.
    pub fn position_names_of(&self, ono: Ono) -> &[Text]
        ensures { result.now ≡ names_of_ono self.now ono.0 }
    {
        match self.objects.find(ono) {
            Some(object) => names_in(&object.value),
            None => &[],
        }
    }

    /// Returns whether the object with the number `ono` can be locked (OcaRoot, AES70-2). The result is `None` if no
    /// object has the number.
    pub fn is_lockable(&self, ono: Ono) -> Option<bool>
        ensures { result ≡ lockable_at self.now ono.0 }
    {
        Some(self.objects.find(ono)?.lockable)
    }

    /// Compares this tree with `other`, object by object in their order. Returns `true` only if both have the same
    /// objects: with the same numbers, classes, containers, roles, labels, flags, values, limits and names of
    /// positions, and the same objects can be locked. Two things are not compared: which peer has a lock, and whether
    /// the hardware of an object refuses changes. `false` means that the call found a difference; that is not proved.
    /// Neither tree is changed.
    pub fn is_but_for_locks(&self, other: &Tree) -> bool
        ensures { IsTrue result → (all_unlocked self.now ≡ all_unlocked other.now) }
    {
        same_objects(self.objects.as_slice(), other.objects.as_slice())
    }
}

/// What the object is.
pub(crate) fn info_of(object: &Object) -> ObjectInfo
    ensures { result ≡ info_of object.now }
{
    ObjectInfo {
        ono: object.ono,
        class: object.class(),
        container: object.container,
        role: object.role.copied(),
    }
}

/// The setting of an integer with its limits.
fn number(setting: i128, least: i128, greatest: i128) -> Option<Setting>
    ensures { result ≡ Some (Number setting least greatest) }
{
    Some(Setting::Number {
        setting,
        least,
        greatest,
    })
}

/// How what reads so is set.
#[tactic(auto, unfolding(crate::specs::Readers::reading_setting))]
fn reading_setting(reading: Reading) -> Option<Setting>
    ensures { result ≡ reading_setting reading }
{
    macro_rules! setting {
        ($($integer:ident $type:ty),*) => {
            match reading {
                Reading::Mute(state) => Some(Setting::State(state as u8)),
                Reading::Polarity(state) => Some(Setting::State(state as u8)),
                Reading::Switch(_) => None,
                Reading::Boolean(truth) => Some(Setting::Truth(truth)),
                $(Reading::$integer(r) => number(r.setting.into(), r.least.into(), r.greatest.into()),)*
            }
        };
    }
    with_integers!(setting)
}

/// How a value is set.
#[tactic(auto, unfolding(crate::specs::Readers::value_setting))]
fn value_setting(value: &Held) -> Option<Setting>
    ensures { result ≡ value_setting value.now }
{
    match value {
        Held::Block => None,
        Held::Switch(switch) => Some(Setting::Position(switch.position)),
        Held::Reads(reading) => reading_setting(*reading),
    }
}

/// Leaves no parameters. A single byte is taken off by itself, since `clear` overwrites what there was by a call.
fn empty(out: &mut Params)
    ensures { out.new.items ≡ [] }
{
    if out.len() == 1 {
        let _ = out.pop();
    } else {
        out.clear();
    }
}

/// How many of the objects are locked.
#[tactic(auto, using(crate::proofs::Positions::counted))]
fn count_locks(objects: &[Object]) -> usize
    ensures { result ≡ lock_count objects.now }
{
    objects
        .iter()
        .filter(|object| object.lock.is_some())
        .count()
}
