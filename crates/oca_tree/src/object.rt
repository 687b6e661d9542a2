//! An object of the tree: its place, its value and its lock.
ghost use Rattle.std.specs.Prelude.{◌≡◌, ◌≤◌, ◌+◌, Some, None};
ghost use Rattle.oca_tree.specs.Objects.{class_of};
ghost use Rattle.oca_tree.specs.Locks.{lock_refuses, without_lock_of, lock_of_one};
ghost use Rattle.oca_tree.specs.Places.{is_block_value};

use crate::marks::Marks;
use arrayvec::ArrayVec;
use oca_model::Reading;
use oca_types::{Access, Class, Ono, Peer, Text};

/// The positions of an OcaSwitch, 1 to 16: the name of each, whether each is enabled, and which is the current one.
#[derive(Drop)]
pub struct Switch {
    pub names: ArrayVec<Text, 16>,
    pub enableds: ArrayVec<bool, 16>,
    pub position: u16,
}

/// What an object is and how it is set.
#[derive(Drop)]
pub enum Value {
    Block,
    Switch(Switch),
    /// What it reads as, of any other class: its value with its limits.
    Reads(Reading),
}

/// What a lock forbids other peers (OcaRoot, AES70-2).
#[derive(Clone, Copy, Debug, PartialEq, Eq)]
pub enum LockKind {
    /// Reading, writing and locking.
    Total,
    /// Writing and locking.
    Readonly,
}

/// A lock of an object, and the peer that has the lock.
#[derive(Clone, Copy, Debug, PartialEq, Eq)]
pub struct Lock {
    /// What the lock forbids other peers.
    pub kind: LockKind,
    /// The peer that locked the object.
    pub holder: Peer,
}

/// An object: its number, the block that contains it (0 for the root), and its properties.
#[derive(Drop)]
pub struct Object {
    pub ono: Ono,
    pub container: Ono,
    pub lockable: bool,
    pub role: Text,
    pub label: Text,
    pub enabled: bool,
    pub value: Value,
    pub lock: Option<Lock>,
    /// Whether its hardware refuses to be changed, as the device's maker said last.
    pub failing: bool,
}

impl Value {
    /// Whether it is a block.
    pub(crate) fn is_block(&self) -> bool
        ensures { result ≡ is_block_value self.now }
    {
        match self {
            Value::Block => true,
            _ => false,
        }
    }

    /// The class of the objects that hold such a value.
    #[tactic(auto, unfolding(crate::specs::Objects::class_of))]
    pub(crate) fn class(&self) -> Class
        ensures { result ≡ class_of self.now }
    {
        match self {
            Value::Block => Class::Block,
            Value::Switch(_) => Class::Switch,
            Value::Reads(reading) => reading.class(),
        }
    }
}

impl Object {
    /// The object's class.
    pub(crate) fn class(&self) -> Class
        ensures { result ≡ class_of self.now.value }
    {
        self.value.class()
    }

    /// Whether the lock of another peer refuses this access.
    #[tactic(auto, unfolding(crate::specs::Locks::lock_refuses))]
    pub(crate) fn is_locked_for(&self, peer: Peer, access: Access) -> bool
        ensures { result ≡ lock_refuses self.now.lock peer access }
    {
        match self.lock {
            Some(lock) if lock.holder != peer => {
                lock.kind == LockKind::Total || access != Access::Read
            }
            _ => false,
        }
    }

    /// Locks the object for the peer, and counts the lock where there was none.
    pub(crate) fn lock(&mut self, marks: &mut Marks, kind: LockKind, peer: Peer)
        requires { marks.old.locks ≤ 4096 }
        ensures object { self.new ≡ record self.old { lock = Some (record { kind = kind; holder = peer }) } }
        ensures count { marks.new.locks + lock_of_one self.old ≡ marks.old.locks + 1 }
    {
        if self.lock.is_none() {
            marks.locks += 1;
        }
        self.lock = Some(Lock { kind, holder: peer });
    }

    /// Takes the lock off, and counts it no longer.
    pub(crate) fn unlock(&mut self, marks: &mut Marks)
        requires { lock_of_one self.old ≤ marks.old.locks }
        ensures object { self.new ≡ record self.old { lock = None } }
        ensures count { marks.new.locks + lock_of_one self.old ≡ marks.old.locks }
    {
        if self.lock.is_some() {
            marks.locks -= 1;
        }
        self.lock = None;
    }

    /// Takes the lock off, if the peer holds it.
    pub(crate) fn release(&mut self, marks: &mut Marks, peer: Peer)
        requires { lock_of_one self.old ≤ marks.old.locks }
        ensures object { self.new ≡ without_lock_of peer self.old }
        ensures count { marks.new.locks + lock_of_one self.old ≡ marks.old.locks + lock_of_one self.new }
    {
        if let Some(lock) = self.lock
            && lock.holder == peer
        {
            self.unlock(marks);
        }
    }
}
