//! Trees that are built by a table, and scripts of commands over them.
use super::words::{A, BLOCK, Called};
use crate::tests::{Agrees, Row as Tested, Said, plays};
use oca_tree::{
    AddFault, FrontFault, Lock, Room, SetFault, Setting, Spec, Start, StartFault, Tree,
    TreeBuilder, Value, bench, bench_with_channels,
};
use oca_types::{Class, Command, Handle, MethodId, Ono, Params, Peer, Status, class_fields};
use std::fmt::Write;

/// What is done at an object, and what comes of it.
#[derive(Clone, Copy)]
pub enum Row {
    /// A calls a method without parameters, which succeeds: ParamCount and parameters of the answer.
    Reads(Called, u8, &'static [u8]),
    /// A calls a method without parameters: the status of an answer without parameters.
    Does(Called, Status),
    /// A calls a method with this ParamCount and these parameters: the status of an answer without parameters.
    Sends(Called, u8, &'static [u8], Status),
    /// A peer calls a method with this ParamCount and these parameters: the whole answer.
    Calls(Peer, Called, (u8, &'static [u8]), (Status, u8, &'static [u8])),
    /// A calls a method without parameters: status, ParamCount and how many bytes the parameters have.
    Measures(Called, Status, u8, usize),
    /// The object is set at the front.
    Puts(Value, Result<(), SetFault>),
    /// The object gets a label at the front.
    Labels(&'static str, Result<(), FrontFault>),
    /// The object is enabled or disabled at the front.
    Enables(bool, Result<(), FrontFault>),
    /// The lock is taken off the object at the front.
    Unlocks(Result<(), FrontFault>),
    /// The front says whether the object's hardware refuses to be changed.
    Fails(bool, Result<(), FrontFault>),
    /// Whether the object's hardware refuses to be changed.
    Failing(Option<bool>),
    /// How the object is set.
    Holds(Option<Setting>),
    /// The lock of the object.
    Locked(Option<Lock>),
    /// Every lock of a peer is taken off.
    Releases(Peer),
    /// How many objects there are.
    Len(usize),
    /// The object is at a place, and has a class with these fields, a container and a role.
    Shows(usize, Class, &'static [u16], u32, &'static str),
    /// No object is at a place.
    Ends(usize),
}

use Row::*;

/// What is done, row by row, at the object with this number.
#[derive(Clone, Copy)]
pub struct At(pub u32, pub &'static [Row]);

/// What is added to a builder, and what it answers.
#[derive(Clone, Copy)]
pub enum Addition {
    /// Into a container, as this number, an object.
    One(u32, u32, Spec<'static>, Result<(), AddFault>),
    /// Into a container, as this number, an object with what was stored of it.
    Stored(u32, u32, Spec<'static>, Start<'static>, Result<(), StartFault>),
    /// Into the root, as the numbers from one to before another, objects that are all taken.
    Many(u32, u32, Spec<'static>),
    /// Into each of the blocks with the numbers from one to before another a block with the next number, all taken.
    Nested(u32, u32),
}

use Addition::*;

/// The tree that a script is run over.
#[derive(Clone, Copy)]
pub enum Over {
    /// The bench device.
    Bench,
    /// The bench device with so many channels.
    Channels(u16),
    /// The tree of these additions.
    Built(&'static [Addition]),
    /// The tree of these additions to a root with this stored of it.
    Root(Start<'static>, &'static [Addition]),
}

/// A script by its name, the tree that it is run over, and its parts.
pub struct Script(pub &'static str, pub Over, pub &'static [At]);

/// The status and the ParamCount that a command is answered with, and its parameters.
fn call(
    tree: &mut Tree,
    peer: Peer,
    target: u32,
    method: Called,
    params: (u8, &[u8]),
) -> (Status, u8, Params) {
    let command = Command {
        handle: Handle(1),
        target: Ono(target),
        method: MethodId {
            level: method.0,
            index: method.1,
        },
        count: params.0,
        params: params.1,
    };
    // An answer takes the place of what is there.
    let mut out = Params::new();
    let _ = out.try_push(9);
    let done = tree.execute(peer, &command, &mut out);
    (done.status, done.count, out)
}

/// Whether a command is answered so.
fn gives(
    tree: &mut Tree,
    peer: Peer,
    target: u32,
    method: Called,
    params: (u8, &[u8]),
    want: (Status, u8, &[u8]),
    said: &mut Said,
) -> bool {
    let (status, count, out) = call(tree, peer, target, method, params);
    said.same(status, want.0) && said.same(count, want.1) && said.same(out.as_slice(), want.2)
}

/// Whether this is read of the object at a place.
fn shows(
    tree: &Tree,
    place: usize,
    ono: u32,
    class: (Class, &[u16]),
    container: u32,
    role: &str,
    said: &mut Said,
) -> bool {
    let Some(info) = tree.object_at(place) else {
        return false;
    };
    said.same(info.ono, Ono(ono))
        && said.same(info.class, class.0)
        && said.same(class_fields(info.class).as_slice(), class.1)
        && said.same(info.container, Ono(container))
        && said.same(info.role.as_str(), role)
}

/// Whether what is done at the object comes out so.
fn agrees(tree: &mut Tree, ono: u32, row: Row, said: &mut Said) -> bool {
    match row {
        Reads(method, count, answer) => gives(
            tree,
            A,
            ono,
            method,
            (0, &[]),
            (Status::Ok, count, answer),
            said,
        ),
        Does(method, status) => gives(tree, A, ono, method, (0, &[]), (status, 0, &[]), said),
        Sends(method, count, params, status) => {
            gives(
                tree,
                A,
                ono,
                method,
                (count, params),
                (status, 0, &[]),
                said,
            )
        }
        Calls(peer, method, params, want) => gives(tree, peer, ono, method, params, want, said),
        other => comes(tree, ono, other, said),
    }
}

/// Whether what is done at the object comes out so, where it is no call whose whole answer is known.
fn comes(tree: &mut Tree, ono: u32, row: Row, said: &mut Said) -> bool {
    match row {
        Measures(method, status, count, size) => {
            let (found, params, out) = call(tree, A, ono, method, (0, &[]));
            said.same(found, status) && said.same(params, count) && said.same(out.len(), size)
        }
        Puts(value, want) => said.same(tree.set(Ono(ono), value), want),
        Labels(label, want) => said.same(tree.set_label(Ono(ono), label), want),
        Enables(enabled, want) => said.same(tree.set_enabled(Ono(ono), enabled), want),
        Unlocks(want) => said.same(tree.unlock(Ono(ono)), want),
        Fails(failing, want) => said.same(tree.set_failing(Ono(ono), failing), want),
        Releases(peer) => {
            tree.release(peer);
            true
        }
        other => stands(tree, ono, other, said),
    }
}

/// Whether the objects stand so.
fn stands(tree: &Tree, ono: u32, row: Row, said: &mut Said) -> bool {
    match row {
        Holds(want) => said.same(tree.setting_of(Ono(ono)), want),
        Locked(want) => said.same(tree.lock_of(Ono(ono)), want),
        Failing(want) => said.same(tree.is_failing(Ono(ono)), want),
        Len(count) => said.same(tree.len(), count),
        Shows(place, class, fields, container, role) => {
            shows(tree, place, ono, (class, fields), container, role, said)
        }
        Ends(place) => tree.object_at(place).is_none(),
        _ => false,
    }
}

impl Agrees<Tree> for At {
    /// Whether each row comes out so.
    fn agrees(&self, tree: &mut Tree, said: &mut Said) -> bool {
        for (at, row) in self.1.iter().enumerate() {
            if !agrees(tree, self.0, *row, said) {
                let ono = self.0;
                let _ = write!(said.text, ", row {at} of object {ono}");
                return false;
            }
        }
        true
    }
}

/// Whether a builder takes an object so often, each as the next number: into the root, or each into the one before it.
fn takes(builder: &mut TreeBuilder, first: u32, end: u32, spec: &Spec<'_>, nested: bool) -> bool {
    for number in first..end {
        let (container, ono) = if nested {
            (number, number.saturating_add(1))
        } else {
            (100, number)
        };
        if builder.add(Ono(container), Ono(ono), spec).is_err() {
            return false;
        }
    }
    true
}

/// Whether the builder answers an addition so.
fn adds(builder: &mut TreeBuilder, addition: &Addition, said: &mut Said) -> bool {
    match addition {
        One(container, ono, spec, want) => said.same(
            builder.add(Ono(*container), Ono(*ono), spec),
            *want,
        ),
        Stored(container, ono, spec, start, want) => {
            said.same(
                builder.add_with(Ono(*container), Ono(*ono), spec, start),
                *want,
            )
        }
        Many(first, end, spec) => takes(builder, *first, *end, spec, false),
        Nested(first, end) => takes(builder, *first, *end, &BLOCK, true),
    }
}

/// The tree of a builder with these additions to it, where all are answered so.
fn built(mut builder: TreeBuilder, additions: &[Addition], said: &mut Said) -> Option<Tree> {
    for addition in additions {
        if !adds(&mut builder, addition, said) {
            return None;
        }
    }
    Some(builder.finish())
}

/// The tree that a script is run over; none where it is not there, or an addition is answered otherwise.
pub fn tree_of(over: Over, said: &mut Said) -> Option<Tree> {
    let alloc = said.alloc;
    match over {
        Over::Bench => bench(alloc).ok(),
        Over::Channels(count) => bench_with_channels(alloc, count).ok(),
        Over::Built(additions) => built(TreeBuilder::new(alloc).ok()?, additions, said),
        Over::Root(stored, additions) => {
            let builder = TreeBuilder::with_root(alloc, Room::default(), &stored);
            built(builder.ok()?, additions, said)
        }
    }
}

impl Tested for Script {
    /// Whether each row comes out so.
    fn agrees(&self, said: &mut Said) -> bool {
        said.script = self.0;
        match tree_of(self.1, said) {
            Some(mut tree) => plays(&mut tree, self.0, self.2, said),
            None => false,
        }
    }
}
