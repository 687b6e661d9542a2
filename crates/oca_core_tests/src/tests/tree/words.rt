//! The methods, the peers and the objects that the tables speak of.
use oca_tree::{Kind, MuteState, Spec};
use oca_types::Peer;

/// A method by DefLevel and MethodIndex.
pub type Called = (u16, u16);

pub const GET_CLASS_IDENTIFICATION: Called = (1, 1);

pub const GET_LOCKABLE: Called = (1, 2);

pub const LOCK_TOTAL: Called = (1, 3);

pub const UNLOCK: Called = (1, 4);

pub const GET_ROLE: Called = (1, 5);

pub const LOCK_READONLY: Called = (1, 6);

pub const GET_ENABLED: Called = (2, 1);

pub const SET_ENABLED: Called = (2, 2);

pub const GET_LABEL: Called = (2, 8);

pub const SET_LABEL: Called = (2, 9);

pub const GET_OWNER: Called = (2, 10);

pub const GET_MEMBERS: Called = (3, 5);

pub const GET_MEMBERS_RECURSIVE: Called = (3, 6);

pub const GET_POSITION: Called = (4, 1);

pub const GET_STATE: Called = (4, 1);

pub const SET_POSITION: Called = (4, 2);

pub const SET_STATE: Called = (4, 2);

pub const GET_POSITION_NAME: Called = (4, 3);

pub const SET_POSITION_NAME: Called = (4, 4);

pub const GET_POSITION_NAMES: Called = (4, 5);

pub const SET_POSITION_NAMES: Called = (4, 6);

pub const GET_POSITION_ENABLED: Called = (4, 7);

pub const SET_POSITION_ENABLED: Called = (4, 8);

pub const GET_POSITION_ENABLEDS: Called = (4, 9);

pub const SET_POSITION_ENABLEDS: Called = (4, 10);

pub const GET_SETTING: Called = (5, 1);

pub const SET_SETTING: Called = (5, 2);

pub const A: Peer = peer!(9001);

pub const B: Peer = peer!(9002);

/// A block.
pub const BLOCK: Spec<'static> = Spec {
    role: "block",
    lockable: true,
    kind: Kind::Block,
};

/// A mute.
pub const MUTE: Spec<'static> = Spec {
    role: "mute",
    lockable: true,
    kind: Kind::Mute(MuteState::Muted),
};
