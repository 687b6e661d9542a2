//! One session.
ghost use Rattle.std.specs.Prelude.{◌≡◌, ℕ, ◌+◌, ◌*◌, ◌<◌, ◌≤◌, not, List, length, IfOk};
ghost use Rattle.oca_types.specs.Peers.{fields_of};
ghost use Rattle.oca_types.specs.Sizes.{most_command_parameter_bytes, most_parameter_bytes};
ghost use Rattle.oca_session.specs.Accepted.{Entry, entry_of, AgreesWithAccepted, judgement, Fresh};
ghost use Rattle.oca_session.specs.Judging.{as_judgement, judgement_by_window};
ghost use Rattle.oca_session.specs.PrivateKeys.{key_of as number_of};
ghost use Rattle.oca_session.specs.Table.{is_of, is_lapsed, stays, heard_at, with_heartbeat, opened_session};
ghost use Rattle.oca_session.specs.Table.{with_entry};
ghost use Rattle.oca_session.specs.PrivateQuiet.{latest_of};
ghost use Rattle.oca_types.specs.Moments.{HoldsFrom};

use crate::moments::passes_from;
use crate::window::{JudgedOf, ReplyWindow};
use oca_types::{Command, Peer, ReplyOf, ReplyParts};
use std::alloc::{AllocError, Global};
use std::marker::Model;

/// A heartbeat before any keep-alive, in milliseconds.
const FIRST_HEARTBEAT: u32 = 5_000;

/// The least heartbeat, in milliseconds.
const LEAST_HEARTBEAT: u64 = 250;

/// The greatest heartbeat, in milliseconds.
const GREATEST_HEARTBEAT: u64 = 30_000;

/// A session is forgotten once its silence passes so many milliseconds.
const LONGEST_SILENCE: u64 = 120_000;

/// Memory for one session: for a session that a peer has, or for a later one.
#[derive(Drop)]
pub struct SessionSlot<const COMMAND: usize, const ANSWER: usize> {
    peer: Peer,
    /// The key of the peer.
    key: u64,
    heard: u64,
    heartbeat: u32,
    window: ReplyWindow<COMMAND, ANSWER>,
}

impl<const COMMAND: usize, const ANSWER: usize> Model for SessionSlot<COMMAND, ANSWER> {
    ghost use Rattle.std.specs.Prelude.{◌≡◌, ◌<◌};
    ghost use Rattle.oca_session.specs.PrivateKeys.{key_of};
    ghost use Rattle.oca_session.specs.Table.{Session};

    ghost Value = { Session };

    ghost view = { λ a. record { peer = a.peer; heard = a.heard; heartbeat = a.heartbeat; retained = a.window } };

    ghost invariant = { λ a. (a.key ≡ key_of a.peer) × (a.peer.port < 65536) };
}

impl<const COMMAND: usize, const ANSWER: usize> SessionSlot<COMMAND, ANSWER> {
    /// Returns a slot that no session has had yet, with an empty reply window of `size` commands, 1 to 64 (a premise,
    /// which the caller must prove). `COMMAND` must be at most 1,445, and `ANSWER` at most 1,452 (premises, too). The
    /// call takes from `alloc` the memory for the window. The only refusal is `AllocError`, if the allocator refused
    /// memory.
    pub fn spare(alloc: Global, size: usize) -> Result<Self, AllocError>
        requires size { (0 < size) × (size ≤ 64) }
        requires rooms { (COMMAND ≤ most_command_parameter_bytes) × (ANSWER ≤ most_parameter_bytes) }
        ensures { IfOk result (λ s. s ≡ opened_session size (record { ip = 0; port = 0 }) 0) }
    {
        let window = ReplyWindow::new(alloc, size)?;
        Ok(SessionSlot {
            peer: Peer { ip: 0, port: 0 },
            key: 0,
            heard: 0,
            heartbeat: FIRST_HEARTBEAT,
            window,
        })
    }

    /// Begins a session of the peer at a moment, in milliseconds: with an empty reply window, and a heartbeat of 5,000
    /// ms. The earlier session of the slot is lost. The call refuses nothing and takes no memory.
    pub fn open(&mut self, peer: Peer, moment: u64)
        ensures { self.new ≡ opened_session self.old.retained.size peer moment }
    {
        self.peer = peer;
        self.key = key_of(peer);
        self.heard = moment;
        self.heartbeat = FIRST_HEARTBEAT;
        self.window.clear();
    }

    /// Returns the peer whose session the slot has, or had last. It is 0.0.0.0 with port 0 if no session had the slot
    /// yet.
    pub fn peer(&self) -> Peer
        ensures { result ≡ self.now.peer }
    {
        self.peer
    }

    /// Returns whether the slot has the session of this peer: the same address and port. The call does not check that
    /// the session still stays.
    pub fn is_of(&self, peer: Peer) -> bool
        ensures { result ≡ is_of peer self.now }
    {
        self.key == key_of(peer)
    }

    /// Returns whether the peer was not heard for more than three of its heartbeats at this moment, in milliseconds.
    pub fn is_lapsed(&self, moment: u64) -> bool
        ensures { result ≡ is_lapsed moment self.now }
    {
        3 * u64::from(self.heartbeat) < moment.saturating_sub(self.heard)
    }

    /// Returns the latest moment, in milliseconds, at which the peer is not yet silent for more than three of its
    /// heartbeats, if the peer is not heard before. The moment can be past.
    pub fn quiet_until(&self) -> u64
        ensures { result ≡ latest_of self.now }
    {
        self.heard.saturating_add(3 * u64::from(self.heartbeat))
    }

    /// Returns whether the session still stays at this moment, in milliseconds: its peer was heard at most 120,000 ms
    /// before.
    pub fn stays(&self, moment: u64) -> bool
        ensures { result ≡ stays moment self.now }
    {
        moment.saturating_sub(self.heard) <= LONGEST_SILENCE
    }

    /// Returns the first moment, in milliseconds, at which the peer was silent for more than three of its heartbeats,
    /// if the peer is not heard before. The moment can be past. The result is `None` if the moment does not fit 64
    /// bits.
    pub fn lapsed_from(&self) -> Option<u64>
        ensures { HoldsFrom (λ t. is_lapsed t self.now) result }
    {
        passes_from(self.heard, 3 * u64::from(self.heartbeat))
    }

    /// Returns the first moment, in milliseconds, at which the peer was silent for more than 120,000 ms, if the peer is
    /// not heard before. The moment can be past. The result is `None` if the moment does not fit 64 bits.
    pub fn forgotten_from(&self) -> Option<u64>
        ensures { HoldsFrom (λ t. not (stays t self.now)) result }
    {
        passes_from(self.heard, LONGEST_SILENCE)
    }

    /// Notes that the peer was heard at a moment, in milliseconds: its silence ends. Nothing else is changed.
    pub fn note(&mut self, moment: u64)
        ensures { self.new ≡ heard_at moment self.old }
    {
        self.heard = moment;
    }

    /// Sets the heartbeat to `ms` milliseconds: to 250 if `ms` is below 250, and to 30,000 if `ms` is above 30,000.
    pub fn set_heartbeat(&mut self, ms: u64)
        ensures { self.new ≡ with_heartbeat ms self.old }
    {
        self.heartbeat = ms.min(GREATEST_HEARTBEAT).max(LEAST_HEARTBEAT) as u32;
    }

    /// Judges a command by the session's reply window ([`ReplyWindow::judge`]).
    pub fn judge(&self, command: &Command<'_>) -> JudgedOf<'_, ReplyOf<ANSWER>>
        ensures exact { as_judgement result ≡ judgement_by_window self.now.retained (fields_of command.now) }
        ensures accepted { (w : ℕ) (A : List Entry) → AgreesWithAccepted w A self.now.retained →
            as_judgement result ≡ judgement w A (fields_of command.now) }
    {
        self.window.judge(command)
    }

    /// Stores a fresh command, with its reply, in the session's reply window ([`ReplyWindow::keep`]).
    pub fn keep(&mut self, command: &Command<'_>, reply: ReplyParts<'_>)
        requires fresh { judgement_by_window self.old.retained (fields_of command.now) ≡ Fresh }
        requires room { length command.now.params.now ≤ COMMAND }
        requires short { length reply.params.now ≤ ANSWER }
        ensures { self.new ≡ with_entry (entry_of command.now reply.entry) self.old }
    {
        self.window.keep(command, reply);
    }
}

/// A number that the peer alone has, so that two peers are compared in one step.
fn key_of(peer: Peer) -> u64
    ensures { result ≡ number_of peer }
{
    u64::from(peer.ip) * 65_536 + u64::from(peer.port)
}
