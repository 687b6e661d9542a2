//! The sessions of all peers.
ghost use Rattle.std.specs.Prelude.{◌≡◌, ℕ, ◌<◌, ◌≤◌, List, [], ◌∷◌, ◌++◌, length, IfOk, OnOk, IsSome, IfSome, is_some};
ghost use Rattle.std.specs.Prelude.{Some, vec_len, take, position, All, Contains, ◌==◌, slice_get};
ghost use Rattle.oca_types.specs.declared.words.Peer.{Peer};
ghost use Rattle.oca_types.specs.Peers.{fields_of};
ghost use Rattle.oca_types.specs.Sizes.{most_command_parameter_bytes, most_parameter_bytes, window_size, sizes_of};
ghost use Rattle.oca_session.specs.Accepted.{Entry, entry_of, judgement, Fresh};
ghost use Rattle.oca_session.specs.Judging.{as_judgement, judgement_by_window};
ghost use Rattle.oca_session.specs.Table.{is_of, session_of, peers_of, lapsed, staying, forgotten};
ghost use Rattle.oca_types.specs.Moments.{HoldsFrom};
ghost use Rattle.oca_session.specs.Lapses.{forgets, lapses};
ghost use Rattle.oca_session.specs.Sound.{IsSession, IsOnePerPeer};
ghost use Rattle.oca_session.specs.PrivateQuiet.{latest_quiet};

use crate::slot::SessionSlot;
use crate::window::JudgedOf;
use arrayvec::ArrayVec;
use oca_types::{
    Command, MOST_COMMAND_PARAMETER_BYTES, MOST_PARAMETER_BYTES, MOST_PEERS, NoMemory, Peer, Peers,
    ReplyOf, ReplyParts, Sizes, Window, sooner,
};
use std::alloc::{AllocError, Global};
use std::fmt;
use std::marker::Model;

/// What [`SessionsOf::hear`] did with a peer that was heard.
#[derive(Clone, Copy, Debug, PartialEq, Eq)]
pub enum Admission {
    /// The peer already had a session, and its silence ended.
    Known,
    /// A session was opened for the peer.
    Opened,
    /// The peer has no session, and the table has no room for another: no session was changed.
    NoRoom,
}

/// A table of the sessions that a device has with peers, in order of opening; its size is chosen when it is made
/// (*profile*). A session is what the device stores about one peer: when the peer was last heard, its heartbeat, and
/// its reply window.
///
/// A peer is *known* while it has a session. The *reply window* of a session contains its last accepted commands with
/// their replies; [`keep`](SessionsOf::keep) stores an accepted command. The *heartbeat* of a peer is the interval, in
/// milliseconds, at which it said that it would send: 5,000 ms at first, and from 250 to 30,000 ms. Moments are in
/// milliseconds of one clock, which the caller reads. The present moment is the latest that
/// [`advance`](SessionsOf::advance), [`advance_into`](SessionsOf::advance_into) and [`hear`](SessionsOf::hear) were
/// given, and 0 at first. The *silence* of a session is the time from the moment when its peer was last heard to the
/// present moment. A session is *forgotten* when it is removed, after a silence of more than 120,000 ms.
///
/// Each command in a reply window has room for `COMMAND` bytes of parameters, and its reply for `ANSWER`.
/// [`Sessions`] has room for each command and each reply.
#[derive(Drop)]
pub struct SessionsOf<const COMMAND: usize, const ANSWER: usize> {
    sizes: Sizes,
    moment: u64,
    /// Up to this moment no session lapses, and so none is forgotten.
    quiet_until: u64,
    count: usize,
    /// Where a session stands, if there is one: that which was heard last, unless one was forgotten since. It
    /// is looked at first.
    recent: usize,
    slots: Vec<SessionSlot<COMMAND, ANSWER>>,
}

/// A table of sessions with room for each command and each reply: commands with 1,445 bytes of parameters, and replies
/// with 1,452. [`SessionsOf`] has its calls, and explains their words.
pub type Sessions = SessionsOf<MOST_COMMAND_PARAMETER_BYTES, MOST_PARAMETER_BYTES>;

impl<const COMMAND: usize, const ANSWER: usize> Model for SessionsOf<COMMAND, ANSWER> {
    ghost use Rattle.std.specs.Prelude.{◌≡◌, ◌<◌, ◌≤◌, length, take, All};
    ghost use Rattle.oca_types.specs.Sizes.{most_command_parameter_bytes, most_parameter_bytes, sizes_of};
    ghost use Rattle.oca_session.specs.Table.{Table};
    ghost use Rattle.oca_session.specs.Sound.{IsSession, IsOnePerPeer};
    ghost use Rattle.oca_session.specs.PrivateQuiet.{IsQuietUntil};

    ghost Value = { Table };

    ghost view = { λ a. record { sizes = sizes_of a.sizes; moment = a.moment; sessions = take a.count a.slots.items } };

    ghost invariant = { λ a. (a.count ≤ (sizes_of a.sizes).peers) × (length a.slots.items ≡ (sizes_of a.sizes).peers)
        × All (IsSession (sizes_of a.sizes).window) a.slots.items × IsOnePerPeer (take a.count a.slots.items)
        × IsQuietUntil a.quiet_until (take a.count a.slots.items) × (0 < a.count → a.recent < a.count)
        × (COMMAND ≤ most_command_parameter_bytes) × (ANSWER ≤ most_parameter_bytes) };
}

impl<const COMMAND: usize, const ANSWER: usize> SessionsOf<COMMAND, ANSWER> {
    ghost use Rattle.oca_session.specs.Table.{with_moment_and_sessions, with_sessions, present, with_changed};
    ghost use Rattle.oca_session.specs.Table.{with_heartbeat, with_entry, with_accepted, Hears, IsKnownAfter, AgreesAt};
    ghost use Rattle.oca_session.specs.Sound.{IsTable};

    /// Returns a table without sessions, at the moment 0, with room for the sessions of 16 peers. `window` is the size
    /// of the reply window of each session: 1 to 64 commands, with the default 32. The reply window contains the last
    /// accepted commands of the peer with their replies. The call takes from `alloc` all the memory that the sessions
    /// will need: no later call takes any. The only refusal is `NoMemory` if the allocator refused memory. No table is
    /// then returned.
    pub fn new(alloc: Global, window: Window) -> Result<Self, NoMemory>
        ensures { IfOk result (λ t. t ≡ record {
          sizes = record { window = window_size window; peers = 16 };
          moment = 0;
          sessions = [];
        }) }
    {
        SessionsOf::with_sizes(
            alloc,
            Sizes {
                window,
                peers: Peers::default(),
            },
        )
    }

    /// Returns a table without sessions, at the moment 0, with the sizes in `sizes`:
    /// - The table has room for the sessions of 1 to 64 peers, with the default 16.
    /// - Each session has a reply window of 1 to 64 commands, with the default 32. The reply window contains the last
    ///   accepted commands of the peer with their replies.
    ///
    /// [`Sizes`] can't have a number outside these ranges. The call takes from `alloc` all the memory that the sessions
    /// will need: no later call takes any. The only refusal is `NoMemory` if the allocator refused memory, or if
    /// `COMMAND` is above 1,445 or `ANSWER` above 1,452, as in no [`Sessions`]. No table is then returned.
    pub fn with_sizes(alloc: Global, sizes: Sizes) -> Result<Self, NoMemory>
        ensures empty { IfOk result (λ t. t ≡ record { sizes = sizes_of sizes; moment = 0; sessions = [] }) }
        ensures rooms { OnOk result ((COMMAND ≤ most_command_parameter_bytes) × (ANSWER ≤ most_parameter_bytes)) }
    {
        if COMMAND > MOST_COMMAND_PARAMETER_BYTES || ANSWER > MOST_PARAMETER_BYTES {
            return Err(NoMemory);
        }
        let (window, peers) = (
            usize::from(sizes.window.get()),
            usize::from(sizes.peers.get()),
        );
        match spare_slots(alloc, window, peers) {
            Ok(slots) => Ok(SessionsOf {
                sizes,
                moment: 0,
                quiet_until: 0,
                count: 0,
                recent: 0,
                slots,
            }),
            Err(_) => Err(NoMemory),
        }
    }

    /// Returns the number of sessions: from 0, as at first, to the number of peers for which the table was made, at
    /// most 64. A session that is due to be forgotten counts until the next [`advance`](SessionsOf::advance) or
    /// [`advance_into`](SessionsOf::advance_into). The call refuses nothing.
    pub fn len(&self) -> usize
        ensures len { result ≡ length self.now.sessions }
        ensures sound { IsTable self.now }
    {
        self.count
    }

    /// Returns `true` if there is no session, as at first, and `false` otherwise. The call refuses nothing.
    pub fn is_empty(&self) -> bool
        ensures { result ≡ (length self.now.sessions == 0) }
    {
        self.count == 0
    }

    /// Returns the peer of the session at an index, counted from 0 in order of opening. The result is `None` if `index`
    /// is the number of sessions or above. When a session is forgotten, the sessions after it move down by one.
    pub fn peer_at(&self, index: usize) -> Option<Peer>
        ensures { result ≡ slice_get (peers_of self.now.sessions) index }
    {
        match self.slots[..self.count].get(index) {
            Some(slot) => Some(slot.peer()),
            None => None,
        }
    }

    /// Returns whether the peer (the same address and port) has a session. A session begins when
    /// [`hear`](SessionsOf::hear) opens it, and ends when [`advance`](SessionsOf::advance) or
    /// [`advance_into`](SessionsOf::advance_into) forgets it. The table is unchanged.
    #[tactic(auto, using(crate::proofs::Tables::known_by_place))]
    pub fn is_known(&self, peer: Peer) -> bool
        ensures { result ≡ is_some (session_of peer self.now.sessions) }
    {
        index_of(&self.slots[..self.count], self.recent, peer).is_some()
    }

    /// Moves the table's clock to `now`, and returns the peers that were silent for too long. `now` is in milliseconds
    /// of the caller's clock; an earlier moment than the present one counts as the present one. The result is the peers
    /// whose silence is more than three of their heartbeats, in order of opening. Sessions with a silence of more than
    /// 120,000 ms are then forgotten; their peers are in the result too. The result has at most the first 16 peers:
    /// these are all if the table has room for at most 16 sessions. [`advance_into`](SessionsOf::advance_into) returns
    /// all. Each later call returns the peer again, until the peer is heard or forgotten. The call refuses nothing and
    /// takes no memory.
    pub fn advance(&mut self, now: u64) -> ArrayVec<Peer, 16>
        ensures lapsed { result.items ≡ take 16 (lapsed (present self.old now) self.old.sessions) }
        ensures all { self.old.sizes.peers ≤ 16 → result.items ≡ lapsed (present self.old now) self.old.sessions }
        ensures staying { self.new ≡ with_moment_and_sessions self.old (present self.old now)
            (staying (present self.old now) self.old.sessions) }
        ensures forgotten { self.old.sizes.peers ≤ 16 →
            All (Contains result.items) (peers_of (forgotten (present self.old now) self.old.sessions)) }
    {
        // Read so that the proof knows how many sessions were chosen.
        let _ = &self.sizes;
        let mut all = ArrayVec::new();
        self.advance_into(now, &mut all);
        let mut peers = ArrayVec::new();
        let _ = peers.try_extend_from_slice(&all.as_slice()[..all.len().min(16)]);
        peers
    }

    /// Moves the table's clock to `now`, and writes into `peers` all peers that were silent for too long. `now` is in
    /// milliseconds of the caller's clock; an earlier moment than the present one counts as the present one. `peers`
    /// becomes the peers whose silence is more than three of their heartbeats, in order of opening; its old items are
    /// lost. Sessions with a silence of more than 120,000 ms are then forgotten; their peers are in `peers` too. Each
    /// later call writes the peer again, until the peer is heard or forgotten. The call refuses nothing and takes no
    /// memory.
    pub fn advance_into(&mut self, now: u64, peers: &mut ArrayVec<Peer, MOST_PEERS>)
        ensures lapsed { peers.new.items ≡ lapsed (present self.old now) self.old.sessions }
        ensures staying { self.new ≡ with_moment_and_sessions self.old (present self.old now)
            (staying (present self.old now) self.old.sessions) }
        ensures forgotten { All (Contains peers.new.items)
            (peers_of (forgotten (present self.old now) self.old.sessions)) }
    {
        self.moment = self.moment.max(now);
        if self.moment > self.quiet_until {
            self.lapse(peers);
            return;
        }
        empty(peers);
    }

    /// Apart from `advance_into`, so that the quiet case is inlined: puts the peers that are lapsed at the present
    /// moment into `peers`, in the place of what it held, and then forgets.
    #[inline(never)]
    fn lapse(&mut self, peers: &mut ArrayVec<Peer, MOST_PEERS>)
        ensures lapsed { peers.new.items ≡ lapsed self.old.moment self.old.sessions }
        ensures staying { self.new ≡ with_sessions self.old (staying self.old.moment self.old.sessions) }
        ensures forgotten { All (Contains peers.new.items) (peers_of (forgotten self.old.moment self.old.sessions)) }
    {
        put_lapsed(&self.slots[..self.count], self.moment, peers);
        self.count = forget(&mut self.slots, self.count, self.moment);
        self.quiet_until = quiet_until(&self.slots[..self.count]);
        self.recent = self.recent.min(self.count.saturating_sub(1));
    }

    /// Notes that a peer was heard at the moment `now`, and opens a session if the peer has none. `now` is in
    /// milliseconds of the caller's clock; an earlier moment than the present one counts as the present one. The call
    /// takes no memory. The result is:
    /// - `Known` if the peer has a session: its silence ends.
    /// - `Opened` if a session was opened for it, as the last in order. Its reply window is empty, and its heartbeat is
    ///   5,000 ms.
    /// - `NoRoom` if the table has no room for another session: then only the present moment is changed.
    pub fn hear(&mut self, peer: Peer, now: u64) -> Admission
        ensures hears { Hears peer (present self.old now) self.old result self.new }
        ensures known { IsKnownAfter result peer self.new.sessions }
        ensures sizes { self.new.sizes ≡ self.old.sizes }
    {
        self.moment = self.moment.max(now);
        if let Some(at) = index_of(&self.slots[..self.count], self.recent, peer) {
            let slot = &mut self.slots[at];
            slot.note(self.moment);
            self.quiet_until = self.quiet_until.min(slot.quiet_until());
            self.recent = at;
            return Admission::Known;
        }
        if self.count == self.slots.len() {
            return Admission::NoRoom;
        }
        let slot = &mut self.slots[self.count];
        slot.open(peer, self.moment);
        self.quiet_until = self.quiet_until.min(slot.quiet_until());
        self.recent = self.count;
        self.count += 1;
        Admission::Opened
    }

    /// Sets the heartbeat of a known peer to `ms` milliseconds (*profile*). The heartbeat becomes 250 ms if `ms` is
    /// below 250, and 30,000 ms if `ms` is above 30,000. The peer must be known (a premise, which the caller must
    /// prove; [`is_known`](SessionsOf::is_known)). Nothing else is changed: in particular the silence of the peer does
    /// not end. The call refuses nothing and takes no memory.
    pub fn beat(&mut self, peer: Peer, ms: u64)
        requires { IsSome (session_of peer self.old.sessions) }
        ensures heartbeat { self.new ≡ with_sessions self.old
            (with_changed peer (with_heartbeat ms) self.old.sessions) }
        ensures peers { peers_of self.new.sessions ≡ peers_of self.old.sessions }
        ensures known { (p : Peer) →
            is_some (session_of p self.new.sessions) ≡ is_some (session_of p self.old.sessions) }
    {
        let at = self.index_of_known(peer);
        let slot = &mut self.slots[at];
        slot.set_heartbeat(ms);
        self.quiet_until = self.quiet_until.min(slot.quiet_until());
    }

    /// Returns the present moment of the table, in milliseconds of the caller's clock: the latest moment that a call
    /// was given, and 0 at first. The call refuses nothing.
    pub fn moment(&self) -> u64
        ensures { result ≡ self.now.moment }
    {
        self.moment
    }

    /// Returns the first moment at which a session is forgotten, if no peer is heard before. The moment is in
    /// milliseconds of the caller's clock: a peer was then silent for more than 120,000 ms. The moment can be past,
    /// since only [`advance`](SessionsOf::advance) and [`advance_into`](SessionsOf::advance_into) forget sessions. The
    /// result is `None` if there is no session, or the moment does not fit 64 bits. The table is unchanged.
    pub fn forgotten_from(&self) -> Option<u64>
        ensures { HoldsFrom (forgets self.now.sessions) result }
    {
        forgotten_from(&self.slots[..self.count])
    }

    /// Returns the first moment at which the peer was silent for more than three of its heartbeats, if the peer is not
    /// heard before. The moment is in milliseconds of the caller's clock, and can be past. The result is `None` if the
    /// peer has no session, or the moment does not fit 64 bits. The table is unchanged.
    pub fn lapsed_from(&self, peer: Peer) -> Option<u64>
        ensures { HoldsFrom (lapses peer self.now.sessions) result }
    {
        match index_of(&self.slots[..self.count], self.recent, peer) {
            Some(at) => self.slots[at].lapsed_from(),
            None => None,
        }
    }

    /// Judges a command of a known peer by the reply window of its session. The window contains the last accepted
    /// commands of the session with their replies. The call changes nothing and takes no memory. The peer must be known
    /// (a premise, which the caller must prove; [`is_known`](SessionsOf::is_known)). The result is:
    /// - `Kept` with the reply, if the window has a command with this handle that asks the same: the same target,
    ///   DefLevel, MethodIndex, ParamCount and parameter bytes. The command is a duplicate.
    /// - `Reused` if the window has a command with this handle that asks something else.
    /// - `Old` if no command in the window has this handle, and the handle is at most the highest handle of the
    ///   commands that the window pushed out ([`keep`](SessionsOf::keep)).
    /// - `Fresh` otherwise.
    pub fn judge(&self, peer: Peer, command: &Command<'_>) -> JudgedOf<'_, ReplyOf<ANSWER>>
        requires { IsSome (session_of peer self.now.sessions) }
        ensures retained { IfSome (session_of peer self.now.sessions)
            (λ s. as_judgement result ≡ judgement_by_window s.retained (fields_of command.now)) }
        ensures accepted { (w : ℕ) (A : List Entry) → AgreesAt peer w A self.now.sessions →
            as_judgement result ≡ judgement w A (fields_of command.now) }
    {
        self.slots[self.index_of_known(peer)].judge(command)
    }

    /// Stores a fresh command of a known peer, with its reply, in the reply window of its session. A full window pushes
    /// its oldest command out. From then on [`judge`](SessionsOf::judge) says `Old` for each handle up to that
    /// command's, if the handle is not in the window. The command and the reply are copied. Premises, which the caller
    /// must prove: the peer is known ([`is_known`](SessionsOf::is_known)), [`judge`](SessionsOf::judge) says `Fresh`
    /// for the command, and the command has at most `COMMAND` bytes of parameters: in [`Sessions`] at most 1,445. The
    /// call refuses nothing and takes no memory.
    pub fn keep(&mut self, peer: Peer, command: &Command<'_>, reply: &ReplyOf<ANSWER>)
        requires known { IsSome (session_of peer self.old.sessions) }
        requires fresh { IfSome (session_of peer self.old.sessions)
            (λ s. judgement_by_window s.retained (fields_of command.now) ≡ Fresh) }
        requires room { length command.now.params.now ≤ COMMAND }
        ensures retained { self.new ≡ with_sessions self.old
            (with_changed peer
            (with_entry (record { command = fields_of command.now; reply = reply.now })) self.old.sessions) }
        ensures accepted { (w : ℕ) (A : List Entry) → AgreesAt peer w A self.old.sessions →
            self.new ≡ with_sessions self.old
            (with_changed peer
            (with_accepted w (A ++ record { command = fields_of command.now; reply = reply.now } ∷ []))
            self.old.sessions) }
        ensures peers { peers_of self.new.sessions ≡ peers_of self.old.sessions }
        ensures known { (p : Peer) →
            is_some (session_of p self.new.sessions) ≡ is_some (session_of p self.old.sessions) }
    {
        self.keep_parts(peer, command, reply.parts());
    }

    /// Stores a fresh command of a known peer, as [`keep`](SessionsOf::keep) does, with a reply whose parameters lie
    /// elsewhere. Beside the premises of `keep`, the reply must have at most `ANSWER` bytes of parameters (a premise,
    /// which the caller must prove). The call refuses nothing and takes no memory.
    pub fn keep_parts(&mut self, peer: Peer, command: &Command<'_>, reply: ReplyParts<'_>)
        requires known { IsSome (session_of peer self.old.sessions) }
        requires fresh { IfSome (session_of peer self.old.sessions)
            (λ s. judgement_by_window s.retained (fields_of command.now) ≡ Fresh) }
        requires room { length command.now.params.now ≤ COMMAND }
        requires short { length reply.params.now ≤ ANSWER }
        ensures retained { self.new ≡ with_sessions self.old
            (with_changed peer (with_entry (entry_of command.now reply.entry)) self.old.sessions) }
        ensures accepted { (w : ℕ) (A : List Entry) → AgreesAt peer w A self.old.sessions →
            self.new ≡ with_sessions self.old
            (with_changed peer (with_accepted w (A ++ entry_of command.now reply.entry ∷ [])) self.old.sessions) }
        ensures peers { peers_of self.new.sessions ≡ peers_of self.old.sessions }
        ensures known { (p : Peer) →
            is_some (session_of p self.new.sessions) ≡ is_some (session_of p self.old.sessions) }
    {
        self.put(peer, command, reply);
    }

    /// Where the session of a known peer stands. The recent slot is looked at first.
    fn index_of_known(&self, peer: Peer) -> usize
        requires { IsSome (session_of peer self.now.sessions) }
        ensures place { position (is_of peer) self.now.sessions ≡ Some result }
        ensures within { result < self.now.sizes.peers }
    {
        if self.slots[self.recent].is_of(peer) {
            return self.recent;
        }
        self.search_known(peer)
    }

    /// Apart from `index_of_known`, so that the look at the recent slot is inlined: looks in all slots for the session
    /// of a known peer. It takes no slice, whose length would be read at each such look.
    #[inline(never)]
    fn search_known(&self, peer: Peer) -> usize
        requires { IsSome (session_of peer self.now.sessions) }
        ensures place { position (is_of peer) self.now.sessions ≡ Some result }
        ensures within { result < self.now.sizes.peers }
    {
        match search(&self.slots[..self.count], peer) {
            Some(at) => at,
            None => unreachable!(),
        }
    }

    /// Apart from `keep`, which says beside it what follows for the accepted commands and for the peers: adds a fresh
    /// command of a known peer, with its reply.
    fn put(&mut self, peer: Peer, command: &Command<'_>, reply: ReplyParts<'_>)
        requires known { IsSome (session_of peer self.old.sessions) }
        requires fresh { IfSome (session_of peer self.old.sessions)
            (λ s. judgement_by_window s.retained (fields_of command.now) ≡ Fresh) }
        requires room { length command.now.params.now ≤ COMMAND }
        requires short { length reply.params.now ≤ ANSWER }
        ensures retained { self.new ≡ with_sessions self.old
            (with_changed peer (with_entry (entry_of command.now reply.entry)) self.old.sessions) }
        ensures one { IsTable self.old }
    {
        let at = self.index_of_known(peer);
        self.slots[at].keep(command, reply);
    }
}

/// Where the session of a peer stands, which may have none. The recent slot is looked at first.
fn index_of<const COMMAND: usize, const ANSWER: usize>(
    slots: &[SessionSlot<COMMAND, ANSWER>],
    recent: usize,
    peer: Peer,
) -> Option<usize>
    requires { IsOnePerPeer slots.now }
    ensures { result ≡ position (is_of peer) slots.now }
{
    if recent < slots.len() && slots[recent].is_of(peer) {
        return Some(recent);
    }
    search(slots, peer)
}

/// Apart from `index_of`, so that the look at the recent slot is inlined: looks in all slots for the session of a peer.
#[inline(never)]
fn search<const COMMAND: usize, const ANSWER: usize>(
    slots: &[SessionSlot<COMMAND, ANSWER>],
    peer: Peer,
) -> Option<usize>
    ensures { result ≡ position (is_of peer) slots.now }
{
    for at in 0..slots.len() {
        if slots[at].is_of(peer) {
            return Some(at);
        }
    }
    None
}

/// Takes all peers out. Clearing is a call that overwrites the cells, so an empty list, the common case here, is left
/// alone. Each `empty` of the core spares itself the call in the case that is common where it stands.
fn empty(peers: &mut ArrayVec<Peer, MOST_PEERS>)
    ensures { peers.new.items ≡ [] }
{
    if !peers.is_empty() {
        peers.clear();
    }
}

/// Puts the peers of the sessions that are lapsed at a moment into `peers`, in their order, in the place of what it
/// held.
fn put_lapsed<const COMMAND: usize, const ANSWER: usize>(
    slots: &[SessionSlot<COMMAND, ANSWER>],
    moment: u64,
    peers: &mut ArrayVec<Peer, MOST_PEERS>,
)
    requires { length slots.now ≤ 64 }
    ensures { peers.new.items ≡ lapsed moment slots.now }
{
    peers.clear();
    for slot in slots {
        if slot.is_lapsed(moment) {
            peers.push(slot.peer());
        }
    }
}

/// The latest moment up to which none of the sessions lapses: that before the first lapse, or the latest of all.
#[tactic(auto, using(crate::proofs::Quiet::latest_first), unfolding(crate::specs::PrivateQuiet::latest_quiet))]
fn quiet_until<const COMMAND: usize, const ANSWER: usize>(
    slots: &[SessionSlot<COMMAND, ANSWER>],
) -> u64
    ensures { result ≡ latest_quiet slots.now }
{
    let mut until = u64::MAX;
    for slot in slots {
        until = until.min(slot.quiet_until());
    }
    until
}

/// Apart from the method, since a loop over a slice leaves the sessions closed: from which moment on one of them is
/// forgotten.
fn forgotten_from<const COMMAND: usize, const ANSWER: usize>(
    slots: &[SessionSlot<COMMAND, ANSWER>],
) -> Option<u64>
    ensures { HoldsFrom (forgets slots.now) result }
{
    let mut first = None;
    for slot in slots {
        first = sooner(first, slot.forgotten_from());
    }
    first
}

/// Moves the sessions that stay to the front, in their order, and returns how many they are. The slots of
/// the others come behind them.
fn forget<const COMMAND: usize, const ANSWER: usize>(
    slots: &mut Vec<SessionSlot<COMMAND, ANSWER>>,
    count: usize,
    moment: u64,
) -> usize
    requires { count ≤ vec_len slots.old }
    ensures front { take result slots.new.items ≡ staying moment (take count slots.old.items) }
    ensures fewer { result ≤ count }
    ensures length { vec_len slots.new ≡ vec_len slots.old }
    ensures sound { (w : ℕ) → All (IsSession w) slots.old.items → All (IsSession w) slots.new.items }
{
    let mut kept = 0usize;
    for i in 0..count {
        if slots[i].stays(moment) {
            slots.swap(kept, i);
            kept += 1;
        }
    }
    kept
}

/// So many slots for sessions with windows of this size.
fn spare_slots<const COMMAND: usize, const ANSWER: usize>(
    alloc: Global,
    window: usize,
    count: usize,
) -> Result<Vec<SessionSlot<COMMAND, ANSWER>>, AllocError>
    requires size { (0 < window) × (window ≤ 64) }
    requires rooms { (COMMAND ≤ most_command_parameter_bytes) × (ANSWER ≤ most_parameter_bytes) }
    ensures { IfOk result (λ v. (length v.items ≡ count) × All (IsSession window) v.items) }
{
    let mut slots = Vec::with_capacity(alloc, count)?;
    for _i in 0..count {
        slots.push_reserved(SessionSlot::spare(alloc, window)?);
    }
    Ok(slots)
}

impl<const COMMAND: usize, const ANSWER: usize> fmt::Debug for SessionsOf<COMMAND, ANSWER> {
    /// The sizes, the number of sessions, and the present moment.
    fn fmt<W: fmt::Write>(&self, f: &mut fmt::Formatter<W>) -> fmt::Result {
        f.debug_struct("Sessions")
            .field("sizes", &self.sizes)
            .field("sessions", &self.count)
            .field("moment", &self.moment)
            .finish()
    }
}
