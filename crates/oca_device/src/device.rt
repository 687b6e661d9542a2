//! The device: it takes events, and puts its answers into an outbox.
ghost use Rattle.std.specs.Prelude.{◌≡◌, ◌+◌, ◌<◌, ◌≤◌, List, [], ◌∷◌, ◌++◌, length, max, IfOk, OnErr, MatchOption};
ghost use Rattle.std.specs.Prelude.{true, IsTrue, IsSome, if◌then◌else◌, Ok, Err, slice_get, Some, None, is_none};
ghost use Rattle.oca_device.specs.Devices.{DeviceSizes, window_size, sizes_of, most_answered, most_commands, peers_of};
ghost use Rattle.oca_device.specs.Devices.{Datagram as DatagramEvent, Tick, Local, state_after, known_after, set_fault};
ghost use Rattle.oca_device.specs.Devices.{front_fault, ToValue, ToLabel, ToEnabled, ToUnlocked, ToFailing, failing_at};
ghost use Rattle.oca_device.specs.Devices.{result_err, packets_within, told, verdict_within, may_be_answered};
ghost use Rattle.oca_tree.specs.declared.front.FrontFault.TheVariants as front_faults;
ghost use Rattle.oca_model.specs.declared.request.Request.TheVariants as asked;
ghost use Rattle.oca_device.specs.PrivateServing.{AllByRecursion, Msg, Command as Commands, msg_of, messages_left};
ghost use Rattle.oca_device.specs.PrivateServing.{read_datagram, fields_of, session_of, Admitted, run, last_noted};
ghost use Rattle.oca_device.specs.PrivateServing.{State, noted, moved_to, admits, released_all, reply_of, time_of};
ghost use Rattle.oca_device.specs.PrivateServing.{execution, packets_of, answers_to_reading, is_short_enough};
ghost use Rattle.oca_device.specs.PrivateServing.{shortened_answers, first_packets, numbers_of, written_by_execution};
ghost use Rattle.oca_device.specs.PrivateServing.{reply_made, effect_with};

use crate::bounded::BoundedOutbox;
use crate::counts::{Counts, NONE};
use crate::effect::{CommandOutcome, Effect, Effects, MOST_COMMANDS};
use crate::lapse::released_from;
use crate::made::{Made, is_taken, shortened, too_long};
use crate::outbox::Outbox;
use crate::verdict::Verdict;
use arrayvec::ArrayVec;
use oca_pdu::{Form, Message, Messages, check};
use oca_session::{Admission, JudgedOf, SessionsOf};
use oca_tree::{FrontFault, SetFault, Tree, Value};
use oca_types::{
    Command, MOST_COMMAND_PARAMETER_BYTES, MOST_PARAMETER_BYTES, MOST_PEERS, NoMemory, Ono, Params,
    Peer, Peers, Sizes, Status, Window, sooner,
};
use std::alloc::Global;
use std::fmt;
use std::marker::Model;

/// A device: a tree of objects, and the sessions of its peers.
///
/// ```
/// let tree = build(rt.alloc()).map_err(|_| "no memory")?;
/// let mut device = Device::new(rt.alloc(), tree, Window::default()).map_err(|_| "no memory")?;
/// serve_at(rt, port, turns, lines, &mut device)
/// // ...
/// let mut outbox = Outbox::new(rt.alloc()).map_err(|_| "no memory")?;
/// let mut end = UdpEnd::bind(rt.alloc(), rt, LOOPBACK, port).map_err(|_| "socket failed")?;
/// // ...
/// take_turns(rt, turns, lines, device, &mut end, &mut outbox)
/// // ...
/// for _turn in 0..turns {
///     // ...
///     let _ = serve_with(device, end, outbox, &mut channels, 1);
///     // ...
/// }
/// ```
///
/// A *peer* is an address and a port. The device opens a *session* at the first well-formed datagram of a peer, if
/// there is room. A session has the moment at which the peer was last heard, its *heartbeat*, which is the interval at
/// which the peer says that it sends (AES70-3), and its *reply window* (*profile*). The reply window *retains* the last
/// commands of the peer with their replies, as many as its size says. A *duplicate* is a command that asks the same as
/// a retained command under the same handle. An *old* command is not retained, and its handle is not above that of a
/// command that was retained before. The *local front panel* is the device's own: its changes are the calls
/// [`set`](Device::set), [`set_label`](Device::set_label), [`set_enabled`](Device::set_enabled),
/// [`unlock`](Device::unlock) and [`set_failing`](Device::set_failing). No lock of a controller refuses them, and
/// neither does `set_failing`. The clock and the sessions stay as they are, and no peer gets a message.
///
/// The objects and the sessions of a device follow from its first tree and its events alone: datagrams, clock readings
/// and changes at its local front panel. Moments are in milliseconds of the caller's clock. A moment that is earlier
/// than the latest one so far is taken as the latest one: that is the *device's clock*.
///
/// [`Device`] has room for each command and each reply. Another one takes less memory: a command in a reply window
/// takes some 50 bytes, and the room for its parameters and for those of its reply.
/// - `COMMAND` is the number of bytes of parameters that a command may have, at most 1,445. A datagram of more than
///   `COMMAND` + 27 bytes is malformed. Several commands may share a datagram, if it has at most so many bytes.
/// - `ANSWER` is the number of bytes of parameters that a reply may have, at most 1,452. A command is executed as by a
///   [`Device`]; but if its reply has more, the peer is answered with the status BufferOverflow (AES70-2) and without
///   parameters, and so are the duplicates of the command. Only methods that read have parameters in their replies.
#[derive(Drop)]
pub struct DeviceOf<const COMMAND: usize, const ANSWER: usize> {
    tree: Tree,
    sessions: SessionsOf<COMMAND, ANSWER>,
    /// The peers that had lapsed when the clock moved last: a place for them, which is not made again at each datagram.
    lapsed: ArrayVec<Peer, MOST_PEERS>,
    /// The room in which a command is executed: its reply is made here once, and read where it is needed.
    made: Made,
    /// The objects that the last datagram wrote to.
    written: ArrayVec<Ono, MOST_COMMANDS>,
    /// What became of each command of the last datagram.
    effects: Effects,
}

/// A device with room for each command and each reply: commands with 1,445 bytes of parameters, and replies with 1,452.
/// [`DeviceOf`] has its calls, and explains their words.
pub type Device = DeviceOf<MOST_COMMAND_PARAMETER_BYTES, MOST_PARAMETER_BYTES>;

/// A device for short commands and replies, as those of mutes and numbers: commands with 64 bytes of parameters, in
/// datagrams of at most 91 bytes, and replies with 264. A command in a reply window takes 376 bytes. [`DeviceOf`] says
/// what becomes of longer ones.
pub type SmallDevice = DeviceOf<64, 264>;

impl<const COMMAND: usize, const ANSWER: usize> Model for DeviceOf<COMMAND, ANSWER> {
    ghost use Rattle.std.specs.Prelude.{◌≤◌};
    ghost use Rattle.oca_types.specs.Sizes.{most_command_parameter_bytes, most_parameter_bytes};
    ghost use Rattle.oca_device.specs.Devices.{DeviceState};
    ghost use Rattle.oca_device.specs.Written.{numbers_of};

    ghost Value = { DeviceState };

    ghost view = { λ d. record {
      tree = d.tree;
      sessions = d.sessions;
      written = numbers_of d.written.items;
      effects = d.effects;
    } };

    ghost invariant = { λ d. (COMMAND ≤ most_command_parameter_bytes) × (ANSWER ≤ most_parameter_bytes) };
}

impl<const COMMAND: usize, const ANSWER: usize> DeviceOf<COMMAND, ANSWER> {
    ghost use Rattle.oca_device.specs.Devices.{RepresentsWithin, Appends, WhateverItRepresents, IsIn};
    ghost use Rattle.oca_device.specs.Lapses.{IsNextLapse, NeverLapses};
    ghost use Rattle.oca_device.specs.PrivateServing.{ServesMessage, ServesMessages, TakesDatagram, AreGrouped};
    ghost use Rattle.oca_device.specs.PrivateServing.{IsShort, commands_in, commands_of, all_commands};

    /// Makes a device of the objects in `tree`, with sessions of at most 16 peers. `window` is the size of the reply
    /// window: for 1 to 64 commands of each peer the replies are kept. No peer has a session yet, and the device's
    /// clock is at 0.
    ///
    /// The call takes all the memory that the device will need beside `tree` and an outbox. Refusal: `NoMemory` if that
    /// memory is refused, or for a [`DeviceOf`] with `COMMAND` above 1,445 or `ANSWER` above 1,452; the objects are
    /// then lost.
    pub fn new(alloc: Global, tree: Tree, window: Window) -> Result<Self, NoMemory>
        ensures { IfOk result (λ device. RepresentsWithin ANSWER (record {
          window = window_size window;
          peers = 16;
        }) device tree []) }
    {
        DeviceOf::with_sizes(
            alloc,
            tree,
            Sizes {
                window,
                peers: Peers::default(),
            },
        )
    }

    /// Makes a device as [`new`](Device::new) does, with the sizes in `sizes`: reply windows of 1 to 64 commands, and
    /// sessions of 1 to 64 peers. Memory and the refusal are those of `new`.
    pub fn with_sizes(alloc: Global, tree: Tree, sizes: Sizes) -> Result<Self, NoMemory>
        ensures { IfOk result (λ device. RepresentsWithin ANSWER (sizes_of sizes) device tree []) }
    {
        let sessions = SessionsOf::with_sizes(alloc, sizes)?;
        Ok(DeviceOf {
            tree,
            sessions,
            lapsed: ArrayVec::new(),
            made: Made {
                status: Status::Ok,
                count: 0,
                params: Params::new(),
            },
            written: ArrayVec::new(),
            effects: Effects::new(),
        })
    }

    /// Handles the datagram `bytes` that came from the peer `from` at the moment `now`, in milliseconds of the caller's
    /// clock, and returns what became of it. `outbox` then has the answers, all for that peer, and nothing else. No
    /// memory is taken.
    ///
    /// First the clock moves on to `now` as [`tick`](Device::tick) does. Then the first that applies:
    /// - `Malformed` with `TooLong` if there are more than `COMMAND` + 27 bytes ([`DeviceOf`]): for a [`Device`] that
    ///   is no case of its own.
    /// - `Malformed` with the first fault if the bytes are no well-formed datagram (AES70-3).
    /// - `NoRoom` if the sender has no session, and there is no room for another session (*profile*).
    /// - `Served` with the numbers of commands that were served in each way. The messages are served in order. A new
    ///   command is executed, and a duplicate gets its retained reply; a command that asks for no response gets none
    ///   (AES70-3). A reply with more than `ANSWER` bytes of parameters is answered as BufferOverflow. A command that
    ///   is old, or that asks something else under the handle of a retained command, is ignored. A keep-alive sets the
    ///   heartbeat and is returned (AES70-3). A response is ignored.
    ///
    /// After `Malformed` and `NoRoom` no object and no session is changed further, nothing is answered, and
    /// [`Device::written`] and [`Device::effects`] are empty. Neighbouring responses share a PDU of at most 1,472 bytes
    /// (*profile*).
    pub fn datagram(&mut self, from: Peer, bytes: &[u8], now: u64, outbox: &mut Outbox) -> Verdict
        ensures represents { Appends ANSWER self.old self.new (DatagramEvent from (told COMMAND bytes.now) now) }
        ensures packets { WhateverItRepresents ANSWER self.old (λ w T E.
            outbox.new ≡ packets_within ANSWER w T E (DatagramEvent from (told COMMAND bytes.now) now)) }
        ensures verdict { WhateverItRepresents ANSWER self.old (λ w T E.
            result ≡ verdict_within COMMAND w T E from bytes.now now) }
    {
        self.datagram_within(from, bytes, now, &mut outbox.first)
    }

    /// Handles the datagram `bytes` that came from the peer `from` as [`Device::datagram`] does, with an outbox of a
    /// chosen size. `now` is the moment in milliseconds of the caller's clock. `outbox` then has the first packets of
    /// the answers, as many as it has room for. [`is_cut`](BoundedOutbox::is_cut) says whether others were left out. No
    /// memory is taken.
    ///
    /// First the clock moves on to `now`. `Malformed` with the first fault, `NoRoom` or `Served` with counts, as in
    /// `datagram`. After the first two no object and no session is changed further, and nothing is answered. Each new
    /// command is executed, whether its answer has room or not. A peer that repeats a command whose answer was left out
    /// gets the retained reply, as after a loss. The answers never have more packets than the datagram has commands and
    /// keep-alives, and never more than 122.
    pub fn datagram_within(
        &mut self,
        from: Peer,
        bytes: &[u8],
        now: u64,
        outbox: &mut BoundedOutbox,
    ) -> Verdict
        ensures represents { Appends ANSWER self.old self.new (DatagramEvent from (told COMMAND bytes.now) now) }
        ensures packets { WhateverItRepresents ANSWER self.old (λ w T E.
            outbox.new
            ≡ first_packets outbox.old.room
            (packets_within ANSWER w T E (DatagramEvent from (told COMMAND bytes.now) now))) }
        ensures verdict { WhateverItRepresents ANSWER self.old (λ w T E.
            result ≡ verdict_within COMMAND w T E from bytes.now now) }
        ensures few { WhateverItRepresents ANSWER self.old (λ w T E.
            length (packets_within ANSWER w T E (DatagramEvent from (told COMMAND bytes.now) now)) ≤ most_answered) }
        ensures each { WhateverItRepresents ANSWER self.old (λ w T E.
            length (packets_within ANSWER w T E (DatagramEvent from (told COMMAND bytes.now) now))
            ≤ may_be_answered bytes.now) }
        ensures room { outbox.new.room ≡ outbox.old.room }
    {
        outbox.clear();
        self.begin_datagram();
        self.move_clock(now);
        if !is_taken::<COMMAND>(bytes) {
            return Verdict::Malformed(too_long::<COMMAND>());
        }
        self.receive(from, bytes, now, outbox)
    }

    /// Moves the device's clock on to `now`, in milliseconds of the caller's clock. A moment earlier than the latest
    /// one so far is taken as that latest one. [`Device::written`] and [`Device::effects`] stay as they are, nothing is
    /// answered, and no memory is taken.
    ///
    /// All locks of a peer are released if the device heard nothing from the peer for more than three of its heartbeats
    /// (AES70-3 has the heartbeat). A session is forgotten if its peer was silent for more than 120,000 ms (*profile*).
    pub fn tick(&mut self, now: u64)
        ensures { Appends ANSWER self.old self.new (Tick now) }
    {
        self.move_clock(now);
    }

    /// Sets the object `ono` to the value `value` at the local front panel ([`DeviceOf`]), as the set method of the
    /// object's class does (AES70-2).
    ///
    /// Refusals, the first that applies, which change nothing:
    /// - `NoObject` if no object has the number `ono`.
    /// - `NoSetting` if the object is a block.
    /// - `OtherKind` if the value is of another class than the object.
    /// - `OutOfRange` if a switch has no such position or the position is disabled, or a number is outside the object's
    ///   limits.
    pub fn set(&mut self, ono: Ono, value: Value) -> Result<(), SetFault>
        ensures represents { Appends ANSWER self.old self.new (Local ono.0 (ToValue value)) }
        ensures fault { result_err result ≡ set_fault self.old.tree ono.0 value }
        ensures refused { OnErr result (self.new ≡ self.old) }
    {
        self.tree.set(ono, value)
    }

    /// Gives the object `ono` the label `label` at the local front panel ([`DeviceOf`]), as SetLabel of OcaWorker does
    /// (AES70-2). The label has 0 to 64 bytes of UTF-8.
    ///
    /// Refusals, the first that applies, which change nothing: `NoObject` if no object has the number `ono`. `BadLabel`
    /// if the label has more than 64 bytes.
    pub fn set_label(&mut self, ono: Ono, label: &str) -> Result<(), FrontFault>
        ensures represents { Appends ANSWER self.old self.new (Local ono.0 (ToLabel label.now)) }
        ensures fault { result_err result ≡ front_fault self.old.tree ono.0 (asked.SetLabel label.now) }
        ensures refused { OnErr result (self.new ≡ self.old) }
    {
        self.tree.set_label(ono, label)
    }

    /// Enables the object `ono` (`enabled` is `true`) or disables it at the local front panel ([`DeviceOf`]), as
    /// SetEnabled of OcaWorker does (AES70-2). Refusal: `NoObject` if no object has the number `ono`; then nothing is
    /// changed.
    pub fn set_enabled(&mut self, ono: Ono, enabled: bool) -> Result<(), FrontFault>
        ensures represents { Appends ANSWER self.old self.new (Local ono.0 (ToEnabled enabled)) }
        ensures fault { result_err result ≡ front_fault self.old.tree ono.0 (asked.SetEnabled enabled) }
        ensures refused { OnErr result (self.new ≡ self.old) }
    {
        self.tree.set_enabled(ono, enabled)
    }

    /// Releases the lock of the object `ono` at the local front panel, whichever peer has it, as Unlock of OcaRoot does
    /// for the peer that has it (AES70-2). That peer gets no message, and keeps its session and its other locks. The
    /// clock stays as it is.
    ///
    /// Refusals, the first that applies, which change nothing: `NoObject` if no object has the number `ono`.
    /// `NotLocked` if the object is not locked.
    pub fn unlock(&mut self, ono: Ono) -> Result<(), FrontFault>
        ensures represents { Appends ANSWER self.old self.new (Local ono.0 ToUnlocked) }
        ensures fault { result_err result ≡ front_fault self.old.tree ono.0 asked.Unlock }
        ensures refused { OnErr result (self.new ≡ self.old) }
    {
        self.tree.unlock(ono)
    }

    /// Sets, at the local front panel, whether the hardware of the object `ono` refuses changes (`failing`). At first
    /// no hardware refuses changes. While the hardware refuses, a command that writes to the object changes nothing and
    /// is answered ProcessingFailed (AES70-2, OcaStatus), or with the status of another fault that the command has.
    /// When this status is sent is the profile's choice.
    ///
    /// A duplicate that asks for a response gets its retained reply. Commands that read or lock work as before, and so
    /// do the calls of the local front panel. The setting is not saved to a store. The clock and the sessions stay as
    /// they are. Refusal: `NoObject` if no object has the number `ono`; then nothing is changed.
    pub fn set_failing(&mut self, ono: Ono, failing: bool) -> Result<(), FrontFault>
        ensures represents { Appends ANSWER self.old self.new (Local ono.0 (ToFailing failing)) }
        ensures fault { result_err result ≡ front_fault self.old.tree ono.0 (asked.SetEnabled failing) }
        ensures missing { result_err result
            ≡ (if is_none (failing_at self.old.tree ono.0) then Some front_faults.NoObject else None) }
        ensures refused { OnErr result (self.new ≡ self.old) }
    {
        self.tree.set_failing(ono, failing)
    }

    /// Whether the hardware of the object `ono` refuses changes, as [`Device::set_failing`] last set it. `Some(false)`
    /// before the first such call. `None` if no object has the number `ono`. Nothing is changed.
    pub fn is_failing(&self, ono: Ono) -> Option<bool>
        ensures failing { result ≡ failing_at self.now.tree ono.0 }
    {
        self.tree.is_failing(ono)
    }

    /// Returns a reference to the objects as they are now, to read them. After [`Device::new`] they are those that it
    /// was given. They change only by commands of datagrams, by locks that are released, and at the local front panel.
    pub fn tree(&self) -> &Tree
        ensures tree { result.now ≡ self.now.tree }
    {
        &self.tree
    }

    /// How many peers have a session at the device's present moment: 0 to the number of peers that the device was made
    /// for, at most 64. 0 for a new device. A session is forgotten once the clock finds its peer silent for more than
    /// 120,000 ms.
    #[tactic(auto, using(crate::proofs::Steps::known_counted))]
    pub fn sessions(&self) -> usize
        ensures sessions { result ≡ length self.now.sessions.sessions }
        ensures few { result ≤ self.now.sessions.sizes.peers }
        ensures represented { WhateverItRepresents ANSWER self.now (λ w T E.
            result ≡ length (known_after (state_after w T E))) }
    {
        self.sessions.len()
    }

    /// The peer of the session with the index `index`, counted from 0 in the order in which the sessions were opened.
    /// `None` if there are `index` sessions or fewer. When a session is forgotten, the sessions after it move down by
    /// one.
    #[tactic(auto, using(crate::proofs::Steps::known_at))]
    pub fn peer_at(&self, index: usize) -> Option<Peer>
        ensures peer { result ≡ slice_get (peers_of self.now.sessions.sessions) index }
        ensures represented { WhateverItRepresents ANSWER self.now (λ w T E.
            result ≡ slice_get (known_after (state_after w T E)) index) }
    {
        self.sessions.peer_at(index)
    }

    /// The numbers of the objects that the last datagram wrote to: the targets of its commands that were executed with
    /// the status OK and whose method writes. They are in order, and each is there as often as it was written: 0 to 86
    /// numbers.
    ///
    /// A command that reads, locks or unlocks is not among them, and neither is a command that was refused or not
    /// executed. The list is empty before the first datagram, and after a datagram that is malformed or finds no room.
    /// So read it after each datagram. Clock readings and changes at the local front panel leave the list as it is.
    pub fn written(&self) -> &[Ono]
        ensures written { numbers_of result.now ≡ self.now.written }
        ensures most { length result.now ≤ most_commands }
    {
        self.written.as_slice()
    }

    /// What the device did with each command of the last datagram: 0 to 86 effects, in the order of the commands.
    ///
    /// The list is empty before the first datagram, and after a datagram that is malformed or finds no room. So read it
    /// after each datagram. Clock readings and changes at the local front panel leave the list as it is.
    pub fn effects(&self) -> &[Effect]
        ensures effects { result.now ≡ self.now.effects }
        ensures most { length result.now ≤ most_commands }
    {
        self.effects.as_slice()
    }

    /// The earliest moment at which [`Device::tick`] would release a lock of a silent peer or forget a session. A loop
    /// may wait until then, if no datagram comes. The moment is in milliseconds of the caller's clock, and not before
    /// the device's present moment. `None` if there is no such moment within 64 bits, as without sessions. Nothing is
    /// changed.
    pub fn next_lapse(&self) -> Option<u64>
        ensures { WhateverItRepresents ANSWER self.now (λ w T E.
            let s = state_after w T E in MatchOption result (NeverLapses w s) (λ t. IsNextLapse w s t)) }
    {
        match sooner(
            self.sessions.forgotten_from(),
            released_from(&self.tree, &self.sessions),
        ) {
            Some(first) => Some(first.max(self.sessions.moment())),
            None => None,
        }
    }

    /// Forgets what the last datagram wrote to, and what became of its commands.
    fn begin_datagram(&mut self)
        ensures same { (w : DeviceSizes) (s : State) → IsIn ANSWER w self.old s → IsIn ANSWER w self.new s }
        ensures none { self.new.written ≡ [] }
        ensures unserved { self.new.effects ≡ [] }
    {
        empty(&mut self.written);
        self.effects.clear();
    }

    /// Moves the clock.
    fn move_clock(&mut self, now: u64)
        ensures moved { (w : DeviceSizes) (s : State) → IsIn ANSWER w self.old s →
            IsIn ANSWER w self.new (moved_to (max s.moment now) s) }
        ensures written { self.new.written ≡ self.old.written }
        ensures effects { self.new.effects ≡ self.old.effects }
        ensures moment { now ≤ self.new.sessions.moment }
    {
        self.sessions.advance_into(now, &mut self.lapsed);
        release_all(&mut self.tree, self.lapsed.as_slice());
    }

    /// Takes the datagram, once the clock has moved on to its moment: `now` is not after the present moment, so
    /// it moves nothing here.
    fn receive(&mut self, from: Peer, bytes: &[u8], now: u64, outbox: &mut BoundedOutbox) -> Verdict
        requires moment { now ≤ self.old.sessions.moment }
        requires fits { is_short_enough COMMAND bytes.now ≡ true }
        requires empty { outbox.old ≡ first_packets outbox.old.room [] }
        requires none { self.old.written ≡ [] }
        requires unserved { self.old.effects ≡ [] }
        ensures takes { (w : DeviceSizes) (s : State) → IsIn ANSWER w self.old s →
            TakesDatagram ANSWER w self.new from bytes.now s outbox.old.room outbox.new result }
        ensures few { (w : DeviceSizes) (s : State) → IsIn ANSWER w self.old s →
            length (packets_of (shortened_answers ANSWER (answers_to_reading w from
            (read_datagram bytes.now) s))) ≤ most_answered }
        ensures each { (w : DeviceSizes) (s : State) → IsIn ANSWER w self.old s →
            length (packets_of (shortened_answers ANSWER (answers_to_reading w from
            (read_datagram bytes.now) s))) ≤ may_be_answered bytes.now }
        ensures room { outbox.new.room ≡ outbox.old.room }
    {
        match check(bytes) {
            Ok(datagram) => {
                if self.admit(from, now) {
                    let counts = self.serve_messages(from, datagram.messages(), outbox);
                    Verdict::Served {
                        executed: counts.executed,
                        kept: counts.kept,
                        old: counts.old,
                        reused: counts.reused,
                    }
                } else {
                    Verdict::NoRoom
                }
            }
            Err(fault) => Verdict::Malformed(fault),
        }
    }

    /// Lets a peer in, where it is known or there is room for its session. `now` is not after the present moment.
    fn admit(&mut self, from: Peer, now: u64) -> bool
        requires { now ≤ self.old.sessions.moment }
        ensures admits { (w : DeviceSizes) (s : State) → IsIn ANSWER w self.old s → result ≡ admits w s from }
        ensures noted { (w : DeviceSizes) (s : State) (messages : List Msg) → IsIn ANSWER w self.old s →
            IsIn ANSWER w self.new (if result then noted from (Admitted messages) s else s) }
        ensures written { self.new.written ≡ self.old.written }
        ensures effects { self.new.effects ≡ self.old.effects }
        ensures known { IsTrue result → IsSome (session_of from self.new.sessions.sessions) }
    {
        match self.sessions.hear(from, now) {
            Admission::NoRoom => false,
            Admission::Known => true,
            Admission::Opened => true,
        }
    }

    /// Serves the messages of a peer that was let in, in order.
    fn serve_messages(
        &mut self,
        from: Peer,
        messages: Messages<'_>,
        outbox: &mut BoundedOutbox,
    ) -> Counts
        requires known { IsSome (session_of from self.old.sessions.sessions) }
        requires groups { AreGrouped outbox.old }
        requires short { AllByRecursion (IsShort COMMAND) (messages_left messages) }
        requires few { all_commands (messages_left messages) ≤ most_commands }
        requires none { self.old.written ≡ [] }
        requires unserved { self.old.effects ≡ [] }
        ensures serves { (w : DeviceSizes) (s : State) → IsIn ANSWER w self.old s →
            last_noted (run from s.notes) ≡ s.moment →
            ServesMessages ANSWER w self.new from (messages_left messages.entry) s outbox.old outbox.new result }
        ensures room { outbox.new.room ≡ outbox.old.room }
    {
        let mut counts = NONE;
        for message in messages {
            self.serve(from, message, outbox, &mut counts);
        }
        counts
    }

    /// Serves a message of a peer that was let in, and counts it.
    fn serve(
        &mut self,
        from: Peer,
        message: Message<'_>,
        outbox: &mut BoundedOutbox,
        counts: &mut Counts,
    )
        requires known { IsSome (session_of from self.old.sessions.sessions) }
        requires groups { AreGrouped outbox.old }
        requires short { IsShort COMMAND (msg_of message) }
        requires few { commands_in counts.now + commands_of (msg_of message) ≤ most_commands }
        requires within { length self.old.written ≤ commands_in counts.now }
        requires counted { length self.old.effects ≤ commands_in counts.now }
        ensures serves { (w : DeviceSizes) (s : State) → IsIn ANSWER w self.old s →
            last_noted (run from s.notes) ≡ s.moment →
            ServesMessage ANSWER w self.old self.new from (msg_of message.entry) s outbox.old outbox.new
            counts.entry.now counts.exit.now }
        ensures known { IsSome (session_of from self.new.sessions.sessions) }
        ensures room { outbox.new.room ≡ outbox.old.room }
        ensures groups { AreGrouped outbox.new }
        ensures few { commands_in counts.exit.now ≤ commands_in counts.entry.now + commands_of (msg_of message.entry) }
        ensures within { length self.new.written ≤ commands_in counts.exit.now }
        ensures counted { length self.new.effects ≤ commands_in counts.exit.now }
    {
        match message {
            Message::Command { respond, command } => {
                self.serve_command(from, respond, &command, outbox, counts);
            }
            Message::KeepAlive { form } => {
                self.sessions.beat(from, time_of(form));
                outbox.return_keepalive(form);
            }
            Message::Response { .. } => {}
        }
    }

    /// Serves a command of a peer that was let in, and counts it.
    fn serve_command(
        &mut self,
        from: Peer,
        respond: bool,
        command: &Command,
        outbox: &mut BoundedOutbox,
        counts: &mut Counts,
    )
        requires known { IsSome (session_of from self.old.sessions.sessions) }
        requires groups { AreGrouped outbox.old }
        requires short { length command.now.params.now ≤ COMMAND }
        requires few { commands_in counts.now < most_commands }
        requires within { length self.old.written ≤ commands_in counts.now }
        requires counted { length self.old.effects ≤ commands_in counts.now }
        ensures serves { (w : DeviceSizes) (s : State) → IsIn ANSWER w self.old s →
            last_noted (run from s.notes) ≡ s.moment →
            ServesMessage ANSWER w self.old self.new from (Commands respond
            (fields_of command.now)) s outbox.old outbox.new
            counts.entry.now counts.exit.now }
        ensures known { IsSome (session_of from self.new.sessions.sessions) }
        ensures room { outbox.new.room ≡ outbox.old.room }
        ensures groups { AreGrouped outbox.new }
        ensures few { commands_in counts.exit.now ≡ commands_in counts.entry.now + 1 }
        ensures within { length self.new.written ≤ commands_in counts.exit.now }
        ensures counted { length self.new.effects ≤ commands_in counts.exit.now }
    {
        match self.sessions.judge(from, command) {
            JudgedOf::Fresh => {
                counts.executed += 1;
                execute(
                    &mut self.tree,
                    from,
                    command,
                    &mut self.made,
                    &mut self.written,
                );
                let outcome = CommandOutcome::Executed(self.made.status);
                note(&mut self.effects, command, respond, outcome);
                self.sessions
                    .keep_parts(from, command, shortened::<ANSWER>(&self.made));
                if respond {
                    outbox.respond(command.handle, shortened::<ANSWER>(&self.made));
                }
            }
            JudgedOf::Kept(reply) => {
                counts.kept += 1;
                note(
                    &mut self.effects,
                    command,
                    respond,
                    CommandOutcome::Duplicate,
                );
                if respond {
                    outbox.respond(command.handle, reply.parts());
                }
            }
            JudgedOf::Reused => {
                counts.reused += 1;
                note(&mut self.effects, command, respond, CommandOutcome::Reused);
            }
            JudgedOf::Old => {
                counts.old += 1;
                note(&mut self.effects, command, respond, CommandOutcome::Old);
            }
        }
    }
}

impl<const COMMAND: usize, const ANSWER: usize> fmt::Debug for DeviceOf<COMMAND, ANSWER> {
    /// The numbers of objects and sessions, and the present moment.
    fn fmt<W: fmt::Write>(&self, f: &mut fmt::Formatter<W>) -> fmt::Result {
        f.debug_struct("Device")
            .field("objects", &self.tree.len())
            .field("sessions", &self.sessions.len())
            .field("moment", &self.sessions.moment())
            .finish()
    }
}

/// Takes the locks of these peers off.
fn release_all(tree: &mut Tree, peers: &[Peer])
    ensures { tree.new ≡ released_all peers.now tree.old }
{
    for peer in peers {
        tree.release(*peer);
    }
}

/// Forgets the objects. Clearing is a call that overwrites the cells, so none and a single one, the common cases here,
/// are taken out without it. Each `empty` of the core spares itself the call in the cases that are common where it
/// stands.
fn empty(written: &mut ArrayVec<Ono, MOST_COMMANDS>)
    ensures { written.new.items ≡ [] }
{
    match written.len() {
        0 => {}
        1 => {
            let _ = written.pop();
        }
        _ => written.clear(),
    }
}

/// Adds what became of a command.
#[inline(always)]
fn note(effects: &mut Effects, command: &Command, respond: bool, outcome: CommandOutcome)
    requires { length effects.old < most_commands }
    ensures { effects.new ≡ effects.old ++ effect_with outcome respond (fields_of command.now) ∷ [] }
{
    effects.push(Effect {
        target: command.target,
        method: command.method,
        respond,
        outcome,
    });
}

/// Executes a command of a peer, puts its reply in the place of another, and adds its object to those written where it
/// wrote.
fn execute(
    tree: &mut Tree,
    peer: Peer,
    command: &Command,
    made: &mut Made,
    written: &mut ArrayVec<Ono, MOST_COMMANDS>,
)
    requires { length written.old.items < most_commands }
    ensures tree { tree.new ≡ (execution tree.old peer (fields_of command.now)).tree }
    ensures reply { reply_made made.new ≡ reply_of tree.old peer (fields_of command.now) }
    ensures written { numbers_of written.new.items
        ≡ numbers_of written.old.items ++ written_by_execution tree.old peer (fields_of command.now) }
    ensures most { length written.new.items ≤ length written.old.items + 1 }
{
    let done = tree.execute(peer, command, &mut made.params);
    made.status = done.status;
    made.count = done.count;
    if done.wrote {
        written.push(command.target);
    }
}

/// The time of a keep-alive, in milliseconds.
fn time_of(form: Form) -> u64
    ensures { result ≡ time_of form }
{
    match form {
        Form::Seconds(n) => 1000 * u64::from(n),
        Form::Millis(n) => u64::from(n),
    }
}
