//! The loop that serves an end and keeps the objects in a store: what was answered is stored.
ghost use Rattle.std.specs.Prelude.{◌≡◌, ◌+◌, ◌<◌, ◌≤◌, ◌^◌, ◌-◌, ◌==◌, ◌||◌, ◌&&◌, not, false, [], ◌∷◌, ◌++◌, IsTrue};
ghost use Rattle.std.specs.Prelude.{IfOk, length, if◌then◌else◌, IfSome, min};
ghost use Rattle.oca_pdu.specs.Limits.{most_answered};
ghost use Rattle.oca_net.specs.EndStates.{Receives, SendsAllBut};
ghost use Rattle.oca_device.specs.Reports.{added, capped, receives_of};
ghost use Rattle.oca_net.specs.Ends.{last_u64, one_more};
ghost use Rattle.oca_device.specs.Replies.{sent_to};
ghost use Rattle.oca_device.specs.Keeping.{ServesKeeping};
ghost use Rattle.oca_device.specs.PrivateTotals.{IsAtMostEach};
ghost use Rattle.oca_device.specs.PrivateKeeping.{TakesIn, TakesOneIn, TakesDatagramIn, SettlesGroup};

use crate::device::Device;
use crate::electronics::Electronics;
use crate::outbox::Outbox;
use crate::report::Report;
use crate::serving::{failed_turn, nothing, of_verdict, oversize_turn, quiet_turn, send_all};
use crate::store::Store;
use oca_net::{End, Heard};
use oca_types::{NoMemory, Packet, Peer};
use std::alloc::Global;
use std::fmt;
use std::marker::Model;

/// The most turns before the objects are stored once.
const MOST_TURNS: u64 = 64;

/// For how many packets that wait there is room: three times as many as answer one datagram at most.
const ROOM: usize = 366;

/// With so many packets that wait there is room for the answers to one datagram more.
const NEARLY_FULL: usize = 244;

/// A packet of answers that waits, and who it is for.
#[derive(Drop)]
struct HeldPacket {
    to: Peer,
    packet: Packet,
}

/// What [`serve_keeping`] needs between its calls: memory for answers that wait, and whether something that a datagram
/// wrote is not stored.
///
/// The memory has room for 366 packets. The answers to a datagram that wrote to an object wait there until the objects
/// are stored. Something is not stored if the last store failed: [`is_behind`](Keeping::is_behind) is then `true`.
#[derive(Drop)]
pub struct Keeping {
    is_behind: bool,
    places: Vec<HeldPacket>,
}

impl Model for Keeping {
    ghost use Rattle.std.specs.Prelude.{◌≤◌, length, vec_capacity};
    ghost use Rattle.oca_device.specs.Keeping.{KeepingState};
    ghost use Rattle.oca_device.specs.PrivateKeeping.{packets_held};

    ghost Value = { KeepingState };

    ghost view = { λ k. record { is_behind = k.is_behind; held = packets_held k.places.items } };

    ghost invariant = { λ k. (length k.places.items ≤ 366) × (366 ≤ vec_capacity k.places) };
}

impl Keeping {
    ghost use Rattle.std.specs.Prelude.{false};

    /// Makes the state of a device that starts: no answer waits, and [`is_behind`](Keeping::is_behind) is `false`. The
    /// caller must make sure that the store has the device's objects at this time. The call does not check that. The
    /// call takes the memory for 366 packets from `alloc`, some 1,480 bytes each. The only refusal is `NoMemory` if
    /// that memory is refused. No memory is then kept.
    pub fn new(alloc: Global) -> Result<Keeping, NoMemory>
        ensures { IfOk result (λ keeping. (keeping.is_behind ≡ false) × (keeping.held ≡ [])) }
    {
        match Vec::with_capacity(alloc, ROOM) {
            Ok(places) => Ok(Keeping {
                is_behind: false,
                places,
            }),
            Err(_) => Err(NoMemory),
        }
    }

    /// Drops what waits: nothing does, but within `serve_keeping`.
    fn begin(&mut self)
        ensures none { self.new.held ≡ [] }
        ensures behind { self.new.is_behind ≡ self.old.is_behind }
    {
        self.places.clear();
    }

    /// Whether the last store failed, so that something that a datagram wrote is not stored. `true` from a store that
    /// failed until a store succeeds, and `false` otherwise, also before the first store. A store is a call of
    /// [`Store::store`](crate::Store::store) by [`serve_keeping`], which stores after datagrams that wrote to an
    /// object. Changes at the local front panel do not matter here. Nothing is changed.
    pub fn is_behind(&self) -> bool
        ensures { result ≡ self.now.is_behind }
    {
        self.is_behind
    }

    /// Notes whether a datagram wrote to an object and how many duplicates it held, and returns whether the answers to
    /// it wait.
    fn note(&mut self, wrote: bool, duplicates: u64) -> bool
        ensures waits { result ≡ (wrote || (not (duplicates == 0) && self.old.is_behind)) }
        ensures behind { self.new.is_behind ≡ (wrote || self.old.is_behind) }
        ensures held { self.new.held ≡ self.old.held }
    {
        let waits = wrote || (duplicates != 0 && self.is_behind);
        self.is_behind = wrote || self.is_behind;
        waits
    }

    /// Whether there is room for the answers to one datagram more.
    fn has_room(&self) -> bool
        ensures { IsTrue result → length self.now.held ≤ 244 }
    {
        self.places.len() <= NEARLY_FULL
    }

    /// Holds an answer to a peer back.
    #[tactic(auto, using(crate::proofs::Keepings::held_more))]
    fn push(&mut self, to: Peer, packet: &Packet)
        requires { length self.old.held < 366 }
        ensures held { self.new.held ≡ self.old.held ++ (record { to = to; bytes = packet.now.items }) ∷ [] }
        ensures behind { self.new.is_behind ≡ self.old.is_behind }
    {
        let answer = answer_of(to, packet);
        self.places.push_reserved(answer);
    }

    /// Holds the answers to a peer back.
    fn hold(&mut self, to: Peer, outbox: &Outbox)
        requires { length self.old.held ≤ 244 }
        ensures held { self.new.held ≡ self.old.held ++ sent_to to outbox.now }
        ensures behind { self.new.is_behind ≡ self.old.is_behind }
    {
        for packet in outbox.packets() {
            self.push(to, packet);
        }
    }

    /// Sends what waits, in order, and returns how many sends failed. It waits on.
    fn send_held<E: End>(&self, end: &mut E) -> u64
        ensures sends { SendsAllBut result (E.state end.old) (E.state end.new) self.now.held }
        ensures few { result ≤ 366 }
    {
        let mut failed = 0;
        for answer in self.places.as_slice() {
            if !end.send(answer.to, answer.packet.as_slice()) {
                failed += 1;
            }
        }
        failed
    }

    /// Notes that the store was handed the objects, and whether it said that it holds them. Nothing waits then.
    fn settled(&mut self, stored: bool)
        ensures behind { self.new.is_behind ≡ (self.old.is_behind && not stored) }
        ensures none { self.new.held ≡ [] }
    {
        self.is_behind = self.is_behind && !stored;
        self.places.clear();
    }
}

impl fmt::Debug for Keeping {
    /// How many packets wait, and whether something written is not stored.
    fn fmt<W: fmt::Write>(&self, f: &mut fmt::Formatter<W>) -> fmt::Result {
        f.debug_struct("Keeping")
            .field("held", &self.places.len())
            .field("is_behind", &self.is_behind)
            .finish()
    }
}

/// Serves an end for at most `turns` turns, and sends the answers to a datagram that wrote to an object only after the
/// objects are stored. A turn receives once and handles what came, as [`serve_with`](crate::serve_with) explains. The
/// call returns how often each thing was done ([`Report`]). A number stays at 2^64 - 1 if it would pass that. The loop
/// ends early if the end is closed. The arguments that change:
/// - `outbox` is memory for the answers to one datagram, and is empty at the end.
/// - `keeping` has memory for answers that wait for the store, and whether something written is not stored
///   ([`Keeping::is_behind`]). No answer waits in it at the end.
/// - `store` gets the objects ([`Store::store`](crate::Store::store)).
/// - `electronics` get the objects after each datagram, before they are stored, so that the hardware does what the
///   objects say ([`Electronics::follow`]).
///
/// What becomes of the answers:
/// - The answers to a datagram that wrote to an object wait. Meanwhile further datagrams that have come already are
///   served, in at most 64 turns together, and while at most 244 packets wait. Then the objects are stored once.
/// - If the store returns `true`, the answers that wait are sent.
/// - If the store returns `false`, the answers that wait are dropped, as if the network had lost them. The loop goes
///   on. The objects stay changed, and the device keeps the replies: a peer that repeats its command and asks for a
///   response gets its reply.
/// - The answers to a datagram with a duplicate wait too while something that a datagram wrote is not stored. The
///   objects are then stored, also if the last store failed. A *duplicate* is a command that came again ([`Device`]).
///   If it asks for a response, it gets the reply of its execution.
/// - All other answers are sent at once, even if they report what is not stored yet.
///
/// What was set at the local front panel is stored with the next datagram that writes.
pub fn serve_keeping<E: End, S: Store, L: Electronics>(
    device: &mut Device,
    end: &mut E,
    outbox: &mut Outbox,
    keeping: &mut Keeping,
    store: &mut S,
    electronics: &mut L,
    turns: u64,
) -> Report
    ensures served { ServesKeeping keeping.old.is_behind keeping.new.is_behind device.old device.new (E.state end.old)
        (E.state end.new) (L.state electronics.old) (L.state electronics.new) (S.state store.old) (S.state store.new)
        result }
    ensures turns { result.turns ≤ turns }
    ensures closed { result.turns < turns → IsTrue (E.state end.new).closed }
    ensures receives { (E.state end.new).receives < last_u64 →
        (E.state end.new).receives ≡ (E.state end.old).receives + receives_of result.turns turns }
    ensures empty { (keeping.new.held ≡ []) × (outbox.new ≡ []) }
{
    outbox.clear();
    keeping.begin();
    let mut packet = Packet::new();
    let mut report = nothing();
    let mut left = turns;
    for _group in 0..turns {
        if left == 0 {
            return report;
        }
        let group = serve_group(
            device,
            end,
            outbox,
            keeping,
            store,
            electronics,
            &mut packet,
            left,
        );
        report = with_group(report, group, left);
        if group.is_closed {
            return report;
        }
        left -= group.turns;
    }
    report
}

/// What was done, and a group more, of at most so many turns that are left.
fn with_group(report: Report, group: Taken, left: u64) -> Report
    requires fits { report.turns + left < 2 ^ 64 }
    requires most { group.turns ≤ left }
    requires same { group.report.turns ≡ group.turns }
    ensures report { result ≡ capped (added report group.report) }
    ensures turns { result.turns ≡ report.turns + group.turns }
{
    report + group.report
}

/// An answer with these bytes.
fn answer_of(to: Peer, packet: &Packet) -> HeldPacket
    ensures to { result.to ≡ to }
    ensures bytes { result.packet.items ≡ packet.now.items }
{
    let mut copy = Packet::new();
    let _ = copy.try_extend_from_slice(packet.as_slice());
    HeldPacket { to, packet: copy }
}

/// What was taken in: the report of it, its turns, whether the answers to a datagram wait, and whether the end is
/// closed.
#[derive(Clone, Copy)]
struct Taken {
    report: Report,
    turns: u64,
    is_due: bool,
    is_closed: bool,
}

/// Takes datagrams in, in at least one turn and at most so many, and stores the objects where answers wait.
fn serve_group<E: End, S: Store, L: Electronics>(
    device: &mut Device,
    end: &mut E,
    outbox: &mut Outbox,
    keeping: &mut Keeping,
    store: &mut S,
    electronics: &mut L,
    packet: &mut Packet,
    most: u64,
) -> Taken
    requires outbox { outbox.old ≡ [] }
    requires none { keeping.old.held ≡ [] }
    requires some { 0 < most }
    ensures served { ServesKeeping keeping.old.is_behind keeping.new.is_behind device.old device.new (E.state end.old)
        (E.state end.new) (L.state electronics.old) (L.state electronics.new) (S.state store.old) (S.state store.new)
        result.report }
    ensures turns { result.report.turns ≡ result.turns }
    ensures most { result.turns ≤ most }
    ensures some { result.is_closed ≡ false → 0 < result.turns }
    ensures closed { IsTrue result.is_closed → IsTrue (E.state end.new).closed }
    ensures receives { (E.state end.new).receives < last_u64 →
        (E.state end.new).receives ≡ (E.state end.old).receives
        + (if result.is_closed then result.turns + 1 else result.turns) }
    ensures fewer { IsTrue result.is_closed → result.turns < most }
    ensures none { keeping.new.held ≡ [] }
    ensures outbox { outbox.new ≡ [] }
{
    let taken = take_in(
        device,
        end,
        outbox,
        keeping,
        store,
        electronics,
        packet,
        most,
    );
    if !taken.is_due {
        keeping.begin();
        return taken;
    }
    let failed = settle(device, end, keeping, store);
    with_failed(taken, failed)
}

/// What was taken in, and so many sends more that failed.
fn with_failed(taken: Taken, failed: u64) -> Taken
    ensures report { result.report ≡ (record taken.report {
      failed_sends = min (taken.report.failed_sends + failed) last_u64;
    }) }
    ensures turns { result.turns ≡ taken.turns }
    ensures closed { result.is_closed ≡ taken.is_closed }
{
    Taken {
        report: Report {
            failed_sends: taken.report.failed_sends.saturating_add(failed),
            ..taken.report
        },
        ..taken
    }
}

/// Stores the objects, and sends what waits where the store holds them; else drops it. Returns how many sends failed.
fn settle<E: End, S: Store>(
    device: &Device,
    end: &mut E,
    keeping: &mut Keeping,
    store: &mut S,
) -> u64
    ensures { SettlesGroup device.now.tree (E.state end.old) (E.state end.new) keeping.old keeping.new
        (S.state store.old)
        (S.state store.new) result }
{
    let stored = store.store(device.tree());
    let failed = send_stored(end, keeping, stored);
    keeping.settled(stored);
    failed
}

/// Sends what waits where the objects are stored. Returns how many sends failed.
#[tactic(auto, using(crate::proofs::Keepings::nothing_sent, crate::proofs::Keepings::none_if_false))]
fn send_stored<E: End>(end: &mut E, keeping: &Keeping, stored: bool) -> u64
    ensures { SendsAllBut result (E.state end.old) (E.state end.new) (if stored then keeping.now.held else []) }
{
    if stored { keeping.send_held(end) } else { 0 }
}

/// Takes datagrams in, in at least one turn and at most so many: while answers wait, all that are there, as far as
/// there is room for the answers to them.
fn take_in<E: End, S: Store, L: Electronics>(
    device: &mut Device,
    end: &mut E,
    outbox: &mut Outbox,
    keeping: &mut Keeping,
    store: &mut S,
    electronics: &mut L,
    packet: &mut Packet,
    most: u64,
) -> Taken
    requires outbox { outbox.old ≡ [] }
    requires none { keeping.old.held ≡ [] }
    requires some { 0 < most }
    ensures taken { TakesIn result.is_due device.old device.new (E.state end.old) (E.state end.new)
        (L.state electronics.old) (L.state electronics.new) keeping.old keeping.new result.report }
    ensures store { S.state store.new ≡ S.state store.old }
    ensures turns { result.report.turns ≡ result.turns }
    ensures most { result.turns ≤ most }
    ensures few { result.turns ≤ 64 }
    ensures some { result.is_closed ≡ false → 0 < result.turns }
    ensures closed { IsTrue result.is_closed → IsTrue (E.state end.new).closed }
    ensures receives { (E.state end.new).receives < last_u64 →
        (E.state end.new).receives ≡ (E.state end.old).receives
        + (if result.is_closed then result.turns + 1 else result.turns) }
    ensures fewer { IsTrue result.is_closed → result.turns < most }
    ensures outbox { outbox.new ≡ [] }
{
    let mut taken = Taken {
        report: nothing(),
        turns: 0,
        is_due: false,
        is_closed: false,
    };
    for _turn in 0..most.min(MOST_TURNS) {
        let wait = !taken.is_due;
        match take_turn(
            device,
            end,
            outbox,
            keeping,
            store,
            electronics,
            packet,
            wait,
        ) {
            Some(turn) => {
                taken = more(taken, turn);
                if !goes_on(taken, turn, keeping) {
                    return taken;
                }
            }
            None => {
                return Taken {
                    is_closed: true,
                    ..taken
                };
            }
        }
    }
    taken
}

/// What was taken in, and a turn more.
fn more(taken: Taken, turn: Turn) -> Taken
    requires few { taken.turns < 64 }
    ensures report { result.report ≡ capped (added taken.report turn.report) }
    ensures turns { result.turns ≡ taken.turns + 1 }
    ensures same { taken.report.turns ≡ taken.turns → turn.report.turns ≡ 1 → result.report.turns ≡ result.turns }
    ensures due { result.is_due ≡ (taken.is_due || turn.waits) }
    ensures closed { result.is_closed ≡ taken.is_closed }
{
    Taken {
        report: taken.report + turn.report,
        turns: taken.turns + 1,
        is_due: taken.is_due || turn.waits,
        is_closed: taken.is_closed,
    }
}

/// Whether more is taken in behind a turn: while answers wait, datagrams come and there is room for the answers to one.
fn goes_on(taken: Taken, turn: Turn, keeping: &Keeping) -> bool
    ensures { IsTrue result → length keeping.now.held ≤ 244 }
{
    taken.is_due && turn.is_datagram && keeping.has_room()
}

/// What a turn did, whether the answers to its datagram wait, and whether it had one.
#[derive(Clone, Copy)]
struct Turn {
    report: Report,
    waits: bool,
    is_datagram: bool,
}

/// Receives once, and does what there is to do. Returns what it did, or nothing at Closed.
fn take_turn<E: End, S: Store, L: Electronics>(
    device: &mut Device,
    end: &mut E,
    outbox: &mut Outbox,
    keeping: &mut Keeping,
    store: &mut S,
    electronics: &mut L,
    packet: &mut Packet,
    wait: bool,
) -> Option<Turn>
    requires outbox { outbox.old ≡ [] }
    requires room { length keeping.old.held ≤ 244 }
    ensures turn { TakesOneIn device.old device.new (E.state end.old) (E.state end.new) (L.state electronics.old)
        (L.state electronics.new) keeping.old keeping.new result }
    ensures one { IfSome result (λ turn. turn.report.turns ≡ 1) }
    ensures receives { (E.state end.new).receives ≡ one_more (E.state end.old).receives }
    ensures store { S.state store.new ≡ S.state store.old }
    ensures outbox { outbox.new ≡ [] }
{
    match hear(end, packet, wait) {
        Heard::Datagram { from, now } => {
            let turn = take_datagram(device, end, outbox, keeping, electronics, from, packet, now);
            let heard = Heard::Datagram { from, now };
            store.tell(heard, packet.as_slice(), outbox, &turn.report, device);
            outbox.clear();
            Some(turn)
        }
        Heard::Quiet { now } => {
            device.tick(now);
            let report = quiet_turn();
            store.tell(Heard::Quiet { now }, &[], outbox, &report, device);
            Some(Turn {
                report,
                waits: false,
                is_datagram: false,
            })
        }
        Heard::Oversize { now } => {
            device.tick(now);
            let report = oversize_turn();
            store.tell(Heard::Oversize { now }, &[], outbox, &report, device);
            Some(Turn {
                report,
                waits: false,
                is_datagram: false,
            })
        }
        Heard::Failed => {
            let report = failed_turn();
            store.tell(Heard::Failed, &[], outbox, &report, device);
            Some(Turn {
                report,
                waits: false,
                is_datagram: false,
            })
        }
        Heard::Closed => None,
    }
}

/// Receives once: waits as the end does, or takes only what is there, where the end keeps time.
fn hear<E: End>(end: &mut E, packet: &mut Packet, wait: bool) -> Heard
    ensures { Receives result packet.new.items (E.state end.old) (E.state end.new) }
{
    if wait {
        end.receive(packet)
    } else {
        let now = end.now();
        end.receive_by(packet, now)
    }
}

/// Serves a datagram: its answers are in the outbox, and are sent or wait.
fn take_datagram<E: End, L: Electronics>(
    device: &mut Device,
    end: &mut E,
    outbox: &mut Outbox,
    keeping: &mut Keeping,
    electronics: &mut L,
    from: Peer,
    packet: &Packet,
    now: u64,
) -> Turn
    requires room { length keeping.old.held ≤ 244 }
    ensures turn { TakesDatagramIn result from packet.now.items now device.old device.new (E.state end.old)
        (E.state end.new) (L.state electronics.old) (L.state electronics.new) keeping.old keeping.new }
    ensures receives { (E.state end.new).receives ≡ (E.state end.old).receives }
{
    let verdict = device.datagram(from, packet.as_slice(), now, outbox);
    let report = of_verdict(verdict);
    let wrote = has_written(device);
    let waits = keeping.note(wrote, report.kept);
    let failed_sends = send_or_hold(end, keeping, waits, from, outbox);
    electronics.follow(device.tree(), device.written());
    Turn {
        report: Report {
            failed_sends,
            ..report
        },
        waits,
        is_datagram: true,
    }
}

/// Whether the last datagram wrote to an object.
fn has_written(device: &Device) -> bool
    ensures { result ≡ not (length device.now.written == 0) }
{
    !device.written().is_empty()
}

/// Sends the answers to a datagram, or holds them back where they wait. Returns how many sends failed.
#[tactic(auto, using(crate::proofs::Keepings::nothing_sent, crate::proofs::Keepings::none_if_true))]
fn send_or_hold<E: End>(
    end: &mut E,
    keeping: &mut Keeping,
    waits: bool,
    to: Peer,
    outbox: &Outbox,
) -> u64
    requires room { length keeping.old.held ≤ 244 }
    ensures sends { SendsAllBut result (E.state end.old) (E.state end.new)
        (if waits then [] else sent_to to outbox.now) }
    ensures held { keeping.new.held ≡ keeping.old.held ++ (if waits then sent_to to outbox.now else []) }
    ensures behind { keeping.new.is_behind ≡ keeping.old.is_behind }
{
    if waits {
        keeping.hold(to, outbox);
        0
    } else {
        send_all(end, to, outbox)
    }
}
