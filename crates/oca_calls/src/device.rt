//! What is behind an open handle of a device.
ghost use Rattle.std.specs.Prelude.{◌≡◌, ◌⊎◌, ◌≤◌, ◌∷◌, [], Some, None, IfErr, IfOk, IfSome, IfNone, IsSome};
ghost use Rattle.std.specs.Prelude.{IsTrue, ◌↔◌, length};
ghost use Rattle.oca_types.specs.Sizes.{peer_count, window_size};
ghost use Rattle.oca_tree.specs.Objects.{Store};
ghost use Rattle.oca_device.specs.Events.{Datagram as DatagramEvent, Tick};
ghost use Rattle.oca_device.specs.Rooms.{packets_within, told, verdict_within};
ghost use Rattle.oca_device.specs.Outboxes.{first_packets};
ghost use Rattle.oca_calls.specs.declared.answer.Answer.TheVariants.{Done, NotStarted, Started};
ghost use Rattle.oca_calls.specs.declared.answer.Answer.TheVariants.{NoMemory as AnswerNoMemory};
ghost use Rattle.oca_calls.specs.Calls.{Builds, IsPacketRoom, IsSize};
ghost use Rattle.oca_calls.specs.Calls.{RunsBehind, Starts, WhateverRunsBehind};
ghost use Rattle.oca_calls.specs.CSpecs.{SpecAddedBy};
ghost use Rattle.oca_calls.specs.Outputs.{put_words, verdict_words};
ghost use Rattle.oca_calls.specs.Storings.{all_stored};
ghost use Rattle.oca_calls.specs.WaitingAnswers.{unstored_behind};
ghost use Rattle.oca_calls.specs.LinkRooms.{rooms_of};

use crate::answer::Answer;
use crate::any_device::AnyDevice;
use crate::spec_adding::add_spec;
use crate::spec_words::SpecWords;
use crate::unstored::{Unstored, duplicates_in, has_written};
use crate::words::{put_words, words_of};
use oca_device::BoundedOutbox;
use oca_tree::TreeBuilder;
use oca_types::{NoMemory, Peer, Peers, Sizes, Window};
use std::alloc::Global;

mod local;
mod outputs;

/// The most packets that answer one datagram: 122.
pub const MOST_PACKETS: usize = 122;

/// A device as the calls for C have it: the objects before its start, the device after it, the packets that answer the
/// last datagram, and whether something that datagrams wrote is not stored. What its functions take and answer is
/// said of the calls of C in `include/oca.h` (`peers` is that of `oca_device_peers`).
#[derive(Drop)]
pub struct DeviceBehind {
    builder: Option<TreeBuilder>,
    device: Option<AnyDevice>,
    outbox: BoundedOutbox,
    unstored: Unstored,
}

impl DeviceBehind {
    /// Makes a device that is not started, with the objects of this builder. `outbox` has its packets until the start.
    /// Nothing waits to be stored. The call takes no memory.
    pub fn over(builder: TreeBuilder, outbox: BoundedOutbox) -> DeviceBehind
        ensures { Builds result builder }
    {
        DeviceBehind {
            builder: Some(builder),
            device: None,
            outbox,
            unstored: Unstored::none(),
        }
    }

    /// Adds the object that `words` describe, under the number `ono`, to the block with the number `container`, before
    /// the start.
    pub fn add_spec(&mut self, container: u32, ono: u32, words: &SpecWords) -> Answer
        ensures adds { (B : Store) → Builds self.old B →
            (B' : Store) × Builds self.new B' × SpecAddedBy result B B' container ono words.now }
        ensures started { self.old.builder ≡ None → (result ≡ Started) × (self.new ≡ self.old) }
    {
        let Some(builder) = &mut self.builder else {
            return Answer::Started;
        };
        add_spec(builder, container, ono, words)
    }

    /// Starts the device with the objects that were added: a small one if `is_small` is true
    /// ([`SmallDevice`](oca_device::SmallDevice)), and otherwise one with room for each command and each reply.
    pub fn start(
        &mut self,
        alloc: Global,
        window: u8,
        peers: u8,
        packets: usize,
        is_small: bool,
    ) -> Answer
        ensures starts { (B : Store) → Builds self.old B →
            Starts result self.old self.new (rooms_of is_small) window peers packets B.list }
        ensures started { self.old.builder ≡ None → (result ≡ Started) × (self.new ≡ self.old) }
    {
        if self.builder.is_none() {
            return Answer::Started;
        }
        match sizes_for(window, peers, packets) {
            Some(sizes) => self.start_with(alloc, sizes, packets, is_small),
            None => Answer::BadSize,
        }
    }

    /// Makes the device of the objects, where these are sizes.
    fn start_with(&mut self, alloc: Global, sizes: Sizes, packets: usize, is_small: bool) -> Answer
        requires { IsPacketRoom packets }
        ensures starts { (B : Store) → Builds self.old B →
            Starts result self.old self.new (rooms_of is_small) (window_size sizes.window) (peer_count sizes.peers)
            packets B.list }
        ensures started { self.old.builder ≡ None → (result ≡ Started) × (self.new ≡ self.old) }
    {
        match self.builder.take() {
            Some(builder) => self.start_over(alloc, builder, sizes, packets, is_small),
            None => Answer::Started,
        }
    }

    /// Makes the device of these objects, where there is room for the packets.
    fn start_over(
        &mut self,
        alloc: Global,
        builder: TreeBuilder,
        sizes: Sizes,
        packets: usize,
        is_small: bool,
    ) -> Answer
        requires { IsPacketRoom packets }
        ensures starts { self.old.builder ≡ None → self.old.device ≡ None →
            Starts result self.old self.new (rooms_of is_small) (window_size sizes.window) (peer_count sizes.peers)
            packets builder.list }
    {
        match room_for(alloc, packets) {
            Some(outbox) => self.run(
                outbox,
                AnyDevice::with_sizes(alloc, builder.finish(), sizes, is_small),
            ),
            None => Answer::NoMemory,
        }
    }

    /// Has this device, where memory was there for it, and its place for packets.
    fn run(&mut self, outbox: BoundedOutbox, device: Result<AnyDevice, NoMemory>) -> Answer
        ensures builder { self.new.builder ≡ self.old.builder }
        ensures done { IfOk device (λ device. (result ≡ Done) × (self.new.device ≡ Some device)
            × (self.new.outbox ≡ outbox) × (self.new.unstored ≡ all_stored)) }
        ensures refused { IfErr device (λ _. (result ≡ AnswerNoMemory) × (self.new.device ≡ self.old.device)) }
    {
        match device {
            Ok(device) => self.begin(outbox, device),
            Err(_) => Answer::NoMemory,
        }
    }

    /// Has this device and its place for packets: nothing waits to be stored.
    fn begin(&mut self, outbox: BoundedOutbox, device: AnyDevice) -> Answer
        ensures builder { self.new.builder ≡ self.old.builder }
        ensures done { (result ≡ Done) × (self.new.device ≡ Some device)
            × (self.new.outbox ≡ outbox) × (self.new.unstored ≡ all_stored) }
    {
        self.device = Some(device);
        self.outbox = outbox;
        self.unstored = Unstored::none();
        Answer::Done
    }

    /// Handles a datagram that came from a peer at the moment `now`, in milliseconds of the caller's clock, as
    /// [`Device::datagram_within`](oca_device::Device::datagram_within) does.
    pub fn datagram(&mut self, from: Peer, bytes: &[u8], now: u64, out: &mut [u32]) -> Answer
        ensures serves { WhateverRunsBehind self.old (λ r w T E.
            RunsBehind r w self.new T (DatagramEvent from (told r.command bytes.now) now ∷ E)
            × (self.new.outbox ≡ first_packets self.old.outbox.room
            (packets_within r.answer w T E (DatagramEvent from (told r.command bytes.now) now)))
            × (length (packets_within r.answer w T E (DatagramEvent from (told r.command bytes.now) now)) ≤ 122)
            × (out.new ≡ put_words (verdict_words (verdict_within r.command w T E from bytes.now now)) out.old)
            × (result ≡ Done)) }
        ensures unstored { WhateverRunsBehind self.old (λ r w T E.
            self.new.unstored ≡ unstored_behind self.old.unstored r.command w T E from bytes.now now) }
        ensures building { self.old.device ≡ None → (result ≡ NotStarted) × (self.new ≡ self.old) }
        ensures unwritten { (result ≡ Done) ⊎ (out.new ≡ out.old) }
    {
        let Some(device) = &mut self.device else {
            return Answer::NotStarted;
        };
        let verdict = device.datagram_within(from, bytes, now, &mut self.outbox);
        let wrote = has_written(device);
        self.unstored = self.unstored.after(wrote, duplicates_in(verdict));
        put_words(&words_of(verdict), out);
        Answer::Done
    }

    /// Moves the device's clock on to `now`, in milliseconds of the caller's clock.
    pub fn tick(&mut self, now: u64) -> Answer
        ensures serves { WhateverRunsBehind self.old (λ r w T E.
            RunsBehind r w self.new T (Tick now ∷ E) × (result ≡ Done)) }
        ensures packets { self.new.outbox ≡ self.old.outbox }
        ensures unstored { self.new.unstored ≡ self.old.unstored }
        ensures building { self.old.device ≡ None → (result ≡ NotStarted) × (self.new ≡ self.old) }
    {
        let Some(device) = &mut self.device else {
            return Answer::NotStarted;
        };
        device.tick(now);
        Answer::Done
    }

    /// Notes that the objects are stored as they are now: no answers wait then.
    pub fn stored(&mut self) -> Answer
        ensures notes { IsSome self.old.device → (result ≡ Done) × (self.new.unstored ≡ all_stored) }
        ensures building { self.old.device ≡ None → (result ≡ NotStarted) × (self.new ≡ self.old) }
        ensures device { self.new.device ≡ self.old.device }
        ensures builder { self.new.builder ≡ self.old.builder }
        ensures packets { self.new.outbox ≡ self.old.outbox }
    {
        if self.device.is_none() {
            return Answer::NotStarted;
        }
        let none = Unstored::none();
        self.unstored = none;
        Answer::Done
    }
}

/// The sizes of a window and of a number of peers, where both are one and there is a room for so many packets.
fn sizes_for(window: u8, peers: u8, packets: usize) -> Option<Sizes>
    ensures sizes { IfSome result (λ s. IsSize window × IsSize peers × IsPacketRoom packets
        × (window_size s.window ≡ window) × (peer_count s.peers ≡ peers)) }
    ensures none { IfNone result (IsSize window → IsSize peers → IsPacketRoom packets → ⊥) }
{
    if !is_packet_room(packets) {
        return None;
    }
    let window = Window::new(window)?;
    let peers = Peers::new(peers)?;
    Some(Sizes { window, peers })
}

/// Whether there can be room for so many packets: 1 to 122.
fn is_packet_room(packets: usize) -> bool
    ensures { IsTrue result ↔ IsPacketRoom packets }
{
    packets >= 1 && packets <= MOST_PACKETS
}

/// Makes an empty outbox with room for `packets` packets, some 1,480 bytes each, and takes the memory for them. `None`
/// if that memory was refused.
pub fn room_for(alloc: Global, packets: usize) -> Option<BoundedOutbox>
    ensures { IfSome result (λ outbox. outbox ≡ first_packets packets []) }
{
    match BoundedOutbox::with_room(alloc, packets) {
        Ok(outbox) => Some(outbox),
        Err(_) => None,
    }
}
