//! A device of either size.
ghost use Rattle.std.specs.Prelude.{◌≡◌, ◌≤◌, ◌∷◌, [], true, false, IfOk, MatchOption, length, slice_get};
ghost use Rattle.std.specs.Result.{result_err};
ghost use Rattle.oca_types.specs.Sizes.{sizes_of};
ghost use Rattle.oca_pdu.specs.Limits.{most_answered};
ghost use Rattle.oca_tree.specs.LocalChanges.{front_fault, ToValue, ToLabel, ToEnabled, ToUnlocked, ToFailing};
ghost use Rattle.oca_tree.specs.Readers.{failing_at};
ghost use Rattle.oca_tree.specs.Settings.{set_fault};
ghost use Rattle.oca_model.specs.declared.request.Request.TheVariants as asked;
ghost use Rattle.oca_device.specs.Effects.{effects};
ghost use Rattle.oca_device.specs.Events.{Datagram as DatagramEvent, Tick, Local};
ghost use Rattle.oca_device.specs.Outboxes.{first_packets};
ghost use Rattle.oca_device.specs.Rooms.{packets_within, told, verdict_within};
ghost use Rattle.oca_device.specs.States.{known_after, state_after};
ghost use Rattle.oca_device.specs.Written.{numbers_of, written};
ghost use Rattle.oca_device.specs.Lapses.{IsNextLapse, NeverLapses};
ghost use Rattle.oca_calls.specs.LinkRooms.{rooms_of};
ghost use Rattle.oca_calls.specs.DeviceRooms.{AppendsWithin, RunsWithin, WhateverItRuns};

use oca_device::{BoundedOutbox, Device, Effect, SmallDevice, Verdict};
use oca_tree::{FrontFault, SetFault, Tree, Value};
use oca_types::{NoMemory, Ono, Peer, Sizes};
use std::alloc::Global;
use std::marker::Model;

/// A device of the full size, or a small one.
#[derive(Drop)]
enum EitherSize {
    Full(Device),
    Small(SmallDevice),
}

/// A device as the calls for C have it once it is started. It has room for each command and each reply ([`Device`]), or
/// it is small ([`SmallDevice`]): for commands with 64 bytes of parameters, and replies with 264.
#[derive(Drop)]
pub struct AnyDevice {
    device: EitherSize,
}

impl Model for AnyDevice {
    ghost use Rattle.oca_calls.specs.DeviceRooms.{RoomedDevice, roomed_device};

    ghost Value = { RoomedDevice };

    ghost view = { λ d. roomed_device d.device };
}

impl AnyDevice {
    /// Makes a device of the objects in `tree`, with the sizes in `sizes`: a small one if `is_small` is true, and
    /// otherwise one with room for each command and each reply. No peer has a session yet, and the device's clock is
    /// at 0. Refusal: `NoMemory` if the memory for its sessions is refused; the objects are then lost.
    pub fn with_sizes(
        alloc: Global,
        tree: Tree,
        sizes: Sizes,
        is_small: bool,
    ) -> Result<AnyDevice, NoMemory>
        ensures { IfOk result (λ d. RunsWithin (rooms_of is_small) (sizes_of sizes) d tree []) }
    {
        if is_small {
            small(alloc, tree, sizes)
        } else {
            full(alloc, tree, sizes)
        }
    }

    /// Handles a datagram as [`Device::datagram_within`] or [`SmallDevice::datagram_within`](oca_device::DeviceOf)
    /// does, with the rooms of this device.
    pub fn datagram_within(
        &mut self,
        from: Peer,
        bytes: &[u8],
        now: u64,
        outbox: &mut BoundedOutbox,
    ) -> Verdict
        ensures serves { WhateverItRuns self.old (λ r w T E.
            RunsWithin r w self.new T (DatagramEvent from (told r.command bytes.now) now ∷ E)) }
        ensures packets { WhateverItRuns self.old (λ r w T E. outbox.new ≡ first_packets outbox.old.room
            (packets_within r.answer w T E (DatagramEvent from (told r.command bytes.now) now))) }
        ensures few { WhateverItRuns self.old (λ r w T E.
            length (packets_within r.answer w T E (DatagramEvent from (told r.command bytes.now) now)) ≤
            most_answered) }
        ensures verdict { WhateverItRuns self.old (λ r w T E.
            result ≡ verdict_within r.command w T E from bytes.now now) }
    {
        match &mut self.device {
            EitherSize::Full(device) => device.datagram_within(from, bytes, now, outbox),
            EitherSize::Small(device) => device.datagram_within(from, bytes, now, outbox),
        }
    }

    /// Moves the device's clock on, as [`Device::tick`] does.
    pub fn tick(&mut self, now: u64)
        ensures { AppendsWithin self.old self.new (Tick now) }
    {
        match &mut self.device {
            EitherSize::Full(device) => device.tick(now),
            EitherSize::Small(device) => device.tick(now),
        }
    }

    /// Returns the moment at which a lock or a session lapses next, as [`Device::next_lapse`] does.
    pub fn next_lapse(&self) -> Option<u64>
        ensures { WhateverItRuns self.now (λ r w T E.
            MatchOption result (NeverLapses w (state_after w T E)) (λ t. IsNextLapse w (state_after w T E) t)) }
    {
        match &self.device {
            EitherSize::Full(device) => device.next_lapse(),
            EitherSize::Small(device) => device.next_lapse(),
        }
    }

    /// Sets an object to a value at the local front panel, as [`Device::set`] does.
    pub fn set(&mut self, ono: Ono, value: Value) -> Result<(), SetFault>
        ensures represents { AppendsWithin self.old self.new (Local ono.0 (ToValue value)) }
        ensures fault { WhateverItRuns self.old (λ r w T E.
            result_err result ≡ set_fault (state_after w T E).tree ono.0 value) }
    {
        match &mut self.device {
            EitherSize::Full(device) => device.set(ono, value),
            EitherSize::Small(device) => device.set(ono, value),
        }
    }

    /// Gives an object a label at the local front panel, as [`Device::set_label`] does.
    pub fn set_label(&mut self, ono: Ono, label: &str) -> Result<(), FrontFault>
        ensures represents { AppendsWithin self.old self.new (Local ono.0 (ToLabel label.now)) }
        ensures fault { WhateverItRuns self.old (λ r w T E.
            result_err result ≡ front_fault (state_after w T E).tree ono.0 (asked.SetLabel label.now)) }
    {
        match &mut self.device {
            EitherSize::Full(device) => device.set_label(ono, label),
            EitherSize::Small(device) => device.set_label(ono, label),
        }
    }

    /// Enables or disables an object at the local front panel, as [`Device::set_enabled`] does.
    pub fn set_enabled(&mut self, ono: Ono, enabled: bool) -> Result<(), FrontFault>
        ensures represents { AppendsWithin self.old self.new (Local ono.0 (ToEnabled enabled)) }
        ensures fault { WhateverItRuns self.old (λ r w T E.
            result_err result ≡ front_fault (state_after w T E).tree ono.0 (asked.SetEnabled enabled)) }
    {
        match &mut self.device {
            EitherSize::Full(device) => device.set_enabled(ono, enabled),
            EitherSize::Small(device) => device.set_enabled(ono, enabled),
        }
    }

    /// Releases the lock of an object at the local front panel, as [`Device::unlock`] does.
    pub fn unlock(&mut self, ono: Ono) -> Result<(), FrontFault>
        ensures represents { AppendsWithin self.old self.new (Local ono.0 ToUnlocked) }
        ensures fault { WhateverItRuns self.old (λ r w T E.
            result_err result ≡ front_fault (state_after w T E).tree ono.0 asked.Unlock) }
    {
        match &mut self.device {
            EitherSize::Full(device) => device.unlock(ono),
            EitherSize::Small(device) => device.unlock(ono),
        }
    }

    /// Sets whether the hardware of an object refuses changes, as [`Device::set_failing`] does.
    pub fn set_failing(&mut self, ono: Ono, failing: bool) -> Result<(), FrontFault>
        ensures represents { AppendsWithin self.old self.new (Local ono.0 (ToFailing failing)) }
        ensures fault { WhateverItRuns self.old (λ r w T E.
            result_err result ≡ front_fault (state_after w T E).tree ono.0 (asked.SetEnabled failing)) }
    {
        match &mut self.device {
            EitherSize::Full(device) => device.set_failing(ono, failing),
            EitherSize::Small(device) => device.set_failing(ono, failing),
        }
    }

    /// Whether the hardware of an object refuses changes, as [`Device::is_failing`] tells.
    pub fn is_failing(&self, ono: Ono) -> Option<bool>
        ensures { WhateverItRuns self.now (λ r w T E. result ≡ failing_at (state_after w T E).tree ono.0) }
    {
        match &self.device {
            EitherSize::Full(device) => device.is_failing(ono),
            EitherSize::Small(device) => device.is_failing(ono),
        }
    }

    /// Returns a reference to the objects as they are now.
    pub fn tree(&self) -> &Tree
        ensures { WhateverItRuns self.now (λ r w T E. result.now ≡ (state_after w T E).tree) }
    {
        match &self.device {
            EitherSize::Full(device) => device.tree(),
            EitherSize::Small(device) => device.tree(),
        }
    }

    /// How many peers have a session: 0 to 64.
    pub fn sessions(&self) -> usize
        ensures { WhateverItRuns self.now (λ r w T E. result ≡ length (known_after (state_after w T E))) }
    {
        match &self.device {
            EitherSize::Full(device) => device.sessions(),
            EitherSize::Small(device) => device.sessions(),
        }
    }

    /// The peer of the session with the index `index`, as [`Device::peer_at`] tells.
    pub fn peer_at(&self, index: usize) -> Option<Peer>
        ensures { WhateverItRuns self.now (λ r w T E. result ≡ slice_get (known_after (state_after w T E)) index) }
    {
        match &self.device {
            EitherSize::Full(device) => device.peer_at(index),
            EitherSize::Small(device) => device.peer_at(index),
        }
    }

    /// The numbers of the objects that the last datagram wrote to, as [`Device::written`] tells.
    pub fn written(&self) -> &[Ono]
        ensures written { numbers_of result.now ≡ self.now.device.written }
        ensures represented { WhateverItRuns self.now (λ r w T E. numbers_of result.now ≡ written w T E) }
    {
        match &self.device {
            EitherSize::Full(device) => device.written(),
            EitherSize::Small(device) => device.written(),
        }
    }

    /// What the device did with each command of the last datagram, as [`Device::effects`] tells.
    pub fn effects(&self) -> &[Effect]
        ensures { WhateverItRuns self.now (λ r w T E. result.now ≡ effects w T E) }
    {
        match &self.device {
            EitherSize::Full(device) => device.effects(),
            EitherSize::Small(device) => device.effects(),
        }
    }
}

/// A device with room for each command and each reply.
fn full(alloc: Global, tree: Tree, sizes: Sizes) -> Result<AnyDevice, NoMemory>
    ensures { IfOk result (λ d. RunsWithin (rooms_of false) (sizes_of sizes) d tree []) }
{
    match Device::with_sizes(alloc, tree, sizes) {
        Ok(device) => Ok(AnyDevice {
            device: EitherSize::Full(device),
        }),
        Err(refused) => Err(refused),
    }
}

/// A small device.
fn small(alloc: Global, tree: Tree, sizes: Sizes) -> Result<AnyDevice, NoMemory>
    ensures { IfOk result (λ d. RunsWithin (rooms_of true) (sizes_of sizes) d tree []) }
{
    match SmallDevice::with_sizes(alloc, tree, sizes) {
        Ok(device) => Ok(AnyDevice {
            device: EitherSize::Small(device),
        }),
        Err(refused) => Err(refused),
    }
}
