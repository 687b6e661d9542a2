//! What the device behind a handle tells.
ghost use Rattle.std.specs.Prelude.{◌≡◌, ◌⊎◌, None, IfSome, IfNone, IsSome, length, slice_get};
ghost use Rattle.oca_tree.specs.Readers.{failing_at, info_at, info_of_ono, lock_at, setting_at};
ghost use Rattle.oca_device.specs.States.{known_after, state_after};
ghost use Rattle.oca_device.specs.Effects.{effects};
ghost use Rattle.oca_device.specs.Written.{written};
ghost use Rattle.oca_calls.specs.declared.answer.Answer.TheVariants.{Done, NotStarted, Nothing, TooSmall};
ghost use Rattle.oca_calls.specs.Numbers.{answer_number};
ghost use Rattle.oca_calls.specs.CSpecs.{WritesSpec};
ghost use Rattle.oca_calls.specs.Outputs.{WritesEffect, WritesFailing, WritesLock, WritesNextLapse, WritesObject};
ghost use Rattle.oca_calls.specs.Outputs.{WritesPeer, WritesSetting, WritesToBuffer, WritesWords};
ghost use Rattle.oca_calls.specs.Calls.{WhateverRunsBehind};

use super::DeviceBehind;
use crate::answer::Answer;
use crate::reading::Reading;
use crate::spec_reading::{read_spec, read_spec_of};
use crate::spec_words::SpecWords;
use crate::words::{effect_words, lock_number, object_words, put_bytes, put_numbers, put_words};
use oca_types::Ono;

impl DeviceBehind {
    /// Writes to `moment` the earliest moment at which [`tick`](DeviceBehind::tick) would release a lock or forget a
    /// session, in milliseconds of the caller's clock.
    pub fn next_lapse(&self, moment: &mut u64) -> Answer
        ensures writes { WhateverRunsBehind self.now (λ r w T E.
            WritesNextLapse w (state_after w T E) moment.new (answer_number result)) }
        ensures building { self.now.device ≡ None → result ≡ NotStarted }
        ensures unwritten { (result ≡ Done) ⊎ (moment.new ≡ moment.old) }
    {
        let Some(device) = &self.device else {
            return Answer::NotStarted;
        };
        match device.next_lapse() {
            Some(lapse) => {
                *moment = lapse;
                Answer::Done
            }
            None => Answer::Nothing,
        }
    }

    /// Writes to `count` how many packets answer the last datagram: 0 to 122, and 0 before the first datagram.
    pub fn packets(&self, count: &mut usize) -> Answer
        ensures writes { IsSome self.now.device → (result ≡ Done) × (count.new ≡ length self.now.outbox.packets) }
        ensures building { self.now.device ≡ None → (result ≡ NotStarted) × (count.new ≡ count.old) }
    {
        if self.device.is_none() {
            return Answer::NotStarted;
        }
        *count = self.outbox.packets().len();
        Answer::Done
    }

    /// Writes to `left_out` whether answers to the last datagram were left out because there was no room for them.
    pub fn left_out(&self, left_out: &mut bool) -> Answer
        ensures writes { IsSome self.now.device → (result ≡ Done) × (left_out.new ≡ self.now.outbox.is_cut) }
        ensures building { self.now.device ≡ None → (result ≡ NotStarted) × (left_out.new ≡ left_out.old) }
    {
        if self.device.is_none() {
            return Answer::NotStarted;
        }
        *left_out = self.outbox.is_cut();
        Answer::Done
    }

    /// Copies the packet with the index `i`, counted from 0, to the front of `out`, and writes its size, at most 1,472
    /// bytes, to `len`.
    pub fn packet(&self, i: usize, out: &mut [u8], len: &mut usize) -> Answer
        ensures nothing { IsSome self.now.device → IfNone (slice_get self.now.outbox.packets i) (result ≡ Nothing) }
        ensures packet { IsSome self.now.device →
            IfSome (slice_get self.now.outbox.packets i)
            (λ p. WritesToBuffer p out.old out.new len.new (answer_number result)) }
        ensures building { self.now.device ≡ None → result ≡ NotStarted }
        ensures unwritten { (result ≡ Done) ⊎ (out.new ≡ out.old) }
        ensures untold { (result ≡ Done) ⊎ ((result ≡ TooSmall) ⊎ (len.new ≡ len.old)) }
    {
        if self.device.is_none() {
            return Answer::NotStarted;
        }
        let Some(packet) = self.outbox.get(i) else {
            return Answer::Nothing;
        };
        put_bytes(packet.as_slice(), out, len)
    }

    /// Copies the numbers of the objects that the last datagram wrote to to the front of `out`, in order, each as often
    /// as it was written.
    pub fn written(&self, out: &mut [u32], count: &mut usize) -> Answer
        ensures writes { WhateverRunsBehind self.now (λ r w T E.
            WritesWords (written w T E) out.old out.new count.new (answer_number result)) }
        ensures building { self.now.device ≡ None → result ≡ NotStarted }
        ensures unwritten { (result ≡ Done)
            ⊎ ((result ≡ TooSmall) ⊎ ((out.new ≡ out.old) × (count.new ≡ count.old))) }
    {
        let Some(device) = &self.device else {
            return Answer::NotStarted;
        };
        let written = device.written();
        put_numbers(written, out);
        *count = written.len();
        if written.len() <= out.len() {
            Answer::Done
        } else {
            Answer::TooSmall
        }
    }

    /// Writes what the device did with the command of the last datagram that has this index, counted from 0.
    pub fn effect(&self, index: usize, out: &mut [u32]) -> Answer
        ensures writes { WhateverRunsBehind self.now (λ r w T E.
            WritesEffect (slice_get (effects w T E) index) out.old out.new (answer_number result)) }
        ensures building { self.now.device ≡ None → result ≡ NotStarted }
        ensures unwritten { (result ≡ Done) ⊎ (out.new ≡ out.old) }
    {
        let Some(device) = &self.device else {
            return Answer::NotStarted;
        };
        let Some(&effect) = device.effects().get(index) else {
            return Answer::Nothing;
        };
        put_words(&effect_words(effect), out);
        Answer::Done
    }

    /// Writes to `waits` whether the answers to the last datagram must wait until the objects are stored.
    pub fn waits(&self, waits: &mut bool) -> Answer
        ensures writes { IsSome self.now.device → (result ≡ Done) × (waits.new ≡ self.now.unstored.waits) }
        ensures building { self.now.device ≡ None → (result ≡ NotStarted) × (waits.new ≡ waits.old) }
    {
        if self.device.is_none() {
            return Answer::NotStarted;
        }
        *waits = self.unstored.waits;
        Answer::Done
    }

    /// Writes to `count` how many objects the device has, the root counted: 1 to 4,096.
    pub fn objects(&self, count: &mut usize) -> Answer
        ensures writes { WhateverRunsBehind self.now (λ r w T E.
            (result ≡ Done) × (count.new ≡ length (state_after w T E).tree)) }
        ensures building { self.now.device ≡ None → result ≡ NotStarted }
        ensures unwritten { (result ≡ Done) ⊎ (count.new ≡ count.old) }
    {
        let Some(device) = &self.device else {
            return Answer::NotStarted;
        };
        *count = device.tree().len();
        Answer::Done
    }

    /// Writes what the object with this index is.
    pub fn object(&self, index: usize, out: &mut [u32], role: &mut [u8]) -> Answer
        ensures writes { WhateverRunsBehind self.now (λ r w T E.
            WritesObject (info_at (state_after w T E).tree index) out.old out.new role.old role.new
            (answer_number result)) }
        ensures building { self.now.device ≡ None → result ≡ NotStarted }
        ensures unwritten { (result ≡ Done) ⊎ ((out.new ≡ out.old) × (role.new ≡ role.old)) }
    {
        let Some(device) = &self.device else {
            return Answer::NotStarted;
        };
        let Some(object) = device.tree().object_at(index) else {
            return Answer::Nothing;
        };
        put_words(&object_words(&object), out);
        put_words(object.role.as_str().as_bytes(), role);
        Answer::Done
    }

    /// Writes to `out` the description of the object with this index, by which it can be added again.
    pub fn spec(&self, index: usize, out: &mut SpecWords) -> Answer
        ensures writes { WhateverRunsBehind self.now (λ r w T E.
            WritesSpec (state_after w T E).tree (info_at (state_after w T E).tree index) out.old out.new
            (answer_number result)) }
        ensures building { self.now.device ≡ None → (result ≡ NotStarted) × (out.new ≡ out.old) }
        ensures unwritten { (result ≡ Done) ⊎ (out.new ≡ out.old) }
    {
        let Some(device) = &self.device else {
            return Answer::NotStarted;
        };
        read_spec(device.tree(), index, out)
    }

    /// Writes to `out` the description of the object with the number `ono`, by which it can be added again.
    pub fn spec_of(&self, ono: u32, out: &mut SpecWords) -> Answer
        ensures writes { WhateverRunsBehind self.now (λ r w T E.
            WritesSpec (state_after w T E).tree (info_of_ono (state_after w T E).tree ono) out.old out.new
            (answer_number result)) }
        ensures building { self.now.device ≡ None → (result ≡ NotStarted) × (out.new ≡ out.old) }
        ensures unwritten { (result ≡ Done) ⊎ (out.new ≡ out.old) }
    {
        let Some(device) = &self.device else {
            return Answer::NotStarted;
        };
        read_spec_of(device.tree(), Ono(ono), out)
    }

    /// Writes to `count` how many peers have a session: 0 to 64.
    pub fn peers(&self, count: &mut usize) -> Answer
        ensures writes { WhateverRunsBehind self.now (λ r w T E.
            (result ≡ Done) × (count.new ≡ length (known_after (state_after w T E)))) }
        ensures building { self.now.device ≡ None → result ≡ NotStarted }
        ensures unwritten { (result ≡ Done) ⊎ (count.new ≡ count.old) }
    {
        let Some(device) = &self.device else {
            return Answer::NotStarted;
        };
        *count = device.sessions();
        Answer::Done
    }

    /// Writes the address and the port of a peer that has a session to `ip` (an IPv4 address as a number, the first
    /// byte highest) and `port`.
    pub fn peer(&self, index: usize, ip: &mut u32, port: &mut u16) -> Answer
        ensures writes { WhateverRunsBehind self.now (λ r w T E.
            WritesPeer (slice_get (known_after (state_after w T E)) index) ip.new port.new (answer_number result)) }
        ensures building { self.now.device ≡ None → result ≡ NotStarted }
        ensures unwritten { (result ≡ Done) ⊎ ((ip.new ≡ ip.old) × (port.new ≡ port.old)) }
    {
        let Some(device) = &self.device else {
            return Answer::NotStarted;
        };
        let Some(peer) = device.peer_at(index) else {
            return Answer::Nothing;
        };
        *ip = peer.ip;
        *port = peer.port;
        Answer::Done
    }

    /// Writes what lock an object has to `kind`, and the address and the port of the peer that has it to `ip` (an IPv4
    /// address as a number, the first byte highest) and `port`.
    pub fn lock(&self, ono: u32, kind: &mut u32, ip: &mut u32, port: &mut u16) -> Answer
        ensures writes { WhateverRunsBehind self.now (λ r w T E.
            WritesLock (lock_at (state_after w T E).tree ono) kind.new ip.new port.new (answer_number result)) }
        ensures building { self.now.device ≡ None → result ≡ NotStarted }
        ensures unwritten { (result ≡ Done) ⊎ ((kind.new ≡ kind.old) × (ip.new ≡ ip.old) × (port.new ≡ port.old)) }
    {
        let Some(device) = &self.device else {
            return Answer::NotStarted;
        };
        let Some(lock) = device.tree().lock_of(Ono(ono)) else {
            return Answer::Nothing;
        };
        *kind = lock_number(lock.kind);
        *ip = lock.holder.ip;
        *port = lock.holder.port;
        Answer::Done
    }

    /// Writes to `failing` whether the hardware of an object refuses changes, as
    /// [`set_failing`](DeviceBehind::set_failing) last set it.
    pub fn is_failing(&self, ono: u32, failing: &mut bool) -> Answer
        ensures writes { WhateverRunsBehind self.now (λ r w T E.
            WritesFailing (failing_at (state_after w T E).tree ono) failing.new (answer_number result)) }
        ensures building { self.now.device ≡ None → result ≡ NotStarted }
        ensures unwritten { (result ≡ Done) ⊎ (failing.new ≡ failing.old) }
    {
        let Some(device) = &self.device else {
            return Answer::NotStarted;
        };
        let Some(truth) = device.is_failing(Ono(ono)) else {
            return Answer::NoObject;
        };
        *failing = truth;
        Answer::Done
    }

    /// Writes to `reading` how the object `ono` is set, without limits.
    pub fn reading(&self, ono: u32, reading: &mut Reading) -> Answer
        ensures writes { WhateverRunsBehind self.now (λ r w T E.
            WritesSetting (setting_at (state_after w T E).tree ono) reading.new (answer_number result)) }
        ensures building { self.now.device ≡ None → result ≡ NotStarted }
        ensures unwritten { (result ≡ Done) ⊎ (reading.new ≡ reading.old) }
    {
        let Some(device) = &self.device else {
            return Answer::NotStarted;
        };
        let Some(setting) = device.tree().setting_of(Ono(ono)) else {
            return Answer::Nothing;
        };
        let Some(out) = Reading::of(setting) else {
            return Answer::TooSmall;
        };
        *reading = out;
        Answer::Done
    }
}
