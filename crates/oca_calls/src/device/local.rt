//! Setting the objects of the device behind a handle at its local front panel.
ghost use Rattle.std.specs.Prelude.{◌≡◌, Option, None, IsSome, IsUtf8};
ghost use Rattle.oca_tree.specs.LocalChanges.{ToLabel, ToEnabled, ToUnlocked, ToFailing};
ghost use Rattle.oca_calls.specs.declared.answer.Answer.TheVariants.{NotStarted, BadText};
ghost use Rattle.oca_calls.specs.Calls.{WhateverRunsBehind};
ghost use Rattle.oca_model.specs.declared.value.Value.{Value as ValueItself};
ghost use Rattle.oca_model.specs.declared.request.Request.TheVariants as asked;
ghost use Rattle.oca_calls.specs.CValues.{AreWordsOf};
ghost use Rattle.oca_calls.specs.FrontCalls.{ChangesFront, SetsWords};

use super::DeviceBehind;
use crate::answer::Answer;
use crate::value_words::ValueWords;
use oca_types::Ono;
use std::str;

impl DeviceBehind {
    /// Sets an object at the local front panel to the value that `words` hold.
    pub fn set(&mut self, ono: u32, words: ValueWords) -> Answer
        ensures sets { WhateverRunsBehind self.old (λ r w T E.
            (value : Option ValueItself) × AreWordsOf words value × SetsWords r w result self.new T E ono value) }
        ensures packets { self.new.outbox ≡ self.old.outbox }
        ensures unstored { self.new.unstored ≡ self.old.unstored }
        ensures building { self.old.device ≡ None → (result ≡ NotStarted) × (self.new ≡ self.old) }
    {
        let Some(device) = &mut self.device else {
            return Answer::NotStarted;
        };
        let Some(value) = words.value() else {
            return Answer::NoValue;
        };
        match device.set(Ono(ono), value) {
            Ok(()) => Answer::Done,
            Err(fault) => Answer::of_set(fault),
        }
    }

    /// Gives an object a label of 0 to 64 bytes of UTF-8 at the local front panel.
    pub fn set_label(&mut self, ono: u32, label: &[u8]) -> Answer
        ensures labels { IsUtf8 label.now → WhateverRunsBehind self.old (λ r w T E.
            ChangesFront r w result self.new T E ono (ToLabel label.now) (asked.SetLabel label.now)) }
        ensures other { (IsUtf8 label.now → ⊥) → IsSome self.old.device →
            (result ≡ BadText) × (self.new ≡ self.old) }
        ensures packets { self.new.outbox ≡ self.old.outbox }
        ensures unstored { self.new.unstored ≡ self.old.unstored }
        ensures building { self.old.device ≡ None → (result ≡ NotStarted) × (self.new ≡ self.old) }
    {
        if self.device.is_none() {
            return Answer::NotStarted;
        }
        match str::from_utf8(label) {
            Ok(label) => self.give_label(ono, label),
            Err(_) => Answer::BadText,
        }
    }

    /// Gives an object this label, once the device is started.
    fn give_label(&mut self, ono: u32, label: &str) -> Answer
        ensures labels { WhateverRunsBehind self.old (λ r w T E.
            ChangesFront r w result self.new T E ono (ToLabel label.now) (asked.SetLabel label.now)) }
        ensures packets { self.new.outbox ≡ self.old.outbox }
        ensures unstored { self.new.unstored ≡ self.old.unstored }
    {
        let Some(device) = &mut self.device else {
            return Answer::NotStarted;
        };
        match device.set_label(Ono(ono), label) {
            Ok(()) => Answer::Done,
            Err(fault) => Answer::of_front(fault),
        }
    }

    /// Enables or disables an object at the local front panel.
    pub fn set_enabled(&mut self, ono: u32, enabled: bool) -> Answer
        ensures sets { WhateverRunsBehind self.old (λ r w T E.
            ChangesFront r w result self.new T E ono (ToEnabled enabled) (asked.SetEnabled enabled)) }
        ensures packets { self.new.outbox ≡ self.old.outbox }
        ensures unstored { self.new.unstored ≡ self.old.unstored }
        ensures building { self.old.device ≡ None → (result ≡ NotStarted) × (self.new ≡ self.old) }
    {
        let Some(device) = &mut self.device else {
            return Answer::NotStarted;
        };
        match device.set_enabled(Ono(ono), enabled) {
            Ok(()) => Answer::Done,
            Err(fault) => Answer::of_front(fault),
        }
    }

    /// Releases the lock of an object at the local front panel, whichever peer has it.
    pub fn unlock(&mut self, ono: u32) -> Answer
        ensures unlocks { WhateverRunsBehind self.old (λ r w T E.
            ChangesFront r w result self.new T E ono ToUnlocked asked.Unlock) }
        ensures packets { self.new.outbox ≡ self.old.outbox }
        ensures unstored { self.new.unstored ≡ self.old.unstored }
        ensures building { self.old.device ≡ None → (result ≡ NotStarted) × (self.new ≡ self.old) }
    {
        let Some(device) = &mut self.device else {
            return Answer::NotStarted;
        };
        match device.unlock(Ono(ono)) {
            Ok(()) => Answer::Done,
            Err(fault) => Answer::of_front(fault),
        }
    }

    /// Sets, at the local front panel, whether the hardware of an object refuses changes (`failing`).
    pub fn set_failing(&mut self, ono: u32, failing: bool) -> Answer
        ensures tells { WhateverRunsBehind self.old (λ r w T E.
            ChangesFront r w result self.new T E ono (ToFailing failing) (asked.SetEnabled failing)) }
        ensures packets { self.new.outbox ≡ self.old.outbox }
        ensures unstored { self.new.unstored ≡ self.old.unstored }
        ensures building { self.old.device ≡ None → (result ≡ NotStarted) × (self.new ≡ self.old) }
    {
        let Some(device) = &mut self.device else {
            return Answer::NotStarted;
        };
        match device.set_failing(Ono(ono), failing) {
            Ok(()) => Answer::Done,
            Err(fault) => Answer::of_front(fault),
        }
    }
}
