//! What is asked of one object.
ghost use Rattle.std.specs.Prelude.{◌≡◌};

use crate::outcomes::{
    class_in, done_in, fields_in, members_in, names_in, reading_in, text_in, truth_in,
};
use crate::panel::Panel;
use crate::trouble::Trouble;
use oca_model::{ClassFields, MemberNumbers, Names, Reading, Request, Value, get_request};
use oca_net::End;
use oca_types::{Class, Handle, Ono, Text};

impl<E: End> Panel<E> {
    ghost use Rattle.std.specs.Prelude.{◌≡◌};
    ghost use Rattle.oca_types.specs.declared.class.Class.TheVariants.{Block, Switch};
    ghost use Rattle.oca_model.specs.declared.request.Request.TheVariants.{GetClassIdentification, LockTotal, Unlock};
    ghost use Rattle.oca_model.specs.declared.request.Request.TheVariants.{GetLabel, SetLabel, GetRole, GetEnabled};
    ghost use Rattle.oca_model.specs.declared.request.Request.TheVariants.{GetMembers, GetPositionName};
    ghost use Rattle.oca_model.specs.declared.request.Request.TheVariants.{GetPositionNames};
    ghost use Rattle.oca_model.specs.Readings.{value_without_limits};
    ghost use Rattle.oca_model.specs.Values.{get_method};
    ghost use Rattle.oca_panel.specs.Outcomes.{on_ok, done_answered, fields_answered, members_answered, names_answered};
    ghost use Rattle.oca_panel.specs.Outcomes.{text_answered, truth_answered};
    ghost use Rattle.oca_panel.specs.Objects.{AsksClass, Finishes, GetsValue, Reads, ReadsBy, ReadsObject, SetsValue};

    /// Asks the device for the class of the object `ono`, by GetClassIdentification of OcaRoot (AES70-2). The command
    /// changes no object.
    ///
    /// Faults: those of a command ([`Panel`]). `Refused` has BadONo for an object that the device does not have.
    /// `Unreadable` if the answer's parameters are no class identifier of at most 16 fields. `NoValue` if the class is
    /// not a class of this profile.
    #[tactic(auto, using(crate::proofs::RequestLemmas::ask_class))]
    pub fn class(&mut self, ono: Ono) -> Result<Class, Trouble>
        ensures { AsksClass ono.0 self.old self.new result }
    {
        let outcome = self.ask_for(ono, Class::Block, &Request::GetClassIdentification);
        class_in(&outcome)
    }

    /// Asks the device for the fields of the class identifier of the object `ono`, by GetClassIdentification of OcaRoot
    /// (AES70-2). Returns at most 16 fields, also for a class that is not in this profile. The command changes no
    /// object.
    ///
    /// Faults: those of a command ([`Panel`]). `Refused` has BadONo for an object that the device does not have.
    /// `Unreadable` if the answer's parameters are no class identifier of at most 16 fields.
    #[tactic(auto, using(crate::proofs::RequestLemmas::ask_class))]
    pub fn class_fields(&mut self, ono: Ono) -> Result<ClassFields, Trouble>
        ensures { Reads ono.0 Block GetClassIdentification fields_answered self.old self.new
            (on_ok (λ fields. fields.items) result) }
    {
        let outcome = self.ask_for(ono, Class::Block, &Request::GetClassIdentification);
        fields_in(&outcome)
    }

    /// Reads the value of the object `ono`: asks the device for the object's class, and then for its value by the get
    /// method of the class (AES70-2). The two commands change no object.
    ///
    /// Faults: those of a command ([`Panel`]); after a fault of the first command the second is not sent. `Unreadable`
    /// if the parameters of an answer are not those of the method. `NoValue` if the object is a block, or its class is
    /// not a class of this profile.
    pub fn get(&mut self, ono: Ono) -> Result<Value, Trouble>
        ensures { GetsValue ono.0 self.old self.new result }
    {
        Ok(self.reading(ono)?.value())
    }

    /// Reads the value of the object `ono` with its limits: asks the device for the object's class, and then for its
    /// value by the get method of the class (AES70-2). A switch and an integer have the least and the greatest value
    /// too. The two commands change no object.
    ///
    /// Faults: those of a command ([`Panel`]); after a fault of the first command the second is not sent. `Unreadable`
    /// if the parameters of an answer are not those of the method. `NoValue` if the object is a block, or its class is
    /// not a class of this profile.
    pub fn reading(&mut self, ono: Ono) -> Result<Reading, Trouble>
        ensures { ReadsObject ono.0 self.old self.new result }
    {
        let class = self.class(ono)?;
        self.reading_of(ono, class)
    }

    /// Reads the value of the object `ono` of the class `class` with its limits, by the get method of the class
    /// (AES70-2). A switch and an integer have the least and the greatest value too. The object's class is not asked.
    /// The command changes no object.
    ///
    /// Faults: those of a command ([`Panel`]). `NoValue` if `class` is a block: nothing is sent. `Unreadable` if the
    /// answer's parameters are not those of the get method of `class`.
    pub fn reading_of(&mut self, ono: Ono, class: Class) -> Result<Reading, Trouble>
        ensures { ReadsBy ono.0 class (get_method class) self.old self.new result }
    {
        match get_request(class) {
            Some(request) => {
                let outcome = self.ask_value(ono, &request);
                reading_in(class, &outcome)
            }
            None => Err(Trouble::NoValue),
        }
    }

    /// Sets the object `ono` to the value `value`, by the set method of the value's class (AES70-2), and waits for the
    /// answer for at most the panel's `wait` milliseconds. The object must be of this class. If not, the device refuses
    /// the command, or takes the value as one of the object's own class.
    ///
    /// Faults: those of a command ([`Panel`]). `Refused` has ParameterOutOfRange for a value outside the object's
    /// limits. After `Refused` a device of this profile changed nothing.
    pub fn set(&mut self, ono: Ono, value: Value) -> Result<(), Trouble>
        ensures { SetsValue ono.0 value self.old self.new result }
    {
        let outcome = self.ask_to_set(ono, value);
        done_in(&outcome)
    }

    /// Waits for the answer to a command that [`begin_set`](Panel::begin_set) began, for at most the panel's `wait`
    /// milliseconds, and takes the answer. `handle` is what `begin_set` returned. Returns Ok if the status of the
    /// answer is OK.
    ///
    /// Faults ([`Trouble`]):
    /// - `Lost` if the link is lost or late and no answer is there.
    /// - `Unanswered` if no answer comes in time, and for a handle that no command has. The command stays in flight,
    ///   and can be waited for again. After `Lost` and `Unanswered` the device may have carried out the command, or may
    ///   still do that.
    /// - `Refused` with the status if the status of the answer is not OK. A device of this profile then changed
    ///   nothing.
    pub fn finish_set(&mut self, handle: Handle) -> Result<(), Trouble>
        ensures { Finishes handle.0 self.old self.new result }
    {
        let outcome = self.finish(handle);
        done_in(&outcome)
    }

    /// Locks the object `ono`, by LockTotal of OcaRoot (AES70-2): other controllers can then neither read nor set the
    /// object. A device of this profile answers OK also if this panel has the lock already. The device releases the
    /// lock once it hears nothing from this panel for more than 15,000 ms.
    ///
    /// Faults: those of a command ([`Panel`]). `Refused` has Locked if another controller has the lock, InvalidRequest
    /// if the object cannot be locked. After `Refused` a device of this profile changed nothing.
    #[tactic(auto, using(crate::proofs::RequestLemmas::ask_lock))]
    pub fn lock(&mut self, ono: Ono) -> Result<(), Trouble>
        ensures { Reads ono.0 Block LockTotal done_answered self.old self.new result }
    {
        let outcome = self.ask_for(ono, Class::Block, &Request::LockTotal);
        done_in(&outcome)
    }

    /// Releases this panel's lock of the object `ono`, by Unlock of OcaRoot (AES70-2), and waits for the answer for at
    /// most the panel's `wait` milliseconds.
    ///
    /// Faults: those of a command ([`Panel`]). `Refused` has Locked if another controller holds the lock, InvalidRequest
    /// if the object is not locked. After `Refused` a device of this profile changed nothing.
    #[tactic(auto, using(crate::proofs::RequestLemmas::ask_unlock))]
    pub fn unlock(&mut self, ono: Ono) -> Result<(), Trouble>
        ensures { Reads ono.0 Block Unlock done_answered self.old self.new result }
    {
        let outcome = self.ask_for(ono, Class::Block, &Request::Unlock);
        done_in(&outcome)
    }

    /// Asks the device for the label of the object `ono`, by GetLabel of OcaWorker (AES70-2). Returns a text of 0 to 64
    /// bytes of UTF-8. The command changes no object.
    ///
    /// Faults: those of a command ([`Panel`]). `Unreadable` if the answer's parameters are not exactly one text of at
    /// most 64 bytes of UTF-8.
    #[tactic(auto, using(crate::proofs::RequestLemmas::ask_label))]
    pub fn label(&mut self, ono: Ono) -> Result<Text, Trouble>
        ensures { Reads ono.0 Block GetLabel text_answered self.old self.new result }
    {
        let outcome = self.ask_for(ono, Class::Block, &Request::GetLabel);
        text_in(&outcome)
    }

    /// Gives the object `ono` the label `label`, by SetLabel of OcaWorker (AES70-2), and waits for the answer for at
    /// most the panel's `wait` milliseconds. The label has 0 to 64 bytes: a longer one is no [`Text`].
    ///
    /// Faults: those of a command ([`Panel`]). After `Refused` a device of this profile changed nothing.
    #[tactic(auto, using(crate::proofs::RequestLemmas::ask_set_label))]
    pub fn set_label(&mut self, ono: Ono, label: Text) -> Result<(), Trouble>
        ensures { Reads ono.0 Block (SetLabel label) done_answered self.old self.new result }
    {
        let _short = label.as_str();
        let outcome = self.ask_for(ono, Class::Block, &Request::SetLabel(label));
        done_in(&outcome)
    }

    /// Asks the device for the role of the object `ono`, by GetRole of OcaRoot (AES70-2). Returns a text of 0 to 64
    /// bytes of UTF-8. The command changes no object.
    ///
    /// Faults: those of a command ([`Panel`]). `Unreadable` if the answer's parameters are not exactly one text of at
    /// most 64 bytes of UTF-8.
    #[tactic(auto, using(crate::proofs::RequestLemmas::ask_role))]
    pub fn role(&mut self, ono: Ono) -> Result<Text, Trouble>
        ensures { Reads ono.0 Block GetRole text_answered self.old self.new result }
    {
        let outcome = self.ask_for(ono, Class::Block, &Request::GetRole);
        text_in(&outcome)
    }

    /// Asks the device whether the object `ono` is enabled, by GetEnabled of OcaWorker (AES70-2). The command changes
    /// no object.
    ///
    /// Faults: those of a command ([`Panel`]). `Unreadable` if the answer is not exactly one Boolean.
    #[tactic(auto, using(crate::proofs::RequestLemmas::ask_enabled))]
    pub fn enabled(&mut self, ono: Ono) -> Result<bool, Trouble>
        ensures { Reads ono.0 Block GetEnabled truth_answered self.old self.new result }
    {
        let outcome = self.ask_for(ono, Class::Block, &Request::GetEnabled);
        truth_in(&outcome)
    }

    /// Asks the device for the numbers of the members of the block `ono`, by GetMembers of OcaBlock (AES70-2). Returns
    /// 0 to 181 numbers, in the order of the answer. The command changes no object.
    ///
    /// Faults: those of a command ([`Panel`]). `Refused` has BufferOverflow if the block has more members than a
    /// response has room for. `Unreadable` if the answer's parameters are no list of members.
    #[tactic(auto, using(crate::proofs::RequestLemmas::ask_members))]
    pub fn members(&mut self, ono: Ono) -> Result<MemberNumbers, Trouble>
        ensures { Reads ono.0 Block GetMembers members_answered self.old self.new
            (on_ok (λ members. members.items) result) }
    {
        let outcome = self.ask_for(ono, Class::Block, &Request::GetMembers);
        members_in(&outcome)
    }

    /// Asks the device for the name of a position of the switch `ono`, by GetPositionName of OcaSwitch (AES70-2).
    /// Returns a text of 0 to 64 bytes of UTF-8. `position` is counted from 0. The command changes no object.
    ///
    /// Faults: those of a command ([`Panel`]). `Refused` has ParameterOutOfRange if the switch has no such position.
    /// `Unreadable` if the answer's parameters are not exactly one text of at most 64 bytes of UTF-8.
    #[tactic(auto, using(crate::proofs::RequestLemmas::ask_name))]
    pub fn position_name(&mut self, ono: Ono, position: u16) -> Result<Text, Trouble>
        ensures { Reads ono.0 Switch (GetPositionName position) text_answered self.old self.new result }
    {
        let outcome = self.ask_for(ono, Class::Switch, &Request::GetPositionName(position));
        text_in(&outcome)
    }

    /// Asks the device for the names of the positions of the switch `ono`, by GetPositionNames of OcaSwitch (AES70-2).
    /// Returns at most 16 names of 0 to 64 bytes of UTF-8 each, in the order of the positions. The command changes no
    /// object.
    ///
    /// Faults: those of a command ([`Panel`]). `Unreadable` if the answer has more than 16 names, a name of more than
    /// 64 bytes, or is no list of texts.
    #[tactic(auto, using(crate::proofs::RequestLemmas::ask_names))]
    pub fn position_names(&mut self, ono: Ono) -> Result<Names, Trouble>
        ensures { Reads ono.0 Switch GetPositionNames names_answered self.old self.new
            (on_ok (λ names. names.items) result) }
    {
        let outcome = self.ask_for(ono, Class::Switch, &Request::GetPositionNames);
        names_in(&outcome)
    }
}
