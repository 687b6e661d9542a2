//! What is asked of one object: the commands that are sent, the answers, and what is made of them.
use super::{Answer, panel};
use crate::tests::{Row, Said, Wanted, Words, all_agree, are_found};
use oca_control::ControlFault;
use oca_model::{MuteState, Ranged, Reading, Value};
use oca_net::MemoryEnd;
use oca_panel::{Panel, Trouble};
use oca_types::{Class, Ono, Packet, Peer, Text};

const OBJECT: Ono = Ono(4097);

/// What is asked, and what comes of it.
enum Asks {
    Class(Class),
    Fields(&'static [u16]),
    Get(Value),
    Reads(Reading),
    Set(Value),
    TwoSets(Value, Value),
    Lock,
    Unlock,
    Label(&'static str),
    SetLabel(&'static str),
    Role(&'static str),
    Enabled(bool),
    Members(&'static [u32]),
    Name(u16, &'static str),
    Names(&'static [&'static str]),
    Fails(Trouble),
}

/// What is asked, the answers, and what is sent: of each command its handle, its target, its method, ParamCount and its
/// parameters.
struct Exchange(Asks, &'static [Answer], &'static [Sent]);

/// The answer to GetClassIdentification of an OcaMute: 1.1.1.2, version 2.
const MUTE: Answer = (0, 1, &[0, 4, 0, 1, 0, 1, 0, 1, 0, 2, 0, 2]);

/// The same of an OcaInt16Actuator: 1.1.1.1.3.
const INT16: Answer = (0, 1, &[0, 5, 0, 1, 0, 1, 0, 1, 0, 1, 0, 3, 0, 2]);

/// GetClassIdentification of 4097, under the handle 7.
const CLASS_ASKED: &[u8] = &[0, 0, 0, 7, 0, 0, 0x10, 1, 0, 1, 0, 1, 0];

/// GetState of 4097, under the handle 8.
const STATE_ASKED: &[u8] = &[0, 0, 0, 8, 0, 0, 0x10, 1, 0, 4, 0, 1, 0];

/// GetSetting of 4097, under the handle 8.
const SETTING_ASKED: &[u8] = &[0, 0, 0, 8, 0, 0, 0x10, 1, 0, 5, 0, 1, 0];

/// An answer without parameters.
const DONE: Answer = (0, 0, &[]);

/// What the Int16 actuator is set to.
const READING: Reading = Reading::Int16(Ranged {
    setting: -60,
    least: -800,
    greatest: 100,
});

/// What an object is, what it has, and what it is set to.
const VALUES: &[Exchange] = rows! {
    Exchange(Asks::Class(Class::Mute), &[MUTE], &[Sent(CLASS_ASKED)]),
    Exchange(Asks::Fields(&[1, 1, 1, 9]), &[(0, 1, &[0, 4, 0, 1, 0, 1, 0, 1, 0, 9, 0, 2])], &[Sent(CLASS_ASKED)]),
    Exchange(Asks::Get(Value::Mute(MuteState::Unmuted)), &[MUTE, (0, 1, &[2])],
        &[Sent(CLASS_ASKED), Sent(STATE_ASKED)]),
    Exchange(Asks::Reads(READING), &[INT16, (0, 3, &[0xff, 0xc4, 0xfc, 0xe0, 0, 100])],
        &[Sent(CLASS_ASKED), Sent(SETTING_ASKED)]),
    Exchange(Asks::Set(Value::Int16(-60)), &[DONE],
        &[Sent(&[0, 0, 0, 7, 0, 0, 0x10, 1, 0, 5, 0, 2, 1, 0xff, 0xc4])]),
    Exchange(Asks::TwoSets(Value::Mute(MuteState::Muted), Value::Switch(3)), &[DONE, DONE], &[
        Sent(&[0, 0, 0, 7, 0, 0, 0x10, 1, 0, 4, 0, 2, 1, 1]),
        Sent(&[0, 0, 0, 8, 0, 0, 0x10, 1, 0, 4, 0, 2, 1, 0, 3]),
    ]),
};

/// Locks, and what every object has.
const LOCKS_AND_LABELS: &[Exchange] = rows! {
    Exchange(Asks::Lock, &[DONE], &[Sent(&[0, 0, 0, 7, 0, 0, 0x10, 1, 0, 1, 0, 3, 0])]),
    Exchange(Asks::Unlock, &[DONE], &[Sent(&[0, 0, 0, 7, 0, 0, 0x10, 1, 0, 1, 0, 4, 0])]),
    Exchange(Asks::Label("Ü"), &[(0, 1, &[0, 1, 0xc3, 0x9c])], &[Sent(&[0, 0, 0, 7, 0, 0, 0x10, 1, 0, 2, 0, 8, 0])]),
    Exchange(Asks::SetLabel("Mic"), &[DONE],
        &[Sent(&[0, 0, 0, 7, 0, 0, 0x10, 1, 0, 2, 0, 9, 1, 0, 3, b'M', b'i', b'c'])]),
    Exchange(Asks::Role("A"), &[(0, 1, &[0, 1, b'A'])], &[Sent(&[0, 0, 0, 7, 0, 0, 0x10, 1, 0, 1, 0, 5, 0])]),
    Exchange(Asks::Enabled(true), &[(0, 1, &[1])], &[Sent(&[0, 0, 0, 7, 0, 0, 0x10, 1, 0, 2, 0, 1, 0])]),
};

/// A list of the mute 4098.
const MEMBERS: Answer = (
    0,
    1,
    &[0, 1, 0, 0, 0x10, 2, 0, 4, 0, 1, 0, 1, 0, 1, 0, 2, 0, 2],
);

/// Lists and names of positions.
const LISTS: &[Exchange] = rows! {
    Exchange(Asks::Members(&[4098]), &[MEMBERS], &[Sent(&[0, 0, 0, 7, 0, 0, 0x10, 1, 0, 3, 0, 5, 0])]),
    Exchange(Asks::Name(258, "B"), &[(0, 1, &[0, 1, b'B'])],
        &[Sent(&[0, 0, 0, 7, 0, 0, 0x10, 1, 0, 4, 0, 3, 1, 1, 2])]),
    Exchange(Asks::Names(&["", "B"]), &[(0, 1, &[0, 2, 0, 0, 0, 1, b'B'])],
        &[Sent(&[0, 0, 0, 7, 0, 0, 0x10, 1, 0, 4, 0, 5, 0])]),
};

/// Where no value is given, and why.
const FAILURES: &[Exchange] = rows! {
    Exchange(Asks::Fails(Trouble::Refused(3)), &[(3, 0, &[])], &[Sent(CLASS_ASKED)]),
    Exchange(Asks::Fails(Trouble::Unreadable), &[MUTE, (0, 1, &[9])], &[Sent(CLASS_ASKED), Sent(STATE_ASKED)]),
    Exchange(Asks::Fails(Trouble::NoValue), &[(0, 1, &[0, 3, 0, 1, 0, 1, 0, 3, 0, 2])], &[Sent(CLASS_ASKED)]),
    Exchange(Asks::Fails(Trouble::Unanswered), &[], &[Sent(CLASS_ASKED)]),
};

/// Whether the text is this.
fn is_text(read: Result<Text, Trouble>, expected: &str, said: &mut Said) -> bool {
    match read {
        Ok(text) => said.same(text.as_str(), expected),
        Err(_) => false,
    }
}

/// Two set commands in flight at once.
fn sets_both(panel: &mut Panel<MemoryEnd>, first: Value, second: Value, said: &mut Said) -> bool {
    let Ok(one) = panel.begin_set(OBJECT, first) else {
        return false;
    };
    let Ok(two) = panel.begin_set(OBJECT, second) else {
        return false;
    };
    said.same(panel.finish_set(one), Ok(())) && said.same(panel.finish_set(two), Ok(()))
}

impl Wanted<Text> for &'static str {
    /// Whether it is this text.
    fn is(&self, found: &Text, said: &mut Said) -> bool {
        said.same(found.as_str(), *self)
    }
}

/// Sets a label.
fn sets_label(panel: &mut Panel<MemoryEnd>, label: &str, said: &mut Said) -> bool {
    match Text::new(label) {
        Some(label) => said.same(panel.set_label(OBJECT, label), Ok(())),
        None => false,
    }
}

/// Whether an object has the fields of this class.
fn has_fields(panel: &mut Panel<MemoryEnd>, fields: &[u16], said: &mut Said) -> bool {
    match panel.class_fields(OBJECT) {
        Ok(read) => said.same(read.as_slice(), fields),
        Err(_) => false,
    }
}

/// Whether a block has these members.
fn has_members(panel: &mut Panel<MemoryEnd>, members: &[u32], said: &mut Said) -> bool {
    match panel.members(OBJECT) {
        Ok(read) => said.same(read.as_slice(), members),
        Err(_) => false,
    }
}

/// Whether a switch has these names.
fn has_names(panel: &mut Panel<MemoryEnd>, names: &[&'static str], said: &mut Said) -> bool {
    match panel.position_names(OBJECT) {
        Ok(read) => are_found(read.as_slice(), names, said),
        Err(_) => false,
    }
}

/// Whether what is asked comes out so.
fn comes_out(panel: &mut Panel<MemoryEnd>, asked: &Asks, said: &mut Said) -> bool {
    match asked {
        Asks::Class(class) => said.same(panel.class(OBJECT), Ok(*class)),
        Asks::Get(value) => said.same(panel.get(OBJECT), Ok(*value)),
        Asks::Reads(reading) => said.same(panel.reading(OBJECT), Ok(*reading)),
        Asks::Enabled(enabled) => said.same(panel.enabled(OBJECT), Ok(*enabled)),
        Asks::Fails(trouble) => said.same(panel.get(OBJECT), Err(*trouble)),
        _ => is_done(panel, asked, said) || is_told(panel, asked, said),
    }
}

/// Whether what is asked changes something, and is done.
fn is_done(panel: &mut Panel<MemoryEnd>, asked: &Asks, said: &mut Said) -> bool {
    match asked {
        Asks::Set(value) => said.same(panel.set(OBJECT, *value), Ok(())),
        Asks::TwoSets(first, second) => sets_both(panel, *first, *second, said),
        Asks::Lock => said.same(panel.lock(OBJECT), Ok(())),
        Asks::Unlock => said.same(panel.unlock(OBJECT), Ok(())),
        Asks::SetLabel(label) => sets_label(panel, label, said),
        _ => false,
    }
}

/// Whether what is asked has a text or a list as an answer, and is told so.
fn is_told(panel: &mut Panel<MemoryEnd>, asked: &Asks, said: &mut Said) -> bool {
    match asked {
        Asks::Fields(fields) => has_fields(panel, fields, said),
        Asks::Label(label) => is_text(panel.label(OBJECT), label, said),
        Asks::Role(role) => is_text(panel.role(OBJECT), role, said),
        Asks::Members(members) => has_members(panel, members, said),
        Asks::Name(position, name) => is_text(panel.position_name(OBJECT, *position), name, said),
        Asks::Names(names) => has_names(panel, names, said),
        _ => false,
    }
}

/// A command that is sent, behind a head of 14 bytes.
struct Sent(&'static [u8]);

impl Wanted<(Peer, Packet)> for Sent {
    /// Whether just this was sent.
    fn is(&self, found: &(Peer, Packet), said: &mut Said) -> bool {
        let packet = found.1.as_slice();
        packet.ends_with(self.0) && said.same(packet.len(), self.0.len().saturating_add(14))
    }
}

impl Row for Exchange {
    /// Whether what is asked of a panel comes out so, and just this is sent.
    fn agrees(&self, said: &mut Said) -> bool {
        match panel(said.alloc, self.1, 10, None) {
            Some(mut panel) => {
                comes_out(&mut panel, &self.0, said) && are_found(panel.end().taken(), self.2, said)
            }
            None => false,
        }
    }
}

/// What is not done, as a text.
const TEXTS: &[Words<Trouble>] = rows! {
    Words(Trouble::Refused(3), "Locked"),
    Words(Trouble::Refused(200), "status 200"),
    Words(Trouble::Unreadable, "unreadable answer"),
    Words(Trouble::NoValue, "no value"),
    Words(Trouble::NoSuchWord, "no such value"),
    Words(Trouble::NotSubmitted(ControlFault::HandlesSpent), "not sent: no handle is left"),
    Words(Trouble::Lost, "lost"),
    Words(Trouble::Unanswered, "no answer"),
};

#[test]
fn a_panel_asks_and_hands_answers_on(rt: HostRuntime) {
    all_agree(&rt, "values", VALUES);
    all_agree(&rt, "locks and labels", LOCKS_AND_LABELS);
    all_agree(&rt, "lists", LISTS);
    all_agree(&rt, "failures", FAILURES);
    all_agree(&rt, "troubles have words", TEXTS);
}
