//! Requests and answers byte by byte, and the words.
mod methods;

use crate::tests::{Row, Said, all_agree};
use oca_model::{
    MuteState, PolarityState, Ranged, Reading, SettingFault, Value, ValueFault, ValueRequest,
    class_with, get_request, read_class_fields, read_members, read_names, read_text, read_value,
    set_request, status_name, value_from_word, word_of,
};
use oca_types::{Class, MethodId, Params};

/// A method by DefLevel and MethodIndex.
type Called = (u16, u16);

/// Whether a request has this method, ParamCount and bytes of parameters.
fn asks(request: &ValueRequest, method: Called, count: u8, params: &[u8], said: &mut Said) -> bool {
    let wanted = MethodId {
        level: method.0,
        index: method.1,
    };
    said.same(request.method, wanted)
        && said.same(request.count, count)
        && said.same(request.params.as_slice(), params)
}

/// The request that sets a value: its method and its parameters, one by ParamCount.
struct Sets(Value, Called, &'static [u8]);

impl Row for Sets {
    /// Whether the request is this.
    fn agrees(&self, said: &mut Said) -> bool {
        asks(&set_request(self.0), self.1, 1, self.2, said)
    }
}

/// The request that reads an object of a class: its method, without parameters, or none.
struct Gets(Class, Option<Called>);

impl Row for Gets {
    /// Whether the object is read so.
    fn agrees(&self, said: &mut Said) -> bool {
        match (get_request(self.0), self.1) {
            (Some(request), Some(method)) => asks(&request, method, 0, &[], said),
            (found, wanted) => said.same(found.is_some(), wanted.is_some()),
        }
    }
}

/// The value in the answer of an object of a class.
struct Reads(Class, &'static [u8], Option<Value>);

impl Row for Reads {
    /// Whether this value is read.
    fn agrees(&self, said: &mut Said) -> bool {
        said.same(read_value(self.0, self.1), self.2)
    }
}

/// A value in parameters of its own, which are written so.
struct IsEncoded(Value, &'static [u8]);

impl Row for IsEncoded {
    /// Whether the value is written as these bytes, and they are read as it.
    fn agrees(&self, said: &mut Said) -> bool {
        let mut out = Params::new();
        self.0.put(&mut out).is_ok()
            && said.same(out.as_slice(), self.1)
            && said.same(Value::read(self.0.class(), self.1), Ok(self.0))
    }
}

/// Parameters that are no value of a class.
struct IsNoValue(Class, &'static [u8], ValueFault);

impl Row for IsNoValue {
    /// Whether they are refused so.
    fn agrees(&self, said: &mut Said) -> bool {
        said.same(Value::read(self.0, self.1), Err(self.2))
    }
}

/// A value with its limits, the number of its parameters, and the bytes that they are written as.
struct HasLimits(Class, Reading, u8, &'static [u8]);

impl Row for HasLimits {
    /// Whether the reading has so many parameters and these bytes, and they are read as it.
    fn agrees(&self, said: &mut Said) -> bool {
        let mut out = Params::new();
        self.1.put(&mut out).is_ok()
            && said.same(out.as_slice(), self.3)
            && said.same(self.1.count(), self.2)
            && said.same(Reading::read(self.0, self.3), Some(self.1))
            && said.same(read_value(self.0, self.3), Some(self.1.value()))
            && said.same(self.1.class(), self.0)
            && self.1.is_within()
            && said.same(self.1.set_to(self.1.value()), Ok(self.1))
    }
}

/// A reading that is set to a value, and why it cannot be set so.
struct IsSetTo(Reading, Value, Option<SettingFault>);

impl Row for IsSetTo {
    /// Whether it is set so, and set back is as it was; or it is refused so.
    fn agrees(&self, said: &mut Said) -> bool {
        match self.0.set_to(self.1) {
            Ok(set) => {
                self.2.is_none()
                    && said.same(set.value(), self.1)
                    && said.same(set.set_to(self.0.value()), Ok(self.0))
            }
            Err(fault) => said.same(self.2, Some(fault)),
        }
    }
}

/// The word of a value, which is read as the value.
struct Says(&'static str, Value);

impl Row for Says {
    /// Whether the value is printed so and read so.
    fn agrees(&self, said: &mut Said) -> bool {
        said.same(word_of(self.1).as_str(), self.0)
            && said.same(value_from_word(self.1.class(), self.0), Some(self.1))
    }
}

/// A word that is no value of a class.
struct SaysNothing(Class, &'static str);

impl Row for SaysNothing {
    /// Whether the word is refused.
    fn agrees(&self, said: &mut Said) -> bool {
        value_from_word(self.0, self.1).is_none()
    }
}

/// The class in an answer.
struct IsClass(&'static [u8], Option<Class>);

impl Row for IsClass {
    /// Whether the class is the one in the answer.
    fn agrees(&self, said: &mut Said) -> bool {
        match read_class_fields(self.0) {
            Some(fields) => said.same(class_with(fields.as_slice()), self.1),
            None => self.1.is_none(),
        }
    }
}

/// The text in an answer.
struct IsText(&'static [u8], Option<&'static str>);

impl Row for IsText {
    /// Whether this text is read.
    fn agrees(&self, said: &mut Said) -> bool {
        match (read_text(self.0), self.1) {
            (Some(text), Some(wanted)) => said.same(text.as_str(), wanted),
            (found, wanted) => said.same(found.is_some(), wanted.is_some()),
        }
    }
}

/// The name of a status.
struct Status(u8, Option<&'static str>);

impl Row for Status {
    /// Whether the status has this name.
    fn agrees(&self, said: &mut Said) -> bool {
        match (status_name(self.0), self.1) {
            (Some(name), Some(wanted)) => said.same(name, wanted),
            (found, wanted) => said.same(found.is_some(), wanted.is_some()),
        }
    }
}

/// The members in an answer.
struct Members(&'static [u8], Option<&'static [u32]>);

impl Row for Members {
    /// Whether these members are read.
    fn agrees(&self, said: &mut Said) -> bool {
        match (read_members(self.0), self.1) {
            (Some(members), Some(wanted)) => said.same(members.as_slice(), wanted),
            (found, wanted) => said.same(found.is_some(), wanted.is_some()),
        }
    }
}

/// How many names are in an answer.
struct Names(&'static [u8], Option<usize>);

impl Row for Names {
    /// Whether so many names are read.
    fn agrees(&self, said: &mut Said) -> bool {
        match read_names(self.0) {
            Some(names) => said.same(self.1, Some(names.len())),
            None => self.1.is_none(),
        }
    }
}

const SET_REQUESTS: &[Sets] = &[
    Sets(Value::Mute(MuteState::Unmuted), (4, 2), &[2]),
    Sets(Value::Polarity(PolarityState::NonInverted), (4, 2), &[1]),
    Sets(Value::Switch(258), (4, 2), &[1, 2]),
    Sets(Value::Boolean(true), (5, 2), &[1]),
    Sets(Value::Int16(-60), (5, 2), &[255, 196]),
    Sets(Value::Uint64(1), (5, 2), &[0, 0, 0, 0, 0, 0, 0, 1]),
];

const GET_REQUESTS: &[Gets] = &[
    Gets(Class::Block, None),
    Gets(Class::Mute, Some((4, 1))),
    Gets(Class::Polarity, Some((4, 1))),
    Gets(Class::Switch, Some((4, 1))),
    Gets(Class::Boolean, Some((5, 1))),
    Gets(Class::Int16, Some((5, 1))),
];

const ANSWERS: &[Reads] = rows! {
    Reads(Class::Mute, &[1], Some(Value::Mute(MuteState::Muted))),
    Reads(Class::Mute, &[3], None),
    Reads(Class::Mute, &[1, 1], None),
    Reads(Class::Polarity, &[2], Some(Value::Polarity(PolarityState::Inverted))),
    Reads(Class::Switch, &[0, 1, 0, 0, 0, 2], Some(Value::Switch(1))),
    Reads(Class::Boolean, &[0], Some(Value::Boolean(false))),
    Reads(Class::Int16, &[255, 196, 253, 168, 2, 88], Some(Value::Int16(-60))),
    Reads(Class::Int16, &[255, 196, 253, 168, 2], None),
    Reads(Class::Uint8, &[10, 0, 100], Some(Value::Uint8(10))),
    Reads(Class::Block, &[], None),
};

const VALUES: &[IsEncoded] = &[
    IsEncoded(Value::Mute(MuteState::Unmuted), &[2]),
    IsEncoded(Value::Polarity(PolarityState::Inverted), &[2]),
    IsEncoded(Value::Switch(258), &[1, 2]),
    IsEncoded(Value::Boolean(true), &[1]),
    IsEncoded(Value::Int8(-1), &[255]),
    IsEncoded(Value::Int32(-2), &[255, 255, 255, 254]),
    IsEncoded(Value::Uint32(16909060), &[1, 2, 3, 4]),
    IsEncoded(Value::Int64(1), &[0, 0, 0, 0, 0, 0, 0, 1]),
];

const NO_VALUES: &[IsNoValue] = &[
    IsNoValue(Class::Mute, &[3], ValueFault::Unlisted),
    IsNoValue(Class::Mute, &[0], ValueFault::Unlisted),
    IsNoValue(Class::Polarity, &[3], ValueFault::Unlisted),
    IsNoValue(Class::Mute, &[1, 1], ValueFault::Malformed),
    IsNoValue(Class::Uint16, &[1], ValueFault::Malformed),
    IsNoValue(Class::Block, &[], ValueFault::Malformed),
];

const READINGS: &[HasLimits] = rows! {
    HasLimits(Class::Mute, Reading::Mute(MuteState::Muted), 1, &[1]),
    HasLimits(Class::Boolean, Reading::Boolean(true), 1, &[1]),
    HasLimits(Class::Switch, Reading::Switch(Ranged { setting: 1, least: 0, greatest: 2 }), 3, &[0, 1, 0, 0, 0, 2]),
    HasLimits(
        Class::Int16,
        Reading::Int16(Ranged { setting: -60, least: -600, greatest: 600 }),
        3,
        &[255, 196, 253, 168, 2, 88],
    ),
    HasLimits(Class::Uint8, Reading::Uint8(Ranged { setting: 10, least: 0, greatest: 100 }), 3, &[10, 0, 100]),
};

/// An Int16 at 0, from -600 to 600.
const TRIM: Reading = Reading::Int16(Ranged {
    setting: 0,
    least: -600,
    greatest: 600,
});

/// A mute.
const MUTED: Reading = Reading::Mute(MuteState::Muted);

const SETTINGS: &[IsSetTo] = &[
    IsSetTo(TRIM, Value::Int16(600), None),
    IsSetTo(TRIM, Value::Int16(-600), None),
    IsSetTo(TRIM, Value::Int16(601), Some(SettingFault::OutOfRange)),
    IsSetTo(TRIM, Value::Int16(-601), Some(SettingFault::OutOfRange)),
    IsSetTo(TRIM, Value::Int32(1), Some(SettingFault::OtherClass)),
    IsSetTo(MUTED, Value::Mute(MuteState::Unmuted), None),
    IsSetTo(MUTED, Value::Boolean(true), Some(SettingFault::OtherClass)),
];

const WORDS: &[Says] = &[
    Says("muted", Value::Mute(MuteState::Muted)),
    Says("unmuted", Value::Mute(MuteState::Unmuted)),
    Says("non-inverted", Value::Polarity(PolarityState::NonInverted)),
    Says("inverted", Value::Polarity(PolarityState::Inverted)),
    Says("on", Value::Boolean(true)),
    Says("off", Value::Boolean(false)),
    Says("12", Value::Switch(12)),
    Says("-60", Value::Int16(-60)),
    Says("-9223372036854775808", Value::Int64(i64::MIN)),
    Says("18446744073709551615", Value::Uint64(u64::MAX)),
];

const NO_WORDS: &[SaysNothing] = &[
    SaysNothing(Class::Mute, "on"),
    SaysNothing(Class::Int8, "128"),
    SaysNothing(Class::Uint8, "-1"),
    SaysNothing(Class::Block, "1"),
];

const CLASSES: &[IsClass] = &[
    IsClass(&[0, 4, 0, 1, 0, 1, 0, 1, 0, 2, 0, 2], Some(Class::Mute)),
    IsClass(&[0, 3, 0, 1, 0, 1, 0, 3, 0, 9], Some(Class::Block)),
    IsClass(&[0, 3, 0, 1, 0, 1, 0, 3], None),
    IsClass(&[0, 1, 0, 1, 0, 2], None),
];

const TEXTS: &[IsText] = &[
    IsText(&[0, 3, 77, 105, 99], Some("Mic")),
    IsText(&[0, 3, 77, 105], None),
];

const STATUSES: &[Status] = &[
    Status(3, Some("Locked")),
    Status(14, Some("BufferOverflow")),
    Status(15, None),
];

const MEMBERS: &[Members] = rows! {
    Members(&[0, 2, 0, 0, 16, 1, 0, 1, 0, 1, 0, 2, 0, 0, 16, 2, 0, 2, 0, 1, 0, 9, 0, 1], Some(&[4097, 4098])),
    Members(&[0, 2, 0, 0, 16, 1, 0, 1, 0, 1, 0, 2, 0, 0, 16, 2, 0, 2, 0, 1, 0, 9, 0], None),
};

const NAMES: &[Names] = &[
    Names(&[0, 2, 0, 1, 65, 0, 0], Some(2)),
    Names(&[0, 1, 0, 1, 65, 0], None),
];

#[test]
fn requests_and_answers_are_read_and_written(rt: HostRuntime) {
    all_agree(
        &rt,
        "requests are understood and asked so",
        methods::REQUESTS,
    );
    all_agree(&rt, "other parameters are refused", methods::REFUSALS);
    all_agree(
        &rt,
        "a class is not set to a value of another",
        methods::OF_OTHERS,
    );
    all_agree(&rt, "answers are read and written so", methods::ANSWERS);
    all_agree(&rt, "other parameters are no answer", methods::NO_ANSWERS);
}

#[test]
fn values_have_bytes_and_words(rt: HostRuntime) {
    all_agree(&rt, "requests that set", SET_REQUESTS);
    all_agree(&rt, "requests that read", GET_REQUESTS);
    all_agree(&rt, "values in answers", ANSWERS);
    all_agree(&rt, "values are written and read", VALUES);
    all_agree(&rt, "other parameters are no value", NO_VALUES);
    all_agree(&rt, "readings are written and read", READINGS);
    all_agree(&rt, "readings are set", SETTINGS);
    all_agree(&rt, "values have words", WORDS);
    all_agree(&rt, "other words are no value", NO_WORDS);
}

#[test]
fn answers_of_any_object_are_read(rt: HostRuntime) {
    all_agree(&rt, "the class in an answer", CLASSES);
    all_agree(&rt, "the text in an answer", TEXTS);
    all_agree(&rt, "statuses have names", STATUSES);
    all_agree(&rt, "the members in an answer", MEMBERS);
    all_agree(&rt, "the names in an answer", NAMES);
}
