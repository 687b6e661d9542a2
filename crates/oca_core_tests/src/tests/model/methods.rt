//! Each method: parameters that are understood and asked for again, answers that are read and written again.
use crate::tests::{Row, Said};
use oca_model::{Answer, Request, RequestFault, Shape, Value, ValueFault, shape_of};
use oca_types::{Class, Method, MethodId, Params};

/// A method by DefLevel and MethodIndex.
type Called = (u16, u16);

/// A method of a class, and its ParamCount and parameters, which are understood and asked for so.
pub struct Asks(Class, Method, Called, u8, &'static [u8]);

/// Whether the request, asked of the class of the row, is that of the row.
fn is_asked(request: &Request, row: &Asks, said: &mut Said) -> bool {
    let wanted = MethodId {
        level: row.2.0,
        index: row.2.1,
    };
    let mut out = Params::new();
    match request.call(row.0, &mut out) {
        Ok(call) => said.same(call.method, wanted)
            && said.same(call.count, row.3)
            && said.same(out.as_slice(), row.4),
        Err(_) => false,
    }
}

impl Row for Asks {
    /// Whether it is understood, and asked so.
    fn agrees(&self, said: &mut Said) -> bool {
        match Request::read(self.0, self.1, self.3, self.4) {
            Ok(request) => is_asked(&request, self, said),
            Err(_) => false,
        }
    }
}

/// A method of a class, and a ParamCount and parameters that it refuses.
pub struct Refuses(Class, Method, u8, &'static [u8], ValueFault);

impl Row for Refuses {
    /// Whether they are refused so.
    fn agrees(&self, said: &mut Said) -> bool {
        match Request::read(self.0, self.1, self.2, self.3) {
            Ok(_) => false,
            Err(found) => said.same(found, self.4),
        }
    }
}

/// A method of a class, and an answer of this kind, which is read, and is written so.
pub struct Answers(Class, Method, Shape, u8, &'static [u8]);

impl Row for Answers {
    /// Whether it is an answer of this kind, and is written so.
    fn agrees(&self, said: &mut Said) -> bool {
        let mut out = Params::new();
        match Answer::read(self.0, self.1, self.3, self.4) {
            Some(answer) => {
                said.same(shape_of(self.1), self.2)
                    && said.same(answer.count(), self.3)
                    && answer.put(&mut out).is_ok()
                    && said.same(out.as_slice(), self.4)
            }
            None => false,
        }
    }
}

/// A method of a class, and a ParamCount and parameters that are no answer.
pub struct AnswersNothing(Class, Method, u8, &'static [u8]);

impl Row for AnswersNothing {
    /// Whether they are no answer.
    fn agrees(&self, said: &mut Said) -> bool {
        Answer::read(self.0, self.1, self.2, self.3).is_none()
    }
}

/// A class, and a value of another, to which its objects are not set.
pub struct IsOfAnother(Class, Value);

impl Row for IsOfAnother {
    /// Whether the class does not know that its objects are set to the value.
    fn agrees(&self, said: &mut Said) -> bool {
        let mut out = Params::new();
        match Request::Set(self.1).call(self.0, &mut out) {
            Ok(_) => false,
            Err(fault) => said.same(fault, RequestFault::OtherClass),
        }
    }
}

pub const REQUESTS: &[Asks] = rows! {
    Asks(Class::Mute, Method::GetClassIdentification, (1, 1), 0, &[]),
    Asks(Class::Mute, Method::GetLockable, (1, 2), 0, &[]),
    Asks(Class::Mute, Method::LockTotal, (1, 3), 0, &[]),
    Asks(Class::Mute, Method::Unlock, (1, 4), 0, &[]),
    Asks(Class::Mute, Method::GetRole, (1, 5), 0, &[]),
    Asks(Class::Mute, Method::LockReadonly, (1, 6), 0, &[]),
    Asks(Class::Mute, Method::GetEnabled, (2, 1), 0, &[]),
    Asks(Class::Mute, Method::SetEnabled, (2, 2), 1, &[1]),
    Asks(Class::Mute, Method::GetLabel, (2, 8), 0, &[]),
    Asks(Class::Mute, Method::SetLabel, (2, 9), 1, &[0, 1, 65]),
    Asks(Class::Mute, Method::GetOwner, (2, 10), 0, &[]),
    Asks(Class::Block, Method::GetMembers, (3, 5), 0, &[]),
    Asks(Class::Block, Method::GetMembersRecursive, (3, 6), 0, &[]),
    Asks(Class::Mute, Method::GetState, (4, 1), 0, &[]),
    Asks(Class::Polarity, Method::SetState, (4, 2), 1, &[2]),
    Asks(Class::Switch, Method::GetPosition, (4, 1), 0, &[]),
    Asks(Class::Switch, Method::SetPosition, (4, 2), 1, &[0, 1]),
    Asks(Class::Switch, Method::GetPositionName, (4, 3), 1, &[0, 1]),
    Asks(Class::Switch, Method::SetPositionName, (4, 4), 2, &[0, 1, 0, 1, 65]),
    Asks(Class::Switch, Method::GetPositionNames, (4, 5), 0, &[]),
    Asks(Class::Switch, Method::SetPositionNames, (4, 6), 1, &[0, 2, 0, 1, 65, 0, 0]),
    Asks(Class::Switch, Method::GetPositionEnabled, (4, 7), 1, &[0, 1]),
    Asks(Class::Switch, Method::SetPositionEnabled, (4, 8), 2, &[0, 1, 0]),
    Asks(Class::Switch, Method::GetPositionEnableds, (4, 9), 0, &[]),
    Asks(Class::Switch, Method::SetPositionEnableds, (4, 10), 1, &[0, 2, 1, 0]),
    Asks(Class::Int16, Method::GetSetting, (5, 1), 0, &[]),
    Asks(Class::Int16, Method::SetSetting, (5, 2), 1, &[255, 196]),
};

pub const REFUSALS: &[Refuses] = rows! {
    Refuses(Class::Mute, Method::SetState, 1, &[3], ValueFault::Unlisted),
    Refuses(Class::Mute, Method::SetState, 2, &[3], ValueFault::Malformed),
    Refuses(Class::Mute, Method::SetState, 1, &[], ValueFault::Malformed),
    Refuses(Class::Mute, Method::GetRole, 1, &[], ValueFault::Malformed),
    Refuses(Class::Mute, Method::GetRole, 0, &[1], ValueFault::Malformed),
    Refuses(Class::Mute, Method::SetLabel, 1, &[0, 2, 65], ValueFault::Malformed),
    Refuses(Class::Int16, Method::SetSetting, 1, &[1], ValueFault::Malformed),
    Refuses(
        Class::Switch,
        Method::SetPositionEnableds,
        1,
        &[0, 17, 1, 1, 1, 1, 1, 1, 1, 1, 1, 1, 1, 1, 1, 1, 1, 1, 1],
        ValueFault::Malformed,
    ),
};

pub const OF_OTHERS: &[IsOfAnother] = &[
    IsOfAnother(Class::Int8, Value::Uint8(1)),
    IsOfAnother(Class::Block, Value::Boolean(true)),
];

pub const ANSWERS: &[Answers] = rows! {
    Answers(Class::Mute, Method::Unlock, Shape::Done, 0, &[]),
    Answers(Class::Mute, Method::SetState, Shape::Done, 0, &[]),
    Answers(Class::Mute, Method::GetLockable, Shape::Truth, 1, &[1]),
    Answers(Class::Mute, Method::GetRole, Shape::Text, 1, &[0, 1, 65]),
    Answers(Class::Mute, Method::GetOwner, Shape::Owner, 1, &[0, 0, 0, 100]),
    Answers(Class::Mute, Method::GetState, Shape::Reading, 1, &[2]),
    Answers(Class::Switch, Method::GetPosition, Shape::Reading, 3, &[0, 1, 0, 0, 0, 2]),
    Answers(Class::Switch, Method::GetPositionNames, Shape::Names, 1, &[0, 2, 0, 1, 65, 0, 0]),
    Answers(Class::Switch, Method::GetPositionEnableds, Shape::Flags, 1, &[0, 2, 1, 0]),
    Answers(Class::Mute, Method::GetClassIdentification, Shape::Class, 1, &[0, 4, 0, 1, 0, 1, 0, 1, 0, 2, 0, 2]),
    Answers(
        Class::Block,
        Method::GetMembers,
        Shape::Members,
        1,
        &[0, 1, 0, 0, 16, 1, 0, 4, 0, 1, 0, 1, 0, 1, 0, 2, 0, 2],
    ),
    Answers(
        Class::Block,
        Method::GetMembersRecursive,
        Shape::Descendants,
        1,
        &[0, 1, 0, 0, 16, 1, 0, 4, 0, 1, 0, 1, 0, 1, 0, 2, 0, 2, 0, 0, 16, 0],
    ),
};

pub const NO_ANSWERS: &[AnswersNothing] = &[
    AnswersNothing(Class::Mute, Method::GetState, 1, &[3]),
    AnswersNothing(Class::Mute, Method::GetState, 2, &[2]),
    AnswersNothing(Class::Mute, Method::SetState, 0, &[1]),
    AnswersNothing(Class::Switch, Method::GetPosition, 3, &[0, 1, 0, 0, 0]),
    AnswersNothing(
        Class::Block,
        Method::GetMembersRecursive,
        1,
        &[0, 1, 0, 0, 16, 1, 0, 4, 0, 1, 0, 1, 0, 1, 0, 2, 0, 2],
    ),
];
