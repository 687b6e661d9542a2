//! Methods of the classes by their numbers.
use crate::tests::{Row, Said};
use oca_types::Class::{Block, Boolean, Int16, Mute, Polarity, Switch, Uint64};
use oca_types::MethodKind::{Known, LeftOut, Unknown};
use oca_types::{Access, Class, Method, MethodId, MethodKind, access_of, method_id, method_of};

/// A class, a DefLevel and a MethodIndex, and what the class knows of them.
pub struct Knows(Class, u16, u16, MethodKind);

pub const METHODS: &[Knows] = rows! {
    Knows(Mute, 1, 1, Known(Method::GetClassIdentification, Access::Read)),
    Knows(Mute, 1, 6, Known(Method::LockReadonly, Access::Locking)),
    Knows(Mute, 1, 7, Unknown),
    Knows(Block, 2, 1, Known(Method::GetEnabled, Access::Read)),
    Knows(Int16, 2, 3, LeftOut),
    Knows(Int16, 2, 7, LeftOut),
    Knows(Int16, 2, 9, Known(Method::SetLabel, Access::Write)),
    Knows(Int16, 2, 13, LeftOut),
    Knows(Int16, 2, 14, Unknown),
    Knows(Block, 3, 0, Unknown),
    Knows(Block, 3, 1, LeftOut),
    Knows(Block, 3, 4, LeftOut),
    Knows(Block, 3, 5, Known(Method::GetMembers, Access::Read)),
    Knows(Block, 3, 7, LeftOut),
    Knows(Block, 3, 20, LeftOut),
    Knows(Block, 3, 21, Unknown),
    Knows(Mute, 3, 1, Unknown),
    Knows(Mute, 4, 2, Known(Method::SetState, Access::Write)),
    Knows(Polarity, 4, 1, Known(Method::GetState, Access::Read)),
    Knows(Mute, 4, 3, Unknown),
    Knows(Switch, 4, 10, Known(Method::SetPositionEnableds, Access::Write)),
    Knows(Switch, 4, 11, Unknown),
    Knows(Switch, 5, 1, Unknown),
    Knows(Int16, 4, 1, Unknown),
    Knows(Uint64, 5, 2, Known(Method::SetSetting, Access::Write)),
    Knows(Int16, 5, 3, Unknown),
    Knows(Int16, 6, 1, Unknown),
    Knows(Int16, 0, 1, Unknown),
};

impl Row for Knows {
    /// Whether the class knows this of the numbers, and a method that is known has them and this access.
    fn agrees(&self, said: &mut Said) -> bool {
        let id = MethodId {
            level: self.1,
            index: self.2,
        };
        if !said.same(method_of(self.0, id), self.3) {
            return false;
        }
        match self.3 {
            Known(method, access) => {
                said.same(method_id(self.0, method), Some(id))
                    && said.same(access_of(method), access)
            }
            LeftOut | Unknown => true,
        }
    }
}

/// A class, and a method that it does not have.
pub struct Lacks(Class, Method);

pub const OF_NO_CLASS: &[Lacks] = &[
    Lacks(Mute, Method::GetPosition),
    Lacks(Switch, Method::GetState),
    Lacks(Mute, Method::GetMembers),
    Lacks(Block, Method::GetSetting),
    Lacks(Boolean, Method::SetState),
];

impl Row for Lacks {
    /// Whether the class does not have the method.
    fn agrees(&self, said: &mut Said) -> bool {
        method_id(self.0, self.1).is_none()
    }
}
