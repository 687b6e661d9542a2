//! An actuator of each integer type, at its limits.
use super::script::Addition::One;
use super::script::Over::Built;
use super::script::Row::{Holds, Reads, Sends};
use super::script::{Addition, At, Script};
use super::words::*;
use crate::tests::all_agree;
use oca_tree::{Kind, Setting, Spec};
use oca_types::Status;

/// An integer with these limits.
macro_rules! integer {
    ($kind:ident, $setting:expr, $type:ty) => {
        Spec {
            role: "number",
            lockable: false,
            kind: Kind::$kind { setting: $setting, least: <$type>::MIN, greatest: <$type>::MAX },
        }
    };
}

const INTEGERS: &[Addition] = rows! {
    One(100, 4096, integer!(Int8, -1, i8), Ok(())),
    One(100, 4097, integer!(Int16, -1, i16), Ok(())),
    One(100, 4098, integer!(Int32, -1, i32), Ok(())),
    One(100, 4099, integer!(Int64, -1, i64), Ok(())),
    One(100, 4100, integer!(Uint8, 1, u8), Ok(())),
    One(100, 4101, integer!(Uint16, 1, u16), Ok(())),
    One(100, 4102, integer!(Uint32, 1, u32), Ok(())),
    One(100, 4103, integer!(Uint64, 1, u64), Ok(())),
};

const OF_INT32: &[u8] = &[255, 255, 255, 255, 128, 0, 0, 0, 127, 255, 255, 255];

const OF_INT64: &[u8] = &[
    255, 255, 255, 255, 255, 255, 255, 255, 128, 0, 0, 0, 0, 0, 0, 0, 127, 255, 255, 255, 255, 255,
    255, 255,
];

const OF_UINT32: &[u8] = &[0, 0, 0, 1, 0, 0, 0, 0, 255, 255, 255, 255];

const OF_UINT64: &[u8] = &[
    0, 0, 0, 0, 0, 0, 0, 1, 0, 0, 0, 0, 0, 0, 0, 0, 255, 255, 255, 255, 255, 255, 255, 255,
];

// The setting and the limits of each.
const SETTINGS: &[At] = rows! {
    At(4096, &[Reads(GET_SETTING, 3, &[255, 128, 127])]),
    At(4097, &[Reads(GET_SETTING, 3, &[255, 255, 128, 0, 127, 255])]),
    At(4098, &[Reads(GET_SETTING, 3, OF_INT32)]),
    At(4099, &[Reads(GET_SETTING, 3, OF_INT64)]),
    At(4100, &[Reads(GET_SETTING, 3, &[1, 0, 255])]),
    At(4101, &[Reads(GET_SETTING, 3, &[0, 1, 0, 0, 255, 255])]),
    At(4102, &[Reads(GET_SETTING, 3, OF_UINT32)]),
    At(4103, &[Reads(GET_SETTING, 3, OF_UINT64)]),
};

// A number is set in its own width, and in no other.
const WIDTHS: &[At] = rows! {
    At(4098, &[Sends(SET_SETTING, 1, &[0, 0, 1], Status::ParameterError)]),
    At(4103, &[
        Sends(SET_SETTING, 1, &[255, 255, 255, 255, 255, 255, 255, 255], Status::Ok),
        Holds(
            Some(
                Setting::Number { setting: 18_446_744_073_709_551_615, least: 0, greatest: 18_446_744_073_709_551_615 },
            ),
        ),
    ]),
};

const SCRIPTS: &[Script] = rows! {
    Script("every_integer_type", Built(INTEGERS), SETTINGS),
    Script("widths_of_integers", Built(INTEGERS), WIDTHS),
};

#[test]
fn integers_are_set_in_their_own_width(rt: HostRuntime) {
    all_agree(&rt, "integers", SCRIPTS);
}
