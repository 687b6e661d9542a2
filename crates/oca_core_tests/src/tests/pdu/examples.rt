//! The worked examples: datagrams of one message, and one of two.
/// GetState of 4097, handle 1.
pub const GET_STATE: &[u8] = &[
    0x3B, 0, 1, 0, 0, 0, 0x1A, 1, 0, 1, 0, 0, 0, 0x11, 0, 0, 0, 1, 0, 0, 0x10, 1, 0, 4, 0, 1, 0,
];

/// Its response, Muted.
pub const MUTED: &[u8] = &[
    0x3B, 0, 1, 0, 0, 0, 0x14, 3, 0, 1, 0, 0, 0, 0x0B, 0, 0, 0, 1, 0, 1, 1,
];

/// SetState of 4097 to Muted, handle 2.
pub const SET_STATE: &[u8] = &[
    0x3B, 0, 1, 0, 0, 0, 0x1B, 1, 0, 1, 0, 0, 0, 0x12, 0, 0, 0, 2, 0, 0, 0x10, 1, 0, 4, 0, 2, 1, 1,
];

/// Its response.
pub const DONE: &[u8] = &[
    0x3B, 0, 1, 0, 0, 0, 0x13, 3, 0, 1, 0, 0, 0, 0x0A, 0, 0, 0, 2, 0, 0,
];

/// SetSetting of 4100 to -600, handle 7.
pub const SET_SETTING: &[u8] = &[
    0x3B, 0, 1, 0, 0, 0, 0x1C, 1, 0, 1, 0, 0, 0, 0x13, 0, 0, 0, 7, 0, 0, 0x10, 4, 0, 5, 0, 2, 1,
    0xFD, 0xA8,
];

/// The response to GetSetting after it, handle 9.
pub const SETTING: &[u8] = &[
    0x3B, 0, 1, 0, 0, 0, 0x19, 3, 0, 1, 0, 0, 0, 0x10, 0, 0, 0, 9, 0, 3, 0xFD, 0xA8, 0xFD, 0xA8, 2,
    0x58,
];

/// GetMembers of 100, handle 5.
pub const GET_MEMBERS: &[u8] = &[
    0x3B, 0, 1, 0, 0, 0, 0x1A, 1, 0, 1, 0, 0, 0, 0x11, 0, 0, 0, 5, 0, 0, 0, 0x64, 0, 3, 0, 5, 0,
];

/// Its response.
pub const MEMBERS: &[u8] = &[
    0x3B, 0, 1, 0, 0, 0, 0x23, 3, 0, 1, 0, 0, 0, 0x1A, 0, 0, 0, 5, 0, 1, 0, 1, 0, 0, 0x10, 0, 0, 3,
    0, 1, 0, 1, 0, 3, 0, 2,
];

/// The response Locked, handle 1.
pub const LOCKED: &[u8] = &[
    0x3B, 0, 1, 0, 0, 0, 0x13, 3, 0, 1, 0, 0, 0, 0x0A, 0, 0, 0, 1, 3, 0,
];

/// The response to GetRole, `mute`, handle 2.
pub const ROLE: &[u8] = &[
    0x3B, 0, 1, 0, 0, 0, 0x19, 3, 0, 1, 0, 0, 0, 0x10, 0, 0, 0, 2, 0, 1, 0, 4, 0x6D, 0x75, 0x74,
    0x65,
];

/// SetLabel of 4097 to Bühne, handle 1.
pub const SET_LABEL: &[u8] = &[
    0x3B, 0, 1, 0, 0, 0, 0x22, 1, 0, 1, 0, 0, 0, 0x19, 0, 0, 0, 1, 0, 0, 0x10, 1, 0, 2, 0, 9, 1, 0,
    5, 0x42, 0xC3, 0xBC, 0x68, 0x6E, 0x65,
];

/// The response to GetLabel, handle 2.
pub const LABEL: &[u8] = &[
    0x3B, 0, 1, 0, 0, 0, 0x1B, 3, 0, 1, 0, 0, 0, 0x12, 0, 0, 0, 2, 0, 1, 0, 5, 0x42, 0xC3, 0xBC,
    0x68, 0x6E, 0x65,
];

/// A keep-alive of 1 second.
pub const ONE_SECOND: &[u8] = &[0x3B, 0, 1, 0, 0, 0, 0x0B, 4, 0, 1, 0, 1];

/// A keep-alive of 1,500 ms.
pub const MILLISECONDS: &[u8] = &[0x3B, 0, 1, 0, 0, 0, 0x0D, 4, 0, 1, 0, 0, 5, 0xDC];

/// Two GetState in one PDU: of 4097, handle 1, and of 4098, handle 2.
pub const TWO_COMMANDS: &[u8] = &[
    0x3B, 0, 1, 0, 0, 0, 0x2B, 1, 0, 2, 0, 0, 0, 0x11, 0, 0, 0, 1, 0, 0, 0x10, 1, 0, 4, 0, 1, 0, 0,
    0, 0, 0x11, 0, 0, 0, 2, 0, 0, 0x10, 2, 0, 4, 0, 1, 0,
];

/// A keep-alive of 5 seconds.
pub const FIVE_SECONDS: &[u8] = &[0x3B, 0, 1, 0, 0, 0, 0x0B, 4, 0, 1, 0, 5];
