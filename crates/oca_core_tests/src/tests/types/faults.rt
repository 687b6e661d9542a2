//! What faults, object numbers, handles and methods print.
use crate::tests::Words;
use oca_types::{Handle, MethodId, NoMemory, Ono, PutFault, ReadFault};

/// Why a take was refused, and the words.
pub const OF_TAKES: &[Words<ReadFault>] = &[
    Words(ReadFault::Short, "the bytes end within a value"),
    Words(ReadFault::NotUtf8, "the text is not UTF-8"),
    Words(ReadFault::TooLong, "the text has more than 64 bytes"),
    Words(ReadFault::Trailing, "bytes are left"),
];

/// A put without room.
pub const OF_PUTS: &[Words<PutFault>] = rows! {
    Words(PutFault::Full, "the parameters would pass 1,452 bytes"),
};

/// Memory that is refused.
pub const OF_MEMORY: &[Words<NoMemory>] = &[Words(NoMemory, "no memory")];

/// A command's handle, its object and its method.
pub const HANDLES: &[Words<Handle>] = &[Words(Handle(0xFFFF_FFFF), "4294967295")];

pub const OBJECTS: &[Words<Ono>] = &[Words(Ono(4097), "4097")];

pub const METHODS: &[Words<MethodId>] = &[Words(MethodId { level: 4, index: 2 }, "4.2")];
