//! Numbers and Booleans that are taken.
use crate::tests::{Row, Said};
use oca_types::{Cursor, ReadFault};

/// What is taken, and what that answers.
#[derive(Clone, Copy)]
pub enum Take {
    U8(Result<u8, ReadFault>),
    U16(Result<u16, ReadFault>),
    U32(Result<u32, ReadFault>),
    U64(Result<u64, ReadFault>),
    I8(Result<i8, ReadFault>),
    I16(Result<i16, ReadFault>),
    I32(Result<i32, ReadFault>),
    I64(Result<i64, ReadFault>),
    Bool(Result<bool, ReadFault>),
    Finish(Result<(), ReadFault>),
}

/// Whether a take answers so.
fn answers(cursor: &mut Cursor<'_>, take: Take, said: &mut Said) -> bool {
    match take {
        Take::U8(answer) => said.same(cursor.take_u8(), answer),
        Take::U16(answer) => said.same(cursor.take_u16(), answer),
        Take::U32(answer) => said.same(cursor.take_u32(), answer),
        Take::U64(answer) => said.same(cursor.take_u64(), answer),
        Take::I8(answer) => said.same(cursor.take_i8(), answer),
        Take::I16(answer) => said.same(cursor.take_i16(), answer),
        Take::I32(answer) => said.same(cursor.take_i32(), answer),
        Take::I64(answer) => said.same(cursor.take_i64(), answer),
        Take::Bool(answer) => said.same(cursor.take_bool(), answer),
        Take::Finish(answer) => said.same(cursor.finish(), answer),
    }
}

/// Bytes, and what is taken of them in order.
pub struct Taken(&'static [u8], &'static [Take]);

impl Row for Taken {
    /// Whether each of the takes answers so.
    fn agrees(&self, said: &mut Said) -> bool {
        let mut cursor = Cursor::new(self.0);
        for take in self.1 {
            if !answers(&mut cursor, *take, said) {
                return false;
            }
        }
        true
    }
}

const UNSIGNED_BYTES: &[u8] = &[
    255, 255, 254, 1, 2, 3, 4, 255, 255, 255, 255, 255, 255, 255, 255,
];

const UNSIGNED: &[Take] = &[
    Take::U8(Ok(255)),
    Take::U16(Ok(0xFFFE)),
    Take::U32(Ok(0x01020304)),
    Take::U64(Ok(u64::MAX)),
    Take::Finish(Ok(())),
];

const SIGNED_BYTES: &[u8] = &[
    0x80, 0xFD, 0xA8, 0xFF, 0xFF, 0xFF, 0xFE, 0x80, 0, 0, 0, 0, 0, 0, 0,
];

const SIGNED: &[Take] = &[
    Take::I8(Ok(-128)),
    Take::I16(Ok(-600)),
    Take::I32(Ok(-2)),
    Take::I64(Ok(i64::MIN)),
    Take::Finish(Ok(())),
];

const UNSIGNED_CUT: &[Take] = &[
    Take::U64(Err(ReadFault::Short)),
    Take::U32(Err(ReadFault::Short)),
    Take::U16(Ok(0x0102)),
    Take::U16(Err(ReadFault::Short)),
    Take::Finish(Err(ReadFault::Trailing)),
    Take::U8(Ok(3)),
    Take::U8(Err(ReadFault::Short)),
    Take::Bool(Err(ReadFault::Short)),
];

const BOOLEANS: &[Take] = &[
    Take::Bool(Ok(false)),
    Take::Bool(Ok(true)),
    Take::Bool(Ok(true)),
    Take::Bool(Ok(true)),
    Take::Finish(Ok(())),
];

pub const TAKEN: &[Taken] = &[
    Taken(UNSIGNED_BYTES, UNSIGNED),
    Taken(SIGNED_BYTES, SIGNED),
    Taken(&[1, 2, 3], UNSIGNED_CUT),
    Taken(&[0, 1, 2, 255], BOOLEANS),
];
