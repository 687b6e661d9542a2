//! What is put, and how much room it needs.
use crate::tests::{Row, Said};
use oca_types::{
    Class, Cursor, Field, Params, PutFault, Text, put_bool, put_class_identification, put_i8,
    put_i16, put_i32, put_i64, put_text, put_u8, put_u16, put_u32, put_u64,
};
use std::fmt::Debug;

/// A value that is put.
#[derive(Clone, Copy)]
pub enum Value {
    U8(u8),
    U16(u16),
    U32(u32),
    U64(u64),
    I8(i8),
    I16(i16),
    I32(i32),
    I64(i64),
    Bool(bool),
    Text(&'static str),
    Identification(Class),
}

/// Puts a text, where it is one; otherwise it has no room.
fn put_short(params: &mut Params, text: &str) -> Result<(), PutFault> {
    match Text::new(text) {
        Some(text) => put_text(params, &text),
        None => Err(PutFault::Full),
    }
}

/// Puts a value.
fn put(params: &mut Params, value: Value) -> Result<(), PutFault> {
    match value {
        Value::U8(value) => put_u8(params, value),
        Value::U16(value) => put_u16(params, value),
        Value::U32(value) => put_u32(params, value),
        Value::U64(value) => put_u64(params, value),
        Value::I8(value) => put_i8(params, value),
        Value::I16(value) => put_i16(params, value),
        Value::I32(value) => put_i32(params, value),
        Value::I64(value) => put_i64(params, value),
        Value::Bool(value) => put_bool(params, value),
        Value::Text(text) => put_short(params, text),
        Value::Identification(class) => put_class_identification(params, class),
    }
}

/// Whether the values are put one after the other.
fn puts_all(params: &mut Params, values: &[Value], said: &mut Said) -> bool {
    for value in values {
        if !said.same(put(params, *value), Ok(())) {
            return false;
        }
    }
    true
}

/// Values, and their bytes.
pub struct AllPut(&'static [Value], &'static [u8]);

impl Row for AllPut {
    /// Whether the values, put one after the other, are these bytes.
    fn agrees(&self, said: &mut Said) -> bool {
        let mut params = Params::new();
        puts_all(&mut params, self.0, said) && said.same(params.as_slice(), self.1)
    }
}

const UNSIGNED: &[Value] = &[
    Value::U8(255),
    Value::U16(0xFFFE),
    Value::U32(0x01020304),
    Value::U64(u64::MAX),
];

const UNSIGNED_BYTES: &[u8] = &[
    255, 255, 254, 1, 2, 3, 4, 255, 255, 255, 255, 255, 255, 255, 255,
];

const SIGNED: &[Value] = &[
    Value::I8(-128),
    Value::I16(-600),
    Value::I32(-2),
    Value::I64(i64::MIN),
];

const SIGNED_BYTES: &[u8] = &[
    0x80, 0xFD, 0xA8, 0xFF, 0xFF, 0xFF, 0xFE, 0x80, 0, 0, 0, 0, 0, 0, 0,
];

const OTHERS: &[Value] = &[
    Value::Bool(false),
    Value::Bool(true),
    Value::Text("Bühne"),
    Value::Identification(Class::Mute),
];

const OTHER_BYTES: &[u8] = &[
    0, 1, 0, 5, 0x42, 0xC3, 0xBC, 0x68, 0x6E, 0x65, 0, 4, 0, 1, 0, 1, 0, 1, 0, 2, 0, 2,
];

pub const PUT: &[AllPut] = &[
    AllPut(UNSIGNED, UNSIGNED_BYTES),
    AllPut(SIGNED, SIGNED_BYTES),
    AllPut(OTHERS, OTHER_BYTES),
];

/// A value of one length.
pub struct ReadBack<F>(F);

impl<F: Field + PartialEq + Debug + Copy> Row for ReadBack<F> {
    /// Whether it is read back from what was put, of so many bytes.
    fn agrees(&self, said: &mut Said) -> bool {
        let mut params = Params::new();
        if self.0.put(&mut params).is_err() || params.len() != F::SIZE {
            return false;
        }
        let mut cursor = Cursor::new(params.as_slice());
        match cursor.take::<F>() {
            Ok(read) => said.same(read, self.0),
            Err(_) => false,
        }
    }
}

pub const NUMBERS: &[ReadBack<u16>] = &[ReadBack(0xFFFE_u16)];

pub const SIGNED_NUMBERS: &[ReadBack<i64>] = &[ReadBack(i64::MIN)];

pub const BOOLEANS: &[ReadBack<bool>] = &[ReadBack(true)];
