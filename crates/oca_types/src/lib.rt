//! The basic types of AES70: numbers, Booleans and texts and their encodings (AES70-3), classes and
//! methods (AES70-2), and the names of objects, commands and peers that the other crates speak of.
//!
//! Begin with [`Cursor`], which reads values from the front of a slice, and with the `put_` calls,
//! which append them to parameters. Nothing here takes memory, and nothing reads a clock.
//!
//! In the comments of all crates, *profile* marks a choice of this project where the standard leaves one.
#![tactic(auto)]

mod bytes;
mod class;
mod cursor;
mod fault;
mod field;
mod moments;
mod peer;
mod put;
mod sizes;
mod status;
mod text;
mod words;

pub use bytes::write_over;
pub use class::{Access, Class, Method, MethodKind, access_of, class_fields, method_id, method_of};
pub use cursor::Cursor;
pub use fault::{PutFault, ReadFault};
pub use field::Field;
pub use moments::sooner;
pub use put::{
    put_bool, put_class_identification, put_i8, put_i16, put_i32, put_i64, put_text, put_u8,
    put_u16, put_u32, put_u64,
};
pub use sizes::{MOST_PEERS, Peers, Sizes, Span, Window};
pub use status::Status;
pub use text::Text;
pub use words::{
    Command, Handle, LOOPBACK, MOST_BYTES, MOST_COMMAND_PARAMETER_BYTES, MOST_PARAMETER_BYTES,
    MethodId, NoMemory, Ono, Packet, Params, Peer, Reply, ReplyOf, ReplyParts, Request,
};
