//! Replies by their parts.
use oca_types::{Params, Reply, Status};

/// The parts of a reply.
#[derive(Clone, Copy)]
pub struct Answer {
    pub status: Status,
    pub count: u8,
    pub params: &'static [u8],
}

/// A reply of these parts.
pub fn reply(status: Status, count: u8, bytes: &[u8]) -> Reply {
    let mut params = Params::new();
    let _ = params.try_extend_from_slice(bytes);
    Reply {
        status,
        count,
        params,
    }
}
