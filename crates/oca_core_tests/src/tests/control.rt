//! What the clauses leave open: that calls succeed, runs through a link's life, and a loop over an end in memory.
//! A script is a list of calls with what each must answer, and an assertion tells which of them was answered otherwise.

/// What a link did: turns, what it sent, keep-alives, answers, failed receives and sends, and whether it is lost.
macro_rules! drove {
    ($turns:expr, $sent:expr, $keep_alives:expr, $answered:expr, $receives:expr, $sends:expr, $lost:expr) => {
        DriveReport {
            turns: $turns,
            sent: $sent,
            keep_alives: $keep_alives,
            answered: $answered,
            failed_receives: $receives,
            failed_sends: $sends,
            lost: $lost,
        }
    };
}

mod ends;
pub mod links;
mod reports;
mod standstill;

use oca_types::{MethodId, Ono, Peer, Request};

/// The address of the device.
pub const DEVICE: Peer = peer!(65000);

/// Another address than the device's.
pub const STRANGER: Peer = peer!(65001);

/// A GetState of the object 4097.
pub const GET_STATE: Request = Request {
    target: Ono(4097),
    method: MethodId { level: 4, index: 1 },
    count: 0,
    params: &[],
};

/// A GetState of the object 4097 under the handle 1.
pub const COMMAND: &[u8] = &[
    0x3b, 0, 1, 0, 0, 0, 0x1a, 1, 0, 1, 0, 0, 0, 0x11, 0, 0, 0, 1, 0, 0, 0x10, 1, 0, 4, 0, 1, 0,
];

/// A keep-alive of 5 seconds.
pub const KEEP_ALIVE: &[u8] = &[0x3b, 0, 1, 0, 0, 0, 0x0b, 4, 0, 1, 0, 5];

/// Status, ParamCount and parameters of an answer.
pub type Gave = (u8, u8, &'static [u8]);

/// What [`response`] answers.
pub const ANSWER: Gave = (0, 1, &[1]);

/// The response Ok, with one parameter byte 01, to the command of this handle.
pub fn response(handle: u8) -> [u8; 21] {
    [
        0x3b, 0, 1, 0, 0, 0, 0x14, 3, 0, 1, 0, 0, 0, 0x0b, 0, 0, 0, handle, 0, 1, 1,
    ]
}
