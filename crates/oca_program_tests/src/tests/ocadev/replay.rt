//! Scripts that one device replays, one after the other.
use super::Trial;
use crate::tests::Said;
use crate::tests::fakes::{PieceReader, ShortWriter};
use oca_device::{Device, Outbox};
use oca_script::Printer;
use ocadev_replay::replay::replay;

const FOUND_ROOM: &[u8] = b"served 0 0 0\n> 3b00010000000b0400010001\n";

/// A script, and what it gives.
struct Gives(&'static [u8], &'static [u8]);

/// Scripts that one device replays, each by a call of its own: a keep-alive of each of 17 peers.
const KEEP_ALIVES: &[Gives] = &[
    Gives(b"0 127.0.0.1:9001 3b00010000000b0400010001", FOUND_ROOM),
    Gives(b"0 127.0.0.1:9002 3b00010000000b0400010001", FOUND_ROOM),
    Gives(b"0 127.0.0.1:9003 3b00010000000b0400010001", FOUND_ROOM),
    Gives(b"0 127.0.0.1:9004 3b00010000000b0400010001", FOUND_ROOM),
    Gives(b"0 127.0.0.1:9005 3b00010000000b0400010001", FOUND_ROOM),
    Gives(b"0 127.0.0.1:9006 3b00010000000b0400010001", FOUND_ROOM),
    Gives(b"0 127.0.0.1:9007 3b00010000000b0400010001", FOUND_ROOM),
    Gives(b"0 127.0.0.1:9008 3b00010000000b0400010001", FOUND_ROOM),
    Gives(b"0 127.0.0.1:9009 3b00010000000b0400010001", FOUND_ROOM),
    Gives(b"0 127.0.0.1:9010 3b00010000000b0400010001", FOUND_ROOM),
    Gives(b"0 127.0.0.1:9011 3b00010000000b0400010001", FOUND_ROOM),
    Gives(b"0 127.0.0.1:9012 3b00010000000b0400010001", FOUND_ROOM),
    Gives(b"0 127.0.0.1:9013 3b00010000000b0400010001", FOUND_ROOM),
    Gives(b"0 127.0.0.1:9014 3b00010000000b0400010001", FOUND_ROOM),
    Gives(b"0 127.0.0.1:9015 3b00010000000b0400010001", FOUND_ROOM),
    Gives(b"0 127.0.0.1:9016 3b00010000000b0400010001", FOUND_ROOM),
    Gives(b"0 127.0.0.1:9017 3b00010000000b0400010001", b"no-room\n"),
];

/// Whether the device gives that for the script.
fn does_give(device: &mut Device, outbox: &mut Outbox, script: &Gives, said: &mut Said) -> bool {
    let mut from = PieceReader::new(script.0, 1000, usize::MAX);
    let mut to = Printer::new(ShortWriter::new(1000, usize::MAX));
    let ended = replay(device, outbox, &mut from, &mut to);
    said.same(ended, Ok(())) && said.same_text(to.sink().taken.as_slice(), script.1)
}

/// All of them.
#[derive(Drop)]
pub struct KeepAlives;

impl Trial for KeepAlives {
    /// Whether the device gives that for each script.
    fn goes(&mut self, device: &mut Device, outbox: &mut Outbox, said: &mut Said) -> bool {
        for script in KEEP_ALIVES {
            if !does_give(device, outbox, script, said) {
                return false;
            }
        }
        true
    }
}
