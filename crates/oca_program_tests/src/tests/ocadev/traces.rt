//! A device that is served until its end is closed, and what is printed of each datagram; and a store that fails.
use crate::tests::Said;
use crate::tests::coming::Coming::{self, Datagram, Failed, Quiet};
use crate::tests::coming::end;
use crate::tests::fakes::ShortWriter;
use oca_device::{Report, Store};
use oca_net::{Heard, MemoryEnd};
use oca_script::Printer;
use oca_tree::{Tree, bench};
use oca_types::{Peer, Sizes};
use ocadev_cli::disk::Disk;
use ocadev_cli::log::Log;
use ocadev_cli::serving::{Served, serve};
use ocadev_cli::store::{FileStore, Kept};
use std::alloc::Global;
use std::io::{self, ErrorKind};

/// SetState of 4097 to Unmuted under handle 1.
const SET: &[u8] =
    b"\x3b\x00\x01\x00\x00\x00\x1b\x01\x00\x01\x00\x00\x00\x12\x00\x00\x00\x01\x00\x00\x10\x01\x00\x04\x00\x02\x01\x02";

/// GetState of 4097 under handle 1.
const GET: &[u8] =
    b"\x3b\x00\x01\x00\x00\x00\x1a\x01\x00\x01\x00\x00\x00\x11\x00\x00\x00\x01\x00\x00\x10\x01\x00\x04\x00\x01\x00";

/// SetState of 4097 under 40 and of 4098 under 50.
const TWO_SETS: &[u8] =
    b"\x3b\x00\x01\x00\x00\x00\x2d\x01\x00\x02\x00\x00\x00\x12\x00\x00\x00\x28\x00\x00\x10\x01\x00\x04\x00\x02\x01\
    \x01\x00\x00\x00\x12\x00\x00\x00\x32\x00\x00\x10\x02\x00\x04\x00\x02\x01\x01";

/// LockTotal of 4098 under handle 60 and of 4099 under 61.
const TWO_LOCKS: &[u8] =
    b"\x3b\x00\x01\x00\x00\x00\x2b\x01\x00\x02\x00\x00\x00\x11\x00\x00\x00\x3c\x00\x00\x10\x02\x00\x01\x00\x03\x00\
    \x00\x00\x00\x11\x00\x00\x00\x3d\x00\x00\x10\x03\x00\x01\x00\x03\x00";

/// Unlock of 4098 under handle 70.
const UNLOCK: &[u8] =
    b"\x3b\x00\x01\x00\x00\x00\x1a\x01\x00\x01\x00\x00\x00\x11\x00\x00\x00\x46\x00\x00\x10\x02\x00\x01\x00\x04\x00";

const FIRST: Peer = Peer {
    ip: 0x0a00_0001,
    port: 9001,
};

const SECOND: Peer = Peer {
    ip: 0x0a00_0001,
    port: 9002,
};

const THIRD: Peer = Peer {
    ip: 0x0a00_0001,
    port: 9003,
};

/// The peer of a datagram with more bytes than one has.
const OTHER: Peer = Peer { ip: 1, port: 1 };

const SCRIPT: &[Coming] = &[
    Datagram(FIRST, SET, 0),
    Datagram(FIRST, SET, 0),
    Datagram(FIRST, GET, 0),
    Datagram(FIRST, TWO_SETS, 0),
    Datagram(SECOND, b"\x3b\x00", 0),
    Datagram(OTHER, &[0u8; 1473], 0),
    Failed,
    Quiet(1),
    Datagram(FIRST, TWO_LOCKS, 0),
    Datagram(FIRST, TWO_LOCKS, 0),
    Datagram(THIRD, UNLOCK, 0),
    Datagram(FIRST, UNLOCK, 0),
];

/// An end that gives the script. The third send fails, which is that of the fourth datagram, since a reuse is not
/// answered.
fn end_of_script(alloc: Global) -> Option<MemoryEnd> {
    end(alloc, SCRIPT, 9, Some(2))
}

const REPORT: Report = Report {
    turns: 12,
    executed: 7,
    kept: 3,
    old: 0,
    reused: 1,
    malformed: 1,
    no_room: 0,
    oversize: 1,
    quiet: 1,
    failed_receives: 1,
    failed_sends: 1,
};

/// The trace of the script.
pub const TRACE: &[u8] = b"10.0.0.1:9001 served 1 0 0 wrote 4097
10.0.0.1:9001 served 0 1 0
10.0.0.1:9001 served 0 0 0 reused 1
10.0.0.1:9001 served 2 0 0 wrote 4097 4098 failed-sends 1
10.0.0.1:9002 malformed 9 at 1
oversize
10.0.0.1:9001 served 2 0 0 locked 4098 locked 4099
10.0.0.1:9001 served 0 2 0
10.0.0.1:9003 served 1 0 0 refused 4098 Locked
10.0.0.1:9001 served 1 0 0 unlocked 4098
";

/// Whether the bench device serves the script so, its end takes so many packets, and this is logged.
pub fn serves(verbose: bool, logged: &[u8], said: &mut Said) -> bool {
    let Ok(tree) = bench(said.alloc) else {
        return false;
    };
    let Ok(mut served) = Served::new(said.alloc, tree, Sizes::default()) else {
        return false;
    };
    let Some(mut end) = end_of_script(said.alloc) else {
        return false;
    };
    let mut faults = Printer::new(ShortWriter::new(7, usize::MAX));
    let mut log = Log::new(said.alloc, verbose, None, &mut faults);
    let unkept: Option<Kept<'_, Full>> = None;
    let report = serve(&mut served, &mut end, unkept, &mut log, None);
    said.same(report, REPORT)
        && said.same(end.taken().len(), 6)
        && said.same_text(faults.sink().taken.as_slice(), logged)
}

/// What is logged of 39 receives that fail, of 50 ms each, where the counts are told each second.
const COUNTS: &[u8] =
    b"note: turns 20 executed 0 kept 0 old 0 reused 0 malformed 0 no-room 0 oversize 0 quiet 0 failed-receives 20 \
    failed-sends 0 sessions 0 locks 0\n";

/// Whether the counts so far are told while each receive fails.
pub fn counts_while_receives_fail(said: &mut Said) -> bool {
    let Ok(tree) = bench(said.alloc) else {
        return false;
    };
    let Ok(mut served) = Served::new(said.alloc, tree, Sizes::default()) else {
        return false;
    };
    let Some(mut end) = end(said.alloc, &[Failed; 39], 0, None) else {
        return false;
    };
    let mut faults = Printer::new(ShortWriter::new(7, usize::MAX));
    let mut log = Log::new(said.alloc, false, Some(1), &mut faults);
    let unkept: Option<Kept<'_, Full>> = None;
    let report = serve(&mut served, &mut end, unkept, &mut log, None);
    said.same(report.failed_receives, 39) && said.same_text(faults.sink().taken.as_slice(), COUNTS)
}

/// A disk that refuses each step.
#[derive(Clone, Copy)]
struct Full;

impl Disk for Full {
    ghost use Rattle.ocadev_cli.specs.Storing.{silent_disk};

    ghost state = { λ _. silent_disk };

    fn write_new(&mut self, _tree: &Tree) -> io::Result<()> {
        refused()
    }

    fn sync_new(&mut self) -> io::Result<()> {
        refused()
    }

    fn replace(&mut self) -> io::Result<()> {
        refused()
    }

    fn sync_folder(&mut self) -> io::Result<()> {
        refused()
    }
}

fn refused() -> io::Result<()> {
    Err(io::Error::new(ErrorKind::Other, "it is full"))
}

/// The moments of turns behind a store that failed, and what is logged of it.
const QUIET: &[u64] = &[1000, 1050, 60_999, 61_000, 61_050, 120_999, 121_000];

const REMINDERS: &[u8] = b"note: the state is not kept: state: it is full
note: the state is not kept for 60 s: state: it is full
note: the state is not kept for 120 s: state: it is full
";

/// Whether a store that fails is logged at once, and again each minute.
pub fn reminds_each_minute(said: &mut Said) -> bool {
    let Ok(tree) = bench(said.alloc) else {
        return false;
    };
    let Ok(served) = Served::new(said.alloc, tree, Sizes::default()) else {
        return false;
    };
    let mut faults = Printer::new(ShortWriter::new(7, usize::MAX));
    let mut log = Log::new(said.alloc, false, None, &mut faults);
    let mut disk = Full;
    let mut store = FileStore::new("state", &mut disk, &mut log);
    let is_stored = store.store(served.device.tree());
    for now in QUIET {
        let heard = Heard::Quiet { now: *now };
        store.tell(
            heard,
            &[],
            &served.outbox,
            &Report::default(),
            &served.device,
        );
    }
    !is_stored && said.same_text(faults.sink().taken.as_slice(), REMINDERS)
}
