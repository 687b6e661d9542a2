//! Trees that are set or made, written as texts and read back.
use crate::tests::fakes::ShortWriter;
use crate::tests::{Row, Said};
use oca_script::Printer;
use oca_textree::{print_tree, tree_from_text};
use oca_tree::{MuteState, PolarityState, Tree, Value, bench_with_channels};
use oca_types::Ono;
use std::alloc::Global;

/// Room for all that is written.
const NO_LIMIT: usize = 100_000;

/// Whether a tree is written as this text.
fn is_written_as(tree: &Tree, text: &[u8], said: &mut Said) -> bool {
    let mut to = Printer::new(ShortWriter::new(100, NO_LIMIT));
    print_tree(tree, &mut to).is_ok()
        && to.flush().is_ok()
        && said.same_text(to.sink().taken.as_slice(), text)
}

/// Whether a text is read as this tree.
fn is_read_as(alloc: Global, text: &[u8], tree: &Tree) -> bool {
    match tree_from_text(alloc, text) {
        Ok(again) => again.is_but_for_locks(tree),
        Err(_) => false,
    }
}

/// Whether a tree is written as a text that is read back as the same tree.
fn is_read_back(alloc: Global, tree: &Tree) -> bool {
    let mut to = Printer::new(ShortWriter::new(1000, NO_LIMIT));
    print_tree(tree, &mut to).is_ok()
        && to.flush().is_ok()
        && is_read_as(alloc, to.sink().taken.as_slice(), tree)
}

/// A text, the value to which the local front panel sets its object 4097, and the text that is written then: that as
/// before where it cannot be set so.
pub struct Set(&'static [u8], Value, &'static [u8]);

/// Whether a tree is written as the row says, and read back from that, once the object 4097 is set.
fn is_set(alloc: Global, tree: &mut Tree, row: &Set, said: &mut Said) -> bool {
    let _ = tree.set(Ono(4097), row.1);
    is_written_as(tree, row.2, said) && is_read_as(alloc, row.2, tree)
}

impl Row for Set {
    /// Whether the tree of the text is written so once its object is set, and read back.
    fn agrees(&self, said: &mut Said) -> bool {
        match tree_from_text(said.alloc, self.0) {
            Ok(mut tree) => is_set(said.alloc, &mut tree, self, said),
            Err(_) => false,
        }
    }
}

/// Values at their limits, beyond them, of a position that is not enabled, and of another class.
pub const SETS: &[Set] = &[
    Set(
        b"root on \"\"\nobject 4097 100 mute muted lockable \"m\" off \"A\"\n",
        Value::Mute(MuteState::Unmuted),
        b"root on \"\"\nobject 4097 100 mute unmuted lockable \"m\" off \"A\"\n",
    ),
    Set(
        b"root on \"\"\nobject 4097 100 polarity inverted lockable \"p\" on \"\"\n",
        Value::Polarity(PolarityState::NonInverted),
        b"root on \"\"\nobject 4097 100 polarity non-inverted lockable \"p\" on \"\"\n",
    ),
    Set(
        b"root on \"\"\nobject 4097 100 switch 101 \"a,b,c\" 0 lockable \"s\" on \"\"\n",
        Value::Switch(2),
        b"root on \"\"\nobject 4097 100 switch 101 \"a,b,c\" 2 lockable \"s\" on \"\"\n",
    ),
    Set(
        b"root on \"\"\nobject 4097 100 switch 110 \"a,b,c\" 0 lockable \"s\" on \"\"\n",
        Value::Switch(2),
        b"root on \"\"\nobject 4097 100 switch 110 \"a,b,c\" 0 lockable \"s\" on \"\"\n",
    ),
    Set(
        b"root on \"\"\nobject 4097 100 switch 111 \"a,b,c\" 0 lockable \"s\" on \"\"\n",
        Value::Switch(3),
        b"root on \"\"\nobject 4097 100 switch 111 \"a,b,c\" 0 lockable \"s\" on \"\"\n",
    ),
    Set(
        b"root on \"\"\nobject 4097 100 boolean off no-lock \"b\" on \"\"\n",
        Value::Boolean(true),
        b"root on \"\"\nobject 4097 100 boolean on no-lock \"b\" on \"\"\n",
    ),
];

pub const NUMBERS: &[Set] = &[
    Set(
        b"root on \"\"\nobject 4097 100 int16 -600 600 0 lockable \"n\" on \"\"\n",
        Value::Int16(-600),
        b"root on \"\"\nobject 4097 100 int16 -600 600 -600 lockable \"n\" on \"\"\n",
    ),
    Set(
        b"root on \"\"\nobject 4097 100 int16 -600 600 0 lockable \"n\" on \"\"\n",
        Value::Int16(-601),
        b"root on \"\"\nobject 4097 100 int16 -600 600 0 lockable \"n\" on \"\"\n",
    ),
    Set(
        b"root on \"\"\nobject 4097 100 int16 -600 600 0 lockable \"n\" on \"\"\n",
        Value::Int32(5),
        b"root on \"\"\nobject 4097 100 int16 -600 600 0 lockable \"n\" on \"\"\n",
    ),
    Set(
        b"root on \"\"\nobject 4097 100 uint64 0 18446744073709551615 0 lockable \"n\" on \"\"\n",
        Value::Uint64(18_446_744_073_709_551_615),
        b"root on \"\"\nobject 4097 100 uint64 0 18446744073709551615 18446744073709551615 lockable \"n\" on \"\"\n",
    ),
];

/// A bench with so many channels.
pub struct Bench(u16);

pub const BENCHES: &[Bench] = &[Bench(10)];

impl Row for Bench {
    /// Whether its tree is read back.
    fn agrees(&self, said: &mut Said) -> bool {
        match bench_with_channels(said.alloc, self.0) {
            Ok(tree) => is_read_back(said.alloc, &tree),
            Err(_) => false,
        }
    }
}
