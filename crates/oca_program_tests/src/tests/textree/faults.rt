//! The words of the faults of texts.
use crate::tests::Words;
use oca_textree::{ObjectFault, TreeFault};

pub const DISPLAYED: &[Words<TreeFault>] = &[
    Words(TreeFault::Line(1, ObjectFault::Form), "line 1: form"),
    Words(TreeFault::Line(2, ObjectFault::Number), "line 2: number"),
    Words(TreeFault::Line(3, ObjectFault::Class), "line 3: class"),
    Words(TreeFault::Line(4, ObjectFault::Value), "line 4: value"),
    Words(
        TreeFault::Line(5, ObjectFault::Lockable),
        "line 5: lockable",
    ),
    Words(TreeFault::Line(6, ObjectFault::Text), "line 6: text"),
    Words(TreeFault::Line(7, ObjectFault::Full), "line 7: full"),
    Words(
        TreeFault::Line(8, ObjectFault::Reserved),
        "line 8: reserved",
    ),
    Words(TreeFault::Line(9, ObjectFault::Taken), "line 9: taken"),
    Words(
        TreeFault::Line(10, ObjectFault::Container),
        "line 10: container",
    ),
    Words(TreeFault::Line(11, ObjectFault::Depth), "line 11: depth"),
    Words(TreeFault::Line(12, ObjectFault::Range), "line 12: range"),
    Words(
        TreeFault::Line(u64::MAX, ObjectFault::NoMemory),
        "line 18446744073709551615: no memory",
    ),
    Words(TreeFault::NoMemory, "no memory"),
];
