//! What the clauses leave open: that a call succeeds, and what texts give.
mod escapes;
mod fields;
mod printing;
mod replays;
mod waits;

use crate::tests::{Said, all_agree, all_hold};

#[test]
fn numbers_and_moments_are_read(rt: HostRuntime) {
    all_agree(&rt, "numbers", fields::NUMBERS);
    all_agree(&rt, "moments", fields::MOMENTS);
    all_agree(&rt, "a number before a separator", fields::BEFORE);
}

#[test]
fn peers_and_fields_are_read(rt: HostRuntime) {
    all_agree(&rt, "peers", fields::PEERS);
    all_agree(&rt, "addresses", fields::ADDRESSES);
    all_agree(&rt, "a peer before a separator", fields::PEERS_BEFORE);
    all_agree(&rt, "bytes in hexadecimal", fields::HEXADECIMAL);
    all_agree(&rt, "the fields of a line", fields::FIELDS);
}

#[test]
fn lines_are_printed(rt: HostRuntime) {
    let mut said = Said::new(rt.alloc());
    all_agree(
        &rt,
        "hidden characters are printed as numbers",
        escapes::TEXTS,
    );
    all_agree(
        &rt,
        "a printer hands on what it has no room for",
        printing::MORE_ROWS,
    );
    assert!(rt;
        printing::prints_a_line(&mut said),
        "a line is printed: {said}"
    );
}

#[test]
fn each_fault_has_words(rt: HostRuntime) {
    all_agree(&rt, "faults of lines", printing::OF_LINES);
    all_agree(&rt, "faults of replays", printing::OF_REPLAYS);
    all_agree(&rt, "faults have words", printing::WORDS);
    all_agree(&rt, "ends have words", printing::OF_STOPS);
    all_agree(&rt, "a failed read has words", printing::OF_READS);
    all_agree(&rt, "a failed write has words", printing::OF_WRITES);
}

#[test]
fn lines_and_scripts_have_a_longest_one(rt: HostRuntime) {
    all_agree(&rt, "which lines are served", replays::FORMS);
    all_agree(&rt, "a line has at most 4,096 bytes", replays::LENGTHS);
    all_agree(&rt, "a line behind a longest one", replays::AFTER);
    all_agree(&rt, "a script has at most 16,777,216 bytes", replays::LINES);
    all_agree(&rt, "a line without an end is too long", replays::PATTERNS);
}

#[test]
fn a_replay_ends_where_an_end_fails(rt: HostRuntime) {
    all_hold(&rt, "in pieces of each size", &replays::Pieces, 1, 30);
    all_hold(
        &rt,
        "wherever a read fails",
        &replays::Reads,
        0,
        replays::SCRIPT.len(),
    );
    all_hold(
        &rt,
        "wherever a write fails",
        &replays::Writes,
        0,
        replays::TEXT.len(),
    );
}

#[test]
fn readers_and_writers_end_a_replay_likewise(rt: HostRuntime) {
    let mut said = Said::new(rt.alloc());
    all_hold(
        &rt,
        "through a writer that fails",
        &replays::FAILING,
        0,
        replays::TEXT.len() + 1,
    );
    all_hold(
        &rt,
        "through a writer that takes nothing",
        &replays::FULL,
        0,
        replays::TEXT.len() + 1,
    );
    assert!(rt;
        replays::ends_through_reader(&mut said),
        "through a reader that fails: {said}"
    );
    assert!(rt;
        replays::is_written_before_a_read(&mut said),
        "a line is written before the next read: {said}"
    );
}
