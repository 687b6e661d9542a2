//! What no clause says: encodings and answers from outside, and each call once.
mod classes;
mod documented;
mod faults;
mod methods;
mod peers;
mod puts;
mod sizes;
mod takes;
mod texts;

use crate::tests::all_agree;
use oca_types::{Params, Peer, PutFault, Status, Text, put_u8, sooner, write_over};

#[test]
fn classes_know_their_names_and_methods(rt: HostRuntime) {
    all_agree(&rt, "classes have fields and names", classes::CLASSES);
    all_agree(&rt, "statuses have numbers and names", classes::STATUSES);
    all_agree(&rt, "a class knows its methods", methods::METHODS);
    all_agree(&rt, "a class has no other methods", methods::OF_NO_CLASS);
    assert_eq!(rt; Status::with_number(15), None);
}

#[test]
fn faults_numbers_and_peers_are_printed(rt: HostRuntime) {
    all_agree(&rt, "faults of takes have words", faults::OF_TAKES);
    all_agree(&rt, "faults of puts have words", faults::OF_PUTS);
    all_agree(&rt, "refused memory has words", faults::OF_MEMORY);
    all_agree(&rt, "a handle is printed", faults::HANDLES);
    all_agree(&rt, "an object number is printed", faults::OBJECTS);
    all_agree(&rt, "a method is printed", faults::METHODS);
    all_agree(&rt, "a peer is printed and read", peers::PEERS);
    all_agree(&rt, "other texts are no peers", peers::NO_PEERS);
}

#[test]
fn numbers_are_taken_and_put(rt: HostRuntime) {
    all_agree(&rt, "numbers are taken", takes::TAKEN);
    all_agree(&rt, "values are put", puts::PUT);
    all_agree(&rt, "a u16 is read back", puts::NUMBERS);
    all_agree(&rt, "an i64 is read back", puts::SIGNED_NUMBERS);
    all_agree(&rt, "a Boolean is read back", puts::BOOLEANS);
}

#[test]
fn a_text_has_its_count_and_at_most_64_bytes(rt: HostRuntime) {
    all_agree(&rt, "worked examples of texts", texts::WORKED_EXAMPLES);
    all_agree(
        &rt,
        "a text has as many characters as it counts",
        texts::COUNTS,
    );
    all_agree(&rt, "a text at its limits", texts::EDGES);
    all_agree(&rt, "a text has at most 64 bytes", texts::SHORT);
    assert_eq!(rt; Text::default().as_str(), "");
}

#[test]
fn no_more_than_1452_bytes_are_put(rt: HostRuntime) {
    let mut params = Params::new();
    for _ in 0..1452u16 {
        let _ = put_u8(&mut params, 7);
    }
    assert_eq!(rt; params.len(), 1452);
    assert_eq!(rt; put_u8(&mut params, 7), Err(PutFault::Full));
}

#[test]
fn bytes_are_written_over_and_moments_compared(rt: HostRuntime) {
    let mut room = [9u8; 3];
    write_over(&mut room, &[1, 2, 3]);
    assert_eq!(rt; room, [1, 2, 3]);
    assert_eq!(rt; Peer::loopback(9001), peer!(9001));
    assert_eq!(rt; sooner(Some(7), Some(6)), Some(6));
}

#[test]
fn sizes_are_limited_and_chosen(rt: HostRuntime) {
    sizes::are_limited(&rt);
    sizes::are_chosen(&rt);
}

#[test]
fn the_examples_of_the_comments_hold(rt: HostRuntime) {
    assert!(rt; documented::take(&rt).is_ok());
    documented::name_a_status(&rt);
}
