//! What no clause says: datagrams from outside, and each call once.
mod checking;
mod examples;
mod extending;
mod faults;
mod printing;
mod reading;
mod writing;

use crate::tests::all_agree;

#[test]
fn the_first_fault_is_found_at_its_place(rt: HostRuntime) {
    all_agree(
        &rt,
        "a malformed datagram has its first fault at its place",
        faults::WORKED_EXAMPLES,
    );
    all_agree(&rt, "the largest numbers are refused", faults::LARGEST);
    all_agree(
        &rt,
        "a well-formed datagram has its messages",
        faults::ACCEPTED,
    );
    all_agree(&rt, "faults have numbers and words", printing::KINDS);
    all_agree(&rt, "a fault is printed with its place", printing::PLACES);
    all_agree(&rt, "faults of writes have words", printing::OF_WRITES);
}

#[test]
fn what_is_written_is_read(rt: HostRuntime) {
    all_agree(&rt, "worked examples are read", reading::MESSAGES);
    all_agree(&rt, "the commands of a datagram", reading::COMMANDS);
    all_agree(&rt, "a response joins the PDU before it", extending::JOINED);
    all_agree(&rt, "packets are written", writing::SCRIPTS);
}
