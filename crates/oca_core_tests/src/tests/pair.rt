//! What no clause and no schedule of `tools/world.py` says: that the laws can be called, the numbers of faults, and a
//! device and a link at sockets.
mod turns;

use crate::tests::{Said, fail};
use oca_pair::{
    PairFault, law_answered_in_time, law_answers, law_getting_through, law_never_old,
    law_of_what_is_said, law_once_in_time, law_round_trip,
};
use oca_promise::{law_of_calls, law_of_flights};

#[test]
fn a_device_and_a_link_go_on_turn_by_turn(rt: HostRuntime) {
    let mut said = Said::new(rt.alloc());
    if !turns::agree(&rt, &mut said) {
        fail(&rt, "a device and a link", &said);
    }
}

#[test]
fn the_laws_can_be_called() {
    law_answers();
    law_never_old();
    law_round_trip();
    law_getting_through();
    law_once_in_time();
    law_answered_in_time();
    law_of_what_is_said();
    law_of_calls();
    law_of_flights();
}

#[test]
fn faults_have_numbers(rt: HostRuntime) {
    assert_eq!(rt; PairFault::NoMemory.number(), 1);
    assert_eq!(rt; PairFault::BadStep(7).number(), 2);
    assert_eq!(rt; PairFault::SamePeer.number(), 3);
}
