//! What the clauses leave open: replays between ends that cut what they give and take, or fail at each place, and what
//! goes over sockets. Whole runs of the program are rows of `tools/rows/ocadev.toml`.
use crate::tests::{Said, all_agree, all_hold, fail};
use oca_device::{Device, Outbox};
use oca_tree::bench;
use oca_types::Window;
use std::process::Abort;

mod ends;
mod replay;
mod sockets;
mod traces;

/// GetState of 4097 under handle 1, SetState of it to Unmuted under 3, and GetState under 4.
const UNMUTES: &[u8] = b"0 127.0.0.1:9001 3b00010000001a0100010000001100000001000010010004000100
# now it is set
1 127.0.0.1:9001 3b00010000001b010001000000120000000300001001000400020102

2 127.0.0.1:9001 3B00010000001A0100010000001100000004000010010004000100";

const UNMUTED: &[u8] = b"served 1 0 0
> 3b0001000000140300010000000b00000001000101
served 1 0 0
> 3b0001000000130300010000000a000000030000
served 1 0 0
> 3b0001000000140300010000000b00000004000102
";

/// How the ends of a replay cut what they give and take, and after how many bytes each fails.
#[derive(Clone, Copy)]
struct Cuts {
    piece: usize,
    given: usize,
    most: usize,
    taken: usize,
}

/// Ends that do not fail.
const WHOLE: Cuts = Cuts {
    piece: 4000,
    given: usize::MAX,
    most: 5000,
    taken: usize::MAX,
};

/// What is tried on a device.
trait Trial {
    /// Whether it goes on a device and with its outbox as it must.
    fn goes(&mut self, device: &mut Device, outbox: &mut Outbox, said: &mut Said) -> bool;
}

/// Whether it goes so on the bench device before any event.
fn goes_on_bench<T: Trial>(trial: &mut T, said: &mut Said) -> bool {
    let Ok(tree) = bench(said.alloc) else {
        return false;
    };
    match (
        Device::new(said.alloc, tree, Window::default()),
        Outbox::new(said.alloc),
    ) {
        (Ok(mut device), Ok(mut outbox)) => trial.goes(&mut device, &mut outbox, said),
        _ => false,
    }
}

/// What has this name goes so.
fn on_bench<A: Abort + AllocGlobal, T: Trial>(rt: &A, name: &str, trial: &mut T) {
    let mut said = Said::new(rt.alloc());
    if !goes_on_bench(trial, &mut said) {
        fail(rt, name, 0, &said);
    }
}

#[test]
fn a_device_replays_wherever_it_is_cut(rt: HostRuntime) {
    all_hold(&rt, "in pieces of each size", &ends::Pieces, 1, 100);
    all_hold(
        &rt,
        "wherever the reader fails",
        &ends::Reads,
        0,
        UNMUTES.len(),
    );
    all_hold(
        &rt,
        "wherever the writer fails",
        &ends::Writes,
        0,
        UNMUTED.len(),
    );
}

#[test]
fn a_17th_peer_finds_no_room(rt: HostRuntime) {
    on_bench(
        &rt,
        "a keep-alive of each of 17 peers",
        &mut replay::KeepAlives,
    );
}

#[test]
fn a_device_serves_at_a_socket(rt: HostRuntime) {
    all_agree(&rt, "a report is printed", sockets::REPORTS);
    on_bench(
        &rt,
        "a device and an asker at sockets",
        &mut sockets::AtSockets { system: &rt },
    );
}

#[test]
fn each_datagram_is_traced(rt: HostRuntime) {
    let mut said = Said::new(rt.alloc());
    assert!(rt;
        traces::serves(false, b"", &mut said),
        "nothing is traced: {said}"
    );
    assert!(rt;
        traces::serves(true, traces::TRACE, &mut said),
        "each datagram is traced: {said}"
    );
    assert!(rt;
        traces::counts_while_receives_fail(&mut said),
        "counts while receives fail: {said}"
    );
}

#[test]
fn a_store_that_fails_is_logged_each_minute(rt: HostRuntime) {
    let mut said = Said::new(rt.alloc());
    assert!(rt;
        traces::reminds_each_minute(&mut said),
        "a store that fails is told each minute: {said}"
    );
}
