//! A schedule, run on a device and links.
ghost use Rattle.std.specs.Prelude.{◌≡◌, ◌&&◌, not, ◌++◌, ◌∷◌, [], IfOk};
ghost use Rattle.std.specs.List.{list_any, list_all};
ghost use Rattle.oca_types.specs.Peers.{same_peer};
ghost use Rattle.oca_types.specs.Sizes.{window_size, sizes_of, span_size};
ghost use Rattle.oca_pair.specs.Networks.{device_address};
ghost use Rattle.oca_pair.specs.Premises.{is_of_another_peer};
ghost use Rattle.oca_pair.specs.PrivateRunning.{is_of_peer};
ghost use Rattle.oca_pair.specs.Transcripts.{RunsSchedule};

use crate::fault::PairFault;
use crate::outcome::Outcome;
use crate::running::{DEVICE, Running, StepFault};
use crate::sent::Sent;
use crate::start::Start;
use crate::step::Step;
use oca_device::Device;
use oca_tree::Tree;
use oca_types::{NoMemory, Peer, Peers, Sizes, Span, Window};
use std::alloc::Global;

/// What a run of a schedule led to: the device at its end, all datagrams, and the outcome of each step.
#[derive(Debug, Drop)]
pub struct Transcript {
    /// The device after the last step.
    pub device: Device,
    /// All datagrams that were sent to the device, in the order of sending, whether they were delivered or not.
    pub to_device: Vec<Sent>,
    /// All datagrams that were sent to links, in the order of sending, whether they were delivered or not.
    pub to_links: Vec<Sent>,
    /// The outcome of each step, in the order of the steps.
    pub log: Vec<Outcome>,
}

/// Runs the steps of a schedule over a device and some links, for tests, and returns what each step did, in the order
/// of the steps. A *schedule* is a list of steps: what is submitted, sent, delivered, taken, renewed or set ([`Step`]).
/// Nothing is sent over a network. The call takes memory from `alloc` for the run. The arguments:
/// - `tree` has the objects of the device, which is at 127.0.0.1:65000 and has sessions of at most 16 peers.
/// - `window` is the size of the reply window: the device keeps the last 1 to 64 accepted commands of each peer with
///   their replies.
/// - `span` is the span of each link until it is renewed, 1 to 32: a new handle is below the lowest handle in flight
///   plus the span.
/// - `starts` has the address and port of each link, and the handle of its first command. Each link is made at moment
///   0.
/// - `steps` are run in order. [`Step`] says which steps have a moment, in milliseconds.
///
/// Refusals, after which nothing of the run is returned:
/// - `SamePeer` if two starts have the same address and port, or a start has the device's. This is checked first.
/// - `BadStep` with the number, from 0, of the first step that can't be run. The step names a link or a datagram that
///   is not there, or is an `Other` from a link's peer.
/// - `NoMemory` if memory was refused before such a step.
pub fn run_pair(
    alloc: Global,
    tree: Tree,
    window: Window,
    span: Span,
    starts: &[Start],
    steps: &[Step<'_>],
) -> Result<Transcript, PairFault>
    ensures { RunsSchedule result (record {
      window = window_size window;
      peers = 16;
    }) (span_size span) tree starts.now steps.now }
{
    let peers = Peers::default();
    run_pair_with_sizes(alloc, tree, Sizes { window, peers }, span, starts, steps)
}

/// Runs the steps of a schedule as [`run_pair`] does, with the same arguments and refusals but for the device's sizes,
/// which are `sizes`: the reply window keeps the last 1 to 64 accepted commands of each peer with their replies, and at
/// most 1 to 64 peers have a session at once.
pub fn run_pair_with_sizes(
    alloc: Global,
    tree: Tree,
    sizes: Sizes,
    span: Span,
    starts: &[Start],
    steps: &[Step<'_>],
) -> Result<Transcript, PairFault>
    ensures { RunsSchedule result (sizes_of sizes) (span_size span) tree starts.now steps.now }
{
    if !are_apart(starts) {
        return Err(PairFault::SamePeer);
    }
    let Ok(mut running) = Running::new(alloc, tree, sizes, span, starts) else {
        return Err(PairFault::NoMemory);
    };
    let mut log = Vec::new(alloc);
    for number in 0..steps.len() {
        match running.take_step(&steps[number]) {
            Ok(outcome) => match add(&mut log, outcome) {
                Ok(()) => {}
                Err(NoMemory) => return Err(PairFault::NoMemory),
            },
            Err(StepFault::NoMemory) => return Err(PairFault::NoMemory),
            Err(StepFault::Missing) => return Err(PairFault::BadStep(number)),
        }
    }
    let Running {
        device,
        to_device,
        to_links,
        ..
    } = running;
    Ok(Transcript {
        device,
        to_device,
        to_links,
        log,
    })
}

/// Adds an outcome as the last one.
fn add(log: &mut Vec<Outcome>, outcome: Outcome) -> Result<(), NoMemory>
    ensures { IfOk result (λ u. log.new.items ≡ log.old.items ++ outcome ∷ []) }
{
    match log.push(outcome) {
        Ok(()) => Ok(()),
        Err(_) => Err(NoMemory),
    }
}

/// Whether no two starts have one peer, and none has the device's.
fn are_apart(starts: &[Start]) -> bool
    ensures { result ≡ Rattle.oca_pair.specs.Premises.are_apart device_address starts.now }
{
    for i in 0..starts.len() {
        if !is_apart(starts[i].peer, &starts[i + 1..]) {
            return false;
        }
    }
    true
}

/// Whether a peer is not the device's, nor that of a later start.
fn is_apart(peer: Peer, later: &[Start]) -> bool
    ensures { result ≡ (not (same_peer peer device_address) && list_all (is_of_another_peer peer) later.now) }
{
    if is_device(peer) {
        return false;
    }
    !has_peer(later, peer)
}

/// Whether the peer is the device's.
fn is_device(peer: Peer) -> bool
    ensures { result ≡ same_peer peer device_address }
{
    peer == DEVICE
}

/// Whether a start has this peer.
fn has_peer(starts: &[Start], peer: Peer) -> bool
    ensures { result ≡ list_any (is_of_peer peer) starts.now }
{
    starts.iter().any(|start| start.peer == peer)
}
