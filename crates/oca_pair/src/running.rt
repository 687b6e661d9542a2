//! A network as it runs: the device, the links, and what was sent.
ghost use Rattle.std.specs.Prelude.{◌≡◌, ◌++◌, ◌∷◌, [], ℕ, IfOk, Ok, map, Option, Some, None};
ghost use Rattle.std.specs.Result.{result_err};
ghost use Rattle.oca_types.specs.Sizes.{sizes_of, span_size};
ghost use Rattle.oca_tree.specs.LocalChanges.{ToValue, ToLabel, ToEnabled, ToUnlocked, ToFailing};
ghost use Rattle.oca_control.specs.Links.{request_with, submitted, submission, decision, gone_on, received, reception};
ghost use Rattle.oca_control.specs.Links.{GivesKeepAlive, due_bytes, taken};
ghost use Rattle.oca_control.specs.Untaken.{answer_under};
ghost use Rattle.oca_pair.specs.Networks.{Network, SentDatagram, started, opening, device_address, run_setup};
ghost use Rattle.oca_pair.specs.Steps.{Submit, Due as DueStep, ToDevice, ToLink, Other, Tick as TickStep, Local, Take};
ghost use Rattle.oca_pair.specs.Steps.{Beside, Renew, sendings_in, hears_datagram, submit_outcome};
ghost use Rattle.oca_pair.specs.Steps.{content_read, take_outcome, front_outcome};
ghost use Rattle.oca_pair.specs.PrivateRunning.{first_heard};

use crate::given::Given;
use crate::outcome::Outcome;
use crate::sent::Sent;
use crate::start::Start;
use crate::step::Step;
use oca_control::{Due, Link, Reception};
use oca_device::{Device, Outbox};
use oca_pdu::{Form, law_reading, write_keepalive};
use oca_tree::{FrontFault, Tree, Value};
use oca_types::{Handle, LOOPBACK, MethodId, NoMemory, Ono, Packet, Peer, Sizes, Span};
use std::alloc::Global;
use std::marker::Model;

/// Where the device is: 127.0.0.1:65000.
pub(crate) const DEVICE: Peer = Peer {
    ip: LOOPBACK,
    port: 65000,
};

/// Why a step is not taken.
#[derive(Clone, Copy, PartialEq, Eq)]
pub(crate) enum StepFault {
    /// Memory was refused.
    NoMemory,
    /// The step names what is not there.
    Missing,
}

/// A link to the device, and the peer whose it is.
#[derive(Drop)]
pub(crate) struct PeerLink {
    peer: Peer,
    link: Link,
}

impl Model for PeerLink {
    ghost use Rattle.std.specs.Prelude.{◌≡◌};
    ghost use Rattle.oca_pair.specs.Networks.{PeerLink as LinkOfPeer, device_address};

    ghost Value = { LinkOfPeer };

    ghost view = { λ l. record { peer = l.peer; link = l.link } };

    ghost invariant = { λ l. l.link.device ≡ device_address };
}

impl PeerLink {
    ghost use Rattle.oca_pair.specs.Steps.{hears_datagram, renewal_outcome};
    ghost use Rattle.oca_pair.specs.PrivateRunning.{GivesBy, heard, in_its_place};

    /// Submits a command to the link.
    fn submit(
        &mut self,
        target: Ono,
        method: MethodId,
        count: u8,
        params: &[u8],
        now: u64,
    ) -> Outcome
        ensures answer { let request = request_with target method count params.now in
            result ≡ submit_outcome (submission request self.old.link) }
        ensures link { let request = request_with target method count params.now in
            self.new ≡ record { peer = self.old.peer; link = submitted request now self.old.link } }
    {
        match self.link.submit(target, method, count, params, now) {
            Ok(handle) => Outcome::Submitted(handle),
            Err(fault) => Outcome::Refused(fault),
        }
    }

    /// Sends what is due of the link.
    fn due(&mut self, now: u64) -> Given
        ensures answer { GivesBy result (decision now self.old.link) }
        ensures link { self.new ≡ record { peer = self.old.peer; link = gone_on now self.old.link } }
    {
        let mut packet = Packet::new();
        match self.link.due(now, &mut packet) {
            Due::Send(_) => Given::Datagram(packet),
            Due::KeepAlive => Given::Datagram(packet),
            Due::Nothing => Given::Nothing,
            Due::Lost => Given::Lost,
        }
    }

    /// Takes a datagram of the device in.
    fn datagram(&mut self, bytes: &[u8], now: u64) -> Reception
        ensures answer { result ≡ reception device_address (content_read bytes.now) self.old.link }
        ensures link { self.new
            ≡ record {
              peer = self.old.peer;
              link = received device_address (content_read bytes.now) now self.old.link;
            } }
    {
        law_reading();
        self.link.datagram(DEVICE, bytes, now)
    }

    /// Takes a datagram of the device in where it is for this peer.
    fn hear(&mut self, peer: Peer, bytes: &[u8], now: u64) -> Option<Reception>
        ensures answer { result ≡ heard (record { peer = peer; bytes = bytes.now }) self.old }
        ensures link { self.new ≡
            hears_datagram device_address (record { peer = peer; bytes = bytes.now }) now self.old }
    {
        if self.peer() == peer {
            return Some(self.datagram(bytes, now));
        }
        None
    }

    /// Takes the answer under the handle.
    fn take(&mut self, handle: Handle) -> Outcome
        ensures answer { result ≡ take_outcome (answer_under handle.0 self.old.link.untaken) }
        ensures link { self.new ≡ record { peer = self.old.peer; link = taken handle.0 self.old.link } }
    {
        match self.link.take(handle) {
            Some(answer) => Outcome::Answer(answer),
            None => Outcome::NoAnswer,
        }
    }

    /// Whether a new link may take its place whose first handle is this one.
    fn is_no_lower(&self, first: Handle) -> bool
        ensures { result ≡ Rattle.oca_pair.specs.Steps.is_no_lower first.0 self.now.link.next }
    {
        match self.link.next_handle() {
            Some(next) => next.0 <= first.0,
            None => false,
        }
    }

    /// Puts a new link in its place, where the first handle is no lower than the next one.
    fn renew(&mut self, first: Handle, span: Span, now: u64) -> Outcome
        ensures answer { result
            ≡ renewal_outcome (Rattle.oca_pair.specs.Steps.is_no_lower first.0 self.old.link.next) }
        ensures link { self.new ≡ in_its_place first.0 (span_size span) now self.old }
    {
        if !self.is_no_lower(first) {
            return Outcome::NotRenewed;
        }
        self.link = Link::new(DEVICE, first, now, span);
        Outcome::Renewed
    }

    /// The peer whose it is.
    fn peer(&self) -> Peer
        ensures { result ≡ self.now.peer }
    {
        self.peer
    }
}

/// The device with room for its answers, the links, and the datagrams that were sent to the device and to links.
#[derive(Drop)]
pub(crate) struct Running {
    pub(crate) device: Device,
    outbox: Outbox,
    links: Vec<PeerLink>,
    pub(crate) to_device: Vec<Sent>,
    pub(crate) to_links: Vec<Sent>,
}

impl Running {
    ghost use Rattle.oca_pair.specs.Transcripts.{step_of};
    ghost use Rattle.oca_pair.specs.PrivateRunning.{Shows, Took};

    /// A device of these objects to which nothing happened, and a new link for each start.
    pub(crate) fn new(
        alloc: Global,
        tree: Tree,
        sizes: Sizes,
        span: Span,
        starts: &[Start],
    ) -> Result<Running, NoMemory>
        ensures { IfOk result (λ r. Shows r (opening (sizes_of sizes) (run_setup (span_size span)) tree starts.now)) }
    {
        let device = Device::with_sizes(alloc, tree, sizes)?;
        let outbox = Outbox::new(alloc)?;
        let links = links_of(alloc, span, starts)?;
        Ok(Running {
            device,
            outbox,
            links,
            to_device: Vec::new(alloc),
            to_links: Vec::new(alloc),
        })
    }

    /// Takes a step, and returns what it led to. `Missing` where it names what is not there.
    pub(crate) fn take_step(&mut self, step: &Step<'_>) -> Result<Outcome, StepFault>
        ensures { (n : Network) → Shows self.old n → Took result (step_of step.now) n self.new }
    {
        match *step {
            Step::Submit {
                link,
                target,
                method,
                count,
                params,
                now,
            } => self.submit(link, target, method, count, params, now),
            Step::Due { link, now } => self.due(link, now),
            Step::ToDevice { k, now } => self.deliver_to_device(k, now),
            Step::ToLink { k, now } => self.deliver_to_link(k, now),
            Step::Other { from, bytes, now } => self.deliver_other(from, bytes, now),
            Step::Tick { now } => Ok(self.tick(now)),
            Step::Local { ono, value } => Ok(self.set(ono, value)),
            Step::Label { ono, label } => Ok(self.label(ono, label)),
            Step::Enable { ono, enabled } => Ok(self.enable(ono, enabled)),
            Step::Unlock { ono } => Ok(self.unlock(ono)),
            Step::Fail { ono, failing } => Ok(self.fail(ono, failing)),
            Step::Take { link, handle } => self.take(link, handle),
            Step::Renew {
                link,
                first,
                span,
                now,
            } => self.renew(link, first, span, now),
            Step::Beside { link, .. } => self.send_beside(link),
        }
    }

    /// Submits a command to a link.
    fn submit(
        &mut self,
        link: usize,
        target: Ono,
        method: MethodId,
        count: u8,
        params: &[u8],
        now: u64,
    ) -> Result<Outcome, StepFault>
        ensures { (n : Network) → Shows self.old n →
            Took result (Submit link (request_with target method count params.now) now) n self.new }
    {
        if link >= self.links.len() {
            return Err(StepFault::Missing);
        }
        let place = &mut self.links[link];
        Ok(place.submit(target, method, count, params, now))
    }

    /// Sends to the device what is due of a link.
    fn due(&mut self, link: usize, now: u64) -> Result<Outcome, StepFault>
        ensures { (n : Network) → Shows self.old n → Took result (DueStep link now) n self.new }
    {
        if link >= self.links.len() {
            return Err(StepFault::Missing);
        }
        let place = &mut self.links[link];
        let peer = place.peer();
        match place.due(now) {
            Given::Datagram(packet) => {
                let number = self.to_device.len();
                match add(
                    &mut self.to_device,
                    Sent {
                        peer,
                        bytes: packet,
                    },
                ) {
                    Ok(()) => Ok(Outcome::Sent(number)),
                    Err(NoMemory) => Err(StepFault::NoMemory),
                }
            }
            Given::Nothing => Ok(Outcome::Nothing),
            Given::Lost => Ok(Outcome::Lost),
        }
    }

    /// Sends a keep-alive to the device beside a link, whatever the moment is.
    fn send_beside(&mut self, link: usize) -> Result<Outcome, StepFault>
        ensures { (n : Network) (now : ℕ) → Shows self.old n → Took result (Beside link now) n self.new }
    {
        if link >= self.links.len() {
            return Err(StepFault::Missing);
        }
        let peer = self.links[link].peer();
        let number = self.to_device.len();
        match add(
            &mut self.to_device,
            Sent {
                peer,
                bytes: keep_alive(),
            },
        ) {
            Ok(()) => Ok(Outcome::Sent(number)),
            Err(NoMemory) => Err(StepFault::NoMemory),
        }
    }

    /// Delivers a datagram to the device, and sends its answers to the link.
    fn deliver_to_device(&mut self, k: usize, now: u64) -> Result<Outcome, StepFault>
        ensures { (n : Network) → Shows self.old n → Took result (ToDevice k now) n self.new }
    {
        if k >= self.to_device.len() {
            return Err(StepFault::Missing);
        }
        let sent = &self.to_device[k];
        let peer = sent.peer();
        self.outbox.clear();
        let verdict = self
            .device
            .datagram(peer, sent.bytes(), now, &mut self.outbox);
        match send_back(&self.outbox, peer, &mut self.to_links) {
            Ok(()) => Ok(Outcome::Device(verdict)),
            Err(NoMemory) => Err(StepFault::NoMemory),
        }
    }

    /// Delivers a datagram to the link that it was sent to.
    fn deliver_to_link(&mut self, k: usize, now: u64) -> Result<Outcome, StepFault>
        ensures { (n : Network) → Shows self.old n → Took result (ToLink k now) n self.new }
    {
        if k >= self.to_links.len() {
            return Err(StepFault::Missing);
        }
        let sent = &self.to_links[k];
        match hear(&mut self.links, sent.peer(), sent.bytes(), now) {
            Some(reception) => Ok(Outcome::Link(reception)),
            None => Err(StepFault::Missing),
        }
    }

    /// Delivers bytes of a peer that is no link's to the device, whose answers go nowhere.
    fn deliver_other(&mut self, from: Peer, bytes: &[u8], now: u64) -> Result<Outcome, StepFault>
        ensures { (n : Network) → Shows self.old n → Took result (Other from bytes.now now) n self.new }
    {
        if has_link(self.links.as_slice(), from) {
            return Err(StepFault::Missing);
        }
        self.outbox.clear();
        Ok(Outcome::Device(self.device.datagram(from, bytes, now, &mut self.outbox)))
    }

    /// Reads the device's clock.
    fn tick(&mut self, now: u64) -> Outcome
        ensures { (n : Network) → Shows self.old n → Took (Ok result) (TickStep now) n self.new }
    {
        self.device.tick(now);
        Outcome::Ticked
    }

    /// Sets an object at the local front panel.
    fn set(&mut self, ono: Ono, value: Value) -> Outcome
        ensures { (n : Network) → Shows self.old n → Took (Ok result) (Local ono.0 (ToValue value)) n self.new }
    {
        match self.device.set(ono, value) {
            Ok(()) => Outcome::Set,
            Err(fault) => Outcome::NotSet(fault),
        }
    }

    /// Gives an object a label at the local front panel.
    fn label(&mut self, ono: Ono, label: &str) -> Outcome
        ensures { (n : Network) → Shows self.old n →
            Took (Ok result) (Local ono.0 (ToLabel label.now)) n self.new }
    {
        told(self.device.set_label(ono, label))
    }

    /// Enables or disables an object at the local front panel.
    fn enable(&mut self, ono: Ono, enabled: bool) -> Outcome
        ensures { (n : Network) → Shows self.old n →
            Took (Ok result) (Local ono.0 (ToEnabled enabled)) n self.new }
    {
        told(self.device.set_enabled(ono, enabled))
    }

    /// Releases the lock of an object at the local front panel.
    fn unlock(&mut self, ono: Ono) -> Outcome
        ensures { (n : Network) → Shows self.old n → Took (Ok result) (Local ono.0 ToUnlocked) n self.new }
    {
        told(self.device.unlock(ono))
    }

    /// Says whether the hardware of an object refuses to be changed.
    fn fail(&mut self, ono: Ono, failing: bool) -> Outcome
        ensures { (n : Network) → Shows self.old n →
            Took (Ok result) (Local ono.0 (ToFailing failing)) n self.new }
    {
        told(self.device.set_failing(ono, failing))
    }

    /// Takes an answer from a link.
    fn take(&mut self, link: usize, handle: Handle) -> Result<Outcome, StepFault>
        ensures { (n : Network) → Shows self.old n → Took result (Take link handle.0) n self.new }
    {
        if link >= self.links.len() {
            return Err(StepFault::Missing);
        }
        let place = &mut self.links[link];
        Ok(place.take(handle))
    }

    /// Renews a link.
    fn renew(
        &mut self,
        link: usize,
        first: Handle,
        span: Span,
        now: u64,
    ) -> Result<Outcome, StepFault>
        ensures { (n : Network) → Shows self.old n →
            Took result (Renew link first.0 (span_size span) now 0) n self.new }
    {
        if link >= self.links.len() {
            return Err(StepFault::Missing);
        }
        let place = &mut self.links[link];
        Ok(place.renew(first, span, now))
    }
}

/// The keep-alive that a link sends, with a heartbeat of five seconds.
fn keep_alive() -> Packet
    ensures { result.items ≡ due_bytes GivesKeepAlive }
{
    let mut packet = Packet::new();
    let _ = write_keepalive(&mut packet, Form::Seconds(5));
    packet
}

/// What a change at the local front panel led to.
fn told(answer: Result<(), FrontFault>) -> Outcome
    ensures { result ≡ front_outcome (result_err answer) }
{
    match answer {
        Ok(()) => Outcome::Changed,
        Err(fault) => Outcome::NotChanged(fault),
    }
}

/// A new link for each start.
fn links_of(alloc: Global, span: Span, starts: &[Start]) -> Result<Vec<PeerLink>, NoMemory>
    ensures { IfOk result (λ v. v.items ≡ map (started (run_setup (span_size span))) starts.now) }
{
    let mut links = Vec::new(alloc);
    for start in starts {
        let link = PeerLink {
            peer: start.peer,
            link: Link::new(DEVICE, start.first_handle, 0, span),
        };
        add_link(&mut links, link)?;
    }
    Ok(links)
}

/// Whether a link is of this peer.
fn has_link(links: &[PeerLink], peer: Peer) -> bool
    ensures { result ≡ Rattle.oca_pair.specs.Steps.has_link peer links.now }
{
    links.iter().any(|place| place.peer() == peer)
}

/// Adds a link as the last one.
fn add_link(links: &mut Vec<PeerLink>, link: PeerLink) -> Result<(), NoMemory>
    ensures { IfOk result (λ u. links.new.items ≡ links.old.items ++ link ∷ []) }
{
    match links.push(link) {
        Ok(()) => Ok(()),
        Err(_) => Err(NoMemory),
    }
}

/// Adds a datagram as the last one.
fn add(list: &mut Vec<Sent>, sent: Sent) -> Result<(), NoMemory>
    ensures { IfOk result (λ u. list.new.items ≡ list.old.items ++ sent ∷ []) }
{
    match list.push(sent) {
        Ok(()) => Ok(()),
        Err(_) => Err(NoMemory),
    }
}

/// Each link of the peer hears the datagram, and the first one's answer is noted.
fn hear(links: &mut Vec<PeerLink>, peer: Peer, bytes: &[u8], now: u64) -> Option<Reception>
    ensures links { let d : SentDatagram = record { peer = peer; bytes = bytes.now } in
        links.new.items ≡ map (hears_datagram device_address d now) links.old.items }
    ensures answer { let d : SentDatagram = record { peer = peer; bytes = bytes.now } in
        result ≡ first_heard d links.old.items }
{
    let mut answer = None;
    for i in 0..links.len() {
        let heard = links[i].hear(peer, bytes, now);
        answer = answer.or(heard);
    }
    answer
}

/// Sends all packets of the outbox to the link of a peer.
fn send_back(outbox: &Outbox, peer: Peer, to_links: &mut Vec<Sent>) -> Result<(), NoMemory>
    ensures { IfOk result (λ u. to_links.new.items ≡ to_links.old.items ++ sendings_in peer outbox.now) }
{
    for i in 0..outbox.len() {
        match outbox.get(i) {
            Some(packet) => add(to_links, Sent::new(peer, packet.as_slice()))?,
            None => {}
        }
    }
    Ok(())
}
