//! Schedules over a device and links, with what their steps led to.
//!
//! What is printed: `schedule`, a line for each step, the datagrams that were sent to the device and to links in order,
//! and how many sessions the device has at the end; or, behind `schedule`, why it does not run.
use crate::fields::{Front, LineFault, bytes_of, text_of};
use crate::line::{Event, Timed};
use crate::lines::Told;
use oca_control::{Answer, ControlFault, Reception};
use oca_pair::{Outcome, PairFault, Sent, Start, Step, Transcript, run_pair_with_sizes};
use oca_tree::bench;
use oca_types::{Sizes, Span};
use std::alloc::Global;
use std::str;

/// A step with its own bytes.
#[derive(Drop)]
struct HeldStep {
    step: Step<'static>,
    bytes: Vec<u8>,
}

impl HeldStep {
    /// The step.
    fn step(&self) -> Step<'_> {
        match self.step {
            Step::Submit {
                link,
                target,
                method,
                count,
                params: _,
                now,
            } => Step::Submit {
                link,
                target,
                method,
                count,
                params: self.bytes.as_slice(),
                now,
            },
            Step::Other {
                from,
                bytes: _,
                now,
            } => Step::Other {
                from,
                bytes: self.bytes.as_slice(),
                now,
            },
            Step::Label { ono, label: _ } => Step::Label {
                ono,
                label: text_of(self.bytes.as_slice()),
            },
            other => other,
        }
    }

    /// Whether its bytes are a text, where it has a text.
    fn has_text(&self) -> bool {
        match self.step {
            Step::Label { .. } => str::from_utf8(self.bytes.as_slice()).is_ok(),
            _ => true,
        }
    }
}

/// The step of an event, and the text of its bytes; none of one that is of a history alone.
fn step_of<'a>(event: Event<'a>) -> Option<(Step<'static>, &'a [u8])> {
    match event {
        Event::Step(step, text) => Some((step, text)),
        Event::Timed(Timed::Quiet(now)) => Some((Step::Tick { now }, b"-")),
        Event::Timed(Timed::Datagram(from, text, now)) => {
            let bytes = &[];
            Some((Step::Other { from, bytes, now }, text))
        }
        Event::Front(front) => Some(front_step(front)),
        Event::Again(_) | Event::Then(_) | Event::Serve(_) | Event::Drive(_) => None,
    }
}

/// The step of a change at the local front panel, and the text of its bytes.
fn front_step<'a>(front: Front<'a>) -> (Step<'static>, &'a [u8]) {
    match front {
        Front::Set(ono, value) => (Step::Local { ono, value }, b"-"),
        Front::Label(ono, text) => (Step::Label { ono, label: "" }, text),
        Front::Enabled(ono, enabled) => (Step::Enable { ono, enabled }, b"-"),
        Front::Unlocked(ono) => (Step::Unlock { ono }, b"-"),
        Front::Failing(ono, failing) => (Step::Fail { ono, failing }, b"-"),
    }
}

/// The present schedule, where one has begun: its sizes, its links and its steps.
#[derive(Drop)]
pub struct Schedule {
    alloc: Global,
    begun: Option<(Sizes, Span)>,
    starts: Vec<Start>,
    steps: Vec<HeldStep>,
}

impl Schedule {
    /// No schedule.
    pub fn new(alloc: Global) -> Schedule {
        Schedule {
            alloc,
            begun: None,
            starts: Vec::new(alloc),
            steps: Vec::new(alloc),
        }
    }

    /// Whether one has begun.
    pub fn is_begun(&self) -> bool {
        self.begun.is_some()
    }

    /// Begins a schedule of these links, of which none are left.
    pub fn begin(&mut self, sizes: Sizes, span: Span, starts: &mut Vec<Start>) {
        self.begun = Some((sizes, span));
        std::mem::swap(&mut self.starts, starts);
    }

    /// Adds the step of an event.
    pub fn add(&mut self, event: Event<'_>) -> Result<(), LineFault> {
        let Some((step, text)) = step_of(event) else {
            return Err(LineFault::Form);
        };
        let Some(bytes) = bytes_of(self.alloc, text) else {
            return Err(LineFault::NoMemory);
        };
        let held = HeldStep { step, bytes };
        if !held.has_text() {
            return Err(LineFault::Hex);
        }
        match self.steps.push(held) {
            Ok(()) => Ok(()),
            Err(_) => Err(LineFault::NoMemory),
        }
    }

    /// Runs the schedule, where there is one, and notes what it led to. None has begun then.
    pub fn finish(&mut self, out: &mut Told) {
        if let Some((sizes, span)) = self.begun {
            let ran = run(sizes, span, self);
            put_run(self.alloc, out, &ran);
            drop(ran);
        }
        self.begun = None;
        self.steps.clear();
        self.starts.clear();
    }
}

/// Runs the schedule over the bench device.
fn run(sizes: Sizes, span: Span, schedule: &Schedule) -> Result<Transcript, PairFault> {
    let mut steps = Vec::new(schedule.alloc);
    let mut is_whole = true;
    for held in schedule.steps.as_slice() {
        is_whole &= steps.push(held.step()).is_ok();
    }
    let starts = schedule.starts.as_slice();
    let ran = if is_whole {
        run_steps(schedule.alloc, sizes, span, starts, steps.as_slice())
    } else {
        Err(PairFault::NoMemory)
    };
    drop(steps);
    ran
}

/// Runs these steps over the bench device.
fn run_steps(
    alloc: Global,
    sizes: Sizes,
    span: Span,
    starts: &[Start],
    steps: &[Step<'_>],
) -> Result<Transcript, PairFault> {
    match bench(alloc) {
        Ok(tree) => run_pair_with_sizes(alloc, tree, sizes, span, starts, steps),
        Err(_) => Err(PairFault::NoMemory),
    }
}

/// The lines of a run.
fn put_run(alloc: Global, out: &mut Told, ran: &Result<Transcript, PairFault>) {
    out.put("schedule\n");
    match ran {
        Ok(transcript) => put_transcript(alloc, out, transcript),
        Err(PairFault::NoMemory) => out.refuse(),
        Err(PairFault::BadStep(number)) => out.put_counted("bad step ", *number as u64),
        Err(PairFault::SamePeer) => out.put("same peer\n"),
    }
}

/// The lines of a transcript.
fn put_transcript(alloc: Global, out: &mut Told, transcript: &Transcript) {
    for outcome in transcript.log.as_slice() {
        put_outcome(alloc, out, outcome);
    }
    put_sent(alloc, out, "to-device ", transcript.to_device.as_slice());
    put_sent(alloc, out, "to-link ", transcript.to_links.as_slice());
    out.put_counted("sessions ", transcript.device.sessions() as u64);
}

/// The line of a step.
fn put_outcome(alloc: Global, out: &mut Told, outcome: &Outcome) {
    match outcome {
        Outcome::Submitted(handle) => out.put_counted("handle ", u64::from(handle.0)),
        Outcome::Refused(fault) => out.put(refusal(*fault)),
        Outcome::Sent(number) => out.put_counted("sent ", *number as u64),
        Outcome::Nothing => out.put("nothing\n"),
        Outcome::Lost => out.put("lost\n"),
        Outcome::Device(verdict) => out.put_verdict(*verdict),
        Outcome::Link(reception) => put_reception(out, *reception),
        Outcome::Ticked => out.put("quiet\n"),
        Outcome::Set => out.put("set\n"),
        Outcome::NotSet(fault) => out.put_set_fault(*fault),
        Outcome::Changed => out.put("changed\n"),
        Outcome::NotChanged(fault) => out.put_front_fault(*fault),
        Outcome::Answer(answer) => put_answer(alloc, out, answer),
        Outcome::NoAnswer => out.put("none\n"),
        Outcome::Renewed => out.put("renewed\n"),
        Outcome::NotRenewed => out.put("not renewed\n"),
    }
}

/// The line of what a link made of a datagram.
fn put_reception(out: &mut Told, reception: Reception) {
    match reception {
        Reception::Answered(count) => out.put_counted("answered ", count as u64),
        Reception::Stranger => out.put("stranger\n"),
        Reception::Malformed => out.put("malformed\n"),
        Reception::NothingNew => out.put("nothing new\n"),
    }
}

/// The line of a command that a link refused.
fn refusal(fault: ControlFault) -> &'static str {
    match fault {
        ControlFault::Lost => "refused 1 lost\n",
        ControlFault::HandlesSpent => "refused 2 handles-spent\n",
        ControlFault::SpanFull => "refused 3 span-full\n",
        ControlFault::TooLong => "refused 4 too-long\n",
    }
}

/// The line of an answer.
pub fn put_answer(alloc: Global, out: &mut Told, answer: &Answer) {
    out.put_number("answer ", u64::from(answer.status));
    out.put_number(" ", u64::from(answer.count));
    out.put(" ");
    out.put_bytes(alloc, answer.params.as_slice());
}

/// The lines of the datagrams that were sent one way.
fn put_sent(alloc: Global, out: &mut Told, way: &str, sent: &[Sent]) {
    for datagram in sent {
        out.put(way);
        out.put_peer(datagram.peer);
        out.put(" ");
        out.put_bytes(alloc, datagram.bytes.as_slice());
    }
}
