//! Ends in memory of which a receive or a send fails: a device that serves one, and a link that is driven over one.
//!
//! Of a device that served one, `report` is printed with the numbers of its report, and how many packets were taken; of
//! a link that was driven, `report` with those of its report, and for each of its nine commands `answer` with status,
//! count and parameters of its answer, or `none`.
use crate::lines::Told;
use crate::world::put_answer;
use oca_control::{DriveReport, Link, drive};
use oca_device::{Device, Outbox, Report, serve};
use oca_net::{MemoryEnd, Scripted};
use oca_types::{Handle, LOOPBACK, MethodId, NoMemory, Ono, Peer, Span};
use std::alloc::Global;

/// How many commands a link has: the handles from 1 on.
const COMMANDS: u32 = 9;

/// The device that a link is of.
const DEVICE: Peer = Peer {
    ip: LOOPBACK,
    port: 65000,
};

/// An end with this script, of which the send of the number `failing` fails. No script is left.
fn end_of(alloc: Global, script: &mut Vec<Scripted>, failing: u64) -> Result<MemoryEnd, NoMemory> {
    let whole = std::mem::replace(script, Vec::new(alloc));
    MemoryEnd::new(alloc, whole, 100, Some(failing))
}

/// Lets the device serve an end with this script, of which the send of the number `failing` fails.
pub fn serve_script(
    alloc: Global,
    device: &mut Device,
    outbox: &mut Outbox,
    out: &mut Told,
    script: &mut Vec<Scripted>,
    failing: u64,
) {
    match end_of(alloc, script, failing) {
        Ok(mut end) => {
            let report = serve(device, &mut end, outbox, 1000);
            put_report(out, report, end.taken().len() as u64);
            drop(end);
        }
        Err(NoMemory) => out.refuse(),
    }
}

/// The line of a device's report, and of how many packets were taken.
fn put_report(out: &mut Told, report: Report, taken: u64) {
    out.put_numbers(
        "report",
        &[
            report.turns,
            report.executed,
            report.kept,
            report.old,
            report.reused,
            report.malformed,
            report.no_room,
            report.oversize,
            report.quiet,
            report.failed_receives,
            report.failed_sends,
            taken,
        ],
    );
}

/// Drives a link over an end with this script, of which the send of the number `failing` fails.
pub fn drive_script(alloc: Global, out: &mut Told, script: &mut Vec<Scripted>, failing: u64) {
    match end_of(alloc, script, failing) {
        Ok(mut end) => {
            drive_new_link(alloc, out, &mut end);
            drop(end);
        }
        Err(NoMemory) => out.refuse(),
    }
}

/// Drives a link over an end, and tells its report and its answers.
fn drive_new_link(alloc: Global, out: &mut Told, end: &mut MemoryEnd) {
    let mut link = new_link();
    put_drive_report(out, drive(&mut link, end, 1000));
    for handle in 1..COMMANDS + 1 {
        match link.take(Handle(handle)) {
            Some(answer) => put_answer(alloc, out, &answer),
            None => out.put("none\n"),
        }
    }
    drop(link);
}

/// A link with its commands.
fn new_link() -> Link {
    let mut link = Link::new(DEVICE, Handle(1), 0, Span::default());
    let method = MethodId { level: 4, index: 1 };
    for _ in 0..COMMANDS {
        let _ = link.submit(Ono(4097), method, 0, &[], 0);
    }
    link
}

/// The line of a link's report.
fn put_drive_report(out: &mut Told, report: DriveReport) {
    out.put_numbers(
        "report",
        &[
            report.turns,
            report.sent,
            report.keep_alives,
            report.answered,
            report.failed_receives,
            report.failed_sends,
            u64::from(report.lost),
        ],
    );
}
