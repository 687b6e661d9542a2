//! Locks that are kept.

use super::command::Hold;
use super::object_line::{ObjectLine, max_severity, report_object};
use super::objects::{LockAction, lock_one, present};
use oca_control::LONGEST_LIFE_MS;
use oca_net::{End, Heard};
use oca_panel::{Panel, Trouble};
use oca_pdu::{Message, check, write_command};
use oca_program::{Failure, RunFault};
use oca_script::{Printer, ReadFailed, Sink, Source, WriteFailed};
use oca_types::{Command, Handle, MethodId, Ono, Packet, Peer};
use std::alloc::Global;
use std::ops::Range;

/// How many bytes of the input are read at a time.
const PIECE: usize = 4096;

/// So many milliseconds pass between two looks at a lock.
const LOOK_MS: u64 = 1_000;

/// For so many milliseconds another controller's question waits for its answer before it is sent again.
const ANSWER_MS: u64 = 250;

/// How often another controller's question is sent.
const COPIES: u32 = 3;

/// How many datagrams are received at most while one answer is awaited.
const MOST_DATAGRAMS: u32 = 64;

/// GetRole of OcaRoot, which a total lock refuses to others.
const GET_ROLE: MethodId = MethodId { level: 1, index: 5 };

/// Another controller of a device, which the locks of the first one shut out.
#[derive(Drop)]
pub struct Witness<E: End> {
    pub end: E,
    pub device: Peer,
    /// The handle of the next command.
    pub next: Handle,
}

impl<E: End> Witness<E> {
    /// Whether this controller can read an object: then no other has it locked. The question is sent up to three times.
    /// `false` if it is refused, or if no answer comes.
    fn can_read(&mut self, ono: Ono) -> bool {
        let handle = self.next;
        self.next = Handle(handle.0.saturating_add(1));
        let mut question = Packet::new();
        let command = Command {
            handle,
            target: ono,
            method: GET_ROLE,
            count: 0,
            params: &[],
        };
        if write_command(&mut question, true, &command).is_err() {
            return false;
        }
        for _copy in 0..COPIES {
            self.end.send(self.device, question.as_slice());
            if let Some(status) = self.await_status(handle) {
                return status == 0;
            }
        }
        false
    }

    /// The status of the device's answer under this handle, if it comes within 250 ms, as one of the first 64 datagrams
    /// and before a receive fails.
    fn await_status(&mut self, handle: Handle) -> Option<u8> {
        let until = self.end.now().saturating_add(ANSWER_MS);
        let mut packet = Packet::new();
        for _datagram in 0..MOST_DATAGRAMS {
            match self.end.receive_by(&mut packet, until) {
                Heard::Datagram { from, .. } if from == self.device => {
                    if let Some(status) = status_under(handle, packet.as_slice()) {
                        return Some(status);
                    }
                }
                Heard::Datagram { .. } | Heard::Oversize { .. } => {}
                Heard::Quiet { .. } | Heard::Failed | Heard::Closed => return None,
            }
        }
        None
    }
}

/// The status of the response under this handle in a datagram, if it has one.
fn status_under(wanted: Handle, datagram: &[u8]) -> Option<u8> {
    let datagram = check(datagram).ok()?;
    for message in datagram.messages() {
        if let Message::Response { handle, status, .. } = message
            && handle == wanted
        {
            return Some(status);
        }
    }
    None
}

/// A controller that keeps locks, and another one that it asks about them.
#[derive(Drop)]
pub struct Keeper<'p, E: End, V: End> {
    pub panel: &'p mut Panel<E>,
    pub witness: Witness<V>,
}

impl<E: End, V: End> Keeper<'_, E, V> {
    /// Locks the objects `onos` one after another, and keeps those locks for as long as `hold` says. Then releases
    /// them. Prints the outcome of each lock, and later of each release.
    ///
    /// While the locks are kept, each is looked at in turn, one a second: another controller must be refused, and the
    /// object is locked again, which the device allows its holder alone. If one is lost, or all may be since the device
    /// was not heard for more than 15,000 ms or the link is lost, `lock lost` is printed at once for each of these, and
    /// the others are released. If no object was locked, the call returns at once.
    ///
    /// Returns the most severe exit status of all lines: 5 for a lost lock. Failures: `Write` if a write failed,
    /// `NoMemory` if there was no memory to list the objects. After a failure the locks that are still held are not
    /// released: the device releases them once it has not heard this program for long enough.
    pub fn hold<R: Source, W: Sink>(
        &mut self,
        alloc: Global,
        onos: &[Ono],
        hold: Hold,
        reader: &mut R,
        printer: &mut Printer<W>,
    ) -> Result<u8, Failure> {
        printer.flush()?;
        let mut held = Vec::new(alloc);
        let mut status = 0;
        let mut last_heard = present(self.panel);
        for ono in onos {
            let own = lock_one(self.panel, *ono, LockAction::Lock, &mut last_heard, printer)?;
            if own == 0 {
                held.push(*ono).map_err(|_| RunFault::NoMemory)?;
            }
            status = max_severity(status, own);
        }
        if held.is_empty() {
            return Ok(status);
        }
        let lost = self.keep(held.as_slice(), last_heard, hold, reader);
        let after = self.report_and_release(held.as_slice(), &lost, printer)?;
        Ok(max_severity(status, after))
    }

    /// Drives the link, which sends keep-alives, and looks at the locks, until the time is over or one is lost.
    /// `last_heard` is the moment of the last command that the device is known to have heard. Returns the places of
    /// those that are lost.
    fn keep<R: Source>(
        &mut self,
        held: &[Ono],
        mut last_heard: u64,
        hold: Hold,
        reader: &mut R,
    ) -> Range<usize> {
        let all = 0..held.len();
        let begun = present(self.panel);
        let mut next = begun.saturating_add(LOOK_MS);
        let mut place = 0;
        for _turn in 0..u64::MAX {
            let now = present(self.panel);
            if now.saturating_sub(last_heard) > LONGEST_LIFE_MS {
                return all;
            }
            if is_over(hold, now.saturating_sub(begun), reader) {
                return 0..0;
            }
            if !self.panel.turn() {
                return all;
            }
            if now < next {
                continue;
            }
            next = now.saturating_add(LOOK_MS);
            let Some(ono) = held.get(place) else {
                return all;
            };
            if self.is_lost(*ono, &mut last_heard) {
                return place..place + 1;
            }
            place = (place + 1) % held.len();
        }
        0..0
    }

    /// Whether the lock of an object is lost: another controller can read the object, or the device does not let this
    /// one lock it again. `false` where no answer comes: that is found otherwise.
    fn is_lost(&mut self, ono: Ono, last_heard: &mut u64) -> bool {
        if self.witness.can_read(ono) {
            return true;
        }
        let now = present(self.panel);
        match self.panel.lock(ono) {
            Ok(()) => *last_heard = now,
            Err(Trouble::Refused(_) | Trouble::Unreadable) => return true,
            Err(_) => {}
        }
        false
    }

    /// Prints which locks are lost, releases the others, and prints that. Returns the exit status.
    fn report_and_release<W: Sink>(
        &mut self,
        held: &[Ono],
        lost: &Range<usize>,
        printer: &mut Printer<W>,
    ) -> Result<u8, WriteFailed> {
        let mut status = 0;
        for (place, ono) in held.iter().enumerate() {
            if lost.contains(&place) {
                status = report_object(*ono, &ObjectLine::LockLost, printer)?;
            }
        }
        let mut since = present(self.panel);
        for (place, ono) in held.iter().enumerate() {
            if !lost.contains(&place) {
                let own = lock_one(self.panel, *ono, LockAction::Unlock, &mut since, printer)?;
                status = max_severity(status, own);
            }
        }
        Ok(status)
    }
}

/// Whether locks were kept for long enough, after so many milliseconds. The input is read where a read does not wait,
/// and what it gives is dropped.
fn is_over<R: Source>(hold: Hold, time: u64, reader: &mut R) -> bool {
    match hold {
        Hold::Time(wanted) => wanted <= time,
        Hold::Input if !reader.await_input(None, 0) => false,
        Hold::Input => matches!(reader.read(&mut [0; PIECE]), Ok(0) | Err(ReadFailed)),
    }
}
