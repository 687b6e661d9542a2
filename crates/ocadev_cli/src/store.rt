//! A file in which a device keeps its objects.
ghost use Rattle.std.specs.Prelude.{◌≡◌, IfOk, false};

use super::disk::{Claim, Disk, FileDisk, write_over};
use super::log::Log;
use super::objects::file_failure;
use oca_device::{Device, Electronics, Keeping, Outbox, Report, Store};
use oca_net::Heard;
use oca_program::{Failure, RunFault};
use oca_script::Sink;
use oca_tree::Tree;
use oca_types::NoMemory;
use std::alloc::Global;
use std::fs::File;
use std::io;
use std::rt::Files;

/// A file in which objects are kept, and the answers that wait until it has them.
#[derive(Drop)]
pub struct Kept<'a, D> {
    pub path: &'a str,
    pub disk: D,
    pub waiting: Keeping,
}

impl<'a, 'l, N: Files<File = File>> Kept<'a, FileDisk<'l, 'a, N>> {
    /// The file at `path`, to which this is the claim, with no answer that waits. The call takes the memory for the
    /// answers that will wait. Refusal: `NoMemory`, if memory was refused.
    pub fn new(
        alloc: Global,
        system: &'l N,
        path: &'a str,
        claim: Claim,
    ) -> Result<Kept<'a, FileDisk<'l, 'a, N>>, NoMemory>
        ensures { IfOk result (λ kept. kept.waiting.is_behind ≡ false) }
    {
        Ok(Kept {
            path,
            disk: FileDisk::new(alloc, system, path, claim)?,
            waiting: Keeping::new(alloc)?,
        })
    }
}

impl<'a, D: Disk> Kept<'a, D> {
    ghost use Rattle.std.specs.Prelude.{is_ok};
    ghost use Rattle.ocadev_cli.specs.Storing.{StoresBy};

    /// Stores the objects once before anything is served. The failure is `Write`, if a step of the store fails.
    pub fn try_store(&mut self, alloc: Global, tree: &Tree) -> Result<(), Failure>
        ensures { StoresBy (is_ok result) tree.now (D.state self.old.disk) (D.state self.new.disk) }
    {
        match write_over(&mut self.disk, tree) {
            Ok(()) => Ok(()),
            Err(reason) => Err(file_failure(alloc, RunFault::Write, self.path, reason)),
        }
    }
}

/// How many milliseconds apart it is said that the file still can't be written.
const REMINDER_MS: u64 = 60_000;

/// Why the last store failed, and since when stores fail.
#[derive(Drop)]
struct Failing {
    reason: io::Error,
    /// The first moment behind the first store that failed, once there is one.
    since: Option<u64>,
    /// The moment at which this is said again.
    next: u64,
}

/// A file on a disk as a store. It logs each turn, when the file can't be written, each minute that it still can't,
/// and when it is written again.
#[derive(Drop)]
pub struct FileStore<'p, 'd, 't, 'f, D, F: Sink> {
    path: &'p str,
    pub disk: &'d mut D,
    log: &'t mut Log<'f, F>,
    /// Why the last store failed, if it did.
    failing: Option<Failing>,
}

impl<'p, 'd, 't, 'f, D: Disk, F: Sink> FileStore<'p, 'd, 't, 'f, D, F> {
    /// A store in the file at this path, on this disk; no store has failed yet.
    pub fn new(
        path: &'p str,
        disk: &'d mut D,
        log: &'t mut Log<'f, F>,
    ) -> FileStore<'p, 'd, 't, 'f, D, F>
        ensures { result.disk.now ≡ disk.entry.now }
    {
        FileStore {
            path,
            disk,
            log,
            failing: None,
        }
    }

    /// Logs that the file can't be written, at the first failure, and that it is written again, at the first success
    /// after one.
    fn log_change(&mut self, done: io::Result<()>)
        ensures { self.new.disk.now ≡ self.old.disk.now }
    {
        let (path, alloc) = (self.path, self.log.alloc);
        self.failing = match (done, self.failing.take()) {
            (Err(reason), Some(failing)) => Some(Failing { reason, ..failing }),
            (Err(reason), None) => {
                self.log.note(format!(in alloc; "the state is not kept: {path}: {reason}"));
                Some(Failing {
                    reason,
                    since: None,
                    next: 0,
                })
            }
            (Ok(()), None) => None,
            (Ok(()), Some(_)) => {
                let note = format!(in alloc; "the state is kept again: {path}");
                self.log.note(note);
                None
            }
        };
    }

    /// Logs each minute that the file still can't be written, and since when.
    fn log_failing(&mut self)
        ensures { self.new.disk.now ≡ self.old.disk.now }
    {
        let (path, alloc, now) = (self.path, self.log.alloc, self.log.now);
        let Some(failing) = &mut self.failing else {
            return;
        };
        let Some(since) = failing.since else {
            failing.since = Some(now);
            failing.next = now.saturating_add(REMINDER_MS);
            return;
        };
        if failing.next <= now {
            failing.next = now.saturating_add(REMINDER_MS);
            let seconds = now.saturating_sub(since) / 1000;
            let reason = &failing.reason;
            let note = format!(in alloc; "the state is not kept for {seconds} s: {path}: {reason}");
            self.log.note(note);
        }
    }
}

impl<'p, 'd, 't, 'f, D: Disk, F: Sink> Store for FileStore<'p, 'd, 't, 'f, D, F> {
    ghost use Rattle.oca_device.specs.Keeping.{Stores};
    ghost use Rattle.ocadev_cli.specs.Storing.{StoresBy, store_of};

    ghost state = { λ s. store_of (D.state s.disk.now) };

    /// Writes the objects over the file.
    #[tactic(auto, using(crate::proofs::StoringLemmas::stored_says))]
    fn store(&mut self, tree: &Tree) -> bool
        ensures stores { Stores result tree.now (store_of (D.state self.old.disk.now)) (store_of (D.state self.new.disk.now)) }
        ensures steps { StoresBy result tree.now (D.state self.old.disk.now) (D.state self.new.disk.now) }
    {
        let done = write_over(self.disk, tree);
        let is_stored = done.is_ok();
        self.log_change(done);
        is_stored
    }

    /// Logs the turn, and that the file can't be written, if that is due.
    fn tell(
        &mut self,
        heard: Heard,
        bytes: &[u8],
        answers: &Outbox,
        turn: &Report,
        device: &Device,
    ) {
        self.log.tell(heard, bytes, answers, turn, device);
        self.log_failing();
    }
}
