//! Histories of a device, with what the device is after each event.
//!
//! What is printed: `history`, and for each event its verdict; its packets, each behind `> `; `written`
//! and the objects that a datagram wrote to, where there are any; of a datagram that is written again its fault, or
//! `again` and the bytes that the writer writes for its only message, `-` where it has several or a response; of a
//! script of an end in memory what `ends` tells; `sessions` and how many it has; and `objects` with each object that has
//! a setting or a lock: its number, `=`, its setting or `-`, and behind `/t` or `/r` the holder of its total or its
//! read-only lock.
use crate::again::put_again;
use crate::ends::{drive_script, serve_script};
use crate::fields::{Front, LineFault, bytes_of};
use crate::line::{Event, Timed};
use crate::lines::Told;
use oca_device::{Device, Outbox};
use oca_net::Scripted;
use oca_tree::{AddFault, FrontFault, Lock, LockKind, Setting, Tree, bench_with_channels};
use oca_types::{NoMemory, Ono, Peer, Sizes};
use std::alloc::Global;
use std::str;

/// The device of the present history, where one has begun.
#[derive(Drop)]
pub struct History {
    alloc: Global,
    device: Option<Device>,
    outbox: Outbox,
    script: Vec<Scripted>,
}

impl History {
    /// No history.
    pub fn new(alloc: Global) -> Result<History, NoMemory> {
        match Outbox::new(alloc) {
            Ok(outbox) => Ok(History {
                alloc,
                device: None,
                outbox,
                script: Vec::new(alloc),
            }),
            Err(_) => Err(NoMemory),
        }
    }

    /// Begins a history.
    pub fn begin(&mut self, sizes: Sizes, channels: u16, out: &mut Told) -> Result<(), LineFault> {
        let device = new_device(self.alloc, sizes, channels)?;
        drop(self.device.replace(device));
        out.put("history\n");
        Ok(())
    }

    /// Lets an event of the present history happen, and notes what the device is then.
    pub fn go_on(&mut self, event: Event<'_>, out: &mut Told) -> Result<(), LineFault> {
        let History {
            alloc,
            device,
            outbox,
            script,
        } = self;
        match device {
            Some(device) => {
                take(*alloc, event, device, outbox, out, script)?;
                put_state(out, device);
                Ok(())
            }
            None => Err(LineFault::Form),
        }
    }
}

/// A device to which nothing happened.
fn new_device(alloc: Global, sizes: Sizes, channels: u16) -> Result<Device, LineFault> {
    match bench_with_channels(alloc, channels) {
        Ok(tree) => device_over(alloc, tree, sizes),
        Err(AddFault::NoMemory) => Err(LineFault::NoMemory),
        Err(_) => Err(LineFault::Number),
    }
}

/// A device over these objects to which nothing happened.
fn device_over(alloc: Global, tree: Tree, sizes: Sizes) -> Result<Device, LineFault> {
    match Device::with_sizes(alloc, tree, sizes) {
        Ok(device) => Ok(device),
        Err(NoMemory) => Err(LineFault::NoMemory),
    }
}

/// Lets an event happen, and notes what came of it.
fn take(
    alloc: Global,
    event: Event<'_>,
    device: &mut Device,
    outbox: &mut Outbox,
    out: &mut Told,
    script: &mut Vec<Scripted>,
) -> Result<(), LineFault> {
    match event {
        Event::Timed(Timed::Datagram(from, text, now)) => {
            hear(alloc, device, outbox, out, (from, text, now));
        }
        Event::Timed(Timed::Quiet(now)) => {
            device.tick(now);
            out.put("quiet\n");
        }
        Event::Front(front) => change(alloc, device, out, front),
        Event::Again(text) => put_again(alloc, out, text),
        Event::Then(entry) => add_entry(alloc, script, entry, out),
        Event::Serve(failing) => serve_script(alloc, device, outbox, out, script, failing),
        Event::Drive(failing) => drive_script(alloc, out, script, failing),
        Event::Step(..) => return Err(LineFault::Form),
    }
    Ok(())
}

/// Changes an object at the local front panel, and notes what came of it.
fn change(alloc: Global, device: &mut Device, out: &mut Told, front: Front<'_>) {
    match front {
        Front::Set(ono, value) => match device.set(ono, value) {
            Ok(()) => out.put("set\n"),
            Err(fault) => out.put_set_fault(fault),
        },
        Front::Label(ono, text) => label(alloc, device, out, ono, text),
        Front::Enabled(ono, enabled) => put_change(out, device.set_enabled(ono, enabled)),
        Front::Unlocked(ono) => put_change(out, device.unlock(ono)),
        Front::Failing(ono, failing) => put_change(out, device.set_failing(ono, failing)),
    }
}

/// The lines of what a device is.
fn put_state(out: &mut Told, device: &Device) {
    out.put_number("sessions ", device.sessions() as u64);
    put_objects(out, device.tree());
}

/// Adds an entry to the script, and notes that.
fn add_entry(alloc: Global, script: &mut Vec<Scripted>, entry: Option<Timed<'_>>, out: &mut Told) {
    let Some(entry) = scripted(alloc, entry) else {
        return out.refuse();
    };
    match script.push(entry) {
        Ok(()) => out.put("then\n"),
        Err(_) => out.refuse(),
    }
}

/// An entry as an end takes it, where there is memory for it.
fn scripted(alloc: Global, entry: Option<Timed<'_>>) -> Option<Scripted> {
    match entry {
        Some(Timed::Datagram(from, text, now)) => match bytes_of(alloc, text) {
            Some(bytes) => Some(Scripted::Datagram { from, bytes, now }),
            None => None,
        },
        Some(Timed::Quiet(now)) => Some(Scripted::Quiet { now }),
        None => Some(Scripted::Failed),
    }
}

/// Hands the device a datagram, and notes the verdict, its packets and what it wrote to.
fn hear(
    alloc: Global,
    device: &mut Device,
    outbox: &mut Outbox,
    out: &mut Told,
    datagram: (Peer, &[u8], u64),
) {
    let (from, text, now) = datagram;
    outbox.clear();
    let Some(bytes) = bytes_of(alloc, text) else {
        return out.refuse();
    };
    let verdict = device.datagram(from, bytes.as_slice(), now, outbox);
    drop(bytes);
    out.put_verdict(verdict);
    put_packets(alloc, out, outbox);
    put_written(out, device.written());
}

/// Gives an object a label at the front, and notes what came of it.
fn label(alloc: Global, device: &mut Device, out: &mut Told, ono: Ono, text: &[u8]) {
    let Some(bytes) = bytes_of(alloc, text) else {
        return out.refuse();
    };
    match str::from_utf8(bytes.as_slice()) {
        Ok(label) => put_change(out, device.set_label(ono, label)),
        Err(_) => out.refuse(),
    }
}

/// Notes what came of a change at the front.
fn put_change(out: &mut Told, changed: Result<(), FrontFault>) {
    match changed {
        Ok(()) => out.put("set\n"),
        Err(fault) => out.put_front_fault(fault),
    }
}

/// The lines of the packets.
fn put_packets(alloc: Global, out: &mut Told, outbox: &Outbox) {
    for packet in outbox.packets() {
        out.put("> ");
        out.put_bytes(alloc, packet.as_slice());
    }
}

/// The line of the objects that a datagram wrote to, where there are any.
fn put_written(out: &mut Told, written: &[Ono]) {
    if written.is_empty() {
        return;
    }
    out.put("written");
    for ono in written {
        out.put_number(" ", u64::from(ono.0));
    }
    out.put("\n");
}

/// The line of the objects that have a setting or a lock, behind another line.
fn put_objects(out: &mut Told, tree: &Tree) {
    out.put("\nobjects");
    for index in 0..tree.len() {
        if let Some(object) = tree.object_at(index) {
            let ono = object.ono;
            put_object(out, ono, tree.setting_of(ono), tree.lock_of(ono));
        }
    }
    out.put("\n");
}

/// An object, where it has a setting or a lock.
fn put_object(out: &mut Told, ono: Ono, setting: Option<Setting>, lock: Option<Lock>) {
    if setting.is_none() && lock.is_none() {
        return;
    }
    out.put_number(" ", u64::from(ono.0));
    put_setting(out, setting);
    if let Some(lock) = lock {
        put_lock(out, lock);
    }
}

/// A setting, or `-`, behind `=`.
fn put_setting(out: &mut Told, setting: Option<Setting>) {
    match setting {
        Some(setting) => out.put_integer("=", integer_of(setting)),
        None => out.put("=-"),
    }
}

/// A setting as an integer.
fn integer_of(setting: Setting) -> i128 {
    match setting {
        Setting::State(state) => i128::from(state),
        Setting::Position(position) => i128::from(position),
        Setting::Truth(truth) => i128::from(truth),
        Setting::Number { setting, .. } => setting,
    }
}

/// A lock: its kind and its holder.
fn put_lock(out: &mut Told, lock: Lock) {
    let kind = match lock.kind {
        LockKind::Total => "/t",
        LockKind::Readonly => "/r",
    };
    out.put(kind);
    out.put_peer(lock.holder);
}
