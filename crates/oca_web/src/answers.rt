//! The answers to pages, in JSON. Values are texts, so that those of 64 bits stay exact.
ghost use Rattle.std.specs.Prelude.{◌≡◌};
ghost use Rattle.oca_web.specs.Known.{is_old};

use crate::admission::{Terms, Unit, UnitOf};
use crate::object::{Object, class_name, limits_of};
use crate::order::{NotDone, OrderResult};
use crate::question::Property;
use crate::view::View;
use itoa::Buffer;
use json::Writer;
use oca_model::word_of;
use oca_panel::Trouble;
use std::alloc::{AllocError, Global};

/// Writes a member that is a number.
fn put_number(out: &mut Writer, name: &str, number: u64) -> Result<(), AllocError> {
    out.key(name)?;
    out.u64(number)
}

/// Writes a member that is a number or null.
fn put_number_or_null(out: &mut Writer, name: &str, number: Option<u64>) -> Result<(), AllocError> {
    out.key(name)?;
    match number {
        Some(number) => out.u64(number),
        None => out.null(),
    }
}

/// Writes a member that is a text.
fn put_text(out: &mut Writer, name: &str, text: &str) -> Result<(), AllocError> {
    out.key(name)?;
    out.string(text)
}

/// Writes a member that is true or false.
fn put_truth(out: &mut Writer, name: &str, truth: bool) -> Result<(), AllocError> {
    out.key(name)?;
    out.boolean(truth)
}

/// Writes why something was not done, or null.
fn put_trouble(
    alloc: Global,
    out: &mut Writer,
    trouble: Option<Trouble>,
) -> Result<(), AllocError> {
    out.key("trouble")?;
    let Some(trouble) = trouble else {
        return out.null();
    };
    let words = format!(in alloc; "{trouble}")?;
    out.string(words.as_str())
}

/// Writes the number of the walk, whether it is over, the device's address, and how many objects were found.
fn put_device(alloc: Global, out: &mut Writer, view: &View) -> Result<(), AllocError> {
    let (inventory, device) = (view.inventory(), view.device());
    put_number(out, "epoch", inventory.epoch())?;
    put_truth(out, "walked", inventory.is_walked())?;
    let address = format!(in alloc; "{device}")?;
    put_text(out, "device", address.as_str())?;
    put_number(out, "found", inventory.objects().as_slice().len() as u64)
}

/// Writes the number of this run of the program as a text, so that it stays exact.
fn put_run(out: &mut Writer, run: u64) -> Result<(), AllocError> {
    let mut digits = Buffer::new();
    put_text(out, "run", digits.format(run))
}

/// Writes the units of values, each for a class or an object: the other is null.
fn put_units(out: &mut Writer, units: &[Unit]) -> Result<(), AllocError> {
    out.key("units")?;
    out.begin_array()?;
    for unit in units {
        out.begin_object()?;
        match &unit.of {
            UnitOf::Class(name) => {
                put_text(out, "class", name.as_str())?;
                put_number_or_null(out, "ono", None)?;
            }
            UnitOf::Ono(ono) => {
                put_number_or_null(out, "class", None)?;
                put_number(out, "ono", u64::from(*ono))?;
            }
        }
        put_text(out, "factor", unit.factor.as_str())?;
        put_text(out, "unit", unit.name.as_str())?;
        out.end_object()?;
    }
    out.end_array()
}

/// Writes what does not change of an object.
fn put_object(out: &mut Writer, object: &Object) -> Result<(), AllocError> {
    out.begin_object()?;
    put_number(out, "ono", u64::from(object.ono.0))?;
    put_number(out, "in", u64::from(object.container.0))?;
    put_text(out, "class", class_name(object.class))?;
    put_text(out, "role", object.role.as_str())?;
    put_truth(out, "lockable", object.lockable)?;
    out.key("names")?;
    out.begin_array()?;
    for name in object.names.as_slice() {
        out.string(name.as_str())?;
    }
    out.end_array()?;
    out.end_object()
}

/// Returns the answer to a request of `/tree`: a JSON text with the walk, the device, the units, all objects that are
/// known, a block before its members, and the number of this run. The only refusal is `AllocError`.
pub fn tree_json(alloc: Global, view: &View, terms: &Terms) -> Result<Vec<u8>, AllocError> {
    let mut out = Writer::new(Vec::new(alloc));
    out.begin_object()?;
    put_device(alloc, &mut out, view)?;
    put_units(&mut out, terms.units.as_slice())?;
    out.key("objects")?;
    out.begin_array()?;
    for object in view.inventory().objects().as_slice() {
        put_object(&mut out, object)?;
    }
    out.end_array()?;
    put_run(&mut out, terms.run)?;
    out.end_object()?;
    Ok(out.into_inner())
}

/// Writes what changes of an object: its reading with its limits, its trouble, its lock and so on.
fn put_state(alloc: Global, out: &mut Writer, object: &Object) -> Result<(), AllocError> {
    let state = &object.state;
    out.begin_object()?;
    put_number(out, "ono", u64::from(object.ono.0))?;
    out.key("value")?;
    match state.reading {
        Some(reading) => out.string(word_of(reading.value()).as_str())?,
        None => out.null()?,
    }
    out.key("limits")?;
    match state.reading.and_then(limits_of) {
        Some((least, greatest)) => {
            out.begin_array()?;
            out.string(word_of(least).as_str())?;
            out.string(word_of(greatest).as_str())?;
            out.end_array()?;
        }
        None => out.null()?,
    }
    put_trouble(alloc, out, state.trouble)?;
    put_text(out, "lock", state.lock.name())?;
    put_truth(out, "enabled", state.enabled)?;
    put_text(out, "label", object.label.as_str())?;
    out.key("flags")?;
    out.begin_array()?;
    for flag in object.flags.as_slice() {
        out.boolean(*flag)?;
    }
    out.end_array()?;
    out.end_object()
}

/// Writes how an order ended: no trouble, or why it was not carried out.
fn put_result(alloc: Global, out: &mut Writer, ended: OrderResult) -> Result<(), AllocError> {
    out.begin_object()?;
    put_number(out, "ticket", ended.ticket)?;
    put_number(out, "ono", u64::from(ended.ono.0))?;
    match ended.done {
        Ok(()) => put_trouble(alloc, out, None)?,
        Err(NotDone::Trouble(trouble)) => put_trouble(alloc, out, Some(trouble))?,
        Err(NotDone::TooLate) => put_text(out, "trouble", "not sent: too late")?,
        Err(NotDone::Changed) => put_text(out, "trouble", "not sent: the device changed")?,
    }
    out.end_object()
}

/// Writes the state of the link. What was sent more often than commands and keep-alives are retransmissions.
fn put_link(out: &mut Writer, view: &View) -> Result<(), AllocError> {
    let link = view.link();
    let submitted = view.submitted();
    let first_time = link.keep_alives.saturating_add(submitted);
    let ago = |moment: u64| link.now.saturating_sub(moment);
    out.key("link")?;
    out.begin_object()?;
    put_number_or_null(out, "heard", link.heard.map(ago))?;
    put_number_or_null(out, "lost_for", link.lost_since.map(ago))?;
    put_number(out, "in_flight", view.in_flight() as u64)?;
    put_number(out, "commands", submitted)?;
    put_number(out, "again", link.sent.saturating_sub(first_time))?;
    put_number(out, "lost", link.lost)?;
    out.end_object()
}

/// The greatest number of ranges of objects that a page shows at once: 8.
pub const MOST_RANGES: usize = 8;

/// The greatest number of objects of a range whose old readings are listed.
const MOST_IN_RANGE: usize = 512;

/// A reading that was confirmed longer ago, in milliseconds, is listed as old.
const OLD_MS: u64 = 1000;

/// A range of objects in the list of objects.
#[derive(Clone, Copy, Default)]
pub struct PlaceRange {
    /// The place of the first object, counted from 0.
    pub first: usize,
    /// The number of objects.
    pub count: usize,
}

/// Whether the reading of an object is old at this moment.
fn is_old(now: u64, object: &Object) -> bool
    ensures { result ≡ is_old now object.now }
{
    object.state.reading.is_some() && OLD_MS < now.saturating_sub(object.state.confirmed)
}

/// Writes the old readings of the objects that a page shows, and how many milliseconds ago each was confirmed.
fn put_old(
    out: &mut Writer,
    now: u64,
    objects: &[Object],
    ranges: &[PlaceRange],
) -> Result<(), AllocError> {
    out.key("old")?;
    out.begin_array()?;
    for range in ranges {
        let first = range.first.min(objects.len());
        let count = range.count.min(MOST_IN_RANGE).min(objects.len() - first);
        for object in &objects[first..first + count] {
            if is_old(now, object) {
                out.begin_object()?;
                put_number(out, "ono", u64::from(object.ono.0))?;
                put_number(out, "age", now.saturating_sub(object.state.confirmed))?;
                out.end_object()?;
            }
        }
    }
    out.end_array()
}

/// A value that was not confirmed for so many milliseconds counts as unread: twice the time after which what no page
/// shows is read again.
const UNREAD_MS: u64 = 10_000;

/// Counts the objects with a value that was not confirmed within the last 10 s.
fn count_unread(now: u64, objects: &[Object]) -> usize {
    let is_unread = |object: &Object| {
        let state = &object.state;
        Property::Value.is_of(object.class)
            && (state.reading.is_none() || UNREAD_MS < now.saturating_sub(state.confirmed))
    };
    objects.iter().filter(|object| is_unread(object)).count()
}

/// What a page asks for by a request of `/values`.
#[derive(Clone, Copy)]
pub struct ValuesQuery<'a> {
    /// The ranges of objects that the page shows.
    pub ranges: &'a [PlaceRange],
    /// The number of the last change that the page knows: only objects that changed after it are listed.
    pub since: u64,
    /// The lowest ticket of which the answer lists how its order ended.
    pub ticket: u64,
}

/// Writes the device, what changed of it, and the state of the link. The device's name is the label of its root block,
/// or else the role.
fn put_update(
    alloc: Global,
    out: &mut Writer,
    view: &View,
    read_only: bool,
    query: &ValuesQuery<'_>,
) -> Result<(), AllocError> {
    let now = view.moment();
    let objects = view.inventory().objects().as_slice();
    let name = match objects.first() {
        Some(root) if !root.label.as_str().is_empty() => root.label.as_str(),
        Some(root) => root.role.as_str(),
        None => "",
    };
    put_device(alloc, out, view)?;
    put_text(out, "name", name)?;
    put_truth(out, "read_only", read_only)?;
    put_number(out, "now", now)?;
    put_number(out, "change", view.inventory().objects().changes())?;
    out.key("objects")?;
    out.begin_array()?;
    for object in objects {
        if object.changed > query.since {
            put_state(alloc, out, object)?;
        }
    }
    out.end_array()?;
    put_old(out, now, objects, query.ranges)?;
    put_number(out, "unread", count_unread(now, objects) as u64)?;
    put_link(out, view)
}

/// Returns the answer to a request of `/values`: a JSON text with the objects that changed, the state of the link, and
/// how the last orders ended, as far as the page asks for them. The only refusal is `AllocError`.
pub fn values_json(
    alloc: Global,
    view: &View,
    terms: &Terms,
    query: &ValuesQuery<'_>,
) -> Result<Vec<u8>, AllocError> {
    let mut out = Writer::new(Vec::new(alloc));
    out.begin_object()?;
    put_update(alloc, &mut out, view, terms.read_only, query)?;
    put_run(&mut out, terms.run)?;
    out.key("told")?;
    out.begin_array()?;
    for ended in view.orders().results() {
        if ended.ticket >= query.ticket {
            put_result(alloc, &mut out, *ended)?;
        }
    }
    out.end_array()?;
    out.end_object()?;
    Ok(out.into_inner())
}

/// Returns the answer to a request of `/orders`: a JSON text with `count` tickets. The first is `first`, and each other
/// one is the next number. The only refusal is `AllocError`.
pub fn tickets_json(alloc: Global, first: u64, count: usize) -> Result<Vec<u8>, AllocError> {
    let mut out = Writer::new(Vec::new(alloc));
    out.begin_object()?;
    out.key("tickets")?;
    out.begin_array()?;
    for at in 0..count as u64 {
        out.u64(first.saturating_add(at))?;
    }
    out.end_array()?;
    out.end_object()?;
    Ok(out.into_inner())
}
