//! The objects of a device: printed as a tree, read, set, locked, unlocked. Each has its line.
ghost use Rattle.std.specs.Prelude.{◌≡◌, ◌<◌, ◌≤◌, IfSome, OnOk, length, true, false};
ghost use Rattle.std.specs.List.{position};
ghost use Rattle.std.specs.Str.{bytes_eq};
ghost use Rattle.oca_control.specs.Asking.{IsPresent};
ghost use Rattle.oca_script.specs.Escapes.{escaped};
ghost use Rattle.ocactl_cli.specs.Objects.{BeginsSet, FindsInTime, FindsName, FindsPosition, FindsValue, IsLate, IsSoonBehind};
ghost use Rattle.ocactl_cli.specs.Objects.{LocksBehind, found_position};
ghost use Rattle.ocactl_cli.specs.PrivateObjects.{pair_of};

use super::command::Pair;
use super::object_line::{ObjectLine, max_severity, print_place, report_object};
use oca_control::{ControlFault, LONGEST_LIFE_MS, Outcome};
use oca_model::{Names, Value, value_from_word};
use oca_net::End;
use oca_panel::{Found, InFlight, MOST_PLACES, Panel, Trouble, Visit, Walk, done_in};
use oca_program::{Failure, RunFault};
use oca_script::{Escaped, Printer, Sink, WriteFailed};
use oca_types::{Class, Handle, Ono, Span, Text};
use std::alloc::Global;

/// Visits the places of a device from the root block on, after each block its members in their order, and prints a line
/// for each. If an object refuses a question, that is printed in its place, and the walk goes on. At most 4,096 places
/// are visited; if more are left, a last line says so. Returns the exit status, the most severe of all lines
/// ([`max_severity`]). Failures: `Write` if a write failed, `NoMemory` if memory was refused.
pub fn walk<E: End, W: Sink>(
    alloc: Global,
    panel: &mut Panel<E>,
    printer: &mut Printer<W>,
) -> Result<u8, Failure> {
    let mut walk = Walk::new(alloc)?;
    let mut status = 0;
    for _place in 0..MOST_PLACES {
        let Some(visit) = walk.next_place(panel)? else {
            return Ok(status);
        };
        status = max_severity(status, report_visit(&visit, printer)?);
    }
    if walk.is_unfinished() {
        printer.print(b"more than 4096 objects\n")?;
        printer.flush()?;
        status = max_severity(status, 4);
    }
    Ok(status)
}

/// Prints the lines of a place, and flushes them. Returns the exit status.
fn report_visit<W: Sink>(visit: &Visit, printer: &mut Printer<W>) -> Result<u8, WriteFailed> {
    let trouble = match &visit.found {
        Found::Object(description) | Found::Block(description, Ok(())) => {
            print_place(visit.place, description, printer)?;
            None
        }
        Found::Block(description, Err(trouble)) => {
            print_place(visit.place, description, printer)?;
            Some(*trouble)
        }
        Found::Undescribed(trouble) => Some(*trouble),
        Found::Again => None,
    };
    if let Some(trouble) = trouble {
        return report_object(visit.place.ono, &ObjectLine::Failed(trouble), printer);
    }
    printer.flush()?;
    Ok(0)
}

/// Reads the objects `onos` one after another, and prints the value of each. Returns the most severe exit status of all
/// lines. Refusal: `WriteFailed` if a write failed; the objects whose lines come before were asked.
pub fn get_all<E: End, W: Sink>(
    panel: &mut Panel<E>,
    onos: &[Ono],
    printer: &mut Printer<W>,
) -> Result<u8, WriteFailed> {
    printer.flush()?;
    let mut status = 0;
    for ono in onos {
        let line = read(panel, *ono);
        status = max_severity(status, report_object(*ono, &line, printer)?);
    }
    Ok(status)
}

/// Reads an object: its value, or why there is none; of a switch the position's name too, where the switch gives it.
fn read<E: End>(panel: &mut Panel<E>, ono: Ono) -> ObjectLine {
    match panel.get(ono) {
        Ok(Value::Switch(position)) => match panel.position_name(ono, position) {
            Ok(name) => ObjectLine::Position(position, name),
            Err(_) => ObjectLine::Value(Value::Switch(position)),
        },
        Ok(value) => ObjectLine::Value(value),
        Err(trouble) => ObjectLine::Failed(trouble),
    }
}

/// Sets the objects to the values of `pairs`, with at most `ahead` commands in flight at once. Prints the outcome of
/// each, in the order of the pairs. First it looks for the value of each pair. If a word means no value of its object,
/// or an object's class can't be read, nothing is set. Then only the lines of these objects are printed. If more than
/// 15,000 ms pass between two questions, since the program was suspended, nothing is set either.
///
/// Returns the most severe exit status of all lines. Failures: `Write` if a write failed; then commands in flight may
/// be carried out or not. `NoMemory` if memory was refused.
pub fn set_all<E: End, W: Sink>(
    alloc: Global,
    panel: &mut Panel<E>,
    pairs: &[Pair],
    ahead: Span,
    printer: &mut Printer<W>,
) -> Result<u8, Failure> {
    printer.flush()?;
    let mut assignments = Vec::new(alloc);
    let mut since = present(panel);
    let mut missing = None;
    for pair in pairs {
        match find(panel, pair, &mut since) {
            Ok(value) => {
                let ono = pair.ono;
                assignments
                    .push(Assignment { ono, value })
                    .map_err(|_| RunFault::NoMemory)?;
            }
            Err(trouble) => {
                let status = report_object(pair.ono, &ObjectLine::Failed(trouble), printer)?;
                missing = Some(max_severity(missing.unwrap_or(0), status));
            }
        }
    }
    match missing {
        Some(status) => Ok(status),
        None => Ok(set_assignments(panel, assignments.as_slice(), ahead, since, printer)?),
    }
}

/// The value that a word names, if it is asked for at most 15,000 ms after the moment `since`, which becomes the
/// present one. Later nothing is asked, as where the link is lost.
fn find<E: End>(panel: &mut Panel<E>, pair: &Pair, since: &mut u64) -> Result<Value, Trouble>
    ensures { FindsInTime since.old since.new (pair_of pair.now) panel.old panel.new result }
{
    if !keep_up(panel, since) {
        return Err(Trouble::NotSubmitted(ControlFault::Lost));
    }
    find_value(panel, pair.ono, pair.word.as_str())
}

/// The value that a word means for the object with this number. The device is asked for the object's class. For a
/// switch, if the word is no number, it is also asked for the names of the positions. Nothing is set.
///
/// Faults: `NoValue` if the object is a block or its class is not of this profile. `NoSuchWord` if the word means no
/// value of the object. `Refused`, `Unreadable`, `NotSubmitted`, `Lost` and `Unanswered` as in [`Panel::class`].
fn find_value<E: End>(panel: &mut Panel<E>, ono: Ono, word: &str) -> Result<Value, Trouble>
    ensures { FindsValue ono.0 word.now panel.old panel.new result }
{
    match panel.class(ono) {
        Ok(class) => match value_from_word(class, word) {
            Some(value) => Ok(value),
            None => find_name(panel, ono, class, word),
        },
        Err(trouble) => Err(trouble),
    }
}

/// The value of an object of a class, whose words this is none of: of a switch, the position of this name.
fn find_name<E: End>(
    panel: &mut Panel<E>,
    ono: Ono,
    class: Class,
    word: &str,
) -> Result<Value, Trouble>
    ensures { FindsName ono.0 word.now class panel.old panel.new result }
{
    match class {
        Class::Block => Err(Trouble::NoValue),
        Class::Switch => find_position(panel, ono, word),
        _ => Err(Trouble::NoSuchWord),
    }
}

/// The position of a switch that has this name.
fn find_position<E: End>(panel: &mut Panel<E>, ono: Ono, word: &str) -> Result<Value, Trouble>
    ensures { FindsPosition ono.0 word.now panel.old panel.new result }
{
    match panel.position_names(ono) {
        Ok(names) => position_of(&names, word),
        Err(trouble) => Err(trouble),
    }
}

/// The first position whose name is printed so.
fn position_of(names: &Names, word: &str) -> Result<Value, Trouble>
    ensures { result ≡ found_position (position (λ name. bytes_eq (escaped name) word.now) names.now.items) }
{
    match search(names.as_slice(), word) {
        Some(position) => Ok(Value::Switch(position as u16)),
        None => Err(Trouble::NoSuchWord),
    }
}

/// Where the first of these names is that is printed so.
fn search(names: &[Text], word: &str) -> Option<usize>
    ensures value { result ≡ position (λ name. bytes_eq (escaped name) word.now) names.now }
    ensures bound { IfSome result (λ at. at < length names.now) }
{
    names.iter().position(|name| is_called(name, word))
}

/// Whether the text is printed as the word.
fn is_called(name: &Text, word: &str) -> bool
    ensures { result ≡ bytes_eq (escaped name.now) word.now }
{
    Escaped::of(name.as_str()).as_bytes() == word.as_bytes()
}

/// An object, and the value that it is to have.
#[derive(Clone, Copy)]
struct Assignment {
    ono: Ono,
    value: Value,
}

impl Default for Assignment {
    ghost use Rattle.std.specs.Prelude.{◌≡◌};

    ghost is_default = { λ a. a.ono.0 ≡ 0 };

    /// What a place holds where no command is.
    fn default() -> Self {
        Assignment {
            ono: Ono(0),
            value: Value::Boolean(false),
        }
    }
}

/// Sets objects, with at most `ahead` commands in flight at once, and prints the outcome of each, in the order of the
/// assignments. A command that would be submitted more than 15,000 ms after the one before it, of which `since` is the
/// moment, is left out: `not sent`. Returns the most severe exit status of all lines. Refusal: `WriteFailed` if a write
/// failed; then commands in flight may be carried out or not.
fn set_assignments<E: End, W: Sink>(
    panel: &mut Panel<E>,
    assignments: &[Assignment],
    ahead: Span,
    since: u64,
    printer: &mut Printer<W>,
) -> Result<u8, WriteFailed> {
    let mut waiting = InFlight::new();
    let mut status = 0;
    let mut since = since;
    for assignment in assignments {
        let left = usize::from(ahead.get()) - 1;
        let before = await_until(panel, left, &mut waiting, printer)?;
        status = max_severity(status, before);
        match begin_in_time(panel, *assignment, &mut since) {
            Ok(handle) => waiting.push(handle, *assignment),
            Err(fault) => {
                let others = await_until(panel, 0, &mut waiting, printer)?;
                let own = report_set(*assignment, &Outcome::Refused(fault), printer)?;
                status = max_severity(status, max_severity(others, own));
            }
        }
    }
    let last = await_until(panel, 0, &mut waiting, printer)?;
    Ok(max_severity(status, last))
}

/// Submits the command that sets an object, at most 15,000 ms after the one before it. Refusals, which change nothing:
/// `Lost` where it comes later, and those of the link.
fn begin_in_time<E: End>(
    panel: &mut Panel<E>,
    assignment: Assignment,
    since: &mut u64,
) -> Result<Handle, ControlFault>
    ensures { BeginsSet since.old since.new (assignment.ono.0, assignment.value) result panel.old panel.new }
{
    if !keep_up(panel, since) {
        return Err(ControlFault::Lost);
    }
    panel.begin_set(assignment.ono, assignment.value)
}

/// Waits for set commands in flight, the first first, until at most so many are, and prints the outcome of each.
/// Returns the exit status.
fn await_until<E: End, W: Sink>(
    panel: &mut Panel<E>,
    left: usize,
    waiting: &mut InFlight<Assignment>,
    printer: &mut Printer<W>,
) -> Result<u8, WriteFailed>
    ensures { OnOk result (length waiting.new ≤ left) }
{
    let mut status = 0;
    while waiting.len() > left {
        let Some((assignment, outcome)) = waiting.finish_first(panel) else {
            unreachable!()
        };
        status = max_severity(status, report_set(assignment, &outcome, printer)?);
    }
    Ok(status)
}

/// Prints how the command that was to set an object came out. Returns the exit status.
fn report_set<W: Sink>(
    assignment: Assignment,
    outcome: &Outcome,
    printer: &mut Printer<W>,
) -> Result<u8, WriteFailed> {
    let line = match done_in(outcome) {
        Ok(()) => ObjectLine::Value(assignment.value),
        Err(trouble) => ObjectLine::Failed(trouble),
    };
    report_object(assignment.ono, &line, printer)
}

/// What becomes of the lock of an object.
#[derive(Clone, Copy)]
pub enum LockAction {
    Lock,
    Unlock,
}

/// Locks or unlocks the objects `onos` one after another, and prints the outcome of each. An object whose command would
/// be submitted more than 15,000 ms after the command before it is left out: `not sent`. Returns the most severe exit
/// status of all lines. Refusal: `WriteFailed` if a write failed; the objects whose lines come before were asked.
pub fn lock_all<E: End, W: Sink>(
    panel: &mut Panel<E>,
    onos: &[Ono],
    action: LockAction,
    printer: &mut Printer<W>,
) -> Result<u8, WriteFailed> {
    printer.flush()?;
    let mut status = 0;
    let mut since = present(panel);
    for ono in onos {
        let own = lock_one(panel, *ono, action, &mut since, printer)?;
        status = max_severity(status, own);
    }
    Ok(status)
}

/// Locks or unlocks an object, and prints its outcome. If more than 15,000 ms have passed since the moment `since`, in
/// milliseconds of the end's clock, nothing is sent, and `not sent` is printed. Otherwise `since` becomes the present
/// moment. Returns the exit status. Refusal: `WriteFailed` if the line was not written; a command that was sent may be
/// carried out all the same.
pub fn lock_one<E: End, W: Sink>(
    panel: &mut Panel<E>,
    ono: Ono,
    action: LockAction,
    since: &mut u64,
    printer: &mut Printer<W>,
) -> Result<u8, WriteFailed> {
    let line = match (lock_in_time(panel, ono, action, since), action) {
        (Ok(()), LockAction::Lock) => ObjectLine::Locked,
        (Ok(()), LockAction::Unlock) => ObjectLine::Unlocked,
        (Err(trouble), _) => ObjectLine::LockFailed(trouble),
    };
    report_object(ono, &line, printer)
}

/// Locks or unlocks an object, at most 15,000 ms after the command before it. Later nothing is sent, as if the link
/// were lost.
fn lock_in_time<E: End>(
    panel: &mut Panel<E>,
    ono: Ono,
    action: LockAction,
    since: &mut u64,
) -> Result<(), Trouble>
    ensures { LocksBehind since.old since.new action ono.0 panel.old panel.new result }
{
    if !keep_up(panel, since) {
        return Err(Trouble::NotSubmitted(ControlFault::Lost));
    }
    match action {
        LockAction::Lock => panel.lock(ono),
        LockAction::Unlock => panel.unlock(ono),
    }
}

/// The present moment of the clock of the panel's end, in milliseconds.
#[tactic(auto, using(crate::proofs::ExchangeLemmas::present_of))]
pub fn present<E: End>(panel: &Panel<E>) -> u64
    ensures { IsPresent result panel.now.end_state }
{
    panel.end().now()
}

/// Makes `since`, the moment of the command before in milliseconds of the end's clock, the present one, and returns
/// `true`: one more command may be submitted. If that is more than 15,000 ms later, it returns `false`, and `since`
/// stays. While the program runs, no wait for an answer takes so long.
fn keep_up<E: End>(panel: &Panel<E>, since: &mut u64) -> bool
    ensures in_time { result ≡ true → IsSoonBehind since.old since.new panel.now }
    ensures late { result ≡ false → IsLate since.old panel.now }
    ensures same { result ≡ false → since.new ≡ since.old }
{
    let now = present(panel);
    if now.saturating_sub(*since) > LONGEST_LIFE_MS {
        return false;
    }
    *since = now;
    true
}
