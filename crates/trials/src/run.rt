//! Histories and schedules, read as lines and run one after another.
use crate::fields::{Fields, LineFault};
use crate::history::History;
use crate::line::{Line, read_line};
use crate::lines::{RunFault, Told};
use crate::world::Schedule;
use oca_pair::Start;
use oca_types::NoMemory;

/// What began last, a history or a schedule, what is still to be printed of it, and the links of a schedule that begins.
#[derive(Drop)]
struct Run {
    history: History,
    schedule: Schedule,
    out: Told,
    starts: Vec<Start>,
}

/// Runs the histories and schedules that the text has, and prints what each led to.
pub fn run_lines<R: Print + AllocGlobal>(rt: &R, text: &str) -> Result<(), RunFault> {
    let Ok(history) = History::new(rt.alloc()) else {
        return Err(RunFault::NoMemory);
    };
    let mut run = Run {
        history,
        schedule: Schedule::new(rt.alloc()),
        out: Told::new(rt.alloc()),
        starts: Vec::new(rt.alloc()),
    };
    let ran = run_all(rt, text, &mut run);
    drop(run);
    ran
}

/// Runs the lines of the text.
fn run_all<R: Print>(rt: &R, text: &str, run: &mut Run) -> Result<(), RunFault> {
    let mut number = 0u64;
    for line in text.lines() {
        number = number.saturating_add(1);
        if line.is_empty() || line.as_bytes().first() == Some(&b'#') {
            continue;
        }
        match run_line(rt, line.as_bytes(), run) {
            Err(RunFault::Line(_, LineFault::NoMemory)) => return Err(RunFault::NoMemory),
            Err(RunFault::Line(_, fault)) => return Err(RunFault::Line(number, fault)),
            other => other?,
        }
    }
    end(rt, run)
}

/// Runs a line. The number of one that is refused is told by the caller.
fn run_line<R: Print>(rt: &R, text: &[u8], run: &mut Run) -> Result<(), RunFault> {
    let mut fields = Fields::new(text);
    let line = read_line(&mut fields, &mut run.starts);
    if let Some(fault) = fields.fault() {
        return Err(RunFault::Line(0, fault));
    }
    if let Line::History(..) | Line::Schedule(..) = line {
        end(rt, run)?;
    }
    match take_line(line, run) {
        Ok(()) => Ok(()),
        Err(fault) => Err(RunFault::Line(0, fault)),
    }
}

/// Begins what a line begins, or lets its event happen.
fn take_line(line: Line<'_>, run: &mut Run) -> Result<(), LineFault> {
    match line {
        Line::History(sizes, channels) => run.history.begin(sizes, channels, &mut run.out),
        Line::Schedule(sizes, span) => {
            run.schedule.begin(sizes, span, &mut run.starts);
            Ok(())
        }
        Line::Happens(event) if run.schedule.is_begun() => run.schedule.add(event),
        Line::Happens(event) => run.history.go_on(event, &mut run.out),
    }
}

/// Ends what began last, and prints what is known of it.
fn end<R: Print>(rt: &R, run: &mut Run) -> Result<(), RunFault> {
    run.schedule.finish(&mut run.out);
    run.out.print(rt)
}
