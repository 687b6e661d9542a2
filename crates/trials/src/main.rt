//! Trials over the built code that would be too long for proved tests.
//!
//! `trials calls`: the names of the calls that take memory, and `trials call NAME`: one of them. `trials lines`: the
//! histories of devices on standard input, with what each device is after each event, and the schedules, run by
//! `run_pair`, with what their steps led to (`line` tells their lines).
#![tactic(auto)]

mod again;
mod calls;
mod ends;
mod fields;
mod history;
mod line;
mod lines;
mod run;
mod world;

use calls::{Answered, NAMES, call};
use lines::RunFault;
use run::run_lines;
use std::net::Net;
use std::process::ExitCode;
use std::rt::Runtime;
use std::{env, io};

/// Runs the trial that the words name, with its status.
fn main(rt: HostRuntime) -> ExitCode {
    let Ok(args) = env::args(&rt) else {
        return exit_with(&rt, "no memory", 1);
    };
    match args.collect::<Vec<String>>(rt.alloc()) {
        Ok(words) => {
            let status = of_words(&rt, words.as_slice());
            drop(words);
            status
        }
        Err(_) => exit_with(&rt, "no memory", 1),
    }
}

/// Runs the trial that the words name, behind the program's own.
fn of_words<R: Runtime + AllocGlobal + Net>(rt: &R, words: &[String]) -> ExitCode {
    match words {
        [_, verb] => of_one_word(rt, verb.as_str()),
        [_, verb, name] if verb.as_str() == "call" => one_call(rt, name.as_str()),
        _ => exit_with(rt, "bad words", 2),
    }
}

/// Runs the trial that one word names.
fn of_one_word<R: Runtime + AllocGlobal>(rt: &R, verb: &str) -> ExitCode {
    match verb {
        "calls" => exit_with(rt, NAMES, 0),
        "lines" => of_lines(rt),
        _ => exit_with(rt, "bad words", 2),
    }
}

/// Prints a line where it is no fault, and else on standard error.
fn exit_with<R: Runtime>(rt: &R, text: &str, status: u8) -> ExitCode {
    if status == 0 {
        let _ = println!(rt; "{text}");
    } else {
        let _ = eprintln!(rt; "{text}");
    }
    ExitCode::from(status)
}

/// The histories and schedules on standard input.
fn of_lines<R: Runtime + AllocGlobal>(rt: &R) -> ExitCode {
    match io::read_to_string(rt.alloc(), rt.reader()) {
        Ok(text) => {
            let run = run_lines(rt, text.as_str());
            drop(text);
            ended(rt, run)
        }
        Err(_) => exit_with(rt, "read failed", 1),
    }
}

/// The status of a run over lines, whose fault is written to standard error.
fn ended<R: Runtime>(rt: &R, run: Result<(), RunFault>) -> ExitCode {
    match run {
        Ok(()) => ExitCode::SUCCESS,
        Err(RunFault::NoMemory) => exit_with(rt, "no memory", 1),
        Err(RunFault::Write) => exit_with(rt, "write failed", 1),
        Err(RunFault::Line(number, fault)) => {
            let word = fault.word();
            let _ = eprintln!(rt; "line {number}: {word}");
            ExitCode::from(2)
        }
    }
}

/// One call that takes memory.
fn one_call<R: Runtime + AllocGlobal + Net>(rt: &R, name: &str) -> ExitCode {
    match call(rt.alloc(), rt, name) {
        Answered::Done => exit_with(rt, "done", 0),
        Answered::NoMemory => exit_with(rt, "no memory", 1),
        Answered::Wrong => exit_with(rt, "wrong", 3),
        Answered::Unknown => exit_with(rt, "bad words", 2),
    }
}
