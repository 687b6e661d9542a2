//! The command line: its options, and what it asks for.
//!
//! A value of `set` may be a negative number, which is an option for `clap`, as each word that begins with `-`. So the
//! words of `set` are matched with a blank in front of each negative number, which is then taken off the value. The
//! time behind `--hold` is taken out of the words of `lock`, since `--hold` needs none.

use arrayvec::ArrayVec;
use clap::{ArgMatches, Error};
use oca_panel::{LocalPort, Way};
use oca_program::form::{NUMBER_8, NUMBER_16, NUMBER_32, check_values};
use oca_program::table::program_with_commands;
use oca_program::{CommandRow, Failure, Form, Kind, OptionRow, RunFault};
use oca_script::field::{hex_bytes, number};
use oca_types::{Handle, LOOPBACK, MOST_COMMAND_PARAMETER_BYTES, MethodId, Ono, Peer, Span, Text};
use std::alloc::{AllocError, Global};
use std::convert::AsStr;
use std::net::Ipv4Addr;

/// What a command line asks for.
#[derive(Drop)]
pub enum Command {
    /// To replay a script on a link to this device, with this first handle and span.
    Replay(Peer, Handle, Span),
    /// To send a command to a device.
    Send(Remote, Sending),
    /// To send the commands of the input to a device, at most so many at once.
    Run(Remote, Span),
    /// To do something with objects of a device. A command waits so many times 50 ms for its answer.
    Do(Remote, u32, Task),
}

/// A device that is reached over a network.
#[derive(Clone, Copy)]
pub struct Remote {
    pub device: Peer,
    /// The local address, the first byte highest; 0 for the one from which the system reaches the device.
    pub ip: u32,
    pub port: Option<u16>,
    pub first: Option<Handle>,
    pub span: Span,
}

impl Remote {
    /// The way to the device, from the port of the command line if it gives one, and otherwise from this one.
    pub fn way(&self, otherwise: LocalPort) -> Way {
        Way {
            device: self.device,
            ip: self.ip,
            port: self.port.map_or(otherwise, LocalPort::Given),
            first: self.first,
        }
    }
}

/// A command that is sent alone.
#[derive(Drop)]
pub struct Sending {
    pub target: Ono,
    pub method: MethodId,
    pub count: u8,
    pub params: ArrayVec<u8, MOST_COMMAND_PARAMETER_BYTES>,
    /// For how many turns of up to 50 ms its answer is waited for.
    pub turns: u32,
}

/// What is to be done with objects of a device.
#[derive(Drop)]
pub enum Task {
    /// To print all objects.
    Tree,
    /// To print their values.
    Get(Vec<Ono>),
    /// To set them, at most so many at once.
    Set(Span, Vec<Pair>),
    /// To lock them.
    Lock(Vec<Ono>),
    /// To lock them, and to keep the locks.
    Hold(Vec<Ono>, Hold),
    /// To release their locks.
    Unlock(Vec<Ono>),
}

impl Task {
    /// The local port from which it is done, if the command line gives none. A lock belongs to the port that took it.
    pub fn local_port(&self) -> LocalPort {
        match self {
            Task::Tree | Task::Get(_) | Task::Set(..) => LocalPort::Own,
            Task::Lock(_) | Task::Hold(..) | Task::Unlock(_) => LocalPort::OwnAlone,
        }
    }
}

/// For how long locks are kept.
#[derive(Clone, Copy)]
pub enum Hold {
    /// Until the input ends.
    Input,
    /// For so many milliseconds, whatever the input.
    Time(u64),
}

/// An object, and the word for the value that it is to have.
#[derive(Drop)]
pub struct Pair {
    pub ono: Ono,
    pub word: Text,
}

const DEVICE: OptionRow = OptionRow {
    name: "device",
    value: "A.B.C.D:PORT",
    help: "The device's address and port",
    kind: Kind::Required,
    form: Form::Host,
};

const REPLAY_DEVICE: OptionRow = OptionRow {
    form: Form::Peer,
    ..DEVICE
};

const SPAN: OptionRow = OptionRow {
    name: "span",
    value: "S",
    help: "The span, 1 to 32: the handles of the commands whose answers were not yet taken are within S consecutive \
        numbers. The device needs a reply window of at least 2 * S - 1 commands; its default of 32 is enough for a \
        span of 16 [default: 16]",
    kind: Kind::Optional,
    form: Form::Number {
        digits: 3,
        least: 1,
        largest: 32,
    },
};

const FIRST_HANDLE: OptionRow = OptionRow {
    name: "first-handle",
    value: "H",
    help: "The handle of the first command, 0 to 4294967295; it must be above every handle that was used from the same \
        local port since the last pause of more than two minutes in which nothing was sent from there [default: from \
        the clock; it rises by 100000 a second, and starts again from 0 when it reaches 2147483648]",
    kind: Kind::Optional,
    form: NUMBER_32,
};

const OWN_FIRST_HANDLE: OptionRow = OptionRow {
    help: "The handle of the first command, 0 to 4294967295",
    kind: Kind::Required,
    ..FIRST_HANDLE
};

const IP: OptionRow = OptionRow {
    name: "ip",
    value: "A.B.C.D",
    help: "The local address, from which each copy of a command leaves; 0.0.0.0 means the one from which the system \
        reaches the device [default: 127.0.0.1 for a device on this machine (127.x.x.x), otherwise 0.0.0.0]",
    kind: Kind::Optional,
    form: Form::LocalIp,
};

const AHEAD: OptionRow = OptionRow {
    name: "ahead",
    value: "N",
    help: "How many commands may wait for their answers at once, 1 to the span; commands in flight together may be \
        executed in any order [default: 1]",
    ..SPAN
};

const TARGET: OptionRow = OptionRow {
    name: "target",
    value: "ONO",
    help: "The target's object number",
    kind: Kind::Required,
    form: NUMBER_32,
};

const LEVEL: OptionRow = OptionRow {
    name: "level",
    value: "L",
    help: "The method's DefLevel",
    kind: Kind::Required,
    form: NUMBER_16,
};

const INDEX: OptionRow = OptionRow {
    name: "index",
    value: "I",
    help: "The method's MethodIndex",
    kind: Kind::Required,
    form: NUMBER_16,
};

const COUNT: OptionRow = OptionRow {
    name: "count",
    value: "C",
    help: "ParamCount: how many parameters there are",
    kind: Kind::Required,
    form: NUMBER_8,
};

const PARAMS: OptionRow = OptionRow {
    name: "params",
    value: "HEX",
    help: "The parameters in hexadecimal, or - for none [default: none]",
    kind: Kind::Optional,
    form: Form::Bytes,
};

const SEND_TURNS: OptionRow = OptionRow {
    help: "Gives up after T waits of up to 50 ms each; at 0 the command is sent once, and no answer is waited for \
        [default: 200]",
    ..TURNS
};

const SEND_PORT: OptionRow = OptionRow {
    help: "The local port [default: the system chooses one]. Without this option each call takes a new session at the \
        device, which has 16 unless its maker chose otherwise: so give a port if you make many calls in a row",
    ..PORT
};

const RUN_PORT: OptionRow = OptionRow {
    help: "The local port [default: 65001 or 65002, which alternate every six hours; if that port is in use, the \
        system chooses one]",
    ..PORT
};

const TURNS: OptionRow = OptionRow {
    name: "turns",
    value: "T",
    help: "Gives up on a command after T times 50 ms [default: 200]",
    kind: Kind::Optional,
    form: NUMBER_32,
};

const PORT: OptionRow = OptionRow {
    name: "port",
    value: "PORT",
    help: "The local port [default: 65001 or 65002, which alternate every six hours; lock and unlock fail if either of \
        the two is in use; for other commands the system chooses a port if theirs is in use]",
    kind: Kind::Optional,
    form: NUMBER_16,
};

/// The flag by which locks are kept until the input ends.
const HOLD: OptionRow = OptionRow {
    name: "hold",
    value: "",
    help: "Keeps the locks until standard input ends, and then releases them. With a time behind it, for example 30s, 90m \
        or 1h, it keeps them for that time, whatever the input. If a lock is lost meanwhile, that is printed, and \
        the exit status is 5. If a signal stops the program, the locks lapse after 15 seconds",
    kind: Kind::Flag,
    form: Form::Text,
};

/// The objects that a command is about.
const OBJECTS: OptionRow = OptionRow {
    name: "ONO",
    value: "ONO",
    help: "The numbers (ONo) of the objects",
    kind: Kind::Words,
    form: Form::Text,
};

/// The objects and the words for their values.
const VALUES: OptionRow = OptionRow {
    value: "ONO VALUE",
    help: "The number (ONo) of each object, followed by its value",
    ..OBJECTS
};

/// The program without its commands.
const PROGRAM: CommandRow = CommandRow {
    name: "ocactl",
    about: "Controls an OCA (AES70) device over UDP",
    example: "Example, with the bench device: ocactl set --device 127.0.0.1:65000 4097 unmuted",
    options: &[],
};

const TREE: CommandRow = CommandRow {
    name: "tree",
    about: "Prints the objects of a device",
    example: "Prints a line for each object: its ONo, its class identifier, the ONo of its
container (0 for the root), and its role. If an object does not give its class
or its role, its line has its ONo and the reason, for example Locked. If a
block does not list its members, it has a second line with its ONo and the
reason, for example BufferOverflow.

Example: ocactl tree --device 127.0.0.1:65000",
    options: &[DEVICE, SPAN, FIRST_HANDLE, IP, TURNS, PORT],
};

const GET: CommandRow = CommandRow {
    name: "get",
    about: "Prints the values of objects of a device",
    example: "Prints a line for each object: its ONo and its value: muted or unmuted;
non-inverted or inverted; on or off; the number and the name of a switch's
position; an integer. If an object gives no value, its line has the reason: a
status, for example Locked, or no value, no answer, lost.

Exit status: 0 if all values were read, 3 if an answer did not come, 4 if
something was refused. If a device does not give the name of a position, that
does not change the exit status.

Example, with the bench device: ocactl get --device 127.0.0.1:65000 4097 4100",
    options: &[DEVICE, SPAN, FIRST_HANDLE, IP, TURNS, PORT, OBJECTS],
};

const SET: CommandRow = CommandRow {
    name: "set",
    about: "Sets objects of a device",
    example: "VALUE is muted or unmuted; non-inverted or inverted; on or off; the number or
the name of a switch's position; an integer. If a value does not fit its
object, or it can't be found out whether it does, nothing is set. Up to N set
commands wait for their answers at once (--ahead N). The lines are printed in
the order of the arguments, whatever the order in which the commands are
executed.

Exit status: 0 if everything was set, 2 if a value does not fit its object, 3
if an answer did not come, 4 if something was refused.

Example, with the bench device: ocactl set --device 127.0.0.1:65000 4097 unmuted 4100 -60",
    options: &[DEVICE, SPAN, FIRST_HANDLE, IP, TURNS, PORT, AHEAD, VALUES],
};

const LOCK: CommandRow = CommandRow {
    name: "lock",
    about: "Locks objects of a device",
    example: "While an object is locked, other controllers can neither read nor set it.
Without --hold a lock is released once its holder (this address and port) has
been silent for more than 15 seconds; with --hold it is kept until standard
input ends, and with --hold TIME (30s, 90m, 1h) for that time. The lock of a
block does not lock its members.

Exit status: 0 if everything was locked, 3 if an answer did not come, 4 if
something was refused. With --hold it is 5 if a lock was lost meanwhile.

Example: ocactl lock --device 127.0.0.1:65000 4097",
    options: &[DEVICE, SPAN, FIRST_HANDLE, IP, TURNS, PORT, HOLD, OBJECTS],
};

const UNLOCK: CommandRow = CommandRow {
    name: "unlock",
    about: "Releases the locks of objects of a device",
    example: "Example: ocactl unlock --device 127.0.0.1:65000 4097",
    options: &[DEVICE, SPAN, FIRST_HANDLE, IP, TURNS, PORT, OBJECTS],
};

const REPLAY: CommandRow = CommandRow {
    name: "replay",
    about: "Runs a controller's link over a script on standard input, without a network",
    example: "Each line is one of these; N is a moment in milliseconds:
  N submit ONO LEVEL INDEX COUNT HEX   a command is submitted
  N due                                the link is asked what it has to send
  N from A.B.C.D:PORT HEX              a datagram comes from this address and port
  take H                               the answer to the command with the handle H is taken

Example: printf '0 submit 4097 4 1 0 -\\n0 due\\n' | ocactl replay --device 127.0.0.1:65000 --first-handle 1",
    options: &[REPLAY_DEVICE, SPAN, OWN_FIRST_HANDLE],
};

const SEND: CommandRow = CommandRow {
    name: "send",
    about: "Sends a command to a device and prints its answer: status, ParamCount, parameters",
    example: "Exit status: 0 for an answer with status 0, 3 if none came, 4 for an answer
with another status.

Example: ocactl send --device 127.0.0.1:65000 --first-handle 1 --target 4097 --level 4 --index 1 --count 0",
    options: &[
        DEVICE,
        SPAN,
        FIRST_HANDLE,
        IP,
        TARGET,
        LEVEL,
        INDEX,
        COUNT,
        PARAMS,
        SEND_TURNS,
        SEND_PORT,
    ],
};

const RUN: CommandRow = CommandRow {
    name: "run",
    about: "Sends the commands on standard input, and prints the answer to each in the order of their lines",
    example: "Each line is a command, ONO LEVEL INDEX COUNT HEX (object number, DefLevel,
MethodIndex, ParamCount, and the parameters in hexadecimal or - for none), or
the word wait, which waits for the answers to all commands before it.

Exit status: 0 if each command was answered, 3 if one was not.

Example: echo '4097 4 1 0 -' | ocactl run --device 127.0.0.1:65000",
    options: &[DEVICE, SPAN, FIRST_HANDLE, IP, AHEAD, RUN_PORT],
};

const BAD_AHEAD: &str = "--ahead is more than the span, which is 16 without --span";

const BAD_ONO: &str = "an object number (ONo) is 1 to 10 digits, up to 4294967295";

const BAD_PAIRS: &str = "give a value of at most 64 bytes after each ONo";

/// The command at this place of `--help`. A function gives them: one constant of them all is more than the prover takes
/// in one step.
fn command_at(place: u32) -> CommandRow {
    match place {
        0 => TREE,
        1 => GET,
        2 => SET,
        3 => LOCK,
        4 => UNLOCK,
        5 => REPLAY,
        6 => SEND,
        _ => RUN,
    }
}

/// The commands, in the order of `--help`.
fn commands() -> [CommandRow; 8] {
    [0, 1, 2, 3, 4, 5, 6, 7].map(|place| command_at(place))
}

/// The words of the command line as they are matched, and the time behind `--hold`.
#[derive(Drop)]
pub struct Arguments {
    pub words: Vec<String>,
    /// In milliseconds.
    pub hold_ms: Option<u64>,
}

impl Arguments {
    /// The words as they are matched, of those of the command line, the program's name first. Refusal: `AllocError`, if
    /// memory was refused.
    pub fn new<S: AsStr>(alloc: Global, words: &[S]) -> Result<Arguments, AllocError> {
        let name = match words {
            [_, name, ..] => name.as_str(),
            _ => "",
        };
        let mut arguments = Arguments {
            words: Vec::new(alloc),
            hold_ms: None,
        };
        let mut is_behind_hold = false;
        for word in words {
            let word = word.as_str();
            match time_of(word) {
                Some(time) if is_behind_hold => arguments.hold_ms = Some(time),
                _ => {
                    let blank = if name == "set" && takes_blank(word) {
                        " "
                    } else {
                        ""
                    };
                    arguments.words.push(format!(in alloc; "{blank}{word}")?)?;
                }
            }
            is_behind_hold = name == "lock" && word == "--hold";
        }
        Ok(arguments)
    }
}

/// Whether a word begins with a blank, or with `-` and a digit.
fn takes_blank(word: &str) -> bool {
    match word.as_bytes() {
        [b'-', digit, ..] => digit.is_ascii_digit(),
        [first, ..] => *first == b' ',
        [] => false,
    }
}

/// The word without the blank that [`Arguments::new`] put before it; the word itself if it begins with no blank.
fn without_blank(word: &str) -> &str {
    word.strip_prefix(" ").unwrap_or(word)
}

/// The time, in milliseconds, that a word says: 1 to 9 digits, and `s` for seconds, `m` for minutes or `h` for hours.
fn time_of(word: &str) -> Option<u64> {
    let (digits, unit) = match word.as_bytes() {
        [digits @ .., b's'] => (digits, 1_000),
        [digits @ .., b'm'] => (digits, 60_000),
        [digits @ .., b'h'] => (digits, 3_600_000),
        _ => return None,
    };
    Some(number(digits, 9, 999_999_999)?.saturating_mul(unit))
}

/// Matches the words of the command line with the commands and options that the program takes. Err if they do not
/// match, ask for a help text or the version, or memory was refused; the error says which.
pub fn matches_of<'a>(alloc: Global, arguments: &'a Arguments) -> Result<ArgMatches<'a>, Error> {
    program_with_commands(alloc, &PROGRAM, &commands())?.try_get_matches_from(
        arguments.words.as_slice(),
    )
}

/// What a command line that matched asks for. Failures: `BadWords` if a word or the value of an option has not its
/// form; the note says which form. `NoMemory` if memory was refused.
pub fn command_of(
    alloc: Global,
    arguments: &Arguments,
    matches: &ArgMatches<'_>,
) -> Result<Command, Failure> {
    let (name, options) = matches.subcommand().ok_or(RunFault::BadWords)?;
    let commands = commands();
    let row = commands
        .iter()
        .find(|row| row.name == name)
        .ok_or(RunFault::BadWords)?;
    check_values(alloc, options, row.options)?;
    if name == "replay" {
        return replay_of(options);
    }
    let remote = remote_of(options)?;
    match name {
        "send" => Ok(Command::Send(remote, sending_of(options))),
        "run" => Ok(Command::Run(remote, ahead_of(alloc, options, remote.span)?)),
        _ => {
            let turns = TURNS.number(options).unwrap_or(200) as u32;
            let task = task_of(alloc, name, arguments, options, remote.span)?;
            Ok(Command::Do(remote, turns, task))
        }
    }
}

/// The task of a command for objects. `set` has at most as many commands in flight as the span allows.
fn task_of(
    alloc: Global,
    name: &str,
    arguments: &Arguments,
    options: &ArgMatches<'_>,
    span: Span,
) -> Result<Task, Failure> {
    match name {
        "tree" => Ok(Task::Tree),
        "set" => {
            let ahead = ahead_of(alloc, options, span)?;
            Ok(Task::Set(ahead, pairs_of(alloc, options)?))
        }
        "get" => Ok(Task::Get(onos_of(alloc, options)?)),
        "unlock" => Ok(Task::Unlock(onos_of(alloc, options)?)),
        _ => {
            let onos = onos_of(alloc, options)?;
            match arguments.hold_ms {
                Some(time) => Ok(Task::Hold(onos, Hold::Time(time))),
                None if HOLD.is_set(options) => Ok(Task::Hold(onos, Hold::Input)),
                None => Ok(Task::Lock(onos)),
            }
        }
    }
}

/// The replay that the options ask for, where each of them has its form.
fn replay_of(options: &ArgMatches<'_>) -> Result<Command, Failure> {
    let device = REPLAY_DEVICE.peer(options).ok_or(RunFault::BadWords)?;
    let first = Handle(OWN_FIRST_HANDLE.number(options).unwrap_or(0) as u32);
    let span = span_in(options, &SPAN).unwrap_or_default();
    Ok(Command::Replay(device, first, span))
}

/// The device that the options name, and how it is reached, where each of them has its form.
fn remote_of(options: &ArgMatches<'_>) -> Result<Remote, Failure> {
    let device = DEVICE.host(options).ok_or(RunFault::BadWords)?;
    let is_local = Ipv4Addr::from(device.ip).is_loopback();
    Ok(Remote {
        device,
        ip: IP
            .local_ip(options)
            .unwrap_or(if is_local { LOOPBACK } else { 0 }),
        port: PORT
            .number(options)
            .and_then(|port| u16::try_from(port).ok()),
        first: FIRST_HANDLE
            .number(options)
            .and_then(|first| u32::try_from(first).ok())
            .map(Handle),
        span: span_in(options, &SPAN).unwrap_or_default(),
    })
}

/// The span that an option gives.
fn span_in(options: &ArgMatches<'_>, row: &OptionRow) -> Option<Span> {
    Span::new(u8::try_from(row.number(options)?).ok()?)
}

/// How many commands may be in flight at once: 1 without `--ahead`. Failure: `BadWords` if that is more than the span.
fn ahead_of(alloc: Global, options: &ArgMatches<'_>, span: Span) -> Result<Span, Failure> {
    let ahead = span_in(options, &AHEAD)
        .or(Span::new(1))
        .unwrap_or_default();
    if ahead.get() > span.get() {
        return Err(Failure::with_text(alloc, RunFault::BadWords, BAD_AHEAD));
    }
    Ok(ahead)
}

/// The command that the options ask to send, where each of them has its form.
fn sending_of(options: &ArgMatches<'_>) -> Sending {
    Sending {
        target: Ono(TARGET.number(options).unwrap_or(0) as u32),
        method: MethodId {
            level: LEVEL.number(options).unwrap_or(0) as u16,
            index: INDEX.number(options).unwrap_or(0) as u16,
        },
        count: COUNT.number(options).unwrap_or(0) as u8,
        params: params_of(PARAMS.text(options).unwrap_or("-").as_bytes()),
        turns: TURNS.number(options).unwrap_or(200) as u32,
    }
}

/// The parameters that a text of the option's form says.
fn params_of(text: &[u8]) -> ArrayVec<u8, MOST_COMMAND_PARAMETER_BYTES> {
    let mut room = [0u8; MOST_COMMAND_PARAMETER_BYTES];
    let mut params = ArrayVec::new();
    if text.len() <= 2 * MOST_COMMAND_PARAMETER_BYTES {
        let _ = params.try_extend_from_slice(hex_bytes(text, &mut room).unwrap_or(&[]));
    }
    params
}

/// The number of an object that a word says. Failure: `BadWords` if it is none.
fn ono_of(alloc: Global, word: &str) -> Result<Ono, Failure> {
    match number(word.as_bytes(), 10, 4_294_967_295) {
        Some(ono) => Ok(Ono(ono as u32)),
        None => Err(Failure::with_text(alloc, RunFault::BadWords, BAD_ONO)),
    }
}

/// The numbers of objects that the words behind the options say.
fn onos_of(alloc: Global, options: &ArgMatches<'_>) -> Result<Vec<Ono>, Failure> {
    let mut onos = Vec::new(alloc);
    for word in options.get_strs("ONO").unwrap_or(&[]) {
        onos.push(ono_of(alloc, word)?)
            .map_err(|_| RunFault::NoMemory)?;
    }
    Ok(onos)
}

/// The objects and the words for their values that the words behind the options say.
fn pairs_of(alloc: Global, options: &ArgMatches<'_>) -> Result<Vec<Pair>, Failure> {
    let words = options.get_strs("ONO").unwrap_or(&[]);
    if words.len() % 2 != 0 {
        return Err(Failure::with_text(alloc, RunFault::BadWords, BAD_PAIRS));
    }
    let mut pairs = Vec::new(alloc);
    for at in 0..words.len() / 2 {
        let ono = ono_of(alloc, words[2 * at])?;
        let Some(word) = Text::new(without_blank(words[2 * at + 1])) else {
            return Err(Failure::with_text(alloc, RunFault::BadWords, BAD_PAIRS));
        };
        pairs
            .push(Pair { ono, word })
            .map_err(|_| RunFault::NoMemory)?;
    }
    Ok(pairs)
}
