//! The command line: its options, and what it asks for.

use super::objects::Objects;
use clap::{ArgMatches, Error};
use oca_program::form::{NUMBER_16, NUMBER_32, check_values};
use oca_program::table::program_with_commands;
use oca_program::{CommandRow, Failure, Form, Kind, OptionRow, RunFault};
use oca_types::{LOOPBACK, Peers, Sizes, Window};
use std::alloc::Global;
use std::convert::AsStr;

/// What a command line asks for.
#[derive(Clone, Copy)]
pub enum Command<'a> {
    /// A replay of the script on standard input on a device.
    Replay { objects: Objects<'a>, sizes: Sizes },
    /// A device at a socket.
    Serve(ServeOptions<'a>),
    /// The objects of a device: as a text that `--tree` reads if `as_text`, and otherwise a line each.
    Show { objects: Objects<'a>, as_text: bool },
}

/// How a device is served.
#[derive(Clone, Copy)]
pub struct ServeOptions<'a> {
    pub objects: Objects<'a>,
    pub sizes: Sizes,
    /// The address, the first byte highest.
    pub ip: u32,
    /// The port; at 0 the system chooses one.
    pub port: u16,
    /// For how many turns at most, if there is a limit.
    pub turns: Option<u64>,
    /// The path of the file in which the objects are kept.
    pub keep: Option<&'a str>,
    /// Whether a line is printed for each datagram.
    pub verbose: bool,
    /// How many seconds apart the counts so far are printed.
    pub stats: Option<u64>,
}

const WINDOW: OptionRow = OptionRow {
    name: "window",
    value: "W",
    help: "The reply window: how many commands of each peer are kept with their replies, 1 to 64 [default: 32]",
    kind: Kind::Optional,
    form: Form::Number {
        digits: 3,
        least: 1,
        largest: 64,
    },
};

const PEERS: OptionRow = OptionRow {
    name: "peers",
    value: "N",
    help: "How many peers can have a session at once, 1 to 64 [default: 16]",
    ..WINDOW
};

const CHANNELS: OptionRow = OptionRow {
    name: "channels",
    value: "N",
    help: "How many channel strips are added to the objects of the bench device, 0 to 1022; a strip is a block with a \
        mute, a polarity and a trim [default: 0]",
    kind: Kind::Optional,
    form: Form::Number {
        digits: 4,
        least: 0,
        largest: 1022,
    },
};

const TREE: OptionRow = OptionRow {
    name: "tree",
    value: "FILE",
    help: "A file that lists the objects, one per line, instead of those of the bench device; see \
        examples/stagebox.tree",
    kind: Kind::Optional,
    form: Form::Text,
};

const PORT: OptionRow = OptionRow {
    name: "port",
    value: "PORT",
    help: "The UDP port, 0 to 65535; at 0 the system chooses one",
    kind: Kind::Required,
    form: NUMBER_16,
};

const TURNS: OptionRow = OptionRow {
    name: "turns",
    value: "T",
    help: "Stops after this many turns, 0 to 4294967295; without this option it runs until you stop it",
    kind: Kind::Optional,
    form: NUMBER_32,
};

const IP: OptionRow = OptionRow {
    name: "ip",
    value: "A.B.C.D",
    help: "The address to listen at. 0.0.0.0 means every address of the machine: a reply may then leave from a \
        different address than the one that the controller sent to, and controllers drop such replies \
        [default: 127.0.0.1]",
    kind: Kind::Optional,
    form: Form::LocalIp,
};

const VERBOSE: OptionRow = OptionRow {
    name: "verbose",
    value: "",
    help: "Prints a line for each datagram on standard error: its sender, what became of it, which objects it wrote to, \
        and what was locked, unlocked and refused",
    kind: Kind::Flag,
    form: Form::Text,
};

const STATS: OptionRow = OptionRow {
    name: "stats",
    value: "SECONDS",
    help: "Every SECONDS seconds, 1 to 86400, prints the counts so far on standard error, with the number of sessions \
        and of locks held",
    kind: Kind::Optional,
    form: Form::Number {
        digits: 5,
        least: 1,
        largest: 86_400,
    },
};

const KEEP: OptionRow = OptionRow {
    name: "keep",
    help: "The file in which the device's state is stored. If it exists at the start, the device has its objects, \
        whatever --tree and --channels say. It is written at the start, and before a change is \
        answered. Locks, reply windows and sessions are not stored: after a restart, a duplicate of a command from \
        before is executed as new",
    ..TREE
};

const TEXT: OptionRow = OptionRow {
    name: "text",
    help: "Prints the objects in the form that --tree reads, with labels and everything else that a device stores",
    ..VERBOSE
};

/// What stands behind the options of `serve` in its help text.
const SERVE_EXAMPLE: &str =
    "In each turn the device handles one datagram, or waits 50 ms if none comes. So T turns take at most T times \
    50 ms if no datagram comes.
A run that a signal ends (Ctrl-C, kill) prints no report.

Example: ocadev serve --port 65000 --turns 1200";

/// The commands, in the order of `--help`.
const COMMANDS: &[CommandRow] = &[
    CommandRow {
        name: "replay",
        about: "Runs the bench device, or one with the objects of --tree, over the script on standard input, and prints its \
            answers",
        example: "Example: ocadev replay < examples/getstate.script",
        options: &[WINDOW, PEERS, CHANNELS, TREE],
    },
    CommandRow {
        name: "serve",
        about: "Serves the bench device, or one with the objects of --tree, at a UDP socket; prints a report at the end",
        example: SERVE_EXAMPLE,
        options: &[
            PORT, TURNS, IP, WINDOW, PEERS, CHANNELS, TREE, VERBOSE, STATS, KEEP,
        ],
    },
    CommandRow {
        name: "show",
        about: "Prints the objects of a device, one per line: ONo, class identifier, container and role",
        example: "Example: ocadev show --tree examples/stagebox.tree",
        options: &[CHANNELS, TREE, TEXT],
    },
];

/// The program without its commands.
const PROGRAM: CommandRow = CommandRow {
    name: "ocadev",
    about: "An OCA (AES70) device over UDP",
    example: "The bench device is built in, for trying things out: ocadev show lists its objects.

Example: ocadev replay < examples/getstate.script",
    options: &[],
};

/// Matches the words of the command line, the program's name first, with the commands and options that the program
/// takes. Err if the words are bad, ask for a help text or the version, or memory was refused; the error says which.
pub fn matches_of<'a, S: AsStr>(alloc: Global, words: &'a [S]) -> Result<ArgMatches<'a>, Error> {
    program_with_commands(alloc, &PROGRAM, COMMANDS)?.try_get_matches_from(words)
}

/// What a command line that matched asks for. Failure: `BadWords` if an option's value is not of its form, or both
/// `--tree` and `--channels` are given. Its note names the option, if there is memory for it.
pub fn command_of<'a>(alloc: Global, matches: &ArgMatches<'a>) -> Result<Command<'a>, Failure> {
    let Some((name, options)) = matches.subcommand() else {
        return Err(Failure::from(RunFault::BadWords));
    };
    for command in COMMANDS.iter().filter(|command| command.name == name) {
        check_values(alloc, options, command.options)?;
    }
    if TREE.text(options).is_some() && CHANNELS.text(options).is_some() {
        let note = "--tree and --channels can't be combined: each says which objects there are";
        return Err(Failure::with_text(alloc, RunFault::BadWords, note));
    }
    let objects = objects_of(options);
    match name {
        "replay" => Ok(Command::Replay {
            objects,
            sizes: sizes_of(options),
        }),
        "serve" => Ok(Command::Serve(serve_options(options, objects))),
        _ => Ok(Command::Show {
            objects,
            as_text: TEXT.is_set(options),
        }),
    }
}

/// How the options of `serve` say that a device with these objects is served.
fn serve_options<'a>(options: &ArgMatches<'a>, objects: Objects<'a>) -> ServeOptions<'a> {
    ServeOptions {
        objects,
        sizes: sizes_of(options),
        ip: IP.local_ip(options).unwrap_or(LOOPBACK),
        port: PORT.number(options).unwrap_or(0) as u16,
        turns: TURNS.number(options),
        keep: KEEP.text(options),
        verbose: VERBOSE.is_set(options),
        stats: STATS.number(options),
    }
}

/// The source of the objects: a file if the options name one, otherwise the bench device.
fn objects_of<'a>(options: &ArgMatches<'a>) -> Objects<'a> {
    match TREE.text(options) {
        Some(path) => Objects::Listed(path),
        None => Objects::Bench(CHANNELS.number(options).unwrap_or(0) as u16),
    }
}

/// For how many commands of a peer the device keeps replies, and how many peers have a session.
fn sizes_of(options: &ArgMatches<'_>) -> Sizes {
    Sizes {
        window: match WINDOW.number(options) {
            Some(size) => Window::new(size as u8).unwrap_or_default(),
            None => Window::default(),
        },
        peers: match PEERS.number(options) {
            Some(count) => Peers::new(count as u8).unwrap_or_default(),
            None => Peers::default(),
        },
    }
}
