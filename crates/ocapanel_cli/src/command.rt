//! The command line: its options, and what it asks for.

use clap::{ArgMatches, Error};
use oca_panel::{LocalPort, Way};
use oca_program::form::{NUMBER_16, check_values, is_host};
use oca_program::table::program;
use oca_program::{CommandRow, Failure, Form, Kind, OptionRow, RunFault};
use oca_types::{LOOPBACK, Peer, Span};
use std::alloc::Global;
use std::convert::AsStr;
use std::net::Ipv4Addr;

/// A panel for a device, as the command line asks for it.
#[derive(Clone, Copy)]
pub struct Options<'a> {
    pub device: Peer,
    /// The local address, the first byte highest; 0 for the one from which the system reaches the device.
    pub ip: u32,
    /// The local port; 0 for one of the system's choice.
    pub port: u16,
    pub span: Span,
    /// Where browsers are listened to.
    pub listen: Peer,
    /// Which browsers are let in.
    pub access: Access<'a>,
    /// The path of the file with the units of values.
    pub units: Option<&'a str>,
    /// Whether the panel only shows, and takes no order.
    pub read_only: bool,
    /// Whether each change of the link is printed.
    pub verbose: bool,
}

impl Options<'_> {
    /// The way to the device from this local port.
    pub fn way(&self, port: LocalPort) -> Way {
        Way {
            device: self.device,
            ip: self.ip,
            port,
            first: None,
        }
    }
}

/// Which browsers are let in.
#[derive(Clone, Copy)]
pub enum Access<'a> {
    /// Those that bring a token, which is made for this run and printed.
    MadeToken,
    /// Those that bring the token of the file at this path, which is not printed.
    TokenOf(&'a str),
    /// Each.
    Open,
}

const DEVICE: OptionRow = OptionRow {
    name: "device",
    value: "A.B.C.D:PORT",
    help: "The device's address and port",
    kind: Kind::Required,
    form: Form::Host,
};

const LISTEN: OptionRow = OptionRow {
    name: "listen",
    value: "A.B.C.D:PORT",
    help: "The address and port for browsers: one address of this machine, with --no-token one of 127.0.0.0/8; at \
        port 0 the system chooses one [default: 127.0.0.1:8080]",
    kind: Kind::Optional,
    form: Form::Peer,
};

const TOKEN: OptionRow = OptionRow {
    name: "token",
    value: "FILE",
    help: "The file whose first line is the token that browsers need: 1 to 128 letters, digits, '-' and '_' \
        [default: one is made at each start]",
    kind: Kind::Optional,
    form: Form::Text,
};

const UNITS: OptionRow = OptionRow {
    name: "units",
    help: "The file with the units of values, for the page to show",
    ..TOKEN
};

const SPAN: OptionRow = OptionRow {
    name: "span",
    value: "S",
    help: "The span, 2 to 32: the handles of the commands in flight are within S consecutive numbers; half of it \
        is kept for orders from browsers, except while all objects are read and nothing is ordered [default: 16]",
    kind: Kind::Optional,
    form: Form::Number {
        digits: 3,
        least: 2,
        largest: 32,
    },
};

const IP: OptionRow = OptionRow {
    name: "ip",
    value: "A.B.C.D",
    help: "The local address of the socket for the device, from which each copy of a command leaves [default: \
        0.0.0.0, the one from which the system reaches the device]",
    kind: Kind::Optional,
    form: Form::LocalIp,
};

const PORT: OptionRow = OptionRow {
    name: "port",
    value: "PORT",
    help: "The local port of the socket for the device [default: the system chooses one]",
    kind: Kind::Optional,
    form: NUMBER_16,
};

const NO_TOKEN: OptionRow = OptionRow {
    name: "no-token",
    value: "",
    help: "Serves every program on this machine, with no token",
    kind: Kind::Flag,
    form: Form::Text,
};

const READ_ONLY: OptionRow = OptionRow {
    name: "read-only",
    help: "Shows the objects, and takes no order",
    ..NO_TOKEN
};

const VERBOSE: OptionRow = OptionRow {
    name: "verbose",
    help: "Prints a line on standard error when the device is lost and when it is heard again",
    ..NO_TOKEN
};

/// The program.
const PROGRAM: CommandRow = CommandRow {
    name: "ocapanel",
    about: "A panel in the browser for an OCA (AES70) device over UDP",
    example: "Open the address that is printed at the start: it has the token that a browser needs. The page is plain HTTP. \
    The panel serves at most 128 connections at once, and runs until you stop it.

Example: ocapanel --device 127.0.0.1:65000",
    options: &[
        DEVICE, LISTEN, TOKEN, UNITS, SPAN, IP, PORT, NO_TOKEN, READ_ONLY, VERBOSE,
    ],
};

/// Matches the words of the command line, the program's name first, with the options that the program takes. Err if the
/// words are bad, ask for a help text or the version, or memory was refused; the error says which.
pub fn matches_of<'a, S: AsStr>(alloc: Global, words: &'a [S]) -> Result<ArgMatches<'a>, Error> {
    program(alloc, &PROGRAM)?.try_get_matches_from(words)
}

/// What a command line that matched asks for. Failure: `BadWords` if an option's value is not of its form, or two
/// options contradict each other. Its note names them, if there is memory for it.
pub fn options_of<'a>(alloc: Global, words: &ArgMatches<'a>) -> Result<Options<'a>, Failure> {
    check_values(alloc, words, PROGRAM.options)?;
    let device = DEVICE.host(words).ok_or(RunFault::BadWords)?;
    let access = match (NO_TOKEN.is_set(words), TOKEN.text(words)) {
        (true, Some(_)) => {
            let note = "--token and --no-token are both given";
            return Err(Failure::with_text(alloc, RunFault::BadWords, note));
        }
        (true, None) => Access::Open,
        (false, Some(path)) => Access::TokenOf(path),
        (false, None) => Access::MadeToken,
    };
    Ok(Options {
        device,
        ip: IP.local_ip(words).unwrap_or(0),
        port: PORT.number(words).unwrap_or(0) as u16,
        span: match SPAN.number(words) {
            Some(size) => Span::new(size as u8).unwrap_or_default(),
            None => Span::default(),
        },
        listen: listen_of(alloc, words, access)?,
        access,
        units: UNITS.text(words),
        read_only: READ_ONLY.is_set(words),
        verbose: VERBOSE.is_set(words),
    })
}

/// Where browsers are listened to: at an address of one host, and of this machine alone where each browser is let in.
fn listen_of(alloc: Global, words: &ArgMatches<'_>, access: Access<'_>) -> Result<Peer, Failure> {
    let at = LISTEN.peer(words).unwrap_or(Peer {
        ip: LOOPBACK,
        port: 8080,
    });
    let note = match access {
        Access::Open if !Ipv4Addr::from(at.ip).is_loopback() => {
            "--listen is not an address of this machine alone: it must be one of 127.0.0.0/8 with --no-token, because \
            the panel does not ask who connects"
        }
        Access::MadeToken | Access::TokenOf(_) if !is_host(at.ip) => {
            "--listen is not the address of one host: it must be one address of this machine, 1.0.0.0 to \
            223.255.255.255"
        }
        _ => return Ok(at),
    };
    Err(Failure::with_text(alloc, RunFault::BadWords, note))
}
