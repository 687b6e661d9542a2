//! The terms of a panel: the token that browsers need, the names by which it may be asked, the number of this run, and
//! the units of values.
use crate::command::{Access, Options};
use oca_program::{Failure, RunFault};
use oca_script::field::{number, split_at_byte};
use oca_types::{LOOPBACK, Peer};
use oca_web::{Key, Name, Terms, Unit, UnitOf, is_class_name};
use std::alloc::{AllocError, Global};
use std::fs;
use std::io::Read;
use std::net::Ipv4Addr;
use std::random::RandomSource;
use std::rt::Files;

/// The most bytes that are read of a file.
const MOST_BYTES: u64 = 65_536;

/// The most bytes of a token.
const MOST_TOKEN: usize = 128;

/// The most characters of a factor.
const MOST_FACTOR: usize = 20;

/// The most bytes of a unit's name.
const MOST_NAME: usize = 16;

/// What is said where memory is refused.
const NO_MEMORY: &str = "no memory";

/// The terms of a panel that listens at `local` and wants this token. Its run gets a number of 64 random bits, so that
/// two runs have the same number only with a chance of 1 in 2^64. The token is in the two forms in which browsers send
/// it: as a cookie, whose name has the port in it since all ports of a host share its cookies, and as a query.
/// Failures: `Socket` if the system gave no random numbers, `NoMemory` if memory was refused.
pub fn terms_of<R: RandomSource>(
    alloc: Global,
    host: &R,
    options: &Options<'_>,
    local: Peer,
    token: Option<String>,
    units: Vec<Unit>,
) -> Result<Terms, Failure> {
    let run = random_number(alloc, host)?;
    let (port, mut key) = (local.port, None);
    if let Some(token) = token {
        key = Some(Key {
            cookie: format!(in alloc; "ocapanel-{port}={token}")?,
            query: format!(in alloc; "token={token}")?,
        });
    }
    Ok(Terms {
        names: names_of(alloc, local)?,
        key,
        run,
        read_only: options.read_only,
        units,
    })
}

/// The names by which the panel may be asked: its address, and `localhost` for 127.0.0.1. At port 80 browsers leave the
/// port out.
fn names_of(alloc: Global, local: Peer) -> Result<Vec<Name>, AllocError> {
    let mut names = Vec::new(alloc);
    let (ip, port) = (Ipv4Addr::from(local.ip), local.port);
    put_name(alloc, &mut names, format!(in alloc; "{ip}:{port}")?)?;
    if port == 80 {
        put_name(alloc, &mut names, format!(in alloc; "{ip}")?)?;
    }
    if local.ip == LOOPBACK {
        put_name(alloc, &mut names, format!(in alloc; "localhost:{port}")?)?;
    }
    if local.ip == LOOPBACK && port == 80 {
        put_name(alloc, &mut names, String::from_str(alloc, "localhost")?)?;
    }
    Ok(names)
}

/// Adds a name, and the origin of the pages under it.
fn put_name(alloc: Global, names: &mut Vec<Name>, host: String) -> Result<(), AllocError> {
    let origin = format!(in alloc; "http://{host}")?;
    names.push(Name { host, origin })?;
    Ok(())
}

/// The token that browsers must bring: the first line of a file, or 128 random bits in hexadecimal; none where each is
/// let in. Failures: `Read` if the file can't be read. `BadWords` if its first line is not 1 to 128 letters, digits,
/// `-` and `_`. `Socket` if the system gave no random numbers. `NoMemory` if memory was refused.
pub fn token_of<R: RandomSource + Files>(
    alloc: Global,
    host: &R,
    access: Access<'_>,
) -> Result<Option<String>, Failure> {
    match access {
        Access::Open => Ok(None),
        Access::MadeToken => {
            let (front, back) = (random_number(alloc, host)?, random_number(alloc, host)?);
            Ok(Some(format!(in alloc; "{front:016x}{back:016x}")?))
        }
        Access::TokenOf(path) => {
            let bytes = bytes_of(alloc, host, path)?;
            let token = token_in(bytes.as_slice()).map_err(|reason| refused(
                alloc, path, 1, reason,
            ))?;
            Ok(Some(String::from_str(alloc, token)?))
        }
    }
}

/// The token in the first line of a file, or why that is none.
fn token_in(bytes: &[u8]) -> Result<&str, &'static str> {
    let line = match split_at_byte(bytes, b'\n') {
        Some((line, _)) => line,
        None => bytes,
    };
    let line = line.strip_suffix(b"\r").unwrap_or(line);
    if line.is_empty() {
        return Err("the token is empty");
    }
    if line.len() > MOST_TOKEN {
        return Err("the token has more than 128 characters");
    }
    let is_of_token = |byte: &u8| byte.is_ascii_alphanumeric() || matches!(*byte, b'-' | b'_');
    match str::from_utf8(line) {
        Ok(token) if line.iter().all(is_of_token) => Ok(token),
        _ => Err("the token has other characters than letters, digits, - and _"),
    }
}

/// A random number of 64 bits from the system. Failures: `Socket` if the system gave none, with the reason as its note.
/// `NoMemory` if it gave none, and there was no memory for the note.
fn random_number<R: RandomSource>(alloc: Global, host: &R) -> Result<u64, Failure> {
    let mut bytes = [0u8; 8];
    if let Err(reason) = host.fill_bytes(&mut bytes) {
        let note = format!(in alloc; "no random numbers: {reason}")?;
        return Err(Failure::with_note(RunFault::Socket, Ok(note)));
    }
    Ok(u64::from_be_bytes(bytes))
}

/// The units of values that the first 65,536 bytes of the file at a path list; none if no path is given. Each line is
/// `class WORD FACTOR UNIT` or `ono N FACTOR UNIT`; lines that are empty or begin with `#` are skipped. Failures:
/// `Read` if the file can't be read. `BadWords` if these bytes are not UTF-8, a line does not have its form, or memory
/// was refused for a line. The note names the first such line, if there is memory for it.
pub fn units_of<F: Files>(
    alloc: Global,
    files: &F,
    path: Option<&str>,
) -> Result<Vec<Unit>, Failure> {
    let mut units = Vec::new(alloc);
    let Some(path) = path else {
        return Ok(units);
    };
    let bytes = bytes_of(alloc, files, path)?;
    let Ok(text) = str::from_utf8(bytes.as_slice()) else {
        return Err(refused(alloc, path, 1, "the file is not UTF-8"));
    };
    let mut at = 0usize;
    for line in text.split('\n') {
        at = at.saturating_add(1);
        let line = line.trim_ascii();
        if line.is_empty() || line.starts_with('#') {
            continue;
        }
        let unit = unit_in(alloc, line).map_err(|reason| refused(alloc, path, at, reason))?;
        if units.push(unit).is_err() {
            return Err(refused(alloc, path, at, NO_MEMORY));
        }
    }
    Ok(units)
}

/// The unit of a line: `class WORD FACTOR UNIT`, or `ono N FACTOR UNIT`.
fn unit_in(alloc: Global, line: &str) -> Result<Unit, &'static str> {
    let mut words = line.split_ascii_whitespace();
    let (kind, which) = (words.next(), words.next());
    let (factor, name) = (words.next(), words.next());
    let (Some(kind), Some(which), Some(factor), Some(name)) = (kind, which, factor, name) else {
        return Err("a line is class WORD or ono N, a factor, and a unit");
    };
    if words.next().is_some() {
        return Err("a line is class WORD or ono N, a factor, and a unit, and nothing more");
    }
    let of = unit_of(alloc, kind, which)?;
    if !is_factor(factor.as_bytes()) {
        return Err("the factor is no decimal number above 0 of at most 20 characters");
    }
    if name.len() > MOST_NAME {
        return Err("the unit has more than 16 bytes");
    }
    Ok(Unit {
        of,
        factor: copied(alloc, factor)?,
        name: copied(alloc, name)?,
    })
}

/// What a unit is for: a class by its name, or an object by its number.
fn unit_of(alloc: Global, kind: &str, which: &str) -> Result<UnitOf, &'static str> {
    match kind {
        "class" if is_class_name(which) => Ok(UnitOf::Class(copied(alloc, which)?)),
        "class" => Err("there is no such class"),
        "ono" => match number(which.as_bytes(), 10, 4_294_967_295) {
            Some(ono) => Ok(UnitOf::Ono(ono as u32)),
            None => Err("the ONo is no number from 0 to 4294967295"),
        },
        _ => Err("a line begins with class or ono"),
    }
}

/// A copy of a text, if there is memory for it.
fn copied(alloc: Global, text: &str) -> Result<String, &'static str> {
    String::from_str(alloc, text).map_err(|_| NO_MEMORY)
}

/// Whether a text is a decimal number above 0 of at most 20 characters: digits, with at most one point among them.
fn is_factor(text: &[u8]) -> bool {
    let is_above_0 = text.iter().any(|byte| matches!(*byte, b'1'..=b'9'));
    if text.len() > MOST_FACTOR || !is_above_0 {
        return false;
    }
    match split_at_byte(text, b'.') {
        Some((whole, part)) => are_digits(whole) && are_digits(part),
        None => are_digits(text),
    }
}

/// Whether these are digits, at least one.
fn are_digits(text: &[u8]) -> bool {
    !text.is_empty() && text.iter().all(|byte| byte.is_ascii_digit())
}

/// The first 65,536 bytes of the file at a path, or all if there are fewer. Failure: `Read` if the file can't be read
/// or memory was refused. Its note names the path and the reason, if there is memory for the note.
fn bytes_of<F: Files>(alloc: Global, files: &F, path: &str) -> Result<Vec<u8>, Failure> {
    let mut bytes = Vec::new(alloc);
    let read = fs::open(files, path).and_then(|file| file.take(MOST_BYTES).read_to_end(&mut bytes));
    match read {
        Ok(_) => Ok(bytes),
        Err(reason) => {
            let note = format!(in alloc; "{path}: {reason}");
            Err(Failure::with_note(RunFault::Read, note))
        }
    }
}

/// The failure `BadWords` for a line of a file. Its note names the path, the line (counted from 1) and the reason, if
/// there is memory for the note.
fn refused(alloc: Global, path: &str, line: usize, reason: &str) -> Failure {
    let note = format!(in alloc; "{path}: line {line}: {reason}");
    Failure::with_note(RunFault::BadWords, note)
}
