//! What the command line asks for.
use anyhow::{Error, bail};
use std::env;
use std::rt::Runtime;

/// The port that the command line names (9 if it names none), and whether the objects are to be listed. Err if the
/// words after the program's name are not `[PORT [objects]]`, if the port is not a number up to 65,535, or if memory
/// was refused.
pub fn asked<R: Runtime + AllocGlobal>(rt: &R) -> Result<(u16, bool), Error> {
    let words = env::args(rt)?.collect::<Vec<String>>(rt.alloc())?;
    asked_by(words.as_slice())
}

/// The same, by the words, the program's name first.
fn asked_by(words: &[String]) -> Result<(u16, bool), Error> {
    match words {
        [_] => Ok((9, false)),
        [_, port] => Ok((port.parse::<u16>()?, false)),
        [_, port, word] if word.as_str() == "objects" => Ok((port.parse::<u16>()?, true)),
        _ => bail!("usage: panel [PORT [objects]]"),
    }
}
