//! Tests of scripts, of objects as texts, of the words of the command line and of the programs' libraries, on the
//! public interfaces of their crates: rows of what goes in, with what comes of it.
#![tactic(auto)]

#[cfg(test)]
mod tests;
