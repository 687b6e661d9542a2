//! What a program takes on its command line, as tables: a row for each option, and one for each command.

use super::form::Form;
use super::version::VERSION;
use clap::{Arg, ArgAction, Command};
use std::alloc::{AllocError, Global};

/// What an option is, and whether it must be given.
#[derive(Clone, Copy, PartialEq, Eq, Debug)]
pub enum Kind {
    /// An option with a value, which must be given.
    Required,
    /// An option with a value, which need not be given.
    Optional,
    /// An option without a value.
    Flag,
    /// The words after the options, one or more, which must be given.
    Words,
}

/// An option of a command line. The note on a value that does not have its form is made of the option's name and form.
#[derive(Clone, Copy, PartialEq, Eq, Debug)]
pub struct OptionRow {
    /// The name, without the two dashes.
    pub name: &'static str,
    /// The word for the value in `--help`, empty for a flag.
    pub value: &'static str,
    /// What `--help` says of the option, with its default.
    pub help: &'static str,
    /// What the option is.
    pub kind: Kind,
    /// The form of the value.
    pub form: Form,
}

/// A command of a program, with its options.
#[derive(Clone, Copy, PartialEq, Eq, Debug)]
pub struct CommandRow {
    /// The name of the command or the program.
    pub name: &'static str,
    /// What `--help` says of the command first.
    pub about: &'static str,
    /// What `--help` says of the command last.
    pub example: &'static str,
    /// The options, in the order of `--help`.
    pub options: &'static [OptionRow],
}

/// Returns the command line of a program as `clap` has it, with this row's options, a version and no commands. The only
/// refusal is `AllocError`, if memory was refused.
pub fn program<'a>(alloc: Global, row: &CommandRow) -> Result<Command<'a>, AllocError> {
    Ok(command(alloc, row)?.version(VERSION))
}

/// Returns the command line of a program as `clap` has it, with this row's options, a version and the commands of the
/// rows `commands`, one of which a command line must name. The only refusal is `AllocError`, if memory was refused.
pub fn program_with_commands<'a>(
    alloc: Global,
    row: &CommandRow,
    commands: &[CommandRow],
) -> Result<Command<'a>, AllocError> {
    let mut program = program(alloc, row)?.subcommand_required(true);
    for row in commands {
        program = program.subcommand(command(alloc, row)?)?;
    }
    Ok(program)
}

/// The command of a row.
fn command<'a>(alloc: Global, row: &CommandRow) -> Result<Command<'a>, AllocError> {
    let mut command = Command::new(alloc, row.name)
        .about(row.about)
        .after_help(row.example);
    for option in row.options {
        let argument = Arg::new(alloc, option.name).help(option.help);
        command = command.arg(match option.kind {
            Kind::Flag => argument.long(option.name).action(ArgAction::SetTrue),
            Kind::Words => argument
                .value_name(option.value)
                .action(ArgAction::Append)
                .num_args(1..)
                .required(true),
            Kind::Required | Kind::Optional => argument
                .long(option.name)
                .value_name(option.value)
                .action(ArgAction::Set)
                .required(option.kind == Kind::Required),
        })?;
    }
    Ok(command)
}
