//! The command line, made of its texts.

use crate::options::{Form, OptionText};
use crate::subcommands::{SUBCOMMANDS, SubcommandText};
use clap::{Arg, ArgAction, Command};
use std::alloc::{AllocError, Global};

/// The whole command line, for words without the program's name.
pub fn command_line<'a>(alloc: Global) -> Result<Command<'a>, AllocError> {
    let mut line = program_line(alloc)?;
    for text in &SUBCOMMANDS {
        line = line.subcommand(subcommand_line(alloc, text)?)?;
    }
    Ok(line)
}

fn program_line<'a>(alloc: Global) -> Result<Command<'a>, AllocError> {
    Ok(
        Command::new(alloc, "elide")
            .about(
                "Simulates a multicore IA-32 machine with Intel Restricted Transactional Memory.",
            )
            .version("0.3.0")
            .bin_name("elide")?
            .no_binary_name(true)
            .subcommand_required(true)
            .after_help(
                "Example: elide run examples/increment.img --cores 2 --steps \"0 1 0 1 0 1 0 1\" --dump 0x1000:4",
            ),
    )
}

fn subcommand_line<'a>(alloc: Global, text: &SubcommandText) -> Result<Command<'a>, AllocError> {
    let mut line = Command::new(alloc, text.name)
        .about(text.about)
        .after_help(text.example);
    for option in text.options {
        line = line.arg(argument(alloc, option))?;
    }
    Ok(line)
}

fn argument<'a>(alloc: Global, option: &OptionText) -> Arg<'a> {
    let plain = Arg::new(alloc, option.name).help(option.help);
    match option.form {
        Form::Word => plain.required(true),
        Form::FreeWord => plain,
        Form::FreeWords => plain.action(ArgAction::Append),
        Form::Flag => plain.long(option.name).action(ArgAction::SetTrue),
        Form::Value(value) => with_value(plain, option.name, value),
        Form::Needed(value) => with_value(plain, option.name, value).required(true),
        Form::Several(value) => { with_value(plain, option.name, value).action(ArgAction::Append) }
        Form::Default(value, default) => {
            with_value(plain, option.name, value).default_value(default)
        }
        Form::Each(values) => plain
            .long(option.name)
            .value_names(values)
            .action(ArgAction::Set),
    }
}

fn with_value<'a>(plain: Arg<'a>, name: &'a str, value: &'a str) -> Arg<'a> {
    plain.long(name).value_name(value).action(ArgAction::Set)
}
