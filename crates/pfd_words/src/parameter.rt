//! What a subcommand takes, as data, and clap's commands made of it.
ghost use Rattle.std.specs.Prelude.{◌≡◌, IfOk, false, map};
ghost use Rattle.clap.specs.Words.{app_of, new_app, rule_of};
ghost use Rattle.clap.specs.declared.builder.command.Command.TheViews.{out-Command};
ghost use Rattle.pfd_words.specs.Parameters.{rule_for, words_for, with_rules};

use clap::{Arg, ArgAction, Command, value_parser};
use std::alloc::{AllocError, Global};

/// What stands behind an option's name, or in a word's place; each with its name in help.
#[derive(Clone, Copy)]
pub(crate) enum Takes {
    /// Nothing: the option is there or not.
    Nothing,
    /// A text.
    Text(&'static str),
    /// A text, as often as it is there.
    Texts(&'static str),
    /// A number from the first to the second.
    Number(&'static str, u32, u32),
}

/// An option, as `--size N`, or a word without a name.
#[derive(Clone, Copy)]
pub(crate) struct Parameter {
    pub(crate) name: &'static str,
    pub(crate) is_option: bool,
    pub(crate) is_required: bool,
    pub(crate) takes: Takes,
    pub(crate) help: &'static str,
}

/// A subcommand with what it takes, in the order of help.
pub(crate) struct Subcommand {
    pub(crate) name: &'static str,
    pub(crate) about: &'static str,
    pub(crate) parameters: &'static [Parameter],
}

fn arg_of<'a>(alloc: Global, parameter: &Parameter) -> Arg<'a>
    ensures rule { rule_of result ≡ rule_for parameter.now }
    ensures local { result.global ≡ false }
{
    let arg = Arg::new(alloc, parameter.name)
        .required(parameter.is_required)
        .help(parameter.help);
    let arg = if parameter.is_option {
        arg.long(parameter.name)
    } else {
        arg
    };
    match parameter.takes {
        Takes::Nothing => arg.action(ArgAction::SetTrue),
        Takes::Text(name) => arg.value_name(name),
        Takes::Texts(name) => arg.value_name(name).action(ArgAction::Append),
        Takes::Number(name, least, most) => arg.value_name(name).value_parser(value_parser!(
            u32
        ).range(i64::from(least)..=i64::from(most))),
    }
}

/// The subcommand as clap reads it.
pub(crate) fn command_of<'a>(
    alloc: Global,
    subcommand: &Subcommand,
) -> Result<Command<'a>, AllocError>
    ensures app { IfOk result (λ c. app_of c ≡ words_for subcommand.now) }
    ensures local { IfOk result (λ c. (out-Command c).has_globals ≡ false) }
{
    let mut command = Command::new(alloc, subcommand.name).about(subcommand.about);
    for parameter in subcommand.parameters {
        command = command.arg(arg_of(alloc, parameter))?;
    }
    Ok(command)
}
