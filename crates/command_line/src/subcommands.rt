//! The program and its subcommands, as `clap` takes them.
ghost use Rattle.std.specs.Prelude.{◌≡◌, codes, false, fold, map, pos, IfOk};
ghost use Rattle.clap.specs.Words.{app_of, new_app, rule_of, with_rule};
ghost use Rattle.clap.specs.declared.builder.value_parser.ValueParser.TheVariants as parsers;
ghost use Rattle.command_line.specs.Words.{bench_app, with_settings};
ghost use Rattle.command_line.specs.Inside.{app_for, rule_for, with_app};

use crate::argument::{Argument, ArgumentKind, Subcommand};
use crate::commands::COMMANDS;
use crate::help;
use clap::builder::ValueParser;
use clap::{Arg, ArgAction, Command};
use std::alloc::{AllocError, Global};

/// The program, with all its subcommands.
pub(crate) fn bench<'a>(alloc: Global) -> Result<Command<'a>, AllocError>
    ensures { IfOk result (λ c. app_of c ≡ bench_app) }
{
    with_subcommands(alloc, top(alloc), &COMMANDS)
}

/// The program, with no subcommand yet.
fn top<'a>(alloc: Global) -> Command<'a>
    ensures { app_of result ≡ with_settings (new_app (codes "lwbench")) }
{
    Command::new(alloc, "lwbench")
        .about("A bench of emulated OMA LwM2M devices over CoAP")
        .version(help::VERSION)
        .after_help(help::BENCH)
        .subcommand_required(true)
}

fn with_subcommands<'a>(
    alloc: Global,
    command: Command<'a>,
    subcommands: &[Subcommand],
) -> Result<Command<'a>, AllocError>
    ensures { IfOk result (λ c. app_of c ≡ fold with_app (app_of command.entry) (map app_for subcommands.now)) }
{
    let mut command = command;
    for subcommand in subcommands {
        command = command.subcommand(described(alloc, subcommand)?)?;
    }
    Ok(command)
}

/// A subcommand, with its arguments.
fn described<'a>(alloc: Global, subcommand: &Subcommand) -> Result<Command<'a>, AllocError>
    ensures { IfOk result (λ c. app_of c ≡ app_for subcommand.now) }
{
    let command = Command::new(alloc, subcommand.name)
        .about(subcommand.about)
        .after_help(subcommand.below);
    with_arguments(alloc, command, subcommand.arguments)
}

fn with_arguments<'a>(
    alloc: Global,
    command: Command<'a>,
    arguments: &[Argument],
) -> Result<Command<'a>, AllocError>
    ensures { IfOk result (λ c. app_of c ≡ fold with_rule (app_of command.entry) (map rule_for arguments.now)) }
{
    let mut command = command;
    for argument in arguments {
        command = command.arg(argument_of(alloc, argument))?;
    }
    Ok(command)
}

fn argument_of<'a>(alloc: Global, argument: &Argument) -> Arg<'a>
    ensures rule { rule_of result ≡ rule_for argument.now }
    ensures local { result.global ≡ false }
{
    let name = argument.name;
    let word = Arg::new(alloc, name).help(argument.help);
    match argument.kind {
        ArgumentKind::Needed => word.required(true),
        ArgumentKind::Several => word.required(true).action(ArgAction::Append),
        ArgumentKind::MayStand => word,
        ArgumentKind::NeededNumber(least, most) => word
            .required(true)
            .value_parser(numbers(least, most)),
        ArgumentKind::Flag => word.long(name).action(ArgAction::SetTrue),
        ArgumentKind::Text(value) => word.long(name).value_name(value),
        ArgumentKind::Texts(value) => word.long(name).value_name(value).action(ArgAction::Append),
        ArgumentKind::TextOr(value, default) => word
            .long(name)
            .value_name(value)
            .default_value(default),
        ArgumentKind::Number(value, least, most) => word
            .long(name)
            .value_name(value)
            .value_parser(numbers(least, most)),
        ArgumentKind::NumberOr(value, least, most, default) => word
            .long(name)
            .value_name(value)
            .value_parser(numbers(least, most))
            .default_value(default),
    }
}

/// The numbers from `least` to `most`.
fn numbers<'a>(least: u32, most: u32) -> ValueParser<'a>
    ensures { result ≡ parsers.Signed (pos least) (pos most) }
{
    ValueParser::Signed(i64::from(least), i64::from(most))
}
