//! The program's command, as the command-line crate takes it.
ghost use Rattle.std.specs.Prelude.{◌≡◌, IfOk, false, map};
ghost use Rattle.clap.specs.Simple.{app_of};
ghost use Rattle.clap.specs.Walk.{rule_of};
ghost use Rattle.clap.specs.declared.builder.command.Command.TheViews.{out-Command};
ghost use Rattle.command_line.specs.Line.{app_in, arcwcet_command, rule_as, with_commands};
ghost use Rattle.command_line.specs.Rows.{argument_of, usage_of};

use crate::command_rows::{
    ArgumentRow, COMMANDS, CommandRow, DIALECT, Form, PROGRESS, VERSION, WHY,
};
use clap::builder::ValueParser;
use clap::{Arg, ArgAction, Command, value_parser};
use std::alloc::{AllocError, Global};

fn argument<'a>(alloc: Global, row: &ArgumentRow) -> Arg<'a>
    ensures rule { rule_of result ≡ rule_as (argument_of row.now) }
    ensures local { result.global ≡ false }
{
    let arg = Arg::new(alloc, row.id).help(row.help);
    match row.form {
        Form::File | Form::Word | Form::FileOrWord => arg.required(true),
        Form::OptionalNumber => arg.value_name("K").value_parser(value_parser!(u32)),
        Form::ProfileOption | Form::FileOption | Form::FiqStatementOption | Form::FiqSourceOption =>
            arg.long(row.id).value_name("FILE"),
        Form::FilesOption => arg
            .long(row.id)
            .value_name("FILE")
            .action(ArgAction::Append),
        Form::Parts => arg
            .required(true)
            .value_name("CODE@ADDRESS")
            .value_parser(ValueParser::NonEmptyString)
            .num_args(1..),
        Form::AddressOption => arg.long(row.id).value_name("ADDRESS"),
        Form::WordOption => arg.long(row.id).value_name("LABEL"),
        Form::DialectOption => arg.long(row.id).value_name("DIALECT"),
        Form::VectorCount => arg
            .required(true)
            .value_name("N")
            .value_parser(value_parser!(u32).range(1..=1_000_000)),
        Form::SeedOption => arg
            .required(true)
            .long(row.id)
            .value_name("S")
            .value_parser(value_parser!(u32)),
        Form::NumberOption => arg
            .long(row.id)
            .value_name("N")
            .value_parser(value_parser!(u32)),
        Form::TicksOption => arg
            .long(row.id)
            .value_name("N")
            .value_parser(value_parser!(u64).range(..=i64::MAX)),
        Form::WidthOption => arg
            .long(row.id)
            .value_name("N")
            .value_parser(value_parser!(u32).range(80..=250)),
        Form::Why
        | Form::Progress
        | Form::Each
        | Form::First
        | Form::All
        | Form::Path
        | Form::Html
        | Form::Json => { arg.long(row.id).action(ArgAction::SetTrue) }
    }
}

fn command<'a>(alloc: Global, row: &CommandRow) -> Result<Command<'a>, AllocError>
    ensures shape { IfOk result (λ c. app_of c ≡ app_in (usage_of row.now)) }
    ensures no_globals { IfOk result (λ c. (out-Command c).has_globals ≡ false) }
{
    let mut command = Command::new(alloc, row.name).about(row.summary);
    for argument_row in row.arguments {
        command = command.arg(argument(alloc, argument_row))?;
    }
    let command = command.arg(argument(alloc, &WHY))?;
    let command = command.arg(argument(alloc, &PROGRESS))?;
    command.arg(argument(alloc, &DIALECT))
}

// A command with those of the rows.
fn with_commands<'a>(
    alloc: Global,
    outer: Command<'a>,
    rows: &[CommandRow],
) -> Result<Command<'a>, AllocError>
    ensures { IfOk result
        (λ c. app_of c ≡ with_commands (app_of outer.entry) (map usage_of rows.now)) }
{
    let mut outer = outer;
    for row in rows {
        outer = outer.subcommand(command(alloc, row)?)?;
    }
    Ok(outer)
}

/// The program's command.
pub(crate) fn arcwcet<'a>(alloc: Global) -> Result<Command<'a>, AllocError>
    ensures { IfOk result (λ c. app_of c ≡ arcwcet_command) }
{
    let command = Command::new(alloc, "arcwcet")
        .subcommand_required(true)
        .version(VERSION)
        .bin_name("arcwcet")?
        .about("Greatest run times of interrupt handlers of the Acorn Archimedes");
    with_commands(alloc, command, &COMMANDS)
}
