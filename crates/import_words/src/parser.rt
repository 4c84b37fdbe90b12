//! What `clap` is told of each command.
ghost use Rattle.std.specs.Prelude.{◌≡◌, IfOk, false, [], ◌∷◌};
ghost use Rattle.clap.specs.Words.{rule_of, app_of};
ghost use Rattle.import_words.specs.declared.clap_command.Command.TheVariants as command;
ghost use Rattle.import_words.specs.Parsers.{value_rule, flag_rule, path_rule, fuel_rule, bundles_rule, trace_rule, words_rule, bare_app, with_rules, app_for};

use crate::clap_command::Command;
use base_types::NoMemory;
use clap::{Arg, ArgAction, Command as Parser};
use std::alloc::Global;

/// An option with a value.
fn valued<'a>(alloc: Global, name: &'a str) -> Arg<'a>
    ensures rule { rule_of result ≡ value_rule name.entry.now }
    ensures local { result.global ≡ false }
{
    Arg::new(alloc, name).long(name).action(ArgAction::Set)
}

/// An option without one.
fn flag<'a>(alloc: Global, name: &'a str) -> Arg<'a>
    ensures rule { rule_of result ≡ flag_rule name.entry.now }
    ensures local { result.global ≡ false }
{
    Arg::new(alloc, name).long(name).action(ArgAction::SetTrue)
}

/// The first word that is no option, and all behind it.
fn others<'a>(alloc: Global) -> Arg<'a>
    ensures rule { rule_of result ≡ words_rule }
    ensures local { result.global ≡ false }
{
    Arg::new(alloc, "words")
        .action(ArgAction::Append)
        .trailing_var_arg(true)
}

/// A command with no option yet.
fn bare<'a>(alloc: Global, name: &'a str) -> Parser<'a>
    ensures { app_of result ≡ bare_app name.entry.now }
{
    Parser::new(alloc, name)
        .no_binary_name(true)
        .disable_help_flag(true)
        .disable_version_flag(true)
}

fn with_values<'a>(alloc: Global, parser: Parser<'a>) -> Result<Parser<'a>, NoMemory>
    ensures { IfOk result (λ it. app_of it ≡ with_rules (app_of parser.entry) (path_rule ∷ fuel_rule ∷ [])) }
{
    let parser = parser
        .arg(valued(alloc, "path"))?
        .arg(valued(alloc, "fuel"))?;
    Ok(parser)
}

fn with_flags<'a>(alloc: Global, parser: Parser<'a>) -> Result<Parser<'a>, NoMemory>
    ensures { IfOk result (λ it.
        app_of it ≡ with_rules (app_of parser.entry) (bundles_rule ∷ trace_rule ∷ words_rule ∷ [])) }
{
    let parser = parser
        .arg(flag(alloc, "bundles"))?
        .arg(flag(alloc, "trace"))?
        .arg(others(alloc))?;
    Ok(parser)
}

fn run_parser<'a>(alloc: Global) -> Result<Parser<'a>, NoMemory>
    ensures { IfOk result (λ it. app_of it ≡ app_for command.Run) }
{
    let parser = with_values(alloc, bare(alloc, "run"))?.arg(valued(alloc, "rounds"))?;
    with_flags(alloc, parser)
}

fn check_parser<'a>(alloc: Global) -> Result<Parser<'a>, NoMemory>
    ensures { IfOk result (λ it. app_of it ≡ app_for command.Check) }
{
    let parser = with_values(alloc, bare(alloc, "check"))?
        .arg(valued(alloc, "rounds"))?
        .arg(others(alloc))?;
    Ok(parser)
}

fn module_parser<'a>(alloc: Global) -> Result<Parser<'a>, NoMemory>
    ensures { IfOk result (λ it. app_of it ≡ app_for command.Module) }
{
    with_flags(alloc, with_values(alloc, bare(alloc, "module"))?)
}

fn report_parser<'a>(alloc: Global) -> Result<Parser<'a>, NoMemory>
    ensures { IfOk result (λ it. app_of it ≡ app_for command.Report) }
{
    let parser = bare(alloc, "report")
        .arg(valued(alloc, "path"))?
        .arg(others(alloc))?;
    Ok(parser)
}

fn words_parser<'a>(alloc: Global, name: &'a str) -> Result<Parser<'a>, NoMemory>
    ensures { IfOk result (λ it. app_of it ≡ with_rules (bare_app name.entry.now) (words_rule ∷ [])) }
{
    Ok(bare(alloc, name).arg(others(alloc))?)
}

/// The parser of a command's words.
pub(crate) fn parser_for<'a>(alloc: Global, command: Command) -> Result<Parser<'a>, NoMemory>
    ensures { IfOk result (λ it. app_of it ≡ app_for command) }
{
    match command {
        Command::Run => run_parser(alloc),
        Command::Gen => words_parser(alloc, "gen"),
        Command::Check => check_parser(alloc),
        Command::Convert => words_parser(alloc, "convert"),
        Command::Module => module_parser(alloc),
        Command::Report => report_parser(alloc),
        Command::Bundle => words_parser(alloc, "bundle"),
    }
}
