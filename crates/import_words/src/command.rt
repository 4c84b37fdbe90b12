//! The command words, and the usage line of each.
ghost use Rattle.std.specs.Prelude.{◌≡◌, map};
ghost use Rattle.std.specs.String.{string_bytes};
ghost use Rattle.import_words.specs.Plans.{command_of};
ghost use Rattle.import_words.specs.Usage.{usage_by, usage_of};

use crate::Command;

/// The command that a word names.
pub(crate) fn command_of(word: &str) -> Option<Command>
    ensures { result ≡ command_of word.now }
{
    if word == "run" {
        Some(Command::Run)
    } else if word == "gen" {
        Some(Command::Gen)
    } else if word == "check" {
        Some(Command::Check)
    } else if word == "convert" {
        Some(Command::Convert)
    } else if word == "module" {
        Some(Command::Module)
    } else if word == "report" {
        Some(Command::Report)
    } else if word == "bundle" {
        Some(Command::Bundle)
    } else {
        None
    }
}

const RUN_USAGE: &str =
    "pyimport: usage: pyimport run [--path LIST] [--fuel N] [--trace] [--bundles] (SCRIPT.. | --rounds FILE) | pyimport gen SEED MODULES SCRIPTS";

const CHECK_USAGE: &str =
    "pyimport: usage: pyimport check [--path LIST] [--fuel N] (TRACE SCRIPT.. | --rounds FILE TRACE) | pyimport convert TRACE";

fn usage_by(command: Option<Command>) -> &'static str
    ensures { result.now ≡ usage_by command }
{
    match command {
        Some(Command::Check) => CHECK_USAGE,
        Some(Command::Convert) => CHECK_USAGE,
        Some(Command::Module) => {
            "pyimport: usage: pyimport module [--path LIST] [--fuel N] [--trace] [--bundles] NAME.."
        }
        Some(Command::Report) => "pyimport: usage: pyimport report [--path LIST] DIR",
        Some(Command::Bundle) => "pyimport: usage: pyimport bundle DIR",
        _ => RUN_USAGE,
    }
}

/// The line for words that `read_words` refuses, without its line end. It takes no memory.
pub fn usage_line(words: &[String]) -> &'static str
    ensures { result.now ≡ usage_of (map string_bytes words.now) }
{
    match words.first() {
        Some(word) => usage_by(command_of(word.as_str())),
        None => usage_by(None),
    }
}
