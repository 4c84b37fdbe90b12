//! Words, taken apart.
ghost use Rattle.std.specs.Prelude.{◌≡◌, IfOk, false, map};
ghost use Rattle.std.specs.List.{list_any};
ghost use Rattle.std.specs.String.{string_bytes};
ghost use Rattle.import_words.specs.OptionWords.{is_refused};
ghost use Rattle.import_words.specs.Taken.{taken};

use crate::clap_command::Command;
use crate::found::{Front, front_of};
use crate::parser::parser_for;
use base_types::NoMemory;
use clap::error::ErrorKind;
use std::alloc::Global;

/// The options that stand in front of a command's other words, and those words. None where `clap` refuses them.
pub fn take_apart(
    alloc: Global,
    command: Command,
    words: &[String],
) -> Result<Option<Front>, NoMemory>
    requires { list_any is_refused (map string_bytes words.now) ≡ false }
    ensures { IfOk result (λ o. o ≡ taken command (map string_bytes words.now)) }
{
    let parser = parser_for(alloc, command)?;
    match parser.try_get_matches_from(words) {
        Ok(matches) => Ok(Some(front_of(alloc, &matches)?)),
        Err(error) => {
            if error.kind() == ErrorKind::OutOfMemory {
                Err(NoMemory)
            } else {
                Ok(None)
            }
        }
    }
}
