//! What `clap` found, as texts of their own.
ghost use Rattle.std.specs.Prelude.{◌≡◌, IfOk, None, codes, option_map};
ghost use Rattle.clap.specs.Words.{found_of, first_value, one_text, rows_of};
ghost use Rattle.import_words.specs.Finds.{IsFlag, words_in, Finds};

use crate::texts::owned;
use base_types::{NoMemory, Text, Texts};
use clap::ArgMatches;
use std::alloc::Global;

/// The options that stood.
#[derive(Drop)]
pub struct Settings {
    pub path: Option<Text>,
    pub fuel: Option<Text>,
    pub rounds: Option<Text>,
    pub bundles: bool,
    pub trace: bool,
}

/// All options, and the words behind them.
#[derive(Drop)]
pub struct Front {
    pub settings: Settings,
    pub rest: Texts,
}

fn value_of(alloc: Global, matches: &ArgMatches<'_>, name: &str) -> Result<Option<Text>, NoMemory>
    ensures { IfOk result (λ o. o ≡ first_value (found_of matches.now) name.now) }
{
    match matches.get_str(name) {
        Some(value) => Ok(Some(Text::from_str(alloc, value)?)),
        None => Ok(None),
    }
}

fn flag_of(matches: &ArgMatches<'_>, name: &str) -> bool
    ensures { IsFlag (one_text (found_of matches.now) name.now) result }
{
    matches.get_flag(name)
}

fn others_of(alloc: Global, matches: &ArgMatches<'_>) -> Result<Texts, NoMemory>
    ensures { IfOk result (λ it. it ≡ words_in (found_of matches.now)) }
{
    match matches.get_strs("words") {
        Some(words) => owned(alloc, words),
        None => Ok(Texts::new(alloc)),
    }
}

/// All that was found.
pub(crate) fn front_of(alloc: Global, matches: &ArgMatches<'_>) -> Result<Front, NoMemory>
    ensures { IfOk result (Finds (found_of matches.now)) }
{
    let settings = Settings {
        path: value_of(alloc, matches, "path")?,
        fuel: value_of(alloc, matches, "fuel")?,
        rounds: value_of(alloc, matches, "rounds")?,
        bundles: flag_of(matches, "bundles"),
        trace: flag_of(matches, "trace"),
    };
    Ok(Front {
        settings,
        rest: others_of(alloc, matches)?,
    })
}
