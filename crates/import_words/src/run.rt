//! Plans of runs.
ghost use Rattle.std.specs.Prelude.{◌≡◌, IfOk, not};
ghost use Rattle.std.specs.List.{list_all};
ghost use Rattle.spec_core.specs.Identifiers.{is_dotted};
ghost use Rattle.import_words.specs.OptionWords.{is_dashed};
ghost use Rattle.import_words.specs.Plans.{run_with, run_of, are_scripts};

use crate::Settings;
use crate::number::fuel_of;
use crate::path::{folder_of, path_of};
use crate::plan::RunPlan;
use base_types::{Exact, NoMemory, Text, Texts};
use spec_core::Dotted;
use std::alloc::Global;

pub(crate) fn is_dashed(word: &str) -> bool
    ensures { result ≡ is_dashed word.now }
{
    match word.as_bytes().first() {
        Some(b) => *b == b'-',
        None => false,
    }
}

/// The words once more.
fn copied(alloc: Global, words: &[Text]) -> Result<Texts, NoMemory>
    ensures { IfOk result (λ it. it ≡ words.now) }
{
    let mut texts = Texts::new(alloc);
    for word in words {
        texts.push(word.copy()?)?;
    }
    Ok(texts)
}

fn are_undashed(words: &[Text]) -> bool
    ensures { result ≡ list_all (λ word. not (is_dashed word)) words.now }
{
    words.iter().all(|word| !is_dashed(word.as_str()))
}

/// Whether these are 1 to 16 words that do not begin with `-`.
pub(crate) fn are_scripts(words: &[Text]) -> bool
    ensures { result ≡ are_scripts words.now }
{
    if words.is_empty() {
        return false;
    }
    if words.len() > 16 {
        return false;
    }
    are_undashed(words)
}

/// Whether each word is a dotted name.
pub(crate) fn are_names(words: &[Text]) -> Result<bool, NoMemory>
    ensures { IfOk result (λ yes. yes ≡ list_all is_dotted words.now) }
{
    for word in words {
        if Dotted::read(word)?.is_none() {
            return Ok(false);
        }
    }
    Ok(true)
}

/// A run with these settings, whose search path without `--path` has the one entry.
pub(crate) fn run_with(
    settings: Settings,
    entry: &Text,
    scripts: Texts,
) -> Result<Option<RunPlan>, NoMemory>
    ensures { IfOk result (λ o. o ≡ run_with settings entry.now scripts) }
{
    let Some(path) = path_of(&settings.path, entry)? else {
        return Ok(None);
    };
    let Some(fuel) = fuel_of(&settings.fuel) else {
        return Ok(None);
    };
    Ok(Some(RunPlan {
        path,
        fuel,
        trace: settings.trace,
        scripts,
        rounds: settings.rounds,
        bundles: settings.bundles,
    }))
}

/// A run of scripts, or of rounds.
pub(crate) fn run_of(
    alloc: Global,
    settings: Settings,
    scripts: &[Text],
) -> Result<Option<RunPlan>, NoMemory>
    ensures { IfOk result (λ o. o ≡ run_of settings scripts.now) }
{
    match scripts.first() {
        None => {
            if settings.rounds.is_some() {
                run_with(settings, &Text::new(alloc), Texts::new(alloc))
            } else {
                Ok(None)
            }
        }
        Some(script) => {
            if settings.rounds.is_some() {
                return Ok(None);
            }
            if !are_scripts(scripts) {
                return Ok(None);
            }
            let folder = folder_of(script)?;
            let all = copied(alloc, scripts)?;
            run_with(settings, &folder, all)
        }
    }
}
