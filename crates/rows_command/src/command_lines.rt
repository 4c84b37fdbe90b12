//! Words of a command line: the plan that they mean, or that they are refused, and the line that then says how to call.

use base_spelling::write_quoted;
use base_types::{NoMemory, Text};
use import_words::{Plan, RunPlan, WordsError, read_words, usage_line};
use rows_words::{Row, RowError};
use std::alloc::Global;

/// The most words of a row.
const MOST_WORDS: u32 = 1000;

/// The words that are left in a row; `""` is an empty one.
fn words(alloc: Global, row: &mut Row<'_>) -> Result<Vec<String>, RowError> {
    let mut words = Vec::new(alloc);
    for _ in 0..MOST_WORDS {
        if row.is_done() {
            return Ok(words);
        }
        let word = row.text(alloc)?;
        words.push(String::from_str(alloc, word.as_str())?)?;
    }
    Err(RowError::Unknown)
}

/// The text with a word and texts behind it, each in quotes.
fn put_texts(mut told: Text, word: &str, texts: &[Text]) -> Result<Text, NoMemory> {
    told.push_str(word)?;
    for text in texts {
        told.push_str(" ")?;
        told = write_quoted(told, text.as_str())?;
    }
    Ok(told)
}

/// The text with the scripts or the rounds file behind it.
fn put_scripts(mut told: Text, run: &RunPlan) -> Result<Text, NoMemory> {
    if !run.scripts.is_empty() {
        told = put_texts(told, ", scripts", run.scripts.as_slice())?;
    }
    match &run.rounds {
        Some(rounds) => {
            told.push_str(", rounds ")?;
            write_quoted(told, rounds.as_str())
        }
        None => Ok(told),
    }
}

fn put_run(mut told: Text, run: &RunPlan) -> Result<Text, NoMemory> {
    let fuel = run.fuel;
    told = put_texts(told, ", path", run.path.as_slice())?;
    told.push_str(format!(in told.alloc(); ", fuel {fuel}")?.as_str())?;
    told = put_scripts(told, run)?;
    if run.trace {
        told.push_str(", with a trace")?;
    }
    if run.bundles {
        told.push_str(", with bundles")?;
    }
    Ok(told)
}

fn started(alloc: Global, word: &str, run: &RunPlan) -> Result<Text, NoMemory> {
    put_run(Text::from_str(alloc, word)?, run)
}

/// A word and a text in quotes behind it.
fn named(alloc: Global, word: &str, text: &Text) -> Result<Text, NoMemory> {
    write_quoted(Text::from_str(alloc, word)?, text.as_str())
}

fn generated(alloc: Global, seed: u64, modules: u32, scripts: u32) -> Result<Text, NoMemory> {
    Text::from_string(format!(in alloc; "gen, seed {seed}, {modules} modules, {scripts} scripts")?)
}

fn plan(alloc: Global, plan: &Plan) -> Result<Text, NoMemory> {
    match plan {
        Plan::Run(run) => started(alloc, "run", run),
        Plan::Gen {
            seed,
            modules,
            scripts,
        } => generated(alloc, *seed, *modules, *scripts),
        Plan::Check { run, trace_file } => put_run(named(alloc, "check ", trace_file)?, run),
        Plan::Convert { trace_file } => named(alloc, "convert ", trace_file),
        Plan::Module(run) => started(alloc, "module", run),
        Plan::Report { path, dir } => {
            put_texts(named(alloc, "report ", dir)?, ", path", path.as_slice())
        }
        Plan::Bundle { dir } => named(alloc, "bundle ", dir),
    }
}

fn read(alloc: Global, words: &[String]) -> Result<Text, RowError> {
    match read_words(alloc, words) {
        Ok(it) => Ok(plan(alloc, &it)?),
        Err(WordsError::Usage) => Ok(Text::from_str(alloc, "refused")?),
        Err(WordsError::NoMemory) => Err(RowError::NoMemory),
    }
}

/// What a row is answered.
pub fn answer(alloc: Global, row: &mut Row<'_>) -> Result<Option<Text>, RowError> {
    let call = row.word()?;
    let words = words(alloc, row)?;
    match call {
        "read" => Ok(Some(read(alloc, words.as_slice())?)),
        "usage" => Ok(Some(Text::from_str(alloc, usage_line(words.as_slice()))?)),
        _ => Err(RowError::Unknown),
    }
}
