//! From words to plans.
ghost use Rattle.std.specs.Prelude.{◌≡◌, IfOk, false, map};
ghost use Rattle.std.specs.List.{list_any};
ghost use Rattle.std.specs.String.{string_bytes};
ghost use Rattle.import_words.specs.OptionWords.{is_refused};
ghost use Rattle.import_words.specs.Plans.{plan_of, plan_by, gen_of, run_plan, check_plan, module_plan, report_plan, has_path_alone, only_word, Plans, behind_options};

use crate::command::command_of;
use crate::number::{digits_of, number_of};
use crate::path::path_of;
use crate::plan::{Plan, WordsError};
use crate::run::{are_names, are_scripts, is_dashed, run_of, run_with};
use crate::{Command, Settings, take_apart};
use base_types::{Exact, NoMemory, Text, Texts};
use std::alloc::Global;

fn is_refused(word: &str) -> bool
    ensures { result ≡ is_refused word.now }
{
    word.is_empty()
        || word == "-"
        || word == "--"
        || word == "--path="
        || word == "--fuel="
        || word == "--rounds="
}

fn any_refused(words: &[Text]) -> bool
    ensures { result ≡ list_any is_refused words.now }
{
    words.iter().any(|word| is_refused(word.as_str()))
}

fn gen_of(words: &[Text]) -> Option<Plan>
    ensures { result ≡ gen_of words.now }
{
    let [seed, modules, scripts] = words else {
        return None;
    };
    let seed = digits_of(18, seed.as_str())?;
    let modules = number_of(5, 1, 10_000, modules.as_str())?;
    let scripts = number_of(5, 1, 16, scripts.as_str())?;
    Some(Plan::Gen {
        seed,
        modules: modules as u32,
        scripts: scripts as u32,
    })
}

fn gen_plan(alloc: Global, words: &[String]) -> Result<Option<Plan>, NoMemory>
    requires { list_any is_refused (map string_bytes words.now) ≡ false }
    ensures { IfOk result (λ o. o ≡ gen_of (map string_bytes words.now)) }
{
    let found = take_apart(alloc, Command::Gen, words)?;
    match found {
        Some(front) => Ok(gen_of(front.rest.as_slice())),
        None => Ok(None),
    }
}

fn ran(alloc: Global, settings: Settings, scripts: &[Text]) -> Result<Option<Plan>, NoMemory>
    ensures { IfOk result (λ o. o ≡ run_plan settings scripts.now) }
{
    match run_of(alloc, settings, scripts)? {
        Some(run) => Ok(Some(Plan::Run(run))),
        None => Ok(None),
    }
}

fn run_plan(alloc: Global, words: &[String]) -> Result<Option<Plan>, NoMemory>
    requires { list_any is_refused (map string_bytes words.now) ≡ false }
    ensures { IfOk result (λ o. o ≡ behind_options run_plan (map string_bytes words.now)) }
{
    let found = take_apart(alloc, Command::Run, words)?;
    match found {
        Some(front) => ran(alloc, front.settings, front.rest.as_slice()),
        None => Ok(None),
    }
}

fn check_plan(alloc: Global, words: &[String]) -> Result<Option<Plan>, NoMemory>
    requires { list_any is_refused (map string_bytes words.now) ≡ false }
    ensures { IfOk result (λ o. o ≡ behind_options check_plan (map string_bytes words.now)) }
{
    let found = take_apart(alloc, Command::Check, words)?;
    match found {
        Some(front) => check_of(alloc, front.settings, front.rest.as_slice()),
        None => Ok(None),
    }
}

fn check_of(alloc: Global, settings: Settings, words: &[Text]) -> Result<Option<Plan>, NoMemory>
    ensures { IfOk result (λ o. o ≡ check_plan settings words.now) }
{
    let Some((trace_file, words)) = words.split_first() else {
        return Ok(None);
    };
    if settings.trace || settings.bundles {
        return Ok(None);
    }
    match run_of(alloc, settings, words)? {
        Some(run) => Ok(Some(Plan::Check {
            run,
            trace_file: trace_file.copy()?,
        })),
        None => Ok(None),
    }
}

fn module_plan(alloc: Global, words: &[String]) -> Result<Option<Plan>, NoMemory>
    requires { list_any is_refused (map string_bytes words.now) ≡ false }
    ensures { IfOk result (λ o. o ≡ behind_options module_plan (map string_bytes words.now)) }
{
    let found = take_apart(alloc, Command::Module, words)?;
    match found {
        Some(front) => module_of(alloc, front.settings, front.rest),
        None => Ok(None),
    }
}

fn module_of(alloc: Global, settings: Settings, names: Texts) -> Result<Option<Plan>, NoMemory>
    ensures { IfOk result (λ o. o ≡ module_plan settings names) }
{
    if settings.rounds.is_some() {
        return Ok(None);
    }
    if !are_scripts(names.as_slice()) {
        return Ok(None);
    }
    if !are_names(names.as_slice())? {
        return Ok(None);
    }
    match run_with(settings, &Text::new(alloc), names)? {
        Some(run) => Ok(Some(Plan::Module(run))),
        None => Ok(None),
    }
}

fn report_plan(alloc: Global, words: &[String]) -> Result<Option<Plan>, NoMemory>
    requires { list_any is_refused (map string_bytes words.now) ≡ false }
    ensures { IfOk result (λ o. o ≡ behind_options report_plan (map string_bytes words.now)) }
{
    let found = take_apart(alloc, Command::Report, words)?;
    match found {
        Some(front) => report_of(front.settings, front.rest.as_slice()),
        None => Ok(None),
    }
}

/// Whether no option but `--path` stood.
fn has_path_alone(settings: &Settings) -> bool
    ensures { result ≡ has_path_alone settings.now }
{
    settings.fuel.is_none() && (settings.rounds.is_none() && (!settings.trace && !settings.bundles))
}

fn report_of(settings: Settings, words: &[Text]) -> Result<Option<Plan>, NoMemory>
    ensures { IfOk result (λ o. o ≡ report_plan settings words.now) }
{
    let [dir] = words else {
        return Ok(None);
    };
    if !has_path_alone(&settings) {
        return Ok(None);
    }
    match path_of(&settings.path, dir)? {
        Some(path) => Ok(Some(Plan::Report {
            path,
            dir: dir.copy()?,
        })),
        None => Ok(None),
    }
}

fn only_word(words: &[Text]) -> Result<Option<Text>, NoMemory>
    ensures { IfOk result (λ o. o ≡ only_word words.now) }
{
    let [word] = words else {
        return Ok(None);
    };
    if is_dashed(word.as_str()) {
        return Ok(None);
    }
    Ok(Some(word.copy()?))
}

fn convert_word(alloc: Global, words: &[String]) -> Result<Option<Text>, NoMemory>
    requires { list_any is_refused (map string_bytes words.now) ≡ false }
    ensures { IfOk result (λ o. o ≡ only_word (map string_bytes words.now)) }
{
    let found = take_apart(alloc, Command::Convert, words)?;
    match found {
        Some(front) => only_word(front.rest.as_slice()),
        None => Ok(None),
    }
}

fn bundle_word(alloc: Global, words: &[String]) -> Result<Option<Text>, NoMemory>
    requires { list_any is_refused (map string_bytes words.now) ≡ false }
    ensures { IfOk result (λ o. o ≡ only_word (map string_bytes words.now)) }
{
    let found = take_apart(alloc, Command::Bundle, words)?;
    match found {
        Some(front) => only_word(front.rest.as_slice()),
        None => Ok(None),
    }
}

fn plan_by(alloc: Global, command: Command, words: &[String]) -> Result<Option<Plan>, NoMemory>
    requires { list_any is_refused (map string_bytes words.now) ≡ false }
    ensures { IfOk result (λ o. o ≡ plan_by (Some command) (map string_bytes words.now)) }
{
    match command {
        Command::Run => run_plan(alloc, words),
        Command::Gen => gen_plan(alloc, words),
        Command::Check => check_plan(alloc, words),
        Command::Convert => match convert_word(alloc, words)? {
            Some(trace_file) => Ok(Some(Plan::Convert { trace_file })),
            None => Ok(None),
        },
        Command::Module => module_plan(alloc, words),
        Command::Report => report_plan(alloc, words),
        Command::Bundle => match bundle_word(alloc, words)? {
            Some(dir) => Ok(Some(Plan::Bundle { dir })),
            None => Ok(None),
        },
    }
}

fn texts_of(alloc: Global, words: &[String]) -> Result<Texts, NoMemory>
    ensures { IfOk result (λ it. it ≡ map string_bytes words.now) }
{
    let mut texts = Texts::new(alloc);
    for word in words {
        texts.push(Text::from_str(alloc, word.as_str())?)?;
    }
    Ok(texts)
}

/// The plan behind words of which none is refused by itself.
fn plan_behind(alloc: Global, words: &[String]) -> Result<Option<Plan>, NoMemory>
    requires { list_any is_refused (map string_bytes words.now) ≡ false }
    ensures { IfOk result (λ o. o ≡ plan_of (map string_bytes words.now)) }
{
    let Some((word, rest)) = words.split_first() else {
        return Ok(None);
    };
    match command_of(word.as_str()) {
        Some(command) => plan_by(alloc, command, rest),
        None => Ok(None),
    }
}

fn plan_of(alloc: Global, words: &[String]) -> Result<Option<Plan>, NoMemory>
    ensures { IfOk result (λ o. o ≡ plan_of (map string_bytes words.now)) }
{
    let texts = texts_of(alloc, words)?;
    if any_refused(texts.as_slice()) {
        return Ok(None);
    }
    plan_behind(alloc, words)
}

/// What the words of a command line ask for. Usage exactly where they are refused.
pub fn read_words(alloc: Global, words: &[String]) -> Result<Plan, WordsError>
    ensures { Plans (plan_of (map string_bytes words.now)) result }
{
    match plan_of(alloc, words)? {
        Some(plan) => Ok(plan),
        None => Err(WordsError::Usage),
    }
}
