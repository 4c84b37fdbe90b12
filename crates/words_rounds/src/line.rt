//! Single lines.
ghost use Rattle.std.specs.Prelude.{◌≡◌, ◌==◌, ◌<◌, length, position, IfOk, IfSome};
ghost use Rattle.std.specs.Option.{option_map};
ghost use Rattle.words_rounds.specs.Lines as spelled;

use crate::place::path_in;
use base_spelling::{read_number, read_source};
use base_types::{NoMemory, Text};
use std::alloc::Global;
use std::str;
use tree_files::Edit;

/// What a line behind the first one says.
#[derive(Drop)]
pub(crate) enum Line {
    Round,
    Edit(Edit),
    Script(Text),
}

/// What stands behind this beginning.
fn behind<'a>(front: &[u8], text: &'a [u8]) -> Option<&'a [u8]>
    ensures { option_map (λ x. x.now) result ≡ spelled.behind front.now text.now }
{
    if text.len() < front.len() {
        return None;
    }
    if &text[..front.len()] == front {
        Some(&text[front.len()..])
    } else {
        None
    }
}

/// Where the first blank stands.
fn blank_at(text: &[u8]) -> Option<usize>
    ensures value { result ≡ position (λ b. b == 32) text.now }
    ensures within { IfSome result (λ i. i < length text.now) }
{
    text.iter().position(|b| *b == b' ')
}

/// What stands before and behind the first blank.
fn cut(text: &[u8]) -> Option<(&[u8], &[u8])>
    ensures { option_map (λ x. (x.0.now, x.1.now)) result ≡ spelled.cut text.now }
{
    match blank_at(text) {
        Some(i) => Some((&text[..i], &text[i + 1..])),
        None => None,
    }
}

fn file_at(alloc: Global, place: &[u8], source: &[u8]) -> Result<Option<Edit>, NoMemory>
    ensures { IfOk result (λ o. o ≡ spelled.file_at (place.now, source.now)) }
{
    let Some(path) = path_in(alloc, place)? else {
        return Ok(None);
    };
    match read_source(alloc, source)? {
        Some(bytes) => Ok(Some(Edit::File { path, bytes })),
        None => Ok(None),
    }
}

fn file_in(alloc: Global, rest: &[u8]) -> Result<Option<Edit>, NoMemory>
    ensures { IfOk result (λ o. o ≡ spelled.file_in rest.now) }
{
    match cut(rest) {
        Some((place, source)) => file_at(alloc, place, source),
        None => Ok(None),
    }
}

fn dir_at(alloc: Global, place: &[u8], time: &[u8]) -> Result<Option<Edit>, NoMemory>
    ensures { IfOk result (λ o. o ≡ spelled.dir_at (place.now, time.now)) }
{
    let Some(path) = path_in(alloc, place)? else {
        return Ok(None);
    };
    match read_number(time) {
        Some(time) => Ok(Some(Edit::Dir { path, time })),
        None => Ok(None),
    }
}

fn dir_in(alloc: Global, rest: &[u8]) -> Result<Option<Edit>, NoMemory>
    ensures { IfOk result (λ o. o ≡ spelled.dir_in rest.now) }
{
    match cut(rest) {
        Some((place, time)) => dir_at(alloc, place, time),
        None => Ok(None),
    }
}

fn remove_in(alloc: Global, rest: &[u8]) -> Result<Option<Edit>, NoMemory>
    ensures { IfOk result (λ o. o ≡ spelled.remove_in rest.now) }
{
    match path_in(alloc, rest)? {
        Some(path) => Ok(Some(Edit::Remove { path })),
        None => Ok(None),
    }
}

#[tactic(auto, unfolding(crate::specs::Lines::edit_in))]
fn edit_in(alloc: Global, line: &[u8]) -> Result<Option<Edit>, NoMemory>
    ensures { IfOk result (λ o. o ≡ spelled.edit_in line.now) }
{
    if let Some(rest) = behind(b"file ".as_slice(), line) {
        return file_in(alloc, rest);
    }
    if let Some(rest) = behind(b"dir ".as_slice(), line) {
        return dir_in(alloc, rest);
    }
    match behind(b"remove ".as_slice(), line) {
        Some(rest) => remove_in(alloc, rest),
        None => Ok(None),
    }
}

/// The script, whose text is kept as it stands.
fn script_in(alloc: Global, rest: &[u8]) -> Result<Option<Line>, NoMemory>
    ensures { IfOk result (λ o. o ≡ spelled.script_in rest.now) }
{
    if path_in(alloc, rest)?.is_none() {
        return Ok(None);
    }
    match str::from_utf8(rest) {
        Ok(script) => Ok(Some(Line::Script(Text::from_str(alloc, script)?))),
        Err(_) => Ok(None),
    }
}

#[tactic(auto, unfolding(crate::specs::Lines::line_in))]
pub(crate) fn line_in(alloc: Global, line: &[u8]) -> Result<Option<Line>, NoMemory>
    ensures { IfOk result (λ o. o ≡ spelled.line_in line.now) }
{
    if line == b"round".as_slice() {
        return Ok(Some(Line::Round));
    }
    if let Some(rest) = behind(b"script ".as_slice(), line) {
        return script_in(alloc, rest);
    }
    match edit_in(alloc, line)? {
        Some(edit) => Ok(Some(Line::Edit(edit))),
        None => Ok(None),
    }
}
