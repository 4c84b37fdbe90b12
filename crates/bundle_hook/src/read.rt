//! From the first bytes of a file to the index of a bundle.
ghost use Rattle.std.specs.Prelude.{◌≡◌, [], IfOk};
ghost use Rattle.std.specs.Str.{bytes_eq};
ghost use Rattle.bundle_hook.specs.Reading as reading;
ghost use Rattle.bundle_hook.specs.Spelling.{last_line};

use crate::entry::Entry;
use crate::line::{cut_at, entry_in};
use base_types::{NoMemory, Seq, TreePath};
use std::alloc::Global;

/// The most files in a bundle.
const MOST_FILES: usize = 4_096;

/// The most lines behind the first one: a line for each file, and the last one.
const MOST_LINES: usize = MOST_FILES + 1;

/// The line feed at the end of each line.
const LINE_FEED: u8 = 0x0a;

/// Whether a path stands before another: below it, and no prefix of it.
#[tactic(auto, using(crate::proofs::Orders::within_taken))]
fn is_before(before: &TreePath, path: &TreePath) -> bool
    ensures { result ≡ reading.is_before before.now path.now }
{
    before < path
        && !path
            .parts()
            .as_slice()
            .starts_with(before.parts().as_slice())
}

/// Whether each path stands before the next one.
fn are_ascending(entries: &[Entry]) -> bool
    ensures { result ≡ reading.ascending entries.now }
{
    for i in 1..entries.len() {
        if !is_before(&entries[i - 1].path, &entries[i].path) {
            return false;
        }
    }
    true
}

fn is_last(line: &[u8]) -> bool
    ensures { result ≡ bytes_eq line.now last_line }
{
    line == b"end".as_slice()
}

/// The entries that the lines spell, so many at most, and how many bytes stand behind the last line.
fn lines_in(
    alloc: Global,
    most: usize,
    text: &[u8],
) -> Result<Option<(Seq<Entry>, usize)>, NoMemory>
    ensures { IfOk result (λ o. o ≡ reading.lines_in most [] text.now) }
{
    let mut done = Seq::new(alloc);
    let mut rest = text;
    for i in 0..most {
        let Some((line, more)) = cut_at(LINE_FEED, rest) else {
            return Ok(None);
        };
        if is_last(line) {
            return Ok(Some((done, more.len())));
        }
        match entry_in(alloc, line)? {
            Some(entry) => done.push(entry)?,
            None => {
                return Ok(None);
            }
        }
        rest = more;
    }
    Ok(None)
}

fn if_ascending(entries: Seq<Entry>, left: usize) -> Option<(Seq<Entry>, usize)>
    ensures { result ≡ reading.if_ascending (entries, left) }
{
    if are_ascending(entries.as_slice()) {
        Some((entries, left))
    } else {
        None
    }
}

fn behind_first(
    alloc: Global,
    line: &[u8],
    rest: &[u8],
) -> Result<Option<(Seq<Entry>, usize)>, NoMemory>
    ensures { IfOk result (λ o. o ≡ reading.behind_first (line.now, rest.now)) }
{
    if line != b"PYB1".as_slice() {
        return Ok(None);
    }
    match lines_in(alloc, MOST_LINES, rest)? {
        Some((entries, left)) => Ok(if_ascending(entries, left)),
        None => Ok(None),
    }
}

/// The entries of a bundle that begins so, and how many bytes stand behind its front.
#[tactic(auto, unfolding(crate::specs::Reading::front_in))]
pub(crate) fn front_in(alloc: Global, text: &[u8]) -> Result<Option<(Seq<Entry>, usize)>, NoMemory>
    ensures { IfOk result (λ o. o ≡ reading.front_in text.now) }
{
    match cut_at(LINE_FEED, text) {
        Some((line, rest)) => behind_first(alloc, line, rest),
        None => Ok(None),
    }
}
