//! Single lines of a bundle.
ghost use Rattle.std.specs.Prelude.{◌≡◌, ◌==◌, ◌<◌, length, position, IfOk, IfSome};
ghost use Rattle.std.specs.Option.{option_map};
ghost use Rattle.bundle_hook.specs.Spelling as spelling;
ghost use Rattle.bundle_hook.specs.Reading as reading;

use crate::entry::Entry;
use base_spelling::read_number;
use base_types::{NoMemory, Text, TreePath};
use std::alloc::Global;
use std::str;

/// The most bytes of one file.
const MOST_SIZE: u64 = 1_099_511_627_776;

/// The least byte that may stand in a path.
const LEAST_BYTE: u8 = 0x20;

/// Where a byte first stands.
fn place_of(byte: u8, text: &[u8]) -> Option<usize>
    ensures value { result ≡ position (λ b. b == byte) text.now }
    ensures within { IfSome result (λ i. i < length text.now) }
{
    text.iter().position(|b| *b == byte)
}

/// What stands before and behind the first of these bytes.
pub(crate) fn cut_at(byte: u8, text: &[u8]) -> Option<(&[u8], &[u8])>
    ensures { option_map (λ x. (x.0.now, x.1.now)) result ≡ reading.cut_at byte text.now }
{
    match place_of(byte, text) {
        Some(i) => Some((&text[..i], &text[i + 1..])),
        None => None,
    }
}

fn size_in(text: &[u8]) -> Option<u64>
    ensures { result ≡ reading.size_in text.now }
{
    match read_number(text) {
        Some(n) if n <= MOST_SIZE => Some(n),
        _ => None,
    }
}

fn is_plain(text: &[u8]) -> bool
    ensures { result ≡ spelling.is_plain text.now }
{
    text.iter().all(|b| LEAST_BYTE <= *b)
}

/// The path, if it has a part.
fn some_part(path: TreePath) -> Option<TreePath>
    ensures { result ≡ reading.with_parts path }
{
    if path.parts().is_empty() {
        None
    } else {
        Some(path)
    }
}

/// The tree path of at least one part that a text names.
fn named_in(alloc: Global, text: &str) -> Result<Option<TreePath>, NoMemory>
    ensures { IfOk result (λ o. o ≡ reading.named_in text.now) }
{
    let text = Text::from_str(alloc, text)?;
    match TreePath::read(&text)? {
        Some(path) => Ok(some_part(path)),
        None => Ok(None),
    }
}

/// The tree path of at least one part, without bytes that may not stand there, that the bytes spell.
fn path_in(alloc: Global, text: &[u8]) -> Result<Option<TreePath>, NoMemory>
    ensures { IfOk result (λ o. o ≡ reading.path_in text.now) }
{
    if !is_plain(text) {
        return Ok(None);
    }
    match str::from_utf8(text) {
        Ok(text) => named_in(alloc, text),
        Err(_) => Ok(None),
    }
}

fn entry_with(alloc: Global, size: Option<u64>, path: &[u8]) -> Result<Option<Entry>, NoMemory>
    ensures { IfOk result (λ o. o ≡ reading.entry_with size (reading.path_in path.now)) }
{
    let Some(size) = size else {
        return Ok(None);
    };
    match path_in(alloc, path)? {
        Some(path) => Ok(Some(Entry { path, size })),
        None => Ok(None),
    }
}

/// What the line of a file says.
#[tactic(auto, unfolding(crate::specs::Reading::entry_in))]
pub(crate) fn entry_in(alloc: Global, line: &[u8]) -> Result<Option<Entry>, NoMemory>
    ensures { IfOk result (λ o. o ≡ reading.entry_in line.now) }
{
    match cut_at(b' ', line) {
        Some((size, path)) => entry_with(alloc, size_in(size), path),
        None => Ok(None),
    }
}
