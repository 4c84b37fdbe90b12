//! Tree paths in a line.
ghost use Rattle.std.specs.Prelude.{◌≡◌, IfOk};
ghost use Rattle.words_rounds.specs.Lines.{path_in};
ghost use Rattle.words_rounds.specs.Lines as spelled;

use base_types::{NoMemory, Text, TreePath};
use std::alloc::Global;
use std::str;

fn has_no_blank(text: &[u8]) -> bool
    ensures { result ≡ spelled.has_no_blank text.now }
{
    text.iter().all(|b| *b != b' ')
}

/// The path, if it has a part.
fn some_part(path: TreePath) -> Option<TreePath>
    ensures { result ≡ spelled.with_parts path }
{
    if path.parts().is_empty() {
        None
    } else {
        Some(path)
    }
}

/// The tree path of at least one part that a text names.
fn named_in(alloc: Global, text: &str) -> Result<Option<TreePath>, NoMemory>
    ensures { IfOk result (λ o. o ≡ spelled.named_in text.now) }
{
    let text = Text::from_str(alloc, text)?;
    match TreePath::read(&text)? {
        Some(path) => Ok(some_part(path)),
        None => Ok(None),
    }
}

/// The tree path of at least one part, without a blank, that the bytes spell.
pub(crate) fn path_in(alloc: Global, text: &[u8]) -> Result<Option<TreePath>, NoMemory>
    ensures { IfOk result (λ o. o ≡ path_in text.now) }
{
    if !has_no_blank(text) {
        return Ok(None);
    }
    match str::from_utf8(text) {
        Ok(text) => named_in(alloc, text),
        Err(_) => Ok(None),
    }
}
