//! Words as texts of their own.
ghost use Rattle.std.specs.Prelude.{◌≡◌, IfOk, map};

use base_types::{NoMemory, Text, Texts};
use std::alloc::Global;

/// The words as texts of their own.
pub(crate) fn owned(alloc: Global, words: &[&str]) -> Result<Texts, NoMemory>
    ensures { IfOk result (λ it. it ≡ map (λ word. word.now) words.now) }
{
    let mut texts = Texts::new(alloc);
    for word in words {
        texts.push(Text::from_str(alloc, word)?)?;
    }
    Ok(texts)
}
