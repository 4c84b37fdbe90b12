//! Reading.
ghost use Rattle.std.specs.Prelude.{◌≡◌, ◌<◌, ℕ, List, IfOk, IfSome, Some};
ghost use Rattle.std.specs.List.{AllByRecursion};
ghost use Rattle.std.specs.Str.{IsUtf8};
ghost use Rattle.base_spelling.specs.Spelling.{quoted, source};
ghost use Rattle.base_spelling.specs.Candidates as candidate;
ghost use Rattle.base_spelling.specs.Read.{text_in, source_in};

use crate::candidate::{quoted_candidate, source_candidate};
use crate::write::{write_quoted, write_source};
use base_types::{NoMemory, Seq, Text};
use std::alloc::Global;
use std::str;

/// The text, if it is one and these bytes are its spelling.
#[tactic(auto, unfolding(crate::specs::Read::text_in))]
fn text_of(alloc: Global, field: &[u8]) -> Result<Option<Text>, NoMemory>
    ensures { IfOk result (λ o. o ≡ text_in field.now) }
{
    let bytes = quoted_candidate(alloc, field)?;
    let Ok(text) = str::from_utf8(bytes.as_slice()) else {
        return Ok(None);
    };
    let spelled = write_quoted(Text::new(alloc), text)?;
    if spelled.as_bytes() == field {
        Ok(Some(Text::from_str(alloc, text)?))
    } else {
        Ok(None)
    }
}

/// The text that the bytes spell as `write_quoted` writes it, or None where they spell none.
pub fn read_quoted(alloc: Global, field: &[u8]) -> Result<Option<Text>, NoMemory>
    ensures exact { IfOk result (λ o. o ≡ text_in field.now) }
    ensures given { IfOk result (λ o. IfSome o (λ text. field.now ≡ quoted text)) }
    ensures only { (text : List ℕ) → IsUtf8 text → field.now ≡ quoted text → IfOk result (λ o. o ≡ Some text) }
{
    text_of(alloc, field)
}

#[tactic(auto, unfolding(crate::specs::Read::source_in))]
fn source_of(alloc: Global, field: &[u8]) -> Result<Option<Seq<u8>>, NoMemory>
    ensures { IfOk result (λ o. o ≡ source_in field.now) }
{
    let bytes = source_candidate(alloc, field)?;
    let spelled = write_source(Text::new(alloc), bytes.as_slice())?;
    if spelled.as_bytes() == field {
        Ok(Some(bytes))
    } else {
        Ok(None)
    }
}

/// The source that the bytes spell as `write_source` writes it, or None where they spell none.
pub fn read_source(alloc: Global, field: &[u8]) -> Result<Option<Seq<u8>>, NoMemory>
    ensures exact { IfOk result (λ o. o ≡ source_in field.now) }
    ensures given { IfOk result (λ o. IfSome o (λ bytes. field.now ≡ source bytes)) }
    ensures only { (bytes : List ℕ) → AllByRecursion (λ b. b < 256) bytes → field.now ≡ source bytes
        → IfOk result (λ o. o ≡ Some bytes) }
{
    source_of(alloc, field)
}
