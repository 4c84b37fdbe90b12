//! Numbers, texts and sources as traces and rounds files spell them.
ghost use Rattle.std.specs.Prelude.{◌≡◌, ◌∷◌, [], codes};
ghost use Rattle.std.specs.List.{list_any};
ghost use Rattle.std.specs.Str.{bytes_eq};

use base_spelling::{read_number, read_quoted, read_source, write_quoted, write_source};
use base_types::{Seq, Text};
use rows_words::{Row, RowError};
use std::alloc::Global;

/// Whether the word is that of a call that is answered here: one on how a number, a text or a source is spelled.
pub fn is_call(word: &str) -> bool
    ensures { result ≡ list_any (bytes_eq word.now)
        (codes "number" ∷ codes "text" ∷
        codes "source" ∷ codes "bytes" ∷ codes "quote" ∷ []) }
{
    matches!(word, "number" | "text" | "source" | "bytes" | "quote")
}

fn refused(alloc: Global) -> Result<Text, RowError> {
    Ok(Text::from_str(alloc, "refused")?)
}

fn number(alloc: Global, field: &[u8]) -> Result<Text, RowError> {
    match read_number(field) {
        Some(number) => Ok(Text::from_string(format!(in alloc; "{number}")?)?),
        None => refused(alloc),
    }
}

/// The text that the field spells, spelled again.
fn text(alloc: Global, field: &[u8]) -> Result<Text, RowError> {
    match read_quoted(alloc, field)? {
        Some(text) => Ok(write_quoted(Text::new(alloc), text.as_str())?),
        None => refused(alloc),
    }
}

/// The source that the field spells, spelled again.
fn source(alloc: Global, field: &[u8]) -> Result<Text, RowError> {
    match read_source(alloc, field)? {
        Some(bytes) => Ok(write_source(Text::new(alloc), bytes.as_slice())?),
        None => refused(alloc),
    }
}

/// The bytes of a source, each as a number.
fn bytes(alloc: Global, field: &[u8]) -> Result<Text, RowError> {
    let Some(bytes) = read_source(alloc, field)? else {
        return refused(alloc);
    };
    let bytes = bytes.as_slice();
    Ok(Text::from_string(format!(in alloc; "{bytes:?}")?)?)
}

/// What is read of the field behind the call, which is the rest of the row; `quote` takes a field by its bytes.
pub fn answer(alloc: Global, call: &str, row: &mut Row<'_>) -> Result<Text, RowError> {
    if call == "quote" {
        let field: Seq<u8> = row.bytes(alloc)?;
        return text(alloc, field.as_slice());
    }
    let field = row.all();
    match call {
        "number" => number(alloc, field),
        "text" => text(alloc, field),
        "source" => source(alloc, field),
        "bytes" => bytes(alloc, field),
        _ => Err(RowError::Unknown),
    }
}
