ghost use Rattle.std.specs.Prelude.{◌≡◌, IfOk};
ghost use Rattle.value_texts.specs.Texts as table;
ghost use Rattle.value_texts.specs.declared.draft.Draft.TheVariants as drafts;

use base_types::{NoMemory, Text};
use py_value::{Applied, Value};
use std::alloc::Global;
use value_operators::{MOST_TEXT, too_long_text};

/// A text that is being written. Where it has become longer than a text may be, it is let go.
#[derive(Drop)]
pub enum Draft {
    Within(Text),
    Over,
}

/// The draft with one more piece.
pub fn put(draft: Draft, piece: &str) -> Result<Draft, NoMemory>
    ensures { IfOk result (λ it. it ≡ table.put draft piece.now) }
{
    match draft {
        Draft::Within(text) => put_within(text, piece),
        Draft::Over => Ok(Draft::Over),
    }
}

fn put_within(text: Text, piece: &str) -> Result<Draft, NoMemory>
    ensures { IfOk result (λ it. it ≡ table.put (drafts.Within text) piece.now) }
{
    if text.len() > MOST_TEXT {
        return Ok(Draft::Over);
    }
    if piece.len() > MOST_TEXT - text.len() {
        return Ok(Draft::Over);
    }
    let mut more = text;
    more.push_str(piece)?;
    Ok(Draft::Within(more))
}

/// The text that was written, or what is raised where it has become too long.
pub fn finished(alloc: Global, draft: Draft) -> Result<Applied, NoMemory>
    ensures { IfOk result (λ applied. applied ≡ table.finished draft) }
{
    match draft {
        Draft::Within(text) => Ok(Applied::Value(Value::Text(text))),
        Draft::Over => too_long_text(alloc),
    }
}
