//! What has been read of a rounds file.
ghost use Rattle.std.specs.Prelude.{◌≡◌, IfOk, Result, Ok, Err, MatchResult};
ghost use Rattle.words_rounds.specs.Reading as reading;

use crate::line::{Line, line_in};
use crate::rounds::{Round, Rounds};
use base_types::{NoMemory, Seq, Text, Texts};
use std::alloc::Global;
use tree_files::Edit;

/// Where a reader is.
#[derive(Clone, Copy, Drop)]
pub(crate) enum Stage {
    /// Before the first line.
    First,
    /// Behind the first line, where no round has begun.
    Rounds,
    /// In a round that has no script yet.
    Edits,
    /// In a round that has a script.
    Scripts,
}

/// The rounds that are done, and what the open one has.
#[derive(Drop)]
pub(crate) struct Draft {
    pub(crate) stage: Stage,
    pub(crate) done: Seq<Round>,
    pub(crate) edits: Seq<Edit>,
    pub(crate) scripts: Texts,
    /// How many scripts stand in all rounds so far.
    pub(crate) count: u32,
}

pub(crate) fn start(alloc: Global) -> Draft
    ensures { result ≡ reading.start }
{
    Draft {
        stage: Stage::First,
        done: Seq::new(alloc),
        edits: Seq::new(alloc),
        scripts: Texts::new(alloc),
        count: 0,
    }
}

fn turned(stage: Stage, d: Draft) -> Option<Draft>
    ensures { result ≡ reading.turned stage d }
{
    Some(Draft {
        stage,
        done: d.done,
        edits: d.edits,
        scripts: d.scripts,
        count: d.count,
    })
}

fn with_round(alloc: Global, d: Draft) -> Result<Option<Draft>, NoMemory>
    ensures { IfOk result (λ o. o ≡ reading.with_round d) }
{
    if d.count >= 16 {
        return Ok(None);
    }
    let mut done = d.done;
    done.push(Round {
        edits: d.edits,
        scripts: d.scripts,
    })?;
    Ok(Some(Draft {
        stage: Stage::Edits,
        done,
        edits: Seq::new(alloc),
        scripts: Texts::new(alloc),
        count: d.count,
    }))
}

fn with_script(script: Text, d: Draft) -> Result<Option<Draft>, NoMemory>
    ensures { IfOk result (λ o. o ≡ reading.with_script script d) }
{
    if d.count >= 16 {
        return Ok(None);
    }
    let mut scripts = d.scripts;
    scripts.push(script)?;
    Ok(Some(Draft {
        stage: Stage::Scripts,
        done: d.done,
        edits: d.edits,
        scripts,
        count: d.count + 1,
    }))
}

fn with_edit(edit: Edit, d: Draft) -> Result<Option<Draft>, NoMemory>
    ensures { IfOk result (λ o. o ≡ reading.with_edit edit d) }
{
    let mut edits = d.edits;
    edits.push(edit)?;
    Ok(Some(Draft {
        stage: d.stage,
        done: d.done,
        edits,
        scripts: d.scripts,
        count: d.count,
    }))
}

fn at_rounds(line: Line, d: Draft) -> Option<Draft>
    ensures { result ≡ reading.at_rounds line d }
{
    match line {
        Line::Round => turned(Stage::Edits, d),
        _ => None,
    }
}

fn at_edits(line: Line, d: Draft) -> Result<Option<Draft>, NoMemory>
    ensures { IfOk result (λ o. o ≡ reading.at_edits line d) }
{
    match line {
        Line::Round => Ok(None),
        Line::Edit(edit) => with_edit(edit, d),
        Line::Script(script) => with_script(script, d),
    }
}

fn at_scripts(alloc: Global, line: Line, d: Draft) -> Result<Option<Draft>, NoMemory>
    ensures { IfOk result (λ o. o ≡ reading.at_scripts line d) }
{
    match line {
        Line::Round => with_round(alloc, d),
        Line::Edit(_edit) => Ok(None),
        Line::Script(script) => with_script(script, d),
    }
}

fn first(line: &[u8], d: Draft) -> Option<Draft>
    ensures { result ≡ reading.at_first line.now d }
{
    if line == b"pyimport-rounds 1".as_slice() {
        turned(Stage::Rounds, d)
    } else {
        None
    }
}

/// A line behind the first one.
fn further(alloc: Global, stage: Stage, line: Line, d: Draft) -> Result<Option<Draft>, NoMemory>
    ensures { IfOk result (λ o. o ≡ reading.further stage line d) }
{
    match stage {
        Stage::First => Ok(None),
        Stage::Rounds => Ok(at_rounds(line, d)),
        Stage::Edits => at_edits(line, d),
        Stage::Scripts => at_scripts(alloc, line, d),
    }
}

/// The draft with one line more, if a rounds file goes on with it.
pub(crate) fn next(alloc: Global, line: &[u8], d: Draft) -> Result<Option<Draft>, NoMemory>
    ensures { IfOk result (λ o. o ≡ reading.next line.now d) }
{
    match d.stage {
        Stage::First => Ok(first(line, d)),
        stage => match line_in(alloc, line)? {
            Some(line) => further(alloc, stage, line, d),
            None => Ok(None),
        },
    }
}

/// The rounds, where a file may end here and nothing stands behind the last line.
pub(crate) fn ended(rest: &[u8], d: Draft) -> Result<Option<Rounds>, NoMemory>
    ensures { IfOk result (λ o. reading.Ends o rest.now d) }
{
    if !rest.is_empty() {
        return Ok(None);
    }
    match d.stage {
        Stage::Scripts => {
            let mut list = d.done;
            list.push(Round {
                edits: d.edits,
                scripts: d.scripts,
            })?;
            Ok(Some(Rounds { list }))
        }
        _ => Ok(None),
    }
}
