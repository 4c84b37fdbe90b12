//! Calls of the tables, by what they are about, and what those calls share.
ghost use Rattle.std.specs.Prelude.{◌≡◌, Some, codes, IfOk, if◌then◌else◌};
ghost use Rattle.std.specs.Fmt.{decimal};

use crate::{cache, loads, modules, paths, reloads};
use base_types::{Seq, Text};
use module_table::Table;
use rows_words::{Row, RowError};
use spec_core::{Dotted, Spec, SpecKind};
use std::alloc::Global;

/// What comes of a call: a text, or nothing where it only changes the tables.
pub type Answered = Result<Option<Text>, RowError>;

/// An answer that is this text. An `Err` comes for want of memory alone.
pub fn text(alloc: Global, of: &str) -> Answered
    ensures { IfOk result (λ it. it ≡ Some of.now) }
{
    Ok(Some(Text::from_str(alloc, of)?))
}

/// An answer that is `yes` or `no`. An `Err` comes for want of memory alone.
pub fn yes(alloc: Global, answer: bool) -> Answered
    ensures { IfOk result (λ it. it ≡ Some (if answer then codes "yes" else codes "no")) }
{
    text(alloc, if answer { "yes" } else { "no" })
}

/// An answer that is a number, in decimal digits. An `Err` comes for want of memory alone.
pub fn number(alloc: Global, number: u64) -> Answered
    ensures { IfOk result (λ it. it ≡ Some (decimal number)) }
{
    Ok(Some(Text::from_string(format!(in alloc; "{number}")?)?))
}

/// The dotted name that comes next. `Unknown` where what stands there is none.
pub fn dotted(alloc: Global, row: &mut Row<'_>) -> Result<Dotted, RowError> {
    Dotted::read(&row.text(alloc)?)?.ok_or(RowError::Unknown)
}

/// A module of the name that comes next, in `file.py`.
pub fn source(alloc: Global, row: &mut Row<'_>) -> Result<Spec, RowError> {
    let name = dotted(alloc, row)?;
    let file = Text::from_str(alloc, "file.py")?;
    Ok(Spec::of(name, SpecKind::Source { file })?)
}

/// A text of this many line ends.
pub fn lines(alloc: Global, many: u32) -> Result<Seq<u8>, RowError> {
    let mut bytes = Seq::new(alloc);
    for _ in 0..many {
        bytes.push(b'\n')?;
    }
    Ok(bytes)
}

/// `N by T`: a number, and the thread.
pub fn by(row: &mut Row<'_>) -> Result<(u32, u32), RowError> {
    let number = row.small()?;
    row.must("by ")?;
    Ok((number, row.small()?))
}

fn end(table: &mut Table, thread: u32) -> Answered {
    table.end(thread)?;
    Ok(None)
}

/// Calls on the ends of threads.
fn ends(alloc: Global, table: &mut Table, row: &mut Row<'_>) -> Answered {
    if row.takes("ended ") {
        return yes(alloc, table.ended(row.small()?));
    }
    row.must("end ")?;
    end(table, row.small()?)
}

/// A call of the tables.
pub fn answer(alloc: Global, table: &mut Table, row: &mut Row<'_>) -> Answered {
    match row.word()? {
        "cache" => cache::answer(alloc, table, row),
        "thread" => ends(alloc, table, row),
        "reload" => reloads::answer(alloc, table, row),
        "load" => loads::answer(alloc, table, row),
        "module" => modules::answer(alloc, table, row),
        "path" => paths::answer(alloc, table, row),
        _ => Err(RowError::Unknown),
    }
}
