//! Made workloads. `scripts SEED MODULES SCRIPTS` tells the files of the scripts, and `file SEED MODULES SCRIPTS FILE`
//! what a file of the workload holds.

use base_spelling::write_source;
use base_types::{Text, TreePath};
use path_finder::load_text;
use program_gen::{Made, generate};
use rows_words::{Row, RowError};
use std::alloc::Global;
use tree_files::{MemTree, Stamp, Tree};

fn made(alloc: Global, row: &mut Row<'_>) -> Result<Made, RowError> {
    let seed = row.number()?;
    let modules = row.small()?;
    let scripts = row.small()?;
    if modules == 0 {
        return Err(RowError::Unknown);
    }
    Ok(generate(alloc, seed, modules, scripts)?)
}

fn scripts(alloc: Global, row: &mut Row<'_>) -> Result<Text, RowError> {
    let made = made(alloc, row)?;
    let mut names = Text::new(alloc);
    for name in made.scripts.as_slice() {
        if names.len() > 0 {
            names.push_str(" ")?;
        }
        names.push_str(name.as_str())?;
    }
    Ok(names)
}

fn text_at(alloc: Global, tree: &mut MemTree, path: &TreePath) -> Result<Text, RowError> {
    let Ok(Stamp::File(_)) = tree.stamp(path) else {
        return Ok(Text::from_str(alloc, "none")?);
    };
    match load_text(alloc, tree, path) {
        Ok(text) => Ok(write_source(Text::new(alloc), text.as_slice())?),
        Err(_) => Err(RowError::Unknown),
    }
}

fn file(alloc: Global, row: &mut Row<'_>) -> Result<Text, RowError> {
    let mut made = made(alloc, row)?;
    let name = Text::from_str(alloc, row.word()?)?;
    match TreePath::read(&name)? {
        Some(path) => text_at(alloc, &mut made.tree, &path),
        None => Err(RowError::Unknown),
    }
}

/// What a row is answered.
pub fn answer(alloc: Global, row: &mut Row<'_>) -> Result<Option<Text>, RowError> {
    if row.takes("scripts") {
        Ok(Some(scripts(alloc, row)?))
    } else if row.takes("file") {
        Ok(Some(file(alloc, row)?))
    } else {
        Err(RowError::Unknown)
    }
}
