//! Parts of the trees of statements that import.
ghost use Rattle.std.specs.Prelude.{◌≡◌, None, Some, MatchOption, slice_get};
ghost use Rattle.std.specs.Option.{option_copied};
ghost use Rattle.py_frames.specs.Does.{aliases_of, items_of, listed_in};
ghost use Rattle.step_imports.specs.Parts as parts;

use base_types::{Seq, Text, Texts};
use py_syntax::{Alias, ImportedNames, Stmt};

/// A module that an `import` names, by its place. None where the statement names no more.
pub fn alias_at(stmts: &Seq<Stmt>, at: usize, place: usize) -> Option<&Alias>
    ensures { option_copied result ≡ slice_get (aliases_of (slice_get stmts.now at)) place }
{
    match stmts.get(at) {
        Some(Stmt::Import(aliases)) => aliases.get(place),
        _ => None,
    }
}

/// The first part of its dotted name.
pub fn front_at(stmts: &Seq<Stmt>, at: usize, place: usize) -> Option<&Text>
    ensures { option_copied result ≡ parts.front_of (slice_get (aliases_of (slice_get stmts.now at)) place) }
{
    match alias_at(stmts, at, place) {
        Some(alias) => alias.parts.get(0),
        None => None,
    }
}

/// What a `from` statement says: its dots, its parts and its names. None for any other statement.
pub fn from_at(stmts: &Seq<Stmt>, at: usize) -> Option<(u32, &Texts, &ImportedNames)>
    ensures { MatchOption result (parts.from_of (slice_get stmts.now at) ≡ None)
        (λ it. parts.from_of (slice_get stmts.now at) ≡ Some (it.0, it.1.now, it.2.now)) }
{
    match stmts.get(at) {
        Some(Stmt::From(dots, parts, names)) => Some((*dots, parts, names)),
        _ => None,
    }
}

fn listed(names: &ImportedNames, place: usize) -> Option<&Alias>
    ensures { option_copied result ≡ slice_get (listed_in names.now) place }
{
    match names {
        ImportedNames::Listed(items) => items.get(place),
        ImportedNames::All => None,
    }
}

/// An item of a `from` statement, by its place. None where the statement lists no more.
pub fn item_at(stmts: &Seq<Stmt>, at: usize, place: usize) -> Option<&Alias>
    ensures { option_copied result ≡ slice_get (items_of (slice_get stmts.now at)) place }
{
    match stmts.get(at) {
        Some(Stmt::From(_, _, names)) => listed(names, place),
        _ => None,
    }
}
