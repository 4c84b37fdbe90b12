//! Dotted names, identifiers, relative names, packages, and maps by name and by number.
ghost use Rattle.std.specs.Prelude.{◌≡◌, ◌∷◌, [], codes};
ghost use Rattle.std.specs.List.{list_any};
ghost use Rattle.std.specs.Str.{bytes_eq};

use base_types::{Exact, Text, Texts, TreePath};
use rows_words::{Row, RowError};
use spec_core::{
    Dotted, NameMap, NumberMap, PathMap, RelativeError, Spec, SpecKind, ident_of, is_ident,
    is_keyword, package_of, resolve,
};
use std::alloc::Global;

/// Whether the word is that of a call that is answered here: one on names, on paths or on maps.
pub fn is_call(word: &str) -> bool
    ensures { result ≡ list_any (bytes_eq word.now)
        (codes "dotted" ∷ codes "tail" ∷ codes "front" ∷ codes "parent" ∷
        codes "child" ∷ codes "identifier" ∷ codes "normal" ∷ codes "keyword" ∷
        codes "resolve" ∷ codes "package" ∷ codes "map" ∷ codes "path" ∷ []) }
{
    matches!(
        word,
        "dotted"
            | "tail"
            | "front"
            | "parent"
            | "child"
            | "identifier"
            | "normal"
            | "keyword"
            | "resolve"
            | "package"
            | "map"
            | "path"
    )
}

fn text(alloc: Global, text: &str) -> Result<Text, RowError> {
    Ok(Text::from_str(alloc, text)?)
}

fn yes(alloc: Global, answer: bool) -> Result<Text, RowError> {
    text(alloc, if answer { "yes" } else { "no" })
}

fn dotted(alloc: Global, row: &mut Row<'_>) -> Result<Dotted, RowError> {
    Dotted::read(&row.text(alloc)?)?.ok_or(RowError::Unknown)
}

fn parent(alloc: Global, name: &Dotted) -> Result<Text, RowError> {
    match name.parent() {
        Some(parent) => Ok(parent.own()?.owned()?),
        None => text(alloc, "none"),
    }
}

/// The name with the front of another behind it.
fn child(name: &Dotted, other: &Dotted) -> Result<Text, RowError> {
    let part = Text::from_str(name.alloc(), other.front())?;
    Ok(name.child(&part)?.owned()?)
}

/// The name that is meant by the dots and the name behind them in this package.
fn meant(
    alloc: Global,
    package: Option<&Text>,
    level: u32,
    name: Option<&Dotted>,
) -> Result<Text, RowError> {
    if level == 0 {
        return Err(RowError::Unknown);
    }
    match resolve(package, level, name) {
        Ok(it) => Ok(it.owned()?),
        Err(RelativeError::NoParent) => text(alloc, "no parent"),
        Err(RelativeError::BeyondTop) => text(alloc, "beyond top"),
        Err(RelativeError::NoMemory) => Err(RowError::NoMemory),
    }
}

/// `in PACKAGE` or `in none`, and `level N`, and maybe a name.
fn relative(alloc: Global, row: &mut Row<'_>) -> Result<Text, RowError> {
    let has_package = !row.takes("none");
    let package = if has_package {
        row.text(alloc)?
    } else {
        Text::new(alloc)
    };
    row.must("level ")?;
    let level = row.small()?;
    let place = if has_package { Some(&package) } else { None };
    if row.is_done() {
        return meant(alloc, place, level, None);
    }
    let name = dotted(alloc, row)?;
    meant(alloc, place, level, Some(&name))
}

/// The package of a module of this kind and name.
fn package(alloc: Global, row: &mut Row<'_>) -> Result<Text, RowError> {
    let kind = match row.word()? {
        "builtin" => SpecKind::Builtin,
        "namespace" => SpecKind::Namespace {
            path: Texts::new(alloc),
        },
        "module" => SpecKind::Source {
            file: Text::new(alloc),
        },
        "package" => SpecKind::Package {
            file: Text::new(alloc),
            path: Texts::new(alloc),
        },
        _ => return Err(RowError::Unknown),
    };
    let name = dotted(alloc, row)?;
    let spec = Spec::of(name, kind)?;
    text(alloc, package_of(&spec))
}

fn told(alloc: Global, got: Option<u32>, taken: Option<u32>) -> Result<Text, RowError> {
    Ok(Text::from_string(format!(in alloc; "{got:?}, taken {taken:?}")?)?)
}

fn name_map(alloc: Global, row: &mut Row<'_>) -> Result<Text, RowError> {
    let name = dotted(alloc, row)?;
    let mut map = NameMap::new(alloc);
    map.insert(name.copy()?, row.small()?)?;
    let asked = dotted(alloc, row)?;
    let got = map.get(&asked).copied();
    told(alloc, got, map.remove(&asked))
}

fn tree_path(alloc: Global, row: &mut Row<'_>) -> Result<TreePath, RowError> {
    TreePath::read(&row.text(alloc)?)?.ok_or(RowError::Unknown)
}

fn path_map(alloc: Global, row: &mut Row<'_>) -> Result<Text, RowError> {
    let path = tree_path(alloc, row)?;
    let mut map = PathMap::new(alloc);
    map.insert(path.copy()?, row.small()?)?;
    let asked = tree_path(alloc, row)?;
    let got = map.get(&asked).copied();
    told(alloc, got, map.remove(&asked))
}

fn number_map(alloc: Global, row: &mut Row<'_>) -> Result<Text, RowError> {
    let key = row.small()?;
    let mut map = NumberMap::new(alloc);
    map.insert(key, row.small()?)?;
    let asked = row.small()?;
    let got = map.get(asked).copied();
    told(alloc, got, map.remove(asked))
}

/// What a map of one entry holds at a key, and what is taken out of it.
fn map(alloc: Global, row: &mut Row<'_>) -> Result<Text, RowError> {
    match row.word()? {
        "name" => name_map(alloc, row),
        "path" => path_map(alloc, row),
        "number" => number_map(alloc, row),
        _ => Err(RowError::Unknown),
    }
}

/// A tree path as it is written again.
fn path(alloc: Global, row: &mut Row<'_>) -> Result<Text, RowError> {
    match TreePath::read(&row.text(alloc)?)? {
        Some(path) => {
            let parts = path.parts().len();
            let text = path.text()?;
            let text = text.as_str();
            Ok(Text::from_string(format!(in alloc; "{text}, {parts} parts")?)?)
        }
        None => text(alloc, "refused"),
    }
}

fn on_name(alloc: Global, call: &str, row: &mut Row<'_>) -> Result<Text, RowError> {
    let name = dotted(alloc, row)?;
    match call {
        "tail" => text(alloc, name.tail()),
        "front" => text(alloc, name.front()),
        "parent" => parent(alloc, &name),
        "child" => child(&name, &dotted(alloc, row)?),
        _ => Err(RowError::Unknown),
    }
}

/// What the call answers.
pub fn answer(alloc: Global, call: &str, row: &mut Row<'_>) -> Result<Text, RowError> {
    match call {
        "resolve" => relative(alloc, row),
        "package" => package(alloc, row),
        "map" => map(alloc, row),
        "path" => path(alloc, row),
        "dotted" => yes(alloc, Dotted::read(&row.text(alloc)?)?.is_some()),
        "identifier" => yes(alloc, is_ident(&row.text(alloc)?)),
        "normal" => Ok(ident_of(&row.text(alloc)?)?),
        "keyword" => yes(alloc, is_keyword(row.text(alloc)?.as_str())),
        _ => on_name(alloc, call, row),
    }
}
