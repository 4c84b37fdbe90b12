//! Lists of texts, specs, states of namespaces and tree paths.
ghost use Rattle.std.specs.Prelude.{◌≡◌, codes, IfOk};
ghost use Rattle.std.specs.Str.{bytes_eq};
ghost use Rattle.base_spelling.specs.Read.{text_in};
ghost use Rattle.trace_fields.specs.Splitting.{views};
ghost use Rattle.trace_fields.specs.Parts.{each};
ghost use Rattle.trace_fields.specs.Values as values;

use crate::parts::{between, items, three_in, two_in};
use crate::value::values_in;
use base_spelling::{read_number, read_quoted};
use base_types::{NoMemory, Text, Texts, TreePath};
use py_value::NsState;
use spec_core::SpecKind;
use std::alloc::Global;

fn each_text(alloc: Global, pieces: &[&[u8]]) -> Result<Option<Texts>, NoMemory>
    ensures { IfOk result (λ o. o ≡ each text_in (views pieces.now)) }
{
    let mut texts = Texts::new(alloc);
    for i in 0..pieces.len() {
        match read_quoted(alloc, pieces[i])? {
            Some(text) => texts.push(text)?,
            None => return Ok(None),
        }
    }
    Ok(Some(texts))
}

/// The texts in brackets that a field spells.
pub fn texts_in(alloc: Global, field: &[u8]) -> Result<Option<Texts>, NoMemory>
    ensures { IfOk result (λ o. o ≡ values.texts_in field.now) }
{
    match between(b"[", b']', field) {
        Some(inside) => {
            let pieces = items(alloc, inside)?;
            each_text(alloc, pieces.as_slice())
        }
        None => Ok(None),
    }
}

fn source_kind_in(alloc: Global, field: &[u8]) -> Result<Option<SpecKind>, NoMemory>
    ensures { IfOk result (λ o. o ≡ values.source_kind_in field.now) }
{
    let Some(inside) = between(b"file(", b')', field) else {
        return Ok(None);
    };
    match read_quoted(alloc, inside)? {
        Some(file) => Ok(Some(SpecKind::Source { file })),
        None => Ok(None),
    }
}

fn package_of(alloc: Global, file: &[u8], path: &[u8]) -> Result<Option<SpecKind>, NoMemory>
    ensures { IfOk result (λ o. o ≡ values.package_of (file.now, path.now)) }
{
    let Some(file) = read_quoted(alloc, file)? else {
        return Ok(None);
    };
    match texts_in(alloc, path)? {
        Some(path) => Ok(Some(SpecKind::Package { file, path })),
        None => Ok(None),
    }
}

fn package_kind_in(alloc: Global, field: &[u8]) -> Result<Option<SpecKind>, NoMemory>
    ensures { IfOk result (λ o. o ≡ values.package_kind_in field.now) }
{
    match two_in(alloc, b"package(", field)? {
        Some((a, b)) => package_of(alloc, a, b),
        None => Ok(None),
    }
}

fn namespace_kind_in(alloc: Global, field: &[u8]) -> Result<Option<SpecKind>, NoMemory>
    ensures { IfOk result (λ o. o ≡ values.namespace_kind_in field.now) }
{
    let Some(inside) = between(b"namespace(", b')', field) else {
        return Ok(None);
    };
    match texts_in(alloc, inside)? {
        Some(path) => Ok(Some(SpecKind::Namespace { path })),
        None => Ok(None),
    }
}

/// What a spec has behind its name: `file(TEXT)`, `package(TEXT,[..])` or `namespace([..])`.
#[tactic(auto, unfolding(crate::specs::Values::spec_kind_in))]
pub fn spec_kind_in(alloc: Global, field: &[u8]) -> Result<Option<SpecKind>, NoMemory>
    ensures { IfOk result (λ o. o ≡ values.spec_kind_in field.now) }
{
    if let Some(kind) = source_kind_in(alloc, field)? {
        return Ok(Some(kind));
    }
    if let Some(kind) = package_kind_in(alloc, field)? {
        return Ok(Some(kind));
    }
    namespace_kind_in(alloc, field)
}

fn state_of(
    alloc: Global,
    parent: &[u8],
    epoch: &[u8],
    portions: &[u8],
) -> Result<Option<NsState>, NoMemory>
    ensures { IfOk result (λ o. o ≡ values.state_of (parent.now, epoch.now, portions.now)) }
{
    let Some(parent_path) = values_in(alloc, parent)? else {
        return Ok(None);
    };
    let Some(epoch) = read_number(epoch) else {
        return Ok(None);
    };
    match texts_in(alloc, portions)? {
        Some(portions) => Ok(Some(NsState::of(parent_path, epoch, portions)?)),
        None => Ok(None),
    }
}

/// The state of a namespace that a field spells.
#[tactic(auto, unfolding(crate::specs::Values::state_in))]
pub fn state_in(alloc: Global, field: &[u8]) -> Result<Option<NsState>, NoMemory>
    ensures { IfOk result (λ o. o ≡ values.state_in field.now) }
{
    match three_in(alloc, b"ns(", field)? {
        Some((a, b, c)) => state_of(alloc, a, b, c),
        None => Ok(None),
    }
}

/// Whether the text is the other name of the root.
fn is_dot(text: &[u8]) -> bool
    ensures { result ≡ bytes_eq text.now (codes ".") }
{
    text == b".".as_slice()
}

/// The tree path that a text is, unless it is spelled in another way.
fn tree_path_of(text: &Text) -> Result<Option<TreePath>, NoMemory>
    ensures { IfOk result (λ o. o ≡ values.tree_path_of text.now) }
{
    if is_dot(text.as_bytes()) {
        return Ok(None);
    }
    TreePath::read(text)
}

/// The tree path, joined by `/`, that a field holds as a text.
#[tactic(auto, unfolding(crate::specs::Values::tree_path_in))]
pub fn tree_path_in(alloc: Global, field: &[u8]) -> Result<Option<TreePath>, NoMemory>
    ensures { IfOk result (λ o. o ≡ values.tree_path_in field.now) }
{
    match read_quoted(alloc, field)? {
        Some(text) => tree_path_of(&text),
        None => Ok(None),
    }
}
