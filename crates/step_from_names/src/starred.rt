//! The names that a star stands for.
ghost use Rattle.std.specs.Prelude.{◌≡◌, ◌==◌, ◌∷◌, ◌++◌, [], IfOk, OnOk, if◌then◌else◌, true};
ghost use Rattle.std.specs.List.{filter, list_any};
ghost use Rattle.std.specs.Option.{option_copied};
ghost use Rattle.py_value.specs.declared.value.Value.{out-Value};
ghost use Rattle.spec_core.specs.Identifiers as identifiers;
ghost use Rattle.meaning_script.specs.ImportStatements as spec;

use base_types::{Exact, NoMemory, Seq, Text, Texts};
use py_value::{Items, Value};
use spec_core::Dotted;

/// The text that a value is.
fn text_of(value: &Value) -> Option<&Text>
    ensures { option_copied result ≡ spec.package_at (out-Value value.now) }
{
    match value {
        Value::Text(text) => Some(text),
        _ => None,
    }
}

/// Puts a text last.
fn put_text(texts: &mut Texts, text: &Text) -> Result<(), NoMemory>
    ensures { OnOk result (texts.new ≡ texts.old ++ (text.now ∷ [])) }
{
    texts.push(text.copy()?)
}

/// The texts that values are. None where one of them is no text.
fn texts_in(values: &Items) -> Result<Option<Texts>, NoMemory>
    ensures { IfOk result (λ texts. texts ≡ spec.texts_in values.now) }
{
    let mut texts = Seq::new(values.alloc());
    for value in values.as_slice() {
        let Some(text) = text_of(value) else {
            drop(texts);
            return Ok(None);
        };
        put_text(&mut texts, text)?;
    }
    Ok(Some(texts))
}

/// The names that a module's `__all__` lists. None where it is no list or tuple of texts.
pub fn all_names(value: &Value) -> Result<Option<Texts>, NoMemory>
    ensures { IfOk result (λ names. names ≡ spec.all_names (out-Value value.now)) }
{
    match value {
        Value::List(items) | Value::Tuple(items) => texts_in(items),
        _ => Ok(None),
    }
}

/// Whether a text is a dotted name.
fn is_dotted(name: &Text) -> Result<bool, NoMemory>
    ensures { IfOk result (λ it. it ≡ identifiers.is_dotted name.now) }
{
    match Dotted::read(name)? {
        None => Ok(false),
        Some(name) => {
            drop(name);
            Ok(true)
        }
    }
}

/// Whether a dot stands in a name.
fn has_dot(name: &Text) -> bool
    ensures { result ≡ list_any (λ b. b == 46) name.now }
{
    name.as_bytes().contains(&b'.')
}

/// Whether a name is a dotted name of one part.
fn is_one_part(name: &Text) -> Result<bool, NoMemory>
    ensures { IfOk result (λ it. it ≡ spec.is_one_part name.now) }
{
    if !is_dotted(name)? {
        return Ok(false);
    }
    Ok(!has_dot(name))
}

/// Whether a star stands for a name where the module has no `__all__`.
fn is_public(name: &Text) -> bool
    ensures { result ≡ spec.is_public name.now }
{
    match name.as_bytes() {
        [] => true,
        [first, ..] => *first != b'_',
    }
}

/// Puts a name last where it is to be kept.
fn keep_if(kept: &mut Texts, name: &Text, is_kept: bool) -> Result<(), NoMemory>
    ensures { OnOk result (kept.new ≡ kept.old ++ (if is_kept then name.now ∷ [] else [])) }
{
    if is_kept {
        kept.push(name.copy()?)?;
    }
    Ok(())
}

/// The names of one part, which can be those of submodules.
pub fn one_part_names(names: &Texts) -> Result<Texts, NoMemory>
    ensures { IfOk result (λ kept. kept ≡ filter spec.is_one_part names.now) }
{
    let mut kept = Seq::new(names.alloc());
    for name in names.as_slice() {
        let is_kept = is_one_part(name)?;
        keep_if(&mut kept, name, is_kept)?;
    }
    Ok(kept)
}

/// The names that a star stands for where the module has no `__all__`.
pub fn public_names(names: &Texts) -> Result<Texts, NoMemory>
    ensures { IfOk result (λ kept. kept ≡ filter spec.is_public names.now) }
{
    let mut kept = Seq::new(names.alloc());
    for name in names.as_slice() {
        keep_if(&mut kept, name, is_public(name))?;
    }
    Ok(kept)
}
