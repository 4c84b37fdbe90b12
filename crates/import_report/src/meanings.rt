//! What names mean, as it is written.
ghost use Rattle.std.specs.Prelude.{◌≡◌, ◌++◌, IfOk, codes};
ghost use Rattle.import_report.specs.Lines as spec;
ghost use Rattle.path_finder.specs.Entries.{text_of};

use crate::{Meaning, entries};
use base_types::{Exact, NoMemory, Text, Texts};
use py_value::{Applied, Value};
use std::alloc::Global;
use value_texts::repr_of;

/// Whether a name that means this is found.
pub fn is_found(means: &Meaning) -> bool
    ensures { result ≡ spec.is_found means.now }
{
    match means {
        Meaning::Missing(_) | Meaning::NotPackage(_) => false,
        _ => true,
    }
}

/// Whether a name that means this may have submodules.
pub fn is_package(means: &Meaning) -> bool
    ensures { result ≡ spec.is_package means.now }
{
    match means {
        Meaning::Package { .. } | Meaning::Namespace(_) => true,
        _ => false,
    }
}

/// The text that a value is, and none of any other.
fn value_text(alloc: Global, value: Value) -> Text
    ensures { result ≡ spec.text_or_empty (text_of value) }
{
    match value {
        Value::Text(text) => text,
        other => {
            drop(other);
            Text::new(alloc)
        }
    }
}

/// The text of what an operator gives.
fn applied_text(alloc: Global, applied: Applied) -> Result<Text, NoMemory>
    ensures { IfOk result (λ text. text ≡ spec.applied_text applied) }
{
    match applied {
        Applied::Value(value) => Ok(value_text(alloc, value)),
        Applied::Raised(error) => error.text().copy(),
    }
}

/// The list of portions as `repr` writes it.
fn portions_text(portions: &Texts) -> Result<Text, NoMemory>
    ensures { IfOk result (λ text. text ≡ spec.portions_text portions.now) }
{
    let list = Value::List(entries(portions)?);
    let applied = repr_of(portions.alloc(), &list)?;
    applied_text(portions.alloc(), applied)
}

/// A word before a text.
fn behind_word(alloc: Global, word: &str, text: &str) -> Result<Text, NoMemory>
    ensures { IfOk result (λ it. it ≡ word.now ++ text.now) }
{
    let mut whole = Text::from_str(alloc, word)?;
    whole.push_str(text)?;
    Ok(whole)
}

/// What a name means, as it is written.
pub fn meaning_text(alloc: Global, means: &Meaning) -> Result<Text, NoMemory>
    ensures { IfOk result (λ text. text ≡ spec.meaning_text means.now) }
{
    match means {
        Meaning::Builtin => Text::from_str(alloc, "builtin"),
        Meaning::Module(file) => file.copy(),
        Meaning::Package { file, path: _ } => behind_word(alloc, "package ", file.as_str()),
        Meaning::Namespace(portions) => {
            let list = portions_text(portions)?;
            behind_word(alloc, "namespace ", list.as_str())
        }
        Meaning::Missing(name) => behind_word(alloc, "missing ", name.as_str()),
        Meaning::NotPackage(name) => behind_word(alloc, "not a package ", name.as_str()),
    }
}
