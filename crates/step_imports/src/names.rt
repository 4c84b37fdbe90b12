//! Dotted names, and the names that are bound.
ghost use Rattle.std.specs.Prelude.{◌≡◌, ◌∷◌, ◌++◌, ◌+◌, ◌<◌, IfOk, drop, length, map};
ghost use Rattle.meaning_script.specs.ImportStatements as spec;

use base_types::{Exact, NoMemory, Seq, Text, Texts};
use py_frames::put_part;
use py_syntax::Alias;

/// A name with more parts behind it.
fn with_parts(front: &Text, parts: &[Text]) -> Result<Text, NoMemory>
    ensures { IfOk result (λ name. name ≡ spec.dotted_name (front.now ∷ parts.now)) }
{
    let mut name = front.copy()?;
    for part in parts {
        put_part(&mut name, part.as_str())?;
    }
    Ok(name)
}

/// The name that parts spell with dots between.
pub fn dotted_name(parts: &Texts) -> Result<Text, NoMemory>
    ensures { IfOk result (λ name. name ≡ spec.dotted_name parts.now) }
{
    match parts.as_slice() {
        [] => Ok(Text::new(parts.alloc())),
        [front, others @ ..] => with_parts(front, others),
    }
}

/// The name that an import binds.
pub fn bound_as(bound: &Option<Text>, name: &Text) -> Result<Text, NoMemory>
    ensures { IfOk result (λ it. it ≡ spec.bound_as bound.now name.now) }
{
    match bound {
        None => name.copy(),
        Some(bound) => bound.copy(),
    }
}

/// Whether a part is the last one.
pub fn is_last(parts: &Texts, at: usize) -> bool
    requires { at < length parts.now }
    ensures { result ≡ spec.is_last (drop (at + 1) parts.now) }
{
    let count = parts.len();
    at + 1 == count
}

/// The names of the items of a `from` statement.
pub fn item_names(items: &Seq<Alias>) -> Result<Texts, NoMemory>
    ensures { IfOk result (λ names. names ≡ spec.item_names items.now) }
{
    let mut names = Seq::new(items.alloc());
    for item in items.as_slice() {
        names.push(dotted_name(&item.parts)?)?;
    }
    Ok(names)
}
