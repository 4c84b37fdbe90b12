//! Lists that grow at their end.

ghost use Rattle.std.specs.Prelude.{◌≡◌, [], ◌∷◌, ◌++◌, IfOk};

use base_types::{NoMemory, Seq};
use std::alloc::Global;

/// A list of one item.
pub fn one<T: Drop>(alloc: Global, item: T) -> Result<Seq<T>, NoMemory>
    ensures { IfOk result (λ it. it ≡ item ∷ []) }
{
    let mut found = Seq::new(alloc);
    found.push(item)?;
    Ok(found)
}

/// The list with one more item, which comes last.
pub fn with<T: Drop>(found: Seq<T>, item: T) -> Result<Seq<T>, NoMemory>
    ensures { IfOk result (λ it. it ≡ found ++ item ∷ []) }
{
    let mut more = found;
    more.push(item)?;
    Ok(more)
}
