//! Lists that are joined.

ghost use Rattle.std.specs.Prelude.{◌≡◌, ◌++◌, IfOk};

use base_types::{NoMemory, Seq};

/// The items of both lists. It takes time by the length of the second.
pub fn joined<T: Drop>(found: Seq<T>, more: Seq<T>) -> Result<Seq<T>, NoMemory>
    ensures { IfOk result (λ it. it ≡ found ++ more) }
{
    let mut all = found;
    for item in more.into_vec() {
        all.push(item)?;
    }
    Ok(all)
}
