//! The index of a bundle.
ghost use Rattle.std.specs.Prelude.{◌≡◌, ◌≢◌, ◌≤◌, ◌+◌, length, min, IfOk, MatchOption};
ghost use Rattle.bundle_hook.specs.Spelling.{most_front};
ghost use Rattle.bundle_hook.specs.Bundle.{Reads, items_from, sizes};

use crate::bundle::{Index, Item};
use crate::entry::Entry;
use crate::read::front_in;
use base_types::{Exact, NoMemory, Seq};
use std::alloc::Global;

/// The files of a bundle whose data begin at `head`, where they fill a file of this size.
#[tactic(auto, using(crate::proofs::Indexed::placings))]
fn items_of(head: u64, size: u64, entries: &Seq<Entry>) -> Result<Option<Seq<Item>>, NoMemory>
    requires { head ≤ size }
    ensures { IfOk result (λ o. MatchOption o (head + sizes entries.now ≢ size)
        (λ items. (head + sizes entries.now ≡ size) × (items ≡ items_from head entries.now))) }
{
    let mut items = Seq::new(entries.alloc());
    let mut left = size - head;
    for entry in entries.as_slice() {
        if left < entry.size {
            return Ok(None);
        }
        let path = entry.path.copy()?;
        let at = size - left;
        items.push(Item {
            path,
            at,
            size: entry.size,
        })?;
        left -= entry.size;
    }
    if left != 0 {
        return Ok(None);
    }
    Ok(Some(items))
}

/// The index of a bundle, from the first 1,048,576 bytes of a file of this size, or all of a shorter one. None exactly
/// where the file is no bundle.
pub fn read_index(alloc: Global, front: &[u8], size: u64) -> Result<Option<Index>, NoMemory>
    requires { length front.now ≡ min size most_front }
    ensures { IfOk result (Reads front.now size) }
{
    let Some((entries, left)) = front_in(alloc, front)? else {
        return Ok(None);
    };
    let head = (front.len() - left) as u64;
    match items_of(head, size, &entries)? {
        Some(items) => Ok(Some(Index { head, items })),
        None => Ok(None),
    }
}
