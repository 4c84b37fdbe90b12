//! What the reply to an event costs.
ghost use Rattle.std.specs.Prelude.{◌≡◌, ◌+◌, ◌-◌, ◌^◌, ◌/◌, length, map, min};
ghost use Rattle.std.specs.List.{sum};
ghost use Rattle.py_value.specs.Measures.{size_of};
ghost use Rattle.meaning_script.specs.Pieces.{reply_units, texts_size, text_units};

use base_types::Texts;
use machine_events::Reply;
use py_value::{Items, size};

/// The number of items and their sizes. Where that is more than a u64 holds, the greatest u64.
fn items_size(items: &Items) -> u64
    ensures { result ≡ min (length items.now + sum (map size_of items.now)) (2 ^ 64 - 1) }
{
    let mut units = 0_u64;
    for item in items.as_slice() {
        units = units.saturating_add(1).saturating_add(size(item));
    }
    units
}

/// The number of texts and the whole 64 bytes of each. Where that is more than a u64 holds, the
/// greatest u64.
pub fn texts_size(texts: &Texts) -> u64
    ensures { result ≡ min (texts_size texts.now) (2 ^ 64 - 1) }
{
    let mut units = 0_u64;
    for text in texts.as_slice() {
        units = units
            .saturating_add(1)
            .saturating_add((text.len() / 64) as u64);
    }
    units
}

/// What the reply to an event costs.
pub fn reply_units(reply: &Reply) -> u64
    ensures { result ≡ reply_units reply.now }
{
    match reply {
        Reply::Value(value) => size(value),
        Reply::Path(items) => items_size(items),
        Reply::Names(names) => texts_size(names),
        Reply::Loaded(_, text) => (text.len() / 64) as u64,
        Reply::Yours(_, text) => (text.len() / 64) as u64,
        Reply::Ns(state, _) => {
            items_size(state.parent_path()).saturating_add(texts_size(state.portions()))
        }
        Reply::Module(_)
        | Reply::Cycle(_)
        | Reply::Halted
        | Reply::Missing
        | Reply::Deadlock
        | Reply::Wait(_)
        | Reply::Mine(_)
        | Reply::Woken
        | Reply::Load(_, _)
        | Reply::Kept(_)
        | Reply::Lost
        | Reply::LostParent
        | Reply::Unset(_)
        | Reply::Sleeping
        | Reply::Fixed
        | Reply::Full
        | Reply::Slot(_)
        | Reply::Was(_)
        | Reply::NotThere
        | Reply::Busy(_)
        | Reply::Begun(_)
        | Reply::NoListing
        | Reply::Listing(_, _, _)
        | Reply::Ready
        | Reply::Done => 0,
    }
}
