//! What one thread sees of a history.
ghost use Rattle.std.specs.Prelude.{◌≡◌, map, IfOk};
ghost use Rattle.machine_events.specs.declared.event.Pair.{Pair};
ghost use Rattle.machine_shown.specs.Own as knowledge;

use base_types::{Exact, NoMemory, Seq};
use machine_events::{Entry, Pair};
use std::alloc::Global;

/// The event of an entry with its reply.
fn pair_of(entry: &Entry) -> Result<Pair, NoMemory>
    ensures { IfOk result (λ pair. pair ≡ record { event = entry.now.event; reply = entry.now.reply }) }
{
    let reply = entry.reply.copy()?;
    match entry.event.copy() {
        Ok(event) => Ok(Pair { event, reply }),
        Err(e) => {
            drop(reply);
            Err(e)
        }
    }
}

/// The events of one thread with their replies, in their order.
pub fn own(alloc: Global, entries: &[Entry], t: u32) -> Result<Seq<Pair>, NoMemory>
    ensures { IfOk result (λ pairs. map (λ (p : Pair). (p.event, p.reply)) pairs ≡ knowledge.own t entries.now) }
{
    let mut pairs = Seq::new(alloc);
    for entry in entries {
        if entry.thread == t {
            pairs.push(pair_of(entry)?)?;
        }
    }
    Ok(pairs)
}
