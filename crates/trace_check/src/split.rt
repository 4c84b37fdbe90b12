//! A history that is handed on: what each thread makes of it.
ghost use Rattle.std.specs.Prelude.{◌≡◌, ◌∷◌, [], ◌++◌, ℕ, IfOk, OnOk};
ghost use Rattle.machine_shown.specs.Own as knowledge;
ghost use Rattle.trace_check.specs.Threads.{pairs_of, AreOwn};

use base_types::{NoMemory, Seq};
use machine_events::{Entry, Pair};
use std::alloc::Global;

/// Gives back the room behind entries, where it is more than an eighth of all.
fn give_back(entries: &mut Vec<Entry>)
    ensures { entries.new.items ≡ entries.old.items }
{
    let room = entries.capacity();
    if entries.len() < room - room / 8 {
        entries.shrink_to_fit();
    }
}

/// Puts an entry last: to the pairs, if it is of this thread, and else to the others.
#[tactic(auto, using(crate::proofs::Splitting::put_pair, crate::proofs::Splitting::put_none, crate::proofs::Splitting::put_other, crate::proofs::Splitting::put_not))]
fn put(
    entry: Entry,
    t: usize,
    pairs: &mut Seq<Pair>,
    others: &mut Vec<Entry>,
) -> Result<(), NoMemory>
    ensures pairs { OnOk result (pairs_of pairs.new ≡ pairs_of pairs.old ++ knowledge.own t (entry ∷ [])) }
    ensures others { OnOk result ((u : ℕ) → (u ≡ t → ⊥)
        → knowledge.own u others.new.items ≡ knowledge.own u others.old.items ++ knowledge.own u (entry ∷ [])) }
{
    if entry.thread as usize != t {
        others.push(entry)?;
        return Ok(());
    }
    pairs.push(Pair {
        event: entry.event,
        reply: entry.reply,
    })?;
    Ok(())
}

/// The events of one thread with their replies, in their order, and the entries of the others. Each
/// entry is moved, and its room is given back, so that nothing is held twice.
fn split_own(
    alloc: Global,
    entries: Vec<Entry>,
    t: usize,
) -> Result<(Seq<Pair>, Vec<Entry>), NoMemory>
    ensures own { IfOk result (λ it. pairs_of it.0 ≡ knowledge.own t entries.items) }
    ensures others { IfOk result (λ it. (u : ℕ) → (u ≡ t → ⊥)
        → knowledge.own u it.1.items ≡ knowledge.own u entries.items) }
{
    let mut left = entries;
    let mut pairs = Seq::new(alloc);
    let mut others = Vec::new(alloc);
    left.reverse();
    while let Some(entry) = left.pop() {
        give_back(&mut left);
        put(entry, t, &mut pairs, &mut others)?;
    }
    Ok((pairs, others))
}

/// What each of so many threads makes of a history: its events with their replies, in their order.
pub fn own_lists(
    alloc: Global,
    entries: Seq<Entry>,
    threads: usize,
) -> Result<Vec<Seq<Pair>>, NoMemory>
    ensures { IfOk result (λ lists. AreOwn lists.items threads entries) }
{
    let mut rest = entries.into_vec();
    let mut lists = Vec::new(alloc);
    for t in 0..threads {
        let (own, others) = split_own(alloc, rest, t)?;
        rest = others;
        lists.push(own)?;
    }
    Ok(lists)
}
