//! The verdict on a history, by the threads of its entries.
ghost use Rattle.std.specs.Prelude.{◌≡◌, ◌<◌, ◌≤◌, ◌^◌, ◌-◌, ℕ, List, length, IfOk, IfSome, IsNone};
ghost use Rattle.machine_events.specs.declared.event.Entry.{Entry};
ghost use Rattle.trace_check.specs.Threads.{threads_of, turns, IsTurnOf, Tells};
ghost use Rattle.trace_check.specs.Judge.{IsPlaced, IsFirst, Parts, Judges};

use crate::answers::{Replayed, Verdict, Why};
use crate::judge::{FIRST_LINE, first_of, verdict_of_replay};
use base_types::{NoMemory, Seq};
use machine_events::{Entry, Follow};
use std::alloc::Global;

/// What tells the thread of an entry: the entry, or its thread alone.
pub(crate) trait OfThread {
    ghost thread: { Self → ℕ };

    fn thread(&self) -> u32
        ensures { result ≡ thread self.now };
}

impl OfThread for Entry {
    ghost thread = { λ e. e.thread };

    fn thread(&self) -> u32 {
        self.thread
    }
}

impl OfThread for u32 {
    ghost thread = { λ t. t };

    fn thread(&self) -> u32 {
        *self
    }
}

/// The thread of each entry.
pub fn threads_of(alloc: Global, entries: &[Entry]) -> Result<Seq<u32>, NoMemory>
    ensures { IfOk result (λ threads. threads ≡ threads_of entries.now) }
{
    let mut threads = Seq::new(alloc);
    for entry in entries {
        threads.push(entry.thread)?;
    }
    Ok(threads)
}

/// The place of the entry of a thread before which so many of its entries stand.
fn place_of<E: OfThread>(entries: &[E], t: usize, at: u32) -> Option<usize>
    ensures some { IfSome result (IsTurnOf E.thread entries.now t at) }
    ensures none { IsNone result → turns E.thread t entries.now ≤ at }
{
    let mut left = at;
    for i in 0..entries.len() {
        if entries[i].thread() as usize == t {
            if left == 0 {
                return Some(i);
            }
            left -= 1;
        }
    }
    None
}

/// The line at which a script parts, and whether it lacks an event there or has one too many.
fn part<E: OfThread>(entries: &[E], t: usize, at: u32) -> (u32, Why)
    requires { length entries.now < 2 ^ 32 - 2 }
    ensures { (history : List Entry) → Tells E.thread entries.now history
        → IsFirst (Parts history t at) result.0 result.1 }
{
    match place_of(entries, t, at) {
        Some(place) => (place as u32 + FIRST_LINE, Why::Call),
        None => (entries.len() as u32 + FIRST_LINE, Why::End),
    }
}

/// The verdict on a history, by what tells its threads. It takes no memory.
pub(crate) fn verdict_by<E: OfThread>(
    entries: &[E],
    replayed: &Replayed,
    follows: &[Follow],
) -> Verdict
    requires few { length entries.now < 2 ^ 32 - 2 }
    requires placed { IsPlaced replayed.now (length entries.now) }
    ensures { (history : List Entry) → Tells E.thread entries.now history
        → Judges history replayed.now follows.now result }
{
    let mut verdict = verdict_of_replay(replayed);
    for t in 0..follows.len() {
        if let Follow::Parts { at } = &follows[t] {
            let (line, why) = part(entries, t, *at);
            verdict = first_of(verdict, line, why);
        }
    }
    verdict
}

/// Whether entries that were replayed, and with which each script was compared, are a run that the
/// rules allow: else the first line that is wrong. It takes no memory.
pub fn verdict(entries: &[Entry], replayed: &Replayed, follows: &[Follow]) -> Verdict
    requires few { length entries.now < 2 ^ 32 - 2 }
    requires placed { IsPlaced replayed.now (length entries.now) }
    ensures { Judges entries.now replayed.now follows.now result }
{
    verdict_by(entries, replayed, follows)
}

/// The verdict on a history whose entries were handed on, by their threads alone. It takes no memory.
pub fn verdict_in(threads: &[u32], replayed: &Replayed, follows: &[Follow]) -> Verdict
    requires few { length threads.now < 2 ^ 32 - 2 }
    requires placed { IsPlaced replayed.now (length threads.now) }
    ensures { (history : List Entry) → threads.now ≡ threads_of history
        → Judges history replayed.now follows.now result }
{
    verdict_by(threads, replayed, follows)
}
