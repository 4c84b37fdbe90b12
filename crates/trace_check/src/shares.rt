//! The replay of a history that was handed on to its threads.
ghost use Rattle.std.specs.Prelude.{◌≡◌, ◌<◌, ◌≤◌, ◌++◌, ◌∷◌, [], ℕ, List, length, get_or, reverse, set, IfOk, MatchOption};
ghost use Rattle.machine_events.specs.declared.event.Entry.{Entry};
ghost use Rattle.machine_spec.specs.Allowed.{scripts};
ghost use Rattle.trace_check.specs.Judge.{IsPlaced};
ghost use Rattle.trace_check.specs.Replays.{Replays};
ghost use Rattle.trace_check.specs.Threads.{AreShares};

use crate::answers::{Counts, Replayed, Why};
use crate::history::{broken, fault};
use base_types::{NoMemory, Seq};
use import_machine::Machine;
use machine_events::{Entry, Pair};
use std::mem;

/// Turns a list round.
fn turn(list: &mut Seq<Pair>)
    ensures { list.new ≡ reverse list.old }
{
    let empty = Seq::new(list.alloc());
    let mut pairs = mem::replace(list, empty).into_vec();
    pairs.reverse();
    *list = Seq::from_vec(pairs);
}

/// Turns each list round.
fn turn_all(lists: &mut [Seq<Pair>])
    ensures many { length lists.new ≡ length lists.old }
    ensures each { (t : ℕ) → get_or lists.new t [] ≡ reverse (get_or lists.old t []) }
{
    for t in 0..lists.len() {
        turn(&mut lists[t]);
    }
}

/// Takes the last pair of a list.
fn take_last(lists: &mut [Seq<Pair>], t: usize) -> Option<Pair>
    requires { t < length lists.old }
    ensures many { length lists.new ≡ length lists.old }
    ensures others { (u : ℕ) → (u ≡ t → ⊥) → get_or lists.new u [] ≡ get_or lists.old u [] }
    ensures last { MatchOption result (get_or lists.old t [] ≡ [])
        (λ pair. get_or lists.old t [] ≡ get_or lists.new t [] ++ pair ∷ []) }
{
    lists[t].pop()
}

/// Replays a history of which each thread has its own, in the order of the threads: each entry must be of
/// one of the scripts, be allowed where it stands, and have the reply of the machine. What was replayed is
/// given back, so that the machine grows while the history shrinks.
pub fn replay_shares(
    machine: Machine,
    order: &[u32],
    lists: Vec<Seq<Pair>>,
    counts: Counts,
) -> Result<Replayed, NoMemory>
    requires scripts { scripts machine ≤ length lists.items }
    requires shared { (history : List Entry) × AreShares order.now lists.items counts history }
    ensures replays { (history : List Entry) → AreShares order.now lists.items counts history
        → IfOk result (Replays machine history) }
    ensures placed { IfOk result (λ it. IsPlaced it (length order.now)) }
{
    machine.is_sound();
    let mut machine = machine;
    let mut lists = lists;
    turn_all(lists.as_mut_slice());
    for i in 0..order.len() {
        let thread = order[i];
        if thread >= machine.scripts() {
            return broken(i, Why::Thread);
        }
        let Some(Pair { event, reply }) = take_last(lists.as_mut_slice(), thread as usize) else {
            unreachable!()
        };
        let entry = Entry {
            thread,
            event,
            reply,
        };
        let judged = fault(&mut machine, &entry);
        drop(entry);
        if let Some(why) = judged? {
            return broken(i, why);
        }
    }
    Ok(Replayed::Legal(counts))
}
