//! The locks and the waits.
ghost use Rattle.std.specs.Prelude.{◌≡◌, ◌+◌, ◌≤◌, ◌↔◌, OnOk, OnErr, IfOk, None, Some, IsTrue, false, nat_eq, ◌==◌, if◌then◌else◌};
ghost use Rattle.std.specs.List.{list_any};
ghost use Rattle.std.specs.Cmp.Lexicographic.{pointwise};
ghost use Rattle.std.specs.FinMap as map;
ghost use Rattle.std.specs.Option.{option_copied, option_map};
ghost use Rattle.module_lock.specs.Table.{closes, leads_to, took_of, after_take, got, waiting, given, lowered, woken, can_wake, is_free, owns, lock_of, taken_count, holds, waiters, waiters_in};
ghost use Rattle.module_lock.specs.Queues.{shortened, tidied};
ghost use Rattle.module_lock.specs.Cycles.{Closes};

use crate::queues::Queues;
use crate::steps::Steps;
use base_types::{NoMemory, Seq};
use spec_core::{Dotted, NameMap, NumberMap};
use std::alloc::Global;
use std::marker::Model;
use std::sync::ledger::Ledger;

/// Who owns a lock, and how often it was taken.
#[derive(Clone, Copy, PartialEq, Eq, Drop)]
pub struct Lock {
    pub owner: u32,
    pub count: u32,
}

/// What became of a try to take a lock.
#[derive(Clone, Copy, PartialEq, Eq, Drop)]
pub enum Took {
    /// The lock is the thread's, once more than before.
    Got,
    /// Another thread owns it, and the thread waits.
    Waits,
    /// Another thread owns it, and waiting would close a cycle.
    Closes,
}

// The only look-up of an owner.
fn lock_at<L: Ledger>(locks: &NameMap<Lock>, name: &Dotted, steps: &mut Steps<L>) -> Option<Lock>
    ensures lock { result ≡ map.get locks.now name.now }
    ensures cost { steps.new ≡ steps.old + 1 }
{
    steps.tick();
    locks.get(name).copied()
}

// Whether the owners, one after another from this lock's, lead to the thread.
fn leads_back<L: Ledger>(
    locks: &NameMap<Lock>,
    waits: &NumberMap<Dotted>,
    thread: u32,
    lock: Option<Lock>,
    steps: &mut Steps<L>,
) -> bool
    ensures answer { result ≡ leads_to (record { locks = locks.now; waits = waits.now }) thread (map.len waits.now)
        (option_map (λ lock. lock.owner) lock) }
    ensures cost { steps.new ≤ steps.old + map.len waits.now }
{
    let mut at = lock;
    for _ in 0..waits.len() {
        let Some(lock) = at else {
            return false;
        };
        if lock.owner == thread {
            return true;
        }
        let Some(awaited) = waits.get(lock.owner) else {
            return false;
        };
        at = lock_at(locks, awaited, steps);
    }
    match at {
        None => false,
        Some(lock) => lock.owner == thread,
    }
}

// Whether one of the locks is the thread's.
fn is_owner(locks: &NameMap<Lock>, thread: u32) -> bool
    ensures { result ≡ list_any (λ lock. lock.owner == thread) (map.values locks.now) }
{
    for lock in locks.values() {
        if lock.owner == thread {
            return true;
        }
    }
    false
}

fn is_same(left: &Dotted, right: &Dotted) -> bool
    ensures { result ≡ pointwise nat_eq left.now right.now }
{
    *left == *right
}

// The threads of the waits whose name is this one.
fn waiters_among(waits: &NumberMap<Dotted>, name: &Dotted) -> Result<Seq<u32>, NoMemory>
    ensures { IfOk result (λ threads. threads ≡ waiters_in (map.entries waits.now) name.now) }
{
    let mut threads = Seq::new(name.alloc());
    for (thread, awaited) in waits.iter() {
        if *awaited == *name {
            threads.push(*thread)?;
        }
    }
    Ok(threads)
}

// The queue of the name is made anew from the waits. An `Err` changes nothing.
fn line_up(waits: &NumberMap<Dotted>, queues: &mut Queues, name: Dotted) -> Result<(), NoMemory>
    ensures ok { OnOk result (queues.new ≡ map.insert queues.old name (waiters_in (map.entries waits.now) name)) }
    ensures err { OnErr result (queues.new ≡ queues.old) }
{
    let queue = waiters_among(waits, &name)?;
    queues.set(name, queue)
}

// A thread that waited for nothing waits for the name. An `Err` changes nothing.
fn queue_first(
    waits: &mut NumberMap<Dotted>,
    queues: &mut Queues,
    thread: u32,
    name: Dotted,
) -> Result<(), NoMemory>
    requires { map.get waits.old thread ≡ None }
    ensures waits { OnOk result (waits.new ≡ map.insert waits.old thread name) }
    ensures queues { OnOk result (queues.new ≡ map.insert queues.old name
        (waiters_in (map.entries (map.insert waits.old thread name)) name)) }
    ensures same_waits { OnErr result (waits.new ≡ waits.old) }
    ensures same_queues { OnErr result (queues.new ≡ queues.old) }
{
    let key = name.clone()?;
    waits.insert(thread, name)?;
    match line_up(waits, queues, key) {
        Ok(()) => Ok(()),
        Err(e) => {
            drop(waits.remove(thread));
            Err(e)
        }
    }
}

// A thread that waited for another name waits for this one. An `Err` changes nothing.
fn queue_again(
    waits: &mut NumberMap<Dotted>,
    queues: &mut Queues,
    thread: u32,
    name: Dotted,
    prior: Dotted,
) -> Result<(), NoMemory>
    requires { map.get waits.old thread ≡ Some prior }
    ensures waits { OnOk result (waits.new ≡ map.insert waits.old thread name) }
    ensures queues { OnOk result (queues.new ≡ tidied (shortened
        (map.insert queues.old name (waiters_in (map.entries (map.insert waits.old thread name)) name))
        prior thread) prior) }
    ensures same_waits { OnErr result (waits.new ≡ waits.old) }
    ensures same_queues { OnErr result (queues.new ≡ queues.old) }
{
    let key = name.clone()?;
    waits.insert(thread, name)?;
    match line_up(waits, queues, key) {
        Ok(()) => {
            queues.leave(&prior, thread);
            Ok(())
        }
        Err(e) => {
            drop(waits.insert(thread, prior));
            Err(e)
        }
    }
}

// Lowers the count of a lock of the thread, and frees it at 0.
fn lower(locks: &mut NameMap<Lock>, thread: u32, name: &Dotted)
    ensures { locks.new ≡ lowered locks.old thread name.now (map.get locks.old name.now) }
{
    let Some(lock) = locks.get(name).copied() else {
        return;
    };
    if lock.owner != thread {
        return;
    }
    if lock.count <= 1 {
        drop(locks.remove(name));
    } else {
        let lower = Lock {
            owner: lock.owner,
            count: lock.count - 1,
        };
        locks.set(name, lower);
    }
}

/// Locks by name, and the threads that wait for one. No waits close a cycle.
pub struct Locks {
    locks: NameMap<Lock>,
    waits: NumberMap<Dotted>,
    queues: Queues,
}

impl Model for Locks {
    ghost use Rattle.module_lock.specs.Table.{Table};
    ghost use Rattle.module_lock.specs.TableCode.{table_code};
    ghost use Rattle.module_lock.specs.Cycles.{IsAcyclic};
    ghost use Rattle.module_lock.specs.Queues.{AreQueued};

    ghost Value = { Table };

    ghost coded = { table_code };

    ghost view = { λ a. record { locks = a.locks; waits = a.waits } };

    ghost invariant = { λ a. IsAcyclic (record { locks = a.locks; waits = a.waits }) × AreQueued a.queues a.waits };
}

impl Locks {
    /// No lock is owned, and nobody waits.
    pub fn new(alloc: Global) -> Locks
        ensures { result ≡ record { locks = map.empty; waits = map.empty } }
    {
        Locks {
            locks: NameMap::new(alloc),
            waits: NumberMap::new(alloc),
            queues: Queues::new(alloc),
        }
    }

    // Takes the lock once more.
    fn hold(&mut self, thread: u32, name: Dotted, count: u32) -> Result<(), NoMemory>
        requires waits { map.get self.old.waits thread ≡ None }
        requires count { count ≡ taken_count (lock_of self.old name) + 1 }
        ensures ok { OnOk result (self.new ≡ got self.old thread name) }
        ensures err { OnErr result (self.new ≡ self.old) }
    {
        let lock = Lock {
            owner: thread,
            count,
        };
        self.locks.insert(name, lock)?;
        Ok(())
    }

    /// The thread waits for the lock. An `Err` changes nothing.
    pub fn queue(&mut self, thread: u32, name: Dotted) -> Result<(), NoMemory>
        requires { closes self.old thread name ≡ false }
        ensures ok { OnOk result (self.new ≡ waiting self.old thread name) }
        ensures err { OnErr result (self.new ≡ self.old) }
    {
        let prior = self.prior(thread)?;
        match prior {
            None => queue_first(&mut self.waits, &mut self.queues, thread, name),
            Some(prior) => {
                if is_same(&prior, &name) {
                    return Ok(());
                }
                queue_again(&mut self.waits, &mut self.queues, thread, name, prior)
            }
        }
    }

    // The name that the thread waits for already.
    fn prior(&self, thread: u32) -> Result<Option<Dotted>, NoMemory>
        ensures { IfOk result (λ prior. prior ≡ map.get self.now.waits thread) }
    {
        match self.waits.get(thread) {
            None => Ok(None),
            Some(name) => Ok(Some(name.clone()?)),
        }
    }

    fn unwait(&mut self, thread: u32)
        ensures { self.new ≡ woken self.old thread }
    {
        if let Some(name) = self.waits.remove(thread) {
            self.queues.leave(&name, thread);
        }
    }

    /// Gives the thread's lock back once. At the count 0 nobody owns it. A lock that the thread does
    /// not own stays as it is.
    pub fn give(&mut self, thread: u32, name: &Dotted)
        ensures { self.new ≡ given self.old thread name.now }
    {
        lower(&mut self.locks, thread, name);
    }

    /// Whether the thread owns a lock.
    pub fn holds(&self, thread: u32) -> bool
        ensures { result ≡ holds self.now thread }
    {
        is_owner(&self.locks, thread)
    }

    /// Takes a lock that is free for the thread, or waits for it unless that would close a cycle. An
    /// `Err` changes nothing.
    pub fn take<L: Ledger>(
        &mut self,
        thread: u32,
        name: &Dotted,
        steps: &mut Steps<L>,
    ) -> Result<Took, NoMemory>
        requires { map.get self.old.waits thread ≡ None }
        ensures took { IfOk result (λ took. took ≡ took_of self.old thread name.now) }
        ensures ok { OnOk result (self.new ≡ after_take self.old thread name.now) }
        ensures err { OnErr result (self.new ≡ self.old) }
        ensures cost { steps.new ≤ steps.old + map.len self.old.waits + 1 }
    {
        let lock = self.look(name, steps);
        let Some(held) = lock else {
            self.hold(thread, name.clone()?, 1)?;
            return Ok(Took::Got);
        };
        if held.owner == thread {
            let Some(count) = held.count.checked_add(1) else {
                return Err(NoMemory);
            };
            self.hold(thread, name.clone()?, count)?;
            return Ok(Took::Got);
        }
        if self.closes_from(thread, name, lock, steps) {
            return Ok(Took::Closes);
        }
        self.queue(thread, name.clone()?)?;
        Ok(Took::Waits)
    }

    fn look<L: Ledger>(&self, name: &Dotted, steps: &mut Steps<L>) -> Option<Lock>
        ensures lock { result ≡ lock_of self.now name.now }
        ensures cost { steps.new ≡ steps.old + 1 }
    {
        lock_at(&self.locks, name, steps)
    }

    // Whether waiting for the name, which has this lock, would close a cycle.
    fn closes_from<L: Ledger>(
        &self,
        thread: u32,
        name: &Dotted,
        lock: Option<Lock>,
        steps: &mut Steps<L>,
    ) -> bool
        requires { lock ≡ lock_of self.now name.now }
        ensures answer { result ≡ closes self.now thread name.now }
        ensures cost { steps.new ≤ steps.old + map.len self.now.waits }
    {
        leads_back(&self.locks, &self.waits, thread, lock, steps)
    }

    /// Whether waiting for the lock would close a cycle of threads that wait for one another.
    pub fn closes<L: Ledger>(&self, thread: u32, name: &Dotted, steps: &mut Steps<L>) -> bool
        ensures closes { IsTrue result ↔ Closes self.now thread name.now }
        ensures value { result ≡ closes self.now thread name.now }
        ensures cost { steps.new ≤ steps.old + map.len self.now.waits + 1 }
    {
        let lock = lock_at(&self.locks, name, steps);
        self.closes_from(thread, name, lock, steps)
    }

    /// Ends the thread's wait, unless another thread owns the lock.
    pub fn wake(&mut self, thread: u32) -> bool
        ensures woken { result ≡ can_wake self.old thread }
        ensures after { self.new ≡ (if can_wake self.old thread then woken self.old thread else self.old) }
    {
        if self.can_wake(thread) {
            self.unwait(thread);
            return true;
        }
        false
    }

    /// Whether the thread waits for a lock that no other thread owns.
    pub fn can_wake(&self, thread: u32) -> bool
        ensures { result ≡ can_wake self.now thread }
    {
        match self.waits.get(thread) {
            None => false,
            Some(name) => self.is_free(thread, name),
        }
    }

    /// Whether the thread owns the lock.
    pub fn owns(&self, thread: u32, name: &Dotted) -> bool
        ensures { result ≡ owns self.now thread name.now }
    {
        match self.locks.get(name) {
            None => false,
            Some(lock) => lock.owner == thread,
        }
    }

    /// Takes a lock that nobody or the thread owns. An `Err` changes nothing.
    pub fn take_free(&mut self, thread: u32, name: Dotted) -> Result<(), NoMemory>
        requires waits { map.get self.old.waits thread ≡ None }
        requires free { IsTrue (is_free self.old thread name) }
        ensures ok { OnOk result (self.new ≡ got self.old thread name) }
        ensures err { OnErr result (self.new ≡ self.old) }
    {
        let count = match self.owner(&name) {
            None => 0,
            Some(lock) => lock.count,
        };
        let Some(count) = count.checked_add(1) else {
            return Err(NoMemory);
        };
        self.hold(thread, name, count)
    }

    /// Whether nobody or the thread owns the lock.
    pub fn is_free(&self, thread: u32, name: &Dotted) -> bool
        ensures { result ≡ is_free self.now thread name.now }
    {
        match self.locks.get(name) {
            None => true,
            Some(lock) => lock.owner == thread,
        }
    }

    /// Who owns the lock, and how often it was taken.
    pub fn owner(&self, name: &Dotted) -> Option<Lock>
        ensures { result ≡ lock_of self.now name.now }
    {
        self.locks.get(name).copied()
    }

    /// The threads that wait for the lock, ascending. It takes no memory.
    pub fn waiters(&self, name: &Dotted) -> &[u32]
        ensures { result.now ≡ waiters self.now name.now }
    {
        self.queues.of(name)
    }

    /// The name of the lock that the thread waits for.
    pub fn awaited(&self, thread: u32) -> Option<&Dotted>
        ensures { option_copied result ≡ map.get self.now.waits thread }
    {
        self.waits.get(thread)
    }
}

impl Drop for Locks {
    fn drop(self) {
        let Locks {
            locks,
            waits,
            queues,
        } = self;
        drop(locks);
        drop(waits);
        drop(queues);
    }
}
