//! Who waits for which name, so that the waiters of a name are told without memory.
ghost use Rattle.std.specs.Prelude.{◌≡◌, [], OnOk, OnErr};
ghost use Rattle.std.specs.FinMap as map;
ghost use Rattle.module_lock.specs.Queues.{queue_of, without, shortened, tidied};

use base_types::{NoMemory, Seq};
use spec_core::Dotted;
use std::alloc::Global;
use std::collections::BTreeMap;
use std::marker::Model;
use std::mem;

/// For each name that threads wait for, these threads.
#[derive(Drop)]
pub(crate) struct Queues {
    map: BTreeMap<Dotted, Seq<u32>>,
}

impl Model for Queues {
    ghost use Rattle.std.specs.Prelude.{ℕ, List};
    ghost use Rattle.std.specs.FinMap as map_;
    ghost use Rattle.std.specs.Coded.{coded_ℕ, coded_list};
    ghost use Rattle.std.specs.Ordering.{nat_cmp};
    ghost use Rattle.std.specs.Cmp.Lexicographic.{slice_cmp};

    ghost Value = { map_.FinMap (slice_cmp nat_cmp) (List ℕ) };

    ghost coded = { map_.code (coded_list coded_ℕ) (coded_list coded_ℕ) };

    ghost view = { λ a. map_.from_entries a.map.entries };
}

// Takes the thread out of a queue.
fn leave_queue(queue: &mut Seq<u32>, thread: u32)
    ensures { queue.new ≡ without thread queue.old }
{
    let empty = Seq::new(queue.alloc());
    let mut threads = mem::replace(queue, empty).into_vec();
    threads.retain(|it| *it != thread);
    *queue = Seq::from_vec(threads);
}

impl Queues {
    /// No queue. It takes no memory.
    pub(crate) fn new(alloc: Global) -> Queues
        ensures { result ≡ map.empty }
    {
        Queues {
            map: BTreeMap::new(alloc),
        }
    }

    /// The threads in the queue of the name.
    pub(crate) fn of(&self, name: &Dotted) -> &[u32]
        ensures { result.now ≡ queue_of self.now name.now }
    {
        match self.map.get(name) {
            None => &[],
            Some(queue) => queue.as_slice(),
        }
    }

    /// The name has this queue. An `Err` changes nothing.
    pub(crate) fn set(&mut self, name: Dotted, queue: Seq<u32>) -> Result<(), NoMemory>
        ensures ok { OnOk result (self.new ≡ map.insert self.old name queue) }
        ensures err { OnErr result (self.new ≡ self.old) }
    {
        drop(self.map.insert(name, queue)?);
        Ok(())
    }

    /// Takes the thread out of the queue of the name, and an empty queue away.
    pub(crate) fn leave(&mut self, name: &Dotted, thread: u32)
        ensures { self.new ≡ tidied (shortened self.old name.now thread) name.now }
    {
        self.shorten(name, thread);
        if self.of(name).len() == 0 {
            drop(self.map.remove(name));
        }
    }

    fn shorten(&mut self, name: &Dotted, thread: u32)
        ensures { self.new ≡ shortened self.old name.now thread }
    {
        if let Some(queue) = self.map.get_mut(name) {
            leave_queue(queue, thread);
        }
    }
}
