//! The cache of modules, `sys.modules`.
ghost use Rattle.std.specs.Prelude.{◌≡◌, OnOk, OnErr, None};
ghost use Rattle.std.specs.FinMap as map;
ghost use Rattle.std.specs.Option.{option_copied};

use base_types::NoMemory;
use indexmap::IndexMap;
use machine_events::Slot;
use spec_core::Dotted;
use std::alloc::Global;
use std::marker::Model;

/// The slots of the cache by their names. Contracts see it as a finite map. A name is found by its hash, in a time
/// that does not grow with the number of modules.
pub struct Cache {
    map: IndexMap<Dotted, Slot>,
}

impl Model for Cache {
    ghost use Rattle.std.specs.Prelude.{ℕ};
    ghost use Rattle.std.specs.FinMap as map_;
    ghost use Rattle.std.specs.Coded.{coded_ℕ, coded_list};
    ghost use Rattle.std.specs.Ordering.{nat_cmp};
    ghost use Rattle.std.specs.Cmp.Lexicographic.{slice_cmp};
    ghost use Rattle.machine_events.specs.declared.module.Slot.{Slot as S};
    ghost use Rattle.machine_events.specs.contracts.module.Slot.{the_row};

    ghost Value = { map_.FinMap (slice_cmp nat_cmp) S };

    ghost coded = { map_.code (coded_list coded_ℕ) the_row.coded };

    ghost view = { λ a. map_.from_entries a.map.entries };
}

impl Cache {
    /// An empty cache. It takes no memory.
    pub fn new(alloc: Global) -> Cache
        ensures { result ≡ map.empty }
    {
        Cache {
            map: IndexMap::new(alloc),
        }
    }

    /// The slot at a name. None exactly where there is none.
    pub fn get(&self, name: &Dotted) -> Option<&Slot>
        ensures { option_copied result ≡ map.get self.now name.now }
    {
        self.map.get(name)
    }

    /// Sets the slot at a name, and drops the one before. An `Err` changes nothing, and comes only
    /// where there was none.
    pub fn insert(&mut self, name: Dotted, slot: Slot) -> Result<(), NoMemory>
        ensures ok { OnOk result (self.new ≡ map.insert self.old name slot) }
        ensures err { OnErr result (self.new ≡ self.old) }
        ensures absent { OnErr result (map.get self.old name ≡ None) }
    {
        drop(self.map.insert(name, slot)?);
        Ok(())
    }

    /// Takes the slot at a name out of the cache and answers it. The others stand in any order afterwards.
    pub fn remove(&mut self, name: &Dotted) -> Option<Slot>
        ensures before { result ≡ map.get self.old name.now }
        ensures after { self.new ≡ map.remove self.old name.now }
    {
        self.map.swap_remove(name)
    }
}

impl Drop for Cache {
    fn drop(self) {
        let Cache { map } = self;
        drop(map);
    }
}
