//! Maps that contracts see as finite maps.
ghost use Rattle.std.specs.Prelude.{◌≡◌, OnOk, OnErr, None, IsSome};
ghost use Rattle.std.specs.FinMap as map;
ghost use Rattle.std.specs.Option.{option_copied};

use crate::name::Dotted;
use base_types::{NoMemory, TreePath};
use std::alloc::Global;
use std::collections::BTreeMap;
use std::marker::Model;

/// A map from names.
pub struct NameMap<V> {
    pub(crate) map: BTreeMap<Dotted, V>,
}

impl<V> Model for NameMap<V> {
    ghost use Rattle.std.specs.Prelude.{ℕ};
    ghost use Rattle.std.specs.FinMap as map_;
    ghost use Rattle.std.specs.Coded.{coded_ℕ, coded_list};
    ghost use Rattle.std.specs.Ordering.{nat_cmp};
    ghost use Rattle.std.specs.Cmp.Lexicographic.{slice_cmp};

    ghost Value = { map_.FinMap (slice_cmp nat_cmp) V };

    ghost coded = { map_.code (coded_list coded_ℕ) V.code };

    ghost view = { λ a. map_.from_entries a.map.entries };
}

impl<V> NameMap<V> {
    /// An empty map. It takes no memory.
    pub fn new(alloc: Global) -> NameMap<V>
        ensures { result ≡ map.empty }
    {
        NameMap {
            map: BTreeMap::new(alloc),
        }
    }

    /// The value at a name. None exactly where the map has no such key.
    pub fn get(&self, name: &Dotted) -> Option<&V>
        ensures { option_copied result ≡ map.get self.now name.now }
    {
        self.map.get(name)
    }

    /// Sets the value at a name, and drops the one before. An `Err` changes nothing, and comes only
    /// where there was none.
    pub fn insert(&mut self, name: Dotted, value: V) -> Result<(), NoMemory>
    where
        V: Drop,
        ensures ok { OnOk result (self.new ≡ map.insert self.old name value) }
        ensures err { OnErr result (self.new ≡ self.old) }
        ensures absent { OnErr result (map.get self.old name ≡ None) }
    {
        drop(self.map.insert(name, value)?);
        Ok(())
    }

    /// Replaces the value at a name that has one. It takes no memory.
    pub fn set(&mut self, name: &Dotted, value: V)
    where
        V: Drop,
        requires { IsSome (map.get self.old name.now) }
        ensures { self.new ≡ map.insert self.old name.now value }
    {
        if let Some(place) = self.map.get_mut(name) {
            *place = value;
        }
    }

    /// Takes the value at a name out of the map and answers it.
    pub fn remove(&mut self, name: &Dotted) -> Option<V>
        ensures before { result ≡ map.get self.old name.now }
        ensures after { self.new ≡ map.remove self.old name.now }
    {
        self.map.remove(name)
    }
}

/// A map from tree paths.
pub struct PathMap<V> {
    map: BTreeMap<TreePath, V>,
}

impl<V> Model for PathMap<V> {
    ghost use Rattle.std.specs.Prelude.{ℕ};
    ghost use Rattle.std.specs.FinMap as map_;
    ghost use Rattle.std.specs.Coded.{coded_ℕ, coded_list};
    ghost use Rattle.std.specs.Ordering.{nat_cmp};
    ghost use Rattle.std.specs.Cmp.Lexicographic.{slice_cmp};

    ghost Value = { map_.FinMap (slice_cmp (slice_cmp nat_cmp)) V };

    ghost coded = { map_.code (coded_list (coded_list coded_ℕ)) V.code };

    ghost view = { λ a. map_.from_entries a.map.entries };
}

impl<V> PathMap<V> {
    /// An empty map. It takes no memory.
    pub fn new(alloc: Global) -> PathMap<V>
        ensures { result ≡ map.empty }
    {
        PathMap {
            map: BTreeMap::new(alloc),
        }
    }

    /// The value at a path. None exactly where the map has no such key.
    pub fn get(&self, path: &TreePath) -> Option<&V>
        ensures { option_copied result ≡ map.get self.now path.now }
    {
        self.map.get(path)
    }

    /// Sets the value at a path, and drops the one before. An `Err` changes nothing, and comes only
    /// where there was none.
    pub fn insert(&mut self, path: TreePath, value: V) -> Result<(), NoMemory>
    where
        V: Drop,
        ensures ok { OnOk result (self.new ≡ map.insert self.old path value) }
        ensures err { OnErr result (self.new ≡ self.old) }
        ensures absent { OnErr result (map.get self.old path ≡ None) }
    {
        drop(self.map.insert(path, value)?);
        Ok(())
    }

    /// Replaces the value at a path that has one. It takes no memory.
    pub fn set(&mut self, path: &TreePath, value: V)
    where
        V: Drop,
        requires { IsSome (map.get self.old path.now) }
        ensures { self.new ≡ map.insert self.old path.now value }
    {
        if let Some(place) = self.map.get_mut(path) {
            *place = value;
        }
    }

    /// Takes the value at a path out of the map and answers it.
    pub fn remove(&mut self, path: &TreePath) -> Option<V>
        ensures before { result ≡ map.get self.old path.now }
        ensures after { self.new ≡ map.remove self.old path.now }
    {
        self.map.remove(path)
    }
}

/// A map from numbers.
pub struct NumberMap<V> {
    pub(crate) map: BTreeMap<u32, V>,
}

impl<V> Model for NumberMap<V> {
    ghost use Rattle.std.specs.FinMap as map_;
    ghost use Rattle.std.specs.Coded.{coded_ℕ};
    ghost use Rattle.std.specs.Ordering.{nat_cmp};

    ghost Value = { map_.FinMap nat_cmp V };

    ghost coded = { map_.code coded_ℕ V.code };

    ghost view = { λ a. map_.from_entries a.map.entries };
}

impl<V> NumberMap<V> {
    /// An empty map. It takes no memory.
    pub fn new(alloc: Global) -> NumberMap<V>
        ensures { result ≡ map.empty }
    {
        NumberMap {
            map: BTreeMap::new(alloc),
        }
    }

    /// How many numbers have a value.
    pub fn len(&self) -> usize
        ensures { result ≡ map.len self.now }
    {
        self.map.len()
    }

    /// The value at a number. None exactly where the map has no such key.
    pub fn get(&self, number: u32) -> Option<&V>
        ensures { option_copied result ≡ map.get self.now number }
    {
        self.map.get(&number)
    }

    /// Sets the value at a number, and drops the one before. An `Err` changes nothing, and comes only
    /// where there was none.
    pub fn insert(&mut self, number: u32, value: V) -> Result<(), NoMemory>
    where
        V: Drop,
        ensures ok { OnOk result (self.new ≡ map.insert self.old number value) }
        ensures err { OnErr result (self.new ≡ self.old) }
        ensures absent { OnErr result (map.get self.old number ≡ None) }
    {
        drop(self.map.insert(number, value)?);
        Ok(())
    }

    /// Takes the value at a number out of the map and answers it.
    pub fn remove(&mut self, number: u32) -> Option<V>
        ensures before { result ≡ map.get self.old number }
        ensures after { self.new ≡ map.remove self.old number }
    {
        self.map.remove(&number)
    }
}

impl<V: Drop> Drop for NameMap<V> {
    fn drop(self) {
        let NameMap { map } = self;
        drop(map);
    }
}

impl<V: Drop> Drop for PathMap<V> {
    fn drop(self) {
        let PathMap { map } = self;
        drop(map);
    }
}

impl<V: Drop> Drop for NumberMap<V> {
    fn drop(self) {
        let NumberMap { map } = self;
        drop(map);
    }
}
