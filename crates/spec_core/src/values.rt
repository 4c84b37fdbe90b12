//! Maps gone over in the order of their keys.
ghost use Rattle.std.specs.Prelude.{◌≡◌, ℕ};
ghost use Rattle.std.specs.FinMap as map;
ghost use Rattle.std.specs.Map.Iter.{ShowsInOrder, deref, deref_pair};

use crate::maps::{NameMap, NumberMap};
use crate::name::Dotted;
use std::collections::btree_map::{Iter, Values};

impl<V> NameMap<V> {
    /// The values in the order of their names.
    pub fn values(&self) -> Values<'_, Dotted, V>
        ensures rest { result ≡ map.values self.now }
        ensures runs { ShowsInOrder (deref {X = V}) }
    {
        self.map.values()
    }
}

impl<V> NumberMap<V> {
    /// The numbers in order, each with its value.
    pub fn iter(&self) -> Iter<'_, u32, V>
        ensures rest { result ≡ map.entries self.now }
        ensures runs { ShowsInOrder (deref_pair {K = ℕ} {X = V}) }
    {
        self.map.iter()
    }
}
