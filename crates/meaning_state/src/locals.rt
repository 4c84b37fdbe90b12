//! The local variables of a call.
ghost use Rattle.std.specs.Prelude.{◌≡◌, OnOk, OnErr, None, IsSome};
ghost use Rattle.std.specs.FinMap as map;
ghost use Rattle.std.specs.Option.{option_copied};

use base_types::{NoMemory, Text};
use py_value::Value;
use std::alloc::Global;
use std::collections::BTreeMap;
use std::marker::Model;

/// The values of a call's local variables that are set, by their names (Language Reference 4.2.2).
pub struct Locals {
    map: BTreeMap<Text, Value>,
}

impl Model for Locals {
    ghost use Rattle.std.specs.FinMap as map_;
    ghost use Rattle.std.specs.Coded.{coded_ℕ, coded_list};
    ghost use Rattle.std.specs.Ordering.{nat_cmp};
    ghost use Rattle.std.specs.Cmp.Lexicographic.{slice_cmp};
    ghost use Rattle.py_value.specs.declared.value.Value.{Value as V};
    ghost use Rattle.py_value.specs.contracts.value.Value.{the_row};

    ghost Value = { map_.FinMap (slice_cmp nat_cmp) V };

    ghost coded = { map_.code (coded_list coded_ℕ) the_row.coded };

    ghost view = { λ a. map_.from_entries a.map.entries };
}

impl Locals {
    /// No variable is set. It takes no memory.
    pub fn new(alloc: Global) -> Locals
        ensures { result ≡ map.empty }
    {
        Locals {
            map: BTreeMap::new(alloc),
        }
    }

    /// The value of a variable. None exactly where it is not set.
    pub fn get(&self, name: &Text) -> Option<&Value>
        ensures { option_copied result ≡ map.get self.now name.now }
    {
        self.map.get(name)
    }

    /// Sets a variable, and drops its value before. A refusal changes nothing.
    pub fn set(&mut self, name: Text, value: Value) -> Result<(), NoMemory>
        ensures ok { OnOk result (self.new ≡ map.insert self.old name value) }
        ensures err { OnErr result (self.new ≡ self.old) }
    {
        drop(self.map.insert(name, value)?);
        Ok(())
    }

    /// Takes a variable's value. None exactly where it was not set.
    pub fn unset(&mut self, name: &Text) -> Option<Value>
        ensures before { result ≡ map.get self.old name.now }
        ensures after { self.new ≡ map.remove self.old name.now }
    {
        self.map.remove(name)
    }
}

impl Drop for Locals {
    fn drop(self) {
        let Locals { map } = self;
        drop(map);
    }
}
