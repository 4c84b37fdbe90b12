//! The variables of a module.
ghost use Rattle.std.specs.Prelude.{◌≡◌, [], map, IfOk, OnOk, OnErr};
ghost use Rattle.std.specs.Option.{option_copied};
ghost use Rattle.module_table.specs.Vars.{var_of, with_var, without_var};

use base_types::{Exact, NoMemory, Seq, Text, Texts};
use indexmap::IndexMap;
use py_value::Value;
use std::alloc::{AllocError, Global};
use std::marker::Model;

/// Variables in the order in which they were first set.
pub struct Vars {
    map: IndexMap<Text, Value>,
}

impl Model for Vars {
    ghost use Rattle.std.specs.Prelude.{List, ℕ};
    ghost use Rattle.std.specs.Coded.{coded_list, coded×, coded_ℕ};
    ghost use Rattle.py_value.specs.declared.value.Value.{Value as V};
    ghost use Rattle.py_value.specs.contracts.value.Value.{the_row};

    ghost Value = { List (List ℕ × V) };

    ghost coded = { coded_list (coded× (coded_list coded_ℕ) the_row.coded) };

    ghost view = { λ a. a.map.entries };
}

impl Vars {
    /// No variable is set. It takes no memory.
    pub fn new(alloc: Global) -> Vars
        ensures { result ≡ [] }
    {
        Vars {
            map: IndexMap::new(alloc),
        }
    }

    /// The value of the variable with this name. None exactly where it is not set.
    pub fn get(&self, name: &Text) -> Option<&Value>
        ensures { option_copied result ≡ var_of self.now name.now }
    {
        self.map.get(name)
    }

    /// Sets a variable. A present name keeps its place, and a new one goes last. An `Err` changes nothing.
    pub fn set(&mut self, name: Text, value: Value) -> Result<(), NoMemory>
        ensures ok { OnOk result (self.new ≡ with_var self.old name value) }
        ensures err { OnErr result (self.new ≡ self.old) }
    {
        drop(self.map.insert(name, value)?);
        Ok(())
    }

    /// Takes a variable away. The others keep their places.
    pub fn remove(&mut self, name: &Text) -> Option<Value>
        ensures before { result ≡ var_of self.old name.now }
        ensures after { self.new ≡ without_var self.old name.now }
    {
        self.map.shift_remove(name)
    }

    /// The names in order.
    pub fn names(&self) -> Result<Texts, NoMemory>
        ensures { IfOk result (λ names. names ≡ map (λ p. p.0) self.now) }
    {
        let mut names = Seq::new(self.alloc());
        for name in self.map.keys() {
            names.push(name.clone()?)?;
        }
        Ok(names)
    }

    fn alloc(&self) -> Global {
        *self.map.allocator()
    }
}

impl Clone for Vars {
    ghost is_clone = { λ vars it. it ≡ vars };

    fn clone(&self) -> Result<Vars, AllocError> {
        Ok(Vars {
            map: self.map.clone()?,
        })
    }
}

impl Exact for Vars {
    fn copy(&self) -> Result<Vars, NoMemory> {
        Ok(self.clone()?)
    }
}

impl Drop for Vars {
    fn drop(self) {
        let Vars { map } = self;
        drop(map);
    }
}
