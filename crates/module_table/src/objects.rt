//! The objects, by number.
ghost use Rattle.std.specs.Prelude.{◌≡◌, ◌<◌, ◌++◌, ◌∷◌, [], length, slice_get, OnOk, OnErr, take, ◌-◌, Some, option_and_then};
ghost use Rattle.std.specs.Option.{option_copied};
ghost use Rattle.module_table.specs.Lists.{changed};
ghost use Rattle.module_table.specs.Tables.{restarted_with};
ghost use Rattle.module_table.specs.Vars.{with_var, without_var, var_of};

use crate::module::{Object, Phase};
use crate::vars::Vars;
use base_types::{NoMemory, Text};
use py_value::{NsState, Value};
use std::alloc::Global;
use std::marker::Model;

/// The modules in the order of their numbers, from 0.
pub struct Objects {
    items: Vec<Object>,
}

impl Model for Objects {
    ghost use Rattle.std.specs.Prelude.{List};
    ghost use Rattle.std.specs.Coded.{coded_list};
    ghost use Rattle.module_table.specs.declared.module.Object.{Object as L};
    ghost use Rattle.module_table.specs.contracts.module.Object.{the_row};

    ghost Value = { List L };

    ghost coded = { coded_list the_row.coded };

    ghost view = { λ a. a.items.items };
}

impl Objects {
    /// No module. It takes no memory.
    pub fn new(alloc: Global) -> Objects
        ensures { result ≡ [] }
    {
        Objects {
            items: Vec::new(alloc),
        }
    }

    /// How many modules there are, which is the number of the next one.
    pub fn len(&self) -> usize
        ensures { result ≡ length self.now }
    {
        self.items.len()
    }

    /// The module with this number. None exactly where there is none.
    pub fn get(&self, at: u32) -> Option<&Object>
        ensures { option_copied result ≡ slice_get self.now at }
    {
        self.items.get(at as usize)
    }

    /// The module with this number, where there must be one.
    pub fn at(&self, at: u32) -> &Object
        requires { at < length self.now }
        ensures { slice_get self.now at ≡ Some result.now }
    {
        &self.items[at as usize]
    }

    /// Puts a module last. An `Err` changes nothing.
    pub fn push(&mut self, object: Object) -> Result<(), NoMemory>
        ensures ok { OnOk result (self.new ≡ self.old ++ object ∷ []) }
        ensures err { OnErr result (self.new ≡ self.old) }
    {
        self.items.push(object)?;
        Ok(())
    }

    /// Takes the last object off.
    pub fn drop_last(&mut self)
        ensures { self.new ≡ take (length self.old - 1) self.old }
    {
        drop(self.items.pop());
    }

    /// Says how far a module is.
    pub fn set_phase(&mut self, at: u32, phase: Phase)
        ensures { self.new ≡ changed (λ object. record object { phase = phase }) self.old at }
    {
        if (at as usize) < self.items.len() {
            self.items[at as usize].phase = phase;
        }
    }

    /// Gives a module this state of its search.
    pub fn set_ns(&mut self, at: u32, state: NsState)
        ensures { self.new ≡ changed (λ object. record object { ns = Some state }) self.old at }
    {
        if (at as usize) < self.items.len() {
            self.items[at as usize].ns = Some(state);
        }
    }

    /// Gives a module these variables.
    pub fn set_vars(&mut self, at: u32, vars: Vars)
        ensures { self.new ≡ changed (λ object. record object { vars = vars }) self.old at }
    {
        if (at as usize) < self.items.len() {
            self.items[at as usize].vars = vars;
        }
    }

    /// Gives a module these variables, and this state of its search where it is one.
    pub fn restart(&mut self, at: u32, vars: Vars, ns: Option<NsState>)
        ensures { self.new ≡ changed (restarted_with vars ns) self.old at }
    {
        if (at as usize) < self.items.len() {
            let object = &mut self.items[at as usize];
            object.vars = vars;
            if ns.is_some() {
                object.ns = ns;
            }
        }
    }

    /// Takes a variable of a module away, and gives its value.
    pub fn remove_var(&mut self, at: u32, name: &Text) -> Option<Value>
        ensures before { result ≡ option_and_then (λ object. var_of object.vars name.now) (slice_get self.old at) }
        ensures after { self.new
            ≡ changed (λ object. record object { vars = without_var object.vars name.now }) self.old at }
    {
        if (at as usize) < self.items.len() {
            self.items[at as usize].vars.remove(name)
        } else {
            None
        }
    }

    /// Sets a variable of a module. An `Err` changes nothing.
    pub fn set_var(&mut self, at: u32, name: Text, value: Value) -> Result<(), NoMemory>
        ensures ok { OnOk result
            (self.new ≡ changed (λ object. record object { vars = with_var object.vars name value }) self.old at) }
        ensures err { OnErr result (self.new ≡ self.old) }
    {
        if (at as usize) < self.items.len() {
            self.items[at as usize].vars.set(name, value)?;
        }
        Ok(())
    }
}

impl Drop for Objects {
    fn drop(self) {
        let Objects { items } = self;
        drop(items);
    }
}
