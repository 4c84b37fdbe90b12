//! The loads, by number.
ghost use Rattle.std.specs.Prelude.{◌≡◌, ◌<◌, ◌++◌, ◌∷◌, [], length, slice_get, OnOk, OnErr, take, ◌-◌, Some};
ghost use Rattle.std.specs.Option.{option_copied};
ghost use Rattle.module_table.specs.Lists.{changed};
ghost use Rattle.module_table.specs.declared.module.LoadStage.TheVariants.{Open, Ended};

use crate::module::{Load, LoadStage};
use base_types::{NoMemory, Seq};
use std::alloc::Global;
use std::marker::Model;

/// The loads in the order of their numbers, from 0.
pub struct Loads {
    items: Vec<Load>,
}

impl Model for Loads {
    ghost use Rattle.std.specs.Prelude.{List};
    ghost use Rattle.std.specs.Coded.{coded_list};
    ghost use Rattle.module_table.specs.declared.module.Load.{Load as L};
    ghost use Rattle.module_table.specs.contracts.module.Load.{the_row};

    ghost Value = { List L };

    ghost coded = { coded_list the_row.coded };

    ghost view = { λ a. a.items.items };
}

impl Loads {
    /// No load. It takes no memory.
    pub fn new(alloc: Global) -> Loads
        ensures { result ≡ [] }
    {
        Loads {
            items: Vec::new(alloc),
        }
    }

    /// How many loads there are, which is the number of the next one.
    pub fn len(&self) -> usize
        ensures { result ≡ length self.now }
    {
        self.items.len()
    }

    /// The load with this number. None exactly where there is none.
    pub fn get(&self, at: u32) -> Option<&Load>
        ensures { option_copied result ≡ slice_get self.now at }
    {
        self.items.get(at as usize)
    }

    /// The load with this number, where there must be one.
    pub fn at(&self, at: u32) -> &Load
        requires { at < length self.now }
        ensures { slice_get self.now at ≡ Some result.now }
    {
        &self.items[at as usize]
    }

    /// Puts a load last. An `Err` changes nothing.
    pub fn push(&mut self, load: Load) -> Result<(), NoMemory>
        ensures ok { OnOk result (self.new ≡ self.old ++ load ∷ []) }
        ensures err { OnErr result (self.new ≡ self.old) }
    {
        self.items.push(load)?;
        Ok(())
    }

    /// Takes the last load off.
    pub fn drop_last(&mut self)
        ensures { self.new ≡ take (length self.old - 1) self.old }
    {
        drop(self.items.pop());
    }

    /// Opens a load for a thread.
    pub fn open(&mut self, at: u32, thread: u32)
        ensures { self.new ≡ changed (λ load. record load { stage = Open; thread = thread }) self.old at }
    {
        if (at as usize) < self.items.len() {
            let load = &mut self.items[at as usize];
            load.stage = LoadStage::Open;
            load.thread = thread;
        }
    }

    /// Ends a load.
    pub fn end(&mut self, at: u32)
        ensures { self.new ≡ changed (λ load. record load { stage = Ended }) self.old at }
    {
        if (at as usize) < self.items.len() {
            self.items[at as usize].stage = LoadStage::Ended;
        }
    }

    /// Gives a load this text.
    pub fn set_text(&mut self, at: u32, text: Seq<u8>)
        ensures { self.new ≡ changed (λ load. record load { text = text }) self.old at }
    {
        if (at as usize) < self.items.len() {
            self.items[at as usize].text = text;
        }
    }

    /// All loads in the order of their numbers.
    pub fn as_slice(&self) -> &[Load]
        ensures { result.now ≡ self.now }
    {
        self.items.as_slice()
    }
}

impl Drop for Loads {
    fn drop(self) {
        let Loads { items } = self;
        drop(items);
    }
}
