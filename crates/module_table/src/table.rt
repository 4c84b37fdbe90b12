//! The table and its single changes.
ghost use Rattle.std.specs.Prelude.{◌≡◌, ◌<◌, ◌≤◌, ◌+◌, ◌^◌, ◌++◌, ◌∷◌, [], None, length, map, slice_get, get_or, IfOk, OnOk, OnErr, is_some, take, ◌-◌, option_and_then, ◌==◌};
ghost use Rattle.std.specs.List.{list_any};
ghost use Rattle.std.specs.FinMap as map_;
ghost use Rattle.std.specs.Option.{option_copied};
ghost use Rattle.module_table.specs.Vars.{var_of};
ghost use Rattle.module_table.specs.Tables.{new_table, object_of, with_object, with_load, with_phase, with_set, with_deleted, with_ns, with_open, with_end, with_text, with_entry, without_entry, with_path_item, with_reload, without_reload, with_ended, reloads};

use crate::cache::Cache;
use crate::loads::Loads;
use crate::module::{Load, Object, Phase, Reload};
use crate::objects::Objects;
use crate::start::{start_ns, start_vars};
use base_types::{Exact, NoMemory, Seq, Text, Texts};
use machine_events::Slot;
use py_value::{Items, NsState, Value};
use spec_core::{Dotted, NameMap, NumberMap, Spec};
use std::alloc::Global;

/// The cache, the modules, their loads, the search path with its epoch, the reloads that are running,
/// and the threads that have ended.
pub struct Table {
    pub(crate) cache: Cache,
    pub(crate) objects: Objects,
    pub(crate) loads: Loads,
    pub(crate) path: Items,
    pub(crate) epoch: u64,
    pub(crate) reloading: NameMap<Reload>,
    pub(crate) ended: NumberMap<()>,
}

impl Table {
    /// A table with this search path, the epoch 0 and nothing else.
    pub fn new(path: Items) -> Table
        ensures { result ≡ new_table path }
    {
        let alloc = path.alloc();
        Table {
            cache: Cache::new(alloc),
            objects: Objects::new(alloc),
            loads: Loads::new(alloc),
            path,
            epoch: 0,
            reloading: NameMap::new(alloc),
            ended: NumberMap::new(alloc),
        }
    }

    /// The allocator of the table, which is that of its search path.
    pub fn alloc(&self) -> Global {
        self.path.alloc()
    }

    /// What the cache has at the name.
    pub fn entry(&self, name: &Dotted) -> Option<&Slot>
        ensures { option_copied result ≡ map_.get self.now.cache name.now }
    {
        self.cache.get(name)
    }

    /// Enters the slot. An `Err` changes nothing.
    pub fn set_entry(&mut self, name: &Dotted, slot: Slot) -> Result<(), NoMemory>
        ensures ok { OnOk result (self.new ≡ with_entry self.old name.now slot) }
        ensures err { OnErr result (self.new ≡ self.old) }
    {
        let name = name.copy()?;
        self.cache.insert(name, slot)
    }

    /// Drops the entry, and gives it.
    pub fn drop_entry(&mut self, name: &Dotted) -> Option<Slot>
        ensures before { result ≡ map_.get self.old.cache name.now }
        ensures after { self.new ≡ without_entry self.old name.now }
    {
        self.cache.remove(name)
    }

    /// The number of modules.
    pub fn objects(&self) -> u64
        ensures { result ≡ length self.now.objects }
    {
        self.objects.len() as u64
    }

    /// The number of loads.
    pub fn loads(&self) -> u64
        ensures { result ≡ length self.now.loads }
    {
        self.loads.len() as u64
    }

    /// The module with this number.
    pub fn object(&self, mid: u32) -> Option<&Object>
        ensures { option_copied result ≡ slice_get self.now.objects mid }
    {
        self.objects.get(mid)
    }

    /// The load with this number, where there is one.
    pub fn find_load(&self, load: u32) -> Option<&Load>
        ensures { option_copied result ≡ slice_get self.now.loads load }
    {
        self.loads.get(load)
    }

    /// All loads, by number.
    pub fn all_loads(&self) -> &[Load]
        ensures { result.now ≡ self.now.loads }
    {
        self.loads.as_slice()
    }

    /// The search path, its items in order.
    pub fn path(&self) -> &Items
        ensures { result.now ≡ self.now.path }
    {
        &self.path
    }

    /// The epoch: 0 at first, and one more each time that all kept listings are dropped.
    pub fn epoch(&self) -> u64
        ensures { result ≡ self.now.epoch }
    {
        self.epoch
    }

    /// Puts a module last. An `Err` changes nothing.
    pub fn add_object(&mut self, object: Object) -> Result<u32, NoMemory>
        ensures number { IfOk result (λ mid. mid ≡ length self.old.objects) }
        ensures ok { OnOk result (self.new ≡ with_object self.old object) }
        ensures err { OnErr result (self.new ≡ self.old) }
    {
        let mid = number(self.objects.len())?;
        self.objects.push(object)?;
        Ok(mid)
    }

    /// Makes the next module, with the variables and the namespace state that it starts with, and
    /// gives its number. An `Err` changes nothing.
    pub fn add_module(&mut self, spec: Spec, phase: Phase) -> Result<u32, NoMemory>
        ensures number { IfOk result (λ mid. mid ≡ length self.old.objects) }
        ensures ok { OnOk result (self.new ≡ with_object self.old (object_of spec phase None)) }
        ensures err { OnErr result (self.new ≡ self.old) }
    {
        let alloc = self.alloc();
        let vars = start_vars(alloc, &spec)?;
        let ns = start_ns(alloc, spec.kind())?;
        self.add_object(Object {
            spec,
            phase,
            vars,
            ns,
            load: None,
        })
    }

    /// Puts a load last, and gives its number. An `Err` changes nothing.
    pub fn add_load(&mut self, load: Load) -> Result<u32, NoMemory>
        ensures number { IfOk result (λ n. n ≡ length self.old.loads) }
        ensures ok { OnOk result (self.new ≡ with_load self.old load) }
        ensures err { OnErr result (self.new ≡ self.old) }
    {
        let number = number(self.loads.len())?;
        self.loads.push(load)?;
        Ok(number)
    }

    /// Takes the last load off.
    pub fn drop_load(&mut self)
        ensures { self.new ≡ record self.old { loads = take (length self.old.loads - 1) self.old.loads } }
    {
        self.loads.drop_last();
    }

    /// Says how far the module is.
    pub fn set_phase(&mut self, mid: u32, phase: Phase)
        ensures { self.new ≡ with_phase self.old mid phase }
    {
        self.objects.set_phase(mid, phase);
    }

    /// Opens a resting load for the thread.
    pub fn open_load(&mut self, load: u32, thread: u32)
        ensures { self.new ≡ with_open self.old load thread }
    {
        self.loads.open(load, thread);
    }

    /// Ends a load.
    pub fn end_load(&mut self, load: u32)
        ensures { self.new ≡ with_end self.old load }
    {
        self.loads.end(load);
    }

    /// Gives a load this text.
    pub fn set_text(&mut self, load: u32, text: Seq<u8>)
        ensures { self.new ≡ with_text self.old load text }
    {
        self.loads.set_text(load, text);
    }

    /// Sets a variable. A present name keeps its place, and a new one goes last. An `Err` changes
    /// nothing.
    pub fn set(&mut self, mid: u32, name: Text, value: Value) -> Result<(), NoMemory>
        ensures ok { OnOk result (self.new ≡ with_set self.old mid name value) }
        ensures err { OnErr result (self.new ≡ self.old) }
    {
        self.objects.set_var(mid, name, value)
    }

    /// Takes a variable away, and gives its value. The others keep their places.
    pub fn del(&mut self, mid: u32, name: &Text) -> Option<Value>
        ensures before { result ≡ option_and_then (λ object. var_of object.vars name.now)
            (slice_get self.old.objects mid) }
        ensures after { self.new ≡ with_deleted self.old mid name.now }
    {
        self.objects.remove_var(mid, name)
    }

    /// Gives a namespace this state of its search.
    pub fn set_ns(&mut self, mid: u32, state: NsState)
        ensures { self.new ≡ with_ns self.old mid state }
    {
        self.objects.set_ns(mid, state);
    }

    /// Puts a value into the search path before the one at a place. An `Err` changes nothing.
    pub fn path_insert(&mut self, at: usize, value: Value) -> Result<(), NoMemory>
        requires { at ≤ length self.old.path }
        ensures ok { OnOk result (self.new ≡ with_path_item self.old at value) }
        ensures err { OnErr result (self.new ≡ self.old) }
    {
        self.path.insert(at, value)
    }

    /// Raises the epoch.
    pub fn raise_epoch(&mut self)
        requires { self.old.epoch + 1 < 2 ^ 64 }
        ensures { self.new ≡ record self.old { epoch = self.old.epoch + 1 } }
    {
        self.epoch += 1;
    }

    /// Which reload of the name is running.
    pub fn reloading(&self, name: &Dotted) -> Option<Reload>
        ensures { result ≡ map_.get self.now.reloading name.now }
    {
        self.reloading.get(name).copied()
    }

    /// Whether the thread runs a reload.
    pub fn reloads(&self, thread: u32) -> bool
        ensures { result ≡ reloads self.now thread }
    {
        is_reloader(&self.reloading, thread)
    }

    /// A reload of the name begins. An `Err` changes nothing.
    pub fn reload_enter(&mut self, name: &Dotted, thread: u32, mid: u32) -> Result<(), NoMemory>
        ensures ok { OnOk result (self.new ≡ with_reload self.old name.now
            (record { thread = thread; mid = mid; load = None })) }
        ensures err { OnErr result (self.new ≡ self.old) }
    {
        let reload = Reload {
            thread,
            mid,
            load: None,
        };
        let name = name.copy()?;
        self.reloading.insert(name, reload)
    }

    /// A reload of the name ends.
    pub fn reload_leave(&mut self, name: &Dotted)
        ensures { self.new ≡ without_reload self.old name.now }
    {
        drop(self.reloading.remove(name));
    }

    /// Whether the thread has ended.
    pub fn ended(&self, thread: u32) -> bool
        ensures { result ≡ is_some (map_.get self.now.ended thread) }
    {
        self.ended.get(thread).is_some()
    }

    /// The thread has ended. An `Err` changes nothing.
    pub fn end(&mut self, thread: u32) -> Result<(), NoMemory>
        ensures ok { OnOk result (self.new ≡ with_ended self.old thread) }
        ensures err { OnErr result (self.new ≡ self.old) }
    {
        self.ended.insert(thread, ())
    }
}

// Whether one of the reloads is the thread's.
fn is_reloader(reloading: &NameMap<Reload>, thread: u32) -> bool
    ensures { result ≡ list_any (λ reload. reload.thread == thread) (map_.values reloading.now) }
{
    for reload in reloading.values() {
        if reload.thread == thread {
            return true;
        }
    }
    false
}

// A number of modules or loads.
pub(crate) fn number(len: usize) -> Result<u32, NoMemory>
    ensures { IfOk result (λ n. n ≡ len) }
{
    match u32::try_from(len) {
        Ok(n) => Ok(n),
        Err(_) => Err(NoMemory),
    }
}

impl Drop for Table {
    fn drop(self) {
        let Table {
            cache,
            objects,
            loads,
            path,
            epoch: _,
            reloading,
            ended,
        } = self;
        drop(cache);
        drop(objects);
        drop(loads);
        drop(path);
        drop(reloading);
        drop(ended);
    }
}
