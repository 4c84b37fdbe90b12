//! The joint changes: all of one event's changes that want memory, or none of them.
ghost use Rattle.std.specs.Prelude.{◌≡◌, ◌++◌, ◌∷◌, [], length, IfOk, OnOk, OnErr};
ghost use Rattle.module_table.specs.Lists.{changed};
ghost use Rattle.module_table.specs.Tables.{with_unit, restarted_with, restarted_object, with_reload_load, with_main, main_vars};

use crate::loads::Loads;
use crate::module::{Load, LoadKind, LoadStage, Object, Phase, Reload};
use crate::objects::Objects;
use crate::start::{main_vars, restarted_vars, start_ns, start_vars};
use crate::table::{Table, number};
use crate::vars::Vars;
use base_types::{Exact, NoMemory, Seq};
use machine_events::{Slot, module_of};
use py_value::NsState;
use spec_core::{Dotted, Spec};

impl Table {
    /// Adds a module and its load, with the module in the cache, and gives the numbers of the load
    /// and of the module: all three changes or, at an `Err`, none.
    pub fn add_unit(
        &mut self,
        spec: Spec,
        phase: Phase,
        kind: LoadKind,
        thread: u32,
        text: Seq<u8>,
        stage: LoadStage,
    ) -> Result<(u32, u32), NoMemory>
        ensures numbers { IfOk result (λ p. p ≡ (length self.old.loads, length self.old.objects)) }
        ensures ok { OnOk result (self.new ≡ with_unit self.old spec phase kind thread text stage) }
        ensures err { OnErr result (self.new ≡ self.old) }
    {
        let alloc = self.alloc();
        let mid = number(self.objects.len())?;
        let load = number(self.loads.len())?;
        let name = spec.name().copy()?;
        let module = module_of(&spec, mid)?;
        let vars = start_vars(alloc, &spec)?;
        let ns = start_ns(alloc, spec.kind())?;
        let object = Object {
            spec,
            phase,
            vars,
            ns,
            load: Some(load),
        };
        let body = Load {
            kind,
            thread,
            mid,
            text,
            stage,
        };
        add_pair(&mut self.objects, &mut self.loads, object, body)?;
        match self.cache.insert(name, Slot::Module(module)) {
            Ok(()) => Ok((load, mid)),
            Err(e) => {
                self.loads.drop_last();
                self.objects.drop_last();
                Err(e)
            }
        }
    }
}

/// What a module is to have when a reload starts it again.
#[derive(Drop)]
pub struct Restart {
    pub vars: Vars,
    pub ns: Option<NsState>,
}

impl Table {
    /// What the module is to have when a reload starts it again under the spec.
    pub fn restart_of(&self, mid: u32, spec: &Spec) -> Result<Restart, NoMemory>
        ensures { IfOk result (λ it. changed (restarted_with it.vars it.ns) self.now.objects mid
            ≡ changed (restarted_object spec.now) self.now.objects mid) }
    {
        let alloc = self.alloc();
        let vars = match self.object(mid) {
            None => Vars::new(alloc),
            Some(object) => restarted_vars(alloc, spec, &object.vars)?,
        };
        Ok(Restart {
            vars,
            ns: start_ns(alloc, spec.kind())?,
        })
    }

    /// The reload of the name has this load.
    fn open_reload(&mut self, name: &Dotted, load: u32)
        ensures { self.new ≡ with_reload_load self.old name.now load }
    {
        let Some(reload) = self.reloading(name) else {
            return;
        };
        let opened = Reload {
            thread: reload.thread,
            mid: reload.mid,
            load: Some(load),
        };
        self.reloading.set(name, opened);
    }

    /// The module starts again, and the reload of the name has this load. It takes no memory.
    pub fn restart(&mut self, mid: u32, restart: Restart, name: &Dotted, load: u32)
        ensures { self.new ≡ record (with_reload_load self.old name.now load) {
          objects = changed (restarted_with restart.vars restart.ns) self.old.objects mid;
        } }
    {
        let Restart { vars, ns } = restart;
        self.open_reload(name, load);
        self.objects.restart(mid, vars, ns);
    }

    /// The load of a script has this text, and its module the package and the file of the spec: all
    /// or, at an `Err`, nothing.
    pub fn set_main(&mut self, thread: u32, spec: &Spec, text: Seq<u8>) -> Result<(), NoMemory>
        ensures ok { OnOk result (self.new ≡ with_main self.old thread spec.now text) }
        ensures err { OnErr result (self.new ≡ self.old) }
    {
        let vars = self.main_vars_of(thread, spec)?;
        self.objects.set_vars(thread, vars);
        self.loads.set_text(thread, text);
        Ok(())
    }

    fn main_vars_of(&self, mid: u32, spec: &Spec) -> Result<Vars, NoMemory>
        ensures { IfOk result (λ it. changed (λ object. record object { vars = it }) self.now.objects mid
            ≡ changed (λ object. record object { vars = main_vars spec.now object.vars }) self.now.objects mid) }
    {
        let alloc = self.alloc();
        match self.object(mid) {
            None => Ok(Vars::new(alloc)),
            Some(object) => main_vars(alloc, spec, &object.vars),
        }
    }
}

// Adds a module and its load, or neither.
fn add_pair(
    objects: &mut Objects,
    loads: &mut Loads,
    object: Object,
    load: Load,
) -> Result<(), NoMemory>
    ensures objects { OnOk result (objects.new ≡ objects.old ++ object ∷ []) }
    ensures loads { OnOk result (loads.new ≡ loads.old ++ load ∷ []) }
    ensures same_objects { OnErr result (objects.new ≡ objects.old) }
    ensures same_loads { OnErr result (loads.new ≡ loads.old) }
{
    objects.push(object)?;
    match loads.push(load) {
        Ok(()) => Ok(()),
        Err(e) => {
            objects.drop_last();
            Err(e)
        }
    }
}
