//! Reads of modules and loads that exist, and the search path's growth up to its limit.
ghost use Rattle.std.specs.Prelude.{◌≡◌, ◌<◌, ◌≤◌, map, length, slice_get, Some, IfOk, OnOk, OnErr, option_and_then, nat_lt, if◌then◌else◌};
ghost use Rattle.std.specs.Option.{option_copied, option_map};
ghost use Rattle.module_table.specs.Vars.{var_of};
ghost use Rattle.module_table.specs.Tables.{with_path_item, path_added};

use crate::module::{Load, Phase};
use crate::path::place_from;
use crate::table::Table;
use base_types::{NoMemory, Text, Texts, Wide};
use py_value::{NsState, Value};
use spec_core::Spec;

impl Table {
    /// The spec that the module was first loaded with.
    pub fn spec(&self, mid: u32) -> &Spec
        requires { mid < length self.now.objects }
        ensures { option_map (λ object. object.spec) (slice_get self.now.objects mid) ≡ Some result.now }
    {
        &self.objects.at(mid).spec
    }

    /// How far the module is.
    pub fn phase(&self, mid: u32) -> Phase
        requires { mid < length self.now.objects }
        ensures { option_map (λ object. object.phase) (slice_get self.now.objects mid) ≡ Some result }
    {
        self.objects.at(mid).phase
    }

    /// The load with this number.
    pub fn load(&self, load: u32) -> &Load
        requires { load < length self.now.loads }
        ensures { slice_get self.now.loads load ≡ Some result.now }
    {
        self.loads.at(load)
    }

    /// The value of a module's variable.
    pub fn get(&self, mid: u32, name: &Text) -> Option<&Value>
        ensures { option_copied result ≡ option_and_then (λ object. var_of object.vars name.now)
            (slice_get self.now.objects mid) }
    {
        match self.objects.get(mid) {
            None => None,
            Some(object) => object.vars.get(name),
        }
    }

    /// The names of a module's variables in order.
    pub fn names(&self, mid: u32) -> Result<Texts, NoMemory>
        requires { mid < length self.now.objects }
        ensures { IfOk result (λ names. option_map (λ object. map (λ p. p.0) object.vars)
            (slice_get self.now.objects mid) ≡ Some names) }
    {
        self.objects.at(mid).vars.names()
    }

    /// The state of the search for a namespace.
    pub fn ns(&self, mid: u32) -> Option<&NsState>
        ensures { option_copied result ≡ option_and_then (λ object. object.ns) (slice_get self.now.objects mid) }
    {
        match self.objects.get(mid) {
            None => None,
            Some(object) => object.ns.as_ref(),
        }
    }

    /// Puts a value into the search path, last or before an index, unless the path has 4,096 items. An
    /// `Err` changes nothing.
    pub fn path_add(&mut self, at: Option<Wide>, value: Value) -> Result<bool, NoMemory>
        ensures added { IfOk result (λ added. added ≡ nat_lt (length self.old.path) 4096) }
        ensures ok { OnOk result (self.new ≡ path_added self.old at value) }
        ensures err { OnErr result (self.new ≡ self.old) }
    {
        let len = self.path().len();
        if len >= 4096 {
            return Ok(false);
        }
        self.path_insert(place_from(len, at), value)?;
        Ok(true)
    }
}
