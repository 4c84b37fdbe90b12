//! Whether an event is allowed.
ghost use Rattle.std.specs.Prelude.{◌≡◌, ◌≤◌, ◌&&◌, true, false, None, not, map, slice_get};
ghost use Rattle.std.specs.List.{list_any, list_all};
ghost use Rattle.module_lock.specs.Table.{holds};
ghost use Rattle.machine_spec.specs.Known.{names_modules};
ghost use Rattle.machine_spec.specs.Allowed.{scripts, all_ended, is_due, has_name, is_open_of, has_spare, has_text, has_body, is_source, can_finish, has_object, is_ns_path, is_path_item, is_absent, has_ns, is_reloading, can_end, fits, allowed};
ghost use Rattle.import_machine.specs.SpareCounts.{count_of, AreTold};

use crate::known::{all_name_modules, names_modules, slot_names_module};
use base_types::Seq;
use machine_events::{Event, Slot, is_same_load};
use machine_spec::State;
use module_table::{LoadKind, LoadStage};
use py_value::{NsState, Value};
use spec_core::{Dotted, NameMap, Spec, SpecKind};

/// The number of scripts, of which there are at most 16. It takes no memory.
pub fn scripts(machine: &State) -> u32
    requires { scripts machine.now ≤ 16 }
    ensures { result ≡ scripts machine.now }
{
    machine.rounds.len() as u32
}

// Whether the first so many threads have ended.
#[tactic(auto, using(crate::proofs::Rounds::all_more, crate::proofs::Rounds::all_less))]
fn all_ended(machine: &State, first: u32) -> bool
    ensures { result ≡ all_ended machine.now first }
{
    for thread in 0..first {
        if !machine.table.ended(thread) {
            return false;
        }
    }
    true
}

fn is_due(machine: &State, thread: u32) -> bool
    ensures { result ≡ is_due machine.now thread }
{
    match machine.rounds.get(thread as usize) {
        None => false,
        Some(first) => all_ended(machine, *first),
    }
}

fn has_object(machine: &State, mid: u32) -> bool
    ensures { result ≡ has_object machine.now mid }
{
    (mid as u64) < machine.table.objects()
}

fn has_ns(machine: &State, mid: u32) -> bool
    ensures { result ≡ has_ns (slice_get machine.now.table.objects mid) }
{
    match machine.table.object(mid) {
        None => false,
        Some(object) => object.ns.is_some(),
    }
}

fn has_name(machine: &State, mid: u32, name: &Dotted) -> bool
    ensures { result ≡ has_name (slice_get machine.now.table.objects mid) name.now }
{
    match machine.table.object(mid) {
        None => false,
        Some(object) => *object.spec.name() == *name,
    }
}

fn count(counts: &NameMap<u64>, name: &Dotted) -> u64
    ensures { result ≡ count_of counts.now name.now }
{
    match counts.get(name) {
        None => 0,
        Some(count) => *count,
    }
}

#[tactic(auto, using(crate::proofs::Spare::no_spare, crate::proofs::Spare::spare_is))]
fn has_spare(machine: &State, counts: &NameMap<u64>, thread: u32, name: &Dotted) -> bool
    requires { AreTold machine.now counts.now }
    ensures { result ≡ has_spare machine.now thread name.now }
{
    match machine.locks.owner(name) {
        None => false,
        Some(lock) => lock.owner == thread && count(counts, name) < lock.count as u64,
    }
}

fn can_finish(machine: &State, thread: u32, load: u32) -> bool
    ensures { result ≡ can_finish thread (slice_get machine.now.table.loads load) }
{
    match machine.table.find_load(load) {
        None => false,
        Some(load) => {
            load.stage == LoadStage::Open
                && load.thread == thread
                && (load.kind == LoadKind::Plain || load.kind == LoadKind::Lazy)
        }
    }
}

// Whether the thread reloads the module, by this load or by none yet.
fn is_reloading(machine: &State, thread: u32, mid: u32, load: Option<u32>) -> bool
    ensures { result ≡ is_reloading machine.now thread mid load }
{
    let Some(object) = machine.table.object(mid) else {
        return false;
    };
    match machine.table.reloading(object.spec.name()) {
        None => false,
        Some(reload) => {
            reload.thread == thread && reload.mid == mid && is_same_load(reload.load, load)
        }
    }
}

// A thread that owns no lock has no open load.
fn can_end(machine: &State, thread: u32) -> bool
    requires { holds machine.now.locks thread ≡ false → list_any (is_open_of thread) machine.now.table.loads ≡ false }
    ensures { result ≡ can_end machine.now thread }
{
    !machine.locks.holds(thread) && !machine.table.reloads(thread)
}

fn can_set(machine: &State, mid: u32, value: &Value) -> bool
    ensures { result ≡ (has_object machine.now mid && not (is_ns_path value.now)
        && names_modules machine.now.table value.now) }
{
    has_object(machine, mid) && !is_ns_path(value) && names_modules(&machine.table, value)
}

fn can_add(machine: &State, counts: &NameMap<u64>, thread: u32, spec: &Spec, text: &Seq<u8>) -> bool
    requires { AreTold machine.now counts.now }
    ensures { result ≡ (has_spare machine.now thread spec.now.name && has_text spec.now.kind text.now) }
{
    has_spare(machine, counts, thread, spec.name()) && has_text(spec.kind(), text)
}

fn can_add_lazy(machine: &State, counts: &NameMap<u64>, thread: u32, spec: &Spec) -> bool
    requires { AreTold machine.now counts.now }
    ensures { result ≡ (has_spare machine.now thread spec.now.name && has_body spec.now.kind) }
{
    has_spare(machine, counts, thread, spec.name()) && has_body(spec.kind())
}

fn can_keep(machine: &State, mid: u32, state: &NsState) -> bool
    ensures { result ≡ (has_ns (slice_get machine.now.table.objects mid)
        && list_all (λ b. b) (map (names_modules machine.now.table) state.now.parent_path)) }
{
    has_ns(machine, mid) && all_name_modules(&machine.table, state.parent_path())
}

fn can_reload(machine: &State, thread: u32, mid: u32, spec: &Spec, text: &Seq<u8>) -> bool
    ensures { result ≡ (is_reloading machine.now thread mid None
        && has_name (slice_get machine.now.table.objects mid) spec.now.name
        && has_text spec.now.kind text.now) }
{
    is_reloading(machine, thread, mid, None)
        && has_name(machine, mid, spec.name())
        && has_text(spec.kind(), text)
}

// What the event asks beside the conditions on the thread.
fn fits(machine: &State, counts: &NameMap<u64>, thread: u32, event: &Event) -> bool
    requires { AreTold machine.now counts.now }
    ensures { result ≡ fits machine.now thread event.now }
{
    match event {
        Event::Ask(_) => true,
        Event::Take(_) => true,
        Event::Wake => false,
        Event::Add { spec, text } => can_add(machine, counts, thread, spec, text),
        Event::Finish { load, .. } => can_finish(machine, thread, *load),
        Event::Release(name) => has_spare(machine, counts, thread, name),
        Event::GetVar { mid, .. } => has_object(machine, *mid),
        Event::SetVar { mid, value, .. } => can_set(machine, *mid, value),
        Event::DelVar { mid, .. } => has_object(machine, *mid),
        Event::Names(mid) => has_object(machine, *mid),
        Event::Source(load) => (*load as u64) < machine.table.loads(),
        Event::Print(text) => text.len() <= 65536,
        Event::PathGet => true,
        Event::PathAdd { value, .. } => {
            is_path_item(value.get()) && names_modules(&machine.table, value.get())
        }
        Event::DirGet { .. } => true,
        Event::DirSet { .. } => true,
        Event::Invalidate => true,
        Event::NsGet(mid) => has_ns(machine, *mid),
        Event::NsSet { mid, state } => can_keep(machine, *mid, state),
        Event::TabGet(_) => true,
        Event::TabSet { slot, .. } => {
            !is_absent(slot) && slot_names_module(&machine.table, slot)
        }
        Event::TabDel(_) => true,
        Event::ReloadBegin { mid, .. } => has_object(machine, *mid),
        Event::ReloadTake { mid, spec, text } => can_reload(machine, thread, *mid, spec, text),
        Event::ReloadEnd { mid, load } => is_reloading(machine, thread, *mid, *load),
        Event::AddLazy { spec, .. } => can_add_lazy(machine, counts, thread, spec),
        Event::Rouse(mid) => has_object(machine, *mid),
        Event::Main { spec, .. } => is_source(spec.kind()),
        Event::End { .. } => can_end(machine, thread),
    }
}

/// Whether the thread may make the event, where the counts tell the open loads of each name whose lock
/// is owned. It takes no memory, and looks through no loads.
pub fn allowed(machine: &State, counts: &NameMap<u64>, thread: u32, event: &Event) -> bool
    requires { AreTold machine.now counts.now }
    ensures { result ≡ allowed machine.now thread event.now }
{
    if !is_due(machine, thread) {
        return false;
    }
    if machine.table.ended(thread) {
        return false;
    }
    match event {
        Event::Wake => machine.locks.can_wake(thread),
        _ => machine.locks.awaited(thread).is_none() && fits(machine, counts, thread, event),
    }
}

fn has_text(kind: &SpecKind, text: &Seq<u8>) -> bool
    ensures { result ≡ has_text kind.now text.now }
{
    match kind {
        SpecKind::Builtin => false,
        SpecKind::Namespace { .. } => text.len() == 0,
        _ => true,
    }
}

fn has_body(kind: &SpecKind) -> bool
    ensures { result ≡ has_body kind.now }
{
    match kind {
        SpecKind::Source { .. } | SpecKind::Package { .. } => true,
        _ => false,
    }
}

fn is_source(kind: &SpecKind) -> bool
    ensures { result ≡ is_source kind.now }
{
    match kind {
        SpecKind::Source { .. } => true,
        _ => false,
    }
}

fn is_ns_path(value: &Value) -> bool
    ensures { result ≡ is_ns_path value.now }
{
    match value {
        Value::NsPath => true,
        _ => false,
    }
}

// Whether the value may stand in the search path.
fn is_path_item(value: &Value) -> bool
    ensures { result ≡ is_path_item value.now }
{
    match value {
        Value::SysModules | Value::SysPath | Value::NsPath => false,
        _ => true,
    }
}

fn is_absent(slot: &Slot) -> bool
    ensures { result ≡ is_absent slot.now }
{
    match slot {
        Slot::Absent => true,
        _ => false,
    }
}
