//! Add, Finish, Release, Source, Main and End.
ghost use Rattle.std.specs.Prelude.{◌≡◌, IfOk, OnOk, OnErr};
ghost use Rattle.spec_core.specs.Names.{parent_of};
ghost use Rattle.machine_spec.specs.Parts.{is_built_in_place, value_of};
ghost use Rattle.machine_spec.specs.Bodies.{add, bind_under, bind_parent, good_entry, finish_entry, closed, finish, release, source, main, end};
ghost use Rattle.std.specs.FinMap as maps;

use base_types::{Exact, NoMemory, Seq, Text};
use machine_events::{Reply, Slot, module_of};
use machine_spec::State;
use module_table::{LoadKind, LoadStage, Phase};
use py_value::{Place, Value};
use spec_core::{Dotted, Spec};

/// Add: a module is made and entered, and its body begins. An `Err` changes nothing.
pub fn add(machine: &mut State, thread: u32, spec: Spec, text: Seq<u8>) -> Result<Reply, NoMemory>
    ensures reply { IfOk result (λ reply. reply ≡ (add machine.old thread spec text).0) }
    ensures ok { OnOk result (machine.new ≡ (add machine.old thread spec text).1) }
    ensures err { OnErr result (machine.new ≡ machine.old) }
{
    let (load, mid) = machine.table.add_unit(
        spec,
        Phase::Initialising,
        LoadKind::Plain,
        thread,
        text,
        LoadStage::Open,
    )?;
    Ok(Reply::Load(load, mid))
}

// Sets the module as a variable of its parent.
fn bind(
    machine: &mut State,
    name: &Dotted,
    entry: &Slot,
    parent: &Dotted,
) -> Result<Reply, NoMemory>
    ensures reply { IfOk result (λ reply. reply ≡ (bind_under machine.old name.now entry.now
        (maps.get machine.old.table.cache parent.now)).0) }
    ensures ok { OnOk result (machine.new ≡ (bind_under machine.old name.now entry.now
        (maps.get machine.old.table.cache parent.now)).1) }
    ensures err { OnErr result (machine.new ≡ machine.old) }
{
    let kept = entry.copy()?;
    match machine.table.entry(parent) {
        None => Ok(Reply::LostParent),
        Some(Slot::Module(module)) => {
            if is_built_in_place(module.place()) {
                return Ok(Reply::Kept(kept));
            }
            let mid = module.mid();
            let tail = Text::from_str(name.alloc(), name.tail())?;
            let value = value_of(entry)?;
            machine.table.set(mid, tail, value)?;
            Ok(Reply::Kept(kept))
        }
        Some(_) => Ok(Reply::Kept(kept)),
    }
}

fn bind_parent(machine: &mut State, name: &Dotted, entry: &Slot) -> Result<Reply, NoMemory>
    ensures reply { IfOk result (λ reply. reply ≡ (bind_parent machine.old name.now entry.now (parent_of name.now)).0) }
    ensures ok { OnOk result (machine.new ≡ (bind_parent machine.old name.now entry.now (parent_of name.now)).1) }
    ensures err { OnErr result (machine.new ≡ machine.old) }
{
    match name.parent() {
        None => Ok(Reply::Kept(entry.copy()?)),
        Some(parent) => {
            let parent = parent.own()?;
            bind(machine, name, entry, &parent)
        }
    }
}

// How a good load of this kind ends, where the cache has this entry.
fn end_good(
    machine: &mut State,
    kind: LoadKind,
    name: &Dotted,
    entry: Option<Slot>,
) -> Result<Reply, NoMemory>
    ensures reply { IfOk result (λ reply. reply ≡ (good_entry machine.old kind name.now entry).0) }
    ensures ok { OnOk result (machine.new ≡ (good_entry machine.old kind name.now entry).1) }
    ensures err { OnErr result (machine.new ≡ machine.old) }
{
    match kind {
        LoadKind::Plain => match entry {
            None => Ok(Reply::Lost),
            Some(slot) => bind_parent(machine, name, &slot),
        },
        _ => match entry {
            None => Ok(Reply::Kept(Slot::Absent)),
            Some(slot) => Ok(Reply::Kept(slot)),
        },
    }
}

fn good_entry(machine: &mut State, kind: LoadKind, name: &Dotted) -> Result<Reply, NoMemory>
    ensures reply { IfOk result (λ reply. reply ≡ (good_entry machine.old kind name.now
        (maps.get machine.old.table.cache name.now)).0) }
    ensures ok { OnOk result (machine.new ≡ (good_entry machine.old kind name.now
        (maps.get machine.old.table.cache name.now)).1) }
    ensures err { OnErr result (machine.new ≡ machine.old) }
{
    let entry = entry_copy(machine, name)?;
    end_good(machine, kind, name, entry)
}

/// A copy of the cache's entry at a name.
pub(crate) fn entry_copy(machine: &State, name: &Dotted) -> Result<Option<Slot>, NoMemory>
    ensures { IfOk result (λ entry. entry ≡ maps.get machine.now.table.cache name.now) }
{
    match machine.table.entry(name) {
        None => Ok(None),
        Some(slot) => Ok(Some(slot.copy()?)),
    }
}

fn finish_entry(
    machine: &mut State,
    kind: LoadKind,
    good: bool,
    name: &Dotted,
) -> Result<Reply, NoMemory>
    ensures reply { IfOk result (λ reply. reply ≡ (finish_entry machine.old kind good name.now).0) }
    ensures ok { OnOk result (machine.new ≡ (finish_entry machine.old kind good name.now).1) }
    ensures err { OnErr result (machine.new ≡ machine.old) }
{
    if good {
        return good_entry(machine, kind, name);
    }
    drop(machine.table.drop_entry(name));
    Ok(Reply::Kept(Slot::Absent))
}

// Ends the load, makes its module ready and gives its lock back.
fn close(machine: &mut State, thread: u32, load: u32, mid: u32, name: &Dotted)
    ensures { machine.new ≡ closed thread load mid name.now machine.old }
{
    machine.table.end_load(load);
    machine.table.set_phase(mid, Phase::Ready);
    machine.locks.give(thread, name);
}

// The body of a load of this kind has ended, and with it the load.
fn finish_load(
    machine: &mut State,
    thread: u32,
    load: u32,
    kind: LoadKind,
    mid: u32,
    good: bool,
    name: &Dotted,
) -> Result<Reply, NoMemory>
    ensures reply { IfOk result (λ reply. reply ≡ (finish_entry machine.old kind good name.now).0) }
    ensures ok { OnOk result
        (machine.new ≡ closed thread load mid name.now (finish_entry machine.old kind good name.now).1) }
    ensures err { OnErr result (machine.new ≡ machine.old) }
{
    let reply = finish_entry(machine, kind, good, name)?;
    close(machine, thread, load, mid, name);
    Ok(reply)
}

/// Finish: a body has ended. An `Err` changes nothing.
pub fn finish(machine: &mut State, thread: u32, load: u32, good: bool) -> Result<Reply, NoMemory>
    ensures reply { IfOk result (λ reply. reply ≡ (finish machine.old thread load good).0) }
    ensures ok { OnOk result (machine.new ≡ (finish machine.old thread load good).1) }
    ensures err { OnErr result (machine.new ≡ machine.old) }
{
    let Some(body) = machine.table.find_load(load) else {
        return Ok(Reply::Done);
    };
    let kind = body.kind;
    let mid = body.mid;
    let Some(object) = machine.table.object(mid) else {
        return Ok(Reply::Done);
    };
    let name = object.spec.name().copy()?;
    finish_load(machine, thread, load, kind, mid, good, &name)
}

/// Release: a lock is given back without a load.
pub fn release(machine: &mut State, thread: u32, name: &Dotted) -> Reply
    ensures reply { result ≡ (release machine.old thread name.now).0 }
    ensures after { machine.new ≡ (release machine.old thread name.now).1 }
{
    machine.locks.give(thread, name);
    Reply::Done
}

/// Source: the module and the text of a load.
pub fn source(machine: &State, load: u32) -> Result<Reply, NoMemory>
    ensures { IfOk result (λ reply. reply ≡ (source machine.now load).0) }
{
    let Some(body) = machine.table.find_load(load) else {
        return Ok(Reply::Done);
    };
    let Some(object) = machine.table.object(body.mid) else {
        return Ok(Reply::Done);
    };
    let module = module_of(&object.spec, body.mid)?;
    Ok(Reply::Loaded(module, body.text.copy()?))
}

/// Main: a module that runs as a program gets its file and its text. An `Err` changes nothing.
pub fn set_main(
    machine: &mut State,
    thread: u32,
    spec: &Spec,
    text: Seq<u8>,
) -> Result<Reply, NoMemory>
    ensures reply { IfOk result (λ reply. reply ≡ (main machine.old thread spec.now text).0) }
    ensures ok { OnOk result (machine.new ≡ (main machine.old thread spec.now text).1) }
    ensures err { OnErr result (machine.new ≡ machine.old) }
{
    machine.table.set_main(thread, spec, text)?;
    Ok(Reply::Done)
}

/// End: the thread has ended. An `Err` changes nothing.
pub fn end_thread(machine: &mut State, thread: u32) -> Result<Reply, NoMemory>
    ensures reply { IfOk result (λ reply. reply ≡ (end machine.old thread).0) }
    ensures ok { OnOk result (machine.new ≡ (end machine.old thread).1) }
    ensures err { OnErr result (machine.new ≡ machine.old) }
{
    machine.table.end(thread)?;
    Ok(Reply::Done)
}

fn is_built_in_place(place: &Place) -> bool
    ensures { result ≡ is_built_in_place place.now }
{
    match place {
        Place::BuiltIn => true,
        _ => false,
    }
}

// What an entry is as a value.
fn value_of(entry: &Slot) -> Result<Value, NoMemory>
    ensures { IfOk result (λ value. value ≡ value_of entry.now) }
{
    match entry {
        Slot::Module(module) => Ok(Value::Module(module.copy()?)),
        _ => Ok(Value::Nothing),
    }
}
