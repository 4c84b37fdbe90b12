//! PathGet, PathAdd, DirGet, DirSet, Invalidate, NsGet and NsSet.
ghost use Rattle.std.specs.Prelude.{◌≡◌, ◌<◌, false, IfOk, OnOk, OnErr, ℤ, Option};
ghost use Rattle.machine_spec.specs.Search.{path_get, path_add, dir_get, dir_set, invalidate, ns_get, ns_set};
ghost use Rattle.py_value.specs.declared.value.Value.{Value};

use base_types::{Exact, Listing, NoMemory, Text, TreePath, Wide};
use machine_events::Reply;
use machine_spec::State;
use module_table::KeptListing;
use py_value::{NsState, Value};
use spec_core::PathMap;

/// PathGet: the search path is read.
pub fn path_get(machine: &State) -> Result<Reply, NoMemory>
    ensures { IfOk result (λ reply. reply ≡ (path_get machine.now).0) }
{
    Ok(Reply::Path(machine.table.path().copy()?))
}

/// PathAdd: an item is put into the search path. An `Err` changes nothing.
pub fn path_add(machine: &mut State, at: Option<Wide>, value: Value) -> Result<Reply, NoMemory>
    ensures reply { IfOk result (λ reply. reply ≡ (path_add machine.old at value).0) }
    ensures ok { OnOk result (machine.new ≡ (path_add machine.old at value).1) }
    ensures err { OnErr result (machine.new ≡ machine.old) }
{
    if machine.table.path_add(at, value)? {
        Ok(Reply::Done)
    } else {
        Ok(Reply::Full)
    }
}

/// DirGet: the kept listing of a directory is looked at.
pub fn dir_get(machine: &State, dir: &TreePath, part: &Text) -> Result<Reply, NoMemory>
    ensures { IfOk result (λ reply. reply ≡ (dir_get machine.now dir.now part.now).0) }
{
    let Some(listing) = machine.listings.get(dir) else {
        return Ok(Reply::NoListing);
    };
    let mut file = part.copy()?;
    file.push_str(".py")?;
    Ok(Reply::Listing(listing.time(), listing.has(part), listing.has(&file)))
}

/// DirSet: a listing is kept. An `Err` changes nothing.
pub fn dir_set(machine: &mut State, dir: TreePath, listing: Listing) -> Result<Reply, NoMemory>
    ensures reply { IfOk result (λ reply. reply ≡ (dir_set machine.old dir listing).0) }
    ensures ok { OnOk result (machine.new ≡ (dir_set machine.old dir listing).1) }
    ensures err { OnErr result (machine.new ≡ machine.old) }
{
    machine.listings.insert(dir, KeptListing::new(listing))?;
    Ok(Reply::Done)
}

/// Invalidate: all listings are dropped. An `Err` changes nothing.
pub fn invalidate(machine: &mut State) -> Result<Reply, NoMemory>
    ensures reply { IfOk result (λ reply. reply ≡ (invalidate machine.old).0) }
    ensures ok { OnOk result (machine.new ≡ (invalidate machine.old).1) }
    ensures err { OnErr result (machine.new ≡ machine.old) }
{
    if machine.table.epoch() == u64::MAX {
        return Err(NoMemory);
    }
    machine.table.raise_epoch();
    machine.listings = PathMap::new(machine.table.alloc());
    Ok(Reply::Done)
}

/// NsGet: the search state of a namespace is read.
pub fn ns_get(machine: &State, mid: u32) -> Result<Reply, NoMemory>
    ensures { IfOk result (λ reply. reply ≡ (ns_get machine.now mid).0) }
{
    let Some(object) = machine.table.object(mid) else {
        return Ok(Reply::Done);
    };
    match &object.ns {
        None => Ok(Reply::Done),
        Some(state) => Ok(Reply::Ns(state.copy()?, machine.table.epoch())),
    }
}

/// NsSet: the search state of a namespace is kept.
pub fn ns_set(machine: &mut State, mid: u32, state: NsState) -> Reply
    ensures reply { result ≡ (ns_set machine.old mid state).0 }
    ensures after { machine.new ≡ (ns_set machine.old mid state).1 }
{
    machine.table.set_ns(mid, state);
    Reply::Done
}

/// What PathAdd would be answered.
pub fn path_add_reply(machine: &State) -> Reply
    ensures { (at : Option ℤ) (v : Value) → result ≡ (path_add machine.now at v).0 }
{
    if machine.table.path().len() < 4096 {
        Reply::Done
    } else {
        Reply::Full
    }
}
