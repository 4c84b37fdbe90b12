//! Whole calls whose threads pass a gate.
use crate::gates::{First, Flag, Pace, Until};
use crate::groves::Forked;
use crate::sinks::Flagged;
use crate::stopped::stops;
use base_types::{Text, TreePath};
use pyimport::{OpenGate, pyimport};
use std::alloc::Global;
use std::sync::Wait;
use std::test::Fail;
use std::thread::Threads;
use tree_files::{MemSink, MemTree};

fn put(alloc: Global, tree: &mut MemTree, path: &str, bytes: &[u8]) -> Result<(), Fail> {
    let path = TreePath::read(&Text::from_str(alloc, path)?)?.ok_or("no tree path")?;
    if tree.takes_file(&path)? {
        tree.put_file(&path, bytes)?;
    }
    Ok(())
}

fn words(alloc: Global, line: &str) -> Result<Vec<String>, Fail> {
    let mut all = Vec::new(alloc);
    for word in line.split(' ') {
        all.push(String::from_str(alloc, word)?)?;
    }
    Ok(all)
}

// Two scripts that import a module each, which prints one text.
fn importing(alloc: Global) -> Result<MemTree, Fail> {
    let mut tree = MemTree::new(alloc)?;
    put(alloc, &mut tree, "s0.py", b"import a\n")?;
    put(alloc, &mut tree, "s1.py", b"import b\n")?;
    put(alloc, &mut tree, "a.py", b"print(\"a\")\n")?;
    put(alloc, &mut tree, "b.py", b"print(\"b\")\n")?;
    Ok(tree)
}

// Two scripts that print one text each.
fn printing(alloc: Global) -> Result<MemTree, Fail> {
    let mut tree = MemTree::new(alloc)?;
    put(alloc, &mut tree, "s0.py", b"print(\"x\")\n")?;
    put(alloc, &mut tree, "s1.py", b"print(\"x\")\n")?;
    Ok(tree)
}

// Whether both scripts end well where each is held before this event until the other has come to it.
fn keep_pace<R: Threads + Wait + Sync>(rt: &R, alloc: Global, at: u64) -> Result<bool, Fail> {
    let mut tree = importing(alloc)?;
    let words = words(alloc, "run s0.py s1.py")?;
    let gate = Pace {
        at,
        threads: 2,
        came: Flag::new(),
        gave_up: Flag::new(),
    };
    let mut out = MemSink::new(alloc);
    let mut err = MemSink::new(alloc);
    let report = pyimport(
        rt,
        alloc,
        words.as_slice(),
        &mut tree,
        &mut out,
        &mut err,
        &gate,
    );
    Ok(report.status == 0 && gate.came.raised() == 2 && gate.gave_up.raised() == 0)
}

// The same, with the flag that a write to the output raises, and the one that a write of an error raises.
fn goes_out_to<'x, R: Threads + Wait + Sync>(
    rt: &R,
    alloc: Global,
    flag: &'x Flag,
    quiet: &'x Flag,
) -> Result<bool, Fail> {
    let mut tree = printing(alloc)?;
    let words = words(alloc, "run s0.py s1.py")?;
    let gate = Until {
        at: 2,
        flag,
        gave_up: Flag::new(),
    };
    let mut out = Flagged { flag };
    let mut err = Flagged { flag: quiet };
    let report = pyimport(
        rt,
        alloc,
        words.as_slice(),
        &mut tree,
        &mut out,
        &mut err,
        &gate,
    );
    Ok(report.status == 0 && quiet.raised() == 0 && gate.gave_up.raised() == 0)
}

// Whether what a script prints is written before the scripts end: both are held there until it is.
fn goes_out<R: Threads + Wait + Sync>(rt: &R, alloc: Global) -> Result<bool, Fail> {
    let flag = Flag::new();
    let quiet = Flag::new();
    goes_out_to(rt, alloc, &flag, &quiet)
}

// Whether each script passes the gate before its first event: both are held there until the other one
// has come to it, and by then the trace has its first line alone.
fn comes_first_to<'x, R: Threads + Wait + Sync>(
    rt: &R,
    alloc: Global,
    written: &'x Flag,
    quiet: &'x Flag,
) -> Result<bool, Fail> {
    let mut tree = printing(alloc)?;
    let words = words(alloc, "run --trace s0.py s1.py")?;
    let gate = First {
        threads: 2,
        written,
        came: Flag::new(),
        late: Flag::new(),
        gave_up: Flag::new(),
    };
    let mut out = Flagged { flag: written };
    let mut err = Flagged { flag: quiet };
    let report = pyimport(
        rt,
        alloc,
        words.as_slice(),
        &mut tree,
        &mut out,
        &mut err,
        &gate,
    );
    Ok(
        report.status == 0
            && gate.came.raised() == 2
            && gate.late.raised() == 0
            && gate.gave_up.raised() == 0,
    )
}

fn comes_first<R: Threads + Wait + Sync>(rt: &R, alloc: Global) -> Result<bool, Fail> {
    let written = Flag::new();
    let quiet = Flag::new();
    comes_first_to(rt, alloc, &written, &quiet)
}

// The status of a call over a tree that can be forked so often.
fn status_with<'x, R: Threads + Wait + Sync>(
    rt: &R,
    alloc: Global,
    line: &str,
    most: u64,
    forks: &'x Flag,
) -> Result<u8, Fail> {
    let mut tree = Forked {
        tree: printing(alloc)?,
        most,
        forks,
    };
    let words = words(alloc, line)?;
    let mut out = MemSink::new(alloc);
    let mut err = MemSink::new(alloc);
    let report = pyimport(
        rt,
        alloc,
        words.as_slice(),
        &mut tree,
        &mut out,
        &mut err,
        &OpenGate,
    );
    Ok(report.status)
}

// Whether a call over a tree that can be forked so often has this status, and forks it so often.
fn forks<R: Threads + Wait + Sync>(
    rt: &R,
    alloc: Global,
    line: &str,
    most: u64,
    status: u8,
    times: u64,
) -> Result<bool, Fail> {
    let flag = Flag::new();
    let came = status_with(rt, alloc, line, most, &flag)?;
    Ok(came == status && flag.raised() == times)
}

// No script goes from one event to the next alone: a body that runs one to its end first, or keeps the
// turn between two events, holds the other back until the gate gives up.
#[test]
fn two_scripts_keep_pace(rt: HostRuntime) -> Result<(), Fail> {
    for at in 1..7 {
        assert!(rt; keep_pace(&rt, rt.alloc(), at)?);
    }
    Ok(())
}

// One script runs on the tree that is handed in, in the thread of the call.
#[test]
fn one_script_makes_no_fork(rt: HostRuntime) -> Result<(), Fail> {
    assert!(rt; forks(&rt, rt.alloc(), "run s0.py", 0, 0, 0)?);
    Ok(())
}

// Of several scripts each gets a fork of its own. Where one cannot be made, memory is wanted before any begins.
#[test]
fn each_of_several_scripts_has_a_fork(rt: HostRuntime) -> Result<(), Fail> {
    assert!(rt; forks(&rt, rt.alloc(), "run s0.py s1.py", 16, 0, 2)?);
    assert!(rt; forks(&rt, rt.alloc(), "run s0.py s1.py s0.py", 16, 0, 3)?);
    assert!(rt; forks(&rt, rt.alloc(), "run s0.py s1.py", 1, 6, 1)?);
    Ok(())
}

#[test]
fn what_is_printed_goes_out_at_once(rt: HostRuntime) -> Result<(), Fail> {
    assert!(rt; goes_out(&rt, rt.alloc())?);
    Ok(())
}

// A body that calls the gate behind an event has written that event by then.
#[test]
fn the_gate_is_passed_before_an_event(rt: HostRuntime) -> Result<(), Fail> {
    assert!(rt; comes_first(&rt, rt.alloc())?);
    Ok(())
}

// Once a desk has stopped the shared book, the next call of the other desk wants memory.
#[test]
fn a_stopped_shelf_has_no_memory(rt: HostRuntime) -> Result<(), Fail> {
    assert!(rt; stops(&rt, rt.alloc())?);
    Ok(())
}
