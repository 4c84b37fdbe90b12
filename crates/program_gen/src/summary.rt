//! The line, and what it counts.
ghost use Rattle.std.specs.Prelude.{◌≡◌, IfOk};
ghost use Rattle.program_gen.specs.Summary.{adds, prints, is_load, is_print, loads_in, prints_in, line_of, summary};

use base_types::NoMemory;
use machine_events::{Entry, Event};
use std::alloc::Global;

fn adds(event: &Event) -> bool
    ensures { result ≡ adds event.now }
{
    matches!(event, Event::Add { .. })
}

fn prints(event: &Event) -> bool
    ensures { result ≡ prints event.now }
{
    matches!(event, Event::Print(_))
}

fn is_load(entry: &Entry) -> bool
    ensures { result ≡ is_load entry.now }
{
    adds(&entry.event)
}

fn is_print(entry: &Entry) -> bool
    ensures { result ≡ is_print entry.now }
{
    prints(&entry.event)
}

/// How many entries add a module.
fn loads_in(history: &[Entry]) -> usize
    ensures { result ≡ loads_in history.now }
{
    let mut count: usize = 0;
    for entry in history {
        if is_load(entry) {
            count += 1;
        }
    }
    count
}

/// How many entries print.
fn prints_in(history: &[Entry]) -> usize
    ensures { result ≡ prints_in history.now }
{
    let mut count: usize = 0;
    for entry in history {
        if is_print(entry) {
            count += 1;
        }
    }
    count
}

fn line_of(
    alloc: Global,
    modules: u32,
    scripts: u32,
    loads: usize,
    prints: usize,
    status: u8,
) -> Result<Vec<u8>, NoMemory>
    ensures { IfOk result (λ line. line.items ≡ line_of modules scripts loads prints status) }
{
    let line = format!(in alloc;
        "modules {modules} scripts {scripts} loads {loads} prints {prints} status {status}\n"
    )?;
    Ok(line.into_bytes())
}

/// The line about the run of so many scripts over so many modules: how many modules its history
/// adds, how many texts it prints, and the status.
pub fn write_summary(
    alloc: Global,
    modules: u32,
    scripts: u32,
    history: &[Entry],
    status: u8,
) -> Result<Vec<u8>, NoMemory>
    ensures { IfOk result (λ line. line.items ≡ summary modules scripts history.now status) }
{
    let loads = loads_in(history);
    let prints = prints_in(history);
    line_of(alloc, modules, scripts, loads, prints, status)
}
