//! The status that a history has.
ghost use Rattle.std.specs.Prelude.{◌≡◌};
ghost use Rattle.std.specs.Option.{option_map};
ghost use Rattle.machine_shown.specs.Own.{own};
ghost use Rattle.program_run.specs.Ends.{end_in, end_of, number_of, number_at, status_of};
ghost use Rattle.program_gen.specs.Worst.{number_behind};

use machine_events::{Entry, Event, Outcome};
use program_run::{ERROR_END, NORMAL_END, SPENT_BUDGET, TREE_FAULT};

fn number_of(outcome: &Outcome) -> u8
    ensures number { result ≡ number_of outcome.now }
{
    match outcome {
        Outcome::Normal => NORMAL_END,
        Outcome::Raised(_) => ERROR_END,
        Outcome::Fuel => SPENT_BUDGET,
        Outcome::Read => TREE_FAULT,
    }
}

/// The number of an End.
fn number_in(event: &Event) -> Option<u8>
    ensures { result ≡ option_map number_of (end_in event.now) }
{
    match event {
        Event::End { outcome, .. } => Some(number_of(outcome)),
        _ => None,
    }
}

/// The number of how a script ended, where an entry comes behind others.
fn number_behind(number: u8, entry: &Entry, script: u32) -> u8
    ensures { result ≡ number_behind number entry.now script }
{
    if entry.thread != script {
        return number;
    }
    match number_in(&entry.event) {
        Some(other) => other,
        None => number,
    }
}

/// The number of how a script ended.
fn number_at(history: &[Entry], script: u32) -> u8
    ensures { result ≡ number_at (end_of (own script history.now)) }
{
    let mut number = NORMAL_END;
    for entry in history {
        number = number_behind(number, entry, script);
    }
    number
}

/// The greatest number over the ends of so many scripts.
pub(crate) fn worst_in(history: &[Entry], scripts: u32) -> u8
    ensures { result ≡ status_of scripts history.now }
{
    let mut worst = NORMAL_END;
    for script in 0..scripts {
        worst = number_at(history, script).max(worst);
    }
    worst
}
