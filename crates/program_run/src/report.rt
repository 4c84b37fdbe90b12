//! How a call ended.
ghost use Rattle.std.specs.Prelude.{◌≡◌, Some, None};
ghost use Rattle.program_run.specs.Statuses.{want_of_memory};

use crate::status::WANT_OF_MEMORY;
use base_types::Seq;
use import_words::Plan;
use machine_events::Entry;

/// How a call of the program ended.
#[derive(Drop)]
pub struct Report {
    /// The exit status: one of those from `NORMAL_END` to `WANT_OF_MEMORY`.
    pub status: u8,
    /// What the words asked for, where they were accepted.
    pub plan: Option<Plan>,
    /// The history of the run, where there was one.
    pub history: Option<Seq<Entry>>,
}

/// The status of a run and its history, where there was memory to begin one.
#[derive(Drop)]
pub struct Left {
    pub status: u8,
    pub history: Option<Seq<Entry>>,
}

/// A run with a history.
pub fn of_run(status: u8, history: Seq<Entry>) -> Left
    ensures { result ≡ record { status = status; history = Some history } }
{
    Left {
        status,
        history: Some(history),
    }
}

/// A run for whose history there was no memory.
pub fn unbegun() -> Left
    ensures { result ≡ record { status = want_of_memory; history = None } }
{
    Left {
        status: WANT_OF_MEMORY,
        history: None,
    }
}

/// The report of a run.
pub fn with_plan(ran: Left, plan: Option<Plan>) -> Report
    ensures { result ≡ record { status = ran.status; plan = plan; history = ran.history } }
{
    Report {
        status: ran.status,
        plan,
        history: ran.history,
    }
}

/// A call without a run.
pub fn without_run(status: u8, plan: Option<Plan>) -> Report
    ensures { result ≡ record { status = status; plan = plan; history = None } }
{
    Report {
        status,
        plan,
        history: None,
    }
}
