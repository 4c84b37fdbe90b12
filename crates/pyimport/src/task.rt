//! Which call does what the words ask for.
ghost use Rattle.std.specs.Prelude.{◌≡◌};
ghost use Rattle.pyimport.specs.Tasks.{modules_by, runs_by, task_of};

use base_types::{Text, Texts};
use import_words::{Plan, RunPlan};

/// The numbers of a made workload.
#[derive(Clone, Copy, Drop)]
pub struct Numbers {
    pub seed: u64,
    pub modules: u32,
    pub scripts: u32,
}

/// The file of a stored trace, and the run against which it is judged.
#[derive(Drop)]
pub struct Stored {
    pub run: RunPlan,
    pub trace_file: Text,
}

/// The folder whose imports are reported, and the path on which their names are searched.
#[derive(Drop)]
pub struct Reported {
    pub path: Texts,
    pub dir: Text,
}

/// What is to be done for a plan.
#[derive(Drop)]
pub enum Task {
    /// Scripts run over a made workload.
    Make(Numbers),
    /// The trace in this file is written anew.
    Convert(Text),
    /// The imports of the files below a folder are reported.
    Report(Reported),
    /// The files below this folder are written as a bundle.
    Bundle(Text),
    /// A stored trace is judged.
    Check(Stored),
    /// Modules run as programs.
    Modules(RunPlan),
    /// The same over the tree in which bundles are folders.
    ModulesInBundles(RunPlan),
    /// Scripts run over the tree in which bundles are folders.
    RunInBundles(RunPlan),
    /// Scripts run over the tree, or the words are refused.
    Run(Option<Plan>),
}

/// Modules run as programs, by whether bundles are folders.
fn modules_of(run: RunPlan) -> Task
    ensures { result ≡ modules_by run.bundles run }
{
    if run.bundles {
        return Task::ModulesInBundles(run);
    }
    Task::Modules(run)
}

/// Scripts run, by whether bundles are folders.
fn runs_of(run: RunPlan) -> Task
    ensures { result ≡ runs_by run.bundles run }
{
    if run.bundles {
        return Task::RunInBundles(run);
    }
    Task::Run(Some(Plan::Run(run)))
}

/// What is to be done for a plan; there is none where the words are refused.
pub fn task_of(plan: Option<Plan>) -> Task
    ensures { result ≡ task_of plan }
{
    match plan {
        Some(
            Plan::Gen {
                seed,
                modules,
                scripts,
            },
        ) => Task::Make(Numbers {
            seed,
            modules,
            scripts,
        }),
        Some(Plan::Convert { trace_file }) => Task::Convert(trace_file),
        Some(Plan::Report { path, dir }) => Task::Report(Reported { path, dir }),
        Some(Plan::Bundle { dir }) => Task::Bundle(dir),
        Some(Plan::Check { run, trace_file }) => Task::Check(Stored { run, trace_file }),
        Some(Plan::Module(run)) => modules_of(run),
        Some(Plan::Run(run)) => runs_of(run),
        other => Task::Run(other),
    }
}
