//! What a command line asks for.
use base_types::{NoMemory, Text, Texts};
use thiserror::Error;

/// A run of scripts, or of modules as programs.
#[derive(Drop)]
pub struct RunPlan {
    /// The entries of the search path.
    pub path: Texts,
    /// The budget of each script, in units.
    pub fuel: u64,
    /// Whether the trace is written in place of what is printed.
    pub trace: bool,
    /// The scripts, or the names of the modules. Empty exactly where there is a rounds file.
    pub scripts: Texts,
    /// The rounds file.
    pub rounds: Option<Text>,
    /// Whether bundles are searched as folders.
    pub bundles: bool,
}

/// What a command line asks for.
#[derive(Drop)]
pub enum Plan {
    /// Scripts are run.
    Run(RunPlan),
    /// A made workload is run.
    Gen {
        seed: u64,
        modules: u32,
        scripts: u32,
    },
    /// A stored trace is judged against a run.
    Check {
        run: RunPlan,
        trace_file: Text,
    },
    /// A stored trace is written in the newest format.
    Convert {
        trace_file: Text,
    },
    /// Modules are run as programs; their names stand in place of scripts.
    Module(RunPlan),
    /// All imports under a folder are reported.
    Report {
        path: Texts,
        dir: Text,
    },
    /// The files under a folder are written as a bundle.
    Bundle {
        dir: Text,
    },
}

/// Why there is no plan.
#[derive(Clone, Copy, Debug, Error)]
pub enum WordsError {
    /// The words are refused.
    #[error("the words are refused")]
    Usage,
    #[error("out of memory")]
    NoMemory,
}

impl From<NoMemory> for WordsError {
    ghost use Rattle.std.specs.Prelude.{◌≡◌};
    ghost use Rattle.import_words.specs.declared.plan.WordsError.TheVariants as error;

    ghost from_gives = { λ _ e. e ≡ error.NoMemory };

    fn from(_e: NoMemory) -> WordsError {
        WordsError::NoMemory
    }
}
