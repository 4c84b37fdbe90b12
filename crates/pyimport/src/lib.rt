//! The program: its scripts as programs of the language, over folders or over trees whose bundles stand as folders, and
//! its words, folder, streams and exit status.
#![tactic(auto)]

mod bundled;
mod bundled_fork;
mod bundled_modules;
mod entry;
mod laws;
mod module;
mod run;
mod script;
mod task;

pub use drive_round::{Gate, OpenGate};
pub use entry::run_program;
pub use laws::each_script_has_a_history;
pub use module::Module;
pub use program_run::{Out, Report};
pub use run::{pyimport, run_all, run_rounds, solo, solo_rounds};
pub use script::Script;
