//! The calls of the program for modules, stored traces, bundles and reports, from the words to a status.
#![tactic(auto)]

mod folder_bundle;
mod folder_open;
mod make;
mod modules;
mod named;
mod programs;
mod refusal;
mod report;
mod telling;
mod trace_convert;
mod trace_open;

pub use folder_bundle::bundle;
pub use folder_open::open_folder;
pub use modules::run_modules;
pub use named::{Named, names_are_safe};
pub use refusal::refusal_line;
pub use report::report_imports;
pub use telling::{Told, tell_report};
pub use trace_convert::convert;
pub use trace_open::{LONGEST_TRACE, open_trace};
