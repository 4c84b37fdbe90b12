//! The words of the command line, taken apart by `clap` and read to plans, and the rounds files that they may name.
#![tactic(auto)]

mod clap_command;
mod command;
mod found;
mod number;
mod parser;
mod path;
mod plan;
mod read;
mod run;
mod take;
mod texts;

pub use clap_command::Command;
pub use command::usage_line;
pub use found::{Front, Settings};
pub use plan::{Plan, RunPlan, WordsError};
pub use read::read_words;
pub use take::take_apart;
pub use words_rounds::{Round, Rounds, RoundsError, read_rounds};
