//! A call of the program, whatever its scripts mean: from the words of its command line to what is
//! written, and to a status.
#![tactic(auto)]

mod alone;
mod answer;
mod begin;
mod finish;
mod laws;
mod line;
mod open;
mod outlet;
mod report;
mod run;
mod scripts;
mod status;
mod together;

pub use alone::run_one;
pub use answer::{call, plan_for, tell, unread};
pub use begin::programs_of;
pub use finish::{Came, finish_run, say_line};
pub use laws::scripts_have_a_history;
pub use line::joined;
pub use open::{Opened, Unopened, open_all, open_script, refused};
pub use outlet::Out;
pub use report::{Left, Report, of_run, unbegun, with_plan, without_run};
pub use run::{run_alone, run_programs, run_scripts};
pub use scripts::Scripts;
pub use status::{
    ERROR_END, NORMAL_END, REFUSAL, SINK_FAULT, SPENT_BUDGET, TREE_FAULT, WANT_OF_MEMORY,
};
pub use together::{finish_some, run_several};
