//! The report of a folder: what a dotted name means on a search path, the line for each question of a source, and all
//! lines of a folder.
#![tactic(auto)]

mod laws;
mod line;
mod meaning;
mod meanings;
mod offers;
mod pending;
mod seeking;
mod sources;
mod visit;
mod walk;
mod wanted;

pub use laws::folders_are_listed_once;
pub use line::{Line, question_line, too_deep};
pub use meaning::{Meaning, entries, meaning_of};
pub use seeking::search;
pub use walk::Walk;
