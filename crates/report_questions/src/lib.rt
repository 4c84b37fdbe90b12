//! The import statements of a source and what they ask of a search path: a question for each line of a report, with no
//! file looked for.
#![tactic(auto)]

mod collect;
mod faults;
mod lines;
mod modules;
mod names;
mod question;
mod relative;
mod source;
mod sources;

pub use collect::{Asked, statements};
pub use lines::import_lines;
pub use modules::package_of_file;
pub use names::dotted_name;
pub use question::{Query, Question};
pub use source::{Import, imports_of};
pub use sources::{questions, too_long};
