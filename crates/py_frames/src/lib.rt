//! The work that remains of a script: pieces that are due, frames that wait, and what is wanted next.
#![tactic(auto)]

mod few;
mod joining;
mod listing;
mod paths;
mod procedures;
mod replies;
mod rousing;
mod stack;
mod unwind;
mod want;
mod ways;
mod work;

pub use few::{is_cache, only, pair, triple};
pub use joining::{joined_name, put_part};
pub use listing::{first_listed, is_listed, list_operand, listed, search_path, search_path_read};
pub use paths::{is_namespace_path, replace};
pub use procedures::Procedure;
pub use replies::OnReply;
pub use rousing::{rouse, roused};
pub use stack::Work;
pub use want::Want;
pub use ways::{fail, given, sized, went};
pub use work::{Form, Frame, Item};
