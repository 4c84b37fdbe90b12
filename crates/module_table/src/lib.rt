//! The modules, their loads and variables, the cache, and what is kept of the search.
#![tactic(auto)]

mod cache;
mod kept;
mod loads;
mod module;
mod objects;
mod path;
mod reads;
mod start;
mod table;
mod units;
mod vars;

pub use cache::Cache;
pub use kept::KeptListing;
pub use loads::Loads;
pub use module::{Load, LoadKind, LoadStage, Object, Phase, Reload};
pub use objects::Objects;
pub use start::{start_ns, start_vars, text_values};
pub use table::Table;
pub use units::Restart;
pub use vars::Vars;
