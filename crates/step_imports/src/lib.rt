//! Steps of imports: the import of a name as a procedure that the work feeds, and the statements `import` and `from`
//! (Language Reference 7.11).
#![tactic(auto)]

mod binding;
mod feeding;
mod import;
mod names;
mod opening;
mod places;
mod relative;
mod stepping;

pub use binding::{begin_binding, begin_bindings, go_on_bindings};
pub use feeding::{begin_feed, fed, go_on_open, replied_feed};
pub use import::{begin_alias, go_on_front, go_on_fronted, go_on_parts};
pub use opening::{begin_import, begin_parent, go_on_imported};
pub use relative::{begin_from, go_on_from, replied_package};
