//! Steps of what `from` statements take of a module: names, submodules, and all names by a star.
#![tactic(auto)]

mod module_name;
mod star;
mod starred;
mod submodules;

pub use module_name::{begin_from_module, replied_entry, replied_from_module};
pub use star::{begin_star, begin_stars, go_on_stars, replied_all, replied_names};
pub use submodules::{
    begin_ask_submodules, begin_submodule, begin_submodules, go_on_submodules,
    go_on_tried_submodule, replied_if_package, replied_missed, replied_submodule,
};
