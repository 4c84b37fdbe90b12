//! The code of the machine's step: the events of variables and of the search, and the one step for all events.
#![tactic(auto)]

mod cache;
mod giving;
mod replies;
mod search;
mod steps;
mod variable_replies;
mod variables;

pub use cache::{tab_del, tab_del_reply, tab_get, tab_set, tab_set_reply};
pub use giving::gives;
pub use replies::reply;
pub use search::{
    dir_get, dir_set, invalidate, ns_get, ns_set, path_add, path_add_reply, path_get,
};
pub use steps::step;
pub use variable_replies::{del_reply, set_reply};
pub use variables::{del_var, get_var, names, set_var};
