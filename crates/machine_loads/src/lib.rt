//! The code of the machine's step for loads: the cache's questions and waits, bodies that end, reloads and lazy modules.
#![tactic(auto)]

mod bodies;
mod body_replies;
mod lazies;
mod locks;
mod reload_replies;
mod reloads;
mod sleep;
mod wait_replies;
mod waits;

pub use bodies::{add, end_thread, finish, release, set_main, source};
pub use body_replies::{add_reply, finish_reply};
pub use lazies::{add_lazy, rouse};
pub use locks::{closes, take_or, wait_or, wait_reply};
pub use reload_replies::{
    add_lazy_reply, reload_begin_reply, reload_end_reply, reload_take_reply, rouse_reply,
};
pub use reloads::{reload_begin, reload_end, reload_take};
pub use sleep::{is_built_in, sleeping};
pub use wait_replies::{ask_reply, take_reply};
pub use waits::{ask, take, wake};
