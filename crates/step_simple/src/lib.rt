//! Steps of simple statements (Language Reference chapter 7), and how names and attributes are read, bound, set and
//! deleted (4.2.2, 6.3.1, 7.2).
#![tactic(auto)]

mod built_ins;
mod locals;
mod member_paths;
mod members;
mod names;
mod paths;
mod placing;
mod raising;
mod simple;
mod targets;

pub use locals::{is_local_name, set_local, unset_local};
pub use members::{
    delete_member, member, member_deleted, member_read, member_stored, set_member, stored,
};
pub use names::{delete_name, deleted, global, read_global, read_name, store};
pub use simple::perform;
