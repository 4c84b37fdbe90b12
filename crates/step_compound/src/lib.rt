//! Steps of blocks, branches, loops and `try`, and of the lines that import (Language Reference 8).
#![tactic(auto)]

mod block;
mod branches;
mod handlers;
mod handling;
mod imports;
mod kinds;
mod last;
mod loops;
mod tries;

pub use block::{begin_block, begin_statement, begun, go_on_block};
pub use branches::{begin_branches, go_on_test};
pub use handlers::{begin_bind, begin_handle, begin_match, go_on_catch, go_on_handle};
pub use handling::{go_on_end_handler, unbound};
pub use imports::{begin_imports, go_on_imports, go_on_store};
pub use last::{go_on_finally, go_on_resume};
pub use loops::{begin_test, begin_turn, go_on_decide, go_on_loop};
pub use tries::{begin_try, go_on_handlers};
