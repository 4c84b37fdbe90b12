//! What a running script holds and spends, where its events are made, how its search is driven, and what a recorded
//! list of its events says of its end.
#![tactic(auto)]

mod budget;
mod change;
mod costs;
mod end;
mod held;
mod last;
mod payments;
mod places;
mod port;
mod replay;
mod search;

pub use budget::budget_by;
pub use change::{Change, change_of};
pub use costs::{reply_units, texts_size};
pub use end::{Ending, came, give_up, spent, unread};
pub use held::{Held, Hold};
pub use last::{ends_came, ends_out};
pub use payments::{Budget, pay_reply};
pub use places::refused;
pub use port::{Halt, Port};
pub use replay::ReplayPort;
pub use search::{SearchEnd, seek};
