//! A tree whose files are those of another tree after edits, and the trees of rounds: forks of one tree, each with the
//! edits of all rounds up to its own.
#![tactic(auto)]

mod fate;
mod forks;
mod names;
mod overlay;
mod round_laws;

pub use forks::{absorb_fork, absorb_forks, add_edits, edited_fork, edited_forks};
pub use overlay::{Overlay, are_below_root};
pub use round_laws::forks_tell_their_rounds;
