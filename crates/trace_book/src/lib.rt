//! One book that the threads of a round share, each with a pass of its own.
#![tactic(auto)]

mod bell;
mod desk;
mod laws;
mod pass;
mod place;
mod rule;
mod shelf;
mod view;

pub use bell::Bell;
pub use desk::SharedDesk;
pub use laws::stopped_stays;
pub use pass::Pass;
pub use place::Place;
pub use rule::{Fill, GiveBack, Merge, Note, OneNumber, Take, Turns};
pub use shelf::{Shelf, Unopened, gather};
pub use view::{Base, Phase, Start, View};
