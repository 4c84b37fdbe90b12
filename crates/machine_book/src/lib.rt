//! A book: a machine with the history of its events and an outlet. And desks, where one script makes
//! its events on a book.
#![tactic(auto)]

mod answered;
mod book;
mod opening;
mod solo;

pub use book::Book;
pub use opening::Opening;
pub use solo::{Borrowed, SoloDesk};
