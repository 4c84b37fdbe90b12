//! What a piece of work wants first, and how it goes on after that.
use crate::procedures::Procedure;
use crate::replies::OnReply;
use crate::work::{Frame, Item};
use base_types::TreePath;
use machine_events::{Event, Reply};
use meaning_state::Flow;
use py_value::Items;
use spec_core::Dotted;

/// What a piece of work wants first, and how it goes on after that.
#[derive(Drop)]
pub enum Want {
    /// Nothing: the rest of the work, in this way.
    Go(Flow),
    /// This piece of work, and then the rest.
    Then(Item),
    /// This piece of work, then this, and then the rest.
    Both(Item, Frame),
    /// Units, for a call of the tree or not, and then this piece of work.
    Pay {
        of_tree: bool,
        units: u64,
        item: Item,
    },
    /// An event, which costs a unit and what its reply costs.
    Call(Event, OnReply),
    /// What the reply to an event costs.
    Replied(OnReply, Reply),
    /// A wait for a lock, which is free.
    Wait(Item),
    /// A search for a name on a path.
    Find {
        name: Dotted,
        path: Items,
        procedure: Procedure,
    },
    /// The text of a file, if one stands there: a unit is paid for that.
    File(TreePath, Procedure),
}
