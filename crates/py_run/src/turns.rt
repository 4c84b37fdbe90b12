//! Where a turn leads.
use drive_straight::Next;
use meaning_state::Flow;

/// Where a turn leads.
#[derive(Drop)]
pub enum Turn {
    /// To what comes next.
    On(Next),
    /// No work is left.
    Came(Flow),
    /// To the end, since a payment could not be made.
    Out,
    /// To the end, since a call of the tree failed after a payment that left so much before it.
    Unread(u64),
}
