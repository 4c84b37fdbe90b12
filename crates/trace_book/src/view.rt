//! What a pass knows. No value of it is made.
use machine_desk::Flow;
use machine_events::Entry;
use machine_spec::State;
use std::collections::LinkedList;

/// What an outlet was when a shared book was opened: its flag, what it had written, where it tells that,
/// its count of faults and its state.
pub struct Start {
    pub trace: bool,
    pub written: Option<LinkedList<u8>>,
    pub faults: u64,
    pub flow: Flow,
}

/// What no step of a shared book changes: what the book was when it was opened, and the round that it is open for, as
/// the number of the first script and how many there are.
pub struct Base {
    pub opening: State,
    pub first: LinkedList<Entry>,
    pub from: u32,
    pub size: u32,
    pub start: Start,
}

/// Whether a pass has the turn, and what it is about to do.
pub enum Phase {
    /// It has the turn, and the slot is still empty.
    New(LinkedList<Entry>),
    Idle,
    /// It has the turn, and will give this history back.
    Holding(LinkedList<Entry>),
    /// It has still to take in the numbers and the beginning of another.
    Joined(LinkedList<u32>, LinkedList<Entry>),
    /// Another has taken it in.
    Spent,
}

/// What one pass knows: the numbers that it speaks for, and a beginning of the history.
pub struct View {
    pub base: Base,
    pub numbers: LinkedList<u32>,
    pub seen: LinkedList<Entry>,
    pub phase: Phase,
    /// It knows that the shared book is stopped.
    pub stopped: bool,
}
