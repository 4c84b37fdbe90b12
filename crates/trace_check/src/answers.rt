//! What the judgement of a trace answers.

/// How many replies of a history begin a body, make a thread wait, give a module that others are still
/// initialising, and refuse to wait.
#[derive(Clone, Copy, Drop)]
pub struct Counts {
    pub loads: u64,
    pub waits: u64,
    pub cycles: u64,
    pub deadlocks: u64,
}

/// What is wrong with a line of a trace.
#[derive(Clone, Copy, Drop)]
pub enum Why {
    /// It is no line of the format.
    Text,
    /// Its thread is none of the scripts.
    Thread,
    /// Its event is not the one that the script makes next.
    Call,
    /// Its event is not allowed.
    Allowed,
    /// The machine replies otherwise.
    Reply,
    /// A script's events end here, and it makes another one.
    End,
}

/// What comes of a replay: a legal history with its counts, or the first entry that is not as the
/// machine says.
#[derive(Clone, Copy, Drop)]
pub enum Replayed {
    Legal(Counts),
    Breaks { at: u32, why: Why },
}

/// Whether a trace is one that the rules allow: with its counts, or the first line that is wrong.
#[derive(Clone, Copy, Drop)]
pub enum Verdict {
    Yes(Counts),
    No { line: u32, why: Why },
}
