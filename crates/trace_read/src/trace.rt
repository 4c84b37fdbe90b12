//! What reading a trace answers.
use base_types::{NoMemory, Seq};
use machine_events::Entry;
use thiserror::Error;
use trace_fields::Cause;

/// A trace: the number of its format, 1 or 2, and its entries.
#[derive(Drop)]
pub struct Trace {
    pub format: u32,
    pub entries: Seq<Entry>,
}

/// Why there is no trace.
#[derive(Debug, Drop, Error)]
pub enum TraceError {
    /// The first line, counted from 1, that is no line of the format, and the cause.
    #[error("line {line} is refused: {cause}")]
    At { line: u32, cause: Cause },
    #[error("out of memory")]
    NoMemory,
}

impl From<NoMemory> for TraceError {
    ghost use Rattle.std.specs.Prelude.{◌≡◌};
    ghost use Rattle.trace_read.specs.declared.trace.TraceError.TheVariants as error;

    ghost from_gives = { λ _ e. e ≡ error.NoMemory };

    fn from(_e: NoMemory) -> TraceError {
        TraceError::NoMemory
    }
}
