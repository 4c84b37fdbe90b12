//! Why a line is refused.
use base_types::NoMemory;
use thiserror::Error;

/// The cause of a refusal: what could stand in the first field at which no line goes on.
#[derive(Clone, Copy, Debug, PartialEq, Eq, Drop, Error)]
pub enum Cause {
    /// A field is missing, or one too many, or in none of the forms that could stand there. A wrong first line too.
    #[error("a field is missing, is one too many, or has no form that could stand there")]
    Fields,
    /// Only a number could stand there.
    #[error("only a number could stand there")]
    Number,
    /// Only a dotted name could stand there.
    #[error("only a dotted name could stand there")]
    Name,
    /// Only a text or a source could stand there.
    #[error("only a text or a source could stand there")]
    Escape,
    /// No event begins with this word.
    #[error("no event begins with this word")]
    Event,
    /// No reply begins with this word.
    #[error("no reply begins with this word")]
    Reply,
    /// The last line has no line end.
    #[error("the last line has no line end")]
    Cut,
}

/// Why nothing was read.
#[derive(Clone, Copy, Debug, Drop, Error)]
pub enum Refusal {
    #[error(transparent)]
    Cause(Cause),
    #[error("out of memory")]
    NoMemory,
}

impl From<NoMemory> for Refusal {
    ghost use Rattle.std.specs.Prelude.{◌≡◌};
    ghost use Rattle.trace_fields.specs.declared.refusal.Refusal.TheVariants as refusal;

    ghost from_gives = { λ _ e. e ≡ refusal.NoMemory };

    fn from(_e: NoMemory) -> Refusal {
        Refusal::NoMemory
    }
}
