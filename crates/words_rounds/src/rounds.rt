//! What a rounds file says.
use base_types::{NoMemory, Seq, Texts};
use thiserror::Error;
use tree_files::Edit;

/// The edits that are made before a round, in order, and the scripts that run in it.
#[derive(Drop)]
pub struct Round {
    pub edits: Seq<Edit>,
    /// The tree paths of the scripts, as texts.
    pub scripts: Texts,
}

/// All rounds, in order.
#[derive(Drop)]
pub struct Rounds {
    pub list: Seq<Round>,
}

/// Why there are no rounds.
#[derive(Clone, Copy, Debug, Error)]
pub enum RoundsError {
    /// The first line, counted from 1, at which no rounds file goes on.
    #[error("no rounds file goes on with line {line}")]
    At { line: u32 },
    #[error("out of memory")]
    NoMemory,
}

impl From<NoMemory> for RoundsError {
    ghost use Rattle.std.specs.Prelude.{◌≡◌};
    ghost use Rattle.words_rounds.specs.declared.rounds.RoundsError.TheVariants as error;

    ghost from_gives = { λ _ e. e ≡ error.NoMemory };

    fn from(_e: NoMemory) -> RoundsError {
        RoundsError::NoMemory
    }
}
