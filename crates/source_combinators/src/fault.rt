//! A refused token.

ghost use Rattle.std.specs.Prelude.{◌≡◌, length};

use base_types::NoMemory;
use std::alloc::{AllocError, AllocFailed};
use thiserror::Error;

/// How a token is refused.
#[derive(Clone, Copy, Debug, PartialEq, Eq, Error)]
pub enum Refusal {
    /// Only the limit on open levels refuses it.
    #[error("too many open levels")]
    TooDeep,
    #[error("invalid syntax")]
    Syntax,
}

/// The first token that cannot follow the tokens before it.
#[derive(Clone, Copy, Debug, PartialEq, Eq)]
pub struct Fault {
    pub kind: Refusal,
    /// How many tokens are left from the refused one on.
    pub left: usize,
}

/// Why nothing is read.
#[derive(Clone, Copy, Debug, PartialEq, Eq, Error)]
pub enum ReadError {
    #[error("out of memory")]
    NoMemory,
    #[error("a token cannot follow the tokens before it")]
    Refused(Fault),
}

/// Refused at the first of these tokens.
pub fn refused<T>(kind: Refusal, tokens: &[T]) -> ReadError
    ensures { result ≡ ReadError.Refused (record { kind = kind; left = length tokens.now }) }
{
    ReadError::Refused(Fault {
        kind,
        left: tokens.len(),
    })
}

impl From<NoMemory> for ReadError {
    ghost use Rattle.std.specs.Prelude.{◌≡◌};
    ghost use Rattle.source_combinators.specs.declared.fault.ReadError.TheVariants.{NoMemory};

    ghost from_gives = { λ _ e. e ≡ NoMemory };

    fn from(_: NoMemory) -> ReadError {
        ReadError::NoMemory
    }
}

impl From<AllocError> for ReadError {
    ghost use Rattle.std.specs.Prelude.{◌≡◌};
    ghost use Rattle.source_combinators.specs.declared.fault.ReadError.TheVariants.{NoMemory};

    ghost from_gives = { λ _ e. e ≡ NoMemory };

    fn from(_: AllocError) -> ReadError {
        ReadError::NoMemory
    }
}

impl<T: Drop> From<AllocFailed<T>> for ReadError {
    ghost use Rattle.std.specs.Prelude.{◌≡◌};
    ghost use Rattle.source_combinators.specs.declared.fault.ReadError.TheVariants.{NoMemory};

    ghost from_gives = { λ _ e. e ≡ NoMemory };

    fn from(_: AllocFailed<T>) -> ReadError {
        ReadError::NoMemory
    }
}
