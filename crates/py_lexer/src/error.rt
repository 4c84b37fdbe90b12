//! Why a text is refused.

ghost use Rattle.std.specs.Prelude.{◌≡◌};
ghost use Rattle.py_lexer.specs.Scanning.{lex_error};

use base_types::NoMemory;
use std::alloc::AllocFailed;
use thiserror::Error;

/// What is wrong.
#[derive(Clone, Copy)]
pub enum Kind {
    BadChar,
    BadNumber,
    NumberTooWide,
    OpenString,
    BadEscape,
    BadDedent,
    MixedTabs,
}

/// The first fault of a text, with its line.
#[derive(Clone, Copy)]
pub struct Fault {
    pub kind: Kind,
    pub line: u32,
}

/// Why a source has no tokens: its first fault in text order, with its line, from 1.
#[derive(Clone, Copy, Debug, PartialEq, Eq, Error)]
pub enum LexError {
    /// More than 1,048,576 bytes.
    #[error("the source is too long")]
    TooLong,
    /// The first byte that is no UTF-8.
    #[error("no UTF-8 in line {line}")]
    NotUtf8 { line: u32 },
    /// A character that begins no token, or an identifier whose normal form is none.
    #[error("bad character in line {line}")]
    BadChar { line: u32 },
    /// A number with a `_`, a leading zero, a letter or a `.` where none may stand.
    #[error("bad number in line {line}")]
    BadNumber { line: u32 },
    /// A number above 2^127 - 1.
    #[error("number too wide in line {line}")]
    NumberTooWide { line: u32 },
    /// A string that does not end, with its first line.
    #[error("open string in line {line}")]
    OpenString { line: u32 },
    /// An unknown escape, with the first line of its string.
    #[error("bad escape in line {line}")]
    BadEscape { line: u32 },
    /// A logical line whose first column is that of no open level.
    #[error("bad dedent in line {line}")]
    BadDedent { line: u32 },
    /// A logical line whose two columns disagree about its level.
    #[error("mixed tabs in line {line}")]
    MixedTabs { line: u32 },
    #[error("out of memory")]
    NoMemory,
}

/// Why the text is not scanned.
#[derive(Clone, Copy)]
pub enum ScanError {
    NoMemory,
    Refused(Fault),
}

/// Why a token is not read.
#[derive(Clone, Copy)]
pub enum WordError {
    Memory,
    Bad(Kind),
}

impl From<NoMemory> for WordError {
    ghost use Rattle.std.specs.Prelude.{◌≡◌};
    ghost use Rattle.py_lexer.specs.declared.error.WordError.TheVariants.{Memory};

    ghost from_gives = { λ _ e. e ≡ Memory };

    fn from(_: NoMemory) -> WordError {
        WordError::Memory
    }
}

impl<T: Drop> From<AllocFailed<T>> for WordError {
    ghost use Rattle.std.specs.Prelude.{◌≡◌};
    ghost use Rattle.py_lexer.specs.declared.error.WordError.TheVariants.{Memory};

    ghost from_gives = { λ _ e. e ≡ Memory };

    fn from(_: AllocFailed<T>) -> WordError {
        WordError::Memory
    }
}

impl From<NoMemory> for ScanError {
    ghost use Rattle.std.specs.Prelude.{◌≡◌};
    ghost use Rattle.py_lexer.specs.declared.error.ScanError.TheVariants.{NoMemory};

    ghost from_gives = { λ _ e. e ≡ NoMemory };

    fn from(_: NoMemory) -> ScanError {
        ScanError::NoMemory
    }
}

impl<T: Drop> From<AllocFailed<T>> for ScanError {
    ghost use Rattle.std.specs.Prelude.{◌≡◌};
    ghost use Rattle.py_lexer.specs.declared.error.ScanError.TheVariants.{NoMemory};

    ghost from_gives = { λ _ e. e ≡ NoMemory };

    fn from(_: AllocFailed<T>) -> ScanError {
        ScanError::NoMemory
    }
}

/// The error of a source.
pub fn lex_error(error: ScanError) -> LexError
    ensures { result ≡ lex_error error }
{
    match error {
        ScanError::NoMemory => LexError::NoMemory,
        ScanError::Refused(Fault { kind, line }) => match kind {
            Kind::BadChar => LexError::BadChar { line },
            Kind::BadNumber => LexError::BadNumber { line },
            Kind::NumberTooWide => LexError::NumberTooWide { line },
            Kind::OpenString => LexError::OpenString { line },
            Kind::BadEscape => LexError::BadEscape { line },
            Kind::BadDedent => LexError::BadDedent { line },
            Kind::MixedTabs => LexError::MixedTabs { line },
        },
    }
}
