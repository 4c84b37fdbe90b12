//! From bytes to rounds.
ghost use Rattle.std.specs.Prelude.{◌≡◌, ◌∷◌, [], ◌++◌, map, IfOk};
ghost use Rattle.words_rounds.specs.Reading.{Reads, Tells, pieces, read_on, rounds_in, start};
ghost use Rattle.words_rounds.specs.Refusing.{Says};

use crate::draft::{ended, next, start};
use crate::rounds::{Rounds, RoundsError};
use std::alloc::{AllocError, Global};

/// What stands before, between and behind the line ends.
fn pieces_of(alloc: Global, bytes: &[u8]) -> Result<Vec<&[u8]>, AllocError>
    ensures { IfOk result (λ v. map (λ x. x.now) v.items ≡ pieces bytes.now) }
{
    bytes.split(|b| *b == b'\n').collect(alloc)
}

/// The refusal at a line. A number without room is want of memory, as everywhere.
fn refusal(line: usize) -> RoundsError
    ensures { Tells line result }
{
    if line <= u32::MAX as usize {
        RoundsError::At { line: line as u32 }
    } else {
        RoundsError::NoMemory
    }
}

/// The lines, each without its line end, and what stands behind the last line end.
fn read_lines(alloc: Global, lines: &[&[u8]], rest: &[u8]) -> Result<Rounds, RoundsError>
    ensures { Reads (read_on 1 start (map (λ x. x.now) lines.now ++ rest.now ∷ [])) result }
{
    let mut draft = start(alloc);
    for i in 0..lines.len() {
        match next(alloc, lines[i], draft)? {
            Some(more) => draft = more,
            None => {
                return Err(refusal(i + 1));
            }
        }
    }
    match ended(rest, draft)? {
        Some(rounds) => Ok(rounds),
        None => Err(refusal(lines.len() + 1)),
    }
}

fn read_pieces(alloc: Global, pieces: &[&[u8]]) -> Result<Rounds, RoundsError>
    ensures { Reads (read_on 1 start (map (λ x. x.now) pieces.now)) result }
{
    match pieces.split_last() {
        Some((rest, lines)) => read_lines(alloc, lines, rest),
        None => Err(RoundsError::At { line: 1 }),
    }
}

#[tactic(auto, unfolding(crate::specs::Reading::rounds_in))]
fn read_by_line(alloc: Global, bytes: &[u8]) -> Result<Rounds, RoundsError>
    ensures { Reads (rounds_in bytes.now) result }
{
    match pieces_of(alloc, bytes) {
        Ok(pieces) => read_pieces(alloc, pieces.as_slice()),
        Err(_) => Err(RoundsError::NoMemory),
    }
}

/// The rounds that a rounds file says, or the first line at which no rounds file goes on.
#[tactic(auto, using(crate::proofs::Refused::says_from))]
pub fn read_rounds(alloc: Global, bytes: &[u8]) -> Result<Rounds, RoundsError>
    ensures lines { Reads (rounds_in bytes.now) result }
    ensures says { Says bytes.now result }
{
    read_by_line(alloc, bytes)
}
