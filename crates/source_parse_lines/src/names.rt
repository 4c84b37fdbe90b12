//! Names, dotted names, and what they are bound to.

ghost use Rattle.std.specs.Prelude.{◌≡◌, ◌<◌, ◌≤◌, length, IfOk};
ghost use Rattle.source_combinators.specs.Reading.{head_of};
ghost use Rattle.source_combinators.specs.Separated.{next_item};
ghost use Rattle.source_combinators.specs.Outcome.{GivesAt, Shortens, StaysWithin};
ghost use Rattle.source_spec_lines.specs.Lines as reading;

use crate::lists::{one, with};
use base_types::{Exact, Text, Texts};
use py_syntax::{Alias, Lexeme};
use source_combinators::{ReadError, Refusal, refused};
use std::alloc::Global;

/// A name (Language Reference 2.3).
#[tactic(auto, unfolding(source_spec_lines::specs::Lines::name))]
pub fn name(tokens: &[Lexeme]) -> Result<(Text, &[Lexeme]), ReadError>
    ensures value { GivesAt (λ x. x) result (reading.name tokens.now) }
    ensures shorter { Shortens tokens.now result }
{
    match tokens {
        [Lexeme::Name(name), rest @ ..] => Ok((name.copy()?, rest)),
        _ => Err(refused(Refusal::Syntax, tokens)),
    }
}

/// Whether a name stands here.
#[tactic(auto, unfolding(source_spec_lines::specs::Lines::name_ahead))]
pub fn name_ahead(tokens: &[Lexeme]) -> bool
    ensures { result ≡ reading.name_ahead (head_of tokens.now) }
{
    matches!(tokens, [Lexeme::Name(_), ..])
}

/// Whether a comma stands here.
#[tactic(auto, unfolding(source_spec_lines::specs::Lines::comma_ahead))]
pub fn comma_ahead(tokens: &[Lexeme]) -> bool
    ensures { result ≡ reading.comma_ahead (head_of tokens.now) }
{
    matches!(tokens, [Lexeme::Comma, ..])
}

/// Whether a dot stands here.
#[tactic(auto, unfolding(source_spec_lines::specs::Lines::dot_ahead))]
fn dot_ahead(tokens: &[Lexeme]) -> bool
    ensures { result ≡ reading.dot_ahead (head_of tokens.now) }
{
    matches!(tokens, [Lexeme::Dot, ..])
}

/// A dot, and the next part of a dotted name.
#[tactic(auto, unfolding(source_combinators::specs::Separated::next_item))]
fn next_part(parts: Texts, tokens: &[Lexeme]) -> Result<(Texts, &[Lexeme]), ReadError>
    ensures value { GivesAt (λ x. x) result (next_item reading.name parts tokens.now) }
    ensures shorter { Shortens tokens.now result }
{
    match tokens {
        [_, rest @ ..] => {
            let (part, rest) = name(rest)?;
            Ok((with(parts, part)?, rest))
        }
        [] => Err(refused(Refusal::Syntax, tokens)),
    }
}

/// The parts of a dotted name.
#[tactic(auto, unfolding(source_combinators::specs::Separated::separated, source_combinators::specs::Many::many))]
pub fn dotted(alloc: Global, tokens: &[Lexeme]) -> Result<(Texts, &[Lexeme]), ReadError>
    ensures value { GivesAt (λ x. x) result (reading.dotted tokens.now) }
    ensures shorter { Shortens tokens.now result }
{
    let (part, mut rest) = name(tokens)?;
    let mut parts = one(alloc, part)?;
    'parts: while dot_ahead(rest) {
        let (next, after) = next_part(parts, rest)?;
        parts = next;
        rest = after;
    }
    Ok((parts, rest))
}

/// The name behind `as`, if there is one.
#[tactic(auto, unfolding(source_spec_lines::specs::Lines::bound))]
pub fn bound(tokens: &[Lexeme]) -> Result<(Option<Text>, &[Lexeme]), ReadError>
    ensures value { GivesAt (λ x. x) result (reading.bound tokens.now) }
    ensures within { StaysWithin tokens.now result }
{
    match tokens {
        [Lexeme::As, rest @ ..] => {
            let (name, rest) = name(rest)?;
            Ok((Some(name), rest))
        }
        _ => Ok((None, tokens)),
    }
}

/// A dotted name and what it is bound to.
#[tactic(auto, unfolding(source_spec_lines::specs::Lines::alias))]
pub fn alias(alloc: Global, tokens: &[Lexeme]) -> Result<(Alias, &[Lexeme]), ReadError>
    ensures value { GivesAt (λ x. x) result (reading.alias tokens.now) }
    ensures shorter { Shortens tokens.now result }
{
    let (parts, rest) = dotted(alloc, tokens)?;
    let (bound, rest) = bound(rest)?;
    Ok((Alias { parts, bound }, rest))
}

/// A name and what it is bound to.
#[tactic(auto, unfolding(source_spec_lines::specs::Lines::item))]
pub fn item(alloc: Global, tokens: &[Lexeme]) -> Result<(Alias, &[Lexeme]), ReadError>
    ensures value { GivesAt (λ x. x) result (reading.item tokens.now) }
    ensures shorter { Shortens tokens.now result }
{
    let (part, rest) = name(tokens)?;
    let (bound, rest) = bound(rest)?;
    let parts = one(alloc, part)?;
    Ok((Alias { parts, bound }, rest))
}
