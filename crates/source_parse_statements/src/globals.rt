//! The `global` lines of a function (Language Reference 7.12).

ghost use Rattle.std.specs.Prelude.{◌≡◌, ◌<◌, ◌≤◌, length, IfOk};
ghost use Rattle.source_combinators.specs.Reading.{head_of};
ghost use Rattle.source_combinators.specs.Separated.{next_item, separated};
ghost use Rattle.source_combinators.specs.Outcome.{GivesAt, Shortens, StaysWithin};
ghost use Rattle.source_spec_lines.specs.Lines as lines;
ghost use Rattle.source_spec_statements.specs.Reading as reading;

use crate::lists::joined;
use crate::name_set::NameSet;
use crate::parameters::fresh;
use crate::tokens::{global_ahead, newline};
use base_types::{Seq, Texts};
use py_syntax::Lexeme;
use source_combinators::{ReadError, Refusal, refused};
use source_parse_lines::{comma_ahead, one, with};
use std::alloc::Global;

/// A comma, and one more name.
#[tactic(auto, unfolding(source_combinators::specs::Separated::next_item))]
fn next_name<'a>(
    parameters: &NameSet,
    found: Texts,
    tokens: &'a [Lexeme],
) -> Result<(Texts, &'a [Lexeme]), ReadError>
    ensures value { GivesAt (λ x. x) result (next_item (reading.fresh parameters.now) found tokens.now) }
    ensures shorter { Shortens tokens.now result }
{
    match tokens {
        [_, rest @ ..] => {
            let (next, rest) = fresh(parameters, rest)?;
            Ok((with(found, next)?, rest))
        }
        [] => Err(refused(Refusal::Syntax, tokens)),
    }
}

/// The names of a line.
#[tactic(auto, unfolding(source_combinators::specs::Separated::separated, source_combinators::specs::Many::many))]
fn names<'a>(
    alloc: Global,
    parameters: &NameSet,
    tokens: &'a [Lexeme],
) -> Result<(Texts, &'a [Lexeme]), ReadError>
    ensures value { GivesAt (λ x. x) result (separated lines.comma_ahead (reading.fresh parameters.now) tokens.now) }
    ensures shorter { Shortens tokens.now result }
{
    let (first, mut rest) = fresh(parameters, tokens)?;
    let mut found = one(alloc, first)?;
    'names: while comma_ahead(rest) {
        let (next, after) = next_name(parameters, found, rest)?;
        found = next;
        rest = after;
    }
    Ok((found, rest))
}

/// One more line.
#[tactic(auto, unfolding(source_spec_statements::specs::Reading::next_global))]
fn next_global<'a>(
    alloc: Global,
    parameters: &NameSet,
    found: Texts,
    tokens: &'a [Lexeme],
) -> Result<(Texts, &'a [Lexeme]), ReadError>
    ensures value { GivesAt (λ x. x) result (reading.next_global parameters.now found tokens.now) }
    ensures shorter { Shortens tokens.now result }
{
    match tokens {
        [Lexeme::Global, rest @ ..] => {
            let (more, rest) = names(alloc, parameters, rest)?;
            let rest = newline(rest)?;
            Ok((joined(found, more)?, rest))
        }
        _ => Err(refused(Refusal::Syntax, tokens)),
    }
}

/// The names of all lines. None of them is a parameter's.
#[tactic(auto, unfolding(source_spec_statements::specs::Reading::globals, source_combinators::specs::Many::many))]
pub fn globals<'a>(
    alloc: Global,
    parameters: &NameSet,
    tokens: &'a [Lexeme],
) -> Result<(Texts, &'a [Lexeme]), ReadError>
    ensures value { GivesAt (λ x. x) result (reading.globals parameters.now tokens.now) }
    ensures within { StaysWithin tokens.now result }
{
    let mut found = Seq::new(alloc);
    let mut rest = tokens;
    'lines: while global_ahead(rest) {
        let (next, after) = next_global(alloc, parameters, found, rest)?;
        found = next;
        rest = after;
    }
    Ok((found, rest))
}
