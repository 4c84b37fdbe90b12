//! What `from` imports from.

ghost use Rattle.std.specs.Prelude.{◌≡◌, ℕ, ◌+◌, ◌<◌, ◌≤◌, length, IfOk};
ghost use Rattle.source_combinators.specs.Reading.{head_of};
ghost use Rattle.source_combinators.specs.Outcome.{GivesAt, GivesRest, Shortens, StaysWithin};
ghost use Rattle.source_spec_lines.specs.Lines as reading;
ghost use Rattle.source_parse_lines.specs.Views.{source_of};

use crate::names::{dotted, name_ahead};
use base_types::{NoMemory, Seq, Texts};
use py_syntax::Lexeme;
use source_combinators::{ReadError, Refusal, refused};
use std::alloc::Global;

/// How many dots stand before a dotted name, and its parts.
#[derive(Drop)]
pub struct ImportSource {
    pub dots: u32,
    pub parts: Texts,
}

/// Whether dots stand here.
#[tactic(auto, unfolding(source_spec_lines::specs::Lines::dots_ahead))]
fn dots_ahead(tokens: &[Lexeme]) -> bool
    ensures { (n : ℕ) → result ≡ reading.dots_ahead n (head_of tokens.now) }
{
    match tokens {
        [Lexeme::Dot, ..] => true,
        [Lexeme::Ellipsis, ..] => true,
        _ => false,
    }
}

/// The sum. There is no room for one that does not fit its type.
fn sum_of(count: u32, more: u32) -> Result<u32, NoMemory>
    ensures { IfOk result (λ sum. sum ≡ count + more) }
{
    match count.checked_add(more) {
        Some(sum) => Ok(sum),
        None => Err(NoMemory),
    }
}

/// One dot, or three as one token.
#[tactic(auto, unfolding(source_spec_lines::specs::Lines::more_dots))]
fn more_dots(count: u32, tokens: &[Lexeme]) -> Result<(u32, &[Lexeme]), ReadError>
    ensures value { GivesAt (λ x. x) result (reading.more_dots count tokens.now) }
    ensures shorter { Shortens tokens.now result }
{
    match tokens {
        [Lexeme::Dot, rest @ ..] => Ok((sum_of(count, 1)?, rest)),
        [Lexeme::Ellipsis, rest @ ..] => Ok((sum_of(count, 3)?, rest)),
        _ => Err(refused(Refusal::Syntax, tokens)),
    }
}

/// How many dots stand here.
#[tactic(auto, unfolding(source_spec_lines::specs::Lines::dots, source_combinators::specs::Many::many))]
fn dots(tokens: &[Lexeme]) -> Result<(u32, &[Lexeme]), ReadError>
    ensures value { GivesAt (λ x. x) result (reading.dots tokens.now) }
    ensures within { StaysWithin tokens.now result }
{
    let mut count = 0;
    let mut rest = tokens;
    'dots: while dots_ahead(rest) {
        let (next, after) = more_dots(count, rest)?;
        count = next;
        rest = after;
    }
    Ok((count, rest))
}

/// A dotted name behind so many dots.
fn with_dots(
    alloc: Global,
    dots: u32,
    tokens: &[Lexeme],
) -> Result<(ImportSource, &[Lexeme]), ReadError>
    ensures value { GivesAt source_of result (reading.with_dots dots tokens.now) }
    ensures within { StaysWithin tokens.now result }
{
    let (parts, rest) = dotted(alloc, tokens)?;
    Ok((ImportSource { dots, parts }, rest))
}

/// A dotted name, which may be left out behind dots.
#[tactic(auto, unfolding(source_spec_lines::specs::Lines::parts_after))]
fn parts_after(
    alloc: Global,
    dots: u32,
    tokens: &[Lexeme],
) -> Result<(ImportSource, &[Lexeme]), ReadError>
    ensures value { GivesAt source_of result (reading.parts_after dots tokens.now) }
    ensures within { StaysWithin tokens.now result }
{
    if dots == 0 {
        return with_dots(alloc, dots, tokens);
    }
    if name_ahead(tokens) {
        return with_dots(alloc, dots, tokens);
    }
    let parts = Seq::new(alloc);
    Ok((ImportSource { dots, parts }, tokens))
}

/// What is imported from: dots and a dotted name, of which one may be left out (Language Reference 7.11).
#[tactic(auto, unfolding(source_spec_lines::specs::Lines::source))]
fn source(alloc: Global, tokens: &[Lexeme]) -> Result<(ImportSource, &[Lexeme]), ReadError>
    ensures value { GivesAt source_of result (reading.source tokens.now) }
    ensures within { StaysWithin tokens.now result }
{
    let (dots, rest) = dots(tokens)?;
    parts_after(alloc, dots, rest)
}

/// What follows `import`.
#[tactic(auto, unfolding(source_spec_lines::specs::Lines::import_word))]
fn import_word(tokens: &[Lexeme]) -> Result<&[Lexeme], ReadError>
    ensures value { GivesRest result (reading.import_word tokens.now) }
    ensures shorter { IfOk result (λ rest. length rest.now < length tokens.now) }
{
    match tokens {
        [Lexeme::Import, rest @ ..] => Ok(rest),
        _ => Err(refused(Refusal::Syntax, tokens)),
    }
}

/// What is imported from, and the word `import` behind it.
#[tactic(auto, unfolding(source_spec_lines::specs::Lines::source_import))]
pub fn source_import(
    alloc: Global,
    tokens: &[Lexeme],
) -> Result<(ImportSource, &[Lexeme]), ReadError>
    ensures value { GivesAt source_of result (reading.source_import tokens.now) }
    ensures shorter { Shortens tokens.now result }
{
    let (source, rest) = source(alloc, tokens)?;
    let rest = import_word(rest)?;
    Ok((source, rest))
}
