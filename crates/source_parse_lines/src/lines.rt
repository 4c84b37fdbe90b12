//! Lines of simple statements.

ghost use Rattle.std.specs.Prelude.{◌≡◌, ◌<◌, ◌≤◌, ◌&&◌, length, IfOk, Ok};
ghost use Rattle.source_combinators.specs.Reading.{head_of};
ghost use Rattle.source_combinators.specs.Separated.{listed_item, begins_listed, listed};
ghost use Rattle.source_combinators.specs.Outcome.{GivesAt, Shortens, StaysWithin};
ghost use Rattle.source_spec_lines.specs.Lines as reading;
ghost use Rattle.source_parse_lines.specs.Views.{stmts_of};

use crate::lists::with;
use crate::simple_stmts::simple;
use base_types::Seq;
use py_syntax::{Context, Lexeme, Stmt};
use source_combinators::ReadError;
use std::alloc::Global;

/// Statements so far, and whether another one may follow: there is none yet, or a semicolon came last.
#[derive(Drop)]
pub struct Stmts {
    pub found: Seq<Stmt>,
    pub is_open: bool,
}

/// Whether a semicolon stands here, and what follows it.
#[tactic(auto, unfolding(source_spec_lines::specs::Lines::semicolon))]
fn semicolon(tokens: &[Lexeme]) -> (bool, &[Lexeme])
    ensures value { reading.semicolon tokens.now ≡ Ok (result.0, result.1.now) }
    ensures within { length result.1.now ≤ length tokens.now }
{
    match tokens {
        [Lexeme::Semicolon, rest @ ..] => (true, rest),
        _ => (false, tokens),
    }
}

/// Whether a line goes on behind a semicolon.
#[tactic(auto, unfolding(source_spec_lines::specs::Lines::goes_on))]
fn goes_on(tokens: &[Lexeme]) -> bool
    ensures { result ≡ reading.goes_on (head_of tokens.now) }
{
    match tokens {
        [Lexeme::Newline, ..] => false,
        _ => true,
    }
}

/// A statement, and the semicolon behind it.
#[tactic(auto, unfolding(source_combinators::specs::Separated::listed_item))]
fn listed_stmt(
    alloc: Global,
    context: Context,
    stmts: Stmts,
    tokens: &[Lexeme],
    room: usize,
) -> Result<(Stmts, &[Lexeme]), ReadError>
    ensures value { GivesAt stmts_of result (listed_item (reading.simple context room) reading.semicolon
        (stmts_of stmts) tokens.now) }
    ensures shorter { Shortens tokens.now result }
{
    let (next, rest) = simple(alloc, context, tokens, room)?;
    let (is_open, rest) = semicolon(rest);
    let found = with(stmts.found, next)?;
    Ok((Stmts { found, is_open }, rest))
}

/// Whether another statement follows.
fn begins_stmt(stmts: &Stmts, tokens: &[Lexeme]) -> bool
    ensures { result ≡ begins_listed reading.goes_on (stmts_of stmts.now) (head_of tokens.now) }
{
    stmts.is_open && goes_on(tokens)
}

/// Statements with semicolons between, and perhaps one behind the last.
#[tactic(auto, unfolding(source_combinators::specs::Separated::listed, source_combinators::specs::Many::many))]
fn listed_stmts(
    alloc: Global,
    context: Context,
    tokens: &[Lexeme],
    room: usize,
) -> Result<(Stmts, &[Lexeme]), ReadError>
    ensures value { GivesAt stmts_of result (listed reading.goes_on
        (reading.simple context room) reading.semicolon tokens.now) }
    ensures shorter { Shortens tokens.now result }
{
    let none = Stmts {
        found: Seq::new(alloc),
        is_open: true,
    };
    let (mut stmts, mut rest) = listed_stmt(alloc, context, none, tokens, room)?;
    'stmts: while begins_stmt(&stmts, rest) {
        let (next, after) = listed_stmt(alloc, context, stmts, rest, room)?;
        stmts = next;
        rest = after;
    }
    Ok((stmts, rest))
}

/// The statements of a line, up to its end.
#[tactic(auto, unfolding(source_spec_lines::specs::Lines::line))]
pub fn line(
    alloc: Global,
    context: Context,
    tokens: &[Lexeme],
    room: usize,
) -> Result<(Seq<Stmt>, &[Lexeme]), ReadError>
    ensures value { GivesAt (λ x. x) result (reading.line context room tokens.now) }
    ensures shorter { Shortens tokens.now result }
{
    let (stmts, rest) = listed_stmts(alloc, context, tokens, room)?;
    Ok((stmts.found, rest))
}
