//! `import` and `from` (Language Reference 7.11).

ghost use Rattle.std.specs.Prelude.{◌≡◌, ◌<◌, ◌≤◌, ◌&&◌, length, IfOk};
ghost use Rattle.source_combinators.specs.Reading.{head_of};
ghost use Rattle.source_combinators.specs.Separated.{next_item, separated, listed_item, begins_listed, listed};
ghost use Rattle.source_combinators.specs.Outcome.{GivesAt, Shortens, StaysWithin};
ghost use Rattle.source_spec_lines.specs.Expressions as expressions;
ghost use Rattle.source_spec_lines.specs.Lines as reading;
ghost use Rattle.source_parse_lines.specs.Views.{items_of};

use crate::lists::{one, with};
use crate::names::{alias, comma_ahead, item, name_ahead};
use crate::sources::source_import;
use base_types::Seq;
use py_syntax::{Alias, Context, ImportedNames, Lexeme, Stmt};
use source_combinators::{ReadError, Refusal, refused};
use source_parse_expressions::{close_paren, comma};
use std::alloc::Global;

/// Items so far, and whether another one may follow: there is none yet, or a comma came last.
#[derive(Drop)]
pub struct NameItems {
    pub found: Seq<Alias>,
    pub is_open: bool,
}

/// A comma, and one more module.
#[tactic(auto, unfolding(source_combinators::specs::Separated::next_item))]
fn next_alias(
    alloc: Global,
    found: Seq<Alias>,
    tokens: &[Lexeme],
) -> Result<(Seq<Alias>, &[Lexeme]), ReadError>
    ensures value { GivesAt (λ x. x) result (next_item reading.alias found tokens.now) }
    ensures shorter { Shortens tokens.now result }
{
    match tokens {
        [_, rest @ ..] => {
            let (next, rest) = alias(alloc, rest)?;
            Ok((with(found, next)?, rest))
        }
        [] => Err(refused(Refusal::Syntax, tokens)),
    }
}

/// The modules behind `import`.
#[tactic(auto, unfolding(source_combinators::specs::Separated::separated, source_combinators::specs::Many::many))]
fn aliases(alloc: Global, tokens: &[Lexeme]) -> Result<(Seq<Alias>, &[Lexeme]), ReadError>
    ensures value { GivesAt (λ x. x) result (separated reading.comma_ahead reading.alias tokens.now) }
    ensures shorter { Shortens tokens.now result }
{
    let (first, mut rest) = alias(alloc, tokens)?;
    let mut found = one(alloc, first)?;
    'aliases: while comma_ahead(rest) {
        let (next, after) = next_alias(alloc, found, rest)?;
        found = next;
        rest = after;
    }
    Ok((found, rest))
}

/// The rest of an `import`.
#[tactic(auto, unfolding(source_spec_lines::specs::Lines::imported))]
pub fn imported(alloc: Global, tokens: &[Lexeme]) -> Result<(Stmt, &[Lexeme]), ReadError>
    ensures value { GivesAt (λ x. x) result (reading.imported tokens.now) }
    ensures shorter { Shortens tokens.now result }
{
    let (found, rest) = aliases(alloc, tokens)?;
    Ok((Stmt::Import(found), rest))
}

/// A comma, and one more name.
#[tactic(auto, unfolding(source_combinators::specs::Separated::next_item))]
fn next_name(
    alloc: Global,
    found: Seq<Alias>,
    tokens: &[Lexeme],
) -> Result<(Seq<Alias>, &[Lexeme]), ReadError>
    ensures value { GivesAt (λ x. x) result (next_item reading.item found tokens.now) }
    ensures shorter { Shortens tokens.now result }
{
    match tokens {
        [_, rest @ ..] => {
            let (next, rest) = item(alloc, rest)?;
            Ok((with(found, next)?, rest))
        }
        [] => Err(refused(Refusal::Syntax, tokens)),
    }
}

/// Names with commas between.
#[tactic(auto, unfolding(source_combinators::specs::Separated::separated, source_combinators::specs::Many::many))]
fn several_names(alloc: Global, tokens: &[Lexeme]) -> Result<(Seq<Alias>, &[Lexeme]), ReadError>
    ensures value { GivesAt (λ x. x) result (separated reading.comma_ahead reading.item tokens.now) }
    ensures shorter { Shortens tokens.now result }
{
    let (first, mut rest) = item(alloc, tokens)?;
    let mut found = one(alloc, first)?;
    'names: while comma_ahead(rest) {
        let (next, after) = next_name(alloc, found, rest)?;
        found = next;
        rest = after;
    }
    Ok((found, rest))
}

/// Names without parentheses.
#[tactic(auto, unfolding(source_spec_lines::specs::Lines::plain_names))]
fn plain_names(alloc: Global, tokens: &[Lexeme]) -> Result<(ImportedNames, &[Lexeme]), ReadError>
    ensures value { GivesAt (λ x. x) result (reading.plain_names tokens.now) }
    ensures shorter { Shortens tokens.now result }
{
    let (found, rest) = several_names(alloc, tokens)?;
    Ok((ImportedNames::Listed(found), rest))
}

/// A name, and the comma behind it.
#[tactic(auto, unfolding(source_combinators::specs::Separated::listed_item))]
fn listed_name(
    alloc: Global,
    items: NameItems,
    tokens: &[Lexeme],
) -> Result<(NameItems, &[Lexeme]), ReadError>
    ensures value { GivesAt items_of result (listed_item reading.item expressions.comma (items_of items) tokens.now) }
    ensures shorter { Shortens tokens.now result }
{
    let (next, rest) = item(alloc, tokens)?;
    let (is_open, rest) = comma(rest);
    let found = with(items.found, next)?;
    Ok((NameItems { found, is_open }, rest))
}

/// Whether another name follows.
fn begins_name(items: &NameItems, tokens: &[Lexeme]) -> bool
    ensures { result ≡ begins_listed reading.name_ahead (items_of items.now) (head_of tokens.now) }
{
    items.is_open && name_ahead(tokens)
}

/// Names with commas between, and perhaps one behind the last.
#[tactic(auto, unfolding(source_combinators::specs::Separated::listed, source_combinators::specs::Many::many))]
fn listed_names(alloc: Global, tokens: &[Lexeme]) -> Result<(NameItems, &[Lexeme]), ReadError>
    ensures value { GivesAt items_of result (listed reading.name_ahead reading.item expressions.comma tokens.now) }
    ensures shorter { Shortens tokens.now result }
{
    let none = NameItems {
        found: Seq::new(alloc),
        is_open: true,
    };
    let (mut items, mut rest) = listed_name(alloc, none, tokens)?;
    'names: while begins_name(&items, rest) {
        let (next, after) = listed_name(alloc, items, rest)?;
        items = next;
        rest = after;
    }
    Ok((items, rest))
}

/// Names in parentheses, behind the opening one.
#[tactic(auto, unfolding(source_spec_lines::specs::Lines::names_in_parens))]
fn names_in_parens(
    alloc: Global,
    tokens: &[Lexeme],
) -> Result<(ImportedNames, &[Lexeme]), ReadError>
    ensures value { GivesAt (λ x. x) result (reading.names_in_parens tokens.now) }
    ensures shorter { Shortens tokens.now result }
{
    let (items, rest) = listed_names(alloc, tokens)?;
    let rest = close_paren(rest)?;
    Ok((ImportedNames::Listed(items.found), rest))
}

/// What is imported: all names, or those that are listed.
#[tactic(auto, unfolding(source_spec_lines::specs::Lines::names))]
fn names(
    alloc: Global,
    context: Context,
    tokens: &[Lexeme],
    room: usize,
) -> Result<(ImportedNames, &[Lexeme]), ReadError>
    ensures value { GivesAt (λ x. x) result (reading.names context room tokens.now) }
    ensures shorter { Shortens tokens.now result }
{
    match tokens {
        [Lexeme::Star, rest @ ..] => {
            if context.in_function {
                return Err(refused(Refusal::Syntax, tokens));
            }
            Ok((ImportedNames::All, rest))
        }
        [Lexeme::OpenParen, rest @ ..] => {
            if room == 0 {
                return Err(refused(Refusal::TooDeep, tokens));
            }
            names_in_parens(alloc, rest)
        }
        _ => plain_names(alloc, tokens),
    }
}

/// The rest of a `from .. import`.
#[tactic(auto, unfolding(source_spec_lines::specs::Lines::imported_from))]
pub fn imported_from(
    alloc: Global,
    context: Context,
    tokens: &[Lexeme],
    room: usize,
) -> Result<(Stmt, &[Lexeme]), ReadError>
    ensures value { GivesAt (λ x. x) result (reading.imported_from context room tokens.now) }
    ensures shorter { Shortens tokens.now result }
{
    let (source, rest) = source_import(alloc, tokens)?;
    let (names, rest) = names(alloc, context, rest, room)?;
    Ok((Stmt::From(source.dots, source.parts, names), rest))
}
