//! Lists of expressions as far as they are read.

ghost use Rattle.std.specs.Prelude.{◌≡◌, IfOk, false};
ghost use Rattle.source_combinators.specs.Reading.{head_of};
ghost use Rattle.source_spec_lines.specs.Expressions as reading;
ghost use Rattle.py_syntax.specs.declared.expr.Expr.TheVariants as exprs;

use crate::tokens::starts;
use base_owners::Shared;
use base_types::{NoMemory, Seq};
use py_syntax::{Expr, Items, Lexeme, Spelled};
use std::alloc::Global;

/// Whether another item follows.
pub fn begins_item(items: &Items, tokens: &[Lexeme]) -> bool
    ensures { result ≡ reading.begins_item items.now (head_of tokens.now) }
{
    items.is_open && starts(tokens)
}

/// One more item.
pub fn with_item(items: Items, expr: Shared<Expr>, is_open: bool) -> Result<Items, NoMemory>
    ensures { IfOk result (λ it. it ≡ reading.with_item items.found expr is_open) }
{
    let Items { mut found, .. } = items;
    found.push(expr)?;
    Ok(Items { found, is_open })
}

/// A tuple.
fn tuple(alloc: Global, found: Seq<Shared<Expr>>) -> Result<Spelled, NoMemory>
    ensures { IfOk result (λ it. it ≡ record { tree = exprs.Tuple found; is_target = false }) }
{
    Ok(Spelled {
        tree: Shared::new(alloc, Expr::Tuple(Shared::new(alloc, found)?))?,
        is_target: false,
    })
}

/// What items in parentheses stand for: one without a comma for itself, and all others for a tuple (Language Reference
/// 6.2.3).
#[tactic(auto, using(crate::proofs::Parentheses::open_tuple, crate::proofs::Parentheses::not_one, crate::proofs::Parentheses::one_alone))]
pub fn parenthesised(alloc: Global, items: Items) -> Result<Spelled, NoMemory>
    ensures { IfOk result (λ it. it ≡ reading.parenthesised items) }
{
    let Items { mut found, is_open } = items;
    if is_open || found.len() != 1 {
        return tuple(alloc, found);
    }
    match found.pop() {
        Some(tree) => Ok(Spelled {
            tree,
            is_target: false,
        }),
        None => tuple(alloc, found),
    }
}
