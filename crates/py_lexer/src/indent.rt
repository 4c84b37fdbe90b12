//! The stack of open columns, the innermost last.

ghost use Rattle.std.specs.Prelude.{◌≡◌, ◌≤◌, ◌<◌, length, reverse, IfOk};
ghost use Rattle.py_lexer.specs.Indent.{settled};
ghost use Rattle.py_lexer.specs.Stack.{kept, settled_last, Changes};

use crate::columns::Columns;
use crate::error::{Kind, WordError};

/// What a logical line does to the open columns.
#[derive(Clone, Copy)]
pub enum Change {
    Indent,
    Dedents(usize),
}

/// How many levels are left once those that lie deeper than the line are closed.
#[tactic(auto, using(crate::proofs::Kept::kept_deeper, crate::proofs::Kept::kept_here, crate::proofs::Kept::kept_none))]
fn levels_left(stack: &[Columns], at: Columns) -> usize
    ensures within { result ≤ length stack.now }
    ensures value { result ≡ kept stack.now at (length stack.now) }
{
    let mut left = stack.len();
    'levels: while left > 0 {
        if stack[left - 1].first <= at.first {
            return left;
        }
        left -= 1;
    }
    0
}

/// Opens or closes levels for a line, and answers what it did.
pub fn settle(stack: &mut Vec<Columns>, at: Columns) -> Result<Change, WordError>
    requires { 0 < length stack.old.items }
    ensures opened { IfOk result (λ _. 0 < length stack.new.items) }
    ensures value { Changes (reverse stack.old.items) (reverse stack.new.items) result
        (settled (reverse stack.old.items) at) }
{
    settle_last(stack, at)
}

/// The same, for the stack as it lies.
#[tactic(auto, unfolding(crate::specs::Stack::settled_last))]
fn settle_last(stack: &mut Vec<Columns>, at: Columns) -> Result<Change, WordError>
    requires { 0 < length stack.old.items }
    ensures opened { IfOk result (λ _. 0 < length stack.new.items) }
    ensures value { Changes stack.old.items stack.new.items result (settled_last stack.old.items at) }
{
    let top = stack[stack.len() - 1];
    if at.first > top.first {
        if at.second <= top.second {
            return Err(WordError::Bad(Kind::MixedTabs));
        }
        stack.push(at)?;
        return Ok(Change::Indent);
    }
    let left = levels_left(stack, at);
    if left == 0 || stack[left - 1].first != at.first {
        return Err(WordError::Bad(Kind::BadDedent));
    }
    if stack[left - 1].second != at.second {
        return Err(WordError::Bad(Kind::MixedTabs));
    }
    let closed = stack.len() - left;
    stack.truncate(left);
    Ok(Change::Dedents(closed))
}
