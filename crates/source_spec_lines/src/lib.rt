//! Readers of expressions and of lines by descent, as definitions, with the laws that they are the grammar.
#![tactic(auto)]

ghost use Rattle.source_spec_lines.specs.Laws.{ReadIsSpelled, SpelledIsRead, RefusedIsFirst, OneExpression};

/// What is read is an expression, spelled by the tokens before those that are left (Language Reference chapter 6).
pub fn read_is_spelled()
    ensures { ReadIsSpelled }
{}

/// Each expression is read, where the token behind it does not go on with one.
pub fn spelled_is_read()
    ensures { SpelledIsRead }
{}

/// A refused token is the first one that no expression has after the tokens before it. It is too deep exactly where with
/// more levels some expression has it there.
pub fn refused_is_first()
    ensures { RefusedIsFirst }
{}

/// Tokens spell one expression at most.
pub fn one_expression()
    ensures { OneExpression }
{}
