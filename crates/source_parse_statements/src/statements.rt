//! Statements by descent, a function for each form. `room` is how many levels may still be opened within the form, and
//! `number` is that of the first function.

ghost use Rattle.std.specs.Prelude.{◌≡◌, suc, ◌<◌, ◌≤◌, ◌&&◌, [], ◌∷◌, ◌++◌, length, IfOk};
ghost use Rattle.source_combinators.specs.Reading.{head_of};
ghost use Rattle.source_combinators.specs.Outcome.{GivesAt, Shortens, StaysWithin};
ghost use Rattle.py_syntax.specs.Contexts as contexts;
ghost use Rattle.py_syntax.specs.Statements as grammar;
ghost use Rattle.source_spec_statements.specs.Reading as reading;
ghost use Rattle.source_parse_statements.specs.Views.{stmts_of, tested_of, branches_of, caught_of, handlers_of, ends_of, signature_of, body_of, only_finally, with_handlers};

use crate::globals::globals;
use crate::lists::joined;
use crate::name_set::NameSet;
use crate::parameters::signature;
use crate::parts::{Branches, Caught, FunctionBody, Handlers, Signature, Stmts, Tested, TryEnds};
use crate::tokens::{colon, dedent, elif_ahead, except_ahead, indent, newline, stmt_ahead};
use base_owners::Shared;
use base_types::{NoMemory, Seq, Text, Texts};
use py_syntax::{Branch, Context, Expr, FuncDef, Handler, Lexeme, Stmt};
use source_combinators::{ReadError, Refusal, refused};
use source_parse_expressions::expr;
use source_parse_lines::{bound, line, one, with};
use std::alloc::Global;

/// Where the block of a loop stands.
fn within_loop(context: Context) -> Context
    ensures { result ≡ contexts.within_loop context }
{
    Context {
        in_loop: true,
        ..context
    }
}

/// Where a `finally` block stands.
fn within_finally(context: Context) -> Context
    ensures { result ≡ contexts.within_finally context }
{
    Context {
        in_loop: false,
        in_finally: true,
        ..context
    }
}

/// Where the body of a function stands.
fn within_function() -> Context
    ensures { result ≡ contexts.within_function }
{
    Context {
        in_function: true,
        in_loop: false,
        in_finally: false,
    }
}

/// A line as a block.
#[tactic(auto, unfolding(source_spec_statements::specs::Reading::line_block))]
fn line_block(
    alloc: Global,
    context: Context,
    number: u32,
    tokens: &[Lexeme],
    room: usize,
) -> Result<(Stmts, &[Lexeme]), ReadError>
    ensures value { GivesAt stmts_of result (reading.line_block context number room tokens.now) }
    ensures shorter { Shortens tokens.now result }
{
    let (found, rest) = line(alloc, context, tokens, room)?;
    let rest = newline(rest)?;
    Ok((
        Stmts {
            found,
            next: number,
        },
        rest,
    ))
}

/// The statements so far, and one more.
#[cycle(stmt)]
#[tactic(auto, unfolding(source_spec_statements::specs::Reading::next_stmt))]
pub fn next_stmt(
    alloc: Global,
    context: Context,
    stmts: Stmts,
    tokens: &[Lexeme],
    room: usize,
) -> Result<(Stmts, &[Lexeme]), ReadError>
    ensures value { GivesAt stmts_of result (reading.next_stmt (reading.stmt room) context
        (stmts_of stmts) tokens.now) }
    ensures shorter { Shortens tokens.now result }
{
    let (more, rest) = stmt(alloc, context, stmts.next, tokens, room)?;
    let found = joined(stmts.found, more.found)?;
    Ok((
        Stmts {
            found,
            next: more.next,
        },
        rest,
    ))
}

/// Statements up to the end of their block.
#[cycle(stmt)]
#[tactic(auto, unfolding(source_spec_statements::specs::Reading::stmts, source_combinators::specs::Many::many))]
fn stmts(
    alloc: Global,
    context: Context,
    number: u32,
    tokens: &[Lexeme],
    room: usize,
) -> Result<(Stmts, &[Lexeme]), ReadError>
    ensures value { GivesAt stmts_of result (reading.stmts (reading.stmt room) context number tokens.now) }
    ensures shorter { Shortens tokens.now result }
{
    let (mut found, mut rest) = stmt(alloc, context, number, tokens, room)?;
    'stmts: while stmt_ahead(rest) {
        let (next, after) = next_stmt(alloc, context, found, rest, room)?;
        found = next;
        rest = after;
    }
    Ok((found, rest))
}

/// Statements, and the end of their indentation.
#[cycle(stmt)]
#[tactic(auto, unfolding(source_spec_statements::specs::Reading::stmts_to_dedent))]
fn stmts_to_dedent(
    alloc: Global,
    context: Context,
    number: u32,
    tokens: &[Lexeme],
    room: usize,
) -> Result<(Stmts, &[Lexeme]), ReadError>
    ensures value { GivesAt stmts_of result (reading.stmts_to_dedent (reading.stmt room) context number tokens.now) }
    ensures shorter { Shortens tokens.now result }
{
    let (found, rest) = stmts(alloc, context, number, tokens, room)?;
    let rest = dedent(rest)?;
    Ok((found, rest))
}

/// An indented block, behind the end of the line before it.
#[cycle(stmt)]
#[tactic(auto, unfolding(source_spec_statements::specs::Reading::indented))]
fn indented(
    alloc: Global,
    context: Context,
    number: u32,
    tokens: &[Lexeme],
    room: usize,
) -> Result<(Stmts, &[Lexeme]), ReadError>
    ensures value { GivesAt stmts_of result (reading.indented (reading.stmt room) context number tokens.now) }
    ensures shorter { Shortens tokens.now result }
{
    let rest = indent(tokens)?;
    stmts_to_dedent(alloc, context, number, rest, room)
}

/// A block (Language Reference 8).
#[cycle(stmt)]
#[tactic(auto, unfolding(source_spec_statements::specs::Reading::block))]
fn block(
    alloc: Global,
    context: Context,
    number: u32,
    tokens: &[Lexeme],
    room: usize,
) -> Result<(Stmts, &[Lexeme]), ReadError>
    ensures value { GivesAt stmts_of result (reading.block (reading.stmt room) room context number tokens.now) }
    ensures shorter { Shortens tokens.now result }
{
    match tokens {
        [Lexeme::Newline, rest @ ..] => indented(alloc, context, number, rest, room),
        _ => line_block(alloc, context, number, tokens, room),
    }
}

/// A colon and a block.
#[cycle(stmt)]
#[tactic(auto, unfolding(source_spec_statements::specs::Reading::colon_block))]
fn colon_block(
    alloc: Global,
    context: Context,
    number: u32,
    tokens: &[Lexeme],
    room: usize,
) -> Result<(Stmts, &[Lexeme]), ReadError>
    ensures value { GivesAt stmts_of result (reading.colon_block (reading.stmt room) room context number tokens.now) }
    ensures shorter { Shortens tokens.now result }
{
    let rest = colon(tokens)?;
    block(alloc, context, number, rest, room)
}

/// A test and its block.
#[cycle(stmt)]
#[tactic(auto, unfolding(source_spec_statements::specs::Reading::branch))]
fn branch(
    alloc: Global,
    context: Context,
    number: u32,
    tokens: &[Lexeme],
    room: usize,
) -> Result<(Tested, &[Lexeme]), ReadError>
    ensures value { GivesAt tested_of result (reading.branch (reading.stmt room) room context number tokens.now) }
    ensures shorter { Shortens tokens.now result }
{
    let (test, rest) = expr(alloc, tokens, room)?;
    let (body, rest) = colon_block(alloc, context, number, rest, room)?;
    Ok((tested(alloc, test.tree, body)?, rest))
}

fn tested(alloc: Global, test: Shared<Expr>, body: Stmts) -> Result<Tested, NoMemory>
    ensures { IfOk result (λ it. tested_of it ≡ reading.branch_of test (stmts_of body)) }
{
    let next = body.next;
    Ok(Tested {
        branch: Branch {
            test,
            body: Shared::new(alloc, body.found)?,
        },
        next,
    })
}

/// One more test and its block.
fn with_tested(branches: Branches, tested: Tested) -> Result<Branches, NoMemory>
    ensures { IfOk result (λ it. branches_of it ≡ (branches.found ++ tested.branch ∷ [], tested.next)) }
{
    let found = with(branches.found, tested.branch)?;
    Ok(Branches {
        found,
        next: tested.next,
    })
}

/// An `elif`.
#[cycle(stmt)]
#[tactic(auto, unfolding(source_spec_statements::specs::Reading::next_elif))]
fn next_elif(
    alloc: Global,
    context: Context,
    branches: Branches,
    tokens: &[Lexeme],
    room: usize,
) -> Result<(Branches, &[Lexeme]), ReadError>
    ensures value { GivesAt branches_of result (reading.next_elif (reading.stmt room) room context
        (branches_of branches) tokens.now) }
    ensures shorter { Shortens tokens.now result }
{
    match tokens {
        [Lexeme::Elif, rest @ ..] => {
            let (next, rest) = branch(alloc, context, branches.next, rest, room)?;
            Ok((with_tested(branches, next)?, rest))
        }
        _ => Err(refused(Refusal::Syntax, tokens)),
    }
}

/// The tests of an `if` and its `elif`s, with their blocks.
#[cycle(stmt)]
#[tactic(auto, unfolding(source_spec_statements::specs::Reading::branches, source_combinators::specs::Many::many))]
fn branches(
    alloc: Global,
    context: Context,
    number: u32,
    tokens: &[Lexeme],
    room: usize,
) -> Result<(Branches, &[Lexeme]), ReadError>
    ensures value { GivesAt branches_of result (reading.branches (reading.stmt room) room context number tokens.now) }
    ensures shorter { Shortens tokens.now result }
{
    let (first, mut rest) = branch(alloc, context, number, tokens, room)?;
    let mut found = Branches {
        found: one(alloc, first.branch)?,
        next: first.next,
    };
    'branches: while elif_ahead(rest) {
        let (next, after) = next_elif(alloc, context, found, rest, room)?;
        found = next;
        rest = after;
    }
    Ok((found, rest))
}

/// An `else`, if there is one.
#[cycle(stmt)]
#[tactic(auto, unfolding(source_spec_statements::specs::Reading::else_part))]
fn else_part(
    alloc: Global,
    context: Context,
    number: u32,
    tokens: &[Lexeme],
    room: usize,
) -> Result<(Stmts, &[Lexeme]), ReadError>
    ensures value { GivesAt stmts_of result (reading.else_part (reading.stmt room) room context number tokens.now) }
    ensures within { StaysWithin tokens.now result }
{
    match tokens {
        [Lexeme::Else, rest @ ..] => colon_block(alloc, context, number, rest, room),
        _ => Ok((none(alloc, number), tokens)),
    }
}

/// No statements.
fn none(alloc: Global, number: u32) -> Stmts
    ensures { stmts_of result ≡ ([], number) }
{
    Stmts {
        found: Seq::new(alloc),
        next: number,
    }
}

/// A `finally`, if there is one.
#[cycle(stmt)]
#[tactic(auto, unfolding(source_spec_statements::specs::Reading::finally_part))]
fn finally_part(
    alloc: Global,
    context: Context,
    number: u32,
    tokens: &[Lexeme],
    room: usize,
) -> Result<(Stmts, &[Lexeme]), ReadError>
    ensures value { GivesAt stmts_of result (reading.finally_part (reading.stmt room) room context number tokens.now) }
    ensures within { StaysWithin tokens.now result }
{
    match tokens {
        [Lexeme::Finally, rest @ ..] => {
            colon_block(alloc, within_finally(context), number, rest, room)
        }
        _ => Ok((none(alloc, number), tokens)),
    }
}

/// A statement alone.
fn alone(alloc: Global, stmt: Stmt, next: u32) -> Result<Stmts, NoMemory>
    ensures { IfOk result (λ it. stmts_of it ≡ (stmt ∷ [], next)) }
{
    let found = one(alloc, stmt)?;
    Ok(Stmts { found, next })
}

/// The rest of an `if` (8.1).
#[cycle(stmt)]
#[tactic(auto, unfolding(source_spec_statements::specs::Reading::if_rest))]
fn if_rest(
    alloc: Global,
    context: Context,
    number: u32,
    tokens: &[Lexeme],
    room: usize,
) -> Result<(Stmts, &[Lexeme]), ReadError>
    ensures value { GivesAt stmts_of result (reading.if_rest (reading.stmt room) room context number tokens.now) }
    ensures shorter { Shortens tokens.now result }
{
    let (branches, rest) = branches(alloc, context, number, tokens, room)?;
    let (otherwise, rest) = else_part(alloc, context, branches.next, rest, room)?;
    let next = otherwise.next;
    let branches = Shared::new(alloc, branches.found)?;
    let stmt = Stmt::If(branches, Shared::new(alloc, otherwise.found)?);
    Ok((alone(alloc, stmt, next)?, rest))
}

/// The rest of a `while` (8.2).
#[cycle(stmt)]
#[tactic(auto, unfolding(source_spec_statements::specs::Reading::while_rest))]
fn while_rest(
    alloc: Global,
    context: Context,
    number: u32,
    tokens: &[Lexeme],
    room: usize,
) -> Result<(Stmts, &[Lexeme]), ReadError>
    ensures value { GivesAt stmts_of result (reading.while_rest (reading.stmt room) room context number tokens.now) }
    ensures shorter { Shortens tokens.now result }
{
    let (tested, rest) = branch(alloc, within_loop(context), number, tokens, room)?;
    let stmt = Stmt::While(tested.branch.test, tested.branch.body);
    Ok((alone(alloc, stmt, tested.next)?, rest))
}

/// Whether another handler follows.
fn begins_handler(handlers: &Handlers, tokens: &[Lexeme]) -> bool
    ensures { result ≡ reading.begins_handler (handlers_of handlers.now) (head_of tokens.now) }
{
    handlers.is_open && except_ahead(tokens)
}

/// One more handler.
fn with_handler(
    alloc: Global,
    handlers: Handlers,
    kinds: Option<Shared<Expr>>,
    bound: Option<Text>,
    body: Stmts,
    is_open: bool,
) -> Result<Handlers, NoMemory>
    ensures { IfOk result (λ it. handlers_of it ≡ reading.with_handler handlers.found kinds bound
        (stmts_of body) is_open) }
{
    let next = body.next;
    let handler = Handler {
        kinds,
        bound,
        body: Shared::new(alloc, body.found)?,
    };
    let found = with(handlers.found, handler)?;
    Ok(Handlers {
        found,
        next,
        is_open,
    })
}

/// The kinds of an error, and what it is bound to.
#[tactic(auto, unfolding(source_spec_statements::specs::Reading::caught))]
fn caught(alloc: Global, tokens: &[Lexeme], room: usize) -> Result<(Caught, &[Lexeme]), ReadError>
    ensures value { GivesAt caught_of result (reading.caught room tokens.now) }
    ensures shorter { Shortens tokens.now result }
{
    let (kinds, rest) = expr(alloc, tokens, room)?;
    let (bound, rest) = bound(rest)?;
    Ok((
        Caught {
            kinds: kinds.tree,
            bound,
        },
        rest,
    ))
}

/// A handler behind `except`.
#[cycle(stmt)]
#[tactic(auto, unfolding(source_spec_statements::specs::Reading::handler_rest))]
fn handler_rest(
    alloc: Global,
    context: Context,
    handlers: Handlers,
    tokens: &[Lexeme],
    room: usize,
) -> Result<(Handlers, &[Lexeme]), ReadError>
    ensures value { GivesAt handlers_of result (reading.handler_rest (reading.stmt room) room context
        (handlers_of handlers) tokens.now) }
    ensures shorter { Shortens tokens.now result }
{
    match tokens {
        [Lexeme::Colon, rest @ ..] => {
            let (body, rest) = block(alloc, context, handlers.next, rest, room)?;
            Ok((
                with_handler(alloc, handlers, None, None, body, false)?,
                rest,
            ))
        }
        _ => {
            let (caught, rest) = caught(alloc, tokens, room)?;
            let (body, rest) = colon_block(alloc, context, handlers.next, rest, room)?;
            let handlers = with_handler(
                alloc,
                handlers,
                Some(caught.kinds),
                caught.bound,
                body,
                true,
            )?;
            Ok((handlers, rest))
        }
    }
}

/// One more handler.
#[cycle(stmt)]
#[tactic(auto, unfolding(source_spec_statements::specs::Reading::next_handler))]
fn next_handler(
    alloc: Global,
    context: Context,
    handlers: Handlers,
    tokens: &[Lexeme],
    room: usize,
) -> Result<(Handlers, &[Lexeme]), ReadError>
    ensures value { GivesAt handlers_of result (reading.next_handler (reading.stmt room) room context
        (handlers_of handlers) tokens.now) }
    ensures shorter { Shortens tokens.now result }
{
    match tokens {
        [Lexeme::Except, rest @ ..] => handler_rest(alloc, context, handlers, rest, room),
        _ => Err(refused(Refusal::Syntax, tokens)),
    }
}

/// The handlers of a `try`, of which there is one at least.
#[cycle(stmt)]
#[tactic(auto, unfolding(source_spec_statements::specs::Reading::handlers, source_combinators::specs::Many::many))]
fn handlers(
    alloc: Global,
    context: Context,
    number: u32,
    tokens: &[Lexeme],
    room: usize,
) -> Result<(Handlers, &[Lexeme]), ReadError>
    ensures value { GivesAt handlers_of result (reading.handlers (reading.stmt room) room context number tokens.now) }
    ensures shorter { Shortens tokens.now result }
{
    let empty = Handlers {
        found: Seq::new(alloc),
        next: number,
        is_open: true,
    };
    let (mut found, mut rest) = next_handler(alloc, context, empty, tokens, room)?;
    'handlers: while begins_handler(&found, rest) {
        let (next, after) = next_handler(alloc, context, found, rest, room)?;
        found = next;
        rest = after;
    }
    Ok((found, rest))
}

/// What follows the handlers of a `try`.
#[cycle(stmt)]
#[tactic(auto, unfolding(source_spec_statements::specs::Reading::try_ends))]
fn try_ends(
    alloc: Global,
    context: Context,
    number: u32,
    tokens: &[Lexeme],
    room: usize,
) -> Result<(TryEnds, &[Lexeme]), ReadError>
    ensures value { GivesAt ends_of result (reading.try_ends (reading.stmt room) room context number tokens.now) }
    ensures within { StaysWithin tokens.now result }
{
    let (otherwise, rest) = else_part(alloc, context, number, tokens, room)?;
    let (at_last, rest) = finally_part(alloc, context, otherwise.next, rest, room)?;
    let ends = TryEnds {
        otherwise: otherwise.found,
        at_last: at_last.found,
        next: at_last.next,
    };
    Ok((ends, rest))
}

/// A `try` with `finally` alone, behind that word.
#[cycle(stmt)]
fn only_finally(
    alloc: Global,
    context: Context,
    body: Stmts,
    tokens: &[Lexeme],
    room: usize,
) -> Result<(Stmts, &[Lexeme]), ReadError>
    ensures value { GivesAt stmts_of result (only_finally (reading.stmt room) room context (stmts_of body) tokens.now) }
    ensures shorter { Shortens tokens.now result }
{
    let context = within_finally(context);
    let (at_last, rest) = colon_block(alloc, context, body.next, tokens, room)?;
    let next = at_last.next;
    let body = Shared::new(alloc, body.found)?;
    let handlers = Shared::new(alloc, Seq::new(alloc))?;
    let otherwise = Shared::new(alloc, Seq::new(alloc))?;
    let at_last = Shared::new(alloc, at_last.found)?;
    let stmt = Stmt::Try(body, handlers, otherwise, at_last);
    Ok((alone(alloc, stmt, next)?, rest))
}

/// A `try` with handlers, behind its block.
#[cycle(stmt)]
fn with_handlers(
    alloc: Global,
    context: Context,
    body: Stmts,
    tokens: &[Lexeme],
    room: usize,
) -> Result<(Stmts, &[Lexeme]), ReadError>
    ensures value { GivesAt stmts_of result (with_handlers (reading.stmt room) room context
        (stmts_of body) tokens.now) }
    ensures shorter { Shortens tokens.now result }
{
    let (handlers, rest) = handlers(alloc, context, body.next, tokens, room)?;
    let (ends, rest) = try_ends(alloc, context, handlers.next, rest, room)?;
    let next = ends.next;
    let body = Shared::new(alloc, body.found)?;
    let handlers = Shared::new(alloc, handlers.found)?;
    let otherwise = Shared::new(alloc, ends.otherwise)?;
    let at_last = Shared::new(alloc, ends.at_last)?;
    let stmt = Stmt::Try(body, handlers, otherwise, at_last);
    Ok((alone(alloc, stmt, next)?, rest))
}

/// What follows the block of a `try` (8.4).
#[cycle(stmt)]
#[tactic(auto, unfolding(source_spec_statements::specs::Reading::after_try))]
fn after_try(
    alloc: Global,
    context: Context,
    body: Stmts,
    tokens: &[Lexeme],
    room: usize,
) -> Result<(Stmts, &[Lexeme]), ReadError>
    ensures value { GivesAt stmts_of result (reading.after_try (reading.stmt room) room context
        (stmts_of body) tokens.now) }
    ensures shorter { Shortens tokens.now result }
{
    match tokens {
        [Lexeme::Finally, rest @ ..] => only_finally(alloc, context, body, rest, room),
        _ => with_handlers(alloc, context, body, tokens, room),
    }
}

/// The rest of a `try`.
#[cycle(stmt)]
#[tactic(auto, unfolding(source_spec_statements::specs::Reading::try_rest))]
fn try_rest(
    alloc: Global,
    context: Context,
    number: u32,
    tokens: &[Lexeme],
    room: usize,
) -> Result<(Stmts, &[Lexeme]), ReadError>
    ensures value { GivesAt stmts_of result (reading.try_rest (reading.stmt room) room context number tokens.now) }
    ensures shorter { Shortens tokens.now result }
{
    let (body, rest) = colon_block(alloc, context, number, tokens, room)?;
    after_try(alloc, context, body, rest, room)
}

/// The indented statements of a function, with its `global` lines.
#[cycle(stmt)]
#[tactic(auto, unfolding(source_spec_statements::specs::Reading::indented_body))]
fn indented_body<'a>(
    alloc: Global,
    parameters: &NameSet,
    number: u32,
    tokens: &'a [Lexeme],
    room: usize,
) -> Result<(FunctionBody, &'a [Lexeme]), ReadError>
    ensures value { GivesAt body_of result (reading.indented_body
        (reading.stmt room) parameters.now number tokens.now) }
    ensures shorter { Shortens tokens.now result }
{
    let (globals, rest) = globals(alloc, parameters, tokens)?;
    let (stmts, rest) = stmts_to_dedent(alloc, within_function(), number, rest, room)?;
    Ok((function_of(globals, stmts), rest))
}

/// What stands in a function.
fn function_of(globals: Texts, stmts: Stmts) -> FunctionBody
    ensures { body_of result ≡ (grammar.body globals stmts.found, stmts.next) }
{
    FunctionBody {
        globals,
        stmts: stmts.found,
        next: stmts.next,
    }
}

/// An indented body, behind the end of the line before it.
#[cycle(stmt)]
#[tactic(auto, unfolding(source_spec_statements::specs::Reading::after_newline))]
fn after_newline<'a>(
    alloc: Global,
    parameters: &NameSet,
    number: u32,
    tokens: &'a [Lexeme],
    room: usize,
) -> Result<(FunctionBody, &'a [Lexeme]), ReadError>
    ensures value { GivesAt body_of result (reading.after_newline
        (reading.stmt room) parameters.now number tokens.now) }
    ensures shorter { Shortens tokens.now result }
{
    let rest = indent(tokens)?;
    indented_body(alloc, parameters, number, rest, room)
}

/// The body of a function (8.7).
#[cycle(stmt)]
#[tactic(auto, unfolding(source_spec_statements::specs::Reading::function_body))]
fn function_body<'a>(
    alloc: Global,
    parameters: &NameSet,
    number: u32,
    tokens: &'a [Lexeme],
    room: usize,
) -> Result<(FunctionBody, &'a [Lexeme]), ReadError>
    ensures value { GivesAt body_of result (reading.function_body
        (reading.stmt room) room parameters.now number tokens.now) }
    ensures shorter { Shortens tokens.now result }
{
    match tokens {
        [Lexeme::Newline, rest @ ..] => after_newline(alloc, parameters, number, rest, room),
        _ => {
            let (stmts, rest) = line_block(alloc, within_function(), number, tokens, room)?;
            Ok((function_of(Seq::new(alloc), stmts), rest))
        }
    }
}

/// The number behind this one. There is no room for one that does not fit its type.
fn number_after(number: u32) -> Result<u32, NoMemory>
    ensures { IfOk result (λ next. next ≡ suc number) }
{
    match number.checked_add(1) {
        Some(next) => Ok(next),
        None => Err(NoMemory),
    }
}

/// A function alone.
fn defined(
    alloc: Global,
    number: u32,
    signature: Signature,
    body: FunctionBody,
) -> Result<Stmts, NoMemory>
    ensures { IfOk result (λ it. stmts_of it ≡ reading.function number (signature_of signature) (body_of body)) }
{
    let next = body.next;
    let parameters = signature.parameters.texts(alloc)?;
    let function = FuncDef {
        number,
        name: signature.name,
        parameters,
        globals: body.globals,
        body: Shared::new(alloc, body.stmts)?,
    };
    alone(alloc, Stmt::Def(Shared::new(alloc, function)?), next)
}

/// The rest of a `def`.
#[cycle(stmt)]
#[tactic(auto, unfolding(source_spec_statements::specs::Reading::def_rest))]
fn def_rest(
    alloc: Global,
    number: u32,
    tokens: &[Lexeme],
    room: usize,
) -> Result<(Stmts, &[Lexeme]), ReadError>
    ensures value { GivesAt stmts_of result (reading.def_rest (reading.stmt room) room number tokens.now) }
    ensures shorter { Shortens tokens.now result }
{
    let (signature, rest) = signature(alloc, tokens)?;
    let rest = colon(rest)?;
    let next = number_after(number)?;
    let (body, rest) = function_body(alloc, &signature.parameters, next, rest, room)?;
    Ok((defined(alloc, number, signature, body)?, rest))
}

/// A statement, or those of a line.
#[cycle(stmt)]
#[tactic(auto, unfolding(source_spec_statements::specs::Reading::stmt))]
fn stmt(
    alloc: Global,
    context: Context,
    number: u32,
    tokens: &[Lexeme],
    room: usize,
) -> Result<(Stmts, &[Lexeme]), ReadError>
    ensures value { GivesAt stmts_of result (reading.stmt room context number tokens.now) }
    ensures shorter { Shortens tokens.now result }
{
    match tokens {
        [Lexeme::If, rest @ ..] => {
            if room == 0 {
                return Err(refused(Refusal::TooDeep, tokens));
            }
            if_rest(alloc, context, number, rest, room - 1)
        }
        [Lexeme::While, rest @ ..] => {
            if room == 0 {
                return Err(refused(Refusal::TooDeep, tokens));
            }
            while_rest(alloc, context, number, rest, room - 1)
        }
        [Lexeme::Try, rest @ ..] => {
            if room == 0 {
                return Err(refused(Refusal::TooDeep, tokens));
            }
            try_rest(alloc, context, number, rest, room - 1)
        }
        [Lexeme::Def, rest @ ..] => {
            if context.in_function {
                return Err(refused(Refusal::Syntax, tokens));
            }
            if room == 0 {
                return Err(refused(Refusal::TooDeep, tokens));
            }
            def_rest(alloc, number, rest, room - 1)
        }
        _ => line_block(alloc, context, number, tokens, room),
    }
}
