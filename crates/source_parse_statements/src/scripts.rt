//! Scripts.

ghost use Rattle.std.specs.Prelude.{◌≡◌, ◌<◌, ◌≤◌, [], length, IfOk, Ok, Err, true};
ghost use Rattle.source_combinators.specs.declared.fault.Fault.{Fault};
ghost use Rattle.source_combinators.specs.declared.fault.ReadError.TheVariants.{Refused};
ghost use Rattle.source_combinators.specs.Reading.{head_of, given};
ghost use Rattle.source_combinators.specs.Many.{rounds};
ghost use Rattle.source_combinators.specs.Outcome.{Gives, GivesAt, StaysWithin};
ghost use Rattle.source_combinators.specs.Refusals.{IsFirstRefused};
ghost use Rattle.py_syntax.specs.declared.stmt.Script.{Script};
ghost use Rattle.py_syntax.specs.Contexts as contexts;
ghost use Rattle.py_syntax.specs.Grammar.{Spells};
ghost use Rattle.source_spec_statements.specs.Reading as reading;
ghost use Rattle.source_parse_statements.specs.Views.{stmts_of, without_rest};

use crate::parts::Stmts;
use crate::statements::next_stmt;
use crate::tokens::{end, stmt_ahead};
use base_owners::Shared;
use base_types::Seq;
use py_syntax::{Context, Lexeme, Script};
use source_combinators::ReadError;
use std::alloc::Global;

/// Where a script's own statements stand.
fn top() -> Context
    ensures { result ≡ contexts.top }
{
    Context {
        in_function: false,
        in_loop: false,
        in_finally: false,
    }
}

/// The statements of a script.
#[tactic(auto, unfolding(source_combinators::specs::Many::many))]
fn top_stmts(alloc: Global, tokens: &[Lexeme], room: usize) -> Result<(Stmts, &[Lexeme]), ReadError>
    ensures { GivesAt stmts_of result (rounds reading.begins_stmt (reading.next_stmt (reading.stmt room) contexts.top)
        ([], 0) tokens.now) }
{
    let mut found = Stmts {
        found: Seq::new(alloc),
        next: 0,
    };
    let mut rest = tokens;
    'stmts: while stmt_ahead(rest) {
        let (next, after) = next_stmt(alloc, top(), found, rest, room)?;
        found = next;
        rest = after;
    }
    Ok((found, rest))
}

/// A script and what follows it, as it is read.
#[tactic(auto, unfolding(source_spec_statements::specs::Reading::script))]
fn read(alloc: Global, tokens: &[Lexeme], room: usize) -> Result<(Script, &[Lexeme]), ReadError>
    ensures { GivesAt (λ x. x) result (reading.script room tokens.now) }
{
    let (stmts, rest) = top_stmts(alloc, tokens, room)?;
    let rest = end(rest)?;
    Ok((
        Script {
            body: Shared::new(alloc, stmts.found)?,
        },
        rest,
    ))
}

/// What was read, without what follows it.
fn without_rest(read: Result<(Script, &[Lexeme]), ReadError>) -> Result<Script, ReadError>
    ensures { result ≡ without_rest read.entry }
{
    match read {
        Ok((script, _)) => Ok(script),
        Err(error) => Err(error),
    }
}

/// The script that the tokens spell (Language Reference chapters 6 to 8, a subset), with at most `room` levels open. Where
/// there is none, the refusal names the first token that no script's tokens have after the tokens before it. Want of
/// memory may stand in place of any answer. The native stack holds a few calls for each level, and the work is linear in
/// the tokens, given that a hash finds a parameter's name in constant time.
pub fn script(alloc: Global, tokens: &[Lexeme], room: usize) -> Result<Script, ReadError>
    // What is read is spelled by the tokens.
    ensures spelled { IfOk result (λ script. Spells room tokens.now script) }
    // What is spelled is read.
    ensures only { (script : Script) → Spells room tokens.now script → Gives (λ x. x) result (Ok script) }
    // The refused token is the first one that no script has after the tokens before it.
    ensures refused { (fault : Fault) → result ≡ Err (Refused fault) → IsFirstRefused Spells room tokens.now fault }
{
    without_rest(read(alloc, tokens, room))
}
