//! Tests that have a value (Language Reference 8.1 and 8.2).
ghost use Rattle.std.specs.Prelude.{◌≡◌};
ghost use Rattle.meaning_state.specs.declared.flow.Flow.TheVariants.{Went};
ghost use Rattle.py_frames.specs.declared.work.Frame.TheVariants as frames;
ghost use Rattle.drive_straight.specs.Remains.{Leads, goes_on};

use crate::execution::Execution;
use crate::next::Next;
use base_owners::{Boxed, Shared};
use base_types::{NoMemory, Seq};
use meaning_state::Flow;
use py_frames::{Frame, is_listed};
use py_syntax::{Branch, Expr, Stmt};
use py_value::{Value, truth};
use std::alloc::Global;

/// The test of a loop has a value: its block comes, or its end.
pub fn decide(
    alloc: Global,
    execution: &mut Execution,
    test: Shared<Expr>,
    body: Shared<Seq<Stmt>>,
    turns: u64,
    value: Value,
) -> Result<Next, NoMemory>
    ensures moves { Leads execution.old (goes_on (frames.Decide test body turns) (Went value)) execution.new result }
    ensures held { execution.new.held ≡ execution.old.held }
{
    if is_listed(&value) {
        let frame = Frame::Decide { test, body, turns };
        return Ok(Next::Frame(Boxed::new(alloc, (frame, Flow::Went(value)))?));
    }
    let holds = truth(&value);
    drop(value);
    if !holds {
        return Ok(Next::Went(Value::Nothing));
    }
    let stmts = body.share()?;
    execution.work.push(Frame::Loop { test, body, turns })?;
    Ok(Next::Block(stmts))
}

/// The test of a branch has a value: its block comes. Where it does not hold the branch is passed as any other.
pub fn pick(
    alloc: Global,
    execution: &mut Execution,
    branches: Shared<Seq<Branch>>,
    at: usize,
    otherwise: Shared<Seq<Stmt>>,
    value: Value,
) -> Result<Next, NoMemory>
    ensures moves { Leads execution.old (goes_on (frames.Test branches at otherwise) (Went value))
        execution.new result }
    ensures held { execution.new.held ≡ execution.old.held }
{
    let _ = execution;
    if is_listed(&value) || !truth(&value) {
        let frame = Frame::Test {
            branches,
            at,
            otherwise,
        };
        return Ok(Next::Frame(Boxed::new(alloc, (frame, Flow::Went(value)))?));
    }
    match branches.get().get(at) {
        None => {
            let frame = Frame::Test {
                branches,
                at,
                otherwise,
            };
            Ok(Next::Frame(Boxed::new(alloc, (frame, Flow::Went(value)))?))
        }
        Some(branch) => Ok(Next::Block(branch.body.share()?)),
    }
}
