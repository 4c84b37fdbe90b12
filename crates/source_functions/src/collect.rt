//! The functions of a script, collected in the order of their `def` tokens.
ghost use Rattle.std.specs.Prelude.{◌≡◌, ◌++◌, ◌∷◌, [], IfOk, OnOk};
ghost use Rattle.source_functions.specs.Functions as list;

use crate::function::Function;
use base_owners::Shared;
use base_types::{NoMemory, Seq};
use py_syntax::{Branch, FuncDef, Handler, Script, Stmt};

/// The functions that a walk has found.
pub type Found = Seq<Shared<Function>>;

/// A function.
fn put_one(found: &mut Found, function: &Shared<FuncDef>) -> Result<(), NoMemory>
    ensures { OnOk result (found.new ≡ found.old ++ function.now ∷ []) }
{
    let function = Function::of(function)?;
    found.push(Shared::new(found.alloc(), function)?)
}

/// Those of a statement.
#[cycle(forms)]
fn put_stmt(found: &mut Found, stmt: &Stmt) -> Result<(), NoMemory>
    ensures { OnOk result (found.new ≡ found.old ++ list.in_stmt stmt.now) }
{
    match stmt {
        Stmt::If(branches, otherwise) => {
            put_branches(found, branches)?;
            put_stmts(found, otherwise)
        }
        Stmt::While(_, body) => put_stmts(found, body),
        Stmt::Try(body, handlers, otherwise, finally) => {
            put_stmts(found, body)?;
            put_handlers(found, handlers)?;
            put_stmts(found, otherwise)?;
            put_stmts(found, finally)
        }
        Stmt::Def(function) => put_function(found, function),
        _ => Ok(()),
    }
}

#[cycle(forms)]
fn put_stmts(found: &mut Found, stmts: &Seq<Stmt>) -> Result<(), NoMemory>
    ensures { OnOk result (found.new ≡ found.old ++ list.in_stmts stmts.now) }
{
    for stmt in stmts.as_slice() {
        put_stmt(found, stmt)?;
    }
    Ok(())
}

#[cycle(forms)]
fn put_branches(found: &mut Found, branches: &Seq<Branch>) -> Result<(), NoMemory>
    ensures { OnOk result (found.new ≡ found.old ++ list.in_branches branches.now) }
{
    for branch in branches.as_slice() {
        put_branch(found, branch)?;
    }
    Ok(())
}

#[cycle(forms)]
fn put_branch(found: &mut Found, branch: &Branch) -> Result<(), NoMemory>
    ensures { OnOk result (found.new ≡ found.old ++ (list.branch_beside branch.now).1) }
{
    put_stmts(found, &branch.body)
}

#[cycle(forms)]
fn put_handlers(found: &mut Found, handlers: &Seq<Handler>) -> Result<(), NoMemory>
    ensures { OnOk result (found.new ≡ found.old ++ list.in_handlers handlers.now) }
{
    for handler in handlers.as_slice() {
        put_handler(found, handler)?;
    }
    Ok(())
}

#[cycle(forms)]
fn put_handler(found: &mut Found, handler: &Handler) -> Result<(), NoMemory>
    ensures { OnOk result (found.new ≡ found.old ++ (list.handler_beside handler.now).1) }
{
    put_stmts(found, &handler.body)
}

/// A function, and those in its body.
#[cycle(forms)]
fn put_function(found: &mut Found, function: &Shared<FuncDef>) -> Result<(), NoMemory>
    ensures { OnOk result (found.new ≡ found.old ++ (list.function_beside function.now).1) }
{
    put_one(found, function)?;
    put_stmts(found, &function.body)
}

/// All functions of a script. The work is linear in the script.
#[tactic(auto, unfolding(crate::specs::Functions::functions))]
pub fn functions(script: &Script) -> Result<Found, NoMemory>
    ensures { IfOk result (λ found. found ≡ list.functions script.now) }
{
    let mut found = Seq::new(script.body.alloc());
    put_stmts(&mut found, &script.body)?;
    Ok(found)
}
