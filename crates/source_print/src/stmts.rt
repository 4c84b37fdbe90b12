//! Statements and blocks.
ghost use Rattle.std.specs.Prelude.{◌≡◌, ◌++◌, ◌∷◌, [], map, OnOk};
ghost use Rattle.py_syntax.specs.declared.lexeme.Lexeme.TheVariants as token;
ghost use Rattle.source_print.specs.Expressions.{expr_tokens};
ghost use Rattle.source_print.specs.Statements as print;
ghost use Rattle.source_print.specs.Between as between;

use crate::exprs::put_expr;
use crate::imports::{put_aliases, put_bound, put_from};
use crate::names::{put, put_name, put_names};
use crate::operators::augmented;
use base_owners::Shared;
use base_types::{NoMemory, Seq, Text, Texts};
use py_syntax::{Alias, BinaryOp, Branch, Expr, FuncDef, Handler, ImportedNames, Lexeme, Stmt};

// ---- lines

/// An expression alone, or behind a word.
fn put_evaluate(out: &mut Seq<Lexeme>, expr: &Expr) -> Result<(), NoMemory>
    ensures { OnOk result (out.new ≡ out.old ++ print.on_line (expr_tokens expr.now)) }
{
    put_expr(out, expr)?;
    put(out, Lexeme::Newline)
}

fn put_assign(out: &mut Seq<Lexeme>, target: &Expr, value: &Expr) -> Result<(), NoMemory>
    ensures { OnOk result (out.new ≡ out.old ++ print.on_line
        (expr_tokens target.now ++ token.Assign ∷ expr_tokens value.now)) }
{
    put_expr(out, target)?;
    put(out, Lexeme::Assign)?;
    put_expr(out, value)?;
    put(out, Lexeme::Newline)
}

fn put_augment(
    out: &mut Seq<Lexeme>,
    name: &Text,
    op: BinaryOp,
    value: &Expr,
) -> Result<(), NoMemory>
    ensures { OnOk result (out.new ≡ out.old ++ print.on_line
        (token.Name name.now ∷ print.augmented op ∷ expr_tokens value.now)) }
{
    put_name(out, name)?;
    put(out, augmented(op))?;
    put_expr(out, value)?;
    put(out, Lexeme::Newline)
}

fn put_delete(out: &mut Seq<Lexeme>, target: &Expr) -> Result<(), NoMemory>
    ensures { OnOk result (out.new ≡ out.old ++ print.on_line (token.Del ∷ expr_tokens target.now)) }
{
    put(out, Lexeme::Del)?;
    put_expr(out, target)?;
    put(out, Lexeme::Newline)
}

fn put_word(out: &mut Seq<Lexeme>, word: Lexeme) -> Result<(), NoMemory>
    ensures { OnOk result (out.new ≡ out.old ++ print.on_line (word ∷ [])) }
{
    put(out, word)?;
    put(out, Lexeme::Newline)
}

fn put_optional(out: &mut Seq<Lexeme>, expr: &Option<Shared<Expr>>) -> Result<(), NoMemory>
    ensures { OnOk result (out.new ≡ out.old ++ print.optional expr.now) }
{
    match expr {
        None => Ok(()),
        Some(expr) => put_expr(out, expr),
    }
}

/// A word, and an expression if there is one.
fn put_jump(
    out: &mut Seq<Lexeme>,
    word: Lexeme,
    expr: &Option<Shared<Expr>>,
) -> Result<(), NoMemory>
    ensures { OnOk result (out.new ≡ out.old ++ print.on_line (word ∷ print.optional expr.now)) }
{
    put(out, word)?;
    put_optional(out, expr)?;
    put(out, Lexeme::Newline)
}

fn put_import(out: &mut Seq<Lexeme>, aliases: &Seq<Alias>) -> Result<(), NoMemory>
    ensures { OnOk result (out.new ≡ out.old ++ print.on_line (token.Import ∷ print.aliases aliases.now)) }
{
    put(out, Lexeme::Import)?;
    put_aliases(out, aliases)?;
    put(out, Lexeme::Newline)
}

fn put_from_line(
    out: &mut Seq<Lexeme>,
    dots: u32,
    parts: &Texts,
    names: &ImportedNames,
) -> Result<(), NoMemory>
    ensures { OnOk result (out.new ≡ out.old ++ print.on_line
        (token.From ∷ ((print.dots dots ++ print.names_with token.Dot parts.now)
        ++ token.Import ∷ print.imported names.now))) }
{
    put_from(out, dots, parts, names)?;
    put(out, Lexeme::Newline)
}

/// All names of a function's `global` lines in one line.
fn put_globals(out: &mut Seq<Lexeme>, names: &Texts) -> Result<(), NoMemory>
    ensures { OnOk result (out.new ≡ out.old ++ print.global_line names.now) }
{
    if names.is_empty() {
        return Ok(());
    }
    put(out, Lexeme::Global)?;
    put_names(out, names)?;
    put(out, Lexeme::Newline)
}

/// What stands before the block of a loop.
fn put_while(out: &mut Seq<Lexeme>, test: &Expr) -> Result<(), NoMemory>
    ensures { OnOk result (out.new ≡ out.old ++ token.While ∷ (expr_tokens test.now ++ token.Colon ∷ [])) }
{
    put(out, Lexeme::While)?;
    put_expr(out, test)?;
    put(out, Lexeme::Colon)
}

// ---- blocks

/// A statement.
#[cycle(stmts)]
pub(crate) fn put_stmt(out: &mut Seq<Lexeme>, stmt: &Stmt) -> Result<(), NoMemory>
    ensures { OnOk result (out.new ≡ out.old ++ print.stmt_tokens stmt.now) }
{
    match stmt {
        Stmt::Evaluate(expr) => put_evaluate(out, expr),
        Stmt::Assign(target, value) => put_assign(out, target, value),
        Stmt::Augment(name, op, value) => put_augment(out, name, *op, value),
        Stmt::Delete(target) => put_delete(out, target),
        Stmt::Pass => put_word(out, Lexeme::Pass),
        Stmt::Break => put_word(out, Lexeme::Break),
        Stmt::Continue => put_word(out, Lexeme::Continue),
        Stmt::Return(value) => put_jump(out, Lexeme::Return, value),
        Stmt::Raise(error) => put_jump(out, Lexeme::Raise, error),
        Stmt::Import(aliases) => put_import(out, aliases),
        Stmt::From(dots, parts, names) => put_from_line(out, *dots, parts, names),
        Stmt::If(branches, otherwise) => {
            put_branches(out, branches)?;
            put_clause(out, Lexeme::Else, otherwise)
        }
        Stmt::While(test, body) => {
            put_while(out, test)?;
            put_block(out, body)
        }
        Stmt::Try(body, handlers, otherwise, finally) => {
            put_try(out, body)?;
            put_handlers(out, handlers)?;
            put_clause(out, Lexeme::Else, otherwise)?;
            put_clause(out, Lexeme::Finally, finally)
        }
        Stmt::Def(function) => put_function(out, function),
    }
}

/// Statements in order.
#[cycle(stmts)]
pub(crate) fn put_stmts(out: &mut Seq<Lexeme>, stmts: &Seq<Stmt>) -> Result<(), NoMemory>
    ensures { OnOk result (out.new ≡ out.old ++ print.stmts_tokens stmts.now) }
{
    for stmt in stmts.as_slice() {
        put_stmt(out, stmt)?;
    }
    Ok(())
}

/// Statements on lines of their own.
#[cycle(stmts)]
fn put_block(out: &mut Seq<Lexeme>, stmts: &Seq<Stmt>) -> Result<(), NoMemory>
    ensures { OnOk result (out.new ≡ out.old ++ print.block (map print.stmt_tokens stmts.now)) }
{
    put(out, Lexeme::Newline)?;
    put(out, Lexeme::Indent)?;
    put_stmts(out, stmts)?;
    put(out, Lexeme::Dedent)
}

/// A word with its block, where there are statements.
#[cycle(stmts)]
fn put_clause(out: &mut Seq<Lexeme>, word: Lexeme, stmts: &Seq<Stmt>) -> Result<(), NoMemory>
    ensures { OnOk result (out.new ≡ out.old ++ print.clause word (map print.stmt_tokens stmts.now)) }
{
    if stmts.is_empty() {
        return Ok(());
    }
    put(out, word)?;
    put(out, Lexeme::Colon)?;
    put_block(out, stmts)
}

/// A test with its block.
#[cycle(stmts)]
fn put_branch(out: &mut Seq<Lexeme>, branch: &Branch) -> Result<(), NoMemory>
    ensures { OnOk result (out.new ≡ out.old ++ print.branch_tokens branch.now) }
{
    put_expr(out, &branch.test)?;
    put(out, Lexeme::Colon)?;
    put_block(out, &branch.body)
}

/// The word before a branch.
fn branch_word(at: usize) -> Lexeme
    ensures { result ≡ between.branch_word at }
{
    if at == 0 { Lexeme::If } else { Lexeme::Elif }
}

#[cycle(stmts)]
fn put_branches(out: &mut Seq<Lexeme>, branches: &Seq<Branch>) -> Result<(), NoMemory>
    ensures { OnOk result (out.new ≡ out.old ++ print.branches (map print.branch_tokens branches.now)) }
{
    let branches = branches.as_slice();
    for n in 0..branches.len() {
        put(out, branch_word(n))?;
        put_branch(out, &branches[n])?;
    }
    Ok(())
}

#[cycle(stmts)]
fn put_handler(out: &mut Seq<Lexeme>, handler: &Handler) -> Result<(), NoMemory>
    ensures { OnOk result (out.new ≡ out.old ++ print.handler_tokens handler.now) }
{
    put(out, Lexeme::Except)?;
    put_optional(out, &handler.kinds)?;
    put_bound(out, &handler.bound)?;
    put(out, Lexeme::Colon)?;
    put_block(out, &handler.body)
}

#[cycle(stmts)]
fn put_handlers(out: &mut Seq<Lexeme>, handlers: &Seq<Handler>) -> Result<(), NoMemory>
    ensures { OnOk result (out.new ≡ out.old ++ print.in_order (map print.handler_tokens handlers.now)) }
{
    for handler in handlers.as_slice() {
        put_handler(out, handler)?;
    }
    Ok(())
}

#[cycle(stmts)]
fn put_try(out: &mut Seq<Lexeme>, body: &Seq<Stmt>) -> Result<(), NoMemory>
    ensures { OnOk result (out.new ≡ out.old ++ token.Try ∷ token.Colon ∷ print.block
        (map print.stmt_tokens body.now)) }
{
    put(out, Lexeme::Try)?;
    put(out, Lexeme::Colon)?;
    put_block(out, body)
}

/// What stands before the body of a function.
fn put_head(out: &mut Seq<Lexeme>, function: &FuncDef) -> Result<(), NoMemory>
    ensures { OnOk result (out.new ≡ out.old ++ between.head function.now.name function.now.parameters) }
{
    put(out, Lexeme::Def)?;
    put_name(out, &function.name)?;
    put(out, Lexeme::OpenParen)?;
    put_names(out, &function.parameters)?;
    put(out, Lexeme::CloseParen)?;
    put(out, Lexeme::Colon)
}

#[cycle(stmts)]
fn put_function(out: &mut Seq<Lexeme>, function: &FuncDef) -> Result<(), NoMemory>
    ensures { OnOk result (out.new ≡ out.old ++ print.function_tokens function.now) }
{
    put_head(out, function)?;
    put(out, Lexeme::Newline)?;
    put(out, Lexeme::Indent)?;
    put_globals(out, &function.globals)?;
    put_stmts(out, &function.body)?;
    put(out, Lexeme::Dedent)
}
