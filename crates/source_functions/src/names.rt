//! The names that a statement binds.
ghost use Rattle.std.specs.Prelude.{◌≡◌, ◌++◌, ◌∷◌, [], IfOk, OnOk};
ghost use Rattle.source_functions.specs.Binding as binding;

use base_types::{Exact, NoMemory, Seq, Text, Texts};
use py_syntax::{Alias, Branch, Expr, FuncDef, Handler, ImportedNames, Stmt};

fn put_name(names: &mut Texts, name: &Text) -> Result<(), NoMemory>
    ensures { OnOk result (names.new ≡ names.old ++ name.now ∷ []) }
{
    names.push(name.copy()?)
}

fn put_names(names: &mut Texts, more: &Texts) -> Result<(), NoMemory>
    ensures { OnOk result (names.new ≡ names.old ++ more.now) }
{
    for name in more.as_slice() {
        put_name(names, name)?;
    }
    Ok(())
}

/// The name of a target that is one.
fn put_target(names: &mut Texts, target: &Expr) -> Result<(), NoMemory>
    ensures { OnOk result (names.new ≡ names.old ++ binding.target_names target.now) }
{
    match target {
        Expr::Name(name) => put_name(names, name),
        _ => Ok(()),
    }
}

fn put_optional(names: &mut Texts, name: &Option<Text>) -> Result<(), NoMemory>
    ensures { OnOk result (names.new ≡ names.old ++ binding.optional_name name.now) }
{
    match name {
        Some(name) => put_name(names, name),
        None => Ok(()),
    }
}

/// The first part of a dotted name.
fn put_first(names: &mut Texts, parts: &[Text]) -> Result<(), NoMemory>
    ensures { OnOk result (names.new ≡ names.old ++ binding.first_part parts.now) }
{
    match parts {
        [first, ..] => put_name(names, first),
        [] => Ok(()),
    }
}

/// What an import binds: the name behind `as`, or else the first part.
fn put_alias(names: &mut Texts, alias: &Alias) -> Result<(), NoMemory>
    ensures { OnOk result (names.new ≡ names.old ++ binding.alias_names alias.now.parts alias.now.bound) }
{
    match &alias.bound {
        Some(name) => put_name(names, name),
        None => put_first(names, alias.parts.as_slice()),
    }
}

fn put_aliases(names: &mut Texts, aliases: &Seq<Alias>) -> Result<(), NoMemory>
    ensures { OnOk result (names.new ≡ names.old ++ binding.aliases_names aliases.now) }
{
    for alias in aliases.as_slice() {
        put_alias(names, alias)?;
    }
    Ok(())
}

fn put_imported(names: &mut Texts, imported: &ImportedNames) -> Result<(), NoMemory>
    ensures { OnOk result (names.new ≡ names.old ++ binding.imported_names imported.now) }
{
    match imported {
        ImportedNames::All => Ok(()),
        ImportedNames::Listed(items) => put_aliases(names, items),
    }
}

// ---- statements

/// Those of a statement.
#[cycle(forms)]
fn put_stmt(names: &mut Texts, stmt: &Stmt) -> Result<(), NoMemory>
    ensures { OnOk result (names.new ≡ names.old ++ binding.stmt_names stmt.now) }
{
    match stmt {
        Stmt::Assign(target, _) | Stmt::Delete(target) => put_target(names, target),
        Stmt::Augment(name, _, _) => put_name(names, name),
        Stmt::Import(aliases) => put_aliases(names, aliases),
        Stmt::From(_, _, imported) => put_imported(names, imported),
        Stmt::If(branches, otherwise) => {
            put_branches(names, branches)?;
            put_stmts(names, otherwise)
        }
        Stmt::While(_, body) => put_stmts(names, body),
        Stmt::Try(body, handlers, otherwise, finally) => {
            put_stmts(names, body)?;
            put_handlers(names, handlers)?;
            put_stmts(names, otherwise)?;
            put_stmts(names, finally)
        }
        Stmt::Def(function) => put_name(names, &function.name),
        _ => Ok(()),
    }
}

#[cycle(forms)]
fn put_stmts(names: &mut Texts, stmts: &Seq<Stmt>) -> Result<(), NoMemory>
    ensures { OnOk result (names.new ≡ names.old ++ binding.stmts_names stmts.now) }
{
    for stmt in stmts.as_slice() {
        put_stmt(names, stmt)?;
    }
    Ok(())
}

#[cycle(forms)]
fn put_branches(names: &mut Texts, branches: &Seq<Branch>) -> Result<(), NoMemory>
    ensures { OnOk result (names.new ≡ names.old ++ binding.branches_names branches.now) }
{
    for branch in branches.as_slice() {
        put_stmts(names, &branch.body)?;
    }
    Ok(())
}

#[cycle(forms)]
fn put_handlers(names: &mut Texts, handlers: &Seq<Handler>) -> Result<(), NoMemory>
    ensures { OnOk result (names.new ≡ names.old ++ binding.handlers_names handlers.now) }
{
    for handler in handlers.as_slice() {
        put_optional(names, &handler.bound)?;
        put_stmts(names, &handler.body)?;
    }
    Ok(())
}

/// What a function binds, its parameters first, each name as often as it is bound. The work is linear in the function.
#[tactic(auto, unfolding(crate::specs::Binding::bound_names))]
pub fn bound_names(function: &FuncDef) -> Result<Texts, NoMemory>
    ensures { IfOk result (λ names. names ≡ binding.bound_names function.now) }
{
    let mut names = Seq::new(function.parameters.alloc());
    put_names(&mut names, &function.parameters)?;
    put_stmts(&mut names, &function.body)?;
    Ok(names)
}
