//! The import statements of a script, collected in the order in which they are written.
ghost use Rattle.std.specs.Prelude.{◌≡◌, ◌++◌, ◌∷◌, [], IfOk, OnOk};
ghost use Rattle.report_questions.specs.Statements as list;

use crate::names::dotted_name;
use base_types::{NoMemory, Seq, Text, Texts};
use py_syntax::{Alias, Branch, FuncDef, Handler, ImportedNames, Script, Stmt};

/// What an import statement asks for (Language Reference 7.11).
#[derive(Drop)]
pub enum Asked {
    /// `import` of these dotted names.
    Modules(Texts),
    /// `from` so many dots and this dotted name, which is empty where there are dots alone.
    From {
        level: u32,
        module: Text,
        /// The names behind `import`; None stands for `*`.
        names: Option<Texts>,
    },
}

/// The statements that a walk has found.
pub type Found = Seq<Asked>;

/// The dotted names of aliases, in their order.
fn alias_names(aliases: &Seq<Alias>) -> Result<Texts, NoMemory>
    ensures { IfOk result (λ names. names ≡ list.alias_names aliases.now) }
{
    let mut names = Seq::new(aliases.alloc());
    for alias in aliases.as_slice() {
        names.push(dotted_name(&alias.parts)?)?;
    }
    Ok(names)
}

/// The names behind the `import` of a `from`.
fn imported_names(imported: &ImportedNames) -> Result<Option<Texts>, NoMemory>
    ensures { IfOk result (λ names. names ≡ list.imported_names imported.now) }
{
    match imported {
        ImportedNames::All => Ok(None),
        ImportedNames::Listed(items) => Ok(Some(alias_names(items)?)),
    }
}

fn put_modules(found: &mut Found, aliases: &Seq<Alias>) -> Result<(), NoMemory>
    ensures { OnOk result (found.new ≡ found.old ++ list.asked_modules aliases.now ∷ []) }
{
    let names = alias_names(aliases)?;
    found.push(Asked::Modules(names))
}

fn put_from(
    found: &mut Found,
    level: u32,
    parts: &Texts,
    imported: &ImportedNames,
) -> Result<(), NoMemory>
    ensures { OnOk result (found.new ≡ found.old ++ list.asked_from level parts.now imported.now ∷ []) }
{
    let module = dotted_name(parts)?;
    let names = imported_names(imported)?;
    found.push(Asked::From {
        level,
        module,
        names,
    })
}

/// Those of a statement: itself, or those in its blocks.
#[cycle(forms)]
fn put_stmt(found: &mut Found, stmt: &Stmt) -> Result<(), NoMemory>
    ensures { OnOk result (found.new ≡ found.old ++ list.in_stmt stmt.now) }
{
    match stmt {
        Stmt::Import(aliases) => put_modules(found, aliases),
        Stmt::From(level, parts, imported) => put_from(found, *level, parts, imported),
        Stmt::If(branches, otherwise) => {
            put_branches(found, branches)?;
            put_stmts(found, otherwise)
        }
        Stmt::While(_, body) => put_stmts(found, body),
        Stmt::Try(body, handlers, otherwise, finally) => {
            put_stmts(found, body)?;
            put_handlers(found, handlers)?;
            put_stmts(found, otherwise)?;
            put_stmts(found, finally)
        }
        Stmt::Def(function) => put_function(found, function),
        _ => Ok(()),
    }
}

#[cycle(forms)]
fn put_stmts(found: &mut Found, stmts: &Seq<Stmt>) -> Result<(), NoMemory>
    ensures { OnOk result (found.new ≡ found.old ++ list.in_stmts stmts.now) }
{
    for stmt in stmts.as_slice() {
        put_stmt(found, stmt)?;
    }
    Ok(())
}

#[cycle(forms)]
fn put_branches(found: &mut Found, branches: &Seq<Branch>) -> Result<(), NoMemory>
    ensures { OnOk result (found.new ≡ found.old ++ list.in_branches branches.now) }
{
    for branch in branches.as_slice() {
        put_stmts(found, &branch.body)?;
    }
    Ok(())
}

#[cycle(forms)]
fn put_handlers(found: &mut Found, handlers: &Seq<Handler>) -> Result<(), NoMemory>
    ensures { OnOk result (found.new ≡ found.old ++ list.in_handlers handlers.now) }
{
    for handler in handlers.as_slice() {
        put_stmts(found, &handler.body)?;
    }
    Ok(())
}

/// Those in the body of a function.
#[cycle(forms)]
fn put_function(found: &mut Found, function: &FuncDef) -> Result<(), NoMemory>
    ensures { OnOk result (found.new ≡ found.old ++ list.in_function function.now) }
{
    put_stmts(found, &function.body)
}

/// All import statements of a script, those in blocks and in functions too, in the order in which they are written. The
/// work is linear in the script.
#[tactic(auto, unfolding(crate::specs::Statements::statements))]
pub fn statements(script: &Script) -> Result<Found, NoMemory>
    ensures { IfOk result (λ found. found ≡ list.statements script.now) }
{
    let mut found = Seq::new(script.body.alloc());
    put_stmts(&mut found, &script.body)?;
    Ok(found)
}
