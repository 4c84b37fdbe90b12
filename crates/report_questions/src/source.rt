//! The import statements of a script with their lines.
ghost use Rattle.std.specs.Prelude.{◌≡◌, ◌++◌, IfOk, OnOk, drop};
ghost use Rattle.report_questions.specs.SourceImports as spec;

use crate::collect::{Asked, statements};
use crate::lines::import_lines;
use base_types::{NoMemory, Seq};
use py_lexer::Token;
use py_syntax::Script;
use std::alloc::Global;

/// An import statement with its line, from 1.
#[derive(Drop)]
pub struct Import {
    pub line: u32,
    pub asked: Asked,
}

/// A statement beside the first of the lines, where there is one.
fn put_pair(imports: &mut Seq<Import>, asked: Asked, lines: &[u32]) -> Result<(), NoMemory>
    ensures { OnOk result (imports.new ≡ imports.old ++ spec.with_first asked lines.now) }
{
    match lines {
        [] => Ok(()),
        [line, ..] => imports.push(Import { line: *line, asked }),
    }
}

/// The lines behind the first.
fn behind_first(lines: &[u32]) -> &[u32]
    ensures { result.now ≡ drop 1 lines.now }
{
    match lines {
        [] => lines,
        [_, after @ ..] => after,
    }
}

/// Statements beside their lines.
fn paired(statements: Seq<Asked>, lines: &[u32]) -> Result<Seq<Import>, NoMemory>
    ensures { IfOk result (λ imports. imports ≡ spec.paired statements lines.now) }
{
    let mut imports = Seq::new(statements.alloc());
    let mut rest = lines;
    for asked in statements.into_vec() {
        put_pair(&mut imports, asked, rest)?;
        rest = behind_first(rest);
    }
    Ok(imports)
}

/// The import statements of a script with their lines, in the order of their first tokens, those in blocks and functions
/// too, where these tokens spell the script. The work is linear in the script and its tokens.
#[tactic(auto, unfolding(crate::specs::SourceImports::imports_of))]
pub fn imports_of(alloc: Global, script: &Script, tokens: &[Token]) -> Result<Seq<Import>, NoMemory>
    ensures { IfOk result (λ imports. imports ≡ spec.imports_of script.now tokens.now) }
{
    let statements = statements(script)?;
    let lines = import_lines(alloc, tokens)?;
    paired(statements, lines.as_slice())
}
