//! Scripts.
ghost use Rattle.std.specs.Prelude.{◌≡◌, IfOk};
ghost use Rattle.source_print.specs.Statements.{printed};

use crate::names::put;
use crate::stmts::put_stmts;
use base_types::{NoMemory, Seq};
use py_syntax::{Lexeme, Script};

/// The lexemes of a script: a statement a line, each block on lines of its own, and a parenthesis only where the grammar
/// needs one. The work is linear in the answer.
pub fn script_lexemes(script: &Script) -> Result<Seq<Lexeme>, NoMemory>
    ensures { IfOk result (λ it. it ≡ printed script.now) }
{
    let mut out = Seq::new(script.body.alloc());
    put_stmts(&mut out, &script.body)?;
    put(&mut out, Lexeme::End)?;
    Ok(out)
}
