//! The lines of import statements, by the tokens that begin them.
ghost use Rattle.std.specs.Prelude.{◌≡◌, IfOk, true};
ghost use Rattle.report_questions.specs.Lines as spec;

use base_types::{NoMemory, Seq};
use py_lexer::{Tok, Token};
use std::alloc::Global;

/// Whether a statement may begin behind this token.
fn ends_statement(tok: &Tok) -> bool
    ensures { result ≡ spec.ends_statement tok.now }
{
    match tok {
        Tok::Newline | Tok::Indent | Tok::Dedent => true,
        Tok::Op(text) => text.as_str() == ";" || text.as_str() == ":",
        _ => false,
    }
}

/// Whether an import statement begins with this token, where one may begin.
fn begins_import(is_start: bool, tok: &Tok) -> bool
    ensures { result ≡ spec.begins_import is_start tok.now }
{
    match tok {
        Tok::Keyword(text) => { text.as_str() == "from" || (text.as_str() == "import" && is_start) }
        _ => false,
    }
}

/// The lines of the tokens with which import statements begin, in order. The work is linear in the tokens.
pub fn import_lines(alloc: Global, tokens: &[Token]) -> Result<Seq<u32>, NoMemory>
    ensures { IfOk result (λ lines. lines ≡ spec.import_lines tokens.now) }
{
    let mut lines = Seq::new(alloc);
    let mut is_start = true;
    let mut rest = tokens;
    'tokens: while let [token, after @ ..] = rest {
        if begins_import(is_start, &token.kind) {
            lines.push(token.line)?;
        }
        is_start = ends_statement(&token.kind);
        rest = after;
    }
    Ok(lines)
}
