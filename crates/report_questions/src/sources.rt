//! What the imports of a source ask.
ghost use Rattle.std.specs.Prelude.{◌≡◌, ◌++◌, ◌∷◌, ◌<◌, [], ℕ, List, length, Option, IfOk, IfSome, OnOk, Ok};
ghost use Rattle.base_types.specs.declared.limits.TheConstants.{LONGEST_SOURCE};
ghost use Rattle.py_lexer.specs.Source.{Tokens};
ghost use Rattle.py_syntax.specs.Grammar.{Spells};
ghost use Rattle.py_parser.specs.Words.{lexemes_of};
ghost use Rattle.report_questions.specs.SourceImports.{imports_of};
ghost use Rattle.report_questions.specs.Questions as list;
ghost use Rattle.report_questions.specs.Sources as spec;
ghost use Rattle.report_questions.specs.Faults.{fault_of};
ghost use Rattle.report_questions.specs.Sources.{Faulted};

use crate::faults::fault_of;
use crate::question::{Query, Question};
use crate::relative::queries_of;
use crate::{Import, imports_of};
use base_types::{NoMemory, Seq, Text};
use py_lexer::{LexError, Token, tokens};
use py_parser::{MAX_LEVELS, ParseError, lexemes, parse};
use py_syntax::Script;
use source_combinators::ReadError;
use source_parse_statements::script;
use std::alloc::Global;

/// Questions in one line.
fn put_line(questions: &mut Seq<Question>, line: u32, queries: Seq<Query>) -> Result<(), NoMemory>
    ensures { OnOk result (questions.new ≡ questions.old ++ list.in_line line queries) }
{
    for query in queries.into_vec() {
        questions.push(Question { line, query })?;
    }
    Ok(())
}

/// What import statements ask in a module of this package.
fn questions_of(home: &Option<Text>, imports: &Seq<Import>) -> Result<Seq<Question>, NoMemory>
    ensures { IfOk result (λ questions. questions ≡ list.questions_of home.now imports.now) }
{
    let mut questions = Seq::new(imports.alloc());
    for import in imports.as_slice() {
        let queries = queries_of(home, &import.asked)?;
        put_line(&mut questions, import.line, queries)?;
    }
    Ok(questions)
}

/// The one line of a source that has no tree.
fn fault_alone(alloc: Global, error: ParseError) -> Result<Seq<Question>, NoMemory>
    ensures { IfOk result (λ questions. questions ≡ fault_of error ∷ []) }
{
    let mut questions = Seq::new(alloc);
    questions.push(fault_of(alloc, error)?)?;
    Ok(questions)
}

/// The one question of a source that is too long, which is told of its first line.
pub fn too_long(alloc: Global) -> Result<Seq<Question>, NoMemory>
    ensures { (home : Option (List ℕ)) (src : List ℕ) → LONGEST_SOURCE < length src
        → IfOk result (λ all. all ≡ spec.questions home src) }
{
    fault_alone(alloc, ParseError::Lex(LexError::TooLong))
}

/// The one line of a source that has no tree. Want of memory is no fault of a source.
fn fault_questions(alloc: Global, error: ParseError) -> Result<Seq<Question>, NoMemory>
    ensures { Faulted error result }
{
    match error {
        ParseError::NoMemory => Err(NoMemory),
        error => fault_alone(alloc, error),
    }
}

/// What a source asks that has this tree and these tokens.
fn script_questions(
    alloc: Global,
    home: &Option<Text>,
    script: &Script,
    tokens: &[Token],
) -> Result<Seq<Question>, NoMemory>
    ensures { IfOk result (λ questions. questions ≡ list.questions_of home.now (imports_of script.now tokens.now)) }
{
    let imports = imports_of(alloc, script, tokens)?;
    questions_of(home, &imports)
}

/// The tree that tokens spell. None where they spell none.
fn tree_of(alloc: Global, tokens: &[Token]) -> Result<Option<Script>, NoMemory>
    ensures { IfOk result (λ it. IfSome it (λ script. Spells 64 (lexemes_of tokens.now) script)) }
{
    let lexemes = lexemes(alloc, tokens)?;
    match script(alloc, lexemes.as_slice(), MAX_LEVELS) {
        Ok(script) => Ok(Some(script)),
        Err(ReadError::NoMemory) => Err(NoMemory),
        Err(ReadError::Refused(_)) => Ok(None),
    }
}

/// The one line of a source that has no tree: it is parsed for its fault. Where it has one after all, there was no
/// memory to keep it.
fn refused_questions(
    alloc: Global,
    home: &Option<Text>,
    src: &[u8],
) -> Result<Seq<Question>, NoMemory>
    ensures { IfOk result (λ questions. questions ≡ spec.questions home.now src.now) }
{
    match parse(alloc, src) {
        Ok(_) => Err(NoMemory),
        Err(error) => fault_questions(alloc, error),
    }
}

/// What a source asks that has these tokens, of which its tree and the lines of its imports are read: so it is lexed
/// once.
fn token_questions(
    alloc: Global,
    home: &Option<Text>,
    src: &[u8],
    tokens: &[Token],
) -> Result<Seq<Question>, NoMemory>
    requires { Tokens src.now (Ok tokens.now) }
    ensures { IfOk result (λ questions. questions ≡ spec.questions home.now src.now) }
{
    let tree = tree_of(alloc, tokens)?;
    match tree {
        Some(script) => script_questions(alloc, home, &script, tokens),
        None => refused_questions(alloc, home, src),
    }
}

/// What the imports of a source ask in a module of this package, in the order of their first tokens, those in blocks and
/// functions too; or the fault of a source that has no tree. The work is linear in the source.
pub fn questions(alloc: Global, home: &Option<Text>, src: &[u8]) -> Result<Seq<Question>, NoMemory>
    ensures { IfOk result (λ questions. questions ≡ spec.questions home.now src.now) }
{
    match tokens(alloc, src) {
        Ok(tokens) => token_questions(alloc, home, src, tokens.as_slice()),
        Err(_) => refused_questions(alloc, home, src),
    }
}
