//! How a lexeme is spelled.
ghost use Rattle.std.specs.Prelude.{◌≡◌, ◌++◌, IfOk};
ghost use Rattle.std.specs.Fmt.{signed_decimal};
ghost use Rattle.std.specs.Str.{IsUtf8};
ghost use Rattle.base_spelling.specs.Spelling.{quoted};
ghost use Rattle.source_print.specs.TextLaws.{Utf8};
ghost use Rattle.source_print.specs.Spelling as spelling;

use base_spelling::{put, write_quoted};
use base_types::{NoMemory, Text};
use py_syntax::Lexeme;

/// The word of an operand, of an operator or of a constant; empty for any other lexeme.
fn word_of_expression(lexeme: &Lexeme) -> &'static str
    ensures { result.now ≡ spelling.word_of_expression lexeme.now }
{
    match lexeme {
        Lexeme::And => "and",
        Lexeme::False => "False",
        Lexeme::In => "in",
        Lexeme::Is => "is",
        Lexeme::None => "None",
        Lexeme::Not => "not",
        Lexeme::Or => "or",
        Lexeme::True => "True",
        _ => "",
    }
}

/// The word of a simple statement; empty for any other lexeme.
fn word_of_line(lexeme: &Lexeme) -> &'static str
    ensures { result.now ≡ spelling.word_of_line lexeme.now }
{
    match lexeme {
        Lexeme::As => "as",
        Lexeme::Break => "break",
        Lexeme::Continue => "continue",
        Lexeme::Del => "del",
        Lexeme::From => "from",
        Lexeme::Global => "global",
        Lexeme::Import => "import",
        Lexeme::Pass => "pass",
        Lexeme::Raise => "raise",
        Lexeme::Return => "return",
        _ => "",
    }
}

/// The word of a compound statement; empty for any other lexeme.
fn word_of_block(lexeme: &Lexeme) -> &'static str
    ensures { result.now ≡ spelling.word_of_block lexeme.now }
{
    match lexeme {
        Lexeme::Def => "def",
        Lexeme::Elif => "elif",
        Lexeme::Else => "else",
        Lexeme::Except => "except",
        Lexeme::Finally => "finally",
        Lexeme::If => "if",
        Lexeme::Try => "try",
        Lexeme::While => "while",
        _ => "",
    }
}

/// The sign of an operator; empty for any other lexeme.
fn sign_of_operator(lexeme: &Lexeme) -> &'static str
    ensures { result.now ≡ spelling.sign_of_operator lexeme.now }
{
    match lexeme {
        Lexeme::EqEq => "==",
        Lexeme::NotEq => "!=",
        Lexeme::Less => "<",
        Lexeme::LessEq => "<=",
        Lexeme::Greater => ">",
        Lexeme::GreaterEq => ">=",
        Lexeme::Plus => "+",
        Lexeme::Minus => "-",
        Lexeme::Star => "*",
        Lexeme::SlashSlash => "//",
        Lexeme::Percent => "%",
        _ => "",
    }
}

/// The sign of an assignment; empty for any other lexeme.
fn sign_of_assignment(lexeme: &Lexeme) -> &'static str
    ensures { result.now ≡ spelling.sign_of_assignment lexeme.now }
{
    match lexeme {
        Lexeme::Assign => "=",
        Lexeme::PlusEq => "+=",
        Lexeme::MinusEq => "-=",
        Lexeme::StarEq => "*=",
        Lexeme::SlashSlashEq => "//=",
        Lexeme::PercentEq => "%=",
        _ => "",
    }
}

/// A bracket or a mark; empty for any other lexeme.
fn mark(lexeme: &Lexeme) -> &'static str
    ensures { result.now ≡ spelling.mark lexeme.now }
{
    match lexeme {
        Lexeme::OpenParen => "(",
        Lexeme::CloseParen => ")",
        Lexeme::OpenBracket => "[",
        Lexeme::CloseBracket => "]",
        Lexeme::Comma => ",",
        Lexeme::Colon => ":",
        Lexeme::Semicolon => ";",
        Lexeme::Dot => ".",
        Lexeme::Ellipsis => "...",
        _ => "",
    }
}

/// The one spelling of a keyword, an operator or a delimiter; empty for any other lexeme.
#[tactic(auto, using(crate::proofs::Pieces::six))]
fn put_fixed(out: Text, lexeme: &Lexeme) -> Result<Text, NoMemory>
    ensures { IfOk result (λ it. it ≡ out ++ spelling.fixed lexeme.now) }
{
    let out = put(out, word_of_expression(lexeme))?;
    let out = put(out, word_of_line(lexeme))?;
    let out = put(out, word_of_block(lexeme))?;
    let out = put(out, sign_of_operator(lexeme))?;
    let out = put(out, sign_of_assignment(lexeme))?;
    put(out, mark(lexeme))
}

fn put_number(out: Text, n: i128) -> Result<Text, NoMemory>
    ensures { IfOk result (λ it. it ≡ out ++ signed_decimal n) }
{
    let digits = format!(in out.alloc(); "{}", n)?;
    put(out, digits.as_str())
}

/// A text as it is. A `str` is UTF-8.
fn put_text(out: Text, text: &str) -> Result<Text, NoMemory>
    ensures text { IfOk result (λ it. it ≡ out ++ text.now) }
    ensures utf8 { IsUtf8 text.now }
{
    put(out, text)
}

/// A text in quotes.
fn put_string(out: Text, text: &str) -> Result<Text, NoMemory>
    ensures text { IfOk result (λ it. it ≡ out ++ quoted text.now) }
    ensures utf8 { IsUtf8 text.now }
{
    write_quoted(out, text)
}

/// A lexeme as it is spelled: a string in quotes with its escapes, a number in decimal.
pub(crate) fn put_spelled(out: Text, lexeme: &Lexeme) -> Result<Text, NoMemory>
    ensures text { IfOk result (λ it. it ≡ out ++ spelling.spelled lexeme.now) }
    ensures utf8 { Utf8 lexeme.now }
{
    match lexeme {
        Lexeme::Name(name) => put_text(out, name.as_str()),
        Lexeme::Number(n) => put_number(out, *n),
        Lexeme::Str(text) => put_string(out, text.as_str()),
        Lexeme::Other(text) => put(out, text.as_str()),
        _ => put_fixed(out, lexeme),
    }
}
