//! Tokens.

use base_types::Text;

/// A token. Texts of names are in their normal form NFKC, those of strings as read.
#[derive(Drop)]
pub enum Tok {
    Name(Text),
    Keyword(Text),
    Number(i128),
    Str(Text),
    Op(Text),
    Newline,
    Indent,
    Dedent,
    End,
}

/// A token with the line of its first character.
#[derive(Drop)]
pub struct Token {
    pub kind: Tok,
    pub line: u32,
}

/// A token at the front, and how many line ends it has inside.
#[derive(Drop)]
pub struct Word {
    pub tok: Tok,
    pub lines: u32,
}
