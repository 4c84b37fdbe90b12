ghost use Rattle.std.specs.Prelude.{◌≡◌, ◌∷◌, [], ◌++◌, ◌/◌, ◌%◌, codes, IfOk};
ghost use Rattle.std.specs.List.{flat_map};
ghost use Rattle.base_spelling.specs.Spelling.{hex_digit};
ghost use Rattle.value_texts.specs.Texts as table;

use crate::draft::{Draft, put};
use base_spelling::hex_digit;
use base_types::NoMemory;

/// What a text is written between.
#[derive(Clone, Copy, Drop)]
pub enum Quote {
    Single,
    Double,
}

impl Quote {
    fn byte(self) -> u8
        ensures { result ≡ table.quote_byte self }
    {
        match self {
            Quote::Single => b'\'',
            Quote::Double => b'"',
        }
    }

    fn text(self) -> &'static str
        ensures { result.now ≡ table.quote_byte self ∷ [] }
    {
        match self {
            Quote::Single => "'",
            Quote::Double => "\"",
        }
    }
}

fn has_byte(byte: u8, text: &[u8]) -> bool
    ensures { result ≡ table.has_byte byte text.now }
{
    text.contains(&byte)
}

fn quote_of(text: &[u8]) -> Quote
    ensures { result ≡ table.quote_of text.now }
{
    if has_byte(b'\'', text) && !has_byte(b'"', text) {
        return Quote::Double;
    }
    Quote::Single
}

fn is_escaped(quote: Quote, b: u8) -> bool
    ensures { result ≡ table.is_escaped (table.quote_byte quote) b }
{
    b == b'\\' || b == quote.byte() || b < 32 || b == 127
}

#[tactic(auto, using(crate::proofs::Drafts::put_put))]
fn put_hex(draft: Draft, b: u8) -> Result<Draft, NoMemory>
    ensures { IfOk result (λ it. it ≡ table.put draft (codes "\\x"
        ++ (hex_digit (b / 16) ∷ hex_digit (b % 16) ∷ []))) }
{
    let draft = put(draft, "\\x")?;
    let draft = put(draft, hex_digit(b / 16))?;
    put(draft, hex_digit(b % 16))
}

#[tactic(auto, using(crate::proofs::Drafts::put_put))]
fn put_quote(draft: Draft, quote: Quote) -> Result<Draft, NoMemory>
    ensures { IfOk result (λ it. it ≡ table.put draft (92 ∷ table.quote_byte quote ∷ [])) }
{
    let draft = put(draft, "\\")?;
    put(draft, quote.text())
}

fn put_escape(draft: Draft, quote: Quote, b: u8) -> Result<Draft, NoMemory>
    ensures { IfOk result (λ it. it ≡ table.put draft (table.escape (table.quote_byte quote) b)) }
{
    if b == b'\\' {
        return put(draft, "\\\\");
    }
    if b == quote.byte() {
        return put_quote(draft, quote);
    }
    match b {
        b'\n' => put(draft, "\\n"),
        b'\r' => put(draft, "\\r"),
        b'\t' => put(draft, "\\t"),
        _ => put_hex(draft, b),
    }
}

/// A run of bytes that stand for themselves, and the escape behind it.
#[tactic(auto, using(crate::proofs::Drafts::put_put))]
fn put_run(draft: Draft, quote: Quote, run: &str, b: u8) -> Result<Draft, NoMemory>
    ensures { IfOk result (λ it. it ≡ table.put draft (run.now ++ table.escape (table.quote_byte quote) b)) }
{
    let draft = put(draft, run)?;
    put_escape(draft, quote, b)
}

/// A quote, and the text with its escapes.
fn put_opened(draft: Draft, quote: Quote, text: &str) -> Result<Draft, NoMemory>
    ensures { IfOk result (λ it. it ≡ table.put draft (table.quote_byte quote
        ∷ flat_map (table.escaped (table.quote_byte quote)) text.now)) }
{
    let bytes = text.as_bytes();
    let mut draft = put(draft, quote.text())?;
    let mut from = 0;
    for i in 0..bytes.len() {
        if is_escaped(quote, bytes[i]) {
            draft = put_run(draft, quote, &text[from..i], bytes[i])?;
            from = i + 1;
        }
    }
    put(draft, &text[from..])
}

#[tactic(auto, using(crate::proofs::Drafts::put_put))]
fn put_quoted_in(draft: Draft, quote: Quote, text: &str) -> Result<Draft, NoMemory>
    ensures { IfOk result (λ it. it ≡ table.put draft (table.quoted_in (table.quote_byte quote) text.now)) }
{
    let draft = put_opened(draft, quote, text)?;
    put(draft, quote.text())
}

/// The text between quotes, with its escapes.
pub fn put_quoted(draft: Draft, text: &str) -> Result<Draft, NoMemory>
    ensures { IfOk result (λ it. it ≡ table.put draft (table.quoted text.now)) }
{
    put_quoted_in(draft, quote_of(text.as_bytes()), text)
}
