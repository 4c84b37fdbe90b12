//! Writing.
ghost use Rattle.std.specs.Prelude.{◌≡◌, ◌∷◌, [], ◌++◌, ◌<◌, ◌/◌, ◌%◌, codes, IfOk};
ghost use Rattle.std.specs.List.{flat_map};
ghost use Rattle.base_spelling.specs.Spelling as spelling;

use base_types::{NoMemory, Text};
use std::str;

/// The text with one more piece.
pub fn put(out: Text, piece: &str) -> Result<Text, NoMemory>
    ensures { IfOk result (λ it. it ≡ out ++ piece.now) }
{
    let mut out = out;
    out.push_str(piece)?;
    Ok(out)
}

/// A hexadecimal digit, in lower case.
pub fn hex_digit(n: u8) -> &'static str
    requires { n < 16 }
    ensures { result.now ≡ spelling.hex_digit n ∷ [] }
{
    match n {
        0 => "0",
        1 => "1",
        2 => "2",
        3 => "3",
        4 => "4",
        5 => "5",
        6 => "6",
        7 => "7",
        8 => "8",
        9 => "9",
        10 => "a",
        11 => "b",
        12 => "c",
        13 => "d",
        14 => "e",
        _ => "f",
    }
}

#[tactic(auto, using(crate::proofs::Pieces::two))]
fn put_hex(out: Text, b: u8) -> Result<Text, NoMemory>
    ensures { IfOk result (λ it. it ≡ out ++ spelling.hex_byte b) }
{
    let out = put(out, hex_digit(b / 16))?;
    put(out, hex_digit(b % 16))
}

fn is_escaped(b: u8) -> bool
    ensures { result ≡ spelling.is_escaped b }
{
    b == b'\\' || b == b'"' || b < 32 || b == 127
}

#[tactic(auto, using(crate::proofs::Pieces::two))]
fn put_hex_escape(out: Text, b: u8) -> Result<Text, NoMemory>
    ensures { IfOk result (λ it. it ≡ out ++ (codes "\\x" ++ spelling.hex_byte b)) }
{
    let out = put(out, "\\x")?;
    put_hex(out, b)
}

fn put_escape(out: Text, b: u8) -> Result<Text, NoMemory>
    ensures { IfOk result (λ it. it ≡ out ++ spelling.escape b) }
{
    match b {
        b'\\' => put(out, "\\\\"),
        b'"' => put(out, "\\\""),
        b'\n' => put(out, "\\n"),
        b'\r' => put(out, "\\r"),
        b'\t' => put(out, "\\t"),
        _ => put_hex_escape(out, b),
    }
}

/// A run of bytes that stand for themselves, and the escape behind it.
#[tactic(auto, using(crate::proofs::Pieces::two))]
fn put_run(out: Text, run: &str, b: u8) -> Result<Text, NoMemory>
    ensures { IfOk result (λ it. it ≡ out ++ (run.now ++ spelling.escape b)) }
{
    let out = put(out, run)?;
    put_escape(out, b)
}

/// The text with its escapes.
fn put_escaped(out: Text, text: &str) -> Result<Text, NoMemory>
    ensures { IfOk result (λ it. it ≡ out ++ flat_map spelling.escaped text.now) }
{
    let bytes = text.as_bytes();
    let mut more = out;
    let mut from = 0;
    for i in 0..bytes.len() {
        if is_escaped(bytes[i]) {
            more = put_run(more, &text[from..i], bytes[i])?;
            from = i + 1;
        }
    }
    put(more, &text[from..])
}

/// A text in quotes: a backslash and a quote stand behind a backslash, the other bytes below 20 and 7F hexadecimal as
/// `\n`, `\r`, `\t` or `\xHH`, and all others for themselves.
#[tactic(auto, using(crate::proofs::Pieces::three))]
pub fn write_quoted(out: Text, text: &str) -> Result<Text, NoMemory>
    ensures { IfOk result (λ it. it ≡ out ++ spelling.quoted text.now) }
{
    let out = put(out, "\"")?;
    let out = put_escaped(out, text)?;
    put(out, "\"")
}

/// The digits of all bytes.
fn put_digits(out: Text, bytes: &[u8]) -> Result<Text, NoMemory>
    ensures { IfOk result (λ it. it ≡ out ++ flat_map spelling.hex_byte bytes.now) }
{
    let mut more = out;
    for b in bytes {
        more = put_hex(more, *b)?;
    }
    Ok(more)
}

#[tactic(auto, using(crate::proofs::Pieces::three))]
fn write_in_hex(out: Text, bytes: &[u8]) -> Result<Text, NoMemory>
    ensures { IfOk result (λ it. it ≡ out ++ spelling.in_hex bytes.now) }
{
    let out = put(out, "hex(")?;
    let out = put_digits(out, bytes)?;
    put(out, ")")
}

/// A source: as a text where it is UTF-8, and else as `hex(`, its hexadecimal digits in lower case, and `)`.
pub fn write_source(out: Text, bytes: &[u8]) -> Result<Text, NoMemory>
    ensures { IfOk result (λ it. it ≡ out ++ spelling.source bytes.now) }
{
    match str::from_utf8(bytes) {
        Ok(text) => write_quoted(out, text),
        Err(_) => write_in_hex(out, bytes),
    }
}
