//! What bytes would spell.
ghost use Rattle.std.specs.Prelude.{◌≡◌, ◌<◌, IfOk, fold};
ghost use Rattle.base_spelling.specs.Candidates as candidate;
ghost use Rattle.base_spelling.specs.declared.candidate.Reading.TheVariants as reading;

use base_types::{NoMemory, Seq};
use std::alloc::Global;

/// Where a reader is.
#[derive(Clone, Copy, Drop)]
pub(crate) enum Reading {
    /// Outside escapes.
    Plain,
    /// Behind a backslash.
    Escape,
    /// Before the high digit of a byte.
    High,
    /// Behind that digit.
    Low(u8),
}

/// What has been read.
#[derive(Drop)]
pub(crate) struct Decoded {
    pub(crate) reading: Reading,
    pub(crate) bytes: Seq<u8>,
}

/// The value of a hexadecimal digit; any other byte has some value below 16.
fn hex_value(c: u8) -> u8
    ensures value { result ≡ candidate.hex_value c }
    ensures small { result < 16 }
{
    if c < 58 {
        c.saturating_sub(48) % 16
    } else {
        c.saturating_sub(87) % 16
    }
}

fn with_low(high: u8, c: u8) -> u8
    ensures { result ≡ candidate.with_low high c }
{
    (high % 16) * 16 + hex_value(c)
}

fn turned(next: Reading, d: Decoded) -> Decoded
    ensures { result ≡ candidate.turned next d }
{
    Decoded {
        reading: next,
        bytes: d.bytes,
    }
}

fn given(next: Reading, b: u8, d: Decoded) -> Result<Decoded, NoMemory>
    ensures { IfOk result (λ it. it ≡ candidate.given next b d) }
{
    let mut bytes = d.bytes;
    bytes.push(b)?;
    Ok(Decoded {
        reading: next,
        bytes,
    })
}

fn plain(c: u8, d: Decoded) -> Result<Decoded, NoMemory>
    ensures { IfOk result (λ it. it ≡ candidate.plain c d) }
{
    match c {
        b'\\' => Ok(turned(Reading::Escape, d)),
        b'"' => Ok(d),
        _ => given(Reading::Plain, c, d),
    }
}

fn behind_backslash(c: u8, d: Decoded) -> Result<Decoded, NoMemory>
    ensures { IfOk result (λ it. it ≡ candidate.behind_backslash c d) }
{
    match c {
        b'x' => Ok(turned(Reading::High, d)),
        b'n' => given(Reading::Plain, 10, d),
        b'r' => given(Reading::Plain, 13, d),
        b't' => given(Reading::Plain, 9, d),
        _ => given(Reading::Plain, c, d),
    }
}

fn quoted_next(d: Decoded, c: u8) -> Result<Decoded, NoMemory>
    ensures { IfOk result (λ it. it ≡ candidate.quoted_next d c) }
{
    match d.reading {
        Reading::Plain => plain(c, d),
        Reading::Escape => behind_backslash(c, d),
        Reading::High => Ok(turned(Reading::Low(hex_value(c)), d)),
        Reading::Low(high) => given(Reading::Plain, with_low(high, c), d),
    }
}

fn hex_next(d: Decoded, c: u8) -> Result<Decoded, NoMemory>
    ensures { IfOk result (λ it. it ≡ candidate.hex_next d c) }
{
    match d.reading {
        Reading::Low(high) => given(Reading::High, with_low(high, c), d),
        _ => Ok(turned(Reading::Low(hex_value(c)), d)),
    }
}

fn began(alloc: Global, first: Reading) -> Decoded
    ensures { result ≡ candidate.began first }
{
    Decoded {
        reading: first,
        bytes: Seq::new(alloc),
    }
}

#[tactic(auto, unfolding(crate::specs::Candidates::quoted_candidate))]
pub(crate) fn quoted_candidate(alloc: Global, field: &[u8]) -> Result<Seq<u8>, NoMemory>
    ensures { IfOk result (λ it. it ≡ candidate.quoted_candidate field.now) }
{
    let mut d = began(alloc, Reading::Plain);
    for c in field {
        d = quoted_next(d, *c)?;
    }
    Ok(d.bytes)
}

fn digits_candidate(alloc: Global, digits: &[u8]) -> Result<Seq<u8>, NoMemory>
    ensures { IfOk result (λ it. it ≡ (fold candidate.hex_next (candidate.began reading.High) digits.now).bytes) }
{
    let mut d = began(alloc, Reading::High);
    for c in digits {
        d = hex_next(d, *c)?;
    }
    Ok(d.bytes)
}

#[tactic(auto, unfolding(crate::specs::Candidates::hex_candidate))]
fn hex_candidate(alloc: Global, field: &[u8]) -> Result<Seq<u8>, NoMemory>
    ensures { IfOk result (λ it. it ≡ candidate.hex_candidate field.now) }
{
    if field.len() < 4 {
        return digits_candidate(alloc, &[]);
    }
    digits_candidate(alloc, &field[4..])
}

fn begins_with_quote(field: &[u8]) -> bool
    ensures { result ≡ candidate.begins_with_quote field.now }
{
    match field {
        [b, ..] => *b == b'"',
        [] => false,
    }
}

pub(crate) fn source_candidate(alloc: Global, field: &[u8]) -> Result<Seq<u8>, NoMemory>
    ensures { IfOk result (λ it. it ≡ candidate.source_candidate field.now) }
{
    if begins_with_quote(field) {
        quoted_candidate(alloc, field)
    } else {
        hex_candidate(alloc, field)
    }
}
