//! Pieces between separators.
ghost use Rattle.std.specs.Prelude.{◌≡◌, ◌<◌, ◌+◌, ◌-◌, ◌^◌, IfOk};
ghost use Rattle.trace_fields.specs.Splitting as splitting;

use base_types::NoMemory;
use std::alloc::Global;

/// Where a reader is: outside quotes, in quotes, or behind a backslash in them, with the number of open brackets.
#[derive(Clone, Copy, Drop)]
pub(crate) enum Scan {
    Outside(usize),
    Quoted(usize),
    Escaped(usize),
}

fn next_outside(depth: usize, b: u8) -> Scan
    requires { depth < 2 ^ 64 - 1 }
    ensures { result ≡ splitting.next_outside depth b }
{
    match b {
        b'"' => Scan::Quoted(depth),
        b'[' | b'(' => Scan::Outside(depth + 1),
        b']' | b')' => Scan::Outside(depth.saturating_sub(1)),
        _ => Scan::Outside(depth),
    }
}

fn next_quoted(depth: usize, b: u8) -> Scan
    ensures { result ≡ splitting.next_quoted depth b }
{
    match b {
        b'\\' => Scan::Escaped(depth),
        b'"' => Scan::Outside(depth),
        _ => Scan::Quoted(depth),
    }
}

fn next(scan: Scan, b: u8) -> Scan
    requires { splitting.depth scan < 2 ^ 64 - 1 }
    ensures { result ≡ splitting.next scan b }
{
    match scan {
        Scan::Outside(depth) => next_outside(depth, b),
        Scan::Quoted(depth) => next_quoted(depth, b),
        Scan::Escaped(depth) => Scan::Quoted(depth),
    }
}

fn separates(separator: u8, scan: Scan, b: u8) -> bool
    ensures { result ≡ splitting.separates separator scan b }
{
    match scan {
        Scan::Outside(0) => b == separator,
        _ => false,
    }
}

/// The pieces between the separators that stand outside quotes and brackets: one more than there are such separators.
#[tactic(auto, unfolding(crate::specs::Splitting::split))]
pub fn split(alloc: Global, separator: u8, text: &[u8]) -> Result<Vec<&[u8]>, NoMemory>
    ensures { IfOk result (λ v. splitting.views v.items ≡ splitting.split separator text.now) }
{
    let mut pieces = Vec::new(alloc);
    let mut from = 0;
    let mut scan = Scan::Outside(0);
    for i in 0..text.len() {
        if separates(separator, scan, text[i]) {
            pieces.push(&text[from..i])?;
            from = i + 1;
        } else {
            scan = next(scan, text[i]);
        }
    }
    pieces.push(&text[from..])?;
    Ok(pieces)
}
