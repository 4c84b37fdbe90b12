//! What stands between brackets, and its pieces.
ghost use Rattle.std.specs.Prelude.{◌≡◌, IfOk};
ghost use Rattle.std.specs.Option.{option_map};
ghost use Rattle.trace_fields.specs.Splitting.{views};
ghost use Rattle.trace_fields.specs.Parts as parts;

use crate::split;
use base_types::NoMemory;
use std::alloc::Global;

/// What stands between this beginning and this last byte.
#[tactic(auto, unfolding(crate::specs::Parts::between))]
pub(crate) fn between<'a>(front: &[u8], last: u8, text: &'a [u8]) -> Option<&'a [u8]>
    ensures { option_map (λ x. x.now) result ≡ parts.between front.now last text.now }
{
    let end = text.len();
    if end <= front.len() {
        return None;
    }
    if &text[..front.len()] != front {
        return None;
    }
    if text[end - 1] != last {
        return None;
    }
    Some(&text[front.len()..end - 1])
}

fn two<'a>(pieces: &[&'a [u8]]) -> Option<(&'a [u8], &'a [u8])>
    ensures { option_map (λ p. (p.0.now, p.1.now)) result ≡ parts.two (views pieces.now) }
{
    match pieces {
        [a, b] => Some((a, b)),
        _ => None,
    }
}

fn three<'a>(pieces: &[&'a [u8]]) -> Option<(&'a [u8], &'a [u8], &'a [u8])>
    ensures { option_map (λ p. (p.0.now, p.1.now, p.2.now)) result ≡ parts.three (views pieces.now) }
{
    match pieces {
        [a, b, c] => Some((a, b, c)),
        _ => None,
    }
}

/// The two parts of `FRONTa,b)`.
pub(crate) fn two_in<'a>(
    alloc: Global,
    front: &[u8],
    field: &'a [u8],
) -> Result<Option<(&'a [u8], &'a [u8])>, NoMemory>
    ensures { IfOk result (λ o. option_map (λ p. (p.0.now, p.1.now)) o ≡ parts.two_in front.now field.now) }
{
    match between(front, b')', field) {
        Some(inside) => {
            let pieces = split(alloc, b',', inside)?;
            Ok(two(pieces.as_slice()))
        }
        None => Ok(None),
    }
}

/// The three parts of `FRONTa,b,c)`.
pub(crate) fn three_in<'a>(
    alloc: Global,
    front: &[u8],
    field: &'a [u8],
) -> Result<Option<(&'a [u8], &'a [u8], &'a [u8])>, NoMemory>
    ensures { IfOk result (λ o. option_map (λ p. (p.0.now, p.1.now, p.2.now)) o ≡ parts.three_in front.now field.now) }
{
    match between(front, b')', field) {
        Some(inside) => {
            let pieces = split(alloc, b',', inside)?;
            Ok(three(pieces.as_slice()))
        }
        None => Ok(None),
    }
}

/// The items between commas: none in no text.
pub(crate) fn items(alloc: Global, inside: &[u8]) -> Result<Vec<&[u8]>, NoMemory>
    ensures { IfOk result (λ v. views v.items ≡ parts.items inside.now) }
{
    if inside.is_empty() {
        return Ok(Vec::new(alloc));
    }
    split(alloc, b',', inside)
}
