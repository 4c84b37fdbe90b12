//! Numbers, places, modules and errors.
ghost use Rattle.std.specs.Prelude.{◌≡◌, IfOk};
ghost use Rattle.base_spelling.specs.Candidates.{begins_with_quote};
ghost use Rattle.trace_fields.specs.Values as values;

use crate::parts::three_in;
use crate::words::kind_in;
use crate::{any_name_in, small_number_in};
use base_spelling::read_quoted;
use base_types::{NoMemory, Text, Wide};
use machine_events::Slot;
use py_value::{ModRef, Place, Raised};
use std::alloc::Global;
use std::str;

/// The number, if it is written so.
fn written_so(alloc: Global, n: i128, field: &[u8]) -> Result<Option<i128>, NoMemory>
    ensures { IfOk result (λ o. o ≡ values.written_so n field.now) }
{
    let written = format!(in alloc; "{n}")?;
    if written.as_bytes() == field {
        Ok(Some(n))
    } else {
        Ok(None)
    }
}

/// The number from -2 ^ 127 to 2 ^ 127 - 1 that a field spells: decimal digits without leading zeros, with `-` before a
/// negative one.
#[tactic(auto, unfolding(crate::specs::Values::signed_in))]
pub fn signed_in(alloc: Global, field: &[u8]) -> Result<Option<i128>, NoMemory>
    ensures { IfOk result (λ o. o ≡ values.signed_in field.now) }
{
    let Ok(digits) = str::from_utf8(field) else {
        return Ok(None);
    };
    match digits.parse::<i128>() {
        Ok(n) => written_so(alloc, n, field),
        Err(_) => Ok(None),
    }
}

fn begins_with_quote(field: &[u8]) -> bool
    ensures { result ≡ begins_with_quote field.now }
{
    match field {
        [b, ..] => *b == b'"',
        [] => false,
    }
}

fn file_in(alloc: Global, field: &[u8]) -> Result<Option<Place>, NoMemory>
    ensures { IfOk result (λ o. o ≡ values.file_in field.now) }
{
    match read_quoted(alloc, field)? {
        Some(file) => Ok(Some(Place::File(file))),
        None => Ok(None),
    }
}

fn place_in(alloc: Global, field: &[u8]) -> Result<Option<Place>, NoMemory>
    ensures { IfOk result (λ o. o ≡ values.place_in field.now) }
{
    if begins_with_quote(field) {
        return file_in(alloc, field);
    }
    if field == b"builtin".as_slice() {
        return Ok(Some(Place::BuiltIn));
    }
    if field == b"namespace".as_slice() {
        return Ok(Some(Place::Namespace));
    }
    Ok(None)
}

fn module_of(
    alloc: Global,
    number: &[u8],
    called: &[u8],
    place: &[u8],
) -> Result<Option<ModRef>, NoMemory>
    ensures { IfOk result (λ o. o ≡ values.module_of (number.now, called.now, place.now)) }
{
    let Some(mid) = small_number_in(number) else {
        return Ok(None);
    };
    let Some(name) = any_name_in(alloc, called)? else {
        return Ok(None);
    };
    match place_in(alloc, place)? {
        Some(place) => Ok(Some(ModRef::of(mid, name, place)?)),
        None => Ok(None),
    }
}

/// The module that a field names.
#[tactic(auto, unfolding(crate::specs::Values::module_in))]
pub fn module_in(alloc: Global, field: &[u8]) -> Result<Option<ModRef>, NoMemory>
    ensures { IfOk result (λ o. o ≡ values.module_in field.now) }
{
    match three_in(alloc, b"module(", field)? {
        Some((a, b, c)) => module_of(alloc, a, b, c),
        None => Ok(None),
    }
}

fn text_or_dash_in(alloc: Global, field: &[u8]) -> Result<Option<Option<Text>>, NoMemory>
    ensures { IfOk result (λ o. o ≡ values.text_or_dash_in field.now) }
{
    if field == b"-".as_slice() {
        return Ok(Some(None));
    }
    match read_quoted(alloc, field)? {
        Some(text) => Ok(Some(Some(text))),
        None => Ok(None),
    }
}

fn error_of(
    alloc: Global,
    kind: &[u8],
    text: &[u8],
    name: &[u8],
) -> Result<Option<Raised>, NoMemory>
    ensures { IfOk result (λ o. o ≡ values.error_of (kind.now, text.now, name.now)) }
{
    let Some(kind) = kind_in(kind) else {
        return Ok(None);
    };
    let Some(text) = read_quoted(alloc, text)? else {
        return Ok(None);
    };
    match text_or_dash_in(alloc, name)? {
        Some(name) => Ok(Some(Raised::of(kind, text, name)?)),
        None => Ok(None),
    }
}

/// The error that a field spells.
#[tactic(auto, unfolding(crate::specs::Values::error_in))]
pub fn error_in(alloc: Global, field: &[u8]) -> Result<Option<Raised>, NoMemory>
    ensures { IfOk result (λ o. o ≡ values.error_in field.now) }
{
    match three_in(alloc, b"error(", field)? {
        Some((a, b, c)) => error_of(alloc, a, b, c),
        None => Ok(None),
    }
}

fn module_slot_in(alloc: Global, field: &[u8]) -> Result<Option<Slot>, NoMemory>
    ensures { IfOk result (λ o. o ≡ values.module_slot_in field.now) }
{
    match module_in(alloc, field)? {
        Some(m) => Ok(Some(Slot::Module(m))),
        None => Ok(None),
    }
}

/// The slot that a field spells: `absent`, `halted`, or a module.
#[tactic(auto, unfolding(crate::specs::Values::slot_in))]
pub fn slot_in(alloc: Global, field: &[u8]) -> Result<Option<Slot>, NoMemory>
    ensures { IfOk result (λ o. o ≡ values.slot_in field.now) }
{
    if field == b"absent".as_slice() {
        return Ok(Some(Slot::Absent));
    }
    if field == b"halted".as_slice() {
        return Ok(Some(Slot::Halted));
    }
    module_slot_in(alloc, field)
}

/// The place in the search path that a field spells, or `-` for its end.
pub fn place_in_path_in(alloc: Global, field: &[u8]) -> Result<Option<Option<Wide>>, NoMemory>
    ensures { IfOk result (λ o. o ≡ values.place_in_path_in field.now) }
{
    if field == b"-".as_slice() {
        return Ok(Some(None));
    }
    match signed_in(alloc, field)? {
        Some(at) => Ok(Some(Some(Wide::of(at)))),
        None => Ok(None),
    }
}

/// The load that a field spells, or `-` where there is none.
pub fn load_in(field: &[u8]) -> Option<Option<u32>>
    ensures { result ≡ values.load_in field.now }
{
    if field == b"-".as_slice() {
        return Some(None);
    }
    match small_number_in(field) {
        Some(load) => Some(Some(load)),
        None => None,
    }
}
