//! What a single field holds.
ghost use Rattle.std.specs.Prelude.{◌≡◌, IfOk, IfSome};
ghost use Rattle.base_spelling.specs.Numbers.{number_in};
ghost use Rattle.base_spelling.specs.Read.{text_in, source_in};
ghost use Rattle.trace_fields.specs.Fields as held;

use base_spelling::{read_number, read_quoted};
use base_types::{NoMemory, Text};
use spec_core::{Dotted, is_ident};
use std::alloc::Global;
use std::str;

fn below_u32(n: Option<u64>) -> Option<u32>
    ensures { result ≡ held.below_u32 n }
{
    match n {
        Some(n) => { if n < 4294967296 { Some(n as u32) } else { None } }
        None => None,
    }
}

/// The number below 2 ^ 32 that a field spells. It takes no memory.
#[tactic(auto, unfolding(crate::specs::Fields::small_number_in))]
pub fn small_number_in(field: &[u8]) -> Option<u32>
    ensures { result ≡ held.small_number_in field.now }
{
    below_u32(read_number(field))
}

fn bare_name(alloc: Global, text: &str) -> Result<Option<Dotted>, NoMemory>
    ensures { IfOk result (λ o. o ≡ held.bare_name text.now) }
{
    let text = Text::from_str(alloc, text)?;
    Dotted::read(&text)
}

/// The dotted name that stands bare in a field.
#[tactic(auto, unfolding(crate::specs::Fields::name_in))]
pub fn name_in(alloc: Global, field: &[u8]) -> Result<Option<Dotted>, NoMemory>
    ensures { IfOk result (λ o. o ≡ held.name_in field.now) }
{
    match str::from_utf8(field) {
        Ok(text) => bare_name(alloc, text),
        Err(_) => Ok(None),
    }
}

/// The text, unless it is a dotted name, which stands bare.
fn quoted_name_in(text: Option<Text>) -> Result<Option<Text>, NoMemory>
    ensures { IfOk result (λ o. o ≡ held.quoted_name_in text) }
{
    let Some(text) = text else {
        return Ok(None);
    };
    match Dotted::read(&text)? {
        Some(_name) => Ok(None),
        None => Ok(Some(text)),
    }
}

/// The name in a field: bare where it is a dotted name, and else as a text.
#[tactic(auto, unfolding(crate::specs::Fields::any_name_in))]
pub fn any_name_in(alloc: Global, field: &[u8]) -> Result<Option<Text>, NoMemory>
    ensures { IfOk result (λ o. o ≡ held.any_name_in field.now) }
{
    match name_in(alloc, field)? {
        Some(name) => Ok(Some(name.owned()?)),
        None => quoted_name_in(read_quoted(alloc, field)?),
    }
}

/// The text, unless it is an identifier, which stands bare.
fn quoted_variable_in(text: Option<Text>) -> Option<Text>
    ensures { result ≡ held.quoted_variable_in text }
{
    match text {
        Some(text) => { if is_ident(&text) { None } else { Some(text) } }
        None => None,
    }
}

fn bare_variable(alloc: Global, text: &str) -> Result<Option<Text>, NoMemory>
    ensures { IfOk result (λ o. o ≡ held.bare_variable text.now) }
{
    let text = Text::from_str(alloc, text)?;
    if is_ident(&text) {
        Ok(Some(text))
    } else {
        Ok(None)
    }
}

#[tactic(auto, unfolding(crate::specs::Fields::bare_variable_in))]
fn bare_variable_in(alloc: Global, field: &[u8]) -> Result<Option<Text>, NoMemory>
    ensures { IfOk result (λ o. o ≡ held.bare_variable_in field.now) }
{
    match str::from_utf8(field) {
        Ok(text) => bare_variable(alloc, text),
        Err(_) => Ok(None),
    }
}

/// The variable's name in a field: bare where it is an identifier, and else as a text.
#[tactic(auto, unfolding(crate::specs::Fields::variable_in))]
pub fn variable_in(alloc: Global, field: &[u8]) -> Result<Option<Text>, NoMemory>
    ensures { IfOk result (λ o. o ≡ held.variable_in field.now) }
{
    match bare_variable_in(alloc, field)? {
        Some(name) => Ok(Some(name)),
        None => Ok(quoted_variable_in(read_quoted(alloc, field)?)),
    }
}
