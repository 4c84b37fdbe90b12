//! What the next field holds.
ghost use Rattle.std.specs.Prelude.{◌≡◌, ◌∷◌, [], codes, true, false};
ghost use Rattle.trace_fields.specs.Splitting.{views};
ghost use Rattle.trace_fields.specs.Reading.{Gives, first};
ghost use Rattle.trace_entries.specs.Taking as taking;

use base_spelling::{read_number, read_quoted, read_source};
use base_types::{Seq, Text, Texts, TreePath};
use machine_events::Slot;
use py_value::{Items, ModRef, NsState, Raised, Value};
use spec_core::{Dotted, SpecKind};
use std::alloc::Global;
use trace_fields::{
    Cause, Refusal, any_name_in, error_in, load_in, lookup, module_in, name_in, slot_in,
    small_number_in, spec_kind_in, state_in, texts_in, tree_path_in, value_in, values_in,
    variable_in,
};

/// The first field and those behind it.
pub(crate) fn first<'a>(fields: &'a [&'a [u8]]) -> Result<(&'a [u8], &'a [&'a [u8]]), Refusal>
    ensures { Gives (λ x. (x.0.now, views x.1.now)) result (first (views fields.now)) }
{
    match fields {
        [field, rest @ ..] => Ok((field, rest)),
        [] => Err(Refusal::Cause(Cause::Fields)),
    }
}

/// What a field holds, with the fields behind it.
pub(crate) fn taken<'a, T: Drop>(
    why: Cause,
    held: Option<T>,
    rest: &'a [&'a [u8]],
) -> Result<(T, &'a [&'a [u8]]), Refusal>
    ensures { Gives (λ x. (x.0, views x.1.now)) result (taking.held_or why held (views rest.now)) }
{
    match held {
        Some(x) => Ok((x, rest)),
        None => Err(Refusal::Cause(why)),
    }
}

/// A number below 2 ^ 32.
pub(crate) fn small_number_at<'a>(fields: &'a [&'a [u8]]) -> Result<(u32, &'a [&'a [u8]]), Refusal>
    ensures { Gives (λ x. (x.0, views x.1.now)) result (taking.small_number_at (views fields.now)) }
{
    let (field, rest) = first(fields)?;
    taken(Cause::Number, small_number_in(field), rest)
}

/// A number below 2 ^ 64.
pub(crate) fn number_at<'a>(fields: &'a [&'a [u8]]) -> Result<(u64, &'a [&'a [u8]]), Refusal>
    ensures { Gives (λ x. (x.0, views x.1.now)) result (taking.number_at (views fields.now)) }
{
    let (field, rest) = first(fields)?;
    taken(Cause::Number, read_number(field), rest)
}

/// A dotted name.
pub(crate) fn name_at<'a>(
    alloc: Global,
    fields: &'a [&'a [u8]],
) -> Result<(Dotted, &'a [&'a [u8]]), Refusal>
    ensures { Gives (λ x. (x.0, views x.1.now)) result (taking.name_at (views fields.now)) }
{
    let (field, rest) = first(fields)?;
    taken(Cause::Name, name_in(alloc, field)?, rest)
}

/// A text.
pub(crate) fn text_at<'a>(
    alloc: Global,
    fields: &'a [&'a [u8]],
) -> Result<(Text, &'a [&'a [u8]]), Refusal>
    ensures { Gives (λ x. (x.0, views x.1.now)) result (taking.text_at (views fields.now)) }
{
    let (field, rest) = first(fields)?;
    taken(Cause::Escape, read_quoted(alloc, field)?, rest)
}

/// A source.
pub(crate) fn source_at<'a>(
    alloc: Global,
    fields: &'a [&'a [u8]],
) -> Result<(Seq<u8>, &'a [&'a [u8]]), Refusal>
    ensures { Gives (λ x. (x.0, views x.1.now)) result (taking.source_at (views fields.now)) }
{
    let (field, rest) = first(fields)?;
    taken(Cause::Escape, read_source(alloc, field)?, rest)
}

/// A tree path, as a text.
pub(crate) fn tree_path_at<'a>(
    alloc: Global,
    fields: &'a [&'a [u8]],
) -> Result<(TreePath, &'a [&'a [u8]]), Refusal>
    ensures { Gives (λ x. (x.0, views x.1.now)) result (taking.tree_path_at (views fields.now)) }
{
    let (field, rest) = first(fields)?;
    taken(Cause::Escape, tree_path_in(alloc, field)?, rest)
}

/// A name, bare or as a text.
pub(crate) fn any_name_at<'a>(
    alloc: Global,
    fields: &'a [&'a [u8]],
) -> Result<(Text, &'a [&'a [u8]]), Refusal>
    ensures { Gives (λ x. (x.0, views x.1.now)) result (taking.any_name_at (views fields.now)) }
{
    let (field, rest) = first(fields)?;
    taken(Cause::Fields, any_name_in(alloc, field)?, rest)
}

/// A variable's name.
pub(crate) fn variable_at<'a>(
    alloc: Global,
    fields: &'a [&'a [u8]],
) -> Result<(Text, &'a [&'a [u8]]), Refusal>
    ensures { Gives (λ x. (x.0, views x.1.now)) result (taking.variable_at (views fields.now)) }
{
    let (field, rest) = first(fields)?;
    taken(Cause::Fields, variable_in(alloc, field)?, rest)
}

/// A load, or `-`.
pub(crate) fn load_at<'a>(fields: &'a [&'a [u8]]) -> Result<(Option<u32>, &'a [&'a [u8]]), Refusal>
    ensures { Gives (λ x. (x.0, views x.1.now)) result (taking.load_at (views fields.now)) }
{
    let (field, rest) = first(fields)?;
    taken(Cause::Fields, load_in(field), rest)
}

pub(crate) fn module_at<'a>(
    alloc: Global,
    fields: &'a [&'a [u8]],
) -> Result<(ModRef, &'a [&'a [u8]]), Refusal>
    ensures { Gives (λ x. (x.0, views x.1.now)) result (taking.module_at (views fields.now)) }
{
    let (field, rest) = first(fields)?;
    taken(Cause::Fields, module_in(alloc, field)?, rest)
}

pub(crate) fn error_at<'a>(
    alloc: Global,
    fields: &'a [&'a [u8]],
) -> Result<(Raised, &'a [&'a [u8]]), Refusal>
    ensures { Gives (λ x. (x.0, views x.1.now)) result (taking.error_at (views fields.now)) }
{
    let (field, rest) = first(fields)?;
    taken(Cause::Fields, error_in(alloc, field)?, rest)
}

pub(crate) fn slot_at<'a>(
    alloc: Global,
    fields: &'a [&'a [u8]],
) -> Result<(Slot, &'a [&'a [u8]]), Refusal>
    ensures { Gives (λ x. (x.0, views x.1.now)) result (taking.slot_at (views fields.now)) }
{
    let (field, rest) = first(fields)?;
    taken(Cause::Fields, slot_in(alloc, field)?, rest)
}

pub(crate) fn value_at<'a>(
    alloc: Global,
    fields: &'a [&'a [u8]],
) -> Result<(Value, &'a [&'a [u8]]), Refusal>
    ensures { Gives (λ x. (x.0, views x.1.now)) result (taking.value_at (views fields.now)) }
{
    let (field, rest) = first(fields)?;
    taken(Cause::Fields, value_in(alloc, field)?, rest)
}

/// Values in brackets.
pub(crate) fn values_at<'a>(
    alloc: Global,
    fields: &'a [&'a [u8]],
) -> Result<(Items, &'a [&'a [u8]]), Refusal>
    ensures { Gives (λ x. (x.0, views x.1.now)) result (taking.values_at (views fields.now)) }
{
    let (field, rest) = first(fields)?;
    taken(Cause::Fields, values_in(alloc, field)?, rest)
}

/// Texts in brackets.
pub(crate) fn texts_at<'a>(
    alloc: Global,
    fields: &'a [&'a [u8]],
) -> Result<(Texts, &'a [&'a [u8]]), Refusal>
    ensures { Gives (λ x. (x.0, views x.1.now)) result (taking.texts_at (views fields.now)) }
{
    let (field, rest) = first(fields)?;
    taken(Cause::Fields, texts_in(alloc, field)?, rest)
}

/// What a spec has behind its name.
pub(crate) fn spec_kind_at<'a>(
    alloc: Global,
    fields: &'a [&'a [u8]],
) -> Result<(SpecKind, &'a [&'a [u8]]), Refusal>
    ensures { Gives (λ x. (x.0, views x.1.now)) result (taking.spec_kind_at (views fields.now)) }
{
    let (field, rest) = first(fields)?;
    taken(Cause::Fields, spec_kind_in(alloc, field)?, rest)
}

pub(crate) fn state_at<'a>(
    alloc: Global,
    fields: &'a [&'a [u8]],
) -> Result<(NsState, &'a [&'a [u8]]), Refusal>
    ensures { Gives (λ x. (x.0, views x.1.now)) result (taking.state_at (views fields.now)) }
{
    let (field, rest) = first(fields)?;
    taken(Cause::Fields, state_in(alloc, field)?, rest)
}

/// `raw` or `soft`.
pub(crate) fn raw_at<'a>(fields: &'a [&'a [u8]]) -> Result<(bool, &'a [&'a [u8]]), Refusal>
    ensures { Gives (λ x. (x.0, views x.1.now)) result (taking.raw_at (views fields.now)) }
{
    let (field, rest) = first(fields)?;
    taken(
        Cause::Fields,
        lookup(field, &[("raw", true), ("soft", false)]),
        rest,
    )
}

/// `good` or `bad`.
pub(crate) fn good_at<'a>(fields: &'a [&'a [u8]]) -> Result<(bool, &'a [&'a [u8]]), Refusal>
    ensures { Gives (λ x. (x.0, views x.1.now)) result (taking.good_at (views fields.now)) }
{
    let (field, rest) = first(fields)?;
    taken(
        Cause::Fields,
        lookup(field, &[("good", true), ("bad", false)]),
        rest,
    )
}

/// `init` or `plain`.
pub(crate) fn init_at<'a>(fields: &'a [&'a [u8]]) -> Result<(bool, &'a [&'a [u8]]), Refusal>
    ensures { Gives (λ x. (x.0, views x.1.now)) result (taking.init_at (views fields.now)) }
{
    let (field, rest) = first(fields)?;
    taken(
        Cause::Fields,
        lookup(field, &[("init", true), ("plain", false)]),
        rest,
    )
}

/// `yes` or `no`.
pub(crate) fn yes_at<'a>(fields: &'a [&'a [u8]]) -> Result<(bool, &'a [&'a [u8]]), Refusal>
    ensures { Gives (λ x. (x.0, views x.1.now)) result (taking.yes_at (views fields.now)) }
{
    let (field, rest) = first(fields)?;
    taken(
        Cause::Fields,
        lookup(field, &[("yes", true), ("no", false)]),
        rest,
    )
}
