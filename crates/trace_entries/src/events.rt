//! Events.
ghost use Rattle.std.specs.Prelude.{◌≡◌};
ghost use Rattle.trace_fields.specs.Splitting.{views};
ghost use Rattle.trace_fields.specs.Reading.{Gives};
ghost use Rattle.trace_entries.specs.Events as events;
ghost use Rattle.trace_entries.specs.Taking as taking;

use crate::event_words::{
    BareEvent, EventWord, MadeEvent, NamedEvent, NumberedEvent, event_word_in,
};
use crate::take::{
    any_name_at, error_at, first, good_at, load_at, name_at, number_at, raw_at, slot_at,
    small_number_at, source_at, spec_kind_at, state_at, taken, text_at, texts_at, tree_path_at,
    value_at, variable_at,
};
use base_types::{Listing, Seq};
use machine_events::{Carried, Event, Outcome};
use spec_core::{Dotted, Spec};
use std::alloc::Global;
use trace_fields::{Cause, Refusal, lookup, place_in_path_in};

/// How a script ended, by its word.
#[derive(Clone, Copy, Drop)]
pub enum OutcomeWord {
    Normal,
    Fuel,
    Read,
    Raised,
}

const OUTCOMES: [(&str, OutcomeWord); 4] = [
    ("normal", OutcomeWord::Normal),
    ("fuel", OutcomeWord::Fuel),
    ("read", OutcomeWord::Read),
    ("raised", OutcomeWord::Raised),
];

fn bare_event(word: BareEvent) -> Event
    ensures { result ≡ events.bare_event word }
{
    match word {
        BareEvent::Wake => Event::Wake,
        BareEvent::PathGet => Event::PathGet,
        BareEvent::Invalidate => Event::Invalidate,
    }
}

fn named_event(word: NamedEvent, name: Dotted) -> Event
    ensures { result ≡ events.named_event word name }
{
    match word {
        NamedEvent::Ask => Event::Ask(name),
        NamedEvent::Take => Event::Take(name),
        NamedEvent::Release => Event::Release(name),
        NamedEvent::TabGet => Event::TabGet(name),
        NamedEvent::TabDel => Event::TabDel(name),
    }
}

fn numbered_event(word: NumberedEvent, n: u32) -> Event
    ensures { result ≡ events.numbered_event word n }
{
    match word {
        NumberedEvent::Names => Event::Names(n),
        NumberedEvent::Source => Event::Source(n),
        NumberedEvent::NsGet => Event::NsGet(n),
        NumberedEvent::Rouse => Event::Rouse(n),
    }
}

fn made_event(word: MadeEvent, spec: Spec, text: Seq<u8>) -> Event
    ensures { result ≡ events.made_event word spec text }
{
    match word {
        MadeEvent::Add => Event::Add { spec, text },
        MadeEvent::AddLazy => Event::AddLazy { spec, text },
        MadeEvent::Main => Event::Main { spec, text },
    }
}

/// A name, and what a spec has behind it.
fn spec_at<'a>(alloc: Global, fields: &'a [&'a [u8]]) -> Result<(Spec, &'a [&'a [u8]]), Refusal>
    ensures { Gives (λ x. (x.0, views x.1.now)) result (events.spec_at (views fields.now)) }
{
    let (name, rest) = name_at(alloc, fields)?;
    let (kind, rest) = spec_kind_at(alloc, rest)?;
    Ok((Spec::of(name, kind)?, rest))
}

fn named_at<'a>(
    alloc: Global,
    word: NamedEvent,
    fields: &'a [&'a [u8]],
) -> Result<(Event, &'a [&'a [u8]]), Refusal>
    ensures { Gives (λ x. (x.0, views x.1.now)) result (events.named_at word (views fields.now)) }
{
    let (name, rest) = name_at(alloc, fields)?;
    Ok((named_event(word, name), rest))
}

fn numbered_at<'a>(
    word: NumberedEvent,
    fields: &'a [&'a [u8]],
) -> Result<(Event, &'a [&'a [u8]]), Refusal>
    ensures { Gives (λ x. (x.0, views x.1.now)) result (events.numbered_at word (views fields.now)) }
{
    let (n, rest) = small_number_at(fields)?;
    Ok((numbered_event(word, n), rest))
}

fn made_at<'a>(
    alloc: Global,
    word: MadeEvent,
    fields: &'a [&'a [u8]],
) -> Result<(Event, &'a [&'a [u8]]), Refusal>
    ensures { Gives (λ x. (x.0, views x.1.now)) result (events.made_at word (views fields.now)) }
{
    let (spec, rest) = spec_at(alloc, fields)?;
    let (text, rest) = source_at(alloc, rest)?;
    Ok((made_event(word, spec, text), rest))
}

fn finish_at<'a>(fields: &'a [&'a [u8]]) -> Result<(Event, &'a [&'a [u8]]), Refusal>
    ensures { Gives (λ x. (x.0, views x.1.now)) result (events.finish_at (views fields.now)) }
{
    let (load, rest) = small_number_at(fields)?;
    let (good, rest) = good_at(rest)?;
    Ok((Event::Finish { load, good }, rest))
}

fn get_at<'a>(alloc: Global, fields: &'a [&'a [u8]]) -> Result<(Event, &'a [&'a [u8]]), Refusal>
    ensures { Gives (λ x. (x.0, views x.1.now)) result (events.get_at (views fields.now)) }
{
    let (mid, rest) = small_number_at(fields)?;
    let (name, rest) = variable_at(alloc, rest)?;
    let (raw, rest) = raw_at(rest)?;
    Ok((Event::GetVar { mid, name, raw }, rest))
}

fn set_at<'a>(alloc: Global, fields: &'a [&'a [u8]]) -> Result<(Event, &'a [&'a [u8]]), Refusal>
    ensures { Gives (λ x. (x.0, views x.1.now)) result (events.set_at (views fields.now)) }
{
    let (mid, rest) = small_number_at(fields)?;
    let (name, rest) = variable_at(alloc, rest)?;
    let (value, rest) = value_at(alloc, rest)?;
    let (raw, rest) = raw_at(rest)?;
    Ok((
        Event::SetVar {
            raw,
            mid,
            name,
            value,
        },
        rest,
    ))
}

fn del_at<'a>(alloc: Global, fields: &'a [&'a [u8]]) -> Result<(Event, &'a [&'a [u8]]), Refusal>
    ensures { Gives (λ x. (x.0, views x.1.now)) result (events.del_at (views fields.now)) }
{
    let (mid, rest) = small_number_at(fields)?;
    let (name, rest) = variable_at(alloc, rest)?;
    let (raw, rest) = raw_at(rest)?;
    Ok((Event::DelVar { mid, name, raw }, rest))
}

fn print_at<'a>(alloc: Global, fields: &'a [&'a [u8]]) -> Result<(Event, &'a [&'a [u8]]), Refusal>
    ensures { Gives (λ x. (x.0, views x.1.now)) result (events.print_at (views fields.now)) }
{
    let (text, rest) = text_at(alloc, fields)?;
    Ok((Event::Print(text), rest))
}

fn path_add_at<'a>(
    alloc: Global,
    fields: &'a [&'a [u8]],
) -> Result<(Event, &'a [&'a [u8]]), Refusal>
    ensures { Gives (λ x. (x.0, views x.1.now)) result (events.path_add_at (views fields.now)) }
{
    let (field, rest) = first(fields)?;
    let Some(at) = place_in_path_in(alloc, field)? else {
        return Err(Refusal::Cause(Cause::Fields));
    };
    let (value, rest) = value_at(alloc, rest)?;
    let value = Carried::new(alloc, value)?;
    Ok((Event::PathAdd { at, value }, rest))
}

fn dir_get_at<'a>(alloc: Global, fields: &'a [&'a [u8]]) -> Result<(Event, &'a [&'a [u8]]), Refusal>
    ensures { Gives (λ x. (x.0, views x.1.now)) result (events.dir_get_at (views fields.now)) }
{
    let (dir, rest) = tree_path_at(alloc, fields)?;
    let (part, rest) = any_name_at(alloc, rest)?;
    Ok((Event::DirGet { dir, part }, rest))
}

fn dir_set_at<'a>(alloc: Global, fields: &'a [&'a [u8]]) -> Result<(Event, &'a [&'a [u8]]), Refusal>
    ensures { Gives (λ x. (x.0, views x.1.now)) result (events.dir_set_at (views fields.now)) }
{
    let (dir, rest) = tree_path_at(alloc, fields)?;
    let (time, rest) = number_at(rest)?;
    let (names, rest) = texts_at(alloc, rest)?;
    let listing = Carried::new(alloc, Listing { time, names })?;
    Ok((Event::DirSet { dir, listing }, rest))
}

fn ns_set_at<'a>(alloc: Global, fields: &'a [&'a [u8]]) -> Result<(Event, &'a [&'a [u8]]), Refusal>
    ensures { Gives (λ x. (x.0, views x.1.now)) result (events.ns_set_at (views fields.now)) }
{
    let (mid, rest) = small_number_at(fields)?;
    let (state, rest) = state_at(alloc, rest)?;
    Ok((Event::NsSet { mid, state }, rest))
}

fn tab_set_at<'a>(alloc: Global, fields: &'a [&'a [u8]]) -> Result<(Event, &'a [&'a [u8]]), Refusal>
    ensures { Gives (λ x. (x.0, views x.1.now)) result (events.tab_set_at (views fields.now)) }
{
    let (name, rest) = name_at(alloc, fields)?;
    let (slot, rest) = slot_at(alloc, rest)?;
    Ok((Event::TabSet { name, slot }, rest))
}

fn reload_begin_at<'a>(fields: &'a [&'a [u8]]) -> Result<(Event, &'a [&'a [u8]]), Refusal>
    ensures { Gives (λ x. (x.0, views x.1.now)) result (events.reload_begin_at (views fields.now)) }
{
    let (mid, rest) = small_number_at(fields)?;
    let (raw, rest) = raw_at(rest)?;
    Ok((Event::ReloadBegin { mid, raw }, rest))
}

fn reload_take_at<'a>(
    alloc: Global,
    fields: &'a [&'a [u8]],
) -> Result<(Event, &'a [&'a [u8]]), Refusal>
    ensures { Gives (λ x. (x.0, views x.1.now)) result (events.reload_take_at (views fields.now)) }
{
    let (mid, rest) = small_number_at(fields)?;
    let (spec, rest) = spec_at(alloc, rest)?;
    let (text, rest) = source_at(alloc, rest)?;
    Ok((Event::ReloadTake { mid, spec, text }, rest))
}

fn reload_end_at<'a>(fields: &'a [&'a [u8]]) -> Result<(Event, &'a [&'a [u8]]), Refusal>
    ensures { Gives (λ x. (x.0, views x.1.now)) result (events.reload_end_at (views fields.now)) }
{
    let (mid, rest) = small_number_at(fields)?;
    let (load, rest) = load_at(rest)?;
    Ok((Event::ReloadEnd { mid, load }, rest))
}

#[tactic(auto, unfolding(crate::specs::Events::outcome_word_in))]
fn outcome_word_in(field: &[u8]) -> Option<OutcomeWord>
    ensures { result ≡ events.outcome_word_in field.now }
{
    lookup(field, &OUTCOMES)
}

fn raised_at<'a>(
    alloc: Global,
    fields: &'a [&'a [u8]],
) -> Result<(Outcome, &'a [&'a [u8]]), Refusal>
    ensures { Gives (λ x. (x.0, views x.1.now)) result (events.raised_at (views fields.now)) }
{
    let (error, rest) = error_at(alloc, fields)?;
    Ok((Outcome::Raised(error), rest))
}

/// What stands behind the number of an end: the error, where one was raised.
fn outcome_at<'a>(
    alloc: Global,
    word: OutcomeWord,
    fields: &'a [&'a [u8]],
) -> Result<(Outcome, &'a [&'a [u8]]), Refusal>
    ensures { Gives (λ x. (x.0, views x.1.now)) result (events.outcome_at word (views fields.now)) }
{
    match word {
        OutcomeWord::Normal => Ok((Outcome::Normal, fields)),
        OutcomeWord::Fuel => Ok((Outcome::Fuel, fields)),
        OutcomeWord::Read => Ok((Outcome::Read, fields)),
        OutcomeWord::Raised => raised_at(alloc, fields),
    }
}

fn end_at<'a>(alloc: Global, fields: &'a [&'a [u8]]) -> Result<(Event, &'a [&'a [u8]]), Refusal>
    ensures { Gives (λ x. (x.0, views x.1.now)) result (events.end_at (views fields.now)) }
{
    let (field, rest) = first(fields)?;
    let (word, rest) = taken(Cause::Fields, outcome_word_in(field), rest)?;
    let (spent, rest) = number_at(rest)?;
    let (outcome, rest) = outcome_at(alloc, word, rest)?;
    Ok((Event::End { outcome, spent }, rest))
}

fn event_of<'a>(
    alloc: Global,
    word: EventWord,
    fields: &'a [&'a [u8]],
) -> Result<(Event, &'a [&'a [u8]]), Refusal>
    ensures { Gives (λ x. (x.0, views x.1.now)) result (events.event_of word (views fields.now)) }
{
    match word {
        EventWord::Bare(word) => Ok((bare_event(word), fields)),
        EventWord::Named(word) => named_at(alloc, word, fields),
        EventWord::Numbered(word) => numbered_at(word, fields),
        EventWord::Made(word) => made_at(alloc, word, fields),
        EventWord::Finish => finish_at(fields),
        EventWord::Get => get_at(alloc, fields),
        EventWord::Set => set_at(alloc, fields),
        EventWord::Del => del_at(alloc, fields),
        EventWord::Print => print_at(alloc, fields),
        EventWord::PathAdd => path_add_at(alloc, fields),
        EventWord::DirGet => dir_get_at(alloc, fields),
        EventWord::DirSet => dir_set_at(alloc, fields),
        EventWord::NsSet => ns_set_at(alloc, fields),
        EventWord::TabSet => tab_set_at(alloc, fields),
        EventWord::ReloadBegin => reload_begin_at(fields),
        EventWord::ReloadTake => reload_take_at(alloc, fields),
        EventWord::ReloadEnd => reload_end_at(fields),
        EventWord::End => end_at(alloc, fields),
    }
}

/// The event at the front of the fields; `old` is format 1.
#[tactic(auto, unfolding(crate::specs::Events::event_at))]
pub(crate) fn event_at<'a>(
    alloc: Global,
    old: bool,
    fields: &'a [&'a [u8]],
) -> Result<(Event, &'a [&'a [u8]]), Refusal>
    ensures { Gives (λ x. (x.0, views x.1.now)) result (events.event_at old (views fields.now)) }
{
    let (field, rest) = first(fields)?;
    let (word, rest) = taken(Cause::Event, event_word_in(old, field), rest)?;
    event_of(alloc, word, rest)
}
