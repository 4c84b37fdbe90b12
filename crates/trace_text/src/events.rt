//! Events.
ghost use Rattle.std.specs.Prelude.{◌≡◌, ◌∷◌, [], ◌++◌, codes, IfOk};
ghost use Rattle.std.specs.Fmt.{decimal};
ghost use Rattle.base_types.specs.Path.{joined};
ghost use Rattle.base_spelling.specs.Spelling.{quoted};
ghost use Rattle.trace_text.specs.Values as text;
ghost use Rattle.trace_text.specs.Fields as fields;
ghost use Rattle.trace_text.specs.Trace.{spaced};

use crate::fields::{
    error_field, load_field, name_field, number_field, place_in_path_field, quoted_field,
    slot_field, source_field, spec_field, state_field, texts_field, value_field, variable_field,
    word_field,
};
use base_types::{Listing, NoMemory, Seq, Text, TreePath, Wide};
use machine_events::{Event, Outcome, Slot};
use py_value::{NsState, Raised, Value};
use spec_core::{Dotted, Spec};

fn raw_word(raw: bool) -> &'static str
    ensures { result.now ≡ fields.raw_word raw }
{
    if raw { "raw" } else { "soft" }
}

fn good_word(good: bool) -> &'static str
    ensures { result.now ≡ fields.good_word good }
{
    if good { "good" } else { "bad" }
}

#[tactic(auto, using(crate::proofs::Pieces::fields_two))]
fn put_named(out: Text, word: &str, name: &Dotted) -> Result<Text, NoMemory>
    ensures { IfOk result (λ it. it ≡ out ++ spaced (word.now ∷ name.now ∷ [])) }
{
    let out = word_field(out, word)?;
    word_field(out, name.text())
}

#[tactic(auto, using(crate::proofs::Pieces::fields_two))]
fn put_numbered(out: Text, word: &str, number: u32) -> Result<Text, NoMemory>
    ensures { IfOk result (λ it. it ≡ out ++ spaced (word.now ∷ decimal number ∷ [])) }
{
    let out = word_field(out, word)?;
    number_field(out, number as u64)
}

/// A spec: its name, and what kind of module it is.
fn put_named_spec(out: Text, spec: &Spec) -> Result<Text, NoMemory>
    ensures { IfOk result (λ it. it ≡ (out ++ 32 ∷ spec.now.name) ++ 32 ∷ text.spec_text spec.now.kind) }
{
    let out = word_field(out, spec.name().text())?;
    spec_field(out, spec.kind())
}

/// A spec and a text.
#[tactic(auto, using(crate::proofs::Pieces::fields_four))]
fn put_made(out: Text, word: &str, spec: &Spec, source: &Seq<u8>) -> Result<Text, NoMemory>
    ensures { IfOk result (λ it. it ≡ out ++ spaced (word.now ∷ fields.spec_fields spec.now source.now)) }
{
    let out = word_field(out, word)?;
    let out = put_named_spec(out, spec)?;
    source_field(out, source.as_slice())
}

#[tactic(auto, using(crate::proofs::Pieces::fields_three))]
fn put_finish(out: Text, load: u32, good: bool) -> Result<Text, NoMemory>
    ensures { IfOk result (λ it. it ≡ out ++ spaced (codes "finish" ∷ decimal load ∷ fields.good_word good ∷ [])) }
{
    let out = word_field(out, "finish")?;
    let out = number_field(out, load as u64)?;
    word_field(out, good_word(good))
}

/// A variable that is read or deleted.
#[tactic(auto, using(crate::proofs::Pieces::fields_four))]
fn put_variable_event(
    out: Text,
    word: &str,
    mid: u32,
    name: &Text,
    raw: bool,
) -> Result<Text, NoMemory>
    ensures { IfOk result
        (λ it. it ≡ out ++ spaced (word.now ∷ decimal mid ∷ text.variable_text name.now ∷ fields.raw_word raw ∷ [])) }
{
    let out = word_field(out, word)?;
    let out = number_field(out, mid as u64)?;
    let out = variable_field(out, name)?;
    word_field(out, raw_word(raw))
}

#[tactic(auto, using(crate::proofs::Pieces::fields_five))]
fn put_set(out: Text, mid: u32, name: &Text, value: &Value, raw: bool) -> Result<Text, NoMemory>
    ensures { IfOk result (λ it. it ≡ out ++ spaced (codes "set" ∷ decimal mid ∷ text.variable_text name.now
        ∷ text.value_text value.now ∷ fields.raw_word raw ∷ [])) }
{
    let out = word_field(out, "set")?;
    let out = number_field(out, mid as u64)?;
    let out = variable_field(out, name)?;
    let out = value_field(out, value)?;
    word_field(out, raw_word(raw))
}

#[tactic(auto, using(crate::proofs::Pieces::fields_two))]
fn put_print(out: Text, printed: &Text) -> Result<Text, NoMemory>
    ensures { IfOk result (λ it. it ≡ out ++ spaced (codes "print" ∷ quoted printed.now ∷ [])) }
{
    let out = word_field(out, "print")?;
    quoted_field(out, printed.as_str())
}

#[tactic(auto, using(crate::proofs::Pieces::fields_three))]
fn put_path_add(out: Text, at: Option<Wide>, value: &Value) -> Result<Text, NoMemory>
    ensures { IfOk result
        (λ it. it ≡ out ++ spaced (codes "pathadd" ∷ text.place_in_path at ∷ text.value_text value.now ∷ [])) }
{
    let out = word_field(out, "pathadd")?;
    let out = place_in_path_field(out, at)?;
    value_field(out, value)
}

/// A folder, by its tree path.
fn dir_field(out: Text, dir: &TreePath) -> Result<Text, NoMemory>
    ensures { IfOk result (λ it. it ≡ out ++ 32 ∷ quoted (joined dir.now)) }
{
    let path = dir.text()?;
    quoted_field(out, path.as_str())
}

#[tactic(auto, using(crate::proofs::Pieces::fields_three))]
fn put_dir_get(out: Text, dir: &TreePath, part: &Text) -> Result<Text, NoMemory>
    ensures { IfOk result (λ it. it ≡ out ++ spaced (codes "dirget" ∷ quoted (joined dir.now)
        ∷ text.name_text part.now ∷ [])) }
{
    let out = word_field(out, "dirget")?;
    let out = dir_field(out, dir)?;
    name_field(out, part)
}

#[tactic(auto, using(crate::proofs::Pieces::fields_four))]
fn put_dir_set(out: Text, dir: &TreePath, listing: &Listing) -> Result<Text, NoMemory>
    ensures { IfOk result (λ it. it ≡ out ++ spaced (codes "dirset" ∷ quoted (joined dir.now)
        ∷ decimal listing.now.time ∷ text.texts_text listing.now.names ∷ [])) }
{
    let out = word_field(out, "dirset")?;
    let out = dir_field(out, dir)?;
    let out = number_field(out, listing.time)?;
    texts_field(out, &listing.names)
}

#[tactic(auto, using(crate::proofs::Pieces::fields_three))]
fn put_ns_set(out: Text, mid: u32, state: &NsState) -> Result<Text, NoMemory>
    ensures { IfOk result (λ it. it ≡ out ++ spaced (codes "nsset" ∷ decimal mid ∷ text.state_text state.now ∷ [])) }
{
    let out = word_field(out, "nsset")?;
    let out = number_field(out, mid as u64)?;
    state_field(out, state)
}

#[tactic(auto, using(crate::proofs::Pieces::fields_three))]
fn put_tab_set(out: Text, name: &Dotted, slot: &Slot) -> Result<Text, NoMemory>
    ensures { IfOk result (λ it. it ≡ out ++ spaced (codes "tabset" ∷ name.now ∷ text.slot_text slot.now ∷ [])) }
{
    let out = word_field(out, "tabset")?;
    let out = word_field(out, name.text())?;
    slot_field(out, slot)
}

#[tactic(auto, using(crate::proofs::Pieces::fields_three))]
fn put_reload_begin(out: Text, mid: u32, raw: bool) -> Result<Text, NoMemory>
    ensures { IfOk result (λ it. it ≡ out ++ spaced (codes "reloadbegin" ∷ decimal mid ∷ fields.raw_word raw ∷ [])) }
{
    let out = word_field(out, "reloadbegin")?;
    let out = number_field(out, mid as u64)?;
    word_field(out, raw_word(raw))
}

#[tactic(auto, using(crate::proofs::Pieces::fields_five))]
fn put_reload_take(out: Text, mid: u32, spec: &Spec, source: &Seq<u8>) -> Result<Text, NoMemory>
    ensures { IfOk result
        (λ it. it ≡ out ++ spaced (codes "reloadtake" ∷ decimal mid ∷ fields.spec_fields spec.now source.now)) }
{
    let out = word_field(out, "reloadtake")?;
    let out = number_field(out, mid as u64)?;
    let out = put_named_spec(out, spec)?;
    source_field(out, source.as_slice())
}

#[tactic(auto, using(crate::proofs::Pieces::fields_three))]
fn put_reload_end(out: Text, mid: u32, load: Option<u32>) -> Result<Text, NoMemory>
    ensures { IfOk result (λ it. it ≡ out ++ spaced (codes "reloadend" ∷ decimal mid ∷ text.load_text load ∷ [])) }
{
    let out = word_field(out, "reloadend")?;
    let out = number_field(out, mid as u64)?;
    load_field(out, load)
}

/// An end without an error.
#[tactic(auto, using(crate::proofs::Pieces::fields_three))]
fn put_ended(out: Text, how: &str, spent: u64) -> Result<Text, NoMemory>
    ensures { IfOk result (λ it. it ≡ out ++ spaced (codes "end" ∷ how.now ∷ decimal spent ∷ [])) }
{
    let out = word_field(out, "end")?;
    let out = word_field(out, how)?;
    number_field(out, spent)
}

#[tactic(auto, using(crate::proofs::Pieces::fields_four))]
fn put_raised(out: Text, error: &Raised, spent: u64) -> Result<Text, NoMemory>
    ensures { IfOk result
        (λ it. it ≡ out ++ spaced (codes "end" ∷ codes "raised" ∷ decimal spent ∷ text.error_text error.now ∷ [])) }
{
    let out = word_field(out, "end")?;
    let out = word_field(out, "raised")?;
    let out = number_field(out, spent)?;
    error_field(out, error)
}

fn put_end(out: Text, outcome: &Outcome, spent: u64) -> Result<Text, NoMemory>
    ensures { IfOk result (λ it. it ≡ out ++ spaced (codes "end" ∷ fields.end_fields outcome.now spent)) }
{
    match outcome {
        Outcome::Normal => put_ended(out, "normal", spent),
        Outcome::Fuel => put_ended(out, "fuel", spent),
        Outcome::Read => put_ended(out, "read", spent),
        Outcome::Raised(error) => put_raised(out, error, spent),
    }
}

/// The fields of an event, each behind a blank.
pub(crate) fn put_event(out: Text, event: &Event) -> Result<Text, NoMemory>
    ensures { IfOk result (λ it. it ≡ out ++ spaced (fields.event_fields event.now)) }
{
    match event {
        Event::Ask(name) => put_named(out, "ask", name),
        Event::Take(name) => put_named(out, "take", name),
        Event::Wake => word_field(out, "wake"),
        Event::Add { spec, text } => put_made(out, "add", spec, text),
        Event::Finish { load, good } => put_finish(out, *load, *good),
        Event::Release(name) => put_named(out, "release", name),
        Event::GetVar { mid, name, raw } => put_variable_event(out, "get", *mid, name, *raw),
        Event::SetVar {
            raw,
            mid,
            name,
            value,
        } => put_set(out, *mid, name, value, *raw),
        Event::DelVar { mid, name, raw } => put_variable_event(out, "del", *mid, name, *raw),
        Event::Names(mid) => put_numbered(out, "names", *mid),
        Event::Source(load) => put_numbered(out, "source", *load),
        Event::Print(text) => put_print(out, text),
        Event::PathGet => word_field(out, "pathget"),
        Event::PathAdd { at, value } => put_path_add(out, *at, value.get()),
        Event::DirGet { dir, part } => put_dir_get(out, dir, part),
        Event::DirSet { dir, listing } => put_dir_set(out, dir, listing.get()),
        Event::Invalidate => word_field(out, "invalidate"),
        Event::NsGet(mid) => put_numbered(out, "nsget", *mid),
        Event::NsSet { mid, state } => put_ns_set(out, *mid, state),
        Event::TabGet(name) => put_named(out, "tabget", name),
        Event::TabSet { name, slot } => put_tab_set(out, name, slot),
        Event::TabDel(name) => put_named(out, "tabdel", name),
        Event::ReloadBegin { mid, raw } => put_reload_begin(out, *mid, *raw),
        Event::ReloadTake { mid, spec, text } => put_reload_take(out, *mid, spec, text),
        Event::ReloadEnd { mid, load } => put_reload_end(out, *mid, *load),
        Event::AddLazy { spec, text } => put_made(out, "addlazy", spec, text),
        Event::Rouse(mid) => put_numbered(out, "rouse", *mid),
        Event::Main { spec, text } => put_made(out, "main", spec, text),
        Event::End { outcome, spent } => put_end(out, outcome, *spent),
    }
}
