ghost use Rattle.std.specs.Prelude.{◌≡◌, ◌++◌, ◌==◌, [], codes, length, map, if◌then◌else◌, IfOk};
ghost use Rattle.std.specs.Fmt.{signed_decimal};
ghost use Rattle.py_value.specs.Names.{kind_name};
ghost use Rattle.py_value.specs.declared.value.Value.TheVariants as values;
ghost use Rattle.value_operators.specs.Outcomes.{limited};
ghost use Rattle.value_texts.specs.Texts as table;

use crate::draft::{Draft, finished, put};
use crate::quoting::put_quoted;
use base_types::{Exact, NoMemory, Text};
use py_value::{Applied, Items, Kind, ModRef, Native, Place, Value};
use std::alloc::Global;
use value_operators::{MOST_TEXT, is_plain, not_in_profile, too_long_text};

fn put_bool(draft: Draft, b: bool) -> Result<Draft, NoMemory>
    ensures { IfOk result (λ it. it ≡ table.put draft (table.bool_text b)) }
{
    if b {
        put(draft, "True")
    } else {
        put(draft, "False")
    }
}

fn put_number(alloc: Global, draft: Draft, n: i128) -> Result<Draft, NoMemory>
    ensures { IfOk result (λ it. it ≡ table.put draft (signed_decimal n)) }
{
    let text = format!(in alloc; "{}", n)?;
    put(draft, text.as_str())
}

/// Three pieces, one after the other.
#[tactic(auto, using(crate::proofs::Drafts::put_put))]
fn put_between(draft: Draft, before: &str, name: &str, after: &str) -> Result<Draft, NoMemory>
    ensures { IfOk result (λ it. it ≡ table.put draft (before.now ++ name.now ++ after.now)) }
{
    let draft = put(draft, before)?;
    let draft = put(draft, name)?;
    put(draft, after)
}

fn native_opening(native: Native) -> &'static str
    ensures { result.now ≡ table.native_opening native }
{
    match native {
        Native::Str => "<class '",
        _ => "<built-in function ",
    }
}

fn native_end(native: Native) -> &'static str
    ensures { result.now ≡ table.native_end native }
{
    match native {
        Native::Str => "'>",
        _ => ">",
    }
}

fn put_native(draft: Draft, native: Native) -> Result<Draft, NoMemory>
    ensures { IfOk result (λ it. it ≡ table.put draft (table.native_text native)) }
{
    put_between(
        draft,
        native_opening(native),
        native.name(),
        native_end(native),
    )
}

#[tactic(auto, using(crate::proofs::Drafts::put_put))]
fn put_file(draft: Draft, file: &Text) -> Result<Draft, NoMemory>
    ensures { IfOk result (λ it. it ≡ table.put draft (codes " from " ++ table.quoted file.now ++ codes ">")) }
{
    let draft = put(draft, " from ")?;
    let draft = put_quoted(draft, file.as_str())?;
    put(draft, ">")
}

fn put_place(draft: Draft, place: &Place) -> Result<Draft, NoMemory>
    ensures { IfOk result (λ it. it ≡ table.put draft (table.place_text place.now)) }
{
    match place {
        Place::File(file) => put_file(draft, file),
        Place::BuiltIn => put(draft, " (built-in)>"),
        Place::Namespace => put(draft, " (namespace)>"),
    }
}

#[tactic(auto, using(crate::proofs::Drafts::put_put))]
fn put_module(draft: Draft, held: &ModRef) -> Result<Draft, NoMemory>
    ensures { IfOk result (λ it. it ≡ table.put draft (codes "<module " ++ table.quoted held.now.name
        ++ table.place_text held.now.place)) }
{
    let draft = put(draft, "<module ")?;
    let draft = put_quoted(draft, held.name().as_str())?;
    put_place(draft, held.place())
}

fn comma_before(n: usize) -> &'static str
    ensures { result.now ≡ table.comma_before n }
{
    if n == 0 { "" } else { ", " }
}

fn tuple_end(len: usize) -> &'static str
    ensures { result.now ≡ table.tuple_end len }
{
    if len == 1 { ",)" } else { ")" }
}

#[cycle(reprs)]
fn put_repr(alloc: Global, draft: Draft, value: &Value) -> Result<Draft, NoMemory>
    ensures { IfOk result (λ it. it ≡ table.put draft (table.repr_text value.now)) }
{
    match value {
        Value::Nothing => put(draft, "None"),
        Value::Bool(b) => put_bool(draft, *b),
        Value::Int(n) => put_number(alloc, draft, n.get()),
        Value::Text(text) => put_quoted(draft, text.as_str()),
        Value::List(items) => put_list(alloc, draft, items),
        Value::Tuple(items) => put_tuple(alloc, draft, items),
        Value::Func {
            load: _,
            index: _,
            name,
        } => put_between(draft, "<function ", name.as_str(), ">"),
        Value::Native(native) => put_native(draft, *native),
        Value::Kind(kind) => put_between(draft, "<class '", kind.name(), "'>"),
        Value::Module(held) => put_module(draft, held),
        _ => put(draft, ""),
    }
}

#[cycle(reprs)]
#[tactic(auto, using(crate::proofs::Drafts::put_put))]
fn put_list(alloc: Global, draft: Draft, items: &Items) -> Result<Draft, NoMemory>
    ensures { IfOk result (λ it. it ≡ table.put draft (codes "[" ++ table.with_commas (map table.repr_text items.now)
        ++ codes "]")) }
{
    let draft = put_items(alloc, draft, "[", items)?;
    put(draft, "]")
}

#[cycle(reprs)]
#[tactic(auto, using(crate::proofs::Drafts::put_put))]
fn put_tuple(alloc: Global, draft: Draft, items: &Items) -> Result<Draft, NoMemory>
    ensures { IfOk result (λ it. it ≡ table.put draft (codes "(" ++ table.with_commas (map table.repr_text items.now)
        ++ table.tuple_end (length items.now))) }
{
    let draft = put_items(alloc, draft, "(", items)?;
    put(draft, tuple_end(items.len()))
}

#[cycle(reprs)]
fn put_items(alloc: Global, draft: Draft, opening: &str, items: &Items) -> Result<Draft, NoMemory>
    ensures { IfOk result (λ it. it ≡ table.put draft (opening.now
        ++ table.with_commas (map table.repr_text items.now))) }
{
    let items = items.as_slice();
    let mut draft = put(draft, opening)?;
    for n in 0..items.len() {
        draft = put(draft, comma_before(n))?;
        draft = put_repr(alloc, draft, &items[n])?;
    }
    Ok(draft)
}

/// The text of a value as it stands inside a list (Library Reference, `repr`). An error has none,
/// and neither has a list or tuple that holds one, or that holds what stands for something in the
/// machine.
pub fn repr_of(alloc: Global, value: &Value) -> Result<Applied, NoMemory>
    ensures { IfOk result (λ applied. applied ≡ table.repr_of value.now) }
{
    if !is_plain(value) {
        return not_in_profile(alloc);
    }
    let draft = put_repr(alloc, Draft::Within(Text::new(alloc)), value)?;
    finished(alloc, draft)
}

fn text_of(alloc: Global, text: &Text) -> Result<Applied, NoMemory>
    ensures { IfOk result (λ applied. applied ≡ limited (values.Text text.now)) }
{
    if text.len() > MOST_TEXT {
        return too_long_text(alloc);
    }
    Ok(Applied::Value(Value::Text(text.copy()?)))
}

/// The text of a value as `print` writes it (Library Reference, `str`): a text is itself, an error
/// gives its text, and all else is as in `repr_of`.
pub fn str_of(alloc: Global, value: &Value) -> Result<Applied, NoMemory>
    ensures { IfOk result (λ applied. applied ≡ table.str_of value.now) }
{
    match value {
        Value::Text(text) => text_of(alloc, text),
        Value::Error(error) => text_of(alloc, error.text()),
        _ => repr_of(alloc, value),
    }
}
