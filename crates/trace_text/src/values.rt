//! Values, modules, errors and specs.
ghost use Rattle.std.specs.Prelude.{◌≡◌, ◌∷◌, [], ◌++◌, ◌==◌, codes, map, IfOk, if◌then◌else◌};
ghost use Rattle.std.specs.Fmt.{decimal, signed_decimal};
ghost use Rattle.base_spelling.specs.Spelling.{quoted};
ghost use Rattle.spec_core.specs.Identifiers.{is_dotted};
ghost use Rattle.trace_text.specs.Values as text;

use base_spelling::{put, write_quoted};
use base_types::{NoMemory, Text, Texts, Wide};
use machine_events::Slot;
use py_value::{Items, ModRef, NsState, Place, Raised, Value};
use spec_core::{Dotted, SpecKind, is_ident};

pub(crate) fn put_number(out: Text, n: u64) -> Result<Text, NoMemory>
    ensures { IfOk result (λ it. it ≡ out ++ decimal n) }
{
    let digits = format!(in out.alloc(); "{}", n)?;
    put(out, digits.as_str())
}

pub(crate) fn put_signed(out: Text, n: i128) -> Result<Text, NoMemory>
    ensures { IfOk result (λ it. it ≡ out ++ signed_decimal n) }
{
    let digits = format!(in out.alloc(); "{}", n)?;
    put(out, digits.as_str())
}

fn is_dotted(name: &Text) -> Result<bool, NoMemory>
    ensures { IfOk result (λ yes. yes ≡ is_dotted name.now) }
{
    match Dotted::read(name)? {
        Some(_name) => Ok(true),
        None => Ok(false),
    }
}

/// A name, bare where it is a dotted name.
pub(crate) fn put_name(out: Text, name: &Text) -> Result<Text, NoMemory>
    ensures { IfOk result (λ it. it ≡ out ++ text.name_text name.now) }
{
    if is_dotted(name)? {
        put(out, name.as_str())
    } else {
        write_quoted(out, name.as_str())
    }
}

/// A variable's name, bare where it is an identifier.
pub(crate) fn put_variable(out: Text, name: &Text) -> Result<Text, NoMemory>
    ensures { IfOk result (λ it. it ≡ out ++ text.variable_text name.now) }
{
    if is_ident(name) {
        put(out, name.as_str())
    } else {
        write_quoted(out, name.as_str())
    }
}

fn comma_before(n: usize) -> &'static str
    ensures { result.now ≡ text.comma_before n }
{
    if n == 0 { "" } else { "," }
}

fn put_texts_with_commas(out: Text, texts: &Texts) -> Result<Text, NoMemory>
    ensures { IfOk result (λ it. it ≡ out ++ text.with_commas (map quoted texts.now)) }
{
    let texts = texts.as_slice();
    let mut more = out;
    for n in 0..texts.len() {
        more = put(more, comma_before(n))?;
        more = write_quoted(more, texts[n].as_str())?;
    }
    Ok(more)
}

/// Texts in brackets.
#[tactic(auto, using(crate::proofs::Pieces::three))]
pub(crate) fn put_texts(out: Text, texts: &Texts) -> Result<Text, NoMemory>
    ensures { IfOk result (λ it. it ≡ out ++ text.texts_text texts.now) }
{
    let out = put(out, "[")?;
    let out = put_texts_with_commas(out, texts)?;
    put(out, "]")
}

fn put_place(out: Text, place: &Place) -> Result<Text, NoMemory>
    ensures { IfOk result (λ it. it ≡ out ++ text.place_text place.now) }
{
    match place {
        Place::File(file) => write_quoted(out, file.as_str()),
        Place::BuiltIn => put(out, "builtin"),
        Place::Namespace => put(out, "namespace"),
    }
}

#[tactic(auto, using(crate::proofs::Pieces::seven))]
pub(crate) fn put_module(out: Text, m: &ModRef) -> Result<Text, NoMemory>
    ensures { IfOk result (λ it. it ≡ out ++ text.module_text m.now) }
{
    let out = put(out, "module(")?;
    let out = put_number(out, m.mid() as u64)?;
    let out = put(out, ",")?;
    let out = put_name(out, m.name())?;
    let out = put(out, ",")?;
    let out = put_place(out, m.place())?;
    put(out, ")")
}

fn put_text_or_dash(out: Text, name: &Option<Text>) -> Result<Text, NoMemory>
    ensures { IfOk result (λ it. it ≡ out ++ text.text_or_dash name.now) }
{
    match name {
        Some(name) => write_quoted(out, name.as_str()),
        None => put(out, "-"),
    }
}

#[tactic(auto, using(crate::proofs::Pieces::seven))]
pub(crate) fn put_error(out: Text, error: &Raised) -> Result<Text, NoMemory>
    ensures { IfOk result (λ it. it ≡ out ++ text.error_text error.now) }
{
    let out = put(out, "error(")?;
    let out = put(out, error.kind().name())?;
    let out = put(out, ",")?;
    let out = write_quoted(out, error.text().as_str())?;
    let out = put(out, ",")?;
    let out = put_text_or_dash(out, error.name())?;
    put(out, ")")
}

#[tactic(auto, using(crate::proofs::Pieces::seven))]
fn put_function(out: Text, load: u32, index: u32, name: &Text) -> Result<Text, NoMemory>
    ensures { IfOk result (λ it. it ≡ out ++ text.function_text load index name.now) }
{
    let out = put(out, "func(")?;
    let out = put_number(out, load as u64)?;
    let out = put(out, ",")?;
    let out = put_number(out, index as u64)?;
    let out = put(out, ",")?;
    let out = put_name(out, name)?;
    put(out, ")")
}

#[tactic(auto, using(crate::proofs::Pieces::three))]
fn put_between(out: Text, before: &str, name: &str, after: &str) -> Result<Text, NoMemory>
    ensures { IfOk result (λ it. it ≡ out ++ (before.now ++ name.now ++ after.now)) }
{
    let out = put(out, before)?;
    let out = put(out, name)?;
    put(out, after)
}

fn put_bool(out: Text, b: bool) -> Result<Text, NoMemory>
    ensures { IfOk result (λ it. it ≡ out ++ text.bool_text b) }
{
    if b {
        put(out, "True")
    } else {
        put(out, "False")
    }
}

#[cycle(values)]
pub(crate) fn put_value(out: Text, value: &Value) -> Result<Text, NoMemory>
    ensures { IfOk result (λ it. it ≡ out ++ text.value_text value.now) }
{
    match value {
        Value::Nothing => put(out, "None"),
        Value::Bool(b) => put_bool(out, *b),
        Value::Int(n) => put_signed(out, n.get()),
        Value::Text(text) => write_quoted(out, text.as_str()),
        Value::List(items) => put_items(out, "[", items, "]"),
        Value::Tuple(items) => put_items(out, "(", items, ")"),
        Value::Func { load, index, name } => put_function(out, *load, *index, name),
        Value::Native(native) => put_between(out, "native(", native.name(), ")"),
        Value::Kind(kind) => put_between(out, "kind(", kind.name(), ")"),
        Value::Module(m) => put_module(out, m),
        Value::Error(error) => put_error(out, error),
        Value::SysModules => put(out, "sysmodules"),
        Value::SysPath => put(out, "syspath"),
        Value::NsPath => put(out, "nspath"),
    }
}

#[cycle(values)]
#[tactic(auto, using(crate::proofs::Pieces::three))]
fn put_items(out: Text, opening: &str, items: &Items, end: &str) -> Result<Text, NoMemory>
    ensures { IfOk result (λ it. it ≡ out ++ (opening.now ++ text.with_commas (map text.value_text items.now)
        ++ end.now)) }
{
    let out = put(out, opening)?;
    let out = put_with_commas(out, items)?;
    put(out, end)
}

#[cycle(values)]
fn put_with_commas(out: Text, items: &Items) -> Result<Text, NoMemory>
    ensures { IfOk result (λ it. it ≡ out ++ text.with_commas (map text.value_text items.now)) }
{
    let items = items.as_slice();
    let mut more = out;
    for n in 0..items.len() {
        more = put(more, comma_before(n))?;
        more = put_value(more, &items[n])?;
    }
    Ok(more)
}

/// Values in brackets.
pub(crate) fn put_values(out: Text, items: &Items) -> Result<Text, NoMemory>
    ensures { IfOk result (λ it. it ≡ out ++ text.values_text items.now) }
{
    put_items(out, "[", items, "]")
}

#[tactic(auto, using(crate::proofs::Pieces::five))]
fn put_package(out: Text, file: &Text, path: &Texts) -> Result<Text, NoMemory>
    ensures { IfOk result (λ it. it ≡ out ++ (codes "package(" ++ quoted file.now ++ codes ","
        ++ text.texts_text path.now ++ codes ")")) }
{
    let out = put(out, "package(")?;
    let out = write_quoted(out, file.as_str())?;
    let out = put(out, ",")?;
    let out = put_texts(out, path)?;
    put(out, ")")
}

#[tactic(auto, using(crate::proofs::Pieces::three))]
fn put_source(out: Text, file: &Text) -> Result<Text, NoMemory>
    ensures { IfOk result (λ it. it ≡ out ++ (codes "file(" ++ quoted file.now ++ codes ")")) }
{
    let out = put(out, "file(")?;
    let out = write_quoted(out, file.as_str())?;
    put(out, ")")
}

#[tactic(auto, using(crate::proofs::Pieces::three))]
fn put_namespace(out: Text, path: &Texts) -> Result<Text, NoMemory>
    ensures { IfOk result (λ it. it ≡ out ++ (codes "namespace(" ++ text.texts_text path.now ++ codes ")")) }
{
    let out = put(out, "namespace(")?;
    let out = put_texts(out, path)?;
    put(out, ")")
}

pub(crate) fn put_spec(out: Text, kind: &SpecKind) -> Result<Text, NoMemory>
    ensures { IfOk result (λ it. it ≡ out ++ text.spec_text kind.now) }
{
    match kind {
        SpecKind::Builtin => put(out, "builtin"),
        SpecKind::Source { file } => put_source(out, file),
        SpecKind::Package { file, path } => put_package(out, file, path),
        SpecKind::Namespace { path } => put_namespace(out, path),
    }
}

pub(crate) fn put_slot(out: Text, slot: &Slot) -> Result<Text, NoMemory>
    ensures { IfOk result (λ it. it ≡ out ++ text.slot_text slot.now) }
{
    match slot {
        Slot::Absent => put(out, "absent"),
        Slot::Halted => put(out, "halted"),
        Slot::Module(m) => put_module(out, m),
    }
}

#[tactic(auto, using(crate::proofs::Pieces::seven))]
pub(crate) fn put_state(out: Text, state: &NsState) -> Result<Text, NoMemory>
    ensures { IfOk result (λ it. it ≡ out ++ text.state_text state.now) }
{
    let out = put(out, "ns(")?;
    let out = put_values(out, state.parent_path())?;
    let out = put(out, ",")?;
    let out = put_number(out, state.epoch())?;
    let out = put(out, ",")?;
    let out = put_texts(out, state.portions())?;
    put(out, ")")
}

pub(crate) fn put_place_in_path(out: Text, at: Option<Wide>) -> Result<Text, NoMemory>
    ensures { IfOk result (λ it. it ≡ out ++ text.place_in_path at) }
{
    match at {
        Some(at) => put_signed(out, at.get()),
        None => put(out, "-"),
    }
}

pub(crate) fn put_load(out: Text, load: Option<u32>) -> Result<Text, NoMemory>
    ensures { IfOk result (λ it. it ≡ out ++ text.load_text load) }
{
    match load {
        Some(load) => put_number(out, load as u64),
        None => put(out, "-"),
    }
}
