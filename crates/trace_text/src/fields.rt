//! Single fields, each behind a blank.
ghost use Rattle.std.specs.Prelude.{◌≡◌, ◌∷◌, ◌++◌, IfOk};
ghost use Rattle.std.specs.Fmt.{decimal};
ghost use Rattle.base_spelling.specs.Spelling.{quoted, source};
ghost use Rattle.trace_text.specs.Values as text;

use crate::values::{
    put_error, put_load, put_module, put_name, put_number, put_place_in_path, put_slot, put_spec,
    put_state, put_texts, put_value, put_values, put_variable,
};
use base_spelling::{put, write_quoted, write_source};
use base_types::{NoMemory, Text, Texts, Wide};
use machine_events::Slot;
use py_value::{Items, ModRef, NsState, Raised, Value};
use spec_core::SpecKind;

/// A word, or a name that stands bare.
#[tactic(auto, using(crate::proofs::Pieces::two))]
pub(crate) fn word_field(out: Text, word: &str) -> Result<Text, NoMemory>
    ensures { IfOk result (λ it. it ≡ out ++ 32 ∷ word.now) }
{
    let out = put(out, " ")?;
    put(out, word)
}

#[tactic(auto, using(crate::proofs::Pieces::two))]
pub(crate) fn number_field(out: Text, n: u64) -> Result<Text, NoMemory>
    ensures { IfOk result (λ it. it ≡ out ++ 32 ∷ decimal n) }
{
    let out = put(out, " ")?;
    put_number(out, n)
}

#[tactic(auto, using(crate::proofs::Pieces::two))]
pub(crate) fn quoted_field(out: Text, field: &str) -> Result<Text, NoMemory>
    ensures { IfOk result (λ it. it ≡ out ++ 32 ∷ quoted field.now) }
{
    let out = put(out, " ")?;
    write_quoted(out, field)
}

#[tactic(auto, using(crate::proofs::Pieces::two))]
pub(crate) fn source_field(out: Text, field: &[u8]) -> Result<Text, NoMemory>
    ensures { IfOk result (λ it. it ≡ out ++ 32 ∷ source field.now) }
{
    let out = put(out, " ")?;
    write_source(out, field)
}

#[tactic(auto, using(crate::proofs::Pieces::two))]
pub(crate) fn name_field(out: Text, field: &Text) -> Result<Text, NoMemory>
    ensures { IfOk result (λ it. it ≡ out ++ 32 ∷ text.name_text field.now) }
{
    let out = put(out, " ")?;
    put_name(out, field)
}

#[tactic(auto, using(crate::proofs::Pieces::two))]
pub(crate) fn variable_field(out: Text, field: &Text) -> Result<Text, NoMemory>
    ensures { IfOk result (λ it. it ≡ out ++ 32 ∷ text.variable_text field.now) }
{
    let out = put(out, " ")?;
    put_variable(out, field)
}

#[tactic(auto, using(crate::proofs::Pieces::two))]
pub(crate) fn value_field(out: Text, field: &Value) -> Result<Text, NoMemory>
    ensures { IfOk result (λ it. it ≡ out ++ 32 ∷ text.value_text field.now) }
{
    let out = put(out, " ")?;
    put_value(out, field)
}

#[tactic(auto, using(crate::proofs::Pieces::two))]
pub(crate) fn texts_field(out: Text, field: &Texts) -> Result<Text, NoMemory>
    ensures { IfOk result (λ it. it ≡ out ++ 32 ∷ text.texts_text field.now) }
{
    let out = put(out, " ")?;
    put_texts(out, field)
}

#[tactic(auto, using(crate::proofs::Pieces::two))]
pub(crate) fn values_field(out: Text, field: &Items) -> Result<Text, NoMemory>
    ensures { IfOk result (λ it. it ≡ out ++ 32 ∷ text.values_text field.now) }
{
    let out = put(out, " ")?;
    put_values(out, field)
}

#[tactic(auto, using(crate::proofs::Pieces::two))]
pub(crate) fn module_field(out: Text, field: &ModRef) -> Result<Text, NoMemory>
    ensures { IfOk result (λ it. it ≡ out ++ 32 ∷ text.module_text field.now) }
{
    let out = put(out, " ")?;
    put_module(out, field)
}

#[tactic(auto, using(crate::proofs::Pieces::two))]
pub(crate) fn error_field(out: Text, field: &Raised) -> Result<Text, NoMemory>
    ensures { IfOk result (λ it. it ≡ out ++ 32 ∷ text.error_text field.now) }
{
    let out = put(out, " ")?;
    put_error(out, field)
}

#[tactic(auto, using(crate::proofs::Pieces::two))]
pub(crate) fn slot_field(out: Text, field: &Slot) -> Result<Text, NoMemory>
    ensures { IfOk result (λ it. it ≡ out ++ 32 ∷ text.slot_text field.now) }
{
    let out = put(out, " ")?;
    put_slot(out, field)
}

#[tactic(auto, using(crate::proofs::Pieces::two))]
pub(crate) fn state_field(out: Text, field: &NsState) -> Result<Text, NoMemory>
    ensures { IfOk result (λ it. it ≡ out ++ 32 ∷ text.state_text field.now) }
{
    let out = put(out, " ")?;
    put_state(out, field)
}

#[tactic(auto, using(crate::proofs::Pieces::two))]
pub(crate) fn spec_field(out: Text, field: &SpecKind) -> Result<Text, NoMemory>
    ensures { IfOk result (λ it. it ≡ out ++ 32 ∷ text.spec_text field.now) }
{
    let out = put(out, " ")?;
    put_spec(out, field)
}

#[tactic(auto, using(crate::proofs::Pieces::two))]
pub(crate) fn place_in_path_field(out: Text, at: Option<Wide>) -> Result<Text, NoMemory>
    ensures { IfOk result (λ it. it ≡ out ++ 32 ∷ text.place_in_path at) }
{
    let out = put(out, " ")?;
    put_place_in_path(out, at)
}

#[tactic(auto, using(crate::proofs::Pieces::two))]
pub(crate) fn load_field(out: Text, load: Option<u32>) -> Result<Text, NoMemory>
    ensures { IfOk result (λ it. it ≡ out ++ 32 ∷ text.load_text load) }
{
    let out = put(out, " ")?;
    put_load(out, load)
}
