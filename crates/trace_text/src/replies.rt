//! Replies.
ghost use Rattle.std.specs.Prelude.{◌≡◌, ◌∷◌, [], ◌++◌, codes, IfOk};
ghost use Rattle.std.specs.Fmt.{decimal};
ghost use Rattle.base_spelling.specs.Spelling.{source};
ghost use Rattle.trace_text.specs.Values as text;
ghost use Rattle.trace_text.specs.Fields as fields;
ghost use Rattle.trace_text.specs.Trace.{spaced};

use crate::fields::{
    module_field, number_field, slot_field, source_field, state_field, texts_field, value_field,
    values_field, word_field,
};
use base_types::{NoMemory, Seq, Text, Texts};
use machine_events::{Reply, Slot};
use py_value::{Items, ModRef, NsState, Value};

fn init_word(init: bool) -> &'static str
    ensures { result.now ≡ fields.init_word init }
{
    if init { "init" } else { "plain" }
}

fn yes_word(yes: bool) -> &'static str
    ensures { result.now ≡ fields.yes_word yes }
{
    if yes { "yes" } else { "no" }
}

#[tactic(auto, using(crate::proofs::Pieces::fields_two))]
fn put_words(out: Text, word: &str, other: &str) -> Result<Text, NoMemory>
    ensures { IfOk result (λ it. it ≡ out ++ spaced (word.now ∷ other.now ∷ [])) }
{
    let out = word_field(out, word)?;
    word_field(out, other)
}

#[tactic(auto, using(crate::proofs::Pieces::fields_two))]
fn put_numbered(out: Text, word: &str, number: u64) -> Result<Text, NoMemory>
    ensures { IfOk result (λ it. it ≡ out ++ spaced (word.now ∷ decimal number ∷ [])) }
{
    let out = word_field(out, word)?;
    number_field(out, number)
}

#[tactic(auto, using(crate::proofs::Pieces::fields_two))]
fn put_module_reply(out: Text, word: &str, m: &ModRef) -> Result<Text, NoMemory>
    ensures { IfOk result (λ it. it ≡ out ++ spaced (word.now ∷ text.module_text m.now ∷ [])) }
{
    let out = word_field(out, word)?;
    module_field(out, m)
}

#[tactic(auto, using(crate::proofs::Pieces::fields_two))]
fn put_slot_reply(out: Text, word: &str, slot: &Slot) -> Result<Text, NoMemory>
    ensures { IfOk result (λ it. it ≡ out ++ spaced (word.now ∷ text.slot_text slot.now ∷ [])) }
{
    let out = word_field(out, word)?;
    slot_field(out, slot)
}

#[tactic(auto, using(crate::proofs::Pieces::fields_three))]
fn put_load_reply(out: Text, load: u32, mid: u32) -> Result<Text, NoMemory>
    ensures { IfOk result (λ it. it ≡ out ++ spaced (codes "load" ∷ decimal load ∷ decimal mid ∷ [])) }
{
    let out = word_field(out, "load")?;
    let out = number_field(out, load as u64)?;
    number_field(out, mid as u64)
}

#[tactic(auto, using(crate::proofs::Pieces::fields_two))]
fn put_value_reply(out: Text, value: &Value) -> Result<Text, NoMemory>
    ensures { IfOk result (λ it. it ≡ out ++ spaced (codes "value" ∷ text.value_text value.now ∷ [])) }
{
    let out = word_field(out, "value")?;
    value_field(out, value)
}

#[tactic(auto, using(crate::proofs::Pieces::fields_two))]
fn put_names(out: Text, names: &Texts) -> Result<Text, NoMemory>
    ensures { IfOk result (λ it. it ≡ out ++ spaced (codes "names" ∷ text.texts_text names.now ∷ [])) }
{
    let out = word_field(out, "names")?;
    texts_field(out, names)
}

#[tactic(auto, using(crate::proofs::Pieces::fields_three))]
fn put_loaded(out: Text, m: &ModRef, loaded: &Seq<u8>) -> Result<Text, NoMemory>
    ensures { IfOk result
        (λ it. it ≡ out ++ spaced (codes "loaded" ∷ text.module_text m.now ∷ source loaded.now ∷ [])) }
{
    let out = word_field(out, "loaded")?;
    let out = module_field(out, m)?;
    source_field(out, loaded.as_slice())
}

#[tactic(auto, using(crate::proofs::Pieces::fields_two))]
fn put_path(out: Text, items: &Items) -> Result<Text, NoMemory>
    ensures { IfOk result (λ it. it ≡ out ++ spaced (codes "path" ∷ text.values_text items.now ∷ [])) }
{
    let out = word_field(out, "path")?;
    values_field(out, items)
}

#[tactic(auto, using(crate::proofs::Pieces::fields_three))]
fn put_state_reply(out: Text, state: &NsState, epoch: u64) -> Result<Text, NoMemory>
    ensures { IfOk result (λ it. it ≡ out ++ spaced (codes "state" ∷ text.state_text state.now ∷ decimal epoch ∷ [])) }
{
    let out = word_field(out, "state")?;
    let out = state_field(out, state)?;
    number_field(out, epoch)
}

#[tactic(auto, using(crate::proofs::Pieces::fields_three))]
fn put_yours(out: Text, load: u32, text: &Seq<u8>) -> Result<Text, NoMemory>
    ensures { IfOk result (λ it. it ≡ out ++ spaced (codes "yours" ∷ decimal load ∷ source text.now ∷ [])) }
{
    let out = word_field(out, "yours")?;
    let out = number_field(out, load as u64)?;
    source_field(out, text.as_slice())
}

#[tactic(auto, using(crate::proofs::Pieces::fields_four))]
fn put_listing(out: Text, time: u64, part: bool, file: bool) -> Result<Text, NoMemory>
    ensures { IfOk result
        (λ it. it ≡ out ++ spaced (codes "listing" ∷ decimal time ∷ fields.yes_word part ∷ fields.yes_word file ∷ [])) }
{
    let out = word_field(out, "listing")?;
    let out = number_field(out, time)?;
    let out = word_field(out, yes_word(part))?;
    word_field(out, yes_word(file))
}

/// The fields of a reply, each behind a blank.
pub(crate) fn put_reply(out: Text, reply: &Reply) -> Result<Text, NoMemory>
    ensures { IfOk result (λ it. it ≡ out ++ spaced (fields.reply_fields reply.now)) }
{
    match reply {
        Reply::Module(m) => put_module_reply(out, "module", m),
        Reply::Cycle(m) => put_module_reply(out, "cycle", m),
        Reply::Halted => word_field(out, "halted"),
        Reply::Missing => word_field(out, "missing"),
        Reply::Deadlock => word_field(out, "deadlock"),
        Reply::Wait(name) => put_words(out, "wait", name.text()),
        Reply::Mine(epoch) => put_numbered(out, "mine", *epoch),
        Reply::Woken => word_field(out, "woken"),
        Reply::Load(load, mid) => put_load_reply(out, *load, *mid),
        Reply::Kept(slot) => put_slot_reply(out, "kept", slot),
        Reply::Lost => word_field(out, "lost"),
        Reply::LostParent => word_field(out, "lostparent"),
        Reply::Value(value) => put_value_reply(out, value),
        Reply::Unset(init) => put_words(out, "unset", init_word(*init)),
        Reply::Sleeping => word_field(out, "sleeping"),
        Reply::Fixed => word_field(out, "fixed"),
        Reply::Names(names) => put_names(out, names),
        Reply::Loaded(m, text) => put_loaded(out, m, text),
        Reply::Path(items) => put_path(out, items),
        Reply::Full => word_field(out, "full"),
        Reply::Ns(state, epoch) => put_state_reply(out, state, *epoch),
        Reply::Slot(slot) => put_slot_reply(out, "slot", slot),
        Reply::Was(slot) => put_slot_reply(out, "was", slot),
        Reply::NotThere => word_field(out, "notthere"),
        Reply::Busy(m) => put_module_reply(out, "busy", m),
        Reply::Begun(epoch) => put_numbered(out, "begun", *epoch),
        Reply::Yours(load, text) => put_yours(out, *load, text),
        Reply::NoListing => word_field(out, "nolisting"),
        Reply::Listing(time, part, file) => put_listing(out, *time, *part, *file),
        Reply::Ready => word_field(out, "ready"),
        Reply::Done => word_field(out, "done"),
    }
}
