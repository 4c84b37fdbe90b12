//! Replies.
ghost use Rattle.std.specs.Prelude.{◌≡◌};
ghost use Rattle.trace_fields.specs.Splitting.{views};
ghost use Rattle.trace_fields.specs.Reading.{Gives};
ghost use Rattle.trace_entries.specs.Replies as replies;

use crate::reply_words::{BareReply, EpochReply, ModuleReply, ReplyWord, SlotReply, reply_word_in};
use crate::take::{
    first, init_at, module_at, name_at, number_at, slot_at, small_number_at, source_at, state_at,
    taken, texts_at, value_at, values_at, yes_at,
};
use machine_events::{Reply, Slot};
use py_value::ModRef;
use std::alloc::Global;
use trace_fields::{Cause, Refusal};

fn bare_reply(word: BareReply) -> Reply
    ensures { result ≡ replies.bare_reply word }
{
    match word {
        BareReply::Halted => Reply::Halted,
        BareReply::Missing => Reply::Missing,
        BareReply::Deadlock => Reply::Deadlock,
        BareReply::Woken => Reply::Woken,
        BareReply::Lost => Reply::Lost,
        BareReply::LostParent => Reply::LostParent,
        BareReply::Sleeping => Reply::Sleeping,
        BareReply::Fixed => Reply::Fixed,
        BareReply::Full => Reply::Full,
        BareReply::NotThere => Reply::NotThere,
        BareReply::NoListing => Reply::NoListing,
        BareReply::Ready => Reply::Ready,
        BareReply::Done => Reply::Done,
    }
}

fn module_reply(word: ModuleReply, m: ModRef) -> Reply
    ensures { result ≡ replies.module_reply word m }
{
    match word {
        ModuleReply::Module => Reply::Module(m),
        ModuleReply::Cycle => Reply::Cycle(m),
        ModuleReply::Busy => Reply::Busy(m),
    }
}

fn slot_reply(word: SlotReply, slot: Slot) -> Reply
    ensures { result ≡ replies.slot_reply word slot }
{
    match word {
        SlotReply::Kept => Reply::Kept(slot),
        SlotReply::Slot => Reply::Slot(slot),
        SlotReply::Was => Reply::Was(slot),
    }
}

fn epoch_reply(word: EpochReply, epoch: u64) -> Reply
    ensures { result ≡ replies.epoch_reply word epoch }
{
    match word {
        EpochReply::Mine => Reply::Mine(epoch),
        EpochReply::Begun => Reply::Begun(epoch),
    }
}

fn of_module_at<'a>(
    alloc: Global,
    word: ModuleReply,
    fields: &'a [&'a [u8]],
) -> Result<(Reply, &'a [&'a [u8]]), Refusal>
    ensures { Gives (λ x. (x.0, views x.1.now)) result (replies.of_module_at word (views fields.now)) }
{
    let (m, rest) = module_at(alloc, fields)?;
    Ok((module_reply(word, m), rest))
}

fn of_slot_at<'a>(
    alloc: Global,
    word: SlotReply,
    fields: &'a [&'a [u8]],
) -> Result<(Reply, &'a [&'a [u8]]), Refusal>
    ensures { Gives (λ x. (x.0, views x.1.now)) result (replies.of_slot_at word (views fields.now)) }
{
    let (slot, rest) = slot_at(alloc, fields)?;
    Ok((slot_reply(word, slot), rest))
}

fn of_epoch_at<'a>(
    word: EpochReply,
    fields: &'a [&'a [u8]],
) -> Result<(Reply, &'a [&'a [u8]]), Refusal>
    ensures { Gives (λ x. (x.0, views x.1.now)) result (replies.of_epoch_at word (views fields.now)) }
{
    let (epoch, rest) = number_at(fields)?;
    Ok((epoch_reply(word, epoch), rest))
}

fn wait_at<'a>(alloc: Global, fields: &'a [&'a [u8]]) -> Result<(Reply, &'a [&'a [u8]]), Refusal>
    ensures { Gives (λ x. (x.0, views x.1.now)) result (replies.wait_at (views fields.now)) }
{
    let (name, rest) = name_at(alloc, fields)?;
    Ok((Reply::Wait(name), rest))
}

fn load_reply_at<'a>(fields: &'a [&'a [u8]]) -> Result<(Reply, &'a [&'a [u8]]), Refusal>
    ensures { Gives (λ x. (x.0, views x.1.now)) result (replies.load_reply_at (views fields.now)) }
{
    let (load, rest) = small_number_at(fields)?;
    let (mid, rest) = small_number_at(rest)?;
    Ok((Reply::Load(load, mid), rest))
}

fn value_reply_at<'a>(
    alloc: Global,
    fields: &'a [&'a [u8]],
) -> Result<(Reply, &'a [&'a [u8]]), Refusal>
    ensures { Gives (λ x. (x.0, views x.1.now)) result (replies.value_reply_at (views fields.now)) }
{
    let (value, rest) = value_at(alloc, fields)?;
    Ok((Reply::Value(value), rest))
}

fn unset_at<'a>(fields: &'a [&'a [u8]]) -> Result<(Reply, &'a [&'a [u8]]), Refusal>
    ensures { Gives (λ x. (x.0, views x.1.now)) result (replies.unset_at (views fields.now)) }
{
    let (init, rest) = init_at(fields)?;
    Ok((Reply::Unset(init), rest))
}

fn names_at<'a>(alloc: Global, fields: &'a [&'a [u8]]) -> Result<(Reply, &'a [&'a [u8]]), Refusal>
    ensures { Gives (λ x. (x.0, views x.1.now)) result (replies.names_at (views fields.now)) }
{
    let (names, rest) = texts_at(alloc, fields)?;
    Ok((Reply::Names(names), rest))
}

fn loaded_at<'a>(alloc: Global, fields: &'a [&'a [u8]]) -> Result<(Reply, &'a [&'a [u8]]), Refusal>
    ensures { Gives (λ x. (x.0, views x.1.now)) result (replies.loaded_at (views fields.now)) }
{
    let (m, rest) = module_at(alloc, fields)?;
    let (text, rest) = source_at(alloc, rest)?;
    Ok((Reply::Loaded(m, text), rest))
}

fn path_at<'a>(alloc: Global, fields: &'a [&'a [u8]]) -> Result<(Reply, &'a [&'a [u8]]), Refusal>
    ensures { Gives (λ x. (x.0, views x.1.now)) result (replies.path_at (views fields.now)) }
{
    let (items, rest) = values_at(alloc, fields)?;
    Ok((Reply::Path(items), rest))
}

fn state_reply_at<'a>(
    alloc: Global,
    fields: &'a [&'a [u8]],
) -> Result<(Reply, &'a [&'a [u8]]), Refusal>
    ensures { Gives (λ x. (x.0, views x.1.now)) result (replies.state_reply_at (views fields.now)) }
{
    let (state, rest) = state_at(alloc, fields)?;
    let (epoch, rest) = number_at(rest)?;
    Ok((Reply::Ns(state, epoch), rest))
}

fn yours_at<'a>(alloc: Global, fields: &'a [&'a [u8]]) -> Result<(Reply, &'a [&'a [u8]]), Refusal>
    ensures { Gives (λ x. (x.0, views x.1.now)) result (replies.yours_at (views fields.now)) }
{
    let (load, rest) = small_number_at(fields)?;
    let (text, rest) = source_at(alloc, rest)?;
    Ok((Reply::Yours(load, text), rest))
}

fn listing_at<'a>(fields: &'a [&'a [u8]]) -> Result<(Reply, &'a [&'a [u8]]), Refusal>
    ensures { Gives (λ x. (x.0, views x.1.now)) result (replies.listing_at (views fields.now)) }
{
    let (time, rest) = number_at(fields)?;
    let (part, rest) = yes_at(rest)?;
    let (file, rest) = yes_at(rest)?;
    Ok((Reply::Listing(time, part, file), rest))
}

fn reply_of<'a>(
    alloc: Global,
    word: ReplyWord,
    fields: &'a [&'a [u8]],
) -> Result<(Reply, &'a [&'a [u8]]), Refusal>
    ensures { Gives (λ x. (x.0, views x.1.now)) result (replies.reply_of word (views fields.now)) }
{
    match word {
        ReplyWord::Bare(word) => Ok((bare_reply(word), fields)),
        ReplyWord::OfModule(word) => of_module_at(alloc, word, fields),
        ReplyWord::OfSlot(word) => of_slot_at(alloc, word, fields),
        ReplyWord::OfEpoch(word) => of_epoch_at(word, fields),
        ReplyWord::Wait => wait_at(alloc, fields),
        ReplyWord::Load => load_reply_at(fields),
        ReplyWord::Value => value_reply_at(alloc, fields),
        ReplyWord::Unset => unset_at(fields),
        ReplyWord::Names => names_at(alloc, fields),
        ReplyWord::Loaded => loaded_at(alloc, fields),
        ReplyWord::Path => path_at(alloc, fields),
        ReplyWord::State => state_reply_at(alloc, fields),
        ReplyWord::Yours => yours_at(alloc, fields),
        ReplyWord::Listing => listing_at(fields),
    }
}

/// The reply at the front of the fields; `old` is format 1.
#[tactic(auto, unfolding(crate::specs::Replies::reply_at))]
pub(crate) fn reply_at<'a>(
    alloc: Global,
    old: bool,
    fields: &'a [&'a [u8]],
) -> Result<(Reply, &'a [&'a [u8]]), Refusal>
    ensures { Gives (λ x. (x.0, views x.1.now)) result (replies.reply_at old (views fields.now)) }
{
    let (field, rest) = first(fields)?;
    let (word, rest) = taken(Cause::Reply, reply_word_in(old, field), rest)?;
    reply_of(alloc, word, rest)
}
