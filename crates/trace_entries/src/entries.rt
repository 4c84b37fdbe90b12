//! Entries.
ghost use Rattle.std.specs.Prelude.{◌≡◌};
ghost use Rattle.trace_fields.specs.Splitting.{views};
ghost use Rattle.trace_fields.specs.Reading.{Gives};
ghost use Rattle.trace_entries.specs.Entries as entries;

use crate::events::event_at;
use crate::replies::reply_at;
use crate::take::{first, small_number_at};
use machine_events::{Entry, Event, Reply};
use std::alloc::Global;
use trace_fields::{Cause, Refusal, split};

/// The fields behind `->`.
fn arrow<'a>(fields: &'a [&'a [u8]]) -> Result<&'a [&'a [u8]], Refusal>
    ensures { Gives (λ x. views x.now) result (entries.arrow (views fields.now)) }
{
    let (field, rest) = first(fields)?;
    if field == b"->".as_slice() {
        Ok(rest)
    } else {
        Err(Refusal::Cause(Cause::Fields))
    }
}

/// The reply, if no field stands behind it.
fn last_reply(reply: Reply, rest: &[&[u8]]) -> Result<Reply, Refusal>
    ensures { Gives (λ x. x) result (entries.last_reply reply (views rest.now)) }
{
    match rest {
        [] => Ok(reply),
        [_field, ..] => {
            drop(reply);
            Err(Refusal::Cause(Cause::Fields))
        }
    }
}

/// What stands behind an event.
fn reply_in(alloc: Global, old: bool, fields: &[&[u8]]) -> Result<Reply, Refusal>
    ensures { Gives (λ x. x) result (entries.reply_in old (views fields.now)) }
{
    let rest = arrow(fields)?;
    let (reply, rest) = reply_at(alloc, old, rest)?;
    last_reply(reply, rest)
}

fn with_reply(
    alloc: Global,
    old: bool,
    thread: u32,
    event: Event,
    fields: &[&[u8]],
) -> Result<Entry, Refusal>
    ensures { Gives (λ x. x) result (entries.with_reply old thread event (views fields.now)) }
{
    match reply_in(alloc, old, fields) {
        Ok(reply) => Ok(Entry {
            thread,
            event,
            reply,
        }),
        Err(refusal) => {
            drop(event);
            Err(refusal)
        }
    }
}

fn entry_of(alloc: Global, old: bool, fields: &[&[u8]]) -> Result<Entry, Refusal>
    ensures { Gives (λ x. x) result (entries.entry_of old (views fields.now)) }
{
    let (thread, rest) = small_number_at(fields)?;
    let (event, rest) = event_at(alloc, old, rest)?;
    with_reply(alloc, old, thread, event, rest)
}

/// The entry that a line without its line end is; else the cause of the first field at which no line goes on. `old` is
/// format 1.
#[tactic(auto, unfolding(crate::specs::Entries::entry_in))]
pub fn entry_in(alloc: Global, old: bool, line: &[u8]) -> Result<Entry, Refusal>
    ensures { Gives (λ x. x) result (entries.entry_in old line.now) }
{
    let fields = split(alloc, b' ', line)?;
    entry_of(alloc, old, fields.as_slice())
}
