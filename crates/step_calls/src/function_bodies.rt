//! Texts of functions that are called for the first time.
ghost use Rattle.std.specs.Prelude.{◌≡◌, IfOk};
ghost use Rattle.step_calls.specs.Sources.{sources};
ghost use Rattle.step_calls.specs.BodyDepth.{text_in, unsourced_at};
ghost use Rattle.py_frames.specs.Does.{Does, DoesIn, pieces, replies};
ghost use Rattle.py_frames.specs.declared.replies.OnReply.TheVariants as ons;

use crate::parsing::parsing_of;
use crate::sourced;
use base_types::{NoMemory, Seq};
use machine_events::Reply;
use meaning_state::{Fault, Thread};
use py_frames::{Want, fail};
use py_value::{ModRef, Value};
use std::alloc::Global;

/// The text that a reply brings, and its module.
fn text_in(reply: Reply) -> Option<(ModRef, Seq<u8>)>
    ensures { result ≡ text_in reply }
{
    match reply {
        Reply::Loaded(module, text) => Some((module, text)),
        _ => None,
    }
}

/// No text came for a function.
fn unsourced(alloc: Global, thread: &Thread) -> Result<Want, NoMemory>
    ensures { IfOk result (Does thread.now (pieces (λ w d. unsourced_at d) thread.now)) }
{
    if thread.left == 0 {
        return fail(alloc, thread, Fault::TooDeep);
    }
    fail(alloc, thread, Fault::NotInProfile)
}

/// The reply to the question for a function's text: it is parsed and kept, and the function is called.
pub fn source_came(
    alloc: Global,
    thread: &mut Thread,
    load: u32,
    index: u32,
    arguments: Seq<Value>,
    reply: Reply,
) -> Result<Want, NoMemory>
    ensures { IfOk result (DoesIn sources thread.new (replies
        (ons.Sourced load index arguments) reply thread.old sources)) }
{
    match text_in(reply) {
        None => {
            let want = unsourced(alloc, thread)?;
            Ok(want)
        }
        Some((module, text)) => {
            let parsing = parsing_of(alloc, text.as_slice())?;
            let want = sourced(alloc, thread, load, index, arguments, module, parsing)?;
            Ok(want)
        }
    }
}
