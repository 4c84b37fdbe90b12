//! The first use of a lazy module, behind which an access is made again.
ghost use Rattle.std.specs.Prelude.{◌≡◌, IfOk};
ghost use Rattle.meaning_script.specs.Meaning.{around_at};
ghost use Rattle.meaning_script.specs.Pieces.{calls, on_value};
ghost use Rattle.py_frames.specs.Does.{Does, pieces, goes_on, reply_piece};
ghost use Rattle.py_frames.specs.declared.work.Frame.TheVariants as frames;

use crate::{Frame, Item, OnReply, Procedure, Want};
use base_owners::Boxed;
use base_types::NoMemory;
use find_load::In;
use machine_events::Event;
use meaning_state::{Flow, Thread};
use py_value::ModRef;
use run_module::Rouser;
use std::alloc::Global;

/// A lazy module is loaded, and then this event is made, whose reply goes on so.
pub fn rouse(
    alloc: Global,
    thread: &Thread,
    module: ModRef,
    event: Event,
    reply: OnReply,
) -> Result<Want, NoMemory>
    ensures { IfOk result (Does thread.now (pieces (λ w d s k. (around_at w d).access.roused «module» s
        (on_value k (λ _ s. calls event (λ r. reply_piece w d reply r s k)))) thread.now)) }
{
    let _ = thread;
    let event = match Boxed::new(alloc, event) {
        Ok(event) => event,
        Err(no_memory) => {
            drop(reply);
            return Err(no_memory.into());
        }
    };
    let reply = Boxed::new(alloc, reply)?;
    let rouser = Boxed::new(alloc, Rouser::start(module))?;
    Ok(Want::Both(
        Item::Feed(Procedure::Rouse(rouser), In::Start),
        Frame::Roused { event, reply },
    ))
}

/// The lazy module is loaded, or a leave comes in its place.
pub fn roused(thread: &Thread, event: Boxed<Event>, reply: Boxed<OnReply>, flow: Flow) -> Want
    ensures { Does thread.now (goes_on (frames.Roused event reply) flow thread.now) result }
{
    let _ = thread;
    match flow {
        Flow::Left(leave) => Want::Go(Flow::Left(leave)),
        Flow::Went(_) => Want::Call(event.into_inner(), reply.into_inner()),
    }
}
