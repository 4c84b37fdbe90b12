//! Which errors are handled, and the name of a handler that is unset when it ends.
ghost use Rattle.std.specs.Prelude.{◌≡◌, ◌∷◌, OnOk};
ghost use Rattle.meaning_script.specs.Statements.{handled, handling, unbinds_name};
ghost use Rattle.py_frames.specs.Does.{Does, goes_on, pieces, replies};
ghost use Rattle.py_frames.specs.declared.replies.OnReply.TheVariants as ons;
ghost use Rattle.py_frames.specs.declared.work.Frame.TheVariants as frames;

use base_types::{NoMemory, Text};
use machine_events::{Event, Reply};
use meaning_state::{Flow, Thread};
use py_frames::{OnReply, Want};
use py_value::Raised;
use step_simple::{is_local_name, unset_local};

/// An error is handled.
pub fn begin_handling(thread: &mut Thread, error: Raised) -> Result<(), NoMemory>
    ensures { OnOk result (thread.new ≡ record { left = thread.old.left; state = handling error thread.old.state }) }
{
    thread.state.handling.push(error)
}

/// The innermost error is no longer handled.
pub fn end_handling(thread: &mut Thread)
    ensures { thread.new ≡ record { left = thread.old.left; state = handled thread.old.state } }
{
    drop(thread.state.handling.pop());
}

/// The name of a handler is unset. That it is unset already is no fault.
fn unbind_name(thread: &mut Thread, name: Text, flow: Flow) -> Want
    ensures { Does thread.new (pieces (λ w d. unbinds_name name flow) thread.old) result }
{
    if is_local_name(thread, &name) {
        unset_local(thread, &name);
        return Want::Go(flow);
    }
    let event = Event::DelVar {
        mid: thread.state.scope.mid,
        name,
        raw: true,
    };
    Want::Call(event, OnReply::Unbound(flow))
}

/// The block of a handler came to its end.
pub fn go_on_end_handler(thread: &mut Thread, bound: Option<Text>, flow: Flow) -> Want
    ensures { Does thread.new (goes_on (frames.EndHandler bound) flow thread.old) result }
{
    end_handling(thread);
    match bound {
        None => Want::Go(flow),
        Some(name) => unbind_name(thread, name, flow),
    }
}

/// The name of a handler was unset, whatever the reply.
pub fn unbound(thread: &Thread, flow: Flow, reply: Reply) -> Want
    ensures { Does thread.now (replies (ons.Unbound flow) reply thread.now) result }
{
    let _ = thread;
    drop(reply);
    Want::Go(flow)
}
