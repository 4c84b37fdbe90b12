//! Arguments in whose place a list comes.
ghost use Rattle.std.specs.Prelude.{◌≡◌, IfOk, true};
ghost use Rattle.meaning_script.specs.Pieces.{listed};
ghost use Rattle.step_calls.specs.Around.{calls_with_one};
ghost use Rattle.py_frames.specs.Listing.{is_listed};
ghost use Rattle.py_frames.specs.Does.{Does, pieces};

use base_types::{Exact, NoMemory, Seq};
use meaning_state::Thread;
use py_frames::{Item, Want, list_operand};
use py_value::Value;
use std::alloc::Global;

/// What is called has this one argument, in whose place a list comes or which is none; then it is called
/// with that.
pub fn call_listed(
    alloc: Global,
    thread: &Thread,
    callee: Value,
    value: Value,
) -> Result<Want, NoMemory>
    requires is_listed { is_listed value ≡ true }
    ensures { IfOk result (Does thread.now (pieces (λ w d. listed value (calls_with_one w d callee)) thread.now)) }
{
    let mut arguments = Seq::new(alloc);
    arguments.push(value.copy()?)?;
    let item = Item::Call { callee, arguments };
    list_operand(alloc, thread, item, 0, value)
}
