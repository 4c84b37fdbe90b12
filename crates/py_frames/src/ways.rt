//! The plainest ways on.
ghost use Rattle.std.specs.Prelude.{◌≡◌, IfOk};
ghost use Rattle.meaning_script.specs.Pieces as words;
ghost use Rattle.meaning_script.specs.Pieces.{fails, Piece};
ghost use Rattle.py_frames.specs.Does.{Does, pieces};
ghost use Rattle.meaning_state.specs.declared.flow.Flow.TheVariants.{Went};

use crate::{Item, Want};
use base_types::NoMemory;
use meaning_state::{Fault, Flow, Leave, Thread, raised};
use py_value::{Applied, Value, size};
use std::alloc::Global;

/// The error of a fault is raised.
pub fn fail(alloc: Global, thread: &Thread, fault: Fault) -> Result<Want, NoMemory>
    ensures { IfOk result (Does thread.now (pieces (λ w d. fails fault) thread.now)) }
{
    let _ = thread;
    let error = raised(alloc, fault)?;
    Ok(Want::Go(Flow::Left(Leave::Raised(error))))
}

/// A value goes on.
pub fn went(thread: &Thread, value: Value) -> Want
    ensures { Does thread.now (pieces (λ w d s k. k (Went value) s) thread.now) result }
{
    let _ = thread;
    Want::Go(Flow::Went(value))
}

/// The size of a value is paid, and then it goes on.
pub fn sized(thread: &Thread, value: Value) -> Want
    ensures { Does thread.now (pieces (λ w d s k. words.sized k (Went value) s) thread.now) result }
{
    let _ = thread;
    let units = size(&value);
    Want::Pay {
        of_tree: false,
        units,
        item: Item::Give(Flow::Went(value)),
    }
}

/// What an operator gives, with the size of its value paid.
pub fn given(thread: &Thread, applied: Applied) -> Want
    ensures { Does thread.now (pieces (λ w d s k. words.gives applied s (words.sized k)) thread.now) result }
{
    match applied {
        Applied::Value(value) => sized(thread, value),
        Applied::Raised(error) => Want::Go(Flow::Left(Leave::Raised(error))),
    }
}
