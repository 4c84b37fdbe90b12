//! The text that a value is, and what an operator gives.
ghost use Rattle.std.specs.Prelude.{◌≡◌, ℕ};
ghost use Rattle.meaning_script.specs.Calls as spec;
ghost use Rattle.meaning_script.specs.Pieces as words;
ghost use Rattle.py_frames.specs.Does.{Does, pieces};

use meaning_state::{Flow, Leave, Thread};
use py_frames::Want;
use py_value::{Applied, Value};

/// The text that a value is. Empty where it is none.
pub fn text_of(value: &Value) -> &str
    ensures { result.now ≡ spec.text_of value.now }
{
    match value {
        Value::Text(text) => text.as_str(),
        _ => "",
    }
}

/// What an operator gives.
pub fn give(thread: &Thread, applied: Applied) -> Want
    ensures { Does thread.now (pieces (λ w d. words.gives applied) thread.now) result }
{
    let _ = thread;
    match applied {
        Applied::Value(value) => Want::Go(Flow::Went(value)),
        Applied::Raised(error) => Want::Go(Flow::Left(Leave::Raised(error))),
    }
}
