//! `print` (Library Reference, "Built-in Functions").
ghost use Rattle.std.specs.Prelude.{◌≡◌, ◌++◌, ◌∷◌, [], IfOk, OnOk, Ok};
ghost use Rattle.value_texts.specs.Texts.{str_of};
ghost use Rattle.meaning_script.specs.Calls as spec;
ghost use Rattle.step_calls.specs.Lines as lines;
ghost use Rattle.py_frames.specs.Does.{Does, pieces};

use crate::values::text_of;
use base_types::{NoMemory, Text};
use machine_events::Event;
use meaning_state::{Fault, Flow, Leave, Thread};
use py_frames::{OnReply, Want, fail};
use py_value::{Applied, Raised, Value};
use std::alloc::Global;
use value_operators::MOST_TEXT;
use value_texts::str_of;

/// Puts a text behind a blank.
fn put_behind_blank(line: &mut Text, text: &str) -> Result<(), NoMemory>
    ensures { OnOk result (line.new ≡ line.old ++ 32 ∷ text.now) }
{
    line.push_str(" ")?;
    line.push_str(text)
}

/// The line with the strs of more values, or the first error.
fn continued(alloc: Global, line: Text, values: &[Value]) -> Result<Result<Text, Raised>, NoMemory>
    ensures { IfOk result (λ so_far. so_far ≡ lines.continued line values.now) }
{
    let mut line = line;
    for value in values {
        match str_of(alloc, value)? {
            Applied::Raised(error) => return Ok(Err(error)),
            Applied::Value(text) => put_behind_blank(&mut line, text_of(&text))?,
        }
    }
    Ok(Ok(line))
}

/// The line of the values without its end, or the first error.
fn begun(alloc: Global, first: &Value, others: &[Value]) -> Result<Result<Text, Raised>, NoMemory>
    ensures { IfOk result (λ so_far. so_far ≡ lines.behind (str_of first.now)
        (λ text. lines.continued text others.now)) }
{
    match str_of(alloc, first)? {
        Applied::Raised(error) => Ok(Err(error)),
        Applied::Value(text) => continued(alloc, Text::from_str(alloc, text_of(&text))?, others),
    }
}

/// The line with its end.
fn ended(so_far: Result<Text, Raised>) -> Result<Result<Text, Raised>, NoMemory>
    ensures { IfOk result (λ line. line ≡ lines.ended so_far) }
{
    match so_far {
        Err(error) => Ok(Err(error)),
        Ok(line) => {
            let mut line = line;
            line.push_str("\n")?;
            Ok(Ok(line))
        }
    }
}

/// The line of a value and more, or the first error.
fn line_with(
    alloc: Global,
    first: &Value,
    others: &[Value],
) -> Result<Result<Text, Raised>, NoMemory>
    ensures { IfOk result (λ line. line ≡ lines.printed (first.now ∷ others.now)) }
{
    let so_far = begun(alloc, first, others)?;
    let line = ended(so_far)?;
    Ok(line)
}

/// The line of the values, or the first error.
fn line_of(alloc: Global, values: &[Value]) -> Result<Result<Text, Raised>, NoMemory>
    ensures { IfOk result (λ line. line ≡ lines.printed values.now) }
{
    match values {
        [] => Ok(Ok(Text::from_str(alloc, "\n")?)),
        [first, others @ ..] => line_with(alloc, first, others),
    }
}

/// A line is written.
fn write(alloc: Global, thread: &Thread, line: Text) -> Result<Want, NoMemory>
    ensures { IfOk result (Does thread.now (pieces (λ w d. spec.writes line) thread.now)) }
{
    if line.len() > MOST_TEXT {
        return fail(alloc, thread, Fault::TextTooLong);
    }
    Ok(Want::Call(Event::Print(line), OnReply::Done))
}

/// The values are printed.
pub fn print(alloc: Global, thread: &Thread, values: &[Value]) -> Result<Want, NoMemory>
    ensures { IfOk result (Does thread.now (pieces (λ w d. lines.writes_or_fails
        (lines.printed values.now)) thread.now)) }
{
    match line_of(alloc, values)? {
        Err(error) => Ok(Want::Go(Flow::Left(Leave::Raised(error)))),
        Ok(line) => write(alloc, thread, line),
    }
}
