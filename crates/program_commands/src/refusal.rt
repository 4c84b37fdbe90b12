//! The line about a text that is no trace.
ghost use Rattle.std.specs.Prelude.{◌≡◌, IfOk};
ghost use Rattle.program_commands.specs.Refusals.{cause_name, refusal_line};

use base_types::NoMemory;
use std::alloc::Global;
use trace_fields::Cause;

/// The name of a cause.
fn cause_name(why: Cause) -> &'static str
    ensures { result.now ≡ cause_name why }
{
    match why {
        Cause::Fields => "Fields",
        Cause::Number => "Number",
        Cause::Name => "Name",
        Cause::Escape => "Escape",
        Cause::Event => "Event",
        Cause::Reply => "Reply",
        Cause::Cut => "Cut",
    }
}

/// The line about the first line of a text, counted from 1, that is no line of a trace.
pub fn refusal_line(alloc: Global, line: u32, why: Cause) -> Result<Vec<u8>, NoMemory>
    ensures { IfOk result (λ it. it.items ≡ refusal_line line why) }
{
    let cause = cause_name(why);
    let text = format!(in alloc; "pyimport: line {line}: {cause}\n")?;
    Ok(text.into_bytes())
}
