//! From bytes to a trace.
ghost use Rattle.std.specs.Prelude.{◌≡◌, List, Bool, true, IfOk, Ok};
ghost use Rattle.std.specs.Result.{IfErr};
ghost use Rattle.machine_events.specs.declared.event.Entry.{Entry};
ghost use Rattle.trace_read.specs.Reading.{Gives, format_and_entries, format_of, trace_in};
ghost use Rattle.trace_read.specs.Fitting.{entries_fit, entries_bytes};
ghost use Rattle.trace_read.specs.Text.{Spelled, text_of};
ghost use Rattle.trace_read.specs.Refusing.{IsRefusal};

use crate::{Trace, TraceError, trace_in};
use std::alloc::Global;

/// The format, 2 or 1, and the entries of a trace. Where the bytes are no trace: the first line that is no line of the
/// format, counted from 1, and what could stand in its first field at which no line goes on.
pub fn read_trace(alloc: Global, bytes: &[u8]) -> Result<Trace, TraceError>
    // What is read is spelled so, each byte of it.
    ensures found { IfOk result (λ trace. Spelled bytes.now (format_and_entries trace)) }
    // What is spelled so is read, unless memory is wanted.
    ensures only { (old : Bool) (entries : List Entry) → entries_fit old entries ≡ true → entries_bytes entries ≡ true
        → bytes.now ≡ text_of old entries → Gives format_and_entries result (Ok (format_of old, entries)) }
    // The first line that is none is refused, at its first field at which no line goes on, with the cause that fits.
    ensures refused { IfErr result (λ e. IsRefusal bytes.now e) }
    // Reading line by line and field by field, as a definition: which line is refused, and with which cause.
    ensures exact { Gives format_and_entries result (trace_in bytes.now) }
{
    trace_in(alloc, bytes)
}
