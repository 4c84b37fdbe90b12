//! Traces read, line by line, against their spelling and their refusals, and the laws by which each field is read back
//! from its spelling.
#![tactic(auto)]

mod laws;
mod read;
mod reading;
mod spellings;
mod trace;
mod values;

pub use laws::{
    entry_is_read, one_cause_fits, one_entry, one_spelling, one_trace, read_entry_is_spelled,
    refused_at_the_first_field,
};
pub use read::read_trace;
pub use reading::trace_in;
pub use spellings::split_joins;
pub use trace::{Trace, TraceError};
pub use trace_fields::Cause;
pub use values::value_is_read;
