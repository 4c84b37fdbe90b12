//! What texts come to.
ghost use Rattle.std.specs.Prelude.{◌≡◌, IfOk};
ghost use Rattle.step_calls.specs.Sources.{sources};

use crate::errors::parsing_error;
use base_types::NoMemory;
use meaning_state::Parsing;
use py_parser::parse;
use source_functions::Program;
use std::alloc::Global;

/// What a text comes to: its script, or the error that its body raises.
#[tactic(auto, using(crate::proofs::Told::scripted))]
pub fn parsing_of(alloc: Global, text: &[u8]) -> Result<Parsing, NoMemory>
    ensures { IfOk result (λ parsing. parsing ≡ sources text.now) }
{
    match parse(alloc, text) {
        Ok(script) => Ok(Parsing::Parsed(Program::of(script)?)),
        Err(error) => Ok(Parsing::Faulty(parsing_error(alloc, error)?)),
    }
}
