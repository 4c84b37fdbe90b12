//! The name and the parameters of a function (Language Reference 8.7).

ghost use Rattle.std.specs.Prelude.{◌≡◌, ◌<◌, ◌≤◌, ◌&&◌, false, length, IfOk};
ghost use Rattle.source_combinators.specs.Reading.{head_of};
ghost use Rattle.source_combinators.specs.Outcome.{GivesAt, Shortens, StaysWithin};
ghost use Rattle.py_syntax.specs.Statements.{is_among};
ghost use Rattle.source_spec_statements.specs.Reading as reading;
ghost use Rattle.source_parse_statements.specs.Views.{names_of, signature_of};

use crate::name_set::NameSet;
use crate::parts::Signature;
use crate::tokens::open_paren;
use base_types::{Exact, Text};
use py_syntax::Lexeme;
use source_combinators::{ReadError, Refusal, refused};
use source_parse_expressions::{close_paren, comma};
use source_parse_lines::{name, name_ahead};
use std::alloc::Global;

/// Parameters so far, and whether another one may follow: there is none yet, or a comma came last.
#[derive(Drop)]
pub struct Parameters {
    pub found: NameSet,
    pub is_open: bool,
}

/// A name that is none of these.
#[tactic(auto, unfolding(source_spec_statements::specs::Reading::fresh))]
pub fn fresh<'a>(names: &NameSet, tokens: &'a [Lexeme]) -> Result<(Text, &'a [Lexeme]), ReadError>
    ensures value { GivesAt (λ x. x) result (reading.fresh names.now tokens.now) }
    ensures fresh { IfOk result (λ read. is_among read.0 names.now ≡ false) }
    ensures shorter { Shortens tokens.now result }
{
    match tokens {
        [Lexeme::Name(name), rest @ ..] => {
            if names.has(name) {
                return Err(refused(Refusal::Syntax, tokens));
            }
            Ok((name.copy()?, rest))
        }
        _ => Err(refused(Refusal::Syntax, tokens)),
    }
}

/// A parameter, and the comma behind it.
#[tactic(auto, unfolding(source_spec_statements::specs::Reading::parameter))]
fn parameter(
    parameters: Parameters,
    tokens: &[Lexeme],
) -> Result<(Parameters, &[Lexeme]), ReadError>
    ensures value { GivesAt names_of result (reading.parameter (names_of parameters) tokens.now) }
    ensures shorter { Shortens tokens.now result }
{
    let (next, rest) = fresh(&parameters.found, tokens)?;
    let (is_open, rest) = comma(rest);
    let found = parameters.found.with(next)?;
    Ok((Parameters { found, is_open }, rest))
}

/// Whether another parameter follows.
fn begins_parameter(parameters: &Parameters, tokens: &[Lexeme]) -> bool
    ensures { result ≡ reading.begins_parameter (names_of parameters.now) (head_of tokens.now) }
{
    parameters.is_open && name_ahead(tokens)
}

/// Parameters with commas between.
#[tactic(auto, unfolding(source_spec_statements::specs::Reading::parameters, source_combinators::specs::Many::many))]
fn all_parameters(alloc: Global, tokens: &[Lexeme]) -> Result<(Parameters, &[Lexeme]), ReadError>
    ensures value { GivesAt names_of result (reading.parameters tokens.now) }
    ensures within { StaysWithin tokens.now result }
{
    let mut found = Parameters {
        found: NameSet::new(alloc),
        is_open: true,
    };
    let mut rest = tokens;
    'parameters: while begins_parameter(&found, rest) {
        let (next, after) = parameter(found, rest)?;
        found = next;
        rest = after;
    }
    Ok((found, rest))
}

/// The parameters and the end of their bracket.
#[tactic(auto, unfolding(source_spec_statements::specs::Reading::parameter_list))]
fn parameter_list(alloc: Global, tokens: &[Lexeme]) -> Result<(NameSet, &[Lexeme]), ReadError>
    ensures value { GivesAt (λ x. x) result (reading.parameter_list tokens.now) }
    ensures shorter { Shortens tokens.now result }
{
    let (found, rest) = all_parameters(alloc, tokens)?;
    let rest = close_paren(rest)?;
    Ok((found.found, rest))
}

/// A function's name and parameters.
#[tactic(auto, unfolding(source_spec_statements::specs::Reading::signature))]
pub fn signature(alloc: Global, tokens: &[Lexeme]) -> Result<(Signature, &[Lexeme]), ReadError>
    ensures value { GivesAt signature_of result (reading.signature tokens.now) }
    ensures shorter { Shortens tokens.now result }
{
    let (name, rest) = name(tokens)?;
    let rest = open_paren(rest)?;
    let (parameters, rest) = parameter_list(alloc, rest)?;
    Ok((Signature { name, parameters }, rest))
}
