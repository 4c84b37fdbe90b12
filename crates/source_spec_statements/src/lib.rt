//! How statements and scripts are read by descent, and that this is what the grammar spells. Each function does nothing:
//! its contract is the law.
#![tactic(auto)]

ghost use Rattle.source_spec_statements.specs.Laws.{ReadIsSpelled, SpelledIsRead, RefusedIsFirst, OneScript};

/// What is read is a script (Language Reference chapters 6 to 8, a subset).
pub fn read_is_spelled()
    ensures { ReadIsSpelled }
{}

/// Each script is read.
pub fn spelled_is_read()
    ensures { SpelledIsRead }
{}

/// A refused token is the first one that no script has after the tokens before it. It is too deep exactly where with
/// more levels some script has it there.
pub fn refused_is_first()
    ensures { RefusedIsFirst }
{}

/// Tokens spell one script at most.
pub fn one_script()
    ensures { OneScript }
{}
