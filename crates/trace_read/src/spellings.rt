//! Laws, each a function that does nothing and whose contract is the law.
ghost use Rattle.std.specs.Prelude.{◌≡◌, ℕ, List};
ghost use Rattle.trace_fields.specs.Splitting.{split, joined};

/// The pieces of a text, with separators between, are the text.
#[tactic(auto, using(trace_fields::proofs::Closed::split_is_joined))]
pub fn split_joins()
    ensures { (separator : ℕ) (text : List ℕ) → joined separator (split separator text) ≡ text }
{}
