//! Laws of spellings, each a function that does nothing and whose contract is the law.
ghost use Rattle.std.specs.Prelude.{◌≡◌, ℕ, List, Some, ◌<◌};
ghost use Rattle.std.specs.List.{AllByRecursion};
ghost use Rattle.std.specs.Str.{IsUtf8};
ghost use Rattle.base_spelling.specs.Spelling.{quoted, source};
ghost use Rattle.base_spelling.specs.Read.{text_in, source_in};

/// Two texts that are spelled alike are one.
#[tactic(auto, using(crate::proofs::Takes::one_text))]
pub fn one_text()
    ensures { (s t : List ℕ) → quoted s ≡ quoted t → s ≡ t }
{}

/// Two sources that are spelled alike are one.
#[tactic(auto, using(crate::proofs::Takes::one_source))]
pub fn one_source()
    ensures { (s t : List ℕ) → AllByRecursion (λ b. b < 256) s → AllByRecursion (λ b. b < 256) t → source s ≡ source t
        → s ≡ t }
{}
