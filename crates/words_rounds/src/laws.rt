//! Reading line by line is reading by the grammar.
ghost use Rattle.std.specs.Prelude.{◌≡◌, ℕ, List, Ok, Err};
ghost use Rattle.words_rounds.specs.Reading.{rounds_in};
ghost use Rattle.words_rounds.specs.declared.rounds.Round.{Round};
ghost use Rattle.words_rounds.specs.Grammar.{IsFile};
ghost use Rattle.words_rounds.specs.Refusing.{IsRefusedAt};

/// What the bytes spell by the grammar is read.
pub fn what_is_spelled_is_read()
    ensures { (rounds : List Round) (bytes : List ℕ) → IsFile rounds bytes → rounds_in bytes ≡ Ok rounds }
{}

/// The bytes spell at most one list of rounds.
pub fn at_most_one_list()
    ensures { (a b : List Round) (bytes : List ℕ) → IsFile a bytes → IsFile b bytes → a ≡ b }
{}

/// A refusal names the first line at which no rounds file goes on.
#[tactic(auto, using(crate::proofs::Refused::refused_at))]
pub fn the_first_line_that_does_not_go_on()
    ensures { (n : ℕ) (bytes : List ℕ) → rounds_in bytes ≡ Err n → IsRefusedAt n bytes }
{}
