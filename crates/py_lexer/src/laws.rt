//! Laws of tokens, each a function that does nothing and whose contract is the law.
ghost use Rattle.std.specs.Prelude.{◌≡◌};
ghost use Rattle.py_lexer.specs.Source.{Answer, Tokens};

/// Each source has exactly one answer: its tokens, or its first fault.
pub fn one_answer(src: &[u8])
    ensures some { (answer : Answer) × Tokens src.now answer }
    ensures alone { (a b : Answer) → Tokens src.now a → Tokens src.now b → a ≡ b }
{}
