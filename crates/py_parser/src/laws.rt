//! Laws of sources, each a function that does nothing and whose contract is the law.
ghost use Rattle.std.specs.Prelude.{◌≡◌};
ghost use Rattle.py_parser.specs.Parses.{Answer, Parses};
ghost use Rattle.py_parser.specs.Parsed.{parsed};

/// Each source has exactly one answer, its tree or its refusal: the one that `parsed` computes.
pub fn one_answer(src: &[u8])
    ensures some { Parses src.now (parsed src.now) }
    ensures alone { (answer : Answer) → Parses src.now answer → answer ≡ parsed src.now }
{}
