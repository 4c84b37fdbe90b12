//! Laws of names, each a function that does nothing and whose contract is the law.
ghost use Rattle.std.specs.Prelude.{◌≡◌, IsTrue, MatchOption, Some, Ok};
ghost use Rattle.spec_core.specs.Names.{parent_of, tail_of, joined};
ghost use Rattle.spec_core.specs.Identifiers.{is_dotted};
ghost use Rattle.spec_core.specs.Relative.{resolved};

use crate::name::Dotted;
use base_types::Text;

/// A dotted name is its parent, a dot and its tail; one without a parent is its tail.
pub fn parent_dot_tail(name: &Dotted)
    ensures { MatchOption (parent_of name.now) (name.now ≡ tail_of name.now)
        (λ parent. name.now ≡ joined parent (tail_of name.now)) }
{}

/// At level 1 a relative name is the package, a dot and the name.
pub fn first_level(package: &Text, name: &Dotted)
    ensures { IsTrue (is_dotted «package».now)
        → resolved (Some «package».now) 1 (Some name.now) ≡ Ok (joined «package».now name.now) }
{}
