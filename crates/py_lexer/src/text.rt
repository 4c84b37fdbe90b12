//! Texts of characters.
ghost use Rattle.std.specs.Prelude.{◌≡◌, IfOk};
ghost use Rattle.py_lexer.specs.TokenList.{utf8_of};

use base_types::{NoMemory, Text};
use std::alloc::Global;

/// The text of these characters.
#[tactic(auto, unfolding(crate::specs::TokenList::utf8_of))]
pub fn text_of(alloc: Global, chars: &[char]) -> Result<Text, NoMemory>
    ensures { IfOk result (λ t. t ≡ utf8_of chars.now) }
{
    let text: String = chars.iter().copied().collect(alloc)?;
    Text::from_string(text)
}
