//! The programs of names.
ghost use Rattle.std.specs.Prelude.{◌≡◌, IfOk, true};
ghost use Rattle.spec_core.specs.Identifiers.{is_dotted};
ghost use Rattle.program_run.specs.Together.{Mean};
ghost use Rattle.program_commands.specs.Modules.{AreNames, no_texts};

use crate::named::Named;
use base_types::{NoMemory, Seq, Text};
use spec_core::Dotted;
use std::alloc::Global;

/// The dotted name that a text spells.
fn dotted_of(name: &Text) -> Result<Dotted, NoMemory>
    requires { is_dotted name.now ≡ true }
    ensures { IfOk result (λ it. it ≡ name.now) }
{
    match Dotted::read(name)? {
        Some(it) => Ok(it),
        None => unreachable!(),
    }
}

/// The programs of these names, in their order.
pub fn programs_of<N: Named>(alloc: Global, names: &[Text]) -> Result<Vec<N>, NoMemory>
    requires { AreNames names.now }
    ensures { IfOk result (λ programs. Mean N.run N.means names.now programs.items) }
{
    let mut programs = Vec::new(alloc);
    for name in names {
        programs.push(N::of_name(dotted_of(name)?))?;
    }
    Ok(programs)
}

/// An empty text for each name.
pub fn no_texts(alloc: Global, names: &[Text]) -> Result<Seq<Seq<u8>>, NoMemory>
    ensures { IfOk result (λ texts. texts ≡ no_texts names.now) }
{
    let mut texts = Seq::new(alloc);
    for name in names {
        let _ = name;
        texts.push(Seq::new(alloc))?;
    }
    Ok(texts)
}
