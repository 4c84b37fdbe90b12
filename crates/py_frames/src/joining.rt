//! Names with parts behind them.
ghost use Rattle.std.specs.Prelude.{◌≡◌, IfOk, OnOk};
ghost use Rattle.spec_core.specs.Names.{joined};

use base_types::{Exact, NoMemory, Text};

/// Puts a part behind a name, with a dot between.
pub fn put_part(name: &mut Text, part: &str) -> Result<(), NoMemory>
    ensures { OnOk result (name.new ≡ joined name.old part.now) }
{
    name.push_str(".")?;
    name.push_str(part)
}

/// The name of a part of a module.
pub fn joined_name(front: &Text, part: &Text) -> Result<Text, NoMemory>
    ensures { IfOk result (λ name. name ≡ joined front.now part.now) }
{
    let mut name = front.copy()?;
    put_part(&mut name, part.as_str())?;
    Ok(name)
}
