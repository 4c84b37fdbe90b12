//! Dotted names from their parts.
ghost use Rattle.std.specs.Prelude.{◌≡◌, ◌∷◌, ◌++◌, ◌+◌, ◌<◌, IfOk, OnOk, drop, length};
ghost use Rattle.spec_core.specs.Names.{joined};
ghost use Rattle.report_questions.specs.Statements.{dotted_name};

use base_types::{Exact, NoMemory, Text, Texts};

/// Puts one more part behind a name.
fn put_part(name: &mut Text, part: &Text) -> Result<(), NoMemory>
    ensures { OnOk result (name.new ≡ joined name.old part.now) }
{
    name.push_str(".")?;
    name.push_str(part.as_str())
}

/// A name with more parts behind it.
fn with_parts(front: &Text, parts: &[Text]) -> Result<Text, NoMemory>
    ensures { IfOk result (λ name. name ≡ dotted_name (front.now ∷ parts.now)) }
{
    let mut name = front.copy()?;
    for part in parts {
        put_part(&mut name, part)?;
    }
    Ok(name)
}

/// The name that parts spell with dots between, which is empty where there are no parts.
pub fn dotted_name(parts: &Texts) -> Result<Text, NoMemory>
    ensures { IfOk result (λ name. name ≡ dotted_name parts.now) }
{
    match parts.as_slice() {
        [] => Ok(Text::new(parts.alloc())),
        [front, others @ ..] => with_parts(front, others),
    }
}
