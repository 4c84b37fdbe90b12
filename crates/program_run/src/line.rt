//! The lines on standard error.
ghost use Rattle.std.specs.Prelude.{◌≡◌, ◌++◌, ◌∷◌, [], codes, IfOk};
ghost use Rattle.py_value.specs.Names.{kind_name};
ghost use Rattle.program_run.specs.Ends.{line_of, behind_colon};
ghost use Rattle.drive_account.specs.Ending.{outcome};

use base_types::NoMemory;
use drive_account::Ending;
use py_value::Raised;
use std::alloc::Global;

/// The pieces one after another, and a line end.
pub fn joined(alloc: Global, first: &str, second: &str, third: &str) -> Result<Vec<u8>, NoMemory>
    ensures { IfOk result (λ line. line.items ≡ first.now ++ second.now ++ third.now ++ 10 ∷ []) }
{
    let mut line = Vec::new(alloc);
    line.extend_from_slice(first.as_bytes())?;
    line.extend_from_slice(second.as_bytes())?;
    line.extend_from_slice(third.as_bytes())?;
    line.push(b'\n')?;
    Ok(line)
}

fn raised(alloc: Global, script: &str, error: &Raised) -> Result<Vec<u8>, NoMemory>
    ensures { IfOk result (λ line. line.items ≡ script.now ++ codes ": " ++ kind_name error.now.kind
        ++ behind_colon error.now.text ++ 10 ∷ []) }
{
    let mut line = Vec::new(alloc);
    line.extend_from_slice(script.as_bytes())?;
    line.extend_from_slice(b": ")?;
    line.extend_from_slice(error.kind().name().as_bytes())?;
    if error.text().len() > 0 {
        line.extend_from_slice(b": ")?;
        line.extend_from_slice(error.text().as_bytes())?;
    }
    line.push(b'\n')?;
    Ok(line)
}

/// The line about the end of a script.
pub fn line_of(alloc: Global, script: &str, ending: &Ending) -> Result<Vec<u8>, NoMemory>
    ensures { IfOk result (λ line. line.items ≡ line_of script.now (outcome ending.now)) }
{
    match ending {
        Ending::Normal => Ok(Vec::new(alloc)),
        Ending::Raised(error) => raised(alloc, script, error),
        Ending::Fuel => joined(alloc, script, ": fuel spent", ""),
        Ending::Read => joined(alloc, script, ": file fault", ""),
    }
}
