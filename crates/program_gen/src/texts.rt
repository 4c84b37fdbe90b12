//! The texts of modules and scripts.
ghost use Rattle.std.specs.Prelude.{◌≡◌, ◌≤◌, ◌<◌, ◌+◌, ◌/◌, ◌^◌, ◌++◌, IfOk, OnOk};
ghost use Rattle.program_gen.specs.Generator.{after, import_of, imports_of, imports_in, own_lines, module_text, script_text};

use crate::draws::Draws;
use base_types::{NoMemory, Text};
use std::alloc::Global;

/// How many modules a script imports, and a module behind the first.
const SCRIPT_IMPORTS: u32 = 4;

const MODULE_IMPORTS: u32 = 2;

fn push_import(text: &mut Text, number: u64) -> Result<(), NoMemory>
    ensures { OnOk result (text.new ≡ text.old ++ import_of number) }
{
    let line = format!(in text.alloc(); "import m{number}\n")?;
    text.push_str(line.as_str())
}

fn push_own_lines(text: &mut Text, number: u64) -> Result<(), NoMemory>
    ensures { OnOk result (text.new ≡ text.old ++ own_lines number) }
{
    let lines = format!(in text.alloc(); "print(\"m{number}\")\nx = {number}\n")?;
    text.push_str(lines.as_str())
}

fn push_imports(text: &mut Text, draws: &mut Draws, bound: u64, count: u32) -> Result<(), NoMemory>
    requires { 1 ≤ bound }
    ensures text { OnOk result (text.new ≡ text.old ++ imports_of bound count draws.old.state) }
    ensures state { OnOk result (draws.new.state ≡ after count draws.old.state) }
{
    for _ in 0..count {
        let number = draws.draw(bound);
        push_import(text, number)?;
    }
    Ok(())
}

fn imports_in(number: u64) -> u32
    ensures { result ≡ imports_in number }
{
    if number == 0 { 0 } else { MODULE_IMPORTS }
}

fn push_module_imports(text: &mut Text, draws: &mut Draws, number: u64) -> Result<(), NoMemory>
    requires { number < 2 ^ 32 }
    ensures text { OnOk result (text.new ≡ text.old ++ imports_of ((number + 1) / 2)
        (imports_in number) draws.old.state) }
    ensures state { OnOk result (draws.new.state ≡ after (imports_in number) draws.old.state) }
{
    if number == 0 {
        return Ok(());
    }
    push_imports(text, draws, (number + 1) / 2, MODULE_IMPORTS)
}

/// What the module of a number holds.
pub(crate) fn module_text(alloc: Global, draws: &mut Draws, number: u64) -> Result<Text, NoMemory>
    requires { number < 2 ^ 32 }
    ensures text { IfOk result (λ it. it ≡ module_text number draws.old.state) }
    ensures state { OnOk result (draws.new.state ≡ after (imports_in number) draws.old.state) }
{
    let mut text = Text::new(alloc);
    push_module_imports(&mut text, draws, number)?;
    push_own_lines(&mut text, number)?;
    Ok(text)
}

/// What a script holds.
pub(crate) fn script_text(alloc: Global, draws: &mut Draws, modules: u64) -> Result<Text, NoMemory>
    requires { 1 ≤ modules }
    ensures text { IfOk result (λ it. it ≡ script_text modules draws.old.state) }
    ensures state { OnOk result (draws.new.state ≡ after 4 draws.old.state) }
{
    let mut text = Text::new(alloc);
    push_imports(&mut text, draws, modules, SCRIPT_IMPORTS)?;
    Ok(text)
}
