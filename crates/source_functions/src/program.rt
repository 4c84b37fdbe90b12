//! A script with its functions at hand.
ghost use Rattle.std.specs.Prelude.{◌≡◌, IfOk};

use crate::collect::{Found, functions};
use crate::function::Function;
use base_owners::Shared;
use base_types::{NoMemory, Seq};
use py_syntax::{Script, Stmt};
use std::marker::Model;

/// A script with its functions at hand, which contracts see as the script.
pub struct Program {
    script: Script,
    functions: Found,
}

impl Model for Program {
    ghost use Rattle.std.specs.Prelude.{◌≡◌};
    ghost use Rattle.py_syntax.specs.contracts.stmt.Script as whole;
    ghost use Rattle.py_syntax.specs.declared.stmt.Script.{Script};
    ghost use Rattle.source_functions.specs.Functions as list;

    ghost Value = { Script };

    ghost coded = { whole.the_row.coded };

    ghost view = { λ p. p.script };

    ghost invariant = { λ p. p.functions ≡ list.functions p.script };
}

impl Program {
    ghost use Rattle.std.specs.Prelude.{◌≡◌, IfOk};
    ghost use Rattle.std.specs.Option.{option_copied};
    ghost use Rattle.source_functions.specs.Functions.{function_of};

    /// The script with its functions. The work is linear in the script.
    pub fn of(script: Script) -> Result<Program, NoMemory>
        ensures { IfOk result (λ it. it ≡ script) }
    {
        let functions = functions(&script)?;
        Ok(Program { script, functions })
    }

    /// The statements of the script, with one more owner.
    pub fn body(&self) -> Result<Shared<Seq<Stmt>>, NoMemory>
        ensures { IfOk result (λ body. body ≡ self.now.body) }
    {
        self.script.body.share()
    }

    /// The function of a number, from 0 in the order of the `def` tokens. None where there are fewer. It takes a constant
    /// time.
    pub fn function_at(&self, number: u32) -> Option<&Shared<Function>>
        ensures { option_copied result ≡ function_of self.now number }
    {
        self.functions.get(number as usize)
    }
}

impl Drop for Program {
    fn drop(self) {
        let Program { script, functions } = self;
        drop(script);
        drop(functions);
    }
}
