//! A function with the names that are local in it.
ghost use Rattle.std.specs.Prelude.{◌≡◌, ℕ, List, IfOk};
ghost use Rattle.py_syntax.specs.Statements.{is_among};

use crate::names::bound_names;
use base_owners::Shared;
use base_types::{Exact, NoMemory, Seq, Text, Texts};
use indexmap::IndexSet;
use py_syntax::{FuncDef, Stmt};
use std::marker::Model;

/// The names as a set, in which one is found by a hash.
fn set_of(names: &Texts) -> Result<IndexSet<Text>, NoMemory>
    ensures { IfOk result (λ set. (n : List ℕ) → is_among n set.keys ≡ is_among n names.now) }
{
    let mut set = IndexSet::new(names.alloc());
    for name in names.as_slice() {
        set.insert(name.copy()?)?;
    }
    Ok(set)
}

/// So many names are looked through one by one, which takes less time than a hash.
const FEW: usize = 4;

/// Whether a name is one of others, which are looked through.
fn stands_among(names: &[Text], name: &Text) -> bool
    ensures { result ≡ is_among name.now names.now }
{
    for other in names {
        if name == other {
            return true;
        }
    }
    false
}

fn has(names: &IndexSet<Text>, name: &Text) -> bool
    ensures { result ≡ is_among name.now names.now.keys }
{
    if names.len() > FEW {
        return names.contains(name);
    }
    stands_among(names.as_slice(), name)
}

/// A function of a script (Language Reference 8.7) with the names that are local in it (4.2.1), which contracts see as the
/// function. Whether a name is local takes a time that does not grow with the body: few names are looked through, and of
/// more one is found by a hash.
pub struct Function {
    def: Shared<FuncDef>,
    bound: IndexSet<Text>,
    globals: IndexSet<Text>,
}

impl Model for Function {
    ghost use Rattle.py_syntax.specs.contracts.stmt.FuncDef as function;
    ghost use Rattle.py_syntax.specs.declared.stmt.FuncDef.{FuncDef};
    ghost use Rattle.source_functions.specs.Binding.{LocalsKept};

    ghost Value = { FuncDef };

    ghost coded = { function.the_row.coded };

    ghost view = { λ f. f.def };

    ghost invariant = { λ f. LocalsKept f.def f.bound.keys f.globals.keys };
}

impl Function {
    ghost use Rattle.std.specs.Prelude.{◌≡◌, IfOk};
    ghost use Rattle.source_functions.specs.Binding.{is_local};

    /// The function with its names.
    pub fn of(def: &Shared<FuncDef>) -> Result<Function, NoMemory>
        ensures { IfOk result (λ it. it ≡ def.now) }
    {
        let names = bound_names(def)?;
        Ok(Function {
            bound: set_of(&names)?,
            globals: set_of(&def.globals)?,
            def: def.share()?,
        })
    }

    /// The tree of the function.
    pub fn def(&self) -> &FuncDef
        ensures { result.now ≡ self.now }
    {
        self.def.get()
    }

    /// The statements of its body, with one more owner.
    pub fn body(&self) -> Result<Shared<Seq<Stmt>>, NoMemory>
        ensures { IfOk result (λ body. body ≡ self.now.body) }
    {
        self.def.body.share()
    }

    /// Whether the name is local: a parameter, or bound in the body, and in no `global` line (4.2.1 and 7.12).
    pub fn is_local(&self, name: &Text) -> bool
        ensures { result ≡ is_local self.now name.now }
    {
        has(&self.bound, name) && !has(&self.globals, name)
    }
}

impl Drop for Function {
    fn drop(self) {
        let Function {
            def,
            bound,
            globals,
        } = self;
        drop(def);
        drop(bound);
        drop(globals);
    }
}
