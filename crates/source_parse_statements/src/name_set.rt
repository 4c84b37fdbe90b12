//! Names that differ.
ghost use Rattle.std.specs.Prelude.{◌≡◌, ◌++◌, ◌∷◌, [], false, IfOk};
ghost use Rattle.py_syntax.specs.Statements.{is_among};

use base_types::{Exact, NoMemory, Seq, Text, Texts};
use indexmap::IndexSet;
use std::alloc::Global;
use std::marker::Model;

/// Names that differ, in the order in which they were found. Whether a name is one of them is answered by a hash, so that a
/// long list of parameters costs work linear in its length.
#[derive(Drop)]
pub struct NameSet {
    names: IndexSet<Text>,
}

impl Model for NameSet {
    ghost use Rattle.std.specs.Prelude.{List, ℕ};
    ghost use Rattle.std.specs.Coded.{coded_list, coded_ℕ};

    ghost Value = { List (List ℕ) };

    ghost coded = { coded_list (coded_list coded_ℕ) };

    ghost view = { λ a. a.names.keys };
}

impl NameSet {
    /// No name yet. It takes no memory.
    pub fn new(alloc: Global) -> NameSet
        ensures { result ≡ [] }
    {
        NameSet {
            names: IndexSet::new(alloc),
        }
    }

    /// Whether the name is one of these.
    pub fn has(&self, name: &Text) -> bool
        ensures { result ≡ is_among name.now self.now }
    {
        self.names.contains(name)
    }

    /// These names and one more behind them.
    pub fn with(self, name: Text) -> Result<NameSet, NoMemory>
        requires fresh { is_among name self ≡ false }
        ensures { IfOk result (λ names. names ≡ self ++ name ∷ []) }
    {
        let mut names = self.names;
        names.insert(name)?;
        Ok(NameSet { names })
    }

    /// The names as a list.
    pub fn texts(&self, alloc: Global) -> Result<Texts, NoMemory>
        ensures { IfOk result (λ names. names ≡ self.now) }
    {
        let mut texts = Seq::new(alloc);
        for name in self.names.iter() {
            texts.push(name.copy()?)?;
        }
        Ok(texts)
    }
}
