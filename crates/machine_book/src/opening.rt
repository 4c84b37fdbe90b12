//! What a machine is opened with.
ghost use Rattle.std.specs.Prelude.{◌≡◌, ◌≤◌, length, IfOk};
ghost use Rattle.std.specs.List.{sum};
ghost use Rattle.machine_laws.specs.Begun.{HaveScripts};

use base_types::{NoMemory, Seq, Texts};
use import_machine::Machine;

/// What a machine is opened with: the scripts with their texts, the search path, and the sizes of the
/// rounds in which the scripts run, one after another.
#[derive(Drop)]
pub struct Opening {
    pub scripts: Texts,
    pub texts: Seq<Seq<u8>>,
    pub path: Texts,
    pub rounds: Seq<u32>,
}

impl Opening {
    ghost use Rattle.machine_book.specs.Bound.{opened};

    /// The machine before the first event.
    pub fn machine(&self) -> Result<Machine, NoMemory>
        requires some { 1 ≤ length self.now.scripts }
        requires few { length self.now.scripts ≤ 16 }
        requires texts { length self.now.texts ≡ length self.now.scripts }
        requires each { HaveScripts self.now.rounds }
        requires rounds { sum self.now.rounds ≡ length self.now.scripts }
        ensures { IfOk result (λ it. it ≡ opened self.now) }
    {
        Machine::new(
            &self.scripts,
            &self.texts,
            &self.path,
            self.rounds.as_slice(),
        )
    }
}
