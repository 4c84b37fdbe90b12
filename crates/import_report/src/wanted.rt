//! The name that is searched.
ghost use Rattle.std.specs.Prelude.{◌≡◌, IfOk, IsTrue};
ghost use Rattle.base_types.specs.Path.{is_part};
ghost use Rattle.spec_core.specs.Names.{tail_of};
ghost use Rattle.path_finder.specs.Find.{folder, module_file, with_suffix};

use base_types::{NoMemory, Text, TreePath};
use spec_core::Dotted;

/// The last part of a name, and that part with `.py`.
#[derive(Drop)]
pub struct Wanted {
    pub part: Text,
    pub file: Text,
    ghost suffix: { file ≡ with_suffix part },
    ghost part_fits: { IsTrue (is_part part) },
    ghost file_fits: { IsTrue (is_part file) },
}

impl Wanted {
    /// What is wanted of a name. An `Err` comes for want of memory alone.
    pub fn of(name: &Dotted) -> Result<Wanted, NoMemory>
        ensures { IfOk result (λ it. it.part ≡ tail_of name.now) }
    {
        let part = Text::from_str(name.alloc(), name.tail())?;
        let mut file = Text::from_str(name.alloc(), name.tail())?;
        file.push_str(".py")?;
        Ok(Wanted { part, file })
    }

    /// Where it stands as a folder.
    pub fn folder(&self, dir: &TreePath) -> Result<TreePath, NoMemory>
        ensures { IfOk result (λ it. it ≡ folder dir.now self.now.part) }
    {
        dir.child(&self.part)
    }

    /// Where it stands as a file.
    pub fn module_file(&self, dir: &TreePath) -> Result<TreePath, NoMemory>
        ensures { IfOk result (λ it. it ≡ module_file dir.now self.now.part) }
    {
        dir.child(&self.file)
    }
}
