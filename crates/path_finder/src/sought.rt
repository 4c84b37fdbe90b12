//! The name that is searched, and where it may stand in a directory.
ghost use Rattle.std.specs.Prelude.{◌≡◌, ◌++◌, ◌∷◌, [], IfOk, IsTrue, codes};
ghost use Rattle.base_types.specs.Path.{is_part};
ghost use Rattle.spec_core.specs.Names.{tail_of};
ghost use Rattle.base_types.specs.Path.{joined};
ghost use Rattle.path_finder.specs.Find.{folder, first_file, module_file, with_suffix, package_in, module_in};

use base_types::{NoMemory, Text, Texts, TreePath};
use spec_core::{Dotted, SpecKind};

/// A name, with its last part and that part with `.py`.
#[derive(Drop)]
pub struct Sought {
    pub name: Dotted,
    pub part: Text,
    pub file: Text,
    ghost tail: { part ≡ tail_of name },
    ghost suffix: { file ≡ with_suffix part },
    ghost part_fits: { IsTrue (is_part part) },
    ghost file_fits: { IsTrue (is_part file) },
}

impl Sought {
    /// A name with its last part and that part with `.py`. An `Err` comes for want of memory alone.
    pub fn of(name: Dotted) -> Result<Sought, NoMemory>
        ensures { IfOk result (λ it. it.name ≡ name) }
    {
        let part = Text::from_str(name.alloc(), name.tail())?;
        let mut file = Text::from_str(name.alloc(), name.tail())?;
        file.push_str(".py")?;
        Ok(Sought { name, part, file })
    }

    /// Where the name stands as a folder.
    pub fn folder(&self, dir: &TreePath) -> Result<TreePath, NoMemory>
        ensures { IfOk result (λ it. it ≡ folder dir.now (tail_of self.now.name)) }
    {
        dir.child(&self.part)
    }

    /// Where it stands as a file.
    pub fn module_file(&self, dir: &TreePath) -> Result<TreePath, NoMemory>
        ensures { IfOk result (λ it. it ≡ module_file dir.now (tail_of self.now.name)) }
    {
        dir.child(&self.file)
    }

    /// The file that makes its folder a regular package.
    pub fn first_file(&self, dir: &TreePath) -> Result<TreePath, NoMemory>
        ensures { IfOk result (λ it. it ≡ first_file dir.now (tail_of self.now.name)) }
    {
        let first = Text::from_str(self.part.alloc(), "__init__.py")?;
        self.folder(dir)?.child(&first)
    }

    /// The portion that a directory has, as a text.
    pub fn portion(&self, dir: &TreePath) -> Result<Text, NoMemory>
        ensures { IfOk result (λ it. it ≡ joined (folder dir.now (tail_of self.now.name))) }
    {
        self.folder(dir)?.text()
    }

    /// The regular package in a directory.
    pub fn package(&self, dir: &TreePath) -> Result<SpecKind, NoMemory>
        ensures { IfOk result (λ it. it ≡ package_in dir.now (tail_of self.now.name)) }
    {
        let mut path = Texts::new(self.part.alloc());
        path.push(self.portion(dir)?)?;
        let file = self.first_file(dir)?.text()?;
        Ok(SpecKind::Package { file, path })
    }

    /// The module in a directory.
    pub fn module(&self, dir: &TreePath) -> Result<SpecKind, NoMemory>
        ensures { IfOk result (λ it. it ≡ module_in dir.now (tail_of self.now.name)) }
    {
        let file = self.module_file(dir)?.text()?;
        Ok(SpecKind::Source { file })
    }
}
