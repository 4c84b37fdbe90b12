//! What a search finds for a name.
ghost use Rattle.std.specs.Prelude.{◌≡◌, IfOk};
ghost use Rattle.spec_core.specs.Packages.{package_of};

use crate::name::Dotted;
use base_types::{Exact, NoMemory, Same, Text, Texts};
use std::alloc::AllocError;
use std::marker::Model;
use std::sync::Arc;

/// What kind of module a name is.
#[derive(Clone, Debug, Drop)]
pub enum SpecKind {
    /// A module of the interpreter itself.
    Builtin,
    /// A module of one file.
    Source { file: Text },
    /// A regular package: its `__init__.py`, and the path on which its submodules are searched.
    Package { file: Text, path: Texts },
    /// A namespace package (PEP 420): its portions.
    Namespace { path: Texts },
}

/// A name, and what kind of module the search found for it.
#[derive(Debug, Drop)]
pub struct SpecData {
    pub name: Dotted,
    pub kind: SpecKind,
}

/// What a search found for a name. It is small, a copy is one owner more, and contracts see what was found.
#[derive(Debug)]
pub struct Spec {
    held: Arc<SpecData>,
}

const _: () = prove!(size_of::<Spec>() == 8);

impl Model for Spec {
    ghost use Rattle.spec_core.specs.declared.spec.SpecData.{SpecData};
    ghost use Rattle.std.specs.Arc.{arc_value};

    ghost Value = { SpecData };

    ghost view = { λ it. arc_value it.held };
}

impl Spec {
    /// What a search found for a name. An `Err` comes for want of memory alone.
    pub fn of(name: Dotted, kind: SpecKind) -> Result<Spec, NoMemory>
        ensures { IfOk result (λ it. it ≡ record { name = name; kind = kind }) }
    {
        let alloc = name.alloc();
        let data = SpecData { name, kind };
        Ok(Spec {
            held: Arc::new(alloc, data)?,
        })
    }

    /// The name.
    pub fn name(&self) -> &Dotted
        ensures { result.now ≡ self.now.name }
    {
        &self.held.name
    }

    /// What kind of module it is.
    pub fn kind(&self) -> &SpecKind
        ensures { result.now ≡ self.now.kind }
    {
        &self.held.kind
    }
}

impl Clone for Spec {
    ghost is_clone = { λ it other. other ≡ it };

    fn clone(&self) -> Result<Spec, AllocError> {
        Ok(Spec {
            held: self.held.clone()?,
        })
    }
}

impl Drop for Spec {
    fn drop(self) {
        let Spec { held } = self;
        drop(held);
    }
}

impl Exact for SpecKind {
    fn copy(&self) -> Result<SpecKind, NoMemory> {
        Ok(self.clone()?)
    }
}

impl Exact for Spec {
    fn copy(&self) -> Result<Spec, NoMemory> {
        Ok(self.clone()?)
    }
}

impl Same for SpecKind {
    fn is_same(&self, other: &SpecKind) -> bool {
        match self {
            SpecKind::Builtin => match other {
                SpecKind::Builtin => true,
                _ => false,
            },
            SpecKind::Source { file } => match other {
                SpecKind::Source { file: file_2 } => file.is_same(file_2),
                _ => false,
            },
            SpecKind::Package { file, path } => match other {
                SpecKind::Package {
                    file: file_2,
                    path: path_2,
                } => file.is_same(file_2) && path.is_same(path_2),
                _ => false,
            },
            SpecKind::Namespace { path } => match other {
                SpecKind::Namespace { path: path_2 } => path.is_same(path_2),
                _ => false,
            },
        }
    }
}

impl Same for Spec {
    fn is_same(&self, other: &Spec) -> bool {
        self.name().is_same(other.name()) && self.kind().is_same(other.kind())
    }
}

/// The package of a module, which becomes its `__package__` (Language Reference 5.4.1): a package is its own, any
/// other module has what stands before the last dot of its name, which may be empty. It takes no memory.
pub fn package_of(spec: &Spec) -> &str
    ensures { result.now ≡ package_of spec.now.name spec.now.kind }
{
    match spec.kind() {
        SpecKind::Package { .. } => spec.name().text(),
        SpecKind::Namespace { .. } => spec.name().text(),
        _ => match spec.name().parent() {
            Some(parent) => parent.text(),
            None => "",
        },
    }
}
