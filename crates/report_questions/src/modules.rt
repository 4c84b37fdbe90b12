//! The module that a file is, by its place in a folder.
ghost use Rattle.std.specs.Prelude.{◌≡◌, ◌++◌, ◌∷◌, [], IfOk};
ghost use Rattle.report_questions.specs.Modules as spec;

use crate::dotted_name;
use base_types::{Exact, NoMemory, Text, Texts};
use spec_core::{Dotted, Spec, SpecKind, package_of};

/// The name of the file that makes a folder a package.
const FIRST_FILE: &str = "__init__.py";

/// Whether a file of this name makes its folder a package.
fn is_first_file(name: &Text) -> bool
    ensures { result ≡ spec.is_first_file name.now }
{
    name.as_str() == FIRST_FILE
}

/// What stands before the last dot of a name, or the whole name where it has none.
fn without_suffix(name: &str) -> &str
    ensures { result.now ≡ spec.without_suffix name.now }
{
    match name.rsplit_once('.') {
        Some((front, _)) => front,
        None => name,
    }
}

/// The parts of the name of the module that a file in these folders is.
fn module_parts(folders: &Texts, name: &Text) -> Result<Texts, NoMemory>
    ensures { IfOk result (λ parts. parts ≡ spec.module_parts folders.now name.now) }
{
    let mut parts = folders.copy()?;
    if !is_first_file(name) {
        parts.push(Text::from_str(name.alloc(), without_suffix(name.as_str()))?)?;
    }
    Ok(parts)
}

/// The name of the module that a file in these folders is. None where its path is no name.
fn module_name(folders: &Texts, name: &Text) -> Result<Option<Dotted>, NoMemory>
    ensures { IfOk result (λ it. it ≡ spec.module_name folders.now name.now) }
{
    let parts = module_parts(folders, name)?;
    let text = dotted_name(&parts)?;
    Dotted::read(&text)
}

/// What kind of module a file of this name is.
fn kind_of(name: &Text) -> SpecKind
    ensures { result ≡ spec.kind_of name.now }
{
    let file = Text::new(name.alloc());
    if is_first_file(name) {
        let path = Texts::new(name.alloc());
        return SpecKind::Package { file, path };
    }
    SpecKind::Source { file }
}

/// The package of the module that a file in these folders is. None where the file is no module.
pub fn package_of_file(folders: &Texts, name: &Text) -> Result<Option<Text>, NoMemory>
    ensures { IfOk result (λ home. home ≡ spec.package_of_file folders.now name.now) }
{
    match module_name(folders, name)? {
        None => Ok(None),
        Some(module) => {
            let kind = kind_of(name);
            let spec = Spec::of(module, kind)?;
            Ok(Some(Text::from_str(name.alloc(), package_of(&spec))?))
        }
    }
}
