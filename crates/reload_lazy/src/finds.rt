//! What a reload finds.
ghost use Rattle.std.specs.Prelude.{◌≡◌, IfOk};
ghost use Rattle.find_load.specs.declared.words.In.TheVariants as ins;
ghost use Rattle.find_load.specs.declared.words.Want.TheVariants as wants;
ghost use Rattle.meaning_script.specs.Reload.{finds, has_source, locates, reads_source};
ghost use Rattle.reload_lazy.specs.Reload.{ReloadGoes};
ghost use Rattle.reload_lazy.specs.Reloading.{called, does_at};
ghost use Rattle.reload_lazy.specs.declared.reloader.Awaited.TheVariants as await;

use crate::raises::{stop, stop_not_found};
use crate::reloader::{Awaited, Finding, Reloader};
use crate::takes::take_first;
use crate::waits::wait_for;
use base_types::{Exact, NoMemory, Seq, TreePath};
use find_load::Want;
use meaning_state::Fault;
use path_finder::{Found, path_of};
use py_value::Items;
use spec_core::{Dotted, Spec, SpecKind};

/// The search for a name on a path.
fn search_for(name: &Dotted, path: &Items) -> Result<Want, NoMemory>
    ensures { IfOk result (λ want. want ≡ wants.Find name.now path.now) }
{
    Ok(Want::Find {
        name: name.copy()?,
        path: path.copy()?,
    })
}

/// This search for the name is wanted; the path is kept for a namespace.
fn seek(p: &mut Reloader, name: Dotted, epoch: u64, path: Items, search: Want) -> Want
    requires { search ≡ wants.Find name path }
    ensures goes { ReloadGoes (λ inside. finds inside (called p.old name) epoch path) p.new result }
{
    wait_for(p, name, Awaited::Searched { epoch, path }, search)
}

/// The name is searched on a path.
pub(crate) fn find(
    p: &mut Reloader,
    name: Dotted,
    epoch: u64,
    path: Items,
) -> Result<Want, NoMemory>
    ensures goes { IfOk result (ReloadGoes (λ inside. finds inside (called p.old name) epoch path) p.new) }
{
    match search_for(&name, &path) {
        Ok(search) => Ok(seek(p, name, epoch, path, search)),
        Err(error) => {
            drop(name);
            drop(path);
            Err(error)
        }
    }
}

/// The file of the spec is to be read. A text that is no tree path names no file.
fn read_source(
    p: &mut Reloader,
    name: Dotted,
    epoch: u64,
    spec: Spec,
    file: Option<TreePath>,
) -> Result<Want, NoMemory>
    ensures goes { IfOk result (ReloadGoes (λ inside. reads_source inside (called p.old name) epoch spec file) p.new) }
{
    match file {
        Some(file) => {
            let file = Want::File(file);
            Ok(wait_for(p, name, Awaited::File { epoch, spec }, file))
        }
        None => {
            drop(spec);
            stop_not_found(p, name)
        }
    }
}

/// A spec was found.
fn locate(p: &mut Reloader, name: Dotted, epoch: u64, spec: Spec) -> Result<Want, NoMemory>
    ensures goes { IfOk result (ReloadGoes (λ inside. locates inside (called p.old name) epoch spec spec.kind) p.new) }
{
    let file = match spec.kind() {
        SpecKind::Source { file } => path_of(file)?,
        SpecKind::Package { file, .. } => path_of(file)?,
        _ => {
            drop(spec);
            return Ok(stop(p, name, Fault::NotInProfile));
        }
    };
    read_source(p, name, epoch, spec, file)
}

/// What the search came to, on this path.
pub(crate) fn discover(
    p: &mut Reloader,
    name: Dotted,
    epoch: u64,
    path: Items,
    answer: Option<Found>,
) -> Result<Want, NoMemory>
    ensures goes { IfOk result (ReloadGoes (does_at p.old name (await.Searched epoch path) (ins.Found answer)) p.new) }
{
    match answer {
        None => {
            drop(path);
            stop_not_found(p, name)
        }
        Some(Found::Spec(spec)) => {
            drop(path);
            locate(p, name, epoch, spec)
        }
        Some(Found::Portions(portions)) => {
            take_first(p, name, epoch, Finding::Space { path, portions })
        }
    }
}

/// The text of the file was read, if it is not too long for a source.
fn has_source(
    p: &mut Reloader,
    name: Dotted,
    epoch: u64,
    spec: Spec,
    text: Option<Seq<u8>>,
) -> Result<Want, NoMemory>
    ensures goes { IfOk result (ReloadGoes (λ inside. has_source inside (called p.old name) epoch spec text) p.new) }
{
    match text {
        Some(text) => take_first(p, name, epoch, Finding::Source { spec, text }),
        None => {
            drop(spec);
            Ok(stop(p, name, Fault::TooLong))
        }
    }
}

/// The file was opened, if one stands there.
pub(crate) fn opened(
    p: &mut Reloader,
    name: Dotted,
    epoch: u64,
    spec: Spec,
    text: Option<Option<Seq<u8>>>,
) -> Result<Want, NoMemory>
    ensures goes { IfOk result (ReloadGoes (does_at p.old name (await.File epoch spec) (ins.Opened text)) p.new) }
{
    match text {
        Some(text) => has_source(p, name, epoch, spec, text),
        None => {
            drop(spec);
            stop_not_found(p, name)
        }
    }
}
