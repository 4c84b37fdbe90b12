//! Procedures.
use base_owners::Boxed;
use find_load::Importer;
use reload_lazy::Reloader;
use run_module::{ModuleStart, Rouser};
use step_package_path::PathReader;

/// A procedure that is open. It stands apart, since it is large and rare.
#[derive(Drop)]
pub enum Procedure {
    Import(Boxed<Importer>),
    Path(Boxed<PathReader>),
    Rouse(Boxed<Rouser>),
    Reload(Boxed<Reloader>),
    Program(Boxed<ModuleStart>),
}
