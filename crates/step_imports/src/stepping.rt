//! Procedures that the work feeds, each in the same way.
ghost use Rattle.std.specs.Prelude.{◌≡◌, ℕ, Bool, true, false, IfOk, refl};
ghost use Rattle.meaning_script.specs.Pieces.{Piece};
ghost use Rattle.meaning_script.specs.Imports.{Inside};
ghost use Rattle.meaning_script.specs.Meaning.{World};
ghost use Rattle.find_load.specs.Means.{GoesOn};
ghost use Rattle.find_load.specs.Means as imports;
ghost use Rattle.find_load.specs.declared.words.In.{In as Input};
ghost use Rattle.step_package_path.specs.Means as paths;
ghost use Rattle.reload_lazy.specs.Reload as reloads;
ghost use Rattle.run_module.specs.Rouse as rouses;
ghost use Rattle.run_module.specs.Means as programs;
ghost use Rattle.step_imports.specs.Waiting.{inside_by};
ghost use Rattle.py_frames.specs.Does.{fed};
ghost use Rattle.py_frames.specs.declared.procedures.Procedure.{Procedure as Held};
ghost use Rattle.py_frames.specs.declared.procedures.Procedure.TheVariants as procedures;

use base_owners::Boxed;
use base_types::NoMemory;
use find_load::{Importer, In, Want, next};
use py_frames::Procedure;
use reload_lazy::{Reloader, next_of_reload};
use run_module::{ModuleStart, Rouser, next as next_of_program, next_of_rouse};
use step_package_path::{PathReader, next as next_of_path};

/// A procedure that says what it wants by what it is fed.
pub(crate) trait Steps: Drop {
    // What it does by what it is fed, and what it is among all procedures.
    ghost means: { Inside → Self → Input → Piece };

    ghost held: { Self → Held };

    // Whether the parent of its name is imported as a parent is, or as an `import` of it does.
    ghost imports_parent: { Bool };

    /// The same.
    fn is_parent(&self) -> bool
        ensures { result ≡ imports_parent };

    /// What it wants next.
    fn step(&mut self, input: In) -> Result<Want, NoMemory>
        ensures { IfOk result (GoesOn (λ inside. means inside self.old input) (λ inside. means inside self.new)) };

    /// It among all procedures, where it lies.
    fn hold(procedure: Boxed<Self>) -> Procedure
        ensures { result ≡ held procedure };

    // Fed by the work it does just that.
    ghost is_fed: { (w : World) (d : ℕ) (it : Self) (input : Input)
        → fed w d (held it) input ≡ means (inside_by w d imports_parent) it input };
}

impl Steps for Importer {
    ghost means = { imports.means };

    ghost held = { procedures.Import };

    ghost imports_parent = { true };

    ghost is_fed = { λ w d it input. refl };

    fn is_parent(&self) -> bool {
        true
    }

    fn step(&mut self, input: In) -> Result<Want, NoMemory> {
        next(self, input)
    }

    fn hold(procedure: Boxed<Self>) -> Procedure
        ensures { result ≡ procedures.Import procedure }
    {
        Procedure::Import(procedure)
    }
}

impl Steps for PathReader {
    ghost means = { paths.means };

    ghost held = { procedures.Path };

    ghost imports_parent = { true };

    ghost is_fed = { λ w d it input. refl };

    fn is_parent(&self) -> bool {
        true
    }

    fn step(&mut self, input: In) -> Result<Want, NoMemory> {
        next_of_path(self, input)
    }

    fn hold(procedure: Boxed<Self>) -> Procedure
        ensures { result ≡ procedures.Path procedure }
    {
        Procedure::Path(procedure)
    }
}

impl Steps for Rouser {
    ghost means = { rouses.means };

    ghost held = { procedures.Rouse };

    ghost imports_parent = { true };

    ghost is_fed = { λ w d it input. refl };

    fn is_parent(&self) -> bool {
        true
    }

    fn step(&mut self, input: In) -> Result<Want, NoMemory> {
        next_of_rouse(self, input)
    }

    fn hold(procedure: Boxed<Self>) -> Procedure
        ensures { result ≡ procedures.Rouse procedure }
    {
        Procedure::Rouse(procedure)
    }
}

impl Steps for Reloader {
    ghost means = { reloads.means };

    ghost held = { procedures.Reload };

    ghost imports_parent = { true };

    ghost is_fed = { λ w d it input. refl };

    fn is_parent(&self) -> bool {
        true
    }

    fn step(&mut self, input: In) -> Result<Want, NoMemory> {
        next_of_reload(self, input)
    }

    fn hold(procedure: Boxed<Self>) -> Procedure
        ensures { result ≡ procedures.Reload procedure }
    {
        Procedure::Reload(procedure)
    }
}

impl Steps for ModuleStart {
    ghost means = { programs.means };

    ghost held = { procedures.Program };

    ghost imports_parent = { false };

    ghost is_fed = { λ w d it input. refl };

    fn is_parent(&self) -> bool {
        false
    }

    fn step(&mut self, input: In) -> Result<Want, NoMemory> {
        next_of_program(self, input)
    }

    fn hold(procedure: Boxed<Self>) -> Procedure
        ensures { result ≡ procedures.Program procedure }
    {
        Procedure::Program(procedure)
    }
}
