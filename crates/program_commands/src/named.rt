//! What a call runs: modules, each made of its name.
ghost use Rattle.std.specs.Prelude.{◌≡◌, ℕ, List};
ghost use Rattle.machine_shown.specs.Shown.{shown_first};
ghost use Rattle.meaning_runs.specs.Runs.{Safe};
ghost use Rattle.program_commands.specs.Modules.{NamesMean};

use drive_round::Program;
use spec_core::Dotted;

/// Programs that are made of dotted names.
pub trait Named: Program {
    // What a name means as the program of a number.
    ghost means: { NamesMean };

    /// The program of a name.
    fn of_name(name: Dotted) -> Self
        ensures { (t : ℕ) → Self.run result t ≡ means t name };

    // A program's own events show all that it asks for.
    ghost safe: { (t : ℕ) (name : List ℕ) → Safe (shown_first t) (means t name) };
}

/// A program's own events show all that it asks for, whatever its name is.
pub fn names_are_safe<N: Named>()
    ensures { (t : ℕ) (name : List ℕ) → Safe (shown_first t) (N.means t name) }
{}
