//! What a call runs: scripts, each made of its text.
ghost use Rattle.std.specs.Prelude.{◌≡◌, ℕ, List};
ghost use Rattle.machine_shown.specs.Shown.{shown_first};
ghost use Rattle.meaning_runs.specs.Runs.{Safe};
ghost use Rattle.program_run.specs.Alone.{Means};

use base_types::Seq;
use drive_round::Program;

/// Programs that are made of texts.
pub trait Scripts: Program {
    // What a text means as the script of a number.
    ghost means: { Means };

    /// The script of a text.
    fn of_text(text: Seq<u8>) -> Self
        ensures { (t : ℕ) → Self.run result t ≡ means t text };

    // A script's own events show all that it asks for.
    ghost safe: { (t : ℕ) (text : List ℕ) → Safe (shown_first t) (means t text) };
}
