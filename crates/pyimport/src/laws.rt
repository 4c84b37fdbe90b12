//! What holds of every script that runs alone.
ghost use Rattle.std.specs.Prelude.{◌≡◌, ℕ, List, length};
ghost use Rattle.tree_files.specs.Files.{Files};
ghost use Rattle.machine_events.specs.declared.event.Entry.{Entry};
ghost use Rattle.machine_laws.specs.Begun.{Begun, first};
ghost use Rattle.meaning_solo.specs.Solo.{AreAlone, IsSolo};
ghost use Rattle.program_run.specs.Alone.{turns_of};
ghost use Rattle.meaning_script.specs.Meaning.{meaning};
ghost use Rattle.step_calls.specs.Sources.{sources};

use crate::script::Script;
use program_run::scripts_have_a_history;

/// Scripts that run alone, each in a round of its own, have a history, whatever their texts, their
/// files and their budget are, where no call of the tree fails. (That they have no other is the law
/// `solo_is_one`.)
pub fn each_script_has_a_history()
    ensures { (b : Begun) (scripts : List (Files × List ℕ)) (fuel : ℕ) → AreAlone (first b)
        → length scripts ≡ length (first b).rounds
        → (history : List Entry) × IsSolo (first b) (turns_of (meaning sources) 0 scripts) fuel history }
{
    scripts_have_a_history::<Script>();
}
