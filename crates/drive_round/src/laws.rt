//! Where rounds have one thread each, files and meanings fix the history.
ghost use Rattle.std.specs.Prelude.{◌≡◌, ℕ, List, Option, Some, length, map};
ghost use Rattle.tree_files.specs.Files.{Files};
ghost use Rattle.machine_events.specs.declared.event.Entry.{Entry};
ghost use Rattle.machine_spec.specs.Legal.{IsLegal};
ghost use Rattle.machine_laws.specs.Begun.{Begun, first};
ghost use Rattle.meaning_solo.specs.Solo.{AreAlone};
ghost use Rattle.drive_round.specs.Ran.{Results, Runs};
ghost use Rattle.drive_round.specs.Played.{AllPlayed};
ghost use Rattle.drive_round.specs.Solo.{AreSafe, IsRun, Rises};

/// What was played on a machine whose rounds have one thread each, over trees that tell their files,
/// is the one history that its threads have over these files, or begins it where memory was wanted.
pub fn rounds_have_one_history<T>()
    ensures { (told : T → Option Files) (faults lists : T → ℕ) (b : Begun) (trees : List Files) (runs : Runs) (fuel : ℕ)
        (h : List Entry) (olds news : List T) (results : Results) (old new : ℕ) → AreAlone (first b)
        → length trees ≡ length (first b).rounds → map told olds ≡ map (λ f. Some f) trees → AreSafe runs
        → IsLegal (first b) h → Rises faults olds news old new
        → AllPlayed told faults lists fuel h 0 runs olds news results
        → IsRun trees runs fuel (first b) h results old new }
{}
