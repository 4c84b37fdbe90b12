//! What the verdict on a text says.
ghost use Rattle.std.specs.Prelude.{◌≡◌, ◌↔◌, ℕ, List, Some, true, false};
ghost use Rattle.tree_files.specs.Files.{Files};
ghost use Rattle.machine_events.specs.declared.event.Entry.{Entry};
ghost use Rattle.machine_spec.specs.Legal.{IsLegal};
ghost use Rattle.import_words.specs.declared.plan.RunPlan.{RunPlan};
ghost use Rattle.words_rounds.specs.declared.rounds.Round.{Round};
ghost use Rattle.program_run.specs.Alone.{Means};
ghost use Rattle.program_rounds.specs.Rounds.{opening_in, trees_of};
ghost use Rattle.trace_check.specs.Replays.{counts_of};
ghost use Rattle.trace_check.specs.declared.answers.Counts.{Counts};
ghost use Rattle.trace_check.specs.declared.answers.Verdict.{Verdict};
ghost use Rattle.trace_check.specs.declared.answers.Verdict.TheVariants as verdicts;
ghost use Rattle.trace_read.specs.Fitting.{entries_fit, entries_bytes};
ghost use Rattle.trace_text.specs.Trace.{trace};
ghost use Rattle.program_check.specs.Judge.{Judge, AllWhole, IsAccepted};

use trace_check::{no_other_replay, no_other_verdict, yes_exactly_there as entries_exactly_there};

/// The trace of a history is accepted exactly where the machine allows the history from the opening of
/// the plan and its rounds, and each script makes just its own part of it, over the files of its round.
pub fn yes_exactly_there()
    ensures { (means : Means) (files : Files) (plan : RunPlan) (rounds : List Round)
        (texts : List (List ℕ)) (bytes : List ℕ) (history : List Entry) (entries : ℕ) (verdict : Verdict)
        → entries_fit false history ≡ true
        → entries_bytes history ≡ true → bytes ≡ trace history
        → Judge means (Some files) plan rounds texts bytes entries verdict
        → ((verdict ≡ verdicts.Yes (counts_of history))
        ↔ (IsLegal (opening_in plan rounds texts) history
        × AllWhole means plan.fuel history 0 (trees_of files rounds) texts)) }
{
    entries_exactly_there();
}

/// A text that is accepted is the trace of such a history, and the counts are those of the history.
pub fn yes_says()
    ensures { (means : Means) (files : Files) (plan : RunPlan) (rounds : List Round)
        (texts : List (List ℕ)) (bytes : List ℕ) (entries : ℕ) (counts : Counts)
        → Judge means (Some files) plan rounds texts bytes entries (verdicts.Yes counts)
        → IsAccepted means files plan rounds texts bytes entries counts }
{
    entries_exactly_there();
}

/// A text has one verdict.
pub fn one_verdict()
    ensures { (means : Means) (files : Files) (plan : RunPlan) (rounds : List Round)
        (texts : List (List ℕ)) (bytes : List ℕ) (m n : ℕ) (v w : Verdict)
        → Judge means (Some files) plan rounds texts bytes m v
        → Judge means (Some files) plan rounds texts bytes n w → (m ≡ n) × (v ≡ w) }
{
    no_other_replay();
    no_other_verdict();
}
