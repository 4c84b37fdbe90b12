//! What the answers of a checker say.
ghost use Rattle.std.specs.Prelude.{◌≡◌, ◌↔◌, ℕ, List, length};
ghost use Rattle.machine_events.specs.declared.event.Entry.{Entry};
ghost use Rattle.machine_events.specs.declared.event.Follow.{Follow};
ghost use Rattle.machine_spec.specs.declared.state.State.{State};
ghost use Rattle.machine_spec.specs.Legal.{IsLegal};
ghost use Rattle.machine_shown.specs.Own.{own};
ghost use Rattle.trace_check.specs.declared.answers.Replayed.{Replayed};
ghost use Rattle.trace_check.specs.declared.answers.Verdict.{Verdict};
ghost use Rattle.trace_check.specs.declared.answers.Replayed.TheVariants as answers;
ghost use Rattle.trace_check.specs.declared.answers.Verdict.TheVariants as verdicts;
ghost use Rattle.trace_check.specs.Replays.{Replays, counts_of};
ghost use Rattle.trace_check.specs.Judge.{Judges, AllFollow, made};

/// A history has one answer of a replay.
pub fn no_other_replay()
    ensures { (s : State) (history : List Entry) (a b : Replayed) → Replays s history a → Replays s history b → a ≡ b }
{}

/// A replay answers that a history is legal exactly where it is, with its counts.
pub fn legal_exactly_there()
    ensures { (s : State) (history : List Entry) (a : Replayed) → Replays s history a
        → ((a ≡ answers.Legal (counts_of history)) ↔ IsLegal s history) }
{}

/// So many entries of a thread as a place counts are what it sees of them.
pub fn own_is_counted()
    ensures { (t : ℕ) (history : List Entry) → length (own t history) ≡ made t history }
{}

/// A history has one verdict.
pub fn no_other_verdict()
    ensures { (history : List Entry) (a : Replayed) (follows : List Follow) (v w : Verdict) → Judges history a follows v
        → Judges history a follows w → v ≡ w }
{}

/// The verdict is yes exactly where the history is legal and every script follows it.
pub fn yes_exactly_there()
    ensures { (s : State) (history : List Entry) (a : Replayed) (follows : List Follow) (v : Verdict)
        → Replays s history a → Judges history a follows v
        → ((v ≡ verdicts.Yes (counts_of history)) ↔ (IsLegal s history × AllFollow follows)) }
{}
