//! What scripts mean: definitions, and laws about them and about the searches in them. There is no code here.
#![tactic(auto)]

ghost use Rattle.std.specs.Prelude.{◌≡◌, ◌≤◌, ℕ, List, Option, Ok};
ghost use Rattle.tree_files.specs.Files.{Files};
ghost use Rattle.py_value.specs.declared.value.Value.{Value};
ghost use Rattle.machine_events.specs.declared.event.Event.{Event};
ghost use Rattle.machine_events.specs.declared.event.Reply.{Reply};
ghost use Rattle.machine_shown.specs.Shown.{Shown, Running};
ghost use Rattle.path_finder.specs.Steps.{Search, Reads, searches};
ghost use Rattle.path_finder.specs.Looking.{means, wants, CountsLists};
ghost use Rattle.path_finder.specs.declared.look.Look.{Look};
ghost use Rattle.path_finder.specs.declared.words.Found.{Found};
ghost use Rattle.path_finder.specs.declared.words.LookIn.{LookIn};
ghost use Rattle.path_finder.specs.declared.words.LookWant.{LookWant};
ghost use Rattle.meaning_runs.specs.Runs.{Run, Safe, Stands};
ghost use Rattle.meaning_runs.specs.Lists.{Listed};
ghost use Rattle.meaning_script.specs.Searches.{searches_in, IsNamed, Same};

/// A search for a name on a path is safe where what follows it is, for an answer of that name.
pub fn searches_are_safe()
    ensures { (name : List ℕ) (path : List Value) (portions : List (List ℕ)) (s : Shown) (k : Option Found → Run)
        → s.doing ≡ Running
        → ((later : Shown) → Same s later → (answer : Option Found) → IsNamed name answer → Safe later (k answer))
        → Safe s (searches_in (searches name path portions) k) }
{}

/// What a search reads in the tree leads the script on.
pub fn searches_go_on()
    ensures { (files : Option Files) (before after : Search) (whole : Run) (fuel budget : ℕ)
        (mine : List (Event × Reply)) (k : Option Found → Run) → Reads files before after
        → Stands files whole fuel mine budget (searches_in before k)
        → Stands files whole fuel mine budget (searches_in after k) }
{}

/// A step of a search that lists a directory is followed by the event that keeps the listing.
pub fn searches_list()
    ensures { (files : Option Files) (look next : Look) (input : LookIn) (want : LookWant) (old before after : ℕ)
        (mine : List (Event × Reply)) (k : Option Found → Run)
        → Reads files (means look input) (wants want (means next)) → CountsLists (Ok want) before after
        → Listed old before mine (searches_in (means look input) k)
        → Listed old after mine (searches_in (wants want (means next)) k) }
{}
