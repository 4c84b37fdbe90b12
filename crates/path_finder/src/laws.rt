//! What a search comes to.
ghost use Rattle.std.specs.Prelude.{◌≡◌, ℕ, List, [], Option};
ghost use Rattle.tree_files.specs.Files.{Files};
ghost use Rattle.py_value.specs.declared.value.Value.{Value};
ghost use Rattle.path_finder.specs.Find.{find};
ghost use Rattle.path_finder.specs.Steps.{Leads, searches};
ghost use Rattle.path_finder.specs.declared.words.Found.{Found};
ghost use Rattle.path_finder.specs.declared.words.Probe.{Probe};

/// The steps of a search end, on whatever replies come for them, in what is found of the whole path
/// (PEP 420). So whoever makes these steps, as an import does, finds just that.
pub fn a_search_ends_in_what_is_found()
    ensures { (f : Files) (name : List ℕ) (path : List Value) (replies : List (Option Probe)) (found : Option Found)
        → Leads f (searches name path []) replies found → found ≡ find f name path replies }
{}
