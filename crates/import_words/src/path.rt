//! The search path among the words.
ghost use Rattle.std.specs.Prelude.{◌≡◌, ◌==◌, false, IfOk, map, MatchOption, [], ◌∷◌, ◌++◌};
ghost use Rattle.std.specs.List.{slice_split, All};
ghost use Rattle.import_words.specs.Plans.{path_of, folder_of, few_entries};

use crate::texts::owned;
use base_types::{Exact, NoMemory, Text, Texts};
use std::alloc::{AllocError, Global};

/// The texts between the colons.
fn entries_of(alloc: Global, list: &str) -> Result<Vec<&str>, AllocError>
    ensures { IfOk result (λ v. map (λ x. x.now) v.items ≡ slice_split (λ b. b == 58) list.now) }
{
    list.split(':').collect(alloc)
}

/// The entries that `--path` gives, or the one that stands for it.
pub(crate) fn path_of(list: &Option<Text>, entry: &Text) -> Result<Option<Texts>, NoMemory>
    ensures { IfOk result (λ o. o ≡ path_of list.now entry.now) }
{
    let alloc = entry.alloc();
    match list {
        None => {
            let mut path = Texts::new(alloc);
            path.push(entry.copy()?)?;
            Ok(Some(path))
        }
        Some(list) => {
            let entries = entries_of(alloc, list.as_str())?;
            if entries.len() > 4096 {
                return Ok(None);
            }
            Ok(Some(owned(alloc, entries.as_slice())?))
        }
    }
}

/// What stands before the last slash, and what stands after it.
fn around_last_slash(script: &str) -> Option<(&str, &str)>
    ensures { MatchOption result (All (λ b. (b == 47) ≡ false) script.now)
        (λ p. (script.now ≡ p.0.now ++ 47 ∷ p.1.now) × All (λ b. (b == 47) ≡ false) p.1.now) }
{
    script.rsplit_once('/')
}

/// The part of a script before its last slash, or the empty text.
pub(crate) fn folder_of(script: &Text) -> Result<Text, NoMemory>
    ensures { IfOk result (λ it. it ≡ folder_of script.now) }
{
    match around_last_slash(script.as_str()) {
        Some((folder, _)) => Text::from_str(script.alloc(), folder),
        None => Ok(Text::new(script.alloc())),
    }
}
