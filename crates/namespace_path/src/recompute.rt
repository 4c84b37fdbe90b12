//! When a kept path is fresh, and what a search makes of it.
ghost use Rattle.std.specs.Prelude.{◌≡◌, ◌↔◌, IfOk, IsTrue};
ghost use Rattle.namespace_path.specs.Fresh.{is_fresh};
ghost use Rattle.namespace_path.specs.Recompute.{portions_after, recomputed};

use base_types::{Exact, NoMemory, Same, Texts};
use path_finder::Found;
use py_value::{Items, NsState};

/// Whether the portions that are kept may be used: they were computed from this parent path, in
/// this epoch (PEP 420, "Dynamic path computation"). It takes no memory.
pub fn fresh(state: &NsState, parent_path: &Items, epoch: u64) -> bool
    ensures test { result ≡ is_fresh state.now parent_path.now epoch }
    ensures exact { IsTrue result ↔ ((state.now.parent_path ≡ parent_path.now) × (state.now.epoch ≡ epoch)) }
{
    state.parent_path().is_same(parent_path) && state.epoch() == epoch
}

/// The portions after a search.
fn portions_after(old: &Texts, found: &Option<Found>) -> Result<Texts, NoMemory>
    ensures { IfOk result (λ it. it ≡ portions_after old.now found.now) }
{
    match found {
        None => old.copy(),
        Some(Found::Spec(_)) => old.copy(),
        Some(Found::Portions(portions)) => portions.copy(),
    }
}

/// What is kept after a search on this parent path in this epoch: the portions that it found, and
/// where it found none the old ones.
pub fn recomputed(
    state: &NsState,
    parent_path: &Items,
    epoch: u64,
    found: &Option<Found>,
) -> Result<NsState, NoMemory>
    ensures { IfOk result (λ it. it ≡ recomputed state.now parent_path.now epoch found.now) }
{
    let portions = portions_after(state.portions(), found)?;
    NsState::of(parent_path.copy()?, epoch, portions)
}
