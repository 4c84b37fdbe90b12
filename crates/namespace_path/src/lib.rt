//! The path of a namespace package, which is computed again where what it was computed from has
//! changed.
#![tactic(auto)]

ghost use Rattle.namespace_path.specs.Fresh.{SameIsExact};

mod recompute;

pub use recompute::{fresh, recomputed};

/// The test that compares values holds of a value and itself, and of no other two.
#[tactic(auto, using(crate::proofs::Same::same_is_exact))]
pub fn same_is_exact()
    ensures { SameIsExact }
{}
