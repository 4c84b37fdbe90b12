//! What holds of every made workload.
ghost use Rattle.std.specs.Prelude.{◌≤◌, ◌^◌, ℕ};
ghost use Rattle.program_gen.specs.Scripts.{HoldsScripts};

#[tactic(auto, using(crate::proofs::Standing::scripts_stand))]
/// The tree holds each script, under the name of its file alone, and none is longer than a script
/// may be.
pub fn made_scripts_stand()
    ensures { (seed modules scripts : ℕ) → 1 ≤ modules → modules ≤ 2 ^ 32 → scripts ≤ 2 ^ 32
        → HoldsScripts seed modules scripts }
{}
