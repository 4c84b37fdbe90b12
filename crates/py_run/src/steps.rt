//! What waits for a way on.
ghost use Rattle.std.specs.Prelude.{◌≡◌, ℕ, MatchOption};
ghost use Rattle.meaning_script.specs.Meaning.{ends};
ghost use Rattle.step_calls.specs.Sources.{sources};
ghost use Rattle.meaning_state.specs.declared.thread.State.{State};
ghost use Rattle.py_frames.specs.Does.{rest, frame_does};

use meaning_state::Flow;
use py_frames::{Frame, Work};

/// What waits for a way on: no frame, or the first one that it does not pass.
pub fn next_frame(work: &mut Work, flow: &Flow) -> Option<Frame>
    ensures { MatchOption result ((d : ℕ) (s : State) → rest sources work.old d flow.now s ≡ ends flow.now s)
        (λ frame. (d : ℕ) (s : State) → rest sources work.old d flow.now s
        ≡ frame_does sources d frame (rest sources work.new) flow.now s) }
{
    match flow {
        Flow::Left(leave) => work.unwind(leave),
        Flow::Went(_) => work.pop(),
    }
}
