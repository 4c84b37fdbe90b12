//! The verdict on a trace, fault by fault.
ghost use Rattle.std.specs.Prelude.{◌≡◌, ◌^◌, ◌-◌};
ghost use Rattle.trace_check.specs.Judge.{IsPlaced, rank, is_first, first_of, verdict_of_replay};

use crate::answers::{Replayed, Verdict, Why};

/// The line of the first entry: the line before it tells the format.
pub(crate) const FIRST_LINE: u32 = 2;

/// The order of causes on one line.
fn rank(why: Why) -> u8
    ensures { result ≡ rank why }
{
    match why {
        Why::Thread => 0,
        Why::Call => 1,
        Why::Allowed => 2,
        Why::Reply => 3,
        Why::End => 4,
        Why::Text => 5,
    }
}

/// Whether a fault does not come after another one.
fn is_first(line: u32, why: Why, other_line: u32, other_why: Why) -> bool
    ensures { result ≡ is_first line why other_line other_why }
{
    line < other_line || (line == other_line && rank(why) <= rank(other_why))
}

/// The verdict with one more fault.
pub(crate) fn first_of(verdict: Verdict, line: u32, why: Why) -> Verdict
    ensures { result ≡ first_of verdict line why }
{
    match verdict {
        Verdict::Yes(_) => Verdict::No { line, why },
        Verdict::No {
            line: before,
            why: cause,
        } => {
            if is_first(before, cause, line, why) {
                verdict
            } else {
                Verdict::No { line, why }
            }
        }
    }
}

/// The verdict where no script parts.
pub(crate) fn verdict_of_replay(replayed: &Replayed) -> Verdict
    requires { IsPlaced replayed.now (2 ^ 32 - 2) }
    ensures { result ≡ verdict_of_replay replayed.now }
{
    match replayed {
        Replayed::Legal(counts) => Verdict::Yes(*counts),
        Replayed::Breaks { at, why } => Verdict::No {
            line: *at + FIRST_LINE,
            why: *why,
        },
    }
}
