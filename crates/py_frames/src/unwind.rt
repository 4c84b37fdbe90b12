//! Where a leave stops.
ghost use Rattle.std.specs.Prelude.{◌≡◌, [], ◌∷◌, MatchOption};
ghost use Rattle.py_frames.specs.Unwind.{stops, unwound, is_taken, is_taken_kind, is_missing, is_missing_kind, is_jump};

use crate::Frame;
use crate::stack::Work;
use meaning_state::Leave;
use py_value::Kind;

/// Whether a handler may take the leave: an error but a ProfileError.
fn is_taken(leave: &Leave) -> bool
    ensures { result ≡ is_taken leave.now }
{
    match leave {
        Leave::Raised(error) => match error.kind() {
            Kind::ProfileError => false,
            _ => true,
        },
        Leave::Return(_) => false,
        Leave::Break => false,
        Leave::Continue => false,
    }
}

/// Whether `hasattr` and `getattr` meet the leave: an AttributeError.
fn is_missing(leave: &Leave) -> bool
    ensures { result ≡ is_missing leave.now }
{
    match leave {
        Leave::Raised(error) => match error.kind() {
            Kind::AttributeError => true,
            _ => false,
        },
        Leave::Return(_) => false,
        Leave::Break => false,
        Leave::Continue => false,
    }
}

/// Whether a loop meets the leave: `break` and `continue`.
fn is_jump(leave: &Leave) -> bool
    ensures { result ≡ is_jump leave.now }
{
    match leave {
        Leave::Break => true,
        Leave::Continue => true,
        Leave::Raised(_) => false,
        Leave::Return(_) => false,
    }
}

/// Whether a frame stops a leave. All other frames it passes.
fn stops(leave: &Leave, frame: &Frame) -> bool
    ensures { result ≡ stops leave.now frame.now }
{
    match frame {
        Frame::Loop {
            test: _,
            body: _,
            turns: _,
        } => is_jump(leave),
        Frame::Handlers { stmts: _, at: _ } => is_taken(leave),
        Frame::EndHandler(_) => true,
        Frame::Finally(_) => true,
        Frame::Resume(_) => true,
        Frame::Imported(_) => true,
        Frame::TriedSubmodule(_) => true,
        Frame::Open(_) => true,
        Frame::Back { scope: _, left: _ } => true,
        Frame::HasAttr => is_missing(leave),
        Frame::GetAttr(_) => is_missing(leave),
        _ => false,
    }
}

impl Work {
    /// Takes off the frames that a leave passes, and the first one that stops it. None exactly where
    /// no frame stops it; then no frame is left.
    pub fn unwind(&mut self, leave: &Leave) -> Option<Frame>
        ensures { MatchOption result ((unwound leave.now self.old ≡ []) × (self.new ≡ []))
            (λ frame. unwound leave.now self.old ≡ frame ∷ self.new) }
    {
        while let Some(frame) = self.pop() {
            if stops(leave, &frame) {
                return Some(frame);
            }
            drop(frame);
        }
        None
    }
}
