//! The work stack of a thread.
ghost use Rattle.std.specs.Prelude.{◌≡◌, [], ◌∷◌, MatchOption, OnOk, OnErr};

use crate::Frame;
use base_types::NoMemory;
use meaning_state::Stack;
use std::alloc::Global;
use std::marker::Model;

/// The work stack of a thread: the list of its frames, the next one first.
pub struct Work {
    frames: Stack<Frame>,
}

impl Model for Work {
    ghost use Rattle.std.specs.Prelude.{List};
    ghost use Rattle.std.specs.Coded.{coded_list};
    ghost use Rattle.py_frames.specs.declared.work.Frame.{Frame as F};
    ghost use Rattle.py_frames.specs.contracts.work.Frame.{the_row};

    ghost Value = { List F };

    ghost coded = { coded_list the_row.coded };

    ghost view = { λ w. w.frames };
}

impl Work {
    /// No work.
    pub fn new(alloc: Global) -> Work
        ensures { result ≡ [] }
    {
        Work {
            frames: Stack::new(alloc),
        }
    }

    /// Puts a frame first. A refusal changes nothing.
    pub fn push(&mut self, frame: Frame) -> Result<(), NoMemory>
        ensures ok { OnOk result (self.new ≡ frame ∷ self.old) }
        ensures err { OnErr result (self.new ≡ self.old) }
    {
        self.frames.push(frame)
    }

    /// Takes off the first frame. None exactly where there is none.
    pub fn pop(&mut self) -> Option<Frame>
        ensures { MatchOption result ((self.old ≡ []) × (self.new ≡ [])) (λ frame. self.old ≡ frame ∷ self.new) }
    {
        self.frames.pop()
    }
}

impl Drop for Work {
    fn drop(self) {
        let Work { frames } = self;
        drop(frames);
    }
}
