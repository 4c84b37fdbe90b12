//! A sink that raises a flag.
ghost use Rattle.std.specs.Prelude.{None};

use crate::gates::Flag;
use tree_files::{Sink, SinkFault};

/// A sink that keeps nothing, and raises a flag at each write.
#[derive(Drop)]
pub struct Flagged<'a> {
    pub flag: &'a Flag,
}

impl Sink for Flagged<'_> {
    ghost written = { λ _. None };

    ghost faults = { λ _. 0 };

    fn write(&mut self, piece: &[u8]) -> Result<usize, SinkFault> {
        self.flag.raise();
        Ok(piece.len())
    }

    fn lend(&mut self) -> Self {
        Flagged { flag: self.flag }
    }

    fn restore(&mut self, lent: Self) {
        drop(lent);
    }
}
