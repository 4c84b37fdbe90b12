//! Where texts go that nobody wants.
ghost use Rattle.std.specs.Prelude.{None};

use tree_files::{Sink, SinkFault};

/// A sink that keeps nothing, and never fails.
#[derive(Drop)]
pub(crate) struct NoOut;

impl Sink for NoOut {
    ghost written = { λ _. None };

    ghost faults = { λ _. 0 };

    fn write(&mut self, piece: &[u8]) -> Result<usize, SinkFault> {
        Ok(piece.len())
    }

    fn lend(&mut self) -> NoOut {
        NoOut
    }

    fn restore(&mut self, lent: NoOut) {
        drop(lent);
    }
}
