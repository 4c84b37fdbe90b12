ghost use Rattle.std.specs.Prelude.{◌≡◌, ◌≤◌, length, IfOk, None};
ghost use Rattle.tree_files.specs.Count.{Rose};
ghost use Rattle.tree_files.specs.declared.sink.SinkFault.TheVariants as fault;

use std::io;
use std::io::{Error, ErrorKind, Write};
use tree_files::{Sink, SinkFault};

/// A runtime that can write bytes to standard output and to standard error, some of them at a time.
pub trait Streams: Drop {
    fn write_out(&self, piece: &[u8]) -> io::Result<usize>
        ensures { IfOk result (λ n. n ≤ length piece.now) };

    fn write_err(&self, piece: &[u8]) -> io::Result<usize>
        ensures { IfOk result (λ n. n ≤ length piece.now) };
}

impl Streams for HostRuntime {
    fn write_out(&self, piece: &[u8]) -> io::Result<usize> {
        self.stdout().write(piece)
    }

    fn write_err(&self, piece: &[u8]) -> io::Result<usize> {
        self.stderr().write(piece)
    }
}

/// How often a write is tried again that a signal interrupts.
const TRIES: usize = 64;

#[derive(Clone, Copy)]
enum Stream {
    Out,
    Err,
}

/// Standard output or standard error, which does not tell what it has got.
#[derive(Drop)]
pub struct StdSink<R> {
    rt: R,
    stream: Stream,
    faults: u64,
}

impl<R: Streams + Copy> StdSink<R> {
    /// Standard output.
    pub fn out(rt: R) -> StdSink<R>
        ensures { ⟦<StdSink<R> as Sink>⟧.faults result ≡ 0 }
    {
        StdSink {
            rt,
            stream: Stream::Out,
            faults: 0,
        }
    }

    /// Standard error.
    pub fn err(rt: R) -> StdSink<R>
        ensures { ⟦<StdSink<R> as Sink>⟧.faults result ≡ 0 }
    {
        StdSink {
            rt,
            stream: Stream::Err,
            faults: 0,
        }
    }

    /// Writes some of the piece, and tries again where a signal interrupts.
    fn send(&self, piece: &[u8]) -> io::Result<usize>
        ensures { IfOk result (λ n. n ≤ length piece.now) }
    {
        for _ in 0..TRIES {
            let sent = match self.stream {
                Stream::Out => self.rt.write_out(piece),
                Stream::Err => self.rt.write_err(piece),
            };
            match sent {
                Err(error) if error.kind() == ErrorKind::Interrupted => {}
                _ => return sent,
            }
        }
        Err(Error::from(ErrorKind::Interrupted))
    }

    /// The fault of a write, which is counted.
    fn refuse(&mut self) -> SinkFault
        ensures result { result ≡ fault.Failed }
        ensures rose { Rose self.old.faults self.new.faults }
        ensures grow { self.old.faults ≤ self.new.faults }
    {
        self.faults = self.faults.saturating_add(1);
        SinkFault::Failed
    }
}

impl<R: Streams + Copy> Sink for StdSink<R> {
    ghost written = { λ _. None };

    ghost faults = { λ s. s.faults };

    fn write(&mut self, piece: &[u8]) -> Result<usize, SinkFault> {
        if piece.is_empty() {
            return Ok(0);
        }
        match self.send(piece) {
            Err(_) => Err(self.refuse()),
            Ok(0) => Err(self.refuse()),
            Ok(n) => Ok(n),
        }
    }

    fn lend(&mut self) -> StdSink<R> {
        StdSink {
            rt: self.rt,
            stream: self.stream,
            faults: self.faults,
        }
    }

    fn restore(&mut self, lent: StdSink<R>) {
        self.faults = lent.faults;
    }
}
