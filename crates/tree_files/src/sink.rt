ghost use Rattle.std.specs.Prelude.{◌≡◌, ◌≤◌, ◌<◌, ◌↔◌, ◌-◌, ℕ, List, [], ◌++◌, take, length, IfOk, IsErrOf, OnOk, OnErr, Option, Some, None, MatchResult, option_map};
ghost use Rattle.tree_files.specs.Count.{Rose, raised};
ghost use Rattle.tree_files.specs.Writing.{appended, HasPrefixOf, room_for, room_after};

use base_types::NoMemory;
use std::alloc::{AllocError, Global};
use std::mem;
use thiserror::Error;

/// Why a write was refused.
#[derive(Clone, Copy, Debug, PartialEq, Eq, Error)]
pub enum SinkFault {
    /// The sink could not take it, and has counted that.
    #[error("the sink failed")]
    Failed,
    #[error("out of memory")]
    NoMemory,
}

impl From<AllocError> for SinkFault {
    ghost use Rattle.tree_files.specs.declared.sink.SinkFault.TheVariants as fault;

    ghost from_gives = { λ _ e. e ≡ fault.NoMemory };

    fn from(_e: AllocError) -> SinkFault {
        SinkFault::NoMemory
    }
}

impl From<NoMemory> for SinkFault {
    ghost use Rattle.tree_files.specs.declared.sink.SinkFault.TheVariants as fault;

    ghost from_gives = { λ _ e. e ≡ fault.NoMemory };

    fn from(_e: NoMemory) -> SinkFault {
        SinkFault::NoMemory
    }
}

/// What takes bytes, as the program sees it.
pub trait Sink: Sized + Drop {
    // The bytes that it has got, where it tells them.
    ghost written: { Self → Option (List ℕ) };
    // How many calls failed: a count that never falls, and stops at the greatest u64. No other call
    // raises it.
    ghost faults: { Self → ℕ };

    /// Takes some of the piece, from its front, and answers how many bytes. A sink that takes nothing
    /// of a piece that is not empty has failed. An `Err` takes nothing.
    fn write(&mut self, piece: &[u8]) -> Result<usize, SinkFault>
        ensures wrote { MatchResult result
            (λ n. written self.new ≡ appended (written self.old) (take n piece.now))
            (λ _. written self.new ≡ written self.old) }
        ensures count { IfOk result (λ n. n ≤ length piece.now) }
        ensures some { IfOk result (λ n. 0 < length piece.now → 0 < n) }
        ensures failed { IsErrOf result SinkFault.Failed → Rose (faults self.old) (faults self.new) }
        ensures wanting { IsErrOf result SinkFault.NoMemory → faults self.new ≡ faults self.old }
        ensures ok { OnOk result (faults self.new ≡ faults self.old) }
        ensures faults_grow { faults self.old ≤ faults self.new };

    /// A sink that stands for this one, which is empty until it is given back.
    fn lend(&mut self) -> Self
        ensures given { written result ≡ written self.old }
        ensures given_faults { faults result ≡ faults self.old }
        ensures emptied { written self.new ≡ option_map (λ _. []) (written self.old) }
        ensures faults_stay { faults self.new ≡ faults self.old };

    /// Takes back what was lent.
    fn restore(&mut self, lent: Self)
        requires { faults self.old ≤ faults lent }
        ensures written { written self.new ≡ written lent }
        ensures faults { faults self.new ≡ faults lent };
}

/// Writes all bytes, or a prefix of them where the sink refuses.
pub fn write_whole<K: Sink>(sink: &mut K, bytes: &[u8]) -> Result<(), SinkFault>
    ensures ok { OnOk result (K.written sink.new ≡ appended (K.written sink.old) bytes.now) }
    ensures err { OnErr result (HasPrefixOf bytes.now (K.written sink.old) (K.written sink.new)) }
    ensures failed { IsErrOf result SinkFault.Failed → Rose (K.faults sink.old) (K.faults sink.new) }
    ensures wanting { IsErrOf result SinkFault.NoMemory → K.faults sink.new ≡ K.faults sink.old }
    ensures faults_stay { OnOk result (K.faults sink.new ≡ K.faults sink.old) }
    ensures faults_grow { K.faults sink.old ≤ K.faults sink.new }
{
    let mut done = 0;
    while done < bytes.len() {
        done += sink.write(&bytes[done..])?;
    }
    Ok(())
}

/// A sink that keeps its bytes.
#[derive(Drop)]
pub struct MemSink {
    bytes: Vec<u8>,
    /// How many bytes it takes more before it fails, if it is to fail.
    room: Option<u64>,
    faults: u64,
}

impl MemSink {
    /// An empty sink, which never fails.
    pub fn new(alloc: Global) -> MemSink
        ensures empty { ⟦<MemSink as Sink>⟧.written result ≡ Some [] }
        ensures faults { ⟦<MemSink as Sink>⟧.faults result ≡ 0 }
        ensures room { result.room ≡ None }
    {
        MemSink {
            bytes: Vec::new(alloc),
            room: None,
            faults: 0,
        }
    }

    /// An empty sink, which takes n bytes and then fails.
    pub fn failing_after(alloc: Global, n: u64) -> MemSink
        ensures empty { ⟦<MemSink as Sink>⟧.written result ≡ Some [] }
        ensures faults { ⟦<MemSink as Sink>⟧.faults result ≡ 0 }
        ensures room { result.room ≡ Some n }
    {
        MemSink {
            bytes: Vec::new(alloc),
            room: Some(n),
            faults: 0,
        }
    }

    /// What it has got.
    pub fn bytes(&self) -> &[u8]
        ensures { ⟦<MemSink as Sink>⟧.written self.now ≡ Some result.now }
    {
        self.bytes.as_slice()
    }
}

impl Sink for MemSink {
    ghost written = { λ s. Some s.bytes.items };

    ghost faults = { λ s. s.faults };

    fn write(&mut self, piece: &[u8]) -> Result<usize, SinkFault>
        ensures wrote { MatchResult result
            (λ n. self.new.bytes.items ≡ self.old.bytes.items ++ take n piece.now)
            (λ _. self.new.bytes.items ≡ self.old.bytes.items) }
        ensures count { IfOk result (λ n. n ≡ room_for self.old.room (length piece.now)) }
        ensures room { MatchResult result (λ n. self.new.room ≡ room_after self.old.room n)
            (λ _. self.new.room ≡ self.old.room) }
        ensures exact { IsErrOf result SinkFault.Failed ↔ ((self.old.room ≡ Some 0) × (0 < length piece.now)) }
        ensures failed { IsErrOf result SinkFault.Failed → self.new.faults ≡ raised self.old.faults 1 }
        ensures wanting { IsErrOf result SinkFault.NoMemory → self.new.faults ≡ self.old.faults }
        ensures ok { OnOk result (self.new.faults ≡ self.old.faults) }
        ensures faults_grow { self.old.faults ≤ self.new.faults }
    {
        let n = match self.room {
            None => piece.len(),
            Some(room) => (piece.len() as u64).min(room) as usize,
        };
        if n == 0 && piece.len() > 0 {
            self.faults = self.faults.saturating_add(1);
            return Err(SinkFault::Failed);
        }
        self.bytes.extend_from_slice(&piece[..n])?;
        if let Some(room) = self.room {
            self.room = Some(room - n as u64);
        }
        Ok(n)
    }

    fn lend(&mut self) -> MemSink
        ensures given { result.bytes.items ≡ self.old.bytes.items }
        ensures given_room { result.room ≡ self.old.room }
        ensures given_faults { result.faults ≡ self.old.faults }
        ensures emptied { self.new.bytes.items ≡ [] }
        ensures room_stays { self.new.room ≡ self.old.room }
        ensures faults_stay { self.new.faults ≡ self.old.faults }
    {
        let none = Vec::new(*self.bytes.allocator());
        MemSink {
            bytes: mem::replace(&mut self.bytes, none),
            room: self.room,
            faults: self.faults,
        }
    }

    fn restore(&mut self, lent: MemSink)
        ensures { self.new ≡ lent }
    {
        *self = lent;
    }
}
