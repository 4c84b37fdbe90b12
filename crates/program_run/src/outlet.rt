//! Where a history is written, entry by entry.
ghost use Rattle.std.specs.Prelude.{◌≡◌, ◌≤◌, [], IfOk};
ghost use Rattle.program_run.specs.Prints.{opening_text, piece, printed};
ghost use Rattle.program_run.specs.Sinks.{Gets, at, outgo_at};
ghost use Rattle.trace_text.specs.Trace.{line};

use machine_desk::{Flow, Outlet};
use machine_events::{Entry, Event};
use std::alloc::Global;
use trace_text::write_entry;
use tree_files::{Sink, SinkFault, write_whole};

/// A sink that is lent to a book. It gets the text of each Print event, or the line of each event in
/// a trace, when the event is made.
#[derive(Drop)]
pub struct Out<K: Sink> {
    alloc: Global,
    sink: K,
    trace: bool,
    flow: Flow,
}

/// Writes a text. What became of the sink is the answer.
pub fn say<K: Sink>(sink: &mut K, text: &[u8]) -> Flow
    ensures gets { Gets (at K.Sink sink.old) text.now (at K.Sink sink.new) result }
    ensures faults_grow { K.faults sink.old ≤ K.faults sink.new }
{
    match write_whole(sink, text) {
        Ok(()) => Flow::Open,
        Err(SinkFault::Failed) => Flow::Failed,
        Err(SinkFault::NoMemory) => Flow::Short,
    }
}

/// The text of a Print event, and nothing of another.
fn printed(event: &Event) -> &[u8]
    ensures { result.now ≡ printed event.now }
{
    match event {
        Event::Print(text) => text.as_bytes(),
        _ => &[],
    }
}

/// Writes the line of an entry in a trace.
fn say_entry<K: Sink>(alloc: Global, sink: &mut K, entry: &Entry) -> Flow
    ensures gets { Gets (at K.Sink sink.old) (line entry.now) (at K.Sink sink.new) result }
    ensures faults_grow { K.faults sink.old ≤ K.faults sink.new }
{
    match write_entry(alloc, entry) {
        Ok(line) => say(sink, line.as_bytes()),
        Err(_) => Flow::Short,
    }
}

/// Writes what an entry puts out.
fn say_piece<K: Sink>(alloc: Global, sink: &mut K, trace: bool, entry: &Entry) -> Flow
    ensures gets { Gets (at K.Sink sink.old) (piece trace entry.now) (at K.Sink sink.new) result }
    ensures faults_grow { K.faults sink.old ≤ K.faults sink.new }
{
    if trace {
        say_entry(alloc, sink, entry)
    } else {
        say(sink, printed(&entry.event))
    }
}

/// What stands before the first entry.
fn opening_text(trace: bool) -> &'static [u8]
    ensures { result.now ≡ opening_text trace }
{
    if trace { b"pyimport-trace 2\n" } else { b"" }
}

impl<K: Sink> Out<K> {
    /// Borrows the sink until `close`, and writes the first line of a trace.
    pub fn open(alloc: Global, sink: &mut K, trace: bool) -> Out<K>
        ensures trace { (⟦<Out<K> as Outlet>⟧.out result).trace ≡ trace }
        ensures gets { Gets (at K.Sink sink.old) (opening_text trace)
            (outgo_at (⟦<Out<K> as Outlet>⟧.out result)) (⟦<Out<K> as Outlet>⟧.out result).flow }
        ensures faults_grow { K.faults sink.old ≤ (⟦<Out<K> as Outlet>⟧.out result).faults }
        ensures faults_stay { K.faults sink.new ≡ K.faults sink.old }
    {
        let mut lent = sink.lend();
        let flow = say(&mut lent, opening_text(trace));
        Out {
            alloc,
            sink: lent,
            trace,
            flow,
        }
    }

    /// Gives the sink back, and answers what became of it.
    pub fn close(self, sink: &mut K) -> Flow
        requires { K.faults sink.old ≤ (⟦<Out<K> as Outlet>⟧.out self).faults }
        ensures written { K.written sink.new ≡ (⟦<Out<K> as Outlet>⟧.out self).written }
        ensures faults { K.faults sink.new ≡ (⟦<Out<K> as Outlet>⟧.out self).faults }
        ensures flow { result ≡ (⟦<Out<K> as Outlet>⟧.out self).flow }
    {
        sink.restore(self.sink);
        self.flow
    }
}

impl<K: Sink> Outlet for Out<K> {
    ghost out = { λ o. record {
      trace = o.trace;
      written = K.written o.sink;
      faults = K.faults o.sink;
      flow = o.flow;
    } };

    ghost piece = { piece };

    fn put(&mut self, entry: &Entry) {
        if self.flow == Flow::Open {
            self.flow = say_piece(self.alloc, &mut self.sink, self.trace, entry);
        }
    }
}
