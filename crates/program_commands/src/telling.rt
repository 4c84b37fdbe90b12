//! The lines of a report are written.
ghost use Rattle.std.specs.Prelude.{◌≡◌, ◌≤◌, ◌+◌, ◌&&◌, List, length};
ghost use Rattle.std.specs.Option.{ForSome};
ghost use Rattle.tree_files.specs.Files.{Files};
ghost use Rattle.import_report.specs.declared.line.Line.{Line};
ghost use Rattle.import_report.specs.Reports.{report_lines, report_folders};
ghost use Rattle.import_report.specs.Left.{left, unlisted};
ghost use Rattle.program_run.specs.Sinks.{at, Gets};
ghost use Rattle.program_commands.specs.Telling.{line_text, Tells};

use base_types::{Texts, TreePath};
use import_report::{Line, Walk};
use machine_desk::Flow;
use program_run::{joined, say_line};
use std::alloc::Global;
use tree_files::{Sink, Tree, TreeFault};

/// What became of a report.
#[derive(Clone, Copy)]
pub enum Told {
    /// It was told to its end, and this is whether each line of it is found.
    All(bool),
    /// It was told up to a call of the tree that failed.
    Unread,
    /// It was told up to a write that failed.
    Cut,
    /// It was told as far as there was memory.
    Short,
}

/// Writes one line.
fn tell_line<O: Sink>(alloc: Global, out: &mut O, line: &Line) -> Flow
    ensures gets { Gets (at O.Sink out.old) (line_text line.now) (at O.Sink out.new) result }
    ensures faults_grow { O.faults out.old ≤ O.faults out.new }
{
    let line = joined(alloc, line.text.as_str(), "", "");
    say_line(out, line)
}

/// Whether the lines so far and this one are found.
fn are_found(found: bool, line: &Line) -> bool
    ensures { result ≡ (found && line.now.found) }
{
    found && line.found
}

/// Writes all that a walk has to tell, each line before the next file is read.
fn tell_all<T: Tree, O: Sink>(alloc: Global, begun: Walk, tree: &mut T, out: &mut O) -> Told
    ensures tells { Tells (T.files tree.old) (λ f. left f begun) (T.faults tree.old) (T.faults tree.new)
        (at O.Sink out.old) (at O.Sink out.new) result }
    ensures lists { ForSome (T.files tree.old) (λ f. T.lists tree.new ≤ T.lists tree.old + length (unlisted f begun)) }
    ensures files_stay { T.files tree.new ≡ T.files tree.old }
    ensures faults_grow { T.faults tree.old ≤ T.faults tree.new }
    ensures lists_grow { T.lists tree.old ≤ T.lists tree.new }
    ensures out_faults { O.faults out.old ≤ O.faults out.new }
{
    let mut walk = begun;
    let mut found = true;
    'lines: for _ in 0..u64::MAX {
        match walk.next(tree) {
            Ok(Some(line)) => match tell_line(alloc, out, &line) {
                Flow::Open => found = are_found(found, &line),
                Flow::Failed => return Told::Cut,
                Flow::Short => return Told::Short,
            },
            Ok(None) => return Told::All(found),
            Err(TreeFault::Failed) => return Told::Unread,
            Err(TreeFault::NoMemory) => return Told::Short,
        }
    }
    Told::Short
}

/// Writes the report of a folder, in which names mean what they do on this path, each line before the next file is
/// read. Nothing more is read or written after a call of the tree or a write that failed.
pub fn tell_report<T: Tree, O: Sink>(
    alloc: Global,
    dir: &TreePath,
    path: &Texts,
    tree: &mut T,
    out: &mut O,
) -> Told
    ensures tells { Tells (T.files tree.old) (λ f. report_lines f dir.now path.now) (T.faults tree.old)
        (T.faults tree.new) (at O.Sink out.old) (at O.Sink out.new) result }
    ensures lists { ForSome (T.files tree.old) (λ f.
        T.lists tree.new ≤ T.lists tree.old + length (report_folders f dir.now)) }
    ensures files_stay { T.files tree.new ≡ T.files tree.old }
    ensures faults_grow { T.faults tree.old ≤ T.faults tree.new }
    ensures lists_grow { T.lists tree.old ≤ T.lists tree.new }
    ensures out_faults { O.faults out.old ≤ O.faults out.new }
{
    match Walk::new(dir, path) {
        Ok(walk) => tell_all(alloc, walk, tree, out),
        Err(_) => Told::Short,
    }
}
