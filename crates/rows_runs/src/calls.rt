//! A call: its words, the files of its tree, its sinks, and the calls of the tree that fail.
ghost use Rattle.std.specs.Prelude.{◌≡◌, [], None};

use base_types::{Seq, Text, TreePath};
use rows_words::RowError;
use std::alloc::Global;
use tree_files::{MemSink, MemTree};

/// What stands in a tree.
#[derive(Drop)]
pub enum Holding {
    File { path: Text, bytes: Seq<u8> },
    Dir { path: Text, time: u64 },
}

/// What a call may come to, where several scripts may run in any order.
#[derive(Drop)]
pub struct Outcome {
    pub out: Text,
    pub err: Text,
    pub status: u64,
}

/// A call of the program.
#[derive(Drop)]
pub struct Call {
    pub holdings: Vec<Holding>,
    pub words: Vec<String>,
    /// The calls of the tree that fail, each with its fork.
    pub fails: Vec<(Option<u32>, u64)>,
    /// The bytes that each output takes, all where there is none.
    pub out_room: Option<u64>,
    pub err_room: Option<u64>,
    pub allowed: Vec<Outcome>,
}

impl Call {
    /// A call without words on an empty tree, of which no call fails. Each output takes all bytes, and no outcome is
    /// allowed yet.
    pub fn new(alloc: Global) -> Call
        ensures lists { (result.holdings.items ≡ []) × (result.words.items ≡ []) × (result.fails.items ≡ [])
            × (result.allowed.items ≡ []) }
        ensures rooms { (result.out_room ≡ None) × (result.err_room ≡ None) }
    {
        Call {
            holdings: Vec::new(alloc),
            words: Vec::new(alloc),
            fails: Vec::new(alloc),
            out_room: None,
            err_room: None,
            allowed: Vec::new(alloc),
        }
    }

    /// Forgets what fails, which is said for one run alone.
    pub fn forget(&mut self)
        ensures forgotten { (self.new.fails.items ≡ []) × (self.new.out_room ≡ None) × (self.new.err_room ≡ None) }
        ensures kept { (self.new.holdings ≡ self.old.holdings) × (self.new.words ≡ self.old.words)
            × (self.new.allowed ≡ self.old.allowed) }
    {
        self.fails.clear();
        self.out_room = None;
        self.err_room = None;
    }
}

/// The words of a call with an option behind its first word.
pub fn with_option(alloc: Global, words: &[String], option: &str) -> Result<Vec<String>, RowError> {
    let Some((command, others)) = words.split_first() else {
        return Err(RowError::Unknown);
    };
    let mut all = Vec::new(alloc);
    all.push(String::from_str(alloc, command.as_str())?)?;
    all.push(String::from_str(alloc, option)?)?;
    for word in others {
        all.push(String::from_str(alloc, word.as_str())?)?;
    }
    Ok(all)
}

/// Puts bytes behind the file that was begun last.
pub fn put_all(call: &mut Call, bytes: &[u8]) -> Result<(), RowError> {
    match call.holdings.last_mut() {
        Some(
            Holding::File {
                path: _,
                bytes: text,
            },
        ) => {
            for b in bytes {
                text.push(*b)?;
            }
            Ok(())
        }
        _ => Err(RowError::Unknown),
    }
}

fn put(tree: &mut MemTree, holding: &Holding) -> Result<(), RowError> {
    let path = match holding {
        Holding::File { path, bytes: _ } => path,
        Holding::Dir { path, time: _ } => path,
    };
    let path = TreePath::read(path)?.ok_or(RowError::Unknown)?;
    match holding {
        Holding::File { path: _, bytes } => {
            if !tree.takes_file(&path)? {
                return Err(RowError::Unknown);
            }
            Ok(tree.put_file(&path, bytes.as_slice())?)
        }
        Holding::Dir { path: _, time } => {
            if !tree.takes_dir(&path)? {
                return Err(RowError::Unknown);
            }
            Ok(tree.put_dir(&path, *time)?)
        }
    }
}

/// The tree of a call.
pub fn tree(alloc: Global, call: &Call) -> Result<MemTree, RowError> {
    let mut tree = MemTree::new(alloc)?;
    for holding in &call.holdings {
        put(&mut tree, holding)?;
    }
    for (who, count) in &call.fails {
        tree.fail(*who, *count)?;
    }
    Ok(tree)
}

/// A sink that takes so many bytes, or all.
pub fn sink(alloc: Global, room: Option<u64>) -> MemSink
    ensures { result.room ≡ room }
{
    match room {
        Some(room) => MemSink::failing_after(alloc, room),
        None => MemSink::new(alloc),
    }
}
