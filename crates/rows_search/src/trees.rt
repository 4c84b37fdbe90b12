//! A tree in memory that rows make, its forks, and what stands in it.
ghost use Rattle.std.specs.Prelude.{◌≡◌, OnOk};
ghost use Rattle.tree_files.specs.Edits.{placed};
ghost use Rattle.tree_files.specs.MemFiles.{mem_files};
ghost use Rattle.tree_files.specs.declared.tree.Node.TheVariants.{Dir as dir, File as file};

use crate::edits::{edit, edits};
use base_types::{NoMemory, Text, TreePath};
use rows_words::{Row, RowError};
use std::alloc::Global;
use tree_files::{Edit, Grove, MemTree, Stamp, Tree, TreeFault};
use tree_overlay::{Overlay, are_below_root};

/// What comes of a call: a text, or nothing where it only changes the trees.
pub type Answered = Result<Option<Text>, RowError>;

/// A tree, with forks of it, and the tree after edits where it is open.
#[derive(Drop)]
pub struct Trees {
    tree: MemTree,
    forks: Vec<MemTree>,
    edited: Option<Overlay<MemTree>>,
}

/// The path that comes next.
pub fn path(alloc: Global, row: &mut Row<'_>) -> Result<TreePath, RowError> {
    TreePath::read(&row.text(alloc)?)?.ok_or(RowError::Unknown)
}

/// Puts a file into the tree, where it takes one.
pub fn put_file(tree: &mut MemTree, at: &TreePath, bytes: &[u8]) -> Result<(), RowError>
    ensures { OnOk result (mem_files tree.new.nodes ≡ placed (mem_files tree.old.nodes) at.now (file bytes.now)) }
{
    if !tree.takes_file(at)? {
        return Err(RowError::Unknown);
    }
    Ok(tree.put_file(at, bytes)?)
}

/// Puts a folder into the tree, where it takes one.
pub fn put_dir(tree: &mut MemTree, at: &TreePath, time: u64) -> Result<(), RowError>
    ensures { OnOk result (mem_files tree.new.nodes ≡ placed (mem_files tree.old.nodes) at.now (dir time)) }
{
    if !tree.takes_dir(at)? {
        return Err(RowError::Unknown);
    }
    Ok(tree.put_dir(at, time)?)
}

fn told(alloc: Global, text: &str) -> Answered {
    Ok(Some(Text::from_str(alloc, text)?))
}

fn yes(alloc: Global, answer: bool) -> Answered {
    told(alloc, if answer { "yes" } else { "no" })
}

/// A refused call as a text, but want of memory.
fn refusal(alloc: Global, fault: TreeFault) -> Answered {
    match fault {
        TreeFault::NoMemory => Err(RowError::NoMemory),
        TreeFault::Failed => told(alloc, "failed"),
    }
}

fn stamp_text(alloc: Global, stamp: Stamp) -> Answered {
    match stamp {
        Stamp::Absent => told(alloc, "absent"),
        Stamp::Dir(time) => Ok(Some(Text::from_string(format!(in alloc; "dir {time}")?)?)),
        Stamp::File(size) => Ok(Some(Text::from_string(format!(in alloc; "file {size}")?)?)),
    }
}

fn stamp<T: Tree>(alloc: Global, tree: &mut T, at: &TreePath) -> Answered {
    match tree.stamp(at) {
        Ok(stamp) => stamp_text(alloc, stamp),
        Err(fault) => refusal(alloc, fault),
    }
}

/// The fork that a call names, `-` for the tree itself.
fn fork_number(row: &mut Row<'_>) -> Result<Option<u32>, RowError> {
    if row.takes("- ") {
        Ok(None)
    } else {
        Ok(Some(row.small()?))
    }
}

/// What a tree shows at a path: the time of a directory and the names in it, or the size of a file and its bytes from
/// the second to the fourth.
fn shown<T: Tree>(alloc: Global, tree: &mut T, at: &TreePath) -> Result<Text, TreeFault> {
    match tree.stamp(at)? {
        Stamp::Absent => Ok(Text::from_str(alloc, "absent")?),
        Stamp::Dir(time) => {
            let mut shown = Text::from_string(format!(in alloc; "dir {time}")?)?;
            for name in tree.list(at)?.as_slice() {
                shown.push_str(" ")?;
                shown.push_str(name.as_str())?;
            }
            Ok(shown)
        }
        Stamp::File(size) => {
            let mut bytes = [0u8; 3];
            let count = tree.read(at, 1, &mut bytes)?;
            Ok(Text::from_string(format!(in alloc; "file {size}: {count} {bytes:?}")?)?)
        }
    }
}

fn seen<T: Tree>(alloc: Global, tree: &mut T, at: &TreePath) -> Answered {
    match shown(alloc, tree, at) {
        Ok(text) => Ok(Some(text)),
        Err(fault) => refusal(alloc, fault),
    }
}

/// What stands at a path of a tree after edits.
fn edited_fork(alloc: Global, tree: MemTree, edits: &[Edit], at: &TreePath) -> Answered {
    if !are_below_root(edits) {
        return Err(RowError::Unknown);
    }
    let mut edited = Overlay::open(alloc, tree, edits)?;
    seen(alloc, &mut edited, at)
}

fn edit_more(tree: &mut Overlay<MemTree>, edits: &[Edit]) -> Answered {
    if !are_below_root(edits) {
        return Err(RowError::Unknown);
    }
    tree.edit(edits)?;
    Ok(None)
}

/// What may be handed to another thread.
fn sent<T: Send>(tree: T) -> T
    ensures { result ≡ tree }
{
    tree
}

impl Trees {
    /// A tree with its root alone, without forks, and not open for edits. An `Err` comes for want of memory alone.
    pub fn new(alloc: Global) -> Result<Trees, NoMemory> {
        Ok(Trees {
            tree: MemTree::new(alloc)?,
            forks: Vec::new(alloc),
            edited: None,
        })
    }

    fn file(&mut self, alloc: Global, row: &mut Row<'_>) -> Answered {
        let at = path(alloc, row)?;
        let bytes = row.bytes(alloc)?;
        put_file(&mut self.tree, &at, bytes.as_slice())?;
        Ok(None)
    }

    fn dir(&mut self, alloc: Global, row: &mut Row<'_>) -> Answered {
        let at = path(alloc, row)?;
        put_dir(&mut self.tree, &at, row.number()?)?;
        Ok(None)
    }

    /// `fail - N` or `fail FORK N`: the call of that number fails.
    fn fail(&mut self, row: &mut Row<'_>) -> Answered {
        let who = fork_number(row)?;
        self.tree.fail(who, row.number()?)?;
        Ok(None)
    }

    fn fork(&mut self) -> Answered {
        let fork = self.tree.fork()?;
        self.forks.push(fork)?;
        Ok(None)
    }

    fn absorb(&mut self) -> Answered {
        match self.forks.pop() {
            Some(fork) => {
                self.tree.absorb(fork);
                Ok(None)
            }
            None => Err(RowError::Unknown),
        }
    }

    /// What stands at a path after edits of a fork of the tree.
    fn after(&mut self, alloc: Global, row: &mut Row<'_>) -> Answered {
        let edits = edits(alloc, row)?;
        row.must("see ")?;
        let at = path(alloc, row)?;
        edited_fork(alloc, self.tree.fork()?, edits.as_slice(), &at)
    }

    /// Opens the tree for edits; a new tree is in its place until it is closed.
    fn open(&mut self, alloc: Global) -> Answered {
        let inside = std::mem::replace(&mut self.tree, MemTree::new(alloc)?);
        self.edited = Some(sent(Overlay::open(alloc, inside, &[])?));
        Ok(None)
    }

    fn edit(&mut self, alloc: Global, row: &mut Row<'_>) -> Answered {
        let edits = [edit(alloc, row)?];
        match &mut self.edited {
            Some(tree) => edit_more(tree, &edits),
            None => Err(RowError::Unknown),
        }
    }

    fn close(&mut self) -> Answered {
        match self.edited.take() {
            Some(edited) => {
                self.tree = edited.close();
                Ok(None)
            }
            None => Err(RowError::Unknown),
        }
    }

    fn stamp_in_fork(&mut self, alloc: Global, row: &mut Row<'_>) -> Answered {
        let number = row.small()? as usize;
        let at = path(alloc, row)?;
        match self.forks.get_mut(number) {
            Some(fork) => stamp(alloc, fork, &at),
            None => Err(RowError::Unknown),
        }
    }

    /// The stamp of a path in the tree after edits, where that is open, or in a fork, or in the tree.
    fn stamp(&mut self, alloc: Global, row: &mut Row<'_>) -> Answered {
        if row.takes("fork ") {
            return self.stamp_in_fork(alloc, row);
        }
        let at = path(alloc, row)?;
        match &mut self.edited {
            Some(edited) => stamp(alloc, edited, &at),
            None => stamp(alloc, &mut self.tree, &at),
        }
    }

    fn takes_file(&mut self, alloc: Global, row: &mut Row<'_>) -> Answered {
        let at = path(alloc, row)?;
        yes(alloc, self.tree.takes_file(&at)?)
    }

    fn takes_dir(&mut self, alloc: Global, row: &mut Row<'_>) -> Answered {
        let at = path(alloc, row)?;
        yes(alloc, self.tree.takes_dir(&at)?)
    }

    /// Whether the tree takes a file or a folder there.
    fn takes(&mut self, alloc: Global, row: &mut Row<'_>) -> Answered {
        if row.takes("file ") {
            return self.takes_file(alloc, row);
        }
        row.must("dir ")?;
        self.takes_dir(alloc, row)
    }

    fn see(&mut self, alloc: Global, row: &mut Row<'_>) -> Answered {
        let at = path(alloc, row)?;
        seen(alloc, &mut self.tree, &at)
    }

    /// A call on edits.
    fn on_edits(&mut self, alloc: Global, call: &str, row: &mut Row<'_>) -> Answered {
        match call {
            "after" => self.after(alloc, row),
            "open" => self.open(alloc),
            "edit" => self.edit(alloc, row),
            "close" => self.close(),
            _ => Err(RowError::Unknown),
        }
    }

    /// A call that reads, or on edits.
    fn on_files(&mut self, alloc: Global, call: &str, row: &mut Row<'_>) -> Answered {
        match call {
            "see" => self.see(alloc, row),
            "stamp" => self.stamp(alloc, row),
            "takes" => self.takes(alloc, row),
            _ => self.on_edits(alloc, call, row),
        }
    }

    /// A call of a tree.
    pub fn answer(&mut self, alloc: Global, call: &str, row: &mut Row<'_>) -> Answered {
        match call {
            "file" => self.file(alloc, row),
            "dir" => self.dir(alloc, row),
            "fail" => self.fail(row),
            "fork" => self.fork(),
            "absorb" => self.absorb(),
            _ => self.on_files(alloc, call, row),
        }
    }
}
