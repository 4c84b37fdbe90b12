ghost use Rattle.std.specs.Prelude.{◌≡◌, ◌≤◌, ◌+◌, ℕ, length, IfOk, IfSome, IsErrOf, OnOk, Option};
ghost use Rattle.std.specs.Option.{ForSome};
ghost use Rattle.tree_files.specs.Count.{Rose, raised};
ghost use Rattle.tree_files.specs.Files.{Files, IsTree, node_at, stamp_of, bytes_of, IsDirAt, IsFileAt, IsListing, IsRead};

use base_types::{NoMemory, Seq, Texts, TreePath};
use std::alloc::{AllocError, AllocFailed};
use thiserror::Error;

/// What stands at a path of a tree.
#[derive(Clone, Drop)]
pub enum Node {
    File(Seq<u8>),
    /// Its modification time, in whole seconds.
    Dir(u64),
}

/// What can be known of a path without reading there.
#[derive(Clone, Copy, Debug, PartialEq, Eq)]
pub enum Stamp {
    Absent,
    /// Its size in bytes.
    File(u64),
    /// Its modification time, in whole seconds.
    Dir(u64),
}

/// Why a call of a tree was refused.
#[derive(Clone, Copy, Debug, PartialEq, Eq, Error)]
pub enum TreeFault {
    /// The tree could not do it, and has counted that.
    #[error("the tree failed")]
    Failed,
    #[error("out of memory")]
    NoMemory,
}

impl From<NoMemory> for TreeFault {
    ghost use Rattle.tree_files.specs.declared.tree.TreeFault.TheVariants as fault;

    ghost from_gives = { λ _ e. e ≡ fault.NoMemory };

    fn from(_e: NoMemory) -> TreeFault {
        TreeFault::NoMemory
    }
}

impl From<AllocError> for TreeFault {
    ghost use Rattle.tree_files.specs.declared.tree.TreeFault.TheVariants as fault;

    ghost from_gives = { λ _ e. e ≡ fault.NoMemory };

    fn from(_e: AllocError) -> TreeFault {
        TreeFault::NoMemory
    }
}

impl<T: Drop> From<AllocFailed<T>> for TreeFault {
    ghost use Rattle.tree_files.specs.declared.tree.TreeFault.TheVariants as fault;

    ghost from_gives = { λ _ e. e ≡ fault.NoMemory };

    fn from(_e: AllocFailed<T>) -> TreeFault {
        TreeFault::NoMemory
    }
}

/// A tree of files, as the program sees it. Its calls leave the files as they are.
pub trait Tree: Sized + Drop {
    // The files, where the tree tells them.
    ghost files: { Self → Option Files };
    // How many calls failed: a count that never falls, and stops at the greatest u64. A call that
    // succeeds leaves it as it was.
    ghost faults: { Self → ℕ };
    // How many calls of `list` answered names, and some of those that wanted memory; it stops at the
    // greatest u64. Nothing else raises it.
    ghost lists: { Self → ℕ };

    /// What stands at a path. That nothing stands there is no fault.
    fn stamp(&mut self, path: &TreePath) -> Result<Stamp, TreeFault>
        ensures told { IfSome (files self.old) (λ f. IfOk result (λ s. s ≡ stamp_of (node_at f path.now))) }
        ensures failed { IsErrOf result TreeFault.Failed → Rose (faults self.old) (faults self.new) }
        ensures faults_stay { OnOk result (faults self.new ≡ faults self.old) }
        ensures is_tree { IfSome (files self.old) IsTree }
        ensures files_stay { files self.new ≡ files self.old }
        ensures faults_grow { faults self.old ≤ faults self.new }
        ensures lists_stay { lists self.new ≡ lists self.old };

    /// The names in a directory, in the order of their bytes, each once.
    fn list(&mut self, dir: &TreePath) -> Result<Texts, TreeFault>
        requires { ForSome (files self.old) (λ f. IsDirAt f dir.now) }
        ensures told { IfSome (files self.old) (λ f. IfOk result (IsListing f dir.now)) }
        ensures failed { IsErrOf result TreeFault.Failed → Rose (faults self.old) (faults self.new) }
        ensures faults_stay { OnOk result (faults self.new ≡ faults self.old) }
        ensures is_tree { IfSome (files self.old) IsTree }
        ensures files_stay { files self.new ≡ files self.old }
        ensures faults_grow { faults self.old ≤ faults self.new }
        ensures listed { OnOk result (lists self.new ≡ raised (lists self.old) 1) }
        ensures lists_grow { lists self.old ≤ lists self.new }
        ensures lists_bound { lists self.new ≤ lists self.old + 1 }
        ensures not_listed { IsErrOf result TreeFault.Failed → lists self.new ≡ lists self.old };

    /// Puts bytes of a file, from the place `at` on, to the front of a buffer, and answers how many.
    /// That is none where the file has none there.
    fn read(&mut self, file: &TreePath, at: u64, into: &mut [u8]) -> Result<usize, TreeFault>
        requires { ForSome (files self.old) (λ f. IsFileAt f file.now) }
        ensures told { IfSome (files self.old) (λ f. IfOk result
            (IsRead (bytes_of (node_at f file.now)) at into.old into.new)) }
        ensures count { IfOk result (λ n. n ≤ length into.old) }
        ensures failed { IsErrOf result TreeFault.Failed → Rose (faults self.old) (faults self.new) }
        ensures faults_stay { OnOk result (faults self.new ≡ faults self.old) }
        ensures is_tree { IfSome (files self.old) IsTree }
        ensures files_stay { files self.new ≡ files self.old }
        ensures faults_grow { faults self.old ≤ faults self.new }
        ensures lists_stay { lists self.new ≡ lists self.old };
}

/// A tree from which others with the same files can be made.
pub trait Grove: Tree + Send {
    /// A tree with the same files, whose two counts are 0.
    fn fork(&mut self) -> Result<Self, NoMemory>
        ensures files { IfOk result (λ child. Self.files child ≡ Self.files self.old) }
        ensures faults { IfOk result (λ child. Self.faults child ≡ 0) }
        ensures lists { IfOk result (λ child. Self.lists child ≡ 0) }
        ensures files_stay { Self.files self.new ≡ Self.files self.old }
        ensures faults_stay { Self.faults self.new ≡ Self.faults self.old }
        ensures lists_stay { Self.lists self.new ≡ Self.lists self.old };

    /// Adds the two counts of a fork to those of this tree.
    fn absorb(&mut self, child: Self)
        ensures files_stay { Self.files self.new ≡ Self.files self.old }
        ensures faults { Self.faults self.new ≡ raised (Self.faults self.old) (Self.faults child) }
        ensures faults_grow { Self.faults self.old ≤ Self.faults self.new }
        ensures lists { Self.lists self.new ≡ raised (Self.lists self.old) (Self.lists child) };
}
