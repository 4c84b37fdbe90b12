ghost use Rattle.std.specs.Prelude.{◌≡◌, ◌≤◌, ◌+◌, ◌↔◌, ℕ, [], ◌∷◌, ◌++◌, take, length, IfOk, IfSome, IsErrOf, OnOk, OnErr, MatchResult, Some, IsTrue, false, if◌then◌else◌};
ghost use Rattle.std.specs.Option.{option_copied};
ghost use Rattle.tree_files.specs.Count.{Rose, raised};
ghost use Rattle.tree_files.specs.Files.{IsRead, IsListing, node_at, name_below, stamp_of, bytes_of, IsFileAt, is_dir, is_file, IsDirAt};
ghost use Rattle.tree_files.specs.Edits.{HasParent, placed, prefixes, with_dirs, with_dir_at, HasDirs, takes_file, takes_dir, is_way_free};
ghost use Rattle.tree_files.specs.MemFiles.{IsTreeMap, mem_files, root_alone, is_due, is_next_due, after_call, handed_to, of_fork, after_fork, fork_due};
ghost use Rattle.std.specs.FinMap.{insert};
ghost use Rattle.tree_files.specs.declared.tree.Node.TheVariants.{Dir as dir, File as file};

use crate::nodes::Nodes;
use crate::tree::{Grove, Node, Stamp, Tree, TreeFault};
use base_types::{Exact, NoMemory, Same, Seq, Text, Texts, TreePath};
use std::alloc::{AllocError, Global};
use std::collections::BTreeMap;

/// A tree in memory, which tells its files.
#[derive(Drop)]
pub struct MemTree {
    nodes: Nodes,
    faults: u64,
    lists: u64,
    due: Due,
    ghost is_tree: { IsTreeMap nodes },
}

/// The calls that are to fail.
#[derive(Drop)]
struct Due {
    /// Whose call, where None is this tree and a number one of its forks, and which, from 1.
    named: Seq<(Option<u32>, u64)>,
    /// How many calls were made of this tree.
    calls: u64,
    /// How many forks were made of it.
    forks: u64,
}

impl MemTree {
    /// The root alone, with time 0.
    pub fn new(alloc: Global) -> Result<MemTree, NoMemory>
        ensures files { IfOk result (λ t. ⟦<MemTree as Tree>⟧.files t ≡ Some root_alone) }
        ensures faults { IfOk result (λ t. ⟦<MemTree as Tree>⟧.faults t ≡ 0) }
        ensures lists { IfOk result (λ t. ⟦<MemTree as Tree>⟧.lists t ≡ 0) }
        ensures named { IfOk result (λ t. t.due.named ≡ []) }
        ensures calls { IfOk result (λ t. t.due.calls ≡ 0) }
        ensures forks { IfOk result (λ t. t.due.forks ≡ 0) }
    {
        let mut root = BTreeMap::new(alloc);
        root.insert(TreePath::root(alloc), Node::Dir(0))?;
        let nodes = Nodes::of(alloc, root)?;
        Ok(MemTree {
            nodes,
            faults: 0,
            lists: 0,
            due: Due {
                named: Seq::new(alloc),
                calls: 0,
                forks: 0,
            },
        })
    }

    /// Whether a file may be put at a path: no proper prefix is a file, and no directory is there.
    pub fn takes_file(&self, path: &TreePath) -> Result<bool, NoMemory>
        ensures { IfOk result (λ b. b ≡ takes_file (mem_files self.now.nodes) path.now) }
    {
        Ok(is_way_free(&self.nodes, path)? && !is_dir(&self.nodes, path))
    }

    /// Whether a directory may be put at a path: neither a proper prefix nor the path is a file.
    pub fn takes_dir(&self, path: &TreePath) -> Result<bool, NoMemory>
        ensures { IfOk result (λ b. b ≡ takes_dir (mem_files self.now.nodes) path.now) }
    {
        Ok(is_way_free(&self.nodes, path)? && !is_file(&self.nodes, path))
    }

    /// Puts a directory, and the missing ones on the way to it with time 0. Where memory is wanted
    /// some of those may stand.
    pub fn put_dir(&mut self, path: &TreePath, time: u64) -> Result<(), NoMemory>
        requires { IsTrue (takes_dir (mem_files self.old.nodes) path.now) }
        ensures ok { OnOk result (mem_files self.new.nodes ≡ placed (mem_files self.old.nodes) path.now (dir time)) }
        ensures err { OnErr result (HasDirs (mem_files self.old.nodes) path.now (mem_files self.new.nodes)) }
        ensures faults { self.new.faults ≡ self.old.faults }
        ensures lists { self.new.lists ≡ self.old.lists }
        ensures due { self.new.due ≡ self.old.due }
    {
        place_dir(&mut self.nodes, path, time)
    }

    /// Puts a file, and the missing directories on the way to it with time 0. Where memory is
    /// wanted some of those may stand.
    pub fn put_file(&mut self, path: &TreePath, bytes: &[u8]) -> Result<(), NoMemory>
        requires { IsTrue (takes_file (mem_files self.old.nodes) path.now) }
        ensures ok { OnOk result (mem_files self.new.nodes
            ≡ placed (mem_files self.old.nodes) path.now (file bytes.now)) }
        ensures err { OnErr result (HasDirs (mem_files self.old.nodes) path.now (mem_files self.new.nodes)) }
        ensures faults { self.new.faults ≡ self.old.faults }
        ensures lists { self.new.lists ≡ self.old.lists }
        ensures due { self.new.due ≡ self.old.due }
    {
        let bytes = Vec::from_slice(self.due.named.alloc(), bytes)?;
        place_file(&mut self.nodes, path, Seq::from_vec(bytes))
    }

    /// Lets the k-th call fail, from 1 and over all three kinds of call: of this tree where `who` is
    /// None, and of the fork of that number, from 0, where it is a number.
    pub fn fail(&mut self, who: Option<u32>, k: u64) -> Result<(), NoMemory>
        ensures ok { OnOk result (self.new.due.named ≡ self.old.due.named ++ (who, k) ∷ []) }
        ensures err { OnErr result (self.new.due.named ≡ self.old.due.named) }
        ensures calls { self.new.due.calls ≡ self.old.due.calls }
        ensures forks { self.new.due.forks ≡ self.old.due.forks }
        ensures nodes { self.new.nodes ≡ self.old.nodes }
        ensures faults { self.new.faults ≡ self.old.faults }
        ensures lists { self.new.lists ≡ self.old.lists }
    {
        self.due.named.push((who, k))
    }

    /// Counts a call, and says whether it is to fail.
    fn fails(&mut self) -> bool
        ensures result { result ≡ is_next_due self.old.due }
        ensures grow { self.old.faults ≤ self.new.faults }
        ensures faults { self.new.faults ≡ if result then raised self.old.faults 1 else self.old.faults }
        ensures nodes { self.new.nodes ≡ self.old.nodes }
        ensures lists { self.new.lists ≡ self.old.lists }
        ensures due { self.new.due ≡ after_call self.old.due }
    {
        self.due.calls = self.due.calls.saturating_add(1);
        if is_due(self.due.named.as_slice(), self.due.calls) {
            self.faults = self.faults.saturating_add(1);
            return true;
        }
        false
    }

    fn node(&self, path: &TreePath) -> Option<&Node>
        ensures { option_copied result ≡ node_at (mem_files self.now.nodes) path.now }
    {
        node_in(&self.nodes, path)
    }
}

impl Tree for MemTree {
    ghost files = { λ t. Some (mem_files t.nodes) };

    ghost faults = { λ t. t.faults };

    ghost lists = { λ t. t.lists };

    fn stamp(&mut self, path: &TreePath) -> Result<Stamp, TreeFault>
        ensures told { IfOk result (λ s. s ≡ stamp_of (node_at (mem_files self.old.nodes) path.now)) }
        ensures exact { IsErrOf result TreeFault.Failed ↔ IsTrue (is_next_due self.old.due) }
        ensures failed { IsErrOf result TreeFault.Failed → Rose self.old.faults self.new.faults }
        ensures is_tree { IsTreeMap self.old.nodes }
        ensures files_stay { mem_files self.new.nodes ≡ mem_files self.old.nodes }
        ensures faults_grow { self.old.faults ≤ self.new.faults }
        ensures counted { self.new.faults
            ≡ if is_next_due self.old.due then raised self.old.faults 1 else self.old.faults }
        ensures due { self.new.due ≡ after_call self.old.due }
        ensures lists_stay { self.new.lists ≡ self.old.lists }
    {
        if self.fails() {
            return Err(TreeFault::Failed);
        }
        Ok(match self.node(path) {
            None => Stamp::Absent,
            Some(Node::File(bytes)) => Stamp::File(bytes.len() as u64),
            Some(Node::Dir(time)) => Stamp::Dir(*time),
        })
    }

    fn list(&mut self, dir: &TreePath) -> Result<Texts, TreeFault>
        ensures told { IfOk result (IsListing (mem_files self.old.nodes) dir.now) }
        ensures exact { IsErrOf result TreeFault.Failed ↔ IsTrue (is_next_due self.old.due) }
        ensures failed { IsErrOf result TreeFault.Failed → Rose self.old.faults self.new.faults }
        ensures is_tree { IsTreeMap self.old.nodes }
        ensures files_stay { mem_files self.new.nodes ≡ mem_files self.old.nodes }
        ensures faults_grow { self.old.faults ≤ self.new.faults }
        ensures counted { self.new.faults
            ≡ if is_next_due self.old.due then raised self.old.faults 1 else self.old.faults }
        ensures due { self.new.due ≡ after_call self.old.due }
        ensures listed { OnOk result (self.new.lists ≡ raised self.old.lists 1) }
        ensures not_listed { OnErr result (self.new.lists ≡ self.old.lists) }
        ensures lists_grow { self.old.lists ≤ self.new.lists }
        ensures lists_bound { self.new.lists ≤ self.old.lists + 1 }
    {
        if self.fails() {
            return Err(TreeFault::Failed);
        }
        let names = names_in(&self.nodes, dir)?;
        self.lists = self.lists.saturating_add(1);
        Ok(names)
    }

    fn read(&mut self, file: &TreePath, at: u64, into: &mut [u8]) -> Result<usize, TreeFault>
        requires { IsFileAt (mem_files self.old.nodes) file.now }
        ensures told { IfOk result (IsRead (bytes_of (node_at (mem_files self.old.nodes) file.now))
            at into.old into.new) }
        ensures count { IfOk result (λ n. n ≤ length into.old) }
        ensures exact { IsErrOf result TreeFault.Failed ↔ IsTrue (is_next_due self.old.due) }
        ensures failed { IsErrOf result TreeFault.Failed → Rose self.old.faults self.new.faults }
        ensures is_tree { IsTreeMap self.old.nodes }
        ensures files_stay { mem_files self.new.nodes ≡ mem_files self.old.nodes }
        ensures faults_grow { self.old.faults ≤ self.new.faults }
        ensures counted { self.new.faults
            ≡ if is_next_due self.old.due then raised self.old.faults 1 else self.old.faults }
        ensures due { self.new.due ≡ after_call self.old.due }
        ensures lists_stay { self.new.lists ≡ self.old.lists }
    {
        if self.fails() {
            return Err(TreeFault::Failed);
        }
        match self.node(file) {
            Some(Node::File(bytes)) => Ok(copy_from(bytes.as_slice(), at, into)),
            _ => Ok(0),
        }
    }
}

fn is_due(named: &[(Option<u32>, u64)], call: u64) -> bool
    ensures { result ≡ is_due named.now call }
{
    named
        .iter()
        .any(|entry| entry.0.is_none() && entry.1 == call)
}

/// Copies what stands from `at` on, as much as there is room for.
fn copy_from(bytes: &[u8], at: u64, into: &mut [u8]) -> usize
    ensures copied { IsRead bytes.now at into.old into.new result }
    ensures count { result ≤ length into.old }
{
    if at >= bytes.len() as u64 {
        return 0;
    }
    let rest = &bytes[at as usize..];
    let n = rest.len().min(into.len());
    into[..n].copy_from_slice(&rest[..n]);
    n
}

impl Grove for MemTree {
    fn fork(&mut self) -> Result<MemTree, NoMemory>
        ensures files { IfOk result (λ child. mem_files child.nodes ≡ mem_files self.old.nodes) }
        ensures faults { IfOk result (λ child. child.faults ≡ 0) }
        ensures lists { IfOk result (λ child. child.lists ≡ 0) }
        ensures due { IfOk result (λ child. child.due ≡ fork_due self.old.due) }
        ensures files_stay { mem_files self.new.nodes ≡ mem_files self.old.nodes }
        ensures faults_stay { self.new.faults ≡ self.old.faults }
        ensures lists_stay { self.new.lists ≡ self.old.lists }
        ensures due_stays { MatchResult result (λ _. self.new.due ≡ after_fork self.old.due)
            (λ _. self.new.due ≡ self.old.due) }
    {
        let nodes = self.nodes.share()?;
        let named = Seq::from_vec(of_fork(&self.due.named, self.due.forks)?);
        self.due.forks = self.due.forks.saturating_add(1);
        Ok(MemTree {
            nodes,
            faults: 0,
            lists: 0,
            due: Due {
                named,
                calls: 0,
                forks: 0,
            },
        })
    }

    fn absorb(&mut self, child: MemTree) {
        self.faults = self.faults.saturating_add(child.faults);
        self.lists = self.lists.saturating_add(child.lists);
    }
}

/// What is to fail on a fork.
fn of_fork(
    named: &Seq<(Option<u32>, u64)>,
    fork: u64,
) -> Result<Vec<(Option<u32>, u64)>, AllocError>
    ensures { IfOk result (λ v. v.items ≡ of_fork fork named.now) }
{
    let named_all = named.as_slice().iter();
    named_all
        .filter_map(|entry| handed_to(fork, *entry))
        .collect(named.alloc())
}

/// An entry for a fork, as the fork's own.
fn handed_to(fork: u64, entry: (Option<u32>, u64)) -> Option<(Option<u32>, u64)>
    ensures { result ≡ handed_to fork entry }
{
    match entry.0 {
        None => None,
        Some(who) => {
            if who as u64 == fork {
                Some((None, entry.1))
            } else {
                None
            }
        }
    }
}

/// The names that stand in a directory.
fn names_in(nodes: &Nodes, dir: &TreePath) -> Result<Texts, NoMemory>
    ensures { IfOk result (IsListing (mem_files nodes.now) dir.now) }
{
    let mut names = Texts::new(dir.parts().alloc());
    for path in nodes.map().keys() {
        if let Some(name) = name_in(dir, path) {
            names.push(name.copy()?)?;
        }
    }
    Ok(names)
}

/// The last part of a path that stands in the directory.
#[tactic(auto, using(crate::proofs::NamesBelow::below))]
fn name_in<'a>(dir: &TreePath, path: &'a TreePath) -> Option<&'a Text>
    ensures { option_copied result ≡ name_below dir.now path.now }
{
    match path.parts().as_slice().split_last() {
        None => None,
        Some((name, above)) => {
            if dir.parts().as_slice() == above {
                Some(name)
            } else {
                None
            }
        }
    }
}

/// Puts a directory and those on the way to it.
fn place_dir(nodes: &mut Nodes, path: &TreePath, time: u64) -> Result<(), NoMemory>
    requires { IsTreeMap nodes.old }
    ensures tree { IsTreeMap nodes.new }
    ensures ok { OnOk result (mem_files nodes.new ≡ placed (mem_files nodes.old) path.now (dir time)) }
    ensures err { OnErr result (HasDirs (mem_files nodes.old) path.now (mem_files nodes.new)) }
{
    make_dirs(nodes, path)?;
    put_node(nodes, path, Node::Dir(time))
}

/// Puts a file and the directories on the way to it.
fn place_file(nodes: &mut Nodes, path: &TreePath, bytes: Seq<u8>) -> Result<(), NoMemory>
    requires tree { IsTreeMap nodes.old }
    requires no_dir { is_dir (node_at (mem_files nodes.old) path.now) ≡ false }
    ensures tree { IsTreeMap nodes.new }
    ensures ok { OnOk result (mem_files nodes.new ≡ placed (mem_files nodes.old) path.now (file bytes)) }
    ensures err { OnErr result (HasDirs (mem_files nodes.old) path.now (mem_files nodes.new)) }
{
    make_dirs(nodes, path)?;
    put_node(nodes, path, Node::File(bytes))
}

/// Makes each proper prefix of a path a directory.
fn make_dirs(nodes: &mut Nodes, path: &TreePath) -> Result<(), NoMemory>
    requires { IsTreeMap nodes.old }
    ensures tree { IsTreeMap nodes.new }
    ensures ok { OnOk result (mem_files nodes.new ≡ with_dirs (mem_files nodes.old) (prefixes path.now)) }
    ensures parent { OnOk result (HasParent (mem_files nodes.new) path.now) }
    ensures err { OnErr result (HasDirs (mem_files nodes.old) path.now (mem_files nodes.new)) }
{
    for n in 0..path.parts().len() {
        make_dir(nodes, path, n)?;
    }
    Ok(())
}

/// Makes the first n parts of a path a directory.
fn make_dir(nodes: &mut Nodes, path: &TreePath, n: usize) -> Result<(), NoMemory>
    requires tree { IsTreeMap nodes.old }
    requires within { n ≤ length path.now }
    requires parent { HasParent (mem_files nodes.old) (take n path.now) }
    ensures tree { IsTreeMap nodes.new }
    ensures ok { OnOk result (mem_files nodes.new ≡ with_dir_at (mem_files nodes.old) (take n path.now)) }
    ensures made { OnOk result (IsDirAt (mem_files nodes.new) (take n path.now)) }
    ensures err { OnErr result (mem_files nodes.new ≡ mem_files nodes.old) }
{
    let front = path.front(n)?;
    if is_dir(nodes, &front) {
        return Ok(());
    }
    put_node(nodes, &front, Node::Dir(0))
}

/// Puts a node at a path whose parent is a directory, and a file where no directory is. An `Err`
/// changes nothing.
fn put_node(nodes: &mut Nodes, path: &TreePath, node: Node) -> Result<(), NoMemory>
    requires tree { IsTreeMap nodes.old }
    requires parent { HasParent (mem_files nodes.old) path.now }
    requires keeps_dirs { is_dir (Some node) ≡ false → is_dir (node_at (mem_files nodes.old) path.now) ≡ false }
    ensures tree { IsTreeMap nodes.new }
    ensures ok { OnOk result (mem_files nodes.new ≡ insert (mem_files nodes.old) path.now node) }
    ensures err { OnErr result (mem_files nodes.new ≡ mem_files nodes.old) }
{
    nodes.put(path.copy()?, node)?;
    Ok(())
}

/// Whether no proper prefix of a path is a file.
fn is_way_free(nodes: &Nodes, path: &TreePath) -> Result<bool, NoMemory>
    ensures { IfOk result (λ b. b ≡ is_way_free (mem_files nodes.now) path.now) }
{
    for n in 0..path.parts().len() {
        if is_file(nodes, &path.front(n)?) {
            return Ok(false);
        }
    }
    Ok(true)
}

fn is_dir(nodes: &Nodes, path: &TreePath) -> bool
    ensures { result ≡ is_dir (node_at (mem_files nodes.now) path.now) }
{
    matches!(node_in(nodes, path), Some(Node::Dir(_)))
}

fn is_file(nodes: &Nodes, path: &TreePath) -> bool
    ensures { result ≡ is_file (node_at (mem_files nodes.now) path.now) }
{
    matches!(node_in(nodes, path), Some(Node::File(_)))
}

fn node_in<'a>(nodes: &'a Nodes, path: &TreePath) -> Option<&'a Node>
    ensures { option_copied result ≡ node_at (mem_files nodes.now) path.now }
{
    nodes.map().get(path)
}
