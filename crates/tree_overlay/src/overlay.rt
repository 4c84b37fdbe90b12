//! A tree after edits.
ghost use Rattle.std.specs.Prelude.{◌≡◌, ◌≤◌, ◌+◌, ℕ, List, [], ◌∷◌, ◌++◌, length, is_some, IfOk, IfSome, IsErrOf, OnOk, OnErr, Option};
ghost use Rattle.std.specs.Option.{ForSome};
ghost use Rattle.std.specs.List.{list_all};
ghost use Rattle.tree_files.specs.Count.{Rose, raised};
ghost use Rattle.tree_files.specs.Files.{IsTree, IsDirAt, IsFileAt, IsListing, IsRead, node_at, has_name, stamp_of, bytes_of};
ghost use Rattle.tree_overlay.specs.Kinds.{is_below_root, IsBelowRoot, IsNoDir, IsNoFile};
ghost use Rattle.tree_overlay.specs.Told.{edited_told};

use crate::fate::{bytes_put, fate_of, is_no_dir, stamp_by};
use crate::names::{merged, path_of};
use base_types::{Exact, NoMemory, Seq, Texts, TreePath};
use std::alloc::Global;
use tree_files::{Edit, Stamp, Tree, TreeFault};

/// A tree whose files are those of another one after edits, made one after another.
#[derive(Drop)]
pub struct Overlay<T> {
    tree: T,
    edits: Seq<Edit>,
    /// How many calls of `list` found no directory in the tree inside, which stops at the greatest
    /// u64.
    more: u64,
    ghost below_root: { IsBelowRoot edits },
}

impl<T: Tree> Overlay<T> {
    /// The tree after edits, each of which has a path of at least one part. Its count of lists is
    /// that of the tree inside, which stops at the greatest u64.
    pub fn open(alloc: Global, tree: T, edits: &[Edit]) -> Result<Overlay<T>, NoMemory>
        requires { IsBelowRoot edits.now }
        ensures files { IfOk result (λ o. ⟦<Overlay<T> as Tree>⟧.files o ≡ edited_told edits.now (T.files tree)) }
        ensures faults { IfOk result (λ o. ⟦<Overlay<T> as Tree>⟧.faults o ≡ T.faults tree) }
        ensures lists { IfOk result (λ o. ⟦<Overlay<T> as Tree>⟧.lists o ≡ raised (T.lists tree) 0) }
        ensures tree { IfOk result (λ o. o.tree ≡ tree) }
    {
        let none = Seq::new(alloc);
        let edits = joined(&none, edits)?;
        Ok(Overlay {
            tree,
            edits,
            more: 0,
        })
    }

    /// Further edits, each of which has a path of at least one part. An `Err` changes nothing.
    pub fn edit(&mut self, edits: &[Edit]) -> Result<(), NoMemory>
        requires { IsBelowRoot edits.now }
        ensures files { OnOk result (⟦<Overlay<T> as Tree>⟧.files self.new
            ≡ edited_told edits.now (⟦<Overlay<T> as Tree>⟧.files self.old)) }
        ensures edits { OnOk result (self.new.edits ≡ self.old.edits ++ edits.now) }
        ensures err { OnErr result (self.new.edits ≡ self.old.edits) }
        ensures tree { self.new.tree ≡ self.old.tree }
        ensures more { self.new.more ≡ self.old.more }
    {
        let all = joined(&self.edits, edits)?;
        self.edits = all;
        Ok(())
    }

    /// The tree inside, whose faults are those of the overlay, and whose lists are at most those.
    pub fn close(self) -> T
        ensures tree { result ≡ self.tree }
        ensures faults { T.faults result ≡ ⟦<Overlay<T> as Tree>⟧.faults self }
        ensures lists { raised (T.lists result) 0 ≤ ⟦<Overlay<T> as Tree>⟧.lists self }
    {
        self.tree
    }

    /// The names in a directory of the tree inside, and none where it has no directory there.
    fn names_inside(&mut self, dir: &TreePath) -> Result<Texts, TreeFault>
        ensures told { IfSome (T.files self.old.tree) (λ f. IfOk result (λ names. (name : List ℕ)
            → has_name names name ≡ is_some (node_at f (dir.now ++ name ∷ [])))) }
        ensures failed { IsErrOf result TreeFault.Failed → Rose (T.faults self.old.tree) (T.faults self.new.tree) }
        ensures faults_stay { OnOk result (T.faults self.new.tree ≡ T.faults self.old.tree) }
        ensures is_tree { IfSome (T.files self.old.tree) IsTree }
        ensures files_stay { T.files self.new.tree ≡ T.files self.old.tree }
        ensures faults_grow { T.faults self.old.tree ≤ T.faults self.new.tree }
        ensures listed { OnOk result (raised (T.lists self.new.tree) self.new.more
            ≡ raised (raised (T.lists self.old.tree) self.old.more) 1) }
        ensures lists_grow { raised (T.lists self.old.tree) self.old.more ≤ raised
            (T.lists self.new.tree) self.new.more }
        ensures lists_bound { raised (T.lists self.new.tree) self.new.more ≤ raised
            (T.lists self.old.tree) self.old.more + 1 }
        ensures not_listed { IsErrOf result TreeFault.Failed
            → raised (T.lists self.new.tree) self.new.more ≡ raised (T.lists self.old.tree) self.old.more }
        ensures edits_stay { self.new.edits ≡ self.old.edits }
    {
        match self.tree.stamp(dir)? {
            Stamp::Dir(_) => self.tree.list(dir),
            _ => {
                self.more = self.more.saturating_add(1);
                Ok(Texts::new(dir.parts().alloc()))
            }
        }
    }
}

impl<T: Tree> Tree for Overlay<T> {
    ghost files = { λ o. edited_told o.edits (T.files o.tree) };

    ghost faults = { λ o. T.faults o.tree };

    ghost lists = { λ o. raised (T.lists o.tree) o.more };

    fn stamp(&mut self, path: &TreePath) -> Result<Stamp, TreeFault> {
        let stamp = self.tree.stamp(path)?;
        Ok(stamp_by(fate_of(&self.edits, path.parts()), stamp))
    }

    fn list(&mut self, dir: &TreePath) -> Result<Texts, TreeFault>
        requires { ForSome (edited_told self.old.edits (T.files self.old.tree)) (λ f. IsDirAt f dir.now) }
        ensures told { IfSome (edited_told self.old.edits (T.files self.old.tree))
            (λ f. IfOk result (IsListing f dir.now)) }
        ensures wrong_kind { IsNoDir self.old.edits dir.now → IfOk result (λ names. names ≡ []) }
        ensures failed { IsErrOf result TreeFault.Failed → Rose (T.faults self.old.tree) (T.faults self.new.tree) }
        ensures faults_stay { OnOk result (T.faults self.new.tree ≡ T.faults self.old.tree) }
        ensures is_tree { IfSome (edited_told self.old.edits (T.files self.old.tree)) IsTree }
        ensures files_stay { edited_told self.new.edits (T.files self.new.tree)
            ≡ edited_told self.old.edits (T.files self.old.tree) }
        ensures faults_grow { T.faults self.old.tree ≤ T.faults self.new.tree }
        ensures listed { OnOk result (raised (T.lists self.new.tree) self.new.more
            ≡ raised (raised (T.lists self.old.tree) self.old.more) 1) }
        ensures lists_grow { raised (T.lists self.old.tree) self.old.more ≤ raised
            (T.lists self.new.tree) self.new.more }
        ensures lists_bound { raised (T.lists self.new.tree) self.new.more ≤ raised
            (T.lists self.old.tree) self.old.more + 1 }
        ensures not_listed { IsErrOf result TreeFault.Failed
            → raised (T.lists self.new.tree) self.new.more ≡ raised (T.lists self.old.tree) self.old.more }
    {
        let inner = self.names_inside(dir)?;
        if is_no_dir(fate_of(&self.edits, dir.parts())) {
            return Ok(Texts::new(dir.parts().alloc()));
        }
        Ok(merged(&self.edits, dir, &inner)?)
    }

    fn read(&mut self, file: &TreePath, at: u64, into: &mut [u8]) -> Result<usize, TreeFault>
        requires { ForSome (edited_told self.old.edits (T.files self.old.tree)) (λ f. IsFileAt f file.now) }
        ensures told { IfSome (edited_told self.old.edits (T.files self.old.tree))
            (λ f. IfOk result (IsRead (bytes_of (node_at f file.now)) at into.old into.new)) }
        ensures count { IfOk result (λ n. n ≤ length into.old) }
        ensures wrong_kind { IsNoFile self.old.edits file.now → IfOk result (λ n. n ≡ 0) }
        ensures failed { IsErrOf result TreeFault.Failed → Rose (T.faults self.old.tree) (T.faults self.new.tree) }
        ensures faults_stay { OnOk result (T.faults self.new.tree ≡ T.faults self.old.tree) }
        ensures is_tree { IfSome (edited_told self.old.edits (T.files self.old.tree)) IsTree }
        ensures files_stay { edited_told self.new.edits (T.files self.new.tree)
            ≡ edited_told self.old.edits (T.files self.old.tree) }
        ensures faults_grow { T.faults self.old.tree ≤ T.faults self.new.tree }
        ensures lists_stay { raised (T.lists self.new.tree) self.new.more
            ≡ raised (T.lists self.old.tree) self.old.more }
    {
        match bytes_put(fate_of(&self.edits, file.parts())) {
            None => self.tree.read(file, at, into),
            Some(bytes) => {
                // Only a call shows that the files inside are a tree.
                self.tree.stamp(file)?;
                Ok(copy_from(bytes, at, into))
            }
        }
    }
}

/// Whether each edit has a path of at least one part, as `Overlay::open` and `Overlay::edit` ask.
pub fn are_below_root(edits: &[Edit]) -> bool
    ensures { result ≡ list_all is_below_root edits.now }
{
    edits.iter().all(|edit| is_below_root(edit))
}

fn is_below_root(edit: &Edit) -> bool
    ensures { result ≡ is_below_root edit.now }
{
    !path_of(edit).parts().is_empty()
}

/// Edits with others behind them.
fn joined(edits: &Seq<Edit>, more: &[Edit]) -> Result<Seq<Edit>, NoMemory>
    ensures { IfOk result (λ all. all ≡ edits.now ++ more.now) }
{
    let mut all = edits.copy()?;
    for edit in more {
        all.push(edit.copy()?)?;
    }
    Ok(all)
}

/// Copies what stands from `at` on, as much as there is room for.
fn copy_from(bytes: &[u8], at: u64, into: &mut [u8]) -> usize
    ensures copied { IsRead bytes.now at into.old into.new result }
    ensures count { result ≤ length into.old }
{
    if at >= bytes.len() as u64 {
        return 0;
    }
    let rest = &bytes[at as usize..];
    let n = rest.len().min(into.len());
    into[..n].copy_from_slice(&rest[..n]);
    n
}
