//! What edits make of one path.
ghost use Rattle.std.specs.Prelude.{◌≡◌, Option, MatchOption};
ghost use Rattle.tree_files.specs.Edits.{is_within};
ghost use Rattle.tree_files.specs.Files.{stamp_of, bytes_of};
ghost use Rattle.tree_files.specs.declared.tree.Node.{Node};
ghost use Rattle.tree_files.specs.declared.edit.Edit.TheVariants as edits;
ghost use Rattle.tree_overlay.specs.Fates as fates;
ghost use Rattle.tree_overlay.specs.Fates.{node_by};
ghost use Rattle.tree_overlay.specs.Names.{is_put, is_seen, is_no_dir};
ghost use Rattle.tree_overlay.specs.Seen.{fate_in};

use base_types::{Seq, Texts};
use tree_files::{Edit, Stamp};

/// What edits make of a path.
#[derive(Clone, Copy)]
pub enum Seen<'a> {
    /// What stands there in the tree inside.
    Kept,
    /// A directory: that of the tree inside, where it has one, and else one with time 0.
    Way,
    /// A file with these bytes.
    File(&'a Seq<u8>),
    /// A directory with this time.
    Dir(u64),
    /// Nothing.
    Gone,
}

/// Whether a path is another one or lies below it.
#[tactic(auto, using(crate::proofs::Within::within_taken))]
pub fn is_within(above: &Texts, path: &Texts) -> bool
    ensures { result ≡ is_within above.now path.now }
{
    path.as_slice().starts_with(above.as_slice())
}

/// After something was put below the path.
fn way(seen: Seen<'_>) -> Seen<'_>
    ensures { fate_in result ≡ fates.way (fate_in seen.entry) }
{
    match seen {
        Seen::Kept => Seen::Way,
        Seen::Way => Seen::Way,
        Seen::File(_) => Seen::Dir(0),
        Seen::Dir(time) => Seen::Dir(time),
        Seen::Gone => Seen::Dir(0),
    }
}

/// After one edit more.
fn after<'a>(edit: &'a Edit, path: &Texts, seen: Seen<'a>) -> Seen<'a>
    ensures { fate_in result ≡ fates.after edit.now path.now (fate_in seen.entry) }
{
    match edit {
        Edit::File { path: at, bytes } => after_file(at.parts(), bytes, path, seen),
        Edit::Dir { path: at, time } => after_dir(at.parts(), *time, path, seen),
        Edit::Remove { path: at } => after_remove(at.parts(), path, seen),
    }
}

fn after_file<'a>(at: &Texts, bytes: &'a Seq<u8>, path: &Texts, seen: Seen<'a>) -> Seen<'a>
    ensures { fate_in result ≡ fates.after (edits.File at.now bytes.now) path.now (fate_in seen.entry) }
{
    if at == path {
        Seen::File(bytes)
    } else if is_within(at, path) {
        Seen::Gone
    } else if is_within(path, at) {
        way(seen)
    } else {
        seen
    }
}

fn after_dir<'a>(at: &Texts, time: u64, path: &Texts, seen: Seen<'a>) -> Seen<'a>
    ensures { fate_in result ≡ fates.after (edits.Dir at.now time) path.now (fate_in seen.entry) }
{
    if at == path {
        Seen::Dir(time)
    } else if is_within(path, at) {
        way(seen)
    } else {
        seen
    }
}

fn after_remove<'a>(at: &Texts, path: &Texts, seen: Seen<'a>) -> Seen<'a>
    ensures { fate_in result ≡ fates.after (edits.Remove at.now) path.now (fate_in seen.entry) }
{
    if is_within(at, path) {
        Seen::Gone
    } else {
        seen
    }
}

/// What the edits make of a path, one after another.
pub fn fate_of<'a>(edits: &'a Seq<Edit>, path: &Texts) -> Seen<'a>
    ensures { fate_in result ≡ fates.fate_of edits.now path.now }
{
    let mut seen = Seen::Kept;
    for edit in edits.as_slice() {
        seen = after(edit, path, seen);
    }
    seen
}

/// What stands at a path, by what stands there in the tree inside.
pub fn stamp_by(seen: Seen<'_>, stamp: Stamp) -> Stamp
    ensures { (before : Option Node) → stamp ≡ stamp_of before
        → result ≡ stamp_of (node_by (fate_in seen.entry) before) }
{
    match seen {
        Seen::Kept => stamp,
        Seen::Way => match stamp {
            Stamp::Dir(time) => Stamp::Dir(time),
            _ => Stamp::Dir(0),
        },
        Seen::File(bytes) => Stamp::File(bytes.len() as u64),
        Seen::Dir(time) => Stamp::Dir(time),
        Seen::Gone => Stamp::Absent,
    }
}

/// Whether something stands at a path whatever the tree inside has.
pub fn is_put(seen: Seen<'_>) -> bool
    ensures { result ≡ is_put (fate_in seen.entry) }
{
    match seen {
        Seen::Kept => false,
        Seen::Gone => false,
        _ => true,
    }
}

/// Whether what the tree inside has at a path is still there, or something else instead.
pub fn is_seen(seen: Seen<'_>) -> bool
    ensures { result ≡ is_seen (fate_in seen.entry) }
{
    match seen {
        Seen::Gone => false,
        _ => true,
    }
}

/// Whether no directory stands at a path whatever the tree inside has.
pub fn is_no_dir(seen: Seen<'_>) -> bool
    ensures { result ≡ is_no_dir (fate_in seen.entry) }
{
    match seen {
        Seen::File(_) => true,
        Seen::Gone => true,
        _ => false,
    }
}

/// The bytes that edits put at a path, and none where they put no file; None where what stands
/// there is that of the tree inside.
pub fn bytes_put<'a>(seen: Seen<'a>) -> Option<&'a [u8]>
    ensures { MatchOption result (fate_in seen.entry ≡ fates.Kept) (λ bytes. (before : Option Node)
        → bytes_of (node_by (fate_in seen.entry) before) ≡ bytes.now) }
{
    match seen {
        Seen::Kept => None,
        Seen::File(bytes) => Some(bytes.as_slice()),
        _ => Some(&[]),
    }
}
