ghost use Rattle.std.specs.Prelude.{◌≡◌, IfSome};
ghost use Rattle.path_finder.specs.Looking.{input_kind, want_kind};

use base_types::{Text, TreePath};
use path_finder::{Found, Look, LookIn, LookWant};
use py_value::{Items, Value};
use spec_core::{Dotted, SpecKind};
use std::fs::Permissions;
use std::os::unix::fs::PermissionsExt;
use std::os::unix::io::AsRawFd;
use std::test::Fail;
use std::{fs, io};
use tree_files::{Grove, Stamp, Tree, TreeFault};
use tree_system::RealTree;

fn text(rt: &HostRuntime, text: &str) -> Result<Text, Fail> {
    Ok(Text::from_str(rt.alloc(), text)?)
}

fn path(rt: &HostRuntime, at: &str) -> Result<TreePath, Fail> {
    Ok(TreePath::read(&text(rt, at)?)?.ok_or("no tree path")?)
}

fn entries(rt: &HostRuntime, path: &str) -> Result<Items, Fail> {
    let mut items = Items::new(rt.alloc());
    for word in path.split(':') {
        items.push(Value::Text(text(rt, word)?))?;
    }
    Ok(items)
}

/// The input that a want asks for, where no listing is kept.
fn answer_to(want: &LookWant) -> Option<LookIn>
    ensures { IfSome result (λ input. input_kind input ≡ want_kind want.now) }
{
    match want {
        LookWant::Pay { tree: _ } => Some(LookIn::Paid),
        LookWant::DirGet { dir: _, part: _ } => Some(LookIn::Listed(None)),
        LookWant::DirSet { dir: _, listing: _ } => Some(LookIn::Kept),
        LookWant::Done(_) => None,
    }
}

fn shown(rt: &HostRuntime, want: &LookWant) -> Result<String, Fail> {
    let mut shown = String::new(rt.alloc());
    match want {
        LookWant::Done(None) => shown.push_str("none")?,
        LookWant::Done(Some(Found::Portions(portions))) => {
            shown.push_str("portions")?;
            for portion in portions.as_slice() {
                shown.push(' ')?;
                shown.push_str(portion.as_str())?;
            }
        }
        LookWant::Done(Some(Found::Spec(spec))) => match spec.kind() {
            SpecKind::Source { file } => {
                shown.push_str("module ")?;
                shown.push_str(file.as_str())?;
            }
            SpecKind::Package { file, path } => {
                shown.push_str("package ")?;
                shown.push_str(file.as_str())?;
                for folder in path.as_slice() {
                    shown.push(' ')?;
                    shown.push_str(folder.as_str())?;
                }
            }
            _ => shown.push_str("another kind")?,
        },
        _ => shown.push_str("no answer")?,
    }
    Ok(shown)
}

/// What a search answers, or that the tree failed.
fn searched<T: Tree>(
    rt: &HostRuntime,
    tree: &mut T,
    path: &str,
    name: &str,
) -> Result<String, Fail> {
    let name = Dotted::read(&text(rt, name)?)?.ok_or("no dotted name")?;
    let mut look = Look::start(name, entries(rt, path)?)?;
    let mut input = LookIn::Start;
    for _ in 0..1000 {
        let want = match look.next(tree, input) {
            Ok(want) => want,
            Err(TreeFault::Failed) => return Ok(String::from_str(rt.alloc(), "failed")?),
            Err(fault) => return Err(fault.into()),
        };
        match answer_to(&want) {
            Some(next) => input = next,
            None => return shown(rt, &want),
        }
    }
    Err("the search has no end".into())
}

#[test]
fn a_search_in_a_real_folder(rt: HostRuntime) -> Result<(), Fail> {
    let folder = "path_finder_test";
    let _ = fs::remove_dir_all(&rt, folder);
    fs::create_dir_all(&rt, "path_finder_test/a b/c")?;
    fs::create_dir_all(&rt, "path_finder_test/d")?;
    fs::write(&rt, "path_finder_test/d/é.py", b"".as_slice())?;
    fs::write(&rt, "path_finder_test/f", b"".as_slice())?;
    let mut tree = RealTree::at(rt, text(&rt, folder)?);
    let long = "x".repeat(rt.alloc(), 300)?;
    let mut path = String::from_str(rt.alloc(), "missing:f:a b:")?;
    path.push_str(long.as_str())?;
    for (name, wanted) in [("c", "portions a b/c"), ("é", "none")] {
        let found = searched(&rt, &mut tree, path.as_str(), name)?;
        assert_eq!(rt; found.as_str(), wanted, "{name}");
    }
    path.push_str(":d")?;
    let found = searched(&rt, &mut tree, path.as_str(), "é")?;
    assert_eq!(rt; found.as_str(), "module d/é.py");
    fs::remove_dir_all(&rt, folder)?;
    Ok(())
}

#[test]
fn a_shut_folder_is_passed_over(rt: HostRuntime) -> Result<(), Fail> {
    let folder = "path_finder_shut";
    let shut = "path_finder_shut/a";
    let file = "path_finder_shut/b/c.py";
    fs::create_dir_all(&rt, shut)?;
    fs::create_dir_all(&rt, "path_finder_shut/b")?;
    fs::write(&rt, "path_finder_shut/a/c.py", b"".as_slice())?;
    fs::write(&rt, file, b"".as_slice())?;
    fs::set_permissions(&rt, shut, Permissions::from_mode(0))?;
    fs::set_permissions(&rt, file, Permissions::from_mode(0))?;
    // Who may read everything reads these too.
    let is_shut = fs::read_dir(&rt, shut).is_err();
    let mut tree = RealTree::at(rt, text(&rt, folder)?);
    assert!(rt; matches!(tree.stamp(&path(&rt, "a")?), Ok(Stamp::Dir(_))));
    if is_shut {
        assert_eq!(rt; tree.list(&path(&rt, "a")?)?.len(), 0);
        assert_eq!(rt; tree.stamp(&path(&rt, "a/c.py")?), Ok(Stamp::Absent));
        let found = searched(&rt, &mut tree, "a:b", "c")?;
        assert_eq!(rt; found.as_str(), "module b/c.py");
        let at = path(&rt, "b/c.py")?;
        assert_eq!(rt; tree.read(&at, 0, &mut [0u8; 3]), Err(TreeFault::Failed));
    }
    fs::set_permissions(&rt, shut, Permissions::from_mode(0o700))?;
    fs::remove_dir_all(&rt, folder)?;
    Ok(())
}

/// To open the reading end of a pipe anew waits for a writer, and here none is left.
#[test]
fn a_pipe_is_not_waited_for(rt: HostRuntime) -> Result<(), Fail> {
    let (reader, writer) = io::pipe(&rt)?;
    drop(writer);
    let name = format!(in rt.alloc(); "{}", reader.as_raw_fd())?;
    let mut tree = RealTree::at(rt, text(&rt, "/proc/self/fd")?);
    let at = path(&rt, name.as_str())?;
    assert_eq!(rt; tree.stamp(&at), Ok(Stamp::Absent));
    assert_eq!(rt; tree.read(&at, 0, &mut [0u8; 3]), Err(TreeFault::Failed));
    let mut tree = RealTree::at(rt, text(&rt, "/dev")?);
    assert_eq!(rt;
        tree.read(&path(&rt, "null")?, 0, &mut [0u8; 3]),
        Err(TreeFault::Failed)
    );
    Ok(())
}

/// What a tree shows at a path: the names in a directory, or the size of a file and its bytes from
/// the second to the fourth.
fn seen<T: Tree>(rt: &HostRuntime, tree: &mut T, at: &str) -> Result<String, Fail> {
    let path = path(rt, at)?;
    match tree.stamp(&path)? {
        Stamp::Absent => Ok(String::from_str(rt.alloc(), "absent")?),
        Stamp::Dir(_) => {
            let mut shown = String::from_str(rt.alloc(), "dir")?;
            for name in tree.list(&path)?.as_slice() {
                shown.push(' ')?;
                shown.push_str(name.as_str())?;
            }
            Ok(shown)
        }
        Stamp::File(size) => {
            let mut bytes = [0u8; 3];
            let count = tree.read(&path, 1, &mut bytes)?;
            Ok(format!(in rt.alloc(); "file {size}: {count} {bytes:?}")?)
        }
    }
}

/// At most three bytes of a file from a place on.
fn piece(
    rt: &HostRuntime,
    tree: &mut RealTree<HostRuntime>,
    at: &str,
    place: u64,
) -> Result<String, Fail> {
    let path = path(rt, at)?;
    let mut bytes = [0u8; 3];
    let count = tree.read(&path, place, &mut bytes)?;
    Ok(format!(in rt.alloc(); "{count} of {bytes:?}")?)
}

#[test]
fn a_file_is_read_on_and_anew(rt: HostRuntime) -> Result<(), Fail> {
    let folder = "tree_files_pieces";
    let _ = fs::remove_dir_all(&rt, folder);
    fs::create_dir(&rt, folder)?;
    fs::write(&rt, "tree_files_pieces/a", b"hello".as_slice())?;
    fs::write(&rt, "tree_files_pieces/b", b"world".as_slice())?;
    let mut tree = RealTree::at(rt, text(&rt, folder)?);
    for (at, place, wanted) in [
        ("a", 0, "3 of [104, 101, 108]"),
        ("a", 3, "2 of [108, 111, 0]"),
        ("a", 1, "3 of [101, 108, 108]"),
        ("b", 4, "1 of [100, 0, 0]"),
        ("a", 5, "0 of [0, 0, 0]"),
        ("a", 4, "1 of [111, 0, 0]"),
    ] {
        assert_eq!(rt;
            piece(&rt, &mut tree, at, place)?.as_str(),
            wanted,
            "{at} {place}"
        );
    }
    fs::remove_file(&rt, "tree_files_pieces/a")?;
    fs::write(&rt, "tree_files_pieces/a", b"other".as_slice())?;
    let front = piece(&rt, &mut tree, "a", 0)?;
    assert_eq!(rt; front.as_str(), "3 of [111, 116, 104]");
    fs::remove_dir_all(&rt, folder)?;
    Ok(())
}

#[test]
fn a_real_folder_is_read(rt: HostRuntime) -> Result<(), Fail> {
    let folder = "tree_files_test";
    let _ = fs::remove_dir_all(&rt, folder);
    fs::create_dir(&rt, folder)?;
    fs::create_dir(&rt, "tree_files_test/b")?;
    fs::write(&rt, "tree_files_test/a.py", b"hello".as_slice())?;
    let mut real = RealTree::at(rt, text(&rt, folder)?);
    let mut tree = real.fork()?;
    for (at, wanted) in [
        (".", "dir a.py b"),
        ("a.py", "file 5: 3 [101, 108, 108]"),
        ("a.py/c", "absent"),
        ("b", "dir"),
        ("c", "absent"),
    ] {
        assert_eq!(rt; seen(&rt, &mut tree, at)?.as_str(), wanted, "{at}");
    }
    let file = path(&rt, "a.py")?;
    assert!(rt; matches!(tree.list(&file), Err(TreeFault::Failed)));
    let mut bytes = [0u8; 3];
    let dir = path(&rt, "b")?;
    assert_eq!(rt; tree.read(&dir, 0, &mut bytes), Err(TreeFault::Failed));
    real.absorb(tree);
    fs::remove_dir_all(&rt, folder)?;
    Ok(())
}
