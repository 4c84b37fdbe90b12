ghost use Rattle.std.specs.Prelude.{◌≡◌, ◌≤◌, ◌↔◌, ℕ, List, length, None, IfOk, IsOk, OnOk};
ghost use Rattle.std.specs.Fs.{file_type, IsFile};
ghost use Rattle.std.specs.List.Sorted.{IsPermutation, IsSorted};
ghost use Rattle.std.specs.String.{string_bytes};
ghost use Rattle.std.specs.Ordering.{nat_cmp};
ghost use Rattle.std.specs.Cmp.Lexicographic.{slice_cmp};
ghost use Rattle.tree_files.specs.Count.{Rose, raised};
ghost use Rattle.tree_system.specs.Systems.{wants_slash, with_part, with_parts, or_here, system_name, says_absent, fault_of, since_1970};
ghost use Rattle.tree_files.specs.declared.tree.TreeFault.TheVariants as fault;

use base_types::{Exact, NoMemory, Text, Texts, TreePath};
use std::alloc::AllocError;
use std::fs::{Metadata, OpenFile as Opened};
use std::io::{ErrorKind, Read, Seek, SeekFrom};
use std::os::unix::fs::MetadataExt;
use std::rt::Files;
use std::{fs, io};
use tree_files::{Grove, Stamp, Tree, TreeFault};

/// An open file, with its size when it was last looked at, and the place of the byte that a read gives next.
///
/// The size saves the read that would find the end, and decides no more than that. A file that has grown or shrunk since
/// brings a read that comes short of its buffer at another place, or one that fills it; then it is read on until a read
/// gives no byte. So it is read whole, whatever its size was.
#[derive(Drop)]
struct OpenFile<F> {
    name: Text,
    file: F,
    size: u64,
    place: u64,
    // Whether a read came short of its buffer just at the size, so that the file has not grown.
    ended: bool,
}

impl<F: Read + Seek> OpenFile<F> {
    /// Reads from a place on. It seeks only where the file stands at another one, and asks the system no more once a
    /// read has shown the end.
    fn read_at(&mut self, at: u64, into: &mut [u8]) -> io::Result<usize>
        ensures { IfOk result (λ n. n ≤ length into.old) }
    {
        if self.place != at {
            self.file.seek(SeekFrom::Start(at))?;
            self.ended = false;
        }
        if self.ended {
            return Ok(0);
        }
        let count = self.file.read(into)?;
        self.place = at.saturating_add(count as u64);
        self.ended = count < into.len() && self.place == self.size;
        Ok(count)
    }
}

/// A regular file that a call found, and its size then.
#[derive(Drop)]
struct FoundFile {
    name: Text,
    size: u64,
    // Whether its stamp was asked for again, and answered by this.
    repeated: bool,
}

/// A folder of the system, whose files it does not tell. A path of the wrong kind makes `list` and
/// `read` fail.
///
/// The file that was read last stays open until a read finds its end or another file is read, so a
/// file that is read in pieces from its front is opened once. A file that is looked at twice in a row and then read, as a
/// search finds it and a load reads it, is looked at once: the opening trusts that look. Only a file that the call just
/// before did not find is looked at when it is opened.
#[derive(Drop)]
pub struct RealTree<R: Files> {
    rt: R,
    root: Text,
    open: Option<OpenFile<R::File>>,
    // The file that the last call was about, where it found one and read none.
    found: Option<FoundFile>,
    faults: u64,
    lists: u64,
}

impl<R: Files + AllocGlobal + Clone + Drop> RealTree<R> {
    /// The folder of this name; the empty text is the current folder.
    pub fn at(rt: R, root: Text) -> RealTree<R>
        ensures faults { ⟦<RealTree<R> as Tree>⟧.faults result ≡ 0 }
        ensures lists { ⟦<RealTree<R> as Tree>⟧.lists result ≡ 0 }
        ensures root { result.root ≡ root }
    {
        RealTree {
            rt,
            root,
            open: None,
            found: None,
            faults: 0,
            lists: 0,
        }
    }

    /// The fault of an error, which is counted where it is no want of memory.
    fn refuse(&mut self, error: io::Error) -> TreeFault
        ensures failed { result ≡ fault.Failed → Rose self.old.faults self.new.faults }
        ensures wanting { result ≡ fault.NoMemory → self.new.faults ≡ self.old.faults }
        ensures faults_grow { self.old.faults ≤ self.new.faults }
        ensures lists_stay { self.new.lists ≡ self.old.lists }
    {
        let fault = fault_of(error.kind());
        if fault == TreeFault::Failed {
            self.faults = self.faults.saturating_add(1);
        }
        fault
    }

    /// The file of a name, to be read at a place: the one that is open where it is read on, and else
    /// a regular file that is opened now. One that the last call found regular is not looked at again.
    fn opened(&mut self, name: Text, at: u64) -> io::Result<OpenFile<R::File>>
        ensures faults_stay { self.new.faults ≡ self.old.faults }
        ensures lists_stay { self.new.lists ≡ self.old.lists }
    {
        let found = self.size_found(&name);
        if let Some(open) = self.open.take() {
            if at > 0 && open.name.as_str() == name.as_str() {
                return Ok(open);
            }
        }
        let (file, size) = match found {
            Some(size) => (fs::open(&self.rt, name.as_str())?, size),
            None => open_regular(&self.rt, name.as_str())?,
        };
        Ok(OpenFile {
            name,
            file,
            size,
            place: 0,
            ended: false,
        })
    }

    /// The size of the file of a name, where the last call found it. It answers once.
    fn size_found(&mut self, name: &Text) -> Option<u64>
        ensures faults_stay { self.new.faults ≡ self.old.faults }
        ensures lists_stay { self.new.lists ≡ self.old.lists }
    {
        match self.found.take() {
            Some(found) if found.name.as_str() == name.as_str() => Some(found.size),
            _ => None,
        }
    }

    /// The stamp of a name, where the last call found a file of that name. It answers once; the file is then still known
    /// to a read.
    fn found_just_now(&mut self, name: &Text) -> Option<Stamp>
        ensures faults_stay { self.new.faults ≡ self.old.faults }
        ensures lists_stay { self.new.lists ≡ self.old.lists }
        ensures root_stays { self.new.root ≡ self.old.root }
    {
        match self.found.take() {
            Some(found) if !found.repeated && found.name.as_str() == name.as_str() => {
                let size = found.size;
                self.found = Some(FoundFile {
                    repeated: true,
                    ..found
                });
                Some(Stamp::File(size))
            }
            _ => None,
        }
    }

    /// The stamp of a name, which is kept for the next calls where it is that of a file.
    fn look_at(&mut self, name: Text) -> io::Result<Stamp>
        ensures faults_stay { self.new.faults ≡ self.old.faults }
        ensures lists_stay { self.new.lists ≡ self.old.lists }
        ensures root_stays { self.new.root ≡ self.old.root }
    {
        let stamp = stamp_at(&self.rt, name.as_str())?;
        if let Stamp::File(size) = stamp {
            self.found = Some(FoundFile {
                name,
                size,
                repeated: false,
            });
        }
        Ok(stamp)
    }

    /// Reads the file of a name at a place, and keeps it open where it had bytes there.
    fn read_at(&mut self, name: Text, at: u64, into: &mut [u8]) -> io::Result<usize>
        ensures count { IfOk result (λ n. n ≤ length into.old) }
        ensures faults_stay { self.new.faults ≡ self.old.faults }
        ensures lists_stay { self.new.lists ≡ self.old.lists }
    {
        let mut open = self.opened(name, at)?;
        let count = open.read_at(at, into)?;
        if count > 0 {
            self.open = Some(open);
        }
        Ok(count)
    }
}

impl<R: Files + AllocGlobal + Clone + Drop> Tree for RealTree<R> {
    ghost files = { λ _. None };

    ghost faults = { λ t. t.faults };

    ghost lists = { λ t. t.lists };

    fn stamp(&mut self, path: &TreePath) -> Result<Stamp, TreeFault> {
        let name = system_name(&self.root, path)?;
        if let Some(stamp) = self.found_just_now(&name) {
            return Ok(stamp);
        }
        match self.look_at(name) {
            Ok(stamp) => Ok(stamp),
            Err(error) => Err(self.refuse(error)),
        }
    }

    fn list(&mut self, dir: &TreePath) -> Result<Texts, TreeFault> {
        self.found = None;
        let name = system_name(&self.root, dir)?;
        match names_shown(&self.rt, name.as_str()) {
            Ok(names) => {
                self.lists = self.lists.saturating_add(1);
                Ok(names)
            }
            Err(error) => Err(self.refuse(error)),
        }
    }

    fn read(&mut self, file: &TreePath, at: u64, into: &mut [u8]) -> Result<usize, TreeFault> {
        let name = system_name(&self.root, file)?;
        match self.read_at(name, at, into) {
            Ok(count) => Ok(count),
            Err(error) => Err(self.refuse(error)),
        }
    }
}

impl<R: Files + AllocGlobal + Clone + Send + Drop> Grove for RealTree<R>
where
    R::File: Send,
{
    fn fork(&mut self) -> Result<RealTree<R>, NoMemory>
        ensures root { IfOk result (λ child. child.root ≡ self.old.root) }
        ensures root_stays { self.new.root ≡ self.old.root }
        ensures faults { IfOk result (λ child. child.faults ≡ 0) }
        ensures lists { IfOk result (λ child. child.lists ≡ 0) }
        ensures faults_stay { self.new.faults ≡ self.old.faults }
        ensures lists_stay { self.new.lists ≡ self.old.lists }
    {
        Ok(RealTree {
            rt: self.rt.clone()?,
            root: self.root.copy()?,
            open: None,
            found: None,
            faults: 0,
            lists: 0,
        })
    }

    fn absorb(&mut self, child: RealTree<R>)
        ensures root { self.new.root ≡ self.old.root }
        ensures faults { self.new.faults ≡ raised self.old.faults child.faults }
        ensures faults_grow { self.old.faults ≤ self.new.faults }
        ensures lists { self.new.lists ≡ raised self.old.lists child.lists }
    {
        self.faults = self.faults.saturating_add(child.faults);
        self.lists = self.lists.saturating_add(child.lists);
    }
}

/// Whether a slash is wanted between a name and a part that follows it.
fn wants_slash(name: &Text) -> bool
    ensures { result ≡ wants_slash name.now }
{
    match name.as_bytes().last() {
        Some(byte) => *byte != b'/',
        None => false,
    }
}

fn add_part(name: &mut Text, part: &Text) -> Result<(), NoMemory>
    ensures { OnOk result (name.new ≡ with_part name.old part.now) }
{
    if wants_slash(name) {
        name.push_str("/")?;
    }
    name.push_str(part.as_str())
}

/// The name of a folder with the parts of a path behind it.
fn with_parts(folder: &Text, path: &TreePath) -> Result<Text, NoMemory>
    ensures { IfOk result (λ name. name ≡ with_parts folder.now path.now) }
{
    let mut name = folder.copy()?;
    for part in path.parts().as_slice() {
        add_part(&mut name, part)?;
    }
    Ok(name)
}

/// What the system calls a path below a folder. The empty name is the current folder.
fn system_name(folder: &Text, path: &TreePath) -> Result<Text, NoMemory>
    ensures { IfOk result (λ name. name ≡ system_name folder.now path.now) }
{
    let name = with_parts(folder, path)?;
    if name.len() == 0 {
        return Text::from_str(name.alloc(), ".");
    }
    Ok(name)
}

/// Whether an error says that nothing stands at a name.
fn says_absent(kind: ErrorKind) -> bool
    ensures { result ≡ says_absent kind }
{
    match kind {
        ErrorKind::NotFound => true,
        ErrorKind::NotADirectory => true,
        ErrorKind::FilesystemLoop => true,
        ErrorKind::InvalidFilename => true,
        ErrorKind::PermissionDenied => true,
        _ => false,
    }
}

/// What an error means for a call.
fn fault_of(kind: ErrorKind) -> TreeFault
    ensures { result ≡ fault_of kind }
{
    match kind {
        ErrorKind::OutOfMemory => TreeFault::NoMemory,
        _ => TreeFault::Failed,
    }
}

/// Nothing stands at a name that leads nowhere, or through a folder that may not be searched.
fn stamp_at<R: Files>(rt: &R, name: &str) -> io::Result<Stamp> {
    match fs::metadata(rt, name) {
        Ok(data) => Ok(stamp_of(&data)),
        Err(error) => {
            if says_absent(error.kind()) {
                return Ok(Stamp::Absent);
            }
            Err(error)
        }
    }
}

/// The whole seconds since 1970 of a time; 0 for one that lies before.
fn since_1970(time: i64) -> u64
    ensures { result ≡ since_1970 time }
{
    u64::try_from(time).unwrap_or(0)
}

/// Neither a pipe nor a socket nor a device is a file.
fn stamp_of(data: &Metadata) -> Stamp {
    if data.is_dir() {
        return Stamp::Dir(since_1970(data.mtime()));
    }
    if data.is_file() {
        return Stamp::File(data.len());
    }
    Stamp::Absent
}

/// A file that may have been put anew since its stamp was taken: what is no regular file is refused.
fn refuse_irregular(found: &Metadata) -> io::Result<()>
    ensures { IsOk result ↔ IsFile (file_type found.now) }
{
    if found.is_file() {
        Ok(())
    } else {
        Err(io::Error::from(ErrorKind::InvalidInput))
    }
}

/// Opens a regular file that was not found just now. To open a pipe would wait for a writer, so what stands at the name is
/// looked at right before, and what was opened is looked at too. The file comes with its size.
fn open_regular<R: Files>(rt: &R, name: &str) -> io::Result<(R::File, u64)> {
    refuse_irregular(&fs::metadata(rt, name)?)?;
    let file = fs::open(rt, name)?;
    let opened = file.metadata()?;
    refuse_irregular(&opened)?;
    Ok((file, opened.len()))
}

/// The names in the order of their bytes.
fn in_order(names: Vec<Text>) -> Result<Texts, AllocError>
    ensures ordered { IfOk result (IsSorted (slice_cmp nat_cmp)) }
    ensures same { IfOk result (IsPermutation names.items) }
{
    let mut names = names;
    names.sort()?;
    Ok(Texts::from_vec(names))
}

/// A name as a text.
fn text_of(name: String) -> Result<Text, AllocError>
    ensures { IfOk result (λ it. it ≡ string_bytes name) }
{
    match Text::from_string(name) {
        Ok(text) => Ok(text),
        Err(NoMemory) => Err(AllocError),
    }
}

/// The names in a folder, in order, without those that are not UTF-8.
fn names_in<R: Files + AllocGlobal + Clone + Drop>(rt: &R, folder: &str) -> io::Result<Texts> {
    let mut names = Vec::new(rt.alloc());
    for entry in fs::read_dir(rt, folder)? {
        match entry {
            Ok(entry) => {
                let name = String::from_str(rt.alloc(), entry.file_name())?;
                names.push(text_of(name)?)?;
            }
            Err(error) => {
                if error.kind() != ErrorKind::InvalidFilename {
                    return Err(error);
                }
            }
        }
    }
    Ok(in_order(names)?)
}

/// The names that a folder shows: those in it, and none where it may not be read.
fn names_shown<R: Files + AllocGlobal + Clone + Drop>(rt: &R, folder: &str) -> io::Result<Texts> {
    match names_in(rt, folder) {
        Err(error) if error.kind() == ErrorKind::PermissionDenied => Ok(Texts::new(rt.alloc())),
        names => names,
    }
}
