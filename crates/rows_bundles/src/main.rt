//! Bundles: files that are packed, and bytes that are read as a bundle.
#![tactic(auto)]

use base_spelling::{write_quoted, write_source};
use base_types::{NoMemory, Seq, Text, TreePath};
use bundle_hook::{BundleError, Index, MOST_FRONT, Packed, read_index, write_bundle};
use rows_words::{Row, RowError, Table, answer_rows};
use std::alloc::Global;
use std::process::ExitCode;

/// The first number in the names of files that are made: all have as many digits, so that the names ascend.
const FIRST_NUMBER: u32 = 1_000_000;

/// The files that the next bundle is made of.
#[derive(Drop)]
struct Bundles {
    files: Seq<Packed>,
}

fn path_in(text: &Text) -> Result<TreePath, RowError> {
    TreePath::read(text)?.ok_or(RowError::Unknown)
}

/// An empty file of this name.
fn empty_file(alloc: Global, name: &Text) -> Result<Packed, RowError> {
    Ok(Packed {
        path: path_in(name)?,
        bytes: Seq::new(alloc),
    })
}

/// Empty files, as many as are asked for.
fn many_files(alloc: Global, count: u32) -> Result<Seq<Packed>, RowError> {
    let mut files = Seq::new(alloc);
    for n in 0..count {
        let number = FIRST_NUMBER.saturating_add(n);
        let name = Text::from_string(format!(in alloc; "f{number}")?)?;
        files.push(empty_file(alloc, &name)?)?;
    }
    Ok(files)
}

/// A name of so many bytes.
fn long_name(alloc: Global, count: u32) -> Result<Text, NoMemory> {
    let mut name = Text::new(alloc);
    for _ in 0..count {
        name.push_str("x")?;
    }
    Ok(name)
}

/// The index of a file of this size that begins with these bytes, and goes on with zeros.
fn index_in(alloc: Global, bytes: &[u8], size: u64) -> Result<Option<Index>, NoMemory> {
    let len = size.min(MOST_FRONT as u64) as usize;
    let mut front = Vec::new(alloc);
    front.extend_from_slice(&bytes[..bytes.len().min(len)])?;
    front.resize(len, 0)?;
    read_index(alloc, front.as_slice(), size)
}

/// The text with what an index says behind it.
fn put_index(mut told: Text, index: &Index) -> Result<Text, NoMemory> {
    let head = index.head;
    told.push_str(format!(in told.alloc(); "head {head}")?.as_str())?;
    for item in index.items.as_slice() {
        told.push_str(", ")?;
        told = write_quoted(told, item.path.text()?.as_str())?;
        let size = item.size;
        let at = item.at;
        told.push_str(format!(in told.alloc(); " {size} at {at}")?.as_str())?;
    }
    Ok(told)
}

fn read(alloc: Global, bytes: &[u8], size: u64) -> Result<Text, NoMemory> {
    match index_in(alloc, bytes, size)? {
        Some(index) => put_index(Text::new(alloc), &index),
        None => Text::from_str(alloc, "no bundle"),
    }
}

/// How many of the fronts of these bytes are a bundle, all of them included.
fn cut(alloc: Global, bytes: &[u8]) -> Result<Text, NoMemory> {
    let mut bundles = 0u32;
    for len in 0..bytes.len() {
        if index_in(alloc, &bytes[..len], len as u64)?.is_some() {
            bundles = bundles.saturating_add(1);
        }
    }
    let fronts = bytes.len();
    Text::from_string(format!(in alloc; "{bundles} of {fronts} fronts")?)
}

/// The bundle, as a trace spells bytes.
fn written(alloc: Global, files: &[Packed]) -> Result<Text, RowError> {
    match write_bundle(alloc, files) {
        Ok(bytes) => Ok(write_source(Text::new(alloc), bytes.as_slice())?),
        Err(BundleError::Unfit) => Ok(Text::from_str(alloc, "unfit")?),
        Err(BundleError::NoMemory) => Err(RowError::NoMemory),
    }
}

/// How long the bundle is, and how many files are read of it.
fn counted(alloc: Global, files: &[Packed]) -> Result<Text, RowError> {
    let bytes = match write_bundle(alloc, files) {
        Ok(bytes) => bytes,
        Err(BundleError::Unfit) => {
            return Ok(Text::from_str(alloc, "unfit")?);
        }
        Err(BundleError::NoMemory) => {
            return Err(RowError::NoMemory);
        }
    };
    let size = bytes.len();
    let found = match index_in(alloc, bytes.as_slice(), size as u64)? {
        Some(index) => index.items.len(),
        None => 0,
    };
    Ok(Text::from_string(format!(in alloc; "{size} bytes, {found} files read")?)?)
}

/// The file of a row.
fn file_of(alloc: Global, row: &mut Row<'_>) -> Result<Packed, RowError> {
    let name = row.text(alloc)?;
    let bytes = row.bytes(alloc)?;
    Ok(Packed {
        path: path_in(&name)?,
        bytes,
    })
}

/// A file with a name of so many bytes.
fn named(alloc: Global, count: u32) -> Result<Seq<Packed>, RowError> {
    let name = long_name(alloc, count)?;
    let mut files = Seq::new(alloc);
    files.push(empty_file(alloc, &name)?)?;
    Ok(files)
}

impl Bundles {
    fn write(&mut self, alloc: Global) -> Result<Text, RowError> {
        let told = written(alloc, self.files.as_slice())?;
        self.files.clear();
        Ok(told)
    }
}

impl Table for Bundles {
    fn answer(&mut self, alloc: Global, row: &mut Row<'_>) -> Result<Option<Text>, RowError> {
        match row.word()? {
            "file" => {
                self.files.push(file_of(alloc, row)?)?;
                Ok(None)
            }
            "write" => Ok(Some(self.write(alloc)?)),
            "read" => {
                let bytes = row.bytes(alloc)?;
                Ok(Some(read(alloc, bytes.as_slice(), bytes.len() as u64)?))
            }
            "begin" => {
                let size = row.number()?;
                let bytes = row.bytes(alloc)?;
                Ok(Some(read(alloc, bytes.as_slice(), size)?))
            }
            "cut" => {
                let bytes = row.bytes(alloc)?;
                Ok(Some(cut(alloc, bytes.as_slice())?))
            }
            "many" => Ok(Some(counted(alloc, many_files(alloc, row.small()?)?.as_slice())?)),
            "name" => Ok(Some(counted(alloc, named(alloc, row.small()?)?.as_slice())?)),
            _ => Err(RowError::Unknown),
        }
    }
}

fn main(rt: HostRuntime) -> ExitCode {
    answer_rows(
        rt,
        &mut Bundles {
            files: Seq::new(rt.alloc()),
        },
    )
}
