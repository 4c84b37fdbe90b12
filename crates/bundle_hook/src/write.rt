//! From files to the bundle of them.
ghost use Rattle.std.specs.Prelude.{◌≡◌, ◌≤◌, ◌++◌, ◌∷◌, [], ◌↔◌, ℕ, List, IfOk, IsErrOf, IsTrue};
ghost use Rattle.std.specs.Fmt.{decimal};
ghost use Rattle.bundle_hook.specs.Spelling as spelling;
ghost use Rattle.bundle_hook.specs.Bundle.{IsBundle, CanBegin, entries_of, data_of};

use crate::bundle::{BundleError, Packed};
use crate::entry::Entry;
use crate::read::front_in;
use base_types::{Exact, NoMemory, Same, Seq};
use std::alloc::Global;

/// The most bytes up to and with `end` and its line feed: no more of a file need be looked at.
pub const MOST_FRONT: usize = 1_048_576;

/// The bytes with others behind them.
fn put(out: Vec<u8>, bytes: &[u8]) -> Result<Vec<u8>, NoMemory>
    ensures { IfOk result (λ it. it.items ≡ out.items ++ bytes.now) }
{
    let mut out = out;
    out.extend_from_slice(bytes)?;
    Ok(out)
}

/// The bytes with a number behind them, in decimal digits.
fn put_number(out: Vec<u8>, n: u64) -> Result<Vec<u8>, NoMemory>
    ensures { IfOk result (λ it. it.items ≡ out.items ++ decimal n) }
{
    let digits = format!(in *out.allocator(); "{}", n)?;
    put(out, digits.as_bytes())
}

/// The bytes with the line of a file behind them.
#[tactic(auto, using(crate::proofs::Written::line_is))]
fn put_line(out: Vec<u8>, entry: &Entry) -> Result<Vec<u8>, NoMemory>
    ensures { IfOk result (λ it. it.items ≡ out.items ++ (spelling.line_of entry.now ++ 10 ∷ [])) }
{
    let path = entry.path.text()?;
    let out = put_number(out, entry.size)?;
    let out = put(out, b" ".as_slice())?;
    let out = put(out, path.as_bytes())?;
    put(out, b"\n".as_slice())
}

/// All that stands before the data.
fn front_of(alloc: Global, entries: &[Entry]) -> Result<Vec<u8>, NoMemory>
    ensures { IfOk result (λ it. it.items ≡ spelling.front_of entries.now) }
{
    let mut out = put(Vec::new(alloc), b"PYB1\n".as_slice())?;
    for entry in entries {
        out = put_line(out, entry)?;
    }
    put(out, b"end\n".as_slice())
}

/// What the lines are to say of the files.
fn entries_of(alloc: Global, files: &[Packed]) -> Result<Seq<Entry>, NoMemory>
    ensures { IfOk result (λ it. it ≡ entries_of files.now) }
{
    let mut entries = Seq::new(alloc);
    for file in files {
        let path = file.path.copy()?;
        let size = file.bytes.len() as u64;
        entries.push(Entry { path, size })?;
    }
    Ok(entries)
}

/// Whether a bundle can begin with the front of these entries: whether it is short enough, and the same entries are
/// read from it again.
fn can_begin(alloc: Global, front: &[u8], entries: &Seq<Entry>) -> Result<bool, NoMemory>
    requires { front.now ≡ spelling.front_of entries.now }
    ensures { IfOk result (λ b. IsTrue b ↔ CanBegin entries.now) }
{
    if front.len() > MOST_FRONT {
        return Ok(false);
    }
    match front_in(alloc, front)? {
        Some((again, _left)) => Ok(again.is_same(entries)),
        None => Ok(false),
    }
}

/// The bytes with those of all files behind them.
fn with_data(front: Vec<u8>, files: &[Packed]) -> Result<Vec<u8>, NoMemory>
    ensures { IfOk result (λ it. it.items ≡ front.items ++ data_of files.now) }
{
    let mut out = front;
    for file in files {
        out = put(out, file.bytes.as_slice())?;
    }
    Ok(out)
}

/// The one bundle of the files. Unfit exactly where no bundle belongs to them.
pub fn write_bundle(alloc: Global, files: &[Packed]) -> Result<Vec<u8>, BundleError>
    ensures ok { IfOk result (λ bytes. IsBundle files.now bytes.items) }
    ensures unfit { IsErrOf result BundleError.Unfit → (bytes : List ℕ) → ¬ (IsBundle files.now bytes) }
{
    let entries = entries_of(alloc, files)?;
    let front = front_of(alloc, entries.as_slice())?;
    if !can_begin(alloc, front.as_slice(), &entries)? {
        return Err(BundleError::Unfit);
    }
    Ok(with_data(front, files)?)
}
