ghost use Rattle.std.specs.Prelude.{◌≡◌, ℕ, List, [], ◌∷◌, ◌++◌, IfOk, Some, refl, nat_eq};
ghost use Rattle.std.specs.Ordering.{nat_cmp};
ghost use Rattle.std.specs.Cmp.Lexicographic.{pointwise, nat_list_cmp_total, nat_list_eq_equiv, texts_ties, lists_equiv, lists_total, lists_ties, lists_per, slice_cmp};
ghost use Rattle.std.specs.Cmp as order;
ghost use Rattle.std.specs.Cmp.{partial_order_from_agreeing_total};
ghost use Rattle.std.specs.Prelude.{IsTrue, ◌↔◌, MatchOption, map, ◌==◌, ◌≤◌, length, take};
ghost use Rattle.std.specs.List.{slice_split, list_all};
ghost use Rattle.base_types.specs.Path.{path_cmp, is_part, is_part_byte, IsPath, joined, Spells};

use crate::Texts;
use crate::exact::Exact;
use crate::no_memory::NoMemory;
use crate::same::Same;
use crate::text::Text;
use std::alloc::{AllocError, Global};
use std::cmp::Ordering;
use std::marker::Model;

/// A place in a tree: the parts on the way from its root, none of them empty, `.` or `..`, and none
/// holding a slash or a zero byte. Contracts see the list of parts, each as its bytes.
#[derive(Debug)]
pub struct TreePath {
    parts: Texts,
}

impl Model for TreePath {
    ghost Value = { List (List ℕ) };

    ghost view = { λ p. p.parts };

    ghost invariant = { λ p. IsPath p.parts };
}

impl TreePath {
    /// The root, which has no parts.
    pub fn root(alloc: Global) -> TreePath
        ensures { result ≡ [] }
    {
        TreePath {
            parts: Texts::new(alloc),
        }
    }

    /// The path that a text names, or None where the text is no tree path. The empty text and `.`
    /// name the root.
    pub fn read(text: &Text) -> Result<Option<TreePath>, NoMemory>
        ensures { IfOk result (λ o. MatchOption o ((p : List (List ℕ)) → ¬ (Spells text.now p)) (Spells text.now)) }
    {
        let alloc = text.alloc();
        let text = text.as_str();
        if text.is_empty() {
            return Ok(Some(TreePath::root(alloc)));
        }
        if text == "." {
            return Ok(Some(TreePath::root(alloc)));
        }
        let pieces = pieces_of(alloc, text)?;
        if !are_parts(pieces.as_slice()) {
            return Ok(None);
        }
        Ok(Some(TreePath {
            parts: owned(alloc, pieces.as_slice())?,
        }))
    }

    /// The parts, the one next to the root first.
    pub fn parts(&self) -> &Texts
        ensures { result.now ≡ self.now }
    {
        &self.parts
    }

    /// The parts with slashes between, and the empty text for the root.
    pub fn text(&self) -> Result<Text, NoMemory>
        ensures { IfOk result (λ t. t ≡ joined self.now) }
    {
        joined_text(&self.parts)
    }

    /// The first n parts.
    pub fn front(&self, n: usize) -> Result<TreePath, NoMemory>
        requires { n ≤ length self.now }
        ensures { IfOk result (λ it. it ≡ take n self.now) }
    {
        Ok(TreePath {
            parts: front_of(&self.parts, n)?,
        })
    }

    /// This path with one more part.
    pub fn child(&self, part: &Text) -> Result<TreePath, NoMemory>
        requires { IsTrue (is_part part.now) }
        ensures { IfOk result (λ it. it ≡ self.now ++ part.now ∷ []) }
    {
        Ok(TreePath {
            parts: with_part(&self.parts, part)?,
        })
    }
}

impl Clone for TreePath {
    ghost is_clone = { λ p it. it ≡ p };

    fn clone(&self) -> Result<TreePath, AllocError> {
        Ok(TreePath {
            parts: self.parts.clone()?,
        })
    }
}

impl Exact for TreePath {
    fn copy(&self) -> Result<TreePath, NoMemory> {
        Ok(self.clone()?)
    }
}

impl Same for TreePath {
    fn is_same(&self, other: &TreePath) -> bool {
        self.parts.is_same(&other.parts)
    }
}

impl PartialEq for TreePath {
    ghost eq = { pointwise (pointwise nat_eq) };

    ghost laws = { lists_per (order.partial_equiv_from_equiv nat_list_eq_equiv) };

    fn eq(&self, other: &TreePath) -> bool {
        self.parts == other.parts
    }
}

impl Eq for TreePath {
    ghost laws = { lists_equiv nat_list_eq_equiv };
}

impl PartialOrd for TreePath {
    ghost partial_cmp = { λ p q. Some (path_cmp p q) };

    ghost laws = { partial_order_from_agreeing_total path_cmp (lists_total nat_list_cmp_total) (λ p q. refl)
        (lists_ties (slice_cmp nat_cmp) texts_ties) };

    fn partial_cmp(&self, other: &TreePath) -> Option<Ordering> {
        Some(self.cmp(other))
    }
}

impl Ord for TreePath {
    ghost cmp = { path_cmp };

    ghost total = { lists_total nat_list_cmp_total };

    ghost matches_partial_cmp = { λ p q. refl };

    ghost matches_eq = { lists_ties (slice_cmp nat_cmp) texts_ties };

    fn cmp(&self, other: &TreePath) -> Ordering {
        self.parts.cmp(&other.parts)
    }
}

/// What is kept of one directory: its time in whole seconds, and the names in it in byte order.
#[derive(Clone, Debug, Drop)]
pub struct Listing {
    pub time: u64,
    pub names: Texts,
}

impl Exact for Listing {
    fn copy(&self) -> Result<Listing, NoMemory> {
        Ok(self.clone()?)
    }
}

impl Same for Listing {
    fn is_same(&self, other: &Listing) -> bool {
        self.time == other.time && self.names.is_same(&other.names)
    }
}

fn is_part_byte(b: u8) -> bool
    ensures { result ≡ is_part_byte b }
{
    b != b'/' && b != 0
}

fn has_part_bytes(piece: &str) -> bool
    ensures { result ≡ list_all is_part_byte piece.now }
{
    piece.bytes().all(|b| is_part_byte(b))
}

fn is_part(piece: &str) -> bool
    ensures { result ≡ is_part piece.now }
{
    if piece.len() == 0 {
        return false;
    }
    if piece == "." {
        return false;
    }
    if piece == ".." {
        return false;
    }
    has_part_bytes(piece)
}

fn are_parts(pieces: &[&str]) -> bool
    ensures { result ≡ list_all is_part (map (λ x. x.now) pieces.now) }
{
    for piece in pieces {
        if !is_part(piece) {
            return false;
        }
    }
    true
}

fn with_part(parts: &Texts, part: &Text) -> Result<Texts, NoMemory>
    ensures { IfOk result (λ it. it ≡ parts.now ++ part.now ∷ []) }
{
    let mut more = parts.copy()?;
    more.push(part.copy()?)?;
    Ok(more)
}

/// What stands between the slashes.
fn pieces_of(alloc: Global, text: &str) -> Result<Vec<&str>, AllocError>
    ensures { IfOk result (λ v. map (λ x. x.now) v.items ≡ slice_split (λ b. b == 47) text.now) }
{
    text.split('/').collect(alloc)
}

fn owned(alloc: Global, pieces: &[&str]) -> Result<Texts, NoMemory>
    ensures { IfOk result (λ t. t ≡ map (λ x. x.now) pieces.now) }
{
    let mut texts = Texts::new(alloc);
    for piece in pieces {
        texts.push(Text::from_str(alloc, piece)?)?;
    }
    Ok(texts)
}

fn front_of(parts: &Texts, n: usize) -> Result<Texts, NoMemory>
    requires { n ≤ length parts.now }
    ensures { IfOk result (λ it. it ≡ take n parts.now) }
{
    let mut front = Texts::new(parts.alloc());
    for part in &parts.as_slice()[..n] {
        front.push(part.copy()?)?;
    }
    Ok(front)
}

#[tactic(auto, using(crate::proofs::PathText::joins))]
fn joined_text(parts: &Texts) -> Result<Text, NoMemory>
    ensures { IfOk result (λ t. t ≡ joined parts.now) }
{
    let mut text = Text::new(parts.alloc());
    for (n, part) in parts.as_slice().iter().enumerate() {
        if n > 0 {
            text.push_str("/")?;
        }
        text.push_str(part.as_str())?;
    }
    Ok(text)
}

impl Drop for TreePath {
    fn drop(self) {
        let TreePath { parts } = self;
        drop(parts);
    }
}
