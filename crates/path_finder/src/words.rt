//! What a search is given and what it wants.
use base_types::{Listing, Text, Texts, TreePath};
use spec_core::Spec;

/// What a kept listing says of the name that is searched.
#[derive(Clone, Copy)]
pub struct Probe {
    /// The time of the listing, in whole seconds.
    pub time: u64,
    /// Whether the last part of the name is in it.
    pub bare: bool,
    /// Whether that part with `.py` is in it.
    pub file: bool,
}

/// What a search finds.
#[derive(Drop)]
pub enum Found {
    /// A regular package or a module.
    Spec(Spec),
    /// The portions of a namespace package (PEP 420), in the order of the path.
    Portions(Texts),
}

/// What a search is given for its next step.
#[derive(Clone, Copy)]
pub enum LookIn {
    Start,
    /// The payment was made.
    Paid,
    /// What the kept listing says, or None where none is kept.
    Listed(Option<Probe>),
    /// The listing is kept.
    Kept,
}

/// What a search wants next.
#[derive(Drop)]
pub enum LookWant {
    /// One unit, for a call of the tree or not.
    Pay { tree: bool },
    /// The kept listing of a directory, and whether the part and the part with `.py` are in it.
    DirGet { dir: TreePath, part: Text },
    /// That this listing of a directory is kept.
    DirSet { dir: TreePath, listing: Listing },
    /// Nothing more: this was found.
    Done(Option<Found>),
}
