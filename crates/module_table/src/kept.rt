//! A kept listing.
ghost use Rattle.std.specs.Prelude.{◌≡◌};
ghost use Rattle.module_table.specs.Names.{has_part};

use base_types::{Listing, Text, Texts};
use std::marker::Model;

/// A listing that is kept. Contracts see it as the listing.
///
/// A tree lists a directory in byte order, so a name is looked for by halves, in the time of a few comparisons also
/// where a folder has thousands of names. In a listing that is in another order each name is looked at.
pub struct KeptListing {
    listing: Listing,
    is_sorted: bool,
}

impl Model for KeptListing {
    ghost use Rattle.std.specs.Prelude.{◌≡◌, true};
    ghost use Rattle.base_types.specs.declared.path.Listing.{Listing};
    ghost use Rattle.module_table.specs.Names.{Rise};

    ghost Value = { Listing };

    ghost view = { λ k. k.listing };

    ghost invariant = { λ k. k.is_sorted ≡ true → Rise k.listing.names };
}

impl KeptListing {
    /// Keeps a listing. Its names are looked through once. It takes no memory.
    pub fn new(listing: Listing) -> KeptListing
        ensures { result ≡ listing }
    {
        let is_sorted = listing.names.as_slice().is_sorted();
        KeptListing { listing, is_sorted }
    }

    /// The time of the directory when it was listed, in whole seconds.
    pub fn time(&self) -> u64
        ensures { result ≡ self.now.time }
    {
        self.listing.time
    }

    /// Whether this name is in the directory.
    pub fn has(&self, part: &Text) -> bool
        ensures { result ≡ has_part self.now.names part.now }
    {
        if self.is_sorted {
            self.listing.names.as_slice().binary_search(part).is_ok()
        } else {
            has_part(&self.listing.names, part)
        }
    }
}

// Whether a name is among names in any order.
fn has_part(names: &Texts, part: &Text) -> bool
    ensures { result ≡ has_part names.now part.now }
{
    for name in names.as_slice() {
        if *name == *part {
            return true;
        }
    }
    false
}

impl Drop for KeptListing {
    fn drop(self) {
        let KeptListing {
            listing,
            is_sorted: _,
        } = self;
        drop(listing);
    }
}
