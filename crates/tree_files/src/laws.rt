//! What holds of every tree of files.
ghost use Rattle.std.specs.Prelude.{◌≡◌, ℕ, List};
ghost use Rattle.base_types.specs.Path.{Path};
ghost use Rattle.tree_files.specs.Files.{Files, IsListing, names_in};

/// The names that the files have in a directory are its listing.
pub fn names_are_listed()
    ensures { (files : Files) (dir : Path) → IsListing files dir (names_in files dir) }
{}

/// A directory has one listing.
pub fn listing_is_one()
    ensures { (files : Files) (dir : Path) (names : List (List ℕ)) → IsListing files dir names
        → names ≡ names_in files dir }
{}
