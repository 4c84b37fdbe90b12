//! Writing and reading agree.
ghost use Rattle.std.specs.Prelude.{◌≡◌, ◌↔◌, ℕ, List, Option, Some};
ghost use Rattle.bundle_hook.specs.declared.bundle.Index.{Index};
ghost use Rattle.bundle_hook.specs.declared.bundle.Packed.{Packed};
ghost use Rattle.bundle_hook.specs.Bundle.{IsBundle, IsFrontOf, Reads, StandIn, entries_of, index_of};
ghost use Rattle.bundle_hook.specs.Files.{files_in, index_in};

/// The bytes are a bundle of at most one list of files.
pub fn at_most_one_list()
    ensures { (a b : List Packed) (bytes : List ℕ) → IsBundle a bytes → IsBundle b bytes → a ≡ b }
{}

/// The index of a bundle has each file's path, and its bytes stand where it says.
pub fn bytes_stand_there()
    ensures { (files : List Packed) (bytes : List ℕ) → IsBundle files bytes
        → StandIn bytes files (index_of (entries_of files)).items }
{}

/// What is written is read: an answer of `read_index` on the first bytes of what `write_bundle` answered lists the files
/// that were written.
pub fn what_is_written_is_read()
    ensures { (files : List Packed) (bytes front : List ℕ) (size : ℕ) (o : Option Index) → IsBundle files bytes
        → IsFrontOf front size bytes → Reads front size o → o ≡ Some (index_of (entries_of files)) }
{}

/// The files that are found in bytes are those of which the bytes are a bundle.
pub fn files_are_found()
    ensures { (files : List Packed) (bytes : List ℕ) → (files_in bytes ≡ Some files) ↔ IsBundle files bytes }
{}

/// An answer of `read_index` on the first bytes of a file is the index of what is found in the file.
pub fn index_is_of_the_file()
    ensures { (bytes front : List ℕ) (size : ℕ) (o : Option Index) → IsFrontOf front size bytes
        → Reads front size o → o ≡ index_in bytes }
{}
