//! What stands in the expanded tree.
ghost use Rattle.std.specs.Prelude.{◌≡◌, ◌++◌, List, None, Some};
ghost use Rattle.base_types.specs.Path.{Path};
ghost use Rattle.tree_files.specs.Files.{Files, IsTree, node_at};
ghost use Rattle.bundle_hook.specs.declared.bundle.Packed.{Packed};
ghost use Rattle.bundle_hook.specs.Expand.{bundle_at, expand};
ghost use Rattle.bundle_hook.specs.Inside.{node_inside};

/// A bundle stands as the folder that it lists.
pub fn a_bundle_is_a_folder()
    ensures { (f : Files) → IsTree f → (path rest : Path) (files : List Packed) → bundle_at f path ≡ Some files
        → node_at (expand f) (path ++ rest) ≡ node_inside files rest }
{}

/// Whatever is not in a bundle stays as it is.
pub fn all_else_stays()
    ensures { (f : Files) (p : Path) → ((path rest : Path) → p ≡ path ++ rest → bundle_at f path ≡ None)
        → node_at (expand f) p ≡ node_at f p }
{}
