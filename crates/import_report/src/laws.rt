//! What holds of each report.
ghost use Rattle.std.specs.List.Sorted.{IsStrictlySortedBy};
ghost use Rattle.base_types.specs.Path.{Path, path_cmp};
ghost use Rattle.tree_files.specs.Files.{Files};
ghost use Rattle.import_report.specs.Reports.{report_folders};

/// The folders that are listed for a report rise, so none is listed twice.
pub fn folders_are_listed_once()
    ensures { (files : Files) (dir : Path) → IsStrictlySortedBy path_cmp (report_folders files dir) }
{}
