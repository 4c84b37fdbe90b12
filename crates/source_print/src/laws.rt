//! Laws of the printer. The functions do nothing: their contracts are the laws.
ghost use Rattle.source_print.specs.LaidLaws.{PrintedIsLaid};
ghost use Rattle.source_print.specs.LexemeLaws.{PrintedIsSpelled};
ghost use Rattle.source_print.specs.TextLaws.{TextIsSource};

/// What is printed of a script that some tokens spell spells it again, with no more levels.
pub fn printed_is_spelled()
    ensures { PrintedIsSpelled }
{}

/// The print of a script that some lexemes spell stands on lines, and each name, number and string of it passes where all
/// those lexemes pass.
pub fn printed_is_laid()
    ensures { PrintedIsLaid }
{}

/// The text of a printed script is a source of the script, where some source of it is and the text is not longer than a
/// source may be.
pub fn text_is_source()
    ensures { TextIsSource }
{}
