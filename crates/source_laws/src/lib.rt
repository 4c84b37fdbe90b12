//! Laws of sources: the functions and the names of a script, and that what is printed of it parses to it.
#![tactic(auto)]

ghost use Rattle.source_laws.specs.Laws.{FunctionsAreNumbered, NamesAreGood};
ghost use Rattle.source_laws.specs.PrinterLaws.{SourcesParse};

/// The functions of a source have the numbers of their places among its `def` tokens.
pub fn functions_are_numbered()
    ensures { FunctionsAreNumbered }
{}

/// Each name in the tree of a source is an identifier that is its own normal form (Language Reference 2.3), and no
/// keyword. The parts of each dotted name of an import make a dotted name.
pub fn names_are_good()
    ensures { NamesAreGood }
{}

/// The sources of a script are what parses to it.
pub fn sources_parse()
    ensures { SourcesParse }
{}
