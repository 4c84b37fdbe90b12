//! Laws of functions, each a function that does nothing and whose contract is the law.
ghost use Rattle.source_functions.specs.Laws.{NumberedInOrder};

/// In each script that tokens spell the functions have the numbers of their places.
pub fn numbered_in_order()
    ensures { NumberedInOrder }
{}
