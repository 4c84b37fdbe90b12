//! What a script means is safe: what was shown is enough for each next event, whatever the replies.
#![tactic(auto)]

ghost use Rattle.meaning_safety.specs.Law.{MeaningIsSafe};
ghost use Rattle.meaning_safety.specs.Laws.{PlainValuesHold, DisplaysHold, ItemsAreKnown, OperatorsHold, MoreIsKnown};

/// Whatever is replied, what was shown is enough for all that a script asks for next.
pub fn meaning_is_safe()
    ensures { MeaningIsSafe }
{}

/// Numbers, texts and all else without a module and a function hold none, and so does an error.
pub fn plain_values_hold()
    ensures { PlainValuesHold }
{}

/// A list or tuple of known items is known.
pub fn displays_hold()
    ensures { DisplaysHold }
{}

/// Each item of a known list or tuple is known.
pub fn items_are_known()
    ensures { ItemsAreKnown }
{}

/// What an operator gives for known operands is known, and an error holds nothing.
pub fn operators_hold()
    ensures { OperatorsHold }
{}

/// What is known stays known after one more pair.
pub fn more_is_known()
    ensures { MoreIsKnown }
{}
