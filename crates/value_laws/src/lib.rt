//! Laws of kinds and of the operators on values. Each function does nothing: its contract is the
//! law.
#![tactic(auto)]

ghost use Rattle.value_laws.specs.Laws.{IsOrder, StandsApart, TextIsItself, EqualIsEquivalence, LessIsTransitive, RoundsDown};

/// The kinds are ordered: each is itself, what is above what is above is above, and no two are above
/// one another.
pub fn kinds_are_ordered()
    ensures { IsOrder }
{}

/// A ProfileError is no other kind, and no other kind is a ProfileError.
pub fn profile_error_stands_apart()
    ensures { StandsApart }
{}

/// The `str` of a text within the limit is the text.
pub fn str_of_text_is_itself()
    ensures { TextIsItself }
{}

/// `==` is an equivalence of the values that it compares.
pub fn equal_is_equivalence()
    ensures { EqualIsEquivalence }
{}

/// `<` is transitive wherever it answers: on numbers, on texts, and on lists and tuples of what has
/// an order.
pub fn less_is_transitive()
    ensures { LessIsTransitive }
{}

/// Quotient and remainder make up the number, and the remainder lies between 0 and the divisor: so
/// the quotient is rounded down (Language Reference 6.7).
pub fn division_rounds_down()
    ensures { RoundsDown }
{}
