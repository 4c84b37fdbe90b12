//! Laws, each a function that does nothing and whose contract is the law.
ghost use Rattle.std.specs.Prelude.{◌≡◌, ℕ, List, Bool, true, Ok, Err};
ghost use Rattle.machine_events.specs.declared.event.Entry.{Entry};
ghost use Rattle.trace_text.specs.Fields.{entry_fields};
ghost use Rattle.trace_text.specs.Trace.{line, unsplit};
ghost use Rattle.trace_fields.specs.declared.refusal.Cause.{Cause};
ghost use Rattle.trace_fields.specs.Reading.{Fields};
ghost use Rattle.trace_fields.specs.Splitting.{split};
ghost use Rattle.trace_entries.specs.Entries.{entry_in};
ghost use Rattle.trace_read.specs.Fitting.{entry_fits, entry_bytes, entries_fit, entries_bytes};
ghost use Rattle.trace_read.specs.Text.{text_of};
ghost use Rattle.trace_read.specs.Refusing.{Fits, Refused};

/// Each entry that a trace can hold is read from its line.
#[tactic(auto, using(crate::proofs::Entries::entry_again))]
pub fn entry_is_read()
    ensures { (old : Bool) (entry : Entry) → entry_fits old entry ≡ true → entry_bytes entry ≡ true
        → entry_in old (unsplit (entry_fields entry)) ≡ Ok entry }
{}

/// What is read of a line is spelled so, each byte of the line, and a trace can hold it.
pub fn read_entry_is_spelled()
    ensures { (old : Bool) (line : List ℕ) (entry : Entry) → entry_in old line ≡ Ok entry
        → (line ≡ unsplit (entry_fields entry)) × (entry_fits old entry ≡ true) }
{}

/// Each entry has one spelling, the same in both formats: two lines that are read as one entry are one.
#[tactic(auto, using(crate::proofs::Alike::one_spelling))]
pub fn one_spelling()
    ensures { (old new : Bool) (x y : List ℕ) (entry : Entry) → entry_in old x ≡ Ok entry → entry_in new y ≡ Ok entry
        → x ≡ y }
{}

/// Two entries that are spelled alike are one.
#[tactic(auto, using(crate::proofs::Alike::one_entry))]
pub fn one_entry()
    ensures { (old : Bool) (x y : Entry) → entry_fits old x ≡ true → entry_bytes x ≡ true → entry_fits old y ≡ true
        → entry_bytes y ≡ true → line x ≡ line y → x ≡ y }
{}

/// Two histories that are spelled alike, in one format, are one.
#[tactic(auto, using(crate::proofs::Alike::one_trace))]
pub fn one_trace()
    ensures { (old : Bool) (x y : List Entry) → entries_fit old x ≡ true → entries_bytes x ≡ true
        → entries_fit old y ≡ true → entries_bytes y ≡ true → text_of old x ≡ text_of old y → x ≡ y }
{}

/// A line is refused at the first of its fields at which no line goes on, and the cause is the one that fits there.
#[tactic(auto, using(crate::proofs::Refusals::refused_there))]
pub fn refused_at_the_first_field()
    ensures { (old : Bool) (line : List ℕ) (why : Cause) → entry_in old line ≡ Err why
        → Refused old (split 32 line) why }
{}

/// One cause fits a field, so the cause that is told is the only one.
#[tactic(auto, using(crate::proofs::Causes::one_fits))]
pub fn one_cause_fits()
    ensures { (old : Bool) (front : Fields) (x y : Cause) → Fits old front x → Fits old front y → x ≡ y }
{}
