//! Laws, each a function that does nothing and whose contract is the law.
ghost use Rattle.std.specs.Prelude.{◌≡◌, true, Some};
ghost use Rattle.py_value.specs.declared.value.Value.{Value};
ghost use Rattle.trace_text.specs.Values.{value_text};
ghost use Rattle.trace_fields.specs.Values.{value_in};
ghost use Rattle.trace_read.specs.FieldsFit.{value_fits};

/// Each value that a trace can hold is read back from its spelling.
#[tactic(auto, using(crate::proofs::Nested::value_read))]
pub fn value_is_read()
    ensures { (value : Value) → value_fits value ≡ true → value_in 64 (value_text value) ≡ Some value }
{}
