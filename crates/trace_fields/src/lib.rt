//! What the fields of a trace hold, read: numbers, names, texts, and values.
#![tactic(auto)]

mod fields;
mod parts;
mod pieces;
mod refusal;
mod simple;
mod table;
mod texts;
mod value;
mod words;

pub use fields::{any_name_in, name_in, small_number_in, variable_in};
pub use pieces::split;
pub use refusal::{Cause, Refusal};
pub use simple::{error_in, load_in, module_in, place_in_path_in, signed_in, slot_in};
pub use table::lookup;
pub use texts::{spec_kind_in, state_in, texts_in, tree_path_in};
pub use value::{value_in, values_in};
