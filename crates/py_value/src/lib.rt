//! The values that scripts compute with, the errors that they raise, and the kinds of these errors.
#![tactic(auto)]

mod copies;
mod kind;
mod measures;
mod names;
mod operator;
mod sames;
mod value;

use base_types::Seq;
pub use kind::{Kind, Native};
pub use measures::{nesting, size, truth};
pub use names::{TypeName, type_name, type_of};
pub use operator::{Applied, BinOp, CmpOp};
pub use value::{ModData, ModRef, NsData, NsState, Place, Raised, RaisedData, Value};

/// Values in order.
pub type Items = Seq<Value>;
