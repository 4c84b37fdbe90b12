//! Steps of expressions: atoms, operands from left to right, operators on their values (Language Reference 6).
#![tactic(auto)]

mod applying;
mod augmenting;
mod calling;
mod choosing;
mod evaluating;
mod gathering;
mod methods;
mod placing;
mod values;

pub use applying::{apply, compared, operator_of};
pub use augmenting::augment;
pub use calling::{call_callee, callee};
pub use choosing::{choose, second};
pub use evaluating::{atom, evaluate};
pub use gathering::{operand_value, operands};
pub use values::{give_sized, has_special};
