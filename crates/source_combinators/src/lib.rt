//! Reading a list of tokens by descent: what it comes to when a token is refused, and, in `specs` and `proofs`, how forms
//! that are read rightly are put together. Nothing here knows a language: the tokens may be of any type.
#![tactic(auto)]

mod fault;

pub use fault::{Fault, ReadError, Refusal, refused};
