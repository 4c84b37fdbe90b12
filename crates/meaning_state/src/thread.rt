//! What a thread keeps.
use crate::locals::Locals;
use crate::stack::Stack;
use base_owners::Shared;
use base_types::Text;
use py_value::Raised;
use source_functions::{Function, Program};
use spec_core::NumberMap;

/// What a source's text comes to: its script, or the error that its body raises.
#[derive(Drop)]
pub enum Parsing {
    Parsed(Program),
    Faulty(Raised),
}

/// A source whose text the thread has: the module that it belongs to, by its number and its name, and
/// its script.
#[derive(Drop)]
pub struct Source {
    pub mid: u32,
    pub name: Text,
    pub program: Program,
}

/// What a call adds to its place: its function, and its local variables.
#[derive(Drop)]
pub struct FunctionScope {
    pub function: Shared<Function>,
    pub locals: Locals,
}

/// Where work stands: in the module of this number, in the text of this load, and in a call, if it is
/// in one (Language Reference 4.1).
#[derive(Drop)]
pub struct Scope {
    pub mid: u32,
    pub load: u32,
    pub function: Option<FunctionScope>,
}

/// What a thread keeps beside its work: where it stands, the sources that it knows by their loads, and
/// the errors that running `except` and `finally` blocks handle, the innermost first.
#[derive(Drop)]
pub struct State {
    pub scope: Scope,
    pub kept: NumberMap<Source>,
    pub handling: Stack<Raised>,
}

/// A thread: what it keeps, and how many more bodies, calls and imports may be open.
#[derive(Drop)]
pub struct Thread {
    pub left: u32,
    pub state: State,
}
