//! Modules and their loads.
use crate::vars::Vars;
use base_types::Seq;
use py_value::NsState;
use spec_core::Spec;

/// How far a module is.
#[derive(Clone, Copy, PartialEq, Eq, Drop)]
pub enum Phase {
    /// Its body has ended, or it has none.
    Ready,
    /// Its body is running.
    Initialising,
    /// Its body runs at the first use.
    Lazy,
}

/// What a load is for.
#[derive(Clone, Copy, PartialEq, Eq, Drop)]
pub enum LoadKind {
    /// The body of a script.
    Main,
    /// The body of a module that is imported.
    Plain,
    /// The body of a module that runs at the first use.
    Lazy,
    /// The body of a module once more.
    Reload,
}

/// How far a load is.
#[derive(Clone, Copy, PartialEq, Eq, Drop)]
pub enum LoadStage {
    Resting,
    Open,
    Ended,
}

/// A module: its spec, how far it is, its variables, the state of its search where it is a
/// namespace, and the load that it was made with, which the built-in modules have not.
#[derive(Drop)]
pub struct Object {
    pub spec: Spec,
    pub phase: Phase,
    pub vars: Vars,
    pub ns: Option<NsState>,
    pub load: Option<u32>,
}

/// One run of a module's body: by which thread, of which module, and with which text. The thread of
/// a resting load is the one that added it.
#[derive(Drop)]
pub struct Load {
    pub kind: LoadKind,
    pub thread: u32,
    pub mid: u32,
    pub text: Seq<u8>,
    pub stage: LoadStage,
}

/// A reload that is running: which thread reloads which module, and by which load, once it has one.
#[derive(Clone, Copy, PartialEq, Eq, Drop)]
pub struct Reload {
    pub thread: u32,
    pub mid: u32,
    pub load: Option<u32>,
}
