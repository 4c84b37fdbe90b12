//! What goes on by the reply to an event.
use crate::procedures::Procedure;
use base_owners::Shared;
use base_types::{Seq, Text, Texts};
use meaning_state::Flow;
use py_syntax::Stmt;
use py_value::{ModRef, Raised, Value};

/// What goes on by the reply to an event.
#[derive(Drop)]
pub enum OnReply {
    /// A statement or call is done; the reply is not looked at.
    Done,
    /// A variable of the module was read.
    Global(Text),
    /// An attribute of a module was read, raw or not.
    Member {
        module: ModRef,
        name: Text,
        is_raw: bool,
    },
    /// A variable was set.
    Stored,
    /// An attribute was set, raw or not.
    MemberStored {
        module: ModRef,
        name: Text,
        value: Value,
        is_raw: bool,
    },
    /// A variable of the module was deleted.
    Deleted(Text),
    /// An attribute was deleted, raw or not.
    MemberDeleted {
        module: ModRef,
        name: Text,
        is_raw: bool,
    },
    /// The name of a handler was unset, and then this goes on.
    Unbound(Flow),
    /// The text of a function's load came, and then it is called.
    Sourced {
        load: u32,
        index: u32,
        arguments: Seq<Value>,
    },
    /// A procedure is fed with it.
    Feed(Procedure),
    /// A name of a module was read for an import, raw or not, and whether its value is bound.
    FromModule {
        module: ModRef,
        name: Text,
        is_bound: bool,
        is_raw: bool,
    },
    /// The entry of a submodule in place of a name that is not set; whether the module was initialising.
    Entry {
        module: ModRef,
        name: Text,
        is_initialising: bool,
    },
    /// Whether a module is a package, read raw or not, before its submodules with these names are asked
    /// for.
    IfPackage {
        module: ModRef,
        names: Texts,
        is_raw: bool,
    },
    /// Whether a submodule is to be imported; its name was read raw or not.
    Submodule {
        module: ModRef,
        name: Text,
        is_raw: bool,
    },
    /// The entry of a submodule whose import raised this error.
    Missed(Raised),
    /// A module's `__all__`, read raw or not.
    All {
        module: ModRef,
        is_raw: bool,
    },
    /// All names of a module, for a star.
    Names(ModRef),
    /// The search path, which is an operand.
    SearchPath,
    /// The entry of a key of the cache, in whose place the default comes, if there is one.
    EntryFound {
        key: Value,
        default: Option<Value>,
    },
    /// Whether a key is in the cache, or is not.
    EntryTold(bool),
    /// An entry was set.
    EntrySet,
    /// The entry of the key was deleted.
    EntryDeleted(Value),
    /// The entry of the key was taken out.
    EntryPopped {
        key: Value,
        default: Option<Value>,
    },
    /// An entry was put into the search path.
    PathAdded,
    /// The package of the module in which a `from` statement has dots.
    Package {
        stmts: Shared<Seq<Stmt>>,
        at: usize,
    },
}
