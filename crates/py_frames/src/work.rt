//! Pieces of work that are due, and frames that wait.
use crate::procedures::Procedure;
use crate::replies::OnReply;
use base_owners::{Boxed, Shared};
use base_types::{Seq, Text, Texts, Wide};
use find_load::In;
use machine_events::Event;
use meaning_state::{Flow, Scope};
use py_syntax::{BinaryOp, Branch, Expr, Handler, Stmt};
use py_value::{ModRef, Raised, Value};
use spec_core::Dotted;

/// What operands are gathered for: an expression; the statement at a place of a block; or a call of a
/// method of this object, whose operands are its arguments.
#[derive(Drop)]
pub enum Form {
    Expression(Shared<Expr>),
    Statement(Shared<Seq<Stmt>>, usize),
    Method(Shared<Expr>, Value),
}

/// A piece of work that comes next.
#[derive(Drop)]
pub enum Item {
    /// Nothing more than the way on.
    Give(Flow),
    /// An expression.
    Eval(Shared<Expr>),
    /// An atom, once its unit is paid.
    Atom(Shared<Expr>),
    /// The operands of a form that have no values yet, and then the form.
    Operands {
        form: Form,
        done: Seq<Value>,
    },
    /// An operator on the values of its operands, once its unit is paid.
    Apply {
        expr: Shared<Expr>,
        values: Seq<Value>,
    },
    /// The attribute of this object that a call names, once its unit is paid, and then the call.
    Callee {
        expr: Shared<Expr>,
        object: Value,
    },
    /// A call of a method of this object, once its unit is paid.
    Method {
        expr: Shared<Expr>,
        object: Value,
        values: Seq<Value>,
    },
    /// The search path, which is an operand.
    SearchPath,
    /// The entry of a key of the cache, in whose place the default comes, if there is one.
    ReadEntry {
        key: Value,
        default: Option<Value>,
    },
    /// Whether a key is in the cache, or is not.
    HasEntry {
        key: Value,
        is_negated: bool,
    },
    /// The entry of a key is set.
    SetEntry {
        key: Value,
        value: Value,
    },
    /// The entry of a key is deleted.
    DeleteEntry(Value),
    /// The entry of a key is taken out, in whose place the default comes, if there is one.
    PopEntry {
        key: Value,
        default: Option<Value>,
    },
    /// An entry is put into the search path, at its end or before this place.
    AddEntry {
        at: Option<Wide>,
        value: Value,
    },
    /// A simple statement on the values of its operands.
    Perform {
        stmts: Shared<Seq<Stmt>>,
        at: usize,
        values: Seq<Value>,
    },
    /// `and` or `or`, once its left operand has a value and its unit is paid.
    Choose {
        expr: Shared<Expr>,
        left: Value,
    },
    /// A variable of the module.
    ReadGlobal(Text),
    /// An attribute.
    Member {
        object: Value,
        name: Text,
    },
    /// A call.
    Call {
        callee: Value,
        arguments: Seq<Value>,
    },
    /// A name is bound to a value.
    Store {
        name: Text,
        value: Value,
    },
    /// An augmented assignment, once its operator's unit is paid.
    Augment {
        name: Text,
        op: BinaryOp,
        values: Seq<Value>,
    },
    /// The statements of a block from a place on.
    Block {
        stmts: Shared<Seq<Stmt>>,
        at: usize,
    },
    /// One of them.
    Statement {
        stmts: Shared<Seq<Stmt>>,
        at: usize,
    },
    /// One of them, once its unit is paid.
    Begun {
        stmts: Shared<Seq<Stmt>>,
        at: usize,
    },
    /// The modules of an `import` from a place on.
    Imports {
        stmts: Shared<Seq<Stmt>>,
        at: usize,
        place: usize,
    },
    /// One of them, with its binding.
    Alias {
        stmts: Shared<Seq<Stmt>>,
        at: usize,
        place: usize,
    },
    /// The import of a name, which may be the parent of one that is imported, and whose module may be
    /// loaded at its first use only.
    Import {
        name: Text,
        is_parent: bool,
        is_lazy: bool,
    },
    /// The import of the parent of a name, as of a parent or as an `import` of it does. It is known to be a
    /// dotted name, and so not read again.
    Parent {
        name: Dotted,
        is_parent: bool,
    },
    /// A `from` statement, once its unit is paid.
    From {
        stmts: Shared<Seq<Stmt>>,
        at: usize,
    },
    /// A name of a module for an import, and whether its value is bound.
    FromModule {
        module: ModRef,
        name: Text,
        is_bound: bool,
    },
    /// The submodules with these names, where the module is a package.
    AskSubmodules {
        module: ModRef,
        names: Texts,
    },
    /// The submodules with the names from a place on.
    Submodules {
        module: ModRef,
        names: Texts,
        at: usize,
    },
    /// One of them.
    Submodule {
        module: ModRef,
        name: Text,
    },
    /// The items of a `from` statement from a place on are bound.
    Bindings {
        module: ModRef,
        stmts: Shared<Seq<Stmt>>,
        at: usize,
        place: usize,
    },
    /// One of them.
    Binding {
        module: ModRef,
        stmts: Shared<Seq<Stmt>>,
        at: usize,
        place: usize,
    },
    /// The names that a star stands for, from a place on, are bound.
    Stars {
        module: ModRef,
        names: Texts,
        at: usize,
    },
    /// One of them.
    Star {
        module: ModRef,
        name: Text,
    },
    /// A procedure is fed.
    Feed(Procedure, In),
    /// A body of a module or script.
    Start {
        mid: u32,
        load: u32,
        name: Text,
        text: Seq<u8>,
    },
    /// A body, once its text is paid for.
    Begin {
        mid: u32,
        load: u32,
        name: Text,
        text: Seq<u8>,
    },
    /// The branches of an `if` from a place on.
    Branches {
        branches: Shared<Seq<Branch>>,
        at: usize,
        otherwise: Shared<Seq<Stmt>>,
    },
    /// A loop that can take so many turns.
    Turn {
        test: Shared<Expr>,
        body: Shared<Seq<Stmt>>,
        turns: u64,
    },
    /// A turn, once its unit is paid, and as many more.
    Test {
        test: Shared<Expr>,
        body: Shared<Seq<Stmt>>,
        turns: u64,
    },
    /// A `try` without its `finally` block.
    Try {
        stmts: Shared<Seq<Stmt>>,
        at: usize,
    },
    /// The handlers of an error from a place on.
    Match {
        handlers: Shared<Seq<Handler>>,
        at: usize,
        error: Raised,
    },
    /// The handler that takes the error: its name is bound.
    Bind {
        handlers: Shared<Seq<Handler>>,
        at: usize,
        error: Raised,
    },
    /// Its block.
    Handle {
        handlers: Shared<Seq<Handler>>,
        at: usize,
        error: Raised,
    },
}

/// A piece of work that waits for what comes before it.
#[derive(Drop)]
pub enum Frame {
    /// The size of the value is paid.
    Sized,
    /// The value of the next operand of a form.
    Operands {
        form: Form,
        done: Seq<Value>,
    },
    /// The object of the attribute that a call names.
    Callee(Shared<Expr>),
    /// The list that stands for the search path, which is the operand at this place of a piece of work.
    Listed {
        item: Boxed<Item>,
        at: usize,
    },
    /// The first use of a lazy module, behind which this event is made.
    Roused {
        event: Boxed<Event>,
        reply: Boxed<OnReply>,
    },
    /// The left operand of `and` or `or`.
    Second(Shared<Expr>),
    /// The statements of a block from a place on.
    Block {
        stmts: Shared<Seq<Stmt>>,
        at: usize,
    },
    /// The test of a branch.
    Test {
        branches: Shared<Seq<Branch>>,
        at: usize,
        otherwise: Shared<Seq<Stmt>>,
    },
    /// The test of a loop.
    Decide {
        test: Shared<Expr>,
        body: Shared<Seq<Stmt>>,
        turns: u64,
    },
    /// The block of a loop.
    Loop {
        test: Shared<Expr>,
        body: Shared<Seq<Stmt>>,
        turns: u64,
    },
    /// The first block of a `try`.
    Handlers {
        stmts: Shared<Seq<Stmt>>,
        at: usize,
    },
    /// The kinds of a handler.
    Catch {
        handlers: Shared<Seq<Handler>>,
        at: usize,
        error: Raised,
    },
    /// The binding of a handler's name.
    Handle {
        handlers: Shared<Seq<Handler>>,
        at: usize,
        error: Raised,
    },
    /// The block of a handler, whose name is unset.
    EndHandler(Option<Text>),
    /// What comes before a `finally` block.
    Finally(Shared<Seq<Stmt>>),
    /// A `finally` block, behind which this goes on.
    Resume(Flow),
    /// A value that the name is bound to.
    Store(Text),
    /// An import, behind which the others of a statement come from a place on.
    Imports {
        stmts: Shared<Seq<Stmt>>,
        at: usize,
        place: usize,
    },
    /// The import of a name with dots, before its first part is asked for.
    Front {
        stmts: Shared<Seq<Stmt>>,
        at: usize,
        place: usize,
    },
    /// The import of its first part.
    Fronted {
        stmts: Shared<Seq<Stmt>>,
        at: usize,
        place: usize,
    },
    /// A module on the way to the last part, whose parts from one on follow.
    Parts {
        stmts: Shared<Seq<Stmt>>,
        at: usize,
        place: usize,
        part: usize,
    },
    /// The module of a `from` statement.
    From {
        stmts: Shared<Seq<Stmt>>,
        at: usize,
    },
    /// A submodule, behind which those with the names from a place on come.
    Submodules {
        module: ModRef,
        names: Texts,
        at: usize,
    },
    /// The import of a submodule that may be missing.
    TriedSubmodule(Dotted),
    /// What comes before the items of a `from` statement from a place on.
    Bindings {
        module: ModRef,
        stmts: Shared<Seq<Stmt>>,
        at: usize,
        place: usize,
    },
    /// What comes before the names of a star from a place on.
    Stars {
        module: ModRef,
        names: Texts,
        at: usize,
    },
    /// An import, within which one fewer may be open.
    Imported(u32),
    /// A body, an import or a path that a procedure waits for.
    Open(Procedure),
    /// A body: what the caller stands in, and how many may be open there.
    Back {
        scope: Boxed<Scope>,
        left: u32,
    },
    /// An attribute, of which it is told whether it is there.
    HasAttr,
    /// An attribute, in whose place this comes where it is not there.
    GetAttr(Value),
}
