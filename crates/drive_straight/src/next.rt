//! What comes next.
use base_owners::{Boxed, Shared};
use base_types::{Seq, Text};
use meaning_state::{Flow, Leave};
use py_frames::{Frame, Item, Want};
use py_syntax::{Expr, Stmt};
use py_value::{ModRef, Value};

/// What comes next. It is small, since it is moved at each return: what is rare is on the heap.
#[derive(Drop)]
pub enum Next {
    /// This value comes to the work that waits.
    Went(Value),
    /// This leave comes to the work that waits.
    Left(Leave),
    /// An expression begins.
    Evaluate(Shared<Expr>),
    /// A block begins with its first statement.
    Block(Shared<Seq<Stmt>>),
    /// A variable of the module is read.
    ReadGlobal(Text),
    /// A name is bound to a value.
    Store(Text, Value),
    /// An attribute of a module is read.
    Member(ModRef, Text),
    /// A call, piece by piece.
    Call {
        callee: Value,
        arguments: Seq<Value>,
    },
    /// An operator on the values of its operands, once its unit is paid, piece by piece.
    Apply {
        expr: Shared<Expr>,
        values: Seq<Value>,
    },
    /// A statement of a block, once its unit is paid, piece by piece.
    Begun {
        stmts: Shared<Seq<Stmt>>,
        at: usize,
    },
    /// Any other piece of work, piece by piece.
    Piece(Boxed<Item>),
    /// A frame and the way on that comes to it, piece by piece.
    Frame(Boxed<(Frame, Flow)>),
    /// What a piece of work wants.
    Wanted(Boxed<Want>),
}
