//! What a procedure is fed, and what it wants.
use base_types::{Seq, Text, TreePath};
use machine_events::{Event, Reply};
use meaning_state::Flow;
use path_finder::Found;
use py_value::{Items, ModRef};
use spec_core::Dotted;

/// What a procedure is fed.
#[derive(Drop)]
pub enum In {
    Start,
    /// What was to be paid is paid.
    Paid,
    /// The lock that it waited for is free.
    Woken,
    /// The reply to its event.
    Replied(Reply),
    /// What a search found, if it found anything.
    Found(Option<Found>),
    /// None where no file stands at the path, else its text, if that is not too long for a source.
    Opened(Option<Option<Seq<u8>>>),
    /// How a body, an import or the reading of a path ended.
    Ended(Flow),
}

/// What a procedure wants.
#[derive(Drop)]
pub enum Want {
    /// An event, which costs a unit and what its reply costs.
    Call(Event),
    /// A wait for a lock, which is free.
    Wait,
    /// Units, for a call of the tree or not.
    Pay {
        of_tree: bool,
        units: u64,
    },
    /// A search for a name on a path.
    Find {
        name: Dotted,
        path: Items,
    },
    /// The text of a file, if one stands there: a unit is paid for that.
    File(TreePath),
    /// The body of a module.
    Body {
        mid: u32,
        load: u32,
        name: Text,
        text: Seq<u8>,
    },
    /// The import of a parent.
    Import(Dotted),
    /// The path of a module, at most so many modules one above the other.
    Path {
        module: ModRef,
        turns: u64,
    },
    /// The first use of a module, which is lazy.
    Rouse(ModRef),
    /// Nothing more: it ended in this way.
    End(Flow),
}
