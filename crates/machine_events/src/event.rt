//! Events, replies and entries.
use crate::carried::Carried;
use crate::module::Slot;
use base_types::{Listing, Seq, Text, Texts, TreePath, Wide};
use py_value::{Items, ModRef, NsState, Raised, Value};
use spec_core::{Dotted, Spec};

/// How a script ended.
#[derive(Drop)]
pub enum Outcome {
    /// Its body came to its end.
    Normal,
    /// An error left its body.
    Raised(Raised),
    /// Its budget was spent.
    Fuel,
    /// A call on the tree failed.
    Read,
}

/// What a thread asks of the machine, one atomic step each.
#[derive(Drop)]
pub enum Event {
    /// Is the name in the cache?
    Ask(Dotted),
    /// As Ask, but a name that is missing is locked.
    Take(Dotted),
    /// The thread stops waiting for a lock.
    Wake,
    /// A module is made and entered, and its body begins.
    Add {
        spec: Spec,
        text: Seq<u8>,
    },
    /// A body has ended.
    Finish {
        load: u32,
        good: bool,
    },
    /// A lock that was taken is given back without a load.
    Release(Dotted),
    /// A variable is read.
    GetVar {
        mid: u32,
        name: Text,
        raw: bool,
    },
    /// A variable is set. What is small stands first, so that it takes no word of its own.
    SetVar {
        raw: bool,
        mid: u32,
        name: Text,
        value: Value,
    },
    /// A variable is deleted.
    DelVar {
        mid: u32,
        name: Text,
        raw: bool,
    },
    /// The names of a module's variables are read.
    Names(u32),
    /// The text of a load is read.
    Source(u32),
    /// A text is printed.
    Print(Text),
    /// The search path is read.
    PathGet,
    /// An item is put into the search path, at an index or last.
    PathAdd {
        at: Option<Wide>,
        value: Carried<Value>,
    },
    /// The kept listing of a directory is looked at.
    DirGet {
        dir: TreePath,
        part: Text,
    },
    /// A listing is kept.
    DirSet {
        dir: TreePath,
        listing: Carried<Listing>,
    },
    /// All listings are dropped.
    Invalidate,
    /// The search state of a namespace is read.
    NsGet(u32),
    /// The search state of a namespace is kept.
    NsSet {
        mid: u32,
        state: NsState,
    },
    /// A cache entry is read.
    TabGet(Dotted),
    /// A cache entry is set.
    TabSet {
        name: Dotted,
        slot: Slot,
    },
    /// A cache entry is dropped.
    TabDel(Dotted),
    /// A reload begins.
    ReloadBegin {
        mid: u32,
        raw: bool,
    },
    /// The body of a reload begins.
    ReloadTake {
        mid: u32,
        spec: Spec,
        text: Seq<u8>,
    },
    /// A reload ends, with its load where it has one.
    ReloadEnd {
        mid: u32,
        load: Option<u32>,
    },
    /// A module is made whose body runs at the first use.
    AddLazy {
        spec: Spec,
        text: Seq<u8>,
    },
    /// A lazy module is to run its body.
    Rouse(u32),
    /// A module that runs as a program gets its file and its text.
    Main {
        spec: Spec,
        text: Seq<u8>,
    },
    /// The script has ended. `spent` is its budget, and where a call of the tree failed what had been paid
    /// before the payment for that call.
    End {
        outcome: Outcome,
        spent: u64,
    },
}

/// What the machine answers.
#[derive(Drop)]
pub enum Reply {
    Module(ModRef),
    Cycle(ModRef),
    Halted,
    Missing,
    Deadlock,
    Wait(Dotted),
    Mine(u64),
    Woken,
    /// The numbers of the load and of its module.
    Load(u32, u32),
    Kept(Slot),
    Lost,
    LostParent,
    Value(Value),
    /// Whether the module was initialising.
    Unset(bool),
    Sleeping,
    Fixed,
    Names(Texts),
    Loaded(ModRef, Seq<u8>),
    Path(Items),
    Full,
    /// The kept state, and the epoch of the machine.
    Ns(NsState, u64),
    Slot(Slot),
    Was(Slot),
    NotThere,
    Busy(ModRef),
    Begun(u64),
    Yours(u32, Seq<u8>),
    NoListing,
    /// The time of the listing, whether the part is in it, and whether the part with `.py` is.
    Listing(u64, bool, bool),
    Ready,
    Done,
}

/// One event of one thread, with its reply: a line of a history.
#[derive(Drop)]
pub struct Entry {
    pub thread: u32,
    pub event: Event,
    pub reply: Reply,
}

// A history holds one entry for each event, and each event is moved on its way there.
const _: () = prove!(size_of::<Event>() <= 56);

const _: () = prove!(size_of::<Reply>() <= 40);

const _: () = prove!(size_of::<Entry>() <= 104);

const _: () = prove!(size_of::<Outcome>() == 16);

/// An event of a thread that is known, with its reply.
#[derive(Drop)]
pub struct Pair {
    pub event: Event,
    pub reply: Reply,
}

/// Whether a script's recorded pairs follow what the script means: all of them, or the least place
/// whose event is not the one that is due.
#[derive(Clone, Copy, PartialEq, Eq, Drop)]
pub enum Follow {
    Yes,
    Parts { at: u32 },
}
