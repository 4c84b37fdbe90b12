ghost use Rattle.std.specs.Prelude.{◌≡◌, IfOk};

use crate::Items;
use crate::kind::{Kind, Native};
use base_types::{NoMemory, Text, Texts, Wide};
use std::alloc::AllocError;
use std::marker::Model;
use std::sync::Arc;

/// Where a module comes from: a file, named by its tree path as a text; the machine itself; or, as a
/// namespace package (PEP 420), several directories and no file.
#[derive(Clone, Drop)]
pub enum Place {
    File(Text),
    BuiltIn,
    Namespace,
}

/// What is known of a module: its number, name and place.
#[derive(Drop)]
pub struct ModData {
    pub mid: u32,
    pub name: Text,
    pub place: Place,
}

/// What is known of an error: its kind, its text, and for an import that failed the name that was asked for.
#[derive(Drop)]
pub struct RaisedData {
    pub kind: Kind,
    pub text: Text,
    pub name: Option<Text>,
}

/// A value of a script. `Nothing` is Python's `None`. A function is named by the load whose text
/// holds its `def`, its place among that text's functions, and its name. The last three stand for
/// the cache of modules, the search path and a namespace's path, which live in the machine.
#[cycle(value)]
#[derive(Drop)]
pub enum Value {
    Nothing,
    Bool(bool),
    Int(Wide),
    Text(Text),
    List(Items),
    Tuple(Items),
    Func { load: u32, index: u32, name: Text },
    Native(Native),
    Kind(Kind),
    Module(ModRef),
    Error(Raised),
    SysModules,
    SysPath,
    NsPath,
}

// A value is moved a dozen times for each piece of a script's work.
const _: () = prove!(size_of::<Value>() == 32);

/// What is kept of a namespace's search: the parent's path and the epoch that it was made with, and
/// the directories that it found.
#[derive(Drop)]
pub struct NsData {
    pub parent_path: Items,
    pub epoch: u64,
    pub portions: Texts,
}

/// A module. It is small, a copy is one owner more, and contracts see what is known of the module.
pub struct ModRef {
    held: Arc<ModData>,
}

const _: () = prove!(size_of::<ModRef>() == 8);

impl Model for ModRef {
    ghost use Rattle.py_value.specs.declared.value.ModData.{ModData};
    ghost use Rattle.std.specs.Arc.{arc_value};

    ghost Value = { ModData };

    ghost view = { λ it. arc_value it.held };
}

impl ModRef {
    /// A module of a number, a name and a place. An `Err` comes for want of memory alone.
    pub fn of(mid: u32, name: Text, place: Place) -> Result<ModRef, NoMemory>
        ensures { IfOk result (λ it. it ≡ record { mid = mid; name = name; place = place }) }
    {
        let alloc = name.alloc();
        let data = ModData { mid, name, place };
        Ok(ModRef {
            held: Arc::new(alloc, data)?,
        })
    }

    /// Its number.
    pub fn mid(&self) -> u32
        ensures { result ≡ self.now.mid }
    {
        self.held.mid
    }

    /// Its name.
    pub fn name(&self) -> &Text
        ensures { result.now ≡ self.now.name }
    {
        &self.held.name
    }

    /// Its place.
    pub fn place(&self) -> &Place
        ensures { result.now ≡ self.now.place }
    {
        &self.held.place
    }
}

impl Clone for ModRef {
    ghost is_clone = { λ it other. other ≡ it };

    fn clone(&self) -> Result<ModRef, AllocError> {
        Ok(ModRef {
            held: self.held.clone()?,
        })
    }
}

impl Drop for ModRef {
    fn drop(self) {
        let ModRef { held } = self;
        drop(held);
    }
}

/// An error. It is small, a copy is one owner more, and contracts see what is known of the error.
pub struct Raised {
    held: Arc<RaisedData>,
}

const _: () = prove!(size_of::<Raised>() == 8);

impl Model for Raised {
    ghost use Rattle.py_value.specs.declared.value.RaisedData.{RaisedData};
    ghost use Rattle.std.specs.Arc.{arc_value};

    ghost Value = { RaisedData };

    ghost view = { λ it. arc_value it.held };
}

impl Raised {
    /// An error of a kind, with a text and the name that was asked for. An `Err` comes for want of memory alone.
    pub fn of(kind: Kind, text: Text, name: Option<Text>) -> Result<Raised, NoMemory>
        ensures { IfOk result (λ it. it ≡ record { kind = kind; text = text; name = name }) }
    {
        let alloc = text.alloc();
        let data = RaisedData { kind, text, name };
        Ok(Raised {
            held: Arc::new(alloc, data)?,
        })
    }

    /// Its kind.
    pub fn kind(&self) -> Kind
        ensures { result ≡ self.now.kind }
    {
        self.held.kind
    }

    /// Its text.
    pub fn text(&self) -> &Text
        ensures { result.now ≡ self.now.text }
    {
        &self.held.text
    }

    /// The name that an import asked for.
    pub fn name(&self) -> &Option<Text>
        ensures { result.now ≡ self.now.name }
    {
        &self.held.name
    }
}

impl Clone for Raised {
    ghost is_clone = { λ it other. other ≡ it };

    fn clone(&self) -> Result<Raised, AllocError> {
        Ok(Raised {
            held: self.held.clone()?,
        })
    }
}

impl Drop for Raised {
    fn drop(self) {
        let Raised { held } = self;
        drop(held);
    }
}

/// The state of a namespace's search. It is small, a copy is one owner more, and contracts see what is kept.
pub struct NsState {
    held: Arc<NsData>,
}

const _: () = prove!(size_of::<NsState>() == 8);

impl Model for NsState {
    ghost use Rattle.py_value.specs.declared.value.NsData.{NsData};
    ghost use Rattle.std.specs.Arc.{arc_value};

    ghost Value = { NsData };

    ghost use Rattle.py_value.specs.contracts.value.NsData.{the_row};

    ghost coded = { the_row.coded };

    ghost view = { λ it. arc_value it.held };
}

impl NsState {
    /// What a namespace's search found with a parent's path in an epoch. An `Err` comes for want of memory alone.
    pub fn of(parent_path: Items, epoch: u64, portions: Texts) -> Result<NsState, NoMemory>
        ensures { IfOk result (λ it. it ≡ record { parent_path = parent_path; epoch = epoch; portions = portions }) }
    {
        let alloc = portions.alloc();
        let data = NsData {
            parent_path,
            epoch,
            portions,
        };
        Ok(NsState {
            held: Arc::new(alloc, data)?,
        })
    }

    /// The parent's path that it was made with.
    pub fn parent_path(&self) -> &Items
        ensures { result.now ≡ self.now.parent_path }
    {
        &self.held.parent_path
    }

    /// The epoch that it was made with.
    pub fn epoch(&self) -> u64
        ensures { result ≡ self.now.epoch }
    {
        self.held.epoch
    }

    /// The directories that it found.
    pub fn portions(&self) -> &Texts
        ensures { result.now ≡ self.now.portions }
    {
        &self.held.portions
    }
}

impl Clone for NsState {
    ghost is_clone = { λ it other. other ≡ it };

    fn clone(&self) -> Result<NsState, AllocError> {
        Ok(NsState {
            held: self.held.clone()?,
        })
    }
}

impl Drop for NsState {
    fn drop(self) {
        let NsState { held } = self;
        drop(held);
    }
}
