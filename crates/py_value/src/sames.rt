ghost use Rattle.std.specs.Prelude.{◌≡◌, ◌↔◌, IsTrue};

use crate::Items;
use crate::value::{ModRef, NsState, Place, Raised, Value};
use base_types::Same;

impl Same for Place {
    fn is_same(&self, other: &Place) -> bool {
        match self {
            Place::File(a) => match other {
                Place::File(b) => a.is_same(b),
                _ => false,
            },
            Place::BuiltIn => match other {
                Place::BuiltIn => true,
                _ => false,
            },
            Place::Namespace => match other {
                Place::Namespace => true,
                _ => false,
            },
        }
    }
}

impl Same for ModRef {
    fn is_same(&self, other: &ModRef) -> bool {
        self.mid() == other.mid()
            && self.name().is_same(other.name())
            && self.place().is_same(other.place())
    }
}

impl Same for Raised {
    fn is_same(&self, other: &Raised) -> bool {
        self.kind().is_same(&other.kind())
            && self.text().is_same(other.text())
            && self.name().is_same(other.name())
    }
}

impl Same for NsState {
    fn is_same(&self, other: &NsState) -> bool {
        self.parent_path().is_same(other.parent_path())
            && self.epoch() == other.epoch()
            && self.portions().is_same(other.portions())
    }
}

#[cycle(sames)]
fn are_same(a: &Value, b: &Value) -> bool
    ensures { IsTrue result ↔ (a.now ≡ b.now) }
{
    match a {
        Value::Nothing => match b {
            Value::Nothing => true,
            _ => false,
        },
        Value::Bool(x) => match b {
            Value::Bool(y) => *x == *y,
            _ => false,
        },
        Value::Int(x) => match b {
            Value::Int(y) => x.get() == y.get(),
            _ => false,
        },
        Value::Text(x) => match b {
            Value::Text(y) => x.is_same(y),
            _ => false,
        },
        Value::List(x) => match b {
            Value::List(y) => are_all_same(x, y),
            _ => false,
        },
        Value::Tuple(x) => match b {
            Value::Tuple(y) => are_all_same(x, y),
            _ => false,
        },
        Value::Func { load, index, name } => match b {
            Value::Func {
                load: to_load,
                index: to_index,
                name: to_name,
            } => *load == *to_load && *index == *to_index && name.is_same(to_name),
            _ => false,
        },
        Value::Native(x) => match b {
            Value::Native(y) => x.is_same(y),
            _ => false,
        },
        Value::Kind(x) => match b {
            Value::Kind(y) => x.is_same(y),
            _ => false,
        },
        Value::Module(x) => match b {
            Value::Module(y) => x.is_same(y),
            _ => false,
        },
        Value::Error(x) => match b {
            Value::Error(y) => x.is_same(y),
            _ => false,
        },
        Value::SysModules => match b {
            Value::SysModules => true,
            _ => false,
        },
        Value::SysPath => match b {
            Value::SysPath => true,
            _ => false,
        },
        Value::NsPath => match b {
            Value::NsPath => true,
            _ => false,
        },
    }
}

#[cycle(sames)]
fn are_all_same(a: &Items, b: &Items) -> bool
    ensures { IsTrue result ↔ (a.now ≡ b.now) }
{
    let xs = a.as_slice();
    let ys = b.as_slice();
    if xs.len() != ys.len() {
        return false;
    }
    for i in 0..xs.len() {
        if !are_same(&xs[i], &ys[i]) {
            return false;
        }
    }
    true
}

impl Same for Value {
    fn is_same(&self, other: &Value) -> bool {
        are_same(self, other)
    }
}
