ghost use Rattle.std.specs.Prelude.{◌≡◌, ◌↔◌, IsTrue};
ghost use Rattle.py_value.specs.Kinds.{parent, IsA};

use base_types::Same;

/// The kinds of errors: Python's classes of exceptions that scripts meet, and `ProfileError`, which
/// stands apart from their tree. `DeadlockError` is written `_DeadlockError`.
#[derive(Clone, Copy, PartialEq, Eq, Drop)]
pub enum Kind {
    BaseException,
    Exception,
    ArithmeticError,
    ZeroDivisionError,
    AttributeError,
    ImportError,
    ModuleNotFoundError,
    LookupError,
    IndexError,
    KeyError,
    NameError,
    UnboundLocalError,
    RuntimeError,
    RecursionError,
    DeadlockError,
    SyntaxError,
    TypeError,
    ValueError,
    ProfileError,
}

/// The functions that scripts find without defining them: the built-in ones, and those of the
/// modules `importlib` and `pyimport`.
#[derive(Clone, Copy, PartialEq, Eq, Drop)]
pub enum Native {
    Print,
    Str,
    Repr,
    Len,
    HasAttr,
    GetAttr,
    InvalidateCaches,
    Reload,
    Lazy,
}

impl Same for Kind {
    fn is_same(&self, other: &Kind) -> bool {
        *self == *other
    }
}

impl Same for Native {
    fn is_same(&self, other: &Native) -> bool {
        *self == *other
    }
}

impl Kind {
    /// The kind right above.
    pub fn parent(self) -> Option<Kind>
        ensures { result ≡ parent self }
    {
        match self {
            Kind::BaseException | Kind::ProfileError => None,
            Kind::Exception => Some(Kind::BaseException),
            Kind::ZeroDivisionError => Some(Kind::ArithmeticError),
            Kind::ModuleNotFoundError => Some(Kind::ImportError),
            Kind::IndexError | Kind::KeyError => Some(Kind::LookupError),
            Kind::UnboundLocalError => Some(Kind::NameError),
            Kind::RecursionError | Kind::DeadlockError => Some(Kind::RuntimeError),
            _ => Some(Kind::Exception),
        }
    }

    /// Whether the kind is the other or below it.
    pub fn is_a(self, other: Kind) -> bool
        ensures { IsTrue result ↔ IsA self other }
    {
        let mut at = Some(self);
        for _ in 0..4_u32 {
            let Some(kind) = at else {
                return false;
            };
            if kind == other {
                return true;
            }
            at = kind.parent();
        }
        false
    }
}
